//! Writing values in DER.

ghost use Rattle.std.specs.Prelude.{◌≡◌, ◌+◌, ◌^◌, ◌<◌, ◌≤◌, [], ◌++◌, length, take, IfOk, OnOk, OnErr};
ghost use Rattle.std.specs.Io.{StartsWith};
ghost use Rattle.rpki_der.specs.Writing.{der_length, der_primitive, der_constructed};

use crate::tag::Tag;
use bytes::Bytes;
use rpki_common::OutOfMemory;
use std::alloc::Global;
use std::marker::Model;

// The length octets of a number, and how many they are.
fn length_octets(n: usize) -> ([u8; 5], usize)
    requires { n < 2 ^ 32 }
    ensures octets { take result.1 result.0 ≡ der_length n }
    ensures within { result.1 ≤ 5 }
{
    let second = n / 0x100;
    let third = second / 0x100;
    let fourth = third / 0x100;
    let octets = [
        (fourth % 0x100) as u8,
        (third % 0x100) as u8,
        (second % 0x100) as u8,
        (n % 0x100) as u8,
    ];
    let [a, b, c, d] = octets;
    if n < 0x80 {
        ([n as u8, 0, 0, 0, 0], 1)
    } else if n < 0x100 {
        ([0x81, d, 0, 0, 0], 2)
    } else if n < 0x1_0000 {
        ([0x82, c, d, 0, 0], 3)
    } else if n < 0x100_0000 {
        ([0x83, b, c, d, 0], 4)
    } else {
        ([0x84, a, b, c, d], 5)
    }
}

// Appends identifier, length and contents; a part of them may stand there where memory ran out.
fn append(out: &mut Vec<u8>, identifier: &[u8], content: &[u8]) -> Result<(), OutOfMemory>
    requires { length content.now < 2 ^ 32 }
    ensures ok { OnOk result (out.new.items ≡ out.old.items
        ++ (identifier.now ++ (der_length (length content.now) ++ content.now))) }
    ensures err { OnErr result (StartsWith out.new.items out.old.items) }
{
    let (octets, count) = length_octets(content.len());
    out.extend_from_slice(identifier)?;
    out.extend_from_slice(&octets[..count])?;
    out.extend_from_slice(content)?;
    Ok(())
}

/// Octets of values that are being written in DER, one behind the other.
///
/// In a clause it is the list of what was written.
#[derive(Drop)]
pub struct Writer {
    alloc: Global,
    octets: Vec<u8>,
}

impl Model for Writer {
    ghost use Rattle.std.specs.Prelude.{ℕ, List};

    ghost Value = { List ℕ };

    ghost view = { λ w. w.octets.items };
}

impl Writer {
    /// A writer of nothing so far.
    pub fn new(alloc: Global) -> Writer
        ensures { result ≡ [] }
    {
        Writer {
            alloc,
            octets: Vec::new(alloc),
        }
    }

    /// A writer of nothing so far, which takes its memory where this one does: for what stands inside a constructed value.
    pub fn inner(&self) -> Writer
        ensures { result ≡ [] }
    {
        Writer::new(self.alloc)
    }

    // Appends a value with this identifier and these contents.
    fn write(&mut self, identifier: &[u8], content: &[u8]) -> Result<(), OutOfMemory>
        requires { length content.now < 2 ^ 32 }
        ensures ok { OnOk result (self.new ≡ self.old
            ++ (identifier.now ++ (der_length (length content.now) ++ content.now))) }
        ensures err { OnErr result (self.new ≡ self.old) }
    {
        let start = self.octets.len();
        match append(&mut self.octets, identifier, content) {
            Ok(()) => Ok(()),
            Err(error) => {
                self.octets.truncate(start);
                Err(error)
            }
        }
    }

    /// Appends a primitive value with this tag and these contents, which have to be below 2^32 octets. After a refusal nothing is
    /// appended.
    pub fn primitive(&mut self, tag: Tag, content: &[u8]) -> Result<(), OutOfMemory>
        requires { length content.now < 2 ^ 32 }
        ensures ok { OnOk result (self.new ≡ self.old ++ der_primitive tag content.now) }
        ensures err { OnErr result (self.new ≡ self.old) }
    {
        self.write(tag.as_slice(), content)
    }

    /// Appends a constructed value with this tag, whose contents another writer has: below 2^32 octets. After a refusal nothing is
    /// appended.
    pub fn constructed(&mut self, tag: Tag, inner: &Writer) -> Result<(), OutOfMemory>
        requires { length inner.now < 2 ^ 32 }
        ensures ok { OnOk result (self.new ≡ self.old ++ der_constructed tag inner.now) }
        ensures err { OnErr result (self.new ≡ self.old) }
    {
        let (octets, count) = tag.constructed_octets();
        self.write(&octets[..count], inner.as_slice())
    }

    /// Appends octets as they are: values that were spelled before. After a refusal nothing is appended.
    pub fn raw(&mut self, octets: &[u8]) -> Result<(), OutOfMemory>
        ensures ok { OnOk result (self.new ≡ self.old ++ octets.now) }
        ensures err { OnErr result (self.new ≡ self.old) }
    {
        self.octets.extend_from_slice(octets)?;
        Ok(())
    }

    /// What was written so far.
    pub fn as_slice(&self) -> &[u8]
        ensures { result.now ≡ self.now }
    {
        &self.octets
    }

    /// What was written, to be kept.
    pub fn into_captured(self) -> Result<Captured, OutOfMemory>
        ensures { IfOk result (λ c. c ≡ self) }
    {
        let octets = Bytes::from_vec(self.octets)?;
        Ok(Captured { octets })
    }
}

/// Octets of values, as they were written.
///
/// In a clause it is the list of the octets.
pub struct Captured {
    octets: Bytes,
}

impl Drop for Captured {
    fn drop(self) {
        let Captured { octets } = self;
    }
}

impl Model for Captured {
    ghost use Rattle.std.specs.Prelude.{ℕ, List};

    ghost Value = { List ℕ };

    ghost view = { λ c. c.octets };
}

impl Captured {
    /// The octets.
    pub fn as_slice(&self) -> &[u8]
        ensures { result.now ≡ self.now }
    {
        self.octets.as_slice()
    }

    /// The octets, as shared ones.
    pub fn into_bytes(self) -> Bytes
        ensures { result ≡ self }
    {
        let Captured { octets } = self;
        octets
    }

    /// Equal octets.
    pub fn clone(&self, _alloc: Global) -> Result<Captured, OutOfMemory>
        ensures { IfOk result (λ c. c ≡ self.now) }
    {
        let octets = self.octets.clone()?;
        Ok(Captured { octets })
    }
}
