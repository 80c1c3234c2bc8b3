//! Leaves that are kept.

ghost use Rattle.std.specs.Prelude.{◌≡◌, length, IfOk};
ghost use Rattle.rpki_der.specs.OctetString.{octet_string};
ghost use Rattle.rpki_der.specs.Oid.{oid};
ghost use Rattle.rpki_der.specs.Bits.{bit_string};
ghost use Rattle.rpki_der.specs.Whole.{HoldsOne};

use crate::bits::take_bits;
use crate::cursor::Cursor;
use crate::error::DecodeError;
use crate::mode::Mode;
use crate::octets::take_octets;
use crate::oid::take_oid;
use crate::tag::Tag;
use bytes::Bytes;
use rpki_common::OutOfMemory;
use std::alloc::Global;
use std::marker::Model;

/// An OCTET STRING (X.690, 8.7).
///
/// In a clause it is the list of its octets, those of its segments joined.
#[derive(PartialEq, Eq)]
pub struct OctetString {
    octets: Bytes,
}

impl Drop for OctetString {
    fn drop(self) {
        let OctetString { octets } = self;
    }
}

impl Model for OctetString {
    ghost use Rattle.std.specs.Prelude.{ℕ, List};

    ghost Value = { List ℕ };

    ghost view = { λ s. s.octets };

    ghost inverse = { λ l. record { octets = l } };
}

impl OctetString {
    /// The OCTET STRING that the octets hold, with nothing behind it; Malformed exactly where they hold none.
    pub fn take(alloc: Global, mode: Mode, octets: &[u8]) -> Result<OctetString, DecodeError>
        ensures { HoldsOne (octet_string mode) (λ s. s) mode octets.now result }
    {
        let mut cursor = Cursor::new(alloc, mode, octets);
        let joined = take_octets(alloc, &mut cursor, Tag::OCTET_STRING)?;
        if !cursor.end() {
            return Err(DecodeError::Malformed);
        }
        let octets = Bytes::from_vec(joined)?;
        Ok(OctetString { octets })
    }

    /// Its octets.
    pub fn as_slice(&self) -> &[u8]
        ensures { result.now ≡ self.now }
    {
        self.octets.as_slice()
    }

    /// How many octets it has.
    pub fn len(&self) -> usize
        ensures { result ≡ length self.now }
    {
        self.octets.as_slice().len()
    }

    /// Its octets, copied.
    pub fn to_bytes(&self, alloc: Global) -> Result<Bytes, OutOfMemory>
        ensures { IfOk result (λ b. b ≡ self.now) }
    {
        Ok(Bytes::copy_from_slice(alloc, self.as_slice())?)
    }

    /// An equal octet string.
    pub fn clone(&self, _alloc: Global) -> Result<OctetString, OutOfMemory>
        ensures { IfOk result (λ s. s ≡ self.now) }
    {
        let octets = self.octets.clone()?;
        Ok(OctetString { octets })
    }
}

/// A BIT STRING (X.690, 8.6).
///
/// In a clause it is its count of unused bits and its octets.
#[derive(PartialEq, Eq)]
pub struct BitString {
    unused: u8,
    octets: Bytes,
}

impl Drop for BitString {
    fn drop(self) {
        let BitString { unused, octets } = self;
    }
}

impl Model for BitString {
    ghost use Rattle.rpki_der.specs.Bits.{BitFields};

    ghost Value = { BitFields };

    ghost view = { λ s. record { unused = s.unused; octets = s.octets } };

    ghost inverse = { λ b. record { unused = b.unused; octets = b.octets } };
}

impl BitString {
    /// The BIT STRING that the octets hold, with nothing behind it; Malformed exactly where they hold none.
    pub fn take(alloc: Global, mode: Mode, octets: &[u8]) -> Result<BitString, DecodeError>
        ensures { HoldsOne bit_string (λ s. s) mode octets.now result }
    {
        let mut cursor = Cursor::new(alloc, mode, octets);
        let (unused, found) = take_bits(&mut cursor)?;
        if !cursor.end() {
            return Err(DecodeError::Malformed);
        }
        let octets = Bytes::copy_from_slice(alloc, found)?;
        Ok(BitString { unused, octets })
    }

    /// How many bits of the last octet are unused.
    pub fn unused(&self) -> u8
        ensures { result ≡ self.now.unused }
    {
        self.unused
    }

    /// The octets of the bits.
    pub fn octets(&self) -> &[u8]
        ensures { result.now ≡ self.now.octets }
    {
        self.octets.as_slice()
    }

    /// An equal bit string.
    pub fn clone(&self, _alloc: Global) -> Result<BitString, OutOfMemory>
        ensures { IfOk result (λ s. s ≡ self.now) }
    {
        let octets = self.octets.clone()?;
        Ok(BitString {
            unused: self.unused,
            octets,
        })
    }
}

/// An OBJECT IDENTIFIER (X.690, 8.19).
///
/// In a clause it is the list of its contents octets.
#[derive(PartialEq, Eq)]
pub struct Oid {
    octets: Bytes,
}

impl Drop for Oid {
    fn drop(self) {
        let Oid { octets } = self;
    }
}

impl Model for Oid {
    ghost use Rattle.std.specs.Prelude.{ℕ, List};

    ghost Value = { List ℕ };

    ghost view = { λ s. s.octets };

    ghost inverse = { λ l. record { octets = l } };
}

impl Oid {
    /// The OBJECT IDENTIFIER that the octets hold, with nothing behind it; Malformed exactly where they hold none.
    pub fn take(alloc: Global, mode: Mode, octets: &[u8]) -> Result<Oid, DecodeError>
        ensures { HoldsOne oid (λ s. s) mode octets.now result }
    {
        let mut cursor = Cursor::new(alloc, mode, octets);
        let found = take_oid(&mut cursor)?;
        if !cursor.end() {
            return Err(DecodeError::Malformed);
        }
        let octets = Bytes::copy_from_slice(alloc, found)?;
        Ok(Oid { octets })
    }

    /// Its contents octets.
    pub fn as_slice(&self) -> &[u8]
        ensures { result.now ≡ self.now }
    {
        self.octets.as_slice()
    }

    /// An equal object identifier.
    pub fn clone(&self, _alloc: Global) -> Result<Oid, OutOfMemory>
        ensures { IfOk result (λ s. s ≡ self.now) }
    {
        let octets = self.octets.clone()?;
        Ok(Oid { octets })
    }
}
