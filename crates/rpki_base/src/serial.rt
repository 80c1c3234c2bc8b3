//! Serial numbers.

ghost use Rattle.std.specs.Prelude.{◌≡◌, ◌+◌, ◌-◌, ◌<◌, ◌≤◌, ◌∷◌, ◌++◌, drop, take, length, replicate, option_and_then, OnOk, OnErr};
ghost use Rattle.rpki_der.specs.Takes.{Takes};
ghost use Rattle.rpki_der.specs.Tags.{integer_tag};
ghost use Rattle.rpki_der.specs.Ticks.{TakesCounted};
ghost use Rattle.rpki_der.specs.Number.{minimal};
ghost use Rattle.rpki_der.specs.Whole.{whole_of};
ghost use Rattle.rpki_der.specs.Writing.{der_primitive};
ghost use Rattle.rpki_base.specs.Serial as spec;

use rpki_der::{
    Cursor, DecodeError, Mode, OutOfMemory, Steps, Tag, Writer, take_integer_counted,
    take_whole_primitive,
};
use std::marker::{Brand, Model};
use std::sync::ledger::{Blank, Ledger};

/// A serial number (RFC 5280, 4.1.2.2): a number that isn't negative, in at most twenty octets.
///
/// In a clause it is its twenty octets, the most significant first.
#[derive(Clone, Copy, Debug, PartialEq, Eq)]
pub struct Serial {
    octets: [u8; 20],
}

impl Model for Serial {
    ghost use Rattle.std.specs.Prelude.{ℕ, List};

    ghost Value = { List ℕ };

    ghost view = { λ s. s.octets };

    ghost inverse = { λ l. record { octets = l } };
}

// The octets in twenty, with zeros in front.
fn in_twenty(octets: &[u8]) -> [u8; 20]
    requires { length octets.now ≤ 20 }
    ensures { result ≡ replicate (20 - length octets.now) 0 ++ octets.now }
{
    let mut held = [0u8; 20];
    held[20 - octets.len()..].copy_from_slice(octets);
    held
}

// The octets without a leading 00.
fn without_zero(octets: &[u8]) -> &[u8]
    ensures { result.now ≡ spec.without_zero octets.now }
{
    match octets {
        [0, rest @ ..] => rest,
        _ => octets,
    }
}

// The serial number that the contents of an INTEGER are.
fn serial_number(octets: &[u8]) -> Option<Serial>
    ensures { result ≡ spec.serial_number octets.now }
{
    if !octets.is_empty() && octets[0] >= 0x80 {
        return None;
    }
    let rest = without_zero(octets);
    if rest.len() > 20 {
        return None;
    }
    Some(Serial {
        octets: in_twenty(rest),
    })
}

// The serial number that the contents of an INTEGER are, if no octet of them could go.
fn shortest_number(octets: &[u8]) -> Option<Serial>
    ensures { result ≡ option_and_then spec.serial_number (minimal octets.now) }
{
    match octets {
        [] => None,
        [0, second, ..] if *second < 0x80 => None,
        _ => serial_number(octets),
    }
}

impl From<u64> for Serial {
    ghost use Rattle.rpki_base.specs.Serial.{serial_of};

    ghost from_gives = { λ n s. s ≡ serial_of n };

    fn from(number: u64) -> Serial {
        Serial {
            octets: in_twenty(&number.to_be_bytes()),
        }
    }
}

impl From<[u8; 20]> for Serial {
    ghost use Rattle.std.specs.Prelude.{◌≡◌};

    ghost from_gives = { λ octets s. s ≡ octets };

    fn from(octets: [u8; 20]) -> Serial {
        Serial { octets }
    }
}

// The octets behind 00.
fn behind_zero(octets: &[u8; 20]) -> [u8; 21]
    ensures { result ≡ 0 ∷ octets.now }
{
    let mut longer = [0u8; 21];
    longer[1..].copy_from_slice(octets.as_slice());
    longer
}

// The contents of the INTEGER that the octets are: what is left of the result's octets from its number on.
fn contents(octets: &[u8; 20]) -> ([u8; 21], usize)
    ensures contents { drop result.1 result.0 ≡ spec.serial_content octets.now }
    ensures within { result.1 ≤ 20 }
{
    let longer = behind_zero(octets);
    for start in 0..20usize {
        if longer[start] != 0 || longer[start + 1] >= 0x80 {
            return (longer, start);
        }
    }
    (longer, 20)
}

impl Serial {
    /// Its twenty octets, the most significant first.
    pub fn as_slice(&self) -> &[u8]
        ensures value { result.now ≡ self.now }
        ensures twenty { length result.now ≡ 20 }
    {
        &self.octets
    }

    /// The serial number that the octets are, as `take_from` reads it, with nothing behind it; None where they are none.
    pub fn take(mode: Mode, octets: &[u8]) -> Option<Serial>
        ensures { result ≡ whole_of spec.serial mode octets.now }
    {
        let octets = take_whole_primitive(mode, octets, Tag::INTEGER)?;
        shortest_number(octets)
    }

    /// The serial number that stands next, as `take_from` reads it. It ticks once.
    pub fn take_from_counted<L: Ledger>(
        cursor: &mut Cursor<'_>,
        steps: &mut Steps<L>,
    ) -> Result<Serial, DecodeError>
        ensures { TakesCounted 1 spec.serial (λ x. x)
            cursor.old cursor.new steps.old steps.new result }
    {
        let octets = take_integer_counted(cursor, steps)?;
        match serial_number(octets) {
            Some(serial) => Ok(serial),
            None => Err(DecodeError::Malformed),
        }
    }

    fn take_from_within<L: Ledger>(
        cursor: &mut Cursor<'_>,
        blank: Blank,
    ) -> Result<Serial, DecodeError>
        requires name { blank.name ≡ L.name }
        requires parts { blank.parts ≡ L.parts }
        requires some { 0 < blank.parts }
        ensures { Takes spec.serial (λ x. x) cursor.old cursor.new result }
    {
        let mut steps = Steps::<L>::new(blank);
        Serial::take_from_counted(cursor, &mut steps)
    }

    /// The serial number that stands next: an INTEGER that isn't negative, of at most twenty octets behind a leading 00.
    pub fn take_from(cursor: &mut Cursor<'_>) -> Result<Serial, DecodeError>
        ensures { Takes spec.serial (λ x. x) cursor.old cursor.new result }
    {
        Serial::take_from_within::<Brand>(cursor, Blank::new(1))
    }

    /// Appends the serial number as an INTEGER in the fewest octets. After a refusal nothing is appended.
    pub fn encode(&self, out: &mut Writer) -> Result<(), OutOfMemory>
        ensures ok { OnOk result (out.new ≡ out.old ++ spec.der_serial self.now) }
        ensures err { OnErr result (out.new ≡ out.old) }
    {
        let (octets, start) = contents(&self.octets);
        out.primitive(Tag::INTEGER, &octets[start..])
    }
}
