//! Key identifiers.

ghost use Rattle.std.specs.Prelude.{◌≡◌, ◌↔◌, ◌<◌, length, Some, IsSome, IfSome, slice_index};
ghost use Rattle.hex.specs.Hex.{encode_upper, upper_digits};
ghost use Rattle.rpki_der.specs.Takes.{Takes};
ghost use Rattle.rpki_der.specs.Ticks.{TakesCounted};
ghost use Rattle.rpki_base.specs.KeyIdentifier as spec;

use rpki_der::{Cursor, DecodeError, Steps, Tag, take_octets_counted};
use std::alloc::Global;
use std::fmt;
use std::marker::{Brand, Model};
use std::sync::ledger::{Blank, Ledger};

/// A key identifier (RFC 5280, 4.2.1.2): twenty octets. It prints as hexadecimal digits in upper case.
///
/// In a clause it is its octets.
#[derive(Clone, Copy, Debug, PartialEq, Eq, Hash)]
pub struct KeyIdentifier {
    octets: [u8; 20],
}

impl Model for KeyIdentifier {
    ghost use Rattle.std.specs.Prelude.{ℕ, List};

    ghost Value = { List ℕ };

    ghost view = { λ k. k.octets };

    ghost inverse = { λ l. record { octets = l } };
}

impl KeyIdentifier {
    /// The key identifier of twenty octets.
    pub(crate) fn of(octets: [u8; 20]) -> KeyIdentifier
        ensures { result ≡ octets }
    {
        KeyIdentifier { octets }
    }

    /// Its octets as hexadecimal digits in upper case, two each.
    pub(crate) fn digits(&self) -> [u8; 40]
        ensures { result ≡ encode_upper self.now }
    {
        upper_text(&self.octets)
    }

    /// The key identifier of these octets; None exactly where they are not twenty.
    pub fn from_octets(octets: &[u8]) -> Option<KeyIdentifier>
        ensures { result ≡ spec.twenty octets.now }
    {
        if octets.len() != 20 {
            return None;
        }
        let mut held = [0u8; 20];
        held.copy_from_slice(octets);
        Some(KeyIdentifier { octets: held })
    }

    /// Its octets.
    pub fn as_slice(&self) -> &[u8]
        ensures value { result.now ≡ self.now }
        ensures twenty { length result.now ≡ 20 }
    {
        &self.octets
    }

    /// The key identifier under `tag` that stands next, as `take_under` reads it. It ticks each time it looks at a header, and
    /// for each end mark.
    pub fn take_under_counted<L: Ledger>(
        alloc: Global,
        cursor: &mut Cursor<'_>,
        tag: Tag,
        steps: &mut Steps<L>,
    ) -> Result<KeyIdentifier, DecodeError>
        ensures { TakesCounted 1 (spec.key_identifier_under tag cursor.old.mode) (λ x. x)
            cursor.old cursor.new steps.old steps.new result }
    {
        let octets = take_octets_counted(alloc, cursor, tag, steps)?;
        match KeyIdentifier::from_octets(&octets) {
            Some(identifier) => Ok(identifier),
            None => Err(DecodeError::Malformed),
        }
    }

    fn take_under_within<L: Ledger>(
        alloc: Global,
        cursor: &mut Cursor<'_>,
        tag: Tag,
        blank: Blank,
    ) -> Result<KeyIdentifier, DecodeError>
        requires name { blank.name ≡ L.name }
        requires parts { blank.parts ≡ L.parts }
        requires some { 0 < blank.parts }
        ensures { Takes (spec.key_identifier_under tag cursor.old.mode) (λ x. x)
            cursor.old cursor.new result }
    {
        let mut steps = Steps::<L>::new(blank);
        KeyIdentifier::take_under_counted(alloc, cursor, tag, &mut steps)
    }

    /// The key identifier that stands next under `tag`, as `[0]` of an authority key identifier: an octet string of twenty
    /// octets, whose segments are joined in BER.
    pub fn take_under(
        alloc: Global,
        cursor: &mut Cursor<'_>,
        tag: Tag,
    ) -> Result<KeyIdentifier, DecodeError>
        ensures { Takes (spec.key_identifier_under tag cursor.old.mode) (λ x. x)
            cursor.old cursor.new result }
    {
        KeyIdentifier::take_under_within::<Brand>(alloc, cursor, tag, Blank::new(1))
    }

    /// The key identifier that stands next as an OCTET STRING. It ticks each time it looks at a header, and for each end mark.
    pub fn take_from_counted<L: Ledger>(
        alloc: Global,
        cursor: &mut Cursor<'_>,
        steps: &mut Steps<L>,
    ) -> Result<KeyIdentifier, DecodeError>
        ensures { TakesCounted 1 (spec.key_identifier cursor.old.mode) (λ x. x)
            cursor.old cursor.new steps.old steps.new result }
    {
        KeyIdentifier::take_under_counted(alloc, cursor, Tag::OCTET_STRING, steps)
    }

    /// The key identifier that stands next as an OCTET STRING of twenty octets, whose segments are joined in BER.
    pub fn take_from(alloc: Global, cursor: &mut Cursor<'_>) -> Result<KeyIdentifier, DecodeError>
        ensures { Takes (spec.key_identifier cursor.old.mode) (λ x. x)
            cursor.old cursor.new result }
    {
        KeyIdentifier::take_under(alloc, cursor, Tag::OCTET_STRING)
    }
}

// The digit of a number below sixteen.
fn upper_digit(value: u8) -> u8
    requires { value < 16 }
    ensures { result ≡ slice_index upper_digits value }
{
    if value < 10 {
        b'0' + value
    } else {
        b'A' + (value - 10)
    }
}

// The octets as digits, two each.
fn upper_text(octets: &[u8; 20]) -> [u8; 40]
    ensures { result ≡ encode_upper octets.now }
{
    let mut out = [0u8; 40];
    for i in 0..20usize {
        let octet = octets[i];
        out[2 * i] = upper_digit(octet / 16);
        out[2 * i + 1] = upper_digit(octet % 16);
    }
    out
}

impl fmt::Display for KeyIdentifier {
    ghost output = { λ k. Some (encode_upper k) };

    fn fmt<W: fmt::Write>(&self, f: &mut fmt::Formatter<W>) -> fmt::Result {
        let text = self.digits();
        let Ok(text) = str::from_utf8(&text) else {
            unreachable!()
        };
        f.write_str(text)
    }
}
