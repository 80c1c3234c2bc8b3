//! BIT STRING.

ghost use Rattle.std.specs.Prelude.{◌≡◌, ◌<◌};
ghost use Rattle.std.specs.Option.{option_map};
ghost use Rattle.rpki_der.specs.Takes.{Takes};
ghost use Rattle.rpki_der.specs.Ticks.{TakesCounted};
ghost use Rattle.rpki_der.specs.Bits as spec;

use crate::cursor::Cursor;
use crate::error::DecodeError;
use crate::steps::Steps;
use crate::tag::Tag;
use std::marker::Brand;
use std::sync::ledger::{Blank, Ledger};

// The count of unused bits and the octets of the bits, if the octets are the contents of a BIT STRING.
fn bits(octets: &[u8]) -> Option<(u8, &[u8])>
    ensures { option_map (λ x. record { unused = x.0; octets = x.1.now }) result
        ≡ spec.bits octets.now }
{
    match octets {
        [0] => Some((0, &[])),
        [unused, rest @ ..] if *unused < 8 && !rest.is_empty() => Some((*unused, rest)),
        _ => None,
    }
}

/// The count of unused bits and the octets of the bits of the BIT STRING that stands next; Malformed exactly where none does. It ticks
/// once.
pub fn take_bits_counted<'a, L: Ledger>(
    cursor: &mut Cursor<'a>,
    steps: &mut Steps<L>,
) -> Result<(u8, &'a [u8]), DecodeError>
    ensures { TakesCounted 1 spec.bit_string (λ x. record { unused = x.0; octets = x.1.now })
        cursor.old cursor.new steps.old steps.new result }
{
    let octets = cursor.take_primitive_counted(Tag::BIT_STRING, steps)?;
    match bits(octets) {
        Some(found) => Ok(found),
        None => Err(DecodeError::Malformed),
    }
}

fn take_bits_within<'a, L: Ledger>(
    cursor: &mut Cursor<'a>,
    blank: Blank,
) -> Result<(u8, &'a [u8]), DecodeError>
    requires name { blank.name ≡ L.name }
    requires parts { blank.parts ≡ L.parts }
    requires some { 0 < blank.parts }
    ensures { Takes spec.bit_string (λ x. record { unused = x.0; octets = x.1.now })
        cursor.old cursor.new result }
{
    let mut steps = Steps::<L>::new(blank);
    take_bits_counted(cursor, &mut steps)
}

/// The count of unused bits of the last octet, and the octets of the bits, of the BIT STRING that stands next (X.690, 8.6).
///
/// It is primitive in both modes. The count is 0 to 7, and 0 where there are no octets. Malformed exactly where none stands next.
pub fn take_bits<'a>(cursor: &mut Cursor<'a>) -> Result<(u8, &'a [u8]), DecodeError>
    ensures { Takes spec.bit_string (λ x. record { unused = x.0; octets = x.1.now })
        cursor.old cursor.new result }
{
    take_bits_within::<Brand>(cursor, Blank::new(1))
}
