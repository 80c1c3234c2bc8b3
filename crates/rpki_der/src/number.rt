//! INTEGER.

ghost use Rattle.std.specs.Prelude.{◌≡◌};
ghost use Rattle.std.specs.Option.{option_copied};
ghost use Rattle.rpki_der.specs.Ticks.{TakesCounted};
ghost use Rattle.rpki_der.specs.Lengths.{number};
ghost use Rattle.rpki_der.specs.Number as spec;

use crate::cursor::Cursor;
use crate::error::DecodeError;
use crate::steps::Steps;
use crate::tag::Tag;
use std::sync::ledger::Ledger;

// The octets, if they are a two's complement number in the fewest octets.
fn minimal(octets: &[u8]) -> Option<&[u8]>
    ensures { option_copied result ≡ spec.minimal octets.now }
{
    match octets {
        [] => None,
        [0, second, ..] if *second < 0x80 => None,
        [0xFF, second, ..] if *second >= 0x80 => None,
        _ => Some(octets),
    }
}

// The number that the octets spell, the most significant first, if it is below 2^64.
fn below_2_64(octets: &[u8]) -> Option<u64>
    ensures { result ≡ spec.below_2_64 (number octets.now) }
{
    let mut number: u64 = 0;
    for octet in octets {
        if number >= 0x0100_0000_0000_0000 {
            return None;
        }
        number = number * 0x100 + u64::from(*octet);
    }
    Some(number)
}

// The number that the contents of an INTEGER are, if it isn't negative and is below 2^64.
fn small_number(octets: &[u8]) -> Option<u64>
    ensures { result ≡ spec.small_number octets.now }
{
    match octets {
        [first, ..] if *first >= 0x80 => None,
        _ => below_2_64(octets),
    }
}

/// The contents octets of the INTEGER that stands next (X.690, 8.3): a two's complement number in the fewest octets, in both
/// modes. It ticks once.
pub fn take_integer_counted<'a, L: Ledger>(
    cursor: &mut Cursor<'a>,
    steps: &mut Steps<L>,
) -> Result<&'a [u8], DecodeError>
    ensures { TakesCounted 1 spec.integer (λ x. x.now)
        cursor.old cursor.new steps.old steps.new result }
{
    let octets = cursor.take_primitive_counted(Tag::INTEGER, steps)?;
    match minimal(octets) {
        Some(octets) => Ok(octets),
        None => Err(DecodeError::Malformed),
    }
}

/// The INTEGER that stands next, which isn't negative and is below 2^64; any other is malformed. It ticks once.
pub fn take_u64_counted<L: Ledger>(
    cursor: &mut Cursor<'_>,
    steps: &mut Steps<L>,
) -> Result<u64, DecodeError>
    ensures { TakesCounted 1 spec.u64 (λ x. x) cursor.old cursor.new steps.old steps.new result }
{
    let octets = take_integer_counted(cursor, steps)?;
    match small_number(octets) {
        Some(number) => Ok(number),
        None => Err(DecodeError::Malformed),
    }
}
