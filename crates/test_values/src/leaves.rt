//! Calls that take a leaf from a cursor.

ghost use Rattle.std.specs.Prelude.{◌<◌, IfOk};

use crate::shown::{bits_shown, octets_shown, tag_of};
use rpki_der::{Cursor, DecodeError, take_bits, take_octets, take_oid};
use std::alloc::Global;
use test_stored::{Fields, Step};

fn octets(alloc: Global, cursor: &mut Cursor<'_>, tag: &[u8]) -> Result<Fields, DecodeError> {
    let octets = take_octets(alloc, cursor, tag_of(tag)?)?;
    Ok(Fields::one(alloc, &octets)?)
}

/// The number that the argument is; it has one octet, below 128.
pub fn small(argument: &[u8]) -> Result<u8, DecodeError>
    ensures { IfOk result (λ n. n < 128) }
{
    match argument {
        [number] if *number < 128 => Ok(*number),
        _ => Err(DecodeError::Malformed),
    }
}

/// What a call of this module answers; None where the step is none.
pub fn answer(
    alloc: Global,
    cursor: &mut Cursor<'_>,
    step: &Step<'_>,
) -> Option<Result<Fields, DecodeError>> {
    match step.call {
        "octets" => Some(octets(alloc, cursor, &step.argument)),
        "oid" => Some(octets_shown(alloc, take_oid(cursor))),
        "bits" => Some(bits_shown(alloc, take_bits(cursor))),
        _ => None,
    }
}
