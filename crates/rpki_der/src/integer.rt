//! Small integers.

ghost use Rattle.std.specs.Prelude.{◌<◌};
ghost use Rattle.rpki_der.specs.Ticks.{TakesCounted};
ghost use Rattle.rpki_der.specs.Integer.{integer_is};

use crate::cursor::Cursor;
use crate::error::DecodeError;
use crate::oid::is_exactly;
use crate::steps::Steps;
use crate::tag::Tag;
use std::sync::ledger::Ledger;

/// Passes the INTEGER `number`, which has to be below 128, if it stands next; otherwise the answer is Malformed. It ticks once.
pub fn take_integer_if_counted<L: Ledger>(
    cursor: &mut Cursor<'_>,
    number: u8,
    steps: &mut Steps<L>,
) -> Result<(), DecodeError>
    requires { number < 128 }
    ensures { TakesCounted 1 (integer_is number) (λ x. x)
        cursor.old cursor.new steps.old steps.new result }
{
    let octets = cursor.take_primitive_counted(Tag::INTEGER, steps)?;
    match is_exactly(octets, &[number]) {
        Some(()) => Ok(()),
        None => Err(DecodeError::Malformed),
    }
}
