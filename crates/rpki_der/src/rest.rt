//! What is left of a level.

ghost use Rattle.std.specs.Prelude.{◌≢◌, []};
ghost use Rattle.rpki_der.specs.Grammar.{anything};
ghost use Rattle.rpki_der.specs.Ticks.{TakesRestCounted};

use crate::cursor::Cursor;
use crate::error::DecodeError;
use crate::steps::Steps;
use std::sync::ledger::Ledger;

/// Passes over what is left of the innermost constructed value, and goes out of it. The cursor has to be inside of one. It ticks
/// once for each header and each end mark that it reads.
pub fn pass_rest_counted<L: Ledger>(
    cursor: &mut Cursor<'_>,
    steps: &mut Steps<L>,
) -> Result<(), DecodeError>
    requires { cursor.old.levels ≢ [] }
    ensures { TakesRestCounted 1 0 anything (λ x. x)
        cursor.old cursor.new steps.old steps.new result }
{
    'values: while !cursor.end() {
        cursor.capture_counted(steps)?;
    }
    cursor.leave_counted(steps)
}
