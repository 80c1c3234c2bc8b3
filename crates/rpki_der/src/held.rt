//! The octets of a level's values.

ghost use Rattle.std.specs.Prelude.{◌≡◌, ◌≢◌, ◌+◌, [], IfOk, OnOk, OnErr, MatchResult};
ghost use Rattle.rpki_der.specs.Position.{top, Leaves};
ghost use Rattle.rpki_der.specs.Takes.{RefusesToLeave};
ghost use Rattle.rpki_der.specs.Ticks.{marks, TakesRestCounted};
ghost use Rattle.rpki_der.specs.Held.{as_octets, up_to};

use crate::cursor::Cursor;
use crate::error::DecodeError;
use crate::steps::Steps;
use std::sync::ledger::Ledger;

impl<'a> Cursor<'a> {
    /// The octets from here on: up to the end of the level where it is known, and otherwise of the octets round it.
    pub fn here(&self) -> &'a [u8]
        ensures { result.now ≡ self.now.here }
    {
        self.here
    }

    /// The octets that were passed at this level since `start`, which is what `here` gave before.
    pub fn since(&self, start: &'a [u8]) -> &'a [u8]
        ensures { result.now ≡ up_to start.now self.now.here }
    {
        &start[..start.len().saturating_sub(self.here.len())]
    }

    /// Goes out of the innermost constructed value, of which there has to be one, and gives its contents from `start` on, which is
    /// what `here` gave before; an end mark isn't among them. Malformed exactly where that value doesn't end here. It ticks once where it
    /// passes an end mark.
    pub fn leave_since_counted<L: Ledger>(
        &mut self,
        start: &'a [u8],
        steps: &mut Steps<L>,
    ) -> Result<&'a [u8], DecodeError>
        requires inside { self.old.levels ≢ [] }
        ensures place { MatchResult result (λ _. Leaves self.old self.new)
            (RefusesToLeave self.old) }
        ensures contents { IfOk result (λ x. x.now ≡ up_to start.now self.old.here) }
        ensures err { OnErr result (self.new ≡ self.old) }
        ensures ticks { OnOk result (steps.new ≡ steps.old + marks (top self.old.levels)) }
        ensures refused { OnErr result (steps.new ≡ steps.old) }
    {
        let contents = self.since(start);
        self.leave_counted(steps)?;
        Ok(contents)
    }
}

/// The octets of what is left of the innermost constructed value, values of any kind, and goes out of it. The cursor has to be
/// inside of one. It ticks once for each header and each end mark that it reads.
pub fn take_rest_counted<'a, L: Ledger>(
    cursor: &mut Cursor<'a>,
    steps: &mut Steps<L>,
) -> Result<&'a [u8], DecodeError>
    requires { cursor.old.levels ≢ [] }
    ensures { TakesRestCounted 1 0 as_octets (λ x. x.now)
        cursor.old cursor.new steps.old steps.new result }
{
    let start = cursor.here();
    'values: while !cursor.end() {
        cursor.capture_counted(steps)?;
    }
    cursor.leave_since_counted(start, steps)
}
