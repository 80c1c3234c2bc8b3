//! The input of a program, read whole.

ghost use Rattle.std.specs.Prelude.{◌≡◌, ◌+◌, ◌^◌, ◌≤◌, IfErr, IfOk, IfSome, OnOk, length};
ghost use Rattle.std.specs.Io.KnownBytes.{IsAtEnd};
ghost use Rattle.rpki_common.specs.Limits.{most_input};
ghost use Rattle.rpki_ca.specs.Answer.{IsUnread};
ghost use Rattle.rpki_ca.specs.Seen.{IsSteady, seen};
ghost use Rattle.rpki_text.specs.Source.{TakesAtMost};

use crate::refusals::Refusal;
use rpki_text::{ReadAllError, Source, read_all};
use std::alloc::Global;

/// The most octets of input that are read.
const LIMIT: u64 = 1 << 26;

/// Reads the whole input, of at most 2^26 octets. Reading stops behind one more, with `TooLong`, or
/// where the source fails, with `ReadFault`.
pub fn read_input<I: Source>(alloc: Global, input: &mut I) -> Result<Vec<u8>, Refusal>
    ensures ok { IfOk result (λ octets. IfSome (I.rest input.old) (λ rest.
        (octets.items ≡ rest) × (length rest ≤ most_input))) }
    ensures short { IfOk result (λ octets. length octets.items ≤ most_input) }
    ensures steady { OnOk result (IsSteady (seen I.rest I.faults input.old input.new)) }
    ensures end { OnOk result (IsAtEnd (I.rest input.new)) }
    ensures err { IfErr result (λ e. IsUnread (seen I.rest I.faults input.old input.new) e) }
    ensures most { TakesAtMost (I.rest input.old) (I.rest input.new) (most_input + 1) }
{
    match read_all(alloc, input, LIMIT) {
        Ok(octets) => Ok(octets),
        Err(ReadAllError::Read) => Err(Refusal::ReadFault),
        Err(ReadAllError::TooLong) => Err(Refusal::TooLong),
        Err(ReadAllError::OutOfMemory) => Err(Refusal::OutOfMemory),
    }
}
