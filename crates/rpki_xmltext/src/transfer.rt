//! Octets are written to a sink within the limit of messages.

ghost use Rattle.std.specs.Prelude.{IsErrOf};
ghost use Rattle.rpki_xmltext.specs.Answers.{WritesText, itself};

use crate::cause::Cause;
use rpki_text::{Failed, Sink, write_all};

/// The most octets of a message.
pub const MOST_OCTETS: u64 = 0x8000_0000;

/// Writes a text of at most 2^31 octets. TooLong exactly where it is longer, Write only where the sink failed. It takes no memory.
pub fn write_octets<O: Sink>(sink: &mut O, octets: &[u8]) -> Result<(), Cause>
    ensures writes { WritesText itself octets.now (O.written sink.old) (O.written sink.new)
        (O.faults sink.old) (O.faults sink.new) result }
    ensures no_memory { IsErrOf result Cause.OutOfMemory → ⊥ }
{
    if octets.len() as u64 > MOST_OCTETS {
        return Err(Cause::TooLong);
    }
    match write_all(sink, octets) {
        Ok(()) => Ok(()),
        Err(Failed) => Err(Cause::Write),
    }
}
