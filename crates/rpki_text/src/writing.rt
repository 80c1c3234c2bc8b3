//! Octets written whole.

ghost use Rattle.std.specs.Prelude.{◌≡◌, OnOk, OnErr};
ghost use Rattle.std.specs.Io.KnownBytes.{Appends};
ghost use Rattle.rpki_common.specs.Causes.{HasCause};
ghost use Rattle.rpki_text.specs.Sink.{AppendsPart};

use crate::traits::{Failed, Sink};

/// Writes all of `octets` in their order, in as many calls as it takes, or up to the first fault,
/// which is answered: then some octets from the front were written, maybe none, and not all.
pub fn write_all<O: Sink>(sink: &mut O, octets: &[u8]) -> Result<(), Failed>
    ensures ok { OnOk result (Appends (O.written sink.old) (O.written sink.new) octets.now) }
    ensures err { OnErr result (AppendsPart (O.written sink.old) (O.written sink.new) octets.now) }
    ensures cause { HasCause (O.faults sink.old) (O.faults sink.new) result }
    ensures kept { OnOk result (O.faults sink.new ≡ O.faults sink.old) }
{
    let mut rest = octets;
    'writing: while !rest.is_empty() {
        let count = sink.write(rest)?;
        rest = &rest[count..];
    }
    Ok(())
}
