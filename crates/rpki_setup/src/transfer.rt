//! Octets are written to a sink within the limit of messages.

ghost use Rattle.rpki_xmltext.specs.Answers.{WritesText};
ghost use Rattle.rpki_setup.specs.Answers.{cause_of};

use crate::error::Error;
use rpki_text::Sink;

/// Writes a text of at most 2^31 octets.
pub(crate) fn write_octets<O: Sink>(sink: &mut O, octets: &[u8]) -> Result<(), Error>
    ensures { WritesText cause_of octets.now (O.written sink.old) (O.written sink.new)
        (O.faults sink.old) (O.faults sink.new) result }
{
    Ok(rpki_xmltext::write_octets(sink, octets)?)
}
