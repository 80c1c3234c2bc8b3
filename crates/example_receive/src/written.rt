//! How a caller learns that the other side reads a message, however it was built, as it was meant.

ghost use Rattle.std.specs.Prelude.{◌≡◌, Ok, None, IfOk, IfSome};
ghost use Rattle.rpki_publication.specs.Message.{IsWritable, Reads, normal_form};

use bytes::Bytes;
use rpki_common::OutOfMemory;
use rpki_publication::{Message, written_is_read};
use std::alloc::Global;

/// The message's text, which is read as the message in its normal form; none where it is no message that can be written.
pub fn text_that_is_read(alloc: Global, message: &Message) -> Result<Option<Bytes>, OutOfMemory>
    ensures read { IfOk result (λ text.
        IfSome text (λ octets. Reads octets (normal_form message.now))) }
    ensures none { result ≡ Ok None → IsWritable message.now → ⊥ }
{
    if !message.is_writable() {
        return Ok(None);
    }
    // For the proof: what is writable is read again.
    written_is_read();
    Ok(Some(message.text_bytes(alloc)?))
}
