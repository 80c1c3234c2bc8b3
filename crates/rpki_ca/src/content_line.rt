//! The command `content`.

ghost use Rattle.std.specs.Prelude.{◌≡◌, ◌≢◌, ℕ, Ok, Err, IfOk, IfErr, IsErrOf};
ghost use Rattle.sha2.specs.Sha256.{sha256};
ghost use Rattle.rpki_sigmsg.specs.Beginning.{BeginsSigned};
ghost use Rattle.rpki_ca.specs.Answer.{IsContentAnswer, IsLineOf};

use crate::line::line_of_lent;
use crate::refusals::Refusal;
use rpki_sigmsg::{DecodeError, SignedMessage};
use std::alloc::Global;

// The line with the message's content, if it has the signed digest.
fn content_line_of(
    alloc: Global,
    octets: &[u8],
    message: &SignedMessage,
) -> Result<Vec<u8>, Refusal>
    requires { BeginsSigned octets.now message.now }
    ensures ok { IfOk result (λ line. IsLineOf (IsContentAnswer octets.now) line.items) }
    ensures err { IfErr result (λ e.
        e ≢ Refusal.OutOfMemory → IsContentAnswer octets.now (Err e)) }
    ensures memory { IsErrOf result Refusal.OutOfMemory
        → sha256 message.now.content ≡ message.now.digest }
{
    if !message.digest_holds() {
        return Err(Refusal::Validation(2));
    }
    Ok(line_of_lent(alloc, message.content().as_slice())?)
}

/// The content of the signed message at the beginning of the octets, and a line feed.
pub(crate) fn content_line(alloc: Global, octets: &[u8]) -> Result<Vec<u8>, Refusal>
    ensures ok { IfOk result (λ line. IsLineOf (IsContentAnswer octets.now) line.items) }
    ensures err { IfErr result (λ e.
        e ≢ Refusal.OutOfMemory → IsContentAnswer octets.now (Err e)) }
{
    match SignedMessage::decode(alloc, octets, false) {
        Ok(message) => content_line_of(alloc, octets, &message),
        Err(DecodeError::Malformed) => Err(Refusal::CmsDecode),
        Err(DecodeError::OutOfMemory) => Err(Refusal::OutOfMemory),
    }
}
