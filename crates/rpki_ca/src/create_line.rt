//! The command `create`.

ghost use Rattle.std.specs.Prelude.{◌≡◌, ◌≢◌, ◌⊎◌, ◌<◌, ℕ, List, length, Result, Err};
ghost use Rattle.std.specs.Prelude.{IfOk, IfErr, IsErrOf, MatchResult};
ghost use Rattle.rpki_common.specs.Limits.{most_content};
ghost use Rattle.rpki_signer.specs.Limits.{Keeps};
ghost use Rattle.rpki_sigmsg.specs.FirstRefusals.{IsFirstRefusal};
ghost use Rattle.rpki_sigmsg.specs.Making.{HasWindow, CreateFails};
ghost use Rattle.rpki_sigmsg.specs.declared.create_error.CreateError.TheVariants as create;
ghost use Rattle.rpki_ca.specs.Acceptance.{ReadsAs, IsWritable, protocol_of, accepted_text, refusal_of};
ghost use Rattle.rpki_ca.specs.Answer.{IsLineOf};
ghost use Rattle.rpki_ca.specs.Creation.{AreCreated, IsCreateAnswer, IsCreateRefusal, RefusesInput};
ghost use Rattle.rpki_ca.specs.Creation.{refusal_of_create};
ghost use Rattle.rpki_ca.specs.Seen.{seen_signer};

use crate::hexadecimal::hexadecimal_line;
use crate::receiving::{Kind, ReceiveError, Received};
use crate::refusals::Refusal;
use bytes::Bytes;
use rpki_base::{Scheme, Time};
use rpki_common::OutOfMemory;
use rpki_provisioning as provisioning;
use rpki_publication as publication;
use rpki_sigmsg::{CreateError, SignedMessage};
use rpki_signer::{Signer, SigningError};
use std::alloc::Global;

impl<E: Drop> From<CreateError<E>> for Refusal {
    ghost from_gives = { λ error e. e ≡ refusal_of_create error };

    fn from(error: CreateError<E>) -> Refusal {
        match error {
            CreateError::Moment => Refusal::Moment,
            CreateError::TooLong => Refusal::TooLong,
            CreateError::KeyReused => Refusal::KeyReused,
            CreateError::Signing(SigningError::KeyNotFound) => Refusal::KeyNotFound,
            CreateError::Signing(SigningError::IncompatibleKey) => Refusal::IncompatibleKey,
            CreateError::Signing(SigningError::Signer(_)) => Refusal::Signer,
            CreateError::Signing(SigningError::OutOfMemory) => Refusal::OutOfMemory,
            CreateError::OutOfMemory => Refusal::OutOfMemory,
        }
    }
}

/// The message of the kind that the whole input is, a document of XML.
///
/// XmlError, CertSyntax and InvalidCsrSyntax come as in [`crate::receive_any`] of a content.
pub fn message_in(alloc: Global, kind: Kind, input: &[u8]) -> Result<Received, ReceiveError>
    ensures ok { IfOk result (λ m. ReadsAs kind input.now m) }
    ensures writable { IfOk result IsWritable }
    ensures err { IfErr result (λ e. refusal_of e ≢ Refusal.OutOfMemory
        → RefusesInput kind input.now (refusal_of e)) }
{
    match kind {
        Kind::Publication => Ok(Received::Publication(publication::Message::decode_slice(
            alloc, input,
        )?)),
        Kind::Provisioning => Ok(Received::Provisioning(provisioning::Message::decode_slice(
            alloc, input,
        )?)),
    }
}

// The message of the kind that the whole input is. The input is gone then.
fn message_of(alloc: Global, kind: Kind, input: Vec<u8>) -> Result<Received, ReceiveError>
    ensures ok { IfOk result (λ m. ReadsAs kind input.items m) }
    ensures writable { IfOk result IsWritable }
    ensures err { IfErr result (λ e. refusal_of e ≢ Refusal.OutOfMemory
        → RefusesInput kind input.items (refusal_of e)) }
{
    message_in(alloc, kind, &input)
}

// The octets of the message's text. The message is gone then.
fn text_of(alloc: Global, message: Received) -> Result<Bytes, OutOfMemory>
    ensures { IfOk result (λ text. text ≡ accepted_text message) }
{
    match &message {
        Received::Publication(message) => message.text_bytes(alloc),
        Received::Provisioning(message) => message.text_bytes(alloc),
    }
}

/// The octets of a signed message with this message.
pub(crate) fn signed_octets<P: Scheme, S: Signer<P>>(
    alloc: Global,
    message: Received,
    when: Time,
    key: &S::KeyId,
    signer: &mut S,
) -> Result<Bytes, CreateError<S::Error>>
    requires { IsWritable message }
    ensures created { MatchResult result
        (AreCreated P.checks (protocol_of message) message when
        (seen_signer key.now (S.state signer.old) (S.state signer.new)))
        (CreateFails (accepted_text message) when key.now
        (S.state signer.old) (S.state signer.new)) }
    ensures too_long { HasWindow when → most_content < length (accepted_text message)
        → IsErrOf result create.TooLong ⊎ IsErrOf result create.OutOfMemory }
    ensures unasked { (HasWindow when → ⊥) ⊎ (most_content < length (accepted_text message))
        → signer.new ≡ signer.old }
    // Memory may run out behind all of the signer's calls.
    ensures first_refusal { IfErr result (λ e. e ≢ create.OutOfMemory
        → IsFirstRefusal P.checks (accepted_text message) when key.now
        (S.state signer.old) (S.state signer.new) e) }
    ensures keeps { Keeps (S.state signer.old) (S.state signer.new) }
{
    let text = text_of(alloc, message)?;
    let signed = SignedMessage::create(alloc, text, when, key, signer)?;
    Ok(signed.to_captured(alloc)?.into_bytes())
}

/// The signed message that is made at the moment with the message that the input is, in hexadecimal,
/// and a line feed.
pub(crate) fn create_line<P: Scheme, S: Signer<P>>(
    alloc: Global,
    kind: Kind,
    input: Vec<u8>,
    when: Time,
    key: &S::KeyId,
    signer: &mut S,
) -> Result<Vec<u8>, Refusal>
    ensures ok { IfOk result (λ line. IsLineOf (IsCreateAnswer P.checks kind input.items when
        (seen_signer key.now (S.state signer.old) (S.state signer.new))) line.items) }
    ensures err { IfErr result (λ e. e ≢ Refusal.OutOfMemory
        → IsCreateAnswer P.checks kind input.items when
        (seen_signer key.now (S.state signer.old) (S.state signer.new)) (Err e)) }
    ensures unasked { (answer : Result (List ℕ) Refusal)
        → IsCreateRefusal kind input.items when answer → signer.new ≡ signer.old }
    ensures keeps { Keeps (S.state signer.old) (S.state signer.new) }
{
    let message = message_of(alloc, kind, input)?;
    let octets = signed_octets(alloc, message, when, key, signer)?;
    Ok(hexadecimal_line(alloc, octets.as_slice())?)
}
