//! The parts of messages, as they are handed out, and the answer that a class gives to a request.

use crate::answers::{append_str, number_of, refused, text_of};
use crate::lent::{append_certificate, append_key, append_request};
use crate::texts::written;
use rpki_der::DecodeError;
use rpki_provisioning::{Message, Payload};
use rpki_signer::ToyScheme;
use rpki_text::{RecipientHandle, SenderHandle};
use rpki_updown::{
    Error, IssuanceRequest, IssuanceResponse, KeyElement, PublicKey, ResourceClassEntitlements,
    RevocationRequest, RevocationResponse,
};
use std::alloc::Global;
use test_stored::Fields;

// ---- parts

fn append_asked(
    alloc: Global,
    fields: &mut Fields,
    request: IssuanceRequest,
) -> Result<(), DecodeError> {
    let (class_name, limit, csr) = request.unpack();
    append_request(alloc, fields, &class_name, &limit, &csr)
}

fn append_issued(
    alloc: Global,
    fields: &mut Fields,
    response: IssuanceResponse,
) -> Result<(), DecodeError> {
    let (uri, limit, cert) = response.into_issued().unpack();
    append_certificate(alloc, fields, uri.as_str(), &limit, &cert)
}

fn append_revocation(
    alloc: Global,
    fields: &mut Fields,
    request: RevocationRequest,
) -> Result<(), DecodeError> {
    let (class_name, key) = request.unpack();
    append_key(alloc, fields, &KeyElement::new(class_name, key))
}

fn append_payload(alloc: Global, fields: &mut Fields, payload: Payload) -> Result<(), DecodeError> {
    match payload {
        Payload::Issue(request) => append_asked(alloc, fields, request),
        Payload::IssueResponse(response) => append_issued(alloc, fields, response),
        Payload::Revoke(request) => append_revocation(alloc, fields, request),
        _ => Ok(()),
    }
}

fn append_parties(
    fields: &mut Fields,
    sender: &SenderHandle,
    recipient: &RecipientHandle,
) -> Result<(), DecodeError> {
    append_str(fields, sender.as_str())?;
    append_str(fields, recipient.as_str())
}

// Sender, recipient and payload of a copy. The payload is handed on before any call may end this, since its kinds have many parts.
fn shown(alloc: Global, copy: Message) -> Result<Fields, DecodeError> {
    let (sender, recipient, payload) = copy.unpack();
    let mut fields = Fields::new(alloc);
    let parties = append_parties(&mut fields, &sender, &recipient);
    let parts = append_payload(alloc, &mut fields, payload);
    parties?;
    parts?;
    Ok(fields)
}

/// Sender and recipient, and the parts of a request for a certificate, of the certificate that was issued, and of a request to revoke.
pub fn handed(alloc: Global, read: &Result<Message, Error>) -> Result<Fields, DecodeError> {
    match read {
        Ok(message) => shown(alloc, message.clone(alloc)?),
        Err(error) => refused(alloc, error),
    }
}

// ---- answers

// This answer from the sender of the message to its recipient, as it is written.
fn answer_shown(
    alloc: Global,
    message: &Message,
    answer: Option<IssuanceResponse>,
) -> Result<Fields, DecodeError> {
    let Some(response) = answer else {
        return Ok(Fields::new(alloc));
    };
    let sender = message.sender().clone(alloc)?;
    let recipient = message.recipient().clone(alloc)?;
    written(alloc, &Message::issue_response(sender, recipient, response))
}

fn first_class(message: &Message) -> Option<&ResourceClassEntitlements> {
    match message.payload() {
        Payload::ListResponse(list) => list.classes().first(),
        _ => None,
    }
}

fn issued_in(alloc: Global, message: &Message, key: &PublicKey) -> Result<Fields, DecodeError> {
    match first_class(message) {
        Some(class) => {
            let answer = class.clone(alloc)?.into_issuance_response(key);
            answer_shown(alloc, message, answer)
        }
        None => Err(DecodeError::Malformed),
    }
}

/// The answer, as it is written, that the first class of the message gives to a request for the key with the number of the argument.
pub fn issued(
    alloc: Global,
    read: &Result<Message, Error>,
    argument: &[u8],
) -> Result<Fields, DecodeError> {
    let key = ToyScheme::key(alloc, 1, number_of(text_of(argument)?)?)?;
    match read {
        Ok(message) => issued_in(alloc, message, &key),
        Err(error) => refused(alloc, error),
    }
}

// The answer that grants the request in a payload.
fn granted_of(alloc: Global, payload: Payload) -> Result<RevocationResponse, DecodeError> {
    match payload {
        Payload::Revoke(request) => Ok(RevocationResponse::from_request(alloc, &request)?),
        _ => Err(DecodeError::Malformed),
    }
}

fn granted_in(alloc: Global, message: &Message) -> Result<Fields, DecodeError> {
    let sender = message.sender().clone(alloc)?;
    let recipient = message.recipient().clone(alloc)?;
    let response = granted_of(alloc, message.clone(alloc)?.into_payload())?;
    written(
        alloc,
        &Message::revoke_response(sender, recipient, response),
    )
}

/// The answer, as it is written, that grants the request to revoke that the message is.
pub fn granted(alloc: Global, read: &Result<Message, Error>) -> Result<Fields, DecodeError> {
    match read {
        Ok(message) => granted_in(alloc, message),
        Err(error) => refused(alloc, error),
    }
}
