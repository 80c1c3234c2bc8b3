//! Messages that are put together by calls, from a certificate or a request, and many parts in one message.

use crate::answers::{number_of, refused, text_of};
use crate::creating::created;
use crate::parts::{limit_of, set_of};
use crate::texts::is_written;
use rpki_base::{KeyIdentifier, Time};
use rpki_cert::{Cert, RpkiCaCsr};
use rpki_der::DecodeError;
use rpki_provisioning::Message;
use rpki_sets::ResourceSet;
use rpki_text::{Handle, RecipientHandle, SenderHandle, uri};
use rpki_updown::{
    Error, IssuanceRequest, IssuanceResponse, IssuedCert, KeyElement, NotPerformedResponse,
    ResourceClassEntitlements, ResourceClassListResponse, ResourceClassName, RevocationRequest,
    RevocationResponse, SigningCert, Text,
};
use std::alloc::Global;
use test_stored::{Fields, Step};

// ---- parts

// AS numbers, and IPv4 and IPv6 addresses.
const SET: &str = "64496-64511\n10.0.0.0/8\n2001:db8::/32";

// IPv4 addresses alone.
const LIMIT: &str = "-\n10.0.0.0/9\n-";

fn sender(alloc: Global) -> Result<SenderHandle, DecodeError> {
    match Handle::from_str(alloc, "Carol") {
        Ok(handle) => Ok(handle),
        Err(_) => Err(DecodeError::OutOfMemory),
    }
}

fn recipient(alloc: Global) -> Result<RecipientHandle, DecodeError> {
    match Handle::from_str(alloc, "Bob") {
        Ok(handle) => Ok(handle),
        Err(_) => Err(DecodeError::OutOfMemory),
    }
}

fn uri_of(alloc: Global, text: &str) -> Result<uri::Rsync, DecodeError> {
    match uri::Rsync::from_str(alloc, text) {
        Ok(uri) => Ok(uri),
        Err(_) => Err(DecodeError::OutOfMemory),
    }
}

fn class_name(alloc: Global) -> Result<ResourceClassName, DecodeError> {
    Ok(ResourceClassName::default_name(alloc)?)
}

fn moment() -> Result<Time, DecodeError> {
    match Time::new(1700000300) {
        Some(moment) => Ok(moment),
        None => Err(DecodeError::Malformed),
    }
}

fn issued(alloc: Global, octets: &[u8]) -> Result<IssuedCert, DecodeError> {
    let cert = Cert::decode(alloc, octets)?;
    let uri = uri_of(alloc, "rsync://localhost/repo/ca.cer")?;
    let limit = limit_of(alloc, LIMIT)?;
    Ok(IssuedCert::new(uri, limit, cert))
}

fn signing(alloc: Global, octets: &[u8]) -> Result<SigningCert, DecodeError> {
    let cert = Cert::decode(alloc, octets)?;
    let url = uri_of(alloc, "rsync://localhost/repo/ta.cer")?;
    Ok(SigningCert::new(url, cert))
}

// ---- what messages say

// What a class says of itself.
#[derive(Drop)]
struct Start {
    class_name: ResourceClassName,
    resource_set: ResourceSet,
    not_after: Time,
}

fn start_of_class(alloc: Global) -> Result<Start, DecodeError> {
    let class_name = class_name(alloc)?;
    let resource_set = set_of(alloc, SET)?;
    let not_after = moment()?;
    Ok(Start {
        class_name,
        resource_set,
        not_after,
    })
}

// A certificate that was issued, and the issuer's.
#[derive(Drop)]
struct Certificates {
    issued: IssuedCert,
    signing: SigningCert,
}

// The certificates at the beginning of the octets, one that was issued and the issuer's.
fn certificates_of(
    alloc: Global,
    octets: &[u8],
    issuer: &[u8],
) -> Result<Certificates, DecodeError> {
    let issued = issued(alloc, octets)?;
    let signing = signing(alloc, issuer)?;
    Ok(Certificates { issued, signing })
}

fn response(alloc: Global, octets: &[u8], issuer: &[u8]) -> Result<IssuanceResponse, DecodeError> {
    let start = start_of_class(alloc)?;
    let certificates = certificates_of(alloc, octets, issuer)?;
    Ok(IssuanceResponse::new(
        start.class_name,
        start.resource_set,
        start.not_after,
        certificates.issued,
        certificates.signing,
    ))
}

fn class_with(
    alloc: Global,
    start: Start,
    certificates: Certificates,
) -> Result<ResourceClassEntitlements, DecodeError> {
    let mut all = Vec::new(alloc);
    all.push(certificates.issued)?;
    Ok(ResourceClassEntitlements::new(
        start.class_name,
        start.resource_set,
        start.not_after,
        all,
        certificates.signing,
    ))
}

fn class(
    alloc: Global,
    octets: &[u8],
    issuer: &[u8],
) -> Result<ResourceClassEntitlements, DecodeError> {
    let start = start_of_class(alloc)?;
    class_with(alloc, start, certificates_of(alloc, octets, issuer)?)
}

fn list_of(
    alloc: Global,
    class: ResourceClassEntitlements,
) -> Result<ResourceClassListResponse, DecodeError> {
    let mut classes = Vec::new(alloc);
    classes.push(class)?;
    Ok(ResourceClassListResponse::new(classes))
}

fn request(alloc: Global, octets: &[u8]) -> Result<IssuanceRequest, DecodeError> {
    let class_name = class_name(alloc)?;
    let limit = limit_of(alloc, LIMIT)?;
    let csr = RpkiCaCsr::decode(alloc, octets)?;
    Ok(IssuanceRequest::new(class_name, limit, csr))
}

// A class and the key that the octets are.
fn key(alloc: Global, octets: &[u8]) -> Result<KeyElement, DecodeError> {
    match KeyIdentifier::from_octets(octets) {
        Some(key) => Ok(KeyElement::new(class_name(alloc)?, key)),
        None => Err(DecodeError::Malformed),
    }
}

fn revocation(alloc: Global, octets: &[u8]) -> Result<RevocationRequest, DecodeError> {
    let key = key(alloc, octets)?;
    Ok(RevocationRequest::new(key.class_name().clone(alloc)?, *key.key()))
}

// That nothing was done, and why; where the octets are no text, without saying why.
fn not_performed(alloc: Global, octets: &[u8]) -> Result<NotPerformedResponse, DecodeError> {
    match std::str::from_utf8(octets) {
        Ok(text) => {
            let description = Text::from_str(alloc, text)?.into_rc_str();
            Ok(NotPerformedResponse::new(1204, Some(description)))
        }
        Err(_) => Ok(NotPerformedResponse::new(18446744073709551615, None)),
    }
}

// ---- messages

// Who sends a message to whom.
#[derive(Drop)]
struct Parties {
    sender: SenderHandle,
    recipient: RecipientHandle,
}

fn both_parties(alloc: Global) -> Result<Parties, DecodeError> {
    let sender = sender(alloc)?;
    let recipient = recipient(alloc)?;
    Ok(Parties { sender, recipient })
}

// A sender whose handle is no lawful one.
fn spaced_parties(alloc: Global) -> Result<Parties, DecodeError> {
    let recipient = recipient(alloc)?;
    let name = Text::from_str(alloc, "a b")?.into_rc_str();
    Ok(Parties {
        sender: Handle::new(name),
        recipient,
    })
}

fn list(alloc: Global) -> Result<Message, DecodeError> {
    let parties = both_parties(alloc)?;
    Ok(Message::list(parties.sender, parties.recipient))
}

fn spaced(alloc: Global) -> Result<Message, DecodeError> {
    let parties = spaced_parties(alloc)?;
    Ok(Message::list(parties.sender, parties.recipient))
}

fn list_response(alloc: Global, octets: &[u8], issuer: &[u8]) -> Result<Message, DecodeError> {
    let parties = both_parties(alloc)?;
    let list = list_of(alloc, class(alloc, octets, issuer)?)?;
    Ok(Message::list_response(parties.sender, parties.recipient, list))
}

fn issue(alloc: Global, octets: &[u8]) -> Result<Message, DecodeError> {
    let parties = both_parties(alloc)?;
    let request = request(alloc, octets)?;
    Ok(Message::issue(parties.sender, parties.recipient, request))
}

fn issue_response(alloc: Global, octets: &[u8], issuer: &[u8]) -> Result<Message, DecodeError> {
    let parties = both_parties(alloc)?;
    let response = response(alloc, octets, issuer)?;
    Ok(Message::issue_response(parties.sender, parties.recipient, response))
}

fn revoke(alloc: Global, octets: &[u8]) -> Result<Message, DecodeError> {
    let parties = both_parties(alloc)?;
    let request = revocation(alloc, octets)?;
    Ok(Message::revoke(parties.sender, parties.recipient, request))
}

fn revoke_response(alloc: Global, octets: &[u8]) -> Result<Message, DecodeError> {
    let parties = both_parties(alloc)?;
    let response = RevocationResponse::new(key(alloc, octets)?);
    Ok(Message::revoke_response(parties.sender, parties.recipient, response))
}

fn error(alloc: Global, octets: &[u8]) -> Result<Message, DecodeError> {
    let parties = both_parties(alloc)?;
    let response = not_performed(alloc, octets)?;
    Ok(Message::not_performed_response(parties.sender, parties.recipient, response))
}

// ---- answers

// Whether what was read is this message; or why nothing was read.
fn again_shown(
    alloc: Global,
    again: &Result<Message, Error>,
    message: &Message,
) -> Result<Fields, DecodeError> {
    match again {
        Ok(again) => Ok(Fields::truth(alloc, again.equals(alloc, message)?)?),
        Err(error) => refused(alloc, error),
    }
}

// Whether the octets are read as this message, or why not.
fn read_again(alloc: Global, octets: &[u8], message: &Message) -> Result<Fields, DecodeError> {
    let again = Message::decode_slice(alloc, octets);
    again_shown(alloc, &again, message)
}

// Appends the octets, if these are what each call writes.
fn append_text(
    alloc: Global,
    fields: &mut Fields,
    octets: &[u8],
    message: &Message,
) -> Result<(), DecodeError> {
    match is_written(alloc, message, octets)? {
        true => Ok(fields.octets(octets)?),
        false => Err(DecodeError::Malformed),
    }
}

// Whether the text of a message is read as it, or why not, and this text, as each call writes it.
fn shown(alloc: Global, message: &Message) -> Result<Fields, DecodeError> {
    let octets = message.text_bytes(alloc)?;
    let mut fields = read_again(alloc, octets.as_slice(), message)?;
    append_text(alloc, &mut fields, octets.as_slice(), message)?;
    Ok(fields)
}

fn made_shown(alloc: Global, made: &Result<Message, DecodeError>) -> Result<Fields, DecodeError> {
    match made {
        Ok(message) => shown(alloc, message),
        Err(DecodeError::Malformed) => Err(DecodeError::Malformed),
        Err(DecodeError::OutOfMemory) => Err(DecodeError::OutOfMemory),
    }
}

fn spaced_created(alloc: Global, argument: &[u8]) -> Result<Fields, DecodeError> {
    created(alloc, spaced(alloc)?, argument)
}

// ---- many classes

fn copies(
    alloc: Global,
    class: &ResourceClassEntitlements,
    number: u64,
) -> Result<ResourceClassListResponse, DecodeError> {
    let mut classes = Vec::new(alloc);
    for _ in 0..number {
        classes.push(class.clone(alloc)?)?;
    }
    Ok(ResourceClassListResponse::new(classes))
}

// As many classes as the argument says, each with the certificate at the beginning of the octets, which is the issuer's too.
fn many(alloc: Global, octets: &[u8], argument: &[u8]) -> Result<Message, DecodeError> {
    let number = number_of(text_of(argument)?)?;
    let parties = both_parties(alloc)?;
    let list = copies(alloc, &class(alloc, octets, octets)?, number)?;
    Ok(Message::list_response(parties.sender, parties.recipient, list))
}

// The message that a step puts together; None where it does nothing of the kind.
fn made(alloc: Global, octets: &[u8], step: &Step<'_>) -> Option<Result<Message, DecodeError>> {
    let argument = &step.argument;
    match step.call {
        "made_list" => Some(list(alloc)),
        "made_list_response" => Some(list_response(alloc, octets, argument)),
        "made_issue" => Some(issue(alloc, octets)),
        "made_issue_response" => Some(issue_response(alloc, octets, argument)),
        "made_revoke" => Some(revoke(alloc, octets)),
        "made_revoke_response" => Some(revoke_response(alloc, octets)),
        "made_error" => Some(error(alloc, octets)),
        "made_spaced" => Some(spaced(alloc)),
        "made_classes" => Some(many(alloc, octets, argument)),
        _ => None,
    }
}

/// What a call of this module answers; None where the step is none.
pub fn answer(
    alloc: Global,
    octets: &[u8],
    step: &Step<'_>,
) -> Option<Result<Fields, DecodeError>> {
    if step.call == "created_spaced" {
        return Some(spaced_created(alloc, &step.argument));
    }
    match &made(alloc, octets, step) {
        Some(made) => Some(made_shown(alloc, made)),
        None => None,
    }
}
