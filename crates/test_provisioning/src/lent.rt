//! The parts of messages, as they are lent.

use crate::answers::{append_print, append_str, append_text, append_truth, refused};
use rpki_base::Time;
use rpki_cert::{Cert, RpkiCaCsr};
use rpki_der::DecodeError;
use rpki_provisioning::{Message, Payload};
use rpki_sets::ResourceSet;
use rpki_updown::{
    Error, IssuanceRequest, IssuanceResponse, IssuedCert, KeyElement, NotPerformedResponse,
    RequestResourceLimit, ResourceClassEntitlements, ResourceClassListResponse, ResourceClassName,
    RevocationRequest, SigningCert,
};
use std::alloc::Global;
use test_stored::Fields;

// ---- parts that several messages have

/// Appends the sets of AS numbers, of IPv4 and of IPv6 addresses, as each is printed.
pub fn append_set(
    alloc: Global,
    fields: &mut Fields,
    set: &ResourceSet,
) -> Result<(), DecodeError> {
    append_print(alloc, fields, set.asn())?;
    append_print(alloc, fields, set.ipv4())?;
    append_print(alloc, fields, set.ipv6())
}

/// Appends where a certificate is published, what was asked for it, and its octets.
pub fn append_certificate(
    alloc: Global,
    fields: &mut Fields,
    uri: &str,
    limit: &RequestResourceLimit,
    cert: &Cert,
) -> Result<(), DecodeError> {
    append_str(fields, uri)?;
    append_print(alloc, fields, limit)?;
    Ok(fields.octets(cert.as_slice())?)
}

/// Appends the name of a class, a limit, and what is written of a request.
pub fn append_request(
    alloc: Global,
    fields: &mut Fields,
    class_name: &ResourceClassName,
    limit: &RequestResourceLimit,
    csr: &RpkiCaCsr,
) -> Result<(), DecodeError> {
    append_str(fields, class_name.as_str())?;
    append_print(alloc, fields, limit)?;
    let octets = csr.to_captured(alloc)?;
    Ok(fields.octets(octets.as_slice())?)
}

// ---- as they are lent

fn append_issued(
    alloc: Global,
    fields: &mut Fields,
    issued: &IssuedCert,
) -> Result<(), DecodeError> {
    append_certificate(
        alloc,
        fields,
        issued.uri().as_str(),
        issued.req_limit(),
        issued.cert(),
    )
}

fn append_signing(fields: &mut Fields, signing: &SigningCert) -> Result<(), DecodeError> {
    append_str(fields, signing.url().as_str())?;
    Ok(fields.octets(signing.cert().as_slice())?)
}

// Appends what stands in a class before its certificates: the name, the sets, and until when.
fn append_start(
    alloc: Global,
    fields: &mut Fields,
    class_name: &ResourceClassName,
    set: &ResourceSet,
    not_after: Time,
) -> Result<(), DecodeError> {
    append_str(fields, class_name.as_str())?;
    append_set(alloc, fields, set)?;
    append_print(alloc, fields, &not_after.seconds())
}

fn append_class(
    alloc: Global,
    fields: &mut Fields,
    class: &ResourceClassEntitlements,
) -> Result<(), DecodeError> {
    append_start(
        alloc,
        fields,
        class.class_name(),
        class.resource_set(),
        class.not_after(),
    )?;
    for issued in class.issued_certs() {
        append_issued(alloc, fields, issued)?;
    }
    append_signing(fields, class.signing_cert())
}

fn append_classes(
    alloc: Global,
    fields: &mut Fields,
    list: &ResourceClassListResponse,
) -> Result<(), DecodeError> {
    for class in list.classes() {
        append_class(alloc, fields, class)?;
    }
    Ok(())
}

fn append_asked(
    alloc: Global,
    fields: &mut Fields,
    request: &IssuanceRequest,
) -> Result<(), DecodeError> {
    append_request(
        alloc,
        fields,
        request.class_name(),
        request.limit(),
        request.csr(),
    )
}

fn append_issuance(
    alloc: Global,
    fields: &mut Fields,
    response: &IssuanceResponse,
) -> Result<(), DecodeError> {
    append_start(
        alloc,
        fields,
        response.class_name(),
        response.resource_set(),
        response.not_after(),
    )?;
    append_issued(alloc, fields, response.issued_cert())?;
    append_signing(fields, response.signing_cert())
}

/// Appends the name of a class, a key, and what is printed of both.
pub fn append_key(alloc: Global, fields: &mut Fields, key: &KeyElement) -> Result<(), DecodeError> {
    append_str(fields, key.class_name().as_str())?;
    fields.octets(key.key().as_slice())?;
    append_print(alloc, fields, key)
}

// Appends a request's class, its key and what is printed of both, and whether its own calls give this class and this key.
fn append_revocation(
    alloc: Global,
    fields: &mut Fields,
    request: &RevocationRequest,
) -> Result<(), DecodeError> {
    let element = request.key_element();
    append_key(alloc, fields, element)?;
    append_truth(
        fields,
        request.class_name() == element.class_name() && request.key() == *element.key(),
    )
}

/// Appends the status, the description, and what is printed of both.
pub fn append_status(
    alloc: Global,
    fields: &mut Fields,
    response: &NotPerformedResponse,
) -> Result<(), DecodeError> {
    append_print(alloc, fields, &response.status())?;
    append_text(fields, response.description())?;
    append_print(alloc, fields, response)
}

fn append_payload(
    alloc: Global,
    fields: &mut Fields,
    payload: &Payload,
) -> Result<(), DecodeError> {
    match payload {
        Payload::List => Ok(()),
        Payload::ListResponse(list) => append_classes(alloc, fields, list),
        Payload::Issue(request) => append_asked(alloc, fields, request),
        Payload::IssueResponse(response) => append_issuance(alloc, fields, response),
        Payload::Revoke(request) => append_revocation(alloc, fields, request),
        Payload::RevokeResponse(response) => append_key(alloc, fields, response.key_element()),
        Payload::ErrorResponse(response) => append_status(alloc, fields, response),
    }
}

fn shown(alloc: Global, message: &Message) -> Result<Fields, DecodeError> {
    let mut fields = Fields::one(alloc, message.sender().as_bytes())?;
    append_str(&mut fields, message.recipient().as_str())?;
    append_print(alloc, &mut fields, &message.payload().payload_type())?;
    append_truth(&mut fields, message.is_list_response())?;
    append_payload(alloc, &mut fields, message.payload())?;
    Ok(fields)
}

/// Sender, recipient, kind, whether it is the answer with the classes, and the parts of what it says.
pub fn lent(alloc: Global, read: &Result<Message, Error>) -> Result<Fields, DecodeError> {
    match read {
        Ok(message) => shown(alloc, message),
        Err(error) => refused(alloc, error),
    }
}
