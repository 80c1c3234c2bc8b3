//! Whether copies of the parts of messages are equal to them.

use crate::answers::{append_copy, append_truth, refused};
use rpki_der::DecodeError;
use rpki_provisioning::{Message, Payload};
use rpki_updown::{
    Error, IssuanceRequest, IssuanceResponse, IssuedCert, KeyElement, NotPerformedResponse,
    OutOfMemory, RequestResourceLimit, ResourceClassEntitlements, ResourceClassListResponse,
    ResourceClassName, RevocationRequest, RevocationResponse, SigningCert,
};
use std::alloc::Global;
use test_stored::Fields;

fn append_name(
    alloc: Global,
    fields: &mut Fields,
    name: &ResourceClassName,
) -> Result<(), DecodeError> {
    append_copy(fields, name.clone(alloc), name)
}

fn append_limit(
    alloc: Global,
    fields: &mut Fields,
    limit: &RequestResourceLimit,
) -> Result<(), DecodeError> {
    append_copy(fields, limit.clone(alloc), limit)
}

fn append_key(alloc: Global, fields: &mut Fields, key: &KeyElement) -> Result<(), DecodeError> {
    append_copy(fields, key.clone(alloc), key)?;
    append_name(alloc, fields, key.class_name())
}

fn append_issued(
    alloc: Global,
    fields: &mut Fields,
    issued: &IssuedCert,
) -> Result<(), DecodeError> {
    append_copy(fields, issued.clone(alloc), issued)?;
    append_limit(alloc, fields, issued.req_limit())
}

fn append_signing(
    alloc: Global,
    fields: &mut Fields,
    signing: &SigningCert,
) -> Result<(), DecodeError> {
    append_copy(fields, signing.clone(alloc), signing)
}

// The class, its certificates, each with its limit, and the issuer's.
fn append_class(
    alloc: Global,
    fields: &mut Fields,
    class: &ResourceClassEntitlements,
) -> Result<(), DecodeError> {
    append_copy(fields, class.clone(alloc), class)?;
    for issued in class.issued_certs() {
        append_issued(alloc, fields, issued)?;
    }
    append_signing(alloc, fields, class.signing_cert())
}

fn append_classes(
    alloc: Global,
    fields: &mut Fields,
    list: &ResourceClassListResponse,
) -> Result<(), DecodeError> {
    append_copy(fields, list.clone(alloc), list)?;
    for class in list.classes() {
        append_class(alloc, fields, class)?;
    }
    Ok(())
}

// Whether the copy asks for the same.
fn is_same(
    alloc: Global,
    copy: IssuanceRequest,
    request: &IssuanceRequest,
) -> Result<bool, OutOfMemory> {
    copy.equals(alloc, request)
}

fn append_asked(
    alloc: Global,
    fields: &mut Fields,
    request: &IssuanceRequest,
) -> Result<(), DecodeError> {
    append_truth(fields, is_same(alloc, request.clone(alloc)?, request)?)?;
    append_limit(alloc, fields, request.limit())
}

fn append_issuance(
    alloc: Global,
    fields: &mut Fields,
    response: &IssuanceResponse,
) -> Result<(), DecodeError> {
    append_copy(fields, response.clone(alloc), response)?;
    append_issued(alloc, fields, response.issued_cert())?;
    append_signing(alloc, fields, response.signing_cert())
}

fn append_revocation(
    alloc: Global,
    fields: &mut Fields,
    request: &RevocationRequest,
) -> Result<(), DecodeError> {
    append_copy(fields, request.clone(alloc), request)?;
    append_key(alloc, fields, request.key_element())
}

fn append_revoked(
    alloc: Global,
    fields: &mut Fields,
    response: &RevocationResponse,
) -> Result<(), DecodeError> {
    append_copy(fields, response.clone(alloc), response)?;
    append_key(alloc, fields, response.key_element())
}

fn append_status(
    alloc: Global,
    fields: &mut Fields,
    response: &NotPerformedResponse,
) -> Result<(), DecodeError> {
    append_copy(fields, response.clone(alloc), response)
}

fn append_parts(alloc: Global, fields: &mut Fields, payload: &Payload) -> Result<(), DecodeError> {
    match payload {
        Payload::List => Ok(()),
        Payload::ListResponse(list) => append_classes(alloc, fields, list),
        Payload::Issue(request) => append_asked(alloc, fields, request),
        Payload::IssueResponse(response) => append_issuance(alloc, fields, response),
        Payload::Revoke(request) => append_revocation(alloc, fields, request),
        Payload::RevokeResponse(response) => append_revoked(alloc, fields, response),
        Payload::ErrorResponse(response) => append_status(alloc, fields, response),
    }
}

// Whether the copy is equal. The copy is let go here alone, since its kinds have many parts.
fn is_equal(alloc: Global, copy: Payload, payload: &Payload) -> Result<bool, OutOfMemory> {
    copy.equals(alloc, payload)
}

fn shown(alloc: Global, payload: &Payload) -> Result<Fields, DecodeError> {
    let is_equal = is_equal(alloc, payload.clone(alloc)?, payload)?;
    let mut fields = Fields::truth(alloc, is_equal)?;
    append_parts(alloc, &mut fields, payload)?;
    Ok(fields)
}

/// Of what the message says, and of each of its parts in turn, whether a copy is equal.
pub fn copies(alloc: Global, read: &Result<Message, Error>) -> Result<Fields, DecodeError> {
    match read {
        Ok(message) => shown(alloc, message.payload()),
        Err(error) => refused(alloc, error),
    }
}
