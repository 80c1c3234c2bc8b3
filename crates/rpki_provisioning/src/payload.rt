//! What a message says.

ghost use Rattle.std.specs.Prelude.{◌≡◌, ◌↔◌, IfOk, IsTrue, map};
ghost use Rattle.rpki_provisioning.specs.Shape.{certificate_octets, payload_shape, payload_type_of, request_octets};
ghost use Rattle.rpki_provisioning.specs.Writable.{IsWritablePayload};
ghost use Rattle.rpki_provisioning.specs.declared.shape.PayloadShape.TheVariants as shape;
ghost use Rattle.rpki_updown.specs.Entitlements.{asked_with, class_with, issuance_with};

use crate::writable::{
    are_writable_classes, is_writable_issuance, is_writable_key, is_writable_request,
    is_writable_status,
};
use rpki_common::OutOfMemory;
use rpki_updown::{
    IssuanceRequest, IssuanceResponse, NotPerformedResponse, PayloadType as Kind,
    ResourceClassListResponse, RevocationRequest, RevocationResponse,
    equal_class_lists_have_the_same_octets, equal_classes_have_the_same_octets,
    equal_values_are_the_same,
};
use std::alloc::Global;

/// What a message says (RFC 6492, 3.2).
#[derive(Drop)]
pub enum Payload {
    /// Which resource classes are there (3.3.1)?
    List,
    /// The classes (3.3.2).
    ListResponse(ResourceClassListResponse),
    /// A certificate is asked for (3.4.1).
    Issue(IssuanceRequest),
    /// A certificate was issued (3.4.2).
    IssueResponse(IssuanceResponse),
    /// The certificates of a key are to be revoked (3.5.1).
    Revoke(RevocationRequest),
    /// The certificates of a key were revoked (3.5.2).
    RevokeResponse(RevocationResponse),
    /// What was asked for is not done (3.6).
    ErrorResponse(NotPerformedResponse),
}

impl Payload {
    /// The kind.
    pub fn payload_type(&self) -> Kind
        ensures { result ≡ payload_type_of self.now }
    {
        match self {
            Payload::List => Kind::List,
            Payload::ListResponse(_) => Kind::ListResponse,
            Payload::Issue(_) => Kind::Issue,
            Payload::IssueResponse(_) => Kind::IssueResponse,
            Payload::Revoke(_) => Kind::Revoke,
            Payload::RevokeResponse(_) => Kind::RevokeResponse,
            Payload::ErrorResponse(_) => Kind::ErrorResponse,
        }
    }

    /// Whether it can be written so that it is read again: names of classes and a description consist of octets that a document may have,
    /// and a description has no outer white space. It takes no memory.
    pub fn is_writable(&self) -> bool
        ensures { IsTrue result ↔ IsWritablePayload self.now }
    {
        match self {
            Payload::List => true,
            Payload::ListResponse(response) => are_writable_classes(response.classes()),
            Payload::Issue(request) => is_writable_request(request),
            Payload::IssueResponse(response) => is_writable_issuance(response),
            Payload::Revoke(request) => is_writable_key(request.key_element()),
            Payload::RevokeResponse(response) => is_writable_key(response.key_element()),
            Payload::ErrorResponse(response) => is_writable_status(response),
        }
    }

    /// An equal payload, which shares its octets with this one.
    pub fn clone(&self, alloc: Global) -> Result<Payload, OutOfMemory>
        ensures { IfOk result (λ p. p ≡ self.now) }
    {
        match self {
            Payload::List => Ok(Payload::List),
            Payload::ListResponse(classes) => Ok(Payload::ListResponse(classes.clone(alloc)?)),
            Payload::Issue(request) => Ok(Payload::Issue(request.clone(alloc)?)),
            Payload::IssueResponse(response) => Ok(Payload::IssueResponse(response.clone(alloc)?)),
            Payload::Revoke(request) => Ok(Payload::Revoke(request.clone(alloc)?)),
            Payload::RevokeResponse(response) => Ok(Payload::RevokeResponse(response.clone(
                alloc,
            )?)),
            Payload::ErrorResponse(response) => Ok(Payload::ErrorResponse(response.clone(alloc)?)),
        }
    }

    /// Whether the two say the same: certificates are compared by their octets, a request by the octets that are written of it.
    #[tactic(auto, unfolding(crate::specs::Shape::payload_shape))]
    pub fn equals(&self, alloc: Global, other: &Payload) -> Result<bool, OutOfMemory>
        ensures { IfOk result (λ b. IsTrue b
            ↔ (payload_shape self.now ≡ payload_shape other.now)) }
    {
        match self {
            Payload::List => Ok(is_list(other)),
            Payload::ListResponse(classes) => Ok(is_list_response(classes, other)),
            Payload::Issue(request) => is_issue(alloc, request, other),
            Payload::IssueResponse(response) => Ok(is_issue_response(response, other)),
            Payload::Revoke(request) => Ok(is_revoke(request, other)),
            Payload::RevokeResponse(response) => Ok(is_revoke_response(response, other)),
            Payload::ErrorResponse(response) => Ok(is_error_response(response, other)),
        }
    }
}

// Whether it is the list request.
fn is_list(other: &Payload) -> bool
    ensures { IsTrue result ↔ (shape.List ≡ payload_shape other.now) }
{
    matches!(other, Payload::List)
}

// Whether it says that these are the classes.
fn is_list_response(classes: &ResourceClassListResponse, other: &Payload) -> bool
    ensures { IsTrue result ↔ (shape.ListResponse (map (class_with certificate_octets) classes.now)
        ≡ payload_shape other.now) }
{
    // For the proof: what `==` of lists of classes says.
    equal_class_lists_have_the_same_octets();
    match other {
        Payload::ListResponse(others) => *classes == *others,
        _ => false,
    }
}

// Whether it asks for this.
fn is_issue(alloc: Global, request: &IssuanceRequest, other: &Payload) -> Result<bool, OutOfMemory>
    ensures { IfOk result (λ b. IsTrue b ↔ (shape.Issue (asked_with request_octets request.now)
        ≡ payload_shape other.now)) }
{
    match other {
        Payload::Issue(others) => request.equals(alloc, others),
        _ => Ok(false),
    }
}

// Whether it says that this was issued.
fn is_issue_response(response: &IssuanceResponse, other: &Payload) -> bool
    ensures { IsTrue result ↔ (shape.IssueResponse (issuance_with certificate_octets response.now)
        ≡ payload_shape other.now) }
{
    // For the proof: what `==` of what is issued says.
    equal_classes_have_the_same_octets();
    match other {
        Payload::IssueResponse(others) => *response == *others,
        _ => false,
    }
}

// Whether it asks to revoke the certificates of this key.
fn is_revoke(request: &RevocationRequest, other: &Payload) -> bool
    ensures { IsTrue result ↔ (shape.Revoke request.now ≡ payload_shape other.now) }
{
    // For the proof: what `==` says of what holds no certificate.
    equal_values_are_the_same();
    match other {
        Payload::Revoke(others) => *request == *others,
        _ => false,
    }
}

// Whether it says that they were revoked.
fn is_revoke_response(response: &RevocationResponse, other: &Payload) -> bool
    ensures { IsTrue result ↔ (shape.RevokeResponse response.now ≡ payload_shape other.now) }
{
    // For the proof: what `==` says of what holds no certificate.
    equal_values_are_the_same();
    match other {
        Payload::RevokeResponse(others) => *response == *others,
        _ => false,
    }
}

// Whether it says that this was not done.
fn is_error_response(response: &NotPerformedResponse, other: &Payload) -> bool
    ensures { IsTrue result ↔ (shape.ErrorResponse response.now ≡ payload_shape other.now) }
{
    // For the proof: what `==` says of what holds no certificate.
    equal_values_are_the_same();
    match other {
        Payload::ErrorResponse(others) => *response == *others,
        _ => false,
    }
}
