//! The octets in a shape are read as the certificates and the request that they begin with.

ghost use Rattle.std.specs.Prelude.{◌≡◌, length, sum_by};
ghost use Rattle.rpki_provisioning.specs.Filling.{Fills, issued_size, class_size, issuance_size, payload_size, fault_in};
ghost use Rattle.rpki_provisioning.specs.Shape.{certificate_of, request_of, issued_by, signing_by, class_by, issuance_by, asked_by, payload_of_shape, message_of_shape};
ghost use Rattle.rpki_sets.specs.Texts.{read_all};

use crate::message::Message;
use crate::payload::Payload;
use crate::shape::{
    ClassShape, IssuanceShape, IssuedShape, MessageShape, PayloadShape, RequestShape, SigningShape,
};
use rpki_cert::{Cert, RpkiCaCsr};
use rpki_common::Sequence;
use rpki_der::{DecodeError, Steps};
use rpki_text::Base64;
use rpki_updown::{
    Error, IssuanceRequest, IssuanceResponse, IssuedCert, ResourceClassEntitlements,
    ResourceClassListResponse, SigningCert,
};
use std::alloc::Global;
use std::sync::ledger::Ledger;

// The certificate with which octets begin.
fn certificate_of<L: Ledger>(
    alloc: Global,
    octets: &Base64,
    steps: &mut Steps<L>,
) -> Result<Cert, Error>
    ensures { Fills Error.CertSyntax (certificate_of octets.now) (λ c. c) (length octets.now)
        steps.old steps.new result }
{
    let octets = octets.to_bytes(alloc)?;
    match Cert::decode_counted(alloc, octets.as_slice(), steps) {
        Ok(cert) => Ok(cert),
        Err(DecodeError::Malformed) => Err(Error::CertSyntax),
        Err(DecodeError::OutOfMemory) => Err(Error::OutOfMemory),
    }
}

// The request with which octets begin.
fn request_of<L: Ledger>(
    alloc: Global,
    octets: &Base64,
    steps: &mut Steps<L>,
) -> Result<RpkiCaCsr, Error>
    ensures { Fills Error.InvalidCsrSyntax (request_of octets.now) (λ c. c) (length octets.now)
        steps.old steps.new result }
{
    let octets = octets.to_bytes(alloc)?;
    match RpkiCaCsr::decode_counted(alloc, octets.as_slice(), steps) {
        Ok(csr) => Ok(csr),
        Err(DecodeError::Malformed) => Err(Error::InvalidCsrSyntax),
        Err(DecodeError::OutOfMemory) => Err(Error::OutOfMemory),
    }
}

fn issued_of<L: Ledger>(
    alloc: Global,
    shape: IssuedShape,
    steps: &mut Steps<L>,
) -> Result<IssuedCert, Error>
    ensures { Fills Error.CertSyntax (issued_by certificate_of shape) (λ c. c) (issued_size shape)
        steps.old steps.new result }
{
    let cert = certificate_of(alloc, &shape.octets, steps)?;
    Ok(IssuedCert::new(shape.uri, shape.req_limit, cert))
}

fn signing_of<L: Ledger>(
    alloc: Global,
    shape: SigningShape,
    steps: &mut Steps<L>,
) -> Result<SigningCert, Error>
    ensures { Fills Error.CertSyntax (signing_by certificate_of shape) (λ c. c)
        (length shape.cert) steps.old steps.new result }
{
    let cert = certificate_of(alloc, &shape.octets, steps)?;
    Ok(SigningCert::new(shape.url, cert))
}

fn all_issued_of<L: Ledger>(
    alloc: Global,
    shapes: Sequence<IssuedShape>,
    steps: &mut Steps<L>,
) -> Result<Vec<IssuedCert>, Error>
    ensures { Fills Error.CertSyntax (read_all (issued_by certificate_of) shapes) (λ v. v.items)
        (sum_by issued_size shapes) steps.old steps.new result }
{
    let mut left = shapes.into_vec().into_iter();
    let mut all = Vec::new(alloc);
    'shapes: while let Some(shape) = left.next() {
        let issued = issued_of(alloc, shape, steps)?;
        all.push(issued)?;
    }
    Ok(all)
}

fn class_of<L: Ledger>(
    alloc: Global,
    shape: ClassShape,
    steps: &mut Steps<L>,
) -> Result<ResourceClassEntitlements, Error>
    ensures { Fills Error.CertSyntax (class_by certificate_of shape) (λ c. c) (class_size shape)
        steps.old steps.new result }
{
    let issued = all_issued_of(alloc, shape.issued_certs, steps)?;
    let signing = signing_of(alloc, shape.signing_cert, steps)?;
    Ok(ResourceClassEntitlements::new(
        shape.class_name,
        shape.resource_set,
        shape.not_after,
        issued,
        signing,
    ))
}

fn classes_of<L: Ledger>(
    alloc: Global,
    shapes: Sequence<ClassShape>,
    steps: &mut Steps<L>,
) -> Result<Vec<ResourceClassEntitlements>, Error>
    ensures { Fills Error.CertSyntax (read_all (class_by certificate_of) shapes) (λ v. v.items)
        (sum_by class_size shapes) steps.old steps.new result }
{
    let mut left = shapes.into_vec().into_iter();
    let mut all = Vec::new(alloc);
    'shapes: while let Some(shape) = left.next() {
        let class = class_of(alloc, shape, steps)?;
        all.push(class)?;
    }
    Ok(all)
}

fn issuance_of<L: Ledger>(
    alloc: Global,
    shape: IssuanceShape,
    steps: &mut Steps<L>,
) -> Result<IssuanceResponse, Error>
    ensures { Fills Error.CertSyntax (issuance_by certificate_of shape) (λ i. i)
        (issuance_size shape) steps.old steps.new result }
{
    let issued = issued_of(alloc, shape.issued_cert, steps)?;
    let signing = signing_of(alloc, shape.signing_cert, steps)?;
    Ok(IssuanceResponse::new(
        shape.class_name,
        shape.resource_set,
        shape.not_after,
        issued,
        signing,
    ))
}

fn asked_of<L: Ledger>(
    alloc: Global,
    shape: RequestShape,
    steps: &mut Steps<L>,
) -> Result<IssuanceRequest, Error>
    ensures { Fills Error.InvalidCsrSyntax (asked_by request_of shape) (λ a. a)
        (length shape.csr) steps.old steps.new result }
{
    let csr = request_of(alloc, &shape.octets, steps)?;
    Ok(IssuanceRequest::new(shape.class_name, shape.limit, csr))
}

fn payload_of<L: Ledger>(
    alloc: Global,
    shape: PayloadShape,
    steps: &mut Steps<L>,
) -> Result<Payload, Error>
    ensures { Fills (fault_in shape) (payload_of_shape shape) (λ p. p) (payload_size shape)
        steps.old steps.new result }
{
    match shape {
        PayloadShape::List => Ok(Payload::List),
        PayloadShape::ListResponse(classes) => {
            let classes = classes_of(alloc, classes, steps)?;
            Ok(Payload::ListResponse(ResourceClassListResponse::new(classes)))
        }
        PayloadShape::Issue(request) => Ok(Payload::Issue(asked_of(alloc, request, steps)?)),
        PayloadShape::IssueResponse(response) => {
            Ok(Payload::IssueResponse(issuance_of(alloc, response, steps)?))
        }
        PayloadShape::Revoke(request) => Ok(Payload::Revoke(request)),
        PayloadShape::RevokeResponse(response) => Ok(Payload::RevokeResponse(response)),
        PayloadShape::ErrorResponse(response) => Ok(Payload::ErrorResponse(response)),
    }
}

/// The message of a shape.
pub(crate) fn message_of_shape<L: Ledger>(
    alloc: Global,
    shape: MessageShape,
    steps: &mut Steps<L>,
) -> Result<Message, Error>
    ensures { Fills (fault_in shape.payload) (message_of_shape shape) (λ m. m)
        (payload_size shape.payload) steps.old steps.new result }
{
    let payload = payload_of(alloc, shape.payload, steps)?;
    Ok(Message::of(shape.sender, shape.recipient, payload))
}
