//! Whether what a message says can be written so that it is read again. Most of it is kept by the types of its parts.

ghost use Rattle.std.specs.Prelude.{◌↔◌, IsTrue};
ghost use Rattle.std.specs.List.{AllByRecursion};
ghost use Rattle.base64.specs.GeneralPurpose.{IsBytes};
ghost use Rattle.rpki_provisioning.specs.Writable.{IsWritableClass, IsWritableIssuance, IsWritableIssued, IsWritableKey, IsWritableLimit, IsWritableNotPerformed, IsWritableRequest, IsWritableSet, IsWritableSigning};

use rpki_cert::requests_are_read_again;
use rpki_sets::ResourceSet;
use rpki_updown::{
    IssuanceRequest, IssuanceResponse, IssuedCert, KeyElement, NotPerformedResponse,
    RequestResourceLimit, ResourceClassEntitlements, SigningCert,
};
use rpki_xml::is_trimmed;
use rpki_xmltext::is_plain;

// ---- what holds of parts by their types: these run nothing that counts, and hand out what the types promise, for the proofs

// For the proof: the three sets of resources are lists of runs in order.
fn is_set(set: &ResourceSet)
    ensures { IsWritableSet set.now }
{
    let _asn = set.asn().runs();
    let _ipv4 = set.ipv4().runs();
    let _ipv6 = set.ipv6().runs();
}

// For the proof: each stated set of a limit is one.
fn is_limit(limit: &RequestResourceLimit)
    ensures { IsWritableLimit limit.now }
{
    limit.stated_sets_are_sets();
}

// For the proof: location, limit and certificate of an issued certificate are lawful.
fn is_issued(issued: &IssuedCert)
    ensures { IsWritableIssued issued.now }
{
    let _uri = issued.uri().as_str();
    is_limit(issued.req_limit());
    let _cert = issued.cert().as_slice();
}

// For the proof: all of these issued certificates are lawful.
fn are_issued(certs: &[IssuedCert])
    ensures { AllByRecursion IsWritableIssued certs.now }
{
    for issued in certs {
        is_issued(issued);
    }
}

// For the proof: location and certificate of a signing certificate are lawful.
fn is_signing(signing: &SigningCert)
    ensures { IsWritableSigning signing.now }
{
    let _url = signing.url().as_str();
    let _cert = signing.cert().as_slice();
}

// For the proof: octets are below 256.
fn are_bytes(octets: &[u8])
    ensures { IsBytes octets.now }
{}

// ---- texts that are tested

/// Whether a class can be written so that it is read again: its name consists of octets that a document may have.
pub(crate) fn is_writable_class(class: &ResourceClassEntitlements) -> bool
    ensures { IsTrue result ↔ IsWritableClass class.now }
{
    is_set(class.resource_set());
    let _not_after = class.not_after().seconds();
    are_issued(class.issued_certs());
    is_signing(class.signing_cert());
    is_plain(class.class_name().as_str())
}

/// Whether each class can be written so that it is read again.
pub(crate) fn are_writable_classes(classes: &[ResourceClassEntitlements]) -> bool
    ensures { IsTrue result ↔ AllByRecursion IsWritableClass classes.now }
{
    for class in classes {
        if !is_writable_class(class) {
            return false;
        }
    }
    true
}

/// Whether a response with a certificate can be written so that it is read again: the class's name consists of octets that a document
/// may have.
pub(crate) fn is_writable_issuance(response: &IssuanceResponse) -> bool
    ensures { IsTrue result ↔ IsWritableIssuance response.now }
{
    is_set(response.resource_set());
    let _not_after = response.not_after().seconds();
    is_issued(response.issued_cert());
    is_signing(response.signing_cert());
    is_plain(response.class_name().as_str())
}

/// Whether a request for a certificate can be written so that it is read again: the class's name consists of octets that a document may
/// have.
pub(crate) fn is_writable_request(request: &IssuanceRequest) -> bool
    ensures { IsTrue result ↔ IsWritableRequest request.now }
{
    is_limit(request.limit());
    requests_are_read_again(request.csr());
    is_plain(request.class_name().as_str())
}

/// Whether a key can be written so that it is read again: the class's name consists of octets that a document may have.
pub(crate) fn is_writable_key(key: &KeyElement) -> bool
    ensures { IsTrue result ↔ IsWritableKey key.now }
{
    are_bytes(key.key().as_slice());
    is_plain(key.class_name().as_str())
}

/// Whether a status can be written so that it is read again: its description consists of octets that a document may have, and has no
/// outer white space.
pub(crate) fn is_writable_status(response: &NotPerformedResponse) -> bool
    ensures { IsTrue result ↔ IsWritableNotPerformed response.now }
{
    let _status = response.status();
    match response.description() {
        None => true,
        Some(text) => is_plain(text.as_str()) && is_trimmed(text.as_str().as_bytes()),
    }
}
