//! Messages of the provisioning protocol (RFC 6492).
//!
//! - [`Message`] is a message (3.2): who sends it, to whom, and a [`Payload`]. It is decoded from XML and written as XML.
//! - [`Payload`] is what it says, one of seven: the list request and the response with the resource classes (3.3), the certificate
//!   request and the response with the certificate (3.4), the request to revoke the certificates of a key and the response that they
//!   were (3.5), and the response that a request was not performed (3.6). What they hold are types of rpki_updown. [`CONTENT_TYPE`]
//!   is the media type.
//! - [`ProvisioningCms`] is a signed message with the message that it holds (3.1): it is decoded in BER, validated under an issuer's key
//!   at a moment, and created with a signer.
//! - [`written_is_read`]: what is written of a message that keeps to specs/Writable.antt is read as that message.
//! - [`read_is_writable`]: every message that is read keeps to it. [`read_texts_are_short`]: its text has at most 40 octets for each that
//!   was read, and 1024 more. [`at_most_one`]: octets are at most one message. [`answers_exclude_each_other`]: a message, and each cause
//!   to refuse octets, excludes the others.
//!
//! Reading has two steps. An element is read as a shape, a message with octets in the place of certificates and of the request. Then these
//! octets are read as the certificate or the request with which they begin, in DER. So XmlError comes exactly where there is no shape, and
//! CertSyntax and InvalidCsrSyntax exactly where there is one, and a certificate or the request in it is none.
//!
//! What a message is stands in specs/, a table of elements for each part: the element that it is written as, and what each element is
//! read as.
#![tactic(auto)]

mod attributes;
mod cms;
mod filling;
mod law;
mod message;
mod parts;
mod payload;
mod reading;
mod shape;
mod writable;
mod writing;

pub use cms::ProvisioningCms;
pub use law::{
    answers_exclude_each_other, at_most_one, content_type_is, read_is_writable,
    read_texts_are_short, written_is_read,
};
pub use message::{CONTENT_TYPE, Message};
pub use payload::Payload;
pub use rpki_updown::{
    Error, IssuanceRequest, IssuanceResponse, IssuedCert, KeyElement, NotPerformedResponse,
    ParentResourceClassName, PayloadType, PayloadTypeError, RequestResourceLimit,
    ResourceClassEntitlements, ResourceClassListResponse, ResourceClassName, RevocationRequest,
    RevocationResponse, SigningCert,
};
