//! The parts of the messages of the provisioning protocol (RFC 6492), and its errors.
//!
//! - [`ResourceClassName`] names a resource class; [`PayloadType`] is what kind of message one is.
//! - [`RevocationRequest`] and [`RevocationResponse`] hold a [`KeyElement`]; [`NotPerformedResponse`] says why nothing was done.
//! - [`RequestResourceLimit`] is the most that a certificate is asked for: applied to what a client holds, it gives what is certified. It
//!   is read of a JSON object.
//! - [`ResourceClassListResponse`] lists classes. [`ResourceClassEntitlements`] says of one what a client has in it: resources, each
//!   [`IssuedCert`], and the [`SigningCert`] of the issuing key.
//! - [`IssuanceRequest`] asks for a certificate in a class, and [`IssuanceResponse`] holds it.
//! - [`limited_set_is_kept`], [`printed_payload_type_is_read`], [`equal_values_are_the_same`],
//!   [`equal_certificates_have_the_same_octets`], [`equal_classes_have_the_same_octets`], [`equal_class_lists_have_the_same_octets`]: what
//!   holds of these parts.
//!
//! The elements that these parts are written as belong to the messages, and stand with them.
#![tactic(auto)]

mod error;
mod issuance_request;
mod issuance_response;
mod issued_cert;
mod key_element;
mod law;
mod limit_json;
mod not_performed_response;
mod payload_type;
mod request_resource_limit;
mod resource_class_entitlements;
mod resource_class_list_response;
mod resource_class_name;
mod revocation_request;
mod revocation_response;
mod signing_cert;

pub use error::Error;
pub use issuance_request::IssuanceRequest;
pub use issuance_response::IssuanceResponse;
pub use issued_cert::IssuedCert;
pub use key_element::KeyElement;
pub use law::{
    equal_certificates_have_the_same_octets, equal_class_lists_have_the_same_octets,
    equal_classes_have_the_same_octets, equal_values_are_the_same, limited_set_is_kept,
    printed_payload_type_is_read,
};
pub use not_performed_response::NotPerformedResponse;
pub use payload_type::{PayloadType, PayloadTypeError};
pub use request_resource_limit::RequestResourceLimit;
pub use resource_class_entitlements::ResourceClassEntitlements;
pub use resource_class_list_response::ResourceClassListResponse;
pub use resource_class_name::{ParentResourceClassName, ResourceClassName};
pub use revocation_request::RevocationRequest;
pub use revocation_response::RevocationResponse;
pub use rpki_base::{KeyIdentifier, PublicKey, Time, ValidationError};
pub use rpki_cert::{Cert, RpkiCaCsr};
pub use rpki_common::{OutOfMemory, Text};
pub use rpki_sets::{AsBlocks, Ipv4Blocks, Ipv6Blocks, ResourceSet};
pub use rpki_text::JsonError;
pub use rpki_xml::XmlError;
pub use signing_cert::SigningCert;
