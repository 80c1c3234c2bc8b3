//! Resource certificates and certificate requests, as far as the provisioning protocol looks into them (RFC 6487; RFC 2986; RFC 8209).
//!
//! - [`Cert`] is a resource certificate: its exact octets and the key of its subject.
//! - [`Csr`] is a request: [`RpkiCaCsr`] that of an authority, [`BgpsecCsr`] that of a router. It is decoded in DER, and keeps the
//!   exact octets that are signed. [`Csr::from_json`] and [`Csr::to_json`]: a request as base64 text in a JSON text.
//! - [`UnsignedCsr`] is an authority's request that is to be signed elsewhere; [`construct_rpki_ca`] makes one with a signer.
//! - [`CsrAttributes`] says what the attributes of a kind of requests hold.
#![tactic(auto)]

mod access;
mod attributes;
mod cert;
mod construct;
mod csr;
mod csr_attributes;
mod extended_key_usage;
mod extensions;
mod invalid_attribute;
mod json;
mod key_usage;
mod law;
mod object_identifiers;

pub use cert::{Cert, equal_certs_have_the_same_octets};
pub use construct::{CsrError, UnsignedCsr, construct_rpki_ca, equal_request_errors_are_the_same};
pub use csr::{BgpsecCsr, Csr, RpkiCaCsr};
pub use csr_attributes::{BgpsecCsrAttributes, CsrAttributes, RpkiCaCsrAttributes};
pub use extended_key_usage::ExtendedKeyUsage;
pub use invalid_attribute::{InvalidAttribute, equal_invalid_attributes_are_the_same};
pub use key_usage::{KeyUsage, equal_usages_are_the_same};
pub use law::{
    octets_determine_certificates, read_certificates_are_no_longer, requests_are_read_again,
    written_certificates_are_read, written_requests_are_no_longer, written_requests_are_read,
};
pub use object_identifiers::request_identifiers_have_texts;
