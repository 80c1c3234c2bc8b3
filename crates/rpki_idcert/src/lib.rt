//! Identity certificates: those by which CAs, publication servers and their clients know each other (RFC 6492, 4; RFC 8181, 2;
//! RFC 8183, 5), in the profile of RFC 5280.
//!
//! - [`IdCert`] is a certificate: it is decoded in DER or BER, and keeps the exact octets that are signed.
//! - [`TbsIdCert`] is what they say.
//! - [`IdCert::from_json`] and [`IdCert::to_json`]: a certificate as base64 text in a JSON text.
//! - [`require`], [`names_issuer`] and [`IdCert::ee_failure`] are what lists of checks are made of.
#![tactic(auto)]

mod extensions;
mod id_cert;
mod json;
mod law;
mod making;
mod spelling;
mod tbs;
mod validation;

pub use id_cert::{IdCert, signed_octets_determine_the_fields};
pub use json::read_certificates_are_read_again;
pub use law::{made_fields_are_readable, written_fields_are_read};
pub use making::UnsignedIdCert;
pub use rpki_base::{ValidationError, ValidationKind, first_false_decides, names_issuer, require};
pub use spelling::{write_authority_key, write_extension};
pub use tbs::{TbsIdCert, equal_certificates_are_the_same, take_version};
