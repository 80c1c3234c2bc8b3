//! Signed messages for tests, made by the formats (RFC 5652, RFC 5280, RFC 6492) and by the rules of the toy scheme.
//!
//! [`build`] makes a message of [`Parts`] which is good at its moment, unless it revokes its own certificate. It promises that it
//! is safe, and nothing of the octets; that they are right is tested.
#![tactic(auto)]

mod certificate;
mod crl;
mod envelope;
mod error;
mod object_identifiers;
mod parts;
mod signer;
mod writing;

pub use envelope::build;
pub use error::BuildError;
pub use parts::Parts;
