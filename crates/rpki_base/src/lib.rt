//! What certificates, CRLs and signed messages are made of.
//!
//! - [`Time`], [`Validity`], [`Serial`], [`KeyIdentifier`] and [`Name`] are the leaves of certificates and CRLs.
//! - [`PublicKey`], [`Signature`] and [`SignedData`] are generic over the algorithms of [`SignatureAlgorithm`].
//! - [`Scheme`] says which signatures hold; a [`Verifier`] answers exactly that.
//! - [`FindsExtensions`] gathers what extensions say.
//! - [`require`], [`names_issuer`] and [`ValidationError`] are what lists of checks are made of.
#![tactic(auto)]

mod algorithm;
mod algorithm_identifier;
mod bgpsec_algorithm;
mod bits;
mod civil;
mod digits;
mod errors;
mod extension;
mod key_identifier;
mod law;
mod name;
mod object_identifiers;
mod public_key;
mod rfc3339;
mod rpki_algorithm;
mod scheme;
mod serial;
mod signature;
mod signed_data;
mod time;
mod time_text;
mod validation;
mod validity;

pub use algorithm::{PublicKeyFormat, SigningAlgorithm};
pub use bgpsec_algorithm::BgpsecSignatureAlgorithm;
pub use bits::{can_be_spelled, write_constructed, write_primitive};
pub use errors::{SignatureVerificationError, ToyFault, VerificationError};
pub use extension::{
    Extension, FindsExtensions, take_extension_counted, take_extensions_counted,
    take_tagged_extensions_counted,
};
pub use key_identifier::KeyIdentifier;
pub use law::{
    equal_values_are_the_same, printed_time_is_read_again, serial_is_read_again,
    time_is_read_again, times_are_ordered_by_seconds,
};
pub use name::{Name, made_name_is_read, read_name_is_read_again};
pub use object_identifiers::{
    AUTHORITY_KEY_IDENTIFIER, BASIC_CONSTRAINTS, CRL_NUMBER, SUBJECT_KEY_IDENTIFIER,
    extensions_are_named, identifiers_have_texts,
};
pub use public_key::{PublicKey, names_issuer, written_key_is_taken};
pub use rpki_algorithm::{RpkiSignatureAlgorithm, RsaIdentifier, written_algorithm_is_taken};
pub use scheme::{Scheme, Verifier};
pub use serial::Serial;
pub use signature::{Signature, SignatureAlgorithm};
pub use signed_data::{
    SignedData, equal_data_are_the_same, leave_signature, take_algorithm, written_data_are_taken,
};
pub use time::Time;
pub use validation::{ValidationError, ValidationKind, first_false_decides, require};
pub use validity::Validity;
