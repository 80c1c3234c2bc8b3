//! The contents octets of the object identifiers of keys, signatures and extensions.

ghost use Rattle.std.specs.Prelude.{◌≡◌, codes};
ghost use Rattle.rpki_der.specs.Arcs.{oid_text};
ghost use Rattle.rpki_base.specs.ObjectIdentifiers as spec;

/// rsaEncryption, 1.2.840.113549.1.1.1.
pub(crate) const RSA_ENCRYPTION: [u8; 9] = [42, 134, 72, 134, 247, 13, 1, 1, 1];

/// sha256WithRSAEncryption, 1.2.840.113549.1.1.11.
pub(crate) const SHA256_WITH_RSA: [u8; 9] = [42, 134, 72, 134, 247, 13, 1, 1, 11];

/// ecPublicKey, 1.2.840.10045.2.1.
pub(crate) const EC_PUBLIC_KEY: [u8; 7] = [42, 134, 72, 206, 61, 2, 1];

/// prime256v1, 1.2.840.10045.3.1.7.
pub(crate) const PRIME256V1: [u8; 8] = [42, 134, 72, 206, 61, 3, 1, 7];

/// ecdsa-with-SHA256, 1.2.840.10045.4.3.2.
pub(crate) const ECDSA_WITH_SHA256: [u8; 8] = [42, 134, 72, 206, 61, 4, 3, 2];

/// The algorithm identifier of RSA in DER, with NULL.
pub(crate) const RSA_ALGORITHM: [u8; 15] = [
    0x30, 13, 6, 9, 42, 134, 72, 134, 247, 13, 1, 1, 1, 5, 0,
];

/// The algorithm identifier of RSA in DER, without parameters.
pub(crate) const RSA_ALGORITHM_ALONE: [u8; 13] = [
    0x30, 11, 6, 9, 42, 134, 72, 134, 247, 13, 1, 1, 1,
];

/// The algorithm identifier of RSA over SHA-256 in DER, with NULL.
pub(crate) const SHA256_RSA_ALGORITHM: [u8; 15] = [
    0x30, 13, 6, 9, 42, 134, 72, 134, 247, 13, 1, 1, 11, 5, 0,
];

/// The algorithm identifier of RSA over SHA-256 in DER, without parameters.
pub(crate) const SHA256_RSA_ALGORITHM_ALONE: [u8; 13] = [
    0x30, 11, 6, 9, 42, 134, 72, 134, 247, 13, 1, 1, 11,
];

/// The algorithm identifier of ECDSA over SHA-256 in DER.
pub(crate) const ECDSA_ALGORITHM: [u8; 12] = [0x30, 10, 6, 8, 42, 134, 72, 206, 61, 4, 3, 2];

/// The algorithm identifier of keys on prime256v1 in DER.
pub(crate) const EC_ALGORITHM: [u8; 21] = [
    0x30, 19, 6, 7, 42, 134, 72, 206, 61, 2, 1, 6, 8, 42, 134, 72, 206, 61, 3, 1, 7,
];

/// subjectKeyIdentifier, 2.5.29.14 (RFC 5280, 4.2.1.2), as the contents octets of the object identifier.
pub const SUBJECT_KEY_IDENTIFIER: [u8; 3] = [85, 29, 14];

/// basicConstraints, 2.5.29.19 (RFC 5280, 4.2.1.9), as the contents octets of the object identifier.
pub const BASIC_CONSTRAINTS: [u8; 3] = [85, 29, 19];

/// cRLNumber, 2.5.29.20 (RFC 5280, 5.2.3), as the contents octets of the object identifier.
pub const CRL_NUMBER: [u8; 3] = [85, 29, 20];

/// authorityKeyIdentifier, 2.5.29.35 (RFC 5280, 4.2.1.1), as the contents octets of the object identifier.
pub const AUTHORITY_KEY_IDENTIFIER: [u8; 3] = [85, 29, 35];

/// The public constants are the object identifiers that they are named after.
pub fn extensions_are_named()
    ensures subject { SUBJECT_KEY_IDENTIFIER ≡ spec.subject_key_identifier }
    ensures constraints { BASIC_CONSTRAINTS ≡ spec.basic_constraints }
    ensures number { CRL_NUMBER ≡ spec.crl_number }
    ensures authority { AUTHORITY_KEY_IDENTIFIER ≡ spec.authority_key_identifier }
{}

/// The object identifiers of keys, signatures, names and extensions have these texts, the dotted names of the standards.
pub fn identifiers_have_texts()
    ensures rsa_encryption { oid_text spec.rsa_encryption ≡ codes "1.2.840.113549.1.1.1" }
    ensures sha256_with_rsa { oid_text spec.sha256_with_rsa ≡ codes "1.2.840.113549.1.1.11" }
    ensures ec_public_key { oid_text spec.ec_public_key ≡ codes "1.2.840.10045.2.1" }
    ensures prime256v1 { oid_text spec.prime256v1 ≡ codes "1.2.840.10045.3.1.7" }
    ensures ecdsa_with_sha256 { oid_text spec.ecdsa_with_sha256 ≡ codes "1.2.840.10045.4.3.2" }
    ensures common_name { oid_text spec.common_name ≡ codes "2.5.4.3" }
    ensures subject { oid_text spec.subject_key_identifier ≡ codes "2.5.29.14" }
    ensures constraints { oid_text spec.basic_constraints ≡ codes "2.5.29.19" }
    ensures number { oid_text spec.crl_number ≡ codes "2.5.29.20" }
    ensures authority { oid_text spec.authority_key_identifier ≡ codes "2.5.29.35" }
{}
