//! The contents octets of the object identifiers of signed messages.

ghost use Rattle.std.specs.Prelude.{◌≡◌, codes};
ghost use Rattle.rpki_der.specs.Arcs.{oid_text};
ghost use Rattle.rpki_sigmsg.specs.ObjectIdentifiers as spec;

/// signedData, 1.2.840.113549.1.7.2.
pub(crate) const SIGNED_DATA: [u8; 9] = [42, 134, 72, 134, 247, 13, 1, 7, 2];

/// contentType, 1.2.840.113549.1.9.3.
pub(crate) const CONTENT_TYPE: [u8; 9] = [42, 134, 72, 134, 247, 13, 1, 9, 3];

/// messageDigest, 1.2.840.113549.1.9.4.
pub(crate) const MESSAGE_DIGEST: [u8; 9] = [42, 134, 72, 134, 247, 13, 1, 9, 4];

/// signingTime, 1.2.840.113549.1.9.5.
pub(crate) const SIGNING_TIME: [u8; 9] = [42, 134, 72, 134, 247, 13, 1, 9, 5];

/// binarySigningTime, 1.2.840.113549.1.9.16.2.46.
pub(crate) const BINARY_SIGNING_TIME: [u8; 11] = [42, 134, 72, 134, 247, 13, 1, 9, 16, 2, 46];

/// id-ct-xml, 1.2.840.113549.1.9.16.1.28.
pub(crate) const CT_XML: [u8; 11] = [42, 134, 72, 134, 247, 13, 1, 9, 16, 1, 28];

/// SHA-256, 2.16.840.1.101.3.4.2.1.
pub(crate) const SHA256: [u8; 9] = [96, 134, 72, 1, 101, 3, 4, 2, 1];

/// The object identifiers that signed messages name have these texts, the dotted names of the standards.
pub fn message_identifiers_have_texts()
    ensures signed_data_type { oid_text spec.signed_data_type ≡ codes "1.2.840.113549.1.7.2" }
    ensures content_type { oid_text spec.content_type ≡ codes "1.2.840.113549.1.9.3" }
    ensures message_digest { oid_text spec.message_digest ≡ codes "1.2.840.113549.1.9.4" }
    ensures signing_time { oid_text spec.signing_time ≡ codes "1.2.840.113549.1.9.5" }
    ensures binary_signing_time { oid_text spec.binary_signing_time ≡
        codes "1.2.840.113549.1.9.16.2.46" }
    ensures xml_content { oid_text spec.xml_content ≡ codes "1.2.840.113549.1.9.16.1.28" }
    ensures sha256_name { oid_text spec.sha256_name ≡ codes "2.16.840.1.101.3.4.2.1" }
{}
