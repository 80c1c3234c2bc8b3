//! The contents octets of the object identifiers of signed messages.

/// signedData, 1.2.840.113549.1.7.2.
pub(crate) const SIGNED_DATA: [u8; 9] = [42, 134, 72, 134, 247, 13, 1, 7, 2];

/// contentType, 1.2.840.113549.1.9.3.
pub(crate) const CONTENT_TYPE: [u8; 9] = [42, 134, 72, 134, 247, 13, 1, 9, 3];

/// messageDigest, 1.2.840.113549.1.9.4.
pub(crate) const MESSAGE_DIGEST: [u8; 9] = [42, 134, 72, 134, 247, 13, 1, 9, 4];

/// signingTime, 1.2.840.113549.1.9.5.
pub(crate) const SIGNING_TIME: [u8; 9] = [42, 134, 72, 134, 247, 13, 1, 9, 5];

/// id-ct-xml, 1.2.840.113549.1.9.16.1.28.
pub(crate) const CT_XML: [u8; 11] = [42, 134, 72, 134, 247, 13, 1, 9, 16, 1, 28];

/// SHA-256, 2.16.840.1.101.3.4.2.1.
pub(crate) const SHA256: [u8; 9] = [96, 134, 72, 1, 101, 3, 4, 2, 1];
