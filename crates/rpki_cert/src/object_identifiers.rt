//! The contents octets of the object identifiers of requests.

ghost use Rattle.std.specs.Prelude.{◌≡◌, codes};
ghost use Rattle.rpki_der.specs.Arcs.{oid_text};
ghost use Rattle.rpki_cert.specs.ObjectIdentifiers as spec;

/// extensionRequest, 1.2.840.113549.1.9.14.
pub(crate) const EXTENSION_REQUEST: [u8; 9] = [42, 134, 72, 134, 247, 13, 1, 9, 14];

/// keyUsage, 2.5.29.15.
pub(crate) const KEY_USAGE: [u8; 3] = [85, 29, 15];

/// extKeyUsage, 2.5.29.37.
pub(crate) const EXTENDED_KEY_USAGE: [u8; 3] = [85, 29, 37];

/// subjectInfoAccess, 1.3.6.1.5.5.7.1.11.
pub(crate) const SUBJECT_INFO_ACCESS: [u8; 8] = [43, 6, 1, 5, 5, 7, 1, 11];

/// The purpose of a BGPsec router, 1.3.6.1.5.5.7.3.30.
pub(crate) const BGPSEC_ROUTER: [u8; 8] = [43, 6, 1, 5, 5, 7, 3, 30];

/// caRepository, 1.3.6.1.5.5.7.48.5.
pub(crate) const CA_REPOSITORY: [u8; 8] = [43, 6, 1, 5, 5, 7, 48, 5];

/// rpkiManifest, 1.3.6.1.5.5.7.48.10.
pub(crate) const RPKI_MANIFEST: [u8; 8] = [43, 6, 1, 5, 5, 7, 48, 10];

/// rpkiNotify, 1.3.6.1.5.5.7.48.13.
pub(crate) const RPKI_NOTIFY: [u8; 8] = [43, 6, 1, 5, 5, 7, 48, 13];

/// The object identifiers that requests name have these texts, the dotted names of the standards.
pub fn request_identifiers_have_texts()
    ensures request { oid_text spec.extension_request ≡ codes "1.2.840.113549.1.9.14" }
    ensures usage { oid_text spec.key_usage ≡ codes "2.5.29.15" }
    ensures purposes { oid_text spec.extended_key_usage ≡ codes "2.5.29.37" }
    ensures access { oid_text spec.subject_info_access ≡ codes "1.3.6.1.5.5.7.1.11" }
    ensures router { oid_text spec.bgpsec_router ≡ codes "1.3.6.1.5.5.7.3.30" }
    ensures repository { oid_text spec.ca_repository ≡ codes "1.3.6.1.5.5.7.48.5" }
    ensures manifest { oid_text spec.rpki_manifest ≡ codes "1.3.6.1.5.5.7.48.10" }
    ensures notify { oid_text spec.rpki_notify ≡ codes "1.3.6.1.5.5.7.48.13" }
{}
