//! Whether the certificate of a message is accepted as a trust anchor's certificate.

ghost use Rattle.std.specs.Prelude.{◌≡◌, MatchResult};
ghost use Rattle.rpki_setup.specs.Answers.{IsBelievedIn, RefusesCertificate};

use crate::error::Error;
use rpki_base::{Scheme, Time, Verifier};
use rpki_idcert::IdCert;
use rpki_text::Base64;
use std::alloc::Global;

/// The identity certificate with which the octets begin, in DER, accepted as a trust anchor's certificate at the moment, in seconds
/// since 1970: all five checks of [`IdCert::validate_ta_at`] hold (RFC 8183, 5; RFC 5280, 6.1.3). InvalidTaCertEncoding exactly where
/// the octets begin with no identity certificate, InvalidTaCert exactly where a check fails.
pub fn validate_idcert_at<P: Scheme, V: Verifier<P>>(
    alloc: Global,
    base64: &Base64,
    verifier: &V,
    when: Time,
) -> Result<IdCert, Error>
    ensures { MatchResult result (IsBelievedIn P.checks base64.now when)
        (RefusesCertificate P.checks base64.now when) }
{
    let octets = base64.to_bytes(alloc)?;
    let certificate = IdCert::decode(alloc, octets.as_slice())?;
    certificate.validate_ta_at(verifier, when)?;
    Ok(certificate)
}
