//! What is to be signed of a certificate request, and the request with its signature.

ghost use Rattle.std.specs.Prelude.{◌≡◌, ◌++◌, IfErr, IfOk, List, ℕ};
ghost use Rattle.rpki_base.specs.RpkiSignatureAlgorithm.{spelled_x509};
ghost use Rattle.rpki_base.specs.SignedData.{CanSpellSigned, spelled_data};
ghost use Rattle.rpki_external.specs.Making as spec;
ghost use Rattle.rpki_external.specs.Verifying.{BeginsRequest};
ghost use Rattle.rpki_signer.specs.Limits.{IsShort};

use crate::preparing::{PrepareError, signature_of};
use bytes::Bytes;
use rpki_base::{PublicKey, PublicKeyFormat};
use rpki_cert::UnsignedCsr;
use rpki_der::Captured;
use rpki_signer::is_within_limit;
use rpki_text::uri::{self, Https, Rsync};
use std::alloc::Global;

/// Of which key a request is, and where the authority publishes (RFC 6487, 6; RFC 6492, 3.4.1).
#[derive(Drop)]
pub struct RequestPlan {
    /// The key for which a certificate is requested, which signs the request.
    pub key: PublicKey,
    /// Where its objects are to be; a slash is added where the path is no directory.
    pub ca_repository: Rsync,
    /// Where its manifest is to be.
    pub rpki_manifest: Rsync,
    /// Where its changes are notified (RFC 8182), if they are.
    pub rpki_notify: Option<Https>,
}

impl From<uri::Error> for PrepareError {
    ghost use Rattle.rpki_external.specs.Making.{prepare_error_of_uri};

    ghost from_gives = { λ error e. e ≡ prepare_error_of_uri error };

    fn from(error: uri::Error) -> PrepareError {
        match error {
            uri::Error::OutOfMemory => PrepareError::OutOfMemory,
            error => PrepareError::Uri(error),
        }
    }
}

/// What is to be signed of a certificate request, by the holder of its key, as [`rpki_cert::construct_rpki_ca`] makes it.
///
/// The first of these decides: TooLong where the bits of the key have more than 2^16 octets, IncompatibleKey where it is no RSA key, Uri
/// where the URI of the repository with a slash behind it is unlawful.
pub fn prepare_request(alloc: Global, plan: &RequestPlan) -> Result<UnsignedCsr, PrepareError>
    ensures prepared { IfOk result (λ u. u ≡ spec.unsigned_request plan.now) }
    ensures can { IfOk result (λ _. spec.CanPrepareRequest plan.now) }
    ensures err { IfErr result (spec.PrepareRequestFails plan.now) }
{
    if !is_within_limit(plan.key.bits_bytes().as_slice()) {
        return Err(PrepareError::TooLong);
    }
    if plan.key.format() != PublicKeyFormat::Rsa {
        return Err(PrepareError::IncompatibleKey);
    }
    Ok(UnsignedCsr::new(
        alloc,
        &plan.key,
        &plan.ca_repository,
        &plan.rpki_manifest,
        plan.rpki_notify.as_ref(),
    )?)
}

/// The certificate request in DER with this signature of what [`prepare_request`] gives for the same plan. It isn't looked at, but for
/// its length: TooLong comes as there, and where it has more than 2^16 octets; the other errors are those of `prepare_request`. Where it
/// holds the request is verified ([`crate::finished_request_is_verified`]).
pub fn finish_request(
    alloc: Global,
    plan: &RequestPlan,
    signature: Bytes,
) -> Result<Captured, PrepareError>
    ensures finished { IfOk result (λ octets. octets
        ≡ spelled_data spelled_x509 (spec.finished_request plan.now signature).signed) }
    ensures spelled { IfOk result (λ _. CanSpellSigned spelled_x509
        (spec.finished_request plan.now signature).signed) }
    ensures can { IfOk result (λ _. spec.CanPrepareRequest plan.now) }
    ensures short { IfOk result (λ _. IsShort signature) }

    // The octets are read as the request, whatever stands behind them.
    ensures again { IfOk result (λ octets. (rest : List ℕ)
        → BeginsRequest (octets ++ rest) (spec.finished_request plan.now signature)) }
    ensures err { IfErr result (spec.FinishRequestFails plan.now signature) }
{
    let unsigned = prepare_request(alloc, plan)?;
    if !is_within_limit(signature.as_slice()) {
        return Err(PrepareError::TooLong);
    }
    let signature = signature_of(signature);
    let octets = unsigned.with_signature(alloc, signature)?;
    Ok(octets)
}
