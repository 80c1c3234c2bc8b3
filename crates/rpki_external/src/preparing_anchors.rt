//! What is to be signed of the own trust anchor, and the certificate with its signature.

ghost use Rattle.std.specs.Prelude.{◌≡◌, IfErr, IfOk};
ghost use Rattle.rpki_base.specs.Civil.{IsMoment};
ghost use Rattle.rpki_der.specs.declared.mode.Mode.{Mode};
ghost use Rattle.rpki_idcert.specs.Making.{IsReadAgain};
ghost use Rattle.rpki_signer.specs.Limits.{IsShort};
ghost use Rattle.rpki_external.specs.Making as spec;

use crate::preparing::{PrepareError, signature_of};
use bytes::Bytes;
use rpki_base::{PublicKey, PublicKeyFormat, Serial, Validity};
use rpki_idcert::{IdCert, TbsIdCert, UnsignedIdCert};
use rpki_signer::is_within_limit;
use std::alloc::Global;

/// What is to be signed of a key's own certificate, by the holder of that key: serial number 1, cA true, and this validity, as
/// [`IdCert::new_ta`] makes it.
///
/// The first of these decides: TooLong where the bits of the key have more than 2^16 octets, IncompatibleKey where it is no RSA key.
pub fn prepare_anchor(
    alloc: Global,
    key: &PublicKey,
    validity: Validity,
) -> Result<UnsignedIdCert, PrepareError>
    ensures prepared { IfOk result (λ u. u ≡ spec.anchor_fields key.now validity) }
    ensures can { IfOk result (λ _. spec.CanPrepareAnchor key.now) }
    ensures err { IfErr result (spec.PrepareAnchorFails key.now) }
{
    if !is_within_limit(key.bits_bytes().as_slice()) {
        return Err(PrepareError::TooLong);
    }
    if key.format() != PublicKeyFormat::Rsa {
        return Err(PrepareError::IncompatibleKey);
    }
    let tbs = TbsIdCert::new(alloc, Serial::from(1), validity, key, key)?;
    Ok(UnsignedIdCert::new(alloc, tbs)?)
}

// For the proof: both ends of a validity are in the years 0 to 9999, by their type.
fn are_moments(validity: Validity)
    ensures { IsMoment validity.not_before × IsMoment validity.not_after }
{
    let _ = validity.not_before().seconds();
    let _ = validity.not_after().seconds();
}

/// The key's own certificate with this signature of what [`prepare_anchor`] gives for the same key and validity. It isn't looked at,
/// but for its length: TooLong comes as there, and where it has more than 2^16 octets; the other errors are those of `prepare_anchor`.
/// Where it holds the certificate is believed as a trust anchor's at each second of its validity
/// ([`crate::finished_anchor_is_believed`]).
pub fn finish_anchor(
    alloc: Global,
    key: &PublicKey,
    validity: Validity,
    signature: Bytes,
) -> Result<IdCert, PrepareError>
    ensures finished { IfOk result (λ c. c ≡ spec.finished_anchor key.now validity signature) }
    ensures can { IfOk result (λ _. spec.CanPrepareAnchor key.now) }
    ensures short { IfOk result (λ _. IsShort signature) }

    // What is written of it is read again, in both modes.
    ensures again { IfOk result (λ c. (mode : Mode) → IsReadAgain mode c) }
    ensures err { IfErr result (spec.FinishAnchorFails key.now signature) }
{
    // For the proof: both ends of the validity are in the years 0 to 9999.
    are_moments(validity);
    let unsigned = prepare_anchor(alloc, key, validity)?;
    if !is_within_limit(signature.as_slice()) {
        return Err(PrepareError::TooLong);
    }
    let signature = signature_of(signature);
    Ok(unsigned.with_signature(signature))
}
