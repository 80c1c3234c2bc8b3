//! Keys and signatures of a signer that are not too long.

ghost use Rattle.std.specs.Prelude.{◌≡◌, ◌<◌, Decides, IfOk, MatchResult};
ghost use Rattle.rpki_signer.specs.Signer.{AreDistinct};
ghost use Rattle.rpki_signer.specs.Limits.{IsShort, IsShortKey, IsShortSignature, IsShortOneOff, RefusesKey, RefusesSignature, RefusesOneOff, default_algorithm};

use crate::errors::MakeError;
use crate::signer::Signer;
use rpki_base::{
    PublicKey, RpkiSignatureAlgorithm, Scheme, Signature, SignatureAlgorithm, SigningAlgorithm,
};
use std::alloc::Global;

/// The most octets that the bits of a signer's key or one of its signatures may have.
pub(crate) const LIMIT: usize = 1 << 16;

/// Whether the bits of a key or of a signature are not too long: at most 2^16 octets.
pub fn is_within_limit(octets: &[u8]) -> bool
    ensures within { Decides result (IsShort octets.now) }
{
    octets.len() <= LIMIT
}

/// The key with this identifier; TooLong where it has more than 2^16 octets, and the signer's own refusals as `Signing`. Since nothing is
/// signed, IncompatibleKey is none of these.
pub fn key_within_limit<P: Scheme, S: Signer<P>>(
    alloc: Global,
    id: &S::KeyId,
    signer: &mut S,
) -> Result<PublicKey, MakeError<S::Error>>
    ensures key { MatchResult result
        (IsShortKey id.now (S.state signer.old) (S.state signer.new))
        (RefusesKey id.now (S.state signer.old) (S.state signer.new)) }
    ensures distinct { AreDistinct (S.state signer.new).keyring }
{
    let key = signer.get_key_info(alloc, id)?;
    if !is_within_limit(key.bits_bytes().as_slice()) {
        return Err(MakeError::TooLong);
    }
    Ok(key)
}

/// The signature of a message under the RSA key with this identifier; TooLong where it has more than 2^16 octets, and the signer's own
/// refusals as `Signing`.
pub fn sign_within_limit<P: Scheme, S: Signer<P>>(
    alloc: Global,
    id: &S::KeyId,
    message: &[u8],
    signer: &mut S,
) -> Result<Signature<RpkiSignatureAlgorithm>, MakeError<S::Error>>
    ensures signed { MatchResult result
        (λ s. IsShortSignature P.checks SigningAlgorithm.RsaSha256 id.now message.now
        (S.state signer.old) (S.state signer.new) s.value)
        (RefusesSignature P.checks id.now (S.state signer.old) (S.state signer.new)) }
    ensures algorithm { IfOk result (λ s. s.algorithm ≡ default_algorithm) }
    ensures distinct { AreDistinct (S.state signer.new).keyring }
{
    let signature = signer.sign(alloc, id, RpkiSignatureAlgorithm::default(), message)?;
    if !is_within_limit(signature.value().as_slice()) {
        return Err(MakeError::TooLong);
    }
    Ok(signature)
}

/// The signature of a message under an RSA key for this one use, and that key; TooLong where one of them has more than 2^16 octets, and
/// the signer's own refusals as `Signing`.
pub fn sign_once_within_limit<P: Scheme, S: Signer<P>>(
    alloc: Global,
    message: &[u8],
    signer: &mut S,
) -> Result<(Signature<RpkiSignatureAlgorithm>, PublicKey), MakeError<S::Error>>
    ensures signed { MatchResult result
        (λ r. IsShortOneOff P.checks SigningAlgorithm.RsaSha256 message.now
        (S.state signer.old) (S.state signer.new) r.0.value r.1)
        (RefusesOneOff P.checks message.now (S.state signer.old) (S.state signer.new)) }
    ensures algorithm { IfOk result (λ r. r.0.algorithm ≡ default_algorithm) }
    ensures distinct { AreDistinct (S.state signer.new).keyring }
{
    let algorithm = RpkiSignatureAlgorithm::default();
    let (signature, key) = signer.sign_one_off(alloc, algorithm, message)?;
    if !is_within_limit(signature.value().as_slice())
        || !is_within_limit(key.bits_bytes().as_slice())
    {
        return Err(MakeError::TooLong);
    }
    Ok((signature, key))
}
