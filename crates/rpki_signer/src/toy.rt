//! The toy scheme.

ghost use Rattle.std.specs.Prelude.{◌≡◌, ◌++◌, IfOk};
ghost use Rattle.sha2.specs.Sha256.{sha256};
ghost use Rattle.rpki_signer.specs.Toy.{ToyChecks, toy_signature, toy_key};

use crate::toy_signer::{ToyKey, key_of};
use bytes::Bytes;
use rpki_base::{PublicKey, PublicKeyFormat, Scheme, SigningAlgorithm, Verifier};
use rpki_common::OutOfMemory;
use sha2::{Digest, Sha256};
use std::alloc::Global;

/// A scheme without security: a signature is the SHA-256 of the key's bits and the message behind them.
#[derive(Clone, Copy, Debug, PartialEq, Eq)]
pub struct ToyScheme;

impl Scheme for ToyScheme {
    ghost checks = { ToyChecks };

    ghost fits = { λ kind key message signature h. h.0 };
}

// The digest that stands for a signature.
pub(crate) fn toy_digest(bits: &[u8], message: &[u8]) -> [u8; 32]
    ensures { result ≡ sha256 (bits.now ++ message.now) }
{
    let mut hasher = Sha256::new();
    hasher.update(bits);
    hasher.update(message);
    hasher.finalize()
}

impl ToyScheme {
    /// Key number `number` of a seed: an RSA key whose bits are the seed and the number, eight octets each, the most significant
    /// first.
    pub fn key(alloc: Global, seed: u64, number: u64) -> Result<PublicKey, OutOfMemory>
        ensures { IfOk result (λ k. k ≡ toy_key seed number) }
    {
        let key = ToyKey {
            number,
            format: PublicKeyFormat::Rsa,
        };
        key_of(alloc, seed, key)
    }

    /// The 32 octets that are the signature of a message under a key, of the kind that has the key's format.
    pub fn signature(alloc: Global, key: &PublicKey, message: &[u8]) -> Result<Bytes, OutOfMemory>
        ensures { IfOk result (λ s. s ≡ toy_signature key.now message.now) }
    {
        let digest = toy_digest(key.bits_bytes().as_slice(), message);
        Ok(Bytes::copy_from_slice(alloc, &digest)?)
    }
}

/// Decides the signatures of the toy scheme.
#[derive(Clone, Copy, Debug, PartialEq, Eq)]
pub struct ToyVerifier;

impl ToyVerifier {
    /// The verifier, which knows nothing.
    pub fn new() -> ToyVerifier
        ensures { result ≡ record {} }
    {
        ToyVerifier
    }
}

impl Verifier<ToyScheme> for ToyVerifier {
    fn verify(
        &self,
        kind: SigningAlgorithm,
        key: &PublicKey,
        message: &[u8],
        signature: &[u8],
    ) -> bool {
        if key.format() != kind.public_key_format() {
            return false;
        }
        let digest = toy_digest(key.bits_bytes().as_slice(), message);
        signature == digest.as_slice()
    }
}
