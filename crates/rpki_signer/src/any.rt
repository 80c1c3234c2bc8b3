//! The scheme under which each signature holds.

ghost use Rattle.std.specs.Prelude.{◌≡◌};
ghost use Rattle.rpki_signer.specs.Any.{AnyChecks};

use rpki_base::{PublicKey, Scheme, SigningAlgorithm, Verifier};

/// A scheme under which any octets are a signature of any message, under each key of the kind's format.
#[derive(Clone, Copy, Debug, PartialEq, Eq)]
pub struct AnyScheme;

impl Scheme for AnyScheme {
    ghost checks = { AnyChecks };

    ghost fits = { λ kind key message signature h. h };
}

/// Decides the signatures of that scheme.
#[derive(Clone, Copy, Debug, PartialEq, Eq)]
pub struct AnyVerifier;

impl AnyVerifier {
    /// The verifier, which knows nothing.
    pub fn new() -> AnyVerifier
        ensures { result ≡ record {} }
    {
        AnyVerifier
    }
}

impl Verifier<AnyScheme> for AnyVerifier {
    fn verify(
        &self,
        kind: SigningAlgorithm,
        key: &PublicKey,
        message: &[u8],
        signature: &[u8],
    ) -> bool {
        key.format() == kind.public_key_format()
    }
}
