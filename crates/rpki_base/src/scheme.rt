//! What a signature is, as a relation, and who decides it.

ghost use Rattle.std.specs.Prelude.{◌↔◌, IsTrue};

use crate::algorithm::SigningAlgorithm;
use crate::public_key::PublicKey;

/// A signature scheme: which octets are signatures. It has no code.
pub trait Scheme {
    ghost use Rattle.std.specs.Prelude.{◌≡◌, ℕ, List};
    ghost use Rattle.rpki_base.specs.declared.algorithm.SigningAlgorithm.{SigningAlgorithm};
    ghost use Rattle.rpki_base.specs.Algorithm.{format_of};
    ghost use Rattle.rpki_base.specs.PublicKey.{KeyFields};
    ghost use Rattle.rpki_base.specs.Scheme.{Relation};

    /// Under the key, the signature of this kind is one of the message: kind, key, message, signature.
    ghost checks: { Relation };

    /// A signature holds only under a key of its kind's format.
    ghost fits: { (kind : SigningAlgorithm) (key : KeyFields) (message signature : List ℕ) →
        checks kind key message signature → key.format ≡ format_of kind };
}

/// Decides the signatures of a scheme.
pub trait Verifier<P: Scheme> {
    /// Whether `signature` is a signature of this kind of `message` under `key`. It takes no memory.
    fn verify(
        &self,
        kind: SigningAlgorithm,
        key: &PublicKey,
        message: &[u8],
        signature: &[u8],
    ) -> bool
        ensures { IsTrue result ↔ P.checks kind key.now message.now signature.now };
}
