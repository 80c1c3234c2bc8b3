//! Who signs.

ghost use Rattle.std.specs.Prelude.{◌≡◌, ◌<◌, IfOk, IfErr, OnErr, IsErrOf, MatchResult};
ghost use Rattle.rpki_signer.specs.declared.errors.CallError.TheVariants as call;
ghost use Rattle.rpki_signer.specs.Signer.{SignerState, AreDistinct, Stays, CallFails, KeyFails, SigningFails};
ghost use Rattle.rpki_signer.specs.Signer.{CallSpares, KeySpares, SigningSpares};
ghost use Rattle.rpki_signer.specs.Signer.{IsKeyCreated, IsDestroyed, IsKeyOf, IsSignature, IsOneOff, IsDrawn};

use crate::errors::{CallError, KeyError, SigningError};
use rpki_base::{PublicKey, PublicKeyFormat, Scheme, Signature, SignatureAlgorithm};
use std::alloc::Global;
use std::fmt::Display;

/// Holds keys under identifiers of its own, and signs under them, by one scheme. One value that no code holds gives it its
/// meaning: `state`, the keys that it holds and what it has done. A refused call gives no key and no signature, so it counts none that
/// is too long; its count of faults rises where the answer is that it failed, and stays with every other.
pub trait Signer<P: Scheme> {
    /// By what a key is asked for.
    type KeyId: Drop;

    /// Why the signer failed.
    type Error: Display + Drop;

    /// What it holds and has done.
    ghost state: { Self → SignerState Self.KeyId };

    /// Makes a key of this format, and answers its identifier, which is new.
    fn create_key(
        &mut self,
        alloc: Global,
        format: PublicKeyFormat,
    ) -> Result<Self::KeyId, CallError<Self::Error>>
        ensures created { MatchResult result (IsKeyCreated format (state self.old) (state self.new))
            (λ e. Stays (state self.old) (state self.new)
            × CallFails (state self.old) (state self.new) e) }
        ensures spares { IfErr result (CallSpares (state self.old) (state self.new)) }
        ensures distinct { AreDistinct (state self.new).keyring };

    /// The key with this identifier; KeyNotFound only where there is none.
    fn get_key_info(
        &mut self,
        alloc: Global,
        key: &Self::KeyId,
    ) -> Result<PublicKey, KeyError<Self::Error>>
        ensures key { MatchResult result (IsKeyOf key.now (state self.old) (state self.new))
            (λ e. Stays (state self.old) (state self.new)
            × KeyFails key.now (state self.old) (state self.new) e) }
        ensures uncounted { OnErr result
            ((state self.new).overlong ≡ (state self.old).overlong) }
        ensures spares { IfErr result (KeySpares (state self.old) (state self.new)) }
        ensures distinct { AreDistinct (state self.new).keyring };

    /// Takes the key with this identifier out; KeyNotFound only where there is none. It takes no memory.
    fn destroy_key(&mut self, key: &Self::KeyId) -> Result<(), KeyError<Self::Error>>
        ensures destroyed { MatchResult result
            (λ _. IsDestroyed key.now (state self.old) (state self.new))
            (λ e. Stays (state self.old) (state self.new)
            × KeyFails key.now (state self.old) (state self.new) e) }
        ensures no_memory { IsErrOf result KeyError.OutOfMemory → ⊥ }
        ensures spares { IfErr result (KeySpares (state self.old) (state self.new)) }
        ensures distinct { AreDistinct (state self.new).keyring };

    /// Signs the message under the key with this identifier; KeyNotFound only where there is none, IncompatibleKey only where its
    /// format isn't the algorithm's.
    fn sign<Alg: SignatureAlgorithm>(
        &mut self,
        alloc: Global,
        key: &Self::KeyId,
        algorithm: Alg,
        message: &[u8],
    ) -> Result<Signature<Alg>, SigningError<Self::Error>>
        ensures signed { MatchResult result
            (λ s. IsSignature P.checks (Alg.kind algorithm) key.now message.now
            (state self.old) (state self.new) s.value)
            (λ e. Stays (state self.old) (state self.new)
            × SigningFails (Alg.kind algorithm) key.now (state self.old) (state self.new) e) }
        ensures algorithm { IfOk result (λ s. s.algorithm ≡ algorithm) }
        ensures uncounted { OnErr result
            ((state self.new).overlong ≡ (state self.old).overlong) }
        ensures spares { IfErr result (SigningSpares (state self.old) (state self.new)) }
        ensures distinct { AreDistinct (state self.new).keyring };

    /// Signs the message under a key that is made for this one use, and answers it too. Where it is a key that the signer holds, its
    /// count of these rises.
    fn sign_one_off<Alg: SignatureAlgorithm>(
        &mut self,
        alloc: Global,
        algorithm: Alg,
        message: &[u8],
    ) -> Result<(Signature<Alg>, PublicKey), CallError<Self::Error>>
        ensures signed { MatchResult result
            (λ r. IsOneOff P.checks (Alg.kind algorithm) message.now
            (state self.old) (state self.new) r.0.value r.1)
            (λ e. Stays (state self.old) (state self.new)
            × CallFails (state self.old) (state self.new) e) }
        ensures algorithm { IfOk result (λ r. r.0.algorithm ≡ algorithm) }
        ensures uncounted { OnErr result
            ((state self.new).overlong ≡ (state self.old).overlong) }
        ensures spares { IfErr result (CallSpares (state self.old) (state self.new)) }
        ensures distinct { AreDistinct (state self.new).keyring };

    /// Draws random octets, as many as there is room for in `target`. It takes no memory.
    fn rand(&mut self, target: &mut [u8]) -> Result<(), CallError<Self::Error>>
        ensures drawn { MatchResult result
            (λ _. IsDrawn (state self.old) (state self.new) target.new)
            (λ e. Stays (state self.old) (state self.new)
            × CallFails (state self.old) (state self.new) e) }
        ensures no_memory { IsErrOf result CallError.OutOfMemory → ⊥ }
        ensures distinct { AreDistinct (state self.new).keyring };
}
