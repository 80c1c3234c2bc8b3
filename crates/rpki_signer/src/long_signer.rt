//! The signer whose signatures have any length.

ghost use Rattle.std.specs.Prelude.{◌≡◌, ◌<◌, ◌^◌, IfOk, IfErr, OnOk, OnErr, IsErrOf, MatchResult};
ghost use Rattle.rpki_signer.specs.Any.{AnyChecks};
ghost use Rattle.rpki_signer.specs.Signer.{AreDistinct, Stays, CallFails, KeyFails, SigningFails};
ghost use Rattle.rpki_signer.specs.Signer.{CallSpares, KeySpares, SigningSpares};
ghost use Rattle.rpki_signer.specs.Signer.{IsKeyCreated, IsDestroyed, IsKeyOf, IsSignature, IsOneOff, IsDrawn};
ghost use Rattle.rpki_signer.specs.ToySigner as toy_spec;
ghost use Rattle.rpki_signer.specs.LongSigner as spec;

use crate::any::AnyScheme;
use crate::errors::{CallError, KeyError, SigningError};
use crate::limits::LIMIT;
use crate::signer::Signer;
use crate::toy_signer::ToySigner;
use bytes::Bytes;
use rpki_base::{PublicKey, PublicKeyFormat, Signature, SignatureAlgorithm, ToyFault};
use rpki_common::OutOfMemory;
use std::alloc::Global;
use std::marker::Model;

/// A signer of [`AnyScheme`], whose signatures are zeros, each of the same length. It makes its keys and draws as a [`ToySigner`] of
/// its seed that fails at no listed call.
///
/// In a clause it is a record of that toy signer, of how many octets a signature has, and of how many signatures of more than 2^16
/// octets it gave (`overlong`). That count stops at 2^64 - 1.
#[derive(Drop)]
pub struct LongSigner {
    toy: ToySigner,
    octets: usize,
    overlong: u64,
}

impl Model for LongSigner {
    ghost use Rattle.rpki_signer.specs.LongSigner.{LongState};

    ghost Value = { LongState };

    ghost view = { λ s. record { toy = s.toy; octets = s.octets; overlong = s.overlong } };

    ghost inverse = { λ s. record { toy = s.toy; octets = s.octets; overlong = s.overlong } };
}

// As many zeros as `count` says.
fn zeros(alloc: Global, count: usize) -> Result<Bytes, OutOfMemory>
    ensures { IfOk result (λ b. b ≡ spec.long_signature count) }
{
    let octets = vec![in alloc; 0u8; count]?;
    Ok(Bytes::from_vec(octets)?)
}

impl LongSigner {
    /// A signer of this seed without keys, whose signatures have so many octets.
    pub fn new(alloc: Global, seed: u64, octets: usize) -> Result<LongSigner, OutOfMemory>
        ensures { IfOk result (λ s. s ≡ spec.long_signer seed octets) }
    {
        Ok(LongSigner {
            toy: ToySigner::new(alloc, seed, &[])?,
            octets,
            overlong: 0,
        })
    }

    /// How many signatures of more than 2^16 octets it gave.
    pub fn overlong(&self) -> u64
        ensures { result ≡ self.now.overlong }
    {
        self.overlong
    }

    // Counts a signature that is given, where it is too long.
    fn count_signature(&mut self)
        ensures counted { self.new ≡ spec.after_giving self.old.toy self.old }
        ensures count { self.old.overlong < 2 ^ 64 }
    {
        let count = self.overlong;
        if self.octets > LIMIT {
            self.overlong = count.saturating_add(1);
        }
    }

    fn sign_with<Alg: SignatureAlgorithm>(
        &mut self,
        alloc: Global,
        number: u64,
        algorithm: Alg,
    ) -> Result<Signature<Alg>, SigningError<ToyFault>>
        ensures signed { spec.IsLongSigned (Alg.kind algorithm) number
            self.old self.new (toy_spec.octets_of_parts result) }
        ensures algorithm { IfOk result (λ s. s.algorithm ≡ algorithm) }
        ensures sound { toy_spec.IsSoundToy self.old.toy.seed self.old.toy.next self.old.toy.keys }
        ensures counts { toy_spec.AreCounts self.old.toy }
        ensures count { OnOk result (self.old.overlong < 2 ^ 64) }
    {
        let format = algorithm.signing_algorithm().public_key_format();
        self.toy.signing_key(number, format)?;
        let octets = zeros(alloc, self.octets)?;
        self.count_signature();
        Ok(Signature::new(algorithm, octets))
    }

    fn sign_once<Alg: SignatureAlgorithm>(
        &mut self,
        alloc: Global,
        algorithm: Alg,
    ) -> Result<(Signature<Alg>, PublicKey), CallError<ToyFault>>
        ensures signed { spec.IsLongSignedOnce (Alg.kind algorithm)
            self.old self.new (toy_spec.once_of result) }
        ensures algorithm { IfOk result (λ r. r.0.algorithm ≡ algorithm) }
        ensures sound { toy_spec.IsSoundToy self.old.toy.seed self.old.toy.next self.old.toy.keys }
        ensures counts { toy_spec.AreCounts self.old.toy }
        ensures count { OnOk result (self.old.overlong < 2 ^ 64) }
    {
        let format = algorithm.signing_algorithm().public_key_format();
        let (chosen, key) = self.toy.key_for_once(alloc, format)?;
        let octets = zeros(alloc, self.octets)?;
        self.toy.give(chosen);
        self.count_signature();
        Ok((Signature::new(algorithm, octets), key))
    }
}

impl Signer<AnyScheme> for LongSigner {
    type KeyId = u64;

    type Error = ToyFault;

    ghost use Rattle.rpki_signer.specs.LongSigner.{long_state};

    ghost state = { long_state };

    fn create_key(
        &mut self,
        alloc: Global,
        format: PublicKeyFormat,
    ) -> Result<u64, CallError<ToyFault>>
        // What each signer promises.
        ensures created { MatchResult result
            (IsKeyCreated format (spec.long_state self.old) (spec.long_state self.new))
            (λ e. Stays (spec.long_state self.old) (spec.long_state self.new)
            × CallFails (spec.long_state self.old) (spec.long_state self.new) e) }
        ensures spares { IfErr result
            (CallSpares (spec.long_state self.old) (spec.long_state self.new)) }
        ensures distinct { AreDistinct (spec.long_state self.new).keyring }

        // Which answer, and what the signer is then.
        ensures exact { toy_spec.IsToyCreated format self.old.toy self.new.toy result }
        ensures rest { self.new ≡ spec.with_toy self.new.toy self.old }
    {
        self.toy.create(alloc, format)
    }

    fn get_key_info(&mut self, alloc: Global, key: &u64) -> Result<PublicKey, KeyError<ToyFault>>
        // What each signer promises.
        ensures key { MatchResult result
            (IsKeyOf key.now (spec.long_state self.old) (spec.long_state self.new))
            (λ e. Stays (spec.long_state self.old) (spec.long_state self.new)
            × KeyFails key.now (spec.long_state self.old) (spec.long_state self.new) e) }
        ensures uncounted { OnErr result
            ((spec.long_state self.new).overlong ≡ (spec.long_state self.old).overlong) }
        ensures spares { IfErr result
            (KeySpares (spec.long_state self.old) (spec.long_state self.new)) }
        ensures distinct { AreDistinct (spec.long_state self.new).keyring }

        // Which answer, and what the signer is then.
        ensures exact { toy_spec.IsToyKey key.now self.old.toy self.new.toy result }
        ensures rest { self.new ≡ spec.with_toy self.new.toy self.old }
    {
        self.toy.info(alloc, *key)
    }

    fn destroy_key(&mut self, key: &u64) -> Result<(), KeyError<ToyFault>>
        // What each signer promises.
        ensures destroyed { MatchResult result
            (λ _. IsDestroyed key.now (spec.long_state self.old) (spec.long_state self.new))
            (λ e. Stays (spec.long_state self.old) (spec.long_state self.new)
            × KeyFails key.now (spec.long_state self.old) (spec.long_state self.new) e) }
        ensures no_memory { IsErrOf result KeyError.OutOfMemory → ⊥ }
        ensures spares { IfErr result
            (KeySpares (spec.long_state self.old) (spec.long_state self.new)) }
        ensures distinct { AreDistinct (spec.long_state self.new).keyring }

        // Which answer, and what the signer is then.
        ensures exact { toy_spec.IsToyDestroyed key.now self.old.toy self.new.toy result }
        ensures rest { self.new ≡ spec.with_toy self.new.toy self.old }
    {
        self.toy.destroy(*key)
    }

    fn sign<Alg: SignatureAlgorithm>(
        &mut self,
        alloc: Global,
        key: &u64,
        algorithm: Alg,
        message: &[u8],
    ) -> Result<Signature<Alg>, SigningError<ToyFault>>
        // What each signer promises.
        ensures signed { MatchResult result
            (λ s. IsSignature AnyChecks (Alg.kind algorithm) key.now message.now
            (spec.long_state self.old) (spec.long_state self.new) s.value)
            (λ e. Stays (spec.long_state self.old) (spec.long_state self.new)
            × SigningFails (Alg.kind algorithm) key.now
            (spec.long_state self.old) (spec.long_state self.new) e) }
        ensures algorithm { IfOk result (λ s. s.algorithm ≡ algorithm) }
        ensures uncounted { OnErr result
            ((spec.long_state self.new).overlong ≡ (spec.long_state self.old).overlong) }
        ensures spares { IfErr result
            (SigningSpares (spec.long_state self.old) (spec.long_state self.new)) }
        ensures distinct { AreDistinct (spec.long_state self.new).keyring }

        // Which answer, and what the signer is then.
        ensures exact { spec.IsLongSigned (Alg.kind algorithm) key.now
            self.old self.new (toy_spec.octets_of_parts result) }
    {
        self.sign_with(alloc, *key, algorithm)
    }

    fn sign_one_off<Alg: SignatureAlgorithm>(
        &mut self,
        alloc: Global,
        algorithm: Alg,
        message: &[u8],
    ) -> Result<(Signature<Alg>, PublicKey), CallError<ToyFault>>
        // What each signer promises.
        ensures signed { MatchResult result
            (λ r. IsOneOff AnyChecks (Alg.kind algorithm) message.now
            (spec.long_state self.old) (spec.long_state self.new) r.0.value r.1)
            (λ e. Stays (spec.long_state self.old) (spec.long_state self.new)
            × CallFails (spec.long_state self.old) (spec.long_state self.new) e) }
        ensures algorithm { IfOk result (λ r. r.0.algorithm ≡ algorithm) }
        ensures uncounted { OnErr result
            ((spec.long_state self.new).overlong ≡ (spec.long_state self.old).overlong) }
        ensures spares { IfErr result
            (CallSpares (spec.long_state self.old) (spec.long_state self.new)) }
        ensures distinct { AreDistinct (spec.long_state self.new).keyring }

        // Which answer, and what the signer is then.
        ensures exact { spec.IsLongSignedOnce (Alg.kind algorithm)
            self.old self.new (toy_spec.once_of result) }
    {
        self.sign_once(alloc, algorithm)
    }

    fn rand(&mut self, target: &mut [u8]) -> Result<(), CallError<ToyFault>>
        // What each signer promises.
        ensures drawn { MatchResult result
            (λ _. IsDrawn (spec.long_state self.old) (spec.long_state self.new) target.new)
            (λ e. Stays (spec.long_state self.old) (spec.long_state self.new)
            × CallFails (spec.long_state self.old) (spec.long_state self.new) e) }
        ensures no_memory { IsErrOf result CallError.OutOfMemory → ⊥ }
        ensures distinct { AreDistinct (spec.long_state self.new).keyring }

        // Which answer, and what the signer is then.
        ensures exact { toy_spec.IsToyRandom self.old.toy self.new.toy
            target.old target.new result }
        ensures rest { self.new ≡ spec.with_toy self.new.toy self.old }
    {
        self.toy.fill(target)
    }
}
