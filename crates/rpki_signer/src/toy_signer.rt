//! The signer of the toy scheme.

ghost use Rattle.std.specs.Prelude.{◌≡◌, ◌↔◌, ◌+◌, ◌-◌, ◌<◌, ◌≤◌, ◌++◌, [], length, take, drop, true, false, Some, None, IfOk, OnOk, OnErr, IsErrOf, IfErr, IsNone, IfSome, MatchResult, slice_index_or};
ghost use Rattle.sha2.specs.Sha256.{sha256};
ghost use Rattle.rpki_base.specs.declared.algorithm.PublicKeyFormat.TheVariants.{Rsa};
ghost use Rattle.rpki_signer.specs.Toy.{ToyChecks, toy_signature};
ghost use Rattle.rpki_signer.specs.Signer.{AreDistinct, Stays, CallFails, KeyFails, SigningFails};
ghost use Rattle.rpki_signer.specs.Signer.{CallSpares, KeySpares, SigningSpares};
ghost use Rattle.rpki_signer.specs.Signer.{IsKeyCreated, IsDestroyed, IsKeyOf, IsSignature, IsOneOff, IsDrawn};
ghost use Rattle.rpki_signer.specs.ToySigner as spec;
ghost use Rattle.rpki_signer.specs.declared.toy_signer.ToyKey.{ToyKey as Key};

use crate::errors::{CallError, KeyError, SigningError};
use crate::signer::Signer;
use crate::toy::{ToyScheme, toy_digest};
use bytes::Bytes;
use rpki_base::{PublicKey, PublicKeyFormat, Signature, SignatureAlgorithm, ToyFault};
use rpki_common::OutOfMemory;
use sha2::{Digest, Sha256};
use std::alloc::Global;
use std::marker::Model;

/// A key of the toy signer: the number from which it is made with the seed, and its format.
#[derive(Clone, Copy, Debug, PartialEq, Eq)]
pub struct ToyKey {
    /// The number, which is its identifier too.
    pub number: u64,
    /// The format.
    pub format: PublicKeyFormat,
}

/// `==` holds exactly between keys that are the same.
pub fn equal_toy_keys_are_the_same()
    ensures { (a b : Key) → (⟦<ToyKey as PartialEq>⟧.eq a b ≡ true) ↔ (a ≡ b) }
{}

/// A signer of the toy scheme, without security: all that it makes follows from a seed. It draws numbers from 0 on; keys, keys for
/// one use and random octets are made from one each. It fails at listed calls, and where no number is left.
///
/// In a clause it is a record of the seed, the next number, how many calls there were (`calls`), the numbers of the calls that
/// fail, counted from 0 (`failing`), how many failed (`faults`), its keys, the key that was set for one-off signatures (`reuse`),
/// how often that was used (`reused`), the last one-off key (`drawn`) and the octets that were drawn last (`random`). The counts
/// stop at 2^64 - 1.
pub struct ToySigner {
    seed: u64,
    next: u64,
    calls: u64,
    failing: Vec<u64>,
    faults: u64,
    keys: Vec<ToyKey>,
    reuse: Option<u64>,
    reused: u64,
    drawn: Option<ToyKey>,
    random: Option<(u64, usize)>,
}

impl Drop for ToySigner {
    fn drop(self) {
        let ToySigner {
            seed,
            next,
            calls,
            failing,
            faults,
            keys,
            reuse,
            reused,
            drawn,
            random,
        } = self;
    }
}

impl Model for ToySigner {
    ghost use Rattle.rpki_signer.specs.ToySigner.{ToyState, IsSoundToy, octets_drawn};

    ghost Value = { ToyState };

    ghost view = { λ s. record {
      seed = s.seed;
      next = s.next;
      calls = s.calls;
      failing = s.failing.items;
      faults = s.faults;
      keys = s.keys.items;
      reuse = s.reuse;
      reused = s.reused;
      drawn = s.drawn;
      random = octets_drawn s.seed s.random;
    } };

    ghost invariant = { λ s. IsSoundToy s.seed s.next s.keys.items };
}

// The key with this number among the keys.
fn key_numbered(keys: &[ToyKey], number: u64) -> Option<ToyKey>
    ensures { result ≡ spec.key_numbered keys.now number }
{
    for key in keys {
        if key.number == number {
            return Some(*key);
        }
    }
    None
}

// The place of the key with this number among the keys.
fn place_of(keys: &[ToyKey], number: u64) -> Option<usize>
    ensures some { IfSome result (λ i. (i < length keys.now)
        × ((k : Key) → (slice_index_or keys.now i k).number ≡ number)) }
    ensures none { IsNone result → spec.key_numbered keys.now number ≡ None }
{
    for place in 0..keys.len() {
        if keys[place].number == number {
            return Some(place);
        }
    }
    None
}

/// The key with this number and format.
pub(crate) fn key_of(alloc: Global, seed: u64, key: ToyKey) -> Result<PublicKey, OutOfMemory>
    ensures { IfOk result (λ k. k ≡ spec.key_of seed key) }
{
    let mut bits = Vec::with_capacity(alloc, 16)?;
    bits.extend_from_slice(&seed.to_be_bytes())?;
    bits.extend_from_slice(&key.number.to_be_bytes())?;
    PublicKey::new(alloc, key.format, &bits)
}

// The toy signature under the key with this number and format.
fn key_signature(
    alloc: Global,
    seed: u64,
    key: ToyKey,
    message: &[u8],
) -> Result<Bytes, OutOfMemory>
    ensures { IfOk result (λ s. s ≡ toy_signature (spec.key_of seed key) message.now) }
{
    let key = key_of(alloc, seed, key)?;
    ToyScheme::signature(alloc, &key, message)
}

// The digest of three pieces, one behind the other.
fn digest_of(first: &[u8], second: &[u8], third: &[u8]) -> [u8; 32]
    ensures { result ≡ sha256 ((first.now ++ second.now) ++ third.now) }
{
    let mut hasher = Sha256::new();
    hasher.update(first);
    hasher.update(second);
    hasher.update(third);
    hasher.finalize()
}

// A block of random octets.
fn random_block(seed: u64, number: u64, block: u64) -> [u8; 32]
    ensures { result ≡ spec.random_block seed number block }
{
    let seed = seed.to_be_bytes();
    let number = number.to_be_bytes();
    let block = block.to_be_bytes();
    digest_of(&seed, &number, &block)
}

impl ToySigner {
    /// A signer of this seed without keys, whose calls fail that have a number, counted from 0, in `failing`.
    pub fn new(alloc: Global, seed: u64, failing: &[u64]) -> Result<ToySigner, OutOfMemory>
        ensures { IfOk result (λ s. s ≡ spec.toy_signer seed failing.now) }
    {
        Ok(ToySigner {
            seed,
            next: 0,
            calls: 0,
            failing: failing.to_vec(alloc)?,
            faults: 0,
            keys: Vec::new(alloc),
            reuse: None,
            reused: 0,
            drawn: None,
            random: None,
        })
    }

    /// How many calls failed.
    pub fn faults(&self) -> u64
        ensures { result ≡ self.now.faults }
    {
        self.faults
    }

    /// How often the key that was set was chosen for a one-off signature.
    pub fn reused(&self) -> u64
        ensures { result ≡ self.now.reused }
    {
        self.reused
    }

    /// From now on RSA signatures for one use are made with the key of this number, which has to be an RSA key that it holds, and draw
    /// nothing.
    pub fn reuse(&mut self, key: u64)
        requires { spec.key_numbered self.old.keys key
            ≡ Some (record { number = key; format = Rsa }) }
        ensures { self.new ≡ spec.after_setting key self.old }
    {
        self.reuse = Some(key);
    }

    // Counts a call, which fails where it is listed.
    fn count_call(&mut self) -> Result<(), ToyFault>
        ensures ok { OnOk result
            ((spec.is_listed self.old ≡ false) × (self.new ≡ spec.counted self.old)) }
        ensures err { OnErr result
            ((spec.is_listed self.old ≡ true) × (self.new ≡ spec.after_fault self.old)) }
        ensures sound { spec.IsSoundToy self.old.seed self.old.next self.old.keys }
        ensures counts { spec.AreCounts self.old }
    {
        let fails = self.failing.contains(&self.calls);
        self.calls = self.calls.saturating_add(1);
        if fails {
            self.faults = self.faults.saturating_add(1);
            return Err(ToyFault);
        }
        Ok(())
    }

    // Counts a call that draws a number.
    fn draw(&mut self) -> Result<u64, ToyFault>
        ensures ok { IfOk result (λ n. (spec.cannot_draw self.old ≡ false) × (n ≡ self.old.next)
            × (self.new ≡ spec.after_drawing self.old)) }
        ensures err { OnErr result
            ((spec.cannot_draw self.old ≡ true) × (self.new ≡ spec.after_fault self.old)) }
        ensures sound { spec.IsSoundToy self.old.seed self.old.next self.old.keys }
        ensures counts { spec.AreCounts self.old }
    {
        let fails = self.failing.contains(&self.calls) || self.next == u64::MAX;
        self.calls = self.calls.saturating_add(1);
        if fails {
            self.faults = self.faults.saturating_add(1);
            return Err(ToyFault);
        }
        let number = self.next;
        self.next += 1;
        Ok(number)
    }
}

// The calls, by what they answer exactly.
impl ToySigner {
    pub(crate) fn create(
        &mut self,
        alloc: Global,
        format: PublicKeyFormat,
    ) -> Result<u64, CallError<ToyFault>>
        ensures created { spec.IsToyCreated format self.old self.new result }
        ensures sound { spec.IsSoundToy self.old.seed self.old.next self.old.keys }
        ensures counts { spec.AreCounts self.old }
        ensures sound_after { spec.IsSoundToy self.new.seed self.new.next self.new.keys }
    {
        let number = match self.draw() {
            Ok(number) => number,
            Err(fault) => return Err(CallError::Signer(fault)),
        };
        match self.keys.push(ToyKey { number, format }) {
            Ok(()) => Ok(number),
            Err(_) => Err(CallError::OutOfMemory),
        }
    }

    pub(crate) fn info(
        &mut self,
        alloc: Global,
        number: u64,
    ) -> Result<PublicKey, KeyError<ToyFault>>
        ensures key { spec.IsToyKey number self.old self.new result }
        ensures sound { spec.IsSoundToy self.old.seed self.old.next self.old.keys }
        ensures counts { spec.AreCounts self.old }
    {
        if let Err(fault) = self.count_call() {
            return Err(KeyError::Signer(fault));
        }
        let Some(key) = key_numbered(&self.keys, number) else {
            return Err(KeyError::KeyNotFound);
        };
        match key_of(alloc, self.seed, key) {
            Ok(key) => Ok(key),
            Err(_) => Err(KeyError::OutOfMemory),
        }
    }

    pub(crate) fn destroy(&mut self, number: u64) -> Result<(), KeyError<ToyFault>>
        ensures destroyed { spec.IsToyDestroyed number self.old self.new result }
        ensures sound { spec.IsSoundToy self.old.seed self.old.next self.old.keys }
        ensures counts { spec.AreCounts self.old }
        ensures sound_after { spec.IsSoundToy self.new.seed self.new.next self.new.keys }
    {
        if let Err(fault) = self.count_call() {
            return Err(KeyError::Signer(fault));
        }
        let Some(place) = place_of(&self.keys, number) else {
            return Err(KeyError::KeyNotFound);
        };
        self.keys.remove(place);
        Ok(())
    }

    // The key with this number, for signatures of this format.
    pub(crate) fn signing_key(
        &mut self,
        number: u64,
        format: PublicKeyFormat,
    ) -> Result<ToyKey, SigningError<ToyFault>>
        ensures ok { IfOk result (spec.IsToyFound number format self.old self.new) }
        ensures err { IfErr result (spec.RefusesToyKey number format self.old self.new) }
        ensures sound { spec.IsSoundToy self.old.seed self.old.next self.old.keys }
        ensures counts { spec.AreCounts self.old }
    {
        if let Err(fault) = self.count_call() {
            return Err(SigningError::Signer(fault));
        }
        let Some(key) = key_numbered(&self.keys, number) else {
            return Err(SigningError::KeyNotFound);
        };
        if key.format != format {
            return Err(SigningError::IncompatibleKey);
        }
        Ok(key)
    }

    fn sign_with<Alg: SignatureAlgorithm>(
        &mut self,
        alloc: Global,
        number: u64,
        algorithm: Alg,
        message: &[u8],
    ) -> Result<Signature<Alg>, SigningError<ToyFault>>
        ensures signed { spec.IsToySigned (Alg.kind algorithm) number message.now
            self.old self.new (spec.octets_of_parts result) }
        ensures algorithm { IfOk result (λ s. s.algorithm ≡ algorithm) }
        ensures sound { spec.IsSoundToy self.old.seed self.old.next self.old.keys }
        ensures counts { spec.AreCounts self.old }
    {
        let format = algorithm.signing_algorithm().public_key_format();
        let key = self.signing_key(number, format)?;
        let octets = key_signature(alloc, self.seed, key, message)?;
        Ok(Signature::new(algorithm, octets))
    }

    fn sign_once<Alg: SignatureAlgorithm>(
        &mut self,
        alloc: Global,
        algorithm: Alg,
        message: &[u8],
    ) -> Result<(Signature<Alg>, PublicKey), CallError<ToyFault>>
        ensures signed { spec.IsToySignedOnce (Alg.kind algorithm) message.now
            self.old self.new (spec.once_of result) }
        ensures algorithm { IfOk result (λ r. r.0.algorithm ≡ algorithm) }
        ensures sound { spec.IsSoundToy self.old.seed self.old.next self.old.keys }
        ensures counts { spec.AreCounts self.old }
    {
        let format = algorithm.signing_algorithm().public_key_format();
        let (chosen, key) = self.key_for_once(alloc, format)?;
        let octets = ToyScheme::signature(alloc, &key, message)?;
        self.give(chosen);
        Ok((Signature::new(algorithm, octets), key))
    }

    // The key for one signature, which is chosen and made but not yet given.
    pub(crate) fn key_for_once(
        &mut self,
        alloc: Global,
        format: PublicKeyFormat,
    ) -> Result<(ToyKey, PublicKey), CallError<ToyFault>>
        ensures chosen { spec.IsToyChosen format self.old self.new result }
        ensures sound { spec.IsSoundToy self.old.seed self.old.next self.old.keys }
        ensures counts { spec.AreCounts self.old }
    {
        let chosen = match self.choose(format) {
            Ok(key) => key,
            Err(fault) => return Err(CallError::Signer(fault)),
        };
        let key = key_of(alloc, self.seed, chosen)?;
        Ok((chosen, key))
    }

    // The key is the one that was given last for one use.
    pub(crate) fn give(&mut self, key: ToyKey)
        ensures { self.new ≡ record self.old { drawn = Some key } }
    {
        self.drawn = Some(key);
    }

    // The key for one signature, chosen.
    fn choose(&mut self, format: PublicKeyFormat) -> Result<ToyKey, ToyFault>
        ensures ok { IfOk result (λ key. (spec.cannot_sign_once format self.old ≡ false)
            × (key ≡ spec.one_off_key format self.old.reuse self.old.next)
            × (self.new ≡ spec.after_choosing format self.old)) }
        ensures err { OnErr result ((spec.cannot_sign_once format self.old ≡ true)
            × (self.new ≡ spec.after_fault self.old)) }
        ensures sound { spec.IsSoundToy self.old.seed self.old.next self.old.keys }
        ensures counts { spec.AreCounts self.old }
    {
        let number = match (format, self.reuse) {
            (PublicKeyFormat::Rsa, Some(number)) => {
                self.count_call()?;
                self.reused = self.reused.saturating_add(1);
                number
            }
            _ => self.draw()?,
        };
        Ok(ToyKey { number, format })
    }

    pub(crate) fn fill(&mut self, target: &mut [u8]) -> Result<(), CallError<ToyFault>>
        ensures random { spec.IsToyRandom self.old self.new target.old target.new result }
        ensures sound { spec.IsSoundToy self.old.seed self.old.next self.old.keys }
        ensures counts { spec.AreCounts self.old }
    {
        let number = match self.draw() {
            Ok(number) => number,
            Err(fault) => return Err(CallError::Signer(fault)),
        };
        fill_random(self.seed, number, target);
        self.random = Some((number, target.len()));
        Ok(())
    }
}

// Copies `from` over what stands at this place.
fn copy_at(target: &mut [u8], at: usize, from: &[u8])
    requires { at + length from.now ≤ length target.old }
    ensures { target.new ≡ take at target.old
        ++ (from.now ++ drop (at + length from.now) target.old) }
{
    target[at..at + from.len()].copy_from_slice(from);
}

// Fills it with the octets of this number.
fn fill_random(seed: u64, number: u64, target: &mut [u8])
    ensures { target.new ≡ spec.random_octets seed number (length target.old) }
{
    let mut block = 0u64;
    let mut at = 0usize;
    'fill: while at < target.len() {
        let octets = random_block(seed, number, block);
        let count = (target.len() - at).min(32);
        copy_at(target, at, &octets[..count]);
        at += count;
        block += 1;
    }
}

impl Signer<ToyScheme> for ToySigner {
    type KeyId = u64;

    type Error = ToyFault;

    ghost use Rattle.rpki_signer.specs.ToySigner.{state_of};

    ghost state = { state_of };

    fn create_key(
        &mut self,
        alloc: Global,
        format: PublicKeyFormat,
    ) -> Result<u64, CallError<ToyFault>>
        // What each signer promises.
        ensures created { MatchResult result
            (IsKeyCreated format (spec.state_of self.old) (spec.state_of self.new))
            (λ e. Stays (spec.state_of self.old) (spec.state_of self.new)
            × CallFails (spec.state_of self.old) (spec.state_of self.new) e) }
        ensures spares { IfErr result
            (CallSpares (spec.state_of self.old) (spec.state_of self.new)) }
        ensures distinct { AreDistinct (spec.state_of self.new).keyring }

        // Which answer, and what the signer is then.
        ensures exact { spec.IsToyCreated format self.old self.new result }
    {
        self.create(alloc, format)
    }

    fn get_key_info(&mut self, alloc: Global, key: &u64) -> Result<PublicKey, KeyError<ToyFault>>
        // What each signer promises.
        ensures key { MatchResult result
            (IsKeyOf key.now (spec.state_of self.old) (spec.state_of self.new))
            (λ e. Stays (spec.state_of self.old) (spec.state_of self.new)
            × KeyFails key.now (spec.state_of self.old) (spec.state_of self.new) e) }
        ensures uncounted { OnErr result
            ((spec.state_of self.new).overlong ≡ (spec.state_of self.old).overlong) }
        ensures spares { IfErr result
            (KeySpares (spec.state_of self.old) (spec.state_of self.new)) }
        ensures distinct { AreDistinct (spec.state_of self.new).keyring }

        // Which answer, and what the signer is then.
        ensures exact { spec.IsToyKey key.now self.old self.new result }
    {
        self.info(alloc, *key)
    }

    fn destroy_key(&mut self, key: &u64) -> Result<(), KeyError<ToyFault>>
        // What each signer promises.
        ensures destroyed { MatchResult result
            (λ _. IsDestroyed key.now (spec.state_of self.old) (spec.state_of self.new))
            (λ e. Stays (spec.state_of self.old) (spec.state_of self.new)
            × KeyFails key.now (spec.state_of self.old) (spec.state_of self.new) e) }
        ensures no_memory { IsErrOf result KeyError.OutOfMemory → ⊥ }
        ensures spares { IfErr result
            (KeySpares (spec.state_of self.old) (spec.state_of self.new)) }
        ensures distinct { AreDistinct (spec.state_of self.new).keyring }

        // Which answer, and what the signer is then.
        ensures exact { spec.IsToyDestroyed key.now self.old self.new result }
    {
        self.destroy(*key)
    }

    fn sign<Alg: SignatureAlgorithm>(
        &mut self,
        alloc: Global,
        key: &u64,
        algorithm: Alg,
        message: &[u8],
    ) -> Result<Signature<Alg>, SigningError<ToyFault>>
        // What each signer promises.
        ensures signed { MatchResult result
            (λ s. IsSignature ToyChecks (Alg.kind algorithm) key.now message.now
            (spec.state_of self.old) (spec.state_of self.new) s.value)
            (λ e. Stays (spec.state_of self.old) (spec.state_of self.new)
            × SigningFails (Alg.kind algorithm) key.now
            (spec.state_of self.old) (spec.state_of self.new) e) }
        ensures algorithm { IfOk result (λ s. s.algorithm ≡ algorithm) }
        ensures uncounted { OnErr result
            ((spec.state_of self.new).overlong ≡ (spec.state_of self.old).overlong) }
        ensures spares { IfErr result
            (SigningSpares (spec.state_of self.old) (spec.state_of self.new)) }
        ensures distinct { AreDistinct (spec.state_of self.new).keyring }

        // Which answer, and what the signer is then.
        ensures exact { spec.IsToySigned (Alg.kind algorithm) key.now message.now
            self.old self.new (spec.octets_of_parts result) }
    {
        self.sign_with(alloc, *key, algorithm, message)
    }

    fn sign_one_off<Alg: SignatureAlgorithm>(
        &mut self,
        alloc: Global,
        algorithm: Alg,
        message: &[u8],
    ) -> Result<(Signature<Alg>, PublicKey), CallError<ToyFault>>
        // What each signer promises.
        ensures signed { MatchResult result
            (λ r. IsOneOff ToyChecks (Alg.kind algorithm) message.now
            (spec.state_of self.old) (spec.state_of self.new) r.0.value r.1)
            (λ e. Stays (spec.state_of self.old) (spec.state_of self.new)
            × CallFails (spec.state_of self.old) (spec.state_of self.new) e) }
        ensures algorithm { IfOk result (λ r. r.0.algorithm ≡ algorithm) }
        ensures uncounted { OnErr result
            ((spec.state_of self.new).overlong ≡ (spec.state_of self.old).overlong) }
        ensures spares { IfErr result
            (CallSpares (spec.state_of self.old) (spec.state_of self.new)) }
        ensures distinct { AreDistinct (spec.state_of self.new).keyring }

        // Which answer, and what the signer is then.
        ensures exact { spec.IsToySignedOnce (Alg.kind algorithm) message.now
            self.old self.new (spec.once_of result) }
    {
        self.sign_once(alloc, algorithm, message)
    }

    fn rand(&mut self, target: &mut [u8]) -> Result<(), CallError<ToyFault>>
        // What each signer promises.
        ensures drawn { MatchResult result
            (λ _. IsDrawn (spec.state_of self.old) (spec.state_of self.new) target.new)
            (λ e. Stays (spec.state_of self.old) (spec.state_of self.new)
            × CallFails (spec.state_of self.old) (spec.state_of self.new) e) }
        ensures no_memory { IsErrOf result CallError.OutOfMemory → ⊥ }
        ensures distinct { AreDistinct (spec.state_of self.new).keyring }

        // Which answer, and what the signer is then.
        ensures exact { spec.IsToyRandom self.old self.new target.old target.new result }
    {
        self.fill(target)
    }
}
