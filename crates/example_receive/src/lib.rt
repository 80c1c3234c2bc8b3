//! How a caller receives a message: a signature scheme of its own, a verifier that decides it, and one call of
//! [`rpki_ca::receive`]. docs/READING.md quotes the code from the scheme on.
#![tactic(auto)]

mod written;

ghost use Rattle.std.specs.Prelude.{MatchResult, ◌∷◌, []};
ghost use Rattle.rpki_ca.specs.Acceptance.{Accepted, RefusesReceipt};
ghost use Rattle.example_receive.specs.LongKeys.{LongChecks};

use rpki_base::{PublicKey, Scheme, SigningAlgorithm, Time, Verifier};
use rpki_ca::{Kind, ReceiveError, Received, receive};
use rpki_signer::ToyVerifier;
use std::alloc::Global;
pub use written::text_that_is_read;

/// The signatures that count: those of the toy scheme, under keys of 128 bits or more.
pub struct LongKeys;

impl Scheme for LongKeys {
    ghost checks = { LongChecks };

    ghost fits = { λ kind key message signature h. h.1.0 };
}

/// Decides them.
pub struct LongKeyVerifier;

impl Verifier<LongKeys> for LongKeyVerifier {
    fn verify(
        &self,
        kind: SigningAlgorithm,
        key: &PublicKey,
        message: &[u8],
        signature: &[u8],
    ) -> bool {
        key.bits_bytes().len() >= 16 && ToyVerifier::new().verify(kind, key, message, signature)
    }
}

/// The message that the octets bring from the holder of the key, at this moment.
pub fn message_from(
    alloc: Global,
    octets: &[u8],
    key: &PublicKey,
    when: Time,
) -> Result<Received, ReceiveError>
    ensures { MatchResult result
        (Accepted LongChecks Kind.Publication octets.now (key.now ∷ []) when)
        (RefusesReceipt LongChecks Kind.Publication octets.now (key.now ∷ []) when) }
{
    receive(
        alloc,
        Kind::Publication,
        octets,
        key,
        when,
        &LongKeyVerifier,
    )
}
