//! The guard.

ghost use Rattle.std.specs.Prelude.{◌≡◌, ◌≢◌, [], Err, IfOk, IsErrOf, OnErr, Some};
ghost use Rattle.rpki_replay.specs.Admission.{IsAdmission, WouldBeAdmitted};
ghost use Rattle.rpki_replay.specs.Shown.{error_text};
ghost use Rattle.rpki_replay.specs.State.{AreDistinctPeers, last_of, put};
ghost use Rattle.rpki_replay.specs.declared.guard.GuardError.TheVariants as errors;

use crate::peers::{Peer, Peers};
use rpki_base::{PublicKey, Scheme, Time, ValidationError, Verifier};
use rpki_common::OutOfMemory;
use rpki_sigmsg::SignedMessage;
use std::alloc::Global;
use std::fmt;
use std::marker::Model;

/// Which messages were admitted: for the key of each peer, the signing time of the last one.
///
/// In a clause it is the list of these pairs, in the order in which their keys were first admitted.
#[derive(Drop)]
pub struct Guard {
    pub(crate) peers: Peers,
}

impl Model for Guard {
    ghost use Rattle.std.specs.Prelude.{List};
    ghost use Rattle.rpki_replay.specs.declared.peers.Peer.{Peer};

    ghost Value = { List Peer };

    ghost view = { λ g. g.peers };
}

/// Why a message isn't admitted. It prints as the variant's name, and behind it the number of the check,
/// or the times in seconds since 1970, with one space between.
#[derive(Clone, Copy, Debug, PartialEq, Eq)]
pub enum GuardError {
    /// This check of the fourteen fails under the peer's key at the moment, the first that does.
    Validation(ValidationError),
    /// The message doesn't say when it was signed.
    NoTime,
    /// The message was signed at `seen`, which isn't later than the last time that was admitted under the key.
    Replayed {
        /// The last time.
        last: Time,
        /// The message's.
        seen: Time,
    },
    /// Memory ran out.
    OutOfMemory,
}

impl fmt::Display for GuardError {
    ghost output = { λ e. Some (error_text e) };

    fn fmt<W: fmt::Write>(&self, f: &mut fmt::Formatter<W>) -> fmt::Result {
        match self {
            GuardError::Validation(failed) => write!(f, "Validation {}", failed.check),
            GuardError::NoTime => f.write_str("NoTime"),
            GuardError::Replayed { last, seen } => {
                write!(f, "Replayed {} {}", last.seconds(), seen.seconds())
            }
            GuardError::OutOfMemory => f.write_str("OutOfMemory"),
        }
    }
}

impl From<OutOfMemory> for GuardError {
    ghost from_gives = { λ _ e. e ≡ errors.OutOfMemory };

    fn from(_: OutOfMemory) -> GuardError {
        GuardError::OutOfMemory
    }
}

impl From<ValidationError> for GuardError {
    ghost from_gives = { λ failed e. e ≡ errors.Validation failed };

    fn from(failed: ValidationError) -> GuardError {
        GuardError::Validation(failed)
    }
}

impl Guard {
    /// A guard that has admitted nothing yet. It takes no memory; later growth takes it from `alloc`.
    pub fn new(alloc: Global) -> Guard
        ensures { result ≡ [] }
    {
        Guard {
            peers: Peers::new(alloc),
        }
    }

    /// The keys under which messages were admitted, each with the last time, in the order in which they
    /// were first admitted; no key is there twice.
    pub fn peers(&self) -> &[Peer]
        ensures peers { result.now ≡ self.now }
        ensures distinct { AreDistinctPeers result.now }
    {
        self.peers.as_slice()
    }

    /// The signing time of the last message that was admitted under a key; None exactly where none was.
    pub fn last(&self, peer: &PublicKey) -> Option<Time>
        ensures { result ≡ last_of self.now peer.now }
    {
        self.peers.last(peer)
    }

    /// Admits a message of the peer with this key, if all fourteen checks hold under the key at the
    /// moment, it says when it was signed, and that is later than of the last message that was admitted
    /// under the key: then it answers the time of signing, which is held from now on. Every refusal
    /// leaves the guard as it was, and memory is wanting only for a message that would be admitted.
    pub fn admit<P: Scheme, V: Verifier<P>>(
        &mut self,
        peer: &PublicKey,
        message: &SignedMessage,
        verifier: &V,
        when: Time,
    ) -> Result<Time, GuardError>
        ensures answer { result ≢ Err errors.OutOfMemory
            → IsAdmission P.checks self.old peer.now message.now when result }
        ensures memory { IsErrOf result errors.OutOfMemory → WouldBeAdmitted P.checks self.old
            peer.now message.now when }
        ensures admitted { IfOk result (λ time. self.new ≡ put self.old peer.now time) }
        ensures refused { OnErr result (self.new ≡ self.old) }
    {
        message.validate_at(verifier, peer, when)?;
        let Some(seen) = message.signing_time() else {
            return Err(GuardError::NoTime);
        };
        if let Some(last) = self.last(peer) {
            if seen <= last {
                return Err(GuardError::Replayed { last, seen });
            }
        }
        self.peers.put(peer, seen)?;
        Ok(seen)
    }
}
