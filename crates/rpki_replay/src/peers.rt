//! The keys of peers, each with a time.

ghost use Rattle.std.specs.Prelude.{◌≡◌, ◌<◌, [], IfSome, None, OnErr, OnOk, length};
ghost use Rattle.rpki_replay.specs.Places.{place_from};
ghost use Rattle.rpki_replay.specs.State.{AreDistinctPeers, last_of, put as put_in};

use crate::places::Places;
use rpki_base::{PublicKey, Time};
use rpki_common::OutOfMemory;
use std::alloc::Global;
use std::marker::Model;

/// The key of a peer, and the signing time of the last message that was admitted under it.
#[derive(Debug, Drop)]
pub struct Peer {
    /// The key.
    pub key: PublicKey,
    /// The time.
    pub last: Time,
}

/// Peers in the order in which they were first put, no key twice. In a clause it is the list of them.
pub(crate) struct Peers {
    alloc: Global,
    list: Vec<Peer>,
    places: Places,
}

impl Drop for Peers {
    fn drop(self) {
        let Peers {
            alloc,
            list,
            places,
        } = self;
    }
}

impl Model for Peers {
    ghost use Rattle.std.specs.Prelude.{List};
    ghost use Rattle.rpki_replay.specs.declared.peers.Peer.{Peer};
    ghost use Rattle.rpki_replay.specs.Places.{AreTold};
    ghost use Rattle.rpki_replay.specs.State.{AreDistinctPeers};

    ghost Value = { List Peer };

    ghost view = { λ p. p.list.items };

    ghost invariant = { λ p. AreDistinctPeers p.list.items × AreTold p.places p.list.items };
}

impl Peers {
    /// No peers, which take no memory.
    pub(crate) fn new(alloc: Global) -> Peers
        ensures { result ≡ [] }
    {
        Peers {
            alloc,
            list: Vec::new(alloc),
            places: Places::new(alloc),
        }
    }

    /// The peers.
    pub(crate) fn as_slice(&self) -> &[Peer]
        ensures peers { result.now ≡ self.now }
        ensures distinct { AreDistinctPeers result.now }
    {
        self.list.as_slice()
    }

    // Where a key stands.
    fn place(&self, key: &PublicKey) -> Option<usize>
        ensures place { result ≡ place_from 0 self.now key.now }
        ensures within { IfSome result (λ place. place < length self.now) }
    {
        self.places.get(key)
    }

    /// The time that is held for a key.
    pub(crate) fn last(&self, key: &PublicKey) -> Option<Time>
        ensures { result ≡ last_of self.now key.now }
    {
        match self.place(key) {
            Some(place) => Some(self.list[place].last),
            None => None,
        }
    }

    /// Puts a time for a key, in the place of the one that was held for it, or behind the others. After
    /// a refusal all is as before.
    pub(crate) fn put(&mut self, key: &PublicKey, time: Time) -> Result<(), OutOfMemory>
        ensures ok { OnOk result (self.new ≡ put_in self.old key.now time) }
        ensures err { OnErr result (self.new ≡ self.old) }
    {
        match self.place(key) {
            Some(place) => {
                self.list[place].last = time;
                Ok(())
            }
            None => self.add(key, time),
        }
    }

    // Puts a key that isn't there.
    fn add(&mut self, key: &PublicKey, time: Time) -> Result<(), OutOfMemory>
        requires { last_of self.old key.now ≡ None }
        ensures ok { OnOk result (self.new ≡ put_in self.old key.now time) }
        ensures err { OnErr result (self.new ≡ self.old) }
    {
        let peer = Peer {
            key: key.clone(self.alloc)?,
            last: time,
        };
        let place = self.list.len();
        self.list.push(peer)?;
        match self.places.insert(self.alloc, key, place) {
            Ok(()) => Ok(()),
            Err(error) => {
                self.list.pop();
                Err(error)
            }
        }
    }
}
