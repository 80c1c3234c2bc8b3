//! The state of a guard as a text.

ghost use Rattle.std.specs.Prelude.{◌≡◌, ◌≢◌, ◌∷◌, ◌++◌, [], IfOk, IfSome, IsErrOf, IsNone, List, None, OnErr, OnOk, Some, string_bytes, ℤ};
ghost use Rattle.std.specs.Fmt.{signed_decimal};
ghost use Rattle.hex.specs.Hex.{IsBytes, encode_lower};
ghost use Rattle.rpki_base.specs.Civil.{IsMoment};
ghost use Rattle.rpki_replay.specs.State.{IsPeer, last_of};
ghost use Rattle.rpki_replay.specs.StateText.{IsStateText, ends_line, peer_line};
ghost use Rattle.rpki_replay.specs.declared.peers.Peer.{Peer as HeldPeer};
ghost use Rattle.rpki_replay.specs.declared.state_text.StateError.TheVariants as errors;

use crate::guard::Guard;
use crate::peers::Peer;
use itoa::Buffer;
use rpki_base::Time;
use rpki_ca::{Lines, spelled_key, split_word};
use rpki_common::OutOfMemory;
use rpki_der::Writer;
use std::alloc::Global;

/// Why a text isn't read as a state.
#[derive(Clone, Copy, Debug, PartialEq, Eq)]
pub enum StateError {
    /// The text is no state's.
    BadState,
    /// Memory ran out.
    OutOfMemory,
}

impl From<OutOfMemory> for StateError {
    ghost from_gives = { λ _ e. e ≡ errors.OutOfMemory };

    fn from(_: OutOfMemory) -> StateError {
        StateError::OutOfMemory
    }
}

// Octets in hexadecimal digits of lower case.
fn hexadecimal(alloc: Global, octets: &[u8]) -> Result<String, OutOfMemory>
    ensures text { IfOk result (λ text. string_bytes text ≡ encode_lower octets.now) }
    ensures octets { IsBytes octets.now }
{
    Ok(hex::encode(alloc, octets)?)
}

// The line of a peer, without a line feed.
fn peer_line(alloc: Global, peer: &Peer) -> Result<String, OutOfMemory>
    ensures line { IfOk result (λ line. string_bytes line ≡ peer_line peer.now) }
    ensures peer { OnOk result (IsPeer peer.now) }
{
    let mut der = Writer::new(alloc);
    peer.key.encode_ref(&mut der)?;
    let mut line = hexadecimal(alloc, der.as_slice())?;
    line.push_str(" ")?;
    line.push_str(Buffer::new().format(peer.last.seconds()))?;
    Ok(line)
}

// The time whose seconds a word says, if it is as they are written.
fn time_in(word: &[u8]) -> Option<Time>
    ensures { (when : ℤ) → IsMoment when → word.now ≡ signed_decimal when → result ≡ Some when }
{
    let Ok(text) = str::from_utf8(word) else {
        return None;
    };
    match text.parse::<i64>() {
        Ok(seconds) => Time::new(seconds),
        Err(_) => None,
    }
}

// The peer of a line.
fn peer_in(alloc: Global, line: &[u8]) -> Result<Option<Peer>, OutOfMemory>
    ensures some { IfOk result (λ o. IfSome o (λ peer.
        IsPeer peer × (line.now ≡ peer_line peer))) }
    ensures none { IfOk result (λ o. IsNone o →
        (peer : HeldPeer) → IsPeer peer → line.now ≡ peer_line peer → ⊥) }
{
    let Some((key, seconds)) = split_word(line) else {
        return Ok(None);
    };
    let Some(last) = time_in(seconds) else {
        return Ok(None);
    };
    let Some(key) = spelled_key(alloc, key)? else {
        return Ok(None);
    };
    let peer = Peer { key, last };
    let written = peer_line(alloc, &peer)?;
    if written.as_bytes() != line {
        return Ok(None);
    }
    Ok(Some(peer))
}

// Whether the last of the octets, if there is one, is a line feed.
fn ends_line(octets: &[u8]) -> bool
    ensures { result ≡ ends_line octets.now }
{
    octets.is_empty() || octets[octets.len() - 1] == b'\n'
}

/// # As a text
impl Guard {
    /// The state as a text: one line for each key in the order of `peers`, with the key's DER in
    /// hexadecimal digits of lower case, a space, the seconds since 1970 of the last time in decimal, and
    /// a line feed. A key that is longer than length octets can say is refused as want of memory.
    pub fn to_text(&self, alloc: Global) -> Result<String, OutOfMemory>
        ensures { IfOk result (λ text. IsStateText (string_bytes text) self.now) }
    {
        let mut text = String::new(alloc);
        for peer in self.peers() {
            let line = peer_line(alloc, peer)?;
            text.push_str(line.as_str())?;
            text.push_str("\n")?;
        }
        Ok(text)
    }

    /// The guard whose state a text is. `BadState` exactly where it is no text that `to_text` writes.
    pub fn from_text(alloc: Global, text: &str) -> Result<Guard, StateError>
        ensures ok { IfOk result (λ guard. IsStateText text.now guard) }
        ensures err { IsErrOf result StateError.BadState
            → (peers : List HeldPeer) → IsStateText text.now peers → ⊥ }
    {
        let mut guard = Guard::new(alloc);
        if !ends_line(text.as_bytes()) {
            return Err(StateError::BadState);
        }
        for line in Lines::new(text.as_bytes()) {
            guard.add_line(alloc, line)?;
        }
        Ok(guard)
    }

    /// Adds the peer of a line of a state's text. After a refusal the guard is as before.
    pub(crate) fn add_line(&mut self, alloc: Global, line: &[u8]) -> Result<(), StateError>
        ensures ok { OnOk result ((peer : HeldPeer) × IsPeer peer × (line.now ≡ peer_line peer)
            × (last_of self.old peer.key ≡ None) × (self.new ≡ self.old ++ peer ∷ [])) }
        ensures bad { IsErrOf result StateError.BadState → (peer : HeldPeer) → IsPeer peer
            → line.now ≡ peer_line peer → last_of self.old peer.key ≢ None }
        ensures err { OnErr result (self.new ≡ self.old) }
    {
        let Some(peer) = peer_in(alloc, line)? else {
            return Err(StateError::BadState);
        };
        if self.last(&peer.key).is_some() {
            return Err(StateError::BadState);
        }
        self.peers.put(&peer.key, peer.last)?;
        Ok(())
    }
}
