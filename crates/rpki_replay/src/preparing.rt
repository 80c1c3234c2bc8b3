//! What the program reads: words and input.

ghost use Rattle.std.specs.Prelude.{◌≡◌, ◌∷◌, ◌++◌, [], IfOk, IfSome, IsErrOf, IsNone, List, None, Some, map, ℕ};
ghost use Rattle.rpki_ca.specs.Lines.{words_of};
ghost use Rattle.rpki_replay.specs.Messages.{AreNotSent, AreSent, dash, sent_in};
ghost use Rattle.rpki_replay.specs.State.{IsState};
ghost use Rattle.rpki_replay.specs.StateText.{peer_line};
ghost use Rattle.rpki_replay.specs.declared.peers.Peer.{Peer as HeldPeer};

use crate::guard::Guard;
use crate::state_text::StateError;
use rpki_base::PublicKey;
use rpki_ca::{Lines, spelled_key, spelled_octets, split_word};
use rpki_common::OutOfMemory;
use std::alloc::Global;
use std::marker::Model;

/// The key of a peer, and the octets that it is to have sent.
#[derive(Drop)]
pub(crate) struct Sent {
    pub(crate) peer: PublicKey,
    pub(crate) octets: Vec<u8>,
}

impl Model for Sent {
    ghost use Rattle.rpki_replay.specs.Messages as messages;

    ghost Value = { messages.Sent };

    ghost view = { λ s. record { peer = s.peer; octets = s.octets.items } };
}

/// The guard whose state stands in front of the first line with a dash, and the lines behind it are
/// left. `BadState` exactly where there is no such line, or what stands in front of it is no state.
pub(crate) fn guard_in(alloc: Global, lines: &mut Lines<'_>) -> Result<Guard, StateError>
    ensures ok { IfOk result (λ guard. IsState guard
        × (lines.old ≡ map peer_line guard ++ dash ∷ lines.new)) }
    ensures err { IsErrOf result StateError.BadState → (peers : List HeldPeer)
        → (behind : List (List ℕ)) → IsState peers
        → lines.old ≡ map peer_line peers ++ dash ∷ behind → ⊥ }
{
    let mut guard = Guard::new(alloc);
    while let Some(line) = lines.next() {
        if line == b"-".as_slice() {
            return Ok(guard);
        }
        guard.add_line(alloc, line)?;
    }
    Err(StateError::BadState)
}

// The words of a line, if there are two.
fn two_words(line: &[u8]) -> Option<(&[u8], &[u8])>
    ensures some { IfSome result (λ words.
        words_of line.now ≡ words.0.now ∷ words.1.now ∷ []) }
    ensures none { IsNone result → sent_in line.now ≡ None }
{
    match split_word(line) {
        Some((first, second)) => match split_word(second) {
            Some(_) => None,
            None => Some((first, second)),
        },
        None => None,
    }
}

// The message of a line.
fn sent_in(alloc: Global, line: &[u8]) -> Result<Option<Sent>, OutOfMemory>
    ensures some { IfOk result (λ o. IfSome o (λ sent. sent_in line.now ≡ Some sent)) }
    ensures none { IfOk result (λ o. IsNone o → sent_in line.now ≡ None) }
{
    let Some((key, octets)) = two_words(line) else {
        return Ok(None);
    };
    let Some(octets) = spelled_octets(alloc, octets)? else {
        return Ok(None);
    };
    match spelled_key(alloc, key)? {
        Some(peer) => Ok(Some(Sent { peer, octets })),
        None => Ok(None),
    }
}

/// The messages of the lines; None where some line is none.
pub(crate) fn messages_in(alloc: Global, lines: Lines<'_>) -> Result<Option<Vec<Sent>>, OutOfMemory>
    ensures some { IfOk result (λ o. IfSome o (λ sent. AreSent lines.entry sent.items)) }
    ensures none { IfOk result (λ o. IsNone o → AreNotSent lines.entry) }
{
    let mut messages = Vec::new(alloc);
    for line in lines {
        match sent_in(alloc, line)? {
            Some(sent) => messages.push(sent)?,
            None => return Ok(None),
        }
    }
    Ok(Some(messages))
}
