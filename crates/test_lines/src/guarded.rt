//! The messages of a case, admitted by the calls of a guard one by one; and states that are read and written.

use crate::up::out_of_memory;
use crate::{Case, text_in};
use rpki_base::{PublicKey, Time};
use rpki_ca::{spelled_key, spelled_octets, split_word};
use rpki_replay::{Guard, GuardError, StateError};
use rpki_sigmsg::{DecodeError, SignedMessage};
use rpki_signer::ToyVerifier;
use std::alloc::Global;
use std::io;
use test_stored::invalid;

fn push_line(text: &mut String, line: &str) -> io::Result<()> {
    text.push_str(line).map_err(|_| out_of_memory())?;
    text.push_str("\n").map_err(|_| out_of_memory())
}

// The lines in front of the one with a dash.
fn state_in(alloc: Global, input: &str) -> io::Result<String> {
    let mut state = String::new(alloc);
    for line in input.lines() {
        if line == "-" {
            break;
        }
        push_line(&mut state, line)?;
    }
    Ok(state)
}

// The guard of a state; a new one where that is empty.
fn guard_of(alloc: Global, state: &str) -> io::Result<Guard> {
    if state.is_empty() {
        return Ok(Guard::new(alloc));
    }
    match Guard::from_text(alloc, state) {
        Ok(guard) => Ok(guard),
        Err(_) => Err(invalid()),
    }
}

// The key and the octets of a message's line.
fn sent_in(alloc: Global, line: &str) -> io::Result<(PublicKey, Vec<u8>)> {
    let Some((key, octets)) = split_word(line.as_bytes()) else {
        return Err(invalid());
    };
    match (spelled_key(alloc, key), spelled_octets(alloc, octets)) {
        (Ok(Some(key)), Ok(Some(octets))) => Ok((key, octets)),
        _ => Err(invalid()),
    }
}

fn answer_shown(alloc: Global, answer: Result<Time, GuardError>) -> io::Result<String> {
    match answer {
        Ok(time) => Ok(format!(in alloc; "ok {}", time.seconds())?),
        Err(error) => Ok(format!(in alloc; "{error}")?),
    }
}

// What comes of the message that the octets are.
fn admitted(
    alloc: Global,
    guard: &mut Guard,
    peer: &PublicKey,
    octets: &[u8],
    when: Time,
) -> io::Result<String> {
    match SignedMessage::decode(alloc, octets, false) {
        Ok(message) => {
            let answer = guard.admit(peer, &message, &ToyVerifier::new(), when);
            answer_shown(alloc, answer)
        }
        Err(DecodeError::Malformed) => Ok(format!(in alloc; "CmsDecode")?),
        Err(DecodeError::OutOfMemory) => Err(out_of_memory()),
    }
}

fn answer_to(alloc: Global, guard: &mut Guard, line: &str, when: Time) -> io::Result<String> {
    let (peer, octets) = sent_in(alloc, line)?;
    admitted(alloc, guard, &peer, &octets, when)
}

fn state_of(alloc: Global, guard: &Guard) -> io::Result<String> {
    guard.to_text(alloc).map_err(|_| out_of_memory())
}

// The answers to the lines behind the one with a dash, such a line, and the state behind them.
fn answers(alloc: Global, guard: &mut Guard, input: &str, when: Time) -> io::Result<String> {
    let mut text = String::new(alloc);
    let mut behind = false;
    for line in input.lines() {
        if behind {
            let answer = answer_to(alloc, guard, line, when)?;
            push_line(&mut text, answer.as_str())?;
        }
        behind = behind || line == "-";
    }
    push_line(&mut text, "-")?;
    let state = state_of(alloc, guard)?;
    text.push_str(state.as_str()).map_err(|_| out_of_memory())?;
    Ok(text)
}

/// Whether a guard that is called for each message answers what the case expects, and holds then the state that it expects.
pub fn admits_alike(alloc: Global, case: &Case) -> io::Result<bool> {
    let Some(when) = case.words.moment(0) else {
        return Err(invalid());
    };
    let input = text_in(case)?;
    let state = state_in(alloc, input)?;
    let mut guard = guard_of(alloc, state.as_str())?;
    let text = answers(alloc, &mut guard, input, when)?;
    Ok(text.as_bytes() == case.output.as_slice())
}

/// Whether the input is a state's text, which is written as the case expects; or none, where it expects the status 13.
pub fn holds_state(alloc: Global, case: &Case) -> io::Result<bool> {
    match Guard::from_text(alloc, text_in(case)?) {
        Ok(guard) => {
            let text = state_of(alloc, &guard)?;
            Ok(case.status == 0 && text.as_bytes() == case.output.as_slice())
        }
        Err(StateError::BadState) => Ok(case.status == 13),
        Err(StateError::OutOfMemory) => Err(out_of_memory()),
    }
}
