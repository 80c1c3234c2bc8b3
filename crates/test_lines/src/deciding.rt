//! What is decided of a query by what is known of objects.

use crate::Case;
use crate::up::{out_of_memory, push};
use rpki_publication::Message;
use rpki_pubserver::{DecideError, Decision, Known, decide};
use rpki_text::{Hash, uri};
use std::alloc::Global;
use std::io;
use test_stored::invalid;

fn uri_of(alloc: Global, word: &str) -> io::Result<uri::Rsync> {
    uri::Rsync::from_str(alloc, word).map_err(|_| invalid())
}

// The digest that a word says, or none where it is a hyphen.
fn hash_of(word: &str) -> io::Result<Option<Hash>> {
    if word == "-" {
        return Ok(None);
    }
    match Hash::from_str(word) {
        Some(hash) => Ok(Some(hash)),
        None => Err(invalid()),
    }
}

// What is known by a word: a URI, an equals sign, and the digest of the object there or a hyphen.
fn known_by(alloc: Global, word: &str) -> io::Result<Known> {
    let Some((uri, hash)) = word.split_once('=') else {
        return Err(invalid());
    };
    Ok(Known::new(uri_of(alloc, uri)?, hash_of(hash)?))
}

// What the words behind the first say.
fn known_of(alloc: Global, case: &Case) -> io::Result<Vec<Known>> {
    let mut known = Vec::new(alloc);
    for place in 1..case.words.len() {
        match case.words.get(place) {
            Some(word) => push(&mut known, known_by(alloc, word)?)?,
            None => return Err(invalid()),
        }
    }
    Ok(known)
}

// A line that says whether the changes are made, and the reply.
fn text_of(alloc: Global, decision: &Decision) -> io::Result<Vec<u8>> {
    let line: &[u8] = if decision.made { b"made\n" } else { b"kept\n" };
    let (Ok(mut text), Ok(reply)) = (Vec::from_slice(alloc, line), decision.reply.text_vec(alloc))
    else {
        return Err(out_of_memory());
    };
    match text.extend_from_slice(&reply) {
        Ok(()) => Ok(text),
        Err(_) => Err(out_of_memory()),
    }
}

/// Whether it is decided as expected. The words are the base and what is known, and the input is the query's text.
pub(crate) fn holds_decision(alloc: Global, case: &Case) -> io::Result<bool> {
    let Some(word) = case.words.get(0) else {
        return Err(invalid());
    };
    let base = uri_of(alloc, word)?;
    let known = known_of(alloc, case)?;
    let Ok(message) = Message::decode_slice(alloc, &case.input) else {
        return Err(invalid());
    };
    match decide(alloc, &base, &message, &known) {
        Ok(decision) => {
            let text = text_of(alloc, &decision)?;
            Ok(case.status == 0 && text == case.output)
        }
        Err(DecideError::Unknown) => Ok(case.status == 1),
        Err(DecideError::OutOfMemory) => Err(out_of_memory()),
    }
}
