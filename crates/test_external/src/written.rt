//! The calls that write octets, and those that say what stands in octets and texts, by themselves.

use crate::memory;
use crate::parts::{keys_from, refused};
use rpki_ca::{Kind, Words};
use rpki_cert::RpkiCaCsr;
use rpki_external::{
    KeysRefusal, Part, message_of, push_record, questions, request_at, request_in, tag_of,
};
use std::alloc::Global;
use std::io;
use test_stored::{Fields, invalid};

/// The octets of the questions of the message under the keys that the words are.
pub(crate) fn octets(alloc: Global, input: &[u8], words: &Words) -> io::Result<Fields> {
    let keys = keys_from(alloc, words, 0)?;
    match questions(alloc, input, &keys) {
        Ok(questions) => {
            let octets = questions.to_octets(alloc).map_err(memory)?;
            Ok(Fields::one(alloc, &octets)?)
        }
        Err(error) => refused(alloc, error),
    }
}

fn part_of(word: Option<&str>) -> io::Result<Part> {
    match word {
        Some("attributes") => Ok(Part::Attributes),
        Some("certificate") => Ok(Part::Certificate),
        Some("crl") => Ok(Part::Crl),
        Some("anchor") => Ok(Part::Anchor),
        Some("request") => Ok(Part::Request),
        _ => Err(invalid()),
    }
}

/// The record of the input under the tag of the part that the word names, behind three octets.
pub(crate) fn record(alloc: Global, input: &[u8], words: &Words) -> io::Result<Fields> {
    let part = part_of(words.get(0))?;
    let mut text = Vec::from_slice(alloc, b"abc")?;
    push_record(tag_of(part), input, &mut text).map_err(memory)?;
    Ok(Fields::one(alloc, &text)?)
}

/// The text of the message that the input is, of the protocol that the word names.
pub(crate) fn message(alloc: Global, input: &[u8], words: &Words) -> io::Result<Fields> {
    let kind = match words.get(0) {
        Some("publication") => Kind::Publication,
        Some("provisioning") => Kind::Provisioning,
        _ => return Err(invalid()),
    };
    match message_of(alloc, kind, input) {
        Ok(message) => {
            let text = message.to_xml_vec(alloc).map_err(memory)?;
            Ok(Fields::one(alloc, &text)?)
        }
        Err(refusal) => refused(alloc, refusal),
    }
}

// The bits of a request's key, or why there is no request.
fn key_of(alloc: Global, request: Result<RpkiCaCsr, KeysRefusal>) -> io::Result<Fields> {
    match request {
        Ok(request) => Ok(Fields::one(alloc, request.public_key().bits_bytes().as_slice())?),
        Err(refusal) => refused(alloc, refusal),
    }
}

/// The bits of the key of the request with which the input begins.
pub(crate) fn at(alloc: Global, input: &[u8]) -> io::Result<Fields> {
    key_of(alloc, request_at(alloc, input))
}

/// The bits of the key of the request in the issue request that the input is.
pub(crate) fn within(alloc: Global, input: &[u8]) -> io::Result<Fields> {
    key_of(alloc, request_in(alloc, input))
}
