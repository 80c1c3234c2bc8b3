//! The parts that programs share which read and write lines, by calls of their own, as texts.

use crate::faults::calls_of;
use crate::out_of_memory;
use crate::words::{NONE, key_text};
use rpki_ca::{
    Kind, ReceiveError, Received, Refusal, Status, Stop, Words, finish_lines, input_octets,
    line_of, message_in, read_input, spelled_key,
};
use rpki_common::OutOfMemory;
use rpki_text::{MemorySink, MemorySource};
use std::alloc::Global;
use std::io;
use test_stored::invalid;

// The word at this place.
fn word(words: &Words, index: usize) -> io::Result<&str> {
    match words.get(index) {
        Some(word) => Ok(word),
        None => Err(invalid()),
    }
}

fn digits_of(alloc: Global, octets: &[u8]) -> io::Result<String> {
    match hex::encode(alloc, octets) {
        Ok(digits) => Ok(digits),
        Err(_) => Err(out_of_memory(OutOfMemory)),
    }
}

// The refusal's name.
fn name_of(alloc: Global, refusal: Refusal) -> io::Result<String> {
    match refusal {
        Refusal::OutOfMemory => Err(out_of_memory(OutOfMemory)),
        _ => Ok(format!(in alloc; "{refusal}")?),
    }
}

// The octets in hexadecimal, or the refusal's name.
fn octets_shown(alloc: Global, answer: Result<Vec<u8>, Refusal>) -> io::Result<String> {
    match answer {
        Ok(octets) => digits_of(alloc, &octets),
        Err(refusal) => name_of(alloc, refusal),
    }
}

// The line of the first word.
fn line(alloc: Global, words: &Words) -> io::Result<String> {
    let mut text = Vec::new(alloc);
    text.extend_from_slice(word(words, 0)?.as_bytes())?;
    let line = line_of(text).map_err(out_of_memory)?;
    digits_of(alloc, &line)
}

// The octets that the first word spells as an input.
fn octets(alloc: Global, words: &Words) -> io::Result<String> {
    let mut input = Vec::new(alloc);
    input.extend_from_slice(word(words, 0)?.as_bytes())?;
    octets_shown(alloc, input_octets(alloc, input))
}

// The key that the first word spells.
fn key(alloc: Global, words: &Words) -> io::Result<String> {
    match spelled_key(alloc, word(words, 0)?.as_bytes()).map_err(out_of_memory)? {
        Some(key) => key_text(alloc, &key),
        None => Ok(format!(in alloc; "{NONE}")?),
    }
}

// What is read of a source with the second word, of whose calls the first word says what they do.
fn read(alloc: Global, words: &Words) -> io::Result<String> {
    let (piece, failing) = calls_of(alloc, word(words, 0)?)?;
    let input = word(words, 1)?.as_bytes();
    match MemorySource::new(alloc, input, piece.max(1), &failing) {
        Ok(mut source) => octets_shown(alloc, read_input(alloc, &mut source)),
        Err(error) => Err(out_of_memory(error)),
    }
}

fn refusal_of(name: &str) -> Option<Refusal> {
    match name {
        "Usage" => Some(Refusal::Usage),
        "Hex" => Some(Refusal::Hex),
        "CmsDecode" => Some(Refusal::CmsDecode),
        "XmlError" => Some(Refusal::XmlError),
        "CertSyntax" => Some(Refusal::CertSyntax),
        "InvalidCsrSyntax" => Some(Refusal::InvalidCsrSyntax),
        "InvalidTaCertEncoding" => Some(Refusal::InvalidTaCertEncoding),
        "InvalidTaCert" => Some(Refusal::InvalidTaCert),
        "Validation" => Some(Refusal::Validation(14)),
        "KeyNotFound" => Some(Refusal::KeyNotFound),
        "IncompatibleKey" => Some(Refusal::IncompatibleKey),
        "KeyReused" => Some(Refusal::KeyReused),
        "Signer" => Some(Refusal::Signer),
        "Moment" => Some(Refusal::Moment),
        "TooLong" => Some(Refusal::TooLong),
        "ReadFault" => Some(Refusal::ReadFault),
        "OutOfMemory" => Some(Refusal::OutOfMemory),
        _ => None,
    }
}

// What came of the lines: `done`, `write` where the output failed, or the name of a refusal.
fn answered_of(word: &str) -> io::Result<Result<(), Stop>> {
    if word == "done" {
        return Ok(Ok(()));
    }
    if word == "write" {
        return Ok(Err(Stop::WriteFault));
    }
    match refusal_of(word) {
        Some(refusal) => Ok(Err(Stop::Refused(refusal))),
        None => Err(invalid()),
    }
}

// The status with which a program ends, what it writes, and how many calls of the sink failed. The first word says what came of the
// lines, the second how many octets the sink has room for.
fn finished(alloc: Global, words: &Words) -> io::Result<String> {
    let answered = answered_of(word(words, 0)?)?;
    let Ok(room) = word(words, 1)?.parse::<usize>() else {
        return Err(invalid());
    };
    let mut sink = MemorySink::new(alloc, room, 1000, &[]).map_err(out_of_memory)?;
    let Status(status) = finish_lines(&mut sink, answered);
    let digits = digits_of(alloc, sink.written())?;
    Ok(format!(in alloc; "{status}/{}/{}", digits.as_str(), sink.faults())?)
}

fn kind_of(word: &str) -> io::Result<Kind> {
    match word {
        "publication" => Ok(Kind::Publication),
        "provisioning" => Ok(Kind::Provisioning),
        _ => Err(invalid()),
    }
}

// The text of a message.
fn text_shown(alloc: Global, message: &Received) -> io::Result<String> {
    let text = match message {
        Received::Publication(message) => message.text_bytes(alloc),
        Received::Provisioning(message) => message.text_bytes(alloc),
    };
    digits_of(alloc, text.map_err(out_of_memory)?.as_slice())
}

fn message_shown(alloc: Global, read: Result<Received, ReceiveError>) -> io::Result<String> {
    match read {
        Ok(message) => text_shown(alloc, &message),
        Err(error) => name_of(alloc, Refusal::from(error)),
    }
}

// The message of the kind of the first word that the second is.
fn message(alloc: Global, words: &Words) -> io::Result<String> {
    let kind = kind_of(word(words, 0)?)?;
    message_shown(alloc, message_in(alloc, kind, word(words, 1)?.as_bytes()))
}

/// What a call over words says; None where there is none of its name.
pub fn answer_to(alloc: Global, call: &str, words: &Words) -> io::Result<Option<String>> {
    match call {
        "line_of" => Ok(Some(line(alloc, words)?)),
        "input_octets" => Ok(Some(octets(alloc, words)?)),
        "spelled_key" => Ok(Some(key(alloc, words)?)),
        "read_input" => Ok(Some(read(alloc, words)?)),
        "finish_lines" => Ok(Some(finished(alloc, words)?)),
        "message_in" => Ok(Some(message(alloc, words)?)),
        _ => Ok(None),
    }
}
