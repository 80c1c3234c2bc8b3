//! The calls over JSON texts, and what they answer.

use crate::calls::{Answer, given, out_of_memory, printed, refused};
use rpki_text::{JsonError, read_octets, read_string, read_value, write_octets, write_string};
use std::alloc::Global;
use std::io;

fn json_refused(error: JsonError) -> io::Result<Answer> {
    match error {
        JsonError::Malformed => refused("Malformed"),
        JsonError::OutOfMemory => out_of_memory(),
    }
}

// The value's text without spaces.
fn value(alloc: Global, text: &str) -> io::Result<Answer> {
    match read_value(alloc, text) {
        Ok(value) => given(alloc, value.to_string(alloc)?.as_str().as_bytes()),
        Err(error) => json_refused(error),
    }
}

fn string(alloc: Global, text: &str) -> io::Result<Answer> {
    match read_string(alloc, text) {
        Ok(string) => given(alloc, string.as_str().as_bytes()),
        Err(error) => json_refused(error),
    }
}

fn octets(alloc: Global, text: &str) -> io::Result<Answer> {
    match read_octets(alloc, text) {
        Ok(octets) => given(alloc, octets.as_slice()),
        Err(error) => json_refused(error),
    }
}

/// What a call answers to a text.
pub fn answer_to(alloc: Global, call: &str, text: &str) -> io::Result<Answer> {
    match call {
        "json_value" => value(alloc, text),
        "json_string" => string(alloc, text),
        "json_octets" => octets(alloc, text),
        "string_to_json" => printed(alloc, write_string(alloc, text)),
        "octets_to_json" => printed(alloc, write_octets(alloc, text.as_bytes())),
        _ => Ok(Answer::Unknown),
    }
}
