//! The calls that cases name, and what they answer.

use crate::{json, kept, numbers, same, sets};
use rpki_common::OutOfMemory;
use rpki_text::uri::{self, HttpsKind, RsyncKind, Uri, UriKind};
use rpki_text::{
    Base64, Base64Error, ChildHandle, Hash, InvalidHandle, JsonError, MemorySink, MemorySource,
    ReadAllError, Source, StdSource, key_identifier_text, read_all, read_key_identifier, write_all,
};
use std::alloc::Global;
use std::io;
use std::io::ErrorKind;
use std::rc::RcStr;

/// What a call answered.
#[derive(Drop)]
pub enum Answer {
    /// The octets or the text that it gave.
    Given(Vec<u8>),
    /// The name of its refusal.
    Refused(&'static str),
    /// No call has this name.
    Unknown,
}

pub(crate) fn out_of_memory<T>() -> io::Result<T> {
    Err(io::Error::from(ErrorKind::OutOfMemory))
}

pub(crate) fn given(alloc: Global, octets: &[u8]) -> io::Result<Answer> {
    Ok(Answer::Given(octets.to_vec(alloc)?))
}

pub(crate) fn told(alloc: Global, holds: bool) -> io::Result<Answer> {
    given(alloc, if holds { b"true" } else { b"false" })
}

pub(crate) fn counted(alloc: Global, count: usize) -> io::Result<Answer> {
    Ok(Answer::Given(format!(in alloc; "{count}")?.into_bytes()))
}

pub(crate) fn refused(name: &'static str) -> io::Result<Answer> {
    Ok(Answer::Refused(name))
}

pub(crate) fn printed(alloc: Global, text: Result<String, OutOfMemory>) -> io::Result<Answer> {
    match text {
        Ok(text) => given(alloc, text.as_str().as_bytes()),
        Err(OutOfMemory) => out_of_memory(),
    }
}

fn uri_refused(error: uri::Error) -> io::Result<Answer> {
    match error {
        uri::Error::TooLong => refused("TooLong"),
        uri::Error::BadCharacter => refused("BadCharacter"),
        uri::Error::BadScheme => refused("BadScheme"),
        uri::Error::BadUri => refused("BadUri"),
        uri::Error::DotSegments => refused("DotSegments"),
        uri::Error::OutOfMemory => out_of_memory(),
    }
}

// What a URI that was made prints.
fn uri_printed<K: UriKind>(alloc: Global, found: Result<Uri<K>, uri::Error>) -> io::Result<Answer> {
    match found {
        Ok(found) => given(alloc, found.to_string(alloc)?.as_str().as_bytes()),
        Err(error) => uri_refused(error),
    }
}

// `path` joined to `base`.
fn uri_joined<K: UriKind>(alloc: Global, base: &str, path: &[u8]) -> io::Result<Answer> {
    match Uri::<K>::from_str(alloc, base) {
        Ok(base) => uri_printed(alloc, base.join(alloc, path)),
        Err(error) => uri_refused(error),
    }
}

fn is_directory<K: UriKind>(alloc: Global, text: &str) -> io::Result<Answer> {
    match Uri::<K>::from_str(alloc, text) {
        Ok(found) => told(alloc, found.path_is_dir()),
        Err(error) => uri_refused(error),
    }
}

fn hash_printed(alloc: Global, found: Option<Hash>) -> io::Result<Answer> {
    match found {
        Some(found) => given(alloc, found.to_string(alloc)?.as_str().as_bytes()),
        None => refused("None"),
    }
}

fn octets_of_base64(alloc: Global, found: Result<Base64, Base64Error>) -> io::Result<Answer> {
    match found {
        Ok(found) => match found.to_bytes(alloc) {
            Ok(octets) => given(alloc, octets.as_slice()),
            Err(OutOfMemory) => out_of_memory(),
        },
        Err(Base64Error::Malformed) => refused("Malformed"),
        Err(Base64Error::OutOfMemory) => out_of_memory(),
    }
}

fn octets_of_base64_json(alloc: Global, text: &str) -> io::Result<Answer> {
    match Base64::from_json(alloc, text) {
        Ok(found) => octets_of_base64(alloc, Ok(found)),
        Err(JsonError::Malformed) => refused("Malformed"),
        Err(JsonError::OutOfMemory) => out_of_memory(),
    }
}

fn handle_printed(alloc: Global, found: Result<ChildHandle, InvalidHandle>) -> io::Result<Answer> {
    match found {
        Ok(found) => given(alloc, found.to_string(alloc)?.as_str().as_bytes()),
        Err(InvalidHandle::Pattern) => refused("Pattern"),
        Err(InvalidHandle::OutOfMemory) => out_of_memory(),
    }
}

fn handle_of_json(alloc: Global, text: &str) -> io::Result<Answer> {
    match ChildHandle::from_json(alloc, text) {
        Ok(found) => handle_printed(alloc, Ok(found)),
        Err(JsonError::Malformed) => refused("Malformed"),
        Err(JsonError::OutOfMemory) => out_of_memory(),
    }
}

fn handle_as_json(alloc: Global, text: &str) -> io::Result<Answer> {
    let handle: ChildHandle = ChildHandle::new(RcStr::from_str(alloc, text)?);
    printed(alloc, handle.to_json(alloc))
}

fn octets_of_key_identifier(alloc: Global, text: &str) -> io::Result<Answer> {
    match read_key_identifier(text) {
        Some(octets) => given(alloc, &octets),
        None => refused("None"),
    }
}

fn text_of_key_identifier(alloc: Global, octets: &[u8]) -> io::Result<Answer> {
    match <&[u8; 20]>::try_from(octets) {
        Ok(octets) => printed(alloc, key_identifier_text(alloc, octets)),
        Err(_) => refused("None"),
    }
}

// `octets` read up to 65535 of them, `piece` in a call.
fn octets_read(alloc: Global, octets: &[u8], piece: usize) -> io::Result<Answer> {
    let Ok(mut source) = MemorySource::new(alloc, octets, piece.max(1), &[]) else {
        return out_of_memory();
    };
    match read_all(alloc, &mut source, 65535) {
        Ok(found) => given(alloc, &found),
        Err(ReadAllError::Read) => refused("Read"),
        Err(ReadAllError::TooLong) => refused("TooLong"),
        Err(ReadAllError::OutOfMemory) => out_of_memory(),
    }
}

// What a sink with room for 65535 octets has of `octets`, written `piece` in a call.
fn octets_written(alloc: Global, octets: &[u8], piece: usize) -> io::Result<Answer> {
    let Ok(mut sink) = MemorySink::new(alloc, 65535, piece.max(1), &[]) else {
        return out_of_memory();
    };
    match write_all(&mut sink, octets) {
        Ok(()) => given(alloc, sink.written()),
        Err(_) => refused("Failed"),
    }
}

// What two calls give of a source over `octets`, each asked for `piece` of them.
fn octets_given(alloc: Global, octets: &[u8], piece: usize) -> io::Result<Answer> {
    let mut source = StdSource::new(octets);
    let mut found = Vec::new(alloc);
    'calls: for _ in 0..2 {
        let mut block = vec![in alloc; 0u8; piece]?;
        let Ok(count) = source.read(&mut block) else {
            return refused("Failed");
        };
        block.truncate(count);
        found.extend_from_slice(&block)?;
    }
    Ok(Answer::Given(found))
}

// The base64 text of octets, and what is told of it.
fn of_content(alloc: Global, call: &str, content: &[u8]) -> io::Result<Answer> {
    match Base64::from_content(alloc, content) {
        Ok(held) => of_held(alloc, call, &held),
        Err(OutOfMemory) => out_of_memory(),
    }
}

// What is told of the base64 text that is held.
fn of_held(alloc: Global, call: &str, held: &Base64) -> io::Result<Answer> {
    match call {
        "base64_of" => given(alloc, held.to_string(alloc)?.as_str().as_bytes()),
        "base64_size" => counted(alloc, held.size_approx()),
        "base64_hash" => match held.to_hash(alloc) {
            Ok(hash) => hash_printed(alloc, Some(hash)),
            Err(OutOfMemory) => out_of_memory(),
        },
        "base64_to_json" => printed(alloc, held.to_json(alloc)),
        _ => Ok(Answer::Unknown),
    }
}

// The calls that take a text.
fn of_text(alloc: Global, call: &str, text: &str, second: &[u8]) -> io::Result<Answer> {
    match call {
        "rsync" => uri_printed(alloc, uri::Rsync::from_str(alloc, text)),
        "rsync_join" => uri_joined::<RsyncKind>(alloc, text, second),
        "rsync_is_dir" => is_directory::<RsyncKind>(alloc, text),
        "https" => uri_printed(alloc, uri::Https::from_str(alloc, text)),
        "https_join" => uri_joined::<HttpsKind>(alloc, text, second),
        "https_is_dir" => is_directory::<HttpsKind>(alloc, text),
        "hash" => hash_printed(alloc, Hash::from_str(text)),
        "base64" => octets_of_base64(alloc, Base64::from_str(alloc, text)),
        "base64_json" => octets_of_base64_json(alloc, text),
        "handle" => handle_printed(alloc, ChildHandle::from_str(alloc, text)),
        "handle_json" => handle_of_json(alloc, text),
        "handle_to_json" => handle_as_json(alloc, text),
        "ski" => octets_of_key_identifier(alloc, text),
        _ => Ok(Answer::Unknown),
    }
}

// The calls that take two texts, of which the second may be none.
fn of_texts(alloc: Global, call: &str, first: &str, second: &[u8]) -> io::Result<Answer> {
    let Ok(second) = std::str::from_utf8(second) else {
        return Ok(Answer::Unknown);
    };
    match same::answer_to(alloc, call, first, second)? {
        Answer::Unknown => match kept::answer_to(alloc, call, first, second)? {
            Answer::Unknown => sets::answer_to(alloc, call, first, second),
            answer => Ok(answer),
        },
        answer => Ok(answer),
    }
}

// The calls that take a text, and maybe another.
fn of_first_text(alloc: Global, call: &str, first: &str, second: &[u8]) -> io::Result<Answer> {
    match of_text(alloc, call, first, second)? {
        Answer::Unknown => match json::answer_to(alloc, call, first)? {
            Answer::Unknown => of_texts(alloc, call, first, second),
            answer => Ok(answer),
        },
        answer => Ok(answer),
    }
}

/// What a call answers to its inputs.
pub fn answer_to(alloc: Global, call: &str, first: &[u8], second: &[u8]) -> io::Result<Answer> {
    match call {
        "hash_of" => hash_printed(alloc, Some(Hash::from_data(first))),
        "ski_of" => text_of_key_identifier(alloc, first),
        "read_all" => octets_read(alloc, first, second.len()),
        "write_all" => octets_written(alloc, first, second.len()),
        "std_read" => octets_given(alloc, first, second.len()),
        "number_as" | "number_ipv4" | "number_ipv6" => numbers::answer_to(alloc, call, first),
        _ => match std::str::from_utf8(first) {
            Ok(text) => match of_first_text(alloc, call, text, second)? {
                Answer::Unknown => of_content(alloc, call, first),
                answer => Ok(answer),
            },
            Err(_) => of_content(alloc, call, first),
        },
    }
}
