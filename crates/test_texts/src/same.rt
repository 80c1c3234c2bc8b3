//! The calls that compare two values, of which the first is copied.

use crate::calls::{Answer, out_of_memory, refused, told};
use rpki_common::OutOfMemory;
use rpki_text::uri::{HttpsKind, RsyncKind, Uri, UriKind};
use rpki_text::{Base64, ChildHandle, Hash};
use std::alloc::Global;
use std::io;

// Whether two values are equal, whose texts are so too, or both are not.
fn told_with(alloc: Global, holds: bool, first: &str, second: &str) -> io::Result<Answer> {
    if holds == (first == second) {
        told(alloc, holds)
    } else {
        refused("Differ")
    }
}

fn uris<K: UriKind>(alloc: Global, first: &str, second: &str) -> io::Result<Answer> {
    let (Ok(first), Ok(second)) = (
        Uri::<K>::from_str(alloc, first),
        Uri::<K>::from_str(alloc, second),
    ) else {
        return refused("Malformed");
    };
    uris_alike(alloc, &first, &second)
}

// Of these two.
fn uris_alike<K: UriKind>(alloc: Global, first: &Uri<K>, second: &Uri<K>) -> io::Result<Answer> {
    match first.clone(alloc) {
        Ok(copy) => told_with(alloc, copy == *second, copy.as_str(), second.as_str()),
        Err(OutOfMemory) => out_of_memory(),
    }
}

fn base64_texts(alloc: Global, first: &str, second: &str) -> io::Result<Answer> {
    let (Ok(first), Ok(second)) = (
        Base64::from_str(alloc, first),
        Base64::from_str(alloc, second),
    ) else {
        return refused("Malformed");
    };
    base64_alike(alloc, &first, &second)
}

fn base64_alike(alloc: Global, first: &Base64, second: &Base64) -> io::Result<Answer> {
    match first.clone(alloc) {
        Ok(copy) => told_with(alloc, copy == *second, copy.as_str(), second.as_str()),
        Err(OutOfMemory) => out_of_memory(),
    }
}

fn handles(alloc: Global, first: &str, second: &str) -> io::Result<Answer> {
    let (Ok(first), Ok(second)) = (
        ChildHandle::from_str(alloc, first),
        ChildHandle::from_str(alloc, second),
    ) else {
        return refused("Malformed");
    };
    handles_alike(alloc, &first, &second)
}

fn handles_alike(alloc: Global, first: &ChildHandle, second: &ChildHandle) -> io::Result<Answer> {
    match first.clone(alloc) {
        Ok(copy) => told_with(alloc, copy == *second, copy.as_str(), second.as_str()),
        Err(OutOfMemory) => out_of_memory(),
    }
}

/// What a call answers to two texts.
pub fn answer_to(alloc: Global, call: &str, first: &str, second: &str) -> io::Result<Answer> {
    match call {
        "rsync_same" => uris::<RsyncKind>(alloc, first, second),
        "https_same" => uris::<HttpsKind>(alloc, first, second),
        "base64_same" => base64_texts(alloc, first, second),
        "handle_same" => handles(alloc, first, second),
        "hash_same" => {
            let hash = Hash::from_data(first.as_bytes());
            told(alloc, hash == Hash::from_data(second.as_bytes()))
        }
        _ => Ok(Answer::Unknown),
    }
}
