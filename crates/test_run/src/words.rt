//! What words say by themselves, as texts.

use crate::{out_of_memory, text_of};
use rpki_base::{PublicKey, PublicKeyFormat};
use rpki_ca::{Command, Kind, SetupKind, Words};
use std::alloc::Global;
use std::io;
use test_stored::{invalid, octets_of};

/// What is said where there is nothing.
pub const NONE: &str = "none";

// The text that a word of a case stands for: `#` and its octets in hexadecimal, or itself.
fn push(alloc: Global, words: &mut Words, field: &str) -> io::Result<()> {
    let pushed = match field.strip_prefix('#') {
        Some(digits) => {
            let octets = octets_of(alloc, digits)?;
            let Ok(word) = std::str::from_utf8(&octets) else {
                return Err(invalid());
            };
            words.push(word)
        }
        None => words.push(text_of(field)),
    };
    pushed.map_err(out_of_memory)
}

/// The words behind so many fields of a line.
pub fn words_of(alloc: Global, line: &str, fields: usize) -> io::Result<Words> {
    let mut words = Words::new(alloc);
    for field in line.split_whitespace().skip(fields) {
        push(alloc, &mut words, field)?;
    }
    Ok(words)
}

// How many words there are, whether there is none, and each.
fn all(alloc: Global, words: &Words) -> io::Result<String> {
    let mut text = format!(in alloc; "{}/{}", words.len(), words.is_empty())?;
    for index in 0..words.len() {
        text.push_str("/")?;
        text.push_str(words.get(index).unwrap_or(NONE))?;
    }
    if words.get(words.len()).is_some() {
        return Err(invalid());
    }
    Ok(text)
}

// The seconds that the word at 1 names.
fn moment(alloc: Global, words: &Words) -> io::Result<String> {
    match words.moment(1) {
        Some(when) => Ok(format!(in alloc; "{}", when.seconds())?),
        None => Ok(format!(in alloc; "{NONE}")?),
    }
}

/// A key: its format, and its bits in hexadecimal.
pub fn key_text(alloc: Global, key: &PublicKey) -> io::Result<String> {
    let format = match key.format() {
        PublicKeyFormat::Rsa => "rsa",
        PublicKeyFormat::EcdsaP256 => "ec",
    };
    let digits = hex::encode(alloc, key.bits_bytes().as_slice())?;
    Ok(format!(in alloc; "{format}:{}", digits.as_str())?)
}

// The key that the word at 0 spells.
fn key(alloc: Global, words: &Words) -> io::Result<String> {
    match words.key(alloc, 0).map_err(out_of_memory)? {
        Some(key) => key_text(alloc, &key),
        None => Ok(format!(in alloc; "{NONE}")?),
    }
}

fn kind_text(kind: Kind) -> &'static str {
    match kind {
        Kind::Publication => "publication",
        Kind::Provisioning => "provisioning",
    }
}

fn setup_text(kind: SetupKind) -> &'static str {
    match kind {
        SetupKind::ChildRequest => "child_request",
        SetupKind::ParentResponse => "parent_response",
        SetupKind::PublisherRequest => "publisher_request",
        SetupKind::RepositoryResponse => "repository_response",
    }
}

// A command: `content`, or the kind, the seconds of the moment, and the keys; or `create` or `setup`, the kind
// and the seconds; or `make`, how many elements and the seed.
fn command_text(alloc: Global, command: &Command) -> io::Result<String> {
    match command {
        Command::Content => Ok(format!(in alloc; "content")?),
        Command::Receive { kind, when, keys } => {
            let mut text = format!(in alloc; "{}/{}", kind_text(*kind), when.seconds())?;
            for key in keys.as_slice() {
                text.push_str("/")?;
                text.push_str(key_text(alloc, key)?.as_str())?;
            }
            Ok(text)
        }
        Command::Create { kind, when } => Ok(format!(in alloc;
            "create/{}/{}",
            kind_text(*kind),
            when.seconds()
        )?),
        Command::Setup { kind, when } => Ok(format!(in alloc;
            "setup/{}/{}",
            setup_text(*kind),
            when.seconds()
        )?),
        Command::Make { count, seed } => Ok(format!(in alloc; "make/{count}/{seed}")?),
    }
}

fn command(alloc: Global, words: &Words) -> io::Result<String> {
    match words.command(alloc).map_err(out_of_memory)? {
        Some(command) => command_text(alloc, &command),
        None => Ok(format!(in alloc; "{NONE}")?),
    }
}

/// What a call over words says; None where there is none of its name.
pub fn answer_to(alloc: Global, call: &str, words: &Words) -> io::Result<Option<String>> {
    match call {
        "words" => Ok(Some(all(alloc, words)?)),
        "moment" => Ok(Some(moment(alloc, words)?)),
        "key" => Ok(Some(key(alloc, words)?)),
        "command" => Ok(Some(command(alloc, words)?)),
        _ => Ok(None),
    }
}
