//! Signers of the toy scheme with one key, and runs of `create` with such as fail, lack the key or use it twice.

use crate::words::words_of;
use crate::{out_of_memory, text_of};
use rpki_base::PublicKeyFormat;
use rpki_ca::{Status, Words};
use rpki_common::OutOfMemory;
use rpki_signer::{Signer, ToyScheme, ToySigner, ToyVerifier};
use rpki_text::{MemorySink, MemorySource, Source};
use std::alloc::Global;
use std::io;
use test_stored::{invalid, octets_of};

/// A signer of seed 1, whose first call makes a key of this format, and the key's identifier. `failing` are the calls that fail.
pub fn signer_of(
    alloc: Global,
    format: PublicKeyFormat,
    failing: &[u64],
) -> io::Result<(ToySigner, u64)> {
    let mut signer = ToySigner::new(alloc, 1, failing).map_err(out_of_memory)?;
    match Signer::<ToyScheme>::create_key(&mut signer, alloc, format) {
        Ok(key) => Ok((signer, key)),
        Err(_) => Err(out_of_memory(OutOfMemory)),
    }
}

/// The status with which a run ends.
pub fn status_of(
    alloc: Global,
    words: &Words,
    source: &mut MemorySource,
    sink: &mut MemorySink,
    signer: &mut ToySigner,
    key: u64,
) -> u8 {
    let Status(status) = rpki_ca::run(
        alloc,
        words,
        source,
        sink,
        &ToyVerifier::new(),
        signer,
        &key,
    );
    status
}

// A signer of seed 1 whose first call makes an RSA key, which it gives for one use too, and the key's identifier.
fn reusing_signer(alloc: Global) -> io::Result<(ToySigner, u64)> {
    let mut signer = ToySigner::new(alloc, 1, &[]).map_err(out_of_memory)?;
    match Signer::<ToyScheme>::create_key(&mut signer, alloc, PublicKeyFormat::Rsa) {
        Ok(key) => {
            signer.reuse(key);
            Ok((signer, key))
        }
        Err(_) => Err(out_of_memory(OutOfMemory)),
    }
}

// `rsa`, `ec`, `reused`, `missing` with an identifier that no key has, or the number of the call that fails.
fn named_signer(alloc: Global, name: &str) -> io::Result<(ToySigner, u64)> {
    match name {
        "rsa" => signer_of(alloc, PublicKeyFormat::Rsa, &[]),
        "ec" => signer_of(alloc, PublicKeyFormat::EcdsaP256, &[]),
        "reused" => reusing_signer(alloc),
        "missing" => {
            let (signer, _) = signer_of(alloc, PublicKeyFormat::Rsa, &[])?;
            Ok((signer, 5))
        }
        call => match call.parse::<u64>() {
            Ok(call) => signer_of(alloc, PublicKeyFormat::Rsa, &[call]),
            Err(_) => Err(invalid()),
        },
    }
}

// The status and what is written, in hexadecimal, of `receive` of what was written, under the words.
fn received(alloc: Global, words: &Words, written: &[u8]) -> io::Result<String> {
    let (mut signer, key) = signer_of(alloc, PublicKeyFormat::Rsa, &[])?;
    let (Ok(mut source), Ok(mut sink)) = (
        MemorySource::new(alloc, written, 1 << 20, &[]),
        MemorySink::new(alloc, 1 << 20, 1 << 20, &[]),
    ) else {
        return Err(out_of_memory(OutOfMemory));
    };
    let status = status_of(alloc, words, &mut source, &mut sink, &mut signer, key);
    let Ok(line) = hex::encode(alloc, sink.written()) else {
        return Err(out_of_memory(OutOfMemory));
    };
    Ok(format!(in alloc; "{status}/{}", line.as_str())?)
}

// The words `receive publication MOMENT KEY`.
fn words_to_receive(alloc: Global, moment: &str, key: &str) -> io::Result<Words> {
    let mut words = Words::new(alloc);
    for word in ["receive", "publication", moment, key] {
        words.push(word).map_err(out_of_memory)?;
    }
    Ok(words)
}

// What `create` or `make` of these words answers to the input: its status, how many calls of the signer failed, and its line; or where
// that is what was asked for, the key under which it is received, and what comes of that at the moments.
fn created(
    alloc: Global,
    words: &Words,
    source: &mut MemorySource,
    name: &str,
    key_and_moments: &str,
) -> io::Result<String> {
    let (mut signer, key) = named_signer(alloc, name)?;
    let Ok(mut sink) = MemorySink::new(alloc, 1 << 20, 1 << 20, &[]) else {
        return Err(out_of_memory(OutOfMemory));
    };
    let status = status_of(alloc, words, source, &mut sink, &mut signer, key);
    let mut text = format!(in alloc; "{status}/{}", signer.faults())?;
    if status != 0 {
        let Ok(line) = hex::encode(alloc, sink.written()) else {
            return Err(out_of_memory(OutOfMemory));
        };
        text.push_str("/")?;
        text.push_str(line.as_str())?;
        return Ok(text);
    }
    let mut fields = key_and_moments.split(',');
    let key = fields.next().unwrap_or("");
    for moment in fields {
        let words = words_to_receive(alloc, moment, key)?;
        text.push_str("/")?;
        text.push_str(received(alloc, &words, sink.written())?.as_str())?;
    }
    Ok(text)
}

/// What comes of the line `NAME signed ANSWER SIGNER KEY,MOMENT.. INPUT WORD..`; and `/left` behind it, where not all of the input
/// was read.
pub fn answer_to(alloc: Global, line: &str) -> io::Result<String> {
    let mut fields = line.split_whitespace().skip(3);
    let (Some(name), Some(received), Some(input)) = (fields.next(), fields.next(), fields.next())
    else {
        return Err(invalid());
    };
    let words = words_of(alloc, line, 6)?;
    let input = octets_of(alloc, text_of(input))?;
    let mut source = MemorySource::new(alloc, &input, 1000, &[]).map_err(out_of_memory)?;
    let mut text = created(alloc, &words, &mut source, name, received)?;
    let mut rest = [0u8; 1];
    match source.read(&mut rest) {
        Ok(0) => Ok(text),
        _ => {
            text.push_str("/left")?;
            Ok(text)
        }
    }
}
