//! Setup messages whose certificates are verified by answers, as the command `setup` verifies them with the toy scheme.

use crate::out_of_memory;
use rpki_base::{SigningAlgorithm, Verifier};
use rpki_ca::{Command, Refusal, SetupKind, SetupMessage, Status, Words, line_of};
use rpki_common::OutOfMemory;
use rpki_external::{Questions, SetupError, run_keys, setup_questions};
use rpki_signer::ToyVerifier;
use rpki_text::{MemorySink, MemorySource};
use std::alloc::Global;
use std::io;
use test_stored::invalid;

// What the toy scheme answers: a digit where a certificate is asked for its own signature, and none where it isn't.
fn toy_digits(questions: &Questions) -> &'static str {
    let Some(question) = questions.own() else {
        return "";
    };
    let holds = ToyVerifier::new().verify(
        SigningAlgorithm::RsaSha256,
        question.key(),
        question.octets().as_slice(),
        question.signature().as_slice(),
    );
    if holds { "1" } else { "0" }
}

// The digest of what is asked of the setup message that the input is, and the toy scheme's answers to it; where nothing is asked, another
// digest and no answer.
fn toy_words(
    alloc: Global,
    kind: SetupKind,
    input: &[u8],
) -> Result<(String, &'static str), OutOfMemory> {
    match setup_questions(alloc, kind, input) {
        Ok(questions) => {
            let digest = questions.digest(alloc)?;
            Ok((
                hex::encode(alloc, digest.as_slice())?,
                toy_digits(&questions),
            ))
        }
        Err(SetupError::OutOfMemory) => Err(OutOfMemory),
        Err(_) => Ok((hex::encode(alloc, &[0u8; 32])?, "")),
    }
}

// The words with a digest and answers behind them.
fn with_answers(alloc: Global, words: &Words, digest: &str, answers: &str) -> io::Result<Words> {
    let mut with = Words::new(alloc);
    for index in 0..words.len() {
        let Some(word) = words.get(index) else {
            return Err(invalid());
        };
        with.push(word).map_err(out_of_memory)?;
    }
    with.push(digest).map_err(out_of_memory)?;
    with.push(answers).map_err(out_of_memory)?;
    Ok(with)
}

// Whether the program that takes answers ends with this status, and writes this.
fn is_run(alloc: Global, words: &Words, input: &[u8], status: u8, line: &[u8]) -> io::Result<bool> {
    let (Ok(mut source), Ok(mut sink)) = (
        MemorySource::new(alloc, input, 1 << 20, &[]),
        MemorySink::new(alloc, 1 << 20, 1 << 20, &[]),
    ) else {
        return Err(out_of_memory(OutOfMemory));
    };
    let Status(ended) = run_keys(alloc, words, &mut source, &mut sink);
    Ok(ended == status && sink.written() == line)
}

// Whether the input is read as a setup message whatever its certificate is: with status 0 it is written as this, and it is none exactly
// where that is the answer.
fn is_read(
    alloc: Global,
    kind: SetupKind,
    input: &[u8],
    status: u8,
    line: &[u8],
) -> Result<bool, OutOfMemory> {
    match SetupMessage::parse(alloc, kind, input) {
        Ok(message) => {
            let written = line_of(message.to_xml_vec(alloc)?)?;
            Ok(line != b"XmlError\n".as_slice() && (status != 0 || written.as_slice() == line))
        }
        Err(Refusal::OutOfMemory) => Err(OutOfMemory),
        Err(refusal) => Ok(refusal.line().as_str().as_bytes() == line),
    }
}

// Whether the setup message that the input is has this status, and this is written of it, where answers are put in.
fn is_set_up(
    alloc: Global,
    words: &Words,
    kind: SetupKind,
    input: &[u8],
    status: u8,
    line: &[u8],
) -> io::Result<bool> {
    let (digest, answers) = toy_words(alloc, kind, input).map_err(out_of_memory)?;
    let words = with_answers(alloc, words, digest.as_str(), answers)?;
    Ok(
        is_run(alloc, &words, input, status, line)?
            && is_read(alloc, kind, input, status, line).map_err(out_of_memory)?,
    )
}

/// Whether the command of the words, if it is `setup`, has this status and writes this where answers are put in.
pub(crate) fn is_answered(
    alloc: Global,
    words: &Words,
    input: &[u8],
    status: u8,
    line: &[u8],
) -> io::Result<bool> {
    let command = words.command(alloc).map_err(out_of_memory)?;
    match &command {
        Some(Command::Setup { kind, .. }) => is_set_up(alloc, words, *kind, input, status, line),
        _ => Ok(true),
    }
}
