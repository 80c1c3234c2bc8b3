//! Runs `rpki_ca::run` on stored cases, in memory, and says how many answers differ from the
//! expected.
//!
//! A line of data/cases.txt is `NAME STATUS LINE INPUT WORD..`: LINE is what has to be written, and
//! it and INPUT are octets as in other stored cases; `-` is an empty field. Or it is
//! `NAME CALL ANSWER ..`, with a call of words.rt, parts.rt, faults.rt or signers.rt and the text that it says. tools/cases/run_cases.py
//! writes the file; its expected answers come from a model that was written apart from this tree, or
//! are stated in the script.
#![tactic(auto)]

mod answered;
mod faults;
mod parts;
mod signers;
mod words;

use crate::signers::{signer_of, status_of};
use crate::words::words_of;
use rpki_base::PublicKeyFormat;
use rpki_ca::Words;
use rpki_common::OutOfMemory;
use rpki_text::{MemorySink, MemorySource};
use std::alloc::Global;
use std::io;
use std::io::ErrorKind;
use test_stored::{Cases, invalid, octets_of, run};

struct Case {
    words: Words,
    input: Vec<u8>,
    status: u8,
    line: Vec<u8>,
}

impl Drop for Case {
    fn drop(self) {
        let Case {
            words,
            input,
            status,
            line,
        } = self;
    }
}

fn out_of_memory(_: OutOfMemory) -> io::Error {
    io::Error::from(ErrorKind::OutOfMemory)
}

fn text_of(field: &str) -> &str {
    if field == "-" { "" } else { field }
}

fn case_of(alloc: Global, line: &str) -> io::Result<Case> {
    let mut fields = line.split_whitespace().skip(1);
    let (Some(status), Some(written), Some(input)) = (fields.next(), fields.next(), fields.next())
    else {
        return Err(invalid());
    };
    let Ok(status) = status.parse::<u8>() else {
        return Err(invalid());
    };
    Ok(Case {
        words: words_of(alloc, line, 4)?,
        input: octets_of(alloc, text_of(input))?,
        status,
        line: octets_of(alloc, text_of(written))?,
    })
}

// Whether the case is answered as expected where the source gives `piece` octets a call, and the
// sink takes as many.
fn is_answered(alloc: Global, case: &Case, piece: usize) -> io::Result<bool> {
    let piece = piece.max(1);
    let (Ok(mut source), Ok(mut sink)) = (
        MemorySource::new(alloc, &case.input, piece, &[]),
        MemorySink::new(alloc, 1 << 20, piece, &[]),
    ) else {
        return Err(out_of_memory(OutOfMemory));
    };
    let (mut signer, key) = signer_of(alloc, PublicKeyFormat::Rsa, &[])?;
    let status = status_of(alloc, &case.words, &mut source, &mut sink, &mut signer, key);
    Ok(status == case.status && sink.written() == case.line.as_slice())
}

// Whether the case is answered as expected, whole and an octet at a time; and where answers are put in for the toy scheme, if it is a
// setup message.
fn is_run(alloc: Global, line: &str) -> io::Result<bool> {
    let case = case_of(alloc, line)?;
    let is_set_up = answered::is_answered(
        alloc,
        &case.words,
        &case.input,
        case.status,
        &case.line,
    )?;
    Ok(is_set_up && is_answered(alloc, &case, 1 << 20)? && is_answered(alloc, &case, 1)?)
}

// What a call over words says; None where there is none of its name.
fn answer_to_words(alloc: Global, call: &str, words: &Words) -> io::Result<Option<String>> {
    match parts::answer_to(alloc, call, words)? {
        Some(answer) => Ok(Some(answer)),
        None => words::answer_to(alloc, call, words),
    }
}

// What the call of a line says; None where the line has a status in its place.
fn answer_to(alloc: Global, call: &str, line: &str) -> io::Result<Option<String>> {
    match call {
        "faults" => Ok(Some(faults::answer_to(alloc, line)?)),
        "signed" => Ok(Some(signers::answer_to(alloc, line)?)),
        _ => answer_to_words(alloc, call, &words_of(alloc, line, 3)?),
    }
}

struct Runs;

impl Cases for Runs {
    fn holds(&self, alloc: Global, line: &str) -> io::Result<bool> {
        let mut fields = line.split_whitespace().skip(1);
        let (Some(call), Some(expected)) = (fields.next(), fields.next()) else {
            return Err(invalid());
        };
        match answer_to(alloc, call, line)? {
            Some(answer) => Ok(answer.as_str() == text_of(expected)),
            None => is_run(alloc, line),
        }
    }
}

fn main(rt: HostRuntime) -> io::Result<()> {
    run(&rt, &Runs)
}
