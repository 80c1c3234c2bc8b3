//! Reads and writes JSON texts of stored cases, prints requests for certificates, and says how many answers differ from the expected.
//!
//! A line of data/cases.txt is `NAME OCTETS STEP..`. tools/cases/json_cases.py writes the file, and says what the calls are.
#![tactic(auto)]

mod parts;
mod signed;

use rpki_der::DecodeError;
use rpki_text::JsonError;
use std::alloc::Global;
use std::io;
use test_stored::{Cases, Step, invalid, is_answered, octets_of, run, step_of};

/// Why nothing was read, as stored cases say it.
pub(crate) fn refused(error: JsonError) -> DecodeError {
    match error {
        JsonError::Malformed => DecodeError::Malformed,
        JsonError::OutOfMemory => DecodeError::OutOfMemory,
    }
}

// Whether a step is answered as expected.
fn is_expected(alloc: Global, octets: &[u8], step: &Step<'_>) -> io::Result<bool> {
    if let Some(answer) = signed::answer(alloc, octets, step) {
        return is_answered(alloc, answer, step.answer);
    }
    let Ok(text) = str::from_utf8(octets) else {
        return Err(invalid());
    };
    match parts::answer(alloc, text, step.call) {
        Some(answer) => is_answered(alloc, answer, step.answer),
        None => Err(invalid()),
    }
}

struct Texts;

impl Cases for Texts {
    fn holds(&self, alloc: Global, line: &str) -> io::Result<bool> {
        let mut words = line.split_whitespace().skip(1);
        let Some(octets) = words.next() else {
            return Err(invalid());
        };
        let octets = octets_of(alloc, octets)?;
        let mut holds = true;
        'steps: for word in words {
            let step = step_of(alloc, word)?;
            holds = holds && is_expected(alloc, &octets, &step)?;
        }
        Ok(holds)
    }
}

fn main(rt: HostRuntime) -> io::Result<()> {
    run(&rt, &Texts)
}
