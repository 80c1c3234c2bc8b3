//! Runs the programs that answer line by line on stored cases, in memory, and says how many answers
//! differ from the expected.
//!
//! A line of data/cases.txt is `NAME PROGRAM STATUS OUTPUT INPUT WORD..`: PROGRAM is `guard`, `arch`, `pub`, `up`,
//! or what is no program: `parent`, a parent of several classes; `issuer`, its issuer; `class`, a class; `state`,
//! the state of a guard; or `decide`, the decision of a query by what is known of objects, which isn't made with 1. Behind `pub` may stand the number of a call of the signer that fails, counted from 0, the
//! one that makes its key; behind `up` and `parent` `,s` and such a number; and behind these or `issuer` `,i` and one
//! of the issuer's signer.
//! OUTPUT is what has to be written, and it and INPUT are octets as in other stored cases; `-` is an empty field.
//! tools/cases/line_cases.py writes the file; its expected answers come from a model that was written apart
//! from this tree, or are stated in the script.
#![tactic(auto)]

mod deciding;
mod guarded;
mod issuing;
mod parents;
mod server;
mod up;

use crate::deciding::holds_decision;
use crate::guarded::{admits_alike, holds_state};
use crate::issuing::{holds_class, holds_issuer};
use crate::parents::run_parent;
use crate::server::answers_alike;
use crate::up::{Failing, out_of_memory, run_up};
use rpki_archive::check;
use rpki_base::PublicKeyFormat;
use rpki_ca::{Status, Words};
use rpki_pubserver::serve;
use rpki_replay::run_guard;
use rpki_signer::{Signer, ToyScheme, ToySigner, ToyVerifier};
use rpki_text::{MemorySink, MemorySource};
use std::alloc::Global;
use std::{io, str};
use test_stored::{Cases, invalid, octets_of, run};

struct Case {
    words: Words,
    input: Vec<u8>,
    status: u8,
    output: Vec<u8>,
}

impl Drop for Case {
    fn drop(self) {
        let Case {
            words,
            input,
            status,
            output,
        } = self;
    }
}

fn text_of(field: &str) -> &str {
    if field == "-" { "" } else { field }
}

// The word that a field stands for: `#` and its octets in hexadecimal, or itself.
fn push(alloc: Global, words: &mut Words, field: &str) -> io::Result<()> {
    let pushed = match field.strip_prefix('#') {
        Some(digits) => {
            let octets = octets_of(alloc, digits)?;
            let Ok(word) = str::from_utf8(&octets) else {
                return Err(invalid());
            };
            words.push(word)
        }
        None => words.push(text_of(field)),
    };
    pushed.map_err(|_| out_of_memory())
}

fn words_of(alloc: Global, line: &str) -> io::Result<Words> {
    let mut words = Words::new(alloc);
    for field in line.split_whitespace().skip(5) {
        push(alloc, &mut words, field)?;
    }
    Ok(words)
}

// The octets of a field.
fn octets_in(alloc: Global, field: Option<&str>) -> io::Result<Vec<u8>> {
    match field {
        Some(field) => octets_of(alloc, text_of(field)),
        None => Err(invalid()),
    }
}

fn status_in(field: Option<&str>) -> io::Result<u8> {
    let Some(field) = field else {
        return Err(invalid());
    };
    match field.parse::<u8>() {
        Ok(status) => Ok(status),
        Err(_) => Err(invalid()),
    }
}

fn case_of(alloc: Global, line: &str) -> io::Result<Case> {
    let status = status_in(line.split_whitespace().nth(2))?;
    let words = words_of(alloc, line)?;
    let input = octets_in(alloc, line.split_whitespace().nth(4))?;
    let output = octets_in(alloc, line.split_whitespace().nth(3))?;
    Ok(Case {
        words,
        input,
        status,
        output,
    })
}

// The signer of the replies, of which the listed calls fail, and the identifier of its one key.
fn signer_of(alloc: Global, failing: &[u64]) -> io::Result<(ToySigner, u64)> {
    let Ok(mut signer) = ToySigner::new(alloc, 1, failing) else {
        return Err(out_of_memory());
    };
    match Signer::<ToyScheme>::create_key(&mut signer, alloc, PublicKeyFormat::Rsa) {
        Ok(key) => Ok((signer, key)),
        Err(_) => Err(invalid()),
    }
}

// What the publication server ends with, where the listed calls of its signer fail.
fn served(
    alloc: Global,
    failing: &[u64],
    case: &Case,
    source: &mut MemorySource,
    sink: &mut MemorySink,
) -> io::Result<Status> {
    let (mut signer, key) = signer_of(alloc, failing)?;
    let verifier = ToyVerifier::new();
    Ok(serve(
        alloc,
        &case.words,
        source,
        sink,
        &verifier,
        &mut signer,
        &key,
    ))
}

// What the parent ends with, where the call that the field names fails.
fn answered_by_parent(
    alloc: Global,
    failing: &str,
    case: &Case,
    source: &mut MemorySource,
    sink: &mut MemorySink,
) -> io::Result<Status> {
    run_up(alloc, &case.words, source, sink, &Failing::of(failing)?)
}

// What a program ends with whose name begins with `pub` or `up`, with the call that fails behind it.
fn served_by(
    alloc: Global,
    program: &str,
    case: &Case,
    source: &mut MemorySource,
    sink: &mut MemorySink,
) -> io::Result<Status> {
    if let Some(failing) = program.strip_prefix("up") {
        return answered_by_parent(alloc, failing, case, source, sink);
    }
    match program.strip_prefix("pub") {
        Some("") => served(alloc, &[], case, source, sink),
        Some(number) => match number.parse::<u64>() {
            Ok(call) => served(alloc, &[call], case, source, sink),
            Err(_) => Err(invalid()),
        },
        None => Err(invalid()),
    }
}

// What the program ends with.
fn ended(
    alloc: Global,
    program: &str,
    case: &Case,
    source: &mut MemorySource,
    sink: &mut MemorySink,
) -> io::Result<Status> {
    let verifier = ToyVerifier::new();
    match program {
        "arch" => Ok(check(alloc, &case.words, source, sink, &verifier)),
        "guard" => Ok(run_guard(alloc, &case.words, source, sink, &verifier)),
        _ => served_by(alloc, program, case, source, sink),
    }
}

// Whether the case is answered as expected from this source, where the sink takes `piece` octets a call.
fn is_answered_from(
    alloc: Global,
    program: &str,
    case: &Case,
    source: &mut MemorySource,
    piece: usize,
) -> io::Result<bool> {
    let Ok(mut sink) = MemorySink::new(alloc, 1 << 20, piece.max(1), &[]) else {
        return Err(out_of_memory());
    };
    let Status(status) = ended(alloc, program, case, source, &mut sink)?;
    Ok(status == case.status && sink.written() == case.output.as_slice())
}

// Whether the case is answered as expected where the source gives `piece` octets a call, and the
// sink takes as many.
fn is_answered(alloc: Global, program: &str, case: &Case, piece: usize) -> io::Result<bool> {
    match MemorySource::new(alloc, &case.input, piece.max(1), &[]) {
        Ok(mut source) => is_answered_from(alloc, program, case, &mut source, piece),
        Err(_) => Err(out_of_memory()),
    }
}

// The input as text.
fn text_in(case: &Case) -> io::Result<&str> {
    match str::from_utf8(&case.input) {
        Ok(text) => Ok(text),
        Err(_) => Err(invalid()),
    }
}

// Whether a parent of several classes does what is expected; its input is text.
fn does_as_parent(alloc: Global, failing: &str, case: &Case) -> io::Result<bool> {
    let input = text_in(case)?;
    let failing = Failing::of(failing)?;
    let text = run_parent(alloc, &case.words, input, &failing)?;
    Ok(text.as_slice() == case.output.as_slice())
}

// Whether the calls of a server or of a guard, one by one, answer as the program.
fn does_alike(alloc: Global, program: &str, case: &Case) -> io::Result<bool> {
    match program {
        "pub" => answers_alike(alloc, case),
        "guard" => admits_alike(alloc, case),
        _ => Ok(true),
    }
}

// Whether the case is answered as expected, whole and an octet at a time; and by such calls, where
// all lines are answered.
fn holds_run(alloc: Global, program: &str, case: &Case) -> io::Result<bool> {
    if case.status == 0 && !does_alike(alloc, program, case)? {
        return Ok(false);
    }
    Ok(is_answered(alloc, program, case, 1 << 20)? && is_answered(alloc, program, case, 1)?)
}

fn holds_case(alloc: Global, program: &str, case: &Case) -> io::Result<bool> {
    if let Some(failing) = program.strip_prefix("parent") {
        return does_as_parent(alloc, failing, case);
    }
    if let Some(failing) = program.strip_prefix("issuer") {
        return holds_issuer(alloc, failing, case);
    }
    match program {
        "class" => holds_class(alloc, case),
        "decide" => holds_decision(alloc, case),
        "state" => holds_state(alloc, case),
        _ => holds_run(alloc, program, case),
    }
}

struct Runs;

impl Cases for Runs {
    fn holds(&self, alloc: Global, line: &str) -> io::Result<bool> {
        let Some(program) = line.split_whitespace().nth(1) else {
            return Err(invalid());
        };
        let case = case_of(alloc, line)?;
        holds_case(alloc, program, &case)
    }
}

fn main(rt: HostRuntime) -> io::Result<()> {
    run(&rt, &Runs)
}
