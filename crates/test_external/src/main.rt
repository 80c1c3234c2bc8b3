//! Runs the program that takes answers on stored cases, in memory, and says how many answers differ from the expected.
//!
//! A line of data/cases.txt is `NAME HOW STATUS OUTPUT INPUT WORD..`. With HOW `keys` the words are the program's own. With `toy` they
//! are those of the command `receive` without last time, digest and answers: what the questions of the input are, the toy scheme
//! answers, and these answers are put in. Both are run whole and an octet at a time; `whole` is `keys` that is only run whole. OUTPUT
//! is what has to be written, and it and INPUT are octets as in other stored cases; `-` is an empty field.
//! Or a line is `NAME CALL ANSWER INPUT WORD..`: CALL is a public call that the program is made of, as `called` names them, and ANSWER
//! the fields that it has to answer; or `printed`, where the word says what.
//! tools/cases/answer_cases.py writes the file, and says what each call takes and answers; its expected answers come from OpenSSL, from a
//! model that was written apart from this tree, or are stated in the script.
#![tactic(auto)]

mod callers;
mod calls;
mod parts;
mod printed;
mod verifying;
mod written;

use rpki_base::{PublicKey, SigningAlgorithm, Verifier};
use rpki_ca::{Status, Words, spelled_octets};
use rpki_common::OutOfMemory;
use rpki_external::{Question, questions, run_keys};
use rpki_signer::ToyVerifier;
use rpki_text::{MemorySink, MemorySource};
use std::alloc::Global;
use std::io;
use std::io::ErrorKind;
use test_stored::{Cases, Fields, invalid, is_answered as is_said, octets_of, run};

struct Case {
    words: Words,
    input: Vec<u8>,
    status: u8,
    output: Vec<u8>,
}

impl Drop for Case {
    fn drop(self) {
        let Case {
            words,
            input,
            status,
            output,
        } = self;
    }
}

fn out_of_memory() -> io::Error {
    io::Error::from(ErrorKind::OutOfMemory)
}

fn memory(_: OutOfMemory) -> io::Error {
    out_of_memory()
}

fn text_of(field: &str) -> &str {
    if field == "-" { "" } else { field }
}

// The word that a field stands for: `#` and its octets in hexadecimal, or itself.
fn push(alloc: Global, words: &mut Words, field: &str) -> io::Result<()> {
    let pushed = match field.strip_prefix('#') {
        Some(digits) => {
            let octets = octets_of(alloc, digits)?;
            let Ok(word) = std::str::from_utf8(&octets) else {
                return Err(invalid());
            };
            words.push(word)
        }
        None => words.push(text_of(field)),
    };
    pushed.map_err(|_| out_of_memory())
}

// The words behind so many fields.
fn words_of(alloc: Global, line: &str, fields: usize) -> io::Result<Words> {
    let mut words = Words::new(alloc);
    for field in line.split_whitespace().skip(fields) {
        push(alloc, &mut words, field)?;
    }
    Ok(words)
}

fn case_of(alloc: Global, line: &str) -> io::Result<Case> {
    let mut fields = line.split_whitespace().skip(2);
    let (Some(status), Some(output), Some(input)) = (fields.next(), fields.next(), fields.next())
    else {
        return Err(invalid());
    };
    let Ok(status) = status.parse::<u8>() else {
        return Err(invalid());
    };
    Ok(Case {
        words: words_of(alloc, line, 5)?,
        input: octets_of(alloc, text_of(input))?,
        status,
        output: octets_of(alloc, text_of(output))?,
    })
}

// The keys that the words behind the moment spell, as far as each spells one.
fn keys_in(alloc: Global, words: &Words) -> io::Result<Vec<PublicKey>> {
    let mut keys = Vec::new(alloc);
    for index in 3..words.len() {
        match words.key(alloc, index) {
            Ok(Some(key)) => keys.push(key)?,
            Ok(None) => break,
            Err(_) => return Err(out_of_memory()),
        }
    }
    Ok(keys)
}

// A digit for each question, as the toy scheme answers it.
fn toy_digits(alloc: Global, list: &[Question]) -> io::Result<String> {
    let verifier = ToyVerifier::new();
    let mut digits = String::new(alloc);
    for question in list {
        let holds = verifier.verify(
            SigningAlgorithm::RsaSha256,
            question.key(),
            question.octets().as_slice(),
            question.signature().as_slice(),
        );
        digits.push_str(if holds { "1" } else { "0" })?;
    }
    Ok(digits)
}

// Whether the questions of a message, keys aside, have at most four times as many characters as it has octets.
pub(crate) fn is_short(alloc: Global, octets: &[u8]) -> io::Result<bool> {
    let Ok(questions) = questions(alloc, octets, &[]) else {
        return Ok(true);
    };
    let text = questions.to_text(alloc).map_err(memory)?;
    Ok(text.len() / 4 <= octets.len())
}

// The digest of the questions of the input's message under these keys, and the toy scheme's answers to them; where there is no message,
// another digest and one answer.
fn toy_words(alloc: Global, input: &[u8], keys: &[PublicKey]) -> io::Result<(String, String)> {
    let digits = input.strip_suffix(b"\n").unwrap_or(input);
    let octets = spelled_octets(alloc, digits).map_err(memory)?;
    let octets = octets.unwrap_or(Vec::new(alloc));
    if !is_short(alloc, &octets)? {
        return Err(invalid());
    }
    let Ok(questions) = questions(alloc, &octets, keys) else {
        let digest = hex::encode(alloc, &[0u8; 32])?;
        return Ok((digest, format!(in alloc; "0")?));
    };
    let digest = questions.digest(alloc).map_err(memory)?;
    let list = questions.list(alloc).map_err(memory)?;
    Ok((
        hex::encode(alloc, digest.as_slice())?,
        toy_digits(alloc, &list)?,
    ))
}

// The words with no last time, digest and the toy scheme's answers behind the moment.
fn with_answers(alloc: Global, case: &Case) -> io::Result<Words> {
    let keys = keys_in(alloc, &case.words)?;
    let (digest, answers) = toy_words(alloc, &case.input, &keys)?;
    let mut words = Words::new(alloc);
    for index in 0..case.words.len() {
        if index == 3 {
            words.push("-").map_err(memory)?;
            words.push(digest.as_str()).map_err(memory)?;
            words.push(answers.as_str()).map_err(memory)?;
        }
        let Some(word) = case.words.get(index) else {
            return Err(invalid());
        };
        words.push(word).map_err(memory)?;
    }
    Ok(words)
}

// Whether the case is answered as expected where the source gives `piece` octets a call, and the
// sink takes as many.
fn is_answered(alloc: Global, words: &Words, case: &Case, piece: usize) -> io::Result<bool> {
    let piece = piece.max(1);
    let (Ok(mut source), Ok(mut sink)) = (
        MemorySource::new(alloc, &case.input, piece, &[]),
        MemorySink::new(alloc, 1 << 20, piece, &[]),
    ) else {
        return Err(out_of_memory());
    };
    let Status(status) = run_keys(alloc, words, &mut source, &mut sink);
    Ok(status == case.status && sink.written() == case.output.as_slice())
}

fn holds_with(alloc: Global, words: &Words, case: &Case) -> io::Result<bool> {
    Ok(is_answered(alloc, words, case, 1 << 20)? && is_answered(alloc, words, case, 1)?)
}

// Whether a program's case is answered as expected, whole.
fn is_run_whole(alloc: Global, line: &str) -> io::Result<bool> {
    let case = case_of(alloc, line)?;
    is_answered(alloc, &case.words, &case, 1 << 20)
}

// Whether a program's case is answered as expected, whole and an octet at a time.
fn is_run(alloc: Global, line: &str) -> io::Result<bool> {
    let case = case_of(alloc, line)?;
    holds_with(alloc, &case.words, &case)
}

// Whether a program's case is answered as expected where the toy scheme gives the answers.
fn is_run_by_toy(alloc: Global, line: &str) -> io::Result<bool> {
    let case = case_of(alloc, line)?;
    let words = with_answers(alloc, &case)?;
    holds_with(alloc, &words, &case)
}

// What the call of this name answers.
fn called(alloc: Global, call: &str, input: &[u8], words: &Words) -> io::Result<Fields> {
    match call {
        "asked" => calls::asked(alloc, input, words),
        "held" => calls::held(alloc, input, words),
        "inspected" => calls::inspected(alloc, input),
        "told" => calls::told(alloc, input),
        "received" => calls::received(alloc, input, words),
        "checked" => calls::checked(alloc, input, words),
        "guarded" => calls::guarded(alloc, input, words),
        "prepared" => calls::prepared(alloc, input, words),
        "finished" => calls::finished(alloc, input, words),
        "setup-asked" => verifying::setup_asked(alloc, input, words),
        "setup" => verifying::set_up(alloc, input, words),
        "anchor-asked" => verifying::anchor_asked(alloc, input, words),
        "anchor" => verifying::anchor(alloc, input, words),
        "anchor-prepared" => verifying::anchor_prepared(alloc, words),
        "anchor-finished" => verifying::anchor_finished(alloc, words),
        "anchor-made" => verifying::anchor_made(alloc, words),
        "request-asked" => verifying::request_asked(alloc, input, words),
        "request" => verifying::request(alloc, input, words),
        "request-prepared" => verifying::request_prepared(alloc, words),
        "request-finished" => verifying::request_finished(alloc, words),
        "request-made" => verifying::request_made(alloc, words),
        "octets" => written::octets(alloc, input, words),
        "record" => written::record(alloc, input, words),
        "message" => written::message(alloc, input, words),
        "request-at" => written::at(alloc, input),
        "request-in" => written::within(alloc, input),
        "printed" => printed::printed(alloc, words),
        _ => Err(invalid()),
    }
}

// Whether a call answers as expected.
fn is_called(alloc: Global, call: &str, line: &str) -> io::Result<bool> {
    let mut fields = line.split_whitespace().skip(2);
    let (Some(expected), Some(input)) = (fields.next(), fields.next()) else {
        return Err(invalid());
    };
    let input = octets_of(alloc, text_of(input))?;
    let words = words_of(alloc, line, 4)?;
    let answer = called(alloc, call, &input, &words)?;
    is_said(alloc, Ok(answer), expected)
}

struct Runs;

impl Cases for Runs {
    fn holds(&self, alloc: Global, line: &str) -> io::Result<bool> {
        match line.split_whitespace().nth(1) {
            Some("keys") => is_run(alloc, line),
            Some("whole") => is_run_whole(alloc, line),
            Some("toy") => is_run_by_toy(alloc, line),
            Some(call) => is_called(alloc, call, line),
            None => Err(invalid()),
        }
    }
}

fn main(rt: HostRuntime) -> io::Result<()> {
    run(&rt, &Runs)
}
