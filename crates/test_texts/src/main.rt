//! Calls `rpki_text` and `rpki_sets` on stored cases, and says how many answers differ from the expected.
//!
//! A line of data/cases.txt is `NAME CALL ANSWER INPUT INPUT`. CALL is one of an `answer_to` in
//! calls.rt, json.rt, kept.rt, numbers.rt, same.rt or sets.rt. ANSWER is `=` and the octets that are given, or the name of a refusal.
//! Octets are pieces with `+` between; a piece is in hexadecimal, or with `*` and a number behind it stands
//! that often; `-` is no octets. tools/cases/text_cases.py writes the file.
#![tactic(auto)]

mod calls;
mod json;
mod kept;
mod numbers;
mod same;
mod sets;

use calls::{Answer, answer_to};
use std::alloc::Global;
use std::io;
use test_stored::{Cases, invalid, run};

#[derive(Drop)]
struct Case<'a> {
    call: &'a str,
    answer: &'a str,
    first: &'a str,
    second: &'a str,
}

fn case_of<'a>(line: &'a str) -> Option<Case<'a>> {
    let mut fields = line.split_whitespace().skip(1);
    Some(Case {
        call: fields.next()?,
        answer: fields.next()?,
        first: fields.next()?,
        second: fields.next()?,
    })
}

// Adds `piece` behind `octets`, as often as `count` says.
fn repeat(octets: &mut Vec<u8>, piece: &[u8], count: u32) -> io::Result<()> {
    'times: for _ in 0..count {
        octets.extend_from_slice(piece)?;
    }
    Ok(())
}

// Adds what one piece of a field stands for.
fn add(alloc: Global, octets: &mut Vec<u8>, piece: &str) -> io::Result<()> {
    let (digits, count) = piece.split_once('*').unwrap_or((piece, "1"));
    let Ok(count) = count.parse::<u32>() else {
        return Err(invalid());
    };
    match hex::decode(alloc, digits) {
        Ok(found) => repeat(octets, &found, count),
        Err(_) => Err(invalid()),
    }
}

fn octets_of(alloc: Global, field: &str) -> io::Result<Vec<u8>> {
    let mut octets = Vec::new(alloc);
    if field == "-" {
        return Ok(octets);
    }
    'pieces: for piece in field.split('+') {
        add(alloc, &mut octets, piece)?;
    }
    Ok(octets)
}

// Whether the answer is what the field says.
fn is_answer(alloc: Global, answer: &Answer, field: &str) -> io::Result<bool> {
    match (answer, field.strip_prefix("=")) {
        (Answer::Given(octets), Some(expected)) => Ok(*octets == octets_of(alloc, expected)?),
        (Answer::Refused(name), None) => Ok(*name == field),
        (Answer::Unknown, _) => Err(invalid()),
        _ => Ok(false),
    }
}

struct Texts;

impl Cases for Texts {
    fn holds(&self, alloc: Global, line: &str) -> io::Result<bool> {
        let Some(case) = case_of(line) else {
            return Err(invalid());
        };
        let first = octets_of(alloc, case.first)?;
        let second = octets_of(alloc, case.second)?;
        let answer = answer_to(alloc, case.call, &first, &second)?;
        is_answer(alloc, &answer, case.answer)
    }
}

fn main(rt: HostRuntime) -> io::Result<()> {
    run(&rt, &Texts)
}
