//! Runs stored cases over sources, sinks and signers that fail at each of their calls in turn, with signatures of any length, and on
//! inputs that are made to cost much; and says how many answers differ from the expected.
//!
//! A line of data/cases.txt is one of these, in which WORD.. are the words of a command, INPUT its input and LINE what it writes:
//!
//! - `NAME run STATUS INPUT LINE WORD..`: what the command answers.
//! - `NAME reads COUNT PIECE INPUT LINE WORD..`: the source gives PIECE octets a call. Each of its first COUNT calls fails in turn, and
//!   then none, where LINE is written.
//! - `NAME writes COUNT PIECE INPUT LINE WORD..`: the same of a sink that takes PIECE octets a call.
//! - `NAME signs COUNT MAKER`: each of the COUNT calls of the signer fails in turn, and then none, where MAKER of signers.rt makes
//!   something.
//! - `NAME long STATUS OCTETS OVERLONG KEY INPUT LINE WORD..`: what the command answers with signatures of so many octets under the
//!   issuing key KEY, of which 0 alone is held, and how many of them the signer tells as too long.
//!
//! tools/cases/hostile_cases.py writes the file.
#![tactic(auto)]

mod long;
mod runs;
mod signers;
mod streams;

use std::alloc::Global;
use std::io;
use test_stored::{Cases, invalid, run};

struct Hostile;

impl Cases for Hostile {
    fn holds(&self, alloc: Global, line: &str) -> io::Result<bool> {
        match line.split_whitespace().nth(1) {
            Some("run") => runs::holds(alloc, line),
            Some("reads") => streams::reads_hold(alloc, line),
            Some("writes") => streams::writes_hold(alloc, line),
            Some("signs") => signers::holds(alloc, line),
            Some("long") => long::holds(alloc, line),
            _ => Err(invalid()),
        }
    }
}

fn main(rt: HostRuntime) -> io::Result<()> {
    run(&rt, &Hostile)
}
