//! Reads, checks and makes the certificate requests of stored cases, reads resource certificates, and says how many answers differ
//! from the expected.
//!
//! A line of data/cases.txt is `NAME MODE OCTETS STEP..`: MODE is `der`, `ber`, or `both` for one after the other. Each line is run
//! twice, the second time by the counted calls, where there are such. tools/cases/request_cases.py writes the file, by the formats and the
//! rules of the toy scheme alone, and says what the calls are.
#![tactic(auto)]

mod certificates;
mod long;
mod making;
mod reading;
mod shown;
mod unsigned;

use rpki_der::{Cursor, DecodeError, Steps};
use std::alloc::Global;
use std::io;
use std::sync::ledger::Ledger;
use test_stored::{Calls, Fields, Step, Walks, run};

struct Requests;

impl Calls for Requests {
    fn answer(
        &self,
        alloc: Global,
        cursor: &mut Cursor<'_>,
        step: &Step<'_>,
    ) -> Option<Result<Fields, DecodeError>> {
        if step.call == "capture" {
            return Some(reading::captured(alloc, cursor));
        }
        if let Some(answer) = reading::answer(alloc, cursor.here(), step.call) {
            return Some(answer);
        }
        if let Some(answer) = certificates::answer(alloc, cursor.here(), step) {
            return Some(answer);
        }
        if let Some(answer) = unsigned::answer(alloc, cursor.here(), step) {
            return Some(answer);
        }
        making::answer(alloc, step)
    }

    fn counted_answer<L: Ledger>(
        &self,
        alloc: Global,
        cursor: &mut Cursor<'_>,
        step: &Step<'_>,
        steps: &mut Steps<L>,
    ) -> Option<Result<Fields, DecodeError>> {
        match reading::counted_answer(alloc, cursor, step.call, steps) {
            Some(answer) => Some(answer),
            None => certificates::counted_answer(alloc, cursor, step.call, steps),
        }
    }
}

fn main(rt: HostRuntime) -> io::Result<()> {
    run(&rt, &Walks { calls: Requests })
}
