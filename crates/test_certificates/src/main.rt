//! Reads, writes and checks the identity certificates and the CRLs of stored cases, and says how many answers differ from the expected.
//!
//! A line of data/cases.txt is `NAME MODE OCTETS STEP..`: MODE is `der`, `ber`, or `both` for one after the other. Each line is run
//! twice, the second time by the counted calls, where there are such. certificate_cases.py writes the file, by the formats and the
//! rules of the toy scheme alone, and says what the calls are.
#![tactic(auto)]

mod asking;
mod calls;
mod checking;
mod crls;
mod making;
mod reading;
mod shown;
mod signing;
mod unsigned;

use rpki_der::{Cursor, DecodeError, Mode, Steps};
use std::alloc::Global;
use std::io;
use std::sync::ledger::Ledger;
use test_stored::{Calls, Fields, Step, Walks, run};

// What is asked of octets; None where the step is none.
fn of_octets(
    alloc: Global,
    mode: Mode,
    octets: &[u8],
    step: &Step<'_>,
) -> Option<Result<Fields, DecodeError>> {
    if let Some(answer) = reading::whole_answer(alloc, mode, octets, step.call) {
        return Some(answer);
    }
    if let Some(answer) = crls::whole_answer(alloc, mode, octets, step) {
        return Some(answer);
    }
    if let Some(answer) = signing::answer(alloc, mode, octets, step) {
        return Some(answer);
    }
    if let Some(answer) = unsigned::answer(alloc, octets, step) {
        return Some(answer);
    }
    if let Some(answer) = making::answer(alloc, step) {
        return Some(answer);
    }
    checking::answer(alloc, mode, octets, step)
}

struct Certificates;

impl Calls for Certificates {
    fn answer(
        &self,
        alloc: Global,
        cursor: &mut Cursor<'_>,
        step: &Step<'_>,
    ) -> Option<Result<Fields, DecodeError>> {
        if let Some(answer) = reading::answer(alloc, cursor, step.call) {
            return Some(answer);
        }
        if let Some(answer) = crls::answer(alloc, cursor, step.call) {
            return Some(answer);
        }
        of_octets(alloc, cursor.mode(), cursor.here(), step)
    }

    fn counted_answer<L: Ledger>(
        &self,
        alloc: Global,
        cursor: &mut Cursor<'_>,
        step: &Step<'_>,
        steps: &mut Steps<L>,
    ) -> Option<Result<Fields, DecodeError>> {
        match reading::counted_answer(alloc, cursor, step.call, steps) {
            Some(answer) => Some(answer),
            None => crls::counted_answer(alloc, cursor, step.call, steps),
        }
    }
}

fn main(rt: HostRuntime) -> io::Result<()> {
    run(
        &rt,
        &Walks {
            calls: Certificates,
        },
    )
}
