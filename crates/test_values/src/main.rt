//! Reads and writes the values of stored cases by the calls of rpki_der and rpki_base, and says how many answers differ from the
//! expected.
//!
//! A line of data/cases.txt is `NAME MODE OCTETS STEP..`: MODE is `der`, `ber`, or `both` for one after the other. The calls that take a
//! cursor go on from step to step; the others look at the octets that are left. Each line is run twice, the second time by the counted
//! calls, where there are such. value_cases.py writes the file, by the standards and other libraries alone, and says what the calls
//! are.
#![tactic(auto)]

mod counted;
mod counted_parts;
mod gathering;
mod leaves;
mod levels;
mod parts;
mod shown;
mod whole;
mod whole_parts;
mod writing;

use rpki_der::{Cursor, DecodeError, Mode, Steps};
use std::alloc::Global;
use std::io;
use std::sync::ledger::Ledger;
use test_stored::{Calls, Fields, Step, Walks, run};

// What a call without a cursor answers.
fn answer_of_octets(
    alloc: Global,
    mode: Mode,
    octets: &[u8],
    step: &Step<'_>,
) -> Option<Result<Fields, DecodeError>> {
    if let Some(answer) = whole::answer(alloc, mode, octets, step) {
        return Some(answer);
    }
    if let Some(answer) = whole_parts::answer(alloc, mode, octets, step) {
        return Some(answer);
    }
    if let Some(answer) = whole_parts::plain_answer(alloc, octets, step) {
        return Some(answer);
    }
    writing::answer(alloc, octets, step)
}

struct Values;

impl Calls for Values {
    fn answer(
        &self,
        alloc: Global,
        cursor: &mut Cursor<'_>,
        step: &Step<'_>,
    ) -> Option<Result<Fields, DecodeError>> {
        if let Some(answer) = levels::answer(alloc, cursor, step) {
            return Some(answer);
        }
        if let Some(answer) = leaves::answer(alloc, cursor, step) {
            return Some(answer);
        }
        if let Some(answer) = parts::answer(alloc, cursor, step) {
            return Some(answer);
        }
        answer_of_octets(alloc, cursor.mode(), cursor.here(), step)
    }

    fn counted_answer<L: Ledger>(
        &self,
        alloc: Global,
        cursor: &mut Cursor<'_>,
        step: &Step<'_>,
        steps: &mut Steps<L>,
    ) -> Option<Result<Fields, DecodeError>> {
        if let Some(answer) = counted::level_answer(alloc, cursor, step, steps) {
            return Some(answer);
        }
        if let Some(answer) = counted::value_answer(alloc, cursor, step, steps) {
            return Some(answer);
        }
        if let Some(answer) = counted::leaf_answer(alloc, cursor, step, steps) {
            return Some(answer);
        }
        if let Some(answer) = gathering::answer(alloc, cursor, step, steps) {
            return Some(answer);
        }
        counted_parts::answer(alloc, cursor, step, steps)
    }
}

fn main(rt: HostRuntime) -> io::Result<()> {
    run(&rt, &Walks { calls: Values })
}
