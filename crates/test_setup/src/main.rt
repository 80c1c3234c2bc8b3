//! Calls `rpki_setup` on stored cases, and says how many answers differ from the expected.
//!
//! A line of data/cases.txt is `NAME ber OCTETS STEP..`, run twice; no call is counted. setup_cases.py writes the file, and says
//! what the calls are.
#![tactic(auto)]

mod four;
mod made;
mod messages;
mod uris;

use rpki_der::{Cursor, DecodeError, Steps};
use rpki_setup::{ChildRequest, ParentResponse, PublisherRequest, RepositoryResponse};
use std::alloc::Global;
use std::io;
use std::sync::ledger::Ledger;
use test_stored::{Calls, Fields, Step, Walks, run};

// What the octets are as the message that a step names; None where it names none.
fn of_message(
    alloc: Global,
    octets: &[u8],
    step: &Step<'_>,
) -> Option<Result<Fields, DecodeError>> {
    match step.call {
        "child_request" => Some(four::written::<ChildRequest>(alloc, octets)),
        "parent_response" => Some(four::written::<ParentResponse>(alloc, octets)),
        "publisher_request" => Some(four::written::<PublisherRequest>(alloc, octets)),
        "repository_response" => Some(four::written::<RepositoryResponse>(alloc, octets)),
        _ => None,
    }
}

// What comes of the trust anchor in the message that a step names, at a moment; None where it names none.
fn of_anchor(alloc: Global, octets: &[u8], step: &Step<'_>) -> Option<Result<Fields, DecodeError>> {
    let moment = &step.argument;
    match step.call {
        "child_anchor" => Some(four::anchor::<ChildRequest>(alloc, octets, moment)),
        "parent_anchor" => Some(four::anchor::<ParentResponse>(alloc, octets, moment)),
        "publisher_anchor" => Some(four::anchor::<PublisherRequest>(alloc, octets, moment)),
        "repository_anchor" => Some(four::anchor::<RepositoryResponse>(alloc, octets, moment)),
        _ => None,
    }
}

struct Setups;

impl Calls for Setups {
    fn answer(
        &self,
        alloc: Global,
        cursor: &mut Cursor<'_>,
        step: &Step<'_>,
    ) -> Option<Result<Fields, DecodeError>> {
        let octets = cursor.here();
        if let Some(answer) = of_message(alloc, octets, step) {
            return Some(answer);
        }
        if let Some(answer) = of_anchor(alloc, octets, step) {
            return Some(answer);
        }
        if let Some(answer) = made::answer(alloc, octets, step) {
            return Some(answer);
        }
        uris::answer(alloc, octets, step)
    }

    fn counted_answer<L: Ledger>(
        &self,
        _alloc: Global,
        _cursor: &mut Cursor<'_>,
        _step: &Step<'_>,
        _steps: &mut Steps<L>,
    ) -> Option<Result<Fields, DecodeError>> {
        None
    }
}

fn main(rt: HostRuntime) -> io::Result<()> {
    run(&rt, &Walks { calls: Setups })
}
