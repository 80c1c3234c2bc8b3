//! Reads, writes, compares, makes, decodes, checks and creates the messages of the provisioning protocol of stored cases, and says how many
//! answers differ from the expected.
//!
//! A line of data/cases.txt is `NAME ber OCTETS STEP..`, run twice, the second time by the counted calls. tools/cases/provisioning_cases.py
//! writes the file, by the formats and the rules of the toy scheme alone, and says what the calls are.
#![tactic(auto)]

mod answers;
mod copies;
mod creating;
mod handed;
mod lent;
mod made;
mod parts;
mod signed;
mod texts;

use rpki_der::{Cursor, DecodeError, Steps};
use rpki_provisioning::{Message, ProvisioningCms};
use rpki_updown::Error;
use std::alloc::Global;
use std::io;
use std::sync::ledger::Ledger;
use test_stored::{Calls, Fields, Step, Walks, run};

// What is asked of what a text was read as; None where the step is none of these.
fn of_read(
    alloc: Global,
    octets: &[u8],
    read: &Result<Message, Error>,
    step: &Step<'_>,
) -> Option<Result<Fields, DecodeError>> {
    let argument = &step.argument;
    match step.call {
        "text" => Some(texts::text(alloc, octets, read)),
        "equal" => Some(texts::equal(alloc, read, argument)),
        "lent" => Some(lent::lent(alloc, read)),
        "handed" => Some(handed::handed(alloc, read)),
        "copies" => Some(copies::copies(alloc, read)),
        "issued" => Some(handed::issued(alloc, read, argument)),
        "granted" => Some(handed::granted(alloc, read)),
        "created" => Some(creating::created_of(alloc, read, argument)),
        _ => None,
    }
}

// What is asked of a text; None where the step is none of these.
fn of_text(alloc: Global, octets: &[u8], step: &Step<'_>) -> Option<Result<Fields, DecodeError>> {
    match step.call {
        "source" => Some(texts::read_of(alloc, octets, &step.argument)),
        "sink" => Some(texts::written_to(alloc, octets, &step.argument)),
        _ => {
            let read = Message::decode_slice(alloc, octets);
            of_read(alloc, octets, &read, step)
        }
    }
}

// A text that is read by the counted call.
fn text_counted<L: Ledger>(
    alloc: Global,
    octets: &[u8],
    steps: &mut Steps<L>,
) -> Result<Fields, DecodeError> {
    let read = Message::decode_slice_counted(alloc, octets, steps);
    texts::text(alloc, octets, &read)
}

// A signed message that is decoded by the counted call.
fn decoded_counted<L: Ledger>(
    alloc: Global,
    octets: &[u8],
    steps: &mut Steps<L>,
) -> Result<Fields, DecodeError> {
    let decoded = ProvisioningCms::decode_counted(alloc, octets, steps);
    signed::decoded(alloc, &decoded)
}

struct Provisionings;

impl Calls for Provisionings {
    fn answer(
        &self,
        alloc: Global,
        cursor: &mut Cursor<'_>,
        step: &Step<'_>,
    ) -> Option<Result<Fields, DecodeError>> {
        let octets = cursor.here();
        if let Some(answer) = of_text(alloc, octets, step) {
            return Some(answer);
        }
        if let Some(answer) = signed::answer(alloc, octets, step) {
            return Some(answer);
        }
        if let Some(answer) = made::answer(alloc, octets, step) {
            return Some(answer);
        }
        parts::answer(alloc, octets, step)
    }

    fn counted_answer<L: Ledger>(
        &self,
        alloc: Global,
        cursor: &mut Cursor<'_>,
        step: &Step<'_>,
        steps: &mut Steps<L>,
    ) -> Option<Result<Fields, DecodeError>> {
        let octets = cursor.here();
        match step.call {
            "text" => Some(text_counted(alloc, octets, steps)),
            "decoded" => Some(decoded_counted(alloc, octets, steps)),
            _ => None,
        }
    }
}

fn main(rt: HostRuntime) -> io::Result<()> {
    run(
        &rt,
        &Walks {
            calls: Provisionings,
        },
    )
}
