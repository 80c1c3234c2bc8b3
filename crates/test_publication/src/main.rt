//! Decodes, checks and receives the messages of the publication protocol of stored cases, and says how many answers differ from the
//! expected.
//!
//! A line of data/cases.txt is `NAME ber OCTETS STEP..`, run twice, the second time by the counted calls. publication_cases.py writes the
//! file, by the formats and the rules of the toy scheme alone, and says what the calls are.
#![tactic(auto)]

mod copied;
mod creating;
mod made;
mod parts;
mod printed;
mod receiving;
mod signed;

use crate::creating::{created, created_again};
use crate::receiving::{
    believed, received, received_any, received_any_counted, received_counted, signed_believed,
};
use crate::signed::{
    checked, message_shown, read_shown, rewritten, signed_shown, whole_shown, written,
};
use rpki_der::{Cursor, DecodeError, Steps};
use rpki_publication::{Message, PublicationCms};
use std::alloc::Global;
use std::io;
use std::sync::ledger::Ledger;
use test_stored::{Calls, Fields, Step, Walks, run};

// What is asked of octets at a moment under keys; None where the step is none of these.
fn of_keys(alloc: Global, octets: &[u8], step: &Step<'_>) -> Option<Result<Fields, DecodeError>> {
    match step.call {
        "received" => Some(received(alloc, octets, &step.argument)),
        "received_any" => Some(received_any(alloc, octets, &step.argument)),
        "believed" => Some(believed(alloc, PublicationCms::decode(alloc, octets), &step.argument)),
        "signed_believed" => Some(signed_believed(
            alloc,
            PublicationCms::decode(alloc, octets),
            &step.argument,
        )),
        _ => None,
    }
}

// What the counted calls answer of octets at a moment under keys; None where the step is none of these.
fn of_keys_counted<L: Ledger>(
    alloc: Global,
    octets: &[u8],
    step: &Step<'_>,
    steps: &mut Steps<L>,
) -> Option<Result<Fields, DecodeError>> {
    match step.call {
        "received" => Some(received_counted(alloc, octets, &step.argument, steps)),
        "received_any" => Some(received_any_counted(alloc, octets, &step.argument, steps)),
        _ => None,
    }
}

// What is asked of a message or of a text; None where the step is none of these.
fn of_octets(alloc: Global, octets: &[u8], step: &Step<'_>) -> Option<Result<Fields, DecodeError>> {
    match step.call {
        "decoded" => Some(whole_shown(alloc, PublicationCms::decode(alloc, octets))),
        "signed" => Some(signed_shown(alloc, PublicationCms::decode(alloc, octets))),
        "message" => Some(message_shown(alloc, PublicationCms::decode(alloc, octets))),
        "rewritten" => Some(rewritten(alloc, PublicationCms::decode(alloc, octets))),
        "checked" => Some(checked(alloc, PublicationCms::decode(alloc, octets), &step.argument)),
        "text" => Some(read_shown(alloc, Message::decode_slice(alloc, octets))),
        "list_query" => Some(written(alloc, &Message::list_query())),
        "success" => Some(written(alloc, &Message::success())),
        _ => None,
    }
}

// What is asked of a text, or of a message that calls put together; None where the step is none of these.
fn of_text(alloc: Global, octets: &[u8], step: &Step<'_>) -> Option<Result<Fields, DecodeError>> {
    match step.call {
        "lent" => Some(parts::lent(alloc, Message::decode_slice(alloc, octets))),
        "handed" => Some(parts::handed(alloc, Message::decode_slice(alloc, octets))),
        "copied" => Some(copied::copied(alloc, Message::decode_slice(alloc, octets))),
        "query" => Some(parts::query(alloc, Message::decode_slice(alloc, octets))),
        "reply" => Some(parts::reply(alloc, Message::decode_slice(alloc, octets))),
        "created" => {
            let read = Message::decode_slice(alloc, octets);
            Some(created_again(alloc, read, &step.argument))
        }
        "created_three" => match made::three(alloc) {
            Ok(message) => Some(created(alloc, message, &step.argument)),
            Err(error) => Some(Err(error)),
        },
        "code" => Some(printed::code(alloc, &step.argument)),
        "errors" => Some(printed::errors(alloc)),
        "copies" => Some(printed::copies(alloc)),
        _ => made::answer(alloc, step.call),
    }
}

struct Publications;

impl Calls for Publications {
    fn answer(
        &self,
        alloc: Global,
        cursor: &mut Cursor<'_>,
        step: &Step<'_>,
    ) -> Option<Result<Fields, DecodeError>> {
        if let Some(answer) = of_octets(alloc, cursor.here(), step) {
            return Some(answer);
        }
        if let Some(answer) = of_text(alloc, cursor.here(), step) {
            return Some(answer);
        }
        of_keys(alloc, cursor.here(), step)
    }

    fn counted_answer<L: Ledger>(
        &self,
        alloc: Global,
        cursor: &mut Cursor<'_>,
        step: &Step<'_>,
        steps: &mut Steps<L>,
    ) -> Option<Result<Fields, DecodeError>> {
        if step.call == "decoded" {
            let decoded = PublicationCms::decode_counted(alloc, cursor.here(), steps);
            return Some(whole_shown(alloc, decoded));
        }
        of_keys_counted(alloc, cursor.here(), step, steps)
    }
}

fn main(rt: HostRuntime) -> io::Result<()> {
    run(
        &rt,
        &Walks {
            calls: Publications,
        },
    )
}
