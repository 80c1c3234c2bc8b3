//! Counted calls that take a part of a certificate.

use crate::shown::{
    algorithm_shown, data_shown, extension_shown, identifier_shown, key_shown, name_shown,
    serial_shown, tag_of, time_shown, validity_shown,
};
use rpki_base::{
    KeyIdentifier, Name, PublicKey, RpkiSignatureAlgorithm, Serial, SignedData, Time, Validity,
    take_algorithm, take_extension_counted,
};
use rpki_der::{Cursor, DecodeError, Steps};
use std::alloc::Global;
use std::sync::ledger::Ledger;
use test_stored::{Fields, Step};

fn identifier_under<L: Ledger>(
    alloc: Global,
    cursor: &mut Cursor<'_>,
    tag: &[u8],
    steps: &mut Steps<L>,
) -> Result<Fields, DecodeError> {
    let tag = tag_of(tag)?;
    identifier_shown(
        alloc,
        KeyIdentifier::take_under_counted(alloc, cursor, tag, steps),
    )
}

fn data<L: Ledger>(
    alloc: Global,
    cursor: &mut Cursor<'_>,
    steps: &mut Steps<L>,
) -> Result<Fields, DecodeError> {
    data_shown(
        alloc,
        SignedData::<RpkiSignatureAlgorithm>::take_from_counted(alloc, cursor, steps),
    )
}

// What a counted call that takes a small part answers; None where the step is none.
fn small_answer<L: Ledger>(
    alloc: Global,
    cursor: &mut Cursor<'_>,
    call: &str,
    steps: &mut Steps<L>,
) -> Option<Result<Fields, DecodeError>> {
    match call {
        "time" => Some(time_shown(alloc, Time::take_from_counted(cursor, steps))),
        "validity" => Some(validity_shown(alloc, Validity::take_from_counted(cursor, steps))),
        "serial" => Some(serial_shown(alloc, Serial::take_from_counted(cursor, steps))),
        "algorithm" => Some(algorithm_shown(
            alloc,
            take_algorithm::<RpkiSignatureAlgorithm, L>(cursor, steps),
        )),
        _ => None,
    }
}

/// What a call of this module answers; None where the step is none.
pub fn answer<L: Ledger>(
    alloc: Global,
    cursor: &mut Cursor<'_>,
    step: &Step<'_>,
    steps: &mut Steps<L>,
) -> Option<Result<Fields, DecodeError>> {
    match step.call {
        "identifier" => Some(identifier_shown(
            alloc,
            KeyIdentifier::take_from_counted(alloc, cursor, steps),
        )),
        "identifier_under" => Some(identifier_under(alloc, cursor, &step.argument, steps)),
        "name" => Some(name_shown(alloc, Name::take_from_counted(alloc, cursor, steps))),
        "key" => Some(key_shown(alloc, PublicKey::take_from_counted(alloc, cursor, steps))),
        "data" => Some(data(alloc, cursor, steps)),
        "extension" => Some(extension_shown(alloc, take_extension_counted(alloc, cursor, steps))),
        call => small_answer(alloc, cursor, call, steps),
    }
}
