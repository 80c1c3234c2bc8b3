//! Calls that take a part of a certificate from a cursor.

use crate::shown::{
    data_shown, identifier_shown, key_shown, name_shown, serial_shown, tag_of, time_shown,
    validity_shown,
};
use rpki_base::{
    KeyIdentifier, Name, PublicKey, RpkiSignatureAlgorithm, Serial, SignedData, Time, Validity,
};
use rpki_der::{Cursor, DecodeError};
use std::alloc::Global;
use test_stored::{Fields, Step};

fn identifier_under(
    alloc: Global,
    cursor: &mut Cursor<'_>,
    tag: &[u8],
) -> Result<Fields, DecodeError> {
    let tag = tag_of(tag)?;
    identifier_shown(alloc, KeyIdentifier::take_under(alloc, cursor, tag))
}

fn data(alloc: Global, cursor: &mut Cursor<'_>) -> Result<Fields, DecodeError> {
    data_shown(
        alloc,
        SignedData::<RpkiSignatureAlgorithm>::take_from(alloc, cursor),
    )
}

/// What a call of this module answers; None where the step is none.
pub fn answer(
    alloc: Global,
    cursor: &mut Cursor<'_>,
    step: &Step<'_>,
) -> Option<Result<Fields, DecodeError>> {
    match step.call {
        "time" => Some(time_shown(alloc, Time::take_from(cursor))),
        "validity" => Some(validity_shown(alloc, Validity::take_from(cursor))),
        "serial" => Some(serial_shown(alloc, Serial::take_from(cursor))),
        "identifier" => Some(identifier_shown(alloc, KeyIdentifier::take_from(alloc, cursor))),
        "identifier_under" => Some(identifier_under(alloc, cursor, &step.argument)),
        "name" => Some(name_shown(alloc, Name::take_from(alloc, cursor))),
        "key" => Some(key_shown(alloc, PublicKey::take_from(alloc, cursor))),
        "data" => Some(data(alloc, cursor)),
        _ => None,
    }
}
