//! Calls of a cursor: levels, and whole values.

use crate::shown::{done_shown, item_shown, octets_shown, optional_item, tag_of, truth_shown};
use rpki_der::{Cursor, DecodeError};
use std::alloc::Global;
use test_stored::{Fields, Step};

fn enter(alloc: Global, cursor: &mut Cursor<'_>, tag: &[u8]) -> Result<Fields, DecodeError> {
    let tag = tag_of(tag)?;
    done_shown(alloc, cursor.enter(tag))
}

fn leave(alloc: Global, cursor: &mut Cursor<'_>) -> Result<Fields, DecodeError> {
    if cursor.depth() == 0 {
        return Err(DecodeError::Malformed);
    }
    done_shown(alloc, cursor.leave())
}

// Goes in as often as it can: how often that was.
fn descend(alloc: Global, cursor: &mut Cursor<'_>, tag: &[u8]) -> Result<Fields, DecodeError> {
    let tag = tag_of(tag)?;
    for count in 0..u64::MAX {
        match cursor.enter(tag) {
            Ok(()) => {}
            Err(DecodeError::Malformed) => return Ok(Fields::number(alloc, count)?),
            Err(error) => return Err(error),
        }
    }
    Err(DecodeError::Malformed)
}

// Goes out as often as it can: how often that was.
fn ascend(alloc: Global, cursor: &mut Cursor<'_>) -> Result<Fields, DecodeError> {
    for count in 0..u64::MAX {
        if cursor.depth() == 0 || !cursor.end() {
            return Ok(Fields::number(alloc, count)?);
        }
        cursor.leave()?;
    }
    Err(DecodeError::Malformed)
}

fn primitive(alloc: Global, cursor: &mut Cursor<'_>, tag: &[u8]) -> Result<Fields, DecodeError> {
    let tag = tag_of(tag)?;
    octets_shown(alloc, cursor.take_primitive(tag))
}

fn item(alloc: Global, cursor: &mut Cursor<'_>, tag: &[u8]) -> Result<Fields, DecodeError> {
    let tag = tag_of(tag)?;
    item_shown(alloc, cursor.take_if(tag))
}

fn optional(alloc: Global, cursor: &mut Cursor<'_>, tag: &[u8]) -> Result<Fields, DecodeError> {
    let tag = tag_of(tag)?;
    optional_item(alloc, cursor.take_opt_if(tag))
}

fn depth(alloc: Global, cursor: &Cursor<'_>) -> Result<Fields, DecodeError> {
    let mut fields = Fields::new(alloc);
    fields.print(alloc, cursor.depth())?;
    Ok(fields)
}

/// What a call of this module answers; None where the step is none.
pub fn answer(
    alloc: Global,
    cursor: &mut Cursor<'_>,
    step: &Step<'_>,
) -> Option<Result<Fields, DecodeError>> {
    match step.call {
        "enter" => Some(enter(alloc, cursor, &step.argument)),
        "leave" => Some(leave(alloc, cursor)),
        "descend" => Some(descend(alloc, cursor, &step.argument)),
        "ascend" => Some(ascend(alloc, cursor)),
        "primitive" => Some(primitive(alloc, cursor, &step.argument)),
        "capture" => Some(octets_shown(alloc, cursor.capture())),
        "next" => Some(optional_item(alloc, cursor.next_value())),
        "item" => Some(item(alloc, cursor, &step.argument)),
        "optional" => Some(optional(alloc, cursor, &step.argument)),
        "depth" => Some(depth(alloc, cursor)),
        "end" => Some(truth_shown(alloc, Ok(cursor.end()))),
        "here" => Some(octets_shown(alloc, Ok(cursor.here()))),
        _ => None,
    }
}
