//! Counted calls: levels, whole values and leaves.

use crate::leaves::small;
use crate::shown::{
    bits_shown, done_shown, item_shown, number_shown, octets_shown, optional_item, optional_truth,
    tag_of, truth_shown,
};
use rpki_der::{
    Cursor, DecodeError, Steps, pass_rest_counted, take_bits_counted, take_boolean_counted,
    take_integer_counted, take_integer_if_counted, take_octets_counted, take_oid_counted,
    take_oid_if_counted, take_opt_boolean_counted, take_opt_null_counted, take_rest_counted,
    take_u64_counted,
};
use std::alloc::Global;
use std::sync::ledger::Ledger;
use test_stored::{Fields, Step};

fn enter<L: Ledger>(
    alloc: Global,
    cursor: &mut Cursor<'_>,
    tag: &[u8],
    steps: &mut Steps<L>,
) -> Result<Fields, DecodeError> {
    let tag = tag_of(tag)?;
    done_shown(alloc, cursor.enter_counted(tag, steps))
}

fn leave<L: Ledger>(
    alloc: Global,
    cursor: &mut Cursor<'_>,
    steps: &mut Steps<L>,
) -> Result<Fields, DecodeError> {
    if cursor.depth() == 0 {
        return Err(DecodeError::Malformed);
    }
    done_shown(alloc, cursor.leave_counted(steps))
}

fn descend<L: Ledger>(
    alloc: Global,
    cursor: &mut Cursor<'_>,
    tag: &[u8],
    steps: &mut Steps<L>,
) -> Result<Fields, DecodeError> {
    let tag = tag_of(tag)?;
    for count in 0..u64::MAX {
        match cursor.enter_counted(tag, steps) {
            Ok(()) => {}
            Err(DecodeError::Malformed) => return Ok(Fields::number(alloc, count)?),
            Err(error) => return Err(error),
        }
    }
    Err(DecodeError::Malformed)
}

fn ascend<L: Ledger>(
    alloc: Global,
    cursor: &mut Cursor<'_>,
    steps: &mut Steps<L>,
) -> Result<Fields, DecodeError> {
    for count in 0..u64::MAX {
        if cursor.depth() == 0 || !cursor.end() {
            return Ok(Fields::number(alloc, count)?);
        }
        cursor.leave_counted(steps)?;
    }
    Err(DecodeError::Malformed)
}

fn leave_since<L: Ledger>(
    alloc: Global,
    cursor: &mut Cursor<'_>,
    values: &[u8],
    steps: &mut Steps<L>,
) -> Result<Fields, DecodeError> {
    let start = cursor.here();
    for _ in values {
        cursor.capture_counted(steps)?;
    }
    let mut fields = Fields::one(alloc, cursor.since(start))?;
    if cursor.depth() == 0 {
        return Err(DecodeError::Malformed);
    }
    fields.octets(cursor.leave_since_counted(start, steps)?)?;
    Ok(fields)
}

fn rest<L: Ledger>(
    alloc: Global,
    cursor: &mut Cursor<'_>,
    steps: &mut Steps<L>,
) -> Result<Fields, DecodeError> {
    if cursor.depth() == 0 {
        return Err(DecodeError::Malformed);
    }
    octets_shown(alloc, take_rest_counted(cursor, steps))
}

fn pass<L: Ledger>(
    alloc: Global,
    cursor: &mut Cursor<'_>,
    steps: &mut Steps<L>,
) -> Result<Fields, DecodeError> {
    if cursor.depth() == 0 {
        return Err(DecodeError::Malformed);
    }
    done_shown(alloc, pass_rest_counted(cursor, steps))
}

/// What a counted call that goes through levels answers; None where the step is none.
pub fn level_answer<L: Ledger>(
    alloc: Global,
    cursor: &mut Cursor<'_>,
    step: &Step<'_>,
    steps: &mut Steps<L>,
) -> Option<Result<Fields, DecodeError>> {
    match step.call {
        "enter" => Some(enter(alloc, cursor, &step.argument, steps)),
        "leave" => Some(leave(alloc, cursor, steps)),
        "descend" => Some(descend(alloc, cursor, &step.argument, steps)),
        "ascend" => Some(ascend(alloc, cursor, steps)),
        "leave_since" => Some(leave_since(alloc, cursor, &step.argument, steps)),
        "rest" => Some(rest(alloc, cursor, steps)),
        "pass" => Some(pass(alloc, cursor, steps)),
        _ => None,
    }
}

fn primitive<L: Ledger>(
    alloc: Global,
    cursor: &mut Cursor<'_>,
    tag: &[u8],
    steps: &mut Steps<L>,
) -> Result<Fields, DecodeError> {
    let tag = tag_of(tag)?;
    octets_shown(alloc, cursor.take_primitive_counted(tag, steps))
}

fn item<L: Ledger>(
    alloc: Global,
    cursor: &mut Cursor<'_>,
    tag: &[u8],
    steps: &mut Steps<L>,
) -> Result<Fields, DecodeError> {
    let tag = tag_of(tag)?;
    item_shown(alloc, cursor.take_if_counted(tag, steps))
}

fn optional<L: Ledger>(
    alloc: Global,
    cursor: &mut Cursor<'_>,
    tag: &[u8],
    steps: &mut Steps<L>,
) -> Result<Fields, DecodeError> {
    let tag = tag_of(tag)?;
    optional_item(alloc, cursor.take_opt_if_counted(tag, steps))
}

/// What a counted call that takes a whole value answers; None where the step is none.
pub fn value_answer<L: Ledger>(
    alloc: Global,
    cursor: &mut Cursor<'_>,
    step: &Step<'_>,
    steps: &mut Steps<L>,
) -> Option<Result<Fields, DecodeError>> {
    match step.call {
        "primitive" => Some(primitive(alloc, cursor, &step.argument, steps)),
        "capture" => Some(octets_shown(alloc, cursor.capture_counted(steps))),
        "next" => Some(optional_item(alloc, cursor.next_value_counted(steps))),
        "item" => Some(item(alloc, cursor, &step.argument, steps)),
        "optional" => Some(optional(alloc, cursor, &step.argument, steps)),
        _ => None,
    }
}

fn octets<L: Ledger>(
    alloc: Global,
    cursor: &mut Cursor<'_>,
    tag: &[u8],
    steps: &mut Steps<L>,
) -> Result<Fields, DecodeError> {
    let octets = take_octets_counted(alloc, cursor, tag_of(tag)?, steps)?;
    Ok(Fields::one(alloc, &octets)?)
}

fn integer_if<L: Ledger>(
    alloc: Global,
    cursor: &mut Cursor<'_>,
    wanted: &[u8],
    steps: &mut Steps<L>,
) -> Result<Fields, DecodeError> {
    let wanted = small(wanted)?;
    done_shown(alloc, take_integer_if_counted(cursor, wanted, steps))
}

// What a counted call answers that takes a truth value, a number or a NULL; None where the step is none.
fn plain_answer<L: Ledger>(
    alloc: Global,
    cursor: &mut Cursor<'_>,
    call: &str,
    steps: &mut Steps<L>,
) -> Option<Result<Fields, DecodeError>> {
    match call {
        "boolean" => Some(truth_shown(alloc, take_boolean_counted(cursor, steps))),
        "optional_boolean" => Some(optional_truth(alloc, take_opt_boolean_counted(cursor, steps))),
        "u64" => Some(number_shown(alloc, take_u64_counted(cursor, steps))),
        "null" => Some(truth_shown(alloc, take_opt_null_counted(cursor, steps))),
        _ => None,
    }
}

/// What a counted call that takes a leaf answers; None where the step is none.
pub fn leaf_answer<L: Ledger>(
    alloc: Global,
    cursor: &mut Cursor<'_>,
    step: &Step<'_>,
    steps: &mut Steps<L>,
) -> Option<Result<Fields, DecodeError>> {
    match step.call {
        "octets" => Some(octets(alloc, cursor, &step.argument, steps)),
        "oid" => Some(octets_shown(alloc, take_oid_counted(cursor, steps))),
        "oid_if" => Some(done_shown(alloc, take_oid_if_counted(cursor, &step.argument, steps))),
        "bits" => Some(bits_shown(alloc, take_bits_counted(cursor, steps))),
        "integer" => Some(octets_shown(alloc, take_integer_counted(cursor, steps))),
        "integer_if" => Some(integer_if(alloc, cursor, &step.argument, steps)),
        call => plain_answer(alloc, cursor, call, steps),
    }
}
