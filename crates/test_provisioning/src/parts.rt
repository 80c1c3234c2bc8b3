//! Parts of messages by themselves: names of classes, kinds, why nothing was done, limits, errors, and the media type.

use crate::answers::{append_copy, append_print, append_str, append_truth, refused, text_of};
use crate::lent::{append_set, append_status};
use rpki_der::DecodeError;
use rpki_provisioning::CONTENT_TYPE;
use rpki_sets::{Blocks, BlocksError, Numbers, ResourceSet};
use rpki_updown::{
    Error, NotPerformedResponse, OutOfMemory, PayloadType, RequestResourceLimit, ResourceClassName,
    XmlError,
};
use std::alloc::Global;
use std::cmp::Ordering;
use test_stored::{Fields, Step};

// ---- names of classes

fn order_name(ordering: Ordering) -> &'static str {
    match ordering {
        Ordering::Less => "less",
        Ordering::Equal => "equal",
        Ordering::Greater => "greater",
    }
}

// Appends what a name prints, whether a copy is equal, whether another is, and in what order the two are.
fn append_names(
    alloc: Global,
    fields: &mut Fields,
    name: &ResourceClassName,
    other: &ResourceClassName,
) -> Result<(), DecodeError> {
    append_print(alloc, fields, name)?;
    append_copy(fields, name.clone(alloc), name)?;
    append_truth(fields, name == other)?;
    append_str(fields, order_name(name.cmp(other)))
}

fn names_shown(
    alloc: Global,
    name: &ResourceClassName,
    other: &ResourceClassName,
) -> Result<Fields, DecodeError> {
    let mut fields = Fields::new(alloc);
    append_names(alloc, &mut fields, name, other)?;
    Ok(fields)
}

fn class_name(alloc: Global, text: &str, other: &str) -> Result<Fields, DecodeError> {
    let name = ResourceClassName::from_str(alloc, text)?;
    let other = ResourceClassName::from_str(alloc, other)?;
    names_shown(alloc, &name, &other)
}

// The names of a number, and of none.
fn class_number(alloc: Global, text: &str) -> Result<Fields, DecodeError> {
    let Ok(number) = text.parse::<u32>() else {
        return Err(DecodeError::Malformed);
    };
    let name = ResourceClassName::from_u32(alloc, number)?;
    let zero = ResourceClassName::default_name(alloc)?;
    names_shown(alloc, &name, &zero)
}

// ---- kinds

// Appends what the cause prints by itself, of a text that is no kind.
fn append_cause(alloc: Global, fields: &mut Fields, error: &Error) -> Result<(), DecodeError> {
    match error {
        Error::InvalidPayloadType(cause) => append_print(alloc, fields, cause),
        _ => Ok(()),
    }
}

fn kind_refused(alloc: Global, error: &Error) -> Result<Fields, DecodeError> {
    let mut fields = refused(alloc, error)?;
    append_cause(alloc, &mut fields, error)?;
    Ok(fields)
}

fn kind_shown(alloc: Global, answer: &Result<PayloadType, Error>) -> Result<Fields, DecodeError> {
    match answer {
        Ok(kind) => {
            let mut fields = Fields::one(alloc, kind.as_str().as_bytes())?;
            append_print(alloc, &mut fields, kind)?;
            Ok(fields)
        }
        Err(error) => kind_refused(alloc, error),
    }
}

// ---- why nothing was done

// What the constructor with this number gives; None where there is none.
fn response_of(alloc: Global, status: &str) -> Option<Result<NotPerformedResponse, OutOfMemory>> {
    match status {
        "1101" => Some(NotPerformedResponse::err_1101(alloc)),
        "1102" => Some(NotPerformedResponse::err_1102(alloc)),
        "1103" => Some(NotPerformedResponse::err_1103(alloc)),
        "1104" => Some(NotPerformedResponse::err_1104(alloc)),
        "1201" => Some(NotPerformedResponse::err_1201(alloc)),
        "1202" => Some(NotPerformedResponse::err_1202(alloc)),
        "1203" => Some(NotPerformedResponse::err_1203(alloc)),
        "1204" => Some(NotPerformedResponse::err_1204(alloc)),
        "1301" => Some(NotPerformedResponse::err_1301(alloc)),
        "1302" => Some(NotPerformedResponse::err_1302(alloc)),
        "2001" => Some(NotPerformedResponse::err_2001(alloc)),
        _ => None,
    }
}

fn response_shown(alloc: Global, response: &NotPerformedResponse) -> Result<Fields, DecodeError> {
    let mut fields = Fields::new(alloc);
    append_status(alloc, &mut fields, response)?;
    append_copy(&mut fields, response.clone(alloc), response)?;
    Ok(fields)
}

fn status(alloc: Global, status: &str) -> Result<Fields, DecodeError> {
    match response_of(alloc, status) {
        Some(response) => response_shown(alloc, &response?),
        None => Err(DecodeError::Malformed),
    }
}

// ---- limits

fn blocks<N: Numbers>(alloc: Global, text: &str) -> Result<Blocks<N>, DecodeError> {
    match Blocks::from_str(alloc, text) {
        Ok(blocks) => Ok(blocks),
        Err(BlocksError::Malformed) => Err(DecodeError::Malformed),
        Err(BlocksError::OutOfMemory) => Err(DecodeError::OutOfMemory),
    }
}

// Three texts with a line feed between each two.
fn three(text: &str) -> Result<(&str, &str, &str), DecodeError> {
    let mut lines = text.split('\n');
    match (lines.next(), lines.next(), lines.next()) {
        (Some(asn), Some(ipv4), Some(ipv6)) => Ok((asn, ipv4, ipv6)),
        _ => Err(DecodeError::Malformed),
    }
}

/// The limit of three texts; nothing is stated by a `-`.
pub fn limit_of(alloc: Global, text: &str) -> Result<RequestResourceLimit, DecodeError> {
    let (asn, ipv4, ipv6) = three(text)?;
    let mut limit = RequestResourceLimit::default();
    if asn != "-" {
        limit.with_asn(blocks(alloc, asn)?);
    }
    if ipv4 != "-" {
        limit.with_ipv4(blocks(alloc, ipv4)?);
    }
    if ipv6 != "-" {
        limit.with_ipv6(blocks(alloc, ipv6)?);
    }
    Ok(limit)
}

/// The set of three texts.
pub fn set_of(alloc: Global, text: &str) -> Result<ResourceSet, DecodeError> {
    let (asn, ipv4, ipv6) = three(text)?;
    let asn = blocks(alloc, asn)?;
    let ipv4 = blocks(alloc, ipv4)?;
    let ipv6 = blocks(alloc, ipv6)?;
    Ok(ResourceSet::new(asn, ipv4, ipv6))
}

fn append_stated<N: Numbers>(
    alloc: Global,
    fields: &mut Fields,
    stated: Option<&Blocks<N>>,
) -> Result<(), DecodeError> {
    match stated {
        Some(stated) => append_print(alloc, fields, stated),
        None => append_str(fields, "-"),
    }
}

// Appends what is stated of each kind, and what is printed of all.
fn append_kinds(
    alloc: Global,
    fields: &mut Fields,
    limit: &RequestResourceLimit,
) -> Result<(), DecodeError> {
    append_stated(alloc, fields, limit.asn())?;
    append_stated(alloc, fields, limit.ipv4())?;
    append_stated(alloc, fields, limit.ipv6())?;
    append_print(alloc, fields, limit)
}

// Appends whether it is no limit, and whether a copy and another are equal.
fn append_equal(
    alloc: Global,
    fields: &mut Fields,
    limit: &RequestResourceLimit,
    other: &RequestResourceLimit,
) -> Result<(), DecodeError> {
    append_truth(fields, limit.is_empty())?;
    append_copy(fields, limit.clone(alloc), limit)?;
    append_truth(fields, limit == other)
}

fn limits_shown(
    alloc: Global,
    limit: &RequestResourceLimit,
    other: &RequestResourceLimit,
) -> Result<Fields, DecodeError> {
    let mut fields = Fields::new(alloc);
    append_kinds(alloc, &mut fields, limit)?;
    append_equal(alloc, &mut fields, limit, other)?;
    Ok(fields)
}

fn limits(alloc: Global, text: &str, other: &str) -> Result<Fields, DecodeError> {
    let limit = limit_of(alloc, text)?;
    let other = limit_of(alloc, other)?;
    limits_shown(alloc, &limit, &other)
}

fn applied_shown(
    alloc: Global,
    answer: &Result<ResourceSet, Error>,
) -> Result<Fields, DecodeError> {
    match answer {
        Ok(set) => {
            let mut fields = Fields::new(alloc);
            append_set(alloc, &mut fields, set)?;
            Ok(fields)
        }
        Err(error) => refused(alloc, error),
    }
}

fn left_shown(
    alloc: Global,
    limit: &RequestResourceLimit,
    set: &ResourceSet,
) -> Result<Fields, DecodeError> {
    let left = limit.apply_to(alloc, set);
    applied_shown(alloc, &left)
}

// What a limit leaves of a set.
fn applied(alloc: Global, text: &str, set: &str) -> Result<Fields, DecodeError> {
    let limit = limit_of(alloc, text)?;
    let set = set_of(alloc, set)?;
    left_shown(alloc, &limit, &set)
}

// ---- errors

// Errors as they are printed, of which no text shows the first.
fn errors(alloc: Global) -> Result<Fields, DecodeError> {
    let mut fields = Fields::new(alloc);
    append_print(alloc, &mut fields, &Error::InvalidVersion)?;
    append_print(alloc, &mut fields, &Error::XmlError(XmlError::Malformed))?;
    append_print(alloc, &mut fields, &Error::InvalidCsrSyntax)?;
    append_print(alloc, &mut fields, &Error::CertSyntax)?;
    append_print(alloc, &mut fields, &Error::CmsDecode)?;
    Ok(fields)
}

fn content_type(alloc: Global) -> Result<Fields, DecodeError> {
    Ok(Fields::one(alloc, CONTENT_TYPE.as_bytes())?)
}

/// What a call of this module answers; None where the step is none.
pub fn answer(
    alloc: Global,
    octets: &[u8],
    step: &Step<'_>,
) -> Option<Result<Fields, DecodeError>> {
    let (Ok(text), Ok(argument)) = (text_of(octets), text_of(&step.argument)) else {
        return None;
    };
    match step.call {
        "class_name" => Some(class_name(alloc, text, argument)),
        "class_number" => Some(class_number(alloc, argument)),
        "kind" => Some(kind_shown(alloc, &PayloadType::from_str(alloc, argument))),
        "status" => Some(status(alloc, argument)),
        "limit" => Some(limits(alloc, text, argument)),
        "applied" => Some(applied(alloc, text, argument)),
        "errors" => Some(errors(alloc)),
        "content_type" => Some(content_type(alloc)),
        _ => None,
    }
}
