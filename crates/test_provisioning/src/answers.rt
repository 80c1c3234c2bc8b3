//! What the answers of all calls have in common.

use rpki_der::DecodeError;
use rpki_updown::{Error, OutOfMemory};
use std::alloc::Global;
use std::fmt::Display;
use std::rc::RcStr;
use test_stored::Fields;

/// Appends what a value prints.
pub fn append_print<T: Display>(
    alloc: Global,
    fields: &mut Fields,
    value: &T,
) -> Result<(), DecodeError> {
    let text = format!(in alloc; "{value}")?;
    Ok(fields.octets(text.as_bytes())?)
}

/// Appends a truth value.
pub fn append_truth(fields: &mut Fields, holds: bool) -> Result<(), DecodeError> {
    Ok(fields.octets(&[u8::from(holds)])?)
}

/// Appends whether a copy is equal.
pub fn append_copy<T: PartialEq + Drop>(
    fields: &mut Fields,
    copy: Result<T, OutOfMemory>,
    original: &T,
) -> Result<(), DecodeError> {
    let copy = copy?;
    append_truth(fields, copy == *original)
}

/// Appends a text.
pub fn append_str(fields: &mut Fields, text: &str) -> Result<(), DecodeError> {
    Ok(fields.octets(text.as_bytes())?)
}

/// Appends a text, or `-` where there is none.
pub fn append_text(fields: &mut Fields, text: Option<&RcStr>) -> Result<(), DecodeError> {
    match text {
        Some(text) => append_str(fields, text.as_str()),
        None => append_str(fields, "-"),
    }
}

// The name of an error of which no standard says what it prints.
fn name_of(error: &Error) -> Option<&'static str> {
    match error {
        Error::Read => Some("Read"),
        Error::Write => Some("Write"),
        Error::TooLong => Some("TooLong"),
        _ => None,
    }
}

/// A refusal, as what is printed, or as the error's name.
pub fn refused(alloc: Global, error: &Error) -> Result<Fields, DecodeError> {
    if matches!(error, Error::OutOfMemory) {
        return Err(DecodeError::OutOfMemory);
    }
    let mut fields = Fields::one(alloc, b"refused")?;
    match name_of(error) {
        Some(name) => append_str(&mut fields, name)?,
        None => append_print(alloc, &mut fields, error)?,
    }
    Ok(fields)
}

/// The text that an argument is.
pub fn text_of(argument: &[u8]) -> Result<&str, DecodeError> {
    match std::str::from_utf8(argument) {
        Ok(text) => Ok(text),
        Err(_) => Err(DecodeError::Malformed),
    }
}

/// The number that a text is.
pub fn number_of(text: &str) -> Result<u64, DecodeError> {
    match text.parse::<u64>() {
        Ok(number) => Ok(number),
        Err(_) => Err(DecodeError::Malformed),
    }
}
