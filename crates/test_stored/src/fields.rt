//! What a call answers, field by field.

use crate::octets::octets_of;
use rpki_der::DecodeError;
use std::alloc::{AllocError, Global};
use std::fmt::Display;
use std::io;
use std::io::ErrorKind;

/// The fields of an answer, each behind its length.
#[derive(PartialEq, Eq, Drop)]
pub struct Fields {
    octets: Vec<u8>,
}

impl Fields {
    /// No field so far.
    pub fn new(alloc: Global) -> Fields {
        Fields {
            octets: Vec::new(alloc),
        }
    }

    /// One field, for a call that only says that it succeeded.
    pub fn done(alloc: Global) -> Result<Fields, AllocError> {
        Fields::one(alloc, &[])
    }

    /// One field.
    pub fn one(alloc: Global, field: &[u8]) -> Result<Fields, AllocError> {
        let mut fields = Fields::new(alloc);
        fields.octets(field)?;
        Ok(fields)
    }

    /// One field: a truth value, as 1 or 0.
    pub fn truth(alloc: Global, holds: bool) -> Result<Fields, AllocError> {
        Fields::one(alloc, &[u8::from(holds)])
    }

    /// One field: a number below 2^64 in decimal digits.
    pub fn number(alloc: Global, number: u64) -> Result<Fields, AllocError> {
        let mut fields = Fields::new(alloc);
        fields.print(alloc, number)?;
        Ok(fields)
    }

    /// Appends what a value prints, as a field.
    pub fn print<T: Display + Drop>(&mut self, alloc: Global, value: T) -> Result<(), AllocError> {
        let text = format!(in alloc; "{value}")?;
        self.octets(text.as_bytes())
    }

    /// Appends a field.
    pub fn octets(&mut self, field: &[u8]) -> Result<(), AllocError> {
        self.octets.extend_from_slice(&field.len().to_be_bytes())?;
        self.octets.extend_from_slice(field)
    }
}

// The fields that an answer is; None where it is a refusal.
fn fields_of(alloc: Global, answer: &str) -> io::Result<Option<Fields>> {
    if answer == "malformed" {
        return Ok(None);
    }
    let mut fields = Fields::new(alloc);
    if answer == "none" {
        return Ok(Some(fields));
    }
    if answer == "ok" {
        return Ok(Some(Fields::done(alloc)?));
    }
    for field in answer.split(';') {
        fields.octets(&octets_of(alloc, field)?)?;
    }
    Ok(Some(fields))
}

/// Whether a call answered as it has to.
pub fn is_answered(
    alloc: Global,
    answer: Result<Fields, DecodeError>,
    expected: &str,
) -> io::Result<bool> {
    let expected = fields_of(alloc, expected)?;
    match answer {
        Ok(fields) => Ok(expected == Some(fields)),
        Err(DecodeError::Malformed) => Ok(expected == None),
        Err(DecodeError::OutOfMemory) => Err(io::Error::from(ErrorKind::OutOfMemory)),
    }
}
