//! Octets as terms.

use std::alloc::Global;
use std::io;
use std::io::ErrorKind;

/// The data are not in the form of stored cases.
pub fn invalid() -> io::Error {
    io::Error::from(ErrorKind::InvalidData)
}

/// The text that octets are.
pub fn text_of(octets: &[u8]) -> io::Result<&str> {
    match std::str::from_utf8(octets) {
        Ok(text) => Ok(text),
        Err(_) => Err(invalid()),
    }
}

// A term without its count, and how often it stands there.
fn repeated(term: &str) -> Option<(&str, u32)> {
    match term.split_once('*') {
        Some((digits, count)) => Some((digits, count.parse::<u32>().ok()?)),
        None => Some((term, 1)),
    }
}

fn append_digits(alloc: Global, octets: &mut Vec<u8>, term: &str) -> io::Result<()> {
    let Some((digits, count)) = repeated(term) else {
        return Err(invalid());
    };
    let Ok(unit) = hex::decode(alloc, digits) else {
        return Err(invalid());
    };
    for _ in 0..count {
        octets.extend_from_slice(&unit)?;
    }
    Ok(())
}

fn append(alloc: Global, octets: &mut Vec<u8>, term: &str) -> io::Result<()> {
    match term.strip_prefix('\'') {
        Some(text) => Ok(octets.extend_from_slice(text.as_bytes())?),
        None => append_digits(alloc, octets, term),
    }
}

/// The octets that terms with `|` between them are.
pub fn octets_of(alloc: Global, terms: &str) -> io::Result<Vec<u8>> {
    let mut octets = Vec::new(alloc);
    for term in terms.split('|') {
        append(alloc, &mut octets, term)?;
    }
    Ok(octets)
}
