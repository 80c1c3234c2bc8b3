//! Messages that rpki_vectors builds.

use rpki_vectors::{BuildError, Parts, build};
use std::alloc::Global;
use std::io;
use std::io::ErrorKind;
use test_stored::{invalid, octets_of};

/// What a field of octets says, in which `-` is none.
pub fn text_of(field: &str) -> &str {
    if field == "-" { "" } else { field }
}

/// The numbers that a field lists.
pub fn numbers_of(alloc: Global, field: &str) -> io::Result<Vec<u64>> {
    let mut numbers = Vec::new(alloc);
    if field == "-" {
        return Ok(numbers);
    }
    for word in field.split(',') {
        let Ok(number) = word.parse::<u64>() else {
            return Err(invalid());
        };
        numbers.push(number)?;
    }
    Ok(numbers)
}

fn parts_of(alloc: Global, words: &[&str]) -> io::Result<Parts> {
    let [moment, seed, revoked, content, ..] = words else {
        return Err(invalid());
    };
    let (Ok(moment), Ok(seed)) = (moment.parse::<i64>(), seed.parse::<u64>()) else {
        return Err(invalid());
    };
    Ok(Parts {
        content: octets_of(alloc, text_of(content))?,
        moment,
        seed,
        revoked: numbers_of(alloc, revoked)?,
    })
}

/// Whether the parts behind two words of a line are built as the message in the last word, or refused where that is `moment`.
pub fn holds(alloc: Global, line: &str) -> io::Result<bool> {
    let mut words = Vec::new(alloc);
    for word in line.split_whitespace().skip(2) {
        words.push(word)?;
    }
    let expected = words.last().copied().unwrap_or("");
    match build(alloc, &parts_of(alloc, &words)?) {
        Ok(message) => Ok(message.as_slice() == octets_of(alloc, expected)?.as_slice()),
        Err(BuildError::Moment) => Ok(expected == "moment"),
        Err(BuildError::OutOfMemory) => Err(io::Error::from(ErrorKind::OutOfMemory)),
    }
}
