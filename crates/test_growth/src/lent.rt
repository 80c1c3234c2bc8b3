//! Words and a cursor: what stands in them where memory is refused.

use crate::ended::{Ended, refused, told};
use crate::writers::nested;
use rpki_ca::Words;
use rpki_der::{Cursor, DecodeError, Mode, Tag, take_octets};
use std::alloc::Global;

// ---- words

fn are(words: &Words, kept: &[&str]) -> bool {
    words.len() == kept.len()
        && kept
            .iter()
            .enumerate()
            .all(|(index, word)| words.get(index) == Some(*word))
}

fn push(words: &mut Words, kept: &[&str], word: &str) -> Result<(), Ended> {
    match words.push(word) {
        Ok(()) => Ok(()),
        Err(_) => Err(refused(are(words, kept))),
    }
}

/// Adds words.
pub fn words(alloc: Global) -> Result<(), Ended> {
    let mut words = Words::new(alloc);
    let mut kept = Vec::new(alloc);
    for word in [
        "receive",
        "publication",
        "1700000000",
        "",
        "content",
        "setup",
        "create",
        "provisioning",
        "child_request",
    ] {
        push(&mut words, &kept, word)?;
        kept.push(word)?;
    }
    if are(&words, &kept) {
        return Ok(());
    }
    Err(Ended::Wrong)
}

// ---- a cursor

// Where a cursor is.
#[derive(Clone, Copy, PartialEq, Eq)]
struct Place<'a> {
    here: &'a [u8],
    depth: usize,
}

fn place_of<'a>(cursor: &Cursor<'a>) -> Place<'a> {
    Place {
        here: cursor.here(),
        depth: cursor.depth(),
    }
}

// How a call ends, where the cursor was at this place.
fn answered<T>(
    cursor: &Cursor<'_>,
    before: Place<'_>,
    answer: Result<T, DecodeError>,
) -> Result<T, Ended> {
    match answer {
        Ok(value) => Ok(value),
        Err(DecodeError::OutOfMemory) => Err(refused(place_of(cursor) == before)),
        Err(DecodeError::Malformed) => Err(Ended::Wrong),
    }
}

fn enter(cursor: &mut Cursor<'_>, tag: Tag) -> Result<(), Ended> {
    let before = place_of(cursor);
    let answer = cursor.enter(tag);
    answered(cursor, before, answer)
}

// Where octets can't be taken, nothing is said of where the cursor is.
fn octets(alloc: Global, cursor: &mut Cursor<'_>) -> Result<Vec<u8>, Ended> {
    Ok(take_octets(alloc, cursor, Tag::OCTET_STRING)?)
}

fn leave(cursor: &mut Cursor<'_>) -> Result<(), Ended> {
    if cursor.depth() == 0 {
        return Err(Ended::Wrong);
    }
    let before = place_of(cursor);
    let answer = cursor.leave();
    answered(cursor, before, answer)
}

fn enter_all(cursor: &mut Cursor<'_>) -> Result<(), Ended> {
    for _ in 0..40 {
        enter(cursor, Tag::SEQUENCE)?;
    }
    Ok(())
}

fn leave_all(cursor: &mut Cursor<'_>) -> Result<(), Ended> {
    for _ in 0..40 {
        leave(cursor)?;
    }
    Ok(())
}

// Whether 40 octets stand in so many levels, and nothing behind them.
fn is_passed(alloc: Global, cursor: &mut Cursor<'_>) -> Result<bool, Ended> {
    enter_all(cursor)?;
    if octets(alloc, cursor)?.len() != 40 {
        return Ok(false);
    }
    leave_all(cursor)?;
    Ok(cursor.end())
}

/// Goes into nested values, takes octets in segments there, and goes out again.
pub fn levels(alloc: Global) -> Result<(), Ended> {
    let writer = nested(alloc, 40)?;
    let mut cursor = Cursor::new(alloc, Mode::Ber, writer.as_slice());
    told(is_passed(alloc, &mut cursor))
}

// A string of two segments, of which the first is in segments itself.
const SEGMENTS: [u8; 18] = [
    0x24, 0x80, 0x24, 0x80, 0x04, 0x01, 0x61, 0x04, 0x01, 0x62, 0x00, 0x00, 0x04, 0x01, 0x63, 0x00,
    0x00, 0xff,
];

/// Takes octets that stand in segments.
pub fn segments(alloc: Global) -> Result<(), Ended> {
    let mut cursor = Cursor::new(alloc, Mode::Ber, &SEGMENTS);
    if octets(alloc, &mut cursor)?.as_slice() == b"abc".as_slice() {
        return Ok(());
    }
    Err(Ended::Wrong)
}
