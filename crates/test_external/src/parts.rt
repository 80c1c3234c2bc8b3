//! What words of a case say, and what is said of a refusal.

use crate::out_of_memory;
use bytes::Bytes;
use rpki_base::PublicKey;
use rpki_ca::Words;
use rpki_external::Answers;
use rpki_text::Hash;
use std::alloc::Global;
use std::fmt::Display;
use std::io;
use test_stored::{Fields, invalid, octets_of};

/// What is said of a refusal.
pub(crate) fn refused<E: Display + Drop>(alloc: Global, error: E) -> io::Result<Fields> {
    let mut fields = Fields::one(alloc, b"refused")?;
    fields.print(alloc, error)?;
    Ok(fields)
}

/// The key that the word at an index spells.
pub(crate) fn key_at(alloc: Global, words: &Words, index: usize) -> io::Result<PublicKey> {
    match words.key(alloc, index) {
        Ok(Some(key)) => Ok(key),
        Ok(None) => Err(invalid()),
        Err(_) => Err(out_of_memory()),
    }
}

/// The keys that the words from an index on spell.
pub(crate) fn keys_from(alloc: Global, words: &Words, index: usize) -> io::Result<Vec<PublicKey>> {
    match words.keys_from(alloc, index) {
        Ok(Some(keys)) => Ok(keys),
        Ok(None) => Err(invalid()),
        Err(_) => Err(out_of_memory()),
    }
}

/// The octets that the word at an index is, as terms.
pub(crate) fn bytes_at(alloc: Global, words: &Words, index: usize) -> io::Result<Bytes> {
    let octets = octets_of(alloc, words.get(index).unwrap_or(""))?;
    Bytes::from_vec(octets).map_err(|_| out_of_memory())
}

/// An answer for each digit of the word at an index.
pub(crate) fn answers_at(alloc: Global, words: &Words, index: usize) -> io::Result<Vec<bool>> {
    let mut answers = Vec::new(alloc);
    for digit in words.get(index).unwrap_or("").as_bytes() {
        answers.push(*digit == b'1')?;
    }
    Ok(answers)
}

/// The answers of two words: the digest of the questions, and digits.
pub(crate) fn bound_answers_at(alloc: Global, words: &Words, index: usize) -> io::Result<Answers> {
    let Some(digest) = Hash::from_str(words.get(index).unwrap_or("")) else {
        return Err(invalid());
    };
    let values = answers_at(alloc, words, index.saturating_add(1))?;
    Ok(Answers::new(digest, values))
}

/// A digit for each truth value.
pub(crate) fn digits_of(alloc: Global, values: &[bool]) -> io::Result<String> {
    let mut digits = String::new(alloc);
    for value in values {
        digits.push_str(if *value { "1" } else { "0" })?;
    }
    Ok(digits)
}
