//! Messages that are created with the toy signer.

use crate::building::{numbers_of, text_of};
use bytes::Bytes;
use rpki_base::{PublicKeyFormat, Time, ToyFault};
use rpki_sigmsg::{CreateError, SignedMessage};
use rpki_signer::{Signer, SigningError, ToyScheme, ToySigner};
use std::alloc::Global;
use std::io;
use std::io::ErrorKind;
use test_stored::{invalid, octets_of};

fn out_of_memory() -> io::Error {
    io::Error::from(ErrorKind::OutOfMemory)
}

// A signer of seed 1 with the key 0, whose calls fail that the field lists.
fn signer_of(alloc: Global, failing: &str) -> io::Result<ToySigner> {
    let failing = numbers_of(alloc, failing)?;
    let Ok(mut signer) = ToySigner::new(alloc, 1, &failing) else {
        return Err(out_of_memory());
    };
    match signer.create_key(alloc, PublicKeyFormat::Rsa) {
        Ok(_) => Ok(signer),
        Err(_) => Err(invalid()),
    }
}

// The word of a refusal; None for want of memory.
fn refusal(error: &CreateError<ToyFault>) -> Option<&'static str> {
    match error {
        CreateError::Moment => Some("moment"),
        CreateError::TooLong => Some("too_long"),
        CreateError::KeyReused => Some("key_reused"),
        CreateError::Signing(SigningError::KeyNotFound) => Some("key_not_found"),
        CreateError::Signing(SigningError::IncompatibleKey) => Some("incompatible_key"),
        CreateError::Signing(SigningError::Signer(_)) => Some("signer"),
        _ => None,
    }
}

/// Whether the message is written as these terms say.
pub fn is_written(alloc: Global, message: &SignedMessage, expected: &str) -> io::Result<bool> {
    let Ok(written) = message.to_captured(alloc) else {
        return Err(out_of_memory());
    };
    Ok(written.as_slice() == octets_of(alloc, expected)?.as_slice())
}

// The message of the content under a key that has this number.
fn answer(
    alloc: Global,
    content: &str,
    now: Time,
    key: u64,
    signer: &mut ToySigner,
) -> io::Result<Result<SignedMessage, CreateError<ToyFault>>> {
    let octets = octets_of(alloc, text_of(content))?;
    let Ok(content) = Bytes::copy_from_slice(alloc, &octets) else {
        return Err(out_of_memory());
    };
    Ok(SignedMessage::create::<ToyScheme, ToySigner>(alloc, content, now, &key, signer))
}

/// Whether the words behind two of a line, `MOMENT KEY FAILING CONTENT`, have the answer in the last word.
pub fn holds(alloc: Global, line: &str) -> io::Result<bool> {
    let mut words = line.split_whitespace().skip(2);
    let moment = words.next().and_then(|word| word.parse::<i64>().ok());
    let Some(now) = moment.and_then(Time::new) else {
        return Err(invalid());
    };
    let Some(key) = words.next().and_then(|word| word.parse::<u64>().ok()) else {
        return Err(invalid());
    };
    let mut signer = signer_of(alloc, words.next().unwrap_or("-"))?;
    let content = words.next().unwrap_or("-");
    let expected = words.next().unwrap_or("");
    match answer(alloc, content, now, key, &mut signer)? {
        Ok(message) => is_written(alloc, &message, expected),
        Err(error) => Ok(refusal(&error) == Some(expected)),
    }
}
