//! Messages that are created with signatures of one length, which may be too long.

use crate::building::text_of;
use crate::creating::is_written;
use bytes::Bytes;
use rpki_base::{PublicKeyFormat, Time, ToyFault};
use rpki_sigmsg::{CreateError, SignedMessage};
use rpki_signer::{AnyScheme, AnyVerifier, LongSigner, Signer};
use std::alloc::Global;
use std::io;
use std::io::ErrorKind;
use test_stored::{invalid, octets_of};

#[derive(Drop)]
struct Asked<'a> {
    moment: Time,
    octets: usize,
    count: u64,
    content: &'a str,
    expected: &'a str,
}

fn asked_of<'a>(line: &'a str) -> Option<Asked<'a>> {
    let mut words = line.split_whitespace().skip(2);
    let moment = Time::new(words.next()?.parse::<i64>().ok()?)?;
    let octets = words.next()?.parse::<usize>().ok()?;
    let count = words.next()?.parse::<u64>().ok()?;
    let content = text_of(words.next()?);
    let expected = words.next()?;
    Some(Asked {
        moment,
        octets,
        count,
        content,
        expected,
    })
}

fn out_of_memory() -> io::Error {
    io::Error::from(ErrorKind::OutOfMemory)
}

// A signer of seed 1 with the key 0.
fn signer_of(alloc: Global, octets: usize) -> io::Result<LongSigner> {
    let Ok(mut signer) = LongSigner::new(alloc, 1, octets) else {
        return Err(out_of_memory());
    };
    match signer.create_key(alloc, PublicKeyFormat::Rsa) {
        Ok(_) => Ok(signer),
        Err(_) => Err(invalid()),
    }
}

fn made(
    alloc: Global,
    asked: &Asked<'_>,
    signer: &mut LongSigner,
) -> io::Result<Result<SignedMessage, CreateError<ToyFault>>> {
    let octets = octets_of(alloc, asked.content)?;
    let Ok(content) = Bytes::copy_from_slice(alloc, &octets) else {
        return Err(out_of_memory());
    };
    let moment = asked.moment;
    Ok(SignedMessage::create::<AnyScheme, LongSigner>(alloc, content, moment, &0, signer))
}

// Whether all checks of the message hold under the signer's key.
fn is_believed(
    alloc: Global,
    message: &SignedMessage,
    moment: Time,
    signer: &mut LongSigner,
) -> io::Result<bool> {
    match signer.get_key_info(alloc, &0) {
        Ok(key) => Ok(
            message
                .validate_at(&AnyVerifier::new(), &key, moment)
                .is_ok(),
        ),
        Err(_) => Err(invalid()),
    }
}

/// Whether the words behind two of a line, `MOMENT OCTETS COUNT CONTENT`, have the answer in the last word, with signatures of so many
/// octets, of which COUNT are told as too long.
pub fn holds(alloc: Global, line: &str) -> io::Result<bool> {
    let Some(asked) = asked_of(line) else {
        return Err(invalid());
    };
    let mut signer = signer_of(alloc, asked.octets)?;
    let answer = made(alloc, &asked, &mut signer)?;
    if signer.overlong() != asked.count {
        return Ok(false);
    }
    match answer {
        Ok(message) => Ok(
            is_written(alloc, &message, asked.expected)?
                && is_believed(alloc, &message, asked.moment, &mut signer)?,
        ),
        Err(CreateError::OutOfMemory) => Err(out_of_memory()),
        Err(CreateError::TooLong) => Ok(asked.expected == "too_long"),
        Err(_) => Ok(false),
    }
}
