//! All checks of stored messages.

use crate::format_of;
use rpki_base::{PublicKey, PublicKeyFormat, Time};
use rpki_sigmsg::{DecodeError, OutOfMemory, SignedMessage};
use rpki_signer::{ToyScheme, ToyVerifier};
use std::alloc::Global;
use std::io;
use std::io::ErrorKind;
use test_stored::{invalid, octets_of};

#[derive(Drop)]
struct Asked<'a> {
    format: PublicKeyFormat,
    seed: u64,
    number: u64,
    moment: Time,
    digits: &'a str,
    message: &'a str,
}

fn asked_of<'a>(line: &'a str) -> Option<Asked<'a>> {
    let mut words = line.split_whitespace().skip(2);
    let format = format_of(words.next()?)?;
    let seed = words.next()?.parse::<u64>().ok()?;
    let number = words.next()?.parse::<u64>().ok()?;
    let moment = Time::new(words.next()?.parse::<i64>().ok()?)?;
    let digits = words.next()?;
    let message = words.next()?;
    Some(Asked {
        format,
        seed,
        number,
        moment,
        digits,
        message,
    })
}

fn issuer_key(alloc: Global, asked: &Asked<'_>) -> Result<PublicKey, OutOfMemory> {
    let key = ToyScheme::key(alloc, asked.seed, asked.number)?;
    PublicKey::new(alloc, asked.format, key.bits_bytes().as_slice())
}

fn digit_of(check: bool) -> u8 {
    if check { b'1' } else { b'0' }
}

// Whether each check is the digit at its place.
fn are_digits(checks: &[bool], digits: &[u8]) -> bool {
    checks.len() == digits.len()
        && checks
            .iter()
            .zip(digits.iter())
            .all(|(check, digit)| digit_of(*check) == *digit)
}

/// Whether the message in the last word has the checks that the word before it says, by the words behind two of a line,
/// `FORMAT SEED NUMBER MOMENT`.
pub fn holds(alloc: Global, line: &str) -> io::Result<bool> {
    let Some(asked) = asked_of(line) else {
        return Err(invalid());
    };
    let octets = octets_of(alloc, asked.message)?;
    let Ok(key) = issuer_key(alloc, &asked) else {
        return Err(io::Error::from(ErrorKind::OutOfMemory));
    };
    match SignedMessage::decode(alloc, &octets, false) {
        Ok(message) => {
            let checks = message.checks_at(&ToyVerifier::new(), &key, asked.moment);
            Ok(are_digits(&checks, asked.digits.as_bytes()))
        }
        Err(DecodeError::Malformed) => Ok(false),
        Err(DecodeError::OutOfMemory) => Err(io::Error::from(ErrorKind::OutOfMemory)),
    }
}
