//! Decodes and validates stored signed messages, and says how many answers differ from the expected.
//!
//! A line of data/cases.txt is `NAME MODE FORMAT SEED MOMENT EXPECTED MESSAGE`, `NAME built MOMENT SEED REVOKED CONTENT MESSAGE`,
//! `NAME created MOMENT KEY FAILING CONTENT MESSAGE`, `NAME unsigned MOMENT SERIAL CONTENT MESSAGE`,
//! `NAME long MOMENT OCTETS COUNT CONTENT MESSAGE`, `NAME checks FORMAT SEED NUMBER MOMENT DIGITS MESSAGE`, or, run twice, the second time
//! by the counted calls, `NAME DER OCTETS STEP..`, where DER is `der`, `ber` or `both`; message_cases.py, which writes the file by the
//! formats and by the toy rules alone, says what the words are. Of a message that is validated, the view is compared too.
#![tactic(auto)]

mod building;
mod checking;
mod creating;
mod long;
mod reading;
mod unsigned;

use crate::reading::Readings;
use rpki_base::{PublicKey, PublicKeyFormat, Time};
use rpki_idcert::{ValidationError, ValidationKind};
use rpki_sigmsg::{DecodeError, OutOfMemory, SignedMessage, SignedMessageRef};
use rpki_signer::{ToyScheme, ToyVerifier};
use std::alloc::Global;
use std::io;
use std::io::ErrorKind;
use test_stored::{Cases, Walks, invalid, octets_of, run};

#[derive(Drop)]
struct Case<'a> {
    strict: bool,
    format: PublicKeyFormat,
    seed: u64,
    moment: Time,
    expected: &'a str,
    message: &'a str,
}

fn out_of_memory(_: OutOfMemory) -> io::Error {
    io::Error::from(ErrorKind::OutOfMemory)
}

fn format_of(word: &str) -> Option<PublicKeyFormat> {
    match word {
        "rsa" => Some(PublicKeyFormat::Rsa),
        "ec" => Some(PublicKeyFormat::EcdsaP256),
        _ => None,
    }
}

fn strictness_of(word: &str) -> Option<bool> {
    match word {
        "strict" => Some(true),
        "loose" => Some(false),
        _ => None,
    }
}

fn case_of<'a>(line: &'a str) -> Option<Case<'a>> {
    let mut words = line.split_whitespace().skip(1);
    let strict = strictness_of(words.next()?)?;
    let format = format_of(words.next()?)?;
    let seed = words.next()?.parse::<u64>().ok()?;
    let moment = Time::new(words.next()?.parse::<i64>().ok()?)?;
    let expected = words.next()?;
    let message = words.next()?;
    Some(Case {
        strict,
        format,
        seed,
        moment,
        expected,
        message,
    })
}

// The issuer's key: the bits of key 0 of the seed, in the case's format.
fn issuer_key(alloc: Global, case: &Case<'_>) -> Result<PublicKey, OutOfMemory> {
    let key = ToyScheme::key(alloc, case.seed, 0)?;
    PublicKey::new(alloc, case.format, key.bits_bytes().as_slice())
}

// What a validation answered, in the words of the cases.
fn spelled(alloc: Global, answer: Result<(), ValidationError>) -> io::Result<String> {
    let Err(error) = answer else {
        return Ok(format!(in alloc; "ok")?);
    };
    let kind = match error.kind {
        ValidationKind::Inspection => "inspection",
        ValidationKind::Verification => "verification",
    };
    Ok(format!(in alloc; "{kind}-{}", error.check)?)
}

fn stands_in(part: &[u8], octets: &[u8]) -> bool {
    !part.is_empty() && octets.windows(part.len()).any(|window| window == part)
}

// Whether the view has a second CRL exactly where the message has two, and that one stands in the octets.
fn has_second_crl(view: &SignedMessageRef<'_>, message: &SignedMessage, octets: &[u8]) -> bool {
    match view.second_crl() {
        Some(crl) => message.crls().len() == 2 && stands_in(crl, octets),
        None => message.crls().len() == 1,
    }
}

// Whether the view holds an equal message, and each of its parts stands in the octets.
fn is_view_of(
    alloc: Global,
    view: &SignedMessageRef<'_>,
    message: &SignedMessage,
    octets: &[u8],
) -> io::Result<bool> {
    let copied = view.to_message(alloc).map_err(out_of_memory)?;
    let is_equal = copied.content().as_slice() == message.content().as_slice()
        && copied.digest() == message.digest();
    Ok(
        is_equal
            && stands_in(view.content_value(), octets)
            && stands_in(view.certificate(), octets)
            && stands_in(view.crl(), octets)
            && has_second_crl(view, message, octets)
            && stands_in(view.attributes(), octets)
            && stands_in(view.signature_value(), octets),
    )
}

// Whether the message is answered as the case expects, and its view agrees.
fn is_answered(
    alloc: Global,
    case: &Case<'_>,
    message: &SignedMessage,
    view: &SignedMessageRef<'_>,
    octets: &[u8],
) -> io::Result<bool> {
    let key = issuer_key(alloc, case).map_err(out_of_memory)?;
    let answer = message.validate_at(&ToyVerifier::new(), &key, case.moment);
    let answer = spelled(alloc, answer)?;
    Ok(answer.as_str() == case.expected && is_view_of(alloc, view, message, octets)?)
}

// The message that the case's octets begin with, if there is one.
fn message_in(alloc: Global, case: &Case<'_>, octets: &[u8]) -> io::Result<Option<SignedMessage>> {
    match SignedMessage::decode(alloc, octets, case.strict) {
        Ok(message) => Ok(Some(message)),
        Err(DecodeError::Malformed) => Ok(None),
        Err(DecodeError::OutOfMemory) => Err(io::Error::from(ErrorKind::OutOfMemory)),
    }
}

// Whether the view is refused.
fn has_no_view(alloc: Global, case: &Case<'_>, octets: &[u8]) -> bool {
    match SignedMessageRef::decode(alloc, octets, case.strict) {
        Ok(_) => false,
        Err(error) => error == DecodeError::Malformed,
    }
}

// Whether a message that is read is answered as the case expects.
fn is_met(
    alloc: Global,
    case: &Case<'_>,
    message: &SignedMessage,
    octets: &[u8],
) -> io::Result<bool> {
    match SignedMessageRef::decode(alloc, octets, case.strict) {
        Ok(view) => is_answered(alloc, case, message, &view, octets),
        Err(DecodeError::Malformed) => Ok(false),
        Err(DecodeError::OutOfMemory) => Err(io::Error::from(ErrorKind::OutOfMemory)),
    }
}

fn is_as_expected(alloc: Global, case: &Case<'_>, octets: &[u8]) -> io::Result<bool> {
    match message_in(alloc, case, octets)? {
        Some(message) => is_met(alloc, case, &message, octets),
        None => Ok(case.expected == "malformed" && has_no_view(alloc, case, octets)),
    }
}

fn is_validated(alloc: Global, line: &str) -> io::Result<bool> {
    let Some(case) = case_of(line) else {
        return Err(invalid());
    };
    let octets = octets_of(alloc, case.message)?;
    is_as_expected(alloc, &case, &octets)
}

const READINGS: Walks<Readings> = Walks { calls: Readings };

struct Messages;

impl Cases for Messages {
    fn holds(&self, alloc: Global, line: &str) -> io::Result<bool> {
        match line.split_whitespace().nth(1) {
            Some("built") => building::holds(alloc, line),
            Some("checks") => checking::holds(alloc, line),
            Some("created") => creating::holds(alloc, line),
            Some("long") => long::holds(alloc, line),
            Some("unsigned") => unsigned::holds(alloc, line),
            Some("der" | "ber" | "both") => READINGS.holds(alloc, line),
            _ => is_validated(alloc, line),
        }
    }
}

fn main(rt: HostRuntime) -> io::Result<()> {
    run(&rt, &Messages)
}
