//! Errors, parts and refusals, as they are printed.

use rpki_base::{SignatureVerificationError, Time, ValidationError, ValidationKind};
use rpki_ca::{ReceiveError, Refusal, Words};
use rpki_common::OutOfMemory;
use rpki_der::DecodeError;
use rpki_external::{
    AnsweredError, AnswersError, KeysRefusal, Part, PrepareError, SetupError, VerifyError,
};
use rpki_text::uri;
use std::alloc::Global;
use std::fmt::{Debug, Display};
use std::io;
use test_stored::{Fields, invalid};

const PARTS: [Part; 5] = [
    Part::Attributes,
    Part::Certificate,
    Part::Crl,
    Part::Anchor,
    Part::Request,
];

const FAILED: ValidationError = ValidationError {
    kind: ValidationKind::Verification,
    check: 8,
};

const ANSWERS_ERRORS: [AnswersError; 3] = [
    AnswersError::OtherQuestions,
    AnswersError::Number,
    AnswersError::OutOfMemory,
];

const PREPARE_ERRORS: [PrepareError; 6] = [
    PrepareError::Moment,
    PrepareError::TooLong,
    PrepareError::IncompatibleKey,
    PrepareError::KeyReused,
    PrepareError::Uri(uri::Error::TooLong),
    PrepareError::OutOfMemory,
];

const VERIFY_ERRORS: [VerifyError; 5] = [
    VerifyError::OtherQuestions,
    VerifyError::Number,
    VerifyError::Validation(FAILED),
    VerifyError::Signature,
    VerifyError::OutOfMemory,
];

const SETUP_ERRORS: [SetupError; 4] = [
    SetupError::XmlError,
    SetupError::InvalidTaCertEncoding,
    SetupError::Verify(VerifyError::Number),
    SetupError::OutOfMemory,
];

fn time(seconds: i64) -> io::Result<Time> {
    match Time::new(seconds) {
        Some(time) => Ok(time),
        None => Err(invalid()),
    }
}

fn answered_errors() -> io::Result<[AnsweredError; 7]> {
    Ok([
        AnsweredError::OtherQuestions,
        AnsweredError::Number,
        AnsweredError::from(ReceiveError::CmsDecode),
        AnsweredError::from(ReceiveError::Validation(FAILED)),
        AnsweredError::from(ReceiveError::OutOfMemory),
        AnsweredError::NoTime,
        AnsweredError::Replayed {
            last: time(1_700_000_000)?,
            seen: time(0)?,
        },
    ])
}

fn refusals() -> io::Result<[KeysRefusal; 6]> {
    Ok([
        KeysRefusal::from(Refusal::Hex),
        KeysRefusal::from(OutOfMemory),
        KeysRefusal::OtherQuestions,
        KeysRefusal::Signature,
        KeysRefusal::NoTime,
        KeysRefusal::Replayed {
            last: time(253_402_300_799)?,
            seen: time(0)?,
        },
    ])
}

// Each value of the list, printed and shown.
fn printed_each<T: Display + Debug>(alloc: Global, list: &[T]) -> io::Result<Fields> {
    let mut fields = Fields::new(alloc);
    for value in list {
        let text = format!(in alloc; "{value} {value:?}")?;
        fields.octets(text.as_bytes())?;
    }
    Ok(fields)
}

// What errors are passed on as.
fn passed_on(alloc: Global) -> io::Result<Fields> {
    let mut text = format!(in alloc; "{:?}", PrepareError::from(OutOfMemory))?;
    for error in [uri::Error::TooLong, uri::Error::OutOfMemory] {
        text.push_str(format!(in alloc; " {:?}", PrepareError::from(error))?.as_str())?;
    }
    for error in [DecodeError::Malformed, DecodeError::OutOfMemory] {
        text.push_str(format!(in alloc; " {:?}", AnsweredError::from(error))?.as_str())?;
    }
    for error in ANSWERS_ERRORS {
        text.push_str(format!(in alloc; " {:?}", AnsweredError::from(error))?.as_str())?;
        text.push_str(format!(in alloc; " {:?}", VerifyError::from(error))?.as_str())?;
    }
    for error in VERIFY_ERRORS {
        text.push_str(format!(in alloc; " {:?}", SetupError::from(error))?.as_str())?;
    }
    Ok(Fields::one(alloc, text.as_bytes())?)
}

// What want of memory, a failed check and a signature that doesn't hold are passed on as.
fn passed_on_alone(alloc: Global) -> io::Result<Fields> {
    let text = format!(in alloc;
        "{:?} {:?} {:?} {:?} {:?} {:?}",
        AnswersError::from(OutOfMemory),
        AnsweredError::from(OutOfMemory),
        VerifyError::from(OutOfMemory),
        VerifyError::from(FAILED),
        VerifyError::from(SignatureVerificationError),
        SetupError::from(OutOfMemory)
    )?;
    Ok(Fields::one(alloc, text.as_bytes())?)
}

// Appends the refusal, its status and its line.
fn push_refusal(alloc: Global, fields: &mut Fields, refusal: KeysRefusal) -> io::Result<()> {
    let line = refusal.line();
    let text = format!(in alloc; "{refusal} {} {}", refusal.status(), line.as_str())?;
    fields.octets(text.as_bytes())?;
    Ok(())
}

// The refusals, each printed, with its status and its line.
fn refusal_lines(alloc: Global) -> io::Result<Fields> {
    let mut fields = Fields::new(alloc);
    for refusal in refusals()? {
        push_refusal(alloc, &mut fields, refusal)?;
    }
    Ok(fields)
}

// The refusals that the errors of the lists are.
fn refused_as(alloc: Global) -> io::Result<Fields> {
    let mut fields = Fields::new(alloc);
    for error in PREPARE_ERRORS {
        fields.print(alloc, KeysRefusal::from(error))?;
    }
    for error in answered_errors()? {
        fields.print(alloc, KeysRefusal::from(error))?;
    }
    for error in VERIFY_ERRORS {
        fields.print(alloc, KeysRefusal::from(error))?;
    }
    for error in SETUP_ERRORS {
        fields.print(alloc, KeysRefusal::from(error))?;
    }
    Ok(fields)
}

// A digit for each value of the list: whether the first is equal to it.
fn equal_to<T: PartialEq>(alloc: Global, value: &T, list: &[T]) -> io::Result<String> {
    let mut digits = String::new(alloc);
    for other in list {
        digits.push_str(if value == other { "1" } else { "0" })?;
    }
    Ok(digits)
}

// For each value of the list a field: a digit for each of them, whether it is equal to that value.
fn equal<T: PartialEq>(alloc: Global, list: &[T]) -> io::Result<Fields> {
    let mut fields = Fields::new(alloc);
    for value in list {
        let digits = equal_to(alloc, value, list)?;
        fields.octets(digits.as_bytes())?;
    }
    Ok(fields)
}

/// What the word names, printed and shown, or as what it is passed on, or which of it are equal.
pub(crate) fn printed(alloc: Global, words: &Words) -> io::Result<Fields> {
    match words.get(0) {
        Some("parts") => printed_each(alloc, &PARTS),
        Some("answers") => printed_each(alloc, &ANSWERS_ERRORS),
        Some("answered") => printed_each(alloc, &answered_errors()?),
        Some("prepare") => printed_each(alloc, &PREPARE_ERRORS),
        Some("verify") => printed_each(alloc, &VERIFY_ERRORS),
        Some("setup") => printed_each(alloc, &SETUP_ERRORS),
        Some("passed-on") => passed_on(alloc),
        Some("passed-on-alone") => passed_on_alone(alloc),
        Some("refusals") => refusal_lines(alloc),
        Some("refused-as") => refused_as(alloc),
        Some("equal-parts") => equal(alloc, &PARTS),
        Some("equal-answers") => equal(alloc, &ANSWERS_ERRORS),
        Some("equal-answered") => equal(alloc, &answered_errors()?),
        Some("equal-prepare") => equal(alloc, &PREPARE_ERRORS),
        Some("equal-verify") => equal(alloc, &VERIFY_ERRORS),
        Some("equal-setup") => equal(alloc, &SETUP_ERRORS),
        Some("equal-refusals") => equal(alloc, &refusals()?),
        _ => Err(invalid()),
    }
}
