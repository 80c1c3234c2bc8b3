//! What octets are as one of the four messages, as the fields of an answer.

use crate::messages::SetupMessage;
use rpki_base::Time;
use rpki_der::DecodeError;
use rpki_idcert::IdCert;
use rpki_setup::{Error, validate_idcert_at};
use rpki_signer::ToyVerifier;
use rpki_text::{Base64, MemorySink, MemorySource};
use std::alloc::Global;
use std::rc::RcStr;
use test_stored::Fields;

/// A refusal, as what is printed.
pub fn refused(alloc: Global, error: Error) -> Result<Fields, DecodeError> {
    match error {
        Error::OutOfMemory => Err(DecodeError::OutOfMemory),
        _ => {
            let mut fields = Fields::one(alloc, b"refused")?;
            fields.print(alloc, error)?;
            Ok(fields)
        }
    }
}

/// Appends a text, or `-` where there is none.
pub fn append_text(fields: &mut Fields, text: Option<&RcStr>) -> Result<(), DecodeError> {
    match text {
        Some(text) => Ok(fields.octets(text.as_str().as_bytes())?),
        None => Ok(fields.octets(b"-")?),
    }
}

// What is written to a sink that takes a hundred octets a call.
fn sunk<M: SetupMessage>(alloc: Global, message: &M) -> Result<MemorySink, DecodeError> {
    let mut sink = MemorySink::new(alloc, 1 << 20, 100, &[])?;
    match message.sink(alloc, &mut sink) {
        Ok(()) => Ok(sink),
        Err(_) => Err(DecodeError::OutOfMemory),
    }
}

/// The message as each call writes it, the last time of a copy; what it prints; whether the copy is equal; and the tag.
pub fn shown<M: SetupMessage>(alloc: Global, message: &M) -> Result<Fields, DecodeError> {
    let copy = message.copy(alloc)?;
    let mut fields = Fields::one(alloc, message.text(alloc)?.as_bytes())?;
    fields.octets(sunk(alloc, message)?.written())?;
    fields.octets(&copy.octets(alloc)?)?;
    fields.octets(message.printed(alloc)?.as_bytes())?;
    fields.octets(&[u8::from(copy.is_same(message))])?;
    append_text(&mut fields, message.own_tag())?;
    Ok(fields)
}

/// What is shown of the message that the octets are, read of a source that gives a hundred octets a call; or why they are none.
pub fn written<M: SetupMessage>(alloc: Global, octets: &[u8]) -> Result<Fields, DecodeError> {
    let mut source = MemorySource::new(alloc, octets, 100, &[])?;
    match M::read(alloc, &mut source) {
        Ok(message) => shown(alloc, &message),
        Err(error) => refused(alloc, error),
    }
}

fn moment_of(argument: &[u8]) -> Option<Time> {
    Time::new(std::str::from_utf8(argument).ok()?.parse::<i64>().ok()?)
}

fn anchor_shown(alloc: Global, believed: Result<IdCert, Error>) -> Result<Fields, DecodeError> {
    match believed {
        Ok(certificate) => Ok(Fields::one(alloc, certificate.to_bytes(alloc)?.as_slice())?),
        Err(error) => refused(alloc, error),
    }
}

fn anchor_of<M: SetupMessage>(
    alloc: Global,
    message: &M,
    argument: &[u8],
) -> Result<Fields, DecodeError> {
    match moment_of(argument) {
        Some(when) => anchor_shown(alloc, message.believed(alloc, when)),
        None => Err(DecodeError::Malformed),
    }
}

/// The octets of the trust anchor in the message that the octets are, believed at the moment.
pub fn anchor<M: SetupMessage>(
    alloc: Global,
    octets: &[u8],
    argument: &[u8],
) -> Result<Fields, DecodeError> {
    match M::read_slice(alloc, octets) {
        Ok(message) => anchor_of(alloc, &message, argument),
        Err(error) => refused(alloc, error),
    }
}

/// The octets of a certificate by itself, accepted as a trust anchor's at the moment; or why it isn't.
pub fn certificate(alloc: Global, octets: &[u8], argument: &[u8]) -> Result<Fields, DecodeError> {
    let text = Base64::from_content(alloc, octets)?;
    let Some(when) = moment_of(argument) else {
        return Err(DecodeError::Malformed);
    };
    anchor_shown(
        alloc,
        validate_idcert_at(alloc, &text, &ToyVerifier::new(), when),
    )
}
