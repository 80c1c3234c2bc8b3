//! Messages that are read of octets and of sources, written by each call, and compared.

use crate::answers::{append_truth, number_of, refused, text_of};
use bytes::Bytes;
use rpki_der::DecodeError;
use rpki_provisioning::{Message, Payload};
use rpki_text::{MemorySink, MemorySource};
use rpki_updown::Error;
use std::alloc::Global;
use test_stored::Fields;

// A source that gives a hundred octets a call, and fails at these.
fn source_of(alloc: Global, octets: &[u8], failing: &[u64]) -> Result<MemorySource, DecodeError> {
    Ok(MemorySource::new(alloc, octets, 100, failing)?)
}

// A sink with this room that takes a hundred octets a call, and fails at these.
fn sink_of(alloc: Global, room: usize, failing: &[u64]) -> Result<MemorySink, DecodeError> {
    Ok(MemorySink::new(alloc, room, 100, failing)?)
}

// ---- writing

fn is_in_octets(alloc: Global, message: &Message, octets: &[u8]) -> bool {
    match message.to_xml_bytes(alloc) {
        Ok(own) => own.as_slice() == octets,
        Err(_) => false,
    }
}

fn is_in_text(alloc: Global, message: &Message, octets: &[u8]) -> bool {
    match message.to_xml_string(alloc) {
        Ok(own) => own.as_bytes() == octets,
        Err(_) => false,
    }
}

// Whether a sink with room for these octets gets them.
fn is_sunk(alloc: Global, message: &Message, octets: &[u8]) -> Result<bool, DecodeError> {
    let mut sink = sink_of(alloc, octets.len(), &[])?;
    let answer = message.write_xml(alloc, &mut sink);
    Ok(answer.is_ok() && sink.written() == octets)
}

// Whether a copy is equal, and is written as these octets.
fn is_copied(alloc: Global, message: &Message, octets: &[u8]) -> Result<bool, DecodeError> {
    let copy = message.clone(alloc)?;
    let text = copy.text_vec(alloc)?;
    Ok(copy.equals(alloc, message)? && text.as_slice() == octets)
}

/// Whether each call writes these octets of the message, and so of a copy, which is equal.
pub fn is_written(alloc: Global, message: &Message, octets: &[u8]) -> Result<bool, DecodeError> {
    Ok(
        is_in_octets(alloc, message, octets)
            && is_in_text(alloc, message, octets)
            && is_sunk(alloc, message, octets)?
            && is_copied(alloc, message, octets)?,
    )
}

/// The message as it is written, if each call writes the same, and so of a copy.
pub fn written(alloc: Global, message: &Message) -> Result<Fields, DecodeError> {
    let octets = message.text_bytes(alloc)?;
    if !is_written(alloc, message, octets.as_slice())? {
        return Err(DecodeError::Malformed);
    }
    Ok(Fields::one(alloc, octets.as_slice())?)
}

/// A message that was read, as each call writes it and a copy of it; or why none was read.
pub fn read_shown(alloc: Global, read: &Result<Message, Error>) -> Result<Fields, DecodeError> {
    match read {
        Ok(message) => written(alloc, message),
        Err(error) => refused(alloc, error),
    }
}

// ---- reading

// Whether both are equal messages, or the same error.
fn are_alike(
    alloc: Global,
    a: &Result<Message, Error>,
    b: &Result<Message, Error>,
) -> Result<bool, DecodeError> {
    match (a, b) {
        (Ok(a), Ok(b)) => Ok(a.equals(alloc, b)?),
        (Err(a), Err(b)) => Ok(a == b),
        _ => Ok(false),
    }
}

// Whether the source is read alike.
fn is_read_alike(
    alloc: Global,
    source: &mut MemorySource,
    read: &Result<Message, Error>,
) -> Result<bool, DecodeError> {
    let again = Message::decode(alloc, source);
    are_alike(alloc, &again, read)
}

/// The message as which octets were read, as it is written, or why they are none; if a source of the octets is read alike.
pub fn text(
    alloc: Global,
    octets: &[u8],
    read: &Result<Message, Error>,
) -> Result<Fields, DecodeError> {
    let mut source = source_of(alloc, octets, &[])?;
    if !is_read_alike(alloc, &mut source, read)? {
        return Err(DecodeError::Malformed);
    }
    read_shown(alloc, read)
}

fn source_shown(alloc: Global, source: &mut MemorySource) -> Result<Fields, DecodeError> {
    let read = Message::decode(alloc, source);
    read_shown(alloc, &read)
}

/// The message that a source of the octets gives, whose call with the number of the argument fails.
pub fn read_of(alloc: Global, octets: &[u8], argument: &[u8]) -> Result<Fields, DecodeError> {
    let failing = [number_of(text_of(argument)?)?];
    let mut source = source_of(alloc, octets, &failing)?;
    source_shown(alloc, &mut source)
}

fn sunk_shown(
    alloc: Global,
    answer: &Result<(), Error>,
    sink: &MemorySink,
) -> Result<Fields, DecodeError> {
    let mut fields = match answer {
        Ok(()) => Fields::new(alloc),
        Err(error) => refused(alloc, error)?,
    };
    fields.octets(sink.written())?;
    Ok(fields)
}

fn sink_shown(
    alloc: Global,
    message: &Message,
    sink: &mut MemorySink,
) -> Result<Fields, DecodeError> {
    let answer = message.write_xml(alloc, sink);
    sunk_shown(alloc, &answer, sink)
}

// What a sink has got, with room for so many octets, whose call with the number of the argument fails.
fn sunk_of(
    alloc: Global,
    message: &Message,
    room: usize,
    argument: &[u8],
) -> Result<Fields, DecodeError> {
    let failing = [number_of(text_of(argument)?)?];
    let mut sink = sink_of(alloc, room, &failing)?;
    sink_shown(alloc, message, &mut sink)
}

/// What a sink with room for as many octets as these has got of the message, and whether it failed, as its call with the number of the
/// argument does.
pub fn written_to(alloc: Global, octets: &[u8], argument: &[u8]) -> Result<Fields, DecodeError> {
    match &Message::decode_slice(alloc, octets) {
        Ok(message) => sunk_of(alloc, message, octets.len(), argument),
        Err(error) => refused(alloc, error),
    }
}

// ---- comparing

// Appends whether both ask for the same, where both are requests for a certificate.
fn append_requests(
    alloc: Global,
    fields: &mut Fields,
    a: &Payload,
    b: &Payload,
) -> Result<(), DecodeError> {
    match (a, b) {
        (Payload::Issue(a), Payload::Issue(b)) => append_truth(fields, a.equals(alloc, b)?),
        _ => Ok(()),
    }
}

fn equality(alloc: Global, a: &Message, b: &Message) -> Result<Fields, DecodeError> {
    let mut fields = Fields::truth(alloc, a.equals(alloc, b)?)?;
    append_truth(&mut fields, a.payload().equals(alloc, b.payload())?)?;
    append_requests(alloc, &mut fields, a.payload(), b.payload())?;
    Ok(fields)
}

fn equality_shown(
    alloc: Global,
    read: &Result<Message, Error>,
    other: &Result<Message, Error>,
) -> Result<Fields, DecodeError> {
    match (read, other) {
        (Ok(a), Ok(b)) => equality(alloc, a, b),
        _ => Err(DecodeError::Malformed),
    }
}

/// Whether the message equals that of other octets, whether what they say does, and of two requests for a certificate whether these do.
pub fn equal(
    alloc: Global,
    read: &Result<Message, Error>,
    octets: &[u8],
) -> Result<Fields, DecodeError> {
    equality_shown(alloc, read, &Message::decode_slice(alloc, octets))
}
