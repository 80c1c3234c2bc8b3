//! Calls that read messages and their views, as the fields of an answer.

use rpki_base::Time;
use rpki_der::{Cursor, DecodeError, Mode, OutOfMemory, Steps, Writer};
use rpki_sigmsg::{SignedMessage, SignedMessageRef};
use std::alloc::Global;
use std::sync::ledger::Ledger;
use test_stored::{Calls, Fields, Step};

// Appends the seconds of a time, or `-` where there is none.
fn append_time(alloc: Global, fields: &mut Fields, time: Option<Time>) -> Result<(), DecodeError> {
    match time {
        Some(time) => Ok(fields.print(alloc, time.seconds())?),
        None => Ok(fields.octets(b"-")?),
    }
}

fn written(alloc: Global, message: &SignedMessage) -> Result<Writer, OutOfMemory> {
    let mut out = Writer::new(alloc);
    message.encode_ref(&mut out)?;
    Ok(out)
}

// The content's type, the content, its digest, the signer's key identifier, the time of signing, the octets that are covered, their
// signature, and what is written.
fn fields_shown(alloc: Global, message: &SignedMessage) -> Result<Fields, DecodeError> {
    let mut fields = Fields::one(alloc, message.content_type())?;
    fields.octets(message.content().as_slice())?;
    fields.octets(message.digest())?;
    fields.octets(message.signer_identifier().as_slice())?;
    append_time(alloc, &mut fields, message.signing_time())?;
    fields.octets(message.covered().as_slice())?;
    fields.octets(message.signature().value().as_slice())?;
    fields.octets(written(alloc, message)?.as_slice())?;
    Ok(fields)
}

// What is shown of a copy of the message.
fn message_shown(alloc: Global, message: &SignedMessage) -> Result<Fields, DecodeError> {
    fields_shown(alloc, &message.clone(alloc)?)
}

// The places of the parts: the content, the certificate, the CRL, a second one or `-`, the attributes and the signature.
fn view_shown(alloc: Global, view: &SignedMessageRef<'_>) -> Result<Fields, DecodeError> {
    let mut fields = Fields::one(alloc, view.content_value())?;
    fields.octets(view.certificate())?;
    fields.octets(view.crl())?;
    fields.octets(view.second_crl().unwrap_or(b"-".as_slice()))?;
    fields.octets(view.attributes())?;
    fields.octets(view.signature_value())?;
    Ok(fields)
}

fn is_strict(mode: Mode) -> bool {
    match mode {
        Mode::Der => true,
        Mode::Ber => false,
    }
}

fn message(alloc: Global, cursor: &mut Cursor<'_>) -> Result<Fields, DecodeError> {
    message_shown(alloc, &SignedMessage::take_from(alloc, cursor)?)
}

fn message_counted<L: Ledger>(
    alloc: Global,
    cursor: &mut Cursor<'_>,
    steps: &mut Steps<L>,
) -> Result<Fields, DecodeError> {
    message_shown(
        alloc,
        &SignedMessage::take_from_counted(alloc, cursor, steps)?,
    )
}

fn view(alloc: Global, cursor: &mut Cursor<'_>) -> Result<Fields, DecodeError> {
    view_shown(alloc, &SignedMessageRef::take_from(alloc, cursor)?)
}

fn view_counted<L: Ledger>(
    alloc: Global,
    cursor: &mut Cursor<'_>,
    steps: &mut Steps<L>,
) -> Result<Fields, DecodeError> {
    view_shown(
        alloc,
        &SignedMessageRef::take_from_counted(alloc, cursor, steps)?,
    )
}

fn whole(alloc: Global, mode: Mode, octets: &[u8]) -> Result<Fields, DecodeError> {
    message_shown(alloc, &SignedMessage::take(alloc, mode, octets)?)
}

fn decoded(alloc: Global, mode: Mode, octets: &[u8]) -> Result<Fields, DecodeError> {
    message_shown(
        alloc,
        &SignedMessage::decode(alloc, octets, is_strict(mode))?,
    )
}

fn decoded_counted<L: Ledger>(
    alloc: Global,
    mode: Mode,
    octets: &[u8],
    steps: &mut Steps<L>,
) -> Result<Fields, DecodeError> {
    message_shown(
        alloc,
        &SignedMessage::decode_counted(alloc, octets, is_strict(mode), steps)?,
    )
}

fn rest(alloc: Global, octets: &[u8]) -> Result<Fields, DecodeError> {
    Ok(Fields::one(alloc, octets)?)
}

/// The calls `whole`, `decoded`, `message`, `view` and `rest`.
pub struct Readings;

impl Calls for Readings {
    fn answer(
        &self,
        alloc: Global,
        cursor: &mut Cursor<'_>,
        step: &Step<'_>,
    ) -> Option<Result<Fields, DecodeError>> {
        match step.call {
            "message" => Some(message(alloc, cursor)),
            "view" => Some(view(alloc, cursor)),
            "whole" => Some(whole(alloc, cursor.mode(), cursor.here())),
            "decoded" => Some(decoded(alloc, cursor.mode(), cursor.here())),
            "rest" => Some(rest(alloc, cursor.here())),
            _ => None,
        }
    }

    fn counted_answer<L: Ledger>(
        &self,
        alloc: Global,
        cursor: &mut Cursor<'_>,
        step: &Step<'_>,
        steps: &mut Steps<L>,
    ) -> Option<Result<Fields, DecodeError>> {
        match step.call {
            "message" => Some(message_counted(alloc, cursor, steps)),
            "view" => Some(view_counted(alloc, cursor, steps)),
            "decoded" => Some(decoded_counted(alloc, cursor.mode(), cursor.here(), steps)),
            _ => None,
        }
    }
}
