//! Calls that read CRLs, their lists and their entries.

use crate::shown::append_identifier;
use rpki_base::Serial;
use rpki_der::{Cursor, DecodeError, Mode, OutOfMemory, Steps, Writer};
use rpki_sigmsg::{CrlEntry, RevokedCertificates, SignedMessageCrl, SignedMessageTbsCrl};
use std::alloc::Global;
use std::sync::ledger::Ledger;
use test_stored::{Fields, Step};

// Appends a serial number; where there is none, a field of no octets.
fn append_number(fields: &mut Fields, number: Option<Serial>) -> Result<(), DecodeError> {
    match number {
        Some(number) => Ok(fields.octets(number.as_slice())?),
        None => Ok(fields.octets(&[])?),
    }
}

fn tbs_written(alloc: Global, tbs: &SignedMessageTbsCrl) -> Result<Writer, OutOfMemory> {
    let mut out = Writer::new(alloc);
    tbs.encode_ref(&mut out)?;
    Ok(out)
}

// The issuer, the two updates, the list's octets, the authority's key identifier, the number, and what is written.
fn tbs_shown(alloc: Global, tbs: &SignedMessageTbsCrl) -> Result<Fields, DecodeError> {
    let mut fields = Fields::one(alloc, tbs.issuer().as_slice())?;
    fields.print(alloc, tbs.this_update().seconds())?;
    fields.print(alloc, tbs.next_update().seconds())?;
    fields.octets(tbs.revoked_certs().as_slice())?;
    append_identifier(&mut fields, tbs.authority_key_id())?;
    append_number(&mut fields, tbs.crl_number())?;
    fields.octets(tbs_written(alloc, tbs)?.as_slice())?;
    Ok(fields)
}

// What is shown of a copy of a CRL's signed fields.
fn tbs_copied(alloc: Global, tbs: &SignedMessageTbsCrl) -> Result<Fields, DecodeError> {
    tbs_shown(alloc, &tbs.clone(alloc)?)
}

fn crl_written(alloc: Global, crl: &SignedMessageCrl) -> Result<Writer, OutOfMemory> {
    let mut out = Writer::new(alloc);
    crl.encode_ref(&mut out)?;
    Ok(out)
}

// What is shown of a CRL's signed fields, then its signed octets, the signature, and what is written of it.
fn fields_shown(alloc: Global, crl: &SignedMessageCrl) -> Result<Fields, DecodeError> {
    let mut fields = tbs_shown(alloc, crl.tbs())?;
    fields.octets(crl.signed_data().slice().as_slice())?;
    fields.octets(crl.signed_data().signature().value().as_slice())?;
    fields.octets(crl_written(alloc, crl)?.as_slice())?;
    Ok(fields)
}

// What is shown of a copy of the CRL.
fn crl_shown(alloc: Global, crl: &SignedMessageCrl) -> Result<Fields, DecodeError> {
    fields_shown(alloc, &crl.clone(alloc)?)
}

// Appends the serial number, and the seconds of the date.
fn append_entry(alloc: Global, fields: &mut Fields, entry: &CrlEntry) -> Result<(), DecodeError> {
    fields.octets(entry.user_certificate.as_slice())?;
    fields.print(alloc, entry.revocation_date.seconds())?;
    Ok(())
}

fn list_written(alloc: Global, list: &RevokedCertificates) -> Result<Writer, OutOfMemory> {
    let mut out = Writer::new(alloc);
    list.encode_ref(&mut out)?;
    Ok(out)
}

// The list's octets, what is written, and each entry.
fn list_shown(alloc: Global, list: &RevokedCertificates) -> Result<Fields, DecodeError> {
    let mut fields = Fields::one(alloc, list.as_slice())?;
    fields.octets(list_written(alloc, list)?.as_slice())?;
    for entry in list.entries() {
        append_entry(alloc, &mut fields, entry)?;
    }
    Ok(fields)
}

// What is shown of a copy of the list.
fn list_copied(alloc: Global, list: &RevokedCertificates) -> Result<Fields, DecodeError> {
    list_shown(alloc, &list.clone(alloc)?)
}

fn entry_written(alloc: Global, entry: &CrlEntry) -> Result<Writer, OutOfMemory> {
    let mut out = Writer::new(alloc);
    entry.encode(&mut out)?;
    Ok(out)
}

// The serial number, the seconds of the date, and what is written.
fn entry_shown(alloc: Global, entry: &CrlEntry) -> Result<Fields, DecodeError> {
    let mut fields = Fields::new(alloc);
    append_entry(alloc, &mut fields, entry)?;
    fields.octets(entry_written(alloc, entry)?.as_slice())?;
    Ok(fields)
}

fn crl(alloc: Global, cursor: &mut Cursor<'_>) -> Result<Fields, DecodeError> {
    crl_shown(alloc, &SignedMessageCrl::take_from(alloc, cursor)?)
}

fn tbs(alloc: Global, cursor: &mut Cursor<'_>) -> Result<Fields, DecodeError> {
    tbs_copied(alloc, &SignedMessageTbsCrl::take_from(alloc, cursor)?)
}

fn list(alloc: Global, cursor: &mut Cursor<'_>) -> Result<Fields, DecodeError> {
    list_copied(alloc, &RevokedCertificates::take_from(alloc, cursor)?)
}

fn entry(alloc: Global, cursor: &mut Cursor<'_>) -> Result<Fields, DecodeError> {
    entry_shown(alloc, &CrlEntry::take_from(cursor)?)
}

/// What a call that takes a cursor answers; None where the step is none.
pub fn answer(
    alloc: Global,
    cursor: &mut Cursor<'_>,
    call: &str,
) -> Option<Result<Fields, DecodeError>> {
    match call {
        "crl" => Some(crl(alloc, cursor)),
        "tbs_crl" => Some(tbs(alloc, cursor)),
        "list" => Some(list(alloc, cursor)),
        "entry" => Some(entry(alloc, cursor)),
        _ => None,
    }
}

fn crl_counted<L: Ledger>(
    alloc: Global,
    cursor: &mut Cursor<'_>,
    steps: &mut Steps<L>,
) -> Result<Fields, DecodeError> {
    crl_shown(
        alloc,
        &SignedMessageCrl::take_from_counted(alloc, cursor, steps)?,
    )
}

fn tbs_counted<L: Ledger>(
    alloc: Global,
    cursor: &mut Cursor<'_>,
    steps: &mut Steps<L>,
) -> Result<Fields, DecodeError> {
    tbs_copied(
        alloc,
        &SignedMessageTbsCrl::take_from_counted(alloc, cursor, steps)?,
    )
}

fn list_counted<L: Ledger>(
    alloc: Global,
    cursor: &mut Cursor<'_>,
    steps: &mut Steps<L>,
) -> Result<Fields, DecodeError> {
    list_copied(
        alloc,
        &RevokedCertificates::take_from_counted(alloc, cursor, steps)?,
    )
}

fn entry_counted<L: Ledger>(
    alloc: Global,
    cursor: &mut Cursor<'_>,
    steps: &mut Steps<L>,
) -> Result<Fields, DecodeError> {
    entry_shown(alloc, &CrlEntry::take_from_counted(cursor, steps)?)
}

/// What a counted call answers; None where the step is none.
pub fn counted_answer<L: Ledger>(
    alloc: Global,
    cursor: &mut Cursor<'_>,
    call: &str,
    steps: &mut Steps<L>,
) -> Option<Result<Fields, DecodeError>> {
    match call {
        "crl" => Some(crl_counted(alloc, cursor, steps)),
        "tbs_crl" => Some(tbs_counted(alloc, cursor, steps)),
        "list" => Some(list_counted(alloc, cursor, steps)),
        "entry" => Some(entry_counted(alloc, cursor, steps)),
        _ => None,
    }
}

fn whole_crl(alloc: Global, mode: Mode, octets: &[u8]) -> Result<Fields, DecodeError> {
    crl_shown(alloc, &SignedMessageCrl::take(alloc, mode, octets)?)
}

fn whole_tbs(alloc: Global, mode: Mode, octets: &[u8]) -> Result<Fields, DecodeError> {
    tbs_copied(alloc, &SignedMessageTbsCrl::take(alloc, mode, octets)?)
}

fn whole_list(alloc: Global, mode: Mode, octets: &[u8]) -> Result<Fields, DecodeError> {
    list_copied(alloc, &RevokedCertificates::take(alloc, mode, octets)?)
}

fn whole_entry(alloc: Global, mode: Mode, octets: &[u8]) -> Result<Fields, DecodeError> {
    entry_shown(alloc, &CrlEntry::take(alloc, mode, octets)?)
}

// Whether the last entry of the list is that of the argument.
fn last_entry(
    alloc: Global,
    mode: Mode,
    octets: &[u8],
    argument: &[u8],
) -> Result<Fields, DecodeError> {
    let list = RevokedCertificates::take(alloc, mode, octets)?;
    let entry = CrlEntry::take(alloc, Mode::Der, argument)?;
    Ok(Fields::truth(alloc, list.entries().last() == Some(&entry))?)
}

fn number_of(argument: &[u8]) -> Result<Serial, DecodeError> {
    let Ok(text) = std::str::from_utf8(argument) else {
        return Err(DecodeError::Malformed);
    };
    match text.parse::<u64>() {
        Ok(number) => Ok(Serial::from(number)),
        Err(_) => Err(DecodeError::Malformed),
    }
}

// Whether the list has the number, and whether an empty one has it.
fn lists(alloc: Global, mode: Mode, octets: &[u8], argument: &[u8]) -> Result<Fields, DecodeError> {
    let number = number_of(argument)?;
    let list = RevokedCertificates::take(alloc, mode, octets)?;
    let mut fields = Fields::truth(alloc, list.contains(number))?;
    fields.octets(&[u8::from(RevokedCertificates::empty(alloc).contains(number))])?;
    Ok(fields)
}

/// What a call over octets answers; None where the step is none.
pub fn whole_answer(
    alloc: Global,
    mode: Mode,
    octets: &[u8],
    step: &Step<'_>,
) -> Option<Result<Fields, DecodeError>> {
    match step.call {
        "whole_crl" => Some(whole_crl(alloc, mode, octets)),
        "whole_tbs_crl" => Some(whole_tbs(alloc, mode, octets)),
        "whole_list" => Some(whole_list(alloc, mode, octets)),
        "whole_entry" => Some(whole_entry(alloc, mode, octets)),
        "last_entry" => Some(last_entry(alloc, mode, octets, &step.argument)),
        "lists" => Some(lists(alloc, mode, octets, &step.argument)),
        _ => None,
    }
}
