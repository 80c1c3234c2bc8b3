//! Calls that read certificates.

use crate::shown::{certificate_shown, tbs_shown};
use rpki_der::{Cursor, DecodeError, Mode, Steps};
use rpki_idcert::{IdCert, TbsIdCert, take_version};
use std::alloc::Global;
use std::sync::ledger::Ledger;
use test_stored::Fields;

fn certificate(alloc: Global, cursor: &mut Cursor<'_>) -> Result<Fields, DecodeError> {
    certificate_shown(alloc, &IdCert::take_from(alloc, cursor)?)
}

fn tbs(alloc: Global, cursor: &mut Cursor<'_>) -> Result<Fields, DecodeError> {
    tbs_shown(alloc, &TbsIdCert::take_from(alloc, cursor)?)
}

fn captured(alloc: Global, cursor: &mut Cursor<'_>) -> Result<Fields, DecodeError> {
    Ok(Fields::one(alloc, cursor.capture()?)?)
}

/// What a call that takes a cursor answers; None where the step is none.
pub fn answer(
    alloc: Global,
    cursor: &mut Cursor<'_>,
    call: &str,
) -> Option<Result<Fields, DecodeError>> {
    match call {
        "certificate" => Some(certificate(alloc, cursor)),
        "tbs" => Some(tbs(alloc, cursor)),
        "capture" => Some(captured(alloc, cursor)),
        _ => None,
    }
}

fn certificate_counted<L: Ledger>(
    alloc: Global,
    cursor: &mut Cursor<'_>,
    steps: &mut Steps<L>,
) -> Result<Fields, DecodeError> {
    certificate_shown(alloc, &IdCert::take_from_counted(alloc, cursor, steps)?)
}

fn tbs_counted<L: Ledger>(
    alloc: Global,
    cursor: &mut Cursor<'_>,
    steps: &mut Steps<L>,
) -> Result<Fields, DecodeError> {
    tbs_shown(alloc, &TbsIdCert::take_from_counted(alloc, cursor, steps)?)
}

fn version_counted<L: Ledger>(
    alloc: Global,
    cursor: &mut Cursor<'_>,
    steps: &mut Steps<L>,
) -> Result<Fields, DecodeError> {
    take_version(cursor, steps)?;
    Ok(Fields::done(alloc)?)
}

/// What a counted call answers; None where the step is none.
pub fn counted_answer<L: Ledger>(
    alloc: Global,
    cursor: &mut Cursor<'_>,
    call: &str,
    steps: &mut Steps<L>,
) -> Option<Result<Fields, DecodeError>> {
    match call {
        "certificate" => Some(certificate_counted(alloc, cursor, steps)),
        "tbs" => Some(tbs_counted(alloc, cursor, steps)),
        "version" => Some(version_counted(alloc, cursor, steps)),
        _ => None,
    }
}

fn whole(alloc: Global, mode: Mode, octets: &[u8]) -> Result<Fields, DecodeError> {
    certificate_shown(alloc, &IdCert::take(alloc, mode, octets)?)
}

fn decoded(alloc: Global, octets: &[u8]) -> Result<Fields, DecodeError> {
    certificate_shown(alloc, &IdCert::decode(alloc, octets)?)
}

fn decoded_in_mode(alloc: Global, mode: Mode, octets: &[u8]) -> Result<Fields, DecodeError> {
    certificate_shown(alloc, &IdCert::decode_mode(alloc, mode, octets)?)
}

/// What a call over octets answers; None where the step is none.
pub fn whole_answer(
    alloc: Global,
    mode: Mode,
    octets: &[u8],
    call: &str,
) -> Option<Result<Fields, DecodeError>> {
    match call {
        "whole" => Some(whole(alloc, mode, octets)),
        "decoded" => Some(decoded(alloc, octets)),
        "decoded_in_mode" => Some(decoded_in_mode(alloc, mode, octets)),
        _ => None,
    }
}
