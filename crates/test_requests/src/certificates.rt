//! Calls that read resource certificates.

use crate::shown::append_key;
use rpki_cert::Cert;
use rpki_der::{Cursor, DecodeError, Steps};
use std::alloc::Global;
use std::sync::ledger::Ledger;
use test_stored::{Fields, Step};

// Whether a copy and what is written are the same as the certificate.
fn is_copied(alloc: Global, cert: &Cert) -> Result<bool, DecodeError> {
    let copy = cert.clone(alloc)?;
    let captured = copy.to_captured(alloc)?;
    Ok(copy == *cert && captured.as_slice() == cert.as_slice())
}

// The subject's key, the exact octets, and these in base64.
fn certificate_shown(alloc: Global, cert: &Cert) -> Result<Fields, DecodeError> {
    if !is_copied(alloc, cert)? {
        return Err(DecodeError::Malformed);
    }
    let mut fields = Fields::new(alloc);
    append_key(&mut fields, cert.subject_public_key_info())?;
    fields.octets(cert.as_slice())?;
    fields.octets(cert.to_base64(alloc)?.as_str().as_bytes())?;
    Ok(fields)
}

fn certificate(alloc: Global, octets: &[u8]) -> Result<Fields, DecodeError> {
    certificate_shown(alloc, &Cert::decode(alloc, octets)?)
}

// Whether the certificates at the beginning of the octets and of the others are equal.
fn equal(alloc: Global, octets: &[u8], others: &[u8]) -> Result<Fields, DecodeError> {
    let cert = Cert::decode(alloc, octets)?;
    let other = Cert::decode(alloc, others)?;
    Ok(Fields::truth(alloc, cert == other)?)
}

/// What a call over octets answers; None where the step is none.
pub fn answer(
    alloc: Global,
    octets: &[u8],
    step: &Step<'_>,
) -> Option<Result<Fields, DecodeError>> {
    match step.call {
        "certificate" => Some(certificate(alloc, octets)),
        "equal" => Some(equal(alloc, octets, &step.argument)),
        _ => None,
    }
}

fn certificate_counted<L: Ledger>(
    alloc: Global,
    octets: &[u8],
    steps: &mut Steps<L>,
) -> Result<Fields, DecodeError> {
    certificate_shown(alloc, &Cert::decode_counted(alloc, octets, steps)?)
}

/// What a counted call answers; None where the step is none.
pub fn counted_answer<L: Ledger>(
    alloc: Global,
    cursor: &mut Cursor<'_>,
    call: &str,
    steps: &mut Steps<L>,
) -> Option<Result<Fields, DecodeError>> {
    match call {
        "certificate" => Some(certificate_counted(alloc, cursor.here(), steps)),
        _ => None,
    }
}
