//! What is to be signed of a certificate, and extensions by themselves.

use crate::making::asked_of;
use crate::shown::tbs_shown;
use bytes::Bytes;
use rpki_base::{KeyIdentifier, RpkiSignatureAlgorithm, Serial, Signature};
use rpki_der::{DecodeError, Writer};
use rpki_idcert::{TbsIdCert, UnsignedIdCert, write_authority_key, write_extension};
use rpki_signer::ToyScheme;
use std::alloc::Global;
use test_stored::{Fields, Step};

/// More octets than are written as an extension.
const LIMIT: usize = 1 << 30;

// What is to be signed under the toy scheme's key number 0 for the key of the asked number, with serial number 7.
fn made(alloc: Global, argument: &[u8]) -> Result<TbsIdCert, DecodeError> {
    let Some((number, validity)) = asked_of(argument) else {
        return Err(DecodeError::Malformed);
    };
    let issuer = ToyScheme::key(alloc, 1, 0)?;
    let key = ToyScheme::key(alloc, 1, number)?;
    Ok(TbsIdCert::new(alloc, Serial::from(7), validity, &key, &issuer)?)
}

fn fields(alloc: Global, argument: &[u8]) -> Result<Fields, DecodeError> {
    tbs_shown(alloc, &made(alloc, argument)?)
}

// The octets that are to be signed.
fn to_be_signed(alloc: Global, argument: &[u8]) -> Result<Fields, DecodeError> {
    let unsigned = UnsignedIdCert::new(alloc, made(alloc, argument)?)?;
    Ok(Fields::one(alloc, unsigned.as_slice())?)
}

// The certificate with the octets as its signature.
fn signed(alloc: Global, octets: &[u8], argument: &[u8]) -> Result<Fields, DecodeError> {
    let unsigned = UnsignedIdCert::new(alloc, made(alloc, argument)?)?;
    let value = Bytes::copy_from_slice(alloc, octets)?;
    let signature = Signature::new(RpkiSignatureAlgorithm::default(), value);
    let cert = unsigned.with_signature(signature);
    Ok(Fields::one(alloc, cert.to_bytes(alloc)?.as_slice())?)
}

// The extension with this identifier that holds the octets.
fn extension(
    alloc: Global,
    identifier: &[u8],
    critical: bool,
    octets: &[u8],
) -> Result<Fields, DecodeError> {
    if identifier.len() > LIMIT || octets.len() > LIMIT {
        return Err(DecodeError::Malformed);
    }
    let mut out = Writer::new(alloc);
    write_extension(identifier, critical, octets, &mut out)?;
    Ok(Fields::one(alloc, out.as_slice())?)
}

// The extension that names the key with this identifier, behind the octets; the octets alone where none is named.
fn authority_key(alloc: Global, octets: &[u8], named: &[u8]) -> Result<Fields, DecodeError> {
    let mut out = Writer::new(alloc);
    out.raw(octets)?;
    if named.is_empty() {
        write_authority_key(None, &mut out)?;
        return Ok(Fields::one(alloc, out.as_slice())?);
    }
    let Some(identifier) = KeyIdentifier::from_octets(named) else {
        return Err(DecodeError::Malformed);
    };
    write_authority_key(Some(identifier), &mut out)?;
    Ok(Fields::one(alloc, out.as_slice())?)
}

/// What a call of this module answers; None where the step is none.
pub fn answer(
    alloc: Global,
    octets: &[u8],
    step: &Step<'_>,
) -> Option<Result<Fields, DecodeError>> {
    match step.call {
        "unsigned" => Some(fields(alloc, &step.argument)),
        "to_be_signed" => Some(to_be_signed(alloc, &step.argument)),
        "with_signature" => Some(signed(alloc, octets, &step.argument)),
        "write_extension" => Some(extension(alloc, &step.argument, false, octets)),
        "write_critical" => Some(extension(alloc, &step.argument, true, octets)),
        "write_authority" => Some(authority_key(alloc, octets, &step.argument)),
        _ => None,
    }
}
