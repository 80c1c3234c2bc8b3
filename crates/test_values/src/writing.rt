//! Calls that write what they are given.

use crate::shown::{tag_of, written_data, written_key};
use bytes::Bytes;
use rpki_base::{
    BgpsecSignatureAlgorithm, PublicKey, PublicKeyFormat, RpkiSignatureAlgorithm, Signature,
    SignatureAlgorithm, SignedData, write_constructed, write_primitive,
};
use rpki_der::{Captured, DecodeError, OutOfMemory, Writer};
use std::alloc::Global;
use test_stored::{Fields, Step};

/// More octets than are written as contents.
const LIMIT: usize = 1 << 31;

fn primitive(alloc: Global, octets: &[u8], tag: &[u8]) -> Result<Fields, DecodeError> {
    if octets.len() > LIMIT {
        return Err(DecodeError::Malformed);
    }
    let mut out = Writer::new(alloc);
    out.primitive(tag_of(tag)?, octets)?;
    Ok(Fields::one(alloc, out.as_slice())?)
}

// What a copy of what was kept holds, and the octets that the copy shares.
fn captured_copied(alloc: Global, captured: &Captured) -> Result<Fields, DecodeError> {
    let copy = captured.clone(alloc)?;
    let mut fields = Fields::one(alloc, copy.as_slice())?;
    fields.octets(copy.into_bytes().as_slice())?;
    Ok(fields)
}

// A constructed value whose contents are written as they are, kept, copied and shared.
fn constructed(alloc: Global, octets: &[u8], tag: &[u8]) -> Result<Fields, DecodeError> {
    let mut inner = Writer::new(alloc);
    inner.raw(octets)?;
    if inner.as_slice().len() > LIMIT {
        return Err(DecodeError::Malformed);
    }
    let mut out = Writer::new(alloc);
    out.constructed(tag_of(tag)?, &inner)?;
    captured_copied(alloc, &out.into_captured()?)
}

// The octets, and behind them a constructed value whose contents they are.
fn appended(alloc: Global, octets: &[u8], tag: &[u8]) -> Result<Fields, DecodeError> {
    let tag = tag_of(tag)?;
    let mut inner = Writer::new(alloc);
    inner.raw(octets)?;
    let mut out = Writer::new(alloc);
    out.raw(octets)?;
    write_constructed(tag, &inner, &mut out)?;
    Ok(Fields::one(alloc, out.as_slice())?)
}

// The octets, and behind them a primitive value whose contents they are.
fn appended_primitive(alloc: Global, octets: &[u8], tag: &[u8]) -> Result<Fields, DecodeError> {
    let mut out = Writer::new(alloc);
    out.raw(octets)?;
    write_primitive(tag_of(tag)?, octets, &mut out)?;
    Ok(Fields::one(alloc, out.as_slice())?)
}

fn key(alloc: Global, bits: &[u8], format: PublicKeyFormat) -> Result<Fields, DecodeError> {
    let key = PublicKey::new(alloc, format, bits)?;
    Ok(Fields::one(alloc, written_key(alloc, &key)?.as_slice())?)
}

// Signed data of these octets and this signature.
fn data<Alg: SignatureAlgorithm>(
    alloc: Global,
    slice: &[u8],
    algorithm: Alg,
    value: &[u8],
) -> Result<Writer, OutOfMemory> {
    let signature = Signature::new(algorithm, Bytes::copy_from_slice(alloc, value)?);
    let signature = signature.clone(alloc)?;
    let data = SignedData::new(Bytes::copy_from_slice(alloc, slice)?, signature);
    written_data(alloc, &data)
}

fn rsa_data(alloc: Global, octets: &[u8], value: &[u8]) -> Result<Fields, DecodeError> {
    let written = data(alloc, octets, RpkiSignatureAlgorithm::default(), value)?;
    Ok(Fields::one(alloc, written.as_slice())?)
}

fn ec_data(alloc: Global, octets: &[u8], value: &[u8]) -> Result<Fields, DecodeError> {
    let written = data(alloc, octets, BgpsecSignatureAlgorithm, value)?;
    Ok(Fields::one(alloc, written.as_slice())?)
}

/// What a call of this module answers; None where the step is none.
pub fn answer(
    alloc: Global,
    octets: &[u8],
    step: &Step<'_>,
) -> Option<Result<Fields, DecodeError>> {
    match step.call {
        "write_primitive" => Some(primitive(alloc, octets, &step.argument)),
        "write_constructed" => Some(constructed(alloc, octets, &step.argument)),
        "append_constructed" => Some(appended(alloc, octets, &step.argument)),
        "append_primitive" => Some(appended_primitive(alloc, octets, &step.argument)),
        "write_rsa_key" => Some(key(alloc, octets, PublicKeyFormat::Rsa)),
        "write_ec_key" => Some(key(alloc, octets, PublicKeyFormat::EcdsaP256)),
        "write_rsa_data" => Some(rsa_data(alloc, octets, &step.argument)),
        "write_ec_data" => Some(ec_data(alloc, octets, &step.argument)),
        _ => None,
    }
}
