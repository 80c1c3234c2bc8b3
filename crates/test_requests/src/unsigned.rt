//! Requests for the toy scheme's key number 0 of seed 1 that are signed elsewhere.

use crate::making::{Places, asked_of, places_of, uri_refusal};
use crate::shown::append_key;
use bytes::Bytes;
use rpki_base::{PublicKey, RpkiSignatureAlgorithm, Signature};
use rpki_cert::UnsignedCsr;
use rpki_der::DecodeError;
use rpki_signer::ToyScheme;
use rpki_text::uri::Error;
use std::alloc::Global;
use test_stored::{Fields, Step};

fn unsigned_of(alloc: Global, key: &PublicKey, places: &Places) -> Result<UnsignedCsr, Error> {
    UnsignedCsr::new(
        alloc,
        key,
        &places.repository,
        &places.manifest,
        places.notify.as_ref(),
    )
}

// What is to be signed with the asked places, or why there is nothing.
fn unsigned(alloc: Global, argument: &[u8]) -> Result<Result<UnsignedCsr, Error>, DecodeError> {
    let Some(asked) = asked_of(argument) else {
        return Err(DecodeError::Malformed);
    };
    let places = places_of(alloc, &asked)?;
    let key = ToyScheme::key(alloc, 1, 0)?;
    Ok(unsigned_of(alloc, &key, &places))
}

// The name of the refusal.
fn refused(alloc: Global, error: Error) -> Result<Fields, DecodeError> {
    match error {
        Error::OutOfMemory => Err(DecodeError::OutOfMemory),
        _ => Ok(Fields::one(alloc, uri_refusal(error).as_bytes())?),
    }
}

// The key, and the octets that are to be signed.
fn shown(alloc: Global, unsigned: &UnsignedCsr) -> Result<Fields, DecodeError> {
    let mut fields = Fields::new(alloc);
    append_key(&mut fields, unsigned.public_key())?;
    fields.octets(unsigned.as_slice())?;
    Ok(fields)
}

fn to_be_signed(alloc: Global, argument: &[u8]) -> Result<Fields, DecodeError> {
    match unsigned(alloc, argument)? {
        Ok(unsigned) => shown(alloc, &unsigned),
        Err(error) => refused(alloc, error),
    }
}

// The request with these octets as its signature.
fn signed(alloc: Global, unsigned: UnsignedCsr, value: Bytes) -> Result<Fields, DecodeError> {
    let signature = Signature::new(RpkiSignatureAlgorithm::default(), value);
    let request = unsigned.with_signature(alloc, signature)?;
    Ok(Fields::one(alloc, request.as_slice())?)
}

fn with_signature(alloc: Global, octets: &[u8], argument: &[u8]) -> Result<Fields, DecodeError> {
    match unsigned(alloc, argument)? {
        Ok(unsigned) => signed(alloc, unsigned, Bytes::copy_from_slice(alloc, octets)?),
        Err(error) => refused(alloc, error),
    }
}

// The request with the toy scheme's signature under its own key.
fn self_signed(alloc: Global, argument: &[u8]) -> Result<Fields, DecodeError> {
    match unsigned(alloc, argument)? {
        Ok(unsigned) => {
            let value = ToyScheme::signature(alloc, unsigned.public_key(), unsigned.as_slice())?;
            signed(alloc, unsigned, value)
        }
        Err(error) => refused(alloc, error),
    }
}

/// What a call of this module answers; None where the step is none.
pub fn answer(
    alloc: Global,
    octets: &[u8],
    step: &Step<'_>,
) -> Option<Result<Fields, DecodeError>> {
    match step.call {
        "to_be_signed" => Some(to_be_signed(alloc, &step.argument)),
        "with_signature" => Some(with_signature(alloc, octets, &step.argument)),
        "self_signed" => Some(self_signed(alloc, &step.argument)),
        _ => None,
    }
}
