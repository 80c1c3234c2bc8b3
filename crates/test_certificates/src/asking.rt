//! Calls that ask a signer of any scheme for a serial number, and for keys and signatures that are not too long.

use rpki_base::{PublicKey, Scheme};
use rpki_der::{DecodeError, Writer};
use rpki_signer::{
    CallError, MakeError, Signer, key_within_limit, random_serial, sign_once_within_limit,
    sign_within_limit,
};
use std::alloc::Global;
use test_stored::Fields;

/// Appends what is written of a key.
pub fn append_key(alloc: Global, fields: &mut Fields, key: &PublicKey) -> Result<(), DecodeError> {
    let mut out = Writer::new(alloc);
    key.encode_ref(&mut out)?;
    Ok(fields.octets(out.as_slice())?)
}

fn key_within<P: Scheme, S: Signer<P>>(
    alloc: Global,
    fields: &mut Fields,
    signer: &mut S,
    key: &S::KeyId,
) -> Result<(), DecodeError> {
    match key_within_limit::<P, S>(alloc, key, signer) {
        Ok(key) => append_key(alloc, fields, &key),
        Err(MakeError::OutOfMemory) => Err(DecodeError::OutOfMemory),
        Err(error) => Ok(fields.print(alloc, error)?),
    }
}

fn sign_within<P: Scheme, S: Signer<P>>(
    alloc: Global,
    fields: &mut Fields,
    signer: &mut S,
    key: &S::KeyId,
    message: &[u8],
) -> Result<(), DecodeError> {
    match sign_within_limit::<P, S>(alloc, key, message, signer) {
        Ok(signature) => Ok(fields.octets(signature.value().as_slice())?),
        Err(MakeError::OutOfMemory) => Err(DecodeError::OutOfMemory),
        Err(error) => Ok(fields.print(alloc, error)?),
    }
}

/// Appends a signature and the key for that one use, or why there is none.
pub fn once_within<P: Scheme, S: Signer<P>>(
    alloc: Global,
    fields: &mut Fields,
    signer: &mut S,
    message: &[u8],
) -> Result<(), DecodeError> {
    match sign_once_within_limit::<P, S>(alloc, message, signer) {
        Ok((signature, key)) => {
            fields.octets(signature.value().as_slice())?;
            append_key(alloc, fields, &key)
        }
        Err(MakeError::OutOfMemory) => Err(DecodeError::OutOfMemory),
        Err(error) => Ok(fields.print(alloc, error)?),
    }
}

/// Appends a serial number that is drawn, or why there is none.
pub fn serial<P: Scheme, S: Signer<P>>(
    alloc: Global,
    fields: &mut Fields,
    signer: &mut S,
) -> Result<(), DecodeError> {
    match random_serial::<P, S>(signer) {
        Ok(serial) => Ok(fields.octets(serial.as_slice())?),
        Err(CallError::OutOfMemory) => Err(DecodeError::OutOfMemory),
        Err(error) => Ok(fields.print(alloc, error)?),
    }
}

/// Appends what a call of this module answers that names a key; Malformed where it is none.
pub fn append_within<P: Scheme, S: Signer<P>>(
    alloc: Global,
    fields: &mut Fields,
    signer: &mut S,
    call: &str,
    key: &S::KeyId,
    message: &[u8],
) -> Result<(), DecodeError> {
    match call {
        "key_within" => key_within::<P, S>(alloc, fields, signer, key),
        "sign_within" => sign_within::<P, S>(alloc, fields, signer, key, message),
        _ => Err(DecodeError::Malformed),
    }
}
