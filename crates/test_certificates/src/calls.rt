//! Calls of a signer of seed 1, one after the other.

use crate::asking::{append_key, append_within, once_within, serial};
use rpki_base::{
    BgpsecSignatureAlgorithm, PublicKeyFormat, RpkiSignatureAlgorithm, Scheme, SignatureAlgorithm,
};
use rpki_der::DecodeError;
use rpki_signer::{
    AnyScheme, CallError, KeyError, LongSigner, Signer, SigningError, ToyScheme, ToySigner,
};
use std::alloc::Global;
use test_stored::Fields;

fn create<P: Scheme, S: Signer<P, KeyId = u64>>(
    alloc: Global,
    fields: &mut Fields,
    signer: &mut S,
    format: PublicKeyFormat,
) -> Result<(), DecodeError> {
    match signer.create_key(alloc, format) {
        Ok(number) => Ok(fields.print(alloc, number)?),
        Err(CallError::OutOfMemory) => Err(DecodeError::OutOfMemory),
        Err(error) => Ok(fields.print(alloc, error)?),
    }
}

fn info<P: Scheme, S: Signer<P, KeyId = u64>>(
    alloc: Global,
    fields: &mut Fields,
    signer: &mut S,
    key: u64,
) -> Result<(), DecodeError> {
    match signer.get_key_info(alloc, &key) {
        Ok(key) => append_key(alloc, fields, &key),
        Err(KeyError::OutOfMemory) => Err(DecodeError::OutOfMemory),
        Err(error) => Ok(fields.print(alloc, error)?),
    }
}

fn destroy<P: Scheme, S: Signer<P, KeyId = u64>>(
    alloc: Global,
    fields: &mut Fields,
    signer: &mut S,
    key: u64,
) -> Result<(), DecodeError> {
    match signer.destroy_key(&key) {
        Ok(()) => Ok(fields.octets(b"")?),
        Err(error) => Ok(fields.print(alloc, error)?),
    }
}

fn sign<P: Scheme, S: Signer<P, KeyId = u64>, Alg: SignatureAlgorithm>(
    alloc: Global,
    fields: &mut Fields,
    signer: &mut S,
    key: u64,
    algorithm: Alg,
    message: &[u8],
) -> Result<(), DecodeError> {
    match signer.sign(alloc, &key, algorithm, message) {
        Ok(signature) => Ok(fields.octets(signature.value().as_slice())?),
        Err(SigningError::OutOfMemory) => Err(DecodeError::OutOfMemory),
        Err(error) => Ok(fields.print(alloc, error)?),
    }
}

fn sign_once<P: Scheme, S: Signer<P, KeyId = u64>, Alg: SignatureAlgorithm>(
    alloc: Global,
    fields: &mut Fields,
    signer: &mut S,
    algorithm: Alg,
    message: &[u8],
) -> Result<(), DecodeError> {
    match signer.sign_one_off(alloc, algorithm, message) {
        Ok((signature, key)) => {
            fields.octets(signature.value().as_slice())?;
            append_key(alloc, fields, &key)
        }
        Err(CallError::OutOfMemory) => Err(DecodeError::OutOfMemory),
        Err(error) => Ok(fields.print(alloc, error)?),
    }
}

// Draws this number of octets.
fn draw<P: Scheme, S: Signer<P, KeyId = u64>>(
    alloc: Global,
    fields: &mut Fields,
    signer: &mut S,
    count: u64,
) -> Result<(), DecodeError> {
    let Ok(count) = usize::try_from(count) else {
        return Err(DecodeError::Malformed);
    };
    let mut octets = vec![in alloc; 0u8; count]?;
    match signer.rand(&mut octets) {
        Ok(()) => Ok(fields.octets(&octets)?),
        Err(error) => Ok(fields.print(alloc, error)?),
    }
}

// Appends what a call without a number answers.
fn append_plain<P: Scheme, S: Signer<P, KeyId = u64>>(
    alloc: Global,
    fields: &mut Fields,
    signer: &mut S,
    call: &str,
    message: &[u8],
) -> Result<(), DecodeError> {
    match call {
        "create_rsa" => create::<P, S>(alloc, fields, signer, PublicKeyFormat::Rsa),
        "create_ec" => create::<P, S>(alloc, fields, signer, PublicKeyFormat::EcdsaP256),
        "once" => {
            let algorithm = RpkiSignatureAlgorithm::default();
            sign_once::<P, S, RpkiSignatureAlgorithm>(alloc, fields, signer, algorithm, message)
        }
        "once_ec" => sign_once::<P, S, BgpsecSignatureAlgorithm>(
            alloc,
            fields,
            signer,
            BgpsecSignatureAlgorithm,
            message,
        ),
        "once_within" => once_within::<P, S>(alloc, fields, signer, message),
        "serial" => serial::<P, S>(alloc, fields, signer),
        _ => Err(DecodeError::Malformed),
    }
}

// Appends what a call with a number answers.
fn append_numbered<P: Scheme, S: Signer<P, KeyId = u64>>(
    alloc: Global,
    fields: &mut Fields,
    signer: &mut S,
    call: &str,
    number: u64,
    message: &[u8],
) -> Result<(), DecodeError> {
    match call {
        "info" => info::<P, S>(alloc, fields, signer, number),
        "destroy" => destroy::<P, S>(alloc, fields, signer, number),
        "sign" => {
            let algorithm = RpkiSignatureAlgorithm::default();
            sign::<P, S, RpkiSignatureAlgorithm>(alloc, fields, signer, number, algorithm, message)
        }
        "sign_ec" => sign::<P, S, BgpsecSignatureAlgorithm>(
            alloc,
            fields,
            signer,
            number,
            BgpsecSignatureAlgorithm,
            message,
        ),
        "rand" => draw::<P, S>(alloc, fields, signer, number),
        call => append_within::<P, S>(alloc, fields, signer, call, &number, message),
    }
}

// Appends what a call answers: `CALL`, or `CALL:NUMBER`.
fn append<P: Scheme, S: Signer<P, KeyId = u64>>(
    alloc: Global,
    fields: &mut Fields,
    signer: &mut S,
    word: &str,
    message: &[u8],
) -> Result<(), DecodeError> {
    let Some((call, number)) = word.split_once(':') else {
        return append_plain::<P, S>(alloc, fields, signer, word, message);
    };
    match number.parse::<u64>() {
        Ok(number) => append_numbered::<P, S>(alloc, fields, signer, call, number, message),
        Err(_) => Err(DecodeError::Malformed),
    }
}

// A signer of seed 1 that fails at the calls with these numbers.
fn signer_of(alloc: Global, failing: &str) -> Result<ToySigner, DecodeError> {
    let mut numbers = Vec::new(alloc);
    for word in failing.split(',') {
        match word.parse::<u64>() {
            Ok(number) => numbers.push(number)?,
            Err(_) if word == "none" => {}
            Err(_) => return Err(DecodeError::Malformed),
        }
    }
    Ok(ToySigner::new(alloc, 1, &numbers)?)
}

/// What the calls of the toy signer answer, and how many of them failed. The argument: `FAILING/CALL/CALL..`, where FAILING are the
/// numbers of the calls that fail, with `,` between them, or `none`.
pub fn toy_answer(alloc: Global, message: &[u8], argument: &[u8]) -> Result<Fields, DecodeError> {
    let Ok(text) = std::str::from_utf8(argument) else {
        return Err(DecodeError::Malformed);
    };
    let Some((failing, calls)) = text.split_once('/') else {
        return Err(DecodeError::Malformed);
    };
    let mut signer = signer_of(alloc, failing)?;
    let mut fields = Fields::new(alloc);
    for word in calls.split('/') {
        append::<ToyScheme, ToySigner>(alloc, &mut fields, &mut signer, word, message)?;
    }
    fields.print(alloc, signer.faults())?;
    Ok(fields)
}

/// What the calls of a signer whose signatures have any length answer, and how many signatures were too long. The argument:
/// `COUNT/CALL/CALL..`, where COUNT is how many octets a signature has.
pub fn long_answer(alloc: Global, message: &[u8], argument: &[u8]) -> Result<Fields, DecodeError> {
    let Ok(text) = std::str::from_utf8(argument) else {
        return Err(DecodeError::Malformed);
    };
    let Some((count, calls)) = text.split_once('/') else {
        return Err(DecodeError::Malformed);
    };
    let Ok(count) = count.parse::<usize>() else {
        return Err(DecodeError::Malformed);
    };
    let mut signer = LongSigner::new(alloc, 1, count)?;
    let mut fields = Fields::new(alloc);
    for word in calls.split('/') {
        append::<AnyScheme, LongSigner>(alloc, &mut fields, &mut signer, word, message)?;
    }
    fields.print(alloc, signer.overlong())?;
    Ok(fields)
}
