//! Calls of the toy scheme, and of a scheme under which every signature holds.

use crate::calls;
use rpki_base::{PublicKey, PublicKeyFormat, SigningAlgorithm, Time, Verifier};
use rpki_der::{DecodeError, Mode};
use rpki_sigmsg::SignedMessageCrl;
use rpki_signer::{AnyVerifier, ToyScheme, ToyVerifier};
use std::alloc::Global;
use test_stored::{Fields, Step};

fn format_of(octet: u8) -> PublicKeyFormat {
    if octet == 0 {
        PublicKeyFormat::Rsa
    } else {
        PublicKeyFormat::EcdsaP256
    }
}

// The key of seed 1 and this number, with its bits in a format.
fn key_of(alloc: Global, format: u8, number: u8) -> Result<PublicKey, DecodeError> {
    let key = ToyScheme::key(alloc, 1, u64::from(number))?;
    Ok(PublicKey::new(alloc, format_of(format), key.bits_bytes().as_slice())?)
}

fn moment_of(text: &[u8]) -> Option<Time> {
    Time::new(std::str::from_utf8(text).ok()?.parse::<i64>().ok()?)
}

// The failing check of a CRL, or `ok`. The argument: the format of the key, and the moment behind it.
fn crl_check(
    alloc: Global,
    mode: Mode,
    octets: &[u8],
    argument: &[u8],
) -> Result<Fields, DecodeError> {
    let [format, moment @ ..] = argument else {
        return Err(DecodeError::Malformed);
    };
    let Some(when) = moment_of(moment) else {
        return Err(DecodeError::Malformed);
    };
    let key = key_of(alloc, *format, 0)?;
    let crl = SignedMessageCrl::take(alloc, mode, octets)?;
    match crl.validate(&AnyVerifier::new(), &key, when) {
        Ok(()) => Ok(Fields::done(alloc)?),
        Err(error) => Ok(Fields::number(alloc, u64::from(error.check))?),
    }
}

// The bits of a key, and its signature of the octets. The argument: the key's number.
fn toy_signature(alloc: Global, octets: &[u8], argument: &[u8]) -> Result<Fields, DecodeError> {
    let [number] = argument else {
        return Err(DecodeError::Malformed);
    };
    let key = ToyScheme::key(alloc, 1, u64::from(*number))?;
    let mut fields = Fields::one(alloc, key.bits_bytes().as_slice())?;
    fields.octets(ToyScheme::signature(alloc, &key, octets)?.as_slice())?;
    Ok(fields)
}

// Whether a signature of the octets holds. The argument: the kind, the format of the key, its number, and the signature behind them.
fn toy_holds(alloc: Global, octets: &[u8], argument: &[u8]) -> Result<Fields, DecodeError> {
    let [kind, format, number, signature @ ..] = argument else {
        return Err(DecodeError::Malformed);
    };
    let kind = if *kind == 0 {
        SigningAlgorithm::RsaSha256
    } else {
        SigningAlgorithm::EcdsaP256Sha256
    };
    let key = key_of(alloc, *format, *number)?;
    let holds = ToyVerifier::new().verify(kind, &key, octets, signature);
    Ok(Fields::truth(alloc, holds)?)
}

/// What a call of this module answers; None where the step is none.
pub fn answer(
    alloc: Global,
    mode: Mode,
    octets: &[u8],
    step: &Step<'_>,
) -> Option<Result<Fields, DecodeError>> {
    match step.call {
        "crl_check" => Some(crl_check(alloc, mode, octets, &step.argument)),
        "toy_signature" => Some(toy_signature(alloc, octets, &step.argument)),
        "toy_holds" => Some(toy_holds(alloc, octets, &step.argument)),
        "toy_signer" => Some(calls::toy_answer(alloc, octets, &step.argument)),
        "long_signer" => Some(calls::long_answer(alloc, octets, &step.argument)),
        _ => None,
    }
}
