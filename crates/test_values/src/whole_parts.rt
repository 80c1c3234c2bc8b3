//! Calls over octets that have no cursor: parts of certificates, and texts.

use crate::shown::{
    algorithm_shown, data_shown, key_fields, key_shown, name_shown, serial_shown, time_shown,
    validity_shown,
};
use rpki_base::{
    BgpsecSignatureAlgorithm, KeyIdentifier, Name, PublicKey, RpkiSignatureAlgorithm, Serial,
    SignatureAlgorithm, SignedData, Time, Validity,
};
use rpki_der::{DecodeError, Mode, Writer};
use std::alloc::Global;
use test_stored::{Fields, Step};

// The time that a text says.
fn time_text(alloc: Global, octets: &[u8]) -> Result<Fields, DecodeError> {
    let Ok(text) = std::str::from_utf8(octets) else {
        return Err(DecodeError::Malformed);
    };
    time_shown(
        alloc,
        Time::from_rfc3339(text).ok_or(DecodeError::Malformed),
    )
}

fn number_of(octets: &[u8]) -> Option<i64> {
    std::str::from_utf8(octets).ok()?.parse::<i64>().ok()
}

// The moment that a text says in decimal digits.
fn moment(octets: &[u8]) -> Result<Time, DecodeError> {
    let Some(seconds) = number_of(octets) else {
        return Err(DecodeError::Malformed);
    };
    Time::new(seconds).ok_or(DecodeError::Malformed)
}

// Whether a validity holds at the moment of the argument.
fn holds_at(
    alloc: Global,
    mode: Mode,
    octets: &[u8],
    seconds: &[u8],
) -> Result<Fields, DecodeError> {
    let when = moment(seconds)?;
    match Validity::take(mode, octets) {
        Some(validity) => Ok(Fields::truth(alloc, validity.verify_at(when).is_ok())?),
        None => Err(DecodeError::Malformed),
    }
}

// The serial number that a text says in decimal digits.
fn number(alloc: Global, octets: &[u8]) -> Result<Fields, DecodeError> {
    let Ok(text) = std::str::from_utf8(octets) else {
        return Err(DecodeError::Malformed);
    };
    match text.parse::<u64>() {
        Ok(number) => serial_shown(alloc, Ok(Serial::from(number))),
        Err(_) => Err(DecodeError::Malformed),
    }
}

fn identifier(alloc: Global, octets: &[u8]) -> Result<Fields, DecodeError> {
    match KeyIdentifier::from_octets(octets) {
        Some(identifier) => Ok(Fields::one(alloc, identifier.as_slice())?),
        None => Err(DecodeError::Malformed),
    }
}

// The key with which the octets begin, and the name that is made of it.
fn decoded_key(alloc: Global, octets: &[u8]) -> Result<Fields, DecodeError> {
    let key = PublicKey::decode(alloc, octets)?;
    let mut fields = key_fields(alloc, &key)?;
    fields.octets(Name::from_pub_key(alloc, &key)?.as_slice())?;
    Ok(fields)
}

fn router(alloc: Global, mode: Mode, octets: &[u8]) -> Result<Fields, DecodeError> {
    let Some(algorithm) = BgpsecSignatureAlgorithm::x509_take_from(mode, octets) else {
        return Err(DecodeError::Malformed);
    };
    let mut out = Writer::new(alloc);
    algorithm.x509_encode(&mut out)?;
    Ok(Fields::one(alloc, out.as_slice())?)
}

// The algorithm of signed data.
fn data_algorithm(alloc: Global, mode: Mode, octets: &[u8]) -> Result<Fields, DecodeError> {
    let data = SignedData::<RpkiSignatureAlgorithm>::take(alloc, mode, octets)?;
    algorithm_shown(alloc, Ok(data.signature().algorithm()))
}

// What a call that takes an algorithm or signed data answers; None where the step is none.
fn signing_answer(
    alloc: Global,
    mode: Mode,
    octets: &[u8],
    call: &str,
) -> Option<Result<Fields, DecodeError>> {
    match call {
        "x509" => Some(algorithm_shown(
            alloc,
            RpkiSignatureAlgorithm::x509_take_from(mode, octets).ok_or(DecodeError::Malformed),
        )),
        "cms" => Some(algorithm_shown(
            alloc,
            RpkiSignatureAlgorithm::cms_take_from(mode, octets).ok_or(DecodeError::Malformed),
        )),
        "router" => Some(router(alloc, mode, octets)),
        "data_algorithm" => Some(data_algorithm(alloc, mode, octets)),
        "whole_data" => Some(data_shown(
            alloc,
            SignedData::<RpkiSignatureAlgorithm>::take(alloc, mode, octets),
        )),
        "router_data" => Some(data_shown(
            alloc,
            SignedData::<BgpsecSignatureAlgorithm>::take(alloc, mode, octets),
        )),
        _ => None,
    }
}

/// What a call over octets of a mode answers; None where the step is none.
pub fn answer(
    alloc: Global,
    mode: Mode,
    octets: &[u8],
    step: &Step<'_>,
) -> Option<Result<Fields, DecodeError>> {
    match step.call {
        "whole_time" => Some(time_shown(
            alloc,
            Time::take(mode, octets).ok_or(DecodeError::Malformed),
        )),
        "whole_validity" => Some(validity_shown(
            alloc,
            Validity::take(mode, octets).ok_or(DecodeError::Malformed),
        )),
        "holds_at" => Some(holds_at(alloc, mode, octets, &step.argument)),
        "whole_serial" => Some(serial_shown(
            alloc,
            Serial::take(mode, octets).ok_or(DecodeError::Malformed),
        )),
        "whole_name" => Some(name_shown(alloc, Name::take(alloc, mode, octets))),
        "whole_key" => Some(key_shown(alloc, PublicKey::take(alloc, mode, octets))),
        call => signing_answer(alloc, mode, octets, call),
    }
}

/// What a call over octets or a text answers in any mode; None where the step is none.
pub fn plain_answer(
    alloc: Global,
    octets: &[u8],
    step: &Step<'_>,
) -> Option<Result<Fields, DecodeError>> {
    match step.call {
        "time_text" => Some(time_text(alloc, octets)),
        "moment" => Some(time_shown(alloc, moment(octets))),
        "number" => Some(number(alloc, octets)),
        "identifier_of" => Some(identifier(alloc, octets)),
        "decoded_key" => Some(decoded_key(alloc, octets)),
        _ => None,
    }
}
