//! Calls that check the certificate with which octets begin.

use rpki_base::{PublicKey, Time};
use rpki_der::{DecodeError, Mode};
use rpki_idcert::{IdCert, ValidationError, ValidationKind, names_issuer, require};
use rpki_signer::{ToyScheme, ToyVerifier};
use std::alloc::Global;
use test_stored::{Fields, Step};

// The parts of an argument `SEED/NUMBER/MOMENT`: the toy scheme's key, and a moment.
#[derive(Drop)]
struct Asked<'a> {
    seed: &'a str,
    number: &'a str,
    moment: &'a str,
}

fn asked_of<'a>(argument: &'a [u8]) -> Option<Asked<'a>> {
    let mut words = std::str::from_utf8(argument).ok()?.split('/');
    Some(Asked {
        seed: words.next()?,
        number: words.next()?,
        moment: words.next()?,
    })
}

fn moment_of(text: &str) -> Result<Time, DecodeError> {
    let Ok(seconds) = text.parse::<i64>() else {
        return Err(DecodeError::Malformed);
    };
    match Time::new(seconds) {
        Some(time) => Ok(time),
        None => Err(DecodeError::Malformed),
    }
}

fn key_of(alloc: Global, asked: &Asked<'_>) -> Result<PublicKey, DecodeError> {
    let (Ok(seed), Ok(number)) = (asked.seed.parse::<u64>(), asked.number.parse::<u64>()) else {
        return Err(DecodeError::Malformed);
    };
    Ok(ToyScheme::key(alloc, seed, number)?)
}

// The kind of the failing check and what is printed, or `ok`.
fn shown(alloc: Global, answer: Result<(), ValidationError>) -> Result<Fields, DecodeError> {
    let Err(error) = answer else {
        return Ok(Fields::done(alloc)?);
    };
    let kind = match error.kind {
        ValidationKind::Inspection => "inspection",
        ValidationKind::Verification => "verification",
    };
    let mut fields = Fields::one(alloc, kind.as_bytes())?;
    fields.print(alloc, error.check)?;
    fields.print(alloc, error)?;
    Ok(fields)
}

fn end_entity(alloc: Global, cert: &IdCert, asked: &Asked<'_>) -> Result<Fields, DecodeError> {
    let key = key_of(alloc, asked)?;
    let when = moment_of(asked.moment)?;
    shown(alloc, cert.validate_ee_at(&ToyVerifier::new(), &key, when))
}

fn anchor(alloc: Global, cert: &IdCert, asked: &Asked<'_>) -> Result<Fields, DecodeError> {
    let when = moment_of(asked.moment)?;
    shown(alloc, cert.validate_ta_at(&ToyVerifier::new(), when))
}

fn validity(alloc: Global, cert: &IdCert, asked: &Asked<'_>) -> Result<Fields, DecodeError> {
    let when = moment_of(asked.moment)?;
    Ok(Fields::truth(alloc, cert.verify_validity(when).is_ok())?)
}

// The failing check where the first of the list has number 4.
fn within(alloc: Global, cert: &IdCert, asked: &Asked<'_>) -> Result<Fields, DecodeError> {
    let key = key_of(alloc, asked)?;
    let when = moment_of(asked.moment)?;
    match cert.ee_failure(&ToyVerifier::new(), &key, when, 4) {
        Ok(()) => Ok(Fields::done(alloc)?),
        Err(check) => Ok(Fields::number(alloc, u64::from(check))?),
    }
}

// Whether each of the five checks holds.
fn each(alloc: Global, cert: &IdCert, asked: &Asked<'_>) -> Result<Fields, DecodeError> {
    let key = key_of(alloc, asked)?;
    let when = moment_of(asked.moment)?;
    let mut fields = Fields::new(alloc);
    for holds in cert.ee_checks_at(&ToyVerifier::new(), &key, when) {
        fields.octets(&[u8::from(holds)])?;
    }
    Ok(fields)
}

fn signed(alloc: Global, cert: &IdCert, asked: &Asked<'_>) -> Result<Fields, DecodeError> {
    let key = key_of(alloc, asked)?;
    let holds = cert.verify_signature(&ToyVerifier::new(), &key).is_ok();
    Ok(Fields::truth(alloc, holds)?)
}

// Whether the certificate's signed data hold under the key, asked of these data by themselves.
fn data_signed(alloc: Global, cert: &IdCert, asked: &Asked<'_>) -> Result<Fields, DecodeError> {
    let key = key_of(alloc, asked)?;
    let data = cert.signed_data();
    let verified = data.verify_signature::<ToyScheme, ToyVerifier>(&ToyVerifier::new(), &key);
    Ok(Fields::truth(alloc, verified.is_ok())?)
}

// Whether the key is named as the issuer's, by `names_issuer` and by `require` with it.
fn named(alloc: Global, cert: &IdCert, asked: &Asked<'_>) -> Result<Fields, DecodeError> {
    let key = key_of(alloc, asked)?;
    let holds = names_issuer(cert.tbs().authority_key_id(), &key);
    match require(7, holds) {
        Ok(()) => Ok(Fields::done(alloc)?),
        Err(number) => Ok(Fields::number(alloc, u64::from(number))?),
    }
}

fn checked(
    alloc: Global,
    cert: &IdCert,
    call: &str,
    asked: &Asked<'_>,
) -> Option<Result<Fields, DecodeError>> {
    match call {
        "end_entity" => Some(end_entity(alloc, cert, asked)),
        "anchor" => Some(anchor(alloc, cert, asked)),
        "validity" => Some(validity(alloc, cert, asked)),
        "within" => Some(within(alloc, cert, asked)),
        "named" => Some(named(alloc, cert, asked)),
        "each" => Some(each(alloc, cert, asked)),
        "signed" => Some(signed(alloc, cert, asked)),
        "data_signed" => Some(data_signed(alloc, cert, asked)),
        _ => None,
    }
}

/// What a call that checks a certificate answers; None where the step is none.
pub fn answer(
    alloc: Global,
    mode: Mode,
    octets: &[u8],
    step: &Step<'_>,
) -> Option<Result<Fields, DecodeError>> {
    let asked = asked_of(&step.argument)?;
    match IdCert::decode_mode(alloc, mode, octets) {
        Ok(cert) => checked(alloc, &cert, step.call, &asked),
        Err(error) => Some(Err(error)),
    }
}
