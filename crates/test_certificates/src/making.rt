//! Certificates that the toy signer of seed 1 makes with its one key, number 0.

use rpki_base::{PublicKeyFormat, Time, Validity};
use rpki_der::DecodeError;
use rpki_idcert::IdCert;
use rpki_signer::{Signer, ToyScheme, ToySigner};
use std::alloc::Global;
use test_stored::{Fields, Step};

fn signer_of(alloc: Global) -> Result<(ToySigner, u64), DecodeError> {
    let mut signer = ToySigner::new(alloc, 1, &[])?;
    match Signer::<ToyScheme>::create_key(&mut signer, alloc, PublicKeyFormat::Rsa) {
        Ok(key) => Ok((signer, key)),
        Err(_) => Err(DecodeError::OutOfMemory),
    }
}

fn time_of(text: &str) -> Option<Time> {
    Time::new(text.parse::<i64>().ok()?)
}

/// A number and a validity.
pub fn asked_of(argument: &[u8]) -> Option<(u64, Validity)> {
    let mut words = std::str::from_utf8(argument).ok()?.split('/');
    let number = words.next()?.parse::<u64>().ok()?;
    let first = time_of(words.next()?)?;
    let last = time_of(words.next()?)?;
    Some((number, Validity::new(first, last)))
}

// The octets of the anchor's certificate.
fn anchor(alloc: Global, validity: Validity) -> Result<Fields, DecodeError> {
    let (mut signer, key) = signer_of(alloc)?;
    match IdCert::new_ta::<ToyScheme, ToySigner>(alloc, validity, &key, &mut signer) {
        Ok(cert) => Ok(Fields::one(alloc, cert.to_bytes(alloc)?.as_slice())?),
        Err(_) => Err(DecodeError::OutOfMemory),
    }
}

// The octets of the certificate of the toy scheme's key of this number.
fn entity(alloc: Global, number: u64, validity: Validity) -> Result<Fields, DecodeError> {
    let (mut signer, key) = signer_of(alloc)?;
    let own = ToyScheme::key(alloc, 1, number)?;
    match IdCert::new_ee::<ToyScheme, ToySigner>(alloc, &own, validity, &key, &mut signer) {
        Ok(cert) => Ok(Fields::one(alloc, cert.to_bytes(alloc)?.as_slice())?),
        Err(_) => Err(DecodeError::OutOfMemory),
    }
}

/// What a call of this module answers; None where the step is none.
pub fn answer(alloc: Global, step: &Step<'_>) -> Option<Result<Fields, DecodeError>> {
    if step.call != "made_anchor" && step.call != "made_entity" {
        return None;
    }
    let Some((number, validity)) = asked_of(&step.argument) else {
        return Some(Err(DecodeError::Malformed));
    };
    if step.call == "made_anchor" {
        Some(anchor(alloc, validity))
    } else {
        Some(entity(alloc, number, validity))
    }
}
