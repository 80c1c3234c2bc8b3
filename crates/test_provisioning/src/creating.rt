//! Signed messages that are created, and decoded again.

use crate::answers::{append_print, append_str, append_truth, number_of, refused, text_of};
use crate::signed::moment_of;
use rpki_base::{PublicKeyFormat, Time, ToyFault};
use rpki_der::DecodeError;
use rpki_provisioning::{Message, ProvisioningCms};
use rpki_sigmsg::CreateError;
use rpki_signer::{Signer, ToyScheme, ToySigner};
use rpki_updown::Error;
use std::alloc::Global;
use test_stored::Fields;

// The toy signer of seed 1, whose first call made a key, number 0.
fn signer_of(alloc: Global) -> Result<ToySigner, DecodeError> {
    let mut signer = ToySigner::new(alloc, 1, &[])?;
    match Signer::<ToyScheme>::create_key(&mut signer, alloc, PublicKeyFormat::Rsa) {
        Ok(_) => Ok(signer),
        Err(_) => Err(DecodeError::OutOfMemory),
    }
}

// The name of a refusal of which no standard says what it prints.
fn name_of(error: &CreateError<ToyFault>) -> Option<&'static str> {
    match error {
        CreateError::Moment => Some("Moment"),
        CreateError::TooLong => Some("TooLong"),
        CreateError::KeyReused => Some("KeyReused"),
        _ => None,
    }
}

// Why none was created, as what is printed, or as its name.
fn uncreated(alloc: Global, error: &CreateError<ToyFault>) -> Result<Fields, DecodeError> {
    if matches!(error, CreateError::OutOfMemory) {
        return Err(DecodeError::OutOfMemory);
    }
    let mut fields = Fields::one(alloc, b"refused")?;
    match name_of(error) {
        Some(name) => append_str(&mut fields, name)?,
        None => append_print(alloc, &mut fields, error)?,
    }
    Ok(fields)
}

// Whether what was decoded holds this message; or why nothing was decoded.
fn again_shown(
    alloc: Global,
    again: &Result<ProvisioningCms, Error>,
    message: &Message,
) -> Result<Fields, DecodeError> {
    match again {
        Ok(again) => Ok(Fields::truth(alloc, again.message().equals(alloc, message)?)?),
        Err(error) => refused(alloc, error),
    }
}

// Whether the octets are decoded as this message, or why not.
fn decoded_again(alloc: Global, octets: &[u8], message: &Message) -> Result<Fields, DecodeError> {
    let again = ProvisioningCms::decode(alloc, octets);
    again_shown(alloc, &again, message)
}

// Whether the octets that are written of it are decoded as its message, and these octets.
fn copy_shown(alloc: Global, cms: &ProvisioningCms) -> Result<Fields, DecodeError> {
    let octets = cms.to_bytes(alloc)?;
    let mut fields = decoded_again(alloc, octets.as_slice(), cms.message())?;
    fields.octets(octets.as_slice())?;
    Ok(fields)
}

fn created_shown(
    alloc: Global,
    answer: &Result<ProvisioningCms, CreateError<ToyFault>>,
) -> Result<Fields, DecodeError> {
    match answer {
        Ok(cms) => copy_shown(alloc, &cms.clone(alloc)?),
        Err(error) => uncreated(alloc, error),
    }
}

// What is shown of the signed message that the signer creates under the key with this number; or why there is none.
fn created_by(
    alloc: Global,
    signer: &mut ToySigner,
    message: Message,
    when: Time,
    key: u64,
) -> Result<Fields, DecodeError> {
    let answer = ProvisioningCms::create::<ToyScheme, ToySigner>(
        alloc, message, when, &key, signer,
    );
    created_shown(alloc, &answer)
}

fn created_under(
    alloc: Global,
    message: Message,
    when: Time,
    key: u64,
) -> Result<Fields, DecodeError> {
    let mut signer = signer_of(alloc)?;
    created_by(alloc, &mut signer, message, when, key)
}

/// What the toy signer of seed 1 creates of this message, as the argument `MOMENT/KEY` says: whether the octets that a copy is written
/// as are decoded as the message, or why not, and these octets; or why nothing is created.
pub fn created(alloc: Global, message: Message, argument: &[u8]) -> Result<Fields, DecodeError> {
    let Some((moment, key)) = text_of(argument)?.split_once('/') else {
        return Err(DecodeError::Malformed);
    };
    match moment_of(moment) {
        Some(when) => created_under(alloc, message, when, number_of(key)?),
        None => Err(DecodeError::Malformed),
    }
}

/// What the toy signer of seed 1 creates of a message that was read, as the argument `MOMENT/KEY` says; or why none was read.
pub fn created_of(
    alloc: Global,
    read: &Result<Message, Error>,
    argument: &[u8],
) -> Result<Fields, DecodeError> {
    match read {
        Ok(message) => created(alloc, message.clone(alloc)?, argument),
        Err(error) => refused(alloc, error),
    }
}
