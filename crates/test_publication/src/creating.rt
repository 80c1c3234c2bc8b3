//! Messages that are created, and read again.

use crate::signed::refused;
use rpki_base::{PublicKeyFormat, Time};
use rpki_der::DecodeError;
use rpki_publication::{Error, Message, PublicationCms};
use rpki_signer::{Signer, ToyScheme, ToySigner};
use std::alloc::Global;
use test_stored::Fields;

// What the toy signer of seed 1 creates of the message, with its one key, number 0.
fn created_of(alloc: Global, message: Message, when: Time) -> Result<PublicationCms, DecodeError> {
    let mut signer = ToySigner::new(alloc, 1, &[])?;
    let Ok(key) = Signer::<ToyScheme>::create_key(&mut signer, alloc, PublicKeyFormat::Rsa) else {
        return Err(DecodeError::OutOfMemory);
    };
    match PublicationCms::create::<ToyScheme, ToySigner>(alloc, message, when, &key, &mut signer) {
        Ok(cms) => Ok(cms),
        Err(_) => Err(DecodeError::Malformed),
    }
}

// The octets, whether the message that they are decoded as is the one that was created, and its text.
fn both_shown(
    alloc: Global,
    octets: &[u8],
    again: &Message,
    message: &Message,
) -> Result<Fields, DecodeError> {
    let text = again.text_bytes(alloc)?;
    let mut fields = Fields::one(alloc, octets)?;
    fields.octets(&[u8::from(again == message)])?;
    fields.octets(text.as_slice())?;
    Ok(fields)
}

fn decoded_shown(alloc: Global, octets: &[u8], message: &Message) -> Result<Fields, DecodeError> {
    match PublicationCms::decode(alloc, octets) {
        Ok(again) => both_shown(alloc, octets, again.message(), message),
        Err(error) => refused(alloc, error),
    }
}

// The octets that a signed message is written as, whether they are decoded as its message, and the text of what they are decoded as.
fn shown(alloc: Global, copy: &PublicationCms) -> Result<Fields, DecodeError> {
    let octets = copy.to_bytes(alloc)?;
    decoded_shown(alloc, octets.as_slice(), copy.message())
}

fn copy_shown(alloc: Global, cms: &PublicationCms) -> Result<Fields, DecodeError> {
    let copy = cms.clone(alloc)?;
    shown(alloc, &copy)
}

fn moment_of(argument: &[u8]) -> Option<Time> {
    Time::new(std::str::from_utf8(argument).ok()?.parse::<i64>().ok()?)
}

/// The octets of the signed message that is created of this message at the moment of the argument, whether they are decoded as it,
/// and as which text.
pub fn created(alloc: Global, message: Message, argument: &[u8]) -> Result<Fields, DecodeError> {
    let Some(when) = moment_of(argument) else {
        return Err(DecodeError::Malformed);
    };
    let cms = created_of(alloc, message, when)?;
    copy_shown(alloc, &cms)
}

/// What is created of a message that was read, at the moment of the argument; or why none was read.
pub fn created_again(
    alloc: Global,
    read: Result<Message, Error>,
    argument: &[u8],
) -> Result<Fields, DecodeError> {
    match read {
        Ok(message) => created(alloc, message, argument),
        Err(error) => refused(alloc, error),
    }
}
