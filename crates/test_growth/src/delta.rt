//! Changes of three objects, created as a signed message and received.

use crate::ended::{Ended, told};
use crate::signing::{KEY, after_refusal, signer_of};
use bytes::Bytes;
use rpki_base::Time;
use rpki_ca::{Kind, Received, receive};
use rpki_publication::{Message, PublicationCms, Publish, PublishDelta, Update, Withdraw};
use rpki_signer::{ToyScheme, ToySigner, ToyVerifier};
use rpki_text::{Base64, Hash, uri};
use std::alloc::Global;

/// A new object.
pub fn publish(alloc: Global) -> Result<Publish, Ended> {
    let uri = uri::Rsync::from_str(alloc, "rsync://localhost/ca/f1.txt")?;
    let content = Base64::from_content(alloc, b"a")?;
    Ok(Publish::with_hash_tag(alloc, uri, content)?)
}

/// The replacement of an object.
pub fn update(alloc: Global) -> Result<Update, Ended> {
    let uri = uri::Rsync::from_str(alloc, "rsync://localhost/ca/f2.txt")?;
    let content = Base64::from_content(alloc, b"b")?;
    Ok(Update::with_hash_tag(alloc, uri, content, Hash::from_data(b"c"))?)
}

/// The removal of an object.
pub fn withdraw(alloc: Global) -> Result<Withdraw, Ended> {
    let uri = uri::Rsync::from_str(alloc, "rsync://localhost/ca/f3.txt")?;
    Ok(Withdraw::with_hash_tag(alloc, uri, Hash::from_data(b"d"))?)
}

// How a call ends that adds.
fn pushed<T: Drop>(answer: Result<(), T>) -> Result<(), Ended> {
    match answer {
        Ok(()) => Ok(()),
        Err(_) => Err(Ended::OutOfMemory),
    }
}

fn fill(alloc: Global, delta: &mut PublishDelta) -> Result<(), Ended> {
    pushed(delta.add_publish(publish(alloc)?))?;
    pushed(delta.add_update(update(alloc)?))?;
    pushed(delta.add_withdraw(withdraw(alloc)?))
}

/// A publish, an update and a withdraw.
pub fn three(alloc: Global) -> Result<PublishDelta, Ended> {
    let mut delta = PublishDelta::empty(alloc);
    fill(alloc, &mut delta)?;
    Ok(delta)
}

/// The moment at which all is made.
pub fn moment() -> Result<Time, Ended> {
    match Time::new(1700000000) {
        Some(moment) => Ok(moment),
        None => Err(Ended::Wrong),
    }
}

fn octets_of(alloc: Global, cms: &PublicationCms) -> Result<Bytes, Ended> {
    Ok(cms.to_bytes(alloc)?)
}

// The octets of what is created.
fn created(
    alloc: Global,
    message: Message,
    when: Time,
    signer: &mut ToySigner,
) -> Result<Bytes, Ended> {
    match PublicationCms::create::<ToyScheme, ToySigner>(alloc, message, when, &KEY, signer) {
        Ok(cms) => octets_of(alloc, &cms),
        Err(error) => Err(after_refusal(alloc, Ended::from(error), signer)),
    }
}

fn received(alloc: Global, octets: &[u8]) -> Result<Message, Ended> {
    let key = ToyScheme::key(alloc, 1, KEY)?;
    let verifier = ToyVerifier::new();
    match receive(alloc, Kind::Publication, octets, &key, moment()?, &verifier) {
        Ok(Received::Publication(message)) => Ok(message),
        Ok(Received::Provisioning(_)) => Err(Ended::Wrong),
        Err(error) => Err(Ended::from(error)),
    }
}

fn sent(alloc: Global, message: &Message) -> Result<Bytes, Ended> {
    let when = moment()?;
    let mut signer = signer_of(alloc)?;
    created(alloc, message.clone(alloc)?, when, &mut signer)
}

fn is_received(alloc: Global, octets: &[u8], message: &Message) -> Result<bool, Ended> {
    Ok(received(alloc, octets)? == *message)
}

// Whether the message that is created of this one is received as it.
fn is_exchanged(alloc: Global, message: &Message) -> Result<bool, Ended> {
    let octets = sent(alloc, message)?;
    is_received(alloc, octets.as_slice(), message)
}

/// Creates the message and receives it.
pub fn exchanged(alloc: Global) -> Result<(), Ended> {
    let message = Message::delta(three(alloc)?);
    told(is_exchanged(alloc, &message))
}
