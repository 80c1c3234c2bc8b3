//! Calls under keys of the toy scheme's seed 1, at a moment.

ghost use Rattle.std.specs.Prelude.{◌≤◌, length, IfSome};

use crate::signed::refused;
use rpki_base::{PublicKey, Time};
use rpki_ca::{
    Kind, ReceiveError, Received, receive, receive_any, receive_any_counted, receive_counted,
};
use rpki_der::{DecodeError, Steps};
use rpki_publication::{Error, PublicationCms};
use rpki_sigmsg::SignedMessage;
use rpki_signer::{ToyScheme, ToyVerifier};
use std::alloc::Global;
use std::sync::ledger::Ledger;
use test_stored::Fields;

// A moment, and keys.
#[derive(Drop)]
struct Asked {
    when: Time,
    keys: Vec<PublicKey>,
}

fn moment_of(word: &str) -> Option<Time> {
    Time::new(word.parse::<i64>().ok()?)
}

// The keys whose numbers stand behind a `/` each.
fn keys_of(alloc: Global, argument: &str) -> Result<Vec<PublicKey>, DecodeError> {
    let mut keys = Vec::new(alloc);
    for word in argument.split('/').skip(1) {
        let Ok(number) = word.parse::<u64>() else {
            return Err(DecodeError::Malformed);
        };
        keys.push(ToyScheme::key(alloc, 1, number)?)?;
    }
    Ok(keys)
}

// What the argument `MOMENT/NUMBER..` says.
fn asked_of(alloc: Global, argument: &[u8]) -> Result<Asked, DecodeError> {
    let Ok(argument) = std::str::from_utf8(argument) else {
        return Err(DecodeError::Malformed);
    };
    let Some(when) = moment_of(argument.split('/').next().unwrap_or("")) else {
        return Err(DecodeError::Malformed);
    };
    let keys = keys_of(alloc, argument)?;
    Ok(Asked { when, keys })
}

// The keys, if they are one to eight.
fn few(keys: &[PublicKey]) -> Option<&[PublicKey]>
    ensures some { IfSome result (λ s. 1 ≤ length s.now) }
    ensures few { IfSome result (λ s. length s.now ≤ 8) }
{
    if keys.is_empty() || keys.len() > 8 {
        return None;
    }
    Some(keys)
}

// What was received, as it is written; or what is printed.
fn received_shown(
    alloc: Global,
    answer: Result<Received, ReceiveError>,
) -> Result<Fields, DecodeError> {
    match answer {
        Ok(received) => Ok(Fields::one(alloc, received.to_xml_bytes(alloc)?.as_slice())?),
        Err(ReceiveError::OutOfMemory) => Err(DecodeError::OutOfMemory),
        Err(error) => {
            let mut fields = Fields::one(alloc, b"refused")?;
            fields.print(alloc, error)?;
            Ok(fields)
        }
    }
}

// What was received, as it is written, and the place of the key; or what is printed.
fn placed_shown(
    alloc: Global,
    answer: Result<(Received, usize), ReceiveError>,
) -> Result<Fields, DecodeError> {
    match answer {
        Ok((received, place)) => {
            let mut fields = received_shown(alloc, Ok(received))?;
            fields.print(alloc, place)?;
            Ok(fields)
        }
        Err(error) => received_shown(alloc, Err(error)),
    }
}

// The place of the key, or what is printed.
fn place_shown(alloc: Global, answer: Result<usize, Error>) -> Result<Fields, DecodeError> {
    match answer {
        Ok(place) => Ok(Fields::number(alloc, place as u64)?),
        Err(error) => refused(alloc, error),
    }
}

fn place_in_message(
    alloc: Global,
    cms: &PublicationCms,
    argument: &[u8],
) -> Result<Fields, DecodeError> {
    let asked = asked_of(alloc, argument)?;
    let Some(keys) = few(&asked.keys) else {
        return Err(DecodeError::Malformed);
    };
    place_shown(
        alloc,
        cms.validate_any_at(&ToyVerifier::new(), keys, asked.when),
    )
}

/// The place of the key under which the message is believed.
pub fn believed(
    alloc: Global,
    decoded: Result<PublicationCms, Error>,
    argument: &[u8],
) -> Result<Fields, DecodeError> {
    match decoded {
        Ok(cms) => place_in_message(alloc, &cms, argument),
        Err(error) => refused(alloc, error),
    }
}

fn place_in_signed(
    alloc: Global,
    signed: &SignedMessage,
    argument: &[u8],
) -> Result<Fields, DecodeError> {
    let asked = asked_of(alloc, argument)?;
    let Some(keys) = few(&asked.keys) else {
        return Err(DecodeError::Malformed);
    };
    match signed.validate_any_at(&ToyVerifier::new(), keys, asked.when) {
        Ok(place) => place_shown(alloc, Ok(place)),
        Err(error) => place_shown(alloc, Err(Error::Validation(error))),
    }
}

/// The place of the key under which the signed message by itself is believed.
pub fn signed_believed(
    alloc: Global,
    decoded: Result<PublicationCms, Error>,
    argument: &[u8],
) -> Result<Fields, DecodeError> {
    match decoded {
        Ok(cms) => place_in_signed(alloc, cms.signed_message(), argument),
        Err(error) => refused(alloc, error),
    }
}

/// What is received under the first of the keys.
pub fn received(alloc: Global, octets: &[u8], argument: &[u8]) -> Result<Fields, DecodeError> {
    let asked = asked_of(alloc, argument)?;
    let Some(key) = asked.keys.first() else {
        return Err(DecodeError::Malformed);
    };
    let kind = Kind::Publication;
    received_shown(
        alloc,
        receive(alloc, kind, octets, key, asked.when, &ToyVerifier::new()),
    )
}

/// What the counted call receives under the first of the keys.
pub fn received_counted<L: Ledger>(
    alloc: Global,
    octets: &[u8],
    argument: &[u8],
    steps: &mut Steps<L>,
) -> Result<Fields, DecodeError> {
    let asked = asked_of(alloc, argument)?;
    let Some(key) = asked.keys.first() else {
        return Err(DecodeError::Malformed);
    };
    let kind = Kind::Publication;
    let answer = receive_counted(
        alloc,
        kind,
        octets,
        key,
        asked.when,
        &ToyVerifier::new(),
        steps,
    );
    received_shown(alloc, answer)
}

/// What is received under one of the keys, and its place.
pub fn received_any(alloc: Global, octets: &[u8], argument: &[u8]) -> Result<Fields, DecodeError> {
    let asked = asked_of(alloc, argument)?;
    let Some(keys) = few(&asked.keys) else {
        return Err(DecodeError::Malformed);
    };
    let kind = Kind::Publication;
    placed_shown(
        alloc,
        receive_any(alloc, kind, octets, keys, asked.when, &ToyVerifier::new()),
    )
}

/// What the counted call receives under one of the keys, and its place.
pub fn received_any_counted<L: Ledger>(
    alloc: Global,
    octets: &[u8],
    argument: &[u8],
    steps: &mut Steps<L>,
) -> Result<Fields, DecodeError> {
    let asked = asked_of(alloc, argument)?;
    let Some(keys) = few(&asked.keys) else {
        return Err(DecodeError::Malformed);
    };
    let kind = Kind::Publication;
    let answer = receive_any_counted(
        alloc,
        kind,
        octets,
        keys,
        asked.when,
        &ToyVerifier::new(),
        steps,
    );
    placed_shown(alloc, answer)
}
