//! Signed messages of the provisioning protocol, under keys of the toy scheme's seed 1.

ghost use Rattle.std.specs.Prelude.{◌≤◌, length, IfSome};

use crate::answers::{append_truth, number_of, refused, text_of};
use crate::texts::written;
use rpki_base::{PublicKey, Time};
use rpki_der::DecodeError;
use rpki_provisioning::{Message, ProvisioningCms};
use rpki_sigmsg::SignedMessage;
use rpki_signer::{ToyScheme, ToyVerifier};
use rpki_updown::Error;
use std::alloc::Global;
use test_stored::{Fields, Step};

// ---- what is decoded

// The content, and the message as it is written.
fn whole_fields(alloc: Global, cms: &ProvisioningCms) -> Result<Fields, DecodeError> {
    let text = cms.message().text_bytes(alloc)?;
    let mut fields = Fields::one(alloc, cms.signed_message().content().as_slice())?;
    fields.octets(text.as_slice())?;
    Ok(fields)
}

/// The content, and the message as it is written.
pub fn decoded(
    alloc: Global,
    decoded: &Result<ProvisioningCms, Error>,
) -> Result<Fields, DecodeError> {
    match decoded {
        Ok(cms) => whole_fields(alloc, cms),
        Err(error) => refused(alloc, error),
    }
}

// The digest, whether it holds, and the message as it is written.
fn signed_fields(
    alloc: Global,
    signed: &SignedMessage,
    message: &Message,
) -> Result<Fields, DecodeError> {
    let text = message.text_bytes(alloc)?;
    let mut fields = Fields::one(alloc, signed.digest())?;
    append_truth(&mut fields, signed.digest_holds())?;
    fields.octets(text.as_slice())?;
    Ok(fields)
}

fn unpacked_shown(alloc: Global, cms: ProvisioningCms) -> Result<Fields, DecodeError> {
    let (signed, message) = cms.unpack();
    signed_fields(alloc, &signed, &message)
}

// The digest, whether it holds, and the message as it is written, of what a copy is taken to.
fn unpacked(
    alloc: Global,
    decoded: &Result<ProvisioningCms, Error>,
) -> Result<Fields, DecodeError> {
    match decoded {
        Ok(cms) => unpacked_shown(alloc, cms.clone(alloc)?),
        Err(error) => refused(alloc, error),
    }
}

fn message_shown(alloc: Global, cms: ProvisioningCms) -> Result<Fields, DecodeError> {
    written(alloc, &cms.into_message())
}

// The message as it is written, handed out by a copy.
fn message(alloc: Global, decoded: &Result<ProvisioningCms, Error>) -> Result<Fields, DecodeError> {
    match decoded {
        Ok(cms) => message_shown(alloc, cms.clone(alloc)?),
        Err(error) => refused(alloc, error),
    }
}

// The signed message, written again.
fn rewritten(
    alloc: Global,
    decoded: &Result<ProvisioningCms, Error>,
) -> Result<Fields, DecodeError> {
    match decoded {
        Ok(cms) => Ok(Fields::one(alloc, cms.to_bytes(alloc)?.as_slice())?),
        Err(error) => refused(alloc, error),
    }
}

// ---- moments and keys

// A moment, and keys.
#[derive(Drop)]
struct Asked {
    when: Time,
    keys: Vec<PublicKey>,
}

/// The moment that a text is, in seconds since 1970.
pub fn moment_of(text: &str) -> Option<Time> {
    Time::new(text.parse::<i64>().ok()?)
}

// The keys whose numbers stand behind a `/` each.
fn keys_of(alloc: Global, argument: &str) -> Result<Vec<PublicKey>, DecodeError> {
    let mut keys = Vec::new(alloc);
    for word in argument.split('/').skip(1) {
        keys.push(ToyScheme::key(alloc, 1, number_of(word)?)?)?;
    }
    Ok(keys)
}

// What the argument `MOMENT/NUMBER..` says.
fn asked_of(alloc: Global, argument: &[u8]) -> Result<Asked, DecodeError> {
    let argument = text_of(argument)?;
    let Some(when) = moment_of(argument.split('/').next().unwrap_or("")) else {
        return Err(DecodeError::Malformed);
    };
    let keys = keys_of(alloc, argument)?;
    Ok(Asked { when, keys })
}

// The keys, if they are one to eight.
fn few(keys: &[PublicKey]) -> Option<&[PublicKey]>
    ensures some { IfSome result (λ s. 1 ≤ length s.now) }
    ensures few { IfSome result (λ s. length s.now ≤ 8) }
{
    if keys.is_empty() || keys.len() > 8 {
        return None;
    }
    Some(keys)
}

fn validated(alloc: Global, answer: &Result<(), Error>) -> Result<Fields, DecodeError> {
    match answer {
        Ok(()) => Ok(Fields::done(alloc)?),
        Err(error) => refused(alloc, error),
    }
}

fn checked_in(
    alloc: Global,
    cms: &ProvisioningCms,
    argument: &[u8],
) -> Result<Fields, DecodeError> {
    let asked = asked_of(alloc, argument)?;
    let Some(key) = asked.keys.first() else {
        return Err(DecodeError::Malformed);
    };
    validated(
        alloc,
        &cms.validate_at(&ToyVerifier::new(), key, asked.when),
    )
}

// What the checks answer under the first of the keys.
fn checked(
    alloc: Global,
    decoded: &Result<ProvisioningCms, Error>,
    argument: &[u8],
) -> Result<Fields, DecodeError> {
    match decoded {
        Ok(cms) => checked_in(alloc, cms, argument),
        Err(error) => refused(alloc, error),
    }
}

fn place_shown(alloc: Global, answer: &Result<usize, Error>) -> Result<Fields, DecodeError> {
    match answer {
        Ok(place) => Ok(Fields::number(alloc, *place as u64)?),
        Err(error) => refused(alloc, error),
    }
}

fn believed_in(
    alloc: Global,
    cms: &ProvisioningCms,
    argument: &[u8],
) -> Result<Fields, DecodeError> {
    let asked = asked_of(alloc, argument)?;
    let Some(keys) = few(&asked.keys) else {
        return Err(DecodeError::Malformed);
    };
    place_shown(
        alloc,
        &cms.validate_any_at(&ToyVerifier::new(), keys, asked.when),
    )
}

// The place of the first of the keys under which the message is believed.
fn believed(
    alloc: Global,
    decoded: &Result<ProvisioningCms, Error>,
    argument: &[u8],
) -> Result<Fields, DecodeError> {
    match decoded {
        Ok(cms) => believed_in(alloc, cms, argument),
        Err(error) => refused(alloc, error),
    }
}

// What is asked of what octets were decoded as; None where the step is none of these.
fn of_decoded(
    alloc: Global,
    cms: &Result<ProvisioningCms, Error>,
    step: &Step<'_>,
) -> Option<Result<Fields, DecodeError>> {
    let argument = &step.argument;
    match step.call {
        "decoded" => Some(decoded(alloc, cms)),
        "signed" => Some(unpacked(alloc, cms)),
        "message" => Some(message(alloc, cms)),
        "rewritten" => Some(rewritten(alloc, cms)),
        "checked" => Some(checked(alloc, cms, argument)),
        "believed" => Some(believed(alloc, cms, argument)),
        _ => None,
    }
}

/// What a call of this module answers; None where the step is none.
pub fn answer(
    alloc: Global,
    octets: &[u8],
    step: &Step<'_>,
) -> Option<Result<Fields, DecodeError>> {
    let cms = ProvisioningCms::decode(alloc, octets);
    of_decoded(alloc, &cms, step)
}
