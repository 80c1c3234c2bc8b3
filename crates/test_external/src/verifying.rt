//! The calls of setup messages, of trust anchors' certificates and of requests, by themselves.

use crate::calls::shown;
use crate::parts::{answers_at, bound_answers_at, bytes_at, key_at, refused};
use crate::{memory, out_of_memory};
use rpki_base::{PublicKey, PublicKeyFormat, Validity};
use rpki_ca::Words;
use rpki_cert::{RpkiCaCsr, construct_rpki_ca};
use rpki_external::{
    RequestPlan, anchor_answered, anchor_questions, finish_anchor, finish_request, prepare_anchor,
    prepare_request, request_answered, request_questions, setup_answered, setup_questions,
};
use rpki_idcert::IdCert;
use rpki_signer::{Signer, ToyScheme, ToySigner};
use rpki_text::uri::{Https, Rsync};
use std::alloc::Global;
use std::fmt::Display;
use std::io;
use test_stored::{Fields, invalid};

// What is said of a verification.
fn done<E: Display + Drop>(alloc: Global, answer: Result<(), E>) -> io::Result<Fields> {
    match answer {
        Ok(()) => Ok(Fields::done(alloc)?),
        Err(error) => refused(alloc, error),
    }
}

// ---- setup messages

/// What is shown of the questions of a setup message with answers: the words are its kind, and answers.
pub(crate) fn setup_asked(alloc: Global, input: &[u8], words: &Words) -> io::Result<Fields> {
    let Some(kind) = words.setup_kind(0) else {
        return Err(invalid());
    };
    let values = answers_at(alloc, words, 1)?;
    match setup_questions(alloc, kind, input) {
        Ok(questions) => shown(alloc, &questions, values),
        Err(error) => refused(alloc, error),
    }
}

/// The text of a setup message that is verified by answers: the words are its kind, the moment, digest, and answers.
pub(crate) fn set_up(alloc: Global, input: &[u8], words: &Words) -> io::Result<Fields> {
    let (Some(kind), Some(when)) = (words.setup_kind(0), words.moment(1)) else {
        return Err(invalid());
    };
    let answers = bound_answers_at(alloc, words, 2)?;
    match setup_answered(alloc, kind, input, when, &answers) {
        Ok(message) => Ok(Fields::one(alloc, &message.to_xml_vec(alloc).map_err(memory)?)?),
        Err(error) => refused(alloc, error),
    }
}

// ---- trust anchors

fn certificate_in(alloc: Global, input: &[u8]) -> io::Result<IdCert> {
    IdCert::decode(alloc, input).map_err(|_| invalid())
}

// The validity of the first two words.
fn validity_of(words: &Words) -> io::Result<Validity> {
    match (words.moment(0), words.moment(1)) {
        (Some(first), Some(last)) => Ok(Validity::new(first, last)),
        _ => Err(invalid()),
    }
}

/// What is shown of the questions of a trust anchor's certificate with the answers of the first word.
pub(crate) fn anchor_asked(alloc: Global, input: &[u8], words: &Words) -> io::Result<Fields> {
    let certificate = certificate_in(alloc, input)?;
    let questions = anchor_questions(alloc, &certificate).map_err(memory)?;
    shown(alloc, &questions, answers_at(alloc, words, 0)?)
}

/// Whether a trust anchor's certificate is verified by answers: the words are the moment, digest, and answers.
pub(crate) fn anchor(alloc: Global, input: &[u8], words: &Words) -> io::Result<Fields> {
    let Some(when) = words.moment(0) else {
        return Err(invalid());
    };
    let certificate = certificate_in(alloc, input)?;
    let answers = bound_answers_at(alloc, words, 1)?;
    done(alloc, anchor_answered(alloc, &certificate, when, &answers))
}

/// What is to be signed of a key's own certificate: the words are its first and last second, and the key.
pub(crate) fn anchor_prepared(alloc: Global, words: &Words) -> io::Result<Fields> {
    let validity = validity_of(words)?;
    match prepare_anchor(alloc, &key_at(alloc, words, 2)?, validity) {
        Ok(unsigned) => Ok(Fields::one(alloc, unsigned.as_slice())?),
        Err(error) => refused(alloc, error),
    }
}

fn certificate_shown(alloc: Global, certificate: &IdCert) -> io::Result<Fields> {
    let octets = certificate.to_bytes(alloc).map_err(memory)?;
    Ok(Fields::one(alloc, octets.as_slice())?)
}

/// A key's own certificate with a signature: the words are its first and last second, the key, and the signature.
pub(crate) fn anchor_finished(alloc: Global, words: &Words) -> io::Result<Fields> {
    let validity = validity_of(words)?;
    let key = key_at(alloc, words, 2)?;
    match finish_anchor(alloc, &key, validity, bytes_at(alloc, words, 3)?) {
        Ok(certificate) => certificate_shown(alloc, &certificate),
        Err(error) => refused(alloc, error),
    }
}

// A toy signer of seed 1 that holds key 0, by its identifier.
fn signer_of(alloc: Global) -> io::Result<(ToySigner, u64)> {
    let mut signer = ToySigner::new(alloc, 1, &[]).map_err(memory)?;
    match Signer::<ToyScheme>::create_key(&mut signer, alloc, PublicKeyFormat::Rsa) {
        Ok(key) => Ok((signer, key)),
        Err(_) => Err(out_of_memory()),
    }
}

/// The own certificate of key 0 that the toy signer makes: the words are its first and last second.
pub(crate) fn anchor_made(alloc: Global, words: &Words) -> io::Result<Fields> {
    let validity = validity_of(words)?;
    let (mut signer, key) = signer_of(alloc)?;
    match IdCert::new_ta::<ToyScheme, ToySigner>(alloc, validity, &key, &mut signer) {
        Ok(certificate) => certificate_shown(alloc, &certificate),
        Err(_) => Err(out_of_memory()),
    }
}

// ---- requests

fn request_in(alloc: Global, input: &[u8]) -> io::Result<RpkiCaCsr> {
    RpkiCaCsr::decode(alloc, input).map_err(|_| invalid())
}

/// What is shown of the questions of a request with the answers of the first word.
pub(crate) fn request_asked(alloc: Global, input: &[u8], words: &Words) -> io::Result<Fields> {
    let request = request_in(alloc, input)?;
    let questions = request_questions(alloc, &request).map_err(memory)?;
    shown(alloc, &questions, answers_at(alloc, words, 0)?)
}

/// Whether a request is verified by answers: the words are digest, and answers.
pub(crate) fn request(alloc: Global, input: &[u8], words: &Words) -> io::Result<Fields> {
    let request = request_in(alloc, input)?;
    let answers = bound_answers_at(alloc, words, 0)?;
    done(alloc, request_answered(alloc, &request, &answers))
}

fn rsync_at(alloc: Global, words: &Words, index: usize) -> io::Result<Rsync> {
    Rsync::from_str(alloc, words.get(index).unwrap_or("")).map_err(|_| invalid())
}

fn https_at(alloc: Global, words: &Words, index: usize) -> io::Result<Option<Https>> {
    match words.get(index).unwrap_or("") {
        "-" => Ok(None),
        text => Ok(Some(Https::from_str(alloc, text).map_err(|_| invalid())?)),
    }
}

// The plan of the key and the words from 1 to 3: repository, manifest, and where changes are notified, or a hyphen.
fn plan_for(alloc: Global, key: PublicKey, words: &Words) -> io::Result<RequestPlan> {
    Ok(RequestPlan {
        key,
        ca_repository: rsync_at(alloc, words, 1)?,
        rpki_manifest: rsync_at(alloc, words, 2)?,
        rpki_notify: https_at(alloc, words, 3)?,
    })
}

/// What is to be signed of a request: the words are the key and three places.
pub(crate) fn request_prepared(alloc: Global, words: &Words) -> io::Result<Fields> {
    let plan = plan_for(alloc, key_at(alloc, words, 0)?, words)?;
    match prepare_request(alloc, &plan) {
        Ok(unsigned) => Ok(Fields::one(alloc, unsigned.as_slice())?),
        Err(error) => refused(alloc, error),
    }
}

/// A request with a signature: the words are the key, three places, and the signature.
pub(crate) fn request_finished(alloc: Global, words: &Words) -> io::Result<Fields> {
    let plan = plan_for(alloc, key_at(alloc, words, 0)?, words)?;
    match finish_request(alloc, &plan, bytes_at(alloc, words, 4)?) {
        Ok(octets) => Ok(Fields::one(alloc, octets.as_slice())?),
        Err(error) => refused(alloc, error),
    }
}

/// The request that the toy signer makes for the places, under key 0, which the first word spells.
pub(crate) fn request_made(alloc: Global, words: &Words) -> io::Result<Fields> {
    let plan = plan_for(alloc, key_at(alloc, words, 0)?, words)?;
    let (mut signer, key) = signer_of(alloc)?;
    match construct_rpki_ca::<ToyScheme, ToySigner>(
        alloc,
        &mut signer,
        &key,
        &plan.ca_repository,
        &plan.rpki_manifest,
        plan.rpki_notify.as_ref(),
    ) {
        Ok(octets) => Ok(Fields::one(alloc, octets.as_slice())?),
        Err(_) => Err(out_of_memory()),
    }
}
