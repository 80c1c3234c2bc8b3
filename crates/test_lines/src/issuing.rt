//! What a child is told of classes, and an issuer by itself.

use crate::parents::{add_did, class_of, set_of, until};
use crate::up::{Failing, first_issuer, out_of_memory, push};
use crate::{Case, text_in};
use rpki_ca::Words;
use rpki_provisioning::Message;
use rpki_text::{RecipientHandle, SenderHandle};
use rpki_updown::{
    Cert, KeyIdentifier, ResourceClassEntitlements, ResourceClassListResponse, ResourceClassName,
    RpkiCaCsr, SigningCert,
};
use rpki_upserver::{Class, Issuer, IssuerError, ToyIssuer};
use std::alloc::Global;
use std::io;
use test_stored::{invalid, octets_of};

// ---- what is told

fn handles(alloc: Global) -> io::Result<(SenderHandle, RecipientHandle)> {
    let Ok(me) = SenderHandle::from_str(alloc, "Bob") else {
        return Err(out_of_memory());
    };
    match RecipientHandle::from_str(alloc, "Carol") {
        Ok(child) => Ok((me, child)),
        Err(_) => Err(out_of_memory()),
    }
}

// The answer with this class alone.
fn listing(alloc: Global, told: ResourceClassEntitlements) -> io::Result<Message> {
    let mut classes = Vec::new(alloc);
    push(&mut classes, told)?;
    let (me, child) = handles(alloc)?;
    Ok(Message::list_response(me, child, ResourceClassListResponse::new(classes)))
}

// The octets of the answer.
fn listed(alloc: Global, told: ResourceClassEntitlements) -> io::Result<Vec<u8>> {
    let message = listing(alloc, told)?;
    match message.text_bytes(alloc) {
        Ok(text) => Ok(text.as_slice().to_vec(alloc)?),
        Err(_) => Err(out_of_memory()),
    }
}

/// Adds a line of what the child is told of a class.
pub fn add_told(alloc: Global, text: &mut Vec<u8>, class: &Class) -> io::Result<()> {
    let Ok(told) = class.entitlements(alloc) else {
        return Err(out_of_memory());
    };
    text.extend_from_slice(&listed(alloc, told)?)?;
    Ok(text.push(b'\n')?)
}

// The key identifier that a text spells.
fn identifier_of(alloc: Global, digits: &str) -> io::Result<KeyIdentifier> {
    match KeyIdentifier::from_octets(&octets_of(alloc, digits)?) {
        Some(key) => Ok(key),
        None => Err(invalid()),
    }
}

// Adds a line of where a certificate of this key is published.
fn add_place(
    alloc: Global,
    text: &mut Vec<u8>,
    class: &Class,
    key: KeyIdentifier,
) -> io::Result<()> {
    let Ok(uri) = class.uri_of(alloc, key) else {
        return Err(out_of_memory());
    };
    text.extend_from_slice(uri.as_str().as_bytes())?;
    Ok(text.push(b'\n')?)
}

// The two lines of a class.
fn shown(alloc: Global, class: &Class, key: KeyIdentifier) -> io::Result<Vec<u8>> {
    let mut text = Vec::new(alloc);
    add_place(alloc, &mut text, class, key)?;
    add_told(alloc, &mut text, class)?;
    Ok(text)
}

fn word(words: &Words, index: usize) -> io::Result<&str> {
    match words.get(index) {
        Some(word) => Ok(word),
        None => Err(invalid()),
    }
}

fn shown_under(alloc: Global, case: &Case, signing: &SigningCert) -> io::Result<Vec<u8>> {
    let (name, base) = (word(&case.words, 0)?, word(&case.words, 1)?);
    let class = class_of(alloc, name, base, word(&case.words, 2)?, signing)?;
    shown(alloc, &class, identifier_of(alloc, text_in(case)?)?)
}

/// Whether a class of the name, the directory and the AS numbers that the words say has the two lines that the case expects: where a
/// certificate of the key is published that the input names, and what the child is told.
pub fn holds_class(alloc: Global, case: &Case) -> io::Result<bool> {
    let (_issuer, signing) = first_issuer(alloc, &Failing::of("")?)?;
    let text = shown_under(alloc, case, &signing)?;
    Ok(text.as_slice() == case.output.as_slice())
}

// ---- an issuer

fn digits_of(alloc: Global, cert: &Cert) -> io::Result<String> {
    let Ok(octets) = cert.to_captured(alloc) else {
        return Err(out_of_memory());
    };
    match hex::encode(alloc, octets.as_slice()) {
        Ok(digits) => Ok(digits),
        Err(_) => Err(out_of_memory()),
    }
}

fn failed(alloc: Global, error: IssuerError) -> io::Result<String> {
    match error {
        IssuerError::Failed => Ok(format!(in alloc; "Failed")?),
        IssuerError::OutOfMemory => Err(out_of_memory()),
    }
}

fn issued(
    alloc: Global,
    issuer: &mut ToyIssuer,
    name: &ResourceClassName,
    csr: &RpkiCaCsr,
) -> io::Result<String> {
    let set = set_of(alloc, "1-10")?;
    match issuer.issue(alloc, name, csr, &set, until()?) {
        Ok(cert) => digits_of(alloc, &cert),
        Err(error) => failed(alloc, error),
    }
}

fn revoked(
    alloc: Global,
    issuer: &mut ToyIssuer,
    name: &ResourceClassName,
    key: KeyIdentifier,
) -> io::Result<String> {
    match issuer.revoke(name, key) {
        Ok(()) => Ok(format!(in alloc; "revoked")?),
        Err(error) => failed(alloc, error),
    }
}

fn name_of(alloc: Global, text: &str) -> io::Result<ResourceClassName> {
    match ResourceClassName::from_str(alloc, text) {
        Ok(name) => Ok(name),
        Err(_) => Err(out_of_memory()),
    }
}

fn request_of(alloc: Global, digits: &str) -> io::Result<RpkiCaCsr> {
    match RpkiCaCsr::decode(alloc, &octets_of(alloc, digits)?) {
        Ok(csr) => Ok(csr),
        Err(_) => Err(invalid()),
    }
}

// What comes of `issue NAME REQUEST`, or of `revoke NAME KEY`.
fn answer_to(alloc: Global, issuer: &mut ToyIssuer, line: &str) -> io::Result<String> {
    let mut words = line.split(' ');
    let (Some(call), Some(name), Some(digits)) = (words.next(), words.next(), words.next()) else {
        return Err(invalid());
    };
    let name = name_of(alloc, name)?;
    match call {
        "issue" => issued(alloc, issuer, &name, &request_of(alloc, digits)?),
        "revoke" => revoked(alloc, issuer, &name, identifier_of(alloc, digits)?),
        _ => Err(invalid()),
    }
}

fn answers(alloc: Global, issuer: &mut ToyIssuer, input: &str) -> io::Result<String> {
    let mut text = String::new(alloc);
    for line in input.lines() {
        let answer = answer_to(alloc, issuer, line)?;
        text.push_str(answer.as_str()).map_err(|_| out_of_memory())?;
        text.push_str("\n").map_err(|_| out_of_memory())?;
    }
    Ok(text)
}

/// Whether an issuer, of whose signer the call fails that the field names, answers to each line and did then what the case expects.
pub fn holds_issuer(alloc: Global, failing: &str, case: &Case) -> io::Result<bool> {
    let (mut issuer, _signing) = first_issuer(alloc, &Failing::of(failing)?)?;
    let mut text = answers(alloc, &mut issuer, text_in(case)?)?;
    add_did(alloc, &mut text, &issuer).map_err(|_| out_of_memory())?;
    Ok(text.as_bytes() == case.output.as_slice())
}
