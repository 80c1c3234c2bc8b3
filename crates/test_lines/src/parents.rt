//! A parent of several classes, which goes on where a reply couldn't be made; and what its issuer did.

use crate::issuing::add_told;
use crate::up::{Failing, first_issuer, first_signer, out_of_memory, push};
use rpki_base::{PublicKey, Time, ToyFault};
use rpki_ca::Words;
use rpki_common::OutOfMemory;
use rpki_provisioning::ProvisioningCms;
use rpki_sets::{AsBlocks, Ipv4Blocks, Ipv6Blocks, ResourceSet};
use rpki_signer::{ToySigner, ToyVerifier};
use rpki_text::uri::Rsync;
use rpki_text::{RecipientHandle, SenderHandle};
use rpki_updown::{ResourceClassName, SigningCert};
use rpki_upserver::{AnswerError, Class, Parent, ToyIssuer, ToyMade};
use std::alloc::Global;
use std::io;
use test_stored::{invalid, octets_of};

/// The AS numbers that a text means, and all other resources of the program's class; or none where it is empty.
pub fn set_of(alloc: Global, asn: &str) -> io::Result<ResourceSet> {
    if asn.is_empty() {
        return Ok(ResourceSet::default(alloc));
    }
    let (Ok(asn), Ok(ipv4), Ok(ipv6)) = (
        AsBlocks::from_str(alloc, asn),
        Ipv4Blocks::from_str(alloc, "10.0.0.0/8"),
        Ipv6Blocks::from_str(alloc, "2001:db8::/32"),
    ) else {
        return Err(invalid());
    };
    Ok(ResourceSet::new(asn, ipv4, ipv6))
}

// The name of a class, and the directory of its certificates.
fn place_of(alloc: Global, name: &str, base: &str) -> io::Result<(ResourceClassName, Rsync)> {
    let Ok(name) = ResourceClassName::from_str(alloc, name) else {
        return Err(out_of_memory());
    };
    match Rsync::from_str(alloc, base) {
        Ok(base) => Ok((name, base)),
        Err(_) => Err(out_of_memory()),
    }
}

/// Until when the child has its resources.
pub fn until() -> io::Result<Time> {
    match Time::new(2_524_607_999) {
        Some(until) => Ok(until),
        None => Err(out_of_memory()),
    }
}

// The class of this name and these resources, under this certificate.
fn class_under(
    name: (ResourceClassName, Rsync),
    set: ResourceSet,
    until: Time,
    signing: SigningCert,
) -> io::Result<Class> {
    let (name, base) = name;
    match Class::new(name, set, until, base, signing) {
        Some(class) => Ok(class),
        None => Err(invalid()),
    }
}

/// The class of this name, whose certificates are in this directory, with these AS numbers, under this certificate.
pub fn class_of(
    alloc: Global,
    name: &str,
    base: &str,
    asn: &str,
    signing: &SigningCert,
) -> io::Result<Class> {
    let until = until()?;
    let name = place_of(alloc, name, base)?;
    let set = set_of(alloc, asn)?;
    match signing.clone(alloc) {
        Ok(signing) => class_under(name, set, until, signing),
        Err(_) => Err(out_of_memory()),
    }
}

const BASE: &str = "rsync://localhost/repo/";

// The classes `0`, `1` and `2`: the last one is empty.
fn classes_of(alloc: Global, signing: &SigningCert) -> io::Result<Vec<Class>> {
    let mut classes = Vec::new(alloc);
    for (name, asn) in [("0", "1-10"), ("1", "1-10"), ("2", "")] {
        push(&mut classes, class_of(alloc, name, BASE, asn, signing)?)?;
    }
    Ok(classes)
}

fn handles(alloc: Global) -> io::Result<(RecipientHandle, SenderHandle)> {
    let Ok(me) = RecipientHandle::from_str(alloc, "Bob") else {
        return Err(out_of_memory());
    };
    match SenderHandle::from_str(alloc, "Carol") {
        Ok(child) => Ok((me, child)),
        Err(_) => Err(out_of_memory()),
    }
}

// The child's key, which the words name.
fn key_of(alloc: Global, words: &Words) -> io::Result<PublicKey> {
    match words.key(alloc, 1) {
        Ok(Some(key)) => Ok(key),
        _ => Err(invalid()),
    }
}

// A parent of these classes.
fn parent_with(alloc: Global, words: &Words, classes: Vec<Class>) -> io::Result<Parent> {
    let (me, child) = handles(alloc)?;
    let key = key_of(alloc, words)?;
    match Parent::new(alloc, me, child, key, classes) {
        Some(parent) => Ok(parent),
        None => Err(invalid()),
    }
}

fn parent_of(alloc: Global, words: &Words, signing: &SigningCert) -> io::Result<Parent> {
    parent_with(alloc, words, classes_of(alloc, signing)?)
}

// A line of a certificate that was issued.
fn line_of_made(alloc: Global, made: &ToyMade) -> Result<String, OutOfMemory> {
    let line = format!(in alloc;
        "made {} {} {} {}\n",
        made.class_name,
        made.key,
        made.resource_set,
        made.not_after.seconds()
    )?;
    Ok(line)
}

// Adds lines of what was issued.
fn add_made(alloc: Global, text: &mut String, done: &ToyIssuer) -> Result<(), OutOfMemory> {
    for made in done.made() {
        let line = line_of_made(alloc, made)?;
        text.push_str(line.as_str())?;
    }
    Ok(())
}

// Adds lines of the keys whose certificates were revoked.
fn add_gone(alloc: Global, text: &mut String, done: &ToyIssuer) -> Result<(), OutOfMemory> {
    for gone in done.gone() {
        let line = format!(in alloc; "gone {} {}\n", gone.class_name(), gone.key())?;
        text.push_str(line.as_str())?;
    }
    Ok(())
}

/// Adds lines of what the issuer did.
pub fn add_did(alloc: Global, text: &mut String, done: &ToyIssuer) -> Result<(), OutOfMemory> {
    add_made(alloc, text, done)?;
    add_gone(alloc, text, done)?;
    let line = format!(in alloc; "faults {}\n", done.faults())?;
    text.push_str(line.as_str())?;
    Ok(())
}

// The reply in hexadecimal.
fn digits_of(alloc: Global, cms: &ProvisioningCms) -> Result<String, OutOfMemory> {
    let octets = cms.to_bytes(alloc)?;
    hex::encode(alloc, octets.as_slice()).map_err(|_| OutOfMemory)
}

// Why nothing is sent.
fn reason_of(alloc: Global, error: &AnswerError<ToyFault>) -> Result<String, OutOfMemory> {
    match error {
        AnswerError::Refused(error) => {
            format!(in alloc; "Refused {error}").map_err(|_| OutOfMemory)
        }
        AnswerError::Unsent(error) => format!(in alloc; "Unsent {error}").map_err(|_| OutOfMemory),
        AnswerError::OutOfMemory => Err(OutOfMemory),
    }
}

// What a line is answered.
fn answered(
    alloc: Global,
    parent: &mut Parent,
    line: &str,
    when: Time,
    issuer: &mut ToyIssuer,
    signer: &mut ToySigner,
) -> io::Result<String> {
    let octets = octets_of(alloc, line)?;
    let verifier = ToyVerifier::new();
    let written = match parent.answer(&octets, when, &verifier, issuer, signer, &0) {
        Ok(cms) => digits_of(alloc, &cms),
        Err(error) => reason_of(alloc, &error),
    };
    written.map_err(|_| out_of_memory())
}

// What the parent answers to each line.
fn answers(
    alloc: Global,
    parent: &mut Parent,
    input: &str,
    when: Time,
    issuer: &mut ToyIssuer,
    signer: &mut ToySigner,
) -> io::Result<String> {
    let mut text = String::new(alloc);
    for line in input.lines() {
        let answer = answered(alloc, parent, line, when, issuer, signer)?;
        text.push_str(answer.as_str()).map_err(|_| out_of_memory())?;
        text.push_str("\n").map_err(|_| out_of_memory())?;
    }
    Ok(text)
}

// The moment of the answers, which the words name.
fn moment_of(words: &Words) -> io::Result<Time> {
    match words.moment(0) {
        Some(when) => Ok(when),
        None => Err(invalid()),
    }
}

// What this parent answers to each line, and then what its issuer did.
fn run_with(
    alloc: Global,
    words: &Words,
    input: &str,
    failing: &Failing,
    parent: &mut Parent,
    issuer: &mut ToyIssuer,
) -> io::Result<String> {
    let when = moment_of(words)?;
    let mut signer = first_signer(alloc, failing)?;
    let mut text = answers(alloc, parent, input, when, issuer, &mut signer)?;
    add_did(alloc, &mut text, issuer).map_err(|_| out_of_memory())?;
    Ok(text)
}

// What this parent answers to each line, what its issuer did, and then what the child is told of each class.
fn told_with(
    alloc: Global,
    words: &Words,
    input: &str,
    failing: &Failing,
    parent: &mut Parent,
    issuer: &mut ToyIssuer,
) -> io::Result<Vec<u8>> {
    let mut text = run_with(alloc, words, input, failing, parent, issuer)?.into_bytes();
    for class in parent.classes() {
        add_told(alloc, &mut text, class)?;
    }
    Ok(text)
}

// What it does with this issuer, whose certificate this is.
fn run_under(
    alloc: Global,
    words: &Words,
    input: &str,
    failing: &Failing,
    issuer: &mut ToyIssuer,
    signing: &SigningCert,
) -> io::Result<Vec<u8>> {
    let mut parent = parent_of(alloc, words, signing)?;
    told_with(alloc, words, input, failing, &mut parent, issuer)
}

/// What the parent answers to each line, then what its issuer did, and then what the child is told of each class.
pub fn run_parent(
    alloc: Global,
    words: &Words,
    input: &str,
    failing: &Failing,
) -> io::Result<Vec<u8>> {
    let (mut issuer, signing) = first_issuer(alloc, failing)?;
    run_under(alloc, words, input, failing, &mut issuer, &signing)
}
