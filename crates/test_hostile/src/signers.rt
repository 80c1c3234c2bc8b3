//! Signers of which a call fails.

use crate::runs::{number_of, out_of_memory};
use rpki_base::{PublicKeyFormat, Time, ToyFault, Validity};
use rpki_cert::{CsrError, construct_rpki_ca};
use rpki_common::{OutOfMemory, Text};
use rpki_idcert::IdCert;
use rpki_provisioning::ProvisioningCms;
use rpki_publication::PublicationCms;
use rpki_sigmsg::CreateError;
use rpki_signer::{MakeError, Signer, SigningError, ToyScheme, ToySigner};
use rpki_text::Handle;
use rpki_text::uri::Rsync;
use std::alloc::Global;
use std::io;
use std::io::ErrorKind;
use test_stored::invalid;

/// A signer of seed 1 with the RSA key 0, which its first call makes. `failing` are the calls that fail.
pub fn signer_of(alloc: Global, failing: &[u64]) -> io::Result<ToySigner> {
    let mut signer = ToySigner::new(alloc, 1, failing).map_err(out_of_memory)?;
    match Signer::<ToyScheme>::create_key(&mut signer, alloc, PublicKeyFormat::Rsa) {
        Ok(_) => Ok(signer),
        Err(_) => Err(out_of_memory(OutOfMemory)),
    }
}

// What comes of asking a signer.
#[derive(Clone, Copy, PartialEq, Eq)]
enum Outcome {
    Made,
    Failed,
    OutOfMemory,
    Other,
}

fn unsigned(error: &SigningError<ToyFault>) -> Outcome {
    match error {
        SigningError::Signer(_) => Outcome::Failed,
        SigningError::OutOfMemory => Outcome::OutOfMemory,
        _ => Outcome::Other,
    }
}

fn uncreated(error: &CreateError<ToyFault>) -> Outcome {
    match error {
        CreateError::Signing(error) => unsigned(error),
        CreateError::OutOfMemory => Outcome::OutOfMemory,
        _ => Outcome::Other,
    }
}

fn unmade(error: &MakeError<ToyFault>) -> Outcome {
    match error {
        MakeError::Signing(error) => unsigned(error),
        MakeError::OutOfMemory => Outcome::OutOfMemory,
        MakeError::TooLong => Outcome::Other,
    }
}

fn unrequested(error: &CsrError<ToyFault>) -> Outcome {
    match error {
        CsrError::Signing(error) => unsigned(error),
        CsrError::OutOfMemory => Outcome::OutOfMemory,
        _ => Outcome::Other,
    }
}

fn moment() -> io::Result<Time> {
    match Time::new(1700000000) {
        Some(moment) => Ok(moment),
        None => Err(invalid()),
    }
}

// A signed message of the publication protocol.
fn published(alloc: Global, signer: &mut ToySigner) -> io::Result<Outcome> {
    let message = rpki_publication::Message::list_query();
    let now = moment()?;
    match PublicationCms::create::<ToyScheme, ToySigner>(alloc, message, now, &0, signer) {
        Ok(_) => Ok(Outcome::Made),
        Err(error) => Ok(uncreated(&error)),
    }
}

fn text(alloc: Global) -> io::Result<Text> {
    match Text::from_str(alloc, "Carol") {
        Ok(text) => Ok(text),
        Err(_) => Err(out_of_memory(OutOfMemory)),
    }
}

fn list(alloc: Global) -> io::Result<rpki_provisioning::Message> {
    let sender = Handle::new(text(alloc)?.into_rc_str());
    let recipient = Handle::new(text(alloc)?.into_rc_str());
    Ok(rpki_provisioning::Message::list(sender, recipient))
}

// A signed message of the provisioning protocol.
fn provisioned(alloc: Global, signer: &mut ToySigner) -> io::Result<Outcome> {
    let message = list(alloc)?;
    let now = moment()?;
    match ProvisioningCms::create::<ToyScheme, ToySigner>(alloc, message, now, &0, signer) {
        Ok(_) => Ok(Outcome::Made),
        Err(error) => Ok(uncreated(&error)),
    }
}

// The certificate of a trust anchor.
fn anchored(alloc: Global, signer: &mut ToySigner) -> io::Result<Outcome> {
    let validity = Validity::new(moment()?, moment()?);
    match IdCert::new_ta::<ToyScheme, ToySigner>(alloc, validity, &0, signer) {
        Ok(_) => Ok(Outcome::Made),
        Err(error) => Ok(unmade(&error)),
    }
}

// The certificate of the toy scheme's key 9.
fn certified(alloc: Global, signer: &mut ToySigner) -> io::Result<Outcome> {
    let validity = Validity::new(moment()?, moment()?);
    let key = ToyScheme::key(alloc, 1, 9).map_err(out_of_memory)?;
    match IdCert::new_ee::<ToyScheme, ToySigner>(alloc, &key, validity, &0, signer) {
        Ok(_) => Ok(Outcome::Made),
        Err(error) => Ok(unmade(&error)),
    }
}

fn place(alloc: Global) -> io::Result<Rsync> {
    match Rsync::from_str(alloc, "rsync://localhost/repo/ca/") {
        Ok(place) => Ok(place),
        Err(_) => Err(out_of_memory(OutOfMemory)),
    }
}

// An authority's request.
fn requested(alloc: Global, signer: &mut ToySigner) -> io::Result<Outcome> {
    let place = place(alloc)?;
    match construct_rpki_ca::<ToyScheme, ToySigner>(alloc, signer, &0, &place, &place, None) {
        Ok(_) => Ok(Outcome::Made),
        Err(error) => Ok(unrequested(&error)),
    }
}

fn outcome_of(alloc: Global, maker: &str, signer: &mut ToySigner) -> io::Result<Outcome> {
    match maker {
        "publication" => published(alloc, signer),
        "provisioning" => provisioned(alloc, signer),
        "anchor" => anchored(alloc, signer),
        "entity" => certified(alloc, signer),
        "request" => requested(alloc, signer),
        _ => Err(invalid()),
    }
}

// Whether what comes is right, where this call of the signer, counted from 0 with the one that made its key, is to fail.
fn is_made(alloc: Global, maker: &str, call: u64, fails: bool) -> io::Result<bool> {
    let mut signer = signer_of(alloc, &[call])?;
    let outcome = outcome_of(alloc, maker, &mut signer)?;
    if outcome == Outcome::OutOfMemory {
        return Err(io::Error::from(ErrorKind::OutOfMemory));
    }
    if fails {
        return Ok(outcome == Outcome::Failed && signer.faults() == 1);
    }
    Ok(outcome == Outcome::Made && signer.faults() == 0)
}

/// Whether the maker of a line fails as it has to whichever of the signer's calls fails.
pub fn holds(alloc: Global, line: &str) -> io::Result<bool> {
    let count = number_of(line, 2)?;
    let maker = line.split_whitespace().nth(3).unwrap_or("");
    for call in 0..=count {
        if !is_made(alloc, maker, call.saturating_add(1), call < count)? {
            return Ok(false);
        }
    }
    Ok(true)
}
