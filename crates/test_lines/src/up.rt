//! The parent's program, as `rpkiup` runs it, or with signers of which one call fails.

ghost use Rattle.std.specs.Prelude.{IfOk};

use rpki_base::PublicKeyFormat;
use rpki_ca::{Refusal, Status, Words};
use rpki_signer::{Signer, ToyScheme, ToySigner, ToyVerifier};
use rpki_text::{MemorySink, MemorySource};
use rpki_updown::SigningCert;
use rpki_upserver::{ToyIssuer, program_issuer, serve};
use std::alloc::Global;
use std::io;
use std::io::ErrorKind;
use test_stored::invalid;

/// The error of want of memory.
pub fn out_of_memory() -> io::Error {
    io::Error::from(ErrorKind::OutOfMemory)
}

/// Adds an item.
pub fn push<T: Drop>(items: &mut Vec<T>, item: T) -> io::Result<()> {
    match items.push(item) {
        Ok(()) => Ok(()),
        Err(_) => Err(out_of_memory()),
    }
}

// A signer that has one key, number 0, and whose call of this number fails, if there is one; to make the key is call 0.
fn signer_of(alloc: Global, seed: u64, failing: Option<u64>) -> io::Result<ToySigner> {
    let mut calls = Vec::new(alloc);
    if let Some(call) = failing {
        push(&mut calls, call)?;
    }
    let mut signer = ToySigner::new(alloc, seed, &calls).map_err(|_| out_of_memory())?;
    match Signer::<ToyScheme>::create_key(&mut signer, alloc, PublicKeyFormat::Rsa) {
        Ok(_) => Ok(signer),
        Err(_) => Err(out_of_memory()),
    }
}

/// Which call of a signer fails, counted from 0, by a field: that of the replies' signer in `,s7`, that
/// of the issuer's in `,i7`, none where it is empty.
#[derive(Clone, Copy)]
pub struct Failing {
    signer: Option<u64>,
    issuer: Option<u64>,
}

// The number of a call.
fn call_of(digits: &str) -> io::Result<Option<u64>> {
    match digits.parse::<u64>() {
        Ok(call) => Ok(Some(call)),
        Err(_) => Err(invalid()),
    }
}

impl Failing {
    fn of_signer(digits: &str) -> io::Result<Failing> {
        Ok(Failing {
            signer: call_of(digits)?,
            issuer: None,
        })
    }

    fn of_issuer(digits: &str) -> io::Result<Failing> {
        Ok(Failing {
            signer: None,
            issuer: call_of(digits)?,
        })
    }

    /// The calls that a field names.
    pub fn of(field: &str) -> io::Result<Failing> {
        if let Some(digits) = field.strip_prefix(",s") {
            return Failing::of_signer(digits);
        }
        if let Some(digits) = field.strip_prefix(",i") {
            return Failing::of_issuer(digits);
        }
        if !field.is_empty() {
            return Err(invalid());
        }
        Ok(Failing {
            signer: None,
            issuer: None,
        })
    }
}

/// The signer of the replies, which has one key, number 0.
pub fn first_signer(alloc: Global, failing: &Failing) -> io::Result<ToySigner> {
    signer_of(alloc, 1, failing.signer)
}

/// The issuer, and the certificate of its key.
pub fn first_issuer(alloc: Global, failing: &Failing) -> io::Result<(ToyIssuer, SigningCert)> {
    let signer = signer_of(alloc, 3, failing.issuer)?;
    match program_issuer(alloc, signer, 0) {
        Ok(made) => Ok(made),
        Err(Refusal::OutOfMemory) => Err(out_of_memory()),
        Err(_) => Err(invalid()),
    }
}

// What it does with this issuer, whose certificate this is.
fn run_with(
    alloc: Global,
    words: &Words,
    source: &mut MemorySource,
    sink: &mut MemorySink,
    failing: &Failing,
    issuer: &mut ToyIssuer,
    signing: &SigningCert,
) -> io::Result<Status> {
    let mut signer = first_signer(alloc, failing)?;
    let verifier = ToyVerifier::new();
    Ok(serve(
        alloc,
        words,
        source,
        sink,
        &verifier,
        issuer,
        &mut signer,
        &0,
        signing,
    ))
}

/// What the program does with words and input.
pub fn run_up(
    alloc: Global,
    words: &Words,
    source: &mut MemorySource,
    sink: &mut MemorySink,
    failing: &Failing,
) -> io::Result<Status> {
    let (mut issuer, signing) = first_issuer(alloc, failing)?;
    run_with(alloc, words, source, sink, failing, &mut issuer, &signing)
}
