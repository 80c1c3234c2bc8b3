//! Requests that the toy signer of seed 1 makes, whose first call makes a key.

use crate::long;
use rpki_base::{PublicKeyFormat, ToyFault};
use rpki_cert::{CsrError, construct_rpki_ca};
use rpki_der::{Captured, DecodeError};
use rpki_signer::{Signer, SigningError, ToyScheme, ToySigner};
use rpki_text::uri::{Error, Https, Rsync, Uri, UriKind};
use std::alloc::Global;
use test_stored::{Fields, Step};

/// The parts of an argument `FORMAT KEY FAILING REPOSITORY MANIFEST NOTIFY`: the format of the signer's key, the identifier of the key
/// that is asked for, the call that fails, and the three locations; `-` where there is none.
#[derive(Drop)]
pub struct Asked<'a> {
    format: PublicKeyFormat,
    key: u64,
    failing: Option<u64>,
    repository: &'a str,
    manifest: &'a str,
    notify: Option<&'a str>,
}

fn format_of(word: &str) -> Option<PublicKeyFormat> {
    match word {
        "rsa" => Some(PublicKeyFormat::Rsa),
        "ec" => Some(PublicKeyFormat::EcdsaP256),
        _ => None,
    }
}

/// The parts of an argument, if it has that form.
pub fn asked_of<'a>(argument: &'a [u8]) -> Option<Asked<'a>> {
    let mut words = std::str::from_utf8(argument).ok()?.split(' ');
    let format = format_of(words.next()?)?;
    let key = words.next()?.parse::<u64>().ok()?;
    let failing = words.next()?.parse::<u64>().ok();
    let repository = words.next()?;
    let manifest = words.next()?;
    let notify = words.next()?;
    Some(Asked {
        format,
        key,
        failing,
        repository,
        manifest,
        notify: if notify == "-" { None } else { Some(notify) },
    })
}

// A signer of seed 1, whose first call makes a key of this format.
fn signer_of(
    alloc: Global,
    format: PublicKeyFormat,
    failing: &[u64],
) -> Result<ToySigner, DecodeError> {
    let mut signer = ToySigner::new(alloc, 1, failing)?;
    match Signer::<ToyScheme>::create_key(&mut signer, alloc, format) {
        Ok(_) => Ok(signer),
        Err(_) => Err(DecodeError::OutOfMemory),
    }
}

fn asked_signer(alloc: Global, asked: &Asked<'_>) -> Result<ToySigner, DecodeError> {
    match asked.failing {
        Some(call) => signer_of(alloc, asked.format, &[call]),
        None => signer_of(alloc, asked.format, &[]),
    }
}

/// The URI that a text is.
pub fn uri_of<K: UriKind>(alloc: Global, text: &str) -> Result<Uri<K>, DecodeError> {
    match Uri::from_str(alloc, text) {
        Ok(uri) => Ok(uri),
        Err(Error::OutOfMemory) => Err(DecodeError::OutOfMemory),
        Err(_) => Err(DecodeError::Malformed),
    }
}

fn notify_of<K: UriKind>(alloc: Global, text: Option<&str>) -> Result<Option<Uri<K>>, DecodeError> {
    match text {
        Some(text) => Ok(Some(uri_of(alloc, text)?)),
        None => Ok(None),
    }
}

/// The name of what a URI breaks.
pub fn uri_refusal(error: Error) -> &'static str {
    match error {
        Error::TooLong => "uri too long",
        Error::BadCharacter => "uri character",
        Error::BadScheme => "uri scheme",
        Error::BadUri => "uri",
        Error::DotSegments => "uri segments",
        Error::OutOfMemory => "uri memory",
    }
}

fn signing_refusal(error: &SigningError<ToyFault>) -> &'static str {
    match error {
        SigningError::KeyNotFound => "key not found",
        SigningError::IncompatibleKey => "incompatible key",
        SigningError::Signer(_) => "signer",
        SigningError::OutOfMemory => "signing memory",
    }
}

fn refusal(error: &CsrError<ToyFault>) -> Result<&'static str, DecodeError> {
    match error {
        CsrError::Uri(error) => Ok(uri_refusal(*error)),
        CsrError::TooLong => Ok("too long"),
        CsrError::Signing(error) => Ok(signing_refusal(error)),
        CsrError::OutOfMemory => Err(DecodeError::OutOfMemory),
    }
}

/// Where the objects and the manifest are to be, and where changes are notified.
pub struct Places {
    /// The directory of the objects.
    pub repository: Rsync,
    /// The manifest.
    pub manifest: Rsync,
    /// Where changes are notified, if that is said.
    pub notify: Option<Https>,
}

impl Drop for Places {
    fn drop(self) {
        let Places {
            repository,
            manifest,
            notify,
        } = self;
    }
}

/// The places that were asked for.
pub fn places_of(alloc: Global, asked: &Asked<'_>) -> Result<Places, DecodeError> {
    let repository = uri_of(alloc, asked.repository)?;
    let manifest = uri_of(alloc, asked.manifest)?;
    let notify = notify_of(alloc, asked.notify)?;
    Ok(Places {
        repository,
        manifest,
        notify,
    })
}

// What the signer makes.
fn constructed(
    alloc: Global,
    key: u64,
    places: &Places,
    signer: &mut ToySigner,
) -> Result<Captured, CsrError<ToyFault>> {
    construct_rpki_ca::<ToyScheme, ToySigner>(
        alloc,
        signer,
        &key,
        &places.repository,
        &places.manifest,
        places.notify.as_ref(),
    )
}

/// What was made, or why nothing was made: the name of the refusal, and what it prints.
pub fn shown(
    alloc: Global,
    answer: Result<Captured, CsrError<ToyFault>>,
) -> Result<Fields, DecodeError> {
    match answer {
        Ok(captured) => Ok(Fields::one(alloc, captured.as_slice())?),
        Err(error) => {
            let mut fields = Fields::one(alloc, refusal(&error)?.as_bytes())?;
            fields.print(alloc, error)?;
            Ok(fields)
        }
    }
}

// What the signer makes or why it makes nothing, and how many of its calls failed.
fn made(alloc: Global, argument: &[u8]) -> Result<Fields, DecodeError> {
    let Some(asked) = asked_of(argument) else {
        return Err(DecodeError::Malformed);
    };
    let places = places_of(alloc, &asked)?;
    let mut signer = asked_signer(alloc, &asked)?;
    let answer = constructed(alloc, asked.key, &places, &mut signer);
    let mut fields = shown(alloc, answer)?;
    fields.print(alloc, signer.faults())?;
    Ok(fields)
}

/// What the calls that make requests answer; None where the step is none.
pub fn answer(alloc: Global, step: &Step<'_>) -> Option<Result<Fields, DecodeError>> {
    match step.call {
        "made" => Some(made(alloc, &step.argument)),
        "made_long" => Some(long::made(alloc, &step.argument)),
        _ => None,
    }
}
