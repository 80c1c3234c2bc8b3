//! Service URIs, and where the objects of a repository are found.

use crate::four::refused;
use rpki_der::DecodeError;
use rpki_setup::{RepoInfo, ServiceUri};
use rpki_text::uri;
use std::alloc::Global;
use test_stored::{Fields, Step};

// The kind of the URI, its text, and what is printed of a copy.
fn service_shown(alloc: Global, service: &ServiceUri) -> Result<Fields, DecodeError> {
    let kind = match service {
        ServiceUri::Https(_) => "https",
        ServiceUri::Http(_) => "http",
    };
    let mut fields = Fields::one(alloc, kind.as_bytes())?;
    fields.octets(service.as_str().as_bytes())?;
    fields.print(alloc, service.clone(alloc)?)?;
    Ok(fields)
}

fn service(alloc: Global, text: &str) -> Result<Fields, DecodeError> {
    match ServiceUri::from_str(alloc, text) {
        Ok(service) => service_shown(alloc, &service),
        Err(error) => refused(alloc, error),
    }
}

fn uri_shown(alloc: Global, answer: Result<uri::Rsync, uri::Error>) -> Result<Fields, DecodeError> {
    match answer {
        Ok(uri) => Ok(Fields::one(alloc, uri.as_str().as_bytes())?),
        Err(uri::Error::OutOfMemory) => Err(DecodeError::OutOfMemory),
        Err(error) => {
            let mut fields = Fields::one(alloc, b"refused")?;
            fields.print(alloc, error)?;
            Ok(fields)
        }
    }
}

// A copy of what says that objects are below this base.
fn info(alloc: Global, base: &str) -> Result<RepoInfo, DecodeError> {
    match uri::Rsync::from_str(alloc, base) {
        Ok(base) => Ok(RepoInfo::new(base, None).clone(alloc)?),
        Err(_) => Err(DecodeError::Malformed),
    }
}

fn repository(alloc: Global, base: &str, name_space: &str) -> Result<Fields, DecodeError> {
    let info = info(alloc, base)?;
    uri_shown(alloc, info.ca_repository(alloc, name_space))
}

fn resolved(
    alloc: Global,
    base: &str,
    name_space: &str,
    file_name: &str,
) -> Result<Fields, DecodeError> {
    let info = info(alloc, base)?;
    uri_shown(alloc, info.resolve(alloc, name_space, file_name))
}

// What the words of an argument, with line feeds between them, name below the base.
fn found(alloc: Global, base: &str, argument: &str) -> Result<Fields, DecodeError> {
    match argument.split_once('\n') {
        Some((name_space, file_name)) => resolved(alloc, base, name_space, file_name),
        None => repository(alloc, base, argument),
    }
}

/// What a call of this module answers; None where the step is none.
pub fn answer(
    alloc: Global,
    octets: &[u8],
    step: &Step<'_>,
) -> Option<Result<Fields, DecodeError>> {
    let (Ok(text), Ok(argument)) = (
        std::str::from_utf8(octets),
        std::str::from_utf8(&step.argument),
    ) else {
        return None;
    };
    match step.call {
        "service" => Some(service(alloc, text)),
        "found" => Some(found(alloc, text, argument)),
        _ => None,
    }
}
