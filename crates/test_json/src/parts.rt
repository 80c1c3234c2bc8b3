//! Calls that read and write limits, names of classes and service URIs.

use crate::refused;
use rpki_der::DecodeError;
use rpki_setup::ServiceUri;
use rpki_updown::{RequestResourceLimit, ResourceClassName};
use std::alloc::Global;
use test_stored::Fields;

// What the limit prints that a JSON text states.
fn limit(alloc: Global, text: &str) -> Result<Fields, DecodeError> {
    match RequestResourceLimit::from_json(alloc, text) {
        Ok(limit) => Ok(Fields::one(alloc, limit.to_string(alloc)?.as_str().as_bytes())?),
        Err(error) => Err(refused(error)),
    }
}

fn class_name(alloc: Global, text: &str) -> Result<Fields, DecodeError> {
    match ResourceClassName::from_json(alloc, text) {
        Ok(name) => Ok(Fields::one(alloc, name.as_str().as_bytes())?),
        Err(error) => Err(refused(error)),
    }
}

fn class_name_to_json(alloc: Global, text: &str) -> Result<Fields, DecodeError> {
    let name = ResourceClassName::from_str(alloc, text)?;
    Ok(Fields::one(alloc, name.to_json(alloc)?.as_str().as_bytes())?)
}

fn service(alloc: Global, text: &str) -> Result<Fields, DecodeError> {
    match ServiceUri::from_json(alloc, text) {
        Ok(uri) => Ok(Fields::one(alloc, uri.as_str().as_bytes())?),
        Err(error) => Err(refused(error)),
    }
}

fn service_to_json(alloc: Global, text: &str) -> Result<Fields, DecodeError> {
    match ServiceUri::from_str(alloc, text) {
        Ok(uri) => Ok(Fields::one(alloc, uri.to_json(alloc)?.as_str().as_bytes())?),
        Err(_) => Err(DecodeError::Malformed),
    }
}

/// What a call over a text answers; None where the step is none.
pub fn answer(alloc: Global, text: &str, call: &str) -> Option<Result<Fields, DecodeError>> {
    match call {
        "limit" => Some(limit(alloc, text)),
        "class_name" => Some(class_name(alloc, text)),
        "class_name_to_json" => Some(class_name_to_json(alloc, text)),
        "service" => Some(service(alloc, text)),
        "service_to_json" => Some(service_to_json(alloc, text)),
        _ => None,
    }
}
