//! Calls that read and write identity certificates and requests for certificates.

use crate::refused;
use rpki_base::SignatureAlgorithm;
use rpki_cert::{BgpsecCsr, Csr, CsrAttributes, RpkiCaCsr};
use rpki_der::DecodeError;
use rpki_idcert::IdCert;
use rpki_text::JsonError;
use rpki_updown::{IssuanceRequest, RequestResourceLimit, ResourceClassName};
use std::alloc::Global;
use test_stored::{Fields, Step};

// A text; no octets are one where they are no UTF-8.
fn text_of(octets: &[u8]) -> Result<&str, DecodeError> {
    match str::from_utf8(octets) {
        Ok(text) => Ok(text),
        Err(_) => Err(DecodeError::Malformed),
    }
}

fn certificate(alloc: Global, octets: &[u8]) -> Result<Fields, DecodeError> {
    match IdCert::from_json(alloc, text_of(octets)?) {
        Ok(found) => Ok(Fields::one(alloc, found.to_bytes(alloc)?.as_slice())?),
        Err(error) => Err(refused(error)),
    }
}

fn certificate_to_json(alloc: Global, octets: &[u8]) -> Result<Fields, DecodeError> {
    let found = IdCert::decode(alloc, octets)?;
    Ok(Fields::one(alloc, found.to_json(alloc)?.as_str().as_bytes())?)
}

fn written<Alg: SignatureAlgorithm, Attrs: CsrAttributes>(
    alloc: Global,
    found: Result<Csr<Alg, Attrs>, JsonError>,
) -> Result<Fields, DecodeError> {
    match found {
        Ok(found) => Ok(Fields::one(alloc, found.to_captured(alloc)?.as_slice())?),
        Err(error) => Err(refused(error)),
    }
}

fn authority(alloc: Global, octets: &[u8]) -> Result<Fields, DecodeError> {
    written(alloc, RpkiCaCsr::from_json(alloc, text_of(octets)?))
}

fn router(alloc: Global, octets: &[u8]) -> Result<Fields, DecodeError> {
    written(alloc, BgpsecCsr::from_json(alloc, text_of(octets)?))
}

fn authority_to_json(alloc: Global, octets: &[u8]) -> Result<Fields, DecodeError> {
    let found = RpkiCaCsr::decode(alloc, octets)?;
    Ok(Fields::one(alloc, found.to_json(alloc)?.as_str().as_bytes())?)
}

fn router_to_json(alloc: Global, octets: &[u8]) -> Result<Fields, DecodeError> {
    let found = BgpsecCsr::decode(alloc, octets)?;
    Ok(Fields::one(alloc, found.to_json(alloc)?.as_str().as_bytes())?)
}

// What is printed of the request, in the class `0`, with the limit of a JSON text.
fn issuance(alloc: Global, octets: &[u8], limit: &[u8]) -> Result<Fields, DecodeError> {
    let csr = RpkiCaCsr::decode(alloc, octets)?;
    let class_name = ResourceClassName::default_name(alloc)?;
    let Ok(limit) = RequestResourceLimit::from_json(alloc, text_of(limit)?) else {
        return Err(DecodeError::Malformed);
    };
    let request = IssuanceRequest::new(class_name, limit, csr);
    Ok(Fields::one(alloc, request.to_string(alloc)?.as_str().as_bytes())?)
}

/// What a call over octets answers; None where the step is none.
pub fn answer(
    alloc: Global,
    octets: &[u8],
    step: &Step<'_>,
) -> Option<Result<Fields, DecodeError>> {
    match step.call {
        "certificate" => Some(certificate(alloc, octets)),
        "certificate_to_json" => Some(certificate_to_json(alloc, octets)),
        "authority" => Some(authority(alloc, octets)),
        "authority_to_json" => Some(authority_to_json(alloc, octets)),
        "router" => Some(router(alloc, octets)),
        "router_to_json" => Some(router_to_json(alloc, octets)),
        "issuance" => Some(issuance(alloc, octets, &step.argument)),
        _ => None,
    }
}
