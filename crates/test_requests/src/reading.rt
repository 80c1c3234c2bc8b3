//! Calls that read requests.

use crate::shown::{
    authority_attributes_shown, authority_shown, router_attributes_shown, router_shown,
};
use rpki_cert::{
    BgpsecCsr, BgpsecCsrAttributes, CsrAttributes, InvalidAttribute, RpkiCaCsr, RpkiCaCsrAttributes,
};
use rpki_der::{Cursor, DecodeError, Mode, Oid, Steps};
use rpki_signer::{ToyScheme, ToyVerifier};
use std::alloc::Global;
use std::sync::ledger::Ledger;
use test_stored::Fields;

/// The octets of the value that stands next, which is passed.
pub fn captured(alloc: Global, cursor: &mut Cursor<'_>) -> Result<Fields, DecodeError> {
    Ok(Fields::one(alloc, cursor.capture()?)?)
}

fn authority(alloc: Global, octets: &[u8]) -> Result<Fields, DecodeError> {
    authority_shown(alloc, &RpkiCaCsr::decode(alloc, octets)?)
}

fn router(alloc: Global, octets: &[u8]) -> Result<Fields, DecodeError> {
    router_shown(alloc, &BgpsecCsr::decode(alloc, octets)?)
}

// What a copy of the attributes of an authority's request says.
fn authority_attributes(alloc: Global, octets: &[u8]) -> Result<Fields, DecodeError> {
    let attributes = RpkiCaCsrAttributes::take_from(alloc, octets)?;
    authority_attributes_shown(alloc, &attributes.clone(alloc)?)
}

// What a copy of the attributes of a router's request says.
fn router_attributes(alloc: Global, octets: &[u8]) -> Result<Fields, DecodeError> {
    let attributes = BgpsecCsrAttributes::take_from(alloc, octets)?;
    router_attributes_shown(alloc, &attributes.clone(alloc)?)
}

// What is printed of a copy of an attribute that no request can have, by its object identifier.
fn invalid_attribute(alloc: Global, octets: &[u8]) -> Result<Fields, DecodeError> {
    let oid = Oid::take(alloc, Mode::Der, octets)?;
    let attribute = InvalidAttribute::new(oid);
    let mut fields = Fields::new(alloc);
    fields.print(alloc, attribute.clone(alloc)?)?;
    Ok(fields)
}

// Whether an authority's request is signed with its own key, by the toy scheme.
fn authority_holds(alloc: Global, octets: &[u8]) -> Result<Fields, DecodeError> {
    let request = RpkiCaCsr::decode(alloc, octets)?;
    let verified = request.verify_signature::<ToyScheme, ToyVerifier>(&ToyVerifier::new());
    Ok(Fields::truth(alloc, verified.is_ok())?)
}

// Whether a router's request is signed with its own key, by the toy scheme.
fn router_holds(alloc: Global, octets: &[u8]) -> Result<Fields, DecodeError> {
    let request = BgpsecCsr::decode(alloc, octets)?;
    let verified = request.verify_signature::<ToyScheme, ToyVerifier>(&ToyVerifier::new());
    Ok(Fields::truth(alloc, verified.is_ok())?)
}

/// What a call over octets answers; None where the step is none.
pub fn answer(alloc: Global, octets: &[u8], call: &str) -> Option<Result<Fields, DecodeError>> {
    match call {
        "authority" => Some(authority(alloc, octets)),
        "router" => Some(router(alloc, octets)),
        "authority_attributes" => Some(authority_attributes(alloc, octets)),
        "router_attributes" => Some(router_attributes(alloc, octets)),
        "invalid_attribute" => Some(invalid_attribute(alloc, octets)),
        "authority_holds" => Some(authority_holds(alloc, octets)),
        "router_holds" => Some(router_holds(alloc, octets)),
        _ => None,
    }
}

fn authority_counted<L: Ledger>(
    alloc: Global,
    octets: &[u8],
    steps: &mut Steps<L>,
) -> Result<Fields, DecodeError> {
    authority_shown(alloc, &RpkiCaCsr::decode_counted(alloc, octets, steps)?)
}

fn router_counted<L: Ledger>(
    alloc: Global,
    octets: &[u8],
    steps: &mut Steps<L>,
) -> Result<Fields, DecodeError> {
    router_shown(alloc, &BgpsecCsr::decode_counted(alloc, octets, steps)?)
}

fn next_authority_attributes<L: Ledger>(
    alloc: Global,
    cursor: &mut Cursor<'_>,
    steps: &mut Steps<L>,
) -> Result<Fields, DecodeError> {
    let attributes = RpkiCaCsrAttributes::take_from_counted(alloc, cursor, steps)?;
    authority_attributes_shown(alloc, &attributes)
}

fn next_router_attributes<L: Ledger>(
    alloc: Global,
    cursor: &mut Cursor<'_>,
    steps: &mut Steps<L>,
) -> Result<Fields, DecodeError> {
    let attributes = BgpsecCsrAttributes::take_from_counted(alloc, cursor, steps)?;
    router_attributes_shown(alloc, &attributes)
}

/// What a counted call answers; None where the step is none.
pub fn counted_answer<L: Ledger>(
    alloc: Global,
    cursor: &mut Cursor<'_>,
    call: &str,
    steps: &mut Steps<L>,
) -> Option<Result<Fields, DecodeError>> {
    match call {
        "authority" => Some(authority_counted(alloc, cursor.here(), steps)),
        "router" => Some(router_counted(alloc, cursor.here(), steps)),
        "next_authority_attributes" => Some(next_authority_attributes(alloc, cursor, steps)),
        "next_router_attributes" => Some(next_router_attributes(alloc, cursor, steps)),
        _ => None,
    }
}
