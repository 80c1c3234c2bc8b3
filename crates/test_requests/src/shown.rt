//! What requests show, as the fields of an answer.

use rpki_base::{PublicKey, PublicKeyFormat, SignatureAlgorithm};
use rpki_cert::{
    BgpsecCsr, BgpsecCsrAttributes, Csr, CsrAttributes, ExtendedKeyUsage, KeyUsage, RpkiCaCsr,
    RpkiCaCsrAttributes,
};
use rpki_der::{DecodeError, Writer};
use rpki_text::uri::{Uri, UriKind};
use std::alloc::Global;
use test_stored::Fields;

fn format_name(format: PublicKeyFormat) -> &'static str {
    match format {
        PublicKeyFormat::Rsa => "rsa",
        PublicKeyFormat::EcdsaP256 => "ec",
    }
}

fn usage_name(usage: KeyUsage) -> &'static str {
    match usage {
        KeyUsage::Ca => "ca",
        KeyUsage::Ee => "ee",
    }
}

/// Appends a key: its format, its bits and its key identifier.
pub fn append_key(fields: &mut Fields, key: &PublicKey) -> Result<(), DecodeError> {
    fields.octets(format_name(key.format()).as_bytes())?;
    fields.octets(key.bits_bytes().as_slice())?;
    fields.octets(key.key_identifier().as_slice())?;
    Ok(())
}

// The contents octets of the purposes, with an octet 00 behind each.
fn joined(alloc: Global, purposes: &ExtendedKeyUsage) -> Result<Vec<u8>, DecodeError> {
    let mut octets = Vec::new(alloc);
    for oid in purposes.oids() {
        octets.extend_from_slice(oid.as_slice())?;
        octets.push(0)?;
    }
    Ok(octets)
}

// Appends what a copy of the purposes says; where nothing is said of them, a field of no octets.
fn append_purposes(
    alloc: Global,
    fields: &mut Fields,
    purposes: Option<&ExtendedKeyUsage>,
) -> Result<(), DecodeError> {
    match purposes {
        Some(purposes) => Ok(fields.octets(&joined(alloc, &purposes.clone(alloc)?)?)?),
        None => Ok(fields.octets(&[])?),
    }
}

// Appends a URI; where there is none, a field of no octets.
fn append_uri<K: UriKind>(fields: &mut Fields, uri: Option<&Uri<K>>) -> Result<(), DecodeError> {
    match uri {
        Some(uri) => Ok(fields.octets(uri.as_str().as_bytes())?),
        None => Ok(fields.octets(&[])?),
    }
}

// Appends whether it is an authority's, and what the key may be used for.
fn append_usage(fields: &mut Fields, basic_ca: bool, usage: KeyUsage) -> Result<(), DecodeError> {
    fields.octets(&[u8::from(basic_ca)])?;
    fields.octets(usage_name(usage).as_bytes())?;
    Ok(())
}

// Appends what an authority's request says of its attributes.
fn append_requested(
    alloc: Global,
    fields: &mut Fields,
    request: &RpkiCaCsr,
) -> Result<(), DecodeError> {
    append_usage(fields, request.basic_ca(), request.key_usage())?;
    append_purposes(alloc, fields, request.extended_key_usage())?;
    append_uri(fields, request.ca_repository())?;
    append_uri(fields, request.rpki_manifest())?;
    append_uri(fields, request.rpki_notify())
}

/// What an authority's attributes say: whether it is one, the key's usage, the purposes, and the three locations.
pub fn authority_attributes_shown(
    alloc: Global,
    attributes: &RpkiCaCsrAttributes,
) -> Result<Fields, DecodeError> {
    let mut fields = Fields::new(alloc);
    append_usage(&mut fields, attributes.basic_ca(), attributes.key_usage())?;
    append_purposes(alloc, &mut fields, attributes.extended_key_usage())?;
    append_uri(&mut fields, attributes.ca_repository())?;
    append_uri(&mut fields, attributes.rpki_manifest())?;
    append_uri(&mut fields, attributes.rpki_notify())?;
    Ok(fields)
}

/// What a router's attributes say: the purposes.
pub fn router_attributes_shown(
    alloc: Global,
    attributes: &BgpsecCsrAttributes,
) -> Result<Fields, DecodeError> {
    let mut fields = Fields::new(alloc);
    append_purposes(alloc, &mut fields, attributes.extended_key_usage())?;
    Ok(fields)
}

// What two calls write of a request, if they agree.
fn written<Alg: SignatureAlgorithm, Attrs: CsrAttributes>(
    alloc: Global,
    request: &Csr<Alg, Attrs>,
) -> Result<Writer, DecodeError> {
    let mut out = Writer::new(alloc);
    request.encode_ref(&mut out)?;
    let captured = request.to_captured(alloc)?;
    if captured.as_slice() == out.as_slice() {
        Ok(out)
    } else {
        Err(DecodeError::Malformed)
    }
}

// The subject and its key.
fn subject_shown<Alg: SignatureAlgorithm, Attrs: CsrAttributes>(
    alloc: Global,
    request: &Csr<Alg, Attrs>,
) -> Result<Fields, DecodeError> {
    let mut fields = Fields::one(alloc, request.subject().as_slice())?;
    append_key(&mut fields, request.public_key())?;
    Ok(fields)
}

// Appends the signed octets, the signature, and what is written.
fn append_signed<Alg: SignatureAlgorithm, Attrs: CsrAttributes>(
    alloc: Global,
    fields: &mut Fields,
    request: &Csr<Alg, Attrs>,
) -> Result<(), DecodeError> {
    fields.octets(request.signed_data().slice().as_slice())?;
    fields.octets(request.signed_data().signature().value().as_slice())?;
    fields.octets(written(alloc, request)?.as_slice())?;
    Ok(())
}

fn authority_fields(alloc: Global, request: &RpkiCaCsr) -> Result<Fields, DecodeError> {
    let mut fields = subject_shown(alloc, request)?;
    append_requested(alloc, &mut fields, request)?;
    append_signed(alloc, &mut fields, request)?;
    Ok(fields)
}

fn router_fields(alloc: Global, request: &BgpsecCsr) -> Result<Fields, DecodeError> {
    let mut fields = subject_shown(alloc, request)?;
    append_purposes(
        alloc,
        &mut fields,
        request.attributes().extended_key_usage(),
    )?;
    append_signed(alloc, &mut fields, request)?;
    Ok(fields)
}

// The fields, if the others are equal to them.
fn agreeing(fields: Fields, others: Fields) -> Result<Fields, DecodeError> {
    if fields == others {
        Ok(fields)
    } else {
        Err(DecodeError::Malformed)
    }
}

/// The subject, its key, what the attributes say, the signed octets, the signature, and what is written, of a request and of its copy.
pub fn authority_shown(alloc: Global, request: &RpkiCaCsr) -> Result<Fields, DecodeError> {
    let fields = authority_fields(alloc, request)?;
    let others = authority_fields(alloc, &request.clone(alloc)?)?;
    agreeing(fields, others)
}

/// The subject, its key, the purposes, the signed octets, the signature, and what is written, of a router's request and of its copy.
pub fn router_shown(alloc: Global, request: &BgpsecCsr) -> Result<Fields, DecodeError> {
    let fields = router_fields(alloc, request)?;
    let others = router_fields(alloc, &request.clone(alloc)?)?;
    agreeing(fields, others)
}
