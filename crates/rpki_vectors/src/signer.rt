//! The signer's information and its attributes (RFC 5652, 5.3 and 11).

use crate::object_identifiers::{CONTENT_TYPE, CT_XML, MESSAGE_DIGEST, SHA256, SIGNING_TIME};
use crate::parts::Setting;
use crate::writing::{write_constructed, write_number, write_primitive};
use bytes::Bytes;
use rpki_base::RpkiSignatureAlgorithm;
use rpki_common::OutOfMemory;
use rpki_der::{Tag, Writer};
use rpki_signer::ToyScheme;
use sha2::{Digest, Sha256};
use std::alloc::Global;

// An attribute with one value, which was written before.
fn write_attribute(
    alloc: Global,
    identifier: &[u8],
    value: &Writer,
    out: &mut Writer,
) -> Result<(), OutOfMemory> {
    let mut inner = Writer::new(alloc);
    write_primitive(Tag::OID, identifier, &mut inner)?;
    write_constructed(Tag::SET, value, &mut inner)?;
    write_constructed(Tag::SEQUENCE, &inner, out)
}

// The attributes one behind the other.
fn attributes(alloc: Global, setting: &Setting, content: &[u8]) -> Result<Writer, OutOfMemory> {
    let mut kind = Writer::new(alloc);
    write_primitive(Tag::OID, &CT_XML, &mut kind)?;
    let mut time = Writer::new(alloc);
    setting.moment.to_der_varied(&mut time)?;
    let mut digest = Writer::new(alloc);
    write_primitive(Tag::OCTET_STRING, &Sha256::digest(content), &mut digest)?;
    let mut out = Writer::new(alloc);
    write_attribute(alloc, &CONTENT_TYPE, &kind, &mut out)?;
    write_attribute(alloc, &SIGNING_TIME, &time, &mut out)?;
    write_attribute(alloc, &MESSAGE_DIGEST, &digest, &mut out)?;
    Ok(out)
}

// The signature of the attributes, which are signed as a SET.
fn signature(alloc: Global, setting: &Setting, attributes: &Writer) -> Result<Bytes, OutOfMemory> {
    let mut signed = Writer::new(alloc);
    write_constructed(Tag::SET, attributes, &mut signed)?;
    ToyScheme::signature(alloc, &setting.subject, signed.as_slice())
}

/// Appends the identifier of the digest algorithm.
pub(crate) fn write_digest_algorithm(alloc: Global, out: &mut Writer) -> Result<(), OutOfMemory> {
    let mut inner = Writer::new(alloc);
    write_primitive(Tag::OID, &SHA256, &mut inner)?;
    write_constructed(Tag::SEQUENCE, &inner, out)
}

/// Appends the signer's information.
pub(crate) fn write_signer(
    alloc: Global,
    setting: &Setting,
    content: &[u8],
    out: &mut Writer,
) -> Result<(), OutOfMemory> {
    let attributes = attributes(alloc, setting, content)?;
    let signature = signature(alloc, setting, &attributes)?;
    let mut fields = Writer::new(alloc);
    write_number(3, &mut fields)?;
    write_primitive(
        Tag::CTX_0,
        setting.subject.key_identifier().as_slice(),
        &mut fields,
    )?;
    write_digest_algorithm(alloc, &mut fields)?;
    write_constructed(Tag::CTX_0, &attributes, &mut fields)?;
    RpkiSignatureAlgorithm::default().cms_encode(&mut fields)?;
    write_primitive(Tag::OCTET_STRING, signature.as_slice(), &mut fields)?;
    write_constructed(Tag::SEQUENCE, &fields, out)
}
