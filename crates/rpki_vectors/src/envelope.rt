//! The message (RFC 5652, 3 and 5.1).

use crate::certificate::write_certificate;
use crate::crl::write_crl;
use crate::error::BuildError;
use crate::object_identifiers::{CT_XML, SIGNED_DATA};
use crate::parts::{Parts, Setting};
use crate::signer::{write_digest_algorithm, write_signer};
use crate::writing::{write_constructed, write_number, write_primitive};
use bytes::Bytes;
use rpki_common::OutOfMemory;
use rpki_der::{Tag, Writer};
use std::alloc::Global;

// A value's type and, under [0], the value, in a SEQUENCE.
fn write_typed(
    alloc: Global,
    identifier: &[u8],
    value: &Writer,
    out: &mut Writer,
) -> Result<(), OutOfMemory> {
    let mut fields = Writer::new(alloc);
    write_primitive(Tag::OID, identifier, &mut fields)?;
    write_constructed(Tag::CTX_0, value, &mut fields)?;
    write_constructed(Tag::SEQUENCE, &fields, out)
}

fn write_content(alloc: Global, content: &[u8], out: &mut Writer) -> Result<(), OutOfMemory> {
    let mut octets = Writer::new(alloc);
    write_primitive(Tag::OCTET_STRING, content, &mut octets)?;
    write_typed(alloc, &CT_XML, &octets, out)
}

fn write_signed_data(
    alloc: Global,
    setting: &Setting,
    parts: &Parts,
    out: &mut Writer,
) -> Result<(), OutOfMemory> {
    let mut digests = Writer::new(alloc);
    write_digest_algorithm(alloc, &mut digests)?;
    let mut certificates = Writer::new(alloc);
    write_certificate(alloc, setting, &mut certificates)?;
    let mut crls = Writer::new(alloc);
    write_crl(alloc, setting, &parts.revoked, &mut crls)?;
    let mut signers = Writer::new(alloc);
    write_signer(alloc, setting, &parts.content, &mut signers)?;
    let mut fields = Writer::new(alloc);
    write_number(3, &mut fields)?;
    write_constructed(Tag::SET, &digests, &mut fields)?;
    write_content(alloc, &parts.content, &mut fields)?;
    write_constructed(Tag::CTX_0, &certificates, &mut fields)?;
    write_constructed(Tag::CTX_1, &crls, &mut fields)?;
    write_constructed(Tag::SET, &signers, &mut fields)?;
    write_constructed(Tag::SEQUENCE, &fields, out)
}

/// The message of these parts, in DER. Moment where the time of validity leaves the years 0 to 9999; OutOfMemory also where a
/// value would have 2^30 octets or more.
pub fn build(alloc: Global, parts: &Parts) -> Result<Bytes, BuildError> {
    let setting = Setting::new(alloc, parts)?;
    let mut data = Writer::new(alloc);
    write_signed_data(alloc, &setting, parts, &mut data)?;
    let mut out = Writer::new(alloc);
    write_typed(alloc, &SIGNED_DATA, &data, &mut out)?;
    Ok(out.into_captured()?.into_bytes())
}
