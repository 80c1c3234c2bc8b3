//! The certificate of the key that signs the message (RFC 5280, 4.1).

use crate::parts::Setting;
use crate::writing::{
    write_authority_key, write_constructed, write_extension, write_name, write_number,
    write_primitive, write_signed,
};
use rpki_base::{PublicKey, RpkiSignatureAlgorithm, SUBJECT_KEY_IDENTIFIER, SignatureAlgorithm};
use rpki_common::OutOfMemory;
use rpki_der::{Tag, Writer};
use std::alloc::Global;

// The serial number.
const SERIAL: u64 = 1;

// Version 3.
fn write_version(alloc: Global, out: &mut Writer) -> Result<(), OutOfMemory> {
    let mut version = Writer::new(alloc);
    write_number(2, &mut version)?;
    write_constructed(Tag::CTX_0, &version, out)
}

fn write_validity(alloc: Global, setting: &Setting, out: &mut Writer) -> Result<(), OutOfMemory> {
    let mut times = Writer::new(alloc);
    setting.first.to_der_varied(&mut times)?;
    setting.last.to_der_varied(&mut times)?;
    write_constructed(Tag::SEQUENCE, &times, out)
}

fn write_subject_key(alloc: Global, key: &PublicKey, out: &mut Writer) -> Result<(), OutOfMemory> {
    let mut value = Writer::new(alloc);
    write_primitive(
        Tag::OCTET_STRING,
        key.key_identifier().as_slice(),
        &mut value,
    )?;
    write_extension(alloc, &SUBJECT_KEY_IDENTIFIER, &value, out)
}

fn write_extensions(alloc: Global, setting: &Setting, out: &mut Writer) -> Result<(), OutOfMemory> {
    let mut extensions = Writer::new(alloc);
    write_subject_key(alloc, &setting.subject, &mut extensions)?;
    write_authority_key(alloc, &setting.issuer, &mut extensions)?;
    let mut list = Writer::new(alloc);
    write_constructed(Tag::SEQUENCE, &extensions, &mut list)?;
    write_constructed(Tag::CTX_3, &list, out)
}

/// Appends the certificate.
pub(crate) fn write_certificate(
    alloc: Global,
    setting: &Setting,
    out: &mut Writer,
) -> Result<(), OutOfMemory> {
    let mut fields = Writer::new(alloc);
    write_version(alloc, &mut fields)?;
    write_number(SERIAL, &mut fields)?;
    RpkiSignatureAlgorithm::default().x509_encode(&mut fields)?;
    write_name(alloc, &setting.issuer, &mut fields)?;
    write_validity(alloc, setting, &mut fields)?;
    write_name(alloc, &setting.subject, &mut fields)?;
    setting.subject.encode_ref(&mut fields)?;
    write_extensions(alloc, setting, &mut fields)?;
    write_signed(alloc, &setting.issuer, &fields, out)
}
