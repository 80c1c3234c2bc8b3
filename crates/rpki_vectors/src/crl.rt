//! The CRL (RFC 5280, 5.1).

use crate::parts::Setting;
use crate::writing::{
    write_authority_key, write_constructed, write_extension, write_name, write_number, write_signed,
};
use rpki_base::{CRL_NUMBER, RpkiSignatureAlgorithm, SignatureAlgorithm, Time};
use rpki_common::OutOfMemory;
use rpki_der::{Tag, Writer};
use std::alloc::Global;

// An entry: a serial number, revoked at the moment.
fn write_entry(
    alloc: Global,
    serial: u64,
    moment: Time,
    out: &mut Writer,
) -> Result<(), OutOfMemory> {
    let mut entry = Writer::new(alloc);
    write_number(serial, &mut entry)?;
    moment.to_der_varied(&mut entry)?;
    write_constructed(Tag::SEQUENCE, &entry, out)
}

// The entries; an empty SEQUENCE where there are none.
fn write_entries(
    alloc: Global,
    revoked: &[u64],
    moment: Time,
    out: &mut Writer,
) -> Result<(), OutOfMemory> {
    let mut entries = Writer::new(alloc);
    for serial in revoked {
        write_entry(alloc, *serial, moment, &mut entries)?;
    }
    write_constructed(Tag::SEQUENCE, &entries, out)
}

// The CRL number: the moment in milliseconds since 1970, and 0 before 1970, since it can't be negative.
fn crl_number(moment: Time) -> u64 {
    moment.seconds().max(0) as u64 * 1000
}

fn write_extensions(alloc: Global, setting: &Setting, out: &mut Writer) -> Result<(), OutOfMemory> {
    let mut number = Writer::new(alloc);
    write_number(crl_number(setting.moment), &mut number)?;
    let mut extensions = Writer::new(alloc);
    write_authority_key(alloc, &setting.issuer, &mut extensions)?;
    write_extension(alloc, &CRL_NUMBER, &number, &mut extensions)?;
    let mut list = Writer::new(alloc);
    write_constructed(Tag::SEQUENCE, &extensions, &mut list)?;
    write_constructed(Tag::CTX_0, &list, out)
}

/// Appends the CRL that lists these serial numbers.
pub(crate) fn write_crl(
    alloc: Global,
    setting: &Setting,
    revoked: &[u64],
    out: &mut Writer,
) -> Result<(), OutOfMemory> {
    let mut fields = Writer::new(alloc);
    write_number(1, &mut fields)?;
    RpkiSignatureAlgorithm::default().x509_encode(&mut fields)?;
    write_name(alloc, &setting.issuer, &mut fields)?;
    setting.first.to_der_varied(&mut fields)?;
    setting.last.to_der_varied(&mut fields)?;
    write_entries(alloc, revoked, setting.moment, &mut fields)?;
    write_extensions(alloc, setting, &mut fields)?;
    write_signed(alloc, &setting.issuer, &fields, out)
}
