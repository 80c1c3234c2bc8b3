//! What certificates show, as the fields of an answer.

use rpki_base::{KeyIdentifier, PublicKeyFormat};
use rpki_der::{DecodeError, OutOfMemory, Writer};
use rpki_idcert::{IdCert, TbsIdCert};
use std::alloc::Global;
use test_stored::Fields;

fn format_name(format: PublicKeyFormat) -> &'static str {
    match format {
        PublicKeyFormat::Rsa => "rsa",
        PublicKeyFormat::EcdsaP256 => "ec",
    }
}

/// Appends a key identifier; where there is none, a field of no octets.
pub fn append_identifier(
    fields: &mut Fields,
    identifier: Option<KeyIdentifier>,
) -> Result<(), DecodeError> {
    match identifier {
        Some(identifier) => Ok(fields.octets(identifier.as_slice())?),
        None => Ok(fields.octets(&[])?),
    }
}

// Appends what basicConstraints say; where there are none, a field of no octets.
fn append_constraints(fields: &mut Fields, basic_ca: Option<bool>) -> Result<(), DecodeError> {
    match basic_ca {
        Some(holds) => Ok(fields.octets(&[u8::from(holds)])?),
        None => Ok(fields.octets(&[])?),
    }
}

// Appends the subject's key: its format, its bits and its key identifier.
fn append_key(fields: &mut Fields, tbs: &TbsIdCert) -> Result<(), DecodeError> {
    let key = tbs.subject_public_key_info();
    if *key != *tbs.public_key() {
        return Err(DecodeError::Malformed);
    }
    fields.octets(format_name(key.format()).as_bytes())?;
    fields.octets(key.bits_bytes().as_slice())?;
    fields.octets(key.key_identifier().as_slice())?;
    Ok(())
}

// Appends basicConstraints, the subject's key identifier and that of the authority.
fn append_extensions(fields: &mut Fields, tbs: &TbsIdCert) -> Result<(), DecodeError> {
    append_constraints(fields, tbs.basic_ca())?;
    if tbs.subject_key_id() != tbs.subject_key_identifier() {
        return Err(DecodeError::Malformed);
    }
    fields.octets(tbs.subject_key_identifier().as_slice())?;
    append_identifier(fields, tbs.authority_key_id())
}

// Appends the seconds of the validity's ends.
fn append_validity(alloc: Global, fields: &mut Fields, tbs: &TbsIdCert) -> Result<(), DecodeError> {
    fields.print(alloc, tbs.validity().not_before().seconds())?;
    fields.print(alloc, tbs.validity().not_after().seconds())?;
    Ok(())
}

// What is written of what is signed.
fn written(alloc: Global, tbs: &TbsIdCert) -> Result<Writer, OutOfMemory> {
    let mut out = Writer::new(alloc);
    tbs.encode_ref(&mut out)?;
    Ok(out)
}

/// The serial number, the issuer, the two ends of the validity, the subject, the three fields of its key,
/// basicConstraints, the two key identifiers, and what is written.
pub fn tbs_shown(alloc: Global, tbs: &TbsIdCert) -> Result<Fields, DecodeError> {
    let mut fields = Fields::one(alloc, tbs.serial_number().as_slice())?;
    fields.octets(tbs.issuer().as_slice())?;
    append_validity(alloc, &mut fields, tbs)?;
    fields.octets(tbs.subject().as_slice())?;
    append_key(&mut fields, tbs)?;
    append_extensions(&mut fields, tbs)?;
    fields.octets(written(alloc, tbs)?.as_slice())?;
    Ok(fields)
}

// What three calls write of a certificate, if they agree.
fn written_certificate(alloc: Global, cert: &IdCert) -> Result<Writer, DecodeError> {
    let mut out = Writer::new(alloc);
    cert.encode_ref(&mut out)?;
    let captured = cert.to_captured(alloc)?;
    let bytes = cert.to_bytes(alloc)?;
    if captured.as_slice() != out.as_slice() || bytes.as_slice() != out.as_slice() {
        return Err(DecodeError::Malformed);
    }
    Ok(out)
}

// Whether a copy is equal, and what is signed in it.
fn is_copied(alloc: Global, cert: &IdCert, copy: &IdCert) -> Result<bool, DecodeError> {
    let tbs = copy.tbs().clone(alloc)?;
    Ok(*copy == *cert && tbs == *cert.tbs())
}

// The fields of a certificate and of its copy.
fn both_shown(alloc: Global, cert: &IdCert, copy: &IdCert) -> Result<Fields, DecodeError> {
    if !is_copied(alloc, cert, copy)? {
        return Err(DecodeError::Malformed);
    }
    let mut fields = tbs_shown(alloc, copy.tbs())?;
    fields.octets(cert.signed_data().slice().as_slice())?;
    fields.octets(cert.signed_data().signature().value().as_slice())?;
    fields.octets(written_certificate(alloc, copy)?.as_slice())?;
    Ok(fields)
}

/// The fields of what is signed, then the signed octets, the signature, and what a copy of the certificate writes.
pub fn certificate_shown(alloc: Global, cert: &IdCert) -> Result<Fields, DecodeError> {
    both_shown(alloc, cert, &cert.clone(alloc)?)
}
