//! Messages whose three signatures come from elsewhere.

use crate::building::text_of;
use bytes::Bytes;
use rpki_base::{PublicKey, RpkiSignatureAlgorithm, Serial, Signature, Time};
use rpki_der::{Captured, Writer};
use rpki_idcert::{IdCert, TbsIdCert, UnsignedIdCert};
use rpki_sigmsg::{
    OutOfMemory, SignedMessage, SignedMessageCrl, SignedMessageTbsCrl, UnsignedContent,
    UnsignedCrl, UnsignedMessage, Window,
};
use rpki_signer::ToyScheme;
use std::alloc::Global;
use std::io;
use std::io::ErrorKind;
use test_stored::{invalid, octets_of};

fn out_of_memory(_: OutOfMemory) -> io::Error {
    io::Error::from(ErrorKind::OutOfMemory)
}

// Who signs and when: key 1 of seed 1 the attributes, key 0 the CRL and the certificate with this number.
#[derive(Drop)]
struct Signing {
    window: Window,
    serial: Serial,
    key: PublicKey,
    issuing_key: PublicKey,
}

fn signing_of(alloc: Global, window: Window, serial: Serial) -> Result<Signing, OutOfMemory> {
    let issuing_key = ToyScheme::key(alloc, 1, 0)?;
    let key = ToyScheme::key(alloc, 1, 1)?;
    Ok(Signing {
        window,
        serial,
        key,
        issuing_key,
    })
}

fn signature(
    alloc: Global,
    key: &PublicKey,
    octets: &[u8],
) -> Result<Signature<RpkiSignatureAlgorithm>, OutOfMemory> {
    let value = ToyScheme::signature(alloc, key, octets)?;
    Ok(Signature::new(RpkiSignatureAlgorithm::default(), value))
}

// ---- all at once

// The signatures of the attributes, of the CRL and of the certificate.
#[derive(Drop)]
struct Signatures {
    attributes: Signature<RpkiSignatureAlgorithm>,
    crl: Signature<RpkiSignatureAlgorithm>,
    certificate: Signature<RpkiSignatureAlgorithm>,
}

fn sign_all(
    alloc: Global,
    unsigned: &UnsignedMessage,
    signing: &Signing,
) -> Result<Signatures, OutOfMemory> {
    let attributes = signature(alloc, &signing.key, unsigned.attributes())?;
    let crl = signature(alloc, &signing.issuing_key, unsigned.crl())?;
    let certificate = signature(alloc, &signing.issuing_key, unsigned.certificate())?;
    Ok(Signatures {
        attributes,
        crl,
        certificate,
    })
}

fn signed(
    alloc: Global,
    unsigned: UnsignedMessage,
    signing: &Signing,
) -> Result<SignedMessage, OutOfMemory> {
    let Signatures {
        attributes,
        crl,
        certificate,
    } = sign_all(alloc, &unsigned, signing)?;
    unsigned.into_message(alloc, attributes, crl, certificate)
}

fn made(alloc: Global, content: &[u8], signing: &Signing) -> Result<SignedMessage, OutOfMemory> {
    let content = Bytes::copy_from_slice(alloc, content)?;
    let unsigned = UnsignedMessage::new(
        alloc,
        content,
        signing.window,
        signing.serial,
        &signing.key,
        &signing.issuing_key,
    )?;
    signed(alloc, unsigned, signing)
}

// ---- part by part

// What is written of the fields of the CRL.
fn crl_octets(alloc: Global, signing: &Signing) -> Result<Captured, OutOfMemory> {
    let tbs = SignedMessageTbsCrl::new(alloc, &signing.issuing_key, signing.window)?;
    let mut out = Writer::new(alloc);
    tbs.encode_ref(&mut out)?;
    out.into_captured()
}

// The CRL, with the signature of what is written of its fields by themselves.
fn signed_crl(alloc: Global, signing: &Signing) -> Result<SignedMessageCrl, OutOfMemory> {
    let octets = crl_octets(alloc, signing)?;
    let value = signature(alloc, &signing.issuing_key, octets.as_slice())?;
    let unsigned = UnsignedCrl::new(alloc, &signing.issuing_key, signing.window)?;
    Ok(unsigned.with_signature(value))
}

fn unsigned_certificate(alloc: Global, signing: &Signing) -> Result<UnsignedIdCert, OutOfMemory> {
    let validity = signing.window.validity();
    let serial = signing.serial;
    let tbs = TbsIdCert::new(alloc, serial, validity, &signing.key, &signing.issuing_key)?;
    UnsignedIdCert::new(alloc, tbs)
}

fn signed_certificate(alloc: Global, signing: &Signing) -> Result<IdCert, OutOfMemory> {
    let unsigned = unsigned_certificate(alloc, signing)?;
    let value = signature(alloc, &signing.issuing_key, unsigned.as_slice())?;
    Ok(unsigned.with_signature(value))
}

// The message of this content and this certificate.
fn certified(
    alloc: Global,
    content: UnsignedContent,
    certificate: IdCert,
    signing: &Signing,
) -> Result<SignedMessage, OutOfMemory> {
    match (
        signature(alloc, &signing.key, content.as_slice()),
        signed_crl(alloc, signing),
    ) {
        (Ok(value), Ok(crl)) => content.into_message(alloc, value, certificate, crl),
        _ => Err(OutOfMemory),
    }
}

fn put_together(
    alloc: Global,
    content: &[u8],
    signing: &Signing,
) -> Result<SignedMessage, OutOfMemory> {
    let content = Bytes::copy_from_slice(alloc, content)?;
    let content = UnsignedContent::new(alloc, content, signing.window.moment())?;
    let certificate = signed_certificate(alloc, signing)?;
    certified(alloc, content, certificate, signing)
}

// Whether the message is written as these octets.
fn is_written(
    alloc: Global,
    message: Result<SignedMessage, OutOfMemory>,
    expected: &[u8],
) -> Result<bool, OutOfMemory> {
    let message = message?;
    Ok(message.to_captured(alloc)?.as_slice() == expected)
}

// Whether the message is so, made at once and part by part.
fn are_written(
    alloc: Global,
    content: &[u8],
    signing: &Signing,
    expected: &[u8],
) -> Result<bool, OutOfMemory> {
    let at_once = is_written(alloc, made(alloc, content, signing), expected)?;
    let by_parts = is_written(alloc, put_together(alloc, content, signing), expected)?;
    Ok(at_once && by_parts)
}

fn is_made(
    alloc: Global,
    content: &[u8],
    window: Window,
    serial: Serial,
    expected: &[u8],
) -> Result<bool, OutOfMemory> {
    let signing = signing_of(alloc, window, serial)?;
    are_written(alloc, content, &signing, expected)
}

/// Whether the words behind two of a line, `MOMENT SERIAL CONTENT`, have the message in the last word, or `moment`.
pub fn holds(alloc: Global, line: &str) -> io::Result<bool> {
    let mut words = line.split_whitespace().skip(2);
    let moment = words.next().and_then(|word| word.parse::<i64>().ok());
    let Some(now) = moment.and_then(Time::new) else {
        return Err(invalid());
    };
    let Some(serial) = words.next().and_then(|word| word.parse::<u64>().ok()) else {
        return Err(invalid());
    };
    let content = octets_of(alloc, text_of(words.next().unwrap_or("-")))?;
    let expected = words.next().unwrap_or("");
    let Some(window) = Window::new(now) else {
        return Ok(expected == "moment");
    };
    let octets = octets_of(alloc, expected)?;
    is_made(alloc, &content, window, Serial::from(serial), &octets).map_err(out_of_memory)
}
