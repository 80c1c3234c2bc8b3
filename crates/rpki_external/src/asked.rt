//! What is asked of signed messages, of trust anchors' certificates and of certificate requests.

ghost use Rattle.std.specs.Prelude.{◌≡◌, ◌++◌, ◌∷◌, IfErr, IfOk, OnOk, map};
ghost use Rattle.rpki_der.specs.declared.error.DecodeError.TheVariants as decode;
ghost use Rattle.rpki_ca.specs.Acceptance.{HoldsNoSigned};
ghost use Rattle.rpki_external.specs.Question as spec;
ghost use Rattle.rpki_external.specs.Receiving.{AreAskedOf};

use crate::question::{Part, Question, SignedPart};
use crate::question_list::Questions;
use rpki_base::{PublicKey, RpkiSignatureAlgorithm, SignedData};
use rpki_cert::RpkiCaCsr;
use rpki_der::{DecodeError, OutOfMemory};
use rpki_idcert::IdCert;
use rpki_sigmsg::{SignedMessage, SignedMessageCrl};
use std::alloc::Global;

// The question of the attributes.
fn attributes_question(alloc: Global, message: &SignedMessage) -> Result<Question, OutOfMemory>
    ensures { IfOk result (λ q. q ≡ spec.attributes_question message.now) }
{
    let key = message.ee_cert().tbs().public_key().clone(alloc)?;
    let octets = message.covered().clone()?;
    let signature = message.signature().value().clone()?;
    Ok(Question::new(Part::Attributes, key, octets, signature))
}

// The question of signed data under a key.
fn signed_question(
    alloc: Global,
    part: Part,
    key: &PublicKey,
    signed: &SignedData<RpkiSignatureAlgorithm>,
) -> Result<Question, OutOfMemory>
    ensures { IfOk result (λ q. q ≡ record {
      part = part;
      key = key.now;
      octets = signed.now.slice;
      signature = signed.now.signature.value;
    }) }
{
    let key = key.clone(alloc)?;
    let octets = signed.slice().clone()?;
    let signature = signed.signature().value().clone()?;
    Ok(Question::new(part, key, octets, signature))
}

// A part that is signed data.
fn signed_part(
    part: Part,
    signed: &SignedData<RpkiSignatureAlgorithm>,
) -> Result<SignedPart, OutOfMemory>
    ensures { IfOk result (λ p. p ≡ record {
      part = part;
      octets = signed.now.slice;
      signature = signed.now.signature.value;
    }) }
{
    let octets = signed.slice().clone()?;
    let signature = signed.signature().value().clone()?;
    Ok(SignedPart::new(part, octets, signature))
}

// Appends the parts that CRLs are.
fn push_crls(crls: &[SignedMessageCrl], parts: &mut Vec<SignedPart>) -> Result<(), OutOfMemory>
    ensures { OnOk result
        (parts.new.items ≡ parts.old.items ++ map spec.crl_part crls.now) }
{
    for crl in crls {
        parts.push(signed_part(Part::Crl, crl.signed_data())?)?;
    }
    Ok(())
}

// The parts of a message that are asked under each key: the certificate and each CRL.
fn parts_of(alloc: Global, message: &SignedMessage) -> Result<Vec<SignedPart>, OutOfMemory>
    ensures { IfOk result (λ parts. parts.items
        ≡ spec.certificate_part message.now.certificate ∷ map spec.crl_part message.now.crls) }
{
    let mut parts = Vec::new(alloc);
    parts.push(signed_part(Part::Certificate, message.ee_cert().signed_data())?)?;
    push_crls(message.crls(), &mut parts)?;
    Ok(parts)
}

// The same keys.
fn cloned(alloc: Global, keys: &[PublicKey]) -> Result<Vec<PublicKey>, OutOfMemory>
    ensures { IfOk result (λ list. list.items ≡ keys.now) }
{
    let mut list = Vec::with_capacity(alloc, keys.len())?;
    for key in keys {
        list.push(key.clone(alloc)?)?;
    }
    Ok(list)
}

/// What the checks of a signed message ask under these keys: whether the signature of the attributes holds under the certificate's
/// key, and under each of the keys that of the certificate and that of each CRL.
pub fn message_questions(
    alloc: Global,
    message: &SignedMessage,
    keys: &[PublicKey],
) -> Result<Questions, OutOfMemory>
    ensures { IfOk result (λ q. q ≡ spec.message_questions message.now keys.now) }
{
    let own = attributes_question(alloc, message)?;
    let parts = parts_of(alloc, message)?;
    Ok(Questions::new(Some(own), parts, cloned(alloc, keys)?))
}

/// As [`message_questions`], of the signed message at the beginning of the octets, in BER. What stands behind it isn't read, nor is
/// its content.
///
/// Malformed exactly where no beginning of the octets is a signed message.
pub fn questions(alloc: Global, octets: &[u8], keys: &[PublicKey]) -> Result<Questions, DecodeError>
    ensures ok { IfOk result (AreAskedOf octets.now keys.now) }
    ensures err { IfErr result (λ e. e ≡ decode.Malformed → HoldsNoSigned octets.now) }
{
    match SignedMessage::decode(alloc, octets, false) {
        Ok(message) => Ok(message_questions(alloc, &message, keys)?),
        Err(error) => Err(error),
    }
}

/// What the checks of a trust anchor's certificate ask: whether its signature holds under its own key, where it names itself as its
/// issuer; else nothing.
pub fn anchor_questions(alloc: Global, certificate: &IdCert) -> Result<Questions, OutOfMemory>
    ensures { IfOk result (λ q. q ≡ spec.anchor_questions certificate.now) }
{
    let own = if certificate.tbs().names_itself() {
        let key = certificate.tbs().public_key();
        Some(signed_question(alloc, Part::Anchor, key, certificate.signed_data())?)
    } else {
        None
    };
    Ok(Questions::new(own, Vec::new(alloc), Vec::new(alloc)))
}

/// What the check of a certificate request asks: whether its signature holds under the key that it names.
pub fn request_questions(alloc: Global, request: &RpkiCaCsr) -> Result<Questions, OutOfMemory>
    ensures { IfOk result (λ q. q ≡ spec.request_questions request.now) }
{
    let own = signed_question(
        alloc,
        Part::Request,
        request.public_key(),
        request.signed_data(),
    )?;
    Ok(Questions::new(Some(own), Vec::new(alloc), Vec::new(alloc)))
}
