//! Setup messages, and the trust anchors in them.

ghost use Rattle.std.specs.Prelude.{◌≡◌, ◌≢◌, Ok, Err, IfErr, IfOk};
ghost use Rattle.rpki_ca.specs.Setup.{IsNoSetup, ReadsSetup, certificate_octets};
ghost use Rattle.rpki_setup.specs.Answers.{BeginsCertificate};
ghost use Rattle.rpki_external.specs.Running.{IsSetupWritten};
ghost use Rattle.rpki_c.specs.Calls as spec;
ghost use Rattle.rpki_c.specs.HandingOver.{HandsOver, out_of_memory};

use crate::arguments::{answers_in, moment_in, setup_kind_in};
use crate::handing_over::hand_over;
use crate::outcome::Outcome;
use crate::texts::{copied, key_octets};
use rpki_base::Time;
use rpki_ca::{Refusal, SetupKind, SetupMessage};
use rpki_der::DecodeError;
use rpki_external::{Answers, KeysRefusal, setup_answered};
use rpki_idcert::IdCert;
use std::alloc::Global;

// The text anew of a setup message whose certificate is verified by answers.
fn received(
    alloc: Global,
    kind: SetupKind,
    text: &[u8],
    when: Time,
    answers: &Answers,
) -> Result<Vec<u8>, KeysRefusal>
    ensures ok { IfOk result (λ output. spec.OnLineSo
        (IsSetupWritten kind text.now when answers.now) (Ok output.items)) }
    ensures err { IfErr result (λ e. e ≢ out_of_memory → spec.OnLineSo
        (IsSetupWritten kind text.now when answers.now) (Err e)) }
{
    let message = setup_answered(alloc, kind, text, when, answers)?;
    Ok(message.to_xml_vec(alloc)?)
}

// The text of a setup message, if its certificate is verified by answers.
fn receive(
    alloc: Global,
    kind: i32,
    text: &[u8],
    when: i64,
    digest: &[u8],
    answers: &[u8],
) -> Result<Vec<u8>, KeysRefusal>
    ensures ok { IfOk result (λ output.
        spec.ReceivesSetupIn kind text.now when digest.now answers.now (Ok output.items)) }
    ensures err { IfErr result (λ e. e ≢ out_of_memory
        → spec.ReceivesSetupIn kind text.now when digest.now answers.now (Err e)) }
{
    let kind = setup_kind_in(kind)?;
    let when = moment_in(when)?;
    let answers = answers_in(alloc, digest, answers)?;
    received(alloc, kind, text, when, &answers)
}

/// The setup message of this kind that `text` is, written anew (RFC 8183, 5.2), if the five checks of its trust anchor's certificate
/// hold at the moment `when`: by answers to its questions. The kinds are 1 child_request, 2 parent_response, 3 publisher_request and
/// 4 repository_response.
///
/// Usage, XmlError, InvalidTaCertEncoding, OtherQuestions, InvalidTaCert, OutOfMemory.
#[unsafe(no_mangle)]
pub extern "C" fn calmizsed_setup_receive(
    kind: i32,
    text: &[u8],
    when: i64,
    digest: &[u8],
    answers: &[u8],
    alloc: Global,
    out: &mut [u8],
    outcome: &mut Outcome,
) -> i32
    ensures answer { HandsOver
        (spec.ReceivesSetupIn kind text.now when digest.now answers.now)
        out.old out.new outcome.new }
    ensures status { result ≡ outcome.new.status }
{
    hand_over(
        receive(alloc, kind, text, when, digest, answers),
        out,
        outcome,
    )
}

// The setup message of this kind that the text is.
fn message_of(alloc: Global, kind: SetupKind, text: &[u8]) -> Result<SetupMessage, KeysRefusal>
    ensures ok { IfOk result (ReadsSetup kind text.now) }
    ensures err { IfErr result (λ e. e ≢ out_of_memory
        → (e ≡ spec.no_xml) × IsNoSetup kind text.now) }
{
    Ok(SetupMessage::parse(alloc, kind, text)?)
}

// The text of a setup message anew.
fn rewrite(alloc: Global, kind: i32, text: &[u8]) -> Result<Vec<u8>, KeysRefusal>
    ensures ok { IfOk result (λ output. spec.RewritesSetupIn kind text.now (Ok output.items)) }
    ensures err { IfErr result (λ e. e ≢ out_of_memory
        → spec.RewritesSetupIn kind text.now (Err e)) }
{
    let kind = setup_kind_in(kind)?;
    let message = message_of(alloc, kind, text)?;
    Ok(message.to_xml_vec(alloc)?)
}

/// The setup message of this kind that `text` is, written anew (RFC 8183, 5.2). **Its certificate isn't checked.**
///
/// Usage, XmlError, OutOfMemory.
#[unsafe(no_mangle)]
pub extern "C" fn calmizsed_setup_read(
    kind: i32,
    text: &[u8],
    alloc: Global,
    out: &mut [u8],
    outcome: &mut Outcome,
) -> i32
    ensures answer { HandsOver (spec.RewritesSetupIn kind text.now) out.old out.new outcome.new }
    ensures status { result ≡ outcome.new.status }
{
    hand_over(rewrite(alloc, kind, text), out, outcome)
}

// The identity certificate with which the octets begin.
fn certificate_at(alloc: Global, octets: &[u8]) -> Result<IdCert, KeysRefusal>
    ensures ok { IfOk result (BeginsCertificate octets.now) }
    ensures err { IfErr result (λ e. e ≢ out_of_memory → spec.RefusesCertificate octets.now e) }
{
    match IdCert::decode(alloc, octets) {
        Ok(certificate) => Ok(certificate),
        Err(DecodeError::Malformed) => { Err(KeysRefusal::General(Refusal::InvalidTaCertEncoding)) }
        Err(DecodeError::OutOfMemory) => Err(KeysRefusal::General(Refusal::OutOfMemory)),
    }
}

// The identity certificate in a setup message.
fn certificate_in(alloc: Global, message: &SetupMessage) -> Result<IdCert, KeysRefusal>
    ensures ok { IfOk result (BeginsCertificate (certificate_octets message.now)) }
    ensures err { IfErr result (λ e. e ≢ out_of_memory
        → spec.RefusesCertificate (certificate_octets message.now) e) }
{
    let octets = message.id_cert().to_bytes(alloc)?;
    certificate_at(alloc, octets.as_slice())
}

// The octets of the certificate in the setup message that the text is.
fn anchor_of(alloc: Global, kind: SetupKind, text: &[u8]) -> Result<Vec<u8>, KeysRefusal>
    ensures ok { IfOk result (λ output. spec.GivesAnchor kind text.now (Ok output.items)) }
    ensures err { IfErr result (λ e. e ≢ out_of_memory → spec.GivesAnchor kind text.now (Err e)) }
{
    let message = message_of(alloc, kind, text)?;
    let certificate = certificate_in(alloc, &message)?;
    Ok(copied(alloc, certificate.to_captured(alloc)?.as_slice())?)
}

// The octets of the certificate in a setup message.
fn anchor(alloc: Global, kind: i32, text: &[u8]) -> Result<Vec<u8>, KeysRefusal>
    ensures ok { IfOk result (λ output. spec.GivesAnchorIn kind text.now (Ok output.items)) }
    ensures err { IfErr result (λ e. e ≢ out_of_memory
        → spec.GivesAnchorIn kind text.now (Err e)) }
{
    let kind = setup_kind_in(kind)?;
    anchor_of(alloc, kind, text)
}

/// The trust anchor's certificate, in DER, of the setup message of this kind that `text` is (RFC 8183, 5.1). **It isn't checked.**
///
/// Usage, XmlError, InvalidTaCertEncoding, OutOfMemory.
#[unsafe(no_mangle)]
pub extern "C" fn calmizsed_setup_anchor(
    kind: i32,
    text: &[u8],
    alloc: Global,
    out: &mut [u8],
    outcome: &mut Outcome,
) -> i32
    ensures answer { HandsOver (spec.GivesAnchorIn kind text.now) out.old out.new outcome.new }
    ensures status { result ≡ outcome.new.status }
{
    hand_over(anchor(alloc, kind, text), out, outcome)
}

// The key of an identity certificate.
fn anchor_key(alloc: Global, octets: &[u8]) -> Result<Vec<u8>, KeysRefusal>
    ensures ok { IfOk result (λ output. spec.GivesAnchorKey octets.now (Ok output.items)) }
    ensures err { IfErr result (λ e. e ≢ out_of_memory → spec.GivesAnchorKey octets.now (Err e)) }
{
    let certificate = certificate_at(alloc, octets)?;
    Ok(key_octets(alloc, certificate.tbs().public_key())?)
}

/// The key of the identity certificate with which `certificate` begins, in DER, as a SubjectPublicKeyInfo in DER (RFC 5280, 4.1.2.7).
/// **The certificate isn't checked.**
///
/// InvalidTaCertEncoding, OutOfMemory.
#[unsafe(no_mangle)]
pub extern "C" fn calmizsed_anchor_key(
    certificate: &[u8],
    alloc: Global,
    out: &mut [u8],
    outcome: &mut Outcome,
) -> i32
    ensures answer { HandsOver (spec.GivesAnchorKey certificate.now)
        out.old out.new outcome.new }
    ensures status { result ≡ outcome.new.status }
{
    hand_over(anchor_key(alloc, certificate), out, outcome)
}
