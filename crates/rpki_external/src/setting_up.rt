//! Setup messages, whose certificates are verified by answers.

ghost use Rattle.std.specs.Prelude.{◌≡◌, IfErr, IfOk, Ok, Err};
ghost use Rattle.rpki_ca.specs.Setup.{IsNoSetup, ReadsSetup, certificate_octets};
ghost use Rattle.rpki_setup.specs.Answers.{BeginsCertificate};
ghost use Rattle.rpki_external.specs.Verifying as spec;
ghost use Rattle.rpki_external.specs.declared.setting_up.SetupError.TheVariants as variant;

use crate::answers::Answers;
use crate::asked::anchor_questions;
use crate::question_list::Questions;
use crate::verifying::{VerifyError, anchor_answered};
use rpki_base::Time;
use rpki_ca::{Refusal, SetupKind, SetupMessage};
use rpki_common::OutOfMemory;
use rpki_der::DecodeError;
use rpki_idcert::IdCert;
use std::alloc::Global;
use thiserror::Error;

/// Why a setup message isn't read by answers.
#[derive(Clone, Copy, Debug, PartialEq, Eq, Error)]
pub enum SetupError {
    /// The octets are no setup message of the kind.
    #[error("malformed XML")]
    XmlError,
    /// The octets in the place of its certificate begin with none.
    #[error("the certificate is malformed")]
    InvalidTaCertEncoding,
    /// Its certificate isn't verified. What is inside is never `Signature` or `OutOfMemory`.
    #[error("{0}")]
    Verify(VerifyError),
    /// Memory ran out.
    #[error("out of memory")]
    OutOfMemory,
}

impl From<OutOfMemory> for SetupError {
    ghost from_gives = { λ _ e. e ≡ variant.OutOfMemory };

    fn from(_: OutOfMemory) -> SetupError {
        SetupError::OutOfMemory
    }
}

impl From<VerifyError> for SetupError {
    ghost use Rattle.rpki_external.specs.Verifying.{setup_error_of};

    ghost from_gives = { λ error e. e ≡ setup_error_of error };

    fn from(error: VerifyError) -> SetupError {
        match error {
            VerifyError::OutOfMemory => SetupError::OutOfMemory,
            error => SetupError::Verify(error),
        }
    }
}

// The setup message of this kind that the octets are.
fn message_of(alloc: Global, kind: SetupKind, octets: &[u8]) -> Result<SetupMessage, SetupError>
    ensures ok { IfOk result (ReadsSetup kind octets.now) }
    ensures err { IfErr result (spec.RefusesSetup kind octets.now) }
{
    match SetupMessage::parse(alloc, kind, octets) {
        Ok(message) => Ok(message),
        Err(Refusal::OutOfMemory) => Err(SetupError::OutOfMemory),
        Err(_) => Err(SetupError::XmlError),
    }
}

// The certificate with which the octets begin that stand for it.
fn certificate_of(alloc: Global, message: &SetupMessage) -> Result<IdCert, SetupError>
    ensures ok { IfOk result (BeginsCertificate (certificate_octets message.now)) }
    ensures err { IfErr result (spec.RefusesCertificateOctets (certificate_octets message.now)) }
{
    let octets = message.id_cert().to_bytes(alloc)?;
    match IdCert::decode(alloc, octets.as_slice()) {
        Ok(certificate) => Ok(certificate),
        Err(DecodeError::Malformed) => Err(SetupError::InvalidTaCertEncoding),
        Err(DecodeError::OutOfMemory) => Err(SetupError::OutOfMemory),
    }
}

/// What is asked of the certificate in a setup message of this kind, a document of XML: its own signature, where it names itself as
/// its issuer, and else nothing ([`anchor_questions`]).
///
/// XmlError exactly where the octets are no such message, InvalidTaCertEncoding where the octets in the place of its certificate begin
/// with none. Verify never comes.
pub fn setup_questions(
    alloc: Global,
    kind: SetupKind,
    octets: &[u8],
) -> Result<Questions, SetupError>
    ensures { spec.IsSetupAsked kind octets.now result }
{
    let message = message_of(alloc, kind, octets)?;
    let certificate = certificate_of(alloc, &message)?;
    Ok(anchor_questions(alloc, &certificate)?)
}

/// The setup message of this kind that the octets are, a document of XML, if its certificate is verified as a trust anchor's at the
/// moment, by answers to its [`setup_questions`].
///
/// XmlError and InvalidTaCertEncoding come as there, and then Verify with what [`anchor_answered`] answers.
pub fn setup_answered(
    alloc: Global,
    kind: SetupKind,
    octets: &[u8],
    when: Time,
    answers: &Answers,
) -> Result<SetupMessage, SetupError>
    ensures { spec.IsSetupAnswered kind octets.now when answers.now result }
{
    let message = message_of(alloc, kind, octets)?;
    let certificate = certificate_of(alloc, &message)?;
    anchor_answered(alloc, &certificate, when, answers)?;
    Ok(message)
}
