//! What is verified by answers, beside the receipt of messages.

ghost use Rattle.std.specs.Prelude.{◌≡◌, ◌↔◌, IfErr, IfOk, IsOk};
ghost use Rattle.rpki_sigmsg.specs.Checks.{AreChecks};
ghost use Rattle.rpki_external.specs.Answers.{by_answers};
ghost use Rattle.rpki_external.specs.Receiving.{RefusesChecks};
ghost use Rattle.rpki_external.specs.Verifying as spec;
ghost use Rattle.rpki_external.specs.declared.verifying.VerifyError.TheVariants as variant;

use crate::answers::{Answers, AnswersError};
use crate::asked::{anchor_questions, message_questions, request_questions};
use crate::question::Question;
use crate::receiving::AnsweredError;
use crate::scheme::{AnswerScheme, AnswerVerifier, AnsweredQuestions};
use rpki_base::{PublicKey, SignatureVerificationError, Time, ValidationError};
use rpki_cert::RpkiCaCsr;
use rpki_common::OutOfMemory;
use rpki_idcert::IdCert;
use rpki_sigmsg::SignedMessage;
use std::alloc::Global;
use std::array;
use std::marker::Brand;
use thiserror::Error;

/// Why a trust anchor's certificate or a request isn't verified by answers.
#[derive(Clone, Copy, Debug, PartialEq, Eq, Error)]
pub enum VerifyError {
    /// The answers are to other questions.
    #[error("the answers are to other questions")]
    OtherQuestions,
    /// There are more or fewer answers than questions.
    #[error("not as many answers as questions")]
    Number,
    /// A check of the certificate fails.
    #[error("{0}")]
    Validation(ValidationError),
    /// The request's signature doesn't hold under its own key.
    #[error("the signature does not hold")]
    Signature,
    /// Memory ran out.
    #[error("out of memory")]
    OutOfMemory,
}

impl From<OutOfMemory> for VerifyError {
    ghost from_gives = { λ _ e. e ≡ variant.OutOfMemory };

    fn from(_: OutOfMemory) -> VerifyError {
        VerifyError::OutOfMemory
    }
}

impl From<AnswersError> for VerifyError {
    ghost use Rattle.rpki_external.specs.Verifying.{verify_error_of};

    ghost from_gives = { λ error e. e ≡ verify_error_of error };

    fn from(error: AnswersError) -> VerifyError {
        match error {
            AnswersError::OtherQuestions => VerifyError::OtherQuestions,
            AnswersError::Number => VerifyError::Number,
            AnswersError::OutOfMemory => VerifyError::OutOfMemory,
        }
    }
}

impl From<ValidationError> for VerifyError {
    ghost from_gives = { λ error e. e ≡ variant.Validation error };

    fn from(error: ValidationError) -> VerifyError {
        VerifyError::Validation(error)
    }
}

impl From<SignatureVerificationError> for VerifyError {
    ghost from_gives = { λ _ e. e ≡ variant.Signature };

    fn from(_: SignatureVerificationError) -> VerifyError {
        VerifyError::Signature
    }
}

// What the checks of a trust anchor's certificate answer under the scheme that these answers are.
fn validate_by<A: AnsweredQuestions>(
    certificate: &IdCert,
    when: Time,
    questions: &[Question],
    answers: &[bool],
) -> Result<(), ValidationError>
    requires questions { questions.now ≡ A.questions }
    requires answers { answers.now ≡ A.answers }
    ensures { spec.IsTaValidation (by_answers questions.now answers.now) certificate.now when
        result }
{
    let verifier = AnswerVerifier::<A>::new(questions, answers);
    certificate.validate_ta_at::<AnswerScheme<A>, AnswerVerifier<A>>(&verifier, when)
}

// The same, whatever questions and answers they are.
fn validate_given(
    certificate: &IdCert,
    when: Time,
    questions: &[Question],
    answers: &[bool],
) -> Result<(), ValidationError>
    ensures { spec.IsTaValidation (by_answers questions.now answers.now) certificate.now when
        result }
{
    validate_by::<Brand>(certificate, when, questions, answers)
}

/// Verifies a trust anchor's certificate at the moment, as [`IdCert::validate_ta_at`] does, by answers to its
/// [`crate::anchor_questions`].
///
/// OtherQuestions comes first, where the answers are to other questions, then Number, where there are more or fewer of them, and then
/// Validation with the first of the five checks that fails. Signature never comes.
pub fn anchor_answered(
    alloc: Global,
    certificate: &IdCert,
    when: Time,
    answers: &Answers,
) -> Result<(), VerifyError>
    ensures { spec.IsAnchorVerified certificate.now when answers.now result }
{
    let questions = anchor_questions(alloc, certificate)?;
    let list = answers.matched(alloc, &questions)?;
    validate_given(certificate, when, &list, answers.values())?;
    Ok(())
}

// Whether a request is signed under its own key, under the scheme that these answers are.
fn verify_by<A: AnsweredQuestions>(
    request: &RpkiCaCsr,
    questions: &[Question],
    answers: &[bool],
) -> Result<(), SignatureVerificationError>
    requires questions { questions.now ≡ A.questions }
    requires answers { answers.now ≡ A.answers }
    ensures { IsOk result
        ↔ spec.IsRequestSigned (by_answers questions.now answers.now) request.now }
{
    let verifier = AnswerVerifier::<A>::new(questions, answers);
    request.verify_signature::<AnswerScheme<A>, AnswerVerifier<A>>(&verifier)
}

// The same, whatever questions and answers they are.
fn verify_given(
    request: &RpkiCaCsr,
    questions: &[Question],
    answers: &[bool],
) -> Result<(), SignatureVerificationError>
    ensures { IsOk result
        ↔ spec.IsRequestSigned (by_answers questions.now answers.now) request.now }
{
    verify_by::<Brand>(request, questions, answers)
}

/// Verifies that a certificate request is signed under the key that it names, by answers to its [`crate::request_questions`].
///
/// OtherQuestions comes first, where the answers are to other questions, then Number, where there are more or fewer of them, and then
/// Signature, where the signature doesn't hold. Validation never comes.
pub fn request_answered(
    alloc: Global,
    request: &RpkiCaCsr,
    answers: &Answers,
) -> Result<(), VerifyError>
    ensures { spec.IsRequestVerified request.now answers.now result }
{
    let questions = request_questions(alloc, request)?;
    let list = answers.matched(alloc, &questions)?;
    verify_given(request, &list, answers.values())?;
    Ok(())
}

// The fourteen checks of a message under the scheme that these answers are.
fn checks_by<A: AnsweredQuestions>(
    message: &SignedMessage,
    key: &PublicKey,
    when: Time,
    questions: &[Question],
    answers: &[bool],
) -> [bool; 14]
    requires questions { questions.now ≡ A.questions }
    requires answers { answers.now ≡ A.answers }
    ensures { AreChecks (by_answers questions.now answers.now) message.now key.now when result }
{
    let verifier = AnswerVerifier::<A>::new(questions, answers);
    message.checks_at::<AnswerScheme<A>, AnswerVerifier<A>>(&verifier, key, when)
}

// The same, whatever questions and answers they are.
fn checks_given(
    message: &SignedMessage,
    key: &PublicKey,
    when: Time,
    questions: &[Question],
    answers: &[bool],
) -> [bool; 14]
    ensures { AreChecks (by_answers questions.now answers.now) message.now key.now when result }
{
    checks_by::<Brand>(message, key, when, questions, answers)
}

/// The fourteen checks of the signed message at the beginning of the octets, in BER, under a key at a moment, each of them whether or
/// not one before it fails, as [`SignedMessage::checks_at`] gives them: by answers to the [`crate::questions`] of the octets under that
/// key alone.
///
/// CmsDecode comes first, where no beginning of the octets is a signed message; then OtherQuestions, where the answers are to other
/// questions, and Number, where there are more or fewer of them. No other error comes, but for want of memory.
pub fn checks_answered(
    alloc: Global,
    octets: &[u8],
    key: &PublicKey,
    when: Time,
    answers: &Answers,
) -> Result<[bool; 14], AnsweredError>
    ensures ok { IfOk result (spec.AreChecksBy octets.now key.now when answers.now) }
    ensures err { IfErr result (RefusesChecks octets.now key.now answers.now) }
{
    let message = SignedMessage::decode(alloc, octets, false)?;
    let questions = message_questions(alloc, &message, array::from_ref(key))?;
    let list = answers.matched(alloc, &questions)?;
    Ok(checks_given(&message, key, when, &list, answers.values()))
}
