//! What is received by answers.

ghost use Rattle.std.specs.Prelude.{◌≡◌, ◌≤◌, MatchResult, length};
ghost use Rattle.rpki_common.specs.Limits.{most_keys};
ghost use Rattle.rpki_external.specs.Answers.{by_answers};
ghost use Rattle.rpki_external.specs.Receiving.{IsReceiptBy, RefusesByAnswers, guarded, judged_answered, receipt_of};
ghost use Rattle.rpki_external.specs.declared.receiving.AnsweredError.TheVariants as variant;
ghost use Rattle.rpki_ca.specs.Acceptance.{IsReceivedUnder};

use crate::answers::{Answers, AnswersError};
use crate::asked::message_questions;
use crate::question::Question;
use crate::scheme::{AnswerScheme, AnswerVerifier, AnsweredQuestions};
use rpki_base::{PublicKey, Time};
use rpki_ca::{Kind, ReceiveError, Received, receive_any};
use rpki_common::OutOfMemory;
use rpki_der::DecodeError;
use rpki_sigmsg::SignedMessage;
use std::alloc::Global;
use std::marker::Brand;
use thiserror::Error;

/// What was received.
#[derive(Drop)]
pub struct Receipt {
    /// The message.
    pub message: Received,
    /// The place of the first key, from 0, that issued its certificate for the moment.
    pub place: usize,
    /// When the message says that it was signed, in seconds since 1970, if it does.
    pub signing_time: Option<Time>,
}

/// Why nothing was received by answers.
#[derive(Clone, Copy, Debug, PartialEq, Eq, Error)]
pub enum AnsweredError {
    /// The answers are to other questions.
    #[error("the answers are to other questions")]
    OtherQuestions,
    /// There are more or fewer answers than questions.
    #[error("not as many answers as questions")]
    Number,
    /// The message is not received.
    #[error("{0}")]
    Receive(ReceiveError),
    /// A last time was handed in, and the message doesn't say when it was signed.
    #[error("the message has no signing time")]
    NoTime,
    /// The message was signed at `seen`, which isn't later than the last time that was handed in.
    #[error("the message is not signed later than the last one")]
    Replayed {
        /// The last time.
        last: Time,
        /// The message's.
        seen: Time,
    },
}

impl From<ReceiveError> for AnsweredError {
    ghost from_gives = { λ error e. e ≡ variant.Receive error };

    fn from(error: ReceiveError) -> AnsweredError {
        AnsweredError::Receive(error)
    }
}

impl From<OutOfMemory> for AnsweredError {
    ghost use Rattle.rpki_ca.specs.declared.receiving.ReceiveError.TheVariants as receive;

    ghost from_gives = { λ _ e. e ≡ variant.Receive receive.OutOfMemory };

    fn from(_: OutOfMemory) -> AnsweredError {
        AnsweredError::Receive(ReceiveError::OutOfMemory)
    }
}

impl From<DecodeError> for AnsweredError {
    ghost use Rattle.rpki_external.specs.Receiving.{of_decode};

    ghost from_gives = { λ error e. e ≡ of_decode error };

    fn from(error: DecodeError) -> AnsweredError {
        match error {
            DecodeError::Malformed => AnsweredError::Receive(ReceiveError::CmsDecode),
            DecodeError::OutOfMemory => AnsweredError::Receive(ReceiveError::OutOfMemory),
        }
    }
}

impl From<AnswersError> for AnsweredError {
    ghost use Rattle.rpki_external.specs.Receiving.{of_answers};

    ghost from_gives = { λ error e. e ≡ of_answers error };

    fn from(error: AnswersError) -> AnsweredError {
        match error {
            AnswersError::OtherQuestions => AnsweredError::OtherQuestions,
            AnswersError::Number => AnsweredError::Number,
            AnswersError::OutOfMemory => AnsweredError::Receive(ReceiveError::OutOfMemory),
        }
    }
}

// What is received under the scheme that the answers to these questions are.
fn receive_by<A: AnsweredQuestions>(
    alloc: Global,
    kind: Kind,
    octets: &[u8],
    keys: &[PublicKey],
    when: Time,
    questions: &[Question],
    answers: &[bool],
) -> Result<(Received, usize), ReceiveError>
    requires some { 1 ≤ length keys.now }
    requires few { length keys.now ≤ most_keys }
    requires questions { questions.now ≡ A.questions }
    requires answers { answers.now ≡ A.answers }
    ensures { IsReceivedUnder (by_answers questions.now answers.now) kind octets.now keys.now when
        result }
{
    let verifier = AnswerVerifier::<A>::new(questions, answers);
    receive_any::<AnswerScheme<A>, AnswerVerifier<A>>(alloc, kind, octets, keys, when, &verifier)
}

// What is received under the scheme that these answers are, whatever questions and answers they are.
fn receive_given(
    alloc: Global,
    kind: Kind,
    octets: &[u8],
    keys: &[PublicKey],
    when: Time,
    questions: &[Question],
    answers: &[bool],
) -> Result<(Received, usize), ReceiveError>
    requires some { 1 ≤ length keys.now }
    requires few { length keys.now ≤ most_keys }
    ensures { IsReceivedUnder (by_answers questions.now answers.now) kind octets.now keys.now when
        result }
{
    receive_by::<Brand>(alloc, kind, octets, keys, when, questions, answers)
}

// Whether a message with this signing time passes a guard whose last time this is, if one is handed in.
fn pass_guard(last: Option<Time>, signing_time: Option<Time>) -> Result<(), AnsweredError>
    ensures { result ≡ judged_answered last signing_time }
{
    let Some(last) = last else {
        return Ok(());
    };
    let Some(seen) = signing_time else {
        return Err(AnsweredError::NoTime);
    };
    if seen <= last {
        return Err(AnsweredError::Replayed { last, seen });
    }
    Ok(())
}

// The receipt of what was received of this message.
fn receipt_of(
    received: Result<(Received, usize), ReceiveError>,
    signed: &SignedMessage,
) -> Result<Receipt, ReceiveError>
    ensures { result ≡ receipt_of received signed.now.signing_time }
{
    match received {
        Ok((message, place)) => Ok(Receipt {
            message,
            place,
            signing_time: signed.signing_time(),
        }),
        Err(error) => Err(error),
    }
}

// The receipt, if there is one and it passes a guard whose last time this is, if one is handed in.
fn guarded(
    receipt: Result<Receipt, ReceiveError>,
    last: Option<Time>,
    signed: &SignedMessage,
) -> Result<Receipt, AnsweredError>
    ensures { result ≡ guarded receipt (judged_answered last signed.now.signing_time) }
{
    match receipt {
        Ok(receipt) => match pass_guard(last, signed.signing_time()) {
            Ok(()) => Ok(receipt),
            Err(error) => Err(error),
        },
        Err(error) => Err(AnsweredError::from(error)),
    }
}

/// As [`rpki_ca::receive_any`], by answers to the [`crate::questions`] of the octets under the keys, with the place of the key and the
/// signing time. Where a last time is handed in, the message has to be signed later, as [`rpki_replay::Guard::admit`] of a guard
/// asks that has this last time for the key: who keeps the signing time of each receipt as the next last time admits no message twice.
///
/// CmsDecode comes first, where no beginning of the octets is a signed message; then OtherQuestions, where the answers are to other
/// questions, and Number, where there are more or fewer of them; then what `receive_any` answers under the scheme that the answers are,
/// which is what it answers under each for which they are right ([`crate::right_answers_decide`]); then NoTime and Replayed, of a
/// message that is accepted.
pub fn receive_answered(
    alloc: Global,
    kind: Kind,
    octets: &[u8],
    keys: &[PublicKey],
    when: Time,
    answers: &Answers,
    last: Option<Time>,
) -> Result<Receipt, AnsweredError>
    requires some { 1 ≤ length keys.now }
    requires few { length keys.now ≤ most_keys }
    ensures { MatchResult result
        (IsReceiptBy kind octets.now keys.now when answers.now last)
        (RefusesByAnswers kind octets.now keys.now when answers.now last) }
{
    let signed = SignedMessage::decode(alloc, octets, false)?;
    let questions = message_questions(alloc, &signed, keys)?;
    let list = answers.matched(alloc, &questions)?;
    let receipt = receipt_of(
        receive_given(alloc, kind, octets, keys, when, &list, answers.values()),
        &signed,
    );
    guarded(receipt, last, &signed)
}
