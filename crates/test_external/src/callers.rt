//! Callers that hand answers to calls which ask a verifier. Their clauses speak of the scheme that the answers of the call are.
//!
//! The type `Brand` stands for that scheme. A function `.._by` is for any type `A` that stands for questions and answers, and asks that
//! they be those that it is given. A function `.._given` calls it at `Brand`, and its proof names the questions and answers that are
//! meant (proofs/callers/).

ghost use Rattle.std.specs.Prelude.{◌≡◌, ◌≢◌, Err, IfOk, OnErr};
ghost use Rattle.rpki_external.specs.Answers.{by_answers};
ghost use Rattle.rpki_replay.specs.Admission.{IsAdmission};
ghost use Rattle.rpki_replay.specs.State.{put};
ghost use Rattle.rpki_replay.specs.declared.guard.GuardError.TheVariants as errors;
ghost use Rattle.rpki_sigmsg.specs.Checks.{AreChecks};

use rpki_base::{PublicKey, Time};
use rpki_external::{AnswerScheme, AnswerVerifier, AnsweredQuestions, Question};
use rpki_replay::{Guard, GuardError};
use rpki_sigmsg::SignedMessage;
use std::marker::Brand;

// What a guard says to a message under the scheme that these answers are.
fn admit_by<A: AnsweredQuestions>(
    guard: &mut Guard,
    peer: &PublicKey,
    message: &SignedMessage,
    when: Time,
    questions: &[Question],
    answers: &[bool],
) -> Result<Time, GuardError>
    requires questions { questions.now ≡ A.questions }
    requires answers { answers.now ≡ A.answers }
    ensures answer { result ≢ Err errors.OutOfMemory
        → IsAdmission (by_answers questions.now answers.now) guard.old peer.now message.now when
        result }
    ensures admitted { IfOk result (λ time. guard.new ≡ put guard.old peer.now time) }
    ensures refused { OnErr result (guard.new ≡ guard.old) }
{
    let verifier = AnswerVerifier::<A>::new(questions, answers);
    guard.admit::<AnswerScheme<A>, AnswerVerifier<A>>(peer, message, &verifier, when)
}

/// What a guard says to a message of the peer with this key, by answers to questions.
pub(crate) fn admit_given(
    guard: &mut Guard,
    peer: &PublicKey,
    message: &SignedMessage,
    when: Time,
    questions: &[Question],
    answers: &[bool],
) -> Result<Time, GuardError>
    ensures answer { result ≢ Err errors.OutOfMemory
        → IsAdmission (by_answers questions.now answers.now) guard.old peer.now message.now when
        result }
    ensures admitted { IfOk result (λ time. guard.new ≡ put guard.old peer.now time) }
    ensures refused { OnErr result (guard.new ≡ guard.old) }
{
    admit_by::<Brand>(guard, peer, message, when, questions, answers)
}

// The fourteen checks of a message under the scheme that these answers are.
fn checks_by<A: AnsweredQuestions>(
    message: &SignedMessage,
    key: &PublicKey,
    when: Time,
    questions: &[Question],
    answers: &[bool],
) -> [bool; 14]
    requires questions { questions.now ≡ A.questions }
    requires answers { answers.now ≡ A.answers }
    ensures { AreChecks (by_answers questions.now answers.now) message.now key.now when result }
{
    let verifier = AnswerVerifier::<A>::new(questions, answers);
    message.checks_at::<AnswerScheme<A>, AnswerVerifier<A>>(&verifier, key, when)
}

/// The fourteen checks of a message under a key at a moment, by answers to questions.
pub(crate) fn checks_given(
    message: &SignedMessage,
    key: &PublicKey,
    when: Time,
    questions: &[Question],
    answers: &[bool],
) -> [bool; 14]
    ensures { AreChecks (by_answers questions.now answers.now) message.now key.now when result }
{
    checks_by::<Brand>(message, key, when, questions, answers)
}
