//! The scheme that answers to questions are, and who decides it.

ghost use Rattle.std.specs.Prelude.{◌≡◌};
ghost use Rattle.rpki_external.specs.Answers.{answer_to, by_answers};

use crate::question::Question;
use rpki_base::{PublicKey, Scheme, SigningAlgorithm, Verifier};
use std::marker::{Brand, PhantomData};

/// Questions with answers to them, for which a type stands. It has no code.
pub trait AnsweredQuestions {
    ghost use Rattle.std.specs.Prelude.{Bool, List};
    ghost use Rattle.rpki_external.specs.Question.{QuestionFields};

    /// The questions.
    ghost questions: { List QuestionFields };

    /// The answer to each of them.
    ghost answers: { List Bool };
}

// Stands for the questions and answers of one call. They are empty here; where a call is made at `Brand`, its proof names the values
// that are meant (`ghosts-receive_by` in proofs/receiving/receive_given/Invariants.antt).
impl AnsweredQuestions for Brand {
    ghost use Rattle.std.specs.Prelude.{[]};

    ghost questions = { [] };

    ghost answers = { [] };
}

/// The scheme that answers are: under RSA keys those signatures hold of which a question asks, where the first that does was answered
/// with yes. It has no value.
pub struct AnswerScheme<A: AnsweredQuestions> {
    of: PhantomData<A>,
}

impl<A: AnsweredQuestions> Scheme for AnswerScheme<A> {
    ghost checks = { by_answers A.questions A.answers };

    ghost fits = { λ kind key message signature h. h.0 };
}

// The answer to the first question that asks for this; no where there is none, or no answer to it.
fn answer_to(
    questions: &[Question],
    answers: &[bool],
    key: &PublicKey,
    message: &[u8],
    signature: &[u8],
) -> bool
    ensures { result ≡ answer_to questions.now answers.now key.now message.now signature.now }
{
    for (number, question) in questions.iter().enumerate() {
        if question.asks(key, message, signature) {
            return number < answers.len() && answers[number];
        }
    }
    false
}

/// Decides signatures by the given answers.
#[derive(Drop)]
pub struct AnswerVerifier<'a, A: AnsweredQuestions> {
    questions: &'a [Question],
    answers: &'a [bool],
    of: PhantomData<A>,
    ghost questions_are: { questions.now ≡ A.questions },
    ghost answers_are: { answers.now ≡ A.answers },
}

impl<'a, A: AnsweredQuestions> AnswerVerifier<'a, A> {
    /// The verifier of the scheme of `A`: the questions and the answers have to be those of `A`, in their order. It takes no memory.
    pub fn new(questions: &'a [Question], answers: &'a [bool]) -> AnswerVerifier<'a, A>
        requires questions { questions.now ≡ A.questions }
        requires answers { answers.now ≡ A.answers }
    {
        AnswerVerifier {
            questions,
            answers,
            of: PhantomData,
        }
    }
}

impl<'a, A: AnsweredQuestions> Verifier<AnswerScheme<A>> for AnswerVerifier<'a, A> {
    fn verify(
        &self,
        kind: SigningAlgorithm,
        key: &PublicKey,
        message: &[u8],
        signature: &[u8],
    ) -> bool {
        if kind != SigningAlgorithm::RsaSha256 {
            return false;
        }
        if key.format() != kind.public_key_format() {
            return false;
        }
        answer_to(self.questions, self.answers, key, message, signature)
    }
}
