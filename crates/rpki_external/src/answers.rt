//! Answers to questions.

ghost use Rattle.std.specs.Prelude.{◌≡◌, ◌≢◌, IfErr, IfOk, OnOk, length};
ghost use Rattle.rpki_external.specs.Answers.{CountFor, RefusesAnswers};
ghost use Rattle.rpki_external.specs.Question.{listed};
ghost use Rattle.rpki_external.specs.Records.{AreWritable, digest_of};
ghost use Rattle.rpki_external.specs.declared.answers.AnswersError.TheVariants as variant;

use crate::question::Question;
use crate::question_list::Questions;
use rpki_common::{OutOfMemory, Sequence};
use rpki_text::Hash;
use std::alloc::Global;
use std::marker::Model;
use thiserror::Error;

/// Why answers don't count for questions.
#[derive(Clone, Copy, Debug, PartialEq, Eq, Error)]
pub enum AnswersError {
    /// They are answers to other questions.
    #[error("the answers are to other questions")]
    OtherQuestions,
    /// There are more or fewer of them than questions.
    #[error("not as many answers as questions")]
    Number,
    /// Memory ran out.
    #[error("out of memory")]
    OutOfMemory,
}

impl From<OutOfMemory> for AnswersError {
    ghost from_gives = { λ _ e. e ≡ variant.OutOfMemory };

    fn from(_: OutOfMemory) -> AnswersError {
        AnswersError::OutOfMemory
    }
}

/// Answers to questions: the digest of these questions, and a truth value for each of them, in their order: whether the
/// signature that it asks for holds. They count for these questions alone.
///
/// In a clause it is the record of the two.
#[derive(Drop)]
pub struct Answers {
    digest: Hash,
    values: Sequence<bool>,
}

impl Model for Answers {
    ghost use Rattle.rpki_external.specs.Answers.{AnswersFields};

    ghost Value = { AnswersFields };

    ghost view = { λ a. record { digest = a.digest; values = a.values } };
}

impl Answers {
    /// These answers to the questions with this digest ([`Questions::digest`]), in their order. It takes no memory.
    pub fn new(digest: Hash, values: Vec<bool>) -> Answers
        ensures { result ≡ record { digest = digest; values = values.items } }
    {
        Answers {
            digest,
            values: Sequence::from_vec(values),
        }
    }

    /// These answers to the questions, in the order of [`Questions::list`].
    pub fn to(
        alloc: Global,
        questions: &Questions,
        values: Vec<bool>,
    ) -> Result<Answers, OutOfMemory>
        ensures answers { IfOk result (λ a. a ≡ record {
          digest = digest_of questions.now;
          values = values.items;
        }) }
        ensures writable { OnOk result (AreWritable questions.now) }
    {
        Ok(Answers::new(questions.digest(alloc)?, values))
    }

    /// The digest of the questions that they answer.
    pub fn digest(&self) -> Hash
        ensures { result ≡ self.now.digest }
    {
        self.digest
    }

    /// The answers, in the order of the questions.
    pub fn values(&self) -> &[bool]
        ensures { result.now ≡ self.now.values }
    {
        self.values.as_slice()
    }

    // The questions one by one, if the answers are to them.
    pub(crate) fn matched(
        &self,
        alloc: Global,
        questions: &Questions,
    ) -> Result<Vec<Question>, AnswersError>
        ensures list { IfOk result (λ list. list.items ≡ listed questions.now) }
        ensures count { IfOk result (λ _. CountFor self.now questions.now) }
        ensures err { IfErr result (RefusesAnswers self.now questions.now) }
    {
        if self.digest != questions.digest(alloc)? {
            return Err(AnswersError::OtherQuestions);
        }
        let list = questions.list(alloc)?;
        if self.values.len() != list.len() {
            return Err(AnswersError::Number);
        }
        Ok(list)
    }
}
