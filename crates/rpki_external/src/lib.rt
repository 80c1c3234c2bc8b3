//! Signed messages under keys that are held elsewhere, by OpenSSL or a hardware module.
//!
//! What is asked of a scheme are a few yes-or-no questions, and what is made of a message needs three signatures. This crate hands out the
//! questions and takes answers; it hands out the octets to be signed and takes signatures. Answers are bound, by a digest, to the one value
//! of questions for which they were given.
//!
//! - [`questions`] are those of a signed message under one to eight keys, [`anchor_questions`], [`request_questions`] and
//!   [`setup_questions`] those of a trust anchor's certificate, of a certificate request and of a setup message.
//! - [`receive_answered`] receives a message by answers, [`checks_answered`] tells each of its checks, and [`anchor_answered`],
//!   [`request_answered`] and [`setup_answered`] verify the others; [`AnswerScheme`] is the scheme that answers are.
//! - [`prepare`], [`prepare_anchor`] and [`prepare_request`] make what is to be signed, and [`finish`], [`finish_anchor`] and
//!   [`finish_request`] what it is with the signatures; [`inspect`] tells what is in a message.
//! - [`message_of`], [`request_at`] and [`request_in`] are what stands in texts and octets. [`push_record`] and [`tag_of`] write records.
//! - [`run_keys`] is what the program `rpkikeys` does.
//!
//! What is asked stands in specs/Question.antt, its text in Spelling.antt and its octets and digest in Records.antt, which answers are
//! right in Answers.antt, what is received and verified in Receiving.antt and Verifying.antt, what is to be signed in Making.antt, what is told in Inspection.antt, and what is
//! answered to words and input in Words.antt, KeysRefusal.antt and Running.antt.
#![tactic(auto)]

mod answering;
mod answers;
mod asked;
mod inspecting;
mod keys_refusal;
mod law;
mod lengths;
mod output;
mod preparing;
mod preparing_anchors;
mod preparing_requests;
mod question;
mod question_list;
mod question_text;
mod receiving;
mod records;
mod running;
mod scheme;
mod setting_up;
mod task;
mod task_words;
mod verifying;
mod word_parts;

pub use answering::{message_of, no_message, request_at, request_in};
pub use answers::{Answers, AnswersError};
pub use asked::{anchor_questions, message_questions, questions, request_questions};
pub use inspecting::{inspect, inspection_text};
pub use keys_refusal::KeysRefusal;
pub use law::{
    answers_are_to_one_value, equal_values_are_the_same, finished_anchor_is_believed,
    finished_is_accepted, finished_is_believed, finished_request_is_verified,
    made_anchor_is_finished, made_is_finished, made_request_is_finished,
    nothing_but_memory_is_wanting, preparing_and_finishing_succeed, right_answers_are_the_schemes,
    right_answers_decide, right_answers_deliver, right_answers_verify,
    same_answers_have_the_same_questions,
};
pub use lengths::questions_are_short;
pub use preparing::{Plan, PrepareError, Signatures, finish, prepare};
pub use preparing_anchors::{finish_anchor, prepare_anchor};
pub use preparing_requests::{RequestPlan, finish_request, prepare_request};
pub use question::{Part, Question, SignedPart};
pub use question_list::Questions;
pub use receiving::{AnsweredError, Receipt, receive_answered};
pub use records::{push_record, tag_of};
pub use running::run_keys;
pub use scheme::{AnswerScheme, AnswerVerifier, AnsweredQuestions};
pub use setting_up::{SetupError, setup_answered, setup_questions};
pub use task::{Asked, Finished, Prepared, Task, Verified};
pub use verifying::{VerifyError, anchor_answered, checks_answered, request_answered};
