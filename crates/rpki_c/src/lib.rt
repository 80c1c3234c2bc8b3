//! The library for C: a call for each step of receiving and making messages under keys that are held elsewhere.
//!
//! Each export takes octets and numbers, calls what does the step, and hands the answer over: the octets into a buffer of the caller's,
//! and the rest into an [`Outcome`]. It keeps nothing, holds no state, and requires nothing. include/calmizsed.h is written for callers.
//!
//! - `message_questions`, `message_receive`, `message_explain`, `message_inspect` and `message_content` are of signed messages.
//! - `message_prepare`, `anchor_prepare` and `request_prepare` give what is to be signed, and `.._finish` takes the signatures.
//! - `setup_questions`, `setup_receive`, `setup_read` and `setup_anchor` are of setup messages.
//! - `request_questions`, `request_verify`, `issue_questions` and `issue_verify` are of certificate requests.
//! - `publication_decide` and `publication_refuse` are what a publication server replies.
//! - `text_read`, `anchor_key`, `key_identifier` and `version` ask nothing.
//!
//! How an answer is handed over stands in specs/HandingOver.antt, what arguments are read as in specs/Arguments.antt, and what each call
//! answers in specs/Calls.antt and specs/Deciding.antt.
#![tactic(auto)]

mod arguments;
pub mod asking;
pub mod deciding;
pub mod finishing;
mod handing_over;
mod known;
pub mod outcome;
pub mod preparing;
pub mod reading;
pub mod receiving;
mod records;
pub mod setting_up;
mod texts;
