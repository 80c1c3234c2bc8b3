//! A checker of signed messages in an archive.
//!
//! An archive is a text with a line for each message that was kept: the protocol, the moment at which
//! it came, the key that is to have issued its certificate, and the message in hexadecimal. Each line
//! is judged by itself, whatever stands beside it.
//!
//! - With `batch`, [`check`] writes for each line what the command `receive` of rpki_ca answers to it:
//!   the exit status, and the SHA-256 of the message's text or why there is none.
//! - With `explain` it writes for each line which of the fourteen checks hold.
//!
//! What is written stands in specs/Verdict.antt and specs/Explanation.antt.
#![tactic(auto)]

mod checking;
mod entries;
mod explanations;
mod law;
mod verdicts;

pub use checking::check;
pub use law::{
    batch_writes_all, digits_tell_the_answer, ends_with_0_or_12, explain_writes_all, one_verdict,
};
