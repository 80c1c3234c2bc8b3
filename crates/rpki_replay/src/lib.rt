//! A guard against messages that come again.
//!
//! A signed message that is made as peers make it is believed from 300 seconds before its time of signing to
//! 300 seconds after it, so whoever keeps it can hand it in a second time. A [`Guard`] holds, for the key of
//! each peer, the signing time of the last message that it admitted, and admits one only with a later time. So
//! no message is admitted twice under one key, nor are two that say the same second as their time of signing.
//!
//! - [`Guard::admit`] says whether a message of a peer is admitted at a moment, and why not.
//! - [`Guard::to_text`] and [`Guard::from_text`] keep the state in a text.
//! - [`run_guard`] is what the program `rpkiguard` does.
//!
//! What is admitted stands in specs/Admission.antt, and what is answered in specs/Answers.antt.
#![tactic(auto)]

mod guard;
mod law;
mod line_answers;
mod peers;
mod places;
mod preparing;
mod running;
mod state_text;

pub use guard::{Guard, GuardError};
pub use law::{
    none_is_admitted_twice, one_opening, one_state, runs_end_for_cause, times_rise,
    zero_answers_all,
};
pub use peers::Peer;
pub use running::run_guard;
pub use state_text::StateError;
