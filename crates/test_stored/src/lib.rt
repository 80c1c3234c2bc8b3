//! What stands in the lines of stored cases, for the programs that run them.
//!
//! A line is a name, words of the program's own, and steps. A step is `CALL=ANSWER` or `CALL,ARGUMENT=ANSWER`. An argument is
//! octets: terms with `|` between them, each of them hexadecimal digits, or these with `*` and how often they stand there, or `'`
//! with text behind it. An answer is `malformed`, `none`, `ok`, or fields with `;` between them, each of them octets.
#![tactic(auto)]

mod fields;
mod octets;
mod running;
mod step;
mod walk;

pub use fields::{Fields, is_answered};
pub use octets::{invalid, octets_of};
pub use running::{Cases, run};
pub use step::{Step, step_of};
pub use walk::{Calls, Walks};
