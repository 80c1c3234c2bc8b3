//! What the program `rpkica` does: [`run`] reads words and input, does what the words ask for, and
//! writes one line.
//!
//! - `content` reads a signed message in hexadecimal and writes its content, if the content has the
//!   digest that was signed. It says nothing of who signed.
//! - `receive KIND MOMENT KEY..` writes the message of the protocol, `publication` or
//!   `provisioning`, that a signed message is, if one of the one to eight keys issued its
//!   certificate for the moment; [`receive_any`] is the same for octets, and [`receive`] for one key.
//! - `create KIND MOMENT` reads a message of the protocol and writes a signed message with it, which
//!   is received as that message's normal form at each second from 300 before the moment to 300
//!   after it.
//! - `setup KIND MOMENT` reads one of the four setup messages and writes it anew, if its certificate
//!   is accepted as a trust anchor's certificate at the moment.
//! - `make COUNT SEED` reads nothing: it makes a query with so many elements, creates and receives
//!   it, and writes how many there are of each kind and the digest of the signed message.
//!
//! Programs that answer line by line have the same parts: [`read_input`] reads the input, [`Lines`]
//! are the lines of it, [`split_word`] takes a word off a line, [`messages_in`] gives the octets that
//! lines spell, and [`hexadecimal_line`] the line that spells octets. [`finish_lines`] ends such a
//! program, and writes why where not every line was answered.
//!
//! What is accepted stands in specs/Acceptance.antt, what is created in specs/Creation.antt, what is
//! made in specs/Summary.antt, and what is answered to words and input in specs/Answer.antt.
#![tactic(auto)]

mod command;
mod content_line;
mod create_line;
mod hexadecimal;
mod law;
mod line;
mod lines;
mod make_line;
mod reading;
mod receive_line;
mod receiving;
mod refusals;
mod running;
mod sent;
mod setup_line;
mod setup_message;
mod words;

pub use command::Command;
pub use create_line::message_in;
pub use hexadecimal::{hexadecimal_line, input_octets};
pub use law::{
    accepted_moments_are_one_span, an_input_is_its_lines, created_is_received,
    hexadecimal_is_digits, more_keys_accept, one_answer, one_answer_to_words, one_receipt,
    receipts_ask_three_questions, rewritten_is_received_alike,
};
pub use line::line_of;
pub use lines::{Lines, Stop, finish_lines, spelled_key, spelled_octets, split_word};
pub use reading::read_input;
pub use receiving::{
    Kind, ReceiveError, Received, receive, receive_any, receive_any_counted, receive_counted,
};
pub use refusals::Refusal;
pub use running::{Status, refuse, run};
pub use sent::messages_in;
pub use setup_message::{SetupKind, SetupMessage};
pub use words::Words;
