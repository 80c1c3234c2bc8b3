//! A step of a case.

use crate::octets::{invalid, octets_of};
use std::alloc::Global;
use std::io;

/// A call, and what it has to answer.
#[derive(Drop)]
pub struct Step<'a> {
    /// The call's name.
    pub call: &'a str,
    /// Its argument; no octets where there is none.
    pub argument: Vec<u8>,
    /// The answer's text.
    pub answer: &'a str,
}

/// The step that a word is.
pub fn step_of<'a>(alloc: Global, word: &'a str) -> io::Result<Step<'a>> {
    let Some((called, answer)) = word.split_once('=') else {
        return Err(invalid());
    };
    let (call, argument) = match called.split_once(',') {
        Some((call, argument)) => (call, argument),
        None => (called, ""),
    };
    Ok(Step {
        call,
        argument: octets_of(alloc, argument)?,
        answer,
    })
}
