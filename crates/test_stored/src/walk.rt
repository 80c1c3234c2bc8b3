//! Lines whose steps go through octets with a cursor.

ghost use Rattle.std.specs.Prelude.{◌≡◌, ◌<◌};

use crate::fields::{Fields, is_answered};
use crate::octets::{invalid, octets_of, text_of};
use crate::running::Cases;
use crate::step::{Step, step_of};
use rpki_der::{Cursor, DecodeError, Mode, Steps};
use std::alloc::Global;
use std::io;
use std::marker::Brand;
use std::sync::ledger::{Blank, Ledger};

/// The calls that steps name, each in a form that isn't counted, in a counted one, or in both.
pub trait Calls {
    /// What the form answers that isn't counted; None where the step's call has none.
    fn answer(
        &self,
        alloc: Global,
        cursor: &mut Cursor<'_>,
        step: &Step<'_>,
    ) -> Option<Result<Fields, DecodeError>>;

    /// What the counted form answers; None where the step's call has none.
    fn counted_answer<L: Ledger>(
        &self,
        alloc: Global,
        cursor: &mut Cursor<'_>,
        step: &Step<'_>,
        steps: &mut Steps<L>,
    ) -> Option<Result<Fields, DecodeError>>;
}

// The form of a call that is looked for first; where there is none, the other is taken.
#[derive(Clone, Copy)]
enum First {
    Plain,
    Counted,
}

// What a step's call answers; None where it has no form.
fn answer_of<C: Calls, L: Ledger>(
    alloc: Global,
    calls: &C,
    first: First,
    cursor: &mut Cursor<'_>,
    step: &Step<'_>,
    steps: &mut Steps<L>,
) -> Option<Result<Fields, DecodeError>> {
    match first {
        First::Plain => match calls.answer(alloc, cursor, step) {
            Some(answer) => Some(answer),
            None => calls.counted_answer(alloc, cursor, step, steps),
        },
        First::Counted => match calls.counted_answer(alloc, cursor, step, steps) {
            Some(answer) => Some(answer),
            None => calls.answer(alloc, cursor, step),
        },
    }
}

// Whether a step is answered as expected.
fn is_met<C: Calls, L: Ledger>(
    alloc: Global,
    calls: &C,
    first: First,
    cursor: &mut Cursor<'_>,
    step: &Step<'_>,
    steps: &mut Steps<L>,
) -> io::Result<bool> {
    match answer_of(alloc, calls, first, cursor, step, steps) {
        Some(answer) => is_answered(alloc, answer, step.answer),
        None => Err(invalid()),
    }
}

// Whether a line's steps are answered as expected, with one form looked for first.
fn is_walked_once<C: Calls, L: Ledger>(
    alloc: Global,
    calls: &C,
    first: First,
    cursor: &mut Cursor<'_>,
    line: &str,
    steps: &mut Steps<L>,
) -> io::Result<bool> {
    for word in line.split_whitespace().skip(3) {
        let step = step_of(alloc, word)?;
        if !is_met(alloc, calls, first, cursor, &step, steps)? {
            return Ok(false);
        }
    }
    Ok(true)
}

// Whether a line's steps are answered as expected from the beginning of the octets, with each form looked for first.
fn is_walked<C: Calls, L: Ledger>(
    alloc: Global,
    calls: &C,
    mode: Mode,
    octets: &[u8],
    line: &str,
    steps: &mut Steps<L>,
) -> io::Result<bool> {
    let mut plain = Cursor::new(alloc, mode, octets);
    let mut counted = Cursor::new(alloc, mode, octets);
    Ok(
        is_walked_once(alloc, calls, First::Plain, &mut plain, line, steps)?
            && is_walked_once(alloc, calls, First::Counted, &mut counted, line, steps)?,
    )
}

// The mode and the octets that stand behind the line's name.
fn subject_of<'a>(alloc: Global, line: &'a str) -> io::Result<(&'a str, Vec<u8>)> {
    let mut words = line.split_whitespace().skip(1);
    let (Some(mode), Some(octets)) = (words.next(), words.next()) else {
        return Err(invalid());
    };
    Ok((mode, octets_of(alloc, octets)?))
}

// Whether a line's steps are answered as expected in each mode that the line names.
fn holds<C: Calls, L: Ledger>(
    alloc: Global,
    calls: &C,
    line: &str,
    steps: &mut Steps<L>,
) -> io::Result<bool> {
    let (mode, octets) = subject_of(alloc, line)?;
    match mode {
        "der" => is_walked(alloc, calls, Mode::Der, &octets, line, steps),
        "ber" => is_walked(alloc, calls, Mode::Ber, &octets, line, steps),
        "both" => Ok(
            is_walked(alloc, calls, Mode::Der, &octets, line, steps)?
                && is_walked(alloc, calls, Mode::Ber, &octets, line, steps)?,
        ),
        _ => Err(invalid()),
    }
}

// Whether the line that these octets are is answered as expected: at a call that hands text on, no ledger can be picked.
fn holds_within<C: Calls, L: Ledger>(
    alloc: Global,
    calls: &C,
    line: &[u8],
    blank: Blank,
) -> io::Result<bool>
    requires name { blank.name ≡ L.name }
    requires parts { blank.parts ≡ L.parts }
    requires some { 0 < blank.parts }
{
    let mut steps = Steps::<L>::new(blank);
    holds(alloc, calls, text_of(line)?, &mut steps)
}

/// Lines `NAME MODE OCTETS STEP..`: MODE is `der`, `ber`, or `both` for one after the other. The steps go through the octets twice,
/// first by the forms of the calls that aren't counted, then by the counted ones.
pub struct Walks<C> {
    pub calls: C,
}

impl<C: Calls> Cases for Walks<C> {
    fn holds(&self, alloc: Global, line: &str) -> io::Result<bool> {
        holds_within::<C, Brand>(alloc, &self.calls, line.as_bytes(), Blank::new(1))
    }
}
