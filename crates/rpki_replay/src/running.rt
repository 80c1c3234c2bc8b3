//! All that the program does.

ghost use Rattle.std.specs.Prelude.{◌^◌, ◌+◌, ◌≡◌, Err, IfOk, IfSome, IsNone, string_bytes, ℤ};
ghost use Rattle.rpki_common.specs.Limits.{most_input};
ghost use Rattle.rpki_text.specs.Source.{TakesAtMost};
ghost use Rattle.rpki_ca.specs.Answer.{Ends};
ghost use Rattle.rpki_ca.specs.Lines.{Answered, EndsRun, EndsWith, StopsForMemory};
ghost use Rattle.rpki_ca.specs.Seen.{seen};
ghost use Rattle.rpki_replay.specs.Answers.{AreAllAnswered, AreFirstAnswered, closing_text};
ghost use Rattle.rpki_replay.specs.Running.{AreNoGuardWords, AreGuardWords, EndsInput, EndsMessages, bad_state};

use crate::guard::Guard;
use crate::line_answers::answer_line;
use crate::preparing::{Sent, guard_in, messages_in};
use crate::state_text::StateError;
use rpki_base::{Scheme, Time, Verifier};
use rpki_ca::{Lines, Refusal, Status, Stop, Words, finish_lines, read_input, refuse};
use rpki_common::OutOfMemory;
use rpki_text::{Sink, Source, write_all};
use std::alloc::Global;

// The only word, if it is a moment.
fn moment_of(words: &Words) -> Option<Time>
    ensures some { IfSome result (λ when. AreGuardWords words.now when) }
    ensures none { IsNone result → AreNoGuardWords words.now }
{
    if words.len() == 1 {
        words.moment(0)
    } else {
        None
    }
}

// What is written behind the answers.
fn closing_text(alloc: Global, guard: &Guard) -> Result<String, OutOfMemory>
    ensures { IfOk result (λ text. string_bytes text ≡ closing_text guard.now) }
{
    let mut text = String::from_str(alloc, "-\n")?;
    let state = guard.to_text(alloc)?;
    text.push_str(state.as_str())?;
    Ok(text)
}

// Answers each message by a line of its own, and writes the state behind them.
fn answer_all<P: Scheme, O: Sink, V: Verifier<P>>(
    alloc: Global,
    guard: &mut Guard,
    messages: &[Sent],
    when: Time,
    output: &mut O,
    verifier: &V,
) -> Result<(), Stop>
    ensures { Answered (AreAllAnswered P.checks when guard.old messages.now)
        (AreFirstAnswered P.checks when guard.old messages.now)
        (StopsForMemory (AreFirstAnswered P.checks when guard.old messages.now)) result
        (seen O.written O.faults output.old output.new) }
{
    for sent in messages {
        let line = answer_line(alloc, guard, sent, verifier, when)?;
        write_all(output, line.as_bytes())?;
    }
    let closing = closing_text(alloc, guard)?;
    write_all(output, closing.as_bytes())?;
    Ok(())
}

// Ends where the input holds no state.
fn refuse_state<O: Sink>(output: &mut O) -> Status
    ensures { EndsWith 13 bad_state result.0 (seen O.written O.faults output.old output.new) }
{
    match write_all(output, b"BadState\n") {
        Ok(()) => Status(13),
        Err(_) => Status(11),
    }
}

// Answers the messages behind a state.
fn run_messages<P: Scheme, O: Sink, V: Verifier<P>>(
    alloc: Global,
    guard: &mut Guard,
    lines: Lines<'_>,
    when: Time,
    output: &mut O,
    verifier: &V,
) -> Status
    ensures { EndsMessages P.checks when guard.old lines.entry result.0
        (seen O.written O.faults output.old output.new) }
{
    match messages_in(alloc, lines) {
        Ok(Some(messages)) => {
            let answered = answer_all(alloc, guard, &messages, when, output, verifier);
            finish_lines(output, answered)
        }
        Ok(None) => refuse(output, Refusal::Hex),
        Err(_) => refuse(output, Refusal::OutOfMemory),
    }
}

// Answers the whole input.
fn run_read<P: Scheme, O: Sink, V: Verifier<P>>(
    alloc: Global,
    input: &[u8],
    when: Time,
    output: &mut O,
    verifier: &V,
) -> Status
    ensures { EndsInput P.checks when input.now result.0
        (seen O.written O.faults output.old output.new) }
{
    let mut lines = Lines::new(input);
    match guard_in(alloc, &mut lines) {
        Ok(mut guard) => run_messages(alloc, &mut guard, lines, when, output, verifier),
        Err(StateError::BadState) => refuse_state(output),
        Err(StateError::OutOfMemory) => refuse(output, Refusal::OutOfMemory),
    }
}

/// Admits the messages of the input one behind the other, and writes for each what came of it, and the
/// state behind them. Then the exit status that it answers is 0.
///
/// The only word is the moment in seconds since 1970. The input is the state's text, as
/// [`Guard::to_text`] writes it, a line with a dash, and a line for each message: the DER of the peer's
/// key and the signed message, each in hexadecimal digits of either case, with one space between them.
/// Each message is answered by a line: `ok` with the time of signing, `CmsDecode`, `Validation` with the
/// number of the first check that fails, `NoTime`, or `Replayed` with the last time and the message's,
/// all times in seconds since 1970. A line with a dash and the new state follow.
///
/// The other exit statuses are 2 where the words are others, 3 where a line behind the dash is no message,
/// and 13 where no state with a dash behind it is there, and then no message is answered; 9 where the
/// input has more than 2^26 octets, 10 where it fails, 11 where a write failed, and 12 where memory ran out.
pub fn run_guard<P: Scheme, I: Source, O: Sink, V: Verifier<P>>(
    alloc: Global,
    words: &Words,
    input: &mut I,
    output: &mut O,
    verifier: &V,
) -> Status
    // Words other than one moment are refused, and the source is left unread.
    ensures usage { AreNoGuardWords words.now
        → Ends (Err Refusal.Usage) result.0 (seen O.written O.faults output.old output.new) }
    ensures unread { AreNoGuardWords words.now → input.new ≡ input.old }

    // At most one octet more than the limit is taken of the source.
    ensures most { TakesAtMost (I.rest input.old) (I.rest input.new) (most_input + 1) }

    // Where the source isn't read whole, that is what is answered; and where it is, the messages are.
    ensures ends { (when : ℤ) → AreGuardWords words.now when
        → EndsRun (λ octets. EndsInput P.checks when octets result.0
        (seen O.written O.faults output.old output.new))
        result.0 (seen I.rest I.faults input.old input.new)
        (seen O.written O.faults output.old output.new) }
{
    let Some(when) = moment_of(words) else {
        return refuse(output, Refusal::Usage);
    };
    match read_input(alloc, input) {
        Ok(octets) => run_read(alloc, &octets, when, output, verifier),
        Err(refusal) => refuse(output, refusal),
    }
}
