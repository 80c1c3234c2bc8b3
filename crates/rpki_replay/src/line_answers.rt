//! What is answered to a line.

ghost use Rattle.std.specs.Prelude.{◌≡◌, ◌≢◌, ◌∷◌, ◌++◌, [], Err, IfOk, List, OnOk, string_bytes, ℕ};
ghost use Rattle.rpki_replay.specs.Answers.{IsGuardAnswered};
ghost use Rattle.rpki_replay.specs.Shown.{answer_text};
ghost use Rattle.rpki_replay.specs.declared.guard.GuardError.TheVariants as errors;

use crate::guard::{Guard, GuardError};
use crate::preparing::Sent;
use itoa::Buffer;
use rpki_base::{Scheme, Time, Verifier};
use rpki_common::OutOfMemory;
use rpki_der::DecodeError;
use rpki_sigmsg::SignedMessage;
use std::alloc::Global;

// The text of an answer, which has to be given.
fn answer_text(alloc: Global, answer: Result<Time, GuardError>) -> Result<String, OutOfMemory>
    ensures text { IfOk result (λ text. string_bytes text ≡ answer_text answer) }
    ensures given { OnOk result (answer ≢ Err errors.OutOfMemory) }
{
    match answer {
        Ok(time) => Ok(format!(in alloc; "ok {}", time.seconds())?),
        Err(GuardError::OutOfMemory) => Err(OutOfMemory),
        Err(error) => Ok(format!(in alloc; "{error}")?),
    }
}

// The text that is answered to a message, which is admitted where it may be.
fn answer_to<P: Scheme, V: Verifier<P>>(
    alloc: Global,
    guard: &mut Guard,
    sent: &Sent,
    verifier: &V,
    when: Time,
) -> Result<String, OutOfMemory>
    ensures { IfOk result (λ text.
        IsGuardAnswered P.checks when guard.old sent.now (string_bytes text) guard.new) }
{
    match SignedMessage::decode(alloc, &sent.octets, false) {
        Ok(message) => {
            let answer = guard.admit(&sent.peer, &message, verifier, when);
            answer_text(alloc, answer)
        }
        Err(DecodeError::Malformed) => Ok(String::from_str(alloc, "CmsDecode")?),
        Err(DecodeError::OutOfMemory) => Err(OutOfMemory),
    }
}

/// The line that is answered to a message, with its line feed; the message is admitted where it may be.
pub(crate) fn answer_line<P: Scheme, V: Verifier<P>>(
    alloc: Global,
    guard: &mut Guard,
    sent: &Sent,
    verifier: &V,
    when: Time,
) -> Result<String, OutOfMemory>
    ensures { IfOk result (λ line. (text : List ℕ)
        × IsGuardAnswered P.checks when guard.old sent.now text guard.new
        × (string_bytes line ≡ text ++ 10 ∷ [])) }
{
    let mut line = answer_to(alloc, guard, sent, verifier, when)?;
    line.push_str("\n")?;
    Ok(line)
}
