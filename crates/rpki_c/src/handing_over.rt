//! How the answer of a call is handed over: its octets into a buffer of the caller's, and the rest into an outcome.

ghost use Rattle.std.specs.Prelude.{◌≡◌, ◌⊎◌, IfErr, IfOk, length};
ghost use Rattle.rpki_ca.specs.Acceptance.{accepted_text};
ghost use Rattle.rpki_c.specs.HandingOver as spec;

use crate::outcome::{CallRefusal, Outcome};
use rpki_external::{KeysRefusal, Receipt};
use std::alloc::Global;

/// Hands over a text, and what is told of it; or, where the buffer is too small, its length alone. It takes no memory.
pub(crate) fn give(text: &[u8], told: Outcome, out: &mut [u8], outcome: &mut Outcome)
    ensures { spec.IsGiven text.now told out.old out.new outcome.new
        ⊎ spec.LacksRoom text.now out.old out.new outcome.new }
{
    if out.len() < text.len() {
        *outcome = Outcome::lacking(text.len());
        return;
    }
    out[..text.len()].copy_from_slice(text);
    *outcome = told;
}

/// Hands an answer over. It takes no memory.
pub(crate) fn hand_over(
    answer: Result<Vec<u8>, KeysRefusal>,
    out: &mut [u8],
    outcome: &mut Outcome,
) -> i32
    ensures given { IfOk answer (λ text.
        spec.IsGiven text.items (spec.done (length text.items)) out.old out.new outcome.new
        ⊎ spec.LacksRoom text.items out.old out.new outcome.new) }
    ensures refused { IfErr answer (λ e. spec.IsRefused e out.old out.new outcome.new) }
    ensures status { result ≡ outcome.new.status }
{
    match answer {
        Ok(text) => give(&text, Outcome::done(text.len()), out, outcome),
        Err(refusal) => *outcome = Outcome::refused(refusal),
    }
    outcome.status
}

/// Hands a receipt over: the text of its message, and what is told of it; or why there is none.
pub(crate) fn hand_receipt_over(
    alloc: Global,
    answer: Result<Receipt, KeysRefusal>,
    out: &mut [u8],
    outcome: &mut Outcome,
) -> i32
    ensures given { IfOk answer (λ r. let text = accepted_text r.message in
        spec.IsGiven text (spec.received (length text) r) out.old out.new outcome.new
        ⊎ spec.LacksRoom text out.old out.new outcome.new
        ⊎ spec.IsRefused spec.out_of_memory out.old out.new outcome.new) }
    ensures refused { IfErr answer (λ e. spec.IsRefused e out.old out.new outcome.new) }
    ensures status { result ≡ outcome.new.status }
{
    match answer {
        Ok(receipt) => match receipt.message.to_xml_vec(alloc) {
            Ok(text) => give(&text, Outcome::received(text.len(), &receipt), out, outcome),
            Err(error) => *outcome = Outcome::refused(KeysRefusal::from(error)),
        },
        Err(refusal) => *outcome = Outcome::refused(refusal),
    }
    outcome.status
}

/// Hands an answer over whose refusal can be that nothing is known of an object. It takes no memory.
pub(crate) fn hand_decision_over(
    answer: Result<Vec<u8>, CallRefusal>,
    out: &mut [u8],
    outcome: &mut Outcome,
) -> i32
    ensures given { IfOk answer (λ text.
        spec.IsGiven text.items (spec.done (length text.items)) out.old out.new outcome.new
        ⊎ spec.LacksRoom text.items out.old out.new outcome.new) }
    ensures refused { IfErr answer (λ e. spec.IsCallRefused e out.old out.new outcome.new) }
    ensures status { result ≡ outcome.new.status }
{
    match answer {
        Ok(text) => give(&text, Outcome::done(text.len()), out, outcome),
        Err(refusal) => *outcome = Outcome::refused_call(refusal),
    }
    outcome.status
}
