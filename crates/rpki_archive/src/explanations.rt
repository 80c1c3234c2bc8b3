//! The explanation of a line.

ghost use Rattle.std.specs.Prelude.{◌≡◌, ◌≢◌, ◌∷◌, ◌++◌, [], IfErr, IfOk, List, map, string_bytes, ℕ};
ghost use Rattle.rpki_archive.specs.Explanation.{IsExplanation};
ghost use Rattle.rpki_ca.specs.Lines.{digit_of};
ghost use Rattle.rpki_archive.specs.Lines.{IsLine};
ghost use Rattle.rpki_ca.specs.Refusal.{name_of};

use crate::entries::receipt_in;
use rpki_base::{Scheme, Verifier};
use rpki_ca::{Command, Refusal};
use rpki_common::OutOfMemory;
use rpki_der::DecodeError;
use rpki_sigmsg::SignedMessage;
use std::alloc::Global;

// The fourteen checks of the message of a line; or why there are none, or want of memory.
fn checks_of<P: Scheme, V: Verifier<P>>(
    alloc: Global,
    line: &[u8],
    verifier: &V,
) -> Result<[bool; 14], Refusal>
    requires { IsLine line.now }
    ensures ok { IfOk result (λ checks.
        IsExplanation P.checks line.now (map digit_of checks)) }
    ensures err { IfErr result (λ e. e ≢ Refusal.OutOfMemory
        → IsExplanation P.checks line.now (name_of e)) }
{
    let asked = receipt_in(alloc, line)?;
    let message = match SignedMessage::decode(alloc, &asked.octets, false) {
        Ok(message) => message,
        Err(DecodeError::Malformed) => return Err(Refusal::CmsDecode),
        Err(DecodeError::OutOfMemory) => return Err(Refusal::OutOfMemory),
    };
    match &asked.command {
        Command::Receive { when, keys, .. } => match keys.as_slice() {
            [key, ..] => Ok(message.checks_at(verifier, key, *when)),
            [] => Err(Refusal::Usage),
        },
        _ => Err(Refusal::Usage),
    }
}

// A digit for each check, and a line feed.
fn digits_line(alloc: Global, checks: &[bool]) -> Result<String, OutOfMemory>
    ensures { IfOk result (λ line. string_bytes line ≡ map digit_of checks.now ++ 10 ∷ []) }
{
    let mut text = String::new(alloc);
    for holds in checks {
        text.push_str(if *holds { "1" } else { "0" })?;
    }
    text.push_str("\n")?;
    Ok(text)
}

/// The line of an explanation, with its line feed: a digit for each of the fourteen checks, 1 where it
/// holds and 0 where it doesn't; or Usage, Hex or CmsDecode.
pub(crate) fn explanation_line<P: Scheme, V: Verifier<P>>(
    alloc: Global,
    line: &[u8],
    verifier: &V,
) -> Result<String, OutOfMemory>
    requires { IsLine line.now }
    ensures { IfOk result (λ line_of. (text : List ℕ) × IsExplanation P.checks line.now text
        × (string_bytes line_of ≡ text ++ 10 ∷ [])) }
{
    match checks_of(alloc, line, verifier) {
        Ok(checks) => digits_line(alloc, &checks),
        Err(Refusal::OutOfMemory) => Err(OutOfMemory),
        Err(refusal) => Ok(format!(in alloc; "{refusal}\n")?),
    }
}
