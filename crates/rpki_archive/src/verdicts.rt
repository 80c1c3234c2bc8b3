//! The verdict on a line.

ghost use Rattle.std.specs.Prelude.{◌≡◌, ◌≢◌, ◌≤◌, ◌∷◌, ◌++◌, [], Err, IfErr, IfOk, List, Ok, Result, is_ok};
ghost use Rattle.std.specs.Prelude.{length, string_bytes, ℕ};
ghost use Rattle.rpki_common.specs.Limits.{most_keys};
ghost use Rattle.rpki_ca.specs.Answer.{IsReceiveAnswer};
ghost use Rattle.rpki_ca.specs.declared.refusals.Refusal.{Refusal as RefusalOf};
ghost use Rattle.rpki_archive.specs.Lines.{IsLine};
ghost use Rattle.rpki_archive.specs.Verdict.{IsLineAnswer, verdict_text};

use crate::entries::receipt_in;
use bytes::Bytes;
use rpki_base::{PublicKey, Scheme, Time, Verifier};
use rpki_ca::{Command, Kind, Refusal, receive_any};
use rpki_common::OutOfMemory;
use sha2::{Digest, Sha256};
use std::alloc::Global;

// The text of the message that is received of the octets.
fn text_of<P: Scheme, V: Verifier<P>>(
    alloc: Global,
    kind: Kind,
    octets: &[u8],
    keys: &[PublicKey],
    when: Time,
    verifier: &V,
) -> Result<Bytes, Refusal>
    requires some { 1 ≤ length keys.now }
    requires few { length keys.now ≤ most_keys }
    ensures ok { IfOk result (λ text.
        IsReceiveAnswer P.checks kind octets.now keys.now when (Ok text)) }
    ensures err { IfErr result (λ e. e ≢ Refusal.OutOfMemory
        → IsReceiveAnswer P.checks kind octets.now keys.now when (Err e)) }
{
    let (message, _) = receive_any(alloc, kind, octets, keys, when, verifier)?;
    Ok(message.to_xml_bytes(alloc)?)
}

/// What the command `receive` answers to a line: the text of the message, or why there is none.
pub(crate) fn answer_to<P: Scheme, V: Verifier<P>>(
    alloc: Global,
    line: &[u8],
    verifier: &V,
) -> Result<Bytes, Refusal>
    requires { IsLine line.now }
    ensures ok { IfOk result (λ text. IsLineAnswer P.checks line.now (Ok text)) }
    ensures err { IfErr result (λ e. e ≢ Refusal.OutOfMemory
        → IsLineAnswer P.checks line.now (Err e)) }
{
    let asked = receipt_in(alloc, line)?;
    match &asked.command {
        Command::Receive { kind, when, keys } => {
            let octets = &asked.octets;
            text_of(alloc, *kind, octets, keys.as_slice(), *when, verifier)
        }
        _ => Err(Refusal::Usage),
    }
}

// The line of a message that was accepted.
fn accepted_line(alloc: Global, text: &[u8]) -> Result<String, OutOfMemory>
    ensures { IfOk result (λ line. string_bytes line ≡ verdict_text (Ok text.now) ++ 10 ∷ []) }
{
    let digest = Sha256::digest(text);
    let digits = hex::encode(alloc, digest.as_slice())?;
    let status = 0u8;
    Ok(format!(in alloc; "{status} {digits}\n")?)
}

// The line of one that was refused.
fn refused_line(alloc: Global, refusal: Refusal) -> Result<String, OutOfMemory>
    ensures { IfOk result (λ line. string_bytes line ≡ verdict_text (Err refusal) ++ 10 ∷ []) }
{
    let status = refusal.status();
    Ok(format!(in alloc; "{status} {refusal}\n")?)
}

/// The line of a verdict, with its line feed; and whether the message was accepted.
#[derive(Drop)]
pub(crate) struct Judged {
    pub(crate) line: String,
    pub(crate) accepted: bool,
}

/// The verdict on a line: the exit status, and the SHA-256 of the text or the name of the refusal.
pub(crate) fn judge_line<P: Scheme, V: Verifier<P>>(
    alloc: Global,
    line: &[u8],
    verifier: &V,
) -> Result<Judged, OutOfMemory>
    requires { IsLine line.now }
    ensures { IfOk result (λ judged. (answer : Result (List ℕ) RefusalOf)
        × IsLineAnswer P.checks line.now answer
        × (string_bytes judged.line ≡ verdict_text answer ++ 10 ∷ [])
        × (judged.accepted ≡ is_ok answer)) }
{
    match answer_to(alloc, line, verifier) {
        Ok(text) => Ok(Judged {
            line: accepted_line(alloc, text.as_slice())?,
            accepted: true,
        }),
        Err(Refusal::OutOfMemory) => Err(OutOfMemory),
        Err(refusal) => Ok(Judged {
            line: refused_line(alloc, refusal)?,
            accepted: false,
        }),
    }
}
