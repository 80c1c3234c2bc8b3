//! What the programs of this repository share at their edge: the words behind a program's name, the texts
//! that a program writes of itself, and a toy signer with a key.
#![tactic(auto)]

ghost use Rattle.std.specs.Prelude.{◌≡◌, ◌⊎◌, ◌∷◌, [], codes, IfErr, IfOk, IfSome, IsNone};
ghost use Rattle.rpki_base.specs.PublicKey.{KeyFields};
ghost use Rattle.rpki_signer.specs.Signer.{HoldsKey};
ghost use Rattle.rpki_base.specs.declared.algorithm.PublicKeyFormat.TheVariants.{Rsa};
ghost use Rattle.rpki_signer.specs.ToySigner.{after_creating, state_of, toy_signer};
ghost use Rattle.rpki_ca.specs.Lines.{EndsWith};
ghost use Rattle.rpki_ca.specs.Seen.{seen};

use rpki_base::PublicKeyFormat;
use rpki_ca::{Refusal, Status, Words};
use rpki_signer::{CallError, Signer, ToyScheme, ToySigner};
use rpki_text::{Sink, write_all};
use std::alloc::Global;
use std::env;
use std::io::ErrorKind;
use std::rt::Env;

/// The texts of a program on itself.
#[derive(Clone, Copy)]
pub struct Own<'a> {
    /// What `--help` writes.
    pub help: &'a [u8],
    /// What `--version` writes.
    pub version: &'a [u8],
}

/// The words behind the program's name. `Usage` where one isn't UTF-8, and otherwise `OutOfMemory`.
pub fn words_of<R: Env + AllocGlobal>(rt: &R) -> Result<Words, Refusal>
    ensures err { IfErr result (λ e. (e ≡ Refusal.Usage) ⊎ (e ≡ Refusal.OutOfMemory)) }
{
    let mut words = Words::new(rt.alloc());
    let all = match env::args(rt) {
        Ok(all) => all,
        Err(error) if error.kind() == ErrorKind::InvalidData => return Err(Refusal::Usage),
        Err(_) => return Err(Refusal::OutOfMemory),
    };
    for word in all.skip(1) {
        if words.push(word.as_str()).is_err() {
            return Err(Refusal::OutOfMemory);
        }
    }
    Ok(words)
}

/// The text that the only word asks for, `--help` or `--version`; None exactly for all other words.
pub fn own_text<'a>(words: &Words, own: Own<'a>) -> Option<&'a [u8]>
    ensures some { IfSome result (λ text.
        ((words.now ≡ codes "--help" ∷ []) × (text.now ≡ own.entry.help.now))
        ⊎ ((words.now ≡ codes "--version" ∷ []) × (text.now ≡ own.entry.version.now))) }
    ensures none { IsNone result → (words.now ≡ codes "--help" ∷ [] → ⊥)
        × (words.now ≡ codes "--version" ∷ [] → ⊥) }
{
    if words.len() != 1 {
        return None;
    }
    match words.get(0) {
        Some("--help") => Some(own.help),
        Some("--version") => Some(own.version),
        _ => None,
    }
}

/// Writes a text and ends with 0, or with 11 where a write failed.
pub fn write_text<O: Sink>(output: &mut O, text: &[u8]) -> Status
    ensures { EndsWith 0 text.now result.0 (seen O.written O.faults output.old output.new) }
{
    match write_all(output, text) {
        Ok(()) => Status(0),
        Err(_) => Status(11),
    }
}

/// The toy signer of the seed, of which no call is to fail, with the RSA key that its first call makes, and that key's identifier.
/// The only refusal is OutOfMemory.
pub fn signer_of(alloc: Global, seed: u64) -> Result<(ToySigner, u64), Refusal>
    ensures signer { IfOk result (λ r. r.0 ≡ after_creating Rsa (toy_signer seed [])) }
    ensures key { IfOk result (λ r. (key : KeyFields) × HoldsKey (state_of r.0).keyring r.1 key) }
    ensures err { IfErr result (λ e. e ≡ Refusal.OutOfMemory) }
{
    let mut signer = ToySigner::new(alloc, seed, &[])?;
    match Signer::<ToyScheme>::create_key(&mut signer, alloc, PublicKeyFormat::Rsa) {
        Ok(key) => Ok((signer, key)),
        Err(CallError::Signer(_)) => Err(Refusal::Signer),
        Err(CallError::OutOfMemory) => Err(Refusal::OutOfMemory),
    }
}

/// The signer of the programs: the toy signer of seed 1, of which no call is to fail, with the RSA key that its first call makes, and
/// that key's identifier. The only refusal is OutOfMemory.
pub fn program_signer(alloc: Global) -> Result<(ToySigner, u64), Refusal>
    ensures signer { IfOk result (λ r. r.0 ≡ after_creating Rsa (toy_signer 1 [])) }
    ensures key { IfOk result (λ r. (key : KeyFields) × HoldsKey (state_of r.0).keyring r.1 key) }
    ensures err { IfErr result (λ e. e ≡ Refusal.OutOfMemory) }
{
    signer_of(alloc, 1)
}
