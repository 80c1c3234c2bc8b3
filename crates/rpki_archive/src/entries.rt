//! What a line of the archive asks for.

ghost use Rattle.std.specs.Prelude.{◌≡◌, ◌∷◌, ◌++◌, ◌⊎◌, [], codes, IfErr, IfOk, IfSome, IsNone, IsTrue, false};
ghost use Rattle.std.specs.Str.{IsUtf8};
ghost use Rattle.rpki_ca.specs.Lines.{words_of};
ghost use Rattle.rpki_archive.specs.Entries.{Asks, RefusesEntry};
ghost use Rattle.rpki_archive.specs.Lines.{IsLine};
ghost use Rattle.rpki_archive.specs.Verdict.{Entry};

use rpki_ca::{Command, Refusal, Words, spelled_octets, split_word};
use rpki_common::OutOfMemory;
use std::alloc::Global;

// The words of a line: what is to be received, and the signed message in hexadecimal.
#[derive(Clone, Copy)]
struct EntryWords<'a> {
    kind: &'a [u8],
    moment: &'a [u8],
    key: &'a [u8],
    envelope: &'a [u8],
}

// The words of a line, if there are four.
fn entry_in(line: &[u8]) -> Option<EntryWords<'_>>
    ensures some { IfSome result (λ e. words_of line.now
        ≡ e.kind.now ∷ e.moment.now ∷ e.key.now ∷ e.envelope.now ∷ []) }
    ensures none { IsNone result → Entry line.now → ⊥ }
{
    let (kind, rest) = split_word(line)?;
    let (moment, rest) = split_word(rest)?;
    let (key, envelope) = split_word(rest)?;
    match split_word(envelope) {
        Some((_, _)) => None,
        None => Some(EntryWords {
            kind,
            moment,
            key,
            envelope,
        }),
    }
}

// Adds a word, and says whether it is text.
fn push_word(words: &mut Words, word: &[u8]) -> Result<bool, OutOfMemory>
    ensures yes { IfOk result (λ is_text. IsTrue is_text → words.new ≡ words.old ++ word.now ∷ []) }
    ensures no { IfOk result (λ is_text. is_text ≡ false → ¬ (IsUtf8 word.now)) }
{
    match str::from_utf8(word) {
        Ok(word) => {
            words.push(word)?;
            Ok(true)
        }
        Err(_) => Ok(false),
    }
}

// The words of the command `receive`, if those of the line are text.
fn command_words(
    alloc: Global,
    kind: &[u8],
    moment: &[u8],
    key: &[u8],
) -> Result<Option<Words>, OutOfMemory>
    ensures some { IfOk result (λ o. IfSome o (λ words.
        words ≡ codes "receive" ∷ kind.now ∷ moment.now ∷ key.now ∷ [])) }
    ensures none { IfOk result (λ o. IsNone o →
        ¬ (IsUtf8 kind.now) ⊎ (¬ (IsUtf8 moment.now) ⊎ ¬ (IsUtf8 key.now))) }
{
    let mut words = Words::new(alloc);
    words.push("receive")?;
    if !push_word(&mut words, kind)? {
        return Ok(None);
    }
    if !push_word(&mut words, moment)? {
        return Ok(None);
    }
    if !push_word(&mut words, key)? {
        return Ok(None);
    }
    Ok(Some(words))
}

/// What is to be received, and of which octets.
#[derive(Drop)]
pub(crate) struct Receipt {
    pub(crate) command: Command,
    pub(crate) octets: Vec<u8>,
}

/// What a line asks to receive. Usage where it is not four words, or the first three are not those of
/// the command `receive`; Hex where the fourth is no even number of hexadecimal digits.
pub(crate) fn receipt_in(alloc: Global, line: &[u8]) -> Result<Receipt, Refusal>
    requires { IsLine line.now }
    ensures ok { IfOk result (λ r. Asks line.now r.command r.octets.items) }
    ensures err { IfErr result (RefusesEntry line.now) }
{
    let Some(entry) = entry_in(line) else {
        return Err(Refusal::Usage);
    };
    let Some(words) = command_words(alloc, entry.kind, entry.moment, entry.key)? else {
        return Err(Refusal::Usage);
    };
    let Some(command) = words.command(alloc)? else {
        return Err(Refusal::Usage);
    };
    match spelled_octets(alloc, entry.envelope)? {
        Some(octets) => Ok(Receipt { command, octets }),
        None => Err(Refusal::Hex),
    }
}
