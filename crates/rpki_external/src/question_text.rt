//! The text of questions.

ghost use Rattle.std.specs.Prelude.{◌≡◌, ◌++◌, ◌∷◌, [], IfOk, OnOk, map, string_bytes};
ghost use Rattle.std.specs.Option.{option_copied};
ghost use Rattle.hex.specs.Hex.{encode_lower};
ghost use Rattle.rpki_base.specs.PublicKey.{spelled_key};
ghost use Rattle.rpki_ca.specs.Lines.{answer_lines};
ghost use Rattle.rpki_external.specs.Question.{own_question};
ghost use Rattle.rpki_external.specs.Spelling as spec;

use crate::question::{Question, SignedPart};
use crate::question_list::Questions;
use rpki_base::PublicKey;
use rpki_common::OutOfMemory;
use rpki_der::Writer;
use std::alloc::Global;

// The octets in hexadecimal digits of lower case.
fn digits_of(alloc: Global, octets: &[u8]) -> Result<String, OutOfMemory>
    ensures { IfOk result (λ text. string_bytes text ≡ encode_lower octets.now) }
{
    Ok(hex::encode(alloc, octets)?)
}

// The key in DER, in the same digits.
fn key_digits(alloc: Global, key: &PublicKey) -> Result<String, OutOfMemory>
    ensures { IfOk result (λ text. string_bytes text ≡ encode_lower (spelled_key key.now)) }
{
    let mut out = Writer::new(alloc);
    key.encode_ref(&mut out)?;
    digits_of(alloc, out.as_slice())
}

// The line of a question, with its line feed.
fn question_line(alloc: Global, question: &Question) -> Result<String, OutOfMemory>
    ensures { IfOk result (λ line.
        string_bytes line ≡ spec.question_line question.now ++ 10 ∷ []) }
{
    let part = question.part();
    let key = key_digits(alloc, question.key())?;
    let octets = digits_of(alloc, question.octets().as_slice())?;
    let signature = digits_of(alloc, question.signature().as_slice())?;
    Ok(format!(in alloc; "{part} {key} {octets} {signature}\n")?)
}

// The line of a part, with its line feed.
fn part_line(alloc: Global, part: &SignedPart) -> Result<String, OutOfMemory>
    ensures { IfOk result (λ line. string_bytes line ≡ spec.part_line part.now ++ 10 ∷ []) }
{
    let name = part.part();
    let octets = digits_of(alloc, part.octets().as_slice())?;
    let signature = digits_of(alloc, part.signature().as_slice())?;
    Ok(format!(in alloc; "{name} - {octets} {signature}\n")?)
}

// The line of a key, with its line feed.
fn key_line(alloc: Global, key: &PublicKey) -> Result<String, OutOfMemory>
    ensures { IfOk result (λ line. string_bytes line ≡ spec.key_line key.now ++ 10 ∷ []) }
{
    let key = key_digits(alloc, key)?;
    Ok(format!(in alloc; "key {key}\n")?)
}

// The line of the question under its own key, if there is one.
fn own_text(alloc: Global, own: Option<&Question>) -> Result<Vec<u8>, OutOfMemory>
    ensures { IfOk result (λ text. text.items
        ≡ answer_lines (map spec.question_line (own_question (option_copied own.entry)))) }
{
    let mut text = Vec::new(alloc);
    if let Some(question) = own {
        let line = question_line(alloc, question)?;
        text.extend_from_slice(line.as_bytes())?;
    }
    Ok(text)
}

// Appends the lines of parts.
fn push_parts(alloc: Global, parts: &[SignedPart], text: &mut Vec<u8>) -> Result<(), OutOfMemory>
    ensures { OnOk result (text.new.items
        ≡ text.old.items ++ answer_lines (map spec.part_line parts.now)) }
{
    for part in parts {
        let line = part_line(alloc, part)?;
        text.extend_from_slice(line.as_bytes())?;
    }
    Ok(())
}

// Appends the lines of keys.
fn push_keys(alloc: Global, keys: &[PublicKey], text: &mut Vec<u8>) -> Result<(), OutOfMemory>
    ensures { OnOk result (text.new.items
        ≡ text.old.items ++ answer_lines (map spec.key_line keys.now)) }
{
    for key in keys {
        let line = key_line(alloc, key)?;
        text.extend_from_slice(line.as_bytes())?;
    }
    Ok(())
}

/// The lines of questions, each with its line feed.
pub(crate) fn question_text(alloc: Global, questions: &Questions) -> Result<Vec<u8>, OutOfMemory>
    ensures { IfOk result (λ text. text.items ≡ spec.questions_text questions.now) }
{
    let mut text = own_text(alloc, questions.own())?;
    push_parts(alloc, questions.parts(), &mut text)?;
    push_keys(alloc, questions.keys(), &mut text)?;
    Ok(text)
}
