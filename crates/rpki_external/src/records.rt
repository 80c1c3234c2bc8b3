//! Parts as octets: records, one behind the other.

ghost use Rattle.std.specs.Prelude.{◌≡◌, ◌++◌, IfOk, OnOk, Some};
ghost use Rattle.std.specs.List.{AllByRecursion};
ghost use Rattle.std.specs.Option.{option_copied};
ghost use Rattle.rpki_base.specs.PublicKey.{CanSpellKey, spelled_key};
ghost use Rattle.rpki_external.specs.Question.{own_question};
ghost use Rattle.rpki_external.specs.Records as spec;

use crate::question::{Part, Question, SignedPart};
use crate::question_list::Questions;
use rpki_base::PublicKey;
use rpki_common::OutOfMemory;
use rpki_der::Writer;
use std::alloc::Global;

// The signature of the part in the record before.
const SIGNATURE: u8 = 16;

// The key under which the part in the next record is asked.
const OWN_KEY: u8 = 17;

// One of the keys that were handed in.
const KEY: u8 = 18;

/// The tag of what is signed, or to be signed, of a part, in its record.
pub fn tag_of(part: Part) -> u8
    ensures { result ≡ spec.tag_of part }
{
    match part {
        Part::Attributes => 1,
        Part::Certificate => 2,
        Part::Crl => 3,
        Part::Anchor => 4,
        Part::Request => 5,
    }
}

/// Appends a record: the tag, how many octets there are, in eight octets, the most significant first, and these. On an error a part of it
/// may stand there.
pub fn push_record(tag: u8, octets: &[u8], text: &mut Vec<u8>) -> Result<(), OutOfMemory>
    ensures record { OnOk result (text.new.items
        ≡ text.old.items ++ spec.record_of (spec.tagged tag octets.now)) }
    ensures fits { spec.Fits (spec.tagged tag octets.now) }
{
    text.push(tag)?;
    text.extend_from_slice(&(octets.len() as u64).to_be_bytes())?;
    text.extend_from_slice(octets)?;
    Ok(())
}

// Appends a key under a tag.
fn push_key(alloc: Global, tag: u8, key: &PublicKey, text: &mut Vec<u8>) -> Result<(), OutOfMemory>
    ensures record { OnOk result (text.new.items
        ≡ text.old.items ++ spec.record_of (spec.tagged tag (spelled_key key.now))) }
    ensures spelled { OnOk result (CanSpellKey key.now) }
    ensures fits { OnOk result (spec.Fits (spec.tagged tag (spelled_key key.now))) }
{
    let mut out = Writer::new(alloc);
    key.encode_ref(&mut out)?;
    push_record(tag, out.as_slice(), text)
}

// Appends what is signed of a part, and its signature.
fn push_signed(
    part: Part,
    octets: &[u8],
    signature: &[u8],
    text: &mut Vec<u8>,
) -> Result<(), OutOfMemory>
    ensures records { OnOk result (text.new.items ≡ text.old.items
        ++ spec.records_of (spec.signed_records part octets.now signature.now)) }
    ensures fit { OnOk result
        (spec.AllFit (spec.signed_records part octets.now signature.now)) }
{
    push_record(tag_of(part), octets, text)?;
    push_record(SIGNATURE, signature, text)
}

// Appends the question of its own.
fn push_question(alloc: Global, question: &Question, text: &mut Vec<u8>) -> Result<(), OutOfMemory>
    ensures records { OnOk result (text.new.items
        ≡ text.old.items ++ spec.records_of (spec.own_records (Some question.now))) }
    ensures writable { OnOk result (spec.IsWritableQuestion question.now) }
{
    push_key(alloc, OWN_KEY, question.key(), text)?;
    let octets = question.octets().as_slice();
    let signature = question.signature().as_slice();
    push_signed(question.part(), octets, signature, text)
}

// The records of the question of its own, if there is one.
fn own_records(alloc: Global, own: Option<&Question>) -> Result<Vec<u8>, OutOfMemory>
    ensures records { IfOk result (λ text.
        text.items ≡ spec.records_of (spec.own_records (option_copied own.entry))) }
    ensures writable { OnOk result
        (AllByRecursion spec.IsWritableQuestion (own_question (option_copied own.entry))) }
{
    let mut text = Vec::new(alloc);
    if let Some(question) = own {
        push_question(alloc, question, &mut text)?;
    }
    Ok(text)
}

// Appends the parts that are asked under each of the keys.
fn push_parts(parts: &[SignedPart], text: &mut Vec<u8>) -> Result<(), OutOfMemory>
    ensures records { OnOk result (text.new.items
        ≡ text.old.items ++ spec.records_of (spec.part_records parts.now)) }
    ensures writable { OnOk result (AllByRecursion spec.IsWritablePart parts.now) }
{
    for part in parts {
        let octets = part.octets().as_slice();
        push_signed(part.part(), octets, part.signature().as_slice(), text)?;
    }
    Ok(())
}

// Appends the keys.
fn push_keys(alloc: Global, keys: &[PublicKey], text: &mut Vec<u8>) -> Result<(), OutOfMemory>
    ensures records { OnOk result (text.new.items
        ≡ text.old.items ++ spec.records_of (spec.key_records keys.now)) }
    ensures writable { OnOk result (AllByRecursion spec.IsWritableKey keys.now) }
{
    for key in keys {
        push_key(alloc, KEY, key, text)?;
    }
    Ok(())
}

/// The records of questions.
pub(crate) fn question_records(alloc: Global, questions: &Questions) -> Result<Vec<u8>, OutOfMemory>
    ensures octets { IfOk result (λ text. text.items ≡ spec.questions_octets questions.now) }
    ensures writable { OnOk result (spec.AreWritable questions.now) }
{
    let mut text = own_records(alloc, questions.own())?;
    push_parts(questions.parts(), &mut text)?;
    push_keys(alloc, questions.keys(), &mut text)?;
    Ok(text)
}
