//! What single words of a command line say, and a few words in turn.

ghost use Rattle.std.specs.Prelude.{◌≡◌, ◌≢◌, ◌≤◌, ◌++◌, Bool, List, Option, ℕ, ℤ, IfOk, IfSome, IsNone, None, codes, map};
ghost use Rattle.rpki_base.specs.PublicKey.{KeyFields};
ghost use Rattle.rpki_base.specs.Validity.{ValidityFields};
ghost use Rattle.rpki_ca.specs.Lines.{digit_of};
ghost use Rattle.rpki_text.specs.Uri.{fault_of, https, rsync};
ghost use Rattle.rpki_external.specs.Answers.{AnswersFields};
ghost use Rattle.rpki_external.specs.Words as spec;
ghost use Rattle.rpki_external.specs.declared.preparing.Plan.{Plan as PlanOf};
ghost use Rattle.rpki_external.specs.declared.preparing.Signatures.{Signatures as SignaturesOf};
ghost use Rattle.rpki_external.specs.declared.preparing_requests.RequestPlan.{RequestPlan as RequestPlanOf};

use crate::answers::Answers;
use crate::preparing::{Plan, Signatures};
use crate::preparing_requests::RequestPlan;
use bytes::Bytes;
use rpki_base::{PublicKey, Serial, Time, Validity};
use rpki_ca::{Words, spelled_octets};
use rpki_common::{OutOfMemory, Sequence};
use rpki_text::Hash;
use rpki_text::uri::{self, Https, Rsync};
use std::alloc::Global;

// The keys that the words from an index on spell, if they are one to eight and each spells one.
pub(crate) fn few_keys_from(
    alloc: Global,
    words: &Words,
    index: usize,
) -> Result<Option<Sequence<PublicKey>>, OutOfMemory>
    requires { index ≤ 8 }
    ensures some { IfOk result (λ o. IfSome o (spec.AreFewKeys words.now index)) }
    ensures none { IfOk result (λ o. IsNone o → (keys : List KeyFields)
        → spec.AreFewKeys words.now index keys → ⊥) }
{
    if words.len() <= index || words.len() > index + 8 {
        return Ok(None);
    }
    match words.keys_from(alloc, index)? {
        Some(keys) => Ok(Some(Sequence::from_vec(keys))),
        None => Ok(None),
    }
}

// ---- answers

// The answer that a digit is, if it is one.
fn answer_of(digit: u8) -> Option<bool>
    ensures some { IfSome result (λ answer. digit ≡ digit_of answer) }
    ensures none { IsNone result → (digit ≢ 48) × (digit ≢ 49) }
{
    if digit == b'0' {
        return Some(false);
    }
    if digit == b'1' {
        return Some(true);
    }
    None
}

// The answers whose digits the word has, if it has no others.
fn answers_of(alloc: Global, word: &str) -> Result<Option<Vec<bool>>, OutOfMemory>
    ensures some { IfOk result (λ o. IfSome o (λ answers.
        word.now ≡ map digit_of answers.items)) }
    ensures none { IfOk result (λ o. IsNone o → (answers : List Bool)
        → word.now ≡ map digit_of answers → ⊥) }
{
    let mut answers = Vec::new(alloc);
    for digit in word.as_bytes() {
        match answer_of(*digit) {
            Some(answer) => answers.push(answer)?,
            None => return Ok(None),
        }
    }
    Ok(Some(answers))
}

// The answers whose digits the word at an index has.
fn values_at(alloc: Global, words: &Words, index: usize) -> Result<Option<Vec<bool>>, OutOfMemory>
    ensures some { IfOk result (λ o. IfSome o (λ answers.
        spec.HasWord words.now index (map digit_of answers.items))) }
    ensures none { IfOk result (λ o. IsNone o → (answers : List Bool)
        → spec.HasWord words.now index (map digit_of answers) → ⊥) }
{
    match words.get(index) {
        Some(word) => answers_of(alloc, word),
        None => Ok(None),
    }
}

// The answers that the word at an index and the next one are.
pub(crate) fn answers_at(
    alloc: Global,
    words: &Words,
    index: usize,
) -> Result<Option<Answers>, OutOfMemory>
    requires { index ≤ 8 }
    ensures some { IfOk result (λ o. IfSome o (spec.AreAnswersAt words.now index)) }
    ensures none { IfOk result (λ o. IsNone o → (answers : AnswersFields)
        → spec.AreAnswersAt words.now index answers → ⊥) }
{
    let Some(word) = words.get(index) else {
        return Ok(None);
    };
    let Some(digest) = Hash::from_str(word) else {
        return Ok(None);
    };
    match values_at(alloc, words, index + 1)? {
        Some(values) => Ok(Some(Answers::new(digest, values))),
        None => Ok(None),
    }
}

// ---- moments

// The last time that the word at an index is, or none where it is a hyphen.
pub(crate) fn last_at(words: &Words, index: usize) -> Option<Option<Time>>
    ensures some { IfSome result (spec.IsLastAt words.now index) }
    ensures none { IsNone result → (last : Option ℤ) → spec.IsLastAt words.now index last → ⊥ }
{
    match words.get(index) {
        Some("-") => Some(None),
        _ => match words.moment(index) {
            Some(last) => Some(Some(last)),
            None => None,
        },
    }
}

// The validity whose first and last second are the word at an index and the next one.
pub(crate) fn validity_at(words: &Words, index: usize) -> Option<Validity>
    requires { index ≤ 8 }
    ensures some { IfSome result (spec.IsValidityAt words.now index) }
    ensures none { IsNone result → (validity : ValidityFields)
        → spec.IsValidityAt words.now index validity → ⊥ }
{
    let Some(not_before) = words.moment(index) else {
        return None;
    };
    match words.moment(index + 1) {
        Some(not_after) => Some(Validity::new(not_before, not_after)),
        None => None,
    }
}

// ---- what a message is made with

// The serial number of twenty octets, if the first bit is 0.
fn serial_number(octets: &[u8]) -> Option<Serial>
    ensures some { IfSome result (λ serial. (serial ≡ octets.now) × spec.IsSerial octets.now) }
    ensures none { IsNone result → spec.IsSerial octets.now → ⊥ }
{
    if octets.len() != 20 || octets[0] >= 0x80 {
        return None;
    }
    let mut held = [0u8; 20];
    held.copy_from_slice(octets);
    Some(Serial::from(held))
}

// The octets that the word at an index spells.
fn octets_at(alloc: Global, words: &Words, index: usize) -> Result<Option<Vec<u8>>, OutOfMemory>
    ensures some { IfOk result (λ o. IfSome o (λ octets.
        spec.SpellsAt words.now index octets.items)) }
    ensures none { IfOk result (λ o. IsNone o → (octets : List ℕ)
        → spec.SpellsAt words.now index octets → ⊥) }
{
    match words.get(index) {
        Some(word) => spelled_octets(alloc, word.as_bytes()),
        None => Ok(None),
    }
}

// The serial number that the word at an index spells.
fn serial_at(alloc: Global, words: &Words, index: usize) -> Result<Option<Serial>, OutOfMemory>
    ensures some { IfOk result (λ o. IfSome o (λ serial.
        spec.SpellsAt words.now index serial × spec.IsSerial serial)) }
    ensures none { IfOk result (λ o. IsNone o → (serial : List ℕ)
        → spec.SpellsAt words.now index serial → spec.IsSerial serial → ⊥) }
{
    match octets_at(alloc, words, index)? {
        Some(octets) => Ok(serial_number(&octets)),
        None => Ok(None),
    }
}

// The plan of the four words from an index on.
pub(crate) fn plan_at(
    alloc: Global,
    words: &Words,
    index: usize,
) -> Result<Option<Plan>, OutOfMemory>
    requires { index ≤ 8 }
    ensures some { IfOk result (λ o. IfSome o (spec.IsPlan words.now index)) }
    ensures none { IfOk result (λ o. IsNone o → (plan : PlanOf)
        → spec.IsPlan words.now index plan → ⊥) }
{
    let Some(when) = words.moment(index) else {
        return Ok(None);
    };
    let Some(serial) = serial_at(alloc, words, index + 1)? else {
        return Ok(None);
    };
    let Some(issuing_key) = words.key(alloc, index + 2)? else {
        return Ok(None);
    };
    match words.key(alloc, index + 3)? {
        Some(key) => Ok(Some(Plan {
            when,
            serial,
            issuing_key,
            key,
        })),
        None => Ok(None),
    }
}

// ---- signatures

// What stands in a word behind a name and an equals sign.
#[tactic(auto, using(crate::proofs::WordParts::behind_names))]
fn behind_name<'a>(word: &'a [u8], name: &[u8]) -> Option<&'a [u8]>
    ensures some { IfSome result (λ digits. word.now ≡ name.now ++ codes "=" ++ digits.now) }
    ensures none { IsNone result → (digits : List ℕ)
        → word.now ≡ name.now ++ codes "=" ++ digits → ⊥ }
{
    let Some(rest) = word.strip_prefix(name) else {
        return None;
    };
    match rest.strip_prefix(b"=".as_slice()) {
        Some(digits) => Some(digits),
        None => None,
    }
}

// The signature that the word at an index spells behind a name and an equals sign.
pub(crate) fn signature_at(
    alloc: Global,
    words: &Words,
    index: usize,
    name: &[u8],
) -> Result<Option<Bytes>, OutOfMemory>
    ensures some { IfOk result (λ o. IfSome o (spec.SpellsNamed words.now index name.now)) }
    ensures none { IfOk result (λ o. IsNone o → (octets : List ℕ)
        → spec.SpellsNamed words.now index name.now octets → ⊥) }
{
    let Some(word) = words.get(index) else {
        return Ok(None);
    };
    let Some(digits) = behind_name(word.as_bytes(), name) else {
        return Ok(None);
    };
    match spelled_octets(alloc, digits)? {
        Some(octets) => Ok(Some(Bytes::from_vec(octets)?)),
        None => Ok(None),
    }
}

// The signatures that the three words from an index on spell.
pub(crate) fn signatures_at(
    alloc: Global,
    words: &Words,
    index: usize,
) -> Result<Option<Signatures>, OutOfMemory>
    requires { index ≤ 8 }
    ensures some { IfOk result (λ o. IfSome o (spec.AreSignatureWords words.now index)) }
    ensures none { IfOk result (λ o. IsNone o → (signatures : SignaturesOf)
        → spec.AreSignatureWords words.now index signatures → ⊥) }
{
    let Some(attributes) = signature_at(alloc, words, index, b"attributes")? else {
        return Ok(None);
    };
    let Some(crl) = signature_at(alloc, words, index + 1, b"crl")? else {
        return Ok(None);
    };
    match signature_at(alloc, words, index + 2, b"certificate")? {
        Some(certificate) => Ok(Some(Signatures {
            attributes,
            crl,
            certificate,
        })),
        None => Ok(None),
    }
}

// ---- places

// The rsync URI that the word at an index is.
fn rsync_at(alloc: Global, words: &Words, index: usize) -> Result<Option<Rsync>, OutOfMemory>
    ensures some { IfOk result (λ o. IfSome o (λ uri.
        spec.HasWord words.now index uri × (fault_of rsync uri ≡ None))) }
    ensures none { IfOk result (λ o. IsNone o → (uri : List ℕ)
        → spec.HasWord words.now index uri → fault_of rsync uri ≡ None → ⊥) }
{
    let Some(word) = words.get(index) else {
        return Ok(None);
    };
    match Rsync::from_str(alloc, word) {
        Ok(uri) => Ok(Some(uri)),
        Err(uri::Error::OutOfMemory) => Err(OutOfMemory),
        Err(_) => Ok(None),
    }
}

// The https URI that the word at an index is.
fn https_at(alloc: Global, words: &Words, index: usize) -> Result<Option<Https>, OutOfMemory>
    ensures some { IfOk result (λ o. IfSome o (λ uri.
        spec.HasWord words.now index uri × (fault_of https uri ≡ None))) }
    ensures none { IfOk result (λ o. IsNone o → (uri : List ℕ)
        → spec.HasWord words.now index uri → fault_of https uri ≡ None → ⊥) }
{
    let Some(word) = words.get(index) else {
        return Ok(None);
    };
    match Https::from_str(alloc, word) {
        Ok(uri) => Ok(Some(uri)),
        Err(uri::Error::OutOfMemory) => Err(OutOfMemory),
        Err(_) => Ok(None),
    }
}

// The https URI that the word at an index is, or none where it is a hyphen.
fn notify_at(
    alloc: Global,
    words: &Words,
    index: usize,
) -> Result<Option<Option<Https>>, OutOfMemory>
    ensures some { IfOk result (λ o. IfSome o (spec.IsNotifyAt words.now index)) }
    ensures none { IfOk result (λ o. IsNone o → (notify : Option (List ℕ))
        → spec.IsNotifyAt words.now index notify → ⊥) }
{
    match words.get(index) {
        Some("-") => Ok(Some(None)),
        _ => match https_at(alloc, words, index)? {
            Some(uri) => Ok(Some(Some(uri))),
            None => Ok(None),
        },
    }
}

// The plan of a certificate request that the four words from an index on are.
pub(crate) fn request_plan_at(
    alloc: Global,
    words: &Words,
    index: usize,
) -> Result<Option<RequestPlan>, OutOfMemory>
    requires { index ≤ 8 }
    ensures some { IfOk result (λ o. IfSome o (spec.IsRequestPlan words.now index)) }
    ensures none { IfOk result (λ o. IsNone o → (plan : RequestPlanOf)
        → spec.IsRequestPlan words.now index plan → ⊥) }
{
    let Some(key) = words.key(alloc, index)? else {
        return Ok(None);
    };
    let Some(ca_repository) = rsync_at(alloc, words, index + 1)? else {
        return Ok(None);
    };
    let Some(rpki_manifest) = rsync_at(alloc, words, index + 2)? else {
        return Ok(None);
    };
    match notify_at(alloc, words, index + 3)? {
        Some(rpki_notify) => Ok(Some(RequestPlan {
            key,
            ca_repository,
            rpki_manifest,
            rpki_notify,
        })),
        None => Ok(None),
    }
}
