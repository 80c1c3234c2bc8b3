//! What is received of signed messages, and what is in them.

ghost use Rattle.std.specs.Prelude.{◌≡◌, ◌≢◌, ◌≤◌, Ok, Err, IfErr, IfOk, length, map};
ghost use Rattle.rpki_common.specs.Limits.{most_keys};
ghost use Rattle.sha2.specs.Sha256.{sha256};
ghost use Rattle.rpki_c.specs.Arguments.{octet_of};
ghost use Rattle.rpki_c.specs.Calls as spec;
ghost use Rattle.rpki_c.specs.HandingOver.{HandsOver, HandsReceiptOver, out_of_memory};

use crate::arguments::{answers_in, key_in, keys_in, kind_in, last_in, moment_in};
use crate::handing_over::{hand_over, hand_receipt_over};
use crate::outcome::Outcome;
use crate::texts::copied;
use rpki_base::{PublicKey, Time};
use rpki_ca::{Kind, Refusal};
use rpki_common::OutOfMemory;
use rpki_external::{
    Answers, KeysRefusal, Receipt, checks_answered, inspect, no_message, receive_answered,
};
use rpki_sigmsg::SignedMessage;
use std::alloc::Global;

// The receipt of a message under keys by answers.
fn received(
    alloc: Global,
    kind: Kind,
    message: &[u8],
    keys: &[PublicKey],
    when: Time,
    last: Option<Time>,
    answers: &Answers,
) -> Result<Receipt, KeysRefusal>
    requires some { 1 ≤ length keys.now }
    requires few { length keys.now ≤ most_keys }
    ensures ok { IfOk result (λ r.
        spec.Receives kind message.now keys.now when last answers.now (Ok r)) }
    ensures err { IfErr result (λ e. e ≢ out_of_memory
        → spec.Receives kind message.now keys.now when last answers.now (Err e)) }
{
    Ok(receive_answered(alloc, kind, message, keys, when, answers, last)?)
}

// The receipt of a message by answers.
fn receive(
    alloc: Global,
    kind: i32,
    message: &[u8],
    keys: &[u8],
    when: i64,
    has_last: i32,
    last: i64,
    digest: &[u8],
    answers: &[u8],
) -> Result<Receipt, KeysRefusal>
    ensures ok { IfOk result (λ r. spec.ReceivesIn kind message.now keys.now when has_last last
        digest.now answers.now (Ok r)) }
    ensures err { IfErr result (λ e. e ≢ out_of_memory
        → spec.ReceivesIn kind message.now keys.now when has_last last digest.now answers.now
        (Err e)) }
{
    let kind = kind_in(kind)?;
    let keys = keys_in(alloc, keys)?;
    let when = moment_in(when)?;
    let last = last_in(has_last, last)?;
    let answers = answers_in(alloc, digest, answers)?;
    received(alloc, kind, message, &keys, when, last, &answers)
}

/// The text of the message of the protocol `kind` (1 publication, RFC 8181; 2 provisioning, RFC 6492) that the signed message with
/// which `message` begins is, in BER, if all fourteen checks hold at the moment `when` under one of the one to eight keys: by answers
/// to its questions under the same `keys`. With a last time it has to be signed later.
///
/// The outcome has the place of the first key under which it is accepted, and when the message says that it was signed.
///
/// Usage, CmsDecode, OtherQuestions, XmlError, CertSyntax, InvalidCsrSyntax, Validation, NoTime, Replayed, OutOfMemory.
#[unsafe(no_mangle)]
pub extern "C" fn calmizsed_message_receive(
    kind: i32,
    message: &[u8],
    keys: &[u8],
    when: i64,
    has_last: i32,
    last: i64,
    digest: &[u8],
    answers: &[u8],
    alloc: Global,
    out: &mut [u8],
    outcome: &mut Outcome,
) -> i32
    ensures answer { HandsReceiptOver
        (spec.ReceivesIn kind message.now keys.now when has_last last digest.now answers.now)
        out.old out.new outcome.new }
    ensures status { result ≡ outcome.new.status }
{
    hand_receipt_over(
        alloc,
        receive(
            alloc, kind, message, keys, when, has_last, last, digest, answers,
        ),
        out,
        outcome,
    )
}

// An octet for each truth value.
fn octets_of(alloc: Global, values: &[bool]) -> Result<Vec<u8>, OutOfMemory>
    ensures { IfOk result (λ octets. octets.items ≡ map octet_of values.now) }
{
    let mut octets = Vec::new(alloc);
    for value in values {
        octets.push(if *value { 1 } else { 0 })?;
    }
    Ok(octets)
}

// An octet for each check of a message under a key.
fn explained(
    alloc: Global,
    message: &[u8],
    key: &PublicKey,
    when: Time,
    answers: &Answers,
) -> Result<Vec<u8>, KeysRefusal>
    ensures ok { IfOk result (λ text.
        spec.Explains message.now key.now when answers.now (Ok text.items)) }
    ensures err { IfErr result (λ e. e ≢ out_of_memory
        → spec.Explains message.now key.now when answers.now (Err e)) }
{
    let checks = checks_answered(alloc, message, key, when, answers)?;
    Ok(octets_of(alloc, &checks)?)
}

// An octet for each check of a message.
fn explain(
    alloc: Global,
    message: &[u8],
    key: &[u8],
    when: i64,
    digest: &[u8],
    answers: &[u8],
) -> Result<Vec<u8>, KeysRefusal>
    ensures ok { IfOk result (λ text.
        spec.ExplainsIn message.now key.now when digest.now answers.now (Ok text.items)) }
    ensures err { IfErr result (λ e. e ≢ out_of_memory
        → spec.ExplainsIn message.now key.now when digest.now answers.now (Err e)) }
{
    let key = key_in(alloc, key)?;
    let when = moment_in(when)?;
    let answers = answers_in(alloc, digest, answers)?;
    explained(alloc, message, &key, when, &answers)
}

/// Fourteen octets, one for each check of the signed message with which `message` begins, 1 where it holds under the key at the
/// moment and 0 where it fails: by answers to its questions under that key alone.
///
/// Usage, CmsDecode, OtherQuestions, OutOfMemory.
#[unsafe(no_mangle)]
pub extern "C" fn calmizsed_message_explain(
    message: &[u8],
    key: &[u8],
    when: i64,
    digest: &[u8],
    answers: &[u8],
    alloc: Global,
    out: &mut [u8],
    outcome: &mut Outcome,
) -> i32
    ensures answer { HandsOver
        (spec.ExplainsIn message.now key.now when digest.now answers.now)
        out.old out.new outcome.new }
    ensures status { result ≡ outcome.new.status }
{
    hand_over(
        explain(alloc, message, key, when, digest, answers),
        out,
        outcome,
    )
}

// What is in a signed message.
fn look(alloc: Global, message: &[u8]) -> Result<Vec<u8>, KeysRefusal>
    ensures ok { IfOk result (λ text. spec.Inspects message.now (Ok text.items)) }
    ensures err { IfErr result (λ e. e ≢ out_of_memory → spec.Inspects message.now (Err e)) }
{
    match inspect(alloc, message) {
        Ok(text) => Ok(text.into_bytes()),
        Err(error) => Err(no_message(error)),
    }
}

/// What is in the signed message with which `message` begins, in BER, as a JSON text ([`rpki_external::inspection_text`]). Nothing of it
/// is checked.
///
/// CmsDecode, OutOfMemory.
#[unsafe(no_mangle)]
pub extern "C" fn calmizsed_message_inspect(
    message: &[u8],
    alloc: Global,
    out: &mut [u8],
    outcome: &mut Outcome,
) -> i32
    ensures answer { HandsOver (spec.Inspects message.now) out.old out.new outcome.new }
    ensures status { result ≡ outcome.new.status }
{
    hand_over(look(alloc, message), out, outcome)
}

// The content of a signed message, if it has the signed digest.
fn content_of(alloc: Global, message: &SignedMessage) -> Result<Vec<u8>, KeysRefusal>
    ensures ok { IfOk result (λ text. text.items ≡ message.now.content) }
    ensures digest { IfOk result (λ _. sha256 message.now.content ≡ message.now.digest) }
    ensures err { IfErr result (λ e. e ≢ out_of_memory → (e ≡ spec.other_digest)
        × (sha256 message.now.content ≢ message.now.digest)) }
{
    if !message.digest_holds() {
        return Err(KeysRefusal::General(Refusal::Validation(2)));
    }
    Ok(copied(alloc, message.content().as_slice())?)
}

// The content of a signed message, whoever signed it.
fn content(alloc: Global, message: &[u8]) -> Result<Vec<u8>, KeysRefusal>
    ensures ok { IfOk result (λ text. spec.ReadsContent message.now (Ok text.items)) }
    ensures err { IfErr result (λ e. e ≢ out_of_memory → spec.ReadsContent message.now (Err e)) }
{
    match SignedMessage::decode(alloc, message, false) {
        Ok(message) => content_of(alloc, &message),
        Err(error) => Err(no_message(error)),
    }
}

/// The content of the signed message with which `message` begins, in BER, if its SHA-256 is the signed digest; else Validation with
/// check 2. **No signature is checked**: this says nothing of who signed.
///
/// CmsDecode, Validation, OutOfMemory.
#[unsafe(no_mangle)]
pub extern "C" fn calmizsed_message_content(
    message: &[u8],
    alloc: Global,
    out: &mut [u8],
    outcome: &mut Outcome,
) -> i32
    ensures answer { HandsOver (spec.ReadsContent message.now) out.old out.new outcome.new }
    ensures status { result ≡ outcome.new.status }
{
    hand_over(content(alloc, message), out, outcome)
}
