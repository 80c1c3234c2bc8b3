//! The calls of signed messages that the program is made of, by themselves.

ghost use Rattle.std.specs.Prelude.{◌≡◌, ◌≤◌, IfSome, length};

use crate::callers::{admit_given, checks_given};
use crate::parts::{answers_at, bound_answers_at, bytes_at, digits_of, key_at, keys_from, refused};
use crate::{is_short, memory, out_of_memory};
use bytes::Bytes;
use rpki_base::{PublicKey, Serial, SigningAlgorithm, Time, Verifier};
use rpki_ca::Words;
use rpki_external::{
    AnswerVerifier, AnsweredQuestions, Answers, Plan, Question, Questions, Receipt, Signatures,
    checks_answered, finish, inspect, inspection_text, message_questions, prepare, questions,
    receive_answered,
};
use rpki_replay::Guard;
use rpki_sigmsg::{SignedMessage, UnsignedMessage};
use std::alloc::Global;
use std::io;
use std::marker::Brand;
use test_stored::{Fields, invalid};

// ---- questions

// A digit for each algorithm under which the verifier says that the question's signature holds.
fn digits<A: AnsweredQuestions>(
    alloc: Global,
    verifier: &AnswerVerifier<'_, A>,
    question: &Question,
) -> io::Result<String> {
    let mut digits = String::new(alloc);
    for kind in [
        SigningAlgorithm::RsaSha256,
        SigningAlgorithm::EcdsaP256Sha256,
    ] {
        let holds = verifier.verify(
            kind,
            question.key(),
            question.octets().as_slice(),
            question.signature().as_slice(),
        );
        digits.push_str(if holds { "1" } else { "0" })?;
    }
    Ok(digits)
}

// Appends the part that each question is of, and what the verifier says of it.
fn verified<A: AnsweredQuestions>(
    alloc: Global,
    questions: &[Question],
    answers: &[bool],
    fields: &mut Fields,
) -> io::Result<()>
    requires questions { questions.now ≡ A.questions }
    requires answers { answers.now ≡ A.answers }
{
    let verifier = AnswerVerifier::<A>::new(questions, answers);
    for question in questions {
        fields.print(alloc, question.part())?;
        let said = digits(alloc, &verifier, question)?;
        fields.octets(said.as_bytes())?;
    }
    Ok(())
}

// The same, whatever questions and answers they are.
fn verified_given(
    alloc: Global,
    questions: &[Question],
    answers: &[bool],
    fields: &mut Fields,
) -> io::Result<()> {
    verified::<Brand>(alloc, questions, answers, fields)
}

/// The questions' text and its digest, and of each question the part that it is of, and what is said of it with these answers.
pub(crate) fn shown(alloc: Global, questions: &Questions, values: Vec<bool>) -> io::Result<Fields> {
    let text = questions.to_text(alloc).map_err(memory)?;
    let answers = Answers::to(alloc, questions, values).map_err(memory)?;
    let list = questions.list(alloc).map_err(memory)?;
    let mut fields = Fields::one(alloc, &text)?;
    fields.octets(answers.digest().as_slice())?;
    verified_given(alloc, &list, answers.values(), &mut fields)?;
    Ok(fields)
}

/// What is shown of the questions of the message under the keys behind the first word, with its answers. They are no longer than they may
/// be.
pub(crate) fn asked(alloc: Global, input: &[u8], words: &Words) -> io::Result<Fields> {
    if !is_short(alloc, input)? {
        return Err(invalid());
    }
    let values = answers_at(alloc, words, 0)?;
    let keys = keys_from(alloc, words, 1)?;
    match questions(alloc, input, &keys) {
        Ok(questions) => shown(alloc, &questions, values),
        Err(error) => refused(alloc, error),
    }
}

fn message_in(alloc: Global, input: &[u8], strictly: bool) -> io::Result<SignedMessage> {
    SignedMessage::decode(alloc, input, strictly).map_err(|_| invalid())
}

/// The parts of the questions of the message under the keys: part, octets and signature of each; and the bits of the keys.
pub(crate) fn held(alloc: Global, input: &[u8], words: &Words) -> io::Result<Fields> {
    let keys = keys_from(alloc, words, 0)?;
    let message = message_in(alloc, input, false)?;
    let questions = message_questions(alloc, &message, &keys).map_err(memory)?;
    let mut fields = Fields::new(alloc);
    if let Some(question) = questions.own() {
        let copy = question.clone(alloc).map_err(memory)?;
        fields.print(alloc, copy.part())?;
        fields.octets(copy.octets().as_slice())?;
        fields.octets(copy.signature().as_slice())?;
        fields.octets(copy.key().bits_bytes().as_slice())?;
    }
    for part in questions.parts() {
        fields.print(alloc, part.part())?;
        fields.octets(part.octets().as_slice())?;
        fields.octets(part.signature().as_slice())?;
    }
    for key in questions.keys() {
        fields.octets(key.bits_bytes().as_slice())?;
    }
    Ok(fields)
}

// ---- what is in a message

/// What is in the message, as a JSON text.
pub(crate) fn inspected(alloc: Global, input: &[u8]) -> io::Result<Fields> {
    match inspect(alloc, input) {
        Ok(text) => Ok(Fields::one(alloc, text.as_bytes())?),
        Err(error) => refused(alloc, error),
    }
}

/// What is in the message that was read in DER, as a JSON text.
pub(crate) fn told(alloc: Global, input: &[u8]) -> io::Result<Fields> {
    let message = message_in(alloc, input, true)?;
    let text = inspection_text(alloc, &message).map_err(memory)?;
    Ok(Fields::one(alloc, text.as_bytes())?)
}

// ---- what is received and checked

// The keys, if they are one to eight.
fn few(keys: &[PublicKey]) -> Option<&[PublicKey]>
    ensures some { IfSome result (λ s. 1 ≤ length s.now) }
    ensures few { IfSome result (λ s. length s.now ≤ 8) }
{
    if keys.is_empty() || keys.len() > 8 {
        return None;
    }
    Some(keys)
}

// The message's text, the place of the key, and the signing time, if there is one.
fn placed(alloc: Global, receipt: &Receipt) -> io::Result<Fields> {
    let text = receipt.message.to_xml_vec(alloc).map_err(memory)?;
    let mut fields = Fields::one(alloc, &text)?;
    fields.print(alloc, receipt.place)?;
    if let Some(time) = receipt.signing_time {
        fields.print(alloc, time.seconds())?;
    }
    Ok(fields)
}

// The last time that the word at an index names; a hyphen is none.
fn last_at(words: &Words, index: usize) -> io::Result<Option<Time>> {
    match (words.get(index), words.moment(index)) {
        (Some("-"), _) => Ok(None),
        (_, Some(last)) => Ok(Some(last)),
        _ => Err(invalid()),
    }
}

/// What is received by the answers: the words are the protocol, the moment, the last time, digest, answers, and keys.
pub(crate) fn received(alloc: Global, input: &[u8], words: &Words) -> io::Result<Fields> {
    let (Some(kind), Some(when)) = (words.kind(0), words.moment(1)) else {
        return Err(invalid());
    };
    let last = last_at(words, 2)?;
    let answers = bound_answers_at(alloc, words, 3)?;
    let keys = keys_from(alloc, words, 5)?;
    let Some(keys) = few(&keys) else {
        return Err(invalid());
    };
    match receive_answered(alloc, kind, input, keys, when, &answers, last) {
        Ok(receipt) => placed(alloc, &receipt),
        Err(error) => refused(alloc, error),
    }
}

/// The fourteen checks by the answers: the words are the moment, digest, answers, and a key.
pub(crate) fn checked(alloc: Global, input: &[u8], words: &Words) -> io::Result<Fields> {
    let Some(when) = words.moment(0) else {
        return Err(invalid());
    };
    let answers = bound_answers_at(alloc, words, 1)?;
    let key = key_at(alloc, words, 3)?;
    match checks_answered(alloc, input, &key, when, &answers) {
        Ok(checks) => Ok(Fields::one(alloc, digits_of(alloc, &checks)?.as_bytes())?),
        Err(error) => refused(alloc, error),
    }
}

/// By a caller's own scheme of these answers the fourteen checks, and what a guard says to the message, twice: the words are the
/// moment, answers, and a key.
pub(crate) fn guarded(alloc: Global, input: &[u8], words: &Words) -> io::Result<Fields> {
    let Some(when) = words.moment(0) else {
        return Err(invalid());
    };
    let values = answers_at(alloc, words, 1)?;
    let keys = keys_from(alloc, words, 2)?;
    let (Some(key), message) = (keys.first(), message_in(alloc, input, false)?) else {
        return Err(invalid());
    };
    let questions = message_questions(alloc, &message, &keys).map_err(memory)?;
    let list = questions.list(alloc).map_err(memory)?;
    let checks = checks_given(&message, key, when, &list, &values);
    let mut fields = Fields::one(alloc, digits_of(alloc, &checks)?.as_bytes())?;
    let mut guard = Guard::new(alloc);
    for _ in 0..2 {
        match admit_given(&mut guard, key, &message, when, &list, &values) {
            Ok(time) => fields.print(alloc, time.seconds())?,
            Err(error) => fields.print(alloc, error)?,
        }
    }
    Ok(fields)
}

// ---- what is made

// The plan of the first four words; the serial number is a decimal one.
fn plan_of(alloc: Global, words: &Words) -> io::Result<Plan> {
    let serial = words.get(1).and_then(|word| word.parse::<u64>().ok());
    let (Some(when), Some(serial)) = (words.moment(0), serial) else {
        return Err(invalid());
    };
    Ok(Plan {
        when,
        serial: Serial::from(serial),
        issuing_key: key_at(alloc, words, 2)?,
        key: key_at(alloc, words, 3)?,
    })
}

// The signatures of the three words behind these.
fn signatures_of(alloc: Global, words: &Words) -> io::Result<Signatures> {
    Ok(Signatures {
        attributes: bytes_at(alloc, words, 4)?,
        crl: bytes_at(alloc, words, 5)?,
        certificate: bytes_at(alloc, words, 6)?,
    })
}

fn content_of(alloc: Global, input: &[u8]) -> io::Result<Bytes> {
    Bytes::copy_from_slice(alloc, input).map_err(|_| out_of_memory())
}

fn to_sign(alloc: Global, unsigned: &UnsignedMessage) -> io::Result<Fields> {
    let mut fields = Fields::one(alloc, unsigned.attributes())?;
    fields.octets(unsigned.crl())?;
    fields.octets(unsigned.certificate())?;
    Ok(fields)
}

/// What is to be signed of the content: attributes, CRL, certificate.
pub(crate) fn prepared(alloc: Global, input: &[u8], words: &Words) -> io::Result<Fields> {
    let plan = plan_of(alloc, words)?;
    match prepare(alloc, content_of(alloc, input)?, &plan) {
        Ok(unsigned) => to_sign(alloc, &unsigned),
        Err(error) => refused(alloc, error),
    }
}

fn spelled(alloc: Global, message: &SignedMessage) -> io::Result<Fields> {
    let octets = message.to_captured(alloc).map_err(memory)?;
    Ok(Fields::one(alloc, octets.as_slice())?)
}

/// The message with the content and the signatures.
pub(crate) fn finished(alloc: Global, input: &[u8], words: &Words) -> io::Result<Fields> {
    let plan = plan_of(alloc, words)?;
    let signatures = signatures_of(alloc, words)?;
    match finish(alloc, content_of(alloc, input)?, &plan, signatures) {
        Ok(message) => spelled(alloc, &message),
        Err(error) => refused(alloc, error),
    }
}
