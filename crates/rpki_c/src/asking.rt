//! What is asked of signed messages, of trust anchors and of certificate requests.

ghost use Rattle.std.specs.Prelude.{◌≡◌, ◌≢◌, Ok, Err, IfErr, IfOk};
ghost use Rattle.rpki_ca.specs.Acceptance.{HoldsNoSigned};
ghost use Rattle.rpki_external.specs.Receiving.{AreAskedOf};
ghost use Rattle.rpki_c.specs.Calls as spec;
ghost use Rattle.rpki_c.specs.HandingOver.{HandsOver, out_of_memory};

use crate::arguments::{keys_in, setup_kind_in};
use crate::handing_over::hand_over;
use crate::outcome::Outcome;
use crate::records::asked_records;
use rpki_base::PublicKey;
use rpki_external::{
    KeysRefusal, Questions, no_message, questions, request_at, request_in, request_questions,
    setup_questions,
};
use std::alloc::Global;

// The questions of a signed message under keys.
fn asked(alloc: Global, octets: &[u8], keys: &[PublicKey]) -> Result<Questions, KeysRefusal>
    ensures ok { IfOk result (AreAskedOf octets.now keys.now) }
    ensures err { IfErr result (λ e. e ≢ out_of_memory
        → (e ≡ spec.no_cms) × HoldsNoSigned octets.now) }
{
    match questions(alloc, octets, keys) {
        Ok(questions) => Ok(questions),
        Err(error) => Err(no_message(error)),
    }
}

// Their records.
fn ask_under(alloc: Global, octets: &[u8], keys: &[PublicKey]) -> Result<Vec<u8>, KeysRefusal>
    ensures ok { IfOk result (λ text. spec.AsksMessage octets.now keys.now (Ok text.items)) }
    ensures err { IfErr result (λ e. e ≢ out_of_memory
        → spec.AsksMessage octets.now keys.now (Err e)) }
{
    let questions = asked(alloc, octets, keys)?;
    Ok(asked_records(alloc, &questions)?)
}

// The records of the questions of a signed message.
fn ask_message(alloc: Global, octets: &[u8], keys: &[u8]) -> Result<Vec<u8>, KeysRefusal>
    ensures ok { IfOk result (λ text. spec.AsksMessageIn octets.now keys.now (Ok text.items)) }
    ensures err { IfErr result (λ e. e ≢ out_of_memory
        → spec.AsksMessageIn octets.now keys.now (Err e)) }
{
    let keys = keys_in(alloc, keys)?;
    ask_under(alloc, octets, &keys)
}

/// The questions of the signed message with which `message` begins, in BER, under the one to eight keys that `keys` are in DER, one
/// behind the other: records.
///
/// Usage, CmsDecode, OutOfMemory.
#[unsafe(no_mangle)]
pub extern "C" fn calmizsed_message_questions(
    message: &[u8],
    keys: &[u8],
    alloc: Global,
    out: &mut [u8],
    outcome: &mut Outcome,
) -> i32
    ensures answer { HandsOver (spec.AsksMessageIn message.now keys.now)
        out.old out.new outcome.new }
    ensures status { result ≡ outcome.new.status }
{
    hand_over(ask_message(alloc, message, keys), out, outcome)
}

// The records of the questions of the certificate in a setup message.
fn ask_setup(alloc: Global, kind: i32, text: &[u8]) -> Result<Vec<u8>, KeysRefusal>
    ensures ok { IfOk result (λ output. spec.AsksSetupIn kind text.now (Ok output.items)) }
    ensures err { IfErr result (λ e. e ≢ out_of_memory → spec.AsksSetupIn kind text.now (Err e)) }
{
    let kind = setup_kind_in(kind)?;
    let questions = setup_questions(alloc, kind, text)?;
    Ok(asked_records(alloc, &questions)?)
}

/// The questions of the trust anchor's certificate in the setup message of this kind that `text` is (RFC 8183, 5.2): records. There is
/// one question where the certificate names its own key as its issuer's, and else none.
///
/// Usage, XmlError, InvalidTaCertEncoding, OutOfMemory.
#[unsafe(no_mangle)]
pub extern "C" fn calmizsed_setup_questions(
    kind: i32,
    text: &[u8],
    alloc: Global,
    out: &mut [u8],
    outcome: &mut Outcome,
) -> i32
    ensures answer { HandsOver (spec.AsksSetupIn kind text.now) out.old out.new outcome.new }
    ensures status { result ≡ outcome.new.status }
{
    hand_over(ask_setup(alloc, kind, text), out, outcome)
}

// The records of the question of a certificate request.
fn ask_request(alloc: Global, octets: &[u8]) -> Result<Vec<u8>, KeysRefusal>
    ensures ok { IfOk result (λ text. spec.AsksRequest octets.now (Ok text.items)) }
    ensures err { IfErr result (λ e. e ≢ out_of_memory → spec.AsksRequest octets.now (Err e)) }
{
    let request = request_at(alloc, octets)?;
    let questions = request_questions(alloc, &request)?;
    Ok(asked_records(alloc, &questions)?)
}

/// The question of the certificate request with which `request` begins, in DER (RFC 6487, 6): records.
///
/// InvalidCsrSyntax, OutOfMemory.
#[unsafe(no_mangle)]
pub extern "C" fn calmizsed_request_questions(
    request: &[u8],
    alloc: Global,
    out: &mut [u8],
    outcome: &mut Outcome,
) -> i32
    ensures answer { HandsOver (spec.AsksRequest request.now) out.old out.new outcome.new }
    ensures status { result ≡ outcome.new.status }
{
    hand_over(ask_request(alloc, request), out, outcome)
}

// The records of the question of the certificate request in an issue request.
fn ask_issue(alloc: Global, text: &[u8]) -> Result<Vec<u8>, KeysRefusal>
    ensures ok { IfOk result (λ output. spec.AsksIssue text.now (Ok output.items)) }
    ensures err { IfErr result (λ e. e ≢ out_of_memory → spec.AsksIssue text.now (Err e)) }
{
    let request = request_in(alloc, text)?;
    let questions = request_questions(alloc, &request)?;
    Ok(asked_records(alloc, &questions)?)
}

/// The question of the certificate request in the issue request of the provisioning protocol that `text` is (RFC 6492, 3.4.1): records.
///
/// XmlError, CertSyntax, InvalidCsrSyntax, OutOfMemory.
#[unsafe(no_mangle)]
pub extern "C" fn calmizsed_issue_questions(
    text: &[u8],
    alloc: Global,
    out: &mut [u8],
    outcome: &mut Outcome,
) -> i32
    ensures answer { HandsOver (spec.AsksIssue text.now) out.old out.new outcome.new }
    ensures status { result ≡ outcome.new.status }
{
    hand_over(ask_issue(alloc, text), out, outcome)
}
