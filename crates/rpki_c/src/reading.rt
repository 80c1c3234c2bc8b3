//! Certificate requests that are verified, and what needs no answers.

ghost use Rattle.std.specs.Prelude.{◌≡◌, ◌≢◌, Ok, Err, IfErr, IfOk, codes};
ghost use Rattle.rpki_external.specs.Running.{IsVerifiedAnswer};
ghost use Rattle.rpki_c.specs.Calls as spec;
ghost use Rattle.rpki_c.specs.HandingOver.{HandsOver, IsHandedOver, out_of_memory};

use crate::arguments::{answers_in, key_in, kind_in};
use crate::handing_over::{give, hand_over};
use crate::outcome::Outcome;
use crate::texts::{copied, key_octets};
use rpki_cert::RpkiCaCsr;
use rpki_external::{Answers, KeysRefusal, message_of, request_answered, request_at, request_in};
use std::alloc::Global;

// The version of the library, which the Makefile reads too.
const VERSION: &[u8] = b"0.1.0";

// The key of a request that is verified.
fn verified_key(
    alloc: Global,
    request: &RpkiCaCsr,
    answers: &Answers,
) -> Result<Vec<u8>, KeysRefusal>
    ensures ok { IfOk result (λ output.
        spec.SpelledSo (IsVerifiedAnswer request.now answers.now) (Ok output.items)) }
    ensures err { IfErr result (λ e. e ≢ out_of_memory
        → spec.SpelledSo (IsVerifiedAnswer request.now answers.now) (Err e)) }
{
    request_answered(alloc, request, answers)?;
    Ok(key_octets(alloc, request.public_key())?)
}

// The key of a certificate request that is verified.
fn verify_request(
    alloc: Global,
    request: &[u8],
    digest: &[u8],
    answers: &[u8],
) -> Result<Vec<u8>, KeysRefusal>
    ensures ok { IfOk result (λ output.
        spec.VerifiesRequestIn request.now digest.now answers.now (Ok output.items)) }
    ensures err { IfErr result (λ e. e ≢ out_of_memory
        → spec.VerifiesRequestIn request.now digest.now answers.now (Err e)) }
{
    let answers = answers_in(alloc, digest, answers)?;
    let request = request_at(alloc, request)?;
    verified_key(alloc, &request, &answers)
}

/// The key, in DER, of the certificate request with which `request` begins, in DER, if it is signed under it: by the answer to its
/// question (RFC 6487, 6; RFC 2986, 4.2).
///
/// Usage, InvalidCsrSyntax, OtherQuestions, Signature, OutOfMemory.
#[unsafe(no_mangle)]
pub extern "C" fn calmizsed_request_verify(
    request: &[u8],
    digest: &[u8],
    answers: &[u8],
    alloc: Global,
    out: &mut [u8],
    outcome: &mut Outcome,
) -> i32
    ensures answer { HandsOver
        (spec.VerifiesRequestIn request.now digest.now answers.now)
        out.old out.new outcome.new }
    ensures status { result ≡ outcome.new.status }
{
    hand_over(
        verify_request(alloc, request, digest, answers),
        out,
        outcome,
    )
}

// The key of the certificate request in an issue request, if it is verified.
fn verify_issue(
    alloc: Global,
    text: &[u8],
    digest: &[u8],
    answers: &[u8],
) -> Result<Vec<u8>, KeysRefusal>
    ensures ok { IfOk result (λ output.
        spec.VerifiesIssueIn text.now digest.now answers.now (Ok output.items)) }
    ensures err { IfErr result (λ e. e ≢ out_of_memory
        → spec.VerifiesIssueIn text.now digest.now answers.now (Err e)) }
{
    let answers = answers_in(alloc, digest, answers)?;
    let request = request_in(alloc, text)?;
    verified_key(alloc, &request, &answers)
}

/// The key, in DER, of the certificate request in the issue request of the provisioning protocol that `text` is, if it is signed under
/// it: by the answer to its question (RFC 6492, 3.4.1).
///
/// Usage, XmlError, CertSyntax, InvalidCsrSyntax, OtherQuestions, Signature, OutOfMemory.
#[unsafe(no_mangle)]
pub extern "C" fn calmizsed_issue_verify(
    text: &[u8],
    digest: &[u8],
    answers: &[u8],
    alloc: Global,
    out: &mut [u8],
    outcome: &mut Outcome,
) -> i32
    ensures answer { HandsOver (spec.VerifiesIssueIn text.now digest.now answers.now)
        out.old out.new outcome.new }
    ensures status { result ≡ outcome.new.status }
{
    hand_over(verify_issue(alloc, text, digest, answers), out, outcome)
}

// The text of a message of a protocol anew.
fn rewrite(alloc: Global, kind: i32, text: &[u8]) -> Result<Vec<u8>, KeysRefusal>
    ensures ok { IfOk result (λ output. spec.RewritesTextIn kind text.now (Ok output.items)) }
    ensures err { IfErr result (λ e. e ≢ out_of_memory
        → spec.RewritesTextIn kind text.now (Err e)) }
{
    let kind = kind_in(kind)?;
    let message = message_of(alloc, kind, text)?;
    Ok(message.to_xml_vec(alloc)?)
}

/// The message of the protocol `kind` (1 publication, RFC 8181; 2 provisioning, RFC 6492) that `text` is, a document of XML, written
/// anew.
///
/// Usage, XmlError, CertSyntax, InvalidCsrSyntax, OutOfMemory.
#[unsafe(no_mangle)]
pub extern "C" fn calmizsed_text_read(
    kind: i32,
    text: &[u8],
    alloc: Global,
    out: &mut [u8],
    outcome: &mut Outcome,
) -> i32
    ensures answer { HandsOver (spec.RewritesTextIn kind text.now) out.old out.new outcome.new }
    ensures status { result ≡ outcome.new.status }
{
    hand_over(rewrite(alloc, kind, text), out, outcome)
}

// The identifier of a key.
fn identifier(alloc: Global, key: &[u8]) -> Result<Vec<u8>, KeysRefusal>
    ensures ok { IfOk result (λ output. spec.GivesIdentifierIn key.now (Ok output.items)) }
    ensures err { IfErr result (λ e. e ≢ out_of_memory → spec.GivesIdentifierIn key.now (Err e)) }
{
    let key = key_in(alloc, key)?;
    Ok(copied(alloc, key.key_identifier().as_slice())?)
}

/// The twenty octets of the identifier of the key, which is in DER: the SHA-1 of its bits (RFC 5280, 4.2.1.2).
///
/// Usage, OutOfMemory.
#[unsafe(no_mangle)]
pub extern "C" fn calmizsed_key_identifier(
    key: &[u8],
    alloc: Global,
    out: &mut [u8],
    outcome: &mut Outcome,
) -> i32
    ensures answer { HandsOver (spec.GivesIdentifierIn key.now) out.old out.new outcome.new }
    ensures status { result ≡ outcome.new.status }
{
    hand_over(identifier(alloc, key), out, outcome)
}

/// The version of the library, as digits and dots. It takes no memory.
#[unsafe(no_mangle)]
pub extern "C" fn calmizsed_version(out: &mut [u8], outcome: &mut Outcome) -> i32
    ensures answer { IsHandedOver (Ok (codes "0.1.0")) out.old out.new outcome.new }
    ensures status { result ≡ outcome.new.status }
{
    give(VERSION, Outcome::done(VERSION.len()), out, outcome);
    outcome.status
}
