//! What was prepared, with its signatures.

ghost use Rattle.std.specs.Prelude.{◌≡◌, ◌≢◌, Ok, Err, IfErr, IfOk};
ghost use Rattle.rpki_external.specs.Running.{IsFinishAnchorAnswer, IsFinishAnswer, IsFinishRequestAnswer};
ghost use Rattle.rpki_c.specs.Calls as spec;
ghost use Rattle.rpki_c.specs.HandingOver.{HandsOver, out_of_memory};

use crate::arguments::{
    key_in, kind_in, plan_in, request_plan_in, shared, signatures_in, validity_in,
};
use crate::handing_over::hand_over;
use crate::outcome::Outcome;
use crate::texts::copied;
use rpki_base::{PublicKey, Validity};
use rpki_ca::Kind;
use rpki_external::{
    KeysRefusal, Plan, RequestPlan, Signatures, finish, finish_anchor, finish_request, message_of,
};
use std::alloc::Global;

// The signed message that the text is by a plan, with its signatures.
fn finished_message(
    alloc: Global,
    kind: Kind,
    text: &[u8],
    plan: &Plan,
    signatures: Signatures,
) -> Result<Vec<u8>, KeysRefusal>
    ensures ok { IfOk result (λ output. spec.SpelledSo
        (IsFinishAnswer kind text.now plan.now signatures) (Ok output.items)) }
    ensures err { IfErr result (λ e. e ≢ out_of_memory → spec.SpelledSo
        (IsFinishAnswer kind text.now plan.now signatures) (Err e)) }
{
    let message = message_of(alloc, kind, text)?;
    let signed = finish(alloc, message.to_xml_bytes(alloc)?, plan, signatures)?;
    Ok(copied(alloc, signed.to_captured(alloc)?.as_slice())?)
}

// A signed message with its signatures.
fn finish_message(
    alloc: Global,
    kind: i32,
    text: &[u8],
    when: i64,
    serial: &[u8],
    issuing_key: &[u8],
    one_off_key: &[u8],
    attributes: &[u8],
    crl: &[u8],
    certificate: &[u8],
) -> Result<Vec<u8>, KeysRefusal>
    ensures ok { IfOk result (λ output. spec.FinishesIn kind text.now when serial.now
        issuing_key.now one_off_key.now
        (spec.signatures_of attributes.now crl.now certificate.now) (Ok output.items)) }
    ensures err { IfErr result (λ e. e ≢ out_of_memory → spec.FinishesIn kind text.now when
        serial.now issuing_key.now one_off_key.now
        (spec.signatures_of attributes.now crl.now certificate.now) (Err e)) }
{
    let kind = kind_in(kind)?;
    let plan = plan_in(alloc, when, serial, issuing_key, one_off_key)?;
    let signatures = signatures_in(alloc, attributes, crl, certificate)?;
    finished_message(alloc, kind, text, &plan, signatures)
}

/// The signed message, in DER, with these signatures of what `calmizsed_message_prepare` gives for the same arguments (RFC 5652, 5.1).
/// They aren't looked at, but for their lengths: at most 2^16 octets each. Where they hold, it is received under the issuing key at each
/// second of its window.
///
/// Usage, XmlError, CertSyntax, InvalidCsrSyntax, Moment, TooLong, IncompatibleKey, KeyReused, OutOfMemory.
#[unsafe(no_mangle)]
pub extern "C" fn calmizsed_message_finish(
    kind: i32,
    text: &[u8],
    when: i64,
    serial: &[u8],
    issuing_key: &[u8],
    one_off_key: &[u8],
    attributes: &[u8],
    crl: &[u8],
    certificate: &[u8],
    alloc: Global,
    out: &mut [u8],
    outcome: &mut Outcome,
) -> i32
    ensures answer { HandsOver (spec.FinishesIn kind text.now when serial.now issuing_key.now
        one_off_key.now (spec.signatures_of attributes.now crl.now certificate.now))
        out.old out.new outcome.new }
    ensures status { result ≡ outcome.new.status }
{
    hand_over(
        finish_message(
            alloc,
            kind,
            text,
            when,
            serial,
            issuing_key,
            one_off_key,
            attributes,
            crl,
            certificate,
        ),
        out,
        outcome,
    )
}

// A key's own certificate with its signature.
fn signed_anchor(
    alloc: Global,
    validity: Validity,
    key: &PublicKey,
    signature: &[u8],
) -> Result<Vec<u8>, KeysRefusal>
    ensures ok { IfOk result (λ output. spec.SpelledSo
        (IsFinishAnchorAnswer validity key.now signature.now) (Ok output.items)) }
    ensures err { IfErr result (λ e. e ≢ out_of_memory → spec.SpelledSo
        (IsFinishAnchorAnswer validity key.now signature.now) (Err e)) }
{
    let certificate = finish_anchor(alloc, key, validity, shared(alloc, signature)?)?;
    Ok(copied(alloc, certificate.to_captured(alloc)?.as_slice())?)
}

// The own certificate, with its signature, of the key that the octets are.
fn finish_own(
    alloc: Global,
    not_before: i64,
    not_after: i64,
    key: &[u8],
    signature: &[u8],
) -> Result<Vec<u8>, KeysRefusal>
    ensures ok { IfOk result (λ output. spec.FinishesAnchorIn not_before not_after key.now
        signature.now (Ok output.items)) }
    ensures err { IfErr result (λ e. e ≢ out_of_memory
        → spec.FinishesAnchorIn not_before not_after key.now signature.now (Err e)) }
{
    let validity = validity_in(not_before, not_after)?;
    let key = key_in(alloc, key)?;
    signed_anchor(alloc, validity, &key, signature)
}

/// The key's own certificate, in DER, with this signature of what `calmizsed_anchor_prepare` gives for the same arguments, of at most
/// 2^16 octets (RFC 8183, 5.1).
///
/// Usage, TooLong, IncompatibleKey, OutOfMemory.
#[unsafe(no_mangle)]
pub extern "C" fn calmizsed_anchor_finish(
    not_before: i64,
    not_after: i64,
    key: &[u8],
    signature: &[u8],
    alloc: Global,
    out: &mut [u8],
    outcome: &mut Outcome,
) -> i32
    ensures answer { HandsOver
        (spec.FinishesAnchorIn not_before not_after key.now signature.now)
        out.old out.new outcome.new }
    ensures status { result ≡ outcome.new.status }
{
    hand_over(
        finish_own(alloc, not_before, not_after, key, signature),
        out,
        outcome,
    )
}

// A certificate request by a plan with its signature.
fn signed_request(
    alloc: Global,
    plan: &RequestPlan,
    signature: &[u8],
) -> Result<Vec<u8>, KeysRefusal>
    ensures ok { IfOk result (λ output. spec.SpelledSo
        (IsFinishRequestAnswer plan.now signature.now) (Ok output.items)) }
    ensures err { IfErr result (λ e. e ≢ out_of_memory → spec.SpelledSo
        (IsFinishRequestAnswer plan.now signature.now) (Err e)) }
{
    let octets = finish_request(alloc, plan, shared(alloc, signature)?)?;
    Ok(copied(alloc, octets.as_slice())?)
}

// A certificate request with its signature.
fn finish_for_key(
    alloc: Global,
    key: &[u8],
    repository: &[u8],
    manifest: &[u8],
    notify: &[u8],
    signature: &[u8],
) -> Result<Vec<u8>, KeysRefusal>
    ensures ok { IfOk result (λ output. spec.FinishesRequestIn key.now repository.now manifest.now
        notify.now signature.now (Ok output.items)) }
    ensures err { IfErr result (λ e. e ≢ out_of_memory → spec.FinishesRequestIn key.now
        repository.now manifest.now notify.now signature.now (Err e)) }
{
    let plan = request_plan_in(alloc, key, repository, manifest, notify)?;
    signed_request(alloc, &plan, signature)
}

/// The certificate request, in DER, with this signature of what `calmizsed_request_prepare` gives for the same arguments, of at most
/// 2^16 octets (RFC 6487, 6).
///
/// Usage, TooLong, IncompatibleKey, OutOfMemory.
#[unsafe(no_mangle)]
pub extern "C" fn calmizsed_request_finish(
    key: &[u8],
    repository: &[u8],
    manifest: &[u8],
    notify: &[u8],
    signature: &[u8],
    alloc: Global,
    out: &mut [u8],
    outcome: &mut Outcome,
) -> i32
    ensures answer { HandsOver (spec.FinishesRequestIn key.now repository.now manifest.now
        notify.now signature.now) out.old out.new outcome.new }
    ensures status { result ≡ outcome.new.status }
{
    hand_over(
        finish_for_key(alloc, key, repository, manifest, notify, signature),
        out,
        outcome,
    )
}
