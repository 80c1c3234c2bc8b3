//! What is to be signed of messages, trust anchors and certificate requests.

ghost use Rattle.std.specs.Prelude.{◌≡◌, ◌≢◌, Ok, Err, IfErr, IfOk};
ghost use Rattle.rpki_external.specs.Records.{records_of};
ghost use Rattle.rpki_c.specs.Calls as spec;
ghost use Rattle.rpki_c.specs.HandingOver.{HandsOver, out_of_memory};
ghost use Rattle.rpki_c.specs.Records.{unsigned_records};

use crate::arguments::{key_in, kind_in, plan_in, request_plan_in, validity_in};
use crate::handing_over::hand_over;
use crate::outcome::Outcome;
use crate::records::one_record;
use rpki_base::{PublicKey, Validity};
use rpki_ca::Kind;
use rpki_common::OutOfMemory;
use rpki_external::{
    KeysRefusal, Part, Plan, RequestPlan, message_of, prepare, prepare_anchor, prepare_request,
    push_record, tag_of,
};
use rpki_sigmsg::UnsignedMessage;
use std::alloc::Global;

// The records of what is to be signed of a message: attributes, CRL, certificate.
fn message_records(alloc: Global, unsigned: &UnsignedMessage) -> Result<Vec<u8>, OutOfMemory>
    ensures { IfOk result (λ text. text.items ≡ records_of (unsigned_records unsigned.now)) }
{
    let mut text = one_record(alloc, tag_of(Part::Attributes), unsigned.attributes())?;
    push_record(tag_of(Part::Crl), unsigned.crl(), &mut text)?;
    push_record(tag_of(Part::Certificate), unsigned.certificate(), &mut text)?;
    Ok(text)
}

// What is to be signed of the message that the text is, by a plan.
fn message_to_sign(
    alloc: Global,
    kind: Kind,
    text: &[u8],
    plan: &Plan,
) -> Result<Vec<u8>, KeysRefusal>
    ensures ok { IfOk result (λ output.
        spec.Prepares kind text.now plan.now (Ok output.items)) }
    ensures err { IfErr result (λ e. e ≢ out_of_memory
        → spec.Prepares kind text.now plan.now (Err e)) }
{
    let message = message_of(alloc, kind, text)?;
    let unsigned = prepare(alloc, message.to_xml_bytes(alloc)?, plan)?;
    Ok(message_records(alloc, &unsigned)?)
}

// What is to be signed of a message.
fn prepare_message(
    alloc: Global,
    kind: i32,
    text: &[u8],
    when: i64,
    serial: &[u8],
    issuing_key: &[u8],
    one_off_key: &[u8],
) -> Result<Vec<u8>, KeysRefusal>
    ensures ok { IfOk result (λ output. spec.PreparesIn kind text.now when serial.now
        issuing_key.now one_off_key.now (Ok output.items)) }
    ensures err { IfErr result (λ e. e ≢ out_of_memory → spec.PreparesIn kind text.now when
        serial.now issuing_key.now one_off_key.now (Err e)) }
{
    let kind = kind_in(kind)?;
    let plan = plan_in(alloc, when, serial, issuing_key, one_off_key)?;
    message_to_sign(alloc, kind, text, &plan)
}

/// What is to be signed of a signed message with the message of the protocol `kind` that `text` is (RFC 5652, 5.4): records of the
/// attributes, which the holder of the one-off key signs, and of the CRL and the certificate, which the holder of the issuing key does.
/// It is valid from 300 seconds before the moment `when` to 300 seconds after it. `serial` has twenty octets, of which the first bit
/// is 0; both keys are in DER.
///
/// Usage, XmlError, CertSyntax, InvalidCsrSyntax, Moment, TooLong, IncompatibleKey, KeyReused, OutOfMemory.
#[unsafe(no_mangle)]
pub extern "C" fn calmizsed_message_prepare(
    kind: i32,
    text: &[u8],
    when: i64,
    serial: &[u8],
    issuing_key: &[u8],
    one_off_key: &[u8],
    alloc: Global,
    out: &mut [u8],
    outcome: &mut Outcome,
) -> i32
    ensures answer { HandsOver
        (spec.PreparesIn kind text.now when serial.now issuing_key.now one_off_key.now)
        out.old out.new outcome.new }
    ensures status { result ≡ outcome.new.status }
{
    hand_over(
        prepare_message(alloc, kind, text, when, serial, issuing_key, one_off_key),
        out,
        outcome,
    )
}

// What is to be signed of a key's own certificate.
fn anchor_to_sign(
    alloc: Global,
    validity: Validity,
    key: &PublicKey,
) -> Result<Vec<u8>, KeysRefusal>
    ensures ok { IfOk result (λ output.
        spec.PreparesAnchor validity key.now (Ok output.items)) }
    ensures err { IfErr result (λ e. e ≢ out_of_memory
        → spec.PreparesAnchor validity key.now (Err e)) }
{
    let unsigned = prepare_anchor(alloc, key, validity)?;
    Ok(one_record(alloc, tag_of(Part::Anchor), unsigned.as_slice())?)
}

// What is to be signed of the own certificate of the key that the octets are.
fn prepare_own(
    alloc: Global,
    not_before: i64,
    not_after: i64,
    key: &[u8],
) -> Result<Vec<u8>, KeysRefusal>
    ensures ok { IfOk result (λ output.
        spec.PreparesAnchorIn not_before not_after key.now (Ok output.items)) }
    ensures err { IfErr result (λ e. e ≢ out_of_memory
        → spec.PreparesAnchorIn not_before not_after key.now (Err e)) }
{
    let validity = validity_in(not_before, not_after)?;
    let key = key_in(alloc, key)?;
    anchor_to_sign(alloc, validity, &key)
}

/// What is to be signed of the key's own certificate, a trust anchor's, by the holder of the key (RFC 8183, 5.1): a record. It is valid
/// from the first moment to the second.
///
/// Usage, TooLong, IncompatibleKey, OutOfMemory.
#[unsafe(no_mangle)]
pub extern "C" fn calmizsed_anchor_prepare(
    not_before: i64,
    not_after: i64,
    key: &[u8],
    alloc: Global,
    out: &mut [u8],
    outcome: &mut Outcome,
) -> i32
    ensures answer { HandsOver (spec.PreparesAnchorIn not_before not_after key.now)
        out.old out.new outcome.new }
    ensures status { result ≡ outcome.new.status }
{
    hand_over(prepare_own(alloc, not_before, not_after, key), out, outcome)
}

// What is to be signed of a certificate request by a plan.
fn request_to_sign(alloc: Global, plan: &RequestPlan) -> Result<Vec<u8>, KeysRefusal>
    ensures ok { IfOk result (λ output. spec.PreparesRequest plan.now (Ok output.items)) }
    ensures err { IfErr result (λ e. e ≢ out_of_memory
        → spec.PreparesRequest plan.now (Err e)) }
{
    let unsigned = prepare_request(alloc, plan)?;
    Ok(one_record(alloc, tag_of(Part::Request), unsigned.as_slice())?)
}

// What is to be signed of a certificate request.
fn prepare_for_key(
    alloc: Global,
    key: &[u8],
    repository: &[u8],
    manifest: &[u8],
    notify: &[u8],
) -> Result<Vec<u8>, KeysRefusal>
    ensures ok { IfOk result (λ output. spec.PreparesRequestIn key.now repository.now manifest.now
        notify.now (Ok output.items)) }
    ensures err { IfErr result (λ e. e ≢ out_of_memory
        → spec.PreparesRequestIn key.now repository.now manifest.now notify.now (Err e)) }
{
    let plan = request_plan_in(alloc, key, repository, manifest, notify)?;
    request_to_sign(alloc, &plan)
}

/// What is to be signed of a certificate request for the key, by its holder (RFC 6487, 6): a record. `repository` and `manifest` are
/// rsync URIs, and `notify` is an https URI or empty; a slash is put behind the repository where it has none.
///
/// Usage, TooLong, IncompatibleKey, OutOfMemory.
#[unsafe(no_mangle)]
pub extern "C" fn calmizsed_request_prepare(
    key: &[u8],
    repository: &[u8],
    manifest: &[u8],
    notify: &[u8],
    alloc: Global,
    out: &mut [u8],
    outcome: &mut Outcome,
) -> i32
    ensures answer { HandsOver
        (spec.PreparesRequestIn key.now repository.now manifest.now notify.now)
        out.old out.new outcome.new }
    ensures status { result ≡ outcome.new.status }
{
    hand_over(
        prepare_for_key(alloc, key, repository, manifest, notify),
        out,
        outcome,
    )
}
