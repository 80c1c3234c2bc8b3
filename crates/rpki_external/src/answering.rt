//! What is answered to an input.

ghost use Rattle.std.specs.Prelude.{◌≡◌, ◌≢◌, ◌≤◌, Ok, Err, IfErr, IfOk, length};
ghost use Rattle.rpki_common.specs.Limits.{most_keys};
ghost use Rattle.rpki_ca.specs.Acceptance.{ReadsAs, IsWritable, accepted_text};
ghost use Rattle.rpki_ca.specs.Creation.{RefusesInput};
ghost use Rattle.rpki_ca.specs.Hexadecimal.{hexadecimal};
ghost use Rattle.rpki_ca.specs.declared.receiving.Received.{Received as ReceivedOf};
ghost use Rattle.rpki_ca.specs.declared.refusals.Refusal.TheVariants as refusals;
ghost use Rattle.rpki_external.specs.Running as spec;
ghost use Rattle.rpki_external.specs.Verifying.{BeginsRequest};
ghost use Rattle.rpki_external.specs.declared.keys_refusal.KeysRefusal.TheVariants as variant;

use crate::answers::Answers;
use crate::asked::{questions, request_questions};
use crate::inspecting::inspect;
use crate::keys_refusal::KeysRefusal;
use crate::output::{asked_lines, digits_line, lines_to_sign, named_line, receipt_lines};
use crate::preparing::{Plan, PrepareError, Signatures, finish, prepare};
use crate::preparing_anchors::{finish_anchor, prepare_anchor};
use crate::preparing_requests::{RequestPlan, finish_request, prepare_request};
use crate::receiving::{AnsweredError, receive_answered};
use crate::setting_up::{SetupError, setup_answered, setup_questions};
use crate::verifying::{VerifyError, checks_answered, request_answered};
use bytes::Bytes;
use rpki_base::{PublicKey, Time, Validity};
use rpki_ca::{
    Kind, Received, Refusal, SetupKind, hexadecimal_line, input_octets, line_of, message_in,
};
use rpki_cert::RpkiCaCsr;
use rpki_der::{DecodeError, Writer};
use rpki_provisioning::Payload;
use std::alloc::Global;

impl From<PrepareError> for KeysRefusal {
    ghost use Rattle.rpki_external.specs.Running.{refusal_of_prepare};

    ghost from_gives = { λ error refusal. refusal ≡ refusal_of_prepare error };

    fn from(error: PrepareError) -> KeysRefusal {
        KeysRefusal::General(match error {
            PrepareError::Moment => Refusal::Moment,
            PrepareError::TooLong => Refusal::TooLong,
            PrepareError::IncompatibleKey => Refusal::IncompatibleKey,
            PrepareError::KeyReused => Refusal::KeyReused,
            PrepareError::Uri(_) => Refusal::Usage,
            PrepareError::OutOfMemory => Refusal::OutOfMemory,
        })
    }
}

impl From<AnsweredError> for KeysRefusal {
    ghost use Rattle.rpki_external.specs.Running.{refusal_of_answered};

    ghost from_gives = { λ error refusal. refusal ≡ refusal_of_answered error };

    fn from(error: AnsweredError) -> KeysRefusal {
        match error {
            AnsweredError::OtherQuestions => KeysRefusal::OtherQuestions,
            AnsweredError::Number => KeysRefusal::General(Refusal::Usage),
            AnsweredError::Receive(error) => KeysRefusal::General(Refusal::from(error)),
            AnsweredError::NoTime => KeysRefusal::NoTime,
            AnsweredError::Replayed { last, seen } => KeysRefusal::Replayed { last, seen },
        }
    }
}

impl From<VerifyError> for KeysRefusal {
    ghost use Rattle.rpki_external.specs.Running.{refusal_of_verify};

    ghost from_gives = { λ error refusal. refusal ≡ refusal_of_verify error };

    fn from(error: VerifyError) -> KeysRefusal {
        match error {
            VerifyError::OtherQuestions => KeysRefusal::OtherQuestions,
            VerifyError::Number => KeysRefusal::General(Refusal::Usage),
            VerifyError::Validation(_) => KeysRefusal::General(Refusal::InvalidTaCert),
            VerifyError::Signature => KeysRefusal::Signature,
            VerifyError::OutOfMemory => KeysRefusal::General(Refusal::OutOfMemory),
        }
    }
}

impl From<SetupError> for KeysRefusal {
    ghost use Rattle.rpki_external.specs.Running.{refusal_of_setup_error};

    ghost from_gives = { λ error refusal. refusal ≡ refusal_of_setup_error error };

    fn from(error: SetupError) -> KeysRefusal {
        match error {
            SetupError::XmlError => KeysRefusal::General(Refusal::XmlError),
            SetupError::InvalidTaCertEncoding => {
                KeysRefusal::General(Refusal::InvalidTaCertEncoding)
            }
            SetupError::Verify(error) => KeysRefusal::from(error),
            SetupError::OutOfMemory => KeysRefusal::General(Refusal::OutOfMemory),
        }
    }
}

/// How it is answered that octets begin with no signed message: `CmsDecode`, or that memory ran out.
pub fn no_message(error: DecodeError) -> KeysRefusal
    ensures { result ≡ spec.refusal_of_no_message error }
{
    match error {
        DecodeError::Malformed => KeysRefusal::General(Refusal::CmsDecode),
        DecodeError::OutOfMemory => KeysRefusal::General(Refusal::OutOfMemory),
    }
}

/// `questions message`: the lines of the questions of a signed message.
pub(crate) fn ask_message(
    alloc: Global,
    octets: &[u8],
    keys: &[PublicKey],
) -> Result<Vec<u8>, KeysRefusal>
    ensures ok { IfOk result (λ output.
        spec.IsQuestionsAnswer octets.now keys.now (Ok output.items)) }
    ensures err { IfErr result (λ e. e ≢ variant.General refusals.OutOfMemory
        → spec.IsQuestionsAnswer octets.now keys.now (Err e)) }
{
    match questions(alloc, octets, keys) {
        Ok(questions) => Ok(asked_lines(alloc, &questions)?),
        Err(error) => Err(no_message(error)),
    }
}

/// `questions setup`: the lines of the questions of the certificate in a setup message.
pub(crate) fn ask_setup(
    alloc: Global,
    input: &[u8],
    kind: SetupKind,
) -> Result<Vec<u8>, KeysRefusal>
    ensures ok { IfOk result (λ output.
        spec.IsSetupQuestionsAnswer kind input.now (Ok output.items)) }
    ensures err { IfErr result (λ e. e ≢ variant.General refusals.OutOfMemory
        → spec.IsSetupQuestionsAnswer kind input.now (Err e)) }
{
    let questions = setup_questions(alloc, kind, input)?;
    Ok(asked_lines(alloc, &questions)?)
}

/// The certificate request with which the octets begin, in DER (RFC 6487, 6). `InvalidCsrSyntax` where they begin with none.
pub fn request_at(alloc: Global, octets: &[u8]) -> Result<RpkiCaCsr, KeysRefusal>
    ensures ok { IfOk result (BeginsRequest octets.now) }
    ensures err { IfErr result (λ e. e ≢ variant.General refusals.OutOfMemory
        → (e ≡ variant.General refusals.InvalidCsrSyntax) × spec.HoldsNoRequestAtAll octets.now) }
{
    match RpkiCaCsr::decode(alloc, octets) {
        Ok(request) => Ok(request),
        Err(DecodeError::Malformed) => Err(KeysRefusal::General(Refusal::InvalidCsrSyntax)),
        Err(DecodeError::OutOfMemory) => Err(KeysRefusal::General(Refusal::OutOfMemory)),
    }
}

/// `questions request`: the line of the question of a certificate request.
pub(crate) fn ask_request(alloc: Global, octets: &[u8]) -> Result<Vec<u8>, KeysRefusal>
    ensures ok { IfOk result (λ output.
        spec.IsRequestQuestionsAnswer octets.now (Ok output.items)) }
    ensures err { IfErr result (λ e. e ≢ variant.General refusals.OutOfMemory
        → spec.IsRequestQuestionsAnswer octets.now (Err e)) }
{
    let request = request_at(alloc, octets)?;
    let questions = request_questions(alloc, &request)?;
    Ok(asked_lines(alloc, &questions)?)
}

// The request in a message of the provisioning protocol, if it is an issue request.
fn request_of(alloc: Global, message: &Received) -> Result<RpkiCaCsr, KeysRefusal>
    ensures ok { IfOk result (spec.HoldsRequest message.now) }
    ensures err { IfErr result (λ e. e ≢ variant.General refusals.OutOfMemory
        → (e ≡ variant.General refusals.XmlError) × spec.HoldsNoRequestToIssue message.now) }
{
    let Received::Provisioning(message) = message else {
        return Err(KeysRefusal::General(Refusal::XmlError));
    };
    match message.payload() {
        Payload::Issue(request) => Ok(request.csr().clone(alloc)?),
        _ => Err(KeysRefusal::General(Refusal::XmlError)),
    }
}

/// The certificate request in the issue request of the provisioning protocol that the input is, in XML (RFC 6492, 3.4.1). `XmlError` where it
/// is none, and what [`message_of`] refuses.
pub fn request_in(alloc: Global, input: &[u8]) -> Result<RpkiCaCsr, KeysRefusal>
    ensures ok { IfOk result (spec.AsksToIssue input.now) }
    ensures err { IfErr result (λ e. e ≢ variant.General refusals.OutOfMemory
        → spec.RefusesIssue input.now e) }
{
    let message = message_of(alloc, Kind::Provisioning, input)?;
    request_of(alloc, &message)
}

/// `questions issue`: the line of the question of the certificate request in an issue request.
pub(crate) fn ask_issue(alloc: Global, input: &[u8]) -> Result<Vec<u8>, KeysRefusal>
    ensures ok { IfOk result (λ output. spec.IsIssueQuestionsAnswer input.now (Ok output.items)) }
    ensures err { IfErr result (λ e. e ≢ variant.General refusals.OutOfMemory
        → spec.IsIssueQuestionsAnswer input.now (Err e)) }
{
    let request = request_in(alloc, input)?;
    let questions = request_questions(alloc, &request)?;
    Ok(asked_lines(alloc, &questions)?)
}

/// `receive`: the line of the receipt of a signed message, and its message on a line.
pub(crate) fn receive(
    alloc: Global,
    octets: &[u8],
    kind: Kind,
    keys: &[PublicKey],
    when: Time,
    last: Option<Time>,
    answers: &Answers,
) -> Result<Vec<u8>, KeysRefusal>
    requires some { 1 ≤ length keys.now }
    requires few { length keys.now ≤ most_keys }
    ensures ok { IfOk result (λ output.
        spec.IsReceiveAnswer kind octets.now keys.now when last answers.now (Ok output.items)) }
    ensures err { IfErr result (λ e. e ≢ variant.General refusals.OutOfMemory
        → spec.IsReceiveAnswer kind octets.now keys.now when last answers.now (Err e)) }
{
    let receipt = receive_answered(alloc, kind, octets, keys, when, answers, last)?;
    Ok(receipt_lines(alloc, &receipt)?)
}

/// `explain`: a digit for each check of a signed message.
pub(crate) fn explain(
    alloc: Global,
    octets: &[u8],
    key: &PublicKey,
    when: Time,
    answers: &Answers,
) -> Result<Vec<u8>, KeysRefusal>
    ensures ok { IfOk result (λ output.
        spec.IsExplainAnswer octets.now key.now when answers.now (Ok output.items)) }
    ensures err { IfErr result (λ e. e ≢ variant.General refusals.OutOfMemory
        → spec.IsExplainAnswer octets.now key.now when answers.now (Err e)) }
{
    let checks = checks_answered(alloc, octets, key, when, answers)?;
    Ok(digits_line(alloc, &checks)?)
}

/// `inspect`: what is in a signed message, on a line.
pub(crate) fn inspect_message(alloc: Global, octets: &[u8]) -> Result<Vec<u8>, KeysRefusal>
    ensures ok { IfOk result (λ output. spec.IsInspectAnswer octets.now (Ok output.items)) }
    ensures err { IfErr result (λ e. e ≢ variant.General refusals.OutOfMemory
        → spec.IsInspectAnswer octets.now (Err e)) }
{
    match inspect(alloc, octets) {
        Ok(text) => Ok(line_of(text.into_bytes())?),
        Err(error) => Err(no_message(error)),
    }
}

/// `setup`: the text of a setup message whose certificate is verified, on a line.
pub(crate) fn set_up(
    alloc: Global,
    input: &[u8],
    kind: SetupKind,
    when: Time,
    answers: &Answers,
) -> Result<Vec<u8>, KeysRefusal>
    ensures ok { IfOk result (λ output.
        spec.IsSetupWritten kind input.now when answers.now (Ok output.items)) }
    ensures err { IfErr result (λ e. e ≢ variant.General refusals.OutOfMemory
        → spec.IsSetupWritten kind input.now when answers.now (Err e)) }
{
    let message = setup_answered(alloc, kind, input, when, answers)?;
    Ok(line_of(message.to_xml_vec(alloc)?)?)
}

// The key of a request that is verified, on a line.
fn verify(alloc: Global, request: &RpkiCaCsr, answers: &Answers) -> Result<Vec<u8>, KeysRefusal>
    ensures ok { IfOk result (λ output.
        spec.IsVerifiedAnswer request.now answers.now (Ok output.items)) }
    ensures err { IfErr result (λ e. e ≢ variant.General refusals.OutOfMemory
        → spec.IsVerifiedAnswer request.now answers.now (Err e)) }
{
    request_answered(alloc, request, answers)?;
    let mut key = Writer::new(alloc);
    request.public_key().encode_ref(&mut key)?;
    Ok(hexadecimal_line(alloc, key.as_slice())?)
}

/// `request`: the key of a certificate request that is verified, on a line.
pub(crate) fn verify_request(
    alloc: Global,
    octets: &[u8],
    answers: &Answers,
) -> Result<Vec<u8>, KeysRefusal>
    ensures ok { IfOk result (λ output.
        spec.IsRequestAnswer octets.now answers.now (Ok output.items)) }
    ensures err { IfErr result (λ e. e ≢ variant.General refusals.OutOfMemory
        → spec.IsRequestAnswer octets.now answers.now (Err e)) }
{
    let request = request_at(alloc, octets)?;
    verify(alloc, &request, answers)
}

/// `issue`: the key of the certificate request in an issue request, if it is verified, on a line.
pub(crate) fn verify_issue(
    alloc: Global,
    input: &[u8],
    answers: &Answers,
) -> Result<Vec<u8>, KeysRefusal>
    ensures ok { IfOk result (λ output.
        spec.IsIssueAnswer input.now answers.now (Ok output.items)) }
    ensures err { IfErr result (λ e. e ≢ variant.General refusals.OutOfMemory
        → spec.IsIssueAnswer input.now answers.now (Err e)) }
{
    let request = request_in(alloc, input)?;
    verify(alloc, &request, answers)
}

/// The message of this protocol that the input is, in XML. `XmlError`, `CertSyntax` or `InvalidCsrSyntax` where it is none.
pub fn message_of(alloc: Global, kind: Kind, input: &[u8]) -> Result<Received, KeysRefusal>
    ensures ok { IfOk result (ReadsAs kind input.now) }
    ensures writable { IfOk result IsWritable }
    ensures err { IfErr result (λ e. e ≢ variant.General refusals.OutOfMemory
        → spec.RefusesText kind input.now e) }
{
    match message_in(alloc, kind, input) {
        Ok(message) => Ok(message),
        Err(error) => Err(KeysRefusal::General(Refusal::from(error))),
    }
}

// The text of the message of this kind that the input reads as.
fn text_in(alloc: Global, kind: Kind, input: &[u8]) -> Result<Bytes, KeysRefusal>
    ensures ok { IfOk result (λ text. (m : ReceivedOf) × ReadsAs kind input.now m
        × IsWritable m × (text ≡ accepted_text m)) }
    ensures err { IfErr result (λ e. e ≢ variant.General refusals.OutOfMemory
        → spec.RefusesText kind input.now e) }
{
    let message = message_of(alloc, kind, input)?;
    Ok(message.to_xml_bytes(alloc)?)
}

/// `prepare message`: the lines of what is to be signed of the message that the input is.
pub(crate) fn prepare_message(
    alloc: Global,
    input: &[u8],
    kind: Kind,
    plan: &Plan,
) -> Result<Vec<u8>, KeysRefusal>
    ensures ok { IfOk result (λ output.
        spec.IsPrepareAnswer kind input.now plan.now (Ok output.items)) }
    ensures err { IfErr result (λ e. e ≢ variant.General refusals.OutOfMemory
        → spec.IsPrepareAnswer kind input.now plan.now (Err e)) }
{
    let text = text_in(alloc, kind, input)?;
    let unsigned = prepare(alloc, text, plan)?;
    Ok(lines_to_sign(alloc, &unsigned)?)
}

/// `finish message`: the line of the signed message with the message that the input is, and these signatures.
pub(crate) fn finish_message(
    alloc: Global,
    input: &[u8],
    kind: Kind,
    plan: &Plan,
    signatures: Signatures,
) -> Result<Vec<u8>, KeysRefusal>
    ensures ok { IfOk result (λ output.
        spec.IsFinishAnswer kind input.now plan.now signatures (Ok output.items)) }
    ensures err { IfErr result (λ e. e ≢ variant.General refusals.OutOfMemory
        → spec.IsFinishAnswer kind input.now plan.now signatures (Err e)) }
{
    let text = text_in(alloc, kind, input)?;
    let message = finish(alloc, text, plan, signatures)?;
    let octets = message.to_captured(alloc)?;
    Ok(hexadecimal_line(alloc, octets.as_slice())?)
}

/// `prepare anchor`: the line of what is to be signed of a key's own certificate.
pub(crate) fn prepare_anchor_line(
    alloc: Global,
    validity: Validity,
    key: &PublicKey,
) -> Result<Vec<u8>, KeysRefusal>
    ensures ok { IfOk result (λ output.
        spec.IsPrepareAnchorAnswer validity key.now (Ok output.items)) }
    ensures err { IfErr result (λ e. e ≢ variant.General refusals.OutOfMemory
        → spec.IsPrepareAnchorAnswer validity key.now (Err e)) }
{
    let unsigned = prepare_anchor(alloc, key, validity)?;
    Ok(named_line(alloc, "anchor", unsigned.as_slice())?)
}

/// `finish anchor`: the line of a key's own certificate with this signature.
pub(crate) fn finish_anchor_line(
    alloc: Global,
    validity: Validity,
    key: &PublicKey,
    signature: Bytes,
) -> Result<Vec<u8>, KeysRefusal>
    ensures ok { IfOk result (λ output.
        spec.IsFinishAnchorAnswer validity key.now signature (Ok output.items)) }
    ensures err { IfErr result (λ e. e ≢ variant.General refusals.OutOfMemory
        → spec.IsFinishAnchorAnswer validity key.now signature (Err e)) }
{
    let certificate = finish_anchor(alloc, key, validity, signature)?;
    let octets = certificate.to_captured(alloc)?;
    Ok(hexadecimal_line(alloc, octets.as_slice())?)
}

/// `prepare request`: the line of what is to be signed of a certificate request.
pub(crate) fn prepare_request_line(
    alloc: Global,
    plan: &RequestPlan,
) -> Result<Vec<u8>, KeysRefusal>
    ensures ok { IfOk result (λ output. spec.IsPrepareRequestAnswer plan.now (Ok output.items)) }
    ensures err { IfErr result (λ e. e ≢ variant.General refusals.OutOfMemory
        → spec.IsPrepareRequestAnswer plan.now (Err e)) }
{
    let unsigned = prepare_request(alloc, plan)?;
    Ok(named_line(alloc, "request", unsigned.as_slice())?)
}

/// `finish request`: the line of a certificate request with this signature.
pub(crate) fn finish_request_line(
    alloc: Global,
    plan: &RequestPlan,
    signature: Bytes,
) -> Result<Vec<u8>, KeysRefusal>
    ensures ok { IfOk result (λ output.
        spec.IsFinishRequestAnswer plan.now signature (Ok output.items)) }
    ensures err { IfErr result (λ e. e ≢ variant.General refusals.OutOfMemory
        → spec.IsFinishRequestAnswer plan.now signature (Err e)) }
{
    let octets = finish_request(alloc, plan, signature)?;
    Ok(hexadecimal_line(alloc, octets.as_slice())?)
}
