//! What a publication server replies, by what is known of the objects that a query names.

ghost use Rattle.std.specs.Prelude.{◌≡◌, ◌≢◌, ◌∷◌, [], Ok, Err, IfErr, IfOk};
ghost use Rattle.rpki_ca.specs.declared.receiving.Kind.TheVariants as kinds;
ghost use Rattle.rpki_external.specs.Records.{records_of};
ghost use Rattle.rpki_external.specs.Running.{RefusesText};
ghost use Rattle.rpki_publication.specs.Message.{Reads, text_of};
ghost use Rattle.rpki_pubserver.specs.Deciding.{AreKnown, changes_of};
ghost use Rattle.rpki_pubserver.specs.Messages.{error_alone};
ghost use Rattle.rpki_c.specs.Arguments.{IsUnread, usage};
ghost use Rattle.rpki_c.specs.Deciding as spec;
ghost use Rattle.rpki_c.specs.HandingOver.{HandsDecisionOver, HandsOver, out_of_memory};
ghost use Rattle.rpki_c.specs.declared.outcome.CallRefusal.TheVariants as calls;

use crate::arguments::{USAGE, rsync_in};
use crate::handing_over::{hand_decision_over, hand_over};
use crate::known::known_in;
use crate::outcome::{CallRefusal, Outcome};
use crate::records::one_record;
use rpki_ca::{Kind, Received};
use rpki_common::OutOfMemory;
use rpki_external::{KeysRefusal, message_of};
use rpki_publication::{Message, ReportErrorCode};
use rpki_pubserver::{DecideError, Decision, Known, decide, error_reply};
use rpki_text::uri::Rsync;
use std::alloc::Global;

// A reply behind which no changes are made.
const UNCHANGED: u8 = 20;

// A reply behind which all changes are made that the query asks for.
const CHANGED: u8 = 21;

// The message of the publication protocol that the text is.
fn query_in(alloc: Global, text: &[u8]) -> Result<Message, KeysRefusal>
    ensures ok { IfOk result (Reads text.now) }
    ensures err { IfErr result (λ e. e ≢ out_of_memory
        → RefusesText kinds.Publication text.now e) }
{
    let Received::Publication(message) = message_of(alloc, Kind::Publication, text)? else {
        unreachable!()
    };
    Ok(message)
}

// The record of a decision.
fn decision_record(alloc: Global, decision: &Decision) -> Result<Vec<u8>, OutOfMemory>
    ensures { IfOk result (λ text.
        text.items ≡ records_of (spec.decision_record decision.now ∷ [])) }
{
    let text = decision.reply.text_vec(alloc)?;
    let tag = if decision.made { CHANGED } else { UNCHANGED };
    one_record(alloc, tag, &text)
}

// The record of what is decided of a message by what is known.
fn decided(
    alloc: Global,
    base: &Rsync,
    message: &Message,
    known: &[Known],
) -> Result<Vec<u8>, CallRefusal>
    ensures ok { IfOk result (λ text.
        spec.DecidesSo base.now known.now message.now text.items) }
    ensures err { IfErr result (λ e. e ≢ calls.General out_of_memory
        → (e ≡ calls.UnknownObject) × (AreKnown known.now (changes_of message.now) → ⊥)) }
{
    match decide(alloc, base, message, known) {
        Ok(decision) => match decision_record(alloc, &decision) {
            Ok(text) => Ok(text),
            Err(_) => Err(CallRefusal::General(KeysRefusal::from(OutOfMemory))),
        },
        Err(DecideError::Unknown) => Err(CallRefusal::UnknownObject),
        Err(DecideError::OutOfMemory) => {
            Err(CallRefusal::General(KeysRefusal::from(OutOfMemory)))
        }
    }
}

// What is decided of the message that the text is.
fn decide_text(
    alloc: Global,
    base: &Rsync,
    text: &[u8],
    known: &[Known],
) -> Result<Vec<u8>, CallRefusal>
    ensures ok { IfOk result (λ output.
        spec.Decides text.now base.now known.now (Ok output.items)) }
    ensures err { IfErr result (λ e. e ≢ calls.General out_of_memory
        → spec.Decides text.now base.now known.now (Err e)) }
{
    match query_in(alloc, text) {
        Ok(message) => decided(alloc, base, &message, known),
        Err(refusal) => Err(CallRefusal::General(refusal)),
    }
}

// What is decided of the message that the text is, by what is known.
fn decide_by(alloc: Global, base: &Rsync, text: &[u8], known: &[u8]) -> Result<Vec<u8>, CallRefusal>
    ensures ok { IfOk result (λ output. spec.DecidesBy text.now known.now base.now (Ok output.items)) }
    ensures err { IfErr result (λ e. e ≢ calls.General out_of_memory
        → spec.DecidesBy text.now known.now base.now (Err e)) }
{
    match known_in(alloc, known) {
        Ok(known) => decide_text(alloc, base, text, &known),
        Err(refusal) => Err(CallRefusal::General(refusal)),
    }
}

// What is decided of a query.
fn decide_query(
    alloc: Global,
    base: &[u8],
    query: &[u8],
    known: &[u8],
) -> Result<Vec<u8>, CallRefusal>
    ensures ok { IfOk result (λ output.
        spec.DecidesIn base.now query.now known.now (Ok output.items)) }
    ensures err { IfErr result (λ e. e ≢ calls.General out_of_memory
        → spec.DecidesIn base.now query.now known.now (Err e)) }
{
    match rsync_in(alloc, base) {
        Ok(base) => decide_by(alloc, &base, query, known),
        Err(refusal) => Err(CallRefusal::General(refusal)),
    }
}

/// What a publication server replies to the message of the publication protocol that `query` is, a document of XML (RFC 8181, 2.2 to
/// 2.5), whose publisher's objects lie under the rsync URI `base`: one record, with tag 20 the text of a reply behind which no object is
/// changed, and with 21 that of a reply behind which all changes are to be made that the query asks for, or none where that fails. The
/// query has been received and is believed.
///
/// `known` is what is known of the objects: of each that the query changes, or, where it asks for the list, of all. These are records
/// too: with tag 22 the 32 octets of the SHA-256 of an object that is there, and behind them its rsync URI; with 23 the rsync URI of an
/// object that isn't there. The first record of a URI counts.
///
/// Usage, XmlError, UnknownObject where nothing is known of an object that the query changes, OutOfMemory.
#[unsafe(no_mangle)]
pub extern "C" fn calmizsed_publication_decide(
    base: &[u8],
    query: &[u8],
    known: &[u8],
    alloc: Global,
    out: &mut [u8],
    outcome: &mut Outcome,
) -> i32
    ensures answer { HandsDecisionOver (spec.DecidesIn base.now query.now known.now)
        out.old out.new outcome.new }
    ensures status { result ≡ outcome.new.status }
{
    hand_decision_over(decide_query(alloc, base, query, known), out, outcome)
}

// The error that is replied to a message that was refused with this status.
fn error_in(status: i32) -> Result<ReportErrorCode, KeysRefusal>
    ensures ok { IfOk result (spec.IsErrorTo status) }
    ensures err { IfErr result (λ e. (e ≡ usage) × IsUnread (spec.IsErrorTo status)) }
{
    match status {
        4 | 6 => Ok(ReportErrorCode::BadCmsSignature),
        5 => Ok(ReportErrorCode::XmlError),
        _ => Err(USAGE),
    }
}

// The text of the reply with one error that is of no change.
fn error_text(alloc: Global, code: ReportErrorCode) -> Result<Vec<u8>, OutOfMemory>
    ensures { IfOk result (λ text. text.items ≡ text_of (error_alone code)) }
{
    let reply = error_reply(alloc, code)?;
    reply.text_vec(alloc)
}

// The text of the reply to a message that was refused.
fn refuse(alloc: Global, status: i32) -> Result<Vec<u8>, KeysRefusal>
    ensures ok { IfOk result (λ text. spec.RefusesBy status (Ok text.items)) }
    ensures err { IfErr result (λ e. e ≢ out_of_memory → spec.RefusesBy status (Err e)) }
{
    let code = error_in(status)?;
    Ok(error_text(alloc, code)?)
}

/// What a publication server replies, a document of XML, to a message that `message_receive` refused with this status (RFC 8181, 2.5):
/// the error bad_cms_signature to 4, CmsDecode, and 6, Validation; and xml_error to 5, where there is no message of the protocol. To no
/// other status there is such a reply.
///
/// Usage, OutOfMemory.
#[unsafe(no_mangle)]
pub extern "C" fn calmizsed_publication_refuse(
    status: i32,
    alloc: Global,
    out: &mut [u8],
    outcome: &mut Outcome,
) -> i32
    ensures answer { HandsOver (spec.RefusesIn status) out.old out.new outcome.new }
    ensures status { result ≡ outcome.new.status }
{
    hand_over(refuse(alloc, status), out, outcome)
}
