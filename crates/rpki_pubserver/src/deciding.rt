//! What is decided of a query by what is known of objects (RFC 8181, 2.2 to 2.5).

ghost use Rattle.std.specs.Prelude.{◌≡◌, ◌≢◌, ◌<◌, ◌↔◌, IfErr, IfOk, IfSome, IsNone, IsTrue, Ok, OnOk, length};
ghost use Rattle.std.specs.List.{AllByRecursion};
ghost use Rattle.std.specs.Option.{option_map};
ghost use Rattle.rpki_publication.specs.Change.{IsWritableChange};
ghost use Rattle.rpki_publication.specs.Message.{IsWritable};
ghost use Rattle.rpki_publication.specs.ListReply.{IsWritableListElement};
ghost use Rattle.rpki_publication.specs.declared.message.Message.TheVariants as messages;
ghost use Rattle.rpki_publication.specs.declared.reply.Reply.TheVariants as replies;
ghost use Rattle.rpki_pubserver.specs.Changes as definitions;
ghost use Rattle.rpki_pubserver.specs.Deciding.{Agrees, AgreesOn, AreKnown, IsDecided, IsDecision, changes_of, known_objects};
ghost use Rattle.rpki_pubserver.specs.Refusals.{IsChangeRefused};
ghost use Rattle.rpki_pubserver.specs.Replies.{reply_to_delta};
ghost use Rattle.rpki_pubserver.specs.Store.{IsStore, Store};
ghost use Rattle.rpki_pubserver.specs.declared.deciding.DecideError.TheVariants as variant;

use crate::changes::{hash_of, uri_of};
use crate::known::Known;
use crate::replies::{error_of, error_reply};
use crate::told::Told;
use rpki_common::OutOfMemory;
use rpki_publication::{
    ListElement, ListReply, Message, PublishDeltaElement, Query, ReportErrorCode,
};
use rpki_text::{Hash, uri};
use std::alloc::Global;
use thiserror::Error;

/// What is decided of a query.
#[derive(Drop)]
pub struct Decision {
    /// The reply.
    pub reply: Message,
    /// Whether the changes that the query asks for are to be made: all of them, one behind the other.
    pub made: bool,
}

/// Why a query isn't decided.
#[derive(Clone, Copy, Debug, PartialEq, Eq, Error)]
pub enum DecideError {
    /// The query names a URI of which nothing is known.
    #[error("nothing is known of a URI that the query names")]
    Unknown,
    /// Memory ran out.
    #[error("out of memory")]
    OutOfMemory,
}

impl From<OutOfMemory> for DecideError {
    ghost from_gives = { λ _ e. e ≡ variant.OutOfMemory };

    fn from(_: OutOfMemory) -> DecideError {
        DecideError::OutOfMemory
    }
}

// Why an object isn't replaced or taken out that has to have this digest.
fn code_by_hash(hash: &Hash, there: Option<&Hash>) -> Option<ReportErrorCode>
    ensures { result ≡ definitions.code_by_hash hash.now (option_map (λ h. h.now) there.entry) }
{
    match there {
        None => Some(ReportErrorCode::NoObjectPresent),
        Some(digest) => {
            if digest == hash {
                None
            } else {
                Some(ReportErrorCode::NoObjectMatchingHash)
            }
        }
    }
}

// Why a change isn't made where the object with this digest is there, or none.
fn code_at(change: &PublishDeltaElement, there: Option<&Hash>) -> Option<ReportErrorCode>
    ensures { result ≡ definitions.code_at change.now (option_map (λ h. h.now) there.entry) }
{
    match change {
        PublishDeltaElement::Publish(_) => match there {
            None => None,
            Some(_) => Some(ReportErrorCode::ObjectAlreadyPresent),
        },
        PublishDeltaElement::Update(update) => code_by_hash(update.hash(), there),
        PublishDeltaElement::Withdraw(withdraw) => code_by_hash(withdraw.hash(), there),
    }
}

// Why a change isn't made where this is there.
fn code_under(
    base: &uri::Rsync,
    change: &PublishDeltaElement,
    there: Option<&Hash>,
) -> Option<ReportErrorCode>
    ensures { result
        ≡ definitions.code_under base.now change.now (option_map (λ h. h.now) there.entry) }
{
    let uri = uri_of(change).as_str();
    if !uri.as_bytes().starts_with(base.as_str().as_bytes()) {
        return Some(ReportErrorCode::PermissionFailure);
    }
    code_at(change, there)
}

/// The first change that isn't made behind those before it, by its place from 0, and why.
#[derive(Clone, Copy)]
pub(crate) struct Refused {
    pub(crate) place: usize,
    pub(crate) code: ReportErrorCode,
}

// The first change that isn't made, if there is one. What is told is then what is so behind those that are made.
fn first_refused(
    alloc: Global,
    base: &uri::Rsync,
    told: &mut Told,
    changes: &[PublishDeltaElement],
) -> Result<Option<Refused>, OutOfMemory>
    ensures none { IfOk result (λ r. IsNone r → (store : Store) → IsStore store
        → AgreesOn store told.old changes.now
        → definitions.after_all base.now (Ok store) changes.now
        ≡ Ok (definitions.all_made store changes.now)) }
    ensures some { IfOk result (λ r. IfSome r (λ refused. (store : Store) → IsStore store
        → AgreesOn store told.old changes.now
        → IsChangeRefused base.now store changes.now refused)) }
    ensures within { IfOk result (λ r. IfSome r (λ refused. refused.place < length changes.now)) }
{
    let mut place = 0;
    'deciding: while place < changes.len() {
        let change = &changes[place];
        let uri = uri_of(change).as_str();
        if let Some(code) = code_under(base, change, told.hash_at(uri)) {
            return Ok(Some(Refused { place, code }));
        }
        told.set(uri, hash_of(alloc, change)?);
        place += 1;
    }
    Ok(None)
}

/// What is decided of changes, where something is told of each URI that they name.
pub(crate) fn decision_of(
    alloc: Global,
    base: &uri::Rsync,
    told: &mut Told,
    changes: &[PublishDeltaElement],
) -> Result<Decision, OutOfMemory>
    ensures decided { IfOk result (λ d. (store : Store) → IsStore store
        → AgreesOn store told.old changes.now
        → IsDecision (reply_to_delta base.now store changes.now) store changes.now d) }
    ensures made { IfOk result (λ d. IsTrue d.made ↔ (d.reply ≡ messages.Reply replies.Success)) }
    ensures writable { AllByRecursion IsWritableChange changes.now
        → IfOk result (λ d. IsWritable d.reply) }
{
    match first_refused(alloc, base, told, changes)? {
        None => Ok(Decision {
            reply: Message::success(),
            made: true,
        }),
        Some(refused) => Ok(Decision {
            reply: error_of(alloc, &changes[refused.place], refused.code)?,
            made: false,
        }),
    }
}

// The list of the objects that are there.
fn listed(alloc: Global, known: &[Known]) -> Result<ListReply, OutOfMemory>
    ensures list { IfOk result (λ reply. reply ≡ known_objects known.now) }
    ensures writable { IfOk result (AllByRecursion IsWritableListElement) }
{
    let mut elements = Vec::new(alloc);
    for one in known {
        if let Some(hash) = one.hash() {
            let element = ListElement::new(one.uri().clone(alloc)?, *hash);
            // For the proof: a list element can be written.
            let _uri = element.uri();
            elements.push(element)?;
        }
    }
    Ok(ListReply::new(elements))
}

// What is decided of changes by what is known.
fn decide_changes(
    alloc: Global,
    base: &uri::Rsync,
    changes: &[PublishDeltaElement],
    known: &[Known],
) -> Result<Decision, DecideError>
    ensures decided { IfOk result (λ d. (store : Store) → IsStore store
        → AgreesOn store known.now changes.now
        → IsDecision (reply_to_delta base.now store changes.now) store changes.now d) }
    ensures made { IfOk result (λ d. IsTrue d.made ↔ (d.reply ≡ messages.Reply replies.Success)) }
    ensures writable { AllByRecursion IsWritableChange changes.now
        → IfOk result (λ d. IsWritable d.reply) }
    ensures known { OnOk result (AreKnown known.now changes.now) }
    ensures unknown { IfErr result (λ e. e ≢ variant.OutOfMemory
        → (e ≡ variant.Unknown) × (AreKnown known.now changes.now → ⊥)) }
{
    let mut told = Told::by(alloc, known)?;
    if !told.has_all(changes) {
        return Err(DecideError::Unknown);
    }
    Ok(decision_of(alloc, base, &mut told, changes)?)
}

/// What a publication server with this base replies to a message, and whether it makes the changes that are asked for, by what is known of
/// the objects: of those that the message's changes name, or, where it asks for the list, of all. The first that is known of a URI counts.
///
/// The message is that of a query that was received and is believed. To a reply, the reply is the error `xml_error`. So the objects can be
/// kept in any database, and a query costs as much as it names.
///
/// [`DecideError::Unknown`] comes exactly where the changes name a URI of which nothing is known.
pub fn decide(
    alloc: Global,
    base: &uri::Rsync,
    message: &Message,
    known: &[Known],
) -> Result<Decision, DecideError>
    // For every store of which what is known is so, this is what `Server` replies, and makes of it.
    ensures decided { IfOk result (λ decision. (store : Store) → IsStore store
        → Agrees store known.now message.now → IsDecided base.now store message.now decision) }

    // The changes are to be made exactly where the reply is the success.
    ensures made { IfOk result (λ decision.
        IsTrue decision.made ↔ (decision.reply ≡ messages.Reply replies.Success)) }

    // The reply to what can be written can be.
    ensures writable { IsWritable message.now → IfOk result (λ decision. IsWritable decision.reply) }

    // It is decided exactly where something is known of each URI.
    ensures known { OnOk result (AreKnown known.now (changes_of message.now)) }
    ensures unknown { IfErr result (λ e. e ≢ variant.OutOfMemory
        → (e ≡ variant.Unknown) × (AreKnown known.now (changes_of message.now) → ⊥)) }
{
    match message {
        Message::Query(Query::List) => Ok(Decision {
            reply: Message::list_reply(listed(alloc, known)?),
            made: false,
        }),
        Message::Query(Query::Delta(delta)) => decide_changes(alloc, base, delta.elements(), known),
        Message::Reply(_) => Ok(Decision {
            reply: error_reply(alloc, ReportErrorCode::XmlError)?,
            made: false,
        }),
    }
}
