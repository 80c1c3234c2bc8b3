//! Laws about messages and their octets.

ghost use Rattle.std.specs.Prelude.{◌≡◌, ◌↔◌, ◌≤◌, ◌+◌, ◌*◌, ◌++◌, ℕ, List, [], length, Some, true, codes};
ghost use Rattle.std.specs.List.{AllByRecursion};
ghost use Rattle.rpki_publication.specs.Change.{IsSmallChange};
ghost use Rattle.rpki_publication.specs.declared.message.Message.TheVariants as messages;
ghost use Rattle.rpki_publication.specs.declared.query.Query.TheVariants as queries;
ghost use Rattle.rpki_publication.specs.ListElement.{ListElementFields};
ghost use Rattle.rpki_publication.specs.Message.{Reads, text_of, IsWritable, normal_form};
ghost use Rattle.rpki_publication.specs.Publish.{PublishFields, UpdateFields, WithdrawFields};
ghost use Rattle.rpki_publication.specs.ReportError.{ReportErrorFields};
ghost use Rattle.rpki_publication.specs.ReportErrorCode.{code_of_text, code_text};
ghost use Rattle.rpki_publication.specs.declared.message.Message.{Message as Value};
ghost use Rattle.rpki_publication.specs.declared.publish_delta_element.PublishDeltaElement.{PublishDeltaElement as Change};
ghost use Rattle.rpki_publication.specs.declared.query.Query.{Query as QueryValue};
ghost use Rattle.rpki_publication.specs.declared.query_pdu.QueryPdu.{QueryPdu as Pdu};
ghost use Rattle.rpki_publication.specs.declared.query_pdu.QueryPduType.{QueryPduType as PduType};
ghost use Rattle.rpki_publication.specs.declared.reply.Reply.{Reply as ReplyValue};
ghost use Rattle.rpki_publication.specs.declared.reply.ReplyPdu.{ReplyPdu as Answer};
ghost use Rattle.rpki_publication.specs.declared.reply.ReplyPduType.{ReplyPduType as AnswerType};
ghost use Rattle.rpki_publication.specs.declared.report_error_code.ReportErrorCode.{ReportErrorCode as Code};

use crate::error_reply::ErrorReply;
use crate::list_element::ListElement;
use crate::list_reply::ListReply;
use crate::message::{CONTENT_TYPE, Message};
use crate::publish::Publish;
use crate::publish_delta::PublishDelta;
use crate::publish_delta_element::PublishDeltaElement;
use crate::query::Query;
use crate::query_pdu::{QueryPdu, QueryPduType};
use crate::reply::{Reply, ReplyPdu, ReplyPduType};
use crate::report_error::ReportError;
use crate::report_error_code::ReportErrorCode;
use crate::update::Update;
use crate::withdraw::Withdraw;

/// What is written of a writable message is read as its normal form.
pub fn written_is_read()
    ensures { (m : Value) → IsWritable m → Reads (text_of m) (normal_form m) }
{}

/// Every message that is read is writable.
pub fn read_is_writable()
    ensures { (octets : List ℕ) (m : Value) → Reads octets m → IsWritable m }
{}

/// The text of a message that was read has at most 40 octets for each octet that was read, and 1024 more. So it is never too long
/// where fewer than 2^25 were read.
pub fn read_texts_are_short()
    ensures { (octets : List ℕ) (m : Value) → Reads octets m
        → length (text_of m) ≤ 40 * length octets + 1024 }
{}

/// The normal form of a normal form is that form.
pub fn normal_form_is_normal()
    ensures { (m : Value) → normal_form (normal_form m) ≡ normal_form m }
{}

/// Octets are at most one message.
pub fn at_most_one()
    ensures { (octets : List ℕ) (m n : Value) → Reads octets m → Reads octets n → m ≡ n }
{}

/// The printed text of each code is read as that code.
pub fn printed_code_is_read()
    ensures { (c : Code) → code_of_text (code_text c) ≡ Some c }
{}

/// Changes are added as lists are: in any grouping, and no changes change nothing.
pub fn added_changes_are_lists()
    ensures grouped { (a b c : List Change) → (a ++ b) ++ c ≡ a ++ (b ++ c) }
    ensures before { (a : List Change) → [] ++ a ≡ a }
    ensures behind { (a : List Change) → a ++ [] ≡ a }
{}

/// `==` holds exactly between values that are the same.
pub fn equal_values_are_the_same()
    ensures code { (a b : Code) → (⟦<ReportErrorCode as PartialEq>⟧.eq a b ≡ true) ↔ (a ≡ b) }
    ensures publish { (a b : PublishFields) → (⟦<Publish as PartialEq>⟧.eq a b ≡ true) ↔ (a ≡ b) }
    ensures update { (a b : UpdateFields) → (⟦<Update as PartialEq>⟧.eq a b ≡ true) ↔ (a ≡ b) }
    ensures withdraw { (a b : WithdrawFields)
        → (⟦<Withdraw as PartialEq>⟧.eq a b ≡ true) ↔ (a ≡ b) }
    ensures change { (a b : Change)
        → (⟦<PublishDeltaElement as PartialEq>⟧.eq a b ≡ true) ↔ (a ≡ b) }
    ensures pdu { (a b : Pdu) → (⟦<QueryPdu as PartialEq>⟧.eq a b ≡ true) ↔ (a ≡ b) }
    ensures object { (a b : ListElementFields)
        → (⟦<ListElement as PartialEq>⟧.eq a b ≡ true) ↔ (a ≡ b) }
    ensures query_kind { (a b : PduType)
        → (⟦<QueryPduType as PartialEq>⟧.eq a b ≡ true) ↔ (a ≡ b) }
    ensures reply_kind { (a b : AnswerType)
        → (⟦<ReplyPduType as PartialEq>⟧.eq a b ≡ true) ↔ (a ≡ b) }
{}

/// `==` of errors that are reported holds exactly between equal ones.
pub fn equal_reports_are_the_same()
    ensures { (a b : ReportErrorFields)
        → (⟦<ReportError as PartialEq>⟧.eq a b ≡ true) ↔ (a ≡ b) }
{
    equal_values_are_the_same();
}

/// `==` of elements of a reply holds exactly between equal ones.
pub fn equal_reply_elements_are_the_same()
    ensures { (a b : Answer) → (⟦<ReplyPdu as PartialEq>⟧.eq a b ≡ true) ↔ (a ≡ b) }
{
    equal_values_are_the_same();
    equal_reports_are_the_same();
}

/// `==` of the three lists, of changes, of objects and of errors, holds exactly between equal ones.
pub fn equal_lists_are_the_same()
    ensures delta { (a b : List Change) → (⟦<PublishDelta as PartialEq>⟧.eq a b ≡ true) ↔ (a ≡ b) }
    ensures list { (a b : List ListElementFields)
        → (⟦<ListReply as PartialEq>⟧.eq a b ≡ true) ↔ (a ≡ b) }
    ensures errors { (a b : List ReportErrorFields)
        → (⟦<ErrorReply as PartialEq>⟧.eq a b ≡ true) ↔ (a ≡ b) }
{
    equal_values_are_the_same();
    equal_reports_are_the_same();
}

/// `==` of messages, and of queries and replies, holds exactly between equal ones.
pub fn equal_messages_are_the_same()
    ensures query { (a b : QueryValue) → (⟦<Query as PartialEq>⟧.eq a b ≡ true) ↔ (a ≡ b) }
    ensures reply { (a b : ReplyValue) → (⟦<Reply as PartialEq>⟧.eq a b ≡ true) ↔ (a ≡ b) }
    ensures message { (a b : Value) → (⟦<Message as PartialEq>⟧.eq a b ≡ true) ↔ (a ≡ b) }
{
    equal_lists_are_the_same();
}

/// The media type is that of the protocol (RFC 8181, 2).
pub fn content_type_is()
    ensures { CONTENT_TYPE.now ≡ codes "application/rpki-publication" }
{}

/// The text of a query of small changes has at most 1300 octets for each of them, and 200 more.
pub fn small_deltas_are_short()
    ensures { (changes : List Change) → AllByRecursion IsSmallChange changes
        → length (text_of (messages.Query (queries.Delta changes))) ≤ 200 + 1300 * length changes }
{}
