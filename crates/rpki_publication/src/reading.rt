//! Elements are read as messages, by the tables of specs/.

ghost use Rattle.std.specs.Prelude.{◌≡◌, Some, None};
ghost use Rattle.std.specs.Option.{option_map};
ghost use Rattle.rpki_publication.specs.Change.{publish_in, withdraw_in, change_in, list_query_in, query_pdu_in, published};
ghost use Rattle.rpki_publication.specs.ListReply.{list_element_in};
ghost use Rattle.rpki_publication.specs.Message.{query_in, reply_in, body_in, type_in, message_of, success_in};
ghost use Rattle.rpki_publication.specs.ReportError.{report_error_in};
ghost use Rattle.rpki_xml.specs.Answers.{Gives, Matches};
ghost use Rattle.rpki_xml.specs.Tables.{each_of};

use crate::attributes::{query_attributes_in, reply_attributes_in};
use crate::details::details_in;
use crate::empty_values::EmptyValues;
use crate::error_reply::ErrorReply;
use crate::list_element::ListElement;
use crate::list_reply::ListReply;
use crate::message::Message;
use crate::publish::Publish;
use crate::publish_delta::PublishDelta;
use crate::publish_delta_element::PublishDeltaElement;
use crate::query::Query;
use crate::query_pdu::QueryPdu;
use crate::reply::Reply;
use crate::report_error::ReportError;
use crate::update::Update;
use crate::withdraw::Withdraw;
use rpki_common::Text;
use rpki_text::{Base64, Hash, uri};
use rpki_xml::{Children, ElementRef, Mismatch, XmlError, require};
use rpki_xmltext::handed_out;
use std::alloc::Global;

// What has to be there.
fn there<T>(found: Option<T>) -> Result<T, Mismatch>
    ensures { Matches found (λ x. x) result }
{
    match found {
        None => Err(Mismatch),
        Some(x) => Ok(x),
    }
}

// How many elements there are. A list that is made for so many never grows.
fn count_of(children: Children<'_>) -> usize {
    let mut count = 0usize;
    for _child in children {
        count = count.saturating_add(1);
    }
    count
}

// ---- elements of a query

// What is published, where nothing was or in another object's place.
fn published(
    tag: Option<Text>,
    uri: uri::Rsync,
    content: Base64,
    hash: Option<Hash>,
) -> PublishDeltaElement
    ensures { result ≡ published tag uri content hash }
{
    let tag = handed_out(tag);
    match hash {
        None => PublishDeltaElement::Publish(Publish::new(tag, uri, content)),
        Some(hash) => PublishDeltaElement::Update(Update::new(tag, uri, content, hash)),
    }
}

fn publish_in(
    alloc: Global,
    empty: &EmptyValues,
    e: &ElementRef<'_>,
) -> Result<PublishDeltaElement, XmlError>
    ensures { Gives (publish_in e.now) (λ c. c) result }
{
    require(e.is_named("publish"))?;
    require(e.is_childless())?;
    let a = query_attributes_in(alloc, empty, e)?;
    let uri = there(a.uri)?;
    let content = empty.content_of(alloc, e.text())?;
    Ok(published(a.tag, uri, content, a.hash))
}

fn withdraw_in(
    alloc: Global,
    empty: &EmptyValues,
    e: &ElementRef<'_>,
) -> Result<PublishDeltaElement, XmlError>
    ensures { Gives (withdraw_in e.now) (λ c. c) result }
{
    require(e.is_named("withdraw"))?;
    require(e.is_empty())?;
    let a = query_attributes_in(alloc, empty, e)?;
    let uri = there(a.uri)?;
    let hash = there(a.hash)?;
    let withdraw = Withdraw::new(handed_out(a.tag), uri, hash);
    Ok(PublishDeltaElement::Withdraw(withdraw))
}

fn change_in(
    alloc: Global,
    empty: &EmptyValues,
    e: &ElementRef<'_>,
) -> Result<PublishDeltaElement, XmlError>
    ensures { Gives (change_in e.now) (λ c. c) result }
{
    if e.is_named("publish") {
        return publish_in(alloc, empty, e);
    }
    withdraw_in(alloc, empty, e)
}

fn list_query_in(alloc: Global, empty: &EmptyValues, e: &ElementRef<'_>) -> Result<(), XmlError>
    ensures { Gives (list_query_in e.now) (λ _. tt) result }
{
    require(e.is_named("list"))?;
    require(e.is_empty())?;
    let _query_attributes = query_attributes_in(alloc, empty, e)?;
    Ok(())
}

/// An element of a query.
pub(crate) fn query_pdu_in(
    alloc: Global,
    empty: &EmptyValues,
    e: &ElementRef<'_>,
) -> Result<QueryPdu, XmlError>
    ensures { Gives (query_pdu_in e.now) (λ pdu. pdu) result }
{
    if e.is_named("list") {
        list_query_in(alloc, empty, e)?;
        return Ok(QueryPdu::List);
    }
    Ok(QueryPdu::PublishDeltaElement(change_in(alloc, empty, e)?))
}

fn changes_in(
    alloc: Global,
    empty: &EmptyValues,
    root: &ElementRef<'_>,
) -> Result<Vec<PublishDeltaElement>, XmlError>
    ensures { Gives (each_of change_in root.now.children) (λ v. v.items) result }
{
    let mut changes = Vec::with_capacity(alloc, count_of(root.children()))?;
    let mut children = root.children();
    'elements: while let Some(e) = children.next() {
        let change = change_in(alloc, empty, &e)?;
        changes.push(change)?;
    }
    Ok(changes)
}

fn query_in(alloc: Global, empty: &EmptyValues, root: &ElementRef<'_>) -> Result<Query, XmlError>
    ensures { Gives (query_in root.now.children) (λ q. q) result }
{
    if root.children().is_first_named("list") {
        let e = root.children().the_one()?;
        list_query_in(alloc, empty, &e)?;
        return Ok(Query::List);
    }
    let changes = changes_in(alloc, empty, root)?;
    Ok(Query::Delta(PublishDelta::of(changes)))
}

// ---- elements of a reply

fn list_element_in(
    alloc: Global,
    empty: &EmptyValues,
    e: &ElementRef<'_>,
) -> Result<ListElement, XmlError>
    ensures { Gives (list_element_in e.now) (λ x. x) result }
{
    require(e.is_named("list"))?;
    require(e.is_empty())?;
    let a = reply_attributes_in(alloc, empty, e)?;
    let uri = there(a.uri)?;
    let hash = there(a.hash)?;
    Ok(ListElement::new(uri, hash))
}

fn success_in(alloc: Global, empty: &EmptyValues, e: &ElementRef<'_>) -> Result<(), XmlError>
    ensures { Gives (success_in e.now) (λ _. tt) result }
{
    require(e.is_named("success"))?;
    require(e.is_empty())?;
    let _attributes = reply_attributes_in(alloc, empty, e)?;
    Ok(())
}

fn report_error_in(
    alloc: Global,
    empty: &EmptyValues,
    e: &ElementRef<'_>,
) -> Result<ReportError, XmlError>
    ensures { Gives (report_error_in e.now) (λ r. r) result }
{
    require(e.is_named("report_error"))?;
    require(e.is_textless())?;
    let a = reply_attributes_in(alloc, empty, e)?;
    let code = there(a.error_code)?;
    let details = details_in(alloc, empty, e.children())?;
    Ok(ReportError::of(code, a.tag, details.error_text, details.failed_pdu))
}

fn objects_in(
    alloc: Global,
    empty: &EmptyValues,
    root: &ElementRef<'_>,
) -> Result<Vec<ListElement>, XmlError>
    ensures { Gives (each_of list_element_in root.now.children) (λ v. v.items) result }
{
    let mut objects = Vec::with_capacity(alloc, count_of(root.children()))?;
    let mut children = root.children();
    'elements: while let Some(e) = children.next() {
        let object = list_element_in(alloc, empty, &e)?;
        objects.push(object)?;
    }
    Ok(objects)
}

fn errors_in(
    alloc: Global,
    empty: &EmptyValues,
    root: &ElementRef<'_>,
) -> Result<Vec<ReportError>, XmlError>
    ensures { Gives (each_of report_error_in root.now.children) (λ v. v.items) result }
{
    let mut errors = Vec::with_capacity(alloc, count_of(root.children()))?;
    let mut children = root.children();
    'elements: while let Some(e) = children.next() {
        let error = report_error_in(alloc, empty, &e)?;
        errors.push(error)?;
    }
    Ok(errors)
}

fn reply_in(alloc: Global, empty: &EmptyValues, root: &ElementRef<'_>) -> Result<Reply, XmlError>
    ensures { Gives (reply_in root.now.children) (λ r. r) result }
{
    if root.children().is_first_named("success") {
        let pdu = root.children().the_one()?;
        success_in(alloc, empty, &pdu)?;
        return Ok(Reply::Success);
    }
    if root.children().is_first_named("report_error") {
        let errors = errors_in(alloc, empty, root)?;
        return Ok(Reply::ErrorReply(ErrorReply::of(errors)));
    }
    let objects = objects_in(alloc, empty, root)?;
    Ok(Reply::List(ListReply::new(objects)))
}

// ---- messages

fn body_in(
    alloc: Global,
    empty: &EmptyValues,
    kind: &str,
    root: &ElementRef<'_>,
) -> Result<Message, XmlError>
    ensures { Gives (body_in kind.now root.now.children) (λ m. m) result }
{
    match kind {
        "query" => Ok(Message::Query(query_in(alloc, empty, root)?)),
        "reply" => Ok(Message::Reply(reply_in(alloc, empty, root)?)),
        _ => Err(XmlError::Malformed),
    }
}

// The type that a root gives.
fn type_in<'a>(root: &ElementRef<'a>) -> Result<&'a str, Mismatch>
    ensures { Matches (type_in root.now) (λ kind. kind.now) result }
{
    require(root.is_named("msg"))?;
    require(root.is_textless())?;
    root.only(&["version", "type"])?;
    root.given_or_absent("version", "4")?;
    root.required("type")
}

/// The message that an element is read as.
pub(crate) fn message_in(alloc: Global, root: &ElementRef<'_>) -> Result<Message, XmlError>
    ensures { Gives (message_of root.now) (λ m. m) result }
{
    let kind = type_in(root)?;
    let empty = EmptyValues::new(alloc)?;
    body_in(alloc, &empty, kind, root)
}
