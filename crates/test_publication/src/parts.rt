//! The parts of messages, by the calls that lend them and by those that hand them out, as the fields of an answer.

use crate::signed::{refused, written};
use rpki_der::DecodeError;
use rpki_publication::{
    Error, ErrorReply, ListElement, ListReply, Message, Publish, PublishDelta, PublishDeltaElement,
    Query, QueryPdu, Reply, ReportError, Update, Withdraw,
};
use rpki_text::{Base64, Hash, uri};
use std::alloc::Global;
use std::rc::RcStr;
use test_stored::Fields;

// Appends a text, or `-` where there is none.
fn append_text(fields: &mut Fields, text: Option<&RcStr>) -> Result<(), DecodeError> {
    match text {
        Some(text) => Ok(fields.octets(text.as_str().as_bytes())?),
        None => Ok(fields.octets(b"-")?),
    }
}

// Appends where an object is, and its tag.
fn append_place(
    fields: &mut Fields,
    name: &str,
    tag: Option<&RcStr>,
    uri: &uri::Rsync,
) -> Result<(), DecodeError> {
    fields.octets(name.as_bytes())?;
    append_text(fields, tag)?;
    Ok(fields.octets(uri.as_str().as_bytes())?)
}

fn append_content(alloc: Global, fields: &mut Fields, content: &Base64) -> Result<(), DecodeError> {
    Ok(fields.octets(content.to_bytes(alloc)?.as_slice())?)
}

fn append_hash(fields: &mut Fields, hash: &Hash) -> Result<(), DecodeError> {
    Ok(fields.octets(hash.as_slice())?)
}

// ---- as they are lent

fn lent_publish(alloc: Global, fields: &mut Fields, p: &Publish) -> Result<(), DecodeError> {
    append_place(fields, "publish", p.tag(), p.uri())?;
    append_content(alloc, fields, p.content())
}

fn lent_update(alloc: Global, fields: &mut Fields, u: &Update) -> Result<(), DecodeError> {
    append_place(fields, "update", u.tag(), u.uri())?;
    append_content(alloc, fields, u.content())?;
    append_hash(fields, u.hash())
}

fn lent_withdraw(fields: &mut Fields, w: &Withdraw) -> Result<(), DecodeError> {
    append_place(fields, "withdraw", w.tag(), w.uri())?;
    append_hash(fields, w.hash())
}

/// Appends a change.
pub fn lent_change(
    alloc: Global,
    fields: &mut Fields,
    change: &PublishDeltaElement,
) -> Result<(), DecodeError> {
    match change {
        PublishDeltaElement::Publish(p) => lent_publish(alloc, fields, p),
        PublishDeltaElement::Update(u) => lent_update(alloc, fields, u),
        PublishDeltaElement::Withdraw(w) => lent_withdraw(fields, w),
    }
}

// How many changes there are, whether there is none, and each.
fn lent_delta(alloc: Global, delta: &PublishDelta) -> Result<Fields, DecodeError> {
    let mut fields = Fields::number(alloc, delta.len() as u64)?;
    fields.octets(&[u8::from(delta.is_empty())])?;
    for change in delta.elements() {
        lent_change(alloc, &mut fields, change)?;
    }
    Ok(fields)
}

fn lent_list(alloc: Global, list: &ListReply) -> Result<Fields, DecodeError> {
    let mut fields = Fields::new(alloc);
    for e in list.elements() {
        append_place(&mut fields, "list", None, e.uri())?;
        append_hash(&mut fields, e.hash())?;
    }
    Ok(fields)
}

/// Appends an element of a query, or `-` where there is none.
pub fn lent_pdu(
    alloc: Global,
    fields: &mut Fields,
    pdu: Option<&QueryPdu>,
) -> Result<(), DecodeError> {
    match pdu {
        Some(QueryPdu::PublishDeltaElement(change)) => lent_change(alloc, fields, change),
        Some(QueryPdu::List) => Ok(fields.octets(b"list")?),
        None => Ok(fields.octets(b"-")?),
    }
}

// The code, the tag, the text, and the element that failed.
fn lent_error(alloc: Global, fields: &mut Fields, e: &ReportError) -> Result<(), DecodeError> {
    fields.print(alloc, e.error_code())?;
    append_text(fields, e.tag())?;
    append_text(fields, e.error_text())?;
    lent_pdu(alloc, fields, e.failed_pdu())
}

// What is printed of all errors, and each.
fn lent_errors(alloc: Global, errors: ErrorReply) -> Result<Fields, DecodeError> {
    let mut fields = Fields::new(alloc);
    for e in errors.errors() {
        lent_error(alloc, &mut fields, e)?;
    }
    fields.print(alloc, errors)?;
    Ok(fields)
}

// ---- as they are handed out

fn handed_change(
    alloc: Global,
    fields: &mut Fields,
    change: PublishDeltaElement,
) -> Result<(), DecodeError> {
    match change {
        PublishDeltaElement::Publish(p) => handed_publish(alloc, fields, p),
        PublishDeltaElement::Update(u) => handed_update(alloc, fields, u),
        PublishDeltaElement::Withdraw(w) => handed_withdraw(fields, w),
    }
}

fn handed_publish(alloc: Global, fields: &mut Fields, p: Publish) -> Result<(), DecodeError> {
    let (tag, uri, content) = p.unpack();
    append_place(fields, "publish", tag.as_ref(), &uri)?;
    append_content(alloc, fields, &content)
}

fn handed_update(alloc: Global, fields: &mut Fields, u: Update) -> Result<(), DecodeError> {
    let (tag, uri, content, hash) = u.unpack();
    append_place(fields, "update", tag.as_ref(), &uri)?;
    append_content(alloc, fields, &content)?;
    append_hash(fields, &hash)
}

fn handed_withdraw(fields: &mut Fields, w: Withdraw) -> Result<(), DecodeError> {
    let (tag, uri, hash) = w.unpack();
    append_place(fields, "withdraw", tag.as_ref(), &uri)?;
    append_hash(fields, &hash)
}

fn handed_delta(alloc: Global, delta: PublishDelta) -> Result<Fields, DecodeError> {
    let mut fields = Fields::new(alloc);
    for change in delta.into_elements() {
        handed_change(alloc, &mut fields, change)?;
    }
    Ok(fields)
}

fn handed_object(fields: &mut Fields, e: ListElement) -> Result<(), DecodeError> {
    let (uri, hash) = e.unpack();
    append_place(fields, "list", None, &uri)?;
    append_hash(fields, &hash)
}

fn handed_list(alloc: Global, list: ListReply) -> Result<Fields, DecodeError> {
    let mut fields = Fields::new(alloc);
    for e in ListReply::new(list.into_elements()).into_elements() {
        handed_object(&mut fields, e)?;
    }
    Ok(fields)
}

// ---- of a message

fn lent_message(alloc: Global, message: Message) -> Result<Fields, DecodeError> {
    match message {
        Message::Query(Query::List) => Ok(Fields::one(alloc, b"list")?),
        Message::Query(Query::Delta(delta)) => lent_delta(alloc, &delta),
        Message::Reply(Reply::List(list)) => lent_list(alloc, &list),
        Message::Reply(Reply::Success) => Ok(Fields::one(alloc, b"success")?),
        Message::Reply(Reply::ErrorReply(errors)) => lent_errors(alloc, errors),
    }
}

fn handed_message(alloc: Global, message: Message) -> Result<Fields, DecodeError> {
    match message {
        Message::Query(Query::Delta(delta)) => handed_delta(alloc, delta),
        Message::Reply(Reply::List(list)) => handed_list(alloc, list),
        _ => Err(DecodeError::Malformed),
    }
}

/// The parts of the message as which the octets read, as they are lent.
pub fn lent(alloc: Global, read: Result<Message, Error>) -> Result<Fields, DecodeError> {
    match read {
        Ok(message) => lent_message(alloc, message),
        Err(error) => refused(alloc, error),
    }
}

/// The parts of the message as which the octets read, as they are handed out.
pub fn handed(alloc: Global, read: Result<Message, Error>) -> Result<Fields, DecodeError> {
    match read {
        Ok(message) => handed_message(alloc, message),
        Err(error) => refused(alloc, error),
    }
}

/// The query that the message is, as it is written.
pub fn query(alloc: Global, read: Result<Message, Error>) -> Result<Fields, DecodeError> {
    match read {
        Ok(message) => match message.as_query() {
            Ok(query) => written(alloc, &Message::Query(query)),
            Err(error) => refused(alloc, error),
        },
        Err(error) => refused(alloc, error),
    }
}

/// The reply that the message is, as it is written.
pub fn reply(alloc: Global, read: Result<Message, Error>) -> Result<Fields, DecodeError> {
    match read {
        Ok(message) => match message.as_reply() {
            Ok(reply) => written(alloc, &Message::Reply(reply)),
            Err(error) => refused(alloc, error),
        },
        Err(error) => refused(alloc, error),
    }
}
