//! Copies of queries, of replies and of what stands in them, as the fields of an answer.

use crate::parts::{lent_change, lent_pdu};
use crate::signed::{refused, written};
use rpki_der::DecodeError;
use rpki_publication::{
    Error, ErrorReply, Message, PublishDeltaElement, Query, QueryPdu, Reply, ReportError,
};
use std::alloc::Global;
use test_stored::Fields;

// Appends a copy of each change.
fn append_changes(
    alloc: Global,
    fields: &mut Fields,
    changes: &[PublishDeltaElement],
) -> Result<(), DecodeError> {
    for change in changes {
        lent_change(alloc, fields, &change.clone(alloc)?)?;
    }
    Ok(())
}

// Appends a copy of what failed.
fn append_failed(
    alloc: Global,
    fields: &mut Fields,
    failed: Option<&QueryPdu>,
) -> Result<(), DecodeError> {
    match failed {
        Some(pdu) => lent_pdu(alloc, fields, Some(&pdu.clone(alloc)?)),
        None => lent_pdu(alloc, fields, None),
    }
}

fn add(reply: &mut ErrorReply, error: ReportError) -> Result<(), DecodeError> {
    match reply.add_error(error) {
        Ok(()) => Ok(()),
        Err(_) => Err(DecodeError::OutOfMemory),
    }
}

// Copies of these errors, put together anew.
fn again(alloc: Global, errors: &ErrorReply) -> Result<ErrorReply, DecodeError> {
    let mut reply = ErrorReply::empty(alloc);
    for error in errors.errors() {
        add(&mut reply, error.clone(alloc)?)?;
    }
    Ok(reply)
}

// Appends a copy of what failed of each error, and what is printed of all, put together anew.
fn append_errors(
    alloc: Global,
    fields: &mut Fields,
    errors: &ErrorReply,
) -> Result<(), DecodeError> {
    for error in errors.errors() {
        append_failed(alloc, fields, error.failed_pdu())?;
    }
    fields.print(alloc, again(alloc, errors)?)?;
    Ok(())
}

fn query_copied(alloc: Global, query: &Query) -> Result<Fields, DecodeError> {
    let mut fields = written(alloc, &Message::Query(query.clone(alloc)?))?;
    if let Query::Delta(delta) = query {
        append_changes(alloc, &mut fields, delta.elements())?;
    }
    Ok(fields)
}

fn reply_copied(alloc: Global, reply: &Reply) -> Result<Fields, DecodeError> {
    let mut fields = written(alloc, &Message::Reply(reply.clone(alloc)?))?;
    if let Reply::ErrorReply(errors) = reply {
        append_errors(alloc, &mut fields, errors)?;
    }
    Ok(fields)
}

/// A copy of the query or the reply that the message is, as it is written, and copies of the changes or of the errors in it.
pub fn copied(alloc: Global, read: Result<Message, Error>) -> Result<Fields, DecodeError> {
    match read {
        Ok(Message::Query(query)) => query_copied(alloc, &query),
        Ok(Message::Reply(reply)) => reply_copied(alloc, &reply),
        Err(error) => refused(alloc, error),
    }
}
