//! Replies.

ghost use Rattle.std.specs.Prelude.{◌≡◌, ◌↔◌, IfOk, IsTrue};
ghost use Rattle.rpki_publication.specs.Message.{reply_elements, IsWritableReply};
ghost use Rattle.rpki_xml.specs.Element.{is_none};

use crate::error_reply::ErrorReply;
use crate::list_element::ListElement;
use crate::list_reply::ListReply;
use crate::report_error::ReportError;
use rpki_common::OutOfMemory;
use std::alloc::Global;

/// What a server answers (RFC 8181, 2.1).
#[derive(Debug, Drop, PartialEq, Eq)]
pub enum Reply {
    /// What is published (RFC 8181, 2.3).
    List(ListReply),
    /// That all changes were made (RFC 8181, 2.2).
    Success,
    /// Errors (RFC 8181, 2.4).
    ErrorReply(ErrorReply),
}

impl Reply {
    /// Whether it is written as no element.
    pub(crate) fn has_no_element(&self) -> bool
        ensures { result ≡ is_none (reply_elements self.now) }
    {
        match self {
            Reply::List(list) => list.elements().is_empty(),
            Reply::Success => false,
            Reply::ErrorReply(errors) => errors.errors().is_empty(),
        }
    }

    /// Whether it can be written so that it is read again: a list always can, and errors where there is one and each can. It takes no
    /// memory.
    pub fn is_writable(&self) -> bool
        ensures { IsTrue result ↔ IsWritableReply self.now }
    {
        match self {
            Reply::List(list) => list.is_writable(),
            Reply::Success => true,
            Reply::ErrorReply(errors) => errors.is_writable(),
        }
    }

    /// An equal reply, whose texts are shared with this one.
    pub fn clone(&self, alloc: Global) -> Result<Reply, OutOfMemory>
        ensures { IfOk result (λ r. r ≡ self.now) }
    {
        match self {
            Reply::List(list) => Ok(Reply::List(list.clone(alloc)?)),
            Reply::Success => Ok(Reply::Success),
            Reply::ErrorReply(errors) => Ok(Reply::ErrorReply(errors.clone(alloc)?)),
        }
    }
}

/// What kind of element stands in a reply.
#[derive(Clone, Copy, Debug, PartialEq, Eq)]
pub enum ReplyPduType {
    /// `list`.
    List,
    /// `success`.
    Success,
    /// `report_error`.
    Error,
}

/// An element of a reply.
#[derive(Debug, Drop, PartialEq, Eq)]
pub enum ReplyPdu {
    /// An object that is published (RFC 8181, 2.3).
    List(ListElement),
    /// That all changes were made (RFC 8181, 2.2).
    Success,
    /// An error (RFC 8181, 2.4).
    Error(ReportError),
}

impl ReplyPdu {
    /// An equal element, whose texts are shared with this one.
    pub fn clone(&self, alloc: Global) -> Result<ReplyPdu, OutOfMemory>
        ensures { IfOk result (λ pdu. pdu ≡ self.now) }
    {
        match self {
            ReplyPdu::List(e) => Ok(ReplyPdu::List(e.clone(alloc)?)),
            ReplyPdu::Success => Ok(ReplyPdu::Success),
            ReplyPdu::Error(error) => Ok(ReplyPdu::Error(error.clone(alloc)?)),
        }
    }
}
