//! An element of a query.

ghost use Rattle.std.specs.Prelude.{◌≡◌, ◌↔◌, IfOk, IsTrue};
ghost use Rattle.rpki_publication.specs.Change.{IsWritablePdu};

use crate::publish_delta_element::PublishDeltaElement;
use rpki_common::OutOfMemory;
use std::alloc::Global;

/// What kind of element stands in a query (RFC 8181, 2.2 and 2.3).
#[derive(Clone, Copy, Debug, PartialEq, Eq)]
pub enum QueryPduType {
    /// `list`.
    List,
    /// `publish`, for a new object or the replacement of one.
    Publish,
    /// `withdraw`.
    Withdraw,
}

/// An element of a query.
#[derive(Debug, Drop, PartialEq, Eq)]
pub enum QueryPdu {
    /// The one for the list of what is published (RFC 8181, 2.3).
    List,
    /// A change (RFC 8181, 2.2).
    PublishDeltaElement(PublishDeltaElement),
}

impl QueryPdu {
    /// Whether it can be written so that it is read again: a tag in it consists of octets that a document may have. It takes no memory.
    pub fn is_writable(&self) -> bool
        ensures { IsTrue result ↔ IsWritablePdu self.now }
    {
        match self {
            QueryPdu::List => true,
            QueryPdu::PublishDeltaElement(e) => e.is_writable(),
        }
    }

    /// An equal element, whose texts are shared with this one.
    pub fn clone(&self, alloc: Global) -> Result<QueryPdu, OutOfMemory>
        ensures { IfOk result (λ pdu. pdu ≡ self.now) }
    {
        match self {
            QueryPdu::List => Ok(QueryPdu::List),
            QueryPdu::PublishDeltaElement(e) => Ok(QueryPdu::PublishDeltaElement(e.clone(alloc)?)),
        }
    }
}
