//! Queries.

ghost use Rattle.std.specs.Prelude.{◌≡◌, ◌↔◌, IfOk, IsTrue};
ghost use Rattle.rpki_publication.specs.Message.{query_elements, IsWritableQuery};
ghost use Rattle.rpki_xml.specs.Element.{is_none};

use crate::publish_delta::PublishDelta;
use rpki_common::OutOfMemory;
use std::alloc::Global;

/// What a client asks (RFC 8181, 2.1).
#[derive(Debug, Drop, PartialEq, Eq)]
pub enum Query {
    /// For the list of what it has published (RFC 8181, 2.3).
    List,
    /// For changes of what it has published (RFC 8181, 2.2).
    Delta(PublishDelta),
}

impl Query {
    /// Whether it is written as no element.
    pub(crate) fn has_no_element(&self) -> bool
        ensures { result ≡ is_none (query_elements self.now) }
    {
        match self {
            Query::List => false,
            Query::Delta(delta) => delta.elements().is_empty(),
        }
    }

    /// Whether it can be written so that it is read again: tags consist of octets that a document may have. It takes no memory.
    pub fn is_writable(&self) -> bool
        ensures { IsTrue result ↔ IsWritableQuery self.now }
    {
        match self {
            Query::List => true,
            Query::Delta(delta) => delta.is_writable(),
        }
    }

    /// An equal query, whose texts are shared with this one.
    pub fn clone(&self, alloc: Global) -> Result<Query, OutOfMemory>
        ensures { IfOk result (λ q. q ≡ self.now) }
    {
        match self {
            Query::List => Ok(Query::List),
            Query::Delta(delta) => Ok(Query::Delta(delta.clone(alloc)?)),
        }
    }
}
