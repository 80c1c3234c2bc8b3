//! An element of a query that changes an object.

ghost use Rattle.std.specs.Prelude.{◌≡◌, ◌↔◌, IfOk, IsTrue};
ghost use Rattle.rpki_publication.specs.Change.{IsWritableChange};

use crate::publish::Publish;
use crate::update::Update;
use crate::withdraw::Withdraw;
use rpki_common::OutOfMemory;
use std::alloc::Global;

/// A change of one object (RFC 8181, 2.2).
#[derive(Debug, Drop, PartialEq, Eq)]
pub enum PublishDeltaElement {
    /// A new object.
    Publish(Publish),
    /// The replacement of an object.
    Update(Update),
    /// The removal of an object.
    Withdraw(Withdraw),
}

impl PublishDeltaElement {
    /// Whether it can be written so that it is read again: the tag consists of octets that a document may have. It takes no memory.
    pub fn is_writable(&self) -> bool
        ensures { IsTrue result ↔ IsWritableChange self.now }
    {
        match self {
            PublishDeltaElement::Publish(p) => p.is_writable(),
            PublishDeltaElement::Update(u) => u.is_writable(),
            PublishDeltaElement::Withdraw(w) => w.is_writable(),
        }
    }

    /// An equal element, whose texts are shared with this one.
    pub fn clone(&self, alloc: Global) -> Result<PublishDeltaElement, OutOfMemory>
        ensures { IfOk result (λ e. e ≡ self.now) }
    {
        match self {
            PublishDeltaElement::Publish(p) => Ok(PublishDeltaElement::Publish(p.clone(alloc)?)),
            PublishDeltaElement::Update(u) => Ok(PublishDeltaElement::Update(u.clone(alloc)?)),
            PublishDeltaElement::Withdraw(w) => Ok(PublishDeltaElement::Withdraw(w.clone(alloc)?)),
        }
    }
}
