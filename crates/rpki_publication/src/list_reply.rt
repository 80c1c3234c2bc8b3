//! Lists of what is published.

ghost use Rattle.std.specs.Prelude.{◌≡◌, ◌++◌, ◌∷◌, [], map, IfOk, IfErr, IsTrue, OnOk, OnErr};
ghost use Rattle.std.specs.List.{AllByRecursion};
ghost use Rattle.rpki_publication.specs.declared.publish_delta_element.PublishDeltaElement.TheVariants as change;
ghost use Rattle.rpki_publication.specs.ListReply.{withdrawal_of, IsWritableListElement};

use crate::list_element::ListElement;
use crate::publish_delta::PublishDelta;
use crate::publish_delta_element::PublishDeltaElement;
use crate::withdraw::Withdraw;
use rpki_common::{OutOfMemory, Sequence};
use std::alloc::Global;
use std::marker::Model;

/// What is published (RFC 8181, 2.3). In a clause it is the list of the objects.
#[derive(Debug, Drop, PartialEq, Eq)]
pub struct ListReply {
    elements: Sequence<ListElement>,
}

impl Model for ListReply {
    ghost use Rattle.std.specs.Prelude.{List};
    ghost use Rattle.rpki_publication.specs.ListElement.{ListElementFields};

    ghost Value = { List ListElementFields };

    ghost view = { λ r. r.elements };

    ghost inverse = { λ list. record { elements = list } };
}

impl ListReply {
    /// No object. It takes no memory; later growth takes it from `alloc`.
    pub fn empty(alloc: Global) -> ListReply
        ensures { result ≡ [] }
    {
        ListReply {
            elements: Sequence::new(alloc),
        }
    }

    /// The list of these objects.
    pub fn new(elements: Vec<ListElement>) -> ListReply
        ensures { result ≡ elements.items }
    {
        ListReply {
            elements: Sequence::from_vec(elements),
        }
    }

    /// Adds an object behind the others. On want of memory the list is as before, and it comes back.
    pub fn add_element(&mut self, element: ListElement) -> Result<(), ListElement>
        ensures ok { OnOk result (self.new ≡ self.old ++ element ∷ []) }
        ensures err { OnErr result (self.new ≡ self.old) }
        ensures back { IfErr result (λ e. e ≡ element) }
    {
        match self.elements.push(element) {
            Ok(()) => Ok(()),
            Err(failed) => Err(failed.value),
        }
    }

    /// The objects, lent in their order.
    pub fn elements(&self) -> &[ListElement]
        ensures { result.now ≡ self.now }
    {
        self.elements.as_slice()
    }

    /// Whether it can be written so that it is read again: each list can. It takes no memory.
    pub fn is_writable(&self) -> bool
        ensures always { IsTrue result }
        ensures writable { AllByRecursion IsWritableListElement self.now }
    {
        // For the proof: each of the objects can.
        are_writable(self.elements());
        true
    }

    /// The objects, handed out in their order.
    pub fn into_elements(self) -> Vec<ListElement>
        ensures { result.items ≡ self }
    {
        let ListReply { elements } = self;
        elements.into_vec()
    }

    /// The changes that withdraw all these objects, in their order, each tagged with the object's digest. On want of memory the list
    /// comes back as it was.
    pub fn into_withdraw_delta(self, alloc: Global) -> Result<PublishDelta, ListReply>
        ensures value { IfOk result (λ d. d ≡ map (λ e. change.Withdraw (withdrawal_of e)) self) }
        ensures back { IfErr result (λ r. r ≡ self) }
    {
        match withdrawals_of(alloc, self.elements()) {
            Ok(elements) => Ok(PublishDelta::of(elements)),
            Err(_) => Err(self),
        }
    }

    /// An equal list, whose texts are shared with this one.
    pub fn clone(&self, alloc: Global) -> Result<ListReply, OutOfMemory>
        ensures { IfOk result (λ r. r ≡ self.now) }
    {
        Ok(ListReply::new(copied(alloc, self.elements())?))
    }
}

// For the proof: each object can be written so that it is read again, by what the types of its URI and its digest promise.
fn are_writable(elements: &[ListElement])
    ensures { AllByRecursion IsWritableListElement elements.now }
{
    for element in elements {
        let _uri = element.uri();
    }
}

// The change that withdraws an object.
fn withdrawal_of(alloc: Global, element: &ListElement) -> Result<PublishDeltaElement, OutOfMemory>
    ensures { IfOk result (λ e. e ≡ change.Withdraw (withdrawal_of element.now)) }
{
    let uri = element.uri().clone(alloc)?;
    let withdraw = Withdraw::with_hash_tag(alloc, uri, *element.hash())?;
    Ok(PublishDeltaElement::Withdraw(withdraw))
}

fn withdrawals_of(
    alloc: Global,
    elements: &[ListElement],
) -> Result<Vec<PublishDeltaElement>, OutOfMemory>
    ensures { IfOk result (λ v.
        v.items ≡ map (λ e. change.Withdraw (withdrawal_of e)) elements.now) }
{
    let mut withdrawals = Vec::with_capacity(alloc, elements.len())?;
    for e in elements {
        withdrawals.push(withdrawal_of(alloc, e)?)?;
    }
    Ok(withdrawals)
}

// Equal objects.
fn copied(alloc: Global, elements: &[ListElement]) -> Result<Vec<ListElement>, OutOfMemory>
    ensures { IfOk result (λ v. v.items ≡ elements.now) }
{
    let mut copies = Vec::with_capacity(alloc, elements.len())?;
    for e in elements {
        copies.push(e.clone(alloc)?)?;
    }
    Ok(copies)
}
