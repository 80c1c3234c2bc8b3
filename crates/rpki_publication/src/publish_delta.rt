//! Changes of objects.

ghost use Rattle.std.specs.Prelude.{◌≡◌, ◌↔◌, ◌++◌, ◌∷◌, [], length, IsTrue, IfOk, IfErr, OnOk, OnErr};
ghost use Rattle.std.specs.List.{AllByRecursion};
ghost use Rattle.rpki_publication.specs.Change.{IsWritableChange};
ghost use Rattle.rpki_publication.specs.declared.publish_delta_element.PublishDeltaElement.TheVariants as change;

use crate::publish::Publish;
use crate::publish_delta_element::PublishDeltaElement;
use crate::update::Update;
use crate::withdraw::Withdraw;
use rpki_common::{OutOfMemory, Sequence};
use std::alloc::Global;
use std::marker::Model;

/// Changes of objects, which a server makes all or none of (RFC 8181, 2.2). In a clause it is the list of them.
#[derive(Debug, Drop, PartialEq, Eq)]
pub struct PublishDelta {
    elements: Sequence<PublishDeltaElement>,
}

impl Model for PublishDelta {
    ghost use Rattle.std.specs.Prelude.{List};
    ghost use Rattle.rpki_publication.specs.declared.publish_delta_element.PublishDeltaElement.{PublishDeltaElement as Change};

    ghost Value = { List Change };

    ghost view = { λ d. d.elements };

    ghost inverse = { λ list. record { elements = list } };
}

impl PublishDelta {
    /// No change. It takes no memory; later growth takes it from `alloc`.
    pub fn empty(alloc: Global) -> PublishDelta
        ensures { result ≡ [] }
    {
        PublishDelta {
            elements: Sequence::new(alloc),
        }
    }

    /// The changes of a list.
    pub(crate) fn of(elements: Vec<PublishDeltaElement>) -> PublishDelta
        ensures { result ≡ elements.items }
    {
        PublishDelta {
            elements: Sequence::from_vec(elements),
        }
    }

    /// Adds a new object behind the others. On want of memory the changes are as before, and it comes back.
    pub fn add_publish(&mut self, publish: Publish) -> Result<(), Publish>
        ensures ok { OnOk result (self.new ≡ self.old ++ change.Publish publish ∷ []) }
        ensures err { OnErr result (self.new ≡ self.old) }
        ensures back { IfErr result (λ p. p ≡ publish) }
    {
        match self.elements.push(PublishDeltaElement::Publish(publish)) {
            Ok(()) => Ok(()),
            Err(failed) => match failed.value {
                PublishDeltaElement::Publish(publish) => Err(publish),
                _ => unreachable!(),
            },
        }
    }

    /// Adds the replacement of an object. On want of memory the changes are as before, and it comes back.
    pub fn add_update(&mut self, update: Update) -> Result<(), Update>
        ensures ok { OnOk result (self.new ≡ self.old ++ change.Update update ∷ []) }
        ensures err { OnErr result (self.new ≡ self.old) }
        ensures back { IfErr result (λ u. u ≡ update) }
    {
        match self.elements.push(PublishDeltaElement::Update(update)) {
            Ok(()) => Ok(()),
            Err(failed) => match failed.value {
                PublishDeltaElement::Update(update) => Err(update),
                _ => unreachable!(),
            },
        }
    }

    /// Adds the removal of an object. On want of memory the changes are as before, and it comes back.
    pub fn add_withdraw(&mut self, withdraw: Withdraw) -> Result<(), Withdraw>
        ensures ok { OnOk result (self.new ≡ self.old ++ change.Withdraw withdraw ∷ []) }
        ensures err { OnErr result (self.new ≡ self.old) }
        ensures back { IfErr result (λ w. w ≡ withdraw) }
    {
        match self.elements.push(PublishDeltaElement::Withdraw(withdraw)) {
            Ok(()) => Ok(()),
            Err(failed) => match failed.value {
                PublishDeltaElement::Withdraw(withdraw) => Err(withdraw),
                _ => unreachable!(),
            },
        }
    }

    /// These changes and then the others, in their order. On want of memory both come back as they were.
    pub fn add(self, other: PublishDelta) -> Result<PublishDelta, (PublishDelta, PublishDelta)>
        ensures joined { IfOk result (λ d. d ≡ self ++ other) }
        ensures first { IfErr result (λ e. e.0 ≡ self) }
        ensures second { IfErr result (λ e. e.1 ≡ other) }
    {
        let mut elements = self.elements.into_vec();
        let mut more = other.elements.into_vec();
        match elements.append(&mut more) {
            Ok(()) => Ok(PublishDelta::of(elements)),
            Err(_) => Err((PublishDelta::of(elements), PublishDelta::of(more))),
        }
    }

    /// The changes, lent in their order.
    pub fn elements(&self) -> &[PublishDeltaElement]
        ensures { result.now ≡ self.now }
    {
        self.elements.as_slice()
    }

    /// Whether they can be written so that they are read again: tags consist of octets that a document may have. It takes no memory.
    pub fn is_writable(&self) -> bool
        ensures { IsTrue result ↔ AllByRecursion IsWritableChange self.now }
    {
        are_writable(self.elements())
    }

    /// The changes, handed out in their order.
    pub fn into_elements(self) -> Vec<PublishDeltaElement>
        ensures { result.items ≡ self }
    {
        let PublishDelta { elements } = self;
        elements.into_vec()
    }

    /// How many changes there are.
    pub fn len(&self) -> usize
        ensures { result ≡ length self.now }
    {
        self.elements.len()
    }

    /// Whether there is no change.
    pub fn is_empty(&self) -> bool
        ensures { IsTrue result ↔ (self.now ≡ []) }
    {
        self.elements.is_empty()
    }

    /// Equal changes, whose texts are shared with these.
    pub fn clone(&self, alloc: Global) -> Result<PublishDelta, OutOfMemory>
        ensures { IfOk result (λ d. d ≡ self.now) }
    {
        Ok(PublishDelta::of(copied(alloc, self.elements())?))
    }
}

// Equal changes.
fn copied(
    alloc: Global,
    elements: &[PublishDeltaElement],
) -> Result<Vec<PublishDeltaElement>, OutOfMemory>
    ensures { IfOk result (λ v. v.items ≡ elements.now) }
{
    let mut copies = Vec::with_capacity(alloc, elements.len())?;
    for e in elements {
        copies.push(e.clone(alloc)?)?;
    }
    Ok(copies)
}

// Whether each change can be written so that it is read again.
fn are_writable(changes: &[PublishDeltaElement]) -> bool
    ensures { IsTrue result ↔ AllByRecursion IsWritableChange changes.now }
{
    for element in changes {
        if !element.is_writable() {
            return false;
        }
    }
    true
}
