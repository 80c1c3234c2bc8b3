//! What a query changes, one change behind the other (RFC 8181, 2.2).

ghost use Rattle.std.specs.Prelude.{◌≡◌, ℕ, IfOk, List, OnOk, map, true};
ghost use Rattle.std.specs.Option.{option_map};
ghost use Rattle.std.specs.Rc.{rc_str_bytes};
ghost use Rattle.sha2.specs.Sha256.{sha256};
ghost use Rattle.rpki_pubserver.specs.Changes as definitions;
ghost use Rattle.rpki_pubserver.specs.Places.{HavePlaces, IsEmptyAt, IsSameElsewhere, has_change, live, object_of};

use crate::object::Object;
use crate::objects::Objects;
use rpki_common::OutOfMemory;
use rpki_publication::PublishDeltaElement;
use rpki_text::{Hash, uri};
use std::alloc::Global;
use std::rc::RcStr;

/// The URI that a change is at.
pub(crate) fn uri_of(change: &PublishDeltaElement) -> &uri::Rsync
    ensures { result.now ≡ definitions.uri_of change.now }
{
    match change {
        PublishDeltaElement::Publish(publish) => publish.uri(),
        PublishDeltaElement::Update(update) => update.uri(),
        PublishDeltaElement::Withdraw(withdraw) => withdraw.uri(),
    }
}

/// The tag of a change.
pub(crate) fn tag_of(change: &PublishDeltaElement) -> Option<&RcStr>
    ensures { option_map (λ t. rc_str_bytes t.now) result ≡ definitions.tag_of_change change.now }
{
    match change {
        PublishDeltaElement::Publish(publish) => publish.tag(),
        PublishDeltaElement::Update(update) => update.tag(),
        PublishDeltaElement::Withdraw(withdraw) => withdraw.tag(),
    }
}

// The object that is at the URI behind a change; none behind a withdraw.
fn object_of(alloc: Global, change: &PublishDeltaElement) -> Result<Option<Object>, OutOfMemory>
    ensures { IfOk result (λ object. object ≡ object_of change.now) }
{
    match change {
        PublishDeltaElement::Publish(publish) => Ok(Some(Object::new(alloc, publish.content())?)),
        PublishDeltaElement::Update(update) => Ok(Some(Object::new(alloc, update.content())?)),
        PublishDeltaElement::Withdraw(_) => Ok(None),
    }
}

/// The SHA-256 of the object that is at the URI behind a change; none behind a withdraw.
pub(crate) fn hash_of(
    alloc: Global,
    change: &PublishDeltaElement,
) -> Result<Option<Hash>, OutOfMemory>
    ensures { IfOk result (λ hash. hash ≡ option_map sha256 (object_of change.now)) }
{
    match change {
        PublishDeltaElement::Publish(publish) => Ok(Some(publish.content().to_hash(alloc)?)),
        PublishDeltaElement::Update(update) => Ok(Some(update.content().to_hash(alloc)?)),
        PublishDeltaElement::Withdraw(_) => Ok(None),
    }
}

/// What the changes put at their URIs, and a place for each: then they take no memory.
pub(crate) fn prepare(
    alloc: Global,
    objects: &mut Objects,
    changes: &[PublishDeltaElement],
) -> Result<Vec<Option<Object>>, OutOfMemory>
    ensures next { IfOk result (λ next. next.items ≡ map object_of changes.now) }
    ensures places { OnOk result (HavePlaces objects.new changes.now) }
    ensures elsewhere { IsSameElsewhere changes.now objects.old objects.new }
    ensures live { live objects.new ≡ live objects.old }
{
    let mut next = Vec::with_capacity(alloc, changes.len())?;
    for change in changes {
        objects.make_place(alloc, uri_of(change).as_str())?;
        next.push(object_of(alloc, change)?)?;
    }
    Ok(next)
}

/// Puts at the URI of each change, one behind the other, what is next there. It takes no memory.
pub(crate) fn make_all(
    objects: &mut Objects,
    changes: &[PublishDeltaElement],
    next: &mut [Option<Object>],
)
    requires next { next.old ≡ map object_of changes.now }
    requires places { HavePlaces objects.old changes.now }
    ensures made { live objects.new ≡ definitions.all_made (live objects.old) changes.now }
    ensures elsewhere { IsSameElsewhere changes.now objects.old objects.new }
{
    let mut place = 0;
    'making: while place < changes.len() {
        objects.exchange(uri_of(&changes[place]).as_str(), &mut next[place]);
        place += 1;
    }
}

/// Takes out the places of these changes that are empty.
pub(crate) fn drop_places(objects: &mut Objects, changes: &[PublishDeltaElement])
    ensures dropped { (uri : List ℕ) → has_change changes.now uri ≡ true
        → IsEmptyAt objects.new uri → ⊥ }
    ensures elsewhere { IsSameElsewhere changes.now objects.old objects.new }
    ensures live { live objects.new ≡ live objects.old }
{
    for change in changes {
        objects.drop_place(uri_of(change).as_str());
    }
}
