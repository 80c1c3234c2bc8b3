//! The resource classes of a client.

ghost use Rattle.std.specs.Prelude.{◌≡◌, IfOk};

use crate::resource_class_entitlements::ResourceClassEntitlements;
use rpki_common::{OutOfMemory, Sequence};
use std::alloc::Global;
use std::marker::Model;

/// The response to a list request (RFC 6492, 3.3.2). In a clause it is the list of the resource classes.
#[derive(Drop, PartialEq, Eq)]
pub struct ResourceClassListResponse {
    classes: Sequence<ResourceClassEntitlements>,
}

impl Model for ResourceClassListResponse {
    ghost use Rattle.std.specs.Prelude.{List};
    ghost use Rattle.rpki_updown.specs.Entitlements.{ClassFields};

    ghost Value = { List ClassFields };

    ghost view = { λ r. r.classes };

    ghost inverse = { λ list. record { classes = list } };
}

impl ResourceClassListResponse {
    /// The response with these classes. It takes no memory.
    pub fn new(classes: Vec<ResourceClassEntitlements>) -> ResourceClassListResponse
        ensures { result ≡ classes.items }
    {
        ResourceClassListResponse {
            classes: Sequence::from_vec(classes),
        }
    }

    /// The classes, in their order.
    pub fn classes(&self) -> &[ResourceClassEntitlements]
        ensures { result.now ≡ self.now }
    {
        self.classes.as_slice()
    }

    /// An equal answer, which shares its octets with this one.
    pub fn clone(&self, alloc: Global) -> Result<ResourceClassListResponse, OutOfMemory>
        ensures { IfOk result (λ r. r ≡ self.now) }
    {
        Ok(ResourceClassListResponse {
            classes: Sequence::from_vec(copied(alloc, self.classes())?),
        })
    }
}

// Equal classes.
fn copied(
    alloc: Global,
    classes: &[ResourceClassEntitlements],
) -> Result<Vec<ResourceClassEntitlements>, OutOfMemory>
    ensures { IfOk result (λ v. v.items ≡ classes.now) }
{
    let mut copies = Vec::with_capacity(alloc, classes.len())?;
    for class in classes {
        copies.push(class.clone(alloc)?)?;
    }
    Ok(copies)
}
