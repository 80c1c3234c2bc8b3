//! An object that is kept.

ghost use Rattle.std.specs.Prelude.{◌≡◌, IfOk};
ghost use Rattle.sha2.specs.Sha256.{sha256};

use rpki_common::OutOfMemory;
use rpki_text::{Base64, Hash};
use std::alloc::Global;
use std::marker::Model;

/// An object with its digest. In a clause it is the list of its octets.
pub(crate) struct Object {
    content: Base64,
    hash: Hash,
}

impl Drop for Object {
    fn drop(self) {
        let Object { content, hash } = self;
    }
}

impl Model for Object {
    ghost use Rattle.std.specs.Prelude.{◌≡◌, List, ℕ};
    ghost use Rattle.sha2.specs.Sha256.{sha256};

    ghost Value = { List ℕ };

    ghost view = { λ o. o.content };

    ghost invariant = { λ o. o.hash ≡ sha256 o.content };
}

impl Object {
    /// The object with these octets, whose text it shares.
    pub(crate) fn new(alloc: Global, content: &Base64) -> Result<Object, OutOfMemory>
        ensures { IfOk result (λ o. o ≡ content.now) }
    {
        let hash = content.to_hash(alloc)?;
        let content = content.clone(alloc)?;
        Ok(Object { content, hash })
    }

    /// The octets.
    pub(crate) fn content(&self) -> &Base64
        ensures { result.now ≡ self.now }
    {
        &self.content
    }

    /// The digest of the octets.
    pub(crate) fn hash(&self) -> &Hash
        ensures { result.now ≡ sha256 self.now }
    {
        &self.hash
    }
}
