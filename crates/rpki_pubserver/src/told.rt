//! What is known of objects, to look it up.

ghost use Rattle.std.specs.Prelude.{◌≡◌, ◌↔◌, ℕ, [], IfOk, IsNone, IsTrue, List, OnOk, Option, Some, false};
ghost use Rattle.std.specs.Map.{lookup};
ghost use Rattle.std.specs.Option.{option_map};
ghost use Rattle.std.specs.Str.{bytes_eq};
ghost use Rattle.rpki_pubserver.specs.Deciding.{AreKnown, IsKnown};
ghost use Rattle.rpki_pubserver.specs.Places.{IsSameAt, flattened, with_object};

use crate::changes::uri_of;
use crate::known::Known;
use rpki_common::OutOfMemory;
use rpki_publication::PublishDeltaElement;
use rpki_text::Hash;
use std::alloc::Global;
use std::collections::BTreeMap;
use std::marker::Model;

/// What is known of objects by their URIs' texts: the SHA-256, or that there is none. A look-up among n takes log n comparisons. In a
/// clause it is the list of the pairs.
#[derive(Drop)]
pub(crate) struct Told {
    places: BTreeMap<String, Option<Hash>>,
}

impl Model for Told {
    ghost use Rattle.std.specs.BTreeMap.{IsOrdered};
    ghost use Rattle.std.specs.String.{string_cmp};
    ghost use Rattle.rpki_pubserver.specs.Places.{Places, placed};

    ghost Value = { Places };

    ghost view = { λ t. placed t.places.entries };

    ghost invariant = { λ t. IsOrdered string_cmp t.places };
}

impl Told {
    /// Nothing is known. It takes no memory.
    pub(crate) fn new(alloc: Global) -> Told
        ensures { result ≡ [] }
    {
        Told {
            places: BTreeMap::new(alloc),
        }
    }

    /// What is known: the first that is known of each URI.
    pub(crate) fn by(alloc: Global, known: &[Known]) -> Result<Told, OutOfMemory>
        ensures { IfOk result (λ told. (uri : List ℕ)
            → lookup (bytes_eq uri) told ≡ lookup (bytes_eq uri) known.now) }
    {
        let mut told = Told::new(alloc);
        for one in known {
            told.tell(alloc, one.uri().as_str(), one.hash().copied())?;
        }
        Ok(told)
    }

    /// Whether something is known of each URI that changes name.
    pub(crate) fn has_all(&self, changes: &[PublishDeltaElement]) -> bool
        ensures { IsTrue result ↔ AreKnown self.now changes.now }
    {
        for change in changes {
            if !self.has(uri_of(change).as_str()) {
                return false;
            }
        }
        true
    }

    /// Whether something is known of the object at a URI.
    pub(crate) fn has(&self, uri: &str) -> bool
        ensures { IsTrue result ↔ IsKnown self.now uri.now }
    {
        self.places.contains_key(uri)
    }

    /// The SHA-256 of the object at a URI, if it is known that there is one.
    pub(crate) fn hash_at(&self, uri: &str) -> Option<&Hash>
        ensures { option_map (λ h. h.now) result
            ≡ flattened (lookup (bytes_eq uri.now) self.now) }
    {
        self.places.get(uri)?.as_ref()
    }

    /// Adds what is known of the object at a URI, where nothing was.
    pub(crate) fn tell(
        &mut self,
        alloc: Global,
        uri: &str,
        hash: Option<Hash>,
    ) -> Result<(), OutOfMemory>
        ensures here { OnOk result (IsNone (lookup (bytes_eq uri.now) self.old)
            → lookup (bytes_eq uri.now) self.new ≡ Some hash) }
        ensures first { OnOk result ((there : Option (List ℕ))
            → lookup (bytes_eq uri.now) self.old ≡ Some there
            → lookup (bytes_eq uri.now) self.new ≡ Some there) }
        ensures elsewhere { OnOk result ((other : List ℕ) → bytes_eq other uri.now ≡ false
            → IsSameAt other self.old self.new) }
    {
        if self.places.contains_key(uri) {
            return Ok(());
        }
        let text = String::from_str(alloc, uri)?;
        self.places.insert(text, hash)?;
        Ok(())
    }

    /// Says anew what is at a URI of which something is known.
    pub(crate) fn set(&mut self, uri: &str, hash: Option<Hash>)
        ensures { self.new ≡ with_object self.old uri.now hash }
    {
        if let Some(place) = self.places.get_mut(uri) {
            *place = hash;
        }
    }
}
