//! The objects that are kept, each at its URI.

ghost use Rattle.std.specs.Prelude.{◌≡◌, ℕ, [], IfOk, List, OnOk, Some, false, length};
ghost use Rattle.std.specs.Option.{option_map};
ghost use Rattle.std.specs.List.{AllByRecursion};
ghost use Rattle.std.specs.Map.{lookup};
ghost use Rattle.std.specs.Str.{bytes_eq};
ghost use Rattle.rpki_publication.specs.ListReply.{IsWritableListElement};
ghost use Rattle.rpki_pubserver.specs.Deciding.{AgreesOn};
ghost use Rattle.rpki_pubserver.specs.Places.{HasPlace, IsEmptyAt, IsSameAt, NoneIsEmpty, live, with_object, with_octets};
ghost use Rattle.rpki_pubserver.specs.Store.{IsStore, digest_at, listed_store, octets_at};

use crate::changes::uri_of;
use crate::object::Object;
use crate::told::Told;
use rpki_common::OutOfMemory;
use rpki_publication::{ListElement, ListReply, PublishDeltaElement};
use rpki_text::{Hash, uri};
use std::alloc::Global;
use std::collections::BTreeMap;
use std::marker::Model;
use std::mem;

/// Objects by their URIs' texts, in the order of these. A place may be empty: while changes are made,
/// there is a place for each URI that they name, so that they take no memory. A look-up among n places
/// takes log n comparisons. In a clause it is the list of the places.
#[derive(Drop)]
pub(crate) struct Objects {
    places: BTreeMap<String, Option<Object>>,
}

impl Model for Objects {
    ghost use Rattle.std.specs.BTreeMap.{IsOrdered};
    ghost use Rattle.std.specs.String.{string_cmp};
    ghost use Rattle.rpki_pubserver.specs.Deciding.{AgreesOn};
    ghost use Rattle.rpki_pubserver.specs.Places.{Places, placed};

    ghost Value = { Places };

    ghost view = { λ o. placed o.places.entries };

    ghost invariant = { λ o. IsOrdered string_cmp o.places };
}

impl Objects {
    /// No objects. It takes no memory.
    pub(crate) fn new(alloc: Global) -> Objects
        ensures { result ≡ [] }
    {
        Objects {
            places: BTreeMap::new(alloc),
        }
    }

    /// The object at a URI.
    pub(crate) fn get(&self, uri: &str) -> Option<&Object>
        ensures { option_map (λ o. o.now) result ≡ octets_at (live self.now) uri.now }
    {
        self.places.get(uri)?.as_ref()
    }

    /// The SHA-256 of the object at a URI.
    fn hash_at(&self, uri: &str) -> Option<Hash>
        ensures { result ≡ digest_at (live self.now) uri.now }
    {
        match self.get(uri) {
            Some(object) => Some(*object.hash()),
            None => None,
        }
    }

    /// What is so of the objects at the URIs of changes.
    pub(crate) fn told(
        &self,
        alloc: Global,
        changes: &[PublishDeltaElement],
    ) -> Result<Told, OutOfMemory>
        ensures told { IfOk result (λ told. AgreesOn (live self.now) told changes.now) }
        ensures ordered { IsStore (live self.now) }
    {
        // For the proof: the places are in the order of their texts.
        let _ = &self.places;
        let mut told = Told::new(alloc);
        for change in changes {
            let uri = uri_of(change).as_str();
            told.tell(alloc, uri, self.hash_at(uri))?;
        }
        Ok(told)
    }

    /// How many objects there are, which is how many places, since none is empty.
    pub(crate) fn len(&self) -> usize
        requires { NoneIsEmpty self.now }
        ensures number { result ≡ length (live self.now) }
        ensures ordered { IsStore (live self.now) }
    {
        self.places.len()
    }

    /// The list of all objects, by their URIs and digests. The keys are the texts of URIs, so memory
    /// alone is wanting where one isn't read.
    pub(crate) fn list(&self, alloc: Global) -> Result<ListReply, OutOfMemory>
        ensures list { IfOk result (λ reply. reply ≡ listed_store (live self.now)) }
        ensures writable { IfOk result (AllByRecursion IsWritableListElement) }
    {
        let mut elements = Vec::new(alloc);
        for (text, place) in &self.places {
            if let Some(object) = place {
                let Ok(uri) = uri::Rsync::from_str(alloc, text.as_str()) else {
                    return Err(OutOfMemory);
                };
                elements.push(ListElement::new(uri, *object.hash()))?;
            }
        }
        Ok(ListReply::new(elements))
    }

    /// Makes a place for a URI, which is empty where there was none. After a refusal all is as before.
    pub(crate) fn make_place(&mut self, alloc: Global, uri: &str) -> Result<(), OutOfMemory>
        ensures here { OnOk result (HasPlace self.new uri.now) }
        ensures others { (other : List ℕ) → HasPlace self.old other → HasPlace self.new other }
        ensures elsewhere { (other : List ℕ) → bytes_eq other uri.now ≡ false
            → IsSameAt other self.old self.new }
        ensures live { live self.new ≡ live self.old }
    {
        if self.places.contains_key(uri) {
            return Ok(());
        }
        let text = String::from_str(alloc, uri)?;
        self.places.insert(text, None)?;
        Ok(())
    }

    /// Exchanges what is at a place, which has to be there, for this object, or for none.
    pub(crate) fn exchange(&mut self, uri: &str, object: &mut Option<Object>)
        requires { HasPlace self.old uri.now }
        ensures put { self.new ≡ with_object self.old uri.now object.old }
        ensures live { live self.new ≡ with_octets (live self.old) uri.now object.old }
        ensures taken { Some object.new ≡ lookup (bytes_eq uri.now) self.old }
    {
        if let Some(place) = self.places.get_mut(uri) {
            mem::swap(place, object);
        }
    }

    /// Takes a place out if it is empty.
    pub(crate) fn drop_place(&mut self, uri: &str)
        ensures dropped { IsEmptyAt self.new uri.now → ⊥ }
        ensures elsewhere { (other : List ℕ) → bytes_eq other uri.now ≡ false
            → IsSameAt other self.old self.new }
        ensures live { live self.new ≡ live self.old }
    {
        match self.places.get(uri) {
            Some(None) => {
                self.places.remove(uri);
            }
            Some(Some(_)) => {}
            None => {}
        }
    }
}
