//! Lists that grow in two steps.

ghost use Rattle.std.specs.Prelude.{◌≡◌, ◌≤◌, ◌<◌, ◌++◌, ◌∷◌, [], length, take, drop, suc, OnOk};

use rpki_common::OutOfMemory;
use std::alloc::Global;
use std::marker::Model;

/// A list that is made without an allocator. It grows in two steps: room is made, which takes memory, and then an item is put there,
/// which takes none. In a clause it is the record of its items and of the room for more.
#[derive(Drop)]
pub(crate) struct Kept<T: Drop> {
    items: Option<Vec<T>>,
}

impl<T: Drop> Model for Kept<T> {
    ghost use Rattle.rpki_upserver.specs.Kept.{KeptItems, kept_items};

    ghost Value = { KeptItems T };

    ghost view = { λ k. kept_items k.items };
}

impl<T: Drop> Kept<T> {
    /// No items, and no room.
    pub(crate) fn new() -> Kept<T>
        ensures { result ≡ record { items = []; room = 0 } }
    {
        Kept { items: None }
    }

    /// The items.
    pub(crate) fn as_slice(&self) -> &[T]
        ensures { result.now ≡ self.now.items }
    {
        match &self.items {
            Some(items) => items.as_slice(),
            None => &[],
        }
    }

    /// Makes room for one more.
    pub(crate) fn make_room(&mut self, alloc: Global) -> Result<(), OutOfMemory>
        ensures items { self.new.items ≡ self.old.items }
        ensures room { OnOk result (1 ≤ self.new.room) }
    {
        match &mut self.items {
            Some(items) => items.reserve(1)?,
            None => self.items = Some(Vec::with_capacity(alloc, 1)?),
        }
        Ok(())
    }

    /// Puts an item behind the others.
    pub(crate) fn push(&mut self, item: T)
        requires { 1 ≤ self.old.room }
        ensures { self.new.items ≡ self.old.items ++ item ∷ [] }
    {
        if let Some(items) = &mut self.items {
            // `make_room` made room for the item, so this takes no memory and isn't refused.
            let _ = items.push(item);
        }
    }

    /// Puts an item in the place of another.
    pub(crate) fn replace(&mut self, place: usize, item: T)
        requires { place < length self.old.items }
        ensures { self.new.items
            ≡ take place self.old.items ++ item ∷ drop (suc place) self.old.items }
    {
        if let Some(items) = &mut self.items {
            items[place] = item;
        }
    }

    /// Takes an item out.
    pub(crate) fn remove(&mut self, place: usize)
        requires { place < length self.old.items }
        ensures { self.new.items ≡ take place self.old.items ++ drop (suc place) self.old.items }
    {
        if let Some(items) = &mut self.items {
            items.remove(place);
        }
    }
}
