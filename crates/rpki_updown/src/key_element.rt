//! A key of a resource class.

ghost use Rattle.std.specs.Prelude.{◌≡◌, Some, IfOk};
ghost use Rattle.rpki_updown.specs.KeyElement.{key_element_text};

use crate::resource_class_name::ResourceClassName;
use rpki_base::KeyIdentifier;
use rpki_common::OutOfMemory;
use std::alloc::Global;
use std::fmt;
use std::marker::Model;

/// A key and the resource class in which it is certified: the element `key` (RFC 6492, 3.5.1 and 3.5.2). In a clause it is the record of
/// its fields.
#[derive(Debug, PartialEq, Eq, Hash)]
pub struct KeyElement {
    class_name: ResourceClassName,
    key: KeyIdentifier,
}

impl Drop for KeyElement {
    fn drop(self) {
        let KeyElement { class_name, key } = self;
    }
}

impl Model for KeyElement {
    ghost use Rattle.rpki_updown.specs.KeyElement.{KeyElementFields};

    ghost Value = { KeyElementFields };

    ghost view = { λ e. record { class_name = e.class_name; key = e.key } };

    ghost inverse = { λ e. record { class_name = e.class_name; key = e.key } };
}

impl KeyElement {
    /// A resource class and a key.
    pub fn new(class_name: ResourceClassName, key: KeyIdentifier) -> KeyElement
        ensures { result ≡ record { class_name = class_name; key = key } }
    {
        KeyElement { class_name, key }
    }

    /// The name of the resource class.
    pub fn class_name(&self) -> &ResourceClassName
        ensures { result.now ≡ self.now.class_name }
    {
        &self.class_name
    }

    /// The key, by its identifier.
    pub fn key(&self) -> &KeyIdentifier
        ensures { result.now ≡ self.now.key }
    {
        &self.key
    }

    /// The name and the key.
    pub(crate) fn unpack(self) -> (ResourceClassName, KeyIdentifier)
        ensures class_name { result.0 ≡ self.class_name }
        ensures key { result.1 ≡ self.key }
    {
        let KeyElement { class_name, key } = self;
        (class_name, key)
    }

    /// An equal element, whose text is shared with this one.
    pub fn clone(&self, alloc: Global) -> Result<KeyElement, OutOfMemory>
        ensures { IfOk result (λ e. e ≡ self.now) }
    {
        Ok(KeyElement {
            class_name: self.class_name.clone(alloc)?,
            key: self.key,
        })
    }
}

impl fmt::Display for KeyElement {
    ghost output = { λ e. Some (key_element_text e) };

    fn fmt<W: fmt::Write>(&self, f: &mut fmt::Formatter<W>) -> fmt::Result {
        let class_name = &self.class_name;
        let key = &self.key;
        write!(f, "class name '{class_name}' key '{key}'")
    }
}
