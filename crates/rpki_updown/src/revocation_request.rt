//! A request for revocation.

ghost use Rattle.std.specs.Prelude.{◌≡◌, IfOk};

use crate::key_element::KeyElement;
use crate::resource_class_name::ResourceClassName;
use rpki_base::KeyIdentifier;
use rpki_common::OutOfMemory;
use std::alloc::Global;
use std::marker::Model;

/// Asks that the certificates of a key in a resource class be revoked (RFC 6492, 3.5.1). In a clause it is the record of both.
#[derive(Debug, PartialEq, Eq, Hash)]
pub struct RevocationRequest {
    key: KeyElement,
}

impl Drop for RevocationRequest {
    fn drop(self) {
        let RevocationRequest { key } = self;
    }
}

impl Model for RevocationRequest {
    ghost use Rattle.rpki_updown.specs.KeyElement.{KeyElementFields};

    ghost Value = { KeyElementFields };

    ghost view = { λ r. r.key };

    ghost inverse = { λ e. record { key = e } };
}

impl RevocationRequest {
    /// Asks for this resource class and this key.
    pub fn new(class_name: ResourceClassName, key: KeyIdentifier) -> RevocationRequest
        ensures { result ≡ record { class_name = class_name; key = key } }
    {
        RevocationRequest {
            key: KeyElement::new(class_name, key),
        }
    }

    /// The name of the resource class and the key.
    pub fn unpack(self) -> (ResourceClassName, KeyIdentifier)
        ensures class_name { result.0 ≡ self.class_name }
        ensures key { result.1 ≡ self.key }
    {
        let RevocationRequest { key } = self;
        key.unpack()
    }

    /// The key, by its identifier.
    pub fn key(&self) -> KeyIdentifier
        ensures { result ≡ self.now.key }
    {
        *self.key.key()
    }

    /// The name of the resource class.
    pub fn class_name(&self) -> &ResourceClassName
        ensures { result.now ≡ self.now.class_name }
    {
        self.key.class_name()
    }

    /// Both, as one element.
    pub fn key_element(&self) -> &KeyElement
        ensures { result.now ≡ self.now }
    {
        &self.key
    }

    /// An equal request, whose text is shared with this one.
    pub fn clone(&self, alloc: Global) -> Result<RevocationRequest, OutOfMemory>
        ensures { IfOk result (λ r. r ≡ self.now) }
    {
        Ok(RevocationRequest {
            key: self.key.clone(alloc)?,
        })
    }
}
