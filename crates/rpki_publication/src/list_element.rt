//! An object in a list.

ghost use Rattle.std.specs.Prelude.{◌≡◌, IfOk};
ghost use Rattle.rpki_publication.specs.ListReply.{IsWritableListElement};

use rpki_common::OutOfMemory;
use rpki_text::{Hash, uri};
use std::alloc::Global;
use std::marker::Model;

/// An object that is published, by where it is and its digest (RFC 8181, 2.3). In a clause it is the record of its fields.
#[derive(Debug, PartialEq, Eq, std::hash::Hash)]
pub struct ListElement {
    uri: uri::Rsync,
    hash: Hash,
}

impl Drop for ListElement {
    fn drop(self) {
        let ListElement { uri, hash } = self;
    }
}

impl Model for ListElement {
    ghost use Rattle.rpki_publication.specs.ListElement.{ListElementFields};

    ghost Value = { ListElementFields };

    ghost view = { λ e. record { uri = e.uri; hash = e.hash } };

    ghost inverse = { λ e. record { uri = e.uri; hash = e.hash } };
}

impl ListElement {
    /// Where an object is published, and its digest.
    pub fn new(uri: uri::Rsync, hash: Hash) -> ListElement
        ensures { result ≡ record { uri = uri; hash = hash } }
    {
        ListElement { uri, hash }
    }

    /// Where the object is published. Each list element can be written so that it is read again.
    pub fn uri(&self) -> &uri::Rsync
        ensures uri { result.now ≡ self.now.uri }
        ensures writable { IsWritableListElement self.now }
    {
        // For the proof: the URI is lawful, and the digest is one.
        let _uri = self.uri.as_str();
        let _hash = self.hash.as_slice();
        &self.uri
    }

    /// The digest of the object.
    pub fn hash(&self) -> &Hash
        ensures { result.now ≡ self.now.hash }
    {
        &self.hash
    }

    /// The URI and the digest.
    pub fn unpack(self) -> (uri::Rsync, Hash)
        ensures uri { result.0 ≡ self.uri }
        ensures hash { result.1 ≡ self.hash }
    {
        let ListElement { uri, hash } = self;
        (uri, hash)
    }

    /// An equal element, whose text is shared with this one.
    pub fn clone(&self, alloc: Global) -> Result<ListElement, OutOfMemory>
        ensures { IfOk result (λ e. e ≡ self.now) }
    {
        Ok(ListElement {
            uri: self.uri.clone(alloc)?,
            hash: self.hash,
        })
    }
}
