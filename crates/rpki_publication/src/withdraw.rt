//! A withdraw element.

ghost use Rattle.std.specs.Prelude.{◌≡◌, ◌↔◌, Some, IfOk, IsTrue};
ghost use Rattle.std.specs.Option.{option_map};
ghost use Rattle.std.specs.Rc.{rc_str_bytes};
ghost use Rattle.hex.specs.Hex.{encode_lower};
ghost use Rattle.rpki_publication.specs.Change.{IsWritableWithdraw};
ghost use Rattle.rpki_publication.specs.Publish.{tag_text};

use crate::hash_tag::{hash_tag, tag_text};
use rpki_common::{OutOfMemory, Text};
use rpki_text::{Hash, uri};
use rpki_xmltext::{cloned, handed_out, is_plain_or_absent, shared, taken_in};
use std::alloc::Global;
use std::marker::Model;
use std::rc::RcStr;

/// An object that is removed (RFC 8181, 2.2 and 3.3). In a clause it is the record of its fields.
#[derive(Debug, PartialEq, Eq)]
pub struct Withdraw {
    tag: Option<Text>,
    uri: uri::Rsync,
    hash: Hash,
}

impl Drop for Withdraw {
    fn drop(self) {
        let Withdraw { tag, uri, hash } = self;
    }
}

impl Model for Withdraw {
    ghost use Rattle.rpki_publication.specs.Publish.{WithdrawFields};

    ghost Value = { WithdrawFields };

    ghost view = { λ w. record { tag = w.tag; uri = w.uri; hash = w.hash } };

    ghost inverse = { λ w. record { tag = w.tag; uri = w.uri; hash = w.hash } };
}

impl Withdraw {
    /// A tag that the client may choose, where the object is published, and the object's digest.
    pub fn new(tag: Option<RcStr>, uri: uri::Rsync, hash: Hash) -> Withdraw
        ensures { result ≡ record { tag = option_map rc_str_bytes tag; uri = uri; hash = hash } }
    {
        let tag = taken_in(tag);
        Withdraw { tag, uri, hash }
    }

    /// An object that is removed, as `new` makes it: its tag is the digest, in hexadecimal digits of lower case.
    pub fn with_hash_tag(
        alloc: Global,
        uri: uri::Rsync,
        hash: Hash,
    ) -> Result<Withdraw, OutOfMemory>
        ensures { IfOk result (λ w.
            w ≡ record { tag = Some (encode_lower hash); uri = uri; hash = hash }) }
    {
        let tag = hash_tag(alloc, &hash)?;
        Ok(Withdraw {
            tag: Some(tag),
            uri,
            hash,
        })
    }

    /// Whether it can be written so that it is read again: the tag consists of octets that a document may have. It takes no memory.
    pub fn is_writable(&self) -> bool
        ensures { IsTrue result ↔ IsWritableWithdraw self.now }
    {
        // For the proof: the URI is lawful, and the digest is one.
        let _uri = self.uri.as_str();
        let _hash = self.hash.as_slice();
        is_plain_or_absent(&self.tag)
    }

    /// The tag, where there is one.
    pub fn tag(&self) -> Option<&RcStr>
        ensures { option_map (λ t. rc_str_bytes t.now) result ≡ self.now.tag }
    {
        shared(&self.tag)
    }

    /// Where the object is published.
    pub fn uri(&self) -> &uri::Rsync
        ensures { result.now ≡ self.now.uri }
    {
        &self.uri
    }

    /// The digest of the object.
    pub fn hash(&self) -> &Hash
        ensures { result.now ≡ self.now.hash }
    {
        &self.hash
    }

    /// The tag, the URI and the digest.
    pub fn unpack(self) -> (Option<RcStr>, uri::Rsync, Hash)
        ensures tag { option_map rc_str_bytes result.0 ≡ self.tag }
        ensures uri { result.1 ≡ self.uri }
        ensures hash { result.2 ≡ self.hash }
    {
        let Withdraw { tag, uri, hash } = self;
        (handed_out(tag), uri, hash)
    }

    /// The tag that is written: empty where there is none.
    pub(crate) fn tag_text(&self) -> &str
        ensures { result.now ≡ tag_text self.now.tag }
    {
        tag_text(&self.tag)
    }

    /// An equal element, whose texts are shared with this one.
    pub fn clone(&self, alloc: Global) -> Result<Withdraw, OutOfMemory>
        ensures { IfOk result (λ w. w ≡ self.now) }
    {
        let tag = cloned(alloc, &self.tag)?;
        let uri = self.uri.clone(alloc)?;
        Ok(Withdraw {
            tag,
            uri,
            hash: self.hash,
        })
    }
}
