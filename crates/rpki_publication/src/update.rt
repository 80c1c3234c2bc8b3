//! A publish element that replaces an object.

ghost use Rattle.std.specs.Prelude.{◌≡◌, ◌↔◌, Some, IfOk, IsTrue};
ghost use Rattle.std.specs.Option.{option_map};
ghost use Rattle.std.specs.Rc.{rc_str_bytes};
ghost use Rattle.hex.specs.Hex.{encode_lower};
ghost use Rattle.sha2.specs.Sha256.{sha256};
ghost use Rattle.rpki_publication.specs.Change.{IsWritableUpdate};
ghost use Rattle.rpki_publication.specs.Publish.{tag_text};

use crate::hash_tag::{hash_tag, tag_text};
use rpki_common::{OutOfMemory, Text};
use rpki_text::{Base64, Hash, uri};
use rpki_xmltext::{cloned, handed_out, is_plain_or_absent, shared, taken_in};
use std::alloc::Global;
use std::marker::Model;
use std::rc::RcStr;

/// An object that takes the place of another (RFC 8181, 2.2 and 3.2). In a clause it is the record of its fields.
#[derive(Debug, PartialEq, Eq)]
pub struct Update {
    tag: Option<Text>,
    uri: uri::Rsync,
    content: Base64,
    hash: Hash,
}

impl Drop for Update {
    fn drop(self) {
        let Update {
            tag,
            uri,
            content,
            hash,
        } = self;
    }
}

impl Model for Update {
    ghost use Rattle.rpki_publication.specs.Publish.{UpdateFields};

    ghost Value = { UpdateFields };

    ghost view = { λ p. record {
      tag = p.tag;
      uri = p.uri;
      content = p.content;
      hash = p.hash;
    } };

    ghost inverse = { λ p. record {
      tag = p.tag;
      uri = p.uri;
      content = p.content;
      hash = p.hash;
    } };
}

impl Update {
    /// An object with a tag that the client may choose, where it is published, its octets, and the digest of the object that it
    /// replaces.
    pub fn new(tag: Option<RcStr>, uri: uri::Rsync, content: Base64, old_hash: Hash) -> Update
        ensures { result ≡ record {
          tag = option_map rc_str_bytes tag;
          uri = uri;
          content = content;
          hash = old_hash;
        } }
    {
        let tag = taken_in(tag);
        Update {
            tag,
            uri,
            content,
            hash: old_hash,
        }
    }

    /// The replacement of an object, as `new` makes it: its tag is the SHA-256 digest of the new octets, in hexadecimal digits of lower
    /// case.
    pub fn with_hash_tag(
        alloc: Global,
        uri: uri::Rsync,
        content: Base64,
        old_hash: Hash,
    ) -> Result<Update, OutOfMemory>
        ensures { IfOk result (λ p. p ≡ record {
          tag = Some (encode_lower (sha256 content));
          uri = uri;
          content = content;
          hash = old_hash;
        }) }
    {
        let hash = content.to_hash(alloc)?;
        let tag = hash_tag(alloc, &hash)?;
        Ok(Update {
            tag: Some(tag),
            uri,
            content,
            hash: old_hash,
        })
    }

    /// Whether it can be written so that it is read again: the tag consists of octets that a document may have. It takes no memory.
    pub fn is_writable(&self) -> bool
        ensures { IsTrue result ↔ IsWritableUpdate self.now }
    {
        // For the proof: the URI is lawful, octets are octets, and the digest is one.
        let _uri = self.uri.as_str();
        let _content = self.content.as_str();
        let _hash = self.hash.as_slice();
        is_plain_or_absent(&self.tag)
    }

    /// The tag, where there is one.
    pub fn tag(&self) -> Option<&RcStr>
        ensures { option_map (λ t. rc_str_bytes t.now) result ≡ self.now.tag }
    {
        shared(&self.tag)
    }

    /// Where the object is published.
    pub fn uri(&self) -> &uri::Rsync
        ensures { result.now ≡ self.now.uri }
    {
        &self.uri
    }

    /// The object's octets.
    pub fn content(&self) -> &Base64
        ensures { result.now ≡ self.now.content }
    {
        &self.content
    }

    /// The digest of the object that it replaces.
    pub fn hash(&self) -> &Hash
        ensures { result.now ≡ self.now.hash }
    {
        &self.hash
    }

    /// The tag, the URI, the octets and the digest.
    pub fn unpack(self) -> (Option<RcStr>, uri::Rsync, Base64, Hash)
        ensures tag { option_map rc_str_bytes result.0 ≡ self.tag }
        ensures uri { result.1 ≡ self.uri }
        ensures content { result.2 ≡ self.content }
        ensures hash { result.3 ≡ self.hash }
    {
        let Update {
            tag,
            uri,
            content,
            hash,
        } = self;
        (handed_out(tag), uri, content, hash)
    }

    /// The tag that is written: empty where there is none.
    pub(crate) fn tag_text(&self) -> &str
        ensures { result.now ≡ tag_text self.now.tag }
    {
        tag_text(&self.tag)
    }

    /// An equal element, whose texts are shared with this one.
    pub fn clone(&self, alloc: Global) -> Result<Update, OutOfMemory>
        ensures { IfOk result (λ p. p ≡ self.now) }
    {
        let tag = cloned(alloc, &self.tag)?;
        let uri = self.uri.clone(alloc)?;
        let content = self.content.clone(alloc)?;
        Ok(Update {
            tag,
            uri,
            content,
            hash: self.hash,
        })
    }
}
