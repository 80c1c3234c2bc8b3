//! A publish element that replaces no object.

ghost use Rattle.std.specs.Prelude.{◌≡◌, ◌↔◌, Some, IfOk, IsTrue};
ghost use Rattle.std.specs.Option.{option_map};
ghost use Rattle.std.specs.Rc.{rc_str_bytes};
ghost use Rattle.hex.specs.Hex.{encode_lower};
ghost use Rattle.sha2.specs.Sha256.{sha256};
ghost use Rattle.rpki_publication.specs.Change.{IsWritablePublish};
ghost use Rattle.rpki_publication.specs.Publish.{tag_text};

use crate::hash_tag::{hash_tag, tag_text};
use rpki_common::{OutOfMemory, Text};
use rpki_text::{Base64, uri};
use rpki_xmltext::{cloned, handed_out, is_plain_or_absent, shared, taken_in};
use std::alloc::Global;
use std::marker::Model;
use std::rc::RcStr;

/// An object that is published where none was (RFC 8181, 2.2 and 3.1). In a clause it is the record of its fields.
#[derive(Debug, PartialEq, Eq)]
pub struct Publish {
    tag: Option<Text>,
    uri: uri::Rsync,
    content: Base64,
}

impl Drop for Publish {
    fn drop(self) {
        let Publish { tag, uri, content } = self;
    }
}

impl Model for Publish {
    ghost use Rattle.rpki_publication.specs.Publish.{PublishFields};

    ghost Value = { PublishFields };

    ghost view = { λ p. record { tag = p.tag; uri = p.uri; content = p.content } };

    ghost inverse = { λ p. record { tag = p.tag; uri = p.uri; content = p.content } };
}

impl Publish {
    /// An object with a tag that the client may choose, where it is published, and its octets.
    pub fn new(tag: Option<RcStr>, uri: uri::Rsync, content: Base64) -> Publish
        ensures { result
            ≡ record { tag = option_map rc_str_bytes tag; uri = uri; content = content } }
    {
        let tag = taken_in(tag);
        Publish { tag, uri, content }
    }

    /// A new object, as `new` makes it: its tag is the SHA-256 digest of the octets, in hexadecimal digits of lower case.
    pub fn with_hash_tag(
        alloc: Global,
        uri: uri::Rsync,
        content: Base64,
    ) -> Result<Publish, OutOfMemory>
        ensures { IfOk result (λ p. p ≡ record {
          tag = Some (encode_lower (sha256 content));
          uri = uri;
          content = content;
        }) }
    {
        let hash = content.to_hash(alloc)?;
        let tag = hash_tag(alloc, &hash)?;
        Ok(Publish {
            tag: Some(tag),
            uri,
            content,
        })
    }

    /// Whether it can be written so that it is read again: the tag consists of octets that a document may have. It takes no memory.
    pub fn is_writable(&self) -> bool
        ensures { IsTrue result ↔ IsWritablePublish self.now }
    {
        // For the proof: the URI is lawful, and octets are octets.
        let _uri = self.uri.as_str();
        let _content = self.content.as_str();
        is_plain_or_absent(&self.tag)
    }

    /// The tag, where there is one.
    pub fn tag(&self) -> Option<&RcStr>
        ensures { option_map (λ t. rc_str_bytes t.now) result ≡ self.now.tag }
    {
        shared(&self.tag)
    }

    /// Where the object is published.
    pub fn uri(&self) -> &uri::Rsync
        ensures { result.now ≡ self.now.uri }
    {
        &self.uri
    }

    /// The object's octets.
    pub fn content(&self) -> &Base64
        ensures { result.now ≡ self.now.content }
    {
        &self.content
    }

    /// The tag, the URI and the octets.
    pub fn unpack(self) -> (Option<RcStr>, uri::Rsync, Base64)
        ensures tag { option_map rc_str_bytes result.0 ≡ self.tag }
        ensures uri { result.1 ≡ self.uri }
        ensures content { result.2 ≡ self.content }
    {
        let Publish { tag, uri, content } = self;
        (handed_out(tag), uri, content)
    }

    /// The tag that is written: empty where there is none.
    pub(crate) fn tag_text(&self) -> &str
        ensures { result.now ≡ tag_text self.now.tag }
    {
        tag_text(&self.tag)
    }

    /// An equal element, whose texts are shared with this one.
    pub fn clone(&self, alloc: Global) -> Result<Publish, OutOfMemory>
        ensures { IfOk result (λ p. p ≡ self.now) }
    {
        let tag = cloned(alloc, &self.tag)?;
        let uri = self.uri.clone(alloc)?;
        let content = self.content.clone(alloc)?;
        Ok(Publish { tag, uri, content })
    }
}
