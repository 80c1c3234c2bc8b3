//! Questions to a scheme, one by one.

ghost use Rattle.std.specs.Prelude.{◌≡◌, IfOk, Some};
ghost use Rattle.rpki_external.specs.Answers.{asks};
ghost use Rattle.rpki_external.specs.Question.{under};
ghost use Rattle.rpki_external.specs.Spelling.{part_name};

use bytes::Bytes;
use rpki_base::PublicKey;
use rpki_common::OutOfMemory;
use std::alloc::Global;
use std::fmt;
use std::marker::Model;

/// The part whose signature a question is of. It prints as its name, which is the variant's in small letters.
#[derive(Clone, Copy, Debug, PartialEq, Eq)]
pub enum Part {
    /// The signed attributes of a signed message.
    Attributes,
    /// The certificate of a signed message.
    Certificate,
    /// A CRL of a signed message.
    Crl,
    /// A trust anchor's certificate.
    Anchor,
    /// A certificate request.
    Request,
}

impl fmt::Display for Part {
    ghost output = { λ part. Some (part_name part) };

    fn fmt<W: fmt::Write>(&self, f: &mut fmt::Formatter<W>) -> fmt::Result {
        f.write_str(match self {
            Part::Attributes => "attributes",
            Part::Certificate => "certificate",
            Part::Crl => "crl",
            Part::Anchor => "anchor",
            Part::Request => "request",
        })
    }
}

/// A question to a scheme: whether a signature of RSA with SHA-256 is one of these octets under a key (RFC 7935, 2).
///
/// In a clause it is the record of these, with the part that they are of.
#[derive(Drop)]
pub struct Question {
    part: Part,
    key: PublicKey,
    octets: Bytes,
    signature: Bytes,
}

impl Model for Question {
    ghost use Rattle.rpki_external.specs.Question.{QuestionFields};

    ghost Value = { QuestionFields };

    ghost view = { λ q. record {
      part = q.part;
      key = q.key;
      octets = q.octets;
      signature = q.signature;
    } };
}

impl Question {
    /// The question whether this signature is one of the octets under the key.
    pub(crate) fn new(part: Part, key: PublicKey, octets: Bytes, signature: Bytes) -> Question
        ensures { result ≡ record {
          part = part;
          key = key;
          octets = octets;
          signature = signature;
        } }
    {
        Question {
            part,
            key,
            octets,
            signature,
        }
    }

    /// The part that it is of.
    pub fn part(&self) -> Part
        ensures { result ≡ self.now.part }
    {
        self.part
    }

    /// The key under which the signature is to hold.
    pub fn key(&self) -> &PublicKey
        ensures { result.now ≡ self.now.key }
    {
        &self.key
    }

    /// The exact octets that are signed.
    pub fn octets(&self) -> &Bytes
        ensures { result.now ≡ self.now.octets }
    {
        &self.octets
    }

    /// The octets of the signature.
    pub fn signature(&self) -> &Bytes
        ensures { result.now ≡ self.now.signature }
    {
        &self.signature
    }

    /// An equal question, which shares the octets.
    pub fn clone(&self, alloc: Global) -> Result<Question, OutOfMemory>
        ensures { IfOk result (λ q. q ≡ self.now) }
    {
        let key = self.key.clone(alloc)?;
        let octets = self.octets.clone()?;
        let signature = self.signature.clone()?;
        Ok(Question::new(self.part, key, octets, signature))
    }

    /// Whether it asks for this.
    pub(crate) fn asks(&self, key: &PublicKey, message: &[u8], signature: &[u8]) -> bool
        ensures { result ≡ asks self.now key.now message.now signature.now }
    {
        self.key() == key
            && self.octets.as_slice() == message
            && self.signature.as_slice() == signature
    }
}

/// A part that is signed: the octets of it that the signature covers, and the signature. In a clause it is the record of these, with
/// the part that they are of.
#[derive(Drop)]
pub struct SignedPart {
    part: Part,
    octets: Bytes,
    signature: Bytes,
}

impl Model for SignedPart {
    ghost use Rattle.rpki_external.specs.Question.{SignedPartFields};

    ghost Value = { SignedPartFields };

    ghost view = { λ p. record {
      part = p.part;
      octets = p.octets;
      signature = p.signature;
    } };
}

impl SignedPart {
    /// These octets of the part, with this signature.
    pub(crate) fn new(part: Part, octets: Bytes, signature: Bytes) -> SignedPart
        ensures { result ≡ record {
          part = part;
          octets = octets;
          signature = signature;
        } }
    {
        SignedPart {
            part,
            octets,
            signature,
        }
    }

    /// Which part it is.
    pub fn part(&self) -> Part
        ensures { result ≡ self.now.part }
    {
        self.part
    }

    /// The exact octets that are signed.
    pub fn octets(&self) -> &Bytes
        ensures { result.now ≡ self.now.octets }
    {
        &self.octets
    }

    /// The octets of the signature.
    pub fn signature(&self) -> &Bytes
        ensures { result.now ≡ self.now.signature }
    {
        &self.signature
    }

    /// The question whether it is signed under this key.
    pub(crate) fn under(&self, alloc: Global, key: &PublicKey) -> Result<Question, OutOfMemory>
        ensures { IfOk result (λ q. q ≡ under key.now self.now) }
    {
        let key = key.clone(alloc)?;
        let octets = self.octets.clone()?;
        let signature = self.signature.clone()?;
        Ok(Question::new(self.part, key, octets, signature))
    }
}
