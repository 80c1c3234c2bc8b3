//! Octets that travel as base64 text.

ghost use Rattle.std.specs.Prelude.{ℕ, List, ◌≡◌, ◌↔◌, ◌≤◌, ◌+◌, ◌*◌, ◌/◌, Some, None, Ok, IfOk, IsErrOf, IsTrue, length, filter, nat_eq, string_bytes};
ghost use Rattle.std.specs.List.{list_all};
ghost use Rattle.std.specs.Cmp.Lexicographic.{pointwise, nat_list_eq_equiv};
ghost use Rattle.std.specs.Cmp.{partial_equiv_from_equiv};
ghost use Rattle.base64.specs.Engines.{standard};
ghost use Rattle.base64.specs.GeneralPurpose.{encode_of, decode_of, decoded_of, IsBytes};
ghost use Rattle.serde_json.specs.Data.{string};
ghost use Rattle.serde_json.specs.Written.{compact_text};
ghost use Rattle.sha2.specs.Sha256.{sha256};
ghost use Rattle.rpki_text.specs.Base64.{is_not_space, IsBase64Text, base64_content, base64_content_of_json, octets_of_json};
ghost use Rattle.rpki_text.specs.declared.base64_text.Base64Error.TheVariants as variant;

use crate::digests::Hash;
use crate::json::{JsonError, read_string, write_string};
use base64::DecodeAllocError;
use base64::engine::general_purpose::STANDARD;
use bytes::Bytes;
use rpki_common::{OutOfMemory, Text};
use std::alloc::{AllocError, Global};
use std::fmt;
use std::marker::Model;
use thiserror::Error;

/// Why a text is no base64 text.
#[derive(Clone, Copy, Debug, PartialEq, Eq, Error)]
pub enum Base64Error {
    /// Without its white space the text is not the base64 text of any octets.
    #[error("malformed base64")]
    Malformed,
    /// Memory ran out.
    #[error("out of memory")]
    OutOfMemory,
}

impl From<AllocError> for Base64Error {
    ghost from_gives = { λ _ e. e ≡ variant.OutOfMemory };

    fn from(_: AllocError) -> Base64Error {
        Base64Error::OutOfMemory
    }
}

impl From<OutOfMemory> for Base64Error {
    ghost from_gives = { λ _ e. e ≡ variant.OutOfMemory };

    fn from(_: OutOfMemory) -> Base64Error {
        Base64Error::OutOfMemory
    }
}

/// Octets, held as their base64 text (RFC 4648, section 4): the standard alphabet, padded, with no
/// white space. In a clause it is the list of the octets.
#[derive(Debug)]
pub struct Base64 {
    text: Text,
}

impl Drop for Base64 {
    fn drop(self) {
        let Base64 { text } = self;
    }
}

impl Model for Base64 {
    ghost use Rattle.std.specs.Prelude.{ℕ, List};
    ghost use Rattle.rpki_text.specs.Base64.{held_content, IsHeld};

    ghost Value = { List ℕ };

    ghost view = { λ b. held_content b.text };

    ghost invariant = { λ b. IsHeld b.text };
}

impl Base64 {
    /// The octets `content`, of which the base64 text is made.
    pub fn from_content(alloc: Global, content: &[u8]) -> Result<Base64, OutOfMemory>
        ensures { IfOk result (λ b. b ≡ content.now) }
    {
        let text = STANDARD.encode(alloc, content)?;
        Ok(Base64 {
            text: Text::from_str(alloc, text.as_str())?,
        })
    }

    /// The octets that base64 text spells, as a message holds it: white space in it counts for
    /// nothing, and the rest is the one text that RFC 4648 gives these octets, with its padding and
    /// with zeros in the bits that are left over. Malformed exactly where the text spells no octets.
    pub fn from_str(alloc: Global, text: &str) -> Result<Base64, Base64Error>
        ensures content { IfOk result (λ b. base64_content text.now ≡ Some b) }
        ensures spelled { IfOk result (λ b. IsBase64Text text.now b) }
        ensures malformed { IsErrOf result Base64Error.Malformed → base64_content text.now ≡ None }
        ensures none { IsErrOf result Base64Error.Malformed
            → (octets : List ℕ) → ¬ (IsBase64Text text.now octets) }
    {
        if is_without_space(text.as_bytes()) {
            return Base64::from_spelling(alloc, text);
        }
        let spelling = without_space(alloc, text.as_bytes())?;
        let content = match STANDARD.decode(alloc, &spelling) {
            Ok(content) => content,
            Err(DecodeAllocError::OutOfMemory) => return Err(Base64Error::OutOfMemory),
            Err(DecodeAllocError::DecodeError(_)) => return Err(Base64Error::Malformed),
        };
        Ok(Base64::from_content(alloc, &content)?)
    }

    // The octets that a text spells as it stands. It is kept, since it is the one that they have.
    fn from_spelling(alloc: Global, text: &str) -> Result<Base64, Base64Error>
        ensures content { IfOk result (λ b. decoded_of standard text.now ≡ Some b) }
        ensures bytes { IfOk result IsBytes }
        ensures spelled { IfOk result (λ b. text.now ≡ encode_of standard b) }
        ensures malformed { IsErrOf result Base64Error.Malformed
            → decoded_of standard text.now ≡ None }
    {
        let _content = match STANDARD.decode(alloc, text.as_bytes()) {
            Ok(content) => content,
            Err(DecodeAllocError::OutOfMemory) => return Err(Base64Error::OutOfMemory),
            Err(DecodeAllocError::DecodeError(_)) => return Err(Base64Error::Malformed),
        };
        Ok(Base64 {
            text: Text::from_str(alloc, text)?,
        })
    }

    /// The octets that the one string of a JSON text spells, read as [`Base64::from_str`] does.
    /// Malformed exactly where the text is no JSON or no string, or where the string spells no octets.
    pub fn from_json(alloc: Global, text: &str) -> Result<Base64, JsonError>
        ensures content { IfOk result (λ b. base64_content_of_json text.now ≡ Some b) }
        ensures malformed { IsErrOf result JsonError.Malformed
            → base64_content_of_json text.now ≡ None }
    {
        let spelling = read_string(alloc, text)?;
        match Base64::from_str(alloc, spelling.as_str()) {
            Ok(found) => Ok(found),
            Err(Base64Error::Malformed) => Err(JsonError::Malformed),
            Err(Base64Error::OutOfMemory) => Err(JsonError::OutOfMemory),
        }
    }

    /// The base64 text as a JSON text, which is one string.
    pub fn to_json(&self, alloc: Global) -> Result<String, OutOfMemory>
        ensures text { IfOk result (λ s.
            string_bytes s ≡ compact_text (string (encode_of standard self.now))) }
        ensures again { IfOk result (λ s. base64_content_of_json (string_bytes s) ≡ Some self.now) }
    {
        write_string(alloc, self.as_str())
    }

    /// The octets.
    pub fn to_bytes(&self, alloc: Global) -> Result<Bytes, OutOfMemory>
        ensures { IfOk result (λ b. b ≡ self.now) }
    {
        match STANDARD.decode(alloc, self.text.as_str().as_bytes()) {
            Ok(content) => Ok(Bytes::from_vec(content)?),
            Err(DecodeAllocError::OutOfMemory) => Err(OutOfMemory),
            Err(DecodeAllocError::DecodeError(_)) => unreachable!(),
        }
    }

    /// The SHA-256 digest of the octets: 32 octets.
    pub fn to_hash(&self, alloc: Global) -> Result<Hash, OutOfMemory>
        ensures { IfOk result (λ h. h ≡ sha256 self.now) }
    {
        let content = self.to_bytes(alloc)?;
        Ok(Hash::from_data(content.as_slice()))
    }

    /// The base64 text, which is read as these octets again.
    pub fn as_str(&self) -> &str
        ensures text { result.now ≡ encode_of standard self.now }
        ensures again { base64_content result.now ≡ Some self.now }
        ensures bytes { IsBytes self.now }
    {
        self.text.as_str()
    }

    /// Three quarters of the length of the text: the number of octets, or up to two more.
    pub fn size_approx(&self) -> usize
        ensures value { result ≡ length (encode_of standard self.now) / 4 * 3 }
        ensures at_least { length self.now ≤ result }
        ensures at_most { result ≤ length self.now + 2 }
    {
        self.text.as_str().len() / 4 * 3
    }

    /// Equal octets, whose text is shared with this one.
    pub fn clone(&self, alloc: Global) -> Result<Base64, OutOfMemory>
        ensures { IfOk result (λ b. b ≡ self.now) }
    {
        Ok(Base64 {
            text: self.text.clone(alloc)?,
        })
    }
}

/// The octets whose base64 text (RFC 4648, section 4) is the one string of a JSON text: in the
/// standard alphabet, padded, with no white space. Malformed exactly where it is that of none.
pub fn read_octets(alloc: Global, text: &str) -> Result<Bytes, JsonError>
    ensures octets { IfOk result (λ b. octets_of_json text.now ≡ Some b) }
    ensures malformed { IsErrOf result JsonError.Malformed → octets_of_json text.now ≡ None }
{
    let spelled = read_string(alloc, text)?;
    octets_of(alloc, spelled.as_str())
}

/// The octets whose base64 text, with no white space, is `text`.
fn octets_of(alloc: Global, text: &str) -> Result<Bytes, JsonError>
    ensures octets { IfOk result (λ b. decoded_of standard text.now ≡ Some b) }
    ensures malformed { IsErrOf result JsonError.Malformed → decoded_of standard text.now ≡ None }
{
    match STANDARD.decode(alloc, text.as_bytes()) {
        Ok(octets) => Ok(Bytes::from_vec(octets)?),
        Err(DecodeAllocError::OutOfMemory) => Err(JsonError::OutOfMemory),
        Err(DecodeAllocError::DecodeError(_)) => Err(JsonError::Malformed),
    }
}

/// The base64 text of octets as a JSON text, which is one string, and is read as these octets.
pub fn write_octets(alloc: Global, octets: &[u8]) -> Result<String, OutOfMemory>
    ensures text { IfOk result (λ s.
        string_bytes s ≡ compact_text (string (encode_of standard octets.now))) }
    ensures again { IfOk result (λ s. octets_of_json (string_bytes s) ≡ Some octets.now) }
{
    let spelled = STANDARD.encode(alloc, octets)?;
    write_string(alloc, spelled.as_str())
}

// Whether no octet is white space.
fn is_without_space(text: &[u8]) -> bool
    ensures { result ≡ list_all is_not_space text.now }
{
    let tab = text.contains(&b'\t');
    let line_feed = text.contains(&b'\n');
    let carriage_return = text.contains(&b'\r');
    let space = text.contains(&b' ');
    !(tab | line_feed | carriage_return | space)
}

/// `text` without the octets that are white space.
fn without_space(alloc: Global, text: &[u8]) -> Result<Vec<u8>, AllocError>
    ensures { IfOk result (λ v. v.items ≡ filter is_not_space text.now) }
{
    let mut kept = Vec::with_capacity(alloc, text.len())?;
    for octet in text {
        if !matches!(*octet, b'\t' | b'\n' | b'\r' | b' ') {
            kept.push(*octet)?;
        }
    }
    Ok(kept)
}

impl PartialEq for Base64 {
    ghost eq = { pointwise nat_eq };

    ghost laws = { partial_equiv_from_equiv nat_list_eq_equiv };

    fn eq(&self, other: &Base64) -> bool
        ensures value { result ≡ pointwise nat_eq self.now other.now }
        ensures same { IsTrue result ↔ (self.now ≡ other.now) }
    {
        self.text == other.text
    }
}

impl Eq for Base64 {
    ghost laws = { nat_list_eq_equiv };
}

impl fmt::Display for Base64 {
    ghost output = { λ b. Some (encode_of standard b) };

    fn fmt<W: fmt::Write>(&self, f: &mut fmt::Formatter<W>) -> fmt::Result {
        f.write_str(self.as_str())
    }
}
