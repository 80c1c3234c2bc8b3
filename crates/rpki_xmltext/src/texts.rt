//! Texts in a message are read: a text that is not what it should be is malformed XML. Nothing here knows a message.

ghost use Rattle.std.specs.Prelude.{◌≡◌, codes};
ghost use Rattle.rpki_text.specs.Base64.{base64_content};
ghost use Rattle.rpki_text.specs.Handle.{handle_of_text};
ghost use Rattle.rpki_xml.specs.Answers.{Gives};
ghost use Rattle.rpki_xml.specs.Tables.{optional};
ghost use Rattle.rpki_xmltext.specs.UriText.{uri_of_text, xml_of_uri};

use rpki_common::Text;
use rpki_text::uri::{Uri, UriKind};
use rpki_text::{Base64, Base64Error, Handle, InvalidHandle, uri};
use rpki_xml::{ElementRef, XmlError};
use std::alloc::Global;

/// The octets of a base64 text, read as [`Base64::from_str`] does. Malformed exactly where it spells none.
pub fn base64_of(alloc: Global, text: &str) -> Result<Base64, XmlError>
    ensures { Gives (base64_content text.now) (λ b. b) result }
{
    match Base64::from_str(alloc, text) {
        Ok(octets) => Ok(octets),
        Err(Base64Error::Malformed) => Err(XmlError::Malformed),
        Err(Base64Error::OutOfMemory) => Err(XmlError::OutOfMemory),
    }
}

/// The handle that a text is, read as [`Handle::from_str`] does. Malformed exactly where it is none.
pub fn handle_of<T>(alloc: Global, text: &str) -> Result<Handle<T>, XmlError>
    ensures { Gives (handle_of_text text.now) (λ h. h) result }
{
    match Handle::from_str(alloc, text) {
        Ok(handle) => Ok(handle),
        Err(InvalidHandle::Pattern) => Err(XmlError::Malformed),
        Err(InvalidHandle::OutOfMemory) => Err(XmlError::OutOfMemory),
    }
}

/// The URI of the kind `K` that a text is. Malformed exactly where it is none.
pub fn uri_of<K: UriKind>(alloc: Global, text: &str) -> Result<Uri<K>, XmlError>
    ensures { Gives (uri_of_text K.kind text.now) (λ u. u) result }
{
    match Uri::from_str(alloc, text) {
        Ok(uri) => Ok(uri),
        Err(error) => Err(error_of(error)),
    }
}

// A text that is no URI is malformed XML.
fn error_of(error: uri::Error) -> XmlError
    ensures { result ≡ xml_of_uri error }
{
    match error {
        uri::Error::TooLong => XmlError::Malformed,
        uri::Error::BadCharacter => XmlError::Malformed,
        uri::Error::BadScheme => XmlError::Malformed,
        uri::Error::BadUri => XmlError::Malformed,
        uri::Error::DotSegments => XmlError::Malformed,
        uri::Error::OutOfMemory => XmlError::OutOfMemory,
    }
}

/// The attribute `tag` of an element, where it has one; Malformed where two attributes have this local name.
pub fn tag_in(alloc: Global, e: &ElementRef<'_>) -> Result<Option<Text>, XmlError>
    ensures { Gives (optional (codes "tag") e.now.head) (λ tag. tag) result }
{
    match e.optional("tag")? {
        None => Ok(None),
        Some(tag) => Ok(Some(Text::from_str(alloc, tag)?)),
    }
}
