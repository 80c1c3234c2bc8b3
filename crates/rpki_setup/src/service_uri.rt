//! Where a service is reached.

ghost use Rattle.std.specs.Prelude.{◌≡◌, ◌↔◌, List, ℕ, Some, None, IfOk, IfErr, IsErrOf, IsTrue, string_bytes};
ghost use Rattle.serde_json.specs.Data.{string};
ghost use Rattle.serde_json.specs.Written.{compact_text};
ghost use Rattle.rpki_setup.specs.Answers.{RefusesServiceUri, json_of};
ghost use Rattle.rpki_setup.specs.ServiceUri.{service_uri_of_text, service_uri_of_json, service_text, is_http, IsWritableService};

use crate::error::Error;
use crate::law::printed_service_uri_is_read;
use rpki_common::{OutOfMemory, Text};
use rpki_text::{JsonError, read_string, uri, write_string};
use rpki_xmltext::is_plain;
use std::alloc::Global;
use std::fmt;

/// Where the service of a parent or a repository is reached (RFC 8183, 5.2.2 and 5.2.4).
#[derive(Debug, Drop, PartialEq, Eq)]
pub enum ServiceUri {
    /// An https URI.
    Https(uri::Https),
    /// A text that begins with `http://`, in any case, kept as it is.
    Http(Text),
}

impl ServiceUri {
    /// The service URI that a text is: with `http://` at its beginning, in any case, any text; else an https URI. InvalidUri, with
    /// the first rule that the text breaks, exactly where it is neither, and OutOfMemory only where it is one.
    pub fn from_str(alloc: Global, text: &str) -> Result<ServiceUri, Error>
        ensures value { IfOk result (λ s. service_uri_of_text text.now ≡ Some s) }
        ensures refused { IfErr result (RefusesServiceUri text.now) }
    {
        if is_http(text) {
            return Ok(ServiceUri::Http(Text::from_str(alloc, text)?));
        }
        Ok(ServiceUri::Https(uri::Https::from_str(alloc, text)?))
    }

    /// The service URI that the one string of a JSON text is, read as [`ServiceUri::from_str`] does. Malformed exactly where the text
    /// is no JSON or no string, or where the string is no service URI.
    pub fn from_json(alloc: Global, text: &str) -> Result<ServiceUri, JsonError>
        ensures value { IfOk result (λ s. service_uri_of_json text.now ≡ Some s) }
        ensures malformed { IsErrOf result JsonError.Malformed
            → service_uri_of_json text.now ≡ None }
    {
        let found = read_string(alloc, text)?;
        match ServiceUri::from_str(alloc, found.as_str()) {
            Ok(uri) => Ok(uri),
            Err(error) => Err(json_error(error)),
        }
    }

    /// The text as a JSON text, which is one string.
    pub fn to_json(&self, alloc: Global) -> Result<String, OutOfMemory>
        ensures text { IfOk result (λ s.
            string_bytes s ≡ compact_text (string (service_text self.now))) }

        // The JSON text is read as this service URI, where that was read of a text.
        ensures again { IfOk result (λ s. (text : List ℕ) → service_uri_of_text text ≡ Some self.now
            → service_uri_of_json (string_bytes s) ≡ Some self.now) }
    {
        // For the proof: the text of a service URI is read as it.
        printed_service_uri_is_read();
        write_string(alloc, self.as_str())
    }

    /// The text, as it was read.
    pub fn as_str(&self) -> &str
        ensures { result.now ≡ service_text self.now }
    {
        match self {
            ServiceUri::Https(uri) => uri.as_str(),
            ServiceUri::Http(text) => text.as_str(),
        }
    }

    /// Whether it can be written so that it is read again: each https URI can, and another text where it begins with `http://`, in any
    /// case, and consists of octets that a document may have. It takes no memory.
    pub fn is_writable(&self) -> bool
        ensures { IsTrue result ↔ IsWritableService self.now }
    {
        match self {
            ServiceUri::Https(uri) => {
                // For the proof: the URI is lawful.
                let _uri = uri.as_str();
                true
            }
            ServiceUri::Http(text) => is_http(text.as_str()) && is_plain(text.as_str()),
        }
    }

    /// An equal service URI, whose text is shared with this one.
    pub fn clone(&self, alloc: Global) -> Result<ServiceUri, OutOfMemory>
        ensures { IfOk result (λ s. s ≡ self.now) }
    {
        match self {
            ServiceUri::Https(uri) => Ok(ServiceUri::Https(uri.clone(alloc)?)),
            ServiceUri::Http(text) => Ok(ServiceUri::Http(text.clone(alloc)?)),
        }
    }
}

/// What a JSON text is answered that holds a text with this error.
fn json_error(error: Error) -> JsonError
    ensures { result ≡ json_of error }
{
    match error {
        Error::OutOfMemory => JsonError::OutOfMemory,
        _ => JsonError::Malformed,
    }
}

/// Whether a text begins with `http://`, in any case.
fn is_http(text: &str) -> bool
    ensures { result ≡ is_http text.now }
{
    let text = text.as_bytes();
    let end = text.len().min(7);
    text[..end].eq_ignore_ascii_case(b"http://")
}

impl fmt::Display for ServiceUri {
    ghost output = { λ s. Some (service_text s) };

    fn fmt<W: fmt::Write>(&self, f: &mut fmt::Formatter<W>) -> fmt::Result {
        f.write_str(self.as_str())
    }
}
