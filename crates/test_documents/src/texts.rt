//! What texts in an element are read as, and how the parts of elements are printed.

use rpki_common::{OutOfMemory, Text};
use rpki_der::DecodeError;
use rpki_text::uri::{HttpsKind, RsyncKind, UriKind};
use rpki_text::{Base64, MemorySink, Sender};
use rpki_xml::{ElementRef, XmlError};
use rpki_xmltext::{
    Cause, base64_of, cloned, handle_of, lent, tag_in, uri_of, write_attribute, write_base64,
    write_end, write_inside, write_octets, write_optional, write_text,
};
use std::alloc::Global;
use std::fmt;
use test_stored::Fields;

type Answer = Result<Fields, DecodeError>;

fn refused(error: XmlError) -> Answer {
    match error {
        XmlError::Malformed => Err(DecodeError::Malformed),
        XmlError::OutOfMemory => Err(DecodeError::OutOfMemory),
    }
}

// A text, as a field; no field where there is none.
fn shown(alloc: Global, text: &Option<Text>) -> Answer {
    match lent(text) {
        Some(text) => Ok(Fields::one(alloc, text.as_bytes())?),
        None => Ok(Fields::new(alloc)),
    }
}

fn tag(alloc: Global, element: &ElementRef<'_>) -> Answer {
    match tag_in(alloc, element) {
        Ok(tag) => shown(alloc, &tag),
        Err(error) => refused(error),
    }
}

// The octets of a base64 text.
fn octets(alloc: Global, text: &str) -> Answer {
    match base64_of(alloc, text) {
        Ok(octets) => Ok(Fields::one(alloc, octets.to_bytes(alloc)?.as_slice())?),
        Err(error) => refused(error),
    }
}

fn handle(alloc: Global, text: &str) -> Answer {
    match handle_of::<Sender>(alloc, text) {
        Ok(handle) => Ok(Fields::one(alloc, handle.as_str().as_bytes())?),
        Err(error) => refused(error),
    }
}

fn uri<K: UriKind>(alloc: Global, text: &str) -> Answer {
    match uri_of::<K>(alloc, text) {
        Ok(uri) => Ok(Fields::one(alloc, uri.as_str().as_bytes())?),
        Err(error) => refused(error),
    }
}

// A copy of a text that is there.
fn copied(alloc: Global, text: &str) -> Answer {
    let held = Some(Text::from_str(alloc, text)?);
    let copy = cloned(alloc, &held)?;
    if copy != held {
        return Err(DecodeError::Malformed);
    }
    shown(alloc, &copy)
}

// A copy of no text.
fn none_copied(alloc: Global) -> Answer {
    shown(alloc, &cloned(alloc, &None)?)
}

// What a sink with room for 65535 octets has of a text, of which it takes 1000 octets in a call.
fn sent(alloc: Global, text: &str) -> Answer {
    let mut sink = MemorySink::new(alloc, 65535, 1000, &[])?;
    match write_octets(&mut sink, text.as_bytes()) {
        Ok(()) => Ok(Fields::one(alloc, sink.written())?),
        Err(Cause::Write) => Err(DecodeError::Malformed),
        Err(_) => Ok(Fields::new(alloc)),
    }
}

/// What is answered of an element's tag and of a text; None where the step is none of these.
pub fn of_text(alloc: Global, element: &ElementRef<'_>, call: &str, text: &str) -> Option<Answer> {
    match call {
        "tag_in" => Some(tag(alloc, element)),
        "base64_of" => Some(octets(alloc, text)),
        "handle_of" => Some(handle(alloc, text)),
        "rsync_of" => Some(uri::<RsyncKind>(alloc, text)),
        "https_of" => Some(uri::<HttpsKind>(alloc, text)),
        "cloned" => Some(copied(alloc, text)),
        "none_cloned" => Some(none_copied(alloc)),
        "sent" => Some(sent(alloc, text)),
        _ => None,
    }
}

/// A part of an element, which the call of this name prints.
#[derive(Clone, Copy)]
struct Part<'a> {
    call: &'a str,
    name: &'a str,
    text: &'a str,
}

impl fmt::Display for Part<'_> {
    fn fmt<W: fmt::Write>(&self, f: &mut fmt::Formatter<W>) -> fmt::Result {
        match self.call {
            "write_attribute" => write_attribute(f, self.name, self.text),
            "write_optional" => write_optional(f, self.name, Some(self.text)),
            "write_absent" => write_optional(f, self.name, None),
            "write_inside" => write_inside(f, self.name, self.text),
            "write_end" => write_end(f, self.name),
            _ => write_text(f, self.text),
        }
    }
}

/// What stands behind the attributes of an element whose text is octets in base64.
#[derive(Drop)]
struct Inside<'a> {
    name: &'a str,
    octets: Base64,
}

impl fmt::Display for Inside<'_> {
    fn fmt<W: fmt::Write>(&self, f: &mut fmt::Formatter<W>) -> fmt::Result {
        write_base64(f, self.name, &self.octets)
    }
}

// What is printed of the octets of a text.
fn base64_printed(alloc: Global, name: &str, text: &str) -> Result<Fields, OutOfMemory> {
    let octets = Base64::from_content(alloc, text.as_bytes())?;
    let inside = Inside { name, octets };
    Ok(Fields::one(alloc, format!(in alloc; "{inside}")?.as_bytes())?)
}

/// What a call prints of a name and of the text behind a `/`; None where the step is none of these.
pub fn of_part(alloc: Global, call: &str, asked: &str) -> Option<Answer> {
    let (name, text) = asked.split_once('/').unwrap_or((asked, ""));
    match call {
        "write_base64" => match base64_printed(alloc, name, text) {
            Ok(fields) => Some(Ok(fields)),
            Err(OutOfMemory) => Some(Err(DecodeError::OutOfMemory)),
        },
        "write_attribute"
        | "write_optional"
        | "write_absent"
        | "write_inside"
        | "write_end"
        | "write_text" => Some(printed(alloc, Part { call, name, text })),
        _ => None,
    }
}

fn printed(alloc: Global, part: Part<'_>) -> Answer {
    Ok(Fields::one(alloc, format!(in alloc; "{part}")?.as_bytes())?)
}
