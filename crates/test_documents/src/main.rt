//! Reads stored documents, and says how many are not read as expected.
//!
//! A line of data/cases.txt is `NAME DOCUMENT ELEMENT`: the octets, and the one spelling of the element that they are a document of,
//! or `-` where they are no document; tools/cases/document_cases.py, which writes the file by the rules of documents alone, says how
//! octets are given. What is read is written, and the octets are compared. Or it is `NAME DOCUMENT STEP..`: what is asked of the
//! element and of texts, by the calls in asking.rt and texts.rt.
#![tactic(auto)]

mod asking;
mod texts;

use crate::asking::are_met;
use rpki_common::OutOfMemory;
use rpki_xml::{ElementRef, ElementWriter, XmlError, read_document};
use std::alloc::Global;
use std::io;
use std::io::ErrorKind;
use test_stored::{Cases, invalid, run};

fn out_of_memory(_: OutOfMemory) -> io::Error {
    io::Error::from(ErrorKind::OutOfMemory)
}

// The octets that a word gives in hexadecimal.
fn octets_of(alloc: Global, word: &str) -> io::Result<Vec<u8>> {
    match hex::decode(alloc, word) {
        Ok(octets) => Ok(octets),
        Err(_) => Err(invalid()),
    }
}

// `COUNT*HEX`: so many of these octets in a row.
fn add_repeated(alloc: Global, out: &mut Vec<u8>, count: &str, word: &str) -> io::Result<()> {
    let octets = octets_of(alloc, word)?;
    let count = count.parse::<u32>().map_err(|_| invalid())?;
    for _ in 0..count {
        out.extend_from_slice(&octets)?;
    }
    Ok(())
}

// `COUNT#HEX/HEX`: each number below COUNT in decimal, between these octets.
fn add_numbered(alloc: Global, out: &mut Vec<u8>, count: &str, words: &str) -> io::Result<()> {
    let (front, back) = words.split_once('/').ok_or(invalid())?;
    let front = octets_of(alloc, front)?;
    let back = octets_of(alloc, back)?;
    let count = count.parse::<u32>().map_err(|_| invalid())?;
    for number in 0..count {
        out.extend_from_slice(&front)?;
        out.extend_from_slice(format!(in alloc; "{number}")?.as_bytes())?;
        out.extend_from_slice(&back)?;
    }
    Ok(())
}

// The octets that a field gives, part by part.
fn field_octets(alloc: Global, field: &str) -> io::Result<Vec<u8>> {
    let mut out = Vec::new(alloc);
    for part in field.split(',') {
        if let Some((count, word)) = part.split_once('*') {
            add_repeated(alloc, &mut out, count, word)?;
        } else if let Some((count, words)) = part.split_once('#') {
            add_numbered(alloc, &mut out, count, words)?;
        } else {
            out.extend_from_slice(&octets_of(alloc, part)?)?;
        }
    }
    Ok(out)
}

// The start of an element, and its text.
fn begin(writer: &mut ElementWriter, element: &ElementRef<'_>) -> Result<(), OutOfMemory> {
    writer.element(element.name())?;
    writer.attr_opt("xmlns", element.namespace())?;
    for attribute in element.attributes() {
        writer.attr(attribute.name, attribute.value)?;
    }
    writer.text(element.text())
}

// An element with at most so many starts and ends in it, written.
fn spelled(alloc: Global, root: ElementRef<'_>, limit: usize) -> Result<Vec<u8>, OutOfMemory> {
    let mut writer = ElementWriter::new(alloc);
    begin(&mut writer, &root)?;
    let mut open = Vec::new(alloc);
    open.push(root.children())?;
    for _ in 0..limit {
        let Some(mut children) = open.pop() else {
            break;
        };
        match children.next() {
            None => writer.close()?,
            Some(child) => {
                begin(&mut writer, &child)?;
                open.push(children)?;
                open.push(child.children())?;
            }
        }
    }
    Ok(Vec::from_slice(alloc, writer.done()?.as_slice())?)
}

// Whether a document is read as the element of this spelling, or is none where there is no spelling.
fn is_as_expected(alloc: Global, document: &[u8], expected: Option<&[u8]>) -> io::Result<bool> {
    match read_document(alloc, document) {
        Ok(element) => {
            let text = spelled(alloc, element.as_ref(), document.len()).map_err(out_of_memory)?;
            Ok(expected.is_some_and(|octets| octets == text.as_slice()))
        }
        Err(XmlError::Malformed) => Ok(expected.is_none()),
        Err(XmlError::OutOfMemory) => Err(io::Error::from(ErrorKind::OutOfMemory)),
    }
}

// Whether the steps are answered as expected by a copy of what the document is read as.
fn is_asked(alloc: Global, document: &[u8], steps: &str) -> io::Result<bool> {
    let Ok(element) = read_document(alloc, document) else {
        return Ok(false);
    };
    let copy = element.clone(alloc).map_err(out_of_memory)?;
    drop(element);
    are_met(alloc, &copy, steps)
}

// Whether the case on a line holds, whose name is left out.
fn holds(alloc: Global, document: &str, element: &str) -> io::Result<bool> {
    let document = field_octets(alloc, document)?;
    if element.contains('=') {
        return is_asked(alloc, &document, element);
    }
    if element == "-" {
        return is_as_expected(alloc, &document, None);
    }
    let expected = field_octets(alloc, element)?;
    is_as_expected(alloc, &document, Some(&expected))
}

struct Documents;

impl Cases for Documents {
    fn holds(&self, alloc: Global, line: &str) -> io::Result<bool> {
        let (_, fields) = line.split_once(' ').ok_or(invalid())?;
        let (document, element) = fields.split_once(' ').ok_or(invalid())?;
        holds(alloc, document, element)
    }
}

fn main(rt: HostRuntime) -> io::Result<()> {
    run(&rt, &Documents)
}
