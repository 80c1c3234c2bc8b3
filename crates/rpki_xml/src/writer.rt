//! Elements are written, call by call.

ghost use Rattle.std.specs.Prelude.{◌≡◌, ◌++◌, ◌∷◌, [], OnOk, OnErr, IfOk};
ghost use Rattle.std.specs.Option.{option_copied};
ghost use Rattle.std.specs.String.{string_bytes};
ghost use Rattle.rpki_xml.specs.Spelling.{spelled_text, spelled_value, spelled_attribute, text_character, value_character};
ghost use Rattle.rpki_xml.specs.Draft.{empty_draft, opened, with_attribute, with_text, closed, ending, settled, with_attributes, optional_attribute};
ghost use Rattle.rpki_xml.specs.Views.{names_of};

use bytes::Bytes;
use rpki_common::OutOfMemory;
use std::alloc::Global;
use std::marker::Model;

/// Writes elements, call by call. The caller keeps the order: attributes before what stands inside, one `close` for each
/// `element`. A call that is refused memory leaves the writer as it was.
///
/// In a clause it is a record of the octets so far, the names of the open elements, the innermost first, and whether the
/// start of the innermost one still takes attributes.
pub struct ElementWriter {
    alloc: Global,
    octets: String,
    names: Vec<String>,
    in_start: bool,
}

impl Drop for ElementWriter {
    fn drop(self) {
        let ElementWriter {
            alloc,
            octets,
            names,
            in_start,
        } = self;
    }
}

impl Model for ElementWriter {
    ghost use Rattle.std.specs.String.{string_bytes};
    ghost use Rattle.rpki_xml.specs.Draft.{Draft};
    ghost use Rattle.rpki_xml.specs.Views.{names_of};

    ghost Value = { Draft };

    ghost view = { λ w. record {
      octets = string_bytes w.octets;
      open_names = names_of w.names.items;
      in_start = w.in_start;
    } };
}

impl ElementWriter {
    /// A writer that has written nothing. It takes no memory; later calls take it from `alloc`.
    pub fn new(alloc: Global) -> ElementWriter
        ensures { result ≡ empty_draft }
    {
        ElementWriter {
            alloc,
            octets: String::new(alloc),
            names: Vec::new(alloc),
            in_start: false,
        }
    }

    /// Begins an element with this whole name inside the innermost open one; from now on it is the innermost. The name is written as it
    /// is, and isn't tested.
    #[tactic(auto, unfolding(crate::specs::Draft::opened))]
    pub fn element(&mut self, name: &str) -> Result<(), OutOfMemory>
        ensures ok { OnOk result (self.new ≡ opened name.now self.old) }
        ensures err { OnErr result (self.new ≡ self.old) }
    {
        let copy = String::from_str(self.alloc, name)?;
        let start = start_text(self.alloc, self.in_start, name)?;
        self.names.push(copy)?;
        match self.octets.push_str(start.as_str()) {
            Ok(()) => {
                self.in_start = true;
                Ok(())
            }
            Err(_) => {
                let _copy = self.names.pop();
                Err(OutOfMemory)
            }
        }
    }

    /// Gives the element that was begun last an attribute with this whole name, written as it is, and this value, in which `&`, `<`, `>`
    /// and quotes become entities. The caller sees to it that nothing is inside the element yet.
    #[tactic(auto, unfolding(crate::specs::Draft::with_attribute))]
    pub fn attr(&mut self, name: &str, value: &str) -> Result<(), OutOfMemory>
        ensures ok { OnOk result (self.new ≡ with_attribute name.now value.now self.old) }
        ensures err { OnErr result (self.new ≡ self.old) }
    {
        let text = attribute_text(self.alloc, name, value)?;
        self.octets.push_str(text.as_str())?;
        Ok(())
    }

    /// Writes the attribute as `attr` does where there is a value, and nothing where there is none.
    pub fn attr_opt(&mut self, name: &str, value: Option<&str>) -> Result<(), OutOfMemory>
        ensures ok { let attributes = optional_attribute name.now (option_copied value.entry) in
            OnOk result (self.new ≡ with_attributes attributes self.old) }
        ensures err { OnErr result (self.new ≡ self.old) }
    {
        match value {
            None => Ok(()),
            Some(value) => self.attr(name, value),
        }
    }

    /// Writes text into the innermost open element: `&`, `<` and `>` become entities. The empty text changes nothing.
    #[tactic(auto, unfolding(crate::specs::Draft::with_inside))]
    pub fn text(&mut self, text: &str) -> Result<(), OutOfMemory>
        ensures ok { OnOk result (self.new ≡ with_text text.now self.old) }
        ensures err { OnErr result (self.new ≡ self.old) }
    {
        if text.is_empty() {
            return Ok(());
        }
        let inside = inside_text(self.alloc, self.in_start, text)?;
        self.octets.push_str(inside.as_str())?;
        self.in_start = false;
        Ok(())
    }

    /// Ends the innermost open element: with `/>` where nothing is inside it, and otherwise with its end tag. Where none is open, nothing
    /// is written.
    #[tactic(auto, unfolding(crate::specs::Draft::closed))]
    pub fn close(&mut self) -> Result<(), OutOfMemory>
        ensures ok { OnOk result (self.new ≡ closed self.old) }
        ensures err { OnErr result (self.new ≡ self.old) }
    {
        let end = end_text(self.alloc, self.in_start, &self.names)?;
        self.octets.push_str(end.as_str())?;
        let _name = self.names.pop();
        self.in_start = false;
        Ok(())
    }

    /// The text that was written. Elements that are still open aren't ended.
    pub fn into_string(self) -> String
        ensures { string_bytes result ≡ self.octets }
    {
        let ElementWriter {
            alloc: _,
            octets,
            names: _,
            in_start: _,
        } = self;
        octets
    }

    /// The octets that were written, to be shared. Elements that are still open aren't ended.
    pub fn done(self) -> Result<Bytes, OutOfMemory>
        ensures { IfOk result (λ octets. octets ≡ self.octets) }
    {
        Ok(Bytes::from_vec(self.into_string().into_bytes())?)
    }
}

// `>` where the start before it is still open, `<` and the name.
fn start_text(alloc: Global, in_start: bool, name: &str) -> Result<String, OutOfMemory>
    ensures { IfOk result (λ t. string_bytes t ≡ settled in_start [] ++ 60 ∷ name.now) }
{
    let mut out = String::new(alloc);
    if in_start {
        out.push_str(">")?;
    }
    out.push_str("<")?;
    out.push_str(name)?;
    Ok(out)
}

// `>` where the start before it is still open, and the text.
fn inside_text(alloc: Global, in_start: bool, text: &str) -> Result<String, OutOfMemory>
    ensures { IfOk result (λ t. string_bytes t ≡ settled in_start [] ++ spelled_text text.now) }
{
    let mut out = String::new(alloc);
    if in_start {
        out.push_str(">")?;
    }
    out.push_str(escaped_text(alloc, text)?.as_str())?;
    Ok(out)
}

// `/>` where the start is still open, else `</`, the name and `>`.
fn end_text(alloc: Global, in_start: bool, names: &[String]) -> Result<String, OutOfMemory>
    ensures { IfOk result (λ t. string_bytes t ≡ ending in_start (names_of names.now)) }
{
    let mut out = String::new(alloc);
    if in_start {
        out.push_str("/>")?;
    } else if let Some(name) = names.last() {
        out.push_str("</")?;
        out.push_str(name.as_str())?;
        out.push_str(">")?;
    }
    Ok(out)
}

// A character of a text.
fn put_text_character(out: &mut Vec<u8>, c: u8) -> Result<(), OutOfMemory>
    ensures { OnOk result (out.new.items ≡ out.old.items ++ text_character c) }
{
    match c {
        b'&' => out.extend_from_slice(b"&amp;")?,
        b'<' => out.extend_from_slice(b"&lt;")?,
        b'>' => out.extend_from_slice(b"&gt;")?,
        _ => out.push(c)?,
    }
    Ok(())
}

// A character of a value.
fn put_value_character(out: &mut Vec<u8>, c: u8) -> Result<(), OutOfMemory>
    ensures { OnOk result (out.new.items ≡ out.old.items ++ value_character c) }
{
    match c {
        b'"' => out.extend_from_slice(b"&quot;")?,
        b'\'' => out.extend_from_slice(b"&apos;")?,
        _ => put_text_character(out, c)?,
    }
    Ok(())
}

#[tactic(auto, unfolding(crate::specs::Spelling::spelled_text))]
fn put_text(out: &mut Vec<u8>, text: &[u8]) -> Result<(), OutOfMemory>
    ensures { OnOk result (out.new.items ≡ out.old.items ++ spelled_text text.now) }
{
    for c in text {
        put_text_character(out, *c)?;
    }
    Ok(())
}

#[tactic(auto, unfolding(crate::specs::Spelling::spelled_value))]
fn put_value(out: &mut Vec<u8>, value: &[u8]) -> Result<(), OutOfMemory>
    ensures { OnOk result (out.new.items ≡ out.old.items ++ spelled_value value.now) }
{
    for c in value {
        put_value_character(out, *c)?;
    }
    Ok(())
}

// A text with `&`, `<` and `>` as entities. Each entity is text, so what is made of a text is one.
fn escaped_text(alloc: Global, text: &str) -> Result<String, OutOfMemory>
    ensures { IfOk result (λ t. string_bytes t ≡ spelled_text text.now) }
{
    let mut out = Vec::new(alloc);
    put_text(&mut out, text.as_bytes())?;
    match String::from_utf8(out) {
        Ok(text) => Ok(text),
        Err(_) => unreachable!(),
    }
}

// A value with `&`, `<`, `>` and quotes as entities. Each entity is text, so what is made of a text is one.
fn escaped_value(alloc: Global, value: &str) -> Result<String, OutOfMemory>
    ensures { IfOk result (λ t. string_bytes t ≡ spelled_value value.now) }
{
    let mut out = Vec::new(alloc);
    put_value(&mut out, value.as_bytes())?;
    match String::from_utf8(out) {
        Ok(text) => Ok(text),
        Err(_) => unreachable!(),
    }
}

// ` name="value"`
fn attribute_text(alloc: Global, name: &str, value: &str) -> Result<String, OutOfMemory>
    ensures { IfOk result (λ t. string_bytes t ≡ spelled_attribute name.now value.now) }
{
    let mut out = String::new(alloc);
    out.push_str(" ")?;
    out.push_str(name)?;
    out.push_str("=\"")?;
    out.push_str(escaped_value(alloc, value)?.as_str())?;
    out.push_str("\"")?;
    Ok(out)
}
