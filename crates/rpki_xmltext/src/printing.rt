//! The parts of elements are printed in their one spelling, in pieces and without memory. Nothing here knows a message.

ghost use Rattle.std.specs.Prelude.{◌≡◌, IsTrue};
ghost use Rattle.std.specs.Char.{encode_utf8};
ghost use Rattle.std.specs.Fmt.{WritesOnOk};
ghost use Rattle.std.specs.Option.{option_copied};
ghost use Rattle.base64.specs.Engines.{standard};
ghost use Rattle.base64.specs.GeneralPurpose.{encode_of};
ghost use Rattle.rpki_xmltext.specs.Inside.{text_inside};
ghost use Rattle.rpki_xml.specs.Draft.{optional_attribute};
ghost use Rattle.rpki_xml.specs.Spelling.{spelled_text, spelled_value, spelled_attribute, spelled_attributes, spelled_end};

use rpki_text::Base64;
use std::fmt;

// A character of a value: `&`, `<`, `>`, `"` and `'` as entities, every other one as itself.
fn write_character<W: fmt::Write>(f: &mut fmt::Formatter<W>, c: char) -> fmt::Result
    ensures { WritesOnOk W.write_str_gives f.old result (spelled_value (encode_utf8 c)) f.new }
{
    if c == '"' {
        return f.write_str("&quot;");
    }
    if c == '\'' {
        return f.write_str("&apos;");
    }
    if c == '&' {
        return f.write_str("&amp;");
    }
    if c == '<' {
        return f.write_str("&lt;");
    }
    if c == '>' {
        return f.write_str("&gt;");
    }
    f.write_char(c)
}

// Whether no octet of a value becomes an entity: then it is spelled as it is.
fn is_bare(value: &[u8]) -> bool
    ensures { IsTrue result → spelled_value value.now ≡ value.now }
{
    let quote = value.contains(&b'"');
    let apostrophe = value.contains(&b'\'');
    let ampersand = value.contains(&b'&');
    let less = value.contains(&b'<');
    let greater = value.contains(&b'>');
    !(quote | apostrophe | ampersand | less | greater)
}

// A value.
fn write_value<W: fmt::Write>(f: &mut fmt::Formatter<W>, value: &str) -> fmt::Result
    ensures { WritesOnOk W.write_str_gives f.old result (spelled_value value.now) f.new }
{
    if is_bare(value.as_bytes()) {
        return f.write_str(value);
    }
    for c in value.chars() {
        write_character(f, c)?;
    }
    Ok(())
}

// A character of a text: `&`, `<` and `>` as entities, every other one as itself.
fn write_text_character<W: fmt::Write>(f: &mut fmt::Formatter<W>, c: char) -> fmt::Result
    ensures { WritesOnOk W.write_str_gives f.old result (spelled_text (encode_utf8 c)) f.new }
{
    if c == '&' {
        return f.write_str("&amp;");
    }
    if c == '<' {
        return f.write_str("&lt;");
    }
    if c == '>' {
        return f.write_str("&gt;");
    }
    f.write_char(c)
}

/// Writes a text, in which `&`, `<` and `>` become entities.
pub fn write_text<W: fmt::Write>(f: &mut fmt::Formatter<W>, text: &str) -> fmt::Result
    ensures { WritesOnOk W.write_str_gives f.old result (spelled_text text.now) f.new }
{
    for c in text.chars() {
        write_text_character(f, c)?;
    }
    Ok(())
}

/// Writes an attribute behind a space: its name as it is, and its value in double quotes, in which `&`, `<`, `>` and both quotes become
/// entities.
pub fn write_attribute<W: fmt::Write>(
    f: &mut fmt::Formatter<W>,
    name: &str,
    value: &str,
) -> fmt::Result
    ensures { WritesOnOk W.write_str_gives f.old result
        (spelled_attribute name.now value.now) f.new }
{
    f.write_str(" ")?;
    f.write_str(name)?;
    f.write_str("=\"")?;
    write_value(f, value)?;
    f.write_str("\"")
}

/// Writes an attribute as `write_attribute` does where there is a value, and nothing where there is none.
pub fn write_optional<W: fmt::Write>(
    f: &mut fmt::Formatter<W>,
    name: &str,
    value: Option<&str>,
) -> fmt::Result
    ensures { let attributes = optional_attribute name.now (option_copied value.entry) in
        WritesOnOk W.write_str_gives f.old result (spelled_attributes attributes) f.new }
{
    match value {
        None => Ok(()),
        Some(value) => write_attribute(f, name, value),
    }
}

/// Writes the end tag of an element of this name.
pub fn write_end<W: fmt::Write>(f: &mut fmt::Formatter<W>, name: &str) -> fmt::Result
    ensures { WritesOnOk W.write_str_gives f.old result (spelled_end name.now) f.new }
{
    f.write_str("</")?;
    f.write_str(name)?;
    f.write_str(">")
}

/// Writes what stands behind the attributes of an element of this name that has this text and no child: `/>` where the text is empty,
/// and otherwise `>`, the text and the end tag.
pub fn write_inside<W: fmt::Write>(f: &mut fmt::Formatter<W>, name: &str, text: &str) -> fmt::Result
    ensures { WritesOnOk W.write_str_gives f.old result (text_inside name.now text.now) f.new }
{
    if text.is_empty() {
        return f.write_str("/>");
    }
    f.write_str(">")?;
    write_text(f, text)?;
    write_end(f, name)
}

/// Writes the same as `write_inside` of an element whose text is octets in base64.
pub fn write_base64<W: fmt::Write>(
    f: &mut fmt::Formatter<W>,
    name: &str,
    octets: &Base64,
) -> fmt::Result
    ensures { WritesOnOk W.write_str_gives f.old result
        (text_inside name.now (encode_of standard octets.now)) f.new }
{
    let text = octets.as_str();
    if text.is_empty() {
        return f.write_str("/>");
    }
    f.write_str(">")?;
    f.write_str(text)?;
    write_end(f, name)
}
