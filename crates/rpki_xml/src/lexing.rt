//! The pieces of a document, one at a time.

ghost use Rattle.std.specs.Prelude.{◌≡◌, ◌<◌, ◌≤◌, length, IfSome, IfOk, false, true};
ghost use Rattle.std.specs.List.{list_all};
ghost use Rattle.std.specs.Option.{option_copied, option_map};
ghost use Rattle.rpki_xml.specs.Content.{behind, end, passed_over};
ghost use Rattle.rpki_xml.specs.Kept.{HasBack, kept_text, attribute_of, attributes_of};
ghost use Rattle.rpki_xml.specs.Lexing.{ends_at, until, value_in, quoted_at, attribute_at, begins_white, begins_close, no_attribute, past_next, passed_at, run_at, front_of, back_of, past_white, any_entity_at, character_at, name_at, end_at, tag_at, markup_at, piece_at, is_octet};
ghost use Rattle.rpki_xml.specs.Name.{is_letter, is_name_octet, ends_name, is_name};
ghost use Rattle.rpki_xml.specs.Pieces.{piece};
ghost use Rattle.rpki_xml.specs.PlainCharacter.{is_plain};
ghost use Rattle.rpki_xml.specs.Answers.{Gives};

use crate::error::XmlError;
use crate::kept::{Named, Text, name_place, placed};
use crate::stack::is_white;
use memchr::memchr3;
use std::alloc::Global;

/// The start of an element: its whole name and all its attributes.
#[derive(Drop)]
pub(crate) struct Tag {
    /// Where its name begins in the document.
    pub(crate) name: u32,
    pub(crate) attributes: Vec<Named>,
}

/// A piece of a document.
#[derive(Drop)]
pub(crate) enum Piece<'a> {
    /// A text run, its entities resolved.
    Run(Text),
    /// A comment or an instruction.
    PassedOver,
    /// `<name attributes/>`
    Leaf(Tag),
    /// `<name attributes>`
    Start(Tag),
    /// `</name>`
    End(&'a [u8]),
}

/// What follows a front, where the front is there.
pub(crate) fn behind<'a>(front: &[u8], b: &'a [u8]) -> Option<&'a [u8]>
    ensures value { option_copied result ≡ behind front.now b.now }
    ensures shorter { IfSome result (λ rest. length rest.now ≤ length b.now) }
{
    let mut rest = b;
    for c in front {
        match rest {
            [] => return None,
            [d, after @ ..] => {
                if *d != *c {
                    return None;
                }
                rest = after;
            }
        }
    }
    Some(rest)
}

// What follows white space.
fn past_white(b: &[u8]) -> &[u8]
    ensures value { result.now ≡ past_white b.now }
    ensures shorter { length result.now ≤ length b.now }
{
    for (i, c) in b.iter().enumerate() {
        if !is_white(*c) {
            return &b[i..];
        }
    }
    &[]
}

/// A letter.
pub(crate) fn is_letter(c: u8) -> bool
    ensures { result ≡ is_letter c }
{
    (b'A' <= c && c <= b'Z') || (b'a' <= c && c <= b'z')
}

fn is_name_octet(c: u8) -> bool
    ensures { result ≡ is_name_octet c }
{
    is_letter(c) || (b'0' <= c && c <= b':') || c == b'-' || c == b'_' || c == b'.'
}

// Whether what stands behind the first octet of a name may stand there.
fn ends_name(name: &[u8]) -> bool
    ensures { result ≡ ends_name false name.now }
{
    let mut colon = false;
    let mut rest = name;
    while let [c, after @ ..] = rest {
        if *c == b':' {
            if colon || after.is_empty() {
                return false;
            }
            colon = true;
        }
        rest = after;
    }
    true
}

fn is_name(name: &[u8]) -> bool
    ensures { result ≡ is_name name.now }
{
    match name {
        [] => false,
        [c, rest @ ..] => (is_letter(*c) || *c == b'_') && ends_name(rest),
    }
}

/// The longest run of name octets, and what follows it.
pub(crate) fn split_name(b: &[u8]) -> (&[u8], &[u8])
    ensures front { result.0.now ≡ front_of is_name_octet b.now }
    ensures back { result.1.now ≡ back_of is_name_octet b.now }
    ensures shorter { length result.1.now ≤ length b.now }
{
    for (i, c) in b.iter().enumerate() {
        if !is_name_octet(*c) {
            return b.split_at(i);
        }
    }
    (b, &[])
}

#[tactic(auto, unfolding(crate::specs::Lexing::name_at))]
fn name_at(b: &[u8]) -> Option<(&[u8], &[u8])>
    ensures value { option_map (λ x. (x.0.now, x.1.now)) result ≡ name_at b.now }
    ensures shorter { IfSome result (λ x. length x.1.now ≤ length b.now) }
{
    let (name, rest) = split_name(b);
    if is_name(name) {
        Some((name, rest))
    } else {
        None
    }
}

fn any_entity_at(b: &[u8]) -> Option<(u8, &[u8])>
    ensures value { option_map (λ x. (x.0, x.1.now)) result ≡ any_entity_at b.now }
    ensures shorter { IfSome result (λ x. length x.1.now ≤ length b.now) }
{
    if let Some(rest) = behind(b"amp;", b) {
        Some((b'&', rest))
    } else if let Some(rest) = behind(b"lt;", b) {
        Some((b'<', rest))
    } else if let Some(rest) = behind(b"gt;", b) {
        Some((b'>', rest))
    } else if let Some(rest) = behind(b"quot;", b) {
        Some((b'"', rest))
    } else if let Some(rest) = behind(b"apos;", b) {
        Some((b'\'', rest))
    } else {
        None
    }
}

#[tactic(auto, unfolding(crate::specs::Lexing::character_at))]
fn character_at(b: &[u8]) -> Option<(u8, &[u8])>
    ensures value { option_map (λ x. (x.0, x.1.now)) result ≡ character_at b.now }
    ensures shorter { IfSome result (λ x. length x.1.now < length b.now) }
{
    match b {
        [] => None,
        [b'&', rest @ ..] => any_entity_at(rest),
        [b'<', ..] => None,
        [c, rest @ ..] => Some((*c, rest)),
    }
}

// The name of an end.
fn end_at(b: &[u8]) -> Result<(&[u8], &[u8]), XmlError>
    ensures value { Gives (end_at b.now) (λ x. (end x.0.now, x.1.now)) result }
    ensures shorter { IfOk result (λ x. length x.1.now ≤ length b.now) }
{
    let Some((name, rest)) = name_at(b) else {
        return Err(XmlError::Malformed);
    };
    match behind(b">", past_white(rest)) {
        None => Err(XmlError::Malformed),
        Some(rest) => Ok((name, rest)),
    }
}

fn ends_at(at_end: bool, stop: u8, b: &[u8]) -> bool
    ensures { result ≡ ends_at at_end stop b.now }
{
    match b {
        [] => at_end,
        [c, ..] => *c == stop,
    }
}

// The characters that stand for themselves, up to the first other one, and what follows them.
fn split_plain(stop: u8, b: &[u8]) -> (&[u8], &[u8])
    ensures front { result.0.now ≡ front_of (is_plain stop) b.now }
    ensures back { result.1.now ≡ back_of (is_plain stop) b.now }
    ensures shorter { length result.1.now ≤ length b.now }
{
    match memchr3(stop, b'<', b'&', b) {
        Some(end) => b.split_at(end),
        None => (b, &[]),
    }
}

// The characters up to `stop`, or to the end where `at_end` says so.
fn characters_until<'a>(
    alloc: Global,
    source: &[u8],
    at_end: bool,
    stop: u8,
    b: &'a [u8],
) -> Result<(Text, &'a [u8]), XmlError>
    requires { HasBack source.now b.now }
    ensures value { Gives (until (ends_at at_end stop) character_at b.now)
        (λ x. (kept_text source.now x.0, x.1.now)) result }
    ensures shorter { IfOk result (λ x. length x.1.now ≤ length b.now) }
    ensures moved { IfOk result (λ x. ends_at at_end stop b.now ≡ false
        → length x.1.now < length b.now) }
{
    let (front, rest) = split_plain(stop, b);
    if ends_at(at_end, stop, rest) {
        return Ok((placed(source, front, rest)?, rest));
    }
    let (value, rest) = resolved_until(alloc, at_end, stop, b)?;
    Ok((Text::Own(Box::new(alloc, value)?), rest))
}

// The characters up to `stop`, or to the end where `at_end` says so, in octets of their own.
fn resolved_until<'a>(
    alloc: Global,
    at_end: bool,
    stop: u8,
    b: &'a [u8],
) -> Result<(Vec<u8>, &'a [u8]), XmlError>
    ensures value { Gives (until (ends_at at_end stop) character_at b.now)
        (λ x. (x.0.items, x.1.now)) result }
    ensures shorter { IfOk result (λ x. length x.1.now ≤ length b.now) }
    ensures moved { IfOk result (λ x. ends_at at_end stop b.now ≡ false
        → length x.1.now < length b.now) }
{
    let mut value = Vec::new(alloc);
    let mut rest = b;
    'characters: while !ends_at(at_end, stop, rest) {
        let (front, after) = split_plain(stop, rest);
        if front.is_empty() {
            let Some((c, after)) = character_at(rest) else {
                return Err(XmlError::Malformed);
            };
            value.push(c)?;
            rest = after;
        } else {
            value.extend_from_slice(front)?;
            rest = after;
        }
    }
    Ok((value, rest))
}

fn value_in<'a>(
    alloc: Global,
    source: &[u8],
    quote: u8,
    b: &'a [u8],
) -> Result<(Text, &'a [u8]), XmlError>
    requires { HasBack source.now b.now }
    ensures value { Gives (value_in quote b.now) (λ x. (kept_text source.now x.0, x.1.now)) result }
    ensures shorter { IfOk result (λ x. length x.1.now ≤ length b.now) }
{
    let (value, rest) = characters_until(alloc, source, false, quote, b)?;
    match behind(&[quote], rest) {
        None => Err(XmlError::Malformed),
        Some(rest) => Ok((value, rest)),
    }
}

#[tactic(auto, unfolding(crate::specs::Lexing::quoted_at))]
fn quoted_at<'a>(alloc: Global, source: &[u8], b: &'a [u8]) -> Result<(Text, &'a [u8]), XmlError>
    requires { HasBack source.now b.now }
    ensures value { Gives (quoted_at b.now) (λ x. (kept_text source.now x.0, x.1.now)) result }
    ensures shorter { IfOk result (λ x. length x.1.now < length b.now) }
{
    match b {
        [] => Err(XmlError::Malformed),
        [c, rest @ ..] => {
            if *c == b'"' || *c == b'\'' {
                Ok(value_in(alloc, source, *c, rest)?)
            } else {
                Err(XmlError::Malformed)
            }
        }
    }
}

fn attribute_at<'a>(
    alloc: Global,
    source: &[u8],
    b: &'a [u8],
) -> Result<(Named, &'a [u8]), XmlError>
    requires { HasBack source.now b.now }
    ensures value { Gives (attribute_at b.now)
        (λ x. (attribute_of source.now x.0, x.1.now)) result }
    ensures shorter { IfOk result (λ x. length x.1.now < length b.now) }
{
    let Some((name, behind_name)) = name_at(past_white(b)) else {
        return Err(XmlError::Malformed);
    };
    let Some(rest) = behind(b"=", past_white(behind_name)) else {
        return Err(XmlError::Malformed);
    };
    let (value, rest) = quoted_at(alloc, source, past_white(rest))?;
    let name = name_place(source, name, behind_name)?;
    Ok((Named { name, value }, rest))
}

fn no_attribute(b: &[u8]) -> bool
    ensures { result ≡ no_attribute b.now }
{
    !begins_white(b) || begins_close(past_white(b))
}

fn begins_white(b: &[u8]) -> bool
    ensures { result ≡ begins_white b.now }
{
    match b {
        [] => false,
        [c, ..] => is_white(*c),
    }
}

fn begins_close(b: &[u8]) -> bool
    ensures { result ≡ begins_close b.now }
{
    match b {
        [] => false,
        [c, ..] => *c == b'/' || *c == b'>',
    }
}

fn attributes_at<'a>(
    alloc: Global,
    source: &[u8],
    b: &'a [u8],
) -> Result<(Vec<Named>, &'a [u8]), XmlError>
    requires { HasBack source.now b.now }
    ensures value { Gives (until no_attribute attribute_at b.now)
        (λ x. (attributes_of source.now x.0.items, x.1.now)) result }
    ensures shorter { IfOk result (λ x. length x.1.now ≤ length b.now) }
{
    // Room for two, as many as most elements have that have one.
    let room = if no_attribute(b) { 0 } else { 2 };
    let mut attributes = Vec::with_capacity(alloc, room)?;
    let mut rest = b;
    'attributes: while !no_attribute(rest) {
        let (attribute, after) = attribute_at(alloc, source, rest)?;
        attributes.push(attribute)?;
        rest = after;
    }
    Ok((attributes, rest))
}

fn tag_at<'a>(alloc: Global, source: &[u8], b: &'a [u8]) -> Result<(Piece<'a>, &'a [u8]), XmlError>
    requires { HasBack source.now b.now }
    ensures value { Gives (tag_at b.now) (λ x. (piece source.now x.0, x.1.now)) result }
    ensures shorter { IfOk result (λ x. length x.1.now ≤ length b.now) }
{
    let Some((name, rest)) = name_at(b) else {
        return Err(XmlError::Malformed);
    };
    let name = name_place(source, name, rest)?;
    let (attributes, rest) = attributes_at(alloc, source, rest)?;
    let rest = past_white(rest);
    let tag = Tag { name, attributes };
    if let Some(rest) = behind(b"/>", rest) {
        return Ok((Piece::Leaf(tag), rest));
    }
    match behind(b">", rest) {
        None => Err(XmlError::Malformed),
        Some(rest) => Ok((Piece::Start(tag), rest)),
    }
}

fn past_next<'a>(close: &[u8], b: &'a [u8]) -> Option<&'a [u8]>
    ensures value { option_copied result ≡ past_next close.now b.now }
    ensures shorter { IfSome result (λ rest. length rest.now ≤ length b.now) }
{
    let mut from = b;
    while let [_, after @ ..] = from {
        if let Some(rest) = behind(close, from) {
            return Some(rest);
        }
        from = after;
    }
    None
}

// What follows a comment or an instruction.
fn passed_at<'a>(close: &[u8], b: &'a [u8]) -> Result<&'a [u8], XmlError>
    ensures value { Gives (passed_at close.now b.now) (λ rest. (passed_over, rest.now)) result }
    ensures shorter { IfOk result (λ rest. length rest.now ≤ length b.now) }
{
    match past_next(close, b) {
        None => Err(XmlError::Malformed),
        Some(rest) => Ok(rest),
    }
}

fn run_at<'a>(alloc: Global, source: &[u8], b: &'a [u8]) -> Result<(Piece<'a>, &'a [u8]), XmlError>
    requires { HasBack source.now b.now }
    ensures value { Gives (run_at b.now) (λ x. (piece source.now x.0, x.1.now)) result }
    ensures moved { IfOk result (λ x. ends_at true 60 b.now ≡ false
        → length x.1.now < length b.now) }
{
    let (text, rest) = characters_until(alloc, source, true, b'<', b)?;
    Ok((Piece::Run(text), rest))
}

#[tactic(auto, unfolding(crate::specs::Lexing::markup_at))]
fn markup_at<'a>(
    alloc: Global,
    source: &[u8],
    b: &'a [u8],
) -> Result<(Piece<'a>, &'a [u8]), XmlError>
    requires { HasBack source.now b.now }
    ensures value { Gives (markup_at b.now) (λ x. (piece source.now x.0, x.1.now)) result }
    ensures shorter { IfOk result (λ x. length x.1.now ≤ length b.now) }
{
    if let Some(rest) = behind(b"/", b) {
        let (name, rest) = end_at(rest)?;
        return Ok((Piece::End(name), rest));
    }
    if let Some(rest) = behind(b"!--", b) {
        return Ok((Piece::PassedOver, passed_at(b"-->", rest)?));
    }
    if let Some(rest) = behind(b"?", b) {
        return Ok((Piece::PassedOver, passed_at(b"?>", rest)?));
    }
    tag_at(alloc, source, b)
}

/// The piece at the front of `b`, with which `source` ends, and what follows it. Its texts are places in `source` where they stand in it.
#[tactic(auto, unfolding(crate::specs::Lexing::piece_at))]
pub(crate) fn piece_at<'a>(
    alloc: Global,
    source: &[u8],
    b: &'a [u8],
) -> Result<(Piece<'a>, &'a [u8]), XmlError>
    requires { HasBack source.now b.now }
    ensures value { Gives (piece_at b.now) (λ x. (piece source.now x.0, x.1.now)) result }
    ensures shorter { IfOk result (λ x. length x.1.now < length b.now) }
{
    match b {
        [] => Err(XmlError::Malformed),
        [b'<', rest @ ..] => markup_at(alloc, source, rest),
        _ => run_at(alloc, source, b),
    }
}

/// Whether all are octets that a document may have: the tab, the line feed, the carriage return and the printable ones of ASCII. It looks
/// at each octet, so that several are tested at once.
pub fn are_octets(b: &[u8]) -> bool
    ensures { result ≡ list_all is_octet b.now }
{
    let mut all = true;
    for c in b {
        all &= is_octet(*c);
    }
    all
}

fn is_octet(c: u8) -> bool
    ensures { result ≡ is_octet c }
{
    c == b'\t' || c == b'\n' || c == b'\r' || (b' ' <= c && c <= b'~')
}
