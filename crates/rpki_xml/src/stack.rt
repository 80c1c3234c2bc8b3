//! The open elements, as they lie in the list of nodes. `source` is the document, in which the nodes have their places.

ghost use Rattle.std.specs.Prelude.{◌≡◌, ◌↔◌, ◌≤◌, IsTrue, OnOk, length, reverse, Some};
ghost use Rattle.std.specs.List.{list_all};
ghost use Rattle.rpki_xml.specs.Content.{is_white, trimmed, without_white};
ghost use Rattle.rpki_xml.specs.Answers.{Gives};
ghost use Rattle.rpki_xml.specs.Kept.{kept_text};
ghost use Rattle.rpki_xml.specs.Stack.{held, AreOpensHeld, open_text, settled_parts, with_more_text, add_element, begin_element, end_element, add_run};
ghost use Rattle.rpki_xml.specs.Views.{head_of, parts_in};

use crate::element::{Node, Rest, rest_of, taken_apart};
use crate::error::XmlError;
use crate::kept::{Text, name_from, narrow};
use std::alloc::Global;
use std::mem;

/// Adds one more run to the innermost open element.
pub(crate) fn add_run(
    alloc: Global,
    source: &[u8],
    nodes: &mut Vec<Node>,
    places: &[u32],
    run: Text,
) -> Result<(), XmlError>
    requires { AreOpensHeld source.now nodes.old.items places.now }
    ensures given { Gives
        (add_run (kept_text source.now run) (held source.now nodes.old.items places.now))
        (λ _. held source.now nodes.new.items places.now) result }
    ensures kept { OnOk result (AreOpensHeld source.now nodes.new.items places.now) }
{
    let Some((place, _)) = places.split_last() else {
        return Err(XmlError::Malformed);
    };
    let node = &mut nodes[*place as usize];
    let so_far = mem::replace(&mut node.rest, Rest::Plain { start: 0, end: 0 });
    let rest = with_run(alloc, source, so_far, run)?;
    node.rest = rest;
    Ok(())
}

/// An element without children, in the innermost open element.
pub(crate) fn add_element(
    source: &[u8],
    nodes: &mut Vec<Node>,
    places: &[u32],
    node: Node,
) -> Result<(), XmlError>
    requires held { AreOpensHeld source.now nodes.old.items places.now }
    requires below { node.below ≡ 0 }
    ensures given { Gives
        (add_element (head_of source.now node) (held source.now nodes.old.items places.now))
        (λ _. held source.now nodes.new.items places.now) result }
    ensures kept { OnOk result (AreOpensHeld source.now nodes.new.items places.now) }
{
    if places.is_empty() {
        return Err(XmlError::Malformed);
    }
    nodes.push(node)?;
    Ok(())
}

/// The start of an element.
pub(crate) fn begin_element(
    source: &[u8],
    nodes: &mut Vec<Node>,
    places: &mut Vec<u32>,
    node: Node,
) -> Result<(), XmlError>
    requires held { AreOpensHeld source.now nodes.old.items places.old.items }
    requires below { node.below ≡ 0 }
    ensures given { Gives
        (begin_element (head_of source.now node) (held source.now nodes.old.items places.old.items))
        (λ _. held source.now nodes.new.items places.new.items) result }
    ensures kept { OnOk result (AreOpensHeld source.now nodes.new.items places.new.items) }
{
    if places.is_empty() {
        return Err(XmlError::Malformed);
    }
    let place = narrow(nodes.len())?;
    make_room(places)?;
    places.push(place)?;
    nodes.push(node)?;
    Ok(())
}

// Room for one more place. Where there is none, the list grows by an eighth, so that little of it stays unused.
fn make_room(places: &mut Vec<u32>) -> Result<(), XmlError>
    ensures given { Gives (Some places.old.items) (λ _. places.new.items) result }
    ensures kept { places.new.items ≡ places.old.items }
{
    if places.len() < places.capacity() {
        return Ok(());
    }
    places.reserve_exact(places.len() / 8 + 4)?;
    Ok(())
}

/// The end of the innermost open element, which must have the name.
pub(crate) fn end_element(
    alloc: Global,
    source: &[u8],
    nodes: &mut Vec<Node>,
    places: &mut Vec<u32>,
    name: &[u8],
) -> Result<(), XmlError>
    requires { AreOpensHeld source.now nodes.old.items places.old.items }
    ensures given { Gives (end_element name.now (held source.now nodes.old.items places.old.items))
        (λ _. held source.now nodes.new.items places.new.items) result }
    ensures kept { OnOk result (AreOpensHeld source.now nodes.new.items places.new.items) }
{
    let Some(place) = places.pop() else {
        return Err(XmlError::Malformed);
    };
    if places.is_empty() {
        return Err(XmlError::Malformed);
    }
    let below = narrow(nodes.len() - place as usize - 1)?;
    let node = &mut nodes[place as usize];
    if name_from(source, node.name) != name {
        return Err(XmlError::Malformed);
    }
    let so_far = mem::replace(&mut node.rest, Rest::Plain { start: 0, end: 0 });
    let rest = with_settled(alloc, source, below, so_far)?;
    node.rest = rest;
    node.below = below;
    Ok(())
}

// What an element has beside its name, after one more run.
fn with_run(alloc: Global, source: &[u8], rest: Rest, run: Text) -> Result<Rest, XmlError>
    ensures { Gives (Some (with_more_text (kept_text source.now run) (parts_in source.now rest)))
        (parts_in source.now) result }
{
    let (text, namespace, attributes) = taken_apart(alloc, rest);
    let joined = text.with(alloc, source, run)?;
    rest_of(alloc, joined, namespace, attributes)
}

// What an element has beside its name at its end, with so many elements below it.
fn with_settled(alloc: Global, source: &[u8], below: u32, rest: Rest) -> Result<Rest, XmlError>
    ensures { Gives (settled_parts below (parts_in source.now rest)) (parts_in source.now) result }
{
    let (text, namespace, attributes) = taken_apart(alloc, rest);
    let settled = settled(alloc, source, below, text)?;
    rest_of(alloc, settled, namespace, attributes)
}

// The text of an element with so many elements below it.
fn settled(alloc: Global, source: &[u8], below: u32, text: Text) -> Result<Text, XmlError>
    ensures { Gives (open_text below (kept_text source.now text)) (kept_text source.now) result }
{
    if below == 0 {
        return trimmed_of(alloc, source, &text);
    }
    if !is_all_white(text.octets(source)) {
        return Err(XmlError::Malformed);
    }
    Ok(Text::At { start: 0, end: 0 })
}

#[tactic(auto, unfolding(crate::specs::Content::trimmed))]
fn trimmed_of(alloc: Global, source: &[u8], text: &Text) -> Result<Text, XmlError>
    ensures { Gives (Some (trimmed (kept_text source.now text.now))) (kept_text source.now) result }
{
    let begun = without_leading(text.octets(source));
    let trimmed = without_trailing(begun);
    let (_, rest) = begun.split_at(trimmed.len());
    text.part(alloc, source, trimmed, rest)
}

/// Whether a text has no outer white space, so that an element's text is read as it is.
#[tactic(auto, unfolding(crate::specs::Content::trimmed))]
pub fn is_trimmed(text: &[u8]) -> bool
    ensures { IsTrue result ↔ (trimmed text.now ≡ text.now) }
{
    without_trailing(without_leading(text)) == text
}

/// Whether a text is white space alone.
pub(crate) fn is_all_white(text: &[u8]) -> bool
    ensures { result ≡ list_all is_white text.now }
{
    text.iter().all(|c| is_white(*c))
}

/// White space: tab, line feed, carriage return and space.
pub(crate) fn is_white(c: u8) -> bool
    ensures { result ≡ is_white c }
{
    c == b'\t' || c == b'\n' || c == b'\r' || c == b' '
}

// A text from its first octet on that is no white space.
fn without_leading(text: &[u8]) -> &[u8]
    ensures { result.now ≡ without_white text.now }
{
    for (i, c) in text.iter().enumerate() {
        if !is_white(*c) {
            return &text[i..];
        }
    }
    &[]
}

// A text up to its last octet that is no white space.
fn without_trailing(text: &[u8]) -> &[u8]
    ensures value { result.now ≡ reverse (without_white (reverse text.now)) }
    ensures shorter { length result.now ≤ length text.now }
{
    let mut text = text;
    while let [front @ .., last] = text
        && is_white(*last)
    {
        text = front;
    }
    text
}
