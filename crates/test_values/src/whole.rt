//! Calls over octets that have no cursor: leaves that are kept, trees, tags.

use crate::shown::{append_node, bits_shown, octets_shown, pair_shown, tag_of};
use rpki_der::{
    BitString, Children, DecodeError, Mode, Node, OctetString, Oid, Tag, Tree, read_tree,
    take_whole_pair, take_whole_primitive,
};
use std::alloc::Global;
use test_stored::{Fields, Step};

fn tag(alloc: Global, octets: &[u8]) -> Result<Fields, DecodeError> {
    Ok(Fields::one(alloc, tag_of(octets)?.as_slice())?)
}

fn primitive(alloc: Global, mode: Mode, octets: &[u8], tag: &[u8]) -> Result<Fields, DecodeError> {
    let tag = tag_of(tag)?;
    octets_shown(
        alloc,
        take_whole_primitive(mode, octets, tag).ok_or(DecodeError::Malformed),
    )
}

fn pair(alloc: Global, mode: Mode, octets: &[u8]) -> Result<Fields, DecodeError> {
    match take_whole_pair(mode, octets) {
        Some((first, second)) => pair_shown(alloc, &first, second),
        None => Err(DecodeError::Malformed),
    }
}

// What a copy of an octet string holds, if the two are equal.
fn string_copied(
    alloc: Global,
    string: &OctetString,
    copy: &OctetString,
) -> Result<Fields, DecodeError> {
    if *copy != *string {
        return Err(DecodeError::Malformed);
    }
    let mut fields = Fields::one(alloc, copy.as_slice())?;
    fields.print(alloc, copy.len())?;
    fields.octets(copy.to_bytes(alloc)?.as_slice())?;
    Ok(fields)
}

fn octet_string(alloc: Global, mode: Mode, octets: &[u8]) -> Result<Fields, DecodeError> {
    let string = OctetString::take(alloc, mode, octets)?;
    string_copied(alloc, &string, &string.clone(alloc)?)
}

// What a copy of a bit string holds, if the two are equal.
fn bits_copied(alloc: Global, string: &BitString, copy: &BitString) -> Result<Fields, DecodeError> {
    if *copy != *string {
        return Err(DecodeError::Malformed);
    }
    bits_shown(alloc, Ok((copy.unused(), copy.octets())))
}

fn bit_string(alloc: Global, mode: Mode, octets: &[u8]) -> Result<Fields, DecodeError> {
    let string = BitString::take(alloc, mode, octets)?;
    bits_copied(alloc, &string, &string.clone(alloc)?)
}

// What a copy of an object identifier holds and prints, if the two are equal.
fn oid_copied(alloc: Global, oid: &Oid, copy: &Oid) -> Result<Fields, DecodeError> {
    if *copy != *oid {
        return Err(DecodeError::Malformed);
    }
    let mut fields = Fields::one(alloc, copy.as_slice())?;
    fields.octets(format!(in alloc; "{copy}")?.as_bytes())?;
    Ok(fields)
}

fn oid(alloc: Global, mode: Mode, octets: &[u8]) -> Result<Fields, DecodeError> {
    let oid = Oid::take(alloc, mode, octets)?;
    oid_copied(alloc, &oid, &oid.clone(alloc)?)
}

// The node that comes next, each before those in it; None behind the last.
fn next_node<'a>(inside: &mut Vec<Children<'a>>) -> Option<Node<'a>> {
    for _ in 0..u64::MAX {
        match inside.last_mut()?.next() {
            Some(node) => return Some(node),
            None => {
                inside.pop();
            }
        }
    }
    None
}

// How many octets the value at the beginning has, and what its node shows.
fn head_shown(alloc: Global, tree: &Tree, size: usize) -> Result<Fields, DecodeError> {
    let mut fields = Fields::new(alloc);
    fields.print(alloc, size)?;
    fields.octets(tree.tag().as_slice())?;
    fields.octets(&[u8::from(tree.is_constructed())])?;
    fields.octets(tree.content())?;
    fields.octets(tree.slice())?;
    Ok(fields)
}

// Appends each node in a tree, of which there are at most so many.
fn append_nodes(
    alloc: Global,
    fields: &mut Fields,
    tree: &Tree,
    most: usize,
) -> Result<(), DecodeError> {
    let mut inside: Vec<Children<'_>> = Vec::new(alloc);
    inside.push(tree.children())?;
    for _ in 0..most {
        let Some(node) = next_node(&mut inside) else {
            return Ok(());
        };
        append_node(fields, &node)?;
        inside.push(node.children())?;
    }
    Ok(())
}

// How many octets the value at the beginning has, and each node in it.
fn tree(alloc: Global, mode: Mode, octets: &[u8]) -> Result<Fields, DecodeError> {
    let (tree, size) = read_tree(alloc, mode, octets)?;
    let mut fields = head_shown(alloc, &tree, size)?;
    append_nodes(alloc, &mut fields, &tree, octets.len())?;
    Ok(fields)
}

// How many nodes there are, at most so many.
fn nodes_of(alloc: Global, tree: &Tree, most: usize) -> Result<u64, DecodeError> {
    let mut inside: Vec<Children<'_>> = Vec::new(alloc);
    inside.push(tree.root().children())?;
    let mut nodes = 1u64;
    for _ in 0..most {
        let Some(node) = next_node(&mut inside) else {
            return Ok(nodes);
        };
        nodes = nodes.saturating_add(1);
        inside.push(node.children())?;
    }
    Ok(nodes)
}

// How many octets the value at the beginning has, and how many nodes there are.
fn tree_size(alloc: Global, mode: Mode, octets: &[u8]) -> Result<Fields, DecodeError> {
    let (tree, size) = read_tree(alloc, mode, octets)?;
    let nodes = nodes_of(alloc, &tree, octets.len())?;
    let mut fields = Fields::new(alloc);
    fields.print(alloc, size)?;
    fields.print(alloc, nodes)?;
    Ok(fields)
}

/// What a call of this module answers; None where the step is none.
pub fn answer(
    alloc: Global,
    mode: Mode,
    octets: &[u8],
    step: &Step<'_>,
) -> Option<Result<Fields, DecodeError>> {
    match step.call {
        "tag" => Some(tag(alloc, octets)),
        "whole_primitive" => Some(primitive(alloc, mode, octets, &step.argument)),
        "whole_pair" => Some(pair(alloc, mode, octets)),
        "octet_string" => Some(octet_string(alloc, mode, octets)),
        "bit_string" => Some(bit_string(alloc, mode, octets)),
        "whole_oid" => Some(oid(alloc, mode, octets)),
        "tree" => Some(tree(alloc, mode, octets)),
        "tree_size" => Some(tree_size(alloc, mode, octets)),
        _ => None,
    }
}
