//! Documents are read.

ghost use Rattle.std.specs.Prelude.{◌≡◌, [], OnOk, IfOk, MatchResult, is_some, true};
ghost use Rattle.std.specs.List.{list_all};
ghost use Rattle.std.specs.Option.{option_copied};
ghost use Rattle.rpki_xml.specs.Answers.{IsDocumentRefused};
ghost use Rattle.rpki_xml.specs.Stack.{bare_head};
ghost use Rattle.rpki_xml.specs.Lexing.{is_octet, IsDocument};
ghost use Rattle.rpki_xml.specs.Name.{local_name};
ghost use Rattle.rpki_xml.specs.Nodes.{IsFlat, tree_of};
ghost use Rattle.rpki_xml.specs.Pieces.{piece as piece_of};
ghost use Rattle.rpki_xml.specs.Answers.{Gives};
ghost use Rattle.rpki_xml.specs.Tables.{the_child};
ghost use Rattle.rpki_xml.specs.DocumentNodes.{root_of_opens, root_of, root_of_document, IsWholeDocument, IsWholeIn};
ghost use Rattle.rpki_xml.specs.Stack.{held, AreOpensHeld, step};
ghost use Rattle.rpki_xml.specs.Views.{head_of, slots};

use crate::distinct::is_distinct;
use crate::element::{Attributes, Children, ElementRef, Node, Rest};
use crate::error::XmlError;
use crate::kept::name_place;
use crate::lexing::{Piece, are_octets, is_letter, piece_at};
use crate::stack::{add_element, add_run, begin_element, end_element, is_all_white};
use crate::tag::node_of;
use memchr::memchr_iter;
use rpki_common::OutOfMemory;
use std::alloc::Global;
use std::marker::Model;
use std::rc::Rc;

/// The element of a document whose octets are lent. Its copies share their memory. In a clause it is a record of its head,
/// which has name, namespace, attributes and text, and of its children.
#[derive(Drop)]
pub struct Element<'a> {
    document: Rc<Document<'a>>,
}

// A document that was read.
#[derive(Drop)]
struct Document<'a> {
    // Its octets, in which the nodes have their places.
    source: &'a [u8],
    // A node for the document itself, and the elements in the order of their starts.
    nodes: Vec<Node>,
}

impl<'a> Model for Element<'a> {
    ghost use Rattle.rpki_xml.specs.Element.{Element as Tree, alone};
    ghost use Rattle.rpki_xml.specs.Lettered.{AreLettered};
    ghost use Rattle.rpki_xml.specs.Nodes.{element_code};
    ghost use Rattle.rpki_xml.specs.DocumentNodes.{root_of_document, IsWholeIn};

    ghost Value = { Tree };

    ghost coded = { element_code };

    ghost view = { λ e. root_of_document e.document.value };

    ghost invariant = { λ e. IsWholeIn e.document.value
        × AreLettered (alone (root_of_document e.document.value)) };
}

/// Reads a document: the element that the octets are a document of, which goes on lending the octets that were read. Malformed exactly
/// where they are no document; 2^32 octets or more are refused as want of memory.
pub fn read_document(alloc: Global, octets: &[u8]) -> Result<Element<'_>, XmlError>
    ensures { MatchResult result (IsDocument octets.now) (λ e. IsDocumentRefused e octets.now) }
{
    if !are_octets(octets) {
        return Err(XmlError::Malformed);
    }
    let document = document_of(alloc, octets)?;
    Ok(Element {
        document: Rc::new(alloc, document)?,
    })
}

// The document, with its nodes.
fn document_of(alloc: Global, octets: &[u8]) -> Result<Document<'_>, XmlError>
    requires { list_all is_octet octets.now ≡ true }
    ensures value { MatchResult result (λ d. IsDocument octets.now (root_of_document d))
        (λ e. IsDocumentRefused e octets.now) }
    ensures whole { IfOk result IsWholeIn }
{
    let nodes = nodes_of(alloc, octets)?;
    Ok(Document {
        source: octets,
        nodes,
    })
}

// The nodes of a document.
fn nodes_of(alloc: Global, octets: &[u8]) -> Result<Vec<Node>, XmlError>
    requires { list_all is_octet octets.now ≡ true }
    ensures value { MatchResult result (λ v. IsDocument octets.now (root_of octets.now v.items))
        (λ e. IsDocumentRefused e octets.now) }
    ensures whole { IfOk result (λ v. IsWholeDocument octets.now v.items) }
{
    let mut nodes = Vec::with_capacity(alloc, starts_in(octets).saturating_add(1))?;
    let own = own_node(octets)?;
    nodes.push(own)?;
    let mut places: Vec<u32> = Vec::new(alloc);
    places.push(0)?;
    let mut rest = octets;
    while !rest.is_empty() {
        let (piece, after) = piece_at(alloc, octets, rest)?;
        take(alloc, octets, &mut nodes, &mut places, piece)?;
        rest = after;
    }
    finished(octets, nodes, &places)
}

// How many starts of elements there may be at most: each is a `<` before the first octet of a name. A list of the nodes with
// so much room never grows.
fn starts_in(octets: &[u8]) -> usize {
    let mut count = 0usize;
    for start in memchr_iter(b'<', octets) {
        if let Some(c) = octets.get(start.saturating_add(1)) {
            if is_letter(*c) || *c == b'_' {
                count = count.saturating_add(1);
            }
        }
    }
    count
}

// The document itself, as an element. Its name is the empty one behind the last octet.
fn own_node(source: &[u8]) -> Result<Node, XmlError>
    ensures head { Gives (Some (bare_head [])) (head_of source.now) result }
    ensures below { IfOk result (λ n. n.below ≡ 0) }
{
    Ok(Node {
        name: name_place(source, &[], &[])?,
        below: 0,
        rest: Rest::Plain { start: 0, end: 0 },
    })
}

// Takes one more piece into the nodes.
fn take(
    alloc: Global,
    source: &[u8],
    nodes: &mut Vec<Node>,
    places: &mut Vec<u32>,
    piece: Piece<'_>,
) -> Result<(), XmlError>
    requires { AreOpensHeld source.now nodes.old.items places.old.items }
    ensures given { Gives
        (step (piece_of source.now piece.entry) (held source.now nodes.old.items places.old.items))
        (λ _. held source.now nodes.new.items places.new.items) result }
    ensures kept { OnOk result (AreOpensHeld source.now nodes.new.items places.new.items) }
{
    match piece {
        Piece::Run(text) => add_run(alloc, source, nodes, places, text),
        Piece::PassedOver => Ok(()),
        Piece::Leaf(tag) => {
            if !is_distinct(alloc, source, tag.attributes.as_slice())? {
                return Err(XmlError::Malformed);
            }
            let node = node_of(alloc, source, tag)?;
            add_element(source, nodes, places, node)
        }
        Piece::Start(tag) => {
            if !is_distinct(alloc, source, tag.attributes.as_slice())? {
                return Err(XmlError::Malformed);
            }
            let node = node_of(alloc, source, tag)?;
            begin_element(source, nodes, places, node)
        }
        Piece::End(name) => end_element(alloc, source, nodes, places, name),
    }
}

// The nodes, where no element but the document itself is open, which holds one element and white space.
fn finished(source: &[u8], nodes: Vec<Node>, places: &[u32]) -> Result<Vec<Node>, XmlError>
    requires { AreOpensHeld source.now nodes.items places.now }
    ensures value { Gives (root_of_opens (held source.now nodes.items places.now))
        (λ v. root_of source.now v.items) result }
    ensures whole { IfOk result (λ v. IsWholeDocument source.now v.items) }
{
    if places.len() != 1 {
        return Err(XmlError::Malformed);
    }
    let Some((document, below)) = nodes.split_first() else {
        return Err(XmlError::Malformed);
    };
    if !is_all_white(document.rest.text(source)) {
        return Err(XmlError::Malformed);
    }
    if !is_one(source, below) {
        return Err(XmlError::Malformed);
    }
    Ok(nodes)
}

// Whether there is one element that is no other's child: the first one, with all others below it.
fn is_one(source: &[u8], nodes: &[Node]) -> bool
    requires { IsFlat (slots source.now nodes.now) }
    ensures { result ≡ is_some (the_child (tree_of (slots source.now nodes.now))) }
{
    match nodes.split_first() {
        None => false,
        Some((root, rest)) => root.below as usize == rest.len(),
    }
}

impl<'a> Element<'a> {
    /// The element, lent.
    pub fn as_ref(&self) -> ElementRef<'_>
        ensures { result ≡ self.now }
    {
        let document = self.document.as_ref();
        let Some((_, below)) = document.nodes.split_first() else {
            unreachable!()
        };
        let mut children = Children::over(document.source, below);
        let Some(root) = children.next() else {
            unreachable!()
        };
        root
    }

    /// An equal element that shares its memory with this one.
    pub fn clone(&self, _alloc: Global) -> Result<Element<'a>, OutOfMemory>
        ensures { IfOk result (λ e. e ≡ self.now) }
    {
        Ok(Element {
            document: self.document.clone()?,
        })
    }

    /// The whole name.
    pub fn name(&self) -> &str
        ensures { result.now ≡ self.now.head.name }
    {
        self.as_ref().name()
    }

    /// The part of the name behind its colon, or the whole.
    pub fn local(&self) -> &str
        ensures { result.now ≡ local_name self.now.head.name }
    {
        self.as_ref().local()
    }

    /// The namespace that its own declaration gives, where there is one and it is not empty.
    pub fn namespace(&self) -> Option<&str>
        ensures { option_copied result ≡ self.now.head.namespace }
    {
        self.as_ref().namespace()
    }

    /// The attributes in their order, without declarations of namespaces.
    pub fn attributes(&self) -> Attributes<'_>
        ensures { result ≡ self.now.head.attributes }
    {
        self.as_ref().attributes()
    }

    /// Its children, from the first one on.
    pub fn children(&self) -> Children<'_>
        ensures { result ≡ self.now.children }
    {
        self.as_ref().children()
    }

    /// The text without outer white space, empty where there is a child.
    pub fn text(&self) -> &str
        ensures { result.now ≡ self.now.head.text }
    {
        self.as_ref().text()
    }
}
