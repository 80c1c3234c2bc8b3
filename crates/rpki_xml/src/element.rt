//! An element inside a document, and its children.

ghost use Rattle.std.specs.Fn.{FnOnceReturnsAt};
ghost use Rattle.std.specs.Option.{option_copied, option_map};
ghost use Rattle.std.specs.Prelude.{◌≡◌, ℕ, List, Option, Some, None};
ghost use Rattle.rpki_xml.specs.Answers.{Gives, Matches};
ghost use Rattle.rpki_xml.specs.Element.{is_none, is_nil};
ghost use Rattle.rpki_xml.specs.Kept.{kept_text, attributes_of};
ghost use Rattle.rpki_xml.specs.Lettered.{AreLettered, AreOctets};
ghost use Rattle.rpki_xml.specs.Name.{local_name};
ghost use Rattle.rpki_xml.specs.Nodes.{IsFlat, tree_of};
ghost use Rattle.rpki_xml.specs.Tables.{is_named, is_first_named, is_empty, optional, required, only_listed, optional_by, given_or_absent, is_or_absent, the_child, at_most_one_child, no_child};
ghost use Rattle.rpki_xml.specs.Texts.{texts};
ghost use Rattle.rpki_xml.specs.Views.{slots, text_in, namespace_in, attributes_in, parts_of, parts_in};

use crate::error::{Mismatch, XmlError};
use crate::kept::{Named, Text, name_from, part_of};
use crate::lookup::{local_of, only_among, optional_among, require, required_among};
use std::alloc::Global;
use std::marker::Model;
use std::str;

/// An attribute of an element, lent. In a clause it is a record of name and value.
#[derive(Clone, Copy, Debug)]
pub struct Attribute<'a> {
    /// The whole name.
    pub name: &'a str,
    /// The value, its entities resolved.
    pub value: &'a str,
}

/// The attributes of an element, or those that are left of them. In a clause it is the list of them.
#[derive(Drop)]
pub struct Attributes<'a> {
    source: &'a [u8],
    left: &'a [Named],
}

impl<'a> Model for Attributes<'a> {
    ghost use Rattle.std.specs.Prelude.{List};
    ghost use Rattle.std.specs.List.{AllByRecursion};
    ghost use Rattle.rpki_xml.specs.Element.{Attribute as Named};
    ghost use Rattle.rpki_xml.specs.Kept.{attributes_of};
    ghost use Rattle.rpki_xml.specs.Lettered.{IsLetteredAttribute};
    ghost use Rattle.rpki_xml.specs.Nodes.{attributes_code};

    ghost Value = { List Named };

    ghost coded = { attributes_code };

    ghost view = { λ a. attributes_of a.source.now a.left.now };

    ghost invariant = { λ a.
        AllByRecursion IsLetteredAttribute (attributes_of a.source.now a.left.now) };
}

impl<'a> Iterator for Attributes<'a> {
    ghost use Rattle.std.specs.Iterator.{YieldsFirstBy, item_count};
    ghost use Rattle.rpki_xml.specs.Views.{lent};

    type Item = Attribute<'a>;

    ghost next_gives = { YieldsFirstBy lent (λ list. list) };

    ghost remaining = { item_count (λ list. list) };

    fn next(&mut self) -> Option<Attribute<'a>> {
        let (first, left) = self.left.split_first()?;
        self.left = left;
        Some(Attribute {
            name: as_text(name_from(self.source, first.name)),
            value: as_text(first.value.octets(self.source)),
        })
    }
}

/// An element without its children, and how many elements are below it.
#[derive(Drop)]
pub(crate) struct Node {
    /// Where its name begins in the document.
    pub(crate) name: u32,
    pub(crate) below: u32,
    pub(crate) rest: Rest,
}

/// What an element has beside its name.
#[derive(Drop)]
pub(crate) enum Rest {
    /// A text that stands in the document, and nothing else.
    Plain { start: u32, end: u32 },
    /// A text of its own, and nothing else.
    Own(Box<Vec<u8>>),
    /// Attributes, and nothing else.
    Bare(Box<Vec<Named>>),
    /// A text and attributes, and no namespace.
    Attributed(Box<Attributed>),
    /// A text, a namespace and attributes.
    Namespaced(Box<Namespaced>),
}

/// Text and attributes of an element that has no namespace.
#[derive(Drop)]
pub(crate) struct Attributed {
    pub(crate) text: Text,
    pub(crate) attributes: Vec<Named>,
}

/// Text, namespace and attributes of an element that has a namespace.
#[derive(Drop)]
pub(crate) struct Namespaced {
    pub(crate) text: Text,
    pub(crate) namespace: Text,
    pub(crate) attributes: Vec<Named>,
}

impl Rest {
    /// The text.
    pub(crate) fn text<'a>(&'a self, source: &'a [u8]) -> &'a [u8]
        ensures { result.now ≡ text_in source.now self.now }
    {
        match self {
            Rest::Plain { start, end } => part_of(source, *start, *end),
            Rest::Own(octets) => octets.as_slice(),
            Rest::Bare(_) => &[],
            Rest::Attributed(more) => more.text.octets(source),
            Rest::Namespaced(more) => more.text.octets(source),
        }
    }

    /// The namespace, where there is one.
    fn namespace(&self) -> Option<&Text>
        ensures { (source : List ℕ)
            → option_map (λ t. kept_text source t.now) result ≡ namespace_in source self.now }
    {
        match self {
            Rest::Plain { start: _, end: _ } => None,
            Rest::Own(_) => None,
            Rest::Bare(_) => None,
            Rest::Attributed(_) => None,
            Rest::Namespaced(more) => Some(&more.namespace),
        }
    }

    /// The attributes.
    fn attributes(&self) -> &[Named]
        ensures { (source : List ℕ)
            → attributes_of source result.now ≡ attributes_in source self.now }
    {
        match self {
            Rest::Plain { start: _, end: _ } => &[],
            Rest::Own(_) => &[],
            Rest::Bare(attributes) => attributes.as_slice(),
            Rest::Attributed(more) => more.attributes.as_slice(),
            Rest::Namespaced(more) => more.attributes.as_slice(),
        }
    }
}

/// A text, a namespace and attributes together. Malformed never comes.
pub(crate) fn rest_of(
    alloc: Global,
    text: Text,
    namespace: Option<Text>,
    attributes: Vec<Named>,
) -> Result<Rest, XmlError>
    ensures { (source : List ℕ)
        → Gives (Some (parts_of source text namespace attributes.items)) (parts_in source) result }
{
    match namespace {
        None => rest_without_namespace(alloc, text, attributes),
        Some(namespace) => {
            let more = Namespaced {
                text,
                namespace,
                attributes,
            };
            Ok(Rest::Namespaced(Box::new(alloc, more)?))
        }
    }
}

fn rest_without_namespace(
    alloc: Global,
    text: Text,
    attributes: Vec<Named>,
) -> Result<Rest, XmlError>
    ensures { (source : List ℕ)
        → Gives (Some (parts_of source text None attributes.items)) (parts_in source) result }
{
    if attributes.is_empty() {
        return match text {
            Text::At { start, end } => Ok(Rest::Plain { start, end }),
            Text::Own(octets) => Ok(Rest::Own(octets)),
        };
    }
    match text {
        Text::At { start: 0, end: 0 } => Ok(Rest::Bare(Box::new(alloc, attributes)?)),
        _ => Ok(Rest::Attributed(Box::new(alloc, Attributed { text, attributes })?)),
    }
}

/// Text, namespace and attributes, taken apart.
pub(crate) fn taken_apart(alloc: Global, rest: Rest) -> (Text, Option<Text>, Vec<Named>)
    ensures { (source : List ℕ)
        → parts_of source result.0 result.1 result.2.items ≡ parts_in source rest }
{
    match rest {
        Rest::Plain { start, end } => (Text::At { start, end }, None, Vec::new(alloc)),
        Rest::Own(octets) => (Text::Own(octets), None, Vec::new(alloc)),
        Rest::Bare(attributes) => (
            Text::At { start: 0, end: 0 },
            None,
            Box::into_inner(attributes),
        ),
        Rest::Attributed(more) => {
            let Attributed { text, attributes } = Box::into_inner(more);
            (text, None, attributes)
        }
        Rest::Namespaced(more) => {
            let Namespaced {
                text,
                namespace,
                attributes,
            } = Box::into_inner(more);
            (text, Some(namespace), attributes)
        }
    }
}

/// Elements that follow each other: the children of one, or those that are left of them. In a clause it is these elements, as
/// `Elements` of specs/Element.antt has them.
#[derive(Drop)]
pub struct Children<'a> {
    source: &'a [u8],
    nodes: &'a [Node],
}

impl<'a> Model for Children<'a> {
    ghost use Rattle.rpki_xml.specs.Element.{Elements};
    ghost use Rattle.rpki_xml.specs.Nodes.{elements_code, tree_of, IsFlat};
    ghost use Rattle.rpki_xml.specs.Lettered.{AreLettered};
    ghost use Rattle.rpki_xml.specs.Views.{slots};

    ghost Value = { Elements };

    ghost coded = { elements_code };

    ghost view = { λ c. tree_of (slots c.source.now c.nodes.now) };

    ghost invariant = { λ c. IsFlat (slots c.source.now c.nodes.now)
        × AreLettered (tree_of (slots c.source.now c.nodes.now)) };
}

/// An element of a document. In a clause it is a record of its head, which has name, namespace, attributes and text, and of
/// its children.
#[derive(Drop)]
pub struct ElementRef<'a> {
    source: &'a [u8],
    head: &'a Node,
    below: &'a [Node],
}

impl<'a> Model for ElementRef<'a> {
    ghost use Rattle.rpki_xml.specs.Element.{Element as Tree};
    ghost use Rattle.rpki_xml.specs.Lettered.{IsLetteredHead, AreLettered};
    ghost use Rattle.rpki_xml.specs.Nodes.{element_code, tree_of, IsFlat};
    ghost use Rattle.rpki_xml.specs.Views.{head_of, slots};

    ghost Value = { Tree };

    ghost coded = { element_code };

    ghost view = { λ e. record {
      head = head_of e.source.now e.head.now;
      children = tree_of (slots e.source.now e.below.now);
    } };

    ghost invariant = { λ e. IsLetteredHead (head_of e.source.now e.head.now)
        × (IsFlat (slots e.source.now e.below.now)
        × AreLettered (tree_of (slots e.source.now e.below.now))) };
}

impl<'a> Iterator for Children<'a> {
    ghost use Rattle.std.specs.Iterator.{YieldsFirst, item_count};
    ghost use Rattle.rpki_xml.specs.Element.{listed};

    type Item = ElementRef<'a>;

    ghost next_gives = { YieldsFirst listed };

    ghost remaining = { item_count listed };

    fn next(&mut self) -> Option<ElementRef<'a>> {
        let (node, rest) = self.nodes.split_first()?;
        let (below, after) = rest.split_at(node.below as usize);
        self.nodes = after;
        Some(ElementRef {
            source: self.source,
            head: node,
            below,
        })
    }
}

impl<'a> Children<'a> {
    /// The elements that a flat list holds, of a document.
    pub(crate) fn over(source: &'a [u8], nodes: &'a [Node]) -> Children<'a>
        requires flat { IsFlat (slots source.now nodes.now) }
        requires lettered { AreLettered (tree_of (slots source.now nodes.now)) }
        ensures { result ≡ tree_of (slots source.now nodes.now) }
    {
        Children { source, nodes }
    }

    /// Whether there is no element.
    pub fn is_empty(&self) -> bool
        ensures { result ≡ is_none self.now }
    {
        self.nodes.is_empty()
    }

    /// Whether there is a first element, with this local name.
    pub fn is_first_named(&self, local: &str) -> bool
        ensures { result ≡ is_first_named local.now self.now }
    {
        match self.nodes.split_first() {
            None => false,
            Some((node, _)) => local_of(name_from(self.source, node.name)) == local.as_bytes(),
        }
    }

    /// The one element. Mismatch where there is none, or more than one.
    pub fn the_one(self) -> Result<ElementRef<'a>, Mismatch>
        ensures { Matches (the_child self.entry) (λ e. e) result }
    {
        let mut children = self;
        let Some(element) = children.next() else {
            return Err(Mismatch);
        };
        children.no_more()?;
        Ok(element)
    }

    /// The one element, where there is one. Mismatch where there is more than one.
    pub fn at_most_one(self) -> Result<Option<ElementRef<'a>>, Mismatch>
        ensures { Matches (at_most_one_child self.entry) (λ found. found) result }
    {
        let mut children = self;
        let Some(element) = children.next() else {
            return Ok(None);
        };
        children.no_more()?;
        Ok(Some(element))
    }

    /// Nothing. Mismatch where there is an element.
    pub fn no_more(&self) -> Result<(), Mismatch>
        ensures { Matches (no_child self.now) (λ _. tt) result }
    {
        require(self.is_empty())
    }
}

// The octets as a text. This is the one place where octets are taken for a text unchecked: those of a document are ASCII, and
// the invariants of the types above keep that they are, so that a getter neither looks at them again nor can fail.
fn as_text(octets: &[u8]) -> &str
    requires { AreOctets octets.now }
    ensures { result.now ≡ octets.now }
{
    unsafe { str::from_utf8_unchecked(octets) }
}

impl<'a> ElementRef<'a> {
    /// The whole name.
    pub fn name(&self) -> &'a str
        ensures { result.now ≡ self.now.head.name }
    {
        as_text(name_from(self.source, self.head.name))
    }

    /// The part of the name behind its colon, or the whole.
    pub fn local(&self) -> &'a str
        ensures { result.now ≡ local_name self.now.head.name }
    {
        as_text(local_of(name_from(self.source, self.head.name)))
    }

    /// The namespace that its own declaration gives, where there is one and it is not empty.
    pub fn namespace(&self) -> Option<&'a str>
        ensures { option_copied result ≡ self.now.head.namespace }
    {
        match self.head.rest.namespace() {
            None => None,
            Some(uri) => Some(as_text(uri.octets(self.source))),
        }
    }

    /// The attributes in their order, without declarations of namespaces.
    pub fn attributes(&self) -> Attributes<'a>
        ensures { result ≡ self.now.head.attributes }
    {
        Attributes {
            source: self.source,
            left: self.head.rest.attributes(),
        }
    }

    /// Its children, from the first one on.
    pub fn children(&self) -> Children<'a>
        ensures { result ≡ self.now.children }
    {
        Children {
            source: self.source,
            nodes: self.below,
        }
    }

    /// The text without outer white space, empty where there is a child.
    pub fn text(&self) -> &'a str
        ensures { result.now ≡ self.now.head.text }
    {
        as_text(self.head.rest.text(self.source))
    }

    /// Whether it has this local name.
    pub fn is_named(&self, local: &str) -> bool
        ensures { result ≡ is_named local.now self.now.head }
    {
        local_of(name_from(self.source, self.head.name)) == local.as_bytes()
    }

    /// Whether it has neither child nor text.
    pub fn is_empty(&self) -> bool
        ensures { result ≡ is_empty self.now }
    {
        self.is_childless() && self.is_textless()
    }

    /// Whether it has no child.
    pub fn is_childless(&self) -> bool
        ensures { result ≡ is_none self.now.children }
    {
        self.below.is_empty()
    }

    /// Whether it has no text.
    pub fn is_textless(&self) -> bool
        ensures { result ≡ is_nil self.now.head.text }
    {
        self.head.rest.text(self.source).is_empty()
    }

    /// The value of the attribute with this local name, where it is there. Mismatch where there are two of them.
    #[tactic(auto, unfolding(crate::specs::Tables::optional))]
    pub fn optional(&self, local: &str) -> Result<Option<&'a str>, Mismatch>
        ensures { Matches (optional local.now self.now.head) option_copied result }
    {
        match optional_among(self.source, self.head.rest.attributes(), local.as_bytes())? {
            None => Ok(None),
            Some(value) => Ok(Some(as_text(value))),
        }
    }

    /// The value of the attribute with this local name. Mismatch where it is not there, or where there are two of them.
    #[tactic(auto, unfolding(crate::specs::Tables::required))]
    pub fn required(&self, local: &str) -> Result<&'a str, Mismatch>
        ensures { Matches (required local.now self.now.head) (λ v. v.now) result }
    {
        let value = required_among(self.source, self.head.rest.attributes(), local.as_bytes())?;
        Ok(as_text(value))
    }

    /// Nothing. Mismatch where there is an attribute with none of these local names.
    #[tactic(auto, unfolding(crate::specs::Tables::only_listed))]
    pub fn only(&self, locals: &[&str]) -> Result<(), Mismatch>
        ensures { Matches (only_listed (texts locals.now) self.now.head) (λ _. tt) result }
    {
        only_among(self.source, self.head.rest.attributes(), locals)
    }

    /// Nothing. Mismatch where the attribute with this local name has another value, or where there are two of them.
    pub fn given_or_absent(&self, local: &str, text: &str) -> Result<(), Mismatch>
        ensures { Matches (given_or_absent local.now text.now self.now.head) (λ _. tt) result }
    {
        let value = self.optional(local)?;
        require(is_or_absent(value, text))
    }

    /// What a rule, which has to be callable at any text, reads of the attribute with this local name, where it is there. Mismatch where
    /// the rule reads nothing of it, or where there are two of them. In a clause the rule is any function `reading` that says what its
    /// calls return.
    pub fn optional_by<T, F>(&self, local: &str, rule: F) -> Result<Option<T>, Mismatch>
    where
        F: FnOnce(&'a str) -> Option<T> + Drop,
        requires { F.IsAlwaysCallable rule }
        ensures { (reading : List ℕ → Option T)
            → ((text : List ℕ) → (read : Option T)
            → FnOnceReturnsAt F.FnOnce rule text read → read ≡ reading text)
            → Matches (optional_by reading local.now self.now.head) (λ found. found) result }
    {
        let Some(value) = self.optional(local)? else {
            return Ok(None);
        };
        match rule(value) {
            None => Err(Mismatch),
            Some(read) => Ok(Some(read)),
        }
    }
}

// Whether a value is absent, or the given one.
fn is_or_absent(value: Option<&str>, text: &str) -> bool
    ensures { result ≡ is_or_absent (option_copied value.entry) text.now }
{
    match value {
        None => true,
        Some(value) => value == text,
    }
}
