//! The element that a start begins.

ghost use Rattle.std.specs.Prelude.{◌≡◌, Some, [], IfOk};
ghost use Rattle.std.specs.Option.{option_copied, option_map};
ghost use Rattle.rpki_xml.specs.Content.{declares, declared, is_declaration, handed_on, namespace_of, head_of_tag as tag_head};
ghost use Rattle.rpki_xml.specs.Kept.{kept_text, attribute_of, attributes_of};
ghost use Rattle.rpki_xml.specs.Name.{prefix_of};
ghost use Rattle.rpki_xml.specs.Pieces.{tag as tag_of};
ghost use Rattle.rpki_xml.specs.Answers.{Gives};
ghost use Rattle.rpki_xml.specs.Views.{head_of};

use crate::element::{Node, rest_of};
use crate::error::XmlError;
use crate::kept::{Named, Text, name_from};
use crate::lexing::{Tag, behind};
use std::alloc::Global;

// The part before the first colon, where there is one.
fn prefix_of(name: &[u8]) -> Option<&[u8]>
    ensures { option_copied result ≡ prefix_of name.now }
{
    for (i, c) in name.iter().enumerate() {
        if *c == b':' {
            return Some(&name[..i]);
        }
    }
    None
}

// Whether an attribute's name declares the namespace of a prefix, or of names without one.
#[tactic(auto, unfolding(crate::specs::Content::declares))]
fn declares(prefix: Option<&[u8]>, declaration: &[u8]) -> bool
    ensures { result ≡ declares (option_copied prefix.entry) declaration.now }
{
    match prefix {
        None => declaration == b"xmlns".as_slice(),
        Some(prefix) => match behind(b"xmlns:", declaration) {
            None => false,
            Some(declared) => declared == prefix,
        },
    }
}

#[tactic(auto, unfolding(crate::specs::Content::is_declaration))]
fn is_declaration(source: &[u8], attribute: &Named) -> bool
    ensures { result ≡ is_declaration (attribute_of source.now attribute.now) }
{
    let name = name_from(source, attribute.name);
    name == b"xmlns".as_slice() || behind(b"xmlns:", name).is_some()
}

// The first value that declares the namespace of a name. The name is looked through once, for all attributes.
fn declared<'a>(source: &[u8], name: &[u8], attributes: &'a [Named]) -> Option<&'a Text>
    ensures { option_map (λ t. kept_text source.now t.now) result
        ≡ declared (prefix_of name.now) (attributes_of source.now attributes.now) }
{
    let prefix = prefix_of(name);
    for attribute in attributes {
        if declares(prefix, name_from(source, attribute.name)) {
            return Some(&attribute.value);
        }
    }
    None
}

#[tactic(auto, unfolding(crate::specs::Content::namespace_of))]
fn namespace_of(alloc: Global, source: &[u8], tag: &Tag) -> Result<Option<Text>, XmlError>
    ensures { Gives (Some (namespace_of (tag_of source.now tag.now)))
        (option_map (kept_text source.now)) result }
{
    let name = name_from(source, tag.name);
    match declared(source, name, tag.attributes.as_slice()) {
        None => Ok(None),
        Some(uri) => {
            if uri.octets(source).is_empty() {
                Ok(None)
            } else {
                Ok(Some(uri.clone_of(alloc, source)?))
            }
        }
    }
}

// The attributes that are no declarations, in their order.
fn handed_on(source: &[u8], attributes: Vec<Named>) -> Vec<Named>
    ensures { attributes_of source.now result.items
        ≡ handed_on (attributes_of source.now attributes.items) }
{
    let mut kept = attributes;
    kept.retain(|attribute| !is_declaration(source, attribute));
    kept.shrink_to_fit();
    kept
}

/// The element that a start begins in a document, without children and text.
pub(crate) fn node_of(alloc: Global, source: &[u8], tag: Tag) -> Result<Node, XmlError>
    ensures head { Gives (Some (tag_head (tag_of source.now tag) [])) (head_of source.now) result }
    ensures below { IfOk result (λ n. n.below ≡ 0) }
{
    let namespace = namespace_of(alloc, source, &tag)?;
    let Tag { name, attributes } = tag;
    let attributes = handed_on(source, attributes);
    Ok(Node {
        name,
        below: 0,
        rest: rest_of(alloc, Text::At { start: 0, end: 0 }, namespace, attributes)?,
    })
}
