//! Reading small values without memory.

ghost use Rattle.std.specs.Prelude.{◌≡◌, IfSome, IfNone};
ghost use Rattle.std.specs.Option.{option_copied};
ghost use Rattle.rpki_der.specs.declared.error.DecodeError.TheVariants.{Malformed};
ghost use Rattle.rpki_der.specs.Flat.{before, in_level};
ghost use Rattle.rpki_der.specs.Grammar.{primitive};
ghost use Rattle.rpki_der.specs.Leaf.{leaf, further, one_or_two};
ghost use Rattle.rpki_der.specs.Level.{Level};
ghost use Rattle.rpki_der.specs.Part.{level_of};
ghost use Rattle.rpki_der.specs.Tags.{sequence};
ghost use Rattle.rpki_der.specs.Takes.{TakesOne, NoneStands, Goes, NoneOpens, TakesFields, RefusesFields};
ghost use Rattle.rpki_der.specs.Whole.{whole_of};

use crate::mode::Mode;
use crate::part::{Open, Part, take_part};
use crate::tag::{Tag, tag_is};
use crate::walk::level_end;
use std::marker::Model;

/// A primitive value.
///
/// In a clause it is the record of these two, with the octets as lists.
#[derive(Drop)]
pub struct Leaf<'a> {
    /// What kind of value it is.
    pub tag: Tag,
    /// Its contents octets.
    pub content: &'a [u8],
}

impl<'a> Model for Leaf<'a> {
    ghost use Rattle.rpki_der.specs.Leaf.{LeafFields};

    ghost Value = { LeafFields };

    ghost view = { λ l. record { tag = l.tag; content = l.content.now } };
}

// The contents of the primitive value with this tag that stands here, and what stands behind it.
#[tactic(auto, using(crate::proofs::Cursors::takes_primitive, crate::proofs::Cursors::none_primitive, crate::proofs::Cursors::none_primitive_other, crate::proofs::Cursors::none_primitive_opens))]
fn take_tagged(mode: Mode, here: &[u8], tag: Tag) -> Option<(&[u8], &[u8])>
    ensures found { IfSome result (λ r. TakesOne (primitive tag) (before mode here.now)
        (before mode r.1.now) r.0.now) }
    ensures none { IfNone result (NoneStands (primitive tag) (before mode here.now)) }
{
    match take_part(mode, here) {
        Some(
            Part::Primitive {
                identifier,
                content,
                rest,
            },
        ) if tag_is(identifier, tag) => Some((content, rest)),
        _ => None,
    }
}

/// The contents octets of the one primitive value with this tag that the octets are; None where they are none, or where
/// something stands behind it. It takes no memory.
pub fn take_whole_primitive(mode: Mode, octets: &[u8], tag: Tag) -> Option<&[u8]>
    ensures { option_copied result ≡ whole_of (primitive tag) mode octets.now }
{
    let (content, rest) = take_tagged(mode, octets, tag)?;
    if rest.is_empty() { Some(content) } else { None }
}

// Into the SEQUENCE that begins the octets.
fn enter_sequence(mode: Mode, octets: &[u8]) -> Option<(Open<'_>, &[u8])>
    ensures found { IfSome result (λ r. Goes sequence (before mode octets.now)
        (in_level mode (level_of r.0) r.1.now)) }
    ensures none { IfNone result (NoneOpens sequence (before mode octets.now)) }
{
    match take_part(mode, octets) {
        Some(
            Part::Constructed {
                identifier,
                open,
                inner,
            },
        ) if tag_is(identifier, Tag::SEQUENCE) => Some((open, inner)),
        _ => None,
    }
}

// The primitive value that stands here, and what stands behind it.
fn take_leaf(mode: Mode, here: &[u8]) -> Option<(Leaf<'_>, &[u8])>
    ensures found { IfSome result (λ r. (level : Level)
        → TakesOne leaf (in_level mode level here.now) (in_level mode level r.1.now) r.0) }
    ensures none { IfNone result ((level : Level)
        → NoneStands leaf (in_level mode level here.now)) }
{
    match take_part(mode, here) {
        Some(
            Part::Primitive {
                identifier,
                content,
                rest,
            },
        ) => Some((
            Leaf {
                tag: Tag::of(identifier),
                content,
            },
            rest,
        )),
        _ => None,
    }
}

// The primitive value that stands here, if the level doesn't end, and what stands behind it.
fn take_further<'a>(
    mode: Mode,
    level: Open<'a>,
    here: &'a [u8],
) -> Option<(Option<Leaf<'a>>, &'a [u8])>
    ensures found { IfSome result (λ r. TakesFields (further leaf)
        (in_level mode (level_of level.entry) here.now)
        (in_level mode (level_of level.entry) r.1.now) r.0) }
    ensures none { IfNone result (RefusesFields (further leaf)
        (in_level mode (level_of level.entry) here.now) Malformed) }
{
    match level_end(level, here) {
        Some(_) => Some((None, here)),
        None => {
            let (leaf, rest) = take_leaf(mode, here)?;
            Some((Some(leaf), rest))
        }
    }
}

/// The one or two primitive values in the SEQUENCE that the octets are; None where they are none, or where something
/// stands behind it. It takes no memory.
pub fn take_whole_pair(mode: Mode, octets: &[u8]) -> Option<(Leaf<'_>, Option<Leaf<'_>>)>
    ensures { result ≡ whole_of one_or_two mode octets.now }
{
    let (level, inner) = enter_sequence(mode, octets)?;
    let (first, rest) = take_leaf(mode, inner)?;
    let (second, rest) = take_further(mode, level, rest)?;
    let behind = level_end(level, rest)?;
    if behind.is_empty() {
        Some((first, second))
    } else {
        None
    }
}
