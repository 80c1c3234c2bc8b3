//! Places in the document that is lent, and the texts that stand there.

ghost use Rattle.std.specs.Prelude.{◌≡◌, ◌≤◌, ◌^◌, ◌++◌, Some, OnErr, length};
ghost use Rattle.rpki_xml.specs.Answers.{Gives};
ghost use Rattle.rpki_xml.specs.Kept.{HasBack, name_from, part_of, kept_text, attribute_of};
ghost use Rattle.rpki_xml.specs.Lexing.{front_of};
ghost use Rattle.rpki_xml.specs.Name.{is_name_octet};

use crate::error::XmlError;
use crate::lexing::split_name;
use std::alloc::Global;

/// A text of a document: the part of it between two places, or octets of its own where an entity occurs or runs are joined.
#[derive(Drop)]
pub(crate) enum Text {
    At { start: u32, end: u32 },
    Own(Box<Vec<u8>>),
}

/// An attribute of a document: where its name begins, and its value, the entities resolved.
#[derive(Drop)]
pub(crate) struct Named {
    pub(crate) name: u32,
    pub(crate) value: Text,
}

/// A number in 32 bits, if it is below 2^32. Malformed never comes.
pub(crate) fn narrow(number: usize) -> Result<u32, XmlError>
    ensures value { Gives (Some number) (λ n. n) result }
    ensures memory { OnErr result (2 ^ 32 ≤ number) }
{
    match u32::try_from(number) {
        Ok(narrow) => Ok(narrow),
        Err(_) => Err(XmlError::OutOfMemory),
    }
}

/// The name that begins at a place of a document, empty where none does.
pub(crate) fn name_from(source: &[u8], start: u32) -> &[u8]
    ensures { result.now ≡ name_from source.now start }
{
    match source.get(start as usize..) {
        None => &[],
        Some(rest) => split_name(rest).0,
    }
}

/// Where a name begins in a document that ends with the name and this rest. Only a document of 2^32 octets or
/// more has no such place. Malformed never comes.
pub(crate) fn name_place(source: &[u8], name: &[u8], rest: &[u8]) -> Result<u32, XmlError>
    requires back { HasBack source.now (name.now ++ rest.now) }
    requires whole { front_of is_name_octet (name.now ++ rest.now) ≡ name.now }
    ensures value { Gives (Some name.now) (name_from source.now) result }
    ensures memory { OnErr result (2 ^ 32 ≤ length source.now) }
{
    let end = source.len().saturating_sub(rest.len());
    narrow(end.saturating_sub(name.len()))
}

/// The octets between two places of a document, those of it that are there.
pub(crate) fn part_of(source: &[u8], start: u32, end: u32) -> &[u8]
    ensures { result.now ≡ part_of start end source.now }
{
    let front = match source.get(..end as usize) {
        None => source,
        Some(front) => front,
    };
    match front.get(start as usize..) {
        None => &[],
        Some(part) => part,
    }
}

/// A part of a document that ends with the part and this rest, as a text. Only a document of 2^32 octets or more
/// has no places for it. Malformed never comes.
pub(crate) fn placed(source: &[u8], part: &[u8], rest: &[u8]) -> Result<Text, XmlError>
    requires { HasBack source.now (part.now ++ rest.now) }
    ensures value { Gives (Some part.now) (kept_text source.now) result }
    ensures memory { OnErr result (2 ^ 32 ≤ length source.now) }
{
    let until = source.len().saturating_sub(rest.len());
    let start = narrow(until.saturating_sub(part.len()))?;
    let end = narrow(until)?;
    Ok(Text::At { start, end })
}

impl Text {
    /// The octets, lent.
    pub(crate) fn octets<'a>(&'a self, source: &'a [u8]) -> &'a [u8]
        ensures { result.now ≡ kept_text source.now self.now }
    {
        match self {
            Text::At { start, end } => part_of(source, *start, *end),
            Text::Own(octets) => octets.as_slice(),
        }
    }

    /// An equal text. Malformed never comes.
    pub(crate) fn clone_of(&self, alloc: Global, source: &[u8]) -> Result<Text, XmlError>
        ensures { Gives (Some (kept_text source.now self.now)) (kept_text source.now) result }
    {
        match self {
            Text::At { start, end } => Ok(Text::At {
                start: *start,
                end: *end,
            }),
            Text::Own(octets) => {
                let copy = Vec::from_slice(alloc, octets.as_slice())?;
                Ok(Text::Own(Box::new(alloc, copy)?))
            }
        }
    }

    /// The text with one more run. Malformed never comes.
    pub(crate) fn with(self, alloc: Global, source: &[u8], run: Text) -> Result<Text, XmlError>
        ensures { Gives (Some (kept_text source.now self ++ kept_text source.now run))
            (kept_text source.now) result }
    {
        match self {
            Text::At { start, end } => {
                let first = part_of(source, start, end);
                if first.is_empty() {
                    return Ok(run);
                }
                let mut joined = Vec::from_slice(alloc, first)?;
                joined.extend_from_slice(run.octets(source))?;
                Ok(Text::Own(Box::new(alloc, joined)?))
            }
            Text::Own(octets) => {
                let mut joined = Box::into_inner(octets);
                joined.extend_from_slice(run.octets(source))?;
                Ok(Text::Own(Box::new(alloc, joined)?))
            }
        }
    }

    /// A part of the text, which ends with the part and this rest. Malformed never comes.
    pub(crate) fn part(
        &self,
        alloc: Global,
        source: &[u8],
        part: &[u8],
        rest: &[u8],
    ) -> Result<Text, XmlError>
        requires { HasBack (kept_text source.now self.now) (part.now ++ rest.now) }
        ensures { Gives (Some part.now) (kept_text source.now) result }
    {
        match self {
            Text::At { start: _, end } => {
                let until = source.len().min(*end as usize).saturating_sub(rest.len());
                let (_, behind) = source.split_at(until);
                placed(source, part, behind)
            }
            Text::Own(_) => {
                let copy = Vec::from_slice(alloc, part)?;
                Ok(Text::Own(Box::new(alloc, copy)?))
            }
        }
    }
}
