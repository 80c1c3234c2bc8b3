//! What the tables of messages ask of names and attributes.

ghost use Rattle.std.specs.Prelude.{◌≡◌, filter};
ghost use Rattle.std.specs.Option.{option_copied};
ghost use Rattle.rpki_common.specs.Items as items;
ghost use Rattle.rpki_xml.specs.Tables.{is_called, is_listed, value_of, require};
ghost use Rattle.rpki_xml.specs.Name.{local_name};
ghost use Rattle.rpki_xml.specs.Answers.{Matches};
ghost use Rattle.rpki_xml.specs.Kept.{attribute_of, attributes_of};
ghost use Rattle.rpki_xml.specs.Texts.{texts};

use crate::error::Mismatch;
use crate::kept::{Named, name_from};

/// The part of a name behind its colon, or the whole.
pub(crate) fn local_of(name: &[u8]) -> &[u8]
    ensures { result.now ≡ local_name name.now }
{
    for (i, c) in name.iter().enumerate() {
        if *c == b':' {
            return &name[i + 1..];
        }
    }
    name
}

fn is_called(source: &[u8], attribute: &Named, local: &[u8]) -> bool
    ensures { result ≡ is_called local.now (attribute_of source.now attribute.now) }
{
    local_of(name_from(source, attribute.name)) == local
}

fn is_listed(source: &[u8], attribute: &Named, locals: &[&str]) -> bool
    ensures { result ≡ is_listed (texts locals.now) (attribute_of source.now attribute.now) }
{
    let name = local_of(name_from(source, attribute.name));
    for local in locals {
        if name == local.as_bytes() {
            return true;
        }
    }
    false
}

/// The value of the attribute with this local name, where it is there.
pub(crate) fn optional_among<'a>(
    source: &'a [u8],
    attributes: &'a [Named],
    local: &[u8],
) -> Result<Option<&'a [u8]>, Mismatch>
    ensures { let called = filter (is_called local.now) (attributes_of source.now attributes.now) in
        Matches (items.at_most_one value_of called) option_copied result }
{
    let mut found: Option<&[u8]> = None;
    for attribute in attributes {
        if is_called(source, attribute, local) {
            if found.is_some() {
                return Err(Mismatch);
            }
            found = Some(attribute.value.octets(source));
        }
    }
    Ok(found)
}

/// The value of the attribute with this local name.
pub(crate) fn required_among<'a>(
    source: &'a [u8],
    attributes: &'a [Named],
    local: &[u8],
) -> Result<&'a [u8], Mismatch>
    ensures { let called = filter (is_called local.now) (attributes_of source.now attributes.now) in
        Matches (items.the_one value_of called) (λ v. v.now) result }
{
    match optional_among(source, attributes, local)? {
        None => Err(Mismatch),
        Some(value) => Ok(value),
    }
}

/// No attributes but those with these local names.
pub(crate) fn only_among(
    source: &[u8],
    attributes: &[Named],
    locals: &[&str],
) -> Result<(), Mismatch>
    ensures { Matches
        (items.only (is_listed (texts locals.now)) (attributes_of source.now attributes.now))
        (λ _. tt) result }
{
    for attribute in attributes {
        if !is_listed(source, attribute, locals) {
            return Err(Mismatch);
        }
    }
    Ok(())
}

/// A test that must pass: Mismatch where it fails.
pub fn require(test: bool) -> Result<(), Mismatch>
    ensures { Matches (require test) (λ _. tt) result }
{
    if test { Ok(()) } else { Err(Mismatch) }
}
