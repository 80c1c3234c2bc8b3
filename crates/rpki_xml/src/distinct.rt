//! Whether no two attributes have one whole name.

ghost use Rattle.std.specs.Prelude.{◌≡◌, not};
ghost use Rattle.std.specs.List.{list_all};
ghost use Rattle.std.specs.Str.{bytes_eq};
ghost use Rattle.rpki_xml.specs.Content.{is_distinct};
ghost use Rattle.rpki_xml.specs.Answers.{Gives};
ghost use Rattle.rpki_xml.specs.Kept.{attributes_of};

use crate::error::XmlError;
use crate::kept::{Named, name_from};
use std::alloc::Global;
use std::collections::BTreeSet;

/// Up to so many attributes are compared in pairs, which takes no memory.
const FEW: usize = 8;

/// Whether no two attributes have one whole name. Malformed never comes.
pub(crate) fn is_distinct(
    alloc: Global,
    source: &[u8],
    attributes: &[Named],
) -> Result<bool, XmlError>
    ensures { Gives (Some (is_distinct (attributes_of source.now attributes.now))) (λ b. b) result }
{
    if attributes.len() <= FEW {
        return Ok(is_distinct_in_pairs(source, attributes));
    }
    is_distinct_by_set(alloc, source, attributes)
}

fn differs_from_all(source: &[u8], name: &[u8], attributes: &[Named]) -> bool
    ensures { result ≡ list_all (λ b. not (bytes_eq name.now b.name))
        (attributes_of source.now attributes.now) }
{
    for other in attributes {
        if name == name_from(source, other.name) {
            return false;
        }
    }
    true
}

fn is_distinct_in_pairs(source: &[u8], attributes: &[Named]) -> bool
    ensures { result ≡ is_distinct (attributes_of source.now attributes.now) }
{
    let mut rest = attributes;
    while let [first, more @ ..] = rest {
        if !differs_from_all(source, name_from(source, first.name), more) {
            return false;
        }
        rest = more;
    }
    true
}

// From the last one on, so that the set has the names of the attributes that follow.
fn is_distinct_by_set(alloc: Global, source: &[u8], attributes: &[Named]) -> Result<bool, XmlError>
    ensures { Gives (Some (is_distinct (attributes_of source.now attributes.now))) (λ b. b) result }
{
    let mut names: BTreeSet<&[u8]> = BTreeSet::new(alloc);
    let mut left = attributes;
    while let Some((last, more)) = left.split_last() {
        if !names.insert(name_from(source, last.name))? {
            return Ok(false);
        }
        left = more;
    }
    Ok(true)
}
