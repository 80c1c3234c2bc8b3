//! Algorithm identifiers, read without memory.

ghost use Rattle.std.specs.Prelude.{◌≡◌};
ghost use Rattle.std.specs.Option.{option_copied, option_map};
ghost use Rattle.rpki_der.specs.Whole.{whole_of};
ghost use Rattle.rpki_base.specs.AlgorithmIdentifier.{algorithm_identifier};
ghost use Rattle.rpki_base.specs.Leaves.{oid_contents, oid_leaf, null_without_octets, null_contents, null_leaf};

use rpki_der::{Leaf, Mode, Tag, lawful_oid_contents, take_whole_pair};

// The contents of the value, if it is an object identifier.
fn oid_contents(tag: Tag, content: &[u8]) -> Option<&[u8]>
    ensures { option_copied result ≡ oid_contents tag content.now }
{
    if tag.as_slice() == Tag::OID.as_slice() {
        lawful_oid_contents(content)
    } else {
        None
    }
}

// The contents of the leaf, if it is an object identifier.
fn oid_leaf<'a>(leaf: Leaf<'a>) -> Option<&'a [u8]>
    ensures { option_copied result ≡ oid_leaf leaf.entry }
{
    oid_contents(leaf.tag, leaf.content)
}

// That NULL is there, if it may have these contents.
fn null_without_octets(octets: &[u8]) -> Option<bool>
    ensures { result ≡ null_without_octets octets.now }
{
    if octets.is_empty() { Some(true) } else { None }
}

// That NULL is there, if the value is NULL.
fn null_contents(tag: Tag, content: &[u8]) -> Option<bool>
    ensures { result ≡ null_contents tag content.now }
{
    if tag.as_slice() == Tag::NULL.as_slice() {
        null_without_octets(content)
    } else {
        None
    }
}

// Whether NULL is there; None where something else is.
fn null_leaf(leaf: Option<Leaf<'_>>) -> Option<bool>
    ensures { result ≡ null_leaf leaf.entry }
{
    match leaf {
        None => Some(false),
        Some(leaf) => null_contents(leaf.tag, leaf.content),
    }
}

/// The contents of the object identifier, and whether NULL is there, of the algorithm identifier that the octets are, with
/// nothing behind it; None where they are none with NULL or without parameters. It takes no memory.
pub(crate) fn take_identifier(mode: Mode, octets: &[u8]) -> Option<(&[u8], bool)>
    ensures { option_map (λ r. (r.0.now, r.1)) result
        ≡ whole_of algorithm_identifier mode octets.now }
{
    let (name, parameter) = take_whole_pair(mode, octets)?;
    let name = oid_leaf(name)?;
    let null = null_leaf(parameter)?;
    Some((name, null))
}
