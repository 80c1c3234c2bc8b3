//! Object identifiers.

ghost use Rattle.std.specs.Prelude.{◌≡◌, ◌<◌, IsTrue, ◌↔◌, Some};
ghost use Rattle.std.specs.Option.{option_copied};
ghost use Rattle.rpki_der.specs.Takes.{Takes};
ghost use Rattle.rpki_der.specs.Ticks.{TakesCounted};
ghost use Rattle.rpki_der.specs.Grammar.{exactly};
ghost use Rattle.rpki_der.specs.Oid.{subidentifiers, oid, oid_is};

use crate::cursor::Cursor;
use crate::error::DecodeError;
use crate::steps::Steps;
use crate::tag::Tag;
use std::marker::Brand;
use std::sync::ledger::{Blank, Ledger};

/// The octets, if they are the contents of an object identifier (X.690, 8.19): not empty, with bit 8 of the last one clear. That a
/// number inside begins with 80, which the standard forbids, isn't looked at.
pub fn lawful_oid_contents(octets: &[u8]) -> Option<&[u8]>
    ensures { option_copied result ≡ subidentifiers octets.now }
{
    match octets {
        [.., last] if *last < 0x80 => Some(octets),
        _ => None,
    }
}

/// Some where the octets are these and no others, else None.
pub(crate) fn is_exactly(octets: &[u8], wanted: &[u8]) -> Option<()>
    ensures { result ≡ exactly wanted.now octets.now }
{
    if octets == wanted { Some(()) } else { None }
}

/// The contents octets of the object identifier that stands next (X.690, 8.19); Malformed exactly where none does. It ticks once.
pub fn take_oid_counted<'a, L: Ledger>(
    cursor: &mut Cursor<'a>,
    steps: &mut Steps<L>,
) -> Result<&'a [u8], DecodeError>
    ensures { TakesCounted 1 oid (λ x. x.now) cursor.old cursor.new steps.old steps.new result }
{
    let octets = cursor.take_primitive_counted(Tag::OID, steps)?;
    match lawful_oid_contents(octets) {
        Some(octets) => Ok(octets),
        None => Err(DecodeError::Malformed),
    }
}

fn take_oid_within<'a, L: Ledger>(
    cursor: &mut Cursor<'a>,
    blank: Blank,
) -> Result<&'a [u8], DecodeError>
    requires name { blank.name ≡ L.name }
    requires parts { blank.parts ≡ L.parts }
    requires some { 0 < blank.parts }
    ensures { Takes oid (λ x. x.now) cursor.old cursor.new result }
{
    let mut steps = Steps::<L>::new(blank);
    take_oid_counted(cursor, &mut steps)
}

/// The contents octets of the object identifier that stands next (X.690, 8.19); Malformed exactly where none does.
pub fn take_oid<'a>(cursor: &mut Cursor<'a>) -> Result<&'a [u8], DecodeError>
    ensures { Takes oid (λ x. x.now) cursor.old cursor.new result }
{
    take_oid_within::<Brand>(cursor, Blank::new(1))
}

/// Passes the object identifier whose contents octets are `wanted`, if it stands next; otherwise the answer is Malformed. It
/// ticks once.
pub fn take_oid_if_counted<L: Ledger>(
    cursor: &mut Cursor<'_>,
    wanted: &[u8],
    steps: &mut Steps<L>,
) -> Result<(), DecodeError>
    ensures { TakesCounted 1 (oid_is wanted.now) (λ x. x)
        cursor.old cursor.new steps.old steps.new result }
{
    let octets = take_oid_counted(cursor, steps)?;
    match is_exactly(octets, wanted) {
        Some(()) => Ok(()),
        None => Err(DecodeError::Malformed),
    }
}
