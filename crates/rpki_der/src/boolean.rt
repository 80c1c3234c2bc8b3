//! BOOLEAN.

ghost use Rattle.std.specs.Prelude.{◌≡◌};
ghost use Rattle.rpki_der.specs.Ticks.{TakesCounted, TakesPartCounted};
ghost use Rattle.rpki_der.specs.Grammar.{optional};
ghost use Rattle.rpki_der.specs.Tags.{boolean_tag};
ghost use Rattle.rpki_der.specs.Item.{TakesOptionalAs};
ghost use Rattle.rpki_der.specs.OptionalBoolean.{boolean_shown};
ghost use Rattle.rpki_der.specs.Boolean as spec;

use crate::cursor::Cursor;
use crate::error::DecodeError;
use crate::item::Item;
use crate::mode::Mode;
use crate::steps::Steps;
use crate::tag::Tag;
use std::sync::ledger::Ledger;

// What the contents of a BOOLEAN say.
fn truth(mode: Mode, octets: &[u8]) -> Option<bool>
    ensures { result ≡ spec.truth mode octets.now }
{
    match (mode, octets) {
        (_, [0]) => Some(false),
        (Mode::Ber, [_]) | (Mode::Der, [0xFF]) => Some(true),
        _ => None,
    }
}

/// The BOOLEAN that stands next (X.690, 8.2 and 11.1): 00 is false; FF is true, and in BER each other octet too. Malformed exactly where
/// none stands next. It ticks once.
pub fn take_boolean_counted<L: Ledger>(
    cursor: &mut Cursor<'_>,
    steps: &mut Steps<L>,
) -> Result<bool, DecodeError>
    ensures { TakesCounted 1 (spec.boolean cursor.old.mode) (λ x. x)
        cursor.old cursor.new steps.old steps.new result }
{
    let mode = cursor.mode();
    let octets = cursor.take_primitive_counted(Tag::BOOLEAN, steps)?;
    match truth(mode, octets) {
        Some(value) => Ok(value),
        None => Err(DecodeError::Malformed),
    }
}

// What a value with the tag of BOOLEAN says, if it is one.
fn shown(mode: Mode, item: &Item<'_>) -> Option<bool>
    ensures { result ≡ boolean_shown mode item.now }
{
    if item.constructed {
        None
    } else {
        truth(mode, item.content)
    }
}

/// The BOOLEAN that stands next (X.690, 8.2), which is then passed; None at the end of the level, and where an identifier of
/// another tag stands next, whatever follows it; else Malformed. It ticks once at least where it reads a header.
pub fn take_opt_boolean_counted<L: Ledger>(
    cursor: &mut Cursor<'_>,
    steps: &mut Steps<L>,
) -> Result<Option<bool>, DecodeError>
    ensures fields { TakesPartCounted 1 1 (optional boolean_tag (spec.boolean cursor.old.mode))
        (λ x. x) cursor.old cursor.new steps.old steps.new result }
    ensures next { TakesOptionalAs boolean_tag (spec.boolean cursor.old.mode) (λ x. x)
        cursor.old cursor.new result }
{
    let mode = cursor.mode();
    match cursor.take_opt_if_counted(Tag::BOOLEAN, steps)? {
        None => Ok(None),
        Some(item) => match shown(mode, &item) {
            Some(value) => Ok(Some(value)),
            None => Err(DecodeError::Malformed),
        },
    }
}
