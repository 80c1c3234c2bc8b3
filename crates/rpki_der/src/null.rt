//! NULL.

ghost use Rattle.std.specs.Prelude.{◌≡◌};
ghost use Rattle.rpki_der.specs.Grammar.{optional};
ghost use Rattle.rpki_der.specs.Tags.{null_tag};
ghost use Rattle.rpki_der.specs.Item.{TakesOptionalAs};
ghost use Rattle.rpki_der.specs.Null.{null, null_shown, present};
ghost use Rattle.rpki_der.specs.Ticks.{TakesPartCounted};

use crate::cursor::Cursor;
use crate::error::DecodeError;
use crate::item::Item;
use crate::steps::Steps;
use crate::tag::Tag;
use std::sync::ledger::Ledger;

// Whether a value with the tag of NULL is NULL.
fn is_null(item: &Item<'_>) -> bool
    ensures { present result ≡ null_shown item.now }
{
    !item.constructed && item.content.is_empty()
}

/// Whether NULL stands next (X.690, 8.8), which is then passed; false at the end of the level, and where an identifier of another
/// tag stands next, whatever follows it; else Malformed. It ticks once at least where it reads a header.
pub fn take_opt_null_counted<L: Ledger>(
    cursor: &mut Cursor<'_>,
    steps: &mut Steps<L>,
) -> Result<bool, DecodeError>
    ensures fields { TakesPartCounted 1 1 (optional null_tag null) present
        cursor.old cursor.new steps.old steps.new result }
    ensures next { TakesOptionalAs null_tag null present cursor.old cursor.new result }
{
    match cursor.take_opt_if_counted(Tag::NULL, steps)? {
        None => Ok(false),
        Some(item) => {
            if is_null(&item) {
                Ok(true)
            } else {
                Err(DecodeError::Malformed)
            }
        }
    }
}
