//! AS numbers.

ghost use Rattle.std.specs.Prelude.{◌≡◌};
ghost use Rattle.rpki_sets.specs.AsNumbers.{without_as as without_as_of};

use crate::blocks::Blocks;
use crate::numbers::Numbers;
use crate::texts::decimal_below;
use std::fmt;

/// The numbers of autonomous systems, below 2^32: decimal digits, optionally after `AS` in any case.
#[derive(Clone, Copy, Debug, PartialEq, Eq)]
pub struct AsNumbers;

/// A set of AS numbers.
///
/// Its text has items separated by `,`, each a number or two with `-` between. It is printed as its maximal runs in
/// ascending order, as `64496-64511,65536`.
pub type AsBlocks = Blocks<AsNumbers>;

/// What stands behind `AS` in any case, or the whole text where it doesn't begin so.
fn without_as(text: &[u8]) -> &[u8]
    ensures { result.now ≡ without_as_of text.now }
{
    if text.len() >= 2 && text[..2].eq_ignore_ascii_case(b"AS") {
        &text[2..]
    } else {
        text
    }
}

impl Numbers for AsNumbers {
    ghost use Rattle.rpki_sets.specs.AsNumbers.{as_kind};

    ghost kind = { as_kind };

    fn width() -> u32 {
        32
    }

    fn has_prefixes() -> bool {
        false
    }

    fn read(text: &[u8]) -> Option<u128> {
        match decimal_below(1 << 32, without_as(text)) {
            Some(number) => Some(u128::from(number)),
            None => None,
        }
    }

    fn write<W: fmt::Write>(f: &mut fmt::Formatter<W>, number: u128) -> fmt::Result {
        write!(f, "{number}")
    }

    fn law() {}
}
