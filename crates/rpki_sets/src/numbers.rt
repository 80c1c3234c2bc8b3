//! What the kinds of numbers differ in.

ghost use Rattle.std.specs.Prelude.{◌≡◌, ◌<◌, ◌^◌, Some};
ghost use Rattle.std.specs.Fmt.{DisplaysOnOk};
ghost use Rattle.rpki_sets.specs.Kinds.{Kind, IsLawfulKind};

use std::fmt;

/// A kind of numbers: how many bits they have, and how one is read and written. In a clause `kind` says this.
pub trait Numbers {
    ghost kind: { Kind };

    /// How many bits a number has.
    fn width() -> u32
        ensures { result ≡ kind.width };

    /// Whether an item may be a prefix.
    fn has_prefixes() -> bool
        ensures { result ≡ kind.has_prefixes };

    /// The number that a text writes. None where it writes none.
    fn read(text: &[u8]) -> Option<u128>
        ensures { result ≡ kind.number text.now };

    /// Writes the text of a number, which has to have no more bits than the kind.
    fn write<W: fmt::Write>(f: &mut fmt::Formatter<W>, number: u128) -> fmt::Result
        requires { number < 2 ^ kind.width }
        ensures { DisplaysOnOk W.Write.write_str_gives f.old result (Some (kind.number_text number))
            f.new };

    /// What holds of every kind: numbers that are read have no more bits than the kind, and what is written is read as
    /// the same number.
    fn law()
        ensures { IsLawfulKind kind };
}
