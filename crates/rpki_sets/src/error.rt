//! Why a text stands for no set.

ghost use Rattle.std.specs.Prelude.{◌≡◌, ◌↔◌, true};
ghost use Rattle.rpki_sets.specs.declared.error.BlocksError.{BlocksError};
ghost use Rattle.rpki_sets.specs.declared.error.BlocksError.TheVariants as variant;

use rpki_common::OutOfMemory;
use std::alloc::AllocFailed;
use std::fmt;

/// Why a text could not be read as a set of numbers.
#[derive(Clone, Copy, Debug, PartialEq, Eq)]
pub enum BlocksError {
    /// The text isn't by the rule for its kind of numbers.
    Malformed,
    /// Memory ran out.
    OutOfMemory,
}

/// `==` holds exactly between errors that are the same.
pub fn equal_errors_are_the_same()
    ensures { (a b : BlocksError) → (⟦<BlocksError as PartialEq>⟧.eq a b ≡ true) ↔ (a ≡ b) }
{}

impl fmt::Display for BlocksError {
    ghost use Rattle.std.specs.Prelude.{Some};
    ghost use Rattle.rpki_sets.specs.Shown.{shown_error};

    ghost output = { λ error. Some (shown_error error) };

    fn fmt<W: fmt::Write>(&self, f: &mut fmt::Formatter<W>) -> fmt::Result {
        match self {
            BlocksError::Malformed => f.write_str("malformed blocks"),
            BlocksError::OutOfMemory => f.write_str("out of memory"),
        }
    }
}

impl std::error::Error for BlocksError {}

impl From<OutOfMemory> for BlocksError {
    ghost from_gives = { λ _ e. e ≡ variant.OutOfMemory };

    fn from(_: OutOfMemory) -> BlocksError {
        BlocksError::OutOfMemory
    }
}

impl<T: Drop> From<AllocFailed<T>> for BlocksError {
    ghost from_gives = { λ _ e. e ≡ variant.OutOfMemory };

    fn from(_: AllocFailed<T>) -> BlocksError {
        BlocksError::OutOfMemory
    }
}
