//! Why a message was not built.

ghost use Rattle.std.specs.Prelude.{◌≡◌};
ghost use Rattle.rpki_vectors.specs.declared.error.BuildError.TheVariants as variant;

use rpki_common::OutOfMemory;
use thiserror::Error as Thiserror;

/// Why a message was not built.
#[derive(Clone, Copy, Debug, PartialEq, Eq, Thiserror)]
pub enum BuildError {
    /// The time of validity leaves the years 0 to 9999.
    #[error("moment out of range")]
    Moment,
    /// Memory ran out, or a value has 2^30 octets or more.
    #[error("out of memory")]
    OutOfMemory,
}

impl From<OutOfMemory> for BuildError {
    ghost from_gives = { λ _ e. e ≡ variant.OutOfMemory };

    fn from(_: OutOfMemory) -> BuildError {
        BuildError::OutOfMemory
    }
}
