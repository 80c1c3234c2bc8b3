//! Why octets could not be read.

ghost use Rattle.std.specs.Prelude.{◌≡◌};
ghost use Rattle.rpki_der.specs.declared.error.DecodeError.TheVariants as variant;

use rpki_common::OutOfMemory;
use std::alloc::{AllocError, AllocFailed};
use thiserror::Error;

/// Why octets could not be read.
#[derive(Clone, Copy, Debug, PartialEq, Eq, Error)]
pub enum DecodeError {
    /// What was asked for doesn't stand there.
    #[error("malformed value")]
    Malformed,
    /// Memory ran out.
    #[error("out of memory")]
    OutOfMemory,
}

impl From<OutOfMemory> for DecodeError {
    ghost from_gives = { λ _ e. e ≡ variant.OutOfMemory };

    fn from(_: OutOfMemory) -> DecodeError {
        DecodeError::OutOfMemory
    }
}

impl From<AllocError> for DecodeError {
    ghost from_gives = { λ _ e. e ≡ variant.OutOfMemory };

    fn from(_: AllocError) -> DecodeError {
        DecodeError::OutOfMemory
    }
}

impl<T: Drop> From<AllocFailed<T>> for DecodeError {
    ghost from_gives = { λ _ e. e ≡ variant.OutOfMemory };

    fn from(_: AllocFailed<T>) -> DecodeError {
        DecodeError::OutOfMemory
    }
}
