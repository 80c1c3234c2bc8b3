//! Why a document, or a part of one, was not read.

ghost use Rattle.std.specs.Prelude.{◌≡◌, Some, codes};
ghost use Rattle.rpki_xml.specs.Errors.{error_text};
ghost use Rattle.rpki_xml.specs.declared.error.XmlError.TheVariants as variant;

use rpki_common::OutOfMemory;
use std::alloc::{AllocError, AllocFailed};
use std::error::Error;
use std::fmt;

/// An element is not what a table asks for: what a call answers that takes no memory.
#[derive(Clone, Copy, Debug, PartialEq, Eq)]
pub struct Mismatch;

/// Why a document, or a part of one, was not read.
#[derive(Clone, Copy, Debug, PartialEq, Eq)]
pub enum XmlError {
    /// What was read is not what was asked for.
    Malformed,
    /// Memory ran out.
    OutOfMemory,
}

impl fmt::Display for Mismatch {
    ghost output = { λ _. Some (codes "malformed XML") };

    fn fmt<W: fmt::Write>(&self, f: &mut fmt::Formatter<W>) -> fmt::Result {
        f.write_str("malformed XML")
    }
}

impl Error for Mismatch {}

impl fmt::Display for XmlError {
    ghost output = { error_text };

    fn fmt<W: fmt::Write>(&self, f: &mut fmt::Formatter<W>) -> fmt::Result {
        match self {
            XmlError::Malformed => f.write_str("malformed XML"),
            XmlError::OutOfMemory => f.write_str("out of memory"),
        }
    }
}

impl Error for XmlError {}

impl From<Mismatch> for XmlError {
    ghost from_gives = { λ _ e. e ≡ variant.Malformed };

    fn from(_: Mismatch) -> XmlError {
        XmlError::Malformed
    }
}

impl From<OutOfMemory> for XmlError {
    ghost from_gives = { λ _ e. e ≡ variant.OutOfMemory };

    fn from(_: OutOfMemory) -> XmlError {
        XmlError::OutOfMemory
    }
}

impl From<AllocError> for XmlError {
    ghost from_gives = { λ _ e. e ≡ variant.OutOfMemory };

    fn from(_: AllocError) -> XmlError {
        XmlError::OutOfMemory
    }
}

impl<T: Drop> From<AllocFailed<T>> for XmlError {
    ghost from_gives = { λ _ e. e ≡ variant.OutOfMemory };

    fn from(_: AllocFailed<T>) -> XmlError {
        XmlError::OutOfMemory
    }
}
