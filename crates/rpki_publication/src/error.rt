//! Why a message was not read, written or believed.

ghost use Rattle.std.specs.Prelude.{◌≡◌, ◌↔◌, true};
ghost use Rattle.rpki_publication.specs.Answers.{of_cause, of_der, of_reading, of_xml};
ghost use Rattle.rpki_xml.specs.declared.error.XmlError.TheVariants as xml;
ghost use Rattle.rpki_publication.specs.declared.error.Error.{Error};
ghost use Rattle.rpki_publication.specs.declared.error.Error.TheVariants as variant;

use rpki_common::{OutOfMemory, Text};
use rpki_der::DecodeError;
use rpki_idcert::ValidationError;
use rpki_text::ReadAllError;
use rpki_xml::{Mismatch, XmlError};
use rpki_xmltext::Cause;
use std::alloc::{AllocError, AllocFailed};
use std::fmt;

/// Why a message was not read, written or believed. `InvalidVersion` is never answered: what is no message is `XmlError`.
#[derive(Debug, Drop, PartialEq, Eq)]
pub enum Error {
    /// Never answered.
    InvalidVersion,
    /// The text is no message. What is inside is never `OutOfMemory`.
    XmlError(XmlError),
    /// The text is no code of an error.
    InvalidErrorCode(Text),
    /// The octets begin with no signed message.
    CmsDecode,
    /// A check of the signed message failed.
    Validation(ValidationError),
    /// The message is a reply.
    NotQuery,
    /// The message is a query.
    NotReply,
    /// The source failed.
    Read,
    /// The sink failed.
    Write,
    /// The text has more than 2^31 octets.
    TooLong,
    /// Memory ran out.
    OutOfMemory,
}

/// `==` holds exactly between errors that are the same.
pub fn equal_errors_are_the_same()
    ensures { (a b : Error) → (⟦<Error as PartialEq>⟧.eq a b ≡ true) ↔ (a ≡ b) }
{}

impl fmt::Display for Error {
    ghost use Rattle.rpki_publication.specs.Shown.{shown_error};

    ghost output = { shown_error };

    fn fmt<W: fmt::Write>(&self, f: &mut fmt::Formatter<W>) -> fmt::Result {
        match self {
            Error::InvalidVersion => f.write_str("Invalid version"),
            Error::XmlError(XmlError::Malformed) => f.write_str("malformed XML"),
            Error::XmlError(XmlError::OutOfMemory) => f.write_str("out of memory"),
            Error::InvalidErrorCode(text) => {
                f.write_str("Invalid error code: ")?;
                f.write_str(text.as_str())
            }
            Error::CmsDecode => f.write_str("Could not decode CMS"),
            Error::Validation(error) => {
                f.write_str("CMS is not valid: ")?;
                error.fmt(f)
            }
            Error::NotQuery => f.write_str("was not a query message"),
            Error::NotReply => f.write_str("was not a reply message"),
            Error::Read => f.write_str("reading failed"),
            Error::Write => f.write_str("writing failed"),
            Error::TooLong => f.write_str("too long"),
            Error::OutOfMemory => f.write_str("out of memory"),
        }
    }
}

impl std::error::Error for Error {}

impl From<XmlError> for Error {
    ghost from_gives = { λ error e. e ≡ of_xml error };

    fn from(error: XmlError) -> Error {
        match error {
            XmlError::Malformed => Error::XmlError(XmlError::Malformed),
            XmlError::OutOfMemory => Error::OutOfMemory,
        }
    }
}

impl From<Mismatch> for Error {
    ghost from_gives = { λ _ e. e ≡ of_xml xml.Malformed };

    fn from(_: Mismatch) -> Error {
        Error::XmlError(XmlError::Malformed)
    }
}

impl From<DecodeError> for Error {
    ghost from_gives = { λ error e. e ≡ of_der error };

    fn from(error: DecodeError) -> Error {
        match error {
            DecodeError::Malformed => Error::CmsDecode,
            DecodeError::OutOfMemory => Error::OutOfMemory,
        }
    }
}

impl From<ValidationError> for Error {
    ghost from_gives = { λ error e. e ≡ variant.Validation error };

    fn from(error: ValidationError) -> Error {
        Error::Validation(error)
    }
}

impl From<ReadAllError> for Error {
    ghost from_gives = { λ error e. e ≡ of_reading error };

    fn from(error: ReadAllError) -> Error {
        match error {
            ReadAllError::Read => Error::Read,
            ReadAllError::TooLong => Error::TooLong,
            ReadAllError::OutOfMemory => Error::OutOfMemory,
        }
    }
}

impl From<Cause> for Error {
    ghost from_gives = { λ cause e. e ≡ of_cause cause };

    fn from(cause: Cause) -> Error {
        match cause {
            Cause::Malformed => Error::XmlError(XmlError::Malformed),
            Cause::Read => Error::Read,
            Cause::Write => Error::Write,
            Cause::TooLong => Error::TooLong,
            Cause::OutOfMemory => Error::OutOfMemory,
        }
    }
}

impl From<OutOfMemory> for Error {
    ghost from_gives = { λ _ e. e ≡ variant.OutOfMemory };

    fn from(_: OutOfMemory) -> Error {
        Error::OutOfMemory
    }
}

impl From<AllocError> for Error {
    ghost from_gives = { λ _ e. e ≡ variant.OutOfMemory };

    fn from(_: AllocError) -> Error {
        Error::OutOfMemory
    }
}

impl<T: Drop> From<AllocFailed<T>> for Error {
    ghost from_gives = { λ _ e. e ≡ variant.OutOfMemory };

    fn from(_: AllocFailed<T>) -> Error {
        Error::OutOfMemory
    }
}
