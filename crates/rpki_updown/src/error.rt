//! Why a message was not read, written or believed, and why a limit does not hold.

ghost use Rattle.std.specs.Prelude.{◌≡◌};
ghost use Rattle.rpki_updown.specs.Answers.{of_cause, of_reading, of_xml};
ghost use Rattle.rpki_xml.specs.declared.error.XmlError.TheVariants as xml;
ghost use Rattle.rpki_updown.specs.declared.error.Error.TheVariants as variant;

use crate::payload_type::PayloadTypeError;
use crate::request_resource_limit::RequestResourceLimit;
use rpki_base::ValidationError;
use rpki_common::OutOfMemory;
use rpki_sets::ResourceSet;
use rpki_text::ReadAllError;
use rpki_xml::{Mismatch, XmlError};
use rpki_xmltext::Cause;
use std::alloc::{AllocError, AllocFailed};
use std::fmt;

/// Why a message was not read, written or believed, and why a limit does not hold. `InvalidVersion` is never answered: what is no message
/// is `XmlError`.
#[derive(Debug, Drop, PartialEq, Eq)]
pub enum Error {
    /// Never answered.
    InvalidVersion,
    /// The text is no message. What is inside is never `OutOfMemory`.
    XmlError(XmlError),
    /// The text is no kind of message.
    InvalidPayloadType(PayloadTypeError),
    /// The octets begin with no certificate request.
    InvalidCsrSyntax,
    /// The octets begin with no certificate.
    CertSyntax,
    /// The octets begin with no signed message.
    CmsDecode,
    /// A check of the signed message failed.
    Validation(ValidationError),
    /// The set does not have all that the limit states.
    Limit(ResourceSet, RequestResourceLimit),
    /// The source failed.
    Read,
    /// The sink failed.
    Write,
    /// The text has more than 2^31 octets.
    TooLong,
    /// Memory ran out.
    OutOfMemory,
}

impl fmt::Display for Error {
    ghost use Rattle.rpki_updown.specs.Shown.{shown_error};

    ghost output = { shown_error };

    fn fmt<W: fmt::Write>(&self, f: &mut fmt::Formatter<W>) -> fmt::Result {
        match self {
            Error::InvalidVersion => f.write_str("Invalid protocol version, MUST be 1"),
            Error::XmlError(XmlError::Malformed) => f.write_str("malformed XML"),
            Error::XmlError(XmlError::OutOfMemory) => f.write_str("out of memory"),
            Error::InvalidPayloadType(error) => error.fmt(f),
            Error::InvalidCsrSyntax => f.write_str("Could not decode CSR"),
            Error::CertSyntax => f.write_str("Could not decode certificate"),
            Error::CmsDecode => f.write_str("Could not decode CMS"),
            Error::Validation(error) => {
                f.write_str("CMS is not valid: ")?;
                error.fmt(f)
            }
            Error::Limit(set, limit) => {
                f.write_str("Limit '")?;
                limit.fmt(f)?;
                f.write_str("' contains resources not held in set '")?;
                write!(f, "{set}'")
            }
            Error::Read => f.write_str("reading failed"),
            Error::Write => f.write_str("writing failed"),
            Error::TooLong => f.write_str("too long"),
            Error::OutOfMemory => f.write_str("out of memory"),
        }
    }
}

impl std::error::Error for Error {}

impl From<XmlError> for Error {
    ghost from_gives = { λ error e. e ≡ of_xml error };

    fn from(error: XmlError) -> Error {
        match error {
            XmlError::Malformed => Error::XmlError(XmlError::Malformed),
            XmlError::OutOfMemory => Error::OutOfMemory,
        }
    }
}

impl From<Mismatch> for Error {
    ghost from_gives = { λ _ e. e ≡ of_xml xml.Malformed };

    fn from(_: Mismatch) -> Error {
        Error::XmlError(XmlError::Malformed)
    }
}

impl From<PayloadTypeError> for Error {
    ghost from_gives = { λ error e. e ≡ variant.InvalidPayloadType error };

    fn from(error: PayloadTypeError) -> Error {
        Error::InvalidPayloadType(error)
    }
}

impl From<ValidationError> for Error {
    ghost from_gives = { λ error e. e ≡ variant.Validation error };

    fn from(error: ValidationError) -> Error {
        Error::Validation(error)
    }
}

impl From<ReadAllError> for Error {
    ghost from_gives = { λ error e. e ≡ of_reading error };

    fn from(error: ReadAllError) -> Error {
        match error {
            ReadAllError::Read => Error::Read,
            ReadAllError::TooLong => Error::TooLong,
            ReadAllError::OutOfMemory => Error::OutOfMemory,
        }
    }
}

impl From<Cause> for Error {
    ghost from_gives = { λ cause e. e ≡ of_cause cause };

    fn from(cause: Cause) -> Error {
        match cause {
            Cause::Malformed => Error::XmlError(XmlError::Malformed),
            Cause::Read => Error::Read,
            Cause::Write => Error::Write,
            Cause::TooLong => Error::TooLong,
            Cause::OutOfMemory => Error::OutOfMemory,
        }
    }
}

impl From<OutOfMemory> for Error {
    ghost from_gives = { λ _ e. e ≡ variant.OutOfMemory };

    fn from(_: OutOfMemory) -> Error {
        Error::OutOfMemory
    }
}

impl From<AllocError> for Error {
    ghost from_gives = { λ _ e. e ≡ variant.OutOfMemory };

    fn from(_: AllocError) -> Error {
        Error::OutOfMemory
    }
}

impl<T: Drop> From<AllocFailed<T>> for Error {
    ghost from_gives = { λ _ e. e ≡ variant.OutOfMemory };

    fn from(_: AllocFailed<T>) -> Error {
        Error::OutOfMemory
    }
}
