//! Why a setup message was not read, written or believed.

ghost use Rattle.std.specs.Prelude.{◌≡◌, ◌↔◌, true};
ghost use Rattle.rpki_setup.specs.Answers.{of_cause, of_der, of_reading, of_uri, of_xml};
ghost use Rattle.rpki_xml.specs.declared.error.XmlError.TheVariants as xml;
ghost use Rattle.rpki_setup.specs.declared.error.Error.{Error};
ghost use Rattle.rpki_setup.specs.declared.error.Error.TheVariants as variant;

use rpki_common::OutOfMemory;
use rpki_der::DecodeError;
use rpki_idcert::ValidationError;
use rpki_text::{ReadAllError, uri};
use rpki_xml::{Mismatch, XmlError};
use rpki_xmltext::Cause;
use std::fmt;

/// Why a setup message was not read, written or believed. `InvalidVersion`, `InvalidHandle` and `InvalidTaBase64` are never
/// answered: what is no message is `InvalidXml`.
#[derive(Clone, Copy, Debug, PartialEq, Eq)]
pub enum Error {
    /// The text is not the message that was asked for. What is inside is never `OutOfMemory`.
    InvalidXml(XmlError),
    /// Never answered.
    InvalidVersion,
    /// Never answered.
    InvalidHandle,
    /// Never answered.
    InvalidTaBase64,
    /// The octets begin with no identity certificate.
    InvalidTaCertEncoding,
    /// A check of a trust anchor fails.
    InvalidTaCert,
    /// A text is no service URI. What is inside is never `OutOfMemory`.
    InvalidUri(uri::Error),
    /// The source failed.
    Read,
    /// The sink failed.
    Write,
    /// The text has more than 2^31 octets.
    TooLong,
    /// Memory ran out.
    OutOfMemory,
}

/// `==` holds exactly between errors that are the same.
pub fn equal_errors_are_the_same()
    ensures { (a b : Error) → (⟦<Error as PartialEq>⟧.eq a b ≡ true) ↔ (a ≡ b) }
{}

impl fmt::Display for Error {
    ghost use Rattle.rpki_setup.specs.Shown.{shown_error};

    ghost output = { shown_error };

    fn fmt<W: fmt::Write>(&self, f: &mut fmt::Formatter<W>) -> fmt::Result {
        match self {
            Error::InvalidXml(XmlError::Malformed) => f.write_str("malformed XML"),
            Error::InvalidXml(XmlError::OutOfMemory) => f.write_str("out of memory"),
            Error::InvalidVersion => f.write_str("Invalid version"),
            Error::InvalidHandle => f.write_str("Invalid handle"),
            Error::InvalidTaBase64 => f.write_str("Invalid base64 of a TA cert"),
            Error::InvalidTaCertEncoding => f.write_str("Cannot decode TA cert"),
            Error::InvalidTaCert => f.write_str("Invalid TA cert"),
            Error::InvalidUri(error) => error.fmt(f),
            Error::Read => f.write_str("reading failed"),
            Error::Write => f.write_str("writing failed"),
            Error::TooLong => f.write_str("too long"),
            Error::OutOfMemory => f.write_str("out of memory"),
        }
    }
}

impl std::error::Error for Error {}

impl From<XmlError> for Error {
    ghost from_gives = { λ error e. e ≡ of_xml error };

    fn from(error: XmlError) -> Error {
        match error {
            XmlError::Malformed => Error::InvalidXml(XmlError::Malformed),
            XmlError::OutOfMemory => Error::OutOfMemory,
        }
    }
}

impl From<Mismatch> for Error {
    ghost from_gives = { λ _ e. e ≡ of_xml xml.Malformed };

    fn from(_: Mismatch) -> Error {
        Error::InvalidXml(XmlError::Malformed)
    }
}

impl From<uri::Error> for Error {
    ghost from_gives = { λ error e. e ≡ of_uri error };

    fn from(error: uri::Error) -> Error {
        match error {
            uri::Error::TooLong => Error::InvalidUri(uri::Error::TooLong),
            uri::Error::BadCharacter => Error::InvalidUri(uri::Error::BadCharacter),
            uri::Error::BadScheme => Error::InvalidUri(uri::Error::BadScheme),
            uri::Error::BadUri => Error::InvalidUri(uri::Error::BadUri),
            uri::Error::DotSegments => Error::InvalidUri(uri::Error::DotSegments),
            uri::Error::OutOfMemory => Error::OutOfMemory,
        }
    }
}

impl From<DecodeError> for Error {
    ghost from_gives = { λ error e. e ≡ of_der error };

    fn from(error: DecodeError) -> Error {
        match error {
            DecodeError::Malformed => Error::InvalidTaCertEncoding,
            DecodeError::OutOfMemory => Error::OutOfMemory,
        }
    }
}

impl From<ValidationError> for Error {
    ghost from_gives = { λ _ e. e ≡ variant.InvalidTaCert };

    fn from(_: ValidationError) -> Error {
        Error::InvalidTaCert
    }
}

impl From<ReadAllError> for Error {
    ghost from_gives = { λ error e. e ≡ of_reading error };

    fn from(error: ReadAllError) -> Error {
        match error {
            ReadAllError::Read => Error::Read,
            ReadAllError::TooLong => Error::TooLong,
            ReadAllError::OutOfMemory => Error::OutOfMemory,
        }
    }
}

impl From<Cause> for Error {
    ghost from_gives = { λ cause e. e ≡ of_cause cause };

    fn from(cause: Cause) -> Error {
        match cause {
            Cause::Malformed => Error::InvalidXml(XmlError::Malformed),
            Cause::Read => Error::Read,
            Cause::Write => Error::Write,
            Cause::TooLong => Error::TooLong,
            Cause::OutOfMemory => Error::OutOfMemory,
        }
    }
}

impl From<OutOfMemory> for Error {
    ghost from_gives = { λ _ e. e ≡ variant.OutOfMemory };

    fn from(_: OutOfMemory) -> Error {
        Error::OutOfMemory
    }
}
