//! Codes of errors.

ghost use Rattle.std.specs.Prelude.{◌≡◌, Some, None, IfOk, IfErr, codes};
ghost use Rattle.rpki_publication.specs.Answers.{RefusesCode};
ghost use Rattle.rpki_publication.specs.ReportErrorCode.{code_text, code_of_text, default_text};

use crate::error::Error;
use rpki_common::Text;
use std::alloc::Global;
use std::fmt;

/// What kind of error a server reports (RFC 8181, 2.5).
#[derive(Clone, Copy, Debug, PartialEq, Eq)]
pub enum ReportErrorCode {
    /// The message is malformed.
    XmlError,
    /// The client may not change this URI.
    PermissionFailure,
    /// A signature or a check of the signed message fails.
    BadCmsSignature,
    /// An object is published where there is one.
    ObjectAlreadyPresent,
    /// An object is replaced or withdrawn where there is none.
    NoObjectPresent,
    /// The digest is another object's.
    NoObjectMatchingHash,
    /// The objects wouldn't fit together.
    ConsistencyProblem,
    /// Anything else.
    OtherError,
}

impl ReportErrorCode {
    /// The code that a text is. InvalidErrorCode, with the text, exactly where it is none of the eight.
    pub fn from_str(alloc: Global, text: &str) -> Result<ReportErrorCode, Error>
        ensures value { IfOk result (λ c. code_of_text text.now ≡ Some c) }
        ensures refused { IfErr result (RefusesCode text.now) }
    {
        match code_of(text) {
            Some(code) => Ok(code),
            None => Err(Error::InvalidErrorCode(Text::from_str(alloc, text)?)),
        }
    }

    /// The code's text in a message.
    pub(crate) fn as_str(&self) -> &'static str
        ensures { result.now ≡ code_text self.now }
    {
        match self {
            ReportErrorCode::XmlError => "xml_error",
            ReportErrorCode::PermissionFailure => "permission_failure",
            ReportErrorCode::BadCmsSignature => "bad_cms_signature",
            ReportErrorCode::ObjectAlreadyPresent => "object_already_present",
            ReportErrorCode::NoObjectPresent => "no_object_present",
            ReportErrorCode::NoObjectMatchingHash => "no_object_matching_hash",
            ReportErrorCode::ConsistencyProblem => "consistency_problem",
            ReportErrorCode::OtherError => "other_error",
        }
    }

    /// What it means, in words: the text of an error that has none of its own.
    pub fn to_text(&self) -> &'static str
        ensures { result.now ≡ default_text self.now }
    {
        match self {
            Self::XmlError => "Encountered an XML problem.",
            Self::PermissionFailure => { "Client does not have permission to update this URI." }
            Self::BadCmsSignature => "Encountered bad CMS signature.",
            Self::ObjectAlreadyPresent => {
                "An object is already present at this URI, yet a \"hash\" attribute was not specified."
            }
            Self::NoObjectPresent => {
                "There is no object present at this URI, yet a \"hash\" attribute was specified."
            }
            Self::NoObjectMatchingHash => {
                "The \"hash\" attribute supplied does not match the \"hash\" attribute of the object at this URI."
            }
            Self::ConsistencyProblem => {
                "Server detected an update that looks like it will cause a consistency problem \
                 (e.g., an object was deleted, but the manifest was not updated)."
            }
            Self::OtherError => "Found some other issue.",
        }
    }
}

/// The code that a text is, where it is one.
pub(crate) fn code_of(text: &str) -> Option<ReportErrorCode>
    ensures { result ≡ code_of_text text.now }
{
    match text {
        "xml_error" => Some(ReportErrorCode::XmlError),
        "permission_failure" => Some(ReportErrorCode::PermissionFailure),
        "bad_cms_signature" => Some(ReportErrorCode::BadCmsSignature),
        "object_already_present" => Some(ReportErrorCode::ObjectAlreadyPresent),
        "no_object_present" => Some(ReportErrorCode::NoObjectPresent),
        "no_object_matching_hash" => Some(ReportErrorCode::NoObjectMatchingHash),
        "consistency_problem" => Some(ReportErrorCode::ConsistencyProblem),
        "other_error" => Some(ReportErrorCode::OtherError),
        _ => None,
    }
}

impl fmt::Display for ReportErrorCode {
    ghost output = { λ c. Some (code_text c) };

    fn fmt<W: fmt::Write>(&self, f: &mut fmt::Formatter<W>) -> fmt::Result {
        f.write_str(self.as_str())
    }
}
