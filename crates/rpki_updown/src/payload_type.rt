//! Kinds of messages.

ghost use Rattle.std.specs.Prelude.{◌≡◌, ◌++◌, Some, IfOk, IfErr, codes};
ghost use Rattle.rpki_updown.specs.Answers.{RefusesPayloadType};
ghost use Rattle.rpki_updown.specs.PayloadType.{payload_type_text, payload_type_of_text};

use crate::error::Error;
use rpki_common::Text;
use std::alloc::Global;
use std::fmt;

/// What a message asks or answers: its attribute `type` (RFC 6492, 3.2).
#[derive(Clone, Copy, Debug, PartialEq, Eq)]
pub enum PayloadType {
    /// Asks for the resource classes (3.3.1).
    List,
    /// The resource classes (3.3.2).
    ListResponse,
    /// Asks for a certificate (3.4.1).
    Issue,
    /// The certificate (3.4.2).
    IssueResponse,
    /// Asks that the certificates of a key be revoked (3.5.1).
    Revoke,
    /// Says that the certificates of a key are revoked (3.5.2).
    RevokeResponse,
    /// What was asked is not done (3.6).
    ErrorResponse,
}

impl PayloadType {
    /// The kind that a text is. InvalidPayloadType, with the text, exactly where it is none of the seven.
    pub fn from_str(alloc: Global, text: &str) -> Result<PayloadType, Error>
        ensures value { IfOk result (λ t. payload_type_of_text text.now ≡ Some t) }
        ensures refused { IfErr result (RefusesPayloadType text.now) }
    {
        match payload_type_of(text) {
            Some(payload_type) => Ok(payload_type),
            None => Err(Error::from(PayloadTypeError(Text::from_str(alloc, text)?))),
        }
    }

    /// The text in a message.
    pub fn as_str(&self) -> &'static str
        ensures { result.now ≡ payload_type_text self.now }
    {
        match self {
            PayloadType::List => "list",
            PayloadType::ListResponse => "list_response",
            PayloadType::Issue => "issue",
            PayloadType::IssueResponse => "issue_response",
            PayloadType::Revoke => "revoke",
            PayloadType::RevokeResponse => "revoke_response",
            PayloadType::ErrorResponse => "error_response",
        }
    }
}

/// The kind that a text is, where it is one.
fn payload_type_of(text: &str) -> Option<PayloadType>
    ensures { result ≡ payload_type_of_text text.now }
{
    match text {
        "list" => Some(PayloadType::List),
        "list_response" => Some(PayloadType::ListResponse),
        "issue" => Some(PayloadType::Issue),
        "issue_response" => Some(PayloadType::IssueResponse),
        "revoke" => Some(PayloadType::Revoke),
        "revoke_response" => Some(PayloadType::RevokeResponse),
        "error_response" => Some(PayloadType::ErrorResponse),
        _ => None,
    }
}

impl fmt::Display for PayloadType {
    ghost output = { λ t. Some (payload_type_text t) };

    fn fmt<W: fmt::Write>(&self, f: &mut fmt::Formatter<W>) -> fmt::Result {
        f.write_str(self.as_str())
    }
}

/// The text is no kind of message. It holds that text.
#[derive(Debug, Drop, PartialEq, Eq)]
pub struct PayloadTypeError(pub Text);

impl fmt::Display for PayloadTypeError {
    ghost output = { λ e. Some (codes "Invalid payload type: " ++ e.0) };

    fn fmt<W: fmt::Write>(&self, f: &mut fmt::Formatter<W>) -> fmt::Result {
        f.write_str("Invalid payload type: ")?;
        f.write_str(self.0.as_str())
    }
}

impl std::error::Error for PayloadTypeError {}
