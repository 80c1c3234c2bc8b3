//! Answers that a request was not performed.

ghost use Rattle.std.specs.Prelude.{◌≡◌, Some, IfOk};
ghost use Rattle.std.specs.Option.{option_map};
ghost use Rattle.std.specs.Rc.{rc_str_bytes};
ghost use Rattle.rpki_updown.specs.NotPerformedResponse.{reason, not_performed_text};

use rpki_common::{OutOfMemory, Text};
use rpki_xmltext::{cloned, shared, taken_in};
use std::alloc::Global;
use std::fmt;
use std::marker::Model;
use std::rc::RcStr;

/// A request was not performed (RFC 6492, 3.6): a status, and words that say why where there are any. In a clause it is the record of both.
#[derive(Debug, PartialEq, Eq)]
pub struct NotPerformedResponse {
    status: u64,
    description: Option<Text>,
}

impl Drop for NotPerformedResponse {
    fn drop(self) {
        let NotPerformedResponse {
            status,
            description,
        } = self;
    }
}

impl Model for NotPerformedResponse {
    ghost use Rattle.rpki_updown.specs.NotPerformedResponse.{NotPerformedFields};

    ghost Value = { NotPerformedFields };

    ghost view = { λ r. record { status = r.status; description = r.description } };

    ghost inverse = { λ r. record { status = r.status; description = r.description } };
}

impl NotPerformedResponse {
    /// A response with this status and this description.
    pub fn new(status: u64, description: Option<RcStr>) -> NotPerformedResponse
        ensures { result
            ≡ record { status = status; description = option_map rc_str_bytes description } }
    {
        let description = taken_in(description);
        NotPerformedResponse {
            status,
            description,
        }
    }

    /// The status.
    pub fn status(&self) -> u64
        ensures { result ≡ self.now.status }
    {
        self.status
    }

    /// The description, where there is one.
    pub fn description(&self) -> Option<&RcStr>
        ensures { option_map (λ t. rc_str_bytes t.now) result ≡ self.now.description }
    {
        shared(&self.description)
    }

    /// An equal response, whose text is shared with this one.
    pub fn clone(&self, alloc: Global) -> Result<NotPerformedResponse, OutOfMemory>
        ensures { IfOk result (λ r. r ≡ self.now) }
    {
        let description = cloned(alloc, &self.description)?;
        Ok(NotPerformedResponse {
            status: self.status,
            description,
        })
    }

    /// Status 1101 with the standard's words (RFC 6492, 3.6): an earlier request of the client for the same is still processed.
    pub fn err_1101(alloc: Global) -> Result<NotPerformedResponse, OutOfMemory>
        ensures { IfOk result (λ r. r ≡ record { status = 1101; description = reason 1101 }) }
    {
        described(alloc, 1101, "already processing request")
    }

    /// Status 1102 with the standard's words (RFC 6492, 3.6): the version of the message is not the protocol's.
    pub fn err_1102(alloc: Global) -> Result<NotPerformedResponse, OutOfMemory>
        ensures { IfOk result (λ r. r ≡ record { status = 1102; description = reason 1102 }) }
    {
        described(alloc, 1102, "version number error")
    }

    /// Status 1103 with the standard's words (RFC 6492, 3.6): the type of the message is not known.
    pub fn err_1103(alloc: Global) -> Result<NotPerformedResponse, OutOfMemory>
        ensures { IfOk result (λ r. r ≡ record { status = 1103; description = reason 1103 }) }
    {
        described(alloc, 1103, "unrecognized request type")
    }

    /// Status 1104 with the standard's words (RFC 6492, 3.6): the request will be processed later.
    pub fn err_1104(alloc: Global) -> Result<NotPerformedResponse, OutOfMemory>
        ensures { IfOk result (λ r. r ≡ record { status = 1104; description = reason 1104 }) }
    {
        described(alloc, 1104, "request scheduled for processing")
    }

    /// Status 1201 with the standard's words (RFC 6492, 3.6): a certificate is asked for in a resource class that there is not.
    pub fn err_1201(alloc: Global) -> Result<NotPerformedResponse, OutOfMemory>
        ensures { IfOk result (λ r. r ≡ record { status = 1201; description = reason 1201 }) }
    {
        described(alloc, 1201, "request - no such resource class")
    }

    /// Status 1202 with the standard's words (RFC 6492, 3.6): a certificate is asked for in a resource class of which the client has no
    /// resources.
    pub fn err_1202(alloc: Global) -> Result<NotPerformedResponse, OutOfMemory>
        ensures { IfOk result (λ r. r ≡ record { status = 1202; description = reason 1202 }) }
    {
        described(
            alloc,
            1202,
            "request - no resources allocated in resource class",
        )
    }

    /// Status 1203 with the standard's words (RFC 6492, 3.6): the certificate request is malformed.
    pub fn err_1203(alloc: Global) -> Result<NotPerformedResponse, OutOfMemory>
        ensures { IfOk result (λ r. r ≡ record { status = 1203; description = reason 1203 }) }
    {
        described(alloc, 1203, "request - badly formed certificate request")
    }

    /// Status 1204 with the standard's words (RFC 6492, 3.6): the key of the certificate request is used already.
    pub fn err_1204(alloc: Global) -> Result<NotPerformedResponse, OutOfMemory>
        ensures { IfOk result (λ r. r ≡ record { status = 1204; description = reason 1204 }) }
    {
        described(alloc, 1204, "request - already used key in request")
    }

    /// Status 1301 with the standard's words (RFC 6492, 3.6): revocation is asked for in a resource class that there is not.
    pub fn err_1301(alloc: Global) -> Result<NotPerformedResponse, OutOfMemory>
        ensures { IfOk result (λ r. r ≡ record { status = 1301; description = reason 1301 }) }
    {
        described(alloc, 1301, "revoke - no such resource class")
    }

    /// Status 1302 with the standard's words (RFC 6492, 3.6): revocation is asked for of a key that there is not.
    pub fn err_1302(alloc: Global) -> Result<NotPerformedResponse, OutOfMemory>
        ensures { IfOk result (λ r. r ≡ record { status = 1302; description = reason 1302 }) }
    {
        described(alloc, 1302, "revoke - no such key")
    }

    /// Status 2001 with the standard's words (RFC 6492, 3.6): the server failed.
    pub fn err_2001(alloc: Global) -> Result<NotPerformedResponse, OutOfMemory>
        ensures { IfOk result (λ r. r ≡ record { status = 2001; description = reason 2001 }) }
    {
        described(alloc, 2001, "Internal Server Error - Request not performed")
    }
}

// A response with this status and a copy of this text.
fn described(alloc: Global, status: u64, text: &str) -> Result<NotPerformedResponse, OutOfMemory>
    ensures { IfOk result (λ r. r ≡ record { status = status; description = Some text.now }) }
{
    let text = Text::from_str(alloc, text)?;
    Ok(NotPerformedResponse {
        status,
        description: Some(text),
    })
}

impl fmt::Display for NotPerformedResponse {
    ghost output = { λ r. Some (not_performed_text r) };

    fn fmt<W: fmt::Write>(&self, f: &mut fmt::Formatter<W>) -> fmt::Result {
        let status = self.status;
        match &self.description {
            None => write!(f, "{status}"),
            Some(text) => write!(f, "{status} - {text}"),
        }
    }
}
