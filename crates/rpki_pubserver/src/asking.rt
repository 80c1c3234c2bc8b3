//! What is asked by what was received.

ghost use Rattle.std.specs.Prelude.{◌≡◌, ◌≢◌, Err, IfOk, Ok, OnOk};
ghost use Rattle.rpki_ca.specs.declared.receiving.ReceiveError.TheVariants as errors;
ghost use Rattle.rpki_ca.specs.declared.receiving.Received.TheVariants as received_as;
ghost use Rattle.rpki_pubserver.specs.Asking.{asked_by};
ghost use Rattle.rpki_pubserver.specs.declared.asking.Asked.TheVariants as asked;

use rpki_ca::{ReceiveError, Received};
use rpki_common::OutOfMemory;
use rpki_publication::{Message, PublishDelta, Query, ReportErrorCode};

/// What is asked.
#[derive(Drop)]
pub(crate) enum Asked {
    /// For the list of all objects.
    List,
    /// For changes.
    Changes(PublishDelta),
    /// Nothing is to be done; the reply is this error.
    Nothing(ReportErrorCode),
}

// What a message of the protocol asks.
fn asked_in(message: Message) -> Asked
    ensures { result ≡ asked_by (Ok (received_as.Publication message)) }
{
    match message {
        Message::Query(Query::List) => Asked::List,
        Message::Query(Query::Delta(delta)) => Asked::Changes(delta),
        Message::Reply(_) => Asked::Nothing(ReportErrorCode::XmlError),
    }
}

// What is said where nothing was received; none where memory ran out.
fn code_of(error: ReceiveError) -> Result<ReportErrorCode, OutOfMemory>
    ensures code { IfOk result (λ c. asked_by (Err error) ≡ asked.Nothing c) }
    ensures given { OnOk result (error ≢ errors.OutOfMemory) }
{
    match error {
        ReceiveError::CmsDecode => Ok(ReportErrorCode::BadCmsSignature),
        ReceiveError::Validation(_) => Ok(ReportErrorCode::BadCmsSignature),
        ReceiveError::OutOfMemory => Err(OutOfMemory),
        ReceiveError::XmlError => Ok(ReportErrorCode::XmlError),
        ReceiveError::CertSyntax => Ok(ReportErrorCode::XmlError),
        ReceiveError::InvalidCsrSyntax => Ok(ReportErrorCode::XmlError),
    }
}

/// What is asked by what was received, if memory didn't run out.
pub(crate) fn asked_by(received: Result<Received, ReceiveError>) -> Result<Asked, OutOfMemory>
    ensures asked { IfOk result (λ a. a ≡ asked_by received) }
    ensures given { OnOk result (received ≢ Err errors.OutOfMemory) }
{
    match received {
        Ok(Received::Publication(message)) => Ok(asked_in(message)),
        Ok(Received::Provisioning(_)) => Ok(Asked::Nothing(ReportErrorCode::XmlError)),
        Err(error) => Ok(Asked::Nothing(code_of(error)?)),
    }
}
