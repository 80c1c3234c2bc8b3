//! The messages that a server answers.

ghost use Rattle.std.specs.Prelude.{◌≡◌, IfOk};
ghost use Rattle.std.specs.Option.{option_map};
ghost use Rattle.std.specs.Rc.{rc_str_bytes};
ghost use Rattle.rpki_publication.specs.Change.{IsWritableChange};
ghost use Rattle.rpki_publication.specs.Message.{IsWritable};
ghost use Rattle.rpki_pubserver.specs.Messages as definitions;

use crate::changes::tag_of;
use rpki_common::OutOfMemory;
use rpki_publication::{
    ErrorReply, Message, PublishDeltaElement, QueryPdu, ReportError, ReportErrorCode,
};
use std::alloc::Global;
use std::rc::RcStr;

// The reply with one error.
fn one_error(alloc: Global, error: ReportError) -> Result<Message, OutOfMemory>
    ensures { IfOk result (λ m. m ≡ definitions.error_message error) }
{
    match ErrorReply::for_error(alloc, error) {
        Ok(reply) => Ok(Message::error(reply)),
        Err(_) => Err(OutOfMemory),
    }
}

/// The reply with an error that is of no change: its code, and the code's text.
pub fn error_reply(alloc: Global, code: ReportErrorCode) -> Result<Message, OutOfMemory>
    ensures message { IfOk result (λ m. m ≡ definitions.error_alone code) }
    ensures writable { IfOk result IsWritable }
{
    one_error(alloc, ReportError::with_code(alloc, code)?)
}

// An equal text, where there is one.
fn copied(text: Option<&RcStr>) -> Result<Option<RcStr>, OutOfMemory>
    ensures { IfOk result (λ copy.
        option_map rc_str_bytes copy ≡ option_map (λ t. rc_str_bytes t.now) text.entry) }
{
    match text {
        None => Ok(None),
        Some(text) => Ok(Some(text.clone()?)),
    }
}

/// The reply with the error of a change: its code, the change's tag, the code's text, and the change.
pub(crate) fn error_of(
    alloc: Global,
    change: &PublishDeltaElement,
    code: ReportErrorCode,
) -> Result<Message, OutOfMemory>
    ensures message { IfOk result (λ m.
        m ≡ definitions.error_about (record { element = change.now; code = code })) }
    ensures writable { IsWritableChange change.now → IfOk result IsWritable }
{
    let tag = copied(tag_of(change))?;
    let text = RcStr::from_str(alloc, code.to_text())?;
    let failed = QueryPdu::PublishDeltaElement(change.clone(alloc)?);
    one_error(alloc, ReportError::new(code, tag, Some(text), Some(failed)))
}
