//! An error that is reported.

ghost use Rattle.std.specs.Prelude.{◌≡◌, ◌↔◌, Some, None, IfOk, IfSome, IsTrue};
ghost use Rattle.std.specs.Option.{option_map};
ghost use Rattle.std.specs.Rc.{rc_str_bytes};
ghost use Rattle.rpki_publication.specs.Change.{IsWritablePdu};
ghost use Rattle.rpki_publication.specs.ReportError.{shown_text, IsWritableError};
ghost use Rattle.rpki_publication.specs.ReportErrorCode.{default_text};

use crate::query_pdu::QueryPdu;
use crate::report_error_code::ReportErrorCode;
use rpki_common::{OutOfMemory, Text};
use rpki_xmltext::{cloned, is_plain_or_absent, is_trimmed_or_absent, shared, taken_in};
use std::alloc::Global;
use std::marker::Model;
use std::rc::RcStr;

/// An error that a server reports (RFC 8181, 2.4): its code, the tag of the element of the query that failed, a text, and that element.
/// In a clause it is the record of its fields.
#[derive(Debug, PartialEq, Eq)]
pub struct ReportError {
    error_code: ReportErrorCode,
    tag: Option<Text>,
    error_text: Option<Text>,
    failed_pdu: Option<QueryPdu>,
}

impl Drop for ReportError {
    fn drop(self) {
        let ReportError {
            error_code,
            tag,
            error_text,
            failed_pdu,
        } = self;
    }
}

impl Model for ReportError {
    ghost use Rattle.rpki_publication.specs.ReportError.{ReportErrorFields};

    ghost Value = { ReportErrorFields };

    ghost view = { λ r. record {
      error_code = r.error_code;
      tag = r.tag;
      error_text = r.error_text;
      failed_pdu = r.failed_pdu;
    } };

    ghost inverse = { λ r. record {
      error_code = r.error_code;
      tag = r.tag;
      error_text = r.error_text;
      failed_pdu = r.failed_pdu;
    } };
}

impl ReportError {
    /// An error with these parts.
    pub fn new(
        error_code: ReportErrorCode,
        tag: Option<RcStr>,
        error_text: Option<RcStr>,
        failed_pdu: Option<QueryPdu>,
    ) -> ReportError
        ensures { result ≡ record {
          error_code = error_code;
          tag = option_map rc_str_bytes tag;
          error_text = option_map rc_str_bytes error_text;
          failed_pdu = failed_pdu;
        } }
    {
        let tag = taken_in(tag);
        let error_text = taken_in(error_text);
        ReportError {
            error_code,
            tag,
            error_text,
            failed_pdu,
        }
    }

    /// An error with this code and its text.
    pub fn with_code(alloc: Global, error_code: ReportErrorCode) -> Result<ReportError, OutOfMemory>
        ensures { IfOk result (λ r. r ≡ record {
          error_code = error_code;
          tag = None;
          error_text = Some (default_text error_code);
          failed_pdu = None;
        }) }
    {
        let text = Text::from_str(alloc, error_code.to_text())?;
        Ok(ReportError {
            error_code,
            tag: None,
            error_text: Some(text),
            failed_pdu: None,
        })
    }

    /// An error whose texts were read.
    pub(crate) fn of(
        error_code: ReportErrorCode,
        tag: Option<Text>,
        error_text: Option<Text>,
        failed_pdu: Option<QueryPdu>,
    ) -> ReportError
        ensures { result ≡ record {
          error_code = error_code;
          tag = tag;
          error_text = error_text;
          failed_pdu = failed_pdu;
        } }
    {
        ReportError {
            error_code,
            tag,
            error_text,
            failed_pdu,
        }
    }

    /// Whether it can be written so that it is read again: tag and text consist of octets that a document may have, the text has no outer
    /// white space, and the element of the query can. It takes no memory.
    pub fn is_writable(&self) -> bool
        ensures { IsTrue result ↔ IsWritableError self.now }
    {
        is_plain_or_absent(&self.tag)
            && is_plain_or_absent(&self.error_text)
            && is_trimmed_or_absent(&self.error_text)
            && is_writable_or_absent(&self.failed_pdu)
    }

    /// The code.
    pub fn error_code(&self) -> ReportErrorCode
        ensures { result ≡ self.now.error_code }
    {
        self.error_code
    }

    /// The tag, where there is one.
    pub fn tag(&self) -> Option<&RcStr>
        ensures { option_map (λ t. rc_str_bytes t.now) result ≡ self.now.tag }
    {
        shared(&self.tag)
    }

    /// The text, where there is one of its own.
    pub fn error_text(&self) -> Option<&RcStr>
        ensures { option_map (λ t. rc_str_bytes t.now) result ≡ self.now.error_text }
    {
        shared(&self.error_text)
    }

    /// The element of the query that failed, where it is known.
    pub fn failed_pdu(&self) -> Option<&QueryPdu>
        ensures { option_map (λ pdu. pdu.now) result ≡ self.now.failed_pdu }
    {
        self.failed_pdu.as_ref()
    }

    /// The tag, lent.
    pub(crate) fn tag_text(&self) -> &Option<Text>
        ensures { result.now ≡ self.now.tag }
    {
        &self.tag
    }

    /// The text, lent.
    pub(crate) fn own_text(&self) -> &Option<Text>
        ensures { result.now ≡ self.now.error_text }
    {
        &self.error_text
    }

    /// The text that is written: its own or the code's.
    pub(crate) fn shown_text(&self) -> &str
        ensures { result.now ≡ shown_text self.now.error_code self.now.error_text }
    {
        match &self.error_text {
            None => self.error_code.to_text(),
            Some(text) => text.as_str(),
        }
    }

    /// An equal error, whose texts are shared with this one.
    pub fn clone(&self, alloc: Global) -> Result<ReportError, OutOfMemory>
        ensures { IfOk result (λ r. r ≡ self.now) }
    {
        let tag = cloned(alloc, &self.tag)?;
        let error_text = cloned(alloc, &self.error_text)?;
        let failed_pdu = copied(alloc, &self.failed_pdu)?;
        Ok(ReportError {
            error_code: self.error_code,
            tag,
            error_text,
            failed_pdu,
        })
    }
}

// Whether an element can be written so that it is read again, or is absent.
fn is_writable_or_absent(pdu: &Option<QueryPdu>) -> bool
    ensures { IsTrue result ↔ IfSome pdu.now IsWritablePdu }
{
    match pdu {
        None => true,
        Some(pdu) => pdu.is_writable(),
    }
}

// An equal element, where there is one.
fn copied(alloc: Global, pdu: &Option<QueryPdu>) -> Result<Option<QueryPdu>, OutOfMemory>
    ensures { IfOk result (λ p. p ≡ pdu.now) }
{
    match pdu {
        None => Ok(None),
        Some(pdu) => Ok(Some(pdu.clone(alloc)?)),
    }
}
