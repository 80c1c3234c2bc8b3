//! Codes and errors as they are printed, and elements that are copied.

use crate::made::place;
use crate::signed::refused;
use rpki_der::DecodeError;
use rpki_publication::{Error, ListElement, QueryPdu, ReplyPdu, ReportError, ReportErrorCode};
use rpki_text::Hash;
use std::alloc::Global;
use test_stored::Fields;

fn code_shown(alloc: Global, code: ReportErrorCode) -> Result<Fields, DecodeError> {
    let mut fields = Fields::new(alloc);
    fields.print(alloc, code)?;
    fields.octets(code.to_text().as_bytes())?;
    Ok(fields)
}

/// The code that a text is, as it is printed, and its words.
pub fn code(alloc: Global, text: &[u8]) -> Result<Fields, DecodeError> {
    let Ok(text) = std::str::from_utf8(text) else {
        return Err(DecodeError::Malformed);
    };
    match ReportErrorCode::from_str(alloc, text) {
        Ok(code) => code_shown(alloc, code),
        Err(error) => refused(alloc, error),
    }
}

/// The errors that no text and no signed message shows.
pub fn errors(alloc: Global) -> Result<Fields, DecodeError> {
    let mut fields = Fields::new(alloc);
    fields.print(alloc, Error::InvalidVersion)?;
    fields.print(alloc, Error::Read)?;
    fields.print(alloc, Error::Write)?;
    fields.print(alloc, Error::TooLong)?;
    fields.print(alloc, Error::OutOfMemory)?;
    Ok(fields)
}

fn is_copied(alloc: Global, pdu: &ReplyPdu) -> Result<bool, DecodeError> {
    let copy = pdu.clone(alloc)?;
    Ok(copy == *pdu)
}

fn object_is_copied(alloc: Global) -> Result<bool, DecodeError> {
    let object = ListElement::new(place(alloc)?, Hash::from_data(b"abc"));
    is_copied(alloc, &ReplyPdu::List(object))
}

fn error_is_copied(alloc: Global) -> Result<bool, DecodeError> {
    let failed = Some(QueryPdu::List);
    let error = ReportError::new(ReportErrorCode::OtherError, None, None, failed);
    is_copied(alloc, &ReplyPdu::Error(error))
}

/// Whether copies of the elements of replies are equal.
pub fn copies(alloc: Global) -> Result<Fields, DecodeError> {
    let object = object_is_copied(alloc)?;
    let success = is_copied(alloc, &ReplyPdu::Success)?;
    let error = error_is_copied(alloc)?;
    let mut fields = Fields::truth(alloc, object)?;
    fields.octets(&[u8::from(success)])?;
    fields.octets(&[u8::from(error)])?;
    Ok(fields)
}
