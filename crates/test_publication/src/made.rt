//! Messages that are put together by calls, and each call that writes a message.

use bytes::Bytes;
use rpki_der::DecodeError;
use rpki_publication::{
    ErrorReply, ListElement, ListReply, Message, Publish, PublishDelta, PublishDeltaElement,
    QueryPdu, ReportError, ReportErrorCode, Text, Update, Withdraw,
};
use rpki_text::{Base64, Hash, MemorySink, MemorySource, uri};
use std::alloc::Global;
use test_stored::Fields;

fn uri_of(alloc: Global, text: &str) -> Result<uri::Rsync, DecodeError> {
    match uri::Rsync::from_str(alloc, text) {
        Ok(uri) => Ok(uri),
        Err(_) => Err(DecodeError::OutOfMemory),
    }
}

/// Where the objects of most messages are.
pub fn place(alloc: Global) -> Result<uri::Rsync, DecodeError> {
    uri_of(alloc, "rsync://localhost/ca/f.cer")
}

fn publish(alloc: Global) -> Result<Publish, DecodeError> {
    let content = Base64::from_content(alloc, b"abc")?;
    Ok(Publish::with_hash_tag(alloc, place(alloc)?, content)?)
}

fn update(alloc: Global) -> Result<Update, DecodeError> {
    let content = Base64::from_content(alloc, b"abcd")?;
    let old_hash = Hash::from_data(b"abc");
    Ok(Update::with_hash_tag(alloc, place(alloc)?, content, old_hash)?)
}

fn withdraw(alloc: Global) -> Result<Withdraw, DecodeError> {
    Ok(Withdraw::with_hash_tag(alloc, place(alloc)?, Hash::from_data(b"abcd"))?)
}

// Whether all three are added, in this order.
fn is_filled(
    delta: &mut PublishDelta,
    publish: Publish,
    update: Update,
    withdraw: Withdraw,
) -> bool {
    delta.add_publish(publish).is_ok()
        && delta.add_update(update).is_ok()
        && delta.add_withdraw(withdraw).is_ok()
}

// A publish, an update and a withdraw.
fn delta(alloc: Global) -> Result<PublishDelta, DecodeError> {
    let mut delta = PublishDelta::empty(alloc);
    if is_filled(
        &mut delta,
        publish(alloc)?,
        update(alloc)?,
        withdraw(alloc)?,
    ) {
        return Ok(delta);
    }
    Err(DecodeError::OutOfMemory)
}

fn first_of_three(alloc: Global) -> Result<Publish, DecodeError> {
    let uri = uri_of(alloc, "rsync://localhost/ca/f1.txt")?;
    Ok(Publish::with_hash_tag(alloc, uri, Base64::from_content(alloc, b"a")?)?)
}

fn second_of_three(alloc: Global) -> Result<Update, DecodeError> {
    let uri = uri_of(alloc, "rsync://localhost/ca/f2.txt")?;
    let content = Base64::from_content(alloc, b"b")?;
    Ok(Update::with_hash_tag(alloc, uri, content, Hash::from_data(b"c"))?)
}

fn third_of_three(alloc: Global) -> Result<Withdraw, DecodeError> {
    let uri = uri_of(alloc, "rsync://localhost/ca/f3.txt")?;
    Ok(Withdraw::with_hash_tag(alloc, uri, Hash::from_data(b"d"))?)
}

/// Changes of three objects of one octet each.
pub fn three(alloc: Global) -> Result<Message, DecodeError> {
    let mut delta = PublishDelta::empty(alloc);
    if is_filled(
        &mut delta,
        first_of_three(alloc)?,
        second_of_three(alloc)?,
        third_of_three(alloc)?,
    ) {
        return Ok(Message::delta(delta));
    }
    Err(DecodeError::OutOfMemory)
}

// The changes of `delta` twice, one behind the other.
fn twice(alloc: Global) -> Result<PublishDelta, DecodeError> {
    match delta(alloc)?.add(delta(alloc)?) {
        Ok(delta) => Ok(delta),
        Err(_) => Err(DecodeError::OutOfMemory),
    }
}

// Two objects.
fn list(alloc: Global) -> Result<ListReply, DecodeError> {
    let mut list = ListReply::empty(alloc);
    let first = ListElement::new(place(alloc)?, Hash::from_data(b"abc"));
    let second = ListElement::new(place(alloc)?, Hash::from_data(b"abcd"));
    if list.add_element(first).is_ok() && list.add_element(second).is_ok() {
        return Ok(list);
    }
    Err(DecodeError::OutOfMemory)
}

fn withdrawals(alloc: Global) -> Result<PublishDelta, DecodeError> {
    match list(alloc)?.into_withdraw_delta(alloc) {
        Ok(delta) => Ok(delta),
        Err(_) => Err(DecodeError::OutOfMemory),
    }
}

// Two errors, the first by its code alone.
fn errors(alloc: Global) -> Result<ErrorReply, DecodeError> {
    let first = ReportError::with_code(alloc, ReportErrorCode::PermissionFailure)?;
    let second = ReportError::new(ReportErrorCode::OtherError, None, None, None);
    let Ok(mut reply) = ErrorReply::for_error(alloc, first) else {
        return Err(DecodeError::OutOfMemory);
    };
    match reply.add_error(second) {
        Ok(()) => Ok(reply),
        Err(_) => Err(DecodeError::OutOfMemory),
    }
}

fn reply_of(alloc: Global, error: ReportError) -> Result<ErrorReply, DecodeError> {
    match ErrorReply::for_error(alloc, error) {
        Ok(reply) => Ok(reply),
        Err(_) => Err(DecodeError::OutOfMemory),
    }
}

// One error, by its code alone.
fn denial(alloc: Global) -> Result<ErrorReply, DecodeError> {
    let error = ReportError::with_code(alloc, ReportErrorCode::PermissionFailure)?;
    reply_of(alloc, error)
}

// One error of all its parts.
fn failure(alloc: Global) -> Result<ErrorReply, DecodeError> {
    let tag = Text::from_str(alloc, "a")?.into_rc_str();
    let text = Text::from_str(alloc, "a < b")?.into_rc_str();
    let failed = QueryPdu::PublishDeltaElement(PublishDeltaElement::Withdraw(withdraw(alloc)?));
    let code = ReportErrorCode::NoObjectPresent;
    reply_of(
        alloc,
        ReportError::new(code, Some(tag), Some(text), Some(failed)),
    )
}

// The message that a step names, if it names one.
fn message(alloc: Global, call: &str) -> Result<Option<Message>, DecodeError> {
    match call {
        "made_delta" => Ok(Some(Message::delta(delta(alloc)?))),
        "made_twice" => Ok(Some(Message::delta(twice(alloc)?))),
        "made_list" => Ok(Some(Message::list_reply(list(alloc)?))),
        "made_withdrawals" => Ok(Some(Message::delta(withdrawals(alloc)?))),
        "made_no_errors" => Ok(Some(Message::error(ErrorReply::empty(alloc)))),
        "made_errors" => Ok(Some(Message::error(errors(alloc)?))),
        "made_three" => Ok(Some(three(alloc)?)),
        "made_denial" => Ok(Some(Message::error(denial(alloc)?))),
        "made_failure" => Ok(Some(Message::error(failure(alloc)?))),
        _ => Ok(None),
    }
}

fn octets(alloc: Global, message: &Message) -> Result<Bytes, DecodeError> {
    match message.to_xml_bytes(alloc) {
        Ok(octets) => Ok(octets),
        Err(_) => Err(DecodeError::OutOfMemory),
    }
}

fn text(alloc: Global, message: &Message) -> Result<String, DecodeError> {
    match message.to_xml_string(alloc) {
        Ok(text) => Ok(text),
        Err(_) => Err(DecodeError::OutOfMemory),
    }
}

fn sunk(alloc: Global, message: &Message) -> Result<MemorySink, DecodeError> {
    let mut sink = MemorySink::new(alloc, 1 << 20, 100, &[])?;
    match message.write_xml(alloc, &mut sink) {
        Ok(()) => Ok(sink),
        Err(_) => Err(DecodeError::OutOfMemory),
    }
}

fn read(alloc: Global, octets: &[u8]) -> Result<Message, DecodeError> {
    let mut source = MemorySource::new(alloc, octets, 100, &[])?;
    match Message::decode(alloc, &mut source) {
        Ok(message) => Ok(message),
        Err(_) => Err(DecodeError::Malformed),
    }
}

/// The message as each call writes it, and as it is written once it is read of a source and cloned.
pub fn written_by_each(alloc: Global, message: &Message) -> Result<Fields, DecodeError> {
    let octets_of = octets(alloc, message)?;
    let mut fields = Fields::one(alloc, octets_of.as_slice())?;
    fields.octets(text(alloc, message)?.as_bytes())?;
    fields.octets(sunk(alloc, message)?.written())?;
    let again = read(alloc, octets_of.as_slice())?.clone(alloc)?;
    fields.octets(again.text_bytes(alloc)?.as_slice())?;
    Ok(fields)
}

/// The message that a step names, as each call writes it; None where the step names none.
pub fn answer(alloc: Global, call: &str) -> Option<Result<Fields, DecodeError>> {
    match message(alloc, call) {
        Ok(Some(message)) => Some(written_by_each(alloc, &message)),
        Ok(None) => None,
        Err(error) => Some(Err(error)),
    }
}
