//! Messages that are put together by calls, with the octets in the place of the certificate.

use crate::four::{append_text, certificate, shown};
use rpki_der::DecodeError;
use rpki_setup::{
    ChildHandle, ChildRequest, ParentHandle, ParentResponse, PublisherHandle, PublisherRequest,
    RepositoryResponse, ServiceUri, Text,
};
use rpki_text::{Base64, Handle, uri};
use std::alloc::Global;
use std::rc::RcStr;
use test_stored::{Fields, Step};

fn handle<T>(alloc: Global, text: &str) -> Result<Handle<T>, DecodeError> {
    match Handle::from_str(alloc, text) {
        Ok(handle) => Ok(handle),
        Err(_) => Err(DecodeError::OutOfMemory),
    }
}

fn service(alloc: Global) -> Result<ServiceUri, DecodeError> {
    match ServiceUri::from_str(alloc, "https://h/s") {
        Ok(uri) => Ok(uri),
        Err(_) => Err(DecodeError::OutOfMemory),
    }
}

fn base(alloc: Global) -> Result<uri::Rsync, DecodeError> {
    match uri::Rsync::from_str(alloc, "rsync://h/m/") {
        Ok(uri) => Ok(uri),
        Err(_) => Err(DecodeError::OutOfMemory),
    }
}

fn notification(alloc: Global) -> Result<uri::Https, DecodeError> {
    match uri::Https::from_str(alloc, "https://h/n.xml") {
        Ok(uri) => Ok(uri),
        Err(_) => Err(DecodeError::OutOfMemory),
    }
}

fn tag(alloc: Global) -> Result<Option<RcStr>, DecodeError> {
    Ok(Some(Text::from_str(alloc, "a")?.into_rc_str()))
}

fn child(alloc: Global, octets: &[u8]) -> Result<ChildRequest, DecodeError> {
    let text = Base64::from_content(alloc, octets)?;
    let name: ChildHandle = handle(alloc, "Carol")?;
    Ok(ChildRequest::new(text, name))
}

fn parent(alloc: Global, octets: &[u8]) -> Result<ParentResponse, DecodeError> {
    let text = Base64::from_content(alloc, octets)?;
    let parent: ParentHandle = handle(alloc, "Bob")?;
    let child: ChildHandle = handle(alloc, "Carol")?;
    Ok(ParentResponse::new(text, parent, child, service(alloc)?, tag(alloc)?))
}

// A request that was another publisher's first.
fn publisher(alloc: Global, octets: &[u8]) -> Result<PublisherRequest, DecodeError> {
    let text = Base64::from_content(alloc, octets)?;
    let first: PublisherHandle = handle(alloc, "Alice")?;
    let mut request = PublisherRequest::new(text, first, tag(alloc)?);
    request.set_publisher_handle(handle(alloc, "Carol")?);
    Ok(request)
}

fn repository(alloc: Global, octets: &[u8]) -> Result<RepositoryResponse, DecodeError> {
    let text = Base64::from_content(alloc, octets)?;
    let name: PublisherHandle = handle(alloc, "Carol")?;
    let found = Some(notification(alloc)?);
    Ok(RepositoryResponse::new(
        text,
        name,
        service(alloc)?,
        base(alloc)?,
        found,
        tag(alloc)?,
    ))
}

// The octets, the handle and the tag.
fn parts(
    alloc: Global,
    text: &Base64,
    name: &str,
    tag: Option<&RcStr>,
) -> Result<Fields, DecodeError> {
    let mut fields = Fields::one(alloc, text.to_bytes(alloc)?.as_slice())?;
    fields.octets(name.as_bytes())?;
    append_text(&mut fields, tag)?;
    Ok(fields)
}

fn child_parts(alloc: Global, octets: &[u8]) -> Result<Fields, DecodeError> {
    let (text, name, tag) = child(alloc, octets)?.unpack();
    parts(alloc, &text, name.as_str(), tag.as_ref())
}

fn publisher_parts(alloc: Global, octets: &[u8]) -> Result<Fields, DecodeError> {
    let (text, name, tag) = publisher(alloc, octets)?.unpack();
    parts(alloc, &text, name.as_str(), tag.as_ref())
}

fn child_shown(alloc: Global, octets: &[u8]) -> Result<Fields, DecodeError> {
    shown(alloc, &child(alloc, octets)?)
}

fn parent_shown(alloc: Global, octets: &[u8]) -> Result<Fields, DecodeError> {
    shown(alloc, &parent(alloc, octets)?)
}

fn publisher_shown(alloc: Global, octets: &[u8]) -> Result<Fields, DecodeError> {
    shown(alloc, &publisher(alloc, octets)?)
}

fn repository_shown(alloc: Global, octets: &[u8]) -> Result<Fields, DecodeError> {
    shown(alloc, &repository(alloc, octets)?)
}

/// What a call of this module answers; None where the step is none.
pub fn answer(
    alloc: Global,
    octets: &[u8],
    step: &Step<'_>,
) -> Option<Result<Fields, DecodeError>> {
    match step.call {
        "made_child" => Some(child_shown(alloc, octets)),
        "made_parent" => Some(parent_shown(alloc, octets)),
        "made_publisher" => Some(publisher_shown(alloc, octets)),
        "made_repository" => Some(repository_shown(alloc, octets)),
        "child_parts" => Some(child_parts(alloc, octets)),
        "publisher_parts" => Some(publisher_parts(alloc, octets)),
        "anchor" => Some(certificate(alloc, octets, &step.argument)),
        _ => None,
    }
}
