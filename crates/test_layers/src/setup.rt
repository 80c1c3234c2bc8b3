//! Of setup messages, what no clause shows: texts from outside, and faults in mid-stream. The octets in the certificates' places are 0, 1
//! and 2.

ghost use Rattle.std.specs.Prelude.{IfOk, IfSome, string_bytes};
ghost use Rattle.rpki_xmltext.specs.Reading.{ReadsAs};
ghost use Rattle.rpki_setup.specs.ChildRequest.{child_request_in};

use rpki_setup::*;
use rpki_text::{Base64, MemorySink, MemorySource, uri};
use std::alloc::Global;
use std::test::Fail;

const CHILD: &str =
    "<?xml version=\"1.0\"?>\n<child_request tag=\"&lt;A&gt;\" child_handle=\"Carol\"
    xmlns=\"http://www.hactrn.net/uris/rpki/rpki-setup\">
    <!-- TA --><child_bpki_ta hash=\"x\">\n AA<!-- -->E\nC </child_bpki_ta> </child_request>\n";

const CHILD_WRITTEN: &str =
    "<child_request xmlns=\"http://www.hactrn.net/uris/rpki/rpki-setup/\" version=\"1\" child_handle=\"Carol\" tag=\"&lt;A&gt;\"><child_bpki_ta>AAEC</child_bpki_ta></child_request>";

const PARENT: &str = "<parent_response valid_until=\"2012-06-13T00:00:00Z\" parent_handle=\"Bob\"
    child_handle=\"Carol\" service_uri=\"HTTP://h/a b\"><offer/><parent_bpki_ta>AQ==</parent_bpki_ta>
    <referral referrer=\"Alice\">text</referral><parent_bpki_ta>AA==</parent_bpki_ta></parent_response>";

const PARENT_WRITTEN: &str =
    "<parent_response xmlns=\"http://www.hactrn.net/uris/rpki/rpki-setup/\" version=\"1\" parent_handle=\"Bob\" child_handle=\"Carol\" service_uri=\"HTTP://h/a b\"><parent_bpki_ta>AA==</parent_bpki_ta></parent_response>";

const REPOSITORY: &str =
    "<repository_response xmlns=\"http://www.hactrn.net/uris/rpki/rpki-setup/\" version=\"1\" publisher_handle=\"A/B\" service_uri=\"https://h/\" sia_base=\"rsync://h/m/\" rrdp_notification_uri=\"https://h/n.xml\" tag=\"\"><repository_bpki_ta/></repository_response>";

// A function of its own, so that the request is let go at one place.
fn child_text(alloc: Global, request: ChildRequest) -> Result<String, OutOfMemory> {
    request.to_xml_string(alloc)
}

fn child_anew(alloc: Global) -> Result<String, Error> {
    let request = ChildRequest::parse_slice(alloc, CHILD.as_bytes())?;
    Ok(child_text(alloc, request)?)
}

#[test]
fn a_child_request_is_written_anew(rt: HostRuntime) -> Result<(), Fail> {
    let text = child_anew(rt.alloc())?;
    assert_eq!(rt; text.as_str(), CHILD_WRITTEN);
    Ok(())
}

// A function of its own, so that the response is let go at one place.
fn parent_text(alloc: Global, response: ParentResponse) -> Result<String, OutOfMemory> {
    response.to_xml_string(alloc)
}

fn parent_anew(alloc: Global) -> Result<String, Error> {
    let response = ParentResponse::parse_slice(alloc, PARENT.as_bytes())?;
    Ok(parent_text(alloc, response)?)
}

#[test]
fn the_last_certificate_of_a_parent_counts(rt: HostRuntime) -> Result<(), Fail> {
    let text = parent_anew(rt.alloc())?;
    assert_eq!(rt; text.as_str(), PARENT_WRITTEN);
    Ok(())
}

// A function of its own, so that the response is let go at one place.
fn repository_text(alloc: Global, response: RepositoryResponse) -> Result<String, OutOfMemory> {
    response.to_xml_string(alloc)
}

fn repository_anew(alloc: Global) -> Result<String, Error> {
    let response = RepositoryResponse::parse_slice(alloc, REPOSITORY.as_bytes())?;
    Ok(repository_text(alloc, response)?)
}

#[test]
fn a_repository_response_is_written_anew(rt: HostRuntime) -> Result<(), Fail> {
    let text = repository_anew(rt.alloc())?;
    assert_eq!(rt; text.as_str(), REPOSITORY);
    Ok(())
}

#[test]
fn another_message_is_none(rt: HostRuntime) {
    assert!(rt; PublisherRequest::parse_slice(rt.alloc(), CHILD.as_bytes()).is_err());
}

fn resolved(alloc: Global) -> Result<uri::Rsync, uri::Error> {
    let base = uri::Rsync::from_str(alloc, "rsync://localhost/repo/")?;
    RepoInfo::new(base, None).resolve(alloc, "ca", "f.cer")
}

#[test]
fn a_file_is_resolved(rt: HostRuntime) -> Result<(), Fail> {
    let file = resolved(rt.alloc())?;
    assert_eq!(rt; file.as_str(), "rsync://localhost/repo/ca/f.cer");
    Ok(())
}

fn request(alloc: Global) -> Result<ChildRequest, Error> {
    let octets = Base64::from_content(alloc, [0u8, 1, 2].as_slice())?;
    let name = Text::from_str(alloc, "a")?.into_rc_str();
    Ok(ChildRequest::new(octets, Handle::new(name)))
}

fn write_request(alloc: Global, sink: &mut MemorySink) -> Result<(), Error> {
    request(alloc)?.write_xml(alloc, sink)
}

#[test]
fn a_fault_of_the_source_is_told(rt: HostRuntime) -> Result<(), Fail> {
    let mut source = MemorySource::new(rt.alloc(), CHILD.as_bytes(), 7, [2u64].as_slice())?;
    let result = ChildRequest::parse(rt.alloc(), &mut source);
    assert!(rt; matches!(result, Err(Error::Read)));
    Ok(())
}

#[test]
fn a_fault_of_the_sink_is_told(rt: HostRuntime) -> Result<(), Fail> {
    let mut sink = MemorySink::new(rt.alloc(), 1000, 7, [2u64].as_slice())?;
    let result = write_request(rt.alloc(), &mut sink);
    assert!(rt; matches!(result, Err(Error::Write)));
    assert_eq!(rt; sink.written(), b"<child_request".as_slice());
    Ok(())
}

// The text of a request, where it can be read again: it is read as the request.
fn text_if_writable(alloc: Global, request: &ChildRequest) -> Result<Option<String>, OutOfMemory>
    ensures { IfOk result (λ text. IfSome text (λ t.
        ReadsAs child_request_in (string_bytes t) request.now)) }
{
    written_is_read();
    if !request.is_writable() {
        return Ok(None);
    }
    Ok(Some(request.to_xml_string(alloc)?))
}

fn request_of(alloc: Global, name: &str) -> Result<ChildRequest, OutOfMemory> {
    let octets = Base64::from_content(alloc, [0u8, 1, 2].as_slice())?;
    let name = Text::from_str(alloc, name)?.into_rc_str();
    Ok(ChildRequest::new(octets, Handle::new(name)))
}

fn is_written(alloc: Global, name: &str) -> Result<bool, OutOfMemory> {
    let request = request_of(alloc, name)?;
    Ok(text_if_writable(alloc, &request)?.is_some())
}

#[test]
fn a_request_is_writable_where_its_handle_has_the_pattern(rt: HostRuntime) -> Result<(), Fail> {
    assert!(rt; is_written(rt.alloc(), "Carol")?);
    assert!(rt; !is_written(rt.alloc(), "Carol and Bob")?);
    Ok(())
}

fn has_pattern(alloc: Global, name: &str) -> Result<bool, OutOfMemory> {
    let handle = ChildHandle::new(Text::from_str(alloc, name)?.into_rc_str());
    Ok(handle.has_pattern())
}

#[test]
fn a_handle_of_any_text_tells_whether_it_has_the_pattern(rt: HostRuntime) -> Result<(), Fail> {
    assert!(rt; has_pattern(rt.alloc(), "Carol/a-b_1")?);
    assert!(rt; !has_pattern(rt.alloc(), "")?);
    Ok(())
}
