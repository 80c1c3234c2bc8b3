//! What a publication server says of what is no query, and of a query that it can't decide.

use rpki_publication::ReportErrorCode;
use rpki_pubserver::{DecideError, error_reply};
use std::alloc::Global;
use std::test::Fail;

const BAD_CMS_SIGNATURE: &[u8] =
    b"<msg xmlns=\"http://www.hactrn.net/uris/rpki/publication-spec/\" version=\"4\" type=\"reply\"><report_error error_code=\"bad_cms_signature\"><error_text>Encountered bad CMS signature.</error_text></report_error></msg>";

const XML_ERROR: &[u8] =
    b"<msg xmlns=\"http://www.hactrn.net/uris/rpki/publication-spec/\" version=\"4\" type=\"reply\"><report_error error_code=\"xml_error\"><error_text>Encountered an XML problem.</error_text></report_error></msg>";

const OTHER_ERROR: &[u8] =
    b"<msg xmlns=\"http://www.hactrn.net/uris/rpki/publication-spec/\" version=\"4\" type=\"reply\"><report_error error_code=\"other_error\"><error_text>Found some other issue.</error_text></report_error></msg>";

// Whether the reply with this error alone is this text.
fn is_replied(alloc: Global, code: ReportErrorCode, text: &[u8]) -> Result<bool, Fail> {
    let reply = error_reply(alloc, code)?;
    let written = reply.text_vec(alloc)?;
    Ok(written.as_slice() == text)
}

#[test]
fn errors_that_are_of_no_change_are_replied(rt: HostRuntime) -> Result<(), Fail> {
    let alloc = rt.alloc();
    assert!(rt; is_replied(alloc, ReportErrorCode::BadCmsSignature, BAD_CMS_SIGNATURE)?);
    assert!(rt; is_replied(alloc, ReportErrorCode::XmlError, XML_ERROR)?);
    assert!(rt; is_replied(alloc, ReportErrorCode::OtherError, OTHER_ERROR)?);
    Ok(())
}

#[test]
fn errors_of_decisions_are_printed(rt: HostRuntime) -> Result<(), Fail> {
    let text = format!(in rt.alloc(); "{}/{}", DecideError::Unknown, DecideError::OutOfMemory)?;
    assert_eq!(rt;
        text.as_str(),
        "nothing is known of a URI that the query names/out of memory"
    );
    Ok(())
}
