use rpki_base::ToyFault;
use rpki_ca::ReceiveError;
use rpki_common::OutOfMemory;
use rpki_der::DecodeError;
use rpki_sets::BlocksError;
use rpki_text::{Base64Error, InvalidHandle, JsonError, uri};
use rpki_xml::{Mismatch, XmlError, require};
use std::test::Fail;

#[test]
fn errors_are_printed(rt: HostRuntime) -> Result<(), Fail> {
    let text = format!(in rt.alloc();
        "{ToyFault}/{}/{}/{Mismatch}/{}",
        DecodeError::Malformed,
        BlocksError::Malformed,
        XmlError::from(Mismatch)
    )?;
    assert_eq!(rt;
        text.as_str(),
        "toy fault/malformed value/malformed blocks/malformed XML/malformed XML"
    );
    assert!(rt; require(true) == Ok(()) && require(false) == Err(Mismatch));
    Ok(())
}

#[test]
fn errors_of_texts_are_printed(rt: HostRuntime) -> Result<(), Fail> {
    let text = format!(in rt.alloc();
        "{}; {}; {}; {}; {}; {}",
        InvalidHandle::Pattern,
        uri::Error::BadUri,
        Base64Error::Malformed,
        Base64Error::OutOfMemory,
        JsonError::Malformed,
        JsonError::OutOfMemory
    )?;
    assert_eq!(rt;
        text.as_str(),
        "Handle MUST have pattern: [-_A-Za-z0-9/]{1,255}; the URI lacks its host or its module; malformed base64; out of memory; malformed JSON; out of memory"
    );
    Ok(())
}

#[test]
fn errors_of_uris_are_printed(rt: HostRuntime) -> Result<(), Fail> {
    let text = format!(in rt.alloc();
        "{}/{}/{}/{}/{}",
        uri::Error::TooLong,
        uri::Error::BadCharacter,
        uri::Error::BadScheme,
        uri::Error::DotSegments,
        uri::Error::OutOfMemory
    )?;
    assert_eq!(rt;
        text.as_str(),
        "the URI is too long/the URI has a character that is not allowed/the URI has another scheme/the URI has a segment of dots/out of memory"
    );
    Ok(())
}

#[test]
fn want_of_memory_is_printed(rt: HostRuntime) -> Result<(), Fail> {
    let text = format!(in rt.alloc();
        "{OutOfMemory}/{}/{}/{}",
        DecodeError::OutOfMemory,
        XmlError::OutOfMemory,
        BlocksError::OutOfMemory
    )?;
    assert_eq!(rt;
        text.as_str(),
        "out of memory/out of memory/out of memory/out of memory"
    );
    Ok(())
}

#[test]
fn want_of_memory_of_messages_is_printed(rt: HostRuntime) -> Result<(), Fail> {
    let text = format!(in rt.alloc();
        "{}/{}",
        rpki_publication::Error::OutOfMemory,
        ReceiveError::OutOfMemory
    )?;
    assert_eq!(rt; text.as_str(), "out of memory/out of memory");
    Ok(())
}
