//! Texts that can be written so that they are read again.

ghost use Rattle.std.specs.Prelude.{◌≡◌, ◌↔◌, IsTrue};
ghost use Rattle.std.specs.List.{list_all};
ghost use Rattle.rpki_text.specs.Handle.{is_handle_octet as tells_octet, IsHandle};
ghost use Rattle.rpki_xml.specs.Lexing.{is_octet as tells_document_octet};

// A letter, a digit, or one of the three marks that a handle may have.
fn is_handle_octet(octet: u8) -> bool
    ensures { result ≡ tells_octet octet }
{
    octet.is_ascii_alphanumeric() || matches!(octet, b'-' | b'_' | b'/')
}

/// Whether a text has the pattern of a handle (RFC 8183, appendix A).
pub(crate) fn is_handle(text: &str) -> bool
    ensures { IsTrue result ↔ IsHandle text.now }
{
    let octets = text.as_bytes();
    octets.len() >= 1 && octets.len() <= 255 && octets.iter().all(|octet| is_handle_octet(*octet))
}

// An octet that a document may have.
fn is_octet(octet: u8) -> bool
    ensures { result ≡ tells_document_octet octet }
{
    matches!(octet, b'\t' | b'\n' | b'\r' | b' '..=b'~')
}

/// Whether a text consists of octets that a document may have.
pub(crate) fn are_octets(text: &str) -> bool
    ensures { result ≡ list_all tells_document_octet text.now }
{
    text.as_bytes().iter().all(|octet| is_octet(*octet))
}
