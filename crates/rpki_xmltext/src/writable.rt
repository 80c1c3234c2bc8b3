//! Whether texts can be written so that they are read again.

ghost use Rattle.std.specs.Prelude.{◌≡◌, ◌↔◌, IfSome, IsTrue};
ghost use Rattle.rpki_xml.specs.Content.{trimmed};
ghost use Rattle.rpki_xml.specs.Lettered.{AreOctets};

use rpki_common::Text;
use rpki_xml::{are_octets, is_trimmed};

/// Whether a text consists of octets that a document may have: the tab, the line feed, the carriage return and the printable ones of
/// ASCII.
pub fn is_plain(text: &str) -> bool
    ensures { IsTrue result ↔ AreOctets text.now }
{
    are_octets(text.as_bytes())
}

/// Whether a text consists of octets that a document may have, or is absent.
pub fn is_plain_or_absent(text: &Option<Text>) -> bool
    ensures { IsTrue result ↔ IfSome text.now AreOctets }
{
    match text {
        None => true,
        Some(text) => is_plain(text.as_str()),
    }
}

/// Whether a text has no outer white space, or is absent.
pub fn is_trimmed_or_absent(text: &Option<Text>) -> bool
    ensures { IsTrue result ↔ IfSome text.now (λ t. trimmed t ≡ t) }
{
    match text {
        None => true,
        Some(text) => is_trimmed(text.as_str().as_bytes()),
    }
}
