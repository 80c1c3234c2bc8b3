//! Key identifiers as messages spell them.

ghost use Rattle.std.specs.Prelude.{ℕ, List, ◌≡◌, ◌≤◌, length, IfOk, IfSome, IfNone, Some, string_bytes};
ghost use Rattle.base64.specs.Engines.{url_safe, url_safe_no_pad};
ghost use Rattle.base64.specs.GeneralPurpose.{encode_of, decoded_of, IsBytes};
ghost use Rattle.rpki_text.specs.KeyIdentifier.{IsKeyIdentifierText, twenty, key_identifier_of_text};

use base64::engine::general_purpose::{GeneralPurpose, URL_SAFE, URL_SAFE_NO_PAD};
use rpki_common::OutOfMemory;
use std::alloc::Global;

/// The most octets of a text that spells a key identifier.
const MOST_OCTETS: usize = 28;

/// The 20 octets that `text` spells in the URL-safe alphabet (RFC 4648, section 5), with its
/// padding or without, and `None` where it spells no 20 octets. It takes no memory.
pub fn read_key_identifier(text: &str) -> Option<[u8; 20]>
    ensures octets { result ≡ key_identifier_of_text text.now }
    ensures spelled { IfSome result (λ octets. IsKeyIdentifierText text.now octets) }
    ensures none { IfNone result ((octets : List ℕ) → ¬ (IsKeyIdentifierText text.now octets)) }
{
    let octets = text.as_bytes();
    if octets.len() > MOST_OCTETS {
        return None;
    }
    match unpadded_octets(octets) {
        Some(found) => Some(found),
        None => padded_octets(octets),
    }
}

/// The text of a key identifier in the URL-safe alphabet, without padding.
pub fn key_identifier_text(alloc: Global, octets: &[u8; 20]) -> Result<String, OutOfMemory>
    ensures text { IfOk result (λ s. string_bytes s ≡ encode_of url_safe_no_pad octets.now) }
    ensures again { IfOk result (λ s. key_identifier_of_text (string_bytes s) ≡ Some octets.now) }
{
    Ok(URL_SAFE_NO_PAD.encode(alloc, octets)?)
}

/// The octets that `text` spells without padding, if they are 20.
fn unpadded_octets(text: &[u8]) -> Option<[u8; 20]>
    requires { length text.now ≤ 28 }
    ensures octets { result ≡ twenty (decoded_of url_safe_no_pad text.now) }
    ensures bytes { IfSome result (λ octets. IsBytes octets) }
{
    twenty_octets(&URL_SAFE_NO_PAD, text)
}

/// The octets that `text` spells with its padding, if they are 20.
fn padded_octets(text: &[u8]) -> Option<[u8; 20]>
    requires { length text.now ≤ 28 }
    ensures octets { result ≡ twenty (decoded_of url_safe text.now) }
    ensures bytes { IfSome result (λ octets. IsBytes octets) }
{
    twenty_octets(&URL_SAFE, text)
}

/// The octets that `text` spells under `engine`, if they are 20.
fn twenty_octets(engine: &GeneralPurpose, text: &[u8]) -> Option<[u8; 20]>
    requires { length text.now ≤ 28 }
    ensures octets { result ≡ twenty (decoded_of engine.now text.now) }
    ensures bytes { IfSome result (λ octets. IsBytes octets) }
{
    let mut room = [0u8; 21];
    let Ok(count) = engine.decode_slice(text, &mut room) else {
        return None;
    };
    if count != 20 {
        return None;
    }
    let mut octets = [0u8; 20];
    octets.copy_from_slice(&room[..20]);
    Some(octets)
}
