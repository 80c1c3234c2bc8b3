use rpki_base::*;
use rpki_common::Text;
use rpki_text::uri::Rsync;
use rpki_text::{ChildHandle, Hash, Sender};
use std::collections::HashMap;
use std::hash;
use std::test::Fail;

// Whether a map with one key finds that key, and no other.
fn is_a_key<K: Eq + hash::Hash + Drop>(
    mut held: HashMap<K, u16>,
    key: K,
    again: &K,
    other: Option<&K>,
) -> Result<bool, Fail> {
    held.insert(key, 873)?;
    let is_found = held.get(again).copied() == Some(873);
    match other {
        Some(other) => Ok(is_found && held.get(other).is_none()),
        None => Ok(is_found),
    }
}

#[test]
fn a_text_is_a_key(rt: HostRuntime) -> Result<(), Fail> {
    let alloc = rt.alloc();
    let key = Text::from_str(alloc, "rsync")?;
    let other = Text::from_str(alloc, "https")?;
    let again = Text::from_str(alloc, "rsync")?;
    assert!(rt; is_a_key(HashMap::new(alloc), key, &again, Some(&other))?);
    Ok(())
}

#[test]
fn a_uri_is_a_key(rt: HostRuntime) -> Result<(), Fail> {
    let alloc = rt.alloc();
    let key = Rsync::from_str(alloc, "rsync://localhost/repo/")?;
    let again = key.clone(alloc)?;
    assert!(rt; is_a_key(HashMap::new(alloc), key, &again, None)?);
    Ok(())
}

#[test]
fn a_handle_is_a_key(rt: HostRuntime) -> Result<(), Fail> {
    let alloc = rt.alloc();
    let key = ChildHandle::from_str(alloc, "Carol")?;
    let again = key.clone(alloc)?;
    assert!(rt; is_a_key(HashMap::new(alloc), key, &again, None)?);
    Ok(())
}

#[test]
fn hashes_and_markers_are_keys(rt: HostRuntime) -> Result<(), Fail> {
    let alloc = rt.alloc();
    let hash = Hash::from_data(b"abc");
    let other = Hash::from_data(b"");
    assert!(rt; is_a_key(HashMap::new(alloc), hash, &hash, Some(&other))?);
    assert!(rt; is_a_key(HashMap::new(alloc), Sender, &Sender, None)?);
    Ok(())
}

#[test]
fn signatures_have_formats_of_keys(rt: HostRuntime) {
    let router = BgpsecSignatureAlgorithm.signing_algorithm();
    assert!(rt; router.public_key_format() == PublicKeyFormat::EcdsaP256);
    let default = RpkiSignatureAlgorithm::default().signing_algorithm();
    assert!(rt; default.public_key_format() == PublicKeyFormat::Rsa);
}
