//! Where each key stands in a list.

ghost use Rattle.std.specs.Prelude.{◌≡◌, if◌then◌else◌, None, OnErr, OnOk, Some};
ghost use Rattle.rpki_base.specs.PublicKey.{KeyFields};
ghost use Rattle.rpki_replay.specs.Places.{place_at};
ghost use Rattle.rpki_ca.specs.Keys.{same_key};

use rpki_base::{PublicKey, PublicKeyFormat};
use rpki_common::OutOfMemory;
use std::alloc::Global;
use std::collections::BTreeMap;

/// A place for each key of some, by the octets of the key's bits. A look-up takes no memory, and with n
/// keys log n comparisons.
pub(crate) struct Places {
    rsa: BTreeMap<Vec<u8>, usize>,
    elliptic: BTreeMap<Vec<u8>, usize>,
}

impl Drop for Places {
    fn drop(self) {
        let Places { rsa, elliptic } = self;
    }
}

impl Places {
    /// No places.
    pub(crate) fn new(alloc: Global) -> Places
        ensures { (key : KeyFields) → place_at result key ≡ None }
    {
        Places {
            rsa: BTreeMap::new(alloc),
            elliptic: BTreeMap::new(alloc),
        }
    }

    /// The place of a key.
    pub(crate) fn get(&self, key: &PublicKey) -> Option<usize>
        ensures { result ≡ place_at self.now key.now }
    {
        let bits = key.bits_bytes().as_slice();
        match key.format() {
            PublicKeyFormat::Rsa => self.rsa.get(bits).copied(),
            PublicKeyFormat::EcdsaP256 => self.elliptic.get(bits).copied(),
        }
    }

    /// Says where a key stands. After a refusal all places are as before.
    pub(crate) fn insert(
        &mut self,
        alloc: Global,
        key: &PublicKey,
        place: usize,
    ) -> Result<(), OutOfMemory>
        ensures ok { OnOk result ((other : KeyFields) → place_at self.new other
            ≡ (if same_key key.now other then Some place else place_at self.old other)) }
        ensures err { OnErr result ((other : KeyFields) →
            place_at self.new other ≡ place_at self.old other) }
    {
        let bits = Vec::from_slice(alloc, key.bits_bytes().as_slice())?;
        match key.format() {
            PublicKeyFormat::Rsa => self.rsa.insert(bits, place)?,
            PublicKeyFormat::EcdsaP256 => self.elliptic.insert(bits, place)?,
        };
        Ok(())
    }
}
