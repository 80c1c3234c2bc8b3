//! What is known of objects.

ghost use Rattle.std.specs.Prelude.{◌≡◌};
ghost use Rattle.std.specs.Option.{option_map};

use rpki_text::{Hash, uri};
use std::marker::Model;

/// What is known of the object at a URI: its SHA-256, or that there is none.
///
/// In a clause it is the pair of the URI's text and the digest, if there is one.
pub struct Known {
    uri: uri::Rsync,
    hash: Option<Hash>,
}

impl Drop for Known {
    fn drop(self) {
        let Known { uri, hash } = self;
    }
}

impl Model for Known {
    ghost use Rattle.std.specs.Prelude.{List, Option, ℕ};

    ghost Value = { List ℕ × Option (List ℕ) };

    ghost view = { λ k. (k.uri, k.hash) };
}

impl Known {
    /// At this URI is an object with this SHA-256, or none.
    pub fn new(uri: uri::Rsync, hash: Option<Hash>) -> Known
        ensures { result ≡ (uri, hash) }
    {
        Known { uri, hash }
    }

    /// Where the object is, or would be.
    pub fn uri(&self) -> &uri::Rsync
        ensures { result.now ≡ self.now.0 }
    {
        &self.uri
    }

    /// Its SHA-256.
    pub fn hash(&self) -> Option<&Hash>
        ensures { option_map (λ h. h.now) result ≡ self.now.1 }
    {
        self.hash.as_ref()
    }
}
