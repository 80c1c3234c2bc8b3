//! The answer to a request for revocation.

ghost use Rattle.std.specs.Prelude.{◌≡◌, IfOk};

use crate::key_element::KeyElement;
use crate::revocation_request::RevocationRequest;
use rpki_common::OutOfMemory;
use std::alloc::Global;
use std::marker::Model;

/// The certificates of a key in a resource class are revoked (RFC 6492, 3.5.2). In a clause it is the record of both.
#[derive(Debug, PartialEq, Eq)]
pub struct RevocationResponse {
    key: KeyElement,
}

impl Drop for RevocationResponse {
    fn drop(self) {
        let RevocationResponse { key } = self;
    }
}

impl Model for RevocationResponse {
    ghost use Rattle.rpki_updown.specs.KeyElement.{KeyElementFields};

    ghost Value = { KeyElementFields };

    ghost view = { λ r. r.key };

    ghost inverse = { λ e. record { key = e } };
}

impl RevocationResponse {
    /// The response for this key.
    pub fn new(key: KeyElement) -> RevocationResponse
        ensures { result ≡ key }
    {
        RevocationResponse { key }
    }

    /// The response that grants a request: with its resource class and its key, as the standard asks.
    pub fn from_request(
        alloc: Global,
        request: &RevocationRequest,
    ) -> Result<RevocationResponse, OutOfMemory>
        ensures { IfOk result (λ r. r ≡ request.now) }
    {
        Ok(RevocationResponse {
            key: request.key_element().clone(alloc)?,
        })
    }

    /// The resource class and the key.
    pub fn key_element(&self) -> &KeyElement
        ensures { result.now ≡ self.now }
    {
        &self.key
    }

    /// An equal response, whose text is shared with this one.
    pub fn clone(&self, alloc: Global) -> Result<RevocationResponse, OutOfMemory>
        ensures { IfOk result (λ r. r ≡ self.now) }
    {
        Ok(RevocationResponse {
            key: self.key.clone(alloc)?,
        })
    }
}
