//! A certificate beside its key's identifier.

ghost use Rattle.std.specs.Prelude.{◌≡◌};
ghost use Rattle.rpki_upserver.specs.Table.{key_of_issued};

use rpki_base::KeyIdentifier;
use rpki_updown::IssuedCert;
use std::marker::Model;

/// A certificate that was issued, with the identifier of its key, so that a search makes no digests. In a clause it is the certificate.
#[derive(Drop)]
pub(crate) struct Certified {
    key: KeyIdentifier,
    issued: IssuedCert,
}

impl Model for Certified {
    ghost use Rattle.std.specs.Prelude.{◌≡◌};
    ghost use Rattle.rpki_updown.specs.Entitlements.{IssuedFields};
    ghost use Rattle.rpki_upserver.specs.Table.{key_of_issued};

    ghost Value = { IssuedFields };

    ghost view = { λ c. c.issued };

    ghost invariant = { λ c. c.key ≡ key_of_issued c.issued };
}

impl Certified {
    /// The certificate.
    pub(crate) fn new(issued: IssuedCert) -> Certified
        ensures { result ≡ issued }
    {
        Certified {
            key: issued.cert().subject_public_key_info().key_identifier(),
            issued,
        }
    }

    /// The identifier of its key.
    pub(crate) fn key(&self) -> KeyIdentifier
        ensures { result ≡ key_of_issued self.now }
    {
        self.key
    }

    /// The certificate.
    pub(crate) fn issued(&self) -> &IssuedCert
        ensures { result.now ≡ self.now }
    {
        &self.issued
    }
}
