//! The certificate of the issuing key.

ghost use Rattle.std.specs.Prelude.{◌≡◌, IfOk};

use rpki_cert::Cert;
use rpki_common::OutOfMemory;
use rpki_text::uri::Rsync;
use std::alloc::Global;
use std::marker::Model;

/// The certificate of the key by which a parent issues certificates in a class: where it is published, and itself (RFC 6492, 3.3.2). In a
/// clause it is the record of its fields.
#[derive(PartialEq, Eq)]
pub struct SigningCert {
    url: Rsync,
    cert: Cert,
}

impl Drop for SigningCert {
    fn drop(self) {
        let SigningCert { url, cert } = self;
    }
}

impl Model for SigningCert {
    ghost use Rattle.rpki_updown.specs.Entitlements.{SigningFields};

    ghost Value = { SigningFields };

    ghost view = { λ c. record { url = c.url; cert = c.cert } };

    ghost inverse = { λ c. record { url = c.url; cert = c.cert } };
}

impl SigningCert {
    /// A certificate that is published here.
    pub fn new(url: Rsync, cert: Cert) -> SigningCert
        ensures { result ≡ record { url = url; cert = cert } }
    {
        SigningCert { url, cert }
    }

    /// Where it is published.
    pub fn url(&self) -> &Rsync
        ensures { result.now ≡ self.now.url }
    {
        &self.url
    }

    /// The certificate.
    pub fn cert(&self) -> &Cert
        ensures { result.now ≡ self.now.cert }
    {
        &self.cert
    }

    /// An equal one, which shares its octets with this one.
    pub fn clone(&self, alloc: Global) -> Result<SigningCert, OutOfMemory>
        ensures { IfOk result (λ c. c ≡ self.now) }
    {
        Ok(SigningCert {
            url: self.url.clone(alloc)?,
            cert: self.cert.clone(alloc)?,
        })
    }
}
