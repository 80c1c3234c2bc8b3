//! Certificates that were issued.

ghost use Rattle.std.specs.Prelude.{◌≡◌, IfOk};

use crate::request_resource_limit::RequestResourceLimit;
use rpki_cert::Cert;
use rpki_common::OutOfMemory;
use rpki_text::uri::Rsync;
use std::alloc::Global;
use std::marker::Model;

/// A certificate that was issued to a client: where it is published, what was asked for it, and itself (RFC 6492, 3.3.2). In a clause it is
/// the record of its fields.
#[derive(PartialEq, Eq)]
pub struct IssuedCert {
    uri: Rsync,
    req_limit: RequestResourceLimit,
    cert: Cert,
}

// By hand, so that whoever lets one go calls this, and its parts are not spelled out there.
impl Drop for IssuedCert {
    fn drop(self) {
        let IssuedCert {
            uri,
            req_limit,
            cert,
        } = self;
    }
}

impl Model for IssuedCert {
    ghost use Rattle.rpki_updown.specs.Entitlements.{IssuedFields};

    ghost Value = { IssuedFields };

    ghost view = { λ c. record { uri = c.uri; req_limit = c.req_limit; cert = c.cert } };

    ghost inverse = { λ c. record { uri = c.uri; req_limit = c.req_limit; cert = c.cert } };
}

impl IssuedCert {
    /// A certificate that is published here, for which this much was asked.
    pub fn new(uri: Rsync, req_limit: RequestResourceLimit, cert: Cert) -> IssuedCert
        ensures { result ≡ record { uri = uri; req_limit = req_limit; cert = cert } }
    {
        IssuedCert {
            uri,
            req_limit,
            cert,
        }
    }

    /// Where it is published.
    pub fn uri(&self) -> &Rsync
        ensures { result.now ≡ self.now.uri }
    {
        &self.uri
    }

    /// What was asked for it.
    pub fn req_limit(&self) -> &RequestResourceLimit
        ensures { result.now ≡ self.now.req_limit }
    {
        &self.req_limit
    }

    /// The certificate.
    pub fn cert(&self) -> &Cert
        ensures { result.now ≡ self.now.cert }
    {
        &self.cert
    }

    /// The three, as `new` took them.
    pub fn unpack(self) -> (Rsync, RequestResourceLimit, Cert)
        ensures uri { result.0 ≡ self.uri }
        ensures limit { result.1 ≡ self.req_limit }
        ensures cert { result.2 ≡ self.cert }
    {
        let IssuedCert {
            uri,
            req_limit,
            cert,
        } = self;
        (uri, req_limit, cert)
    }

    /// An equal one, which shares its octets with this one.
    pub fn clone(&self, alloc: Global) -> Result<IssuedCert, OutOfMemory>
        ensures { IfOk result (λ c. c ≡ self.now) }
    {
        Ok(IssuedCert {
            uri: self.uri.clone(alloc)?,
            req_limit: self.req_limit.clone(alloc)?,
            cert: self.cert.clone(alloc)?,
        })
    }
}
