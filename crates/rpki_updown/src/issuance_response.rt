//! The certificate that was asked for.

ghost use Rattle.std.specs.Prelude.{◌≡◌, IfOk};

use crate::issued_cert::IssuedCert;
use crate::resource_class_name::ResourceClassName;
use crate::signing_cert::SigningCert;
use rpki_base::Time;
use rpki_common::OutOfMemory;
use rpki_sets::ResourceSet;
use std::alloc::Global;
use std::marker::Model;

/// The answer to a request for a certificate (RFC 6492, 3.4.2): the class, the client's resources in it until when, the certificate, and
/// that of the issuing key. In a clause it is the record of its fields.
#[derive(PartialEq, Eq)]
pub struct IssuanceResponse {
    class_name: ResourceClassName,
    resource_set: ResourceSet,
    not_after: Time,
    issued_cert: IssuedCert,
    signing_cert: SigningCert,
}

// By hand, so that whoever lets one go calls this, and its parts are not spelled out there.
impl Drop for IssuanceResponse {
    fn drop(self) {
        let IssuanceResponse {
            class_name,
            resource_set,
            not_after,
            issued_cert,
            signing_cert,
        } = self;
    }
}

impl Model for IssuanceResponse {
    ghost use Rattle.rpki_updown.specs.Entitlements.{IssuanceFields};

    ghost Value = { IssuanceFields };

    ghost view = { λ r. record {
      class_name = r.class_name;
      resource_set = r.resource_set;
      not_after = r.not_after;
      issued_cert = r.issued_cert;
      signing_cert = r.signing_cert;
    } };

    ghost inverse = { λ r. record {
      class_name = r.class_name;
      resource_set = r.resource_set;
      not_after = r.not_after;
      issued_cert = r.issued_cert;
      signing_cert = r.signing_cert;
    } };
}

impl IssuanceResponse {
    /// The answer of these parts.
    pub fn new(
        class_name: ResourceClassName,
        resource_set: ResourceSet,
        not_after: Time,
        issued_cert: IssuedCert,
        signing_cert: SigningCert,
    ) -> IssuanceResponse
        ensures { result ≡ record {
          class_name = class_name;
          resource_set = resource_set;
          not_after = not_after;
          issued_cert = issued_cert;
          signing_cert = signing_cert;
        } }
    {
        IssuanceResponse {
            class_name,
            resource_set,
            not_after,
            issued_cert,
            signing_cert,
        }
    }

    /// The name of the class.
    pub fn class_name(&self) -> &ResourceClassName
        ensures { result.now ≡ self.now.class_name }
    {
        &self.class_name
    }

    /// The client's resources in the class.
    pub fn resource_set(&self) -> &ResourceSet
        ensures { result.now ≡ self.now.resource_set }
    {
        &self.resource_set
    }

    /// Until when the client has them.
    pub fn not_after(&self) -> Time
        ensures { result ≡ self.now.not_after }
    {
        self.not_after
    }

    /// The certificate.
    pub fn issued_cert(&self) -> &IssuedCert
        ensures { result.now ≡ self.now.issued_cert }
    {
        &self.issued_cert
    }

    /// The certificate of the issuing key.
    pub fn signing_cert(&self) -> &SigningCert
        ensures { result.now ≡ self.now.signing_cert }
    {
        &self.signing_cert
    }

    /// The certificate, handed out.
    pub fn into_issued(self) -> IssuedCert
        ensures { result ≡ self.issued_cert }
    {
        let IssuanceResponse {
            class_name: _,
            resource_set: _,
            not_after: _,
            issued_cert,
            signing_cert: _,
        } = self;
        issued_cert
    }

    /// An equal answer, which shares its octets with this one.
    pub fn clone(&self, alloc: Global) -> Result<IssuanceResponse, OutOfMemory>
        ensures { IfOk result (λ r. r ≡ self.now) }
    {
        Ok(IssuanceResponse {
            class_name: self.class_name.clone(alloc)?,
            resource_set: self.resource_set.clone(alloc)?,
            not_after: self.not_after,
            issued_cert: self.issued_cert.clone(alloc)?,
            signing_cert: self.signing_cert.clone(alloc)?,
        })
    }
}
