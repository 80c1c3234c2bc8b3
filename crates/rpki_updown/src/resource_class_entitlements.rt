//! What a client is entitled to in a resource class.

ghost use Rattle.std.specs.Prelude.{◌≡◌, ◌<◌, Decides, IfOk, IfSome, IfNone, MatchOption, take, length, slice_get, Some};
ghost use Rattle.rpki_updown.specs.Entitlements.{IssuedFields, NoneHas, IsFirstWith, IsIssuanceFor};

use crate::issuance_response::IssuanceResponse;
use crate::issued_cert::IssuedCert;
use crate::resource_class_name::ResourceClassName;
use crate::signing_cert::SigningCert;
use rpki_base::{PublicKey, Time};
use rpki_common::{OutOfMemory, Sequence};
use rpki_sets::ResourceSet;
use std::alloc::Global;
use std::marker::Model;

/// What a client is entitled to in a resource class (RFC 6492, 3.3.2): its resources until when, the certificates that were issued to it,
/// and that of the issuing key. In a clause it is the record of its fields.
#[derive(PartialEq, Eq)]
pub struct ResourceClassEntitlements {
    class_name: ResourceClassName,
    resource_set: ResourceSet,
    not_after: Time,
    issued_certs: Sequence<IssuedCert>,
    signing_cert: SigningCert,
}

// By hand, so that whoever lets one go calls this, and its parts are not spelled out there.
impl Drop for ResourceClassEntitlements {
    fn drop(self) {
        let ResourceClassEntitlements {
            class_name,
            resource_set,
            not_after,
            issued_certs,
            signing_cert,
        } = self;
    }
}

impl Model for ResourceClassEntitlements {
    ghost use Rattle.rpki_updown.specs.Entitlements.{ClassFields};

    ghost Value = { ClassFields };

    ghost view = { λ r. record {
      class_name = r.class_name;
      resource_set = r.resource_set;
      not_after = r.not_after;
      issued_certs = r.issued_certs;
      signing_cert = r.signing_cert;
    } };

    ghost inverse = { λ r. record {
      class_name = r.class_name;
      resource_set = r.resource_set;
      not_after = r.not_after;
      issued_certs = r.issued_certs;
      signing_cert = r.signing_cert;
    } };
}

impl ResourceClassEntitlements {
    /// The class of these parts.
    pub fn new(
        class_name: ResourceClassName,
        resource_set: ResourceSet,
        not_after: Time,
        issued_certs: Vec<IssuedCert>,
        signing_cert: SigningCert,
    ) -> ResourceClassEntitlements
        ensures { result ≡ record {
          class_name = class_name;
          resource_set = resource_set;
          not_after = not_after;
          issued_certs = issued_certs.items;
          signing_cert = signing_cert;
        } }
    {
        ResourceClassEntitlements {
            class_name,
            resource_set,
            not_after,
            issued_certs: Sequence::from_vec(issued_certs),
            signing_cert,
        }
    }

    /// The name of the class.
    pub fn class_name(&self) -> &ResourceClassName
        ensures { result.now ≡ self.now.class_name }
    {
        &self.class_name
    }

    /// The client's resources in the class.
    pub fn resource_set(&self) -> &ResourceSet
        ensures { result.now ≡ self.now.resource_set }
    {
        &self.resource_set
    }

    /// Until when the client has them.
    pub fn not_after(&self) -> Time
        ensures { result ≡ self.now.not_after }
    {
        self.not_after
    }

    /// The certificates that were issued to the client, in their order.
    pub fn issued_certs(&self) -> &[IssuedCert]
        ensures { result.now ≡ self.now.issued_certs }
    {
        self.issued_certs.as_slice()
    }

    /// The certificate of the issuing key.
    pub fn signing_cert(&self) -> &SigningCert
        ensures { result.now ≡ self.now.signing_cert }
    {
        &self.signing_cert
    }

    /// The answer to a request for a certificate for this key: with the first issued certificate that has it; None exactly where none has.
    pub fn into_issuance_response(self, key: &PublicKey) -> Option<IssuanceResponse>
        ensures { MatchOption result (NoneHas key.now self.issued_certs)
            (IsIssuanceFor key.now self) }
    {
        let ResourceClassEntitlements {
            class_name,
            resource_set,
            not_after,
            issued_certs,
            signing_cert,
        } = self;
        let issued_cert = first_with(issued_certs, key)?;
        Some(IssuanceResponse::new(
            class_name,
            resource_set,
            not_after,
            issued_cert,
            signing_cert,
        ))
    }

    /// An equal class, which shares its octets with this one.
    pub fn clone(&self, alloc: Global) -> Result<ResourceClassEntitlements, OutOfMemory>
        ensures { IfOk result (λ r. r ≡ self.now) }
    {
        let class_name = self.class_name.clone(alloc)?;
        let resource_set = self.resource_set.clone(alloc)?;
        let issued_certs = Sequence::from_vec(copied(alloc, self.issued_certs())?);
        let signing_cert = self.signing_cert.clone(alloc)?;
        Ok(ResourceClassEntitlements {
            class_name,
            resource_set,
            not_after: self.not_after,
            issued_certs,
            signing_cert,
        })
    }
}

// Equal certificates.
fn copied(alloc: Global, certs: &[IssuedCert]) -> Result<Vec<IssuedCert>, OutOfMemory>
    ensures { IfOk result (λ v. v.items ≡ certs.now) }
{
    let mut copies = Vec::with_capacity(alloc, certs.len())?;
    for cert in certs {
        copies.push(cert.clone(alloc)?)?;
    }
    Ok(copies)
}

// Whether a certificate has this key.
fn has_key(cert: &IssuedCert, key: &PublicKey) -> bool
    ensures { Decides result (cert.now.cert.key ≡ key.now) }
{
    cert.cert().subject_public_key_info() == key
}

// The place of the first certificate that has this key.
fn place_of(certs: &[IssuedCert], key: &PublicKey) -> Option<usize>
    ensures found { IfSome result (λ place. (c : IssuedFields) → slice_get certs.now place ≡ Some c
        → (c.cert.key ≡ key.now) × NoneHas key.now (take place certs.now)) }
    ensures within { IfSome result (λ place. place < length certs.now) }
    ensures none { IfNone result (NoneHas key.now certs.now) }
{
    let mut place = 0;
    for cert in certs {
        if has_key(cert, key) {
            return Some(place);
        }
        place += 1;
    }
    None
}

// The first certificate that has this key.
fn first_with(certs: Sequence<IssuedCert>, key: &PublicKey) -> Option<IssuedCert>
    ensures { MatchOption result (NoneHas key.now certs) (IsFirstWith key.now certs) }
{
    let place = place_of(certs.as_slice(), key)?;
    let mut certs = certs.into_vec();
    Some(certs.swap_remove(place))
}
