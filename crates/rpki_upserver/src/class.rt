//! Resource classes.

ghost use Rattle.std.specs.Prelude.{◌≡◌, ◌↔◌, ◌<◌, [], true, length, position, IfErr, IfOk, IfSome, IsSome, IsTrue, OnErr, OnOk, Some, slice_get};
ghost use Rattle.hex.specs.Hex.{IsBytes};
ghost use Rattle.rpki_provisioning.specs.Writable.{IsWritableClass, IsWritableLimit};
ghost use Rattle.rpki_xml.specs.Lettered.{AreOctets};
ghost use Rattle.rpki_updown.specs.Entitlements.{IssuedFields, issuance};
ghost use Rattle.rpki_upserver.specs.Decision.{IsIssuedAt};
ghost use Rattle.rpki_upserver.specs.Issuer.{IsRevoked, IssuerFails};
ghost use Rattle.rpki_upserver.specs.Kept.{HasKeptRoom};
ghost use Rattle.rpki_upserver.specs.Response.{IsEmpty};
ghost use Rattle.rpki_upserver.specs.Table.{IsClassBase, IsSound, entitled, has_key, is_issued_in, is_revoked_in, key_of_issued};
ghost use Rattle.rpki_upserver.specs.Table.{new_class, place_of, put as put_in, with_revoked};

use crate::certified::Certified;
use crate::issuer::{Issuer, IssuerError};
use crate::kept::Kept;
use crate::lawful::join;
use crate::writable::are_octets;
use rpki_base::{KeyIdentifier, Time};
use rpki_common::OutOfMemory;
use rpki_sets::ResourceSet;
use rpki_text::uri::Rsync;
use rpki_updown::{
    IssuanceRequest, IssuanceResponse, IssuedCert, ResourceClassEntitlements, ResourceClassName,
    SigningCert,
};
use std::alloc::Global;
use std::marker::Model;

/// The most octets of the URI of a class's directory.
const MOST_OCTETS: usize = 65000;

/// A resource class in which a parent issues certificates to its child (RFC 6492, 3.3.2). In a clause it is the record of its name, the
/// child's resources in it until when, the URI of the directory in which its certificates are published, the certificate of the issuing
/// key, the certificates that were issued, and the identifiers of the keys that were revoked.
pub struct Class {
    name: ResourceClassName,
    set: ResourceSet,
    not_after: Time,
    base: Rsync,
    signing: SigningCert,
    issued: Kept<Certified>,
    revoked: Kept<KeyIdentifier>,
}

impl Drop for Class {
    fn drop(self) {
        let Class {
            name,
            set,
            not_after,
            base,
            signing,
            issued,
            revoked,
        } = self;
    }
}

impl Model for Class {
    ghost use Rattle.rpki_upserver.specs.Table.{ClassState, IsClassBase, IsSound};

    ghost Value = { ClassState };

    ghost view = { λ c. record {
      class_name = c.name;
      resource_set = c.set;
      not_after = c.not_after;
      base = c.base;
      signing_cert = c.signing;
      issued_certs = c.issued.items;
      revoked = c.revoked.items;
    } };

    ghost invariant = { λ c. IsClassBase c.base
        × IsSound c.set c.not_after c.signing c.issued.items };
}

// For the proof: what holds of these parts by their types.
fn are_sound(set: &ResourceSet, not_after: Time, signing: &SigningCert)
    ensures { IsSound set.now not_after signing.now [] }
{
    let _asn = set.asn().runs();
    let _ipv4 = set.ipv4().runs();
    let _ipv6 = set.ipv6().runs();
    let _seconds = not_after.seconds();
    let _url = signing.url().as_str();
    let _cert = signing.cert().as_slice();
}

// For the proof: each octet is below 256.
fn are_bytes(octets: &[u8])
    ensures { IsBytes octets.now }
{}

/// # Making
impl Class {
    /// A class of this name, in which nothing was issued and nothing revoked: the child has these resources in it until this time,
    /// certificates are published in the directory `base`, and `signing` is the certificate of the key under which they are issued.
    /// None exactly where `base` is no directory, or has more than 65000 octets. It takes no memory.
    pub fn new(
        name: ResourceClassName,
        set: ResourceSet,
        not_after: Time,
        base: Rsync,
        signing: SigningCert,
    ) -> Option<Class>
        ensures some { IsSome result ↔ IsClassBase base }
        ensures value { IfSome result (λ c. c ≡ new_class name set not_after base signing) }
    {
        if !base.path_is_dir() || base.as_str().len() > MOST_OCTETS {
            return None;
        }
        // For the proof: what holds of these parts by their types.
        are_sound(&set, not_after, &signing);
        Some(Class {
            name,
            set,
            not_after,
            base,
            signing,
            issued: Kept::new(),
            revoked: Kept::new(),
        })
    }
}

/// # Data access
impl Class {
    /// The name.
    pub fn name(&self) -> &ResourceClassName
        ensures { result.now ≡ self.now.class_name }
    {
        &self.name
    }

    /// The child's resources.
    pub fn resource_set(&self) -> &ResourceSet
        ensures { result.now ≡ self.now.resource_set }
    {
        &self.set
    }

    /// Until when the child has them.
    pub fn not_after(&self) -> Time
        ensures { result ≡ self.now.not_after }
    {
        self.not_after
    }

    /// Whether the name can be written so that it is read again; then all that is told of the class can.
    pub(crate) fn is_writable(&self) -> bool
        ensures name { IsTrue result ↔ AreOctets self.now.class_name }
        ensures class { IsTrue result → IsWritableClass (entitled self.now) }
    {
        are_octets(self.name.as_str())
    }

    /// Whether the child has no resources.
    pub fn is_empty(&self) -> bool
        ensures { IsTrue result ↔ IsEmpty self.now.resource_set }
    {
        self.set.asn().runs().is_empty()
            && self.set.ipv4().runs().is_empty()
            && self.set.ipv6().runs().is_empty()
    }

    /// Whether a certificate of the key with this identifier was issued, and is not revoked.
    pub fn has_issued(&self, key: KeyIdentifier) -> bool
        ensures { result ≡ is_issued_in key self.now }
    {
        self.issued
            .as_slice()
            .iter()
            .any(|issued| issued.key() == key)
    }

    /// Whether the key with this identifier was revoked.
    pub fn has_revoked(&self, key: KeyIdentifier) -> bool
        ensures { result ≡ is_revoked_in key self.now }
    {
        self.revoked
            .as_slice()
            .iter()
            .any(|revoked| *revoked == key)
    }

    /// The place of the first certificate of the key with this identifier.
    pub(crate) fn place_of(&self, key: KeyIdentifier) -> Option<usize>
        ensures place { result ≡ position (has_key key) self.now.issued_certs }
        ensures issued { IsSome result ↔ (is_issued_in key self.now ≡ true) }
    {
        place_among(&self.issued, key)
    }

    /// Where a certificate of the key with this identifier is published.
    pub fn uri_of(&self, alloc: Global, key: KeyIdentifier) -> Result<Rsync, OutOfMemory>
        ensures { IfOk result (λ uri. uri ≡ place_of self.now.base key) }
    {
        // For the proof: the directory's URI is lawful, and the identifier has twenty octets.
        let _base = self.base.as_str();
        are_bytes(key.as_slice());
        let name = format!(in alloc; "{key}.cer")?;
        // A directory of at most 65000 octets with such a name behind it is lawful.
        join(alloc, &self.base, name.as_bytes())
    }
}

/// # What the child is told
impl Class {
    // Equal certificates.
    fn issued_certs(&self, alloc: Global) -> Result<Vec<IssuedCert>, OutOfMemory>
        ensures { IfOk result (λ certs. certs.items ≡ self.now.issued_certs) }
    {
        let issued = self.issued.as_slice();
        let mut certs = Vec::with_capacity(alloc, issued.len())?;
        for certified in issued {
            certs.push(certified.issued().clone(alloc)?)?;
        }
        Ok(certs)
    }

    /// What the child is told of the class, all its certificates among it (RFC 6492, 3.3.2).
    pub fn entitlements(&self, alloc: Global) -> Result<ResourceClassEntitlements, OutOfMemory>
        ensures { IfOk result (λ told. told ≡ entitled self.now) }
    {
        let name = self.name.clone(alloc)?;
        let set = self.set.clone(alloc)?;
        let certs = self.issued_certs(alloc)?;
        let signing = self.signing.clone(alloc)?;
        Ok(ResourceClassEntitlements::new(name, set, self.not_after, certs, signing))
    }

    /// What the child is told of the class with the one certificate at this place (RFC 6492, 3.4.2).
    pub(crate) fn issuance(
        &self,
        alloc: Global,
        place: usize,
    ) -> Result<IssuanceResponse, OutOfMemory>
        requires { place < length self.now.issued_certs }
        ensures { IfOk result (λ told. (issued : IssuedFields)
            → slice_get self.now.issued_certs place ≡ Some issued
            → told ≡ issuance (entitled self.now) issued) }
    {
        let name = self.name.clone(alloc)?;
        let set = self.set.clone(alloc)?;
        let cert = self.issued.as_slice()[place].issued().clone(alloc)?;
        let signing = self.signing.clone(alloc)?;
        Ok(IssuanceResponse::new(name, set, self.not_after, cert, signing))
    }
}

// Makes room for a certificate of the key, unless one is there.
fn make_room_for(
    held: &mut Kept<Certified>,
    alloc: Global,
    key: KeyIdentifier,
) -> Result<(), OutOfMemory>
    ensures items { held.new.items ≡ held.old.items }
    ensures room { OnOk result (HasKeptRoom held.new key) }
{
    if place_among(held, key).is_none() {
        held.make_room(alloc)?;
    }
    Ok(())
}

// The place of the first certificate of the key.
fn place_among(held: &Kept<Certified>, key: KeyIdentifier) -> Option<usize>
    ensures place { result ≡ position (has_key key) held.now.items }
    ensures within { IfSome result (λ place. place < length held.now.items) }
{
    held.as_slice()
        .iter()
        .position(|issued| issued.key() == key)
}

// Puts a certificate in the place of that of the same key, or else last, where there is room. It
// answers the place.
fn put(held: &mut Kept<Certified>, issued: IssuedCert) -> usize
    requires { HasKeptRoom held.old (key_of_issued issued) }
    ensures items { held.new.items ≡ put_in held.old.items issued }
    ensures place { slice_get held.new.items result ≡ Some issued }
{
    let issued = Certified::new(issued);
    match place_among(held, issued.key()) {
        Some(place) => {
            held.replace(place, issued);
            place
        }
        None => {
            let place = held.as_slice().len();
            held.push(issued);
            place
        }
    }
}

/// # Changes. All that takes memory comes before the issuer is called.
impl Class {
    /// Lets the issuer issue a certificate on the request, for these resources, and keeps it. It answers its place. Whatever the error, the
    /// class is as before.
    pub(crate) fn issue<N: Issuer>(
        &mut self,
        alloc: Global,
        request: &IssuanceRequest,
        set: &ResourceSet,
        issuer: &mut N,
    ) -> Result<usize, IssuerError>
        requires { IsWritableLimit request.now.limit }
        ensures ok { IfOk result (IsIssuedAt self.old request.now set.now (N.state issuer.old)
            (N.state issuer.new) self.new) }
        ensures err { IfErr result (IssuerFails (N.state issuer.old) (N.state issuer.new)) }
        ensures err_class { OnErr result (self.new ≡ self.old) }
        ensures writable { IsWritableClass (entitled self.old)
            → IsWritableClass (entitled self.new) }
    {
        let key = request.csr().public_key().key_identifier();
        let uri = self.uri_of(alloc, key)?;
        // For the proof: the URI is lawful, by its type.
        let _uri = uri.as_str();
        let limit = request.limit().clone(alloc)?;
        make_room_for(&mut self.issued, alloc, key)?;
        let cert = issuer.issue(alloc, &self.name, request.csr(), set, self.not_after)?;
        // For the proof: the certificate was read in DER, by its type.
        let _cert = cert.as_slice();
        Ok(put(&mut self.issued, IssuedCert::new(uri, limit, cert)))
    }

    /// Lets the issuer revoke the certificate of the key, which stands at this place, and takes it out. Whatever the error, the class is
    /// as before.
    pub(crate) fn revoke<N: Issuer>(
        &mut self,
        alloc: Global,
        place: usize,
        key: KeyIdentifier,
        issuer: &mut N,
    ) -> Result<(), IssuerError>
        requires place { position (has_key key) self.old.issued_certs ≡ Some place }
        ensures ok { OnOk result (IsRevoked self.old.class_name key (N.state issuer.old)
            (N.state issuer.new) × (self.new ≡ with_revoked key self.old)) }
        ensures err { IfErr result (IssuerFails (N.state issuer.old) (N.state issuer.new)) }
        ensures err_class { OnErr result (self.new ≡ self.old) }
        ensures writable { IsWritableClass (entitled self.old)
            → IsWritableClass (entitled self.new) }
    {
        self.revoked.make_room(alloc)?;
        issuer.revoke(&self.name, key)?;
        self.issued.remove(place);
        self.revoked.push(key);
        Ok(())
    }
}
