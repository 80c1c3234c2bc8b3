//! A request for a certificate.

ghost use Rattle.std.specs.Prelude.{◌≡◌, ◌↔◌, Some, IsTrue, IfOk};
ghost use Rattle.std.specs.Option.{option_copied};
ghost use Rattle.rpki_base.specs.RpkiSignatureAlgorithm.{spelled_x509};
ghost use Rattle.rpki_base.specs.SignedData.{spelled_data};
ghost use Rattle.rpki_updown.specs.IssuanceRequest.{or_none, asked_text, places_text, issuance_request_text};
ghost use Rattle.std.specs.Fmt.{WritesOnOk};

use crate::request_resource_limit::RequestResourceLimit;
use crate::resource_class_name::ResourceClassName;
use rpki_base::KeyIdentifier;
use rpki_cert::RpkiCaCsr;
use rpki_common::OutOfMemory;
use rpki_text::uri::{Uri, UriKind};
use std::alloc::Global;
use std::fmt;
use std::marker::Model;

/// Asks for a certificate in a resource class, for no more than a limit (RFC 6492, 3.4.1). In a clause it is the record of its fields.
pub struct IssuanceRequest {
    class_name: ResourceClassName,
    limit: RequestResourceLimit,
    csr: RpkiCaCsr,
}

// By hand, so that whoever lets one go calls this, and its parts are not spelled out there.
impl Drop for IssuanceRequest {
    fn drop(self) {
        let IssuanceRequest {
            class_name,
            limit,
            csr,
        } = self;
    }
}

impl Model for IssuanceRequest {
    ghost use Rattle.rpki_updown.specs.Entitlements.{IssuanceRequestFields};

    ghost Value = { IssuanceRequestFields };

    ghost view = { λ r. record { class_name = r.class_name; limit = r.limit; csr = r.csr } };
}

impl IssuanceRequest {
    /// Asks for this class, this limit, and a certificate for the key of this request.
    pub fn new(
        class_name: ResourceClassName,
        limit: RequestResourceLimit,
        csr: RpkiCaCsr,
    ) -> IssuanceRequest
        ensures { result ≡ record { class_name = class_name; limit = limit; csr = csr } }
    {
        IssuanceRequest {
            class_name,
            limit,
            csr,
        }
    }

    /// The name of the class.
    pub fn class_name(&self) -> &ResourceClassName
        ensures { result.now ≡ self.now.class_name }
    {
        &self.class_name
    }

    /// The limit.
    pub fn limit(&self) -> &RequestResourceLimit
        ensures { result.now ≡ self.now.limit }
    {
        &self.limit
    }

    /// The request for a certificate.
    pub fn csr(&self) -> &RpkiCaCsr
        ensures { result.now ≡ self.now.csr }
    {
        &self.csr
    }

    /// The three, as `new` took them.
    pub fn unpack(self) -> (ResourceClassName, RequestResourceLimit, RpkiCaCsr)
        ensures class_name { result.0 ≡ self.class_name }
        ensures limit { result.1 ≡ self.limit }
        ensures csr { result.2 ≡ self.csr }
    {
        let IssuanceRequest {
            class_name,
            limit,
            csr,
        } = self;
        (class_name, limit, csr)
    }

    /// Whether all parts are the same, the requests by the octets that are written of them.
    pub fn equals(&self, alloc: Global, other: &IssuanceRequest) -> Result<bool, OutOfMemory>
        ensures { IfOk result (λ b. IsTrue b ↔ ((self.now.class_name ≡ other.now.class_name)
            × (self.now.limit ≡ other.now.limit)
            × (spelled_data spelled_x509 self.now.csr.signed
            ≡ spelled_data spelled_x509 other.now.csr.signed))) }
    {
        let own = self.csr.to_captured(alloc)?;
        let others = other.csr.to_captured(alloc)?;
        Ok(self.asks_alike(other) && is_same(own.as_slice(), others.as_slice()))
    }

    // Whether class and limit are the same.
    fn asks_alike(&self, other: &IssuanceRequest) -> bool
        ensures { IsTrue result ↔ ((self.now.class_name ≡ other.now.class_name)
            × (self.now.limit ≡ other.now.limit)) }
    {
        self.class_name == other.class_name && self.limit == other.limit
    }

    /// An equal request, which shares its octets with this one.
    pub fn clone(&self, alloc: Global) -> Result<IssuanceRequest, OutOfMemory>
        ensures { IfOk result (λ r. r ≡ self.now) }
    {
        let class_name = self.class_name.clone(alloc)?;
        let limit = self.limit.clone(alloc)?;
        let csr = self.csr.clone(alloc)?;
        Ok(IssuanceRequest {
            class_name,
            limit,
            csr,
        })
    }
}

// Whether the octets are the same.
fn is_same(a: &[u8], b: &[u8]) -> bool
    ensures { IsTrue result ↔ (a.now ≡ b.now) }
{
    a == b
}

// The text of a URI, or `<none>`.
fn text_or_none<K: UriKind>(uri: Option<&Uri<K>>) -> &str
    ensures { result.now ≡ or_none (option_copied uri.entry) }
{
    match uri {
        Some(uri) => uri.as_str(),
        None => "<none>",
    }
}

// Where things are to be, as the request says it.
fn show_places<W: fmt::Write>(f: &mut fmt::Formatter<W>, csr: &RpkiCaCsr) -> fmt::Result
    ensures { WritesOnOk W.write_str_gives f.old result (places_text csr.now) f.new }
{
    let notify = text_or_none(csr.rpki_notify());
    let repository = text_or_none(csr.ca_repository());
    let manifest = text_or_none(csr.rpki_manifest());
    write!(
        f,
        "' rrdp notify '{notify}' ca repo '{repository}' mft '{manifest}'"
    )
}

// What is asked for.
fn show_asked<W: fmt::Write>(
    f: &mut fmt::Formatter<W>,
    class_name: &ResourceClassName,
    limit: &RequestResourceLimit,
    key: KeyIdentifier,
) -> fmt::Result
    ensures { WritesOnOk W.write_str_gives f.old result
        (asked_text class_name.now limit.now key) f.new }
{
    write!(
        f,
        "class name '{class_name}' limit '{limit}' csr for key '{key}"
    )
}

impl fmt::Display for IssuanceRequest {
    ghost output = { λ r. Some (issuance_request_text r) };

    fn fmt<W: fmt::Write>(&self, f: &mut fmt::Formatter<W>) -> fmt::Result {
        let key = self.csr.public_key().key_identifier();
        show_asked(f, &self.class_name, &self.limit, key)?;
        show_places(f, &self.csr)
    }
}
