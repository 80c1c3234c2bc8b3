//! The attributes of the elements inside a message are read, by the tables of specs/.

ghost use Rattle.std.specs.Prelude.{◌≡◌, codes};
ghost use Rattle.rpki_base.specs.Rfc3339.{rfc3339_time};
ghost use Rattle.rpki_xmltext.specs.Parts.{required_by};
ghost use Rattle.rpki_xmltext.specs.UriText.{uri_of_text};
ghost use Rattle.rpki_provisioning.specs.Limit.{limit_in, set_in, resources_in};
ghost use Rattle.rpki_sets.specs.Kinds.{blocks_of};
ghost use Rattle.rpki_text.specs.Handle.{handle_of_text};
ghost use Rattle.rpki_text.specs.KeyIdentifier.{key_identifier_of_text};
ghost use Rattle.rpki_text.specs.Uri.{rsync};
ghost use Rattle.rpki_updown.specs.PayloadType.{payload_type_of_text};
ghost use Rattle.rpki_xml.specs.Answers.{Gives, Matches};
ghost use Rattle.rpki_xml.specs.Tables.{optional_by, required};

use rpki_base::{KeyIdentifier, Time};
use rpki_sets::{AsBlocks, Blocks, BlocksError, Ipv4Blocks, Ipv6Blocks, Numbers, ResourceSet};
use rpki_text::{Handle, read_key_identifier, uri};
use rpki_updown::{Error, PayloadType, RequestResourceLimit, ResourceClassName};
use rpki_xml::{ElementRef, Mismatch, XmlError};
use rpki_xmltext::{handle_of, uri_of};
use std::alloc::Global;

// ---- sets of numbers

// The set that a text stands for.
fn blocks_of<N: Numbers>(alloc: Global, text: &str) -> Result<Blocks<N>, XmlError>
    ensures { Gives (blocks_of N.kind text.now) (λ b. b) result }
{
    match Blocks::<N>::from_str(alloc, text) {
        Ok(blocks) => Ok(blocks),
        Err(BlocksError::Malformed) => Err(XmlError::Malformed),
        Err(BlocksError::OutOfMemory) => Err(XmlError::OutOfMemory),
    }
}

// The set in an attribute, where it is there.
fn stated_in<N: Numbers>(
    alloc: Global,
    e: &ElementRef<'_>,
    local: &str,
) -> Result<Option<Blocks<N>>, XmlError>
    ensures { Gives (optional_by (blocks_of N.kind) local.now e.now.head) (λ b. b) result }
{
    match e.optional(local)? {
        None => Ok(None),
        Some(text) => Ok(Some(blocks_of::<N>(alloc, text)?)),
    }
}

// The set in an attribute, or the empty one.
fn set_in<N: Numbers>(alloc: Global, e: &ElementRef<'_>, local: &str) -> Result<Blocks<N>, XmlError>
    ensures { Gives (set_in (blocks_of N.kind) local.now e.now.head) (λ b. b) result }
{
    match stated_in::<N>(alloc, e, local)? {
        None => Ok(Blocks::<N>::empty(alloc)),
        Some(blocks) => Ok(blocks),
    }
}

// The limit of these sets.
fn limit_of(
    asn: Option<AsBlocks>,
    ipv4: Option<Ipv4Blocks>,
    ipv6: Option<Ipv6Blocks>,
) -> RequestResourceLimit
    ensures { result ≡ record { asn = asn; ipv4 = ipv4; ipv6 = ipv6 } }
{
    let mut limit = RequestResourceLimit::new();
    if let Some(asn) = asn {
        limit.with_asn(asn);
    }
    if let Some(ipv4) = ipv4 {
        limit.with_ipv4(ipv4);
    }
    if let Some(ipv6) = ipv6 {
        limit.with_ipv6(ipv6);
    }
    limit
}

/// What is asked for.
pub(crate) fn limit_in(alloc: Global, e: &ElementRef<'_>) -> Result<RequestResourceLimit, XmlError>
    ensures { Gives (limit_in e.now.head) (λ l. l) result }
{
    let asn = stated_in(alloc, e, "req_resource_set_as")?;
    let ipv4 = stated_in(alloc, e, "req_resource_set_ipv4")?;
    let ipv6 = stated_in(alloc, e, "req_resource_set_ipv6")?;
    Ok(limit_of(asn, ipv4, ipv6))
}

/// What is held.
pub(crate) fn resources_in(alloc: Global, e: &ElementRef<'_>) -> Result<ResourceSet, XmlError>
    ensures { Gives (resources_in e.now.head) (λ s. s) result }
{
    let asn = set_in(alloc, e, "resource_set_as")?;
    let ipv4 = set_in(alloc, e, "resource_set_ipv4")?;
    let ipv6 = set_in(alloc, e, "resource_set_ipv6")?;
    Ok(ResourceSet::new(asn, ipv4, ipv6))
}

// ---- other texts

/// The URI where a certificate is published.
pub(crate) fn cert_url_in(alloc: Global, e: &ElementRef<'_>) -> Result<uri::Rsync, XmlError>
    ensures { Gives (required_by (uri_of_text rsync) (codes "cert_url") e.now.head)
        (λ u. u) result }
{
    let text = e.required("cert_url")?;
    uri_of(alloc, text)
}

/// The name of a class.
pub(crate) fn class_name_in(
    alloc: Global,
    e: &ElementRef<'_>,
) -> Result<ResourceClassName, XmlError>
    ensures { Gives (required (codes "class_name") e.now.head) (λ n. n) result }
{
    let text = e.required("class_name")?;
    Ok(ResourceClassName::from_str(alloc, text)?)
}

/// Until when resources are held.
pub(crate) fn not_after_in(e: &ElementRef<'_>) -> Result<Time, Mismatch>
    ensures { Matches (required_by rfc3339_time (codes "resource_set_notafter") e.now.head)
        (λ t. t) result }
{
    let text = e.required("resource_set_notafter")?;
    match Time::from_rfc3339(text) {
        None => Err(Mismatch),
        Some(time) => Ok(time),
    }
}

/// The identifier of a key.
pub(crate) fn ski_in(e: &ElementRef<'_>) -> Result<KeyIdentifier, Mismatch>
    ensures { Matches (required_by key_identifier_of_text (codes "ski") e.now.head)
        (λ k. k) result }
{
    let text = e.required("ski")?;
    match read_key_identifier(text) {
        None => Err(Mismatch),
        Some(octets) => match KeyIdentifier::from_octets(&octets) {
            None => Err(Mismatch),
            Some(key) => Ok(key),
        },
    }
}

/// The handle of a party.
pub(crate) fn handle_in<T>(
    alloc: Global,
    e: &ElementRef<'_>,
    local: &str,
) -> Result<Handle<T>, XmlError>
    ensures { Gives (required_by handle_of_text local.now e.now.head) (λ h. h) result }
{
    let text = e.required(local)?;
    handle_of(alloc, text)
}

/// The kind of a message.
pub(crate) fn payload_type_in(alloc: Global, e: &ElementRef<'_>) -> Result<PayloadType, XmlError>
    ensures { Gives (required_by payload_type_of_text (codes "type") e.now.head) (λ t. t) result }
{
    let text = e.required("type")?;
    match PayloadType::from_str(alloc, text) {
        Ok(kind) => Ok(kind),
        Err(Error::InvalidPayloadType(_)) => Err(XmlError::Malformed),
        Err(_) => Err(XmlError::OutOfMemory),
    }
}
