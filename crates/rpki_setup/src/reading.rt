//! Elements are read as parts of messages, by the tables of specs/.

ghost use Rattle.std.specs.Prelude.{◌≡◌, Some, codes};
ghost use Rattle.std.specs.Option.{option_copied};
ghost use Rattle.rpki_text.specs.Uri.{https};
ghost use Rattle.rpki_xml.specs.Answers.{Gives, Matches};
ghost use Rattle.rpki_xml.specs.Tables.{optional_by};
ghost use Rattle.rpki_setup.specs.ParentResponse.{is_passed_over, last_certificate_in};
ghost use Rattle.rpki_setup.specs.RepoInfo.{repo_info_in};
ghost use Rattle.rpki_setup.specs.ResponseStep.{response_step};
ghost use Rattle.rpki_setup.specs.Root.{is_setup_namespace, setup_root_in, handle_in, certificate_in, one_certificate_in};
ghost use Rattle.rpki_setup.specs.ServiceUri.{service_uri_of_text, service_uri_in};
ghost use Rattle.rpki_xmltext.specs.UriText.{uri_of_text};

use crate::error::Error;
use crate::repo_info::RepoInfo;
use crate::service_uri::ServiceUri;
use rpki_text::{Base64, Handle, uri};
use rpki_xml::{Children, ElementRef, Mismatch, XmlError, require};
use rpki_xmltext::{base64_of, handle_of, uri_of};
use std::alloc::Global;

const NAMESPACE: &str = "http://www.hactrn.net/uris/rpki/rpki-setup/";

const NAMESPACE_BARE: &str = "http://www.hactrn.net/uris/rpki/rpki-setup";

// The service URI that a text is.
fn service_uri_of(alloc: Global, text: &str) -> Result<ServiceUri, XmlError>
    ensures { Gives (service_uri_of_text text.now) (λ s. s) result }
{
    match ServiceUri::from_str(alloc, text) {
        Ok(uri) => Ok(uri),
        Err(Error::InvalidUri(_)) => Err(XmlError::Malformed),
        Err(_) => Err(XmlError::OutOfMemory),
    }
}

// ---- roots

fn is_setup_namespace(uri: Option<&str>) -> bool
    ensures { result ≡ is_setup_namespace (option_copied uri.entry) }
{
    match uri {
        None => true,
        Some(uri) => uri == NAMESPACE || uri == NAMESPACE_BARE,
    }
}

/// Whether an element is a root of this name.
pub(crate) fn root_in(local: &str, root: &ElementRef<'_>) -> Result<(), Mismatch>
    ensures { Matches (setup_root_in local.now root.now) (λ _. tt) result }
{
    require(root.is_named(local))?;
    require(is_setup_namespace(root.namespace()))?;
    require(root.is_textless())?;
    root.given_or_absent("version", "1")
}

/// The handle in the attribute of this name.
pub(crate) fn handle_in<T>(
    alloc: Global,
    local: &str,
    root: &ElementRef<'_>,
) -> Result<Handle<T>, XmlError>
    ensures { Gives (handle_in local.now root.now.head) (λ h. h) result }
{
    let text = root.required(local)?;
    handle_of(alloc, text)
}

/// The service URI of a root.
pub(crate) fn service_uri_in(alloc: Global, root: &ElementRef<'_>) -> Result<ServiceUri, XmlError>
    ensures { Gives (service_uri_in root.now.head) (λ s. s) result }
{
    let text = root.required("service_uri")?;
    service_uri_of(alloc, text)
}

// ---- certificates

/// The octets in an element of this name that holds a certificate.
pub(crate) fn certificate_in(
    alloc: Global,
    local: &str,
    e: &ElementRef<'_>,
) -> Result<Base64, XmlError>
    ensures { Gives (certificate_in local.now e.now) (λ b. b) result }
{
    require(e.is_named(local))?;
    require(e.is_childless())?;
    base64_of(alloc, e.text())
}

/// The octets in the one element, which holds a certificate.
pub(crate) fn one_certificate_in(
    alloc: Global,
    local: &str,
    children: Children<'_>,
) -> Result<Base64, XmlError>
    ensures { Gives (one_certificate_in local.now children.entry) (λ b. b) result }
{
    let e = children.the_one()?;
    certificate_in(alloc, local, &e)
}

// A `referral` or an `offer`, which has no child.
fn is_passed_over(e: &ElementRef<'_>) -> bool
    ensures { result ≡ is_passed_over e.now }
{
    (e.is_named("referral") || e.is_named("offer")) && e.is_childless()
}

// What was found once one more element of a response is looked at: the octets of the last certificate.
fn with_element(
    alloc: Global,
    found: Option<Base64>,
    e: &ElementRef<'_>,
) -> Result<Option<Base64>, XmlError>
    ensures { Gives (response_step found e.now) (λ found. found) result }
{
    if e.is_named("parent_bpki_ta") {
        return Ok(Some(certificate_in(alloc, "parent_bpki_ta", e)?));
    }
    require(is_passed_over(e))?;
    Ok(found)
}

/// The octets in the last of the elements that hold a certificate; the others are passed over.
pub(crate) fn last_certificate_in(alloc: Global, children: Children<'_>) -> Result<Base64, XmlError>
    ensures { Gives (last_certificate_in children.entry) (λ b. b) result }
{
    let mut children = children;
    let mut found = None;
    'elements: while let Some(e) = children.next() {
        found = with_element(alloc, found, &e)?;
    }
    match found {
        None => Err(XmlError::Malformed),
        Some(octets) => Ok(octets),
    }
}

// ---- where objects are found

// The https URI in an attribute that may be absent.
fn notification_in(alloc: Global, root: &ElementRef<'_>) -> Result<Option<uri::Https>, XmlError>
    ensures { Gives (optional_by (uri_of_text https) (codes "rrdp_notification_uri") root.now.head)
        (λ u. u) result }
{
    match root.optional("rrdp_notification_uri")? {
        None => Ok(None),
        Some(text) => Ok(Some(uri_of(alloc, text)?)),
    }
}

/// Where the objects of a repository are found, from the attributes of its response.
pub(crate) fn repo_info_in(alloc: Global, root: &ElementRef<'_>) -> Result<RepoInfo, XmlError>
    ensures { Gives (repo_info_in root.now.head) (λ r. r) result }
{
    let text = root.required("sia_base")?;
    let sia_base = uri_of(alloc, text)?;
    let notification = notification_in(alloc, root)?;
    Ok(RepoInfo::new(sia_base, notification))
}
