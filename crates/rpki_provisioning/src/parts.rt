//! The elements inside a message are read, by the tables of specs/: what is in certificates and requests is not looked at.

ghost use Rattle.std.specs.Prelude.{◌≡◌, ◌^◌, ◌<◌, Some, None, filter, codes};
ghost use Rattle.rpki_common.specs.Collecting.{slot};
ghost use Rattle.rpki_common.specs.Items as items;
ghost use Rattle.rpki_provisioning.specs.Class.{certificate_in, issuer_in, certificates_in, class_attributes, class_start_in, class_in, issuance_in, issuance_of_class, is_certificate, is_issuer, is_inside};
ghost use Rattle.rpki_provisioning.specs.Gathering.{each_slot};
ghost use Rattle.rpki_provisioning.specs.NotPerformed.{status_of_text, status_in, description_in, description_where_there, not_performed_in};
ghost use Rattle.rpki_provisioning.specs.Request.{request_attributes, request_in, key_in};
ghost use Rattle.rpki_sets.specs.Texts.{read_all};
ghost use Rattle.rpki_xml.specs.Answers.{Gives, Matches};
ghost use Rattle.rpki_xml.specs.Element.{listed};
ghost use Rattle.rpki_xml.specs.Tables.{only_listed};

use crate::attributes::{cert_url_in, class_name_in, limit_in, not_after_in, resources_in, ski_in};
use crate::shape::{ClassShape, IssuanceShape, IssuedShape, RequestShape, SigningShape};
use rpki_base::{KeyIdentifier, Time};
use rpki_common::{Sequence, Text};
use rpki_sets::ResourceSet;
use rpki_text::{Base64, uri};
use rpki_updown::{NotPerformedResponse, ResourceClassName};
use rpki_xml::{Children, ElementRef, Mismatch, XmlError, require};
use rpki_xmltext::{base64_of, handed_out};
use std::alloc::Global;
use std::marker::Model;

// ---- certificates

fn certificate_in(alloc: Global, e: &ElementRef<'_>) -> Result<IssuedShape, XmlError>
    ensures { Gives (certificate_in e.now) (λ c. c) result }
{
    require(e.is_named("certificate"))?;
    require(e.is_childless())?;
    e.only(&[
        "cert_url",
        "req_resource_set_as",
        "req_resource_set_ipv4",
        "req_resource_set_ipv6",
    ])?;
    let uri = cert_url_in(alloc, e)?;
    let req_limit = limit_in(alloc, e)?;
    let octets = base64_of(alloc, e.text())?;
    Ok(IssuedShape {
        uri,
        req_limit,
        octets,
    })
}

fn issuer_in(alloc: Global, e: &ElementRef<'_>) -> Result<Base64, XmlError>
    ensures { Gives (issuer_in e.now) (λ b. b) result }
{
    require(e.is_named("issuer"))?;
    require(e.is_childless())?;
    base64_of(alloc, e.text())
}

fn is_inside(e: &ElementRef<'_>) -> bool
    ensures { result ≡ is_inside e.now }
{
    e.is_named("certificate") || e.is_named("issuer")
}

// Whether each element is a certificate or an issuer by its name.
fn only_inside(children: Children<'_>) -> Result<(), Mismatch>
    ensures { Matches (items.only is_inside (listed children.entry)) (λ _. tt) result }
{
    let mut children = children;
    'elements: while let Some(e) = children.next() {
        require(is_inside(&e))?;
    }
    Ok(())
}

// What was found once one more element is looked at: the certificates among them.
fn with_certificate(
    alloc: Global,
    found: Sequence<IssuedShape>,
    e: &ElementRef<'_>,
) -> Result<Sequence<IssuedShape>, XmlError>
    ensures { Gives (each_slot is_certificate certificate_in found e.now) (λ f. f) result }
{
    if !e.is_named("certificate") {
        return Ok(found);
    }
    let mut found = found;
    found.push(certificate_in(alloc, e)?)?;
    Ok(found)
}

fn issued_in(alloc: Global, children: Children<'_>) -> Result<Sequence<IssuedShape>, XmlError>
    ensures { Gives (read_all certificate_in (filter is_certificate (listed children.entry)))
        (λ f. f) result }
{
    let mut children = children;
    let mut found = Sequence::new(alloc);
    'elements: while let Some(e) = children.next() {
        found = with_certificate(alloc, found, &e)?;
    }
    Ok(found)
}

// What was found once one more element is looked at: the issuer, which is the only one.
fn with_issuer(
    alloc: Global,
    found: Option<Base64>,
    e: &ElementRef<'_>,
) -> Result<Option<Base64>, XmlError>
    ensures { Gives (slot is_issuer issuer_in found e.now) (λ f. f) result }
{
    if !e.is_named("issuer") {
        return Ok(found);
    }
    match found {
        None => Ok(Some(issuer_in(alloc, e)?)),
        Some(_) => Err(XmlError::Malformed),
    }
}

fn the_issuer_in(alloc: Global, children: Children<'_>) -> Result<Base64, XmlError>
    ensures { Gives (items.the_one issuer_in (filter is_issuer (listed children.entry)))
        (λ b. b) result }
{
    let mut children = children;
    let mut found = None;
    'elements: while let Some(e) = children.next() {
        found = with_issuer(alloc, found, &e)?;
    }
    match found {
        None => Err(XmlError::Malformed),
        Some(octets) => Ok(octets),
    }
}

// The certificates in a class.
#[derive(Drop)]
struct Certificates {
    issued: Sequence<IssuedShape>,
    issuer: Base64,
}

impl Model for Certificates {
    ghost use Rattle.rpki_provisioning.specs.Class.{Certificates as Found};

    ghost Value = { Found };

    ghost view = { λ c. record { issued = c.issued; issuer = c.issuer } };
}

fn certificates_in(alloc: Global, e: &ElementRef<'_>) -> Result<Certificates, XmlError>
    ensures { Gives (certificates_in e.now.children) (λ c. c) result }
{
    only_inside(e.children())?;
    let issued = issued_in(alloc, e.children())?;
    let issuer = the_issuer_in(alloc, e.children())?;
    Ok(Certificates { issued, issuer })
}

// ---- classes

// What the attributes of a class say.
#[derive(Drop)]
struct ClassStart {
    class_name: ResourceClassName,
    url: uri::Rsync,
    resource_set: ResourceSet,
    not_after: Time,
}

impl Model for ClassStart {
    ghost use Rattle.rpki_provisioning.specs.Class.{ClassStart as Start};

    ghost Value = { Start };

    ghost view = { λ s. record {
      class_name = s.class_name;
      url = s.url;
      resource_set = s.resource_set;
      not_after = s.not_after;
    } };
}

// No attributes but those of a class.
fn only_of_class(e: &ElementRef<'_>) -> Result<(), Mismatch>
    ensures { Matches (only_listed class_attributes e.now.head) (λ _. tt) result }
{
    e.only(&[
        "class_name",
        "cert_url",
        "resource_set_as",
        "resource_set_ipv4",
        "resource_set_ipv6",
        "resource_set_notafter",
        "suggested_sia_head",
    ])
}

fn class_start_in(alloc: Global, e: &ElementRef<'_>) -> Result<ClassStart, XmlError>
    ensures { Gives (class_start_in e.now.head) (λ s. s) result }
{
    only_of_class(e)?;
    let _passed_over = e.optional("suggested_sia_head")?;
    let class_name = class_name_in(alloc, e)?;
    let url = cert_url_in(alloc, e)?;
    let resource_set = resources_in(alloc, e)?;
    let not_after = not_after_in(e)?;
    Ok(ClassStart {
        class_name,
        url,
        resource_set,
        not_after,
    })
}

/// A class.
pub(crate) fn class_in(alloc: Global, e: &ElementRef<'_>) -> Result<ClassShape, XmlError>
    ensures { Gives (class_in e.now) (λ c. c) result }
{
    require(e.is_named("class"))?;
    require(e.is_textless())?;
    let start = class_start_in(alloc, e)?;
    let certificates = certificates_in(alloc, e)?;
    Ok(ClassShape {
        class_name: start.class_name,
        resource_set: start.resource_set,
        not_after: start.not_after,
        issued_certs: certificates.issued,
        signing_cert: SigningShape {
            url: start.url,
            octets: certificates.issuer,
        },
    })
}

// The one certificate.
fn the_one(issued: Sequence<IssuedShape>) -> Result<IssuedShape, Mismatch>
    ensures { Matches (items.the_one (λ i. Some i) issued) (λ i. i) result }
{
    let mut issued = issued.into_vec();
    let Some(one) = issued.pop() else {
        return Err(Mismatch);
    };
    if !issued.as_slice().is_empty() {
        return Err(Mismatch);
    }
    Ok(one)
}

// The class with the one certificate in it.
fn issuance_of_class(class: ClassShape) -> Result<IssuanceShape, Mismatch>
    ensures { Matches (issuance_of_class class) (λ i. i) result }
{
    let issued_cert = the_one(class.issued_certs)?;
    Ok(IssuanceShape {
        class_name: class.class_name,
        resource_set: class.resource_set,
        not_after: class.not_after,
        issued_cert,
        signing_cert: class.signing_cert,
    })
}

/// A class with one certificate.
pub(crate) fn issuance_in(alloc: Global, e: &ElementRef<'_>) -> Result<IssuanceShape, XmlError>
    ensures { Gives (issuance_in e.now) (λ i. i) result }
{
    let class = class_in(alloc, e)?;
    Ok(issuance_of_class(class)?)
}

// ---- requests and keys

// No attributes but those of a request.
fn only_of_request(e: &ElementRef<'_>) -> Result<(), Mismatch>
    ensures { Matches (only_listed request_attributes e.now.head) (λ _. tt) result }
{
    e.only(&[
        "class_name",
        "req_resource_set_as",
        "req_resource_set_ipv4",
        "req_resource_set_ipv6",
    ])
}

/// A request for a certificate.
pub(crate) fn request_in(alloc: Global, e: &ElementRef<'_>) -> Result<RequestShape, XmlError>
    ensures { Gives (request_in e.now) (λ a. a) result }
{
    require(e.is_named("request"))?;
    require(e.is_childless())?;
    only_of_request(e)?;
    let class_name = class_name_in(alloc, e)?;
    let limit = limit_in(alloc, e)?;
    let octets = base64_of(alloc, e.text())?;
    Ok(RequestShape {
        class_name,
        limit,
        octets,
    })
}

/// A key of a class: the name of the class, and the key's identifier.
pub(crate) fn key_in(
    alloc: Global,
    e: &ElementRef<'_>,
) -> Result<(ResourceClassName, KeyIdentifier), XmlError>
    ensures { Gives (key_in e.now) (λ k. record { class_name = k.0; key = k.1 }) result }
{
    require(e.is_named("key"))?;
    require(e.is_empty())?;
    e.only(&["class_name", "ski"])?;
    let class_name = class_name_in(alloc, e)?;
    let key = ski_in(e)?;
    Ok((class_name, key))
}

// ---- what was not performed

// The number that a text is.
fn status_of(text: &str) -> Result<u64, Mismatch>
    ensures { Matches (status_of_text text.now) (λ n. n) result }
{
    match text.parse::<u64>() {
        Ok(status) => Ok(status),
        Err(_) => Err(Mismatch),
    }
}

fn status_in(e: &ElementRef<'_>) -> Result<u64, Mismatch>
    ensures { Matches (status_in e.now) (λ n. n) result }
{
    require(e.is_named("status"))?;
    require(e.is_childless())?;
    status_of(e.text())
}

fn description_in(alloc: Global, e: &ElementRef<'_>) -> Result<Text, XmlError>
    ensures { Gives (description_in e.now) (λ t. t) result }
{
    require(e.is_named("description"))?;
    require(e.is_childless())?;
    Ok(Text::from_str(alloc, e.text())?)
}

fn description_where_there(
    alloc: Global,
    found: Option<ElementRef<'_>>,
) -> Result<Option<Text>, XmlError>
    ensures { Gives (description_where_there found.entry) (λ t. t) result }
{
    match found {
        None => Ok(None),
        Some(e) => Ok(Some(description_in(alloc, &e)?)),
    }
}

/// That a request was not performed.
pub(crate) fn not_performed_in(
    alloc: Global,
    children: Children<'_>,
) -> Result<NotPerformedResponse, XmlError>
    ensures { Gives (not_performed_in children.entry) (λ r. r) result }
{
    let mut children = children;
    let Some(e) = children.next() else {
        return Err(XmlError::Malformed);
    };
    let status = status_in(&e)?;
    let found = children.at_most_one()?;
    let description = description_where_there(alloc, found)?;
    Ok(NotPerformedResponse::new(status, handed_out(description)))
}
