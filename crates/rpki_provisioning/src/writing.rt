//! Messages are written as elements, by the tables of specs/.

ghost use Rattle.std.specs.Prelude.{◌≡◌, IfOk, OnOk, map, codes, string_bytes};
ghost use Rattle.std.specs.Option.{option_copied, option_map};
ghost use Rattle.base64.specs.Engines.{url_safe_no_pad};
ghost use Rattle.base64.specs.GeneralPurpose.{encode_of};
ghost use Rattle.rpki_provisioning.specs.Class.{certificate_element, issuer_element, class_element, class_of_issuance};
ghost use Rattle.rpki_provisioning.specs.Limit.{limit_attributes, set_attributes};
ghost use Rattle.rpki_provisioning.specs.Message.{payload_elements, element_of, text_of};
ghost use Rattle.rpki_provisioning.specs.NotPerformed.{not_performed_elements};
ghost use Rattle.rpki_provisioning.specs.Request.{request_element, key_element};
ghost use Rattle.rpki_provisioning.specs.Shape.{certificate_octets, request_octets, payload_shape};
ghost use Rattle.rpki_sets.specs.Kinds.{printed as blocks_text};
ghost use Rattle.rpki_updown.specs.Entitlements.{issued_with, class_with, issuance_with, asked_with};
ghost use Rattle.rpki_xml.specs.Draft.{with_attributes, with_element, with_elements};
ghost use Rattle.rpki_xml.specs.Element.{elements_of};

use crate::message::Message;
use crate::payload::Payload;
use rpki_base::{KeyIdentifier, Time};
use rpki_cert::Cert;
use rpki_common::OutOfMemory;
use rpki_sets::{Blocks, Numbers, ResourceSet};
use rpki_text::{Base64, key_identifier_text};
use rpki_updown::{
    IssuanceRequest, IssuanceResponse, IssuedCert, KeyElement, NotPerformedResponse,
    RequestResourceLimit, ResourceClassEntitlements, ResourceClassName, SigningCert,
};
use rpki_xml::ElementWriter;
use std::alloc::Global;

const NAMESPACE: &str = "http://www.apnic.net/specs/rescerts/up-down/";

// ---- sets of numbers

// The text of a set, where there is one.
fn stated_text<N: Numbers>(
    alloc: Global,
    stated: Option<&Blocks<N>>,
) -> Result<Option<String>, OutOfMemory>
    ensures { IfOk result (λ t. option_map string_bytes t
        ≡ option_map (blocks_text N.kind) (option_map (λ b. b.now) stated.entry)) }
{
    match stated {
        None => Ok(None),
        Some(blocks) => Ok(Some(blocks.to_string(alloc)?)),
    }
}

// The text, lent.
fn lent(text: &Option<String>) -> Option<&str>
    ensures { option_copied result ≡ option_map string_bytes text.now }
{
    match text {
        None => None,
        Some(text) => Some(text.as_str()),
    }
}

fn write_limit(
    alloc: Global,
    writer: &mut ElementWriter,
    limit: &RequestResourceLimit,
) -> Result<(), OutOfMemory>
    ensures { OnOk result (writer.new ≡ with_attributes (limit_attributes limit.now) writer.old) }
{
    let asn = stated_text(alloc, limit.asn())?;
    let ipv4 = stated_text(alloc, limit.ipv4())?;
    let ipv6 = stated_text(alloc, limit.ipv6())?;
    writer.attr_opt("req_resource_set_as", lent(&asn))?;
    writer.attr_opt("req_resource_set_ipv4", lent(&ipv4))?;
    writer.attr_opt("req_resource_set_ipv6", lent(&ipv6))
}

fn write_set(
    alloc: Global,
    writer: &mut ElementWriter,
    set: &ResourceSet,
) -> Result<(), OutOfMemory>
    ensures { OnOk result (writer.new ≡ with_attributes (set_attributes set.now) writer.old) }
{
    let asn = set.asn().to_string(alloc)?;
    let ipv4 = set.ipv4().to_string(alloc)?;
    let ipv6 = set.ipv6().to_string(alloc)?;
    writer.attr("resource_set_as", asn.as_str())?;
    writer.attr("resource_set_ipv4", ipv4.as_str())?;
    writer.attr("resource_set_ipv6", ipv6.as_str())
}

// ---- certificates

fn write_certificate(
    alloc: Global,
    writer: &mut ElementWriter,
    issued: &IssuedCert,
) -> Result<(), OutOfMemory>
    ensures { OnOk result (writer.new ≡ with_element
        (certificate_element (issued_with certificate_octets issued.now)) writer.old) }
{
    let octets = issued.cert().to_base64(alloc)?;
    writer.element("certificate")?;
    writer.attr("cert_url", issued.uri().as_str())?;
    write_limit(alloc, writer, issued.req_limit())?;
    writer.text(octets.as_str())?;
    writer.close()
}

fn write_certificates(
    alloc: Global,
    writer: &mut ElementWriter,
    issued: &[IssuedCert],
) -> Result<(), OutOfMemory>
    ensures { OnOk result (writer.new ≡ with_elements
        (elements_of certificate_element (map (issued_with certificate_octets) issued.now))
        writer.old) }
{
    for cert in issued {
        write_certificate(alloc, writer, cert)?;
    }
    Ok(())
}

fn write_issuer(alloc: Global, writer: &mut ElementWriter, cert: &Cert) -> Result<(), OutOfMemory>
    ensures { OnOk result (writer.new ≡ with_element
        (issuer_element (certificate_octets cert.now)) writer.old) }
{
    let octets = cert.to_base64(alloc)?;
    writer.element("issuer")?;
    writer.text(octets.as_str())?;
    writer.close()
}

// ---- classes

// A class of these parts.
fn write_parts(
    alloc: Global,
    writer: &mut ElementWriter,
    class_name: &ResourceClassName,
    resource_set: &ResourceSet,
    not_after: Time,
    issued_certs: &[IssuedCert],
    signing_cert: &SigningCert,
) -> Result<(), OutOfMemory>
    ensures { OnOk result (writer.new ≡ with_element
        (class_element (class_with certificate_octets (record {
          class_name = class_name.now;
          resource_set = resource_set.now;
          not_after = not_after;
          issued_certs = issued_certs.now;
          signing_cert = signing_cert.now;
        }))) writer.old) }
{
    let until = not_after.to_rfc3339(alloc)?;
    writer.element("class")?;
    writer.attr("class_name", class_name.as_str())?;
    writer.attr("cert_url", signing_cert.url().as_str())?;
    write_set(alloc, writer, resource_set)?;
    writer.attr("resource_set_notafter", until.as_str())?;
    write_certificates(alloc, writer, issued_certs)?;
    write_issuer(alloc, writer, signing_cert.cert())?;
    writer.close()
}

fn write_class(
    alloc: Global,
    writer: &mut ElementWriter,
    class: &ResourceClassEntitlements,
) -> Result<(), OutOfMemory>
    ensures { OnOk result (writer.new ≡ with_element
        (class_element (class_with certificate_octets class.now)) writer.old) }
{
    write_parts(
        alloc,
        writer,
        class.class_name(),
        class.resource_set(),
        class.not_after(),
        class.issued_certs(),
        class.signing_cert(),
    )
}

fn write_classes(
    alloc: Global,
    writer: &mut ElementWriter,
    classes: &[ResourceClassEntitlements],
) -> Result<(), OutOfMemory>
    ensures { OnOk result (writer.new ≡ with_elements
        (elements_of class_element (map (class_with certificate_octets) classes.now))
        writer.old) }
{
    for class in classes {
        write_class(alloc, writer, class)?;
    }
    Ok(())
}

fn write_issuance(
    alloc: Global,
    writer: &mut ElementWriter,
    response: &IssuanceResponse,
) -> Result<(), OutOfMemory>
    ensures { OnOk result (writer.new ≡ with_element (class_element (class_of_issuance
        (issuance_with certificate_octets response.now))) writer.old) }
{
    let until = response.not_after().to_rfc3339(alloc)?;
    writer.element("class")?;
    writer.attr("class_name", response.class_name().as_str())?;
    writer.attr("cert_url", response.signing_cert().url().as_str())?;
    write_set(alloc, writer, response.resource_set())?;
    writer.attr("resource_set_notafter", until.as_str())?;
    write_certificate(alloc, writer, response.issued_cert())?;
    write_issuer(alloc, writer, response.signing_cert().cert())?;
    writer.close()
}

// ---- requests and keys

fn write_request(
    alloc: Global,
    writer: &mut ElementWriter,
    request: &IssuanceRequest,
) -> Result<(), OutOfMemory>
    ensures { OnOk result (writer.new ≡ with_element
        (request_element (asked_with request_octets request.now)) writer.old) }
{
    let captured = request.csr().to_captured(alloc)?;
    let octets = Base64::from_content(alloc, captured.as_slice())?;
    writer.element("request")?;
    writer.attr("class_name", request.class_name().as_str())?;
    write_limit(alloc, writer, request.limit())?;
    writer.text(octets.as_str())?;
    writer.close()
}

// The text of a key's identifier.
fn ski_text(alloc: Global, key: &KeyIdentifier) -> Result<String, OutOfMemory>
    ensures { IfOk result (λ s. string_bytes s ≡ encode_of url_safe_no_pad key.now) }
{
    let mut octets = [0u8; 20];
    octets.copy_from_slice(key.as_slice());
    key_identifier_text(alloc, &octets)
}

fn write_key(alloc: Global, writer: &mut ElementWriter, key: &KeyElement) -> Result<(), OutOfMemory>
    ensures { OnOk result (writer.new ≡ with_element (key_element key.now) writer.old) }
{
    let ski = ski_text(alloc, key.key())?;
    writer.element("key")?;
    writer.attr("class_name", key.class_name().as_str())?;
    writer.attr("ski", ski.as_str())?;
    writer.close()
}

// ---- what was not performed

fn write_status(
    alloc: Global,
    writer: &mut ElementWriter,
    response: &NotPerformedResponse,
) -> Result<(), OutOfMemory>
    ensures { OnOk result (writer.new
        ≡ with_elements (not_performed_elements response.now) writer.old) }
{
    let status = response.status().to_string(alloc)?;
    writer.element("status")?;
    writer.text(status.as_str())?;
    writer.close()?;
    match response.description() {
        None => Ok(()),
        Some(description) => {
            writer.element("description")?;
            writer.text(description.as_str())?;
            writer.close()
        }
    }
}

// ---- messages

fn write_payload(
    alloc: Global,
    writer: &mut ElementWriter,
    payload: &Payload,
) -> Result<(), OutOfMemory>
    ensures { OnOk result (writer.new
        ≡ with_elements (payload_elements (payload_shape payload.now)) writer.old) }
{
    match payload {
        Payload::List => Ok(()),
        Payload::ListResponse(response) => write_classes(alloc, writer, response.classes()),
        Payload::Issue(request) => write_request(alloc, writer, request),
        Payload::IssueResponse(response) => write_issuance(alloc, writer, response),
        Payload::Revoke(request) => write_key(alloc, writer, request.key_element()),
        Payload::RevokeResponse(response) => write_key(alloc, writer, response.key_element()),
        Payload::ErrorResponse(response) => write_status(alloc, writer, response),
    }
}

fn write_message(
    alloc: Global,
    writer: &mut ElementWriter,
    message: &Message,
) -> Result<(), OutOfMemory>
    ensures { OnOk result (writer.new ≡ with_element (element_of message.now) writer.old) }
{
    writer.element("message")?;
    writer.attr("xmlns", NAMESPACE)?;
    writer.attr("version", "1")?;
    writer.attr("sender", message.sender().as_str())?;
    writer.attr("recipient", message.recipient().as_str())?;
    writer.attr("type", message.payload().payload_type().as_str())?;
    write_payload(alloc, writer, message.payload())?;
    writer.close()
}

/// A message's text.
pub(crate) fn message_text(alloc: Global, message: &Message) -> Result<String, OutOfMemory>
    ensures { IfOk result (λ text. string_bytes text ≡ text_of message.now) }
{
    let mut writer = ElementWriter::new(alloc);
    write_message(alloc, &mut writer, message)?;
    Ok(writer.into_string())
}
