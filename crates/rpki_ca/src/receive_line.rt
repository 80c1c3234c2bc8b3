//! The command `receive`.

ghost use Rattle.std.specs.Prelude.{◌≡◌, ◌≢◌, ◌++◌, ◌∷◌, ◌≤◌, [], List, ℕ, Ok, Err, IfOk, IfErr, length};
ghost use Rattle.rpki_common.specs.Limits.{most_keys};
ghost use Rattle.rpki_ca.specs.Answer.{IsReceiveAnswer, IsTextAccepted, IsLineOf};
ghost use Rattle.rpki_ca.specs.Acceptance.{RefusesReceipt, accepted_text, refusal_of};

use crate::line::line_of;
use crate::receiving::{Kind, ReceiveError, Received};
use crate::refusals::Refusal;
use bytes::Bytes;
use rpki_base::{PublicKey, Scheme, Time, Verifier};
use rpki_common::OutOfMemory;
use rpki_provisioning::ProvisioningCms;
use rpki_publication::PublicationCms;
use std::alloc::Global;

impl Received {
    /// The octets of the message, a document of XML.
    pub fn to_xml_vec(&self, alloc: Global) -> Result<Vec<u8>, OutOfMemory>
        ensures { IfOk result (λ octets. octets.items ≡ accepted_text self.now) }
    {
        match self {
            Received::Publication(message) => message.text_vec(alloc),
            Received::Provisioning(message) => message.text_vec(alloc),
        }
    }

    /// The octets of the message, a document of XML, to be shared.
    pub fn to_xml_bytes(&self, alloc: Global) -> Result<Bytes, OutOfMemory>
        ensures { IfOk result (λ octets. octets ≡ accepted_text self.now) }
    {
        match self {
            Received::Publication(message) => message.text_bytes(alloc),
            Received::Provisioning(message) => message.text_bytes(alloc),
        }
    }
}

// The text of the message of the publication protocol that is received of the octets.
fn publication_text<P: Scheme, V: Verifier<P>>(
    alloc: Global,
    octets: &[u8],
    keys: &[PublicKey],
    when: Time,
    verifier: &V,
) -> Result<Vec<u8>, ReceiveError>
    requires some { 1 ≤ length keys.now }
    requires few { length keys.now ≤ most_keys }
    ensures ok { IfOk result (λ text.
        IsTextAccepted P.checks Kind.Publication octets.now keys.now when text.items) }
    ensures err { IfErr result
        (RefusesReceipt P.checks Kind.Publication octets.now keys.now when) }
{
    let cms = PublicationCms::decode(alloc, octets)?;
    cms.signed_message().validate_any_at(verifier, keys, when)?;
    Ok(cms.message().text_vec(alloc)?)
}

// The text of the message of the provisioning protocol that is received of the octets.
fn provisioning_text<P: Scheme, V: Verifier<P>>(
    alloc: Global,
    octets: &[u8],
    keys: &[PublicKey],
    when: Time,
    verifier: &V,
) -> Result<Vec<u8>, ReceiveError>
    requires some { 1 ≤ length keys.now }
    requires few { length keys.now ≤ most_keys }
    ensures ok { IfOk result (λ text.
        IsTextAccepted P.checks Kind.Provisioning octets.now keys.now when text.items) }
    ensures err { IfErr result
        (RefusesReceipt P.checks Kind.Provisioning octets.now keys.now when) }
{
    let cms = ProvisioningCms::decode(alloc, octets)?;
    cms.signed_message().validate_any_at(verifier, keys, when)?;
    Ok(cms.message().text_vec(alloc)?)
}

// The text of the message of the kind that is received of the octets.
fn received_text<P: Scheme, V: Verifier<P>>(
    alloc: Global,
    kind: Kind,
    octets: &[u8],
    keys: &[PublicKey],
    when: Time,
    verifier: &V,
) -> Result<Vec<u8>, ReceiveError>
    requires some { 1 ≤ length keys.now }
    requires few { length keys.now ≤ most_keys }
    ensures ok { IfOk result (λ text.
        IsTextAccepted P.checks kind octets.now keys.now when text.items) }
    ensures err { IfErr result (RefusesReceipt P.checks kind octets.now keys.now when) }
{
    match kind {
        Kind::Publication => publication_text(alloc, octets, keys, when, verifier),
        Kind::Provisioning => provisioning_text(alloc, octets, keys, when, verifier),
    }
}

impl From<ReceiveError> for Refusal {
    ghost from_gives = { λ error e. e ≡ refusal_of error };

    fn from(error: ReceiveError) -> Refusal {
        match error {
            ReceiveError::CmsDecode => Refusal::CmsDecode,
            ReceiveError::XmlError => Refusal::XmlError,
            ReceiveError::CertSyntax => Refusal::CertSyntax,
            ReceiveError::InvalidCsrSyntax => Refusal::InvalidCsrSyntax,
            ReceiveError::Validation(error) => Refusal::Validation(error.check),
            ReceiveError::OutOfMemory => Refusal::OutOfMemory,
        }
    }
}

/// The text of the message that is received of the octets, and a line feed.
pub(crate) fn receive_line<P: Scheme, V: Verifier<P>>(
    alloc: Global,
    kind: Kind,
    octets: &[u8],
    keys: &[PublicKey],
    when: Time,
    verifier: &V,
) -> Result<Vec<u8>, Refusal>
    requires some { 1 ≤ length keys.now }
    requires few { length keys.now ≤ most_keys }
    ensures ok { IfOk result (λ line.
        IsLineOf (IsReceiveAnswer P.checks kind octets.now keys.now when) line.items) }
    ensures err { IfErr result (λ e. e ≢ Refusal.OutOfMemory
        → IsReceiveAnswer P.checks kind octets.now keys.now when (Err e)) }
{
    let text = received_text(alloc, kind, octets, keys, when, verifier)?;
    Ok(line_of(text)?)
}
