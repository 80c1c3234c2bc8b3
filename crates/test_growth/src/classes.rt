//! The answer with one class, written and read back.

use crate::delta::moment;
use crate::ended::{Ended, told};
use crate::signing::{KEY, after_refusal, signer_of};
use bytes::Bytes;
use rpki_base::{Time, Validity};
use rpki_cert::Cert;
use rpki_idcert::IdCert;
use rpki_provisioning::Message;
use rpki_sets::{AsBlocks, Ipv4Blocks, Ipv6Blocks, ResourceSet};
use rpki_signer::{ToyScheme, ToySigner};
use rpki_text::{Handle, RecipientHandle, SenderHandle, uri};
use rpki_updown::{
    IssuedCert, RequestResourceLimit, ResourceClassEntitlements, ResourceClassListResponse,
    ResourceClassName, SigningCert,
};
use std::alloc::Global;

// The second in which the certificate is valid.
fn validity() -> Result<Validity, Ended> {
    let moment = moment()?;
    Ok(Validity::new(moment, moment))
}

fn octets_of(alloc: Global, cert: &IdCert) -> Result<Bytes, Ended> {
    Ok(cert.to_bytes(alloc)?)
}

// The octets of the signer's own certificate, which is valid for a second.
fn certificate(alloc: Global, signer: &mut ToySigner) -> Result<Bytes, Ended> {
    match IdCert::new_ta::<ToyScheme, ToySigner>(alloc, validity()?, &KEY, signer) {
        Ok(cert) => octets_of(alloc, &cert),
        Err(error) => Err(after_refusal(alloc, Ended::from(error), signer)),
    }
}

fn limit(alloc: Global) -> Result<RequestResourceLimit, Ended> {
    let mut limit = RequestResourceLimit::new();
    limit.with_ipv4(Ipv4Blocks::from_str(alloc, "10.0.0.0/9")?);
    Ok(limit)
}

fn issued(alloc: Global, octets: &[u8]) -> Result<IssuedCert, Ended> {
    let uri = uri::Rsync::from_str(alloc, "rsync://localhost/repo/ca.cer")?;
    let limit = limit(alloc)?;
    Ok(IssuedCert::new(uri, limit, Cert::decode(alloc, octets)?))
}

fn signing(alloc: Global, octets: &[u8]) -> Result<SigningCert, Ended> {
    let url = uri::Rsync::from_str(alloc, "rsync://localhost/repo/ta.cer")?;
    Ok(SigningCert::new(url, Cert::decode(alloc, octets)?))
}

fn set(alloc: Global) -> Result<ResourceSet, Ended> {
    let asn = AsBlocks::from_str(alloc, "64496-64511,65000")?;
    let ipv4 = Ipv4Blocks::from_str(alloc, "10.0.0.0/8,192.0.2.1-192.0.2.9")?;
    let ipv6 = Ipv6Blocks::from_str(alloc, "2001:db8::/32")?;
    Ok(ResourceSet::new(asn, ipv4, ipv6))
}

fn issued_alone(alloc: Global, octets: &[u8]) -> Result<Vec<IssuedCert>, Ended> {
    let mut all = Vec::new(alloc);
    all.push(issued(alloc, octets)?)?;
    Ok(all)
}

// The class with these certificates.
fn class_with(
    alloc: Global,
    issued: Vec<IssuedCert>,
    signing: SigningCert,
) -> Result<ResourceClassEntitlements, Ended> {
    let (name, set, until) = described(alloc)?;
    Ok(ResourceClassEntitlements::new(name, set, until, issued, signing))
}

// The name of the class, and what the client has in it until when.
fn described(alloc: Global) -> Result<(ResourceClassName, ResourceSet, Time), Ended> {
    let until = moment()?;
    let name = ResourceClassName::default_name(alloc)?;
    let set = set(alloc)?;
    Ok((name, set, until))
}

fn class(alloc: Global, octets: &[u8]) -> Result<ResourceClassEntitlements, Ended> {
    let issued = issued_alone(alloc, octets)?;
    let signing = signing(alloc, octets)?;
    class_with(alloc, issued, signing)
}

// The answer with a class of this certificate, which is the issuer's too.
fn list(alloc: Global, octets: &[u8]) -> Result<ResourceClassListResponse, Ended> {
    let mut classes = Vec::new(alloc);
    classes.push(class(alloc, octets)?)?;
    Ok(ResourceClassListResponse::new(classes))
}

fn handles(alloc: Global) -> Result<(SenderHandle, RecipientHandle), Ended> {
    let sender = Handle::from_str(alloc, "Bob")?;
    let recipient = Handle::from_str(alloc, "Carol")?;
    Ok((sender, recipient))
}

fn message(alloc: Global, octets: &[u8]) -> Result<Message, Ended> {
    let (sender, recipient) = handles(alloc)?;
    Ok(Message::list_response(sender, recipient, list(alloc, octets)?))
}

// Whether the message is read back from its text.
fn is_read_back(alloc: Global, message: &Message) -> Result<bool, Ended> {
    let text = message.text_bytes(alloc)?;
    let again = Message::decode_slice(alloc, text.as_slice())?;
    Ok(again.equals(alloc, message)?)
}

fn octets(alloc: Global) -> Result<Bytes, Ended> {
    let mut signer = signer_of(alloc)?;
    certificate(alloc, &mut signer)
}

/// Makes the answer, writes it and reads it back.
pub fn exchanged(alloc: Global) -> Result<(), Ended> {
    let octets = octets(alloc)?;
    let message = message(alloc, octets.as_slice())?;
    told(is_read_back(alloc, &message))
}
