//! What is to be signed of a message, and the message with its signatures.

ghost use Rattle.std.specs.Prelude.{◌≡◌, ◌++◌, ◌<◌, ◌+◌, ◌^◌, length, IfOk, OnOk};
ghost use Rattle.rpki_der.specs.Tags.{oid_tag, octet_string_tag};
ghost use Rattle.rpki_der.specs.Writing.{der_primitive};
ghost use Rattle.rpki_base.specs.TimeText.{der_time};
ghost use Rattle.rpki_idcert.specs.Spelling.{spelled_tbs};
ghost use Rattle.rpki_sigmsg.specs.ObjectIdentifiers.{content_type, message_digest, signing_time, xml_content};
ghost use Rattle.rpki_sigmsg.specs.Making as spec;
ghost use Rattle.rpki_sigmsg.specs.Spelling.{spelled_tbs_crl};

use crate::attributes::covered_octets;
use crate::crl::SignedMessageCrl;
use crate::message::SignedMessage;
use crate::object_identifiers::{CONTENT_TYPE, CT_XML, MESSAGE_DIGEST, SIGNING_TIME};
use crate::tbs_crl::SignedMessageTbsCrl;
use crate::window::Window;
use bytes::Bytes;
use rpki_base::{PublicKey, RpkiSignatureAlgorithm, Serial, Signature, Time, write_constructed};
use rpki_der::{OutOfMemory, Tag, Writer};
use rpki_idcert::{IdCert, TbsIdCert, UnsignedIdCert};
use sha2::{Digest, Sha256};
use std::alloc::Global;
use std::marker::Model;

// Appends an attribute with this one value.
#[tactic(auto, unfolding(crate::specs::Making::spelled_attribute))]
fn write_attribute(identifier: &[u8], value: &Writer, out: &mut Writer) -> Result<(), OutOfMemory>
    requires { length identifier.now < 2 ^ 16 }
    ensures ok { OnOk result
        (out.new ≡ out.old ++ spec.spelled_attribute identifier.now value.now) }
{
    let mut inner = out.inner();
    inner.primitive(Tag::OID, identifier)?;
    write_constructed(Tag::SET, value, &mut inner)?;
    write_constructed(Tag::SEQUENCE, &inner, out)
}

// Appends contentType.
fn write_content_type(out: &mut Writer) -> Result<(), OutOfMemory>
    ensures ok { OnOk result (out.new ≡ out.old
        ++ spec.spelled_attribute content_type (der_primitive oid_tag xml_content)) }
{
    let mut value = out.inner();
    value.primitive(Tag::OID, &CT_XML)?;
    write_attribute(&CONTENT_TYPE, &value, out)
}

// Appends signingTime.
fn write_signing_time(when: Time, out: &mut Writer) -> Result<(), OutOfMemory>
    ensures ok { OnOk result
        (out.new ≡ out.old ++ spec.spelled_attribute signing_time (der_time when)) }
{
    let mut value = out.inner();
    when.to_der_varied(&mut value)?;
    write_attribute(&SIGNING_TIME, &value, out)
}

// Appends messageDigest.
fn write_digest(digest: &[u8; 32], out: &mut Writer) -> Result<(), OutOfMemory>
    ensures ok { OnOk result (out.new ≡ out.old
        ++ spec.spelled_attribute message_digest (der_primitive octet_string_tag digest.now)) }
{
    let mut value = out.inner();
    value.primitive(Tag::OCTET_STRING, digest)?;
    write_attribute(&MESSAGE_DIGEST, &value, out)
}

/// A content that is to be signed at a moment, with its attributes. In a clause it is content and moment.
pub struct UnsignedContent {
    content: Bytes,
    moment: Time,
    digest: Bytes,
    covered: Bytes,
}

impl Drop for UnsignedContent {
    fn drop(self) {
        let UnsignedContent {
            content,
            moment,
            digest,
            covered,
        } = self;
    }
}

impl Model for UnsignedContent {
    ghost use Rattle.std.specs.Prelude.{◌≡◌};
    ghost use Rattle.sha2.specs.Sha256.{sha256};
    ghost use Rattle.rpki_sigmsg.specs.Making.{ContentFields, made_covered};

    ghost Value = { ContentFields };

    ghost view = { λ u. record { content = u.content; moment = u.moment } };

    ghost invariant = { λ u.
        (u.digest ≡ sha256 u.content) × (u.covered ≡ made_covered u.content u.moment) };
}

impl UnsignedContent {
    /// The content with contentType, signingTime at this moment and messageDigest (RFC 5652, 11.1 to 11.3).
    #[tactic(auto, unfolding(crate::specs::Making::made_covered))]
    pub fn new(alloc: Global, content: Bytes, when: Time) -> Result<UnsignedContent, OutOfMemory>
        ensures { IfOk result (λ u. u ≡ record { content = content; moment = when }) }
    {
        let digest = Sha256::digest(content.as_slice());
        let mut attributes = Writer::new(alloc);
        write_content_type(&mut attributes)?;
        write_signing_time(when, &mut attributes)?;
        write_digest(&digest, &mut attributes)?;
        let covered = covered_octets(alloc, attributes.as_slice())?;
        let digest = Bytes::copy_from_slice(alloc, &digest)?;
        Ok(UnsignedContent {
            content,
            moment: when,
            digest,
            covered,
        })
    }

    /// The octets that are to be signed: the attributes in a SET (RFC 5652, 5.4).
    pub fn as_slice(&self) -> &[u8]
        ensures { result.now ≡ spec.made_covered self.now.content self.now.moment }
    {
        self.covered.as_slice()
    }

    /// The message with the signature of the attributes, the certificate of the key that they were signed with, by whose subject key
    /// identifier the signer is named, and a CRL. Whether signatures hold isn't looked at.
    pub fn into_message(
        self,
        alloc: Global,
        signature: Signature<RpkiSignatureAlgorithm>,
        certificate: IdCert,
        crl: SignedMessageCrl,
    ) -> Result<SignedMessage, OutOfMemory>
        ensures { IfOk result (λ m. m ≡ spec.assembled self signature certificate crl) }
    {
        let signer = certificate.tbs().subject_key_identifier();
        let mut crls = Vec::with_capacity(alloc, 1)?;
        crls.push(crl)?;
        let UnsignedContent {
            content,
            moment,
            digest,
            covered,
        } = self;
        Ok(SignedMessage {
            content,
            signer,
            digest,
            signing_time: Some(moment),
            covered,
            signature,
            certificate,
            crls,
        })
    }
}

/// A CRL that is to be signed: its fields, and the octets that the signature covers. In a clause it is the fields.
pub struct UnsignedCrl {
    tbs: SignedMessageTbsCrl,
    octets: Bytes,
}

impl Drop for UnsignedCrl {
    fn drop(self) {
        let UnsignedCrl { tbs, octets } = self;
    }
}

impl Model for UnsignedCrl {
    ghost use Rattle.std.specs.Prelude.{◌≡◌};
    ghost use Rattle.rpki_sigmsg.specs.Spelling.{spelled_tbs_crl};
    ghost use Rattle.rpki_sigmsg.specs.TbsCrl.{TbsCrlFields};

    ghost Value = { TbsCrlFields };

    ghost view = { λ u. u.tbs };

    ghost invariant = { λ u. u.octets ≡ spelled_tbs_crl u.tbs };
}

impl UnsignedCrl {
    /// A CRL of the issuing key without entries, for the time around a moment.
    pub fn new(
        alloc: Global,
        issuing_key: &PublicKey,
        window: Window,
    ) -> Result<UnsignedCrl, OutOfMemory>
        ensures { IfOk result (λ u. u ≡ spec.made_crl issuing_key.now window) }
    {
        let tbs = SignedMessageTbsCrl::new(alloc, issuing_key, window)?;
        let mut out = Writer::new(alloc);
        tbs.encode_ref(&mut out)?;
        let octets = out.into_captured()?.into_bytes();
        Ok(UnsignedCrl { tbs, octets })
    }

    /// The octets that are to be signed.
    pub fn as_slice(&self) -> &[u8]
        ensures { result.now ≡ spelled_tbs_crl self.now }
    {
        self.octets.as_slice()
    }

    /// The CRL with this signature, which isn't looked at. It takes no memory.
    pub fn with_signature(self, signature: Signature<RpkiSignatureAlgorithm>) -> SignedMessageCrl
        ensures { result ≡ record {
          signed = record { slice = spelled_tbs_crl self; signature = signature };
          tbs = self;
        } }
    {
        let UnsignedCrl { tbs, octets } = self;
        SignedMessageCrl::from_parts(octets, signature, tbs)
    }
}

/// What is to be signed of a message: the attributes of its content under a key for this one use; a CRL and a certificate for that
/// key under the issuing key. In a clause it is the record of the three.
pub struct UnsignedMessage {
    content: UnsignedContent,
    crl: UnsignedCrl,
    certificate: UnsignedIdCert,
}

impl Drop for UnsignedMessage {
    fn drop(self) {
        let UnsignedMessage {
            content,
            crl,
            certificate,
        } = self;
    }
}

impl Model for UnsignedMessage {
    ghost use Rattle.rpki_sigmsg.specs.Making.{UnsignedFields};

    ghost Value = { UnsignedFields };

    ghost view = { λ u. record {
      content = u.content;
      crl = u.crl;
      certificate = u.certificate;
    } };
}

impl UnsignedMessage {
    /// What is to be signed of a message with this content, at the moment of the window, by a holder of `key`, for which the holder
    /// of the issuing key issues a certificate with this serial number.
    pub fn new(
        alloc: Global,
        content: Bytes,
        window: Window,
        serial: Serial,
        key: &PublicKey,
        issuing_key: &PublicKey,
    ) -> Result<UnsignedMessage, OutOfMemory>
        ensures { IfOk result
            (spec.IsUnsignedFor content window serial key.now issuing_key.now) }
    {
        let content = UnsignedContent::new(alloc, content, window.moment())?;
        let crl = UnsignedCrl::new(alloc, issuing_key, window)?;
        let tbs = TbsIdCert::new(alloc, serial, window.validity(), key, issuing_key)?;
        let certificate = UnsignedIdCert::new(alloc, tbs)?;
        Ok(UnsignedMessage {
            content,
            crl,
            certificate,
        })
    }

    /// The octets of the attributes, which the key for this one use is to sign.
    pub fn attributes(&self) -> &[u8]
        ensures { result.now
            ≡ spec.made_covered self.now.content.content self.now.content.moment }
    {
        self.content.as_slice()
    }

    /// The octets of the CRL, which the issuing key is to sign.
    pub fn crl(&self) -> &[u8]
        ensures { result.now ≡ spelled_tbs_crl self.now.crl }
    {
        self.crl.as_slice()
    }

    /// The octets of the certificate, which the issuing key is to sign.
    pub fn certificate(&self) -> &[u8]
        ensures { result.now ≡ spelled_tbs self.now.certificate }
    {
        self.certificate.as_slice()
    }

    /// The message with these signatures of the three, which aren't looked at.
    pub fn into_message(
        self,
        alloc: Global,
        attributes: Signature<RpkiSignatureAlgorithm>,
        crl: Signature<RpkiSignatureAlgorithm>,
        certificate: Signature<RpkiSignatureAlgorithm>,
    ) -> Result<SignedMessage, OutOfMemory>
        ensures { IfOk result (λ m. m ≡ spec.signed_message_of self attributes crl certificate) }
    {
        let UnsignedMessage {
            content,
            crl: unsigned,
            certificate: made,
        } = self;
        let certificate = made.with_signature(certificate);
        let crl = unsigned.with_signature(crl);
        content.into_message(alloc, attributes, certificate, crl)
    }
}
