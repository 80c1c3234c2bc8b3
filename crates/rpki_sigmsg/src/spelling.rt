//! Writing CRLs and signed messages.

ghost use Rattle.std.specs.Prelude.{◌≡◌, ◌++◌, [], ◌<◌, ◌+◌, ◌^◌, length, false, IfOk, OnOk, OnErr};
ghost use Rattle.rpki_der.specs.Tags.{sequence, set, context, octet_string_tag};
ghost use Rattle.rpki_der.specs.Writing.{der_primitive, der_constructed};
ghost use Rattle.rpki_base.specs.RpkiSignatureAlgorithm.{spelled_x509};
ghost use Rattle.rpki_base.specs.SignedData.{spelled_data, CanSpellSigned};
ghost use Rattle.rpki_idcert.specs.Spelling.{spelled_extension};
ghost use Rattle.rpki_sigmsg.specs.Spelling as spec;

use crate::crl::SignedMessageCrl;
use crate::message::SignedMessage;
use crate::object_identifiers::{CT_XML, SIGNED_DATA};
use crate::revoked::{CrlEntry, RevokedCertificates};
use crate::tbs_crl::SignedMessageTbsCrl;
use rpki_base::{
    CRL_NUMBER, Serial, SignatureAlgorithm, can_be_spelled, write_constructed, write_primitive,
};
use rpki_der::{Captured, OutOfMemory, Tag, Writer};
use rpki_idcert::{write_authority_key, write_extension};
use std::alloc::Global;

// The version of CRLs, 2, and that of signed data and signer information, 3.
const CRL_VERSION: [u8; 3] = [0x02, 0x01, 0x01];

const CMS_VERSION: [u8; 3] = [0x02, 0x01, 0x03];

// SHA-256, without parameters.
const DIGEST_ALGORITHM: [u8; 13] = [0x30, 11, 6, 9, 96, 134, 72, 1, 101, 3, 4, 2, 1];

/// # Encoding
impl CrlEntry {
    /// Appends the entry in DER, without extensions. After a refusal nothing is appended.
    pub fn encode(&self, out: &mut Writer) -> Result<(), OutOfMemory>
        ensures ok { OnOk result (out.new ≡ out.old ++ spec.spelled_entry self.now) }
        ensures err { OnErr result (out.new ≡ out.old) }
    {
        let mut inner = out.inner();
        self.user_certificate.encode(&mut inner)?;
        self.revocation_date.to_der_varied(&mut inner)?;
        write_constructed(Tag::SEQUENCE, &inner, out)
    }
}

/// # Encoding
impl RevokedCertificates {
    /// Appends a SEQUENCE of the entries as they are held. After a refusal nothing is appended; entries that are longer than length
    /// octets can say are refused as want of memory.
    pub fn encode_ref(&self, out: &mut Writer) -> Result<(), OutOfMemory>
        ensures ok { OnOk result (out.new ≡ out.old ++ spec.spelled_revoked self.now) }
        ensures spelled { OnOk result (length self.now.octets < 2 ^ 32) }
        ensures err { OnErr result (out.new ≡ out.old) }
    {
        let mut inner = out.inner();
        inner.raw(self.as_slice())?;
        write_constructed(Tag::SEQUENCE, &inner, out)
    }
}

// Appends the number of a CRL as an extension, where it is there.
fn write_crl_number(number: Option<Serial>, out: &mut Writer) -> Result<(), OutOfMemory>
    ensures ok { OnOk result (out.new ≡ out.old ++ spec.spelled_crl_number number) }
    ensures err { OnErr result (out.new ≡ out.old) }
{
    let Some(number) = number else {
        return Ok(());
    };
    let mut value = out.inner();
    number.encode(&mut value)?;
    write_short_extension(&CRL_NUMBER, &value, out)
}

// Appends an extension that isn't critical, whose value another writer has; a value that is too long for it is refused as want of
// memory.
fn write_short_extension(
    identifier: &[u8; 3],
    value: &Writer,
    out: &mut Writer,
) -> Result<(), OutOfMemory>
    ensures ok { OnOk result
        (out.new ≡ out.old ++ spelled_extension identifier.now false value.now) }
    ensures err { OnErr result (out.new ≡ out.old) }
{
    if !can_be_spelled(identifier.len() + value.as_slice().len() + 64) {
        return Err(OutOfMemory);
    }
    write_extension(identifier, false, value.as_slice(), out)
}

/// # Encoding
impl SignedMessageTbsCrl {
    // Appends the extensions under their tags.
    fn write_extensions(&self, out: &mut Writer) -> Result<(), OutOfMemory>
        ensures ok { OnOk result (out.new ≡ out.old ++ der_constructed (context 0)
            (der_constructed sequence (spec.spelled_crl_extensions self.now))) }
    {
        let mut extensions = out.inner();
        write_authority_key(self.authority_key_id(), &mut extensions)?;
        write_crl_number(self.crl_number(), &mut extensions)?;
        let mut list = out.inner();
        write_constructed(Tag::SEQUENCE, &extensions, &mut list)?;
        write_constructed(Tag::CTX_0, &list, out)
    }

    // Appends the fields.
    fn write_fields(&self, out: &mut Writer) -> Result<(), OutOfMemory>
        ensures ok { OnOk result (out.new ≡ out.old ++ spec.spelled_crl_fields self.now) }
    {
        out.raw(&CRL_VERSION)?;
        self.algorithm().x509_encode(out)?;
        self.issuer().encode_ref(out)?;
        self.this_update().to_der_varied(out)?;
        self.next_update().to_der_varied(out)?;
        self.revoked_certs().encode_ref(out)?;
        self.write_extensions(out)
    }

    /// Appends what is held, in DER: the algorithm and the name as they are held, a SEQUENCE of the entries as they are held, also
    /// where none was there, and the two extensions, each where it is held. Whatever else was read isn't written. After a refusal
    /// nothing is appended; fields that are longer than length octets can say are refused as want of memory.
    #[tactic(auto, unfolding(crate::specs::Spelling::spelled_tbs_crl))]
    pub fn encode_ref(&self, out: &mut Writer) -> Result<(), OutOfMemory>
        ensures ok { OnOk result (out.new ≡ out.old ++ spec.spelled_tbs_crl self.now) }
        ensures spelled { OnOk result (spec.CrlCanBeSpelled self.now) }
        ensures err { OnErr result (out.new ≡ out.old) }
    {
        let mut fields = out.inner();
        self.write_fields(&mut fields)?;
        write_constructed(Tag::SEQUENCE, &fields, out)
    }
}

/// # Encoding
impl SignedMessageCrl {
    /// Appends the CRL: the octets that were signed as they are, the algorithm, and the signature with no unused bits. After a refusal
    /// nothing is appended; a CRL that is longer than length octets can say is refused as want of memory.
    pub fn encode_ref(&self, out: &mut Writer) -> Result<(), OutOfMemory>
        ensures ok { OnOk result (out.new ≡ out.old ++ spelled_data spelled_x509 self.now.signed) }
        ensures spelled { OnOk result (CanSpellSigned spelled_x509 self.now.signed) }
        ensures err { OnErr result (out.new ≡ out.old) }
    {
        self.signed_data().encode_ref(out)
    }
}

// Appends the CRLs.
fn write_crls(crls: &[SignedMessageCrl], out: &mut Writer) -> Result<(), OutOfMemory>
    ensures ok { OnOk result (out.new ≡ out.old ++ spec.spelled_crls crls.now) }
{
    for crl in crls {
        crl.encode_ref(out)?;
    }
    Ok(())
}

// Appends one OCTET STRING; what is longer than length octets can say is refused as want of memory.
fn write_octets(octets: &[u8], out: &mut Writer) -> Result<(), OutOfMemory>
    ensures ok { OnOk result (out.new ≡ out.old ++ der_primitive octet_string_tag octets.now) }
{
    write_primitive(Tag::OCTET_STRING, octets, out)
}

// Appends the algorithm of the digest.
#[tactic(auto, unfolding(crate::specs::Spelling::spelled_digest_algorithm))]
fn write_digest_algorithm(out: &mut Writer) -> Result<(), OutOfMemory>
    ensures ok { OnOk result (out.new ≡ out.old ++ spec.spelled_digest_algorithm) }
{
    out.raw(&DIGEST_ALGORITHM)
}

// The set of it alone.
fn write_digest_algorithms(out: &mut Writer) -> Result<(), OutOfMemory>
    ensures ok { OnOk result
        (out.new ≡ out.old ++ der_constructed set spec.spelled_digest_algorithm) }
{
    let mut inner = out.inner();
    write_digest_algorithm(&mut inner)?;
    write_constructed(Tag::SET, &inner, out)
}

// Appends the attributes that a signature covers, under [0].
fn write_attributes(covered: &[u8], out: &mut Writer) -> Result<(), OutOfMemory>
    ensures ok { OnOk result (out.new ≡ out.old ++ spec.under_context covered.now) }
{
    match covered {
        [] => Ok(()),
        [_, more @ ..] => {
            out.raw(&[0xA0])?;
            out.raw(more)
        }
    }
}

// Appends the octets as one string under a tag of its own.
fn write_octets_in(content: &[u8], out: &mut Writer) -> Result<(), OutOfMemory>
    ensures ok { OnOk result (out.new ≡ out.old ++ der_constructed (context 0)
        (der_primitive octet_string_tag content.now)) }
{
    let mut octets = out.inner();
    write_octets(content, &mut octets)?;
    write_constructed(Tag::CTX_0, &octets, out)
}

// Appends the content under its type.
#[tactic(auto, unfolding(crate::specs::Spelling::spelled_content))]
fn write_content(content: &[u8], out: &mut Writer) -> Result<(), OutOfMemory>
    ensures ok { OnOk result (out.new ≡ out.old ++ spec.spelled_content content.now) }
{
    let mut inner = out.inner();
    inner.primitive(Tag::OID, &CT_XML)?;
    write_octets_in(content, &mut inner)?;
    write_constructed(Tag::SEQUENCE, &inner, out)
}

/// # Encoding
impl SignedMessage {
    // Appends the fields of the signer.
    fn write_signer_fields(&self, out: &mut Writer) -> Result<(), OutOfMemory>
        ensures ok { OnOk result (out.new ≡ out.old ++ spec.signer_fields self.now) }
    {
        out.raw(&CMS_VERSION)?;
        out.primitive(Tag::CTX_0, self.signer.as_slice())?;
        write_digest_algorithm(out)?;
        write_attributes(self.covered.as_slice(), out)?;
        self.signature.algorithm().cms_encode(out)?;
        write_octets(self.signature.value().as_slice(), out)
    }

    // Appends the set of the one signer.
    #[tactic(auto, unfolding(crate::specs::Spelling::spelled_signer))]
    fn write_signers(&self, out: &mut Writer) -> Result<(), OutOfMemory>
        ensures ok { OnOk result
            (out.new ≡ out.old ++ der_constructed set (spec.spelled_signer self.now)) }
    {
        let mut fields = out.inner();
        self.write_signer_fields(&mut fields)?;
        let mut signer = out.inner();
        write_constructed(Tag::SEQUENCE, &fields, &mut signer)?;
        write_constructed(Tag::SET, &signer, out)
    }

    // Appends the certificate under its tag.
    fn write_certificates(&self, out: &mut Writer) -> Result<(), OutOfMemory>
        ensures ok { OnOk result (out.new ≡ out.old ++ der_constructed (context 0)
            (spelled_data spelled_x509 self.now.certificate.signed)) }
    {
        let mut inner = out.inner();
        self.ee_cert().encode_ref(&mut inner)?;
        write_constructed(Tag::CTX_0, &inner, out)
    }

    // Appends the CRLs under their tag.
    fn write_crl_set(&self, out: &mut Writer) -> Result<(), OutOfMemory>
        ensures ok { OnOk result
            (out.new ≡ out.old ++ der_constructed (context 1) (spec.spelled_crls self.now.crls)) }
    {
        let mut inner = out.inner();
        write_crls(self.crls(), &mut inner)?;
        write_constructed(Tag::CTX_1, &inner, out)
    }

    // Appends the fields of the signed data.
    #[tactic(auto, unfolding(crate::specs::Spelling::signed_data_fields))]
    fn write_fields(&self, out: &mut Writer) -> Result<(), OutOfMemory>
        ensures ok { OnOk result (out.new ≡ out.old ++ spec.signed_data_fields self.now) }
    {
        out.raw(&CMS_VERSION)?;
        write_digest_algorithms(out)?;
        write_content(self.content.as_slice(), out)?;
        self.write_certificates(out)?;
        self.write_crl_set(out)?;
        self.write_signers(out)
    }

    // Appends the signed data.
    fn write_data(&self, out: &mut Writer) -> Result<(), OutOfMemory>
        ensures ok { OnOk result
            (out.new ≡ out.old ++ der_constructed sequence (spec.signed_data_fields self.now)) }
    {
        let mut fields = out.inner();
        self.write_fields(&mut fields)?;
        write_constructed(Tag::SEQUENCE, &fields, out)
    }

    // Appends the type and the signed data.
    #[tactic(auto, unfolding(crate::specs::Spelling::message_parts))]
    fn write_parts(&self, out: &mut Writer) -> Result<(), OutOfMemory>
        ensures ok { OnOk result (out.new ≡ out.old ++ spec.message_parts self.now) }
    {
        let mut data = out.inner();
        self.write_data(&mut data)?;
        out.primitive(Tag::OID, &SIGNED_DATA)?;
        write_constructed(Tag::CTX_0, &data, out)
    }

    /// Appends the message in DER. The content and the signature are one OCTET STRING each; the attributes, and what is signed of the
    /// certificate and of each CRL, stand as they were read or made: where that was in BER, they may be no DER. After a refusal nothing is
    /// appended; a message that is longer than length octets can say is refused as want of memory.
    #[tactic(auto, unfolding(crate::specs::Spelling::rewritten))]
    pub fn encode_ref(&self, out: &mut Writer) -> Result<(), OutOfMemory>
        ensures ok { OnOk result (out.new ≡ out.old ++ spec.rewritten self.now) }
        ensures spelled { OnOk result (spec.CanSpellMessage self.now) }
        ensures err { OnErr result (out.new ≡ out.old) }
    {
        let mut parts = out.inner();
        self.write_parts(&mut parts)?;
        write_constructed(Tag::SEQUENCE, &parts, out)
    }

    /// What `encode_ref` appends, by itself.
    pub fn to_captured(&self, alloc: Global) -> Result<Captured, OutOfMemory>
        ensures octets { IfOk result (λ c. c ≡ spec.rewritten self.now) }
        ensures spelled { OnOk result (spec.CanSpellMessage self.now) }
    {
        let mut out = Writer::new(alloc);
        self.encode_ref(&mut out)?;
        out.into_captured()
    }
}
