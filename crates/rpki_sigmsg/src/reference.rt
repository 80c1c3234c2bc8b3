//! Views of signed messages.

ghost use Rattle.std.specs.Prelude.{◌≡◌, ◌<◌, IfOk};
ghost use Rattle.std.specs.Option.{option_copied};
ghost use Rattle.rpki_der.specs.Grammar.{wrapped};
ghost use Rattle.rpki_der.specs.Tags.{context};
ghost use Rattle.rpki_der.specs.Takes.{Takes, Decodes};
ghost use Rattle.rpki_der.specs.Ticks.{TakesCounted};
ghost use Rattle.rpki_sigmsg.specs.Attributes.{covered};
ghost use Rattle.rpki_sigmsg.specs.Message as spec;

use crate::attributes::covered_octets;
use crate::content::{pass_digest_algorithms, take_encapsulated_content};
use crate::message::{SignedMessage, mode_of};
use crate::object_identifiers::SIGNED_DATA;
use crate::parts::{CrlSet, take_certificates, take_crls};
use crate::signer::{SignerInfo, take_signer_infos};
use bytes::Bytes;
use rpki_der::{
    Cursor, DecodeError, OutOfMemory, Steps, Tag, take_integer_if_counted, take_oid_if_counted,
};
use rpki_idcert::IdCert;
use std::alloc::Global;
use std::marker::{Brand, Model};
use std::sync::ledger::{Blank, Ledger};

/// A signed message as it stands in the octets from which it was read: what it says, and the places of its parts.
///
/// In a clause it is the record of these, with the octets as lists.
#[derive(Drop)]
pub struct SignedMessageRef<'a> {
    message: SignedMessage,
    content_value: &'a [u8],
    certificate: &'a [u8],
    crl: &'a [u8],
    second_crl: Option<&'a [u8]>,
    attributes: &'a [u8],
    signature_value: &'a [u8],
}

impl<'a> Model for SignedMessageRef<'a> {
    ghost use Rattle.std.specs.Option.{option_copied};
    ghost use Rattle.rpki_sigmsg.specs.Message.{ViewFields};

    ghost Value = { ViewFields };

    ghost view = { λ m. record {
      message = m.message;
      content_value = m.content_value.now;
      certificate = m.certificate.now;
      crl = m.crl.now;
      second_crl = option_copied m.second_crl;
      attributes = m.attributes.now;
      signature_value = m.signature_value.now;
    } };
}

/// # Data access
impl<'a> SignedMessageRef<'a> {
    /// The OCTET STRING that holds the content, its header among the octets (RFC 5652, 5.2).
    pub fn content_value(&self) -> &'a [u8]
        ensures { result.now ≡ self.now.content_value }
    {
        self.content_value
    }

    /// The certificate of the signer's key, its header among the octets.
    pub fn certificate(&self) -> &'a [u8]
        ensures { result.now ≡ self.now.certificate }
    {
        self.certificate
    }

    /// The first CRL, its header among the octets.
    pub fn crl(&self) -> &'a [u8]
        ensures { result.now ≡ self.now.crl }
    {
        self.crl
    }

    /// The second CRL, where there are two, its header among the octets.
    pub fn second_crl(&self) -> Option<&'a [u8]>
        ensures { option_copied result ≡ self.now.second_crl }
    {
        self.second_crl
    }

    /// The signed attributes, one behind the other, without the header and the end mark that are round them (RFC 5652, 5.3).
    pub fn attributes(&self) -> &'a [u8]
        ensures { result.now ≡ self.now.attributes }
    {
        self.attributes
    }

    /// The OCTET STRING that holds the signature, its header among the octets (RFC 5652, 5.3).
    pub fn signature_value(&self) -> &'a [u8]
        ensures { result.now ≡ self.now.signature_value }
    {
        self.signature_value
    }

    /// The message, which no longer needs the octets from which it was read.
    pub fn to_message(&self, alloc: Global) -> Result<SignedMessage, OutOfMemory>
        ensures { IfOk result (λ m. m ≡ self.now.message) }
    {
        self.message.clone(alloc)
    }

    /// The message in place of the view, without memory.
    pub fn into_message(self) -> SignedMessage
        ensures { result ≡ self.entry.message }
    {
        self.message
    }

    // The view of a message by its parts.
    fn new(
        content: (&'a [u8], Bytes),
        certificate: (&'a [u8], IdCert),
        crls: CrlSet<'a>,
        signer: SignerInfo<'a>,
        signed: Bytes,
    ) -> SignedMessageRef<'a>
        requires { signed ≡ covered signer.attributes }
        ensures { result ≡ spec.view_of (content.entry.0.now, content.entry.1)
            (certificate.entry.0.now, certificate.entry.1) crls.entry signer.entry }
    {
        SignedMessageRef {
            message: SignedMessage {
                content: content.1,
                signer: signer.identifier,
                digest: signer.said.digest,
                signing_time: signer.said.signing_time,
                covered: signed,
                signature: signer.signature,
                certificate: certificate.1,
                crls: crls.lists,
            },
            content_value: content.0,
            certificate: certificate.0,
            crl: crls.first,
            second_crl: crls.second,
            attributes: signer.attributes,
            signature_value: signer.signature_value,
        }
    }
}

// The parts of signed data.
fn take_signed_parts<'a, L: Ledger>(
    alloc: Global,
    cursor: &mut Cursor<'a>,
    steps: &mut Steps<L>,
) -> Result<SignedMessageRef<'a>, DecodeError>
    ensures { TakesCounted 3 (spec.signed_parts cursor.old.mode) (λ x. x)
        cursor.old cursor.new steps.old steps.new result }
{
    cursor.enter_counted(Tag::SEQUENCE, steps)?;
    take_integer_if_counted(cursor, 3, steps)?;
    pass_digest_algorithms(cursor, steps)?;
    let content = take_encapsulated_content(alloc, cursor, steps)?;
    let certificate = take_certificates(alloc, cursor, steps)?;
    let crls = take_crls(alloc, cursor, steps)?;
    let signer = take_signer_infos(alloc, cursor, steps)?;
    let signed = covered_octets(alloc, signer.attributes)?;
    cursor.leave_counted(steps)?;
    Ok(SignedMessageRef::new(content, certificate, crls, signer, signed))
}

fn take_explicit_parts<'a, L: Ledger>(
    alloc: Global,
    cursor: &mut Cursor<'a>,
    steps: &mut Steps<L>,
) -> Result<SignedMessageRef<'a>, DecodeError>
    ensures { TakesCounted 3 (wrapped (context 0) (spec.signed_parts cursor.old.mode)) (λ x. x)
        cursor.old cursor.new steps.old steps.new result }
{
    cursor.enter_counted(Tag::CTX_0, steps)?;
    let view = take_signed_parts(alloc, cursor, steps)?;
    cursor.leave_counted(steps)?;
    Ok(view)
}

/// # Decoding
impl<'a> SignedMessageRef<'a> {
    /// The view of the message at the beginning of the octets, in DER where `strict` is set and otherwise in BER; what stands
    /// behind it isn't read. The CRLs are in DER in both.
    ///
    /// Malformed exactly where no beginning of the octets is a message.
    pub fn decode(
        alloc: Global,
        octets: &'a [u8],
        strict: bool,
    ) -> Result<SignedMessageRef<'a>, DecodeError>
        ensures { Decodes (spec.viewed_message (spec.mode_of strict)) (λ m. m) (spec.mode_of strict)
            octets.now result }
    {
        let mut cursor = Cursor::new(alloc, mode_of(strict), octets);
        SignedMessageRef::take_from(alloc, &mut cursor)
    }

    fn take_from_within<L: Ledger>(
        alloc: Global,
        cursor: &mut Cursor<'a>,
        blank: Blank,
    ) -> Result<SignedMessageRef<'a>, DecodeError>
        requires name { blank.name ≡ L.name }
        requires parts { blank.parts ≡ L.parts }
        requires some { 0 < blank.parts }
        ensures { Takes (spec.viewed_message cursor.old.mode) (λ m. m)
            cursor.old cursor.new result }
    {
        let mut steps = Steps::<L>::new(blank);
        SignedMessageRef::take_from_counted(alloc, cursor, &mut steps)
    }

    /// The view of the message that stands next, by the cursor's rules; Malformed exactly where none does. The CRLs are in DER in both
    /// modes.
    pub fn take_from(
        alloc: Global,
        cursor: &mut Cursor<'a>,
    ) -> Result<SignedMessageRef<'a>, DecodeError>
        ensures { Takes (spec.viewed_message cursor.old.mode) (λ m. m)
            cursor.old cursor.new result }
    {
        SignedMessageRef::take_from_within::<Brand>(alloc, cursor, Blank::new(1))
    }

    /// The view of the message that stands next, as `take_from` reads it. It ticks each time it looks at a header, and for each end mark,
    /// but not where it reads an algorithm again from its octets.
    pub fn take_from_counted<L: Ledger>(
        alloc: Global,
        cursor: &mut Cursor<'a>,
        steps: &mut Steps<L>,
    ) -> Result<SignedMessageRef<'a>, DecodeError>
        ensures { TakesCounted 3 (spec.viewed_message cursor.old.mode) (λ m. m)
            cursor.old cursor.new steps.old steps.new result }
    {
        cursor.enter_counted(Tag::SEQUENCE, steps)?;
        take_oid_if_counted(cursor, &SIGNED_DATA, steps)?;
        let view = take_explicit_parts(alloc, cursor, steps)?;
        cursor.leave_counted(steps)?;
        Ok(view)
    }
}
