//! Signed messages.

ghost use Rattle.std.specs.Prelude.{◌≡◌, ◌↔◌, ◌<◌, ◌∷◌, List, IsTrue, IfOk};
ghost use Rattle.sha2.specs.Sha256.{sha256};
ghost use Rattle.rpki_der.specs.Takes.{Takes, Decodes};
ghost use Rattle.rpki_der.specs.Ticks.{TakesCounted, DecodesCounted};
ghost use Rattle.rpki_der.specs.Whole.{HoldsOne};
ghost use Rattle.rpki_sigmsg.specs.ObjectIdentifiers.{xml_content};
ghost use Rattle.rpki_sigmsg.specs.Crl.{CrlFields};
ghost use Rattle.rpki_sigmsg.specs.Message.{AreOneOrTwo, signed_message, mode_of};

use crate::crl::SignedMessageCrl;
use crate::object_identifiers::CT_XML;
use crate::reference::SignedMessageRef;
use bytes::Bytes;
use rpki_base::{KeyIdentifier, RpkiSignatureAlgorithm, Signature, Time};
use rpki_der::{Cursor, DecodeError, Mode, OutOfMemory, Steps};
use rpki_idcert::IdCert;
use sha2::{Digest, Sha256};
use std::alloc::Global;
use std::marker::{Brand, Model};
use std::sync::ledger::{Blank, Ledger};

/// A signed message: what it says, who signed it, and the certificate and the one or two CRLs that come with it (RFC 5652, 5.1;
/// RFC 6492, 3.1.1; RFC 8181, 2).
///
/// In a clause it is the record of its fields.
pub struct SignedMessage {
    pub(crate) content: Bytes,
    pub(crate) signer: KeyIdentifier,
    pub(crate) digest: Bytes,
    pub(crate) signing_time: Option<Time>,
    pub(crate) covered: Bytes,
    pub(crate) signature: Signature<RpkiSignatureAlgorithm>,
    pub(crate) certificate: IdCert,
    pub(crate) crls: Vec<SignedMessageCrl>,
}

// By hand, so that whoever lets a message go calls this, and its parts are not spelled out there.
impl Drop for SignedMessage {
    fn drop(self) {
        let SignedMessage {
            content,
            signer,
            digest,
            signing_time,
            covered,
            signature,
            certificate,
            crls,
        } = self;
    }
}

impl Model for SignedMessage {
    ghost use Rattle.rpki_sigmsg.specs.Message.{AreOneOrTwo, MessageFields};

    ghost Value = { MessageFields };

    ghost view = { λ m. record {
      content = m.content;
      signer = m.signer;
      digest = m.digest;
      signing_time = m.signing_time;
      covered = m.covered;
      signature = m.signature;
      certificate = m.certificate;
      crls = m.crls.items;
    } };

    ghost invariant = { λ m. AreOneOrTwo m.crls.items };
}

/// The mode of strict or loose reading: DER or BER.
pub(crate) fn mode_of(strict: bool) -> Mode
    ensures { result ≡ mode_of strict }
{
    if strict { Mode::Der } else { Mode::Ber }
}

/// # Decoding
impl SignedMessage {
    /// The message at the beginning of the octets, in DER where `strict` is set and otherwise in BER; what stands behind it isn't
    /// read. The CRLs are in DER in both.
    ///
    /// Malformed exactly where no beginning of the octets is a message.
    pub fn decode(alloc: Global, octets: &[u8], strict: bool) -> Result<SignedMessage, DecodeError>
        ensures { Decodes (signed_message (mode_of strict)) (λ m. m) (mode_of strict) octets.now
            result }
    {
        let mut cursor = Cursor::new(alloc, mode_of(strict), octets);
        SignedMessage::take_from(alloc, &mut cursor)
    }

    /// Answers as `decode` does, and ticks each time it looks at a header, and for each end mark, but not where it reads an algorithm
    /// again from its octets: at most three times an octet, and eight times more where it refuses.
    pub fn decode_counted<L: Ledger>(
        alloc: Global,
        octets: &[u8],
        strict: bool,
        steps: &mut Steps<L>,
    ) -> Result<SignedMessage, DecodeError>
        ensures { DecodesCounted 3 (signed_message (mode_of strict)) (λ m. m) (mode_of strict)
            octets.now steps.old steps.new result }
    {
        let mut cursor = Cursor::new(alloc, mode_of(strict), octets);
        SignedMessage::take_from_counted(alloc, &mut cursor, steps)
    }

    /// The message that the octets hold, by the rules of the mode, with nothing behind it; Malformed exactly where they hold none.
    pub fn take(alloc: Global, mode: Mode, octets: &[u8]) -> Result<SignedMessage, DecodeError>
        ensures { HoldsOne (signed_message mode) (λ m. m) mode octets.now result }
    {
        let mut cursor = Cursor::new(alloc, mode, octets);
        let found = SignedMessage::take_from(alloc, &mut cursor)?;
        if !cursor.end() {
            return Err(DecodeError::Malformed);
        }
        Ok(found)
    }

    fn take_from_within<L: Ledger>(
        alloc: Global,
        cursor: &mut Cursor<'_>,
        blank: Blank,
    ) -> Result<SignedMessage, DecodeError>
        requires name { blank.name ≡ L.name }
        requires parts { blank.parts ≡ L.parts }
        requires some { 0 < blank.parts }
        ensures { Takes (signed_message cursor.old.mode) (λ m. m) cursor.old cursor.new result }
    {
        let mut steps = Steps::<L>::new(blank);
        SignedMessage::take_from_counted(alloc, cursor, &mut steps)
    }

    /// The message that stands next, by the cursor's rules; Malformed exactly where none does. The CRLs are in DER in both modes.
    pub fn take_from(alloc: Global, cursor: &mut Cursor<'_>) -> Result<SignedMessage, DecodeError>
        ensures { Takes (signed_message cursor.old.mode) (λ m. m) cursor.old cursor.new result }
    {
        SignedMessage::take_from_within::<Brand>(alloc, cursor, Blank::new(1))
    }

    /// The message that stands next, as `take_from` reads it. It ticks each time it looks at a header, and for each end mark,
    /// but not where it reads an algorithm again from its octets.
    pub fn take_from_counted<L: Ledger>(
        alloc: Global,
        cursor: &mut Cursor<'_>,
        steps: &mut Steps<L>,
    ) -> Result<SignedMessage, DecodeError>
        ensures { TakesCounted 3 (signed_message cursor.old.mode) (λ m. m)
            cursor.old cursor.new steps.old steps.new result }
    {
        let view = SignedMessageRef::take_from_counted(alloc, cursor, steps)?;
        Ok(view.into_message())
    }
}

/// # Data access
impl SignedMessage {
    /// The contents octets of the content's object identifier, which is that of XML (RFC 6492, 3.1.1.3).
    pub fn content_type(&self) -> &[u8]
        ensures { result.now ≡ xml_content }
    {
        &CT_XML
    }

    /// The content, its segments joined.
    pub fn content(&self) -> &Bytes
        ensures { result.now ≡ self.now.content }
    {
        &self.content
    }

    /// The octets of the digest that was signed, in the attribute messageDigest (RFC 5652, 11.2).
    pub fn digest(&self) -> &[u8]
        ensures { result.now ≡ self.now.digest }
    {
        self.digest.as_slice()
    }

    /// Whether the content's SHA-256 is the digest that was signed (RFC 5652, 5.4). It takes no memory.
    pub fn digest_holds(&self) -> bool
        ensures { IsTrue result ↔ (sha256 self.now.content ≡ self.now.digest) }
    {
        let digest = Sha256::digest(self.content.as_slice());
        digest.as_slice() == self.digest.as_slice()
    }

    /// The time of signing, if a signed attribute says it (RFC 5652, 11.3).
    pub fn signing_time(&self) -> Option<Time>
        ensures { result ≡ self.now.signing_time }
    {
        self.signing_time
    }

    /// The key identifier by which the signer is named (RFC 5652, 5.3).
    pub fn signer_identifier(&self) -> KeyIdentifier
        ensures { result ≡ self.now.signer }
    {
        self.signer
    }

    /// The octets that the signature covers: the signed attributes as they stand, in a SET with a DER length (RFC 5652, 5.4). Where the
    /// message was read in BER they may be no DER.
    pub fn covered(&self) -> &Bytes
        ensures { result.now ≡ self.now.covered }
    {
        &self.covered
    }

    /// The signature over these octets, and its algorithm.
    pub fn signature(&self) -> &Signature<RpkiSignatureAlgorithm>
        ensures { result.now ≡ self.now.signature }
    {
        &self.signature
    }

    /// The certificate of the signer's key.
    pub fn ee_cert(&self) -> &IdCert
        ensures { result.now ≡ self.now.certificate }
    {
        &self.certificate
    }

    /// The CRLs that come with the message, one or two.
    pub fn crls(&self) -> &[SignedMessageCrl]
        ensures crls { result.now ≡ self.now.crls }
        ensures few { AreOneOrTwo result.now }
    {
        self.crls.as_slice()
    }

    /// The first of the CRLs.
    pub fn crl(&self) -> &SignedMessageCrl
        ensures { (more : List CrlFields) × (self.now.crls ≡ result.now ∷ more) }
    {
        match self.crls() {
            [first, ..] => first,
            [] => unreachable!(),
        }
    }

    /// An equal message that shares its octets with this one.
    pub fn clone(&self, alloc: Global) -> Result<SignedMessage, OutOfMemory>
        ensures { IfOk result (λ m. m ≡ self.now) }
    {
        let content = self.content.clone()?;
        let digest = self.digest.clone()?;
        let covered = self.covered.clone()?;
        let signature = self.signature.clone(alloc)?;
        let certificate = self.certificate.clone(alloc)?;
        let crls = clones(alloc, self.crls())?;
        Ok(SignedMessage {
            content,
            signer: self.signer,
            digest,
            signing_time: self.signing_time,
            covered,
            signature,
            certificate,
            crls,
        })
    }
}

// Equal CRLs that share their octets with these.
fn clones(alloc: Global, crls: &[SignedMessageCrl]) -> Result<Vec<SignedMessageCrl>, OutOfMemory>
    ensures { IfOk result (λ list. list.items ≡ crls.now) }
{
    let mut list = Vec::with_capacity(alloc, crls.len())?;
    for crl in crls {
        list.push(crl.clone(alloc)?)?;
    }
    Ok(list)
}
