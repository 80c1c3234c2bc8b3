//! What is to be signed of a message, and the message with its signatures.

ghost use Rattle.std.specs.Prelude.{◌≡◌, ◌++◌, Decides, IfErr, IfOk, List, ℕ};
ghost use Rattle.rpki_der.specs.declared.mode.Mode.{Mode};
ghost use Rattle.rpki_der.specs.Takes.{BeginsAs};
ghost use Rattle.rpki_sigmsg.specs.Message.{signed_message};
ghost use Rattle.rpki_sigmsg.specs.Spelling.{CanSpellMessage, rewritten};
ghost use Rattle.rpki_external.specs.Making as spec;
ghost use Rattle.rpki_external.specs.declared.preparing.PrepareError.TheVariants as variant;

use bytes::Bytes;
use rpki_base::{PublicKey, PublicKeyFormat, RpkiSignatureAlgorithm, Serial, Signature, Time};
use rpki_common::OutOfMemory;
use rpki_sigmsg::{SignedMessage, UnsignedMessage, Window, content_is_within_limit};
use rpki_signer::is_within_limit;
use rpki_text::uri;
use std::alloc::Global;
use thiserror::Error;

/// When a message is made, and with which keys.
#[derive(Drop)]
pub struct Plan {
    /// The moment. Certificate and CRL are valid from 300 seconds before it to 300 seconds after it.
    pub when: Time,
    /// The serial number of the certificate.
    pub serial: Serial,
    /// The key that issues certificate and CRL.
    pub issuing_key: PublicKey,
    /// The key for this one use, which signs the attributes.
    pub key: PublicKey,
}

/// Three signatures of RSA with SHA-256, in PKCS#1 v1.5 (RFC 7935, 2): their octets.
#[derive(Drop)]
pub struct Signatures {
    /// That of the attributes, under the key for one use.
    pub attributes: Bytes,
    /// That of the CRL, under the issuing key.
    pub crl: Bytes,
    /// That of the certificate, under the issuing key.
    pub certificate: Bytes,
}

/// Why nothing is prepared or finished.
#[derive(Clone, Copy, Debug, PartialEq, Eq, Error)]
pub enum PrepareError {
    /// The 300 seconds before or after the moment leave the years 1970 to 9999.
    #[error("the moment has no window")]
    Moment,
    /// The content has more than 2^31 octets, or a key or a signature more than 2^16.
    #[error("content, key or signature too long")]
    TooLong,
    /// A key is no RSA key.
    #[error("a key is no RSA key")]
    IncompatibleKey,
    /// The key for one use is the issuing key.
    #[error("the one-off key is the issuing key")]
    KeyReused,
    /// The URI of a request's repository with a slash behind it is unlawful. What is inside is never `OutOfMemory`.
    #[error("the URI with its slash is unlawful")]
    Uri(uri::Error),
    /// Memory ran out.
    #[error("out of memory")]
    OutOfMemory,
}

impl From<OutOfMemory> for PrepareError {
    ghost from_gives = { λ _ e. e ≡ variant.OutOfMemory };

    fn from(_: OutOfMemory) -> PrepareError {
        PrepareError::OutOfMemory
    }
}

impl Plan {
    // Whether content and keys are within their limits.
    fn is_within_limits(&self, content: &[u8]) -> bool
        ensures { Decides result (spec.AreWithinLimits content.now self.now) }
    {
        content_is_within_limit(content)
            && is_within_limit(self.issuing_key.bits_bytes().as_slice())
            && is_within_limit(self.key.bits_bytes().as_slice())
    }

    // Whether both keys are RSA keys.
    fn is_rsa(&self) -> bool
        ensures { Decides result (spec.AreRsa self.now) }
    {
        self.issuing_key.format() == PublicKeyFormat::Rsa
            && self.key.format() == PublicKeyFormat::Rsa
    }

    // Whether both keys are the same.
    fn has_one_key(&self) -> bool
        ensures { Decides result (self.now.key ≡ self.now.issuing_key) }
    {
        &self.key == &self.issuing_key
    }
}

impl Signatures {
    // Whether each is within its limit.
    fn is_short(&self) -> bool
        ensures { Decides result (spec.AreShort self.now) }
    {
        is_within_limit(self.attributes.as_slice())
            && is_within_limit(self.crl.as_slice())
            && is_within_limit(self.certificate.as_slice())
    }
}

/// What is to be signed of a message with this content: the attributes, by the holder of the key for one use; and an empty CRL and
/// the certificate of that key, by the holder of the issuing key. They are valid from 300 seconds before the moment to 300 seconds
/// after it.
///
/// The first of these decides: Moment where the window leaves the years 1970 to 9999, TooLong where the content has more than 2^31
/// octets or the bits of a key more than 2^16, IncompatibleKey where a key is no RSA key, KeyReused where they are the same.
pub fn prepare(alloc: Global, content: Bytes, plan: &Plan) -> Result<UnsignedMessage, PrepareError>
    ensures prepared { IfOk result (λ u. u ≡ spec.unsigned content plan.now) }
    ensures can { IfOk result (λ _. spec.CanPrepare content plan.now) }
    ensures err { IfErr result (spec.PrepareFails content plan.now) }
{
    let Some(window) = Window::new(plan.when) else {
        return Err(PrepareError::Moment);
    };
    if !plan.is_within_limits(content.as_slice()) {
        return Err(PrepareError::TooLong);
    }
    if !plan.is_rsa() {
        return Err(PrepareError::IncompatibleKey);
    }
    if plan.has_one_key() {
        return Err(PrepareError::KeyReused);
    }
    Ok(UnsignedMessage::new(
        alloc,
        content,
        window,
        plan.serial,
        &plan.key,
        &plan.issuing_key,
    )?)
}

/// A signature of these octets, under rsaEncryption with NULL.
pub(crate) fn signature_of(octets: Bytes) -> Signature<RpkiSignatureAlgorithm>
    ensures { result ≡ spec.signature_of octets }
{
    Signature::new(RpkiSignatureAlgorithm::default(), octets)
}

/// The message with this content and these signatures of what [`prepare`] gives for the same content and plan. They aren't looked at,
/// but for their lengths: TooLong comes as there, and where one has more than 2^16 octets; the other errors are those of `prepare`.
/// Where they hold it is believed under the issuing key at each second of the window ([`crate::finished_is_believed`]).
pub fn finish(
    alloc: Global,
    content: Bytes,
    plan: &Plan,
    signatures: Signatures,
) -> Result<SignedMessage, PrepareError>
    ensures finished { IfOk result (λ m. m ≡ spec.finished content plan.now signatures) }
    ensures can { IfOk result (λ _. spec.CanPrepare content plan.now) }
    ensures short { IfOk result (λ _. spec.AreShort signatures) }

    // What is written of it is read again, in both modes, whatever stands behind it.
    ensures again { IfOk result (λ m. (mode : Mode) (rest : List ℕ) → CanSpellMessage m
        → BeginsAs (signed_message mode) mode (rewritten m ++ rest) m) }
    ensures err { IfErr result (spec.FinishFails content plan.now signatures) }
{
    let unsigned = prepare(alloc, content, plan)?;
    if !signatures.is_short() {
        return Err(PrepareError::TooLong);
    }
    let Signatures {
        attributes,
        crl,
        certificate,
    } = signatures;
    Ok(unsigned.into_message(
        alloc,
        signature_of(attributes),
        signature_of(crl),
        signature_of(certificate),
    )?)
}
