//! Creating signed messages.

ghost use Rattle.std.specs.Prelude.{◌≡◌, ◌++◌, ◌≤ℤ◌, ◌<◌, ◌≤◌, ◌^◌, ◌⊎◌, ℕ, ℤ, List, length, Decides, IsOk, IfOk, OnOk, IfErr, IsErrOf, MatchResult};
ghost use Rattle.rpki_common.specs.Limits.{most_content};
ghost use Rattle.rpki_der.specs.declared.mode.Mode.{Mode};
ghost use Rattle.rpki_der.specs.Takes.{BeginsAs};
ghost use Rattle.rpki_base.specs.PublicKey.{KeyFields};
ghost use Rattle.rpki_signer.specs.Limits.{Keeps, RefusesSignature, default_algorithm};
ghost use Rattle.rpki_signer.specs.Signer.{HoldsKey, AreDistinct};
ghost use Rattle.rpki_sigmsg.specs.Checks.{IsBelieved};
ghost use Rattle.rpki_sigmsg.specs.Making as spec;
ghost use Rattle.rpki_sigmsg.specs.declared.create_error.CreateError.TheVariants as create;
ghost use Rattle.rpki_sigmsg.specs.Message.{signed_message};
ghost use Rattle.rpki_sigmsg.specs.Spelling.{rewritten, CanSpellMessage};
ghost use Rattle.rpki_sigmsg.specs.FirstRefusals.{HasKeys, StopsAtKeys, StopsCertifying, IsFirstRefusal};

use crate::create_error::CreateError;
use crate::crl::SignedMessageCrl;
use crate::message::SignedMessage;
use crate::unsigned::{UnsignedContent, UnsignedCrl};
use crate::window::Window;
use bytes::Bytes;
use rpki_base::{PublicKey, RpkiSignatureAlgorithm, Scheme, Signature, Time};
use rpki_idcert::IdCert;
use rpki_signer::{MakeError, Signer, key_within_limit, sign_once_within_limit, sign_within_limit};
use std::alloc::Global;

/// The most octets that a content may have.
const CONTENT_LIMIT: usize = 1 << 31;

/// Whether a content is not too long for a signed message that is made: at most 2^31 octets.
pub fn content_is_within_limit(content: &[u8]) -> bool
    ensures within { Decides result (length content.now ≤ most_content) }
{
    content.len() <= CONTENT_LIMIT
}

fn is_same(a: &PublicKey, b: &PublicKey) -> bool
    ensures { Decides result (a.now ≡ b.now) }
{
    a == b
}

// The signature of the message under a key for this one use, that key, and the issuing key.
fn sign_once_and_get_key<P: Scheme, S: Signer<P>>(
    alloc: Global,
    message: &[u8],
    issuing_key_id: &S::KeyId,
    signer: &mut S,
) -> Result<(Signature<RpkiSignatureAlgorithm>, PublicKey, PublicKey), MakeError<S::Error>>
    ensures keys { MatchResult result
        (λ r. HasKeys P.checks message.now issuing_key_id.now
        (S.state signer.old) (S.state signer.new) r.0.value r.1 r.2)
        (λ e. Keeps (S.state signer.old) (S.state signer.new)
        × StopsAtKeys P.checks message.now issuing_key_id.now
        (S.state signer.old) (S.state signer.new) e) }
    ensures algorithm { IfOk result (λ r. r.0.algorithm ≡ default_algorithm) }
    ensures distinct { AreDistinct (S.state signer.new).keyring }
{
    let (signature, key) = sign_once_within_limit(alloc, message, signer)?;
    let issuing_key = key_within_limit(alloc, issuing_key_id, signer)?;
    Ok((signature, key, issuing_key))
}

// The CRL of the issuing key, signed.
fn sign_crl<P: Scheme, S: Signer<P>>(
    alloc: Global,
    issuing_key: &PublicKey,
    window: Window,
    issuing_key_id: &S::KeyId,
    signer: &mut S,
) -> Result<SignedMessageCrl, MakeError<S::Error>>
    ensures signed { MatchResult result
        (spec.IsCrlSigned P.checks issuing_key.now window issuing_key_id.now
        (S.state signer.old) (S.state signer.new))
        (RefusesSignature P.checks issuing_key_id.now
        (S.state signer.old) (S.state signer.new)) }
    ensures distinct { IsOk result → AreDistinct (S.state signer.new).keyring }
{
    let crl = UnsignedCrl::new(alloc, issuing_key, window)?;
    let signature = sign_within_limit(alloc, issuing_key_id, crl.as_slice(), signer)?;
    Ok(crl.with_signature(signature))
}

// The CRL of the issuing key, and its certificate for another key, with a serial number that the signer draws.
fn certify<P: Scheme, S: Signer<P>>(
    alloc: Global,
    issuing_key: &PublicKey,
    key: &PublicKey,
    window: Window,
    issuing_key_id: &S::KeyId,
    signer: &mut S,
) -> Result<(SignedMessageCrl, IdCert), MakeError<S::Error>>
    requires holds { HoldsKey (S.state signer.old).keyring issuing_key_id.now issuing_key.now }
    requires distinct { AreDistinct (S.state signer.old).keyring }
    ensures { MatchResult result
        (λ r. spec.IsCertified P.checks issuing_key.now key.now window
        (S.state signer.old) (S.state signer.new) r.0 r.1)
        (λ e. Keeps (S.state signer.old) (S.state signer.new)
        × ((S.state signer.new).drawn ≡ (S.state signer.old).drawn)
        × StopsCertifying P.checks issuing_key.now window issuing_key_id.now
        (S.state signer.old) (S.state signer.new) e) }
{
    let crl = sign_crl(alloc, issuing_key, window, issuing_key_id, signer)?;
    let certificate = IdCert::new_ee(alloc, key, window.validity(), issuing_key_id, signer)?;
    Ok((crl, certificate))
}

// The message with this content, at the moment of the window.
fn create_within<P: Scheme, S: Signer<P>>(
    alloc: Global,
    content: Bytes,
    window: Window,
    issuing_key_id: &S::KeyId,
    signer: &mut S,
) -> Result<SignedMessage, CreateError<S::Error>>
    requires has_window { spec.HasWindow window }
    requires short { length content ≤ most_content }
    ensures created { MatchResult result
        (spec.IsMessageCreated P.checks content window issuing_key_id.now
        (S.state signer.old) (S.state signer.new))
        (spec.CreateFails content window issuing_key_id.now
        (S.state signer.old) (S.state signer.new)) }
    ensures first_refusal { IfErr result (IsFirstRefusal P.checks content window issuing_key_id.now
        (S.state signer.old) (S.state signer.new)) }
    ensures keeps { Keeps (S.state signer.old) (S.state signer.new) }
    ensures kept { OnOk result
        ((S.state signer.new).faults ≡ (S.state signer.old).faults) }
{
    let content = UnsignedContent::new(alloc, content, window.moment())?;
    let (signature, key, issuing_key) = sign_once_and_get_key(
        alloc,
        content.as_slice(),
        issuing_key_id,
        signer,
    )?;
    if is_same(&key, &issuing_key) {
        return Err(CreateError::KeyReused);
    }
    let (crl, certificate) = certify(alloc, &issuing_key, &key, window, issuing_key_id, signer)?;
    Ok(content.into_message(alloc, signature, certificate, crl)?)
}

/// # Making
impl SignedMessage {
    /// A message with this content, signed at the moment by the holder of a key that is made for this one use, for which the issuing
    /// key issues a certificate and a CRL. They are valid from 300 seconds before the moment to 300 seconds after it.
    ///
    /// The signer signs the attributes, gives the issuing key, signs the CRL, draws the certificate's serial number, gives the issuing
    /// key again and signs the certificate; its first refusal decides. Moment and the length of the content, at most 2^31 octets,
    /// are tested before, the lengths of each key and signature, at most 2^16 octets, at once, and that the two keys differ when both
    /// are there.
    pub fn create<P: Scheme, S: Signer<P>>(
        alloc: Global,
        content: Bytes,
        when: Time,
        issuing_key_id: &S::KeyId,
        signer: &mut S,
    ) -> Result<SignedMessage, CreateError<S::Error>>
        // What is created, and why nothing is.
        ensures created { MatchResult result
            (spec.IsMessageCreated P.checks content when issuing_key_id.now
            (S.state signer.old) (S.state signer.new))
            (spec.CreateFails content when issuing_key_id.now
            (S.state signer.old) (S.state signer.new)) }

        // The message is believed under the issuing key at each second of the window.
        ensures believed { IfOk result (λ m. (key : KeyFields)
            → HoldsKey (S.state signer.old).keyring issuing_key_id.now key
            → (at : ℤ) → (spec.window when).not_before ≤ℤ at
            → at ≤ℤ (spec.window when).not_after → IsBelieved P.checks m key at) }

        // What is written of the message is read again, in both modes, whatever stands behind it.
        ensures again { IfOk result (λ m. (mode : Mode) (rest : List ℕ) → CanSpellMessage m
            → BeginsAs (signed_message mode) mode (rewritten m ++ rest) m) }

        // Moment and a content that is too long are told in any case, before the signer is asked.
        ensures moment { (spec.HasWindow when → ⊥) → IsErrOf result create.Moment }
        ensures too_long { spec.HasWindow when → most_content < length content
            → IsErrOf result create.TooLong }

        ensures unasked { (spec.HasWindow when → ⊥) ⊎ (most_content < length content)
            → signer.new ≡ signer.old }

        // The signer is asked in turn, and its first refusal decides: all that it gave before has at most
        // 2^16 octets.
        ensures first_refusal { IfErr result (IsFirstRefusal P.checks content when
            issuing_key_id.now (S.state signer.old) (S.state signer.new)) }

        // The signer holds the same keys, whatever the answer, and where there is a message, it didn't fail.
        ensures keeps { Keeps (S.state signer.old) (S.state signer.new) }
        ensures kept { OnOk result
            ((S.state signer.new).faults ≡ (S.state signer.old).faults) }
    {
        let Some(window) = Window::new(when) else {
            return Err(CreateError::Moment);
        };
        if !content_is_within_limit(content.as_slice()) {
            return Err(CreateError::TooLong);
        }
        create_within(alloc, content, window, issuing_key_id, signer)
    }
}
