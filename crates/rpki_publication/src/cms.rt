//! Signed messages of the publication protocol.

ghost use Rattle.std.specs.Prelude.{◌≡◌, ◌↔◌, ◌<◌, ◌≤◌, ◌≤ℤ◌, ◌+◌, ◌++◌, ◌*◌, ◌^◌, ◌⊎◌, ℕ, ℤ, List, length};
ghost use Rattle.std.specs.Prelude.{Result, Ok, Err, IfOk, IfErr, OnOk, IsErrOf, MatchResult};
ghost use Rattle.rpki_common.specs.Limits.{most_content, most_keys};
ghost use Rattle.rpki_base.specs.Checks.{first_failure, failing};
ghost use Rattle.rpki_base.specs.PublicKey.{KeyFields};
ghost use Rattle.rpki_signer.specs.Limits.{Keeps};
ghost use Rattle.rpki_signer.specs.Signer.{HoldsKey};
ghost use Rattle.rpki_sigmsg.specs.Checks as checks;
ghost use Rattle.rpki_sigmsg.specs.FirstRefusals.{IsFirstRefusal};
ghost use Rattle.rpki_sigmsg.specs.Making as making;
ghost use Rattle.rpki_sigmsg.specs.Message.{signed_message};
ghost use Rattle.rpki_sigmsg.specs.Spelling.{rewritten, CanSpellMessage};
ghost use Rattle.rpki_sigmsg.specs.declared.create_error.CreateError.TheVariants as create;
ghost use Rattle.rpki_der.specs.declared.mode.Mode.{Mode};
ghost use Rattle.rpki_der.specs.declared.mode.Mode.TheVariants.{Ber};
ghost use Rattle.rpki_der.specs.Takes.{BeginsAs};
ghost use Rattle.rpki_der.specs.Ticks.{nodes};
ghost use Rattle.rpki_der.specs.Value.{Value, Begins};
ghost use Rattle.rpki_publication.specs.declared.error.Error.{Error as CmsError};
ghost use Rattle.rpki_publication.specs.Answers.{validated};
ghost use Rattle.rpki_publication.specs.Cms.{BeginsCms, RefusesCms, FindsSigned, Says};
ghost use Rattle.rpki_publication.specs.Message.{text_of};

use crate::error::Error;
use crate::message::Message;
use bytes::Bytes;
use rpki_base::{PublicKey, Scheme, Time, Verifier};
use rpki_common::OutOfMemory;
use rpki_der::Steps;
use rpki_idcert::ValidationError;
use rpki_sigmsg::{CreateError, SignedMessage};
use rpki_signer::Signer;
use std::alloc::Global;
use std::marker::{Brand, Model};
use std::sync::ledger::{Blank, Ledger};

/// A signed message, and the message that its content is (RFC 8181, 2). In a clause it is the record of both.
pub struct PublicationCms {
    signed: SignedMessage,
    message: Message,
}

impl Drop for PublicationCms {
    fn drop(self) {
        let PublicationCms { signed, message } = self;
    }
}

impl Model for PublicationCms {
    ghost use Rattle.rpki_publication.specs.Cms.{CmsFields, Says};

    ghost Value = { CmsFields };

    ghost view = { λ c. record { signed = c.signed; message = c.message } };

    ghost inverse = { λ c. record { signed = c.signed; message = c.message } };

    ghost invariant = { λ c. Says c.signed.content c.message };
}

// The answer of the checks, as this crate's error.
fn passed_on<T>(answer: Result<T, ValidationError>) -> Result<T, Error>
    ensures { result ≡ validated answer }
{
    match answer {
        Ok(value) => Ok(value),
        Err(error) => Err(Error::Validation(error)),
    }
}

impl PublicationCms {
    /// The signed message at the beginning of the octets, in BER, and the message that its content is; what stands behind isn't
    /// read. It says nothing of who signed.
    ///
    /// CmsDecode exactly where no beginning of the octets is a signed message; XmlError exactly where one is, and its content is
    /// no message.
    pub fn decode(alloc: Global, octets: &[u8]) -> Result<PublicationCms, Error>
        ensures { MatchResult result (BeginsCms octets.now) (RefusesCms octets.now) }
    {
        PublicationCms::decode_within::<Brand>(alloc, octets, Blank::new(1))
    }

    fn decode_within<L: Ledger>(
        alloc: Global,
        octets: &[u8],
        blank: Blank,
    ) -> Result<PublicationCms, Error>
        requires name { blank.name ≡ L.name }
        requires parts { blank.parts ≡ L.parts }
        requires some { 0 < blank.parts }
        ensures { MatchResult result (BeginsCms octets.now) (RefusesCms octets.now) }
    {
        let mut steps = Steps::<L>::new(blank);
        PublicationCms::decode_counted(alloc, octets, &mut steps)
    }

    /// As [`PublicationCms::decode`]. It ticks each time it looks at a header, and for each end mark, in the signed message alone, but
    /// not where it reads an algorithm again from its octets.
    pub fn decode_counted<L: Ledger>(
        alloc: Global,
        octets: &[u8],
        steps: &mut Steps<L>,
    ) -> Result<PublicationCms, Error>
        ensures cms { MatchResult result (BeginsCms octets.now) (RefusesCms octets.now) }
        ensures most { steps.new ≤ steps.old + 3 * length octets.now + 8 }

        // Where a signed message was found, each value in it ticked.
        ensures least { FindsSigned result → (v : Value) (rest : List ℕ)
            → Begins Ber octets.now v rest →
            steps.old + nodes v ≤ steps.new }
    {
        let signed = SignedMessage::decode_counted(alloc, octets, false, steps)?;
        let message = Message::decode_slice(alloc, signed.content().as_slice())?;
        Ok(PublicationCms { signed, message })
    }

    /// The signed message.
    pub fn signed_message(&self) -> &SignedMessage
        ensures { result.now ≡ self.now.signed }
    {
        &self.signed
    }

    /// The message.
    pub fn message(&self) -> &Message
        ensures message { result.now ≡ self.now.message }
        ensures says { Says self.now.signed.content result.now }
    {
        &self.message
    }

    /// The message, without the signed message.
    pub fn into_message(self) -> Message
        ensures message { result ≡ self.message }
        ensures says { Says self.signed.content result }
    {
        let PublicationCms { signed, message } = self;
        message
    }

    /// Both: the content of the signed message says the message.
    pub fn unpack(self) -> (SignedMessage, Message)
        ensures signed { result.0 ≡ self.signed }
        ensures message { result.1 ≡ self.message }
        ensures says { Says result.0.content result.1 }
    {
        let PublicationCms { signed, message } = self;
        (signed, message)
    }

    /// An equal message with its signed message.
    pub fn clone(&self, alloc: Global) -> Result<PublicationCms, OutOfMemory>
        ensures { IfOk result (λ c. c ≡ self.now) }
    {
        let signed = self.signed.clone(alloc)?;
        let message = self.message.clone(alloc)?;
        Ok(PublicationCms { signed, message })
    }

    /// Whether the key issued the certificate for the moment and the certificate's key signed the message; if not, Validation
    /// with the first check that fails, as [`SignedMessage::validate_at`] numbers them. It takes no memory.
    pub fn validate_at<P: Scheme, V: Verifier<P>>(
        &self,
        verifier: &V,
        issuer_key: &PublicKey,
        when: Time,
    ) -> Result<(), Error>
        // Ok exactly where the signatures and all the other checks hold.
        ensures believed { (result ≡ Ok tt) ↔
            checks.IsBelieved P.checks self.now.signed issuer_key.now when }

        // The first check that fails decides, whatever the scheme answers.
        ensures first_failing { (q : checks.Asked P.checks self.now.signed issuer_key.now) →
            result ≡ validated (failing checks.kind_of
            (first_failure 1 (checks.checks self.now.signed issuer_key.now when q.q3 q.q8 q.q10))) }
    {
        passed_on(
            self.signed_message()
                .validate_at(verifier, issuer_key, when),
        )
    }

    /// The place, from 0, of the first of these keys, of which there have to be one to eight, under which the message is believed; if under
    /// none, Validation with the greatest of the first checks that fail, as [`SignedMessage::validate_any_at`] answers. It takes no memory.
    pub fn validate_any_at<P: Scheme, V: Verifier<P>>(
        &self,
        verifier: &V,
        keys: &[PublicKey],
        when: Time,
    ) -> Result<usize, Error>
        requires some { 1 ≤ length keys.now }
        requires few { length keys.now ≤ most_keys }

        // Ok exactly where the signatures and all the other checks hold under the key at this place, and under none before it.
        ensures believed { (place : ℕ) → (result ≡ Ok place) ↔
            checks.IsFirstBelieved P.checks self.now.signed keys.now when place }

        // An error only where they hold under no key.
        ensures none { (error : CmsError) → result ≡ Err error →
            checks.IsUnbelieved P.checks self.now.signed keys.now when }

        // The greatest of the first checks that fail decides, whatever the scheme answers.
        ensures first_failing { (outcomes : List (Result (Unit {0}) ℕ)) →
            checks.AreOutcomes P.checks self.now.signed keys.now when outcomes →
            result ≡ validated (failing checks.kind_of (checks.ranked outcomes)) }
    {
        passed_on(self.signed_message().validate_any_at(verifier, keys, when))
    }
}

/// # Making
impl PublicationCms {
    /// The message, whose text is signed at the moment by the holder of a key that is made for this one use, for which the issuing
    /// key issues a certificate and a CRL, as [`SignedMessage::create`] does it: they are valid from 300 seconds before the moment
    /// to 300 seconds after it.
    pub fn create<P: Scheme, S: Signer<P>>(
        alloc: Global,
        message: Message,
        when: Time,
        issuing_key_id: &S::KeyId,
        signer: &mut S,
    ) -> Result<PublicationCms, CreateError<S::Error>>
        // What is created of the message's text, and why nothing is.
        ensures created { MatchResult result
            (λ c. making.IsMessageCreated P.checks (text_of message) when issuing_key_id.now
            (S.state signer.old) (S.state signer.new) c.signed)
            (making.CreateFails (text_of message) when issuing_key_id.now
            (S.state signer.old) (S.state signer.new)) }
        ensures message { IfOk result (λ c. c.message ≡ message) }

        // The message is believed under the issuing key at each second of the window.
        ensures believed { IfOk result (λ c. (key : KeyFields)
            → HoldsKey (S.state signer.old).keyring issuing_key_id.now key
            → (at : ℤ) → (making.window when).not_before ≤ℤ at
            → at ≤ℤ (making.window when).not_after
            → checks.IsBelieved P.checks c.signed key at) }

        // What is written of the message is read again, in both modes, whatever stands behind it.
        ensures again { IfOk result (λ c. (mode : Mode) (rest : List ℕ) → CanSpellMessage c.signed
            → BeginsAs (signed_message mode) mode (rewritten c.signed ++ rest) c.signed) }

        // Moment and a text that is too long are told, but for want of memory.
        ensures moment { (making.HasWindow when → ⊥)
            → IsErrOf result create.Moment ⊎ IsErrOf result create.OutOfMemory }
        ensures too_long { making.HasWindow when → most_content < length (text_of message)
            → IsErrOf result create.TooLong ⊎ IsErrOf result create.OutOfMemory }

        // Then the signer isn't asked.
        ensures unasked { (making.HasWindow when → ⊥) ⊎ (most_content < length (text_of message))
            → signer.new ≡ signer.old }

        // The signer is asked in turn, and its first refusal decides: all that it gave before has at most
        // 2^16 octets.
        ensures first_refusal { IfErr result (IsFirstRefusal P.checks (text_of message) when
            issuing_key_id.now (S.state signer.old) (S.state signer.new)) }

        // The signer holds the same keys, whatever the answer, and where there is a message, it didn't fail.
        ensures keeps { Keeps (S.state signer.old) (S.state signer.new) }
        ensures kept { OnOk result
            ((S.state signer.new).faults ≡ (S.state signer.old).faults) }
    {
        let text = message.text_bytes(alloc)?;
        let signed = SignedMessage::create(alloc, text, when, issuing_key_id, signer)?;
        Ok(PublicationCms { signed, message })
    }

    /// The signed message in DER: its content and its signature are one OCTET STRING each, and what was signed stands as it was read
    /// or made, so in BER where it was read so. One that is longer than length octets can say is refused as want of memory.
    pub fn to_bytes(&self, alloc: Global) -> Result<Bytes, OutOfMemory>
        ensures octets { IfOk result (λ octets. octets ≡ rewritten self.now.signed) }
        ensures spelled { OnOk result (CanSpellMessage self.now.signed) }
    {
        Ok(self.signed.to_captured(alloc)?.into_bytes())
    }
}
