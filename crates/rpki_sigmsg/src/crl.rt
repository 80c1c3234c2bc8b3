//! The CRL of a signed message.

ghost use Rattle.std.specs.Prelude.{◌≡◌, ◌<◌, IfOk};
ghost use Rattle.rpki_der.specs.declared.mode.Mode.TheVariants.{Der};
ghost use Rattle.rpki_der.specs.Grammar.{any, so};
ghost use Rattle.rpki_der.specs.InDer.{in_der};
ghost use Rattle.rpki_der.specs.Takes.{Takes};
ghost use Rattle.rpki_der.specs.Ticks.{TakesCounted};
ghost use Rattle.rpki_der.specs.Whole.{HoldsOne};
ghost use Rattle.rpki_sigmsg.specs.Crl.{revocation_list};

use crate::tbs_crl::{SignedMessageTbsCrl, take_held};
use bytes::Bytes;
use rpki_base::{RpkiSignatureAlgorithm, Signature, SignedData, leave_signature};
use rpki_der::{Cursor, DecodeError, Mode, OutOfMemory, Steps, Tag};
use std::alloc::Global;
use std::marker::{Brand, Model};
use std::sync::ledger::{Blank, Ledger};

/// The CRL of a signed message: the exact octets that are signed with their signature, and what they say (RFC 5280, 5.1).
///
/// In a clause it is these two.
pub struct SignedMessageCrl {
    signed: SignedData<RpkiSignatureAlgorithm>,
    tbs: SignedMessageTbsCrl,
}

impl Drop for SignedMessageCrl {
    fn drop(self) {
        let SignedMessageCrl { signed, tbs } = self;
    }
}

impl Model for SignedMessageCrl {
    ghost use Rattle.rpki_sigmsg.specs.Crl.{CrlFields};

    ghost Value = { CrlFields };

    ghost view = { λ c. record { signed = c.signed; tbs = c.tbs } };

    ghost inverse = { λ c. record { signed = c.signed; tbs = c.tbs } };
}

impl SignedMessageCrl {
    // The CRL of these parts.
    pub(crate) fn from_parts(
        slice: Bytes,
        signature: Signature<RpkiSignatureAlgorithm>,
        tbs: SignedMessageTbsCrl,
    ) -> SignedMessageCrl
        ensures { result ≡ record {
          signed = record { slice = slice; signature = signature };
          tbs = tbs;
        } }
    {
        let signed = SignedData::new(slice, signature);
        SignedMessageCrl { signed, tbs }
    }
}

/// # Data access
impl SignedMessageCrl {
    /// What is signed.
    pub fn tbs(&self) -> &SignedMessageTbsCrl
        ensures { result.now ≡ self.now.tbs }
    {
        &self.tbs
    }

    /// The exact octets that are signed, and their signature.
    pub fn signed_data(&self) -> &SignedData<RpkiSignatureAlgorithm>
        ensures { result.now ≡ self.now.signed }
    {
        &self.signed
    }

    /// An equal CRL that shares its octets with this one.
    pub fn clone(&self, alloc: Global) -> Result<SignedMessageCrl, OutOfMemory>
        ensures { IfOk result (λ c. c ≡ self.now) }
    {
        let signed = self.signed.clone(alloc)?;
        let tbs = self.tbs.clone(alloc)?;
        Ok(SignedMessageCrl { signed, tbs })
    }
}

/// # Decoding
impl SignedMessageCrl {
    // The CRL that stands next, by the cursor's rules.
    fn take_next_counted<L: Ledger>(
        alloc: Global,
        cursor: &mut Cursor<'_>,
        steps: &mut Steps<L>,
    ) -> Result<SignedMessageCrl, DecodeError>
        ensures { TakesCounted 2 (revocation_list cursor.old.mode) (λ c. c)
            cursor.old cursor.new steps.old steps.new result }
    {
        cursor.enter_counted(Tag::SEQUENCE, steps)?;
        let (octets, tbs) = take_held(alloc, cursor, steps)?;
        let slice = Bytes::copy_from_slice(alloc, octets)?;
        let signature = leave_signature::<RpkiSignatureAlgorithm, L>(alloc, cursor, steps)?;
        let signed = SignedData::new(slice, signature);
        Ok(SignedMessageCrl { signed, tbs })
    }

    fn take_within<L: Ledger>(
        alloc: Global,
        octets: &[u8],
        blank: Blank,
    ) -> Result<SignedMessageCrl, DecodeError>
        requires name { blank.name ≡ L.name }
        requires parts { blank.parts ≡ L.parts }
        requires some { 0 < blank.parts }
        ensures { HoldsOne (revocation_list Der) (λ c. c) Der octets.now result }
    {
        let mut steps = Steps::<L>::new(blank);
        let mut cursor = Cursor::new(alloc, Mode::Der, octets);
        let found = SignedMessageCrl::take_next_counted(alloc, &mut cursor, &mut steps)?;
        if !cursor.end() {
            return Err(DecodeError::Malformed);
        }
        Ok(found)
    }

    /// The CRL that the octets hold, with nothing behind it; Malformed exactly where they hold none. It is read in DER whatever the mode.
    pub fn take(alloc: Global, _mode: Mode, octets: &[u8]) -> Result<SignedMessageCrl, DecodeError>
        ensures { HoldsOne (revocation_list Der) (λ c. c) Der octets.now result }
    {
        SignedMessageCrl::take_within::<Brand>(alloc, octets, Blank::new(1))
    }

    /// The CRL that stands next: a value by the cursor's rules, whose octets are a CRL in DER; Malformed exactly where none does.
    pub fn take_from(
        alloc: Global,
        cursor: &mut Cursor<'_>,
    ) -> Result<SignedMessageCrl, DecodeError>
        ensures { Takes (so any (in_der (revocation_list Der))) (λ c. c)
            cursor.old cursor.new result }
    {
        SignedMessageCrl::take_from_within::<Brand>(alloc, cursor, Blank::new(1))
    }

    fn take_from_within<L: Ledger>(
        alloc: Global,
        cursor: &mut Cursor<'_>,
        blank: Blank,
    ) -> Result<SignedMessageCrl, DecodeError>
        requires name { blank.name ≡ L.name }
        requires parts { blank.parts ≡ L.parts }
        requires some { 0 < blank.parts }
        ensures { Takes (so any (in_der (revocation_list Der))) (λ c. c)
            cursor.old cursor.new result }
    {
        let mut steps = Steps::<L>::new(blank);
        SignedMessageCrl::take_from_counted(alloc, cursor, &mut steps)
    }

    /// The CRL that stands next, as `take_from` reads it. It ticks each time it looks at a header, and for each end mark,
    /// but not where it reads an algorithm again from its octets.
    pub fn take_from_counted<L: Ledger>(
        alloc: Global,
        cursor: &mut Cursor<'_>,
        steps: &mut Steps<L>,
    ) -> Result<SignedMessageCrl, DecodeError>
        ensures { TakesCounted 3 (so any (in_der (revocation_list Der))) (λ c. c)
            cursor.old cursor.new steps.old steps.new result }
    {
        let octets = cursor.capture_counted(steps)?;
        let mut inner = Cursor::new(alloc, Mode::Der, octets);
        SignedMessageCrl::take_next_counted(alloc, &mut inner, steps)
    }
}
