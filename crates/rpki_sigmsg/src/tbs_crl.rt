//! What is signed of a CRL.

ghost use Rattle.std.specs.Prelude.{◌≡◌, ◌<◌, IfOk};
ghost use Rattle.rpki_der.specs.Held.{with_octets};
ghost use Rattle.rpki_der.specs.Takes.{Takes};
ghost use Rattle.rpki_der.specs.Ticks.{TakesCounted};
ghost use Rattle.rpki_der.specs.Whole.{HoldsOne};
ghost use Rattle.rpki_sigmsg.specs.Making.{made_crl};
ghost use Rattle.rpki_sigmsg.specs.TbsCrl.{tbs_crl};

use crate::crl_extensions::take_extensions;
use crate::revoked::{RevokedCertificates, take_opt_revoked};
use crate::window::Window;
use rpki_base::{
    KeyIdentifier, Name, PublicKey, RpkiSignatureAlgorithm, Serial, Time, take_algorithm,
};
use rpki_der::{Cursor, DecodeError, Mode, OutOfMemory, Steps, Tag, take_integer_if_counted};
use std::alloc::Global;
use std::marker::{Brand, Model};
use std::sync::ledger::{Blank, Ledger};

/// What is signed of a CRL (RFC 5280, 5.1.2).
///
/// In a clause it is the record of its fields.
pub struct SignedMessageTbsCrl {
    algorithm: RpkiSignatureAlgorithm,
    issuer: Name,
    this_update: Time,
    next_update: Time,
    revoked: RevokedCertificates,
    authority_key_id: Option<KeyIdentifier>,
    crl_number: Option<Serial>,
}

impl Drop for SignedMessageTbsCrl {
    fn drop(self) {
        let SignedMessageTbsCrl {
            algorithm,
            issuer,
            this_update,
            next_update,
            revoked,
            authority_key_id,
            crl_number,
        } = self;
    }
}

impl Model for SignedMessageTbsCrl {
    ghost use Rattle.rpki_sigmsg.specs.TbsCrl.{TbsCrlFields};

    ghost Value = { TbsCrlFields };

    ghost view = { λ t. record {
      algorithm = t.algorithm;
      issuer = t.issuer;
      this_update = t.this_update;
      next_update = t.next_update;
      revoked =
          t.revoked;
      authority_key_id = t.authority_key_id;
      crl_number = t.crl_number;
    } };

    ghost inverse = { λ t. record {
      algorithm = t.algorithm;
      issuer = t.issuer;
      this_update = t.this_update;
      next_update = t.next_update;
      revoked =
          t.revoked;
      authority_key_id = t.authority_key_id;
      crl_number = t.crl_number;
    } };
}

/// # Making
impl SignedMessageTbsCrl {
    /// A CRL of the issuing key without entries, for the time around a moment, whose number is that moment in thousandths of a
    /// second.
    pub fn new(
        alloc: Global,
        issuing_key: &PublicKey,
        window: Window,
    ) -> Result<SignedMessageTbsCrl, OutOfMemory>
        ensures { IfOk result (λ t. t ≡ made_crl issuing_key.now window) }
    {
        let validity = window.validity();
        Ok(SignedMessageTbsCrl {
            algorithm: RpkiSignatureAlgorithm::default(),
            issuer: Name::from_pub_key(alloc, issuing_key)?,
            this_update: validity.not_before(),
            next_update: validity.not_after(),
            revoked: RevokedCertificates::empty(alloc),
            authority_key_id: Some(issuing_key.key_identifier()),
            crl_number: Some(window.crl_number()),
        })
    }
}

/// # Data access
impl SignedMessageTbsCrl {
    /// The algorithm that the CRL names inside what is signed.
    pub fn algorithm(&self) -> RpkiSignatureAlgorithm
        ensures { result ≡ self.now.algorithm }
    {
        self.algorithm
    }

    /// The name of the issuer.
    pub fn issuer(&self) -> &Name
        ensures { result.now ≡ self.now.issuer }
    {
        &self.issuer
    }

    /// When the CRL was issued.
    pub fn this_update(&self) -> Time
        ensures { result ≡ self.now.this_update }
    {
        self.this_update
    }

    /// When the next one is issued at the latest.
    pub fn next_update(&self) -> Time
        ensures { result ≡ self.now.next_update }
    {
        self.next_update
    }

    /// The certificates that are revoked.
    pub fn revoked_certs(&self) -> &RevokedCertificates
        ensures { result.now ≡ self.now.revoked }
    {
        &self.revoked
    }

    /// The key identifier of the issuer (RFC 5280, 5.2.1), if it is there.
    pub fn authority_key_id(&self) -> Option<KeyIdentifier>
        ensures { result ≡ self.now.authority_key_id }
    {
        self.authority_key_id
    }

    /// The number of the CRL (RFC 5280, 5.2.3), if it is there.
    pub fn crl_number(&self) -> Option<Serial>
        ensures { result ≡ self.now.crl_number }
    {
        self.crl_number
    }

    /// Equal fields that share their octets with these.
    pub fn clone(&self, alloc: Global) -> Result<SignedMessageTbsCrl, OutOfMemory>
        ensures { IfOk result (λ t. t ≡ self.now) }
    {
        let issuer = self.issuer.clone(alloc)?;
        let revoked = self.revoked.clone(alloc)?;
        Ok(SignedMessageTbsCrl {
            algorithm: self.algorithm,
            issuer,
            this_update: self.this_update,
            next_update: self.next_update,
            revoked,
            authority_key_id: self.authority_key_id,
            crl_number: self.crl_number,
        })
    }
}

/// # Decoding
impl SignedMessageTbsCrl {
    /// The fields that the octets hold, as `take_from` reads them, with nothing behind them; Malformed exactly where they hold none.
    pub fn take(
        alloc: Global,
        mode: Mode,
        octets: &[u8],
    ) -> Result<SignedMessageTbsCrl, DecodeError>
        ensures { HoldsOne (tbs_crl mode) (λ t. t) mode octets.now result }
    {
        let mut cursor = Cursor::new(alloc, mode, octets);
        let found = SignedMessageTbsCrl::take_from(alloc, &mut cursor)?;
        if !cursor.end() {
            return Err(DecodeError::Malformed);
        }
        Ok(found)
    }

    /// The fields that stand next: a TBSCertList (RFC 5280, 5.1.2) of version 2 with the RPKI's signature algorithm, with nextUpdate and
    /// extensions; Malformed exactly where none does. Where no list of entries is there, the fields have the empty one.
    pub fn take_from(
        alloc: Global,
        cursor: &mut Cursor<'_>,
    ) -> Result<SignedMessageTbsCrl, DecodeError>
        ensures { Takes (tbs_crl cursor.old.mode) (λ t. t) cursor.old cursor.new result }
    {
        SignedMessageTbsCrl::take_from_within::<Brand>(alloc, cursor, Blank::new(1))
    }

    fn take_from_within<L: Ledger>(
        alloc: Global,
        cursor: &mut Cursor<'_>,
        blank: Blank,
    ) -> Result<SignedMessageTbsCrl, DecodeError>
        requires name { blank.name ≡ L.name }
        requires parts { blank.parts ≡ L.parts }
        requires some { 0 < blank.parts }
        ensures { Takes (tbs_crl cursor.old.mode) (λ t. t) cursor.old cursor.new result }
    {
        let mut steps = Steps::<L>::new(blank);
        SignedMessageTbsCrl::take_from_counted(alloc, cursor, &mut steps)
    }

    /// The fields that stand next, as `take_from` reads them. It ticks each time it looks at a header, and for each end mark,
    /// but not where it reads an algorithm again from its octets.
    pub fn take_from_counted<L: Ledger>(
        alloc: Global,
        cursor: &mut Cursor<'_>,
        steps: &mut Steps<L>,
    ) -> Result<SignedMessageTbsCrl, DecodeError>
        ensures { TakesCounted 2 (tbs_crl cursor.old.mode) (λ t. t)
            cursor.old cursor.new steps.old steps.new result }
    {
        cursor.enter_counted(Tag::SEQUENCE, steps)?;
        take_integer_if_counted(cursor, 1, steps)?;
        let algorithm = take_algorithm::<RpkiSignatureAlgorithm, L>(cursor, steps)?;
        let issuer = Name::take_from_counted(alloc, cursor, steps)?;
        let this_update = Time::take_from_counted(cursor, steps)?;
        let next_update = Time::take_from_counted(cursor, steps)?;
        let revoked = take_opt_revoked(alloc, cursor, steps)?;
        let known = take_extensions(alloc, cursor, steps)?;
        cursor.leave_counted(steps)?;
        let (authority_key_id, crl_number) = known.parts();
        Ok(SignedMessageTbsCrl {
            algorithm,
            issuer,
            this_update,
            next_update,
            revoked: revoked.unwrap_or(RevokedCertificates::empty(alloc)),
            authority_key_id,
            crl_number,
        })
    }
}

/// The octets of what stands next, and what they say.
pub(crate) fn take_held<'a, L: Ledger>(
    alloc: Global,
    cursor: &mut Cursor<'a>,
    steps: &mut Steps<L>,
) -> Result<(&'a [u8], SignedMessageTbsCrl), DecodeError>
    ensures { TakesCounted 2 (with_octets (tbs_crl cursor.old.mode)) (λ x. (x.0.now, x.1))
        cursor.old cursor.new steps.old steps.new result }
{
    let start = cursor.here();
    let tbs = SignedMessageTbsCrl::take_from_counted(alloc, cursor, steps)?;
    let octets = cursor.since(start);
    Ok((octets, tbs))
}
