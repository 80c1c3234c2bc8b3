//! Identity certificates.

ghost use Rattle.std.specs.Prelude.{◌≡◌, ◌↔◌, ◌<◌, ◌≤ℤ◌, ◌++◌, Some, IsOk, IfOk, OnOk, OnErr};
ghost use Rattle.rpki_der.specs.declared.mode.Mode.TheVariants.{Der};
ghost use Rattle.rpki_der.specs.Takes.{Takes, Decodes};
ghost use Rattle.rpki_der.specs.Ticks.{TakesCounted};
ghost use Rattle.rpki_der.specs.declared.mode.Mode.{Mode};
ghost use Rattle.rpki_der.specs.Value.{Value, IsValue};
ghost use Rattle.rpki_der.specs.Whole.{HoldsOne, whole_of};
ghost use Rattle.rpki_base.specs.SignedData.{spelled_data, CanSpellSigned};
ghost use Rattle.rpki_base.specs.RpkiSignatureAlgorithm.{spelled_x509};
ghost use Rattle.rpki_idcert.specs.IdCert.{CertificateFields, identity_certificate};
ghost use Rattle.rpki_idcert.specs.TbsIdCert.{tbs_certificate};

use crate::tbs::{TbsIdCert, take_held};
use bytes::Bytes;
use rpki_base::{RpkiSignatureAlgorithm, SignedData, Time, VerificationError, leave_signature};
use rpki_der::{Captured, Cursor, DecodeError, Mode, OutOfMemory, Steps, Tag, Writer};
use std::alloc::Global;
use std::marker::{Brand, Model};
use std::sync::ledger::{Blank, Ledger};

/// An identity certificate: the exact octets that are signed with their signature, and what they say (RFC 5280, 4.1).
///
/// In a clause it is these two. `==` compares the signed data alone: the octets that are signed, the algorithm and the octets of the
/// signature.
#[derive_where(PartialEq)]
pub struct IdCert {
    signed: SignedData<RpkiSignatureAlgorithm>,
    #[derive_where(skip)]
    tbs: TbsIdCert,
}

impl Drop for IdCert {
    fn drop(self) {
        let IdCert { signed, tbs } = self;
    }
}

impl Model for IdCert {
    ghost use Rattle.rpki_idcert.specs.IdCert.{CertificateFields};

    ghost Value = { CertificateFields };

    ghost view = { λ c. record { signed = c.signed; tbs = c.tbs } };

    ghost inverse = { λ c. record { signed = c.signed; tbs = c.tbs } };
}

/// The fields of a certificate that was read are what the octets that are signed are read as, by the same rules: equal signed data
/// have equal fields.
pub fn signed_octets_determine_the_fields()
    ensures { (mode : Mode) (v : Value) (c : CertificateFields) →
        IsValue mode v → identity_certificate mode v ≡ Some c →
        whole_of (tbs_certificate mode) mode c.signed.slice ≡ Some c.tbs }
{}

impl IdCert {
    // The certificate of these parts.
    pub(crate) fn from_parts(signed: SignedData<RpkiSignatureAlgorithm>, tbs: TbsIdCert) -> IdCert
        ensures { result ≡ record { signed = signed; tbs = tbs } }
    {
        IdCert { signed, tbs }
    }
}

/// # Data access
impl IdCert {
    /// What is signed.
    pub fn tbs(&self) -> &TbsIdCert
        ensures { result.now ≡ self.now.tbs }
    {
        &self.tbs
    }

    /// The exact octets that are signed, and their signature.
    pub fn signed_data(&self) -> &SignedData<RpkiSignatureAlgorithm>
        ensures { result.now ≡ self.now.signed }
    {
        &self.signed
    }
}

/// # Decoding
impl IdCert {
    /// The certificate at the beginning of the octets, in DER; what stands behind it isn't read.
    ///
    /// Malformed exactly where no beginning of the octets is a certificate.
    pub fn decode(alloc: Global, octets: &[u8]) -> Result<IdCert, DecodeError>
        ensures { Decodes (identity_certificate Der) (λ c. c) Der octets.now result }
    {
        IdCert::decode_mode(alloc, Mode::Der, octets)
    }

    /// The certificate at the beginning of the octets, in DER or in BER; what stands behind it isn't read. The contents of the
    /// extensions that are read are in DER in both modes.
    ///
    /// Malformed exactly where no beginning of the octets is a certificate.
    pub fn decode_mode(alloc: Global, mode: Mode, octets: &[u8]) -> Result<IdCert, DecodeError>
        ensures { Decodes (identity_certificate mode) (λ c. c) mode octets.now result }
    {
        let mut cursor = Cursor::new(alloc, mode, octets);
        IdCert::take_from(alloc, &mut cursor)
    }

    /// The certificate that the octets hold, with nothing behind it; Malformed exactly where they hold none.
    pub fn take(alloc: Global, mode: Mode, octets: &[u8]) -> Result<IdCert, DecodeError>
        ensures { HoldsOne (identity_certificate mode) (λ c. c) mode octets.now result }
    {
        let mut cursor = Cursor::new(alloc, mode, octets);
        let found = IdCert::take_from(alloc, &mut cursor)?;
        if !cursor.end() {
            return Err(DecodeError::Malformed);
        }
        Ok(found)
    }

    /// The certificate that stands next (RFC 5280, 4.1), by the cursor's rules. The contents of the extensions that are read are in DER.
    pub fn take_from(alloc: Global, cursor: &mut Cursor<'_>) -> Result<IdCert, DecodeError>
        ensures { Takes (identity_certificate cursor.old.mode) (λ c. c)
            cursor.old cursor.new result }
    {
        IdCert::take_from_within::<Brand>(alloc, cursor, Blank::new(1))
    }

    fn take_from_within<L: Ledger>(
        alloc: Global,
        cursor: &mut Cursor<'_>,
        blank: Blank,
    ) -> Result<IdCert, DecodeError>
        requires name { blank.name ≡ L.name }
        requires parts { blank.parts ≡ L.parts }
        requires some { 0 < blank.parts }
        ensures { Takes (identity_certificate cursor.old.mode) (λ c. c)
            cursor.old cursor.new result }
    {
        let mut steps = Steps::<L>::new(blank);
        IdCert::take_from_counted(alloc, cursor, &mut steps)
    }

    /// The certificate that stands next, as `take_from` reads it. It ticks each time it looks at a header, and for each end mark,
    /// but not where it reads an algorithm again from its octets.
    pub fn take_from_counted<L: Ledger>(
        alloc: Global,
        cursor: &mut Cursor<'_>,
        steps: &mut Steps<L>,
    ) -> Result<IdCert, DecodeError>
        ensures { TakesCounted 2 (identity_certificate cursor.old.mode) (λ c. c)
            cursor.old cursor.new steps.old steps.new result }
    {
        cursor.enter_counted(Tag::SEQUENCE, steps)?;
        let (octets, tbs) = take_held(alloc, cursor, steps)?;
        let slice = Bytes::copy_from_slice(alloc, octets)?;
        let signature = leave_signature::<RpkiSignatureAlgorithm, L>(alloc, cursor, steps)?;
        let signed = SignedData::new(slice, signature);
        Ok(IdCert { signed, tbs })
    }
}

/// # Encoding
impl IdCert {
    /// Appends the certificate in DER, with the octets that are signed as they are. After a refusal nothing is appended; a
    /// certificate that is longer than length octets can say is refused as want of memory.
    pub fn encode_ref(&self, out: &mut Writer) -> Result<(), OutOfMemory>
        ensures ok { OnOk result (out.new ≡ out.old ++ spelled_data spelled_x509 self.now.signed) }
        ensures spelled { OnOk result (CanSpellSigned spelled_x509 self.now.signed) }
        ensures err { OnErr result (out.new ≡ out.old) }
    {
        self.signed.encode_ref(out)
    }

    /// What `encode_ref` appends, by itself.
    pub fn to_captured(&self, alloc: Global) -> Result<Captured, OutOfMemory>
        ensures octets { IfOk result (λ c. c ≡ spelled_data spelled_x509 self.now.signed) }
        ensures spelled { OnOk result (CanSpellSigned spelled_x509 self.now.signed) }
    {
        let mut out = Writer::new(alloc);
        self.encode_ref(&mut out)?;
        out.into_captured()
    }

    /// What `encode_ref` appends, by itself, as shared octets.
    pub fn to_bytes(&self, alloc: Global) -> Result<Bytes, OutOfMemory>
        ensures octets { IfOk result (λ b. b ≡ spelled_data spelled_x509 self.now.signed) }
        ensures spelled { OnOk result (CanSpellSigned spelled_x509 self.now.signed) }
    {
        Ok(self.to_captured(alloc)?.into_bytes())
    }

    /// An equal certificate that shares its octets with this one.
    pub fn clone(&self, alloc: Global) -> Result<IdCert, OutOfMemory>
        ensures { IfOk result (λ c. c ≡ self.now) }
    {
        let signed = self.signed.clone(alloc)?;
        let tbs = self.tbs.clone(alloc)?;
        Ok(IdCert { signed, tbs })
    }
}

/// # Validation
impl IdCert {
    /// Refused exactly where the moment is before the first second of the validity or after the last.
    pub fn verify_validity(&self, when: Time) -> Result<(), VerificationError>
        ensures { IsOk result ↔
            ((self.now.tbs.validity.not_before ≤ℤ when) ×
            (when ≤ℤ self.now.tbs.validity.not_after)) }
    {
        self.tbs.validity().verify_at(when)
    }
}
