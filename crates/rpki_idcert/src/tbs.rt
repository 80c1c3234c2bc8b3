//! What is signed of an identity certificate.

ghost use Rattle.std.specs.Prelude.{◌≡◌, ◌↔◌, ◌<◌, true, Decides, IfOk};
ghost use Rattle.rpki_der.specs.Takes.{Takes};
ghost use Rattle.rpki_der.specs.Held.{with_octets};
ghost use Rattle.rpki_der.specs.Ticks.{TakesCounted};
ghost use Rattle.rpki_idcert.specs.IdCert.{CertificateFields};
ghost use Rattle.rpki_idcert.specs.Making.{made_basic_ca, made_authority_key_id, IsMadeFor};
ghost use Rattle.rpki_idcert.specs.TbsIdCert.{TbsFields, version, tbs_certificate};

use crate::extensions::take_extensions;
use crate::id_cert::IdCert;
use rpki_base::{
    KeyIdentifier, Name, PublicKey, RpkiSignatureAlgorithm, Serial, Validity, take_algorithm,
};
use rpki_der::{Cursor, DecodeError, OutOfMemory, Steps, Tag, take_integer_if_counted};
use std::alloc::Global;
use std::marker::{Brand, Model};
use std::sync::ledger::{Blank, Ledger};

/// What is signed of an identity certificate (RFC 5280, 4.1.2). The algorithm that is named in it is read and not kept, since it
/// is always that of the RPKI.
///
/// In a clause it is the record of its fields.
#[derive(PartialEq, Eq)]
pub struct TbsIdCert {
    serial: Serial,
    issuer: Name,
    validity: Validity,
    subject: Name,
    key: PublicKey,
    basic_ca: Option<bool>,
    subject_key_id: KeyIdentifier,
    authority_key_id: Option<KeyIdentifier>,
}

impl Drop for TbsIdCert {
    fn drop(self) {
        let TbsIdCert {
            serial,
            issuer,
            validity,
            subject,
            key,
            basic_ca,
            subject_key_id,
            authority_key_id,
        } = self;
    }
}

impl Model for TbsIdCert {
    ghost use Rattle.rpki_idcert.specs.TbsIdCert.{TbsFields};

    ghost Value = { TbsFields };

    ghost view = { λ t. record {
      serial = t.serial;
      issuer = t.issuer;
      validity = t.validity;
      subject = t.subject;
      key = t.key;
      basic_ca = t.basic_ca;
      subject_key_id = t.subject_key_id;
      authority_key_id = t.authority_key_id;
    } };

    ghost inverse = { λ t. record {
      serial = t.serial;
      issuer = t.issuer;
      validity = t.validity;
      subject = t.subject;
      key = t.key;
      basic_ca = t.basic_ca;
      subject_key_id = t.subject_key_id;
      authority_key_id = t.authority_key_id;
    } };
}

/// `==` holds exactly between fields that are the same, and between certificates whose signed data are.
pub fn equal_certificates_are_the_same()
    ensures fields { (a b : TbsFields) → (⟦<TbsIdCert as PartialEq>⟧.eq a b ≡ true) ↔ (a ≡ b) }
    ensures certificates { (a b : CertificateFields) →
        (⟦<IdCert as PartialEq>⟧.eq a b ≡ true) ↔ (a.signed ≡ b.signed) }
{}

// Whether two keys are the same.
fn is_same(a: &PublicKey, b: &PublicKey) -> bool
    ensures { Decides result (a.now ≡ b.now) }
{
    a == b
}

// That the subject is an authority, where the key is the issuing one.
fn authority_of_own(own: bool) -> Option<bool>
    ensures { result ≡ made_basic_ca own }
{
    if own { Some(true) } else { None }
}

// The key identifier of the issuing key, where the key is another.
fn issuer_of_other(own: bool, issuing_key: &PublicKey) -> Option<KeyIdentifier>
    ensures { result ≡ made_authority_key_id own issuing_key.now }
{
    if own {
        None
    } else {
        Some(issuing_key.key_identifier())
    }
}

/// # Making
impl TbsIdCert {
    /// What is to be signed under the issuing key of a certificate for `key`: the issuing key's own is an authority's, and every
    /// other has the key identifier of the issuing key.
    pub fn new(
        alloc: Global,
        serial: Serial,
        validity: Validity,
        key: &PublicKey,
        issuing_key: &PublicKey,
    ) -> Result<TbsIdCert, OutOfMemory>
        ensures { IfOk result (IsMadeFor issuing_key.now key.now serial validity) }
    {
        let own = is_same(key, issuing_key);
        let issuer = Name::from_pub_key(alloc, issuing_key)?;
        let subject = Name::from_pub_key(alloc, key)?;
        Ok(TbsIdCert {
            serial,
            issuer,
            validity,
            subject,
            key: key.clone(alloc)?,
            basic_ca: authority_of_own(own),
            subject_key_id: key.key_identifier(),
            authority_key_id: issuer_of_other(own, issuing_key),
        })
    }
}

/// # Data access
impl TbsIdCert {
    /// The serial number.
    pub fn serial_number(&self) -> Serial
        ensures { result ≡ self.now.serial }
    {
        self.serial
    }

    /// The name of the issuer.
    pub fn issuer(&self) -> &Name
        ensures { result.now ≡ self.now.issuer }
    {
        &self.issuer
    }

    /// The time in which the certificate is valid.
    pub fn validity(&self) -> Validity
        ensures { result ≡ self.now.validity }
    {
        self.validity
    }

    /// The name of the subject.
    pub fn subject(&self) -> &Name
        ensures { result.now ≡ self.now.subject }
    {
        &self.subject
    }

    /// The key of the subject.
    pub fn public_key(&self) -> &PublicKey
        ensures { result.now ≡ self.now.key }
    {
        &self.key
    }

    /// The key of the subject, under the name that RFC 5280, 4.1.2.7, gives it.
    pub fn subject_public_key_info(&self) -> &PublicKey
        ensures { result.now ≡ self.now.key }
    {
        &self.key
    }

    /// What basicConstraints say of whether the subject is an authority (RFC 5280, 4.2.1.9); None where they aren't there.
    pub fn basic_ca(&self) -> Option<bool>
        ensures { result ≡ self.now.basic_ca }
    {
        self.basic_ca
    }

    /// The key identifier of the subject (RFC 5280, 4.2.1.2).
    pub fn subject_key_identifier(&self) -> KeyIdentifier
        ensures { result ≡ self.now.subject_key_id }
    {
        self.subject_key_id
    }

    /// The key identifier of the subject, as `subject_key_identifier` gives it.
    pub fn subject_key_id(&self) -> KeyIdentifier
        ensures { result ≡ self.now.subject_key_id }
    {
        self.subject_key_id
    }

    /// The key identifier of the issuer (RFC 5280, 4.2.1.1), if the last authorityKeyIdentifier has one.
    pub fn authority_key_id(&self) -> Option<KeyIdentifier>
        ensures { result ≡ self.now.authority_key_id }
    {
        self.authority_key_id
    }
}

impl TbsIdCert {
    /// Equal fields that share their octets with these.
    pub fn clone(&self, alloc: Global) -> Result<TbsIdCert, OutOfMemory>
        ensures { IfOk result (λ t. t ≡ self.now) }
    {
        let issuer = self.issuer.clone(alloc)?;
        let subject = self.subject.clone(alloc)?;
        let key = self.key.clone(alloc)?;
        Ok(TbsIdCert {
            serial: self.serial,
            issuer,
            validity: self.validity,
            subject,
            key,
            basic_ca: self.basic_ca,
            subject_key_id: self.subject_key_id,
            authority_key_id: self.authority_key_id,
        })
    }
}

/// Passes the version of a certificate, which has to be 3 (RFC 5280, 4.1.2.1). It ticks once for each header and each end mark that
/// it reads.
pub fn take_version<L: Ledger>(
    cursor: &mut Cursor<'_>,
    steps: &mut Steps<L>,
) -> Result<(), DecodeError>
    ensures { TakesCounted 1 version (λ x. x) cursor.old cursor.new steps.old steps.new result }
{
    cursor.enter_counted(Tag::CTX_0, steps)?;
    take_integer_if_counted(cursor, 2, steps)?;
    cursor.leave_counted(steps)?;
    Ok(())
}

/// # Decoding
impl TbsIdCert {
    /// The fields that stand next, as `take_from` reads them. It ticks each time it looks at a header, and for each end mark,
    /// but not where it reads an algorithm again from its octets.
    pub fn take_from_counted<L: Ledger>(
        alloc: Global,
        cursor: &mut Cursor<'_>,
        steps: &mut Steps<L>,
    ) -> Result<TbsIdCert, DecodeError>
        ensures { TakesCounted 2 (tbs_certificate cursor.old.mode) (λ x. x)
            cursor.old cursor.new steps.old steps.new result }
    {
        cursor.enter_counted(Tag::SEQUENCE, steps)?;
        take_version(cursor, steps)?;
        let serial = Serial::take_from_counted(cursor, steps)?;
        take_algorithm::<RpkiSignatureAlgorithm, L>(cursor, steps)?;
        let issuer = Name::take_from_counted(alloc, cursor, steps)?;
        let validity = Validity::take_from_counted(cursor, steps)?;
        let subject = Name::take_from_counted(alloc, cursor, steps)?;
        let key = PublicKey::take_from_counted(alloc, cursor, steps)?;
        let known = take_extensions(alloc, cursor, steps)?;
        cursor.leave_counted(steps)?;
        let (subject_key_id, basic_ca, authority_key_id) = known.parts();
        Ok(TbsIdCert {
            serial,
            issuer,
            validity,
            subject,
            key,
            basic_ca,
            subject_key_id,
            authority_key_id,
        })
    }
}

impl TbsIdCert {
    fn take_from_within<L: Ledger>(
        alloc: Global,
        cursor: &mut Cursor<'_>,
        blank: Blank,
    ) -> Result<TbsIdCert, DecodeError>
        requires name { blank.name ≡ L.name }
        requires parts { blank.parts ≡ L.parts }
        requires some { 0 < blank.parts }
        ensures { Takes (tbs_certificate cursor.old.mode) (λ x. x) cursor.old cursor.new result }
    {
        let mut steps = Steps::<L>::new(blank);
        TbsIdCert::take_from_counted(alloc, cursor, &mut steps)
    }

    /// The fields that stand next: a TBSCertificate (RFC 5280, 4.1.2) of version 3 with the RPKI's signature algorithm, without unique
    /// identifiers and with extensions, among which the subject's key identifier is once and basicConstraints once at most. It is read by
    /// the cursor's rules, but what the known extensions hold is in DER.
    pub fn take_from(alloc: Global, cursor: &mut Cursor<'_>) -> Result<TbsIdCert, DecodeError>
        ensures { Takes (tbs_certificate cursor.old.mode) (λ x. x) cursor.old cursor.new result }
    {
        TbsIdCert::take_from_within::<Brand>(alloc, cursor, Blank::new(1))
    }
}

/// The octets of what stands next, and what they say.
pub(crate) fn take_held<'a, L: Ledger>(
    alloc: Global,
    cursor: &mut Cursor<'a>,
    steps: &mut Steps<L>,
) -> Result<(&'a [u8], TbsIdCert), DecodeError>
    ensures { TakesCounted 2 (with_octets (tbs_certificate cursor.old.mode)) (λ x. (x.0.now, x.1))
        cursor.old cursor.new steps.old steps.new result }
{
    let start = cursor.here();
    let tbs = TbsIdCert::take_from_counted(alloc, cursor, steps)?;
    let octets = cursor.since(start);
    Ok((octets, tbs))
}
