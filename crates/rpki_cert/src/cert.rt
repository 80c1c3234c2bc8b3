//! Resource certificates.

ghost use Rattle.std.specs.Prelude.{◌≡◌, ◌↔◌, ◌<◌, IfOk, true};
ghost use Rattle.rpki_der.specs.declared.mode.Mode.TheVariants.{Der};
ghost use Rattle.rpki_der.specs.Grammar.{wrapped};
ghost use Rattle.rpki_der.specs.Tags.{context};
ghost use Rattle.rpki_der.specs.Takes.{Decodes};
ghost use Rattle.rpki_der.specs.Ticks.{TakesCounted, DecodesCounted};
ghost use Rattle.rpki_der.specs.Whole.{whole_of};
ghost use Rattle.rpki_base.specs.RpkiSignatureAlgorithm.{x509_algorithm};
ghost use Rattle.rpki_base.specs.SignedData.{signed_as};
ghost use Rattle.rpki_cert.specs.Cert.{CertFields, unread_extensions, tbs_certificate, what_is_signed, certificate};
ghost use Rattle.rpki_cert.specs.ReadInDer.{IsCertificate};

use bytes::Bytes;
use rpki_base::{
    Extension, FindsExtensions, Name, PublicKey, RpkiSignatureAlgorithm, Serial, Validity,
    leave_signature, take_algorithm, take_tagged_extensions_counted,
};
use rpki_der::{Captured, Cursor, DecodeError, Mode, OutOfMemory, Steps, Tag, Writer};
use rpki_idcert::take_version;
use rpki_text::Base64;
use std::alloc::Global;
use std::marker::{Brand, Model};
use std::sync::ledger::{Blank, Ledger};

/// A resource certificate that was read in DER: its exact octets, and the key of its subject (RFC 6487, 4).
///
/// In a clause it is these two; [`Cert::as_slice`] says that the octets are read as it. `==` compares the octets.
#[derive_where(PartialEq, Eq)]
pub struct Cert {
    slice: Bytes,
    #[derive_where(skip)]
    key: PublicKey,
}

impl Drop for Cert {
    fn drop(self) {
        let Cert { slice, key } = self;
    }
}

impl Model for Cert {
    ghost use Rattle.rpki_cert.specs.Cert.{CertFields};
    ghost use Rattle.rpki_cert.specs.ReadInDer.{IsCertificate};

    ghost Value = { CertFields };

    ghost view = { λ c. record { slice = c.slice; key = c.key } };

    ghost invariant = { λ c. IsCertificate (record { slice = c.slice; key = c.key }) };

    ghost inverse = { λ c. record { slice = c.slice; key = c.key } };
}

/// `==` holds exactly between certificates whose octets are the same.
pub fn equal_certs_have_the_same_octets()
    ensures { (a b : CertFields) → (⟦<Cert as PartialEq>⟧.eq a b ≡ true) ↔ (a.slice ≡ b.slice) }
{}

/// # Data access
impl Cert {
    /// The key of the subject (RFC 5280, 4.1.2.7).
    pub fn subject_public_key_info(&self) -> &PublicKey
        ensures { result.now ≡ self.now.key }
    {
        &self.key
    }

    /// The exact octets, which are read as this certificate again.
    pub fn as_slice(&self) -> &[u8]
        ensures octets { result.now ≡ self.now.slice }
        ensures der { IsCertificate self.now }
    {
        self.slice.as_slice()
    }

    /// An equal certificate that shares its octets with this one.
    pub fn clone(&self, alloc: Global) -> Result<Cert, OutOfMemory>
        ensures { IfOk result (λ c. c ≡ self.now) }
    {
        let slice = self.slice.clone()?;
        let key = self.key.clone(alloc)?;
        Ok(Cert { slice, key })
    }
}

// Nothing is found in extensions that are unread.
#[derive(Drop)]
struct Unread;

impl Model for Unread {
    ghost Value = { Unit {0} };

    ghost view = { λ _. tt };
}

impl FindsExtensions for Unread {
    ghost use Rattle.std.specs.Prelude.{Some};

    ghost with = { λ found e. Some tt };

    fn found_with<L: Ledger>(
        self,
        _alloc: Global,
        _extension: &Extension<'_>,
        _steps: &mut Steps<L>,
    ) -> Result<Unread, DecodeError> {
        Ok(Unread)
    }
}

// Passes the extensions that stand next under [3].
fn pass_extensions<L: Ledger>(
    alloc: Global,
    cursor: &mut Cursor<'_>,
    steps: &mut Steps<L>,
) -> Result<(), DecodeError>
    ensures { TakesCounted 2 (wrapped (context 3) (unread_extensions cursor.old.mode)) (λ x. x)
        cursor.old cursor.new steps.old steps.new result }
{
    take_tagged_extensions_counted(alloc, cursor, Tag::CTX_3, Unread, steps)?;
    Ok(())
}

// The key of the subject in what is signed, which stands next. It ticks once for each header and each end mark that it reads.
fn take_key<L: Ledger>(
    alloc: Global,
    cursor: &mut Cursor<'_>,
    steps: &mut Steps<L>,
) -> Result<PublicKey, DecodeError>
    ensures { TakesCounted 2 (tbs_certificate cursor.old.mode) (λ x. x)
        cursor.old cursor.new steps.old steps.new result }
{
    cursor.enter_counted(Tag::SEQUENCE, steps)?;
    take_version(cursor, steps)?;
    let _serial = Serial::take_from_counted(cursor, steps)?;
    take_algorithm::<RpkiSignatureAlgorithm, L>(cursor, steps)?;
    let _issuer = Name::take_from_counted(alloc, cursor, steps)?;
    let _validity = Validity::take_from_counted(cursor, steps)?;
    let _subject = Name::take_from_counted(alloc, cursor, steps)?;
    let key = PublicKey::take_from_counted(alloc, cursor, steps)?;
    pass_extensions(alloc, cursor, steps)?;
    cursor.leave_counted(steps)?;
    Ok(key)
}

// The key of the subject of the certificate that stands next.
fn take_signed_key<L: Ledger>(
    alloc: Global,
    cursor: &mut Cursor<'_>,
    steps: &mut Steps<L>,
) -> Result<PublicKey, DecodeError>
    ensures { TakesCounted 2 (signed_as (tbs_certificate cursor.old.mode) what_is_signed
        (whole_of x509_algorithm) cursor.old.mode) (λ x. x)
        cursor.old cursor.new steps.old steps.new result }
{
    cursor.enter_counted(Tag::SEQUENCE, steps)?;
    let key = take_key(alloc, cursor, steps)?;
    let _signature = leave_signature::<RpkiSignatureAlgorithm, L>(alloc, cursor, steps)?;
    Ok(key)
}

// The octets of the certificate that stands next, and the key of its subject, by the cursor's rules. It ticks each time it
// looks at a header, and for each end mark, but not where it reads an algorithm again from its octets.
fn take_parts<L: Ledger>(
    alloc: Global,
    cursor: &mut Cursor<'_>,
    steps: &mut Steps<L>,
) -> Result<(Bytes, PublicKey), DecodeError>
    ensures { TakesCounted 2 (certificate cursor.old.mode) (λ p. record { slice = p.0; key = p.1 })
        cursor.old cursor.new steps.old steps.new result }
{
    let start = cursor.here();
    let key = take_signed_key(alloc, cursor, steps)?;
    let octets = cursor.since(start);
    let slice = Bytes::copy_from_slice(alloc, octets)?;
    Ok((slice, key))
}

/// # Decoding
impl Cert {
    /// The certificate at the beginning of the octets, in DER; what stands behind it isn't read. The fields of RFC 5280, 4.1.2, have to be
    /// there, in version 3 with the RPKI's signature algorithm, without unique identifiers and with a list of extensions, whose contents
    /// aren't read. Whether the signature holds isn't looked at, nor is the profile of RFC 6487.
    ///
    /// Malformed exactly where no beginning of the octets is a certificate.
    pub fn decode(alloc: Global, octets: &[u8]) -> Result<Cert, DecodeError>
        ensures { Decodes (certificate Der) (λ c. c) Der octets.now result }
    {
        decode_within::<Brand>(alloc, octets, Blank::new(1))
    }

    /// Answers as `decode` does, at a price: it ticks at least once for each value and at most twice an octet of the certificate; where
    /// it refuses, at most twice for each octet that it was given, and 8 times more.
    pub fn decode_counted<L: Ledger>(
        alloc: Global,
        octets: &[u8],
        steps: &mut Steps<L>,
    ) -> Result<Cert, DecodeError>
        ensures { DecodesCounted 2 (certificate Der) (λ c. c) Der octets.now steps.old steps.new
            result }
    {
        let mut cursor = Cursor::new(alloc, Mode::Der, octets);
        let (slice, key) = take_parts(alloc, &mut cursor, steps)?;
        Ok(Cert { slice, key })
    }
}

fn decode_within<L: Ledger>(alloc: Global, octets: &[u8], blank: Blank) -> Result<Cert, DecodeError>
    requires name { blank.name ≡ L.name }
    requires parts { blank.parts ≡ L.parts }
    requires some { 0 < blank.parts }
    ensures { Decodes (certificate Der) (λ c. c) Der octets.now result }
{
    let mut steps = Steps::<L>::new(blank);
    Cert::decode_counted(alloc, octets, &mut steps)
}

/// # Encoding
impl Cert {
    /// The exact octets.
    pub fn to_captured(&self, alloc: Global) -> Result<Captured, OutOfMemory>
        ensures { IfOk result (λ c. c ≡ self.now.slice) }
    {
        let mut out = Writer::new(alloc);
        out.raw(self.slice.as_slice())?;
        out.into_captured()
    }

    /// The exact octets as base64 (RFC 4648, 4).
    pub fn to_base64(&self, alloc: Global) -> Result<Base64, OutOfMemory>
        ensures { IfOk result (λ b. b ≡ self.now.slice) }
    {
        Base64::from_content(alloc, self.slice.as_slice())
    }
}
