//! Certificate requests.

ghost use Rattle.std.specs.Prelude.{◌≡◌, ◌↔◌, ◌<◌, ◌++◌, IfOk, IsOk, OnOk, OnErr};
ghost use Rattle.std.specs.Option.{option_copied};
ghost use Rattle.rpki_der.specs.declared.mode.Mode.TheVariants.{Der};
ghost use Rattle.rpki_der.specs.Held.{with_octets};
ghost use Rattle.rpki_der.specs.Takes.{Decodes};
ghost use Rattle.rpki_der.specs.Ticks.{TakesCounted, DecodesCounted};
ghost use Rattle.rpki_base.specs.SignedData.{spelled_data, CanSpellSigned};
ghost use Rattle.rpki_cert.specs.Csr.{request_info, certification_request};
ghost use Rattle.rpki_cert.specs.ReadInDer.{IsReadInDer};

use crate::csr_attributes::{BgpsecCsrAttributes, CsrAttributes, RpkiCaCsrAttributes};
use crate::extended_key_usage::ExtendedKeyUsage;
use crate::key_usage::KeyUsage;
use bytes::Bytes;
use rpki_base::{
    BgpsecSignatureAlgorithm, Name, PublicKey, RpkiSignatureAlgorithm, Scheme, SignatureAlgorithm,
    SignatureVerificationError, SignedData, Verifier, leave_signature,
};
use rpki_der::{
    Captured, Cursor, DecodeError, Mode, OutOfMemory, Steps, Tag, Writer, take_integer_if_counted,
};
use rpki_text::uri::{Https, Rsync};
use std::alloc::Global;
use std::marker::{Brand, Model};
use std::sync::ledger::{Blank, Ledger};

/// What a request says (RFC 2986, 4.1).
///
/// In a clause it is the record of the three.
pub(crate) struct CsrContent<Attributes: CsrAttributes> {
    subject: Name,
    public_key: PublicKey,
    attributes: Attributes,
}

impl<Attributes: CsrAttributes> Drop for CsrContent<Attributes> {
    fn drop(self) {
        let CsrContent {
            subject,
            public_key,
            attributes,
        } = self;
    }
}

impl<Attributes: CsrAttributes> Model for CsrContent<Attributes> {
    ghost use Rattle.rpki_cert.specs.Csr.{RequestFields};

    ghost Value = { RequestFields Attributes };

    ghost view = { λ c. record {
      subject = c.subject;
      key = c.public_key;
      attributes = c.attributes;
    } };
}

/// A certificate request that was read in DER: the exact octets that are signed with their signature, and what they say (RFC 2986, 4).
///
/// In a clause it is these two; [`Csr::signed_data`] says that some octets are read as it.
pub struct Csr<Alg: SignatureAlgorithm, Attributes: CsrAttributes> {
    signed: SignedData<Alg>,
    content: CsrContent<Attributes>,
}

impl<Alg: SignatureAlgorithm, Attributes: CsrAttributes> Drop for Csr<Alg, Attributes> {
    fn drop(self) {
        let Csr { signed, content } = self;
    }
}

/// The request of an authority for a resource certificate (RFC 6487, 6).
pub type RpkiCaCsr = Csr<rpki_base::RpkiSignatureAlgorithm, RpkiCaCsrAttributes>;

/// The request of a router for a BGPsec certificate (RFC 8209, 3.2).
pub type BgpsecCsr = Csr<rpki_base::BgpsecSignatureAlgorithm, BgpsecCsrAttributes>;

impl<Alg: SignatureAlgorithm, Attributes: CsrAttributes> Model for Csr<Alg, Attributes> {
    ghost use Rattle.rpki_base.specs.SignedData.{Signed};
    ghost use Rattle.rpki_cert.specs.Csr.{RequestFields};
    ghost use Rattle.rpki_cert.specs.ReadInDer.{IsReadInDer};

    ghost Value = { Signed Alg (RequestFields Attributes) };

    ghost view = { λ c. record { signed = c.signed; tbs = c.content } };

    ghost invariant = { λ c. IsReadInDer Attributes.reads Alg.reads
        (record { signed = c.signed; tbs = c.content }) };
}

/// # Data access
impl<Alg: SignatureAlgorithm, Attributes: CsrAttributes> Csr<Alg, Attributes> {
    /// The name of the subject.
    pub fn subject(&self) -> &Name
        ensures { result.now ≡ self.now.tbs.subject }
    {
        &self.content.subject
    }

    /// The key for which a certificate is requested. `verify_signature` tells that whoever signed the request held the private key. It
    /// tells nothing of who sent it.
    pub fn public_key(&self) -> &PublicKey
        ensures { result.now ≡ self.now.tbs.key }
    {
        &self.content.public_key
    }

    /// What the attributes say.
    pub fn attributes(&self) -> &Attributes
        ensures { result.now ≡ self.now.tbs.attributes }
    {
        &self.content.attributes
    }

    /// The exact octets that are signed, and their signature. The request was read in DER.
    pub fn signed_data(&self) -> &SignedData<Alg>
        ensures signed { result.now ≡ self.now.signed }
        ensures der { IsReadInDer Attributes.reads Alg.reads self.now }
    {
        &self.signed
    }
}

impl<Alg: SignatureAlgorithm> Csr<Alg, RpkiCaCsrAttributes> {
    /// Whether the subject is to be an authority.
    pub fn basic_ca(&self) -> bool
        ensures { result ≡ self.now.tbs.attributes.basic_ca }
    {
        self.content.attributes.basic_ca()
    }

    /// What the key may be used for.
    pub fn key_usage(&self) -> KeyUsage
        ensures { result ≡ self.now.tbs.attributes.key_usage }
    {
        self.content.attributes.key_usage()
    }

    /// For what purposes the key is used, if that is said.
    pub fn extended_key_usage(&self) -> Option<&ExtendedKeyUsage>
        ensures { option_copied result ≡ self.now.tbs.attributes.extended_key_usage }
    {
        self.content.attributes.extended_key_usage()
    }

    /// Where the objects are to be, if that is said.
    pub fn ca_repository(&self) -> Option<&Rsync>
        ensures { option_copied result
            ≡ self.now.tbs.attributes.access.ca_repository }
    {
        self.content.attributes.ca_repository()
    }

    /// Where the manifest is to be, if that is said.
    pub fn rpki_manifest(&self) -> Option<&Rsync>
        ensures { option_copied result
            ≡ self.now.tbs.attributes.access.rpki_manifest }
    {
        self.content.attributes.rpki_manifest()
    }

    /// Where changes are notified, if that is said.
    pub fn rpki_notify(&self) -> Option<&Https>
        ensures { option_copied result ≡ self.now.tbs.attributes.access.rpki_notify }
    {
        self.content.attributes.rpki_notify()
    }
}

impl<Attributes: CsrAttributes> CsrContent<Attributes> {
    // What stands next. It ticks once for each header and each end mark that it reads.
    fn take_from_counted<L: Ledger>(
        alloc: Global,
        cursor: &mut Cursor<'_>,
        steps: &mut Steps<L>,
    ) -> Result<CsrContent<Attributes>, DecodeError>
        ensures { TakesCounted 2 (request_info Attributes.reads cursor.old.mode) (λ x. x)
            cursor.old cursor.new steps.old steps.new result }
    {
        cursor.enter_counted(Tag::SEQUENCE, steps)?;
        take_integer_if_counted(cursor, 0, steps)?;
        let subject = Name::take_from_counted(alloc, cursor, steps)?;
        let public_key = PublicKey::take_from_counted(alloc, cursor, steps)?;
        let attributes = Attributes::take_from_counted(alloc, cursor, steps)?;
        cursor.leave_counted(steps)?;
        Ok(CsrContent {
            subject,
            public_key,
            attributes,
        })
    }
}

// The octets of what stands next, and what they say.
fn take_held<'a, Attributes: CsrAttributes, L: Ledger>(
    alloc: Global,
    cursor: &mut Cursor<'a>,
    steps: &mut Steps<L>,
) -> Result<(&'a [u8], CsrContent<Attributes>), DecodeError>
    ensures { TakesCounted 2 (with_octets (request_info Attributes.reads cursor.old.mode))
        (λ x. (x.0.now, x.1)) cursor.old cursor.new steps.old steps.new result }
{
    let start = cursor.here();
    let content = CsrContent::<Attributes>::take_from_counted(alloc, cursor, steps)?;
    let octets = cursor.since(start);
    Ok((octets, content))
}

// The signed octets of the request that stands next, and what they say, by the cursor's rules. It ticks each time it looks at a header,
// and for each end mark, but not where it reads an algorithm, a kept identifier or a location again from its octets.
fn take_parts<Alg: SignatureAlgorithm, Attributes: CsrAttributes, L: Ledger>(
    alloc: Global,
    cursor: &mut Cursor<'_>,
    steps: &mut Steps<L>,
) -> Result<(SignedData<Alg>, CsrContent<Attributes>), DecodeError>
    ensures { TakesCounted 2
        (certification_request Attributes.reads Alg.reads cursor.old.mode)
        (λ p. record { signed = p.0; tbs = p.1 })
        cursor.old cursor.new steps.old steps.new result }
{
    cursor.enter_counted(Tag::SEQUENCE, steps)?;
    let (octets, content) = take_held::<Attributes, L>(alloc, cursor, steps)?;
    let slice = Bytes::copy_from_slice(alloc, octets)?;
    let signature = leave_signature::<Alg, L>(alloc, cursor, steps)?;
    let signed = SignedData::new(slice, signature);
    Ok((signed, content))
}

/// # Decoding
impl<Alg: SignatureAlgorithm, Attributes: CsrAttributes> Csr<Alg, Attributes> {
    /// The request at the beginning of the octets, in DER; what stands behind it isn't read.
    ///
    /// Malformed exactly where no beginning of the octets is a request of this kind.
    pub fn decode(alloc: Global, octets: &[u8]) -> Result<Csr<Alg, Attributes>, DecodeError>
        ensures { Decodes (certification_request Attributes.reads Alg.reads Der) (λ c. c)
            Der octets.now result }
    {
        decode_within::<Alg, Attributes, Brand>(alloc, octets, Blank::new(1))
    }

    /// Answers as `decode` does, at a price: it ticks at least once for each value and at most twice an octet of the request; where it
    /// refuses, at most twice for each octet that it was given, and 8 times more.
    pub fn decode_counted<L: Ledger>(
        alloc: Global,
        octets: &[u8],
        steps: &mut Steps<L>,
    ) -> Result<Csr<Alg, Attributes>, DecodeError>
        ensures { DecodesCounted 2 (certification_request Attributes.reads Alg.reads Der) (λ c. c)
            Der octets.now steps.old steps.new result }
    {
        let mut cursor = Cursor::new(alloc, Mode::Der, octets);
        let (signed, content) = take_parts::<Alg, Attributes, L>(alloc, &mut cursor, steps)?;
        Ok(Csr { signed, content })
    }
}

fn decode_within<Alg: SignatureAlgorithm, Attributes: CsrAttributes, L: Ledger>(
    alloc: Global,
    octets: &[u8],
    blank: Blank,
) -> Result<Csr<Alg, Attributes>, DecodeError>
    requires name { blank.name ≡ L.name }
    requires parts { blank.parts ≡ L.parts }
    requires some { 0 < blank.parts }
    ensures { Decodes (certification_request Attributes.reads Alg.reads Der) (λ c. c)
        Der octets.now result }
{
    let mut steps = Steps::<L>::new(blank);
    Csr::<Alg, Attributes>::decode_counted(alloc, octets, &mut steps)
}

/// # Validation
impl<Alg: SignatureAlgorithm, Attributes: CsrAttributes> Csr<Alg, Attributes> {
    /// Refused exactly where the signature is none of the signed octets under the request's own key. It takes no memory.
    pub fn verify_signature<P: Scheme, V: Verifier<P>>(
        &self,
        verifier: &V,
    ) -> Result<(), SignatureVerificationError>
        ensures { IsOk result ↔ P.checks (Alg.kind self.now.signed.signature.algorithm)
            self.now.tbs.key self.now.signed.slice self.now.signed.signature.value }
    {
        self.signed
            .verify_signature::<P, V>(verifier, &self.content.public_key)
    }
}

/// # Encoding
impl<Alg: SignatureAlgorithm, Attributes: CsrAttributes> Csr<Alg, Attributes> {
    /// Appends the request in DER, with the octets that are signed as they are. After a refusal nothing is appended; a request that
    /// is longer than length octets can say is refused as want of memory.
    pub fn encode_ref(&self, out: &mut Writer) -> Result<(), OutOfMemory>
        ensures ok { OnOk result (out.new ≡ out.old ++ spelled_data Alg.spelled self.now.signed) }
        ensures spelled { OnOk result (CanSpellSigned Alg.spelled self.now.signed) }
        ensures err { OnErr result (out.new ≡ out.old) }
    {
        self.signed.encode_ref(out)
    }

    /// What `encode_ref` appends, by itself.
    pub fn to_captured(&self, alloc: Global) -> Result<Captured, OutOfMemory>
        ensures octets { IfOk result (λ c. c ≡ spelled_data Alg.spelled self.now.signed) }
        ensures spelled { OnOk result (CanSpellSigned Alg.spelled self.now.signed) }
    {
        let mut out = Writer::new(alloc);
        self.encode_ref(&mut out)?;
        out.into_captured()
    }
}

impl Csr<RpkiSignatureAlgorithm, RpkiCaCsrAttributes> {
    /// An equal request that shares its octets with this one.
    pub fn clone(&self, alloc: Global) -> Result<RpkiCaCsr, OutOfMemory>
        ensures { IfOk result (λ c. c ≡ self.now) }
    {
        let signed = self.signed.clone(alloc)?;
        let subject = self.content.subject.clone(alloc)?;
        let public_key = self.content.public_key.clone(alloc)?;
        let attributes = self.content.attributes.clone(alloc)?;
        Ok(Csr {
            signed,
            content: CsrContent {
                subject,
                public_key,
                attributes,
            },
        })
    }
}

impl Csr<BgpsecSignatureAlgorithm, BgpsecCsrAttributes> {
    /// An equal request that shares its octets with this one.
    pub fn clone(&self, alloc: Global) -> Result<BgpsecCsr, OutOfMemory>
        ensures { IfOk result (λ c. c ≡ self.now) }
    {
        let signed = self.signed.clone(alloc)?;
        let subject = self.content.subject.clone(alloc)?;
        let public_key = self.content.public_key.clone(alloc)?;
        let attributes = self.content.attributes.clone(alloc)?;
        Ok(Csr {
            signed,
            content: CsrContent {
                subject,
                public_key,
                attributes,
            },
        })
    }
}
