//! Making requests.

ghost use Rattle.std.specs.Prelude.{◌≡◌, ◌≢◌, ◌≤◌, ◌↔◌, ◌++◌, ℕ, List, true, Some, None, length, IfOk, IfErr, IsErrOf, OnOk, MatchResult};
ghost use Rattle.std.specs.Option.{option_copied};
ghost use Rattle.rpki_der.specs.declared.mode.Mode.TheVariants.{Der};
ghost use Rattle.rpki_der.specs.Tags.{sequence, set};
ghost use Rattle.rpki_der.specs.Takes.{BeginsAs};
ghost use Rattle.rpki_der.specs.Whole.{whole_of};
ghost use Rattle.rpki_der.specs.Writing.{der_primitive, der_constructed};
ghost use Rattle.rpki_base.specs.declared.rpki_algorithm.RsaIdentifier.TheVariants.{RsaEncryption};
ghost use Rattle.rpki_base.specs.RpkiSignatureAlgorithm.{x509_algorithm, spelled_x509};
ghost use Rattle.rpki_base.specs.SignedData.{spelled_data, CanSpellSigned};
ghost use Rattle.rpki_signer.specs.Signer.{Stays};
ghost use Rattle.rpki_signer.specs.declared.errors.MakeError.TheVariants as make;
ghost use Rattle.rpki_text.specs.Uri.{rsync, fault_of};
ghost use Rattle.rpki_text.specs.declared.uri.Error.TheVariants as fault;
ghost use Rattle.rpki_cert.specs.declared.construct.CsrError.{CsrError};
ghost use Rattle.rpki_cert.specs.declared.construct.CsrError.TheVariants as variant;
ghost use Rattle.rpki_cert.specs.Csr.{certification_request};
ghost use Rattle.rpki_cert.specs.CsrAttributes.{ca_attributes};
ghost use Rattle.rpki_cert.specs.Making as spec;

use crate::access::uri_tag;
use crate::object_identifiers::{
    CA_REPOSITORY, EXTENSION_REQUEST, KEY_USAGE, RPKI_MANIFEST, RPKI_NOTIFY, SUBJECT_INFO_ACCESS,
};
use bytes::Bytes;
use rpki_base::{
    BASIC_CONSTRAINTS, Name, PublicKey, RpkiSignatureAlgorithm, Scheme, Signature, SignedData,
    write_constructed, write_primitive,
};
use rpki_der::{Captured, OutOfMemory, Tag, Writer};
use rpki_signer::{MakeError, Signer, SigningError, key_within_limit, sign_within_limit};
use rpki_text::uri::{self, Https, Rsync};
use std::alloc::Global;
use std::fmt;
use std::marker::Model;

/// Why no request was made.
#[derive(Debug, PartialEq, Eq, Drop)]
pub enum CsrError<E> {
    /// The URI of the repository with a slash behind it is unlawful. What is inside is never `OutOfMemory`.
    Uri(uri::Error),
    /// The signer gave a key or a signature of more than 2^16 octets, and its count of these rose.
    TooLong,
    /// The signer refused. What is inside is never `OutOfMemory`.
    Signing(SigningError<E>),
    /// Memory ran out.
    OutOfMemory,
}

/// `==` holds exactly between errors that are the same, where it does so between what the signer says.
pub fn equal_request_errors_are_the_same<E: PartialEq>()
    ensures { ((x y : E) → (E.eq x y ≡ true) ↔ (x ≡ y)) → (a b : CsrError E)
        → (⟦<CsrError<E> as PartialEq>⟧.eq a b ≡ true) ↔ (a ≡ b) }
{}

impl<E> From<OutOfMemory> for CsrError<E> {
    ghost from_gives = { λ _ e. e ≡ variant.OutOfMemory };

    fn from(_: OutOfMemory) -> CsrError<E> {
        CsrError::OutOfMemory
    }
}

impl<E> From<MakeError<E>> for CsrError<E> {
    ghost use Rattle.rpki_cert.specs.Making.{csr_error_of};

    ghost from_gives = { λ error e. e ≡ csr_error_of error };

    fn from(error: MakeError<E>) -> CsrError<E> {
        match error {
            MakeError::TooLong => CsrError::TooLong,
            MakeError::Signing(error) => CsrError::Signing(error),
            MakeError::OutOfMemory => CsrError::OutOfMemory,
        }
    }
}

impl<E> From<uri::Error> for CsrError<E> {
    ghost use Rattle.rpki_cert.specs.Making.{csr_error_of_uri};

    ghost from_gives = { λ error e. e ≡ csr_error_of_uri error };

    fn from(error: uri::Error) -> CsrError<E> {
        match error {
            uri::Error::OutOfMemory => CsrError::OutOfMemory,
            uri::Error::TooLong => CsrError::Uri(uri::Error::TooLong),
            uri::Error::BadCharacter => CsrError::Uri(uri::Error::BadCharacter),
            uri::Error::BadScheme => CsrError::Uri(uri::Error::BadScheme),
            uri::Error::BadUri => CsrError::Uri(uri::Error::BadUri),
            uri::Error::DotSegments => CsrError::Uri(uri::Error::DotSegments),
        }
    }
}

impl<E: fmt::Display> fmt::Display for CsrError<E> {
    ghost use Rattle.rpki_cert.specs.Making.{csr_text};

    ghost output = { λ error. csr_text E.output error };

    fn fmt<W: fmt::Write>(&self, f: &mut fmt::Formatter<W>) -> fmt::Result {
        match self {
            CsrError::Uri(_) => f.write_str("the URI with its slash is unlawful"),
            CsrError::TooLong => f.write_str("key or signature too long"),
            CsrError::Signing(error) => write!(f, "{error}"),
            CsrError::OutOfMemory => f.write_str("out of memory"),
        }
    }
}

// The URI of a directory: the URI itself, or with a slash behind it where its path names none.
fn slashed(alloc: Global, uri: &Rsync) -> Result<Rsync, uri::Error>
    ensures text { IfOk result (λ u. u ≡ spec.slashed uri.now) }
    ensures lawful { OnOk result (fault_of rsync (spec.slashed uri.now) ≡ None) }
    ensures fault { IfErr result (λ e.
        e ≢ fault.OutOfMemory → fault_of rsync (spec.slashed uri.now) ≡ Some e) }

    // A URI that its slash makes too long is not told as want of memory.
    ensures memory { IsErrOf result fault.OutOfMemory → length (spec.slashed uri.now) ≤ 65535 }
{
    // For the proof: the URI is lawful, so it is short.
    let _uri = uri.as_str();
    if uri.path_is_dir() {
        Ok(uri.clone(alloc)?)
    } else {
        uri.join(alloc, b"/")
    }
}

// Appends an extension, whose flag is written also where it is false.
#[tactic(auto, unfolding(crate::specs::Making::requested_extension))]
fn write_extension(
    identifier: &[u8],
    critical: bool,
    value: &Writer,
    out: &mut Writer,
) -> Result<(), OutOfMemory>
    ensures ok { OnOk result
        (out.new ≡ out.old ++ spec.requested_extension identifier.now critical value.now) }
{
    let flag = if critical { 0xFF } else { 0 };
    let mut inner = out.inner();
    write_primitive(Tag::OID, identifier, &mut inner)?;
    inner.primitive(Tag::BOOLEAN, &[flag])?;
    write_primitive(Tag::OCTET_STRING, value.as_slice(), &mut inner)?;
    write_constructed(Tag::SEQUENCE, &inner, out)
}

// Appends basicConstraints: a SEQUENCE of TRUE.
#[tactic(auto, unfolding(crate::specs::Making::authority_extension))]
fn write_authority(out: &mut Writer) -> Result<(), OutOfMemory>
    ensures ok { OnOk result (out.new ≡ out.old ++ spec.authority_extension) }
{
    let mut flag = out.inner();
    flag.primitive(Tag::BOOLEAN, &[0xFF])?;
    let mut value = out.inner();
    value.constructed(Tag::SEQUENCE, &flag)?;
    write_extension(&BASIC_CONSTRAINTS, true, &value, out)
}

// Appends keyUsage: keyCertSign and cRLSign.
#[tactic(auto, unfolding(crate::specs::Making::usage_extension))]
fn write_usage(out: &mut Writer) -> Result<(), OutOfMemory>
    ensures ok { OnOk result (out.new ≡ out.old ++ spec.usage_extension) }
{
    let mut value = out.inner();
    value.primitive(Tag::BIT_STRING, &[1, 6])?;
    write_extension(&KEY_USAGE, true, &value, out)
}

// Appends the name of the attribute.
#[tactic(auto, unfolding(crate::specs::Making::attribute_name))]
fn write_attribute_name(out: &mut Writer) -> Result<(), OutOfMemory>
    ensures ok { OnOk result (out.new ≡ out.old ++ spec.attribute_name) }
{
    out.primitive(Tag::OID, &EXTENSION_REQUEST)
}

// Appends a description of what is accessed and where.
#[tactic(auto, unfolding(crate::specs::Making::spelled_description))]
fn write_description(method: &[u8], uri: &str, out: &mut Writer) -> Result<(), OutOfMemory>
    ensures ok { OnOk result (out.new ≡ out.old ++ spec.spelled_description method.now uri.now) }
{
    let mut inner = out.inner();
    write_primitive(Tag::OID, method, &mut inner)?;
    write_primitive(uri_tag(), uri.as_bytes(), &mut inner)?;
    write_constructed(Tag::SEQUENCE, &inner, out)
}

// Appends the description of where changes are notified, if that is said.
fn write_notify(uri: Option<&Https>, out: &mut Writer) -> Result<(), OutOfMemory>
    ensures ok { OnOk result (out.new ≡ out.old ++ spec.spelled_notify (option_copied uri.entry)) }
{
    match uri {
        None => Ok(()),
        Some(uri) => write_description(&RPKI_NOTIFY, uri.as_str(), out),
    }
}

// Where the objects and the manifest of an authority are to be, and where changes are notified.
//
// In a clause it is the record of the three.
#[derive(Drop)]
struct Places {
    ca_repository: Rsync,
    rpki_manifest: Rsync,
    rpki_notify: Option<Https>,
}

impl Model for Places {
    ghost use Rattle.rpki_cert.specs.Making.{Places as PlacesFields};

    ghost Value = { PlacesFields };

    ghost view = { λ p. record {
      ca_repository = p.ca_repository;
      rpki_manifest = p.rpki_manifest;
      rpki_notify = p.rpki_notify;
    } };
}

impl Places {
    // These places, with a slash behind the first where its path names no directory.
    fn new(
        alloc: Global,
        ca_repository: &Rsync,
        rpki_manifest: &Rsync,
        rpki_notify: Option<&Https>,
    ) -> Result<Places, uri::Error>
        ensures places { IfOk result (λ p. p ≡ record {
          ca_repository = spec.slashed ca_repository.now;
          rpki_manifest = rpki_manifest.now;
          rpki_notify = option_copied rpki_notify.entry;
        }) }
        ensures lawful { OnOk result (fault_of rsync (spec.slashed ca_repository.now) ≡ None) }
        ensures fault { IfErr result (λ e.
            e ≢ fault.OutOfMemory → fault_of rsync (spec.slashed ca_repository.now) ≡ Some e) }
        ensures memory { IsErrOf result fault.OutOfMemory
            → length (spec.slashed ca_repository.now) ≤ 65535 }
    {
        let ca_repository = slashed(alloc, ca_repository)?;
        // For the proof: the URI is lawful, so it is short.
        let _uri = ca_repository.as_str();
        let rpki_manifest = rpki_manifest.clone(alloc)?;
        let rpki_notify = match rpki_notify {
            None => None,
            Some(uri) => Some(uri.clone(alloc)?),
        };
        Ok(Places {
            ca_repository,
            rpki_manifest,
            rpki_notify,
        })
    }

    // Appends the descriptions in a SEQUENCE.
    fn write_access(&self, out: &mut Writer) -> Result<(), OutOfMemory>
        ensures ok { OnOk result (out.new ≡ out.old ++ spec.spelled_access self.now) }
    {
        let mut inner = out.inner();
        write_description(&CA_REPOSITORY, self.ca_repository.as_str(), &mut inner)?;
        write_description(&RPKI_MANIFEST, self.rpki_manifest.as_str(), &mut inner)?;
        write_notify(self.rpki_notify.as_ref(), &mut inner)?;
        write_constructed(Tag::SEQUENCE, &inner, out)
    }

    // Appends the extensions.
    fn write_extensions(&self, out: &mut Writer) -> Result<(), OutOfMemory>
        ensures ok { OnOk result (out.new ≡ out.old ++ spec.spelled_extensions self.now) }
    {
        let mut access = out.inner();
        self.write_access(&mut access)?;
        write_authority(out)?;
        write_usage(out)?;
        write_extension(&SUBJECT_INFO_ACCESS, false, &access, out)
    }

    // Appends the one value of the attribute in a SET.
    fn write_value(&self, out: &mut Writer) -> Result<(), OutOfMemory>
        ensures ok { OnOk result (out.new ≡ out.old
            ++ der_constructed set (der_constructed sequence (spec.spelled_extensions self.now))) }
    {
        let mut extensions = out.inner();
        self.write_extensions(&mut extensions)?;
        let mut list = out.inner();
        write_constructed(Tag::SEQUENCE, &extensions, &mut list)?;
        write_constructed(Tag::SET, &list, out)
    }

    // Appends the attribute.
    fn write_attribute(&self, out: &mut Writer) -> Result<(), OutOfMemory>
        ensures ok { OnOk result (out.new ≡ out.old ++ spec.spelled_attribute self.now) }
    {
        let mut inner = out.inner();
        write_attribute_name(&mut inner)?;
        self.write_value(&mut inner)?;
        write_constructed(Tag::SEQUENCE, &inner, out)
    }
}

// For the proof: each of the places is a lawful URI, by its type.
fn are_lawful(places: &Places)
    ensures { spec.AreLawful places.now }
{
    let _ = places.ca_repository.as_str();
    let _ = places.rpki_manifest.as_str();
    if let Some(uri) = &places.rpki_notify {
        let _ = uri.as_str();
    }
}

// What is to be signed of the request for this key.
#[tactic(auto, unfolding(crate::specs::Making::spelled_info))]
fn request_info(alloc: Global, key: &PublicKey, places: &Places) -> Result<Bytes, OutOfMemory>
    ensures { IfOk result (λ b. b ≡ spec.spelled_info key.now places.now) }
{
    let mut fields = Writer::new(alloc);
    fields.primitive(Tag::INTEGER, &[0])?;
    Name::from_pub_key(alloc, key)?.encode_ref(&mut fields)?;
    key.encode_ref(&mut fields)?;
    let mut attribute = Writer::new(alloc);
    places.write_attribute(&mut attribute)?;
    write_constructed(Tag::CTX_0, &attribute, &mut fields)?;
    let mut out = Writer::new(alloc);
    write_constructed(Tag::SEQUENCE, &fields, &mut out)?;
    Ok(out.into_captured()?.into_bytes())
}

/// A request that is to be signed: its key and places, and the octets that the signature covers. In a clause it is the record of the key
/// and the places.
pub struct UnsignedCsr {
    key: PublicKey,
    places: Places,
    octets: Bytes,
}

impl Drop for UnsignedCsr {
    fn drop(self) {
        let UnsignedCsr {
            key,
            places,
            octets,
        } = self;
    }
}

impl Model for UnsignedCsr {
    ghost use Rattle.std.specs.Prelude.{◌≡◌};
    ghost use Rattle.rpki_cert.specs.Making.{UnsignedRequest, spelled_info};

    ghost Value = { UnsignedRequest };

    ghost view = { λ u. record { key = u.key; places = u.places } };

    ghost invariant = { λ u. u.octets ≡ spelled_info u.key u.places };
}

impl UnsignedCsr {
    /// The request (RFC 6487, 6) of an authority for this key: with its objects at `ca_repository`, to which a slash is added where its
    /// path is no directory, its manifest at `rpki_manifest`, and its changes notified at `rpki_notify`, if that is there.
    ///
    /// Refused where the URI with its slash is unlawful, by the first rule that it breaks; want of memory too where the key is too long
    /// for length octets.
    pub fn new(
        alloc: Global,
        key: &PublicKey,
        ca_repository: &Rsync,
        rpki_manifest: &Rsync,
        rpki_notify: Option<&Https>,
    ) -> Result<UnsignedCsr, uri::Error>
        ensures fields { IfOk result (λ u. u ≡ record {
          key = key.now;
          places = record {
            ca_repository = spec.slashed ca_repository.now;
            rpki_manifest = rpki_manifest.now;
            rpki_notify = option_copied rpki_notify.entry;
          };
        }) }

        // No request is made of an unlawful URI.
        ensures lawful { OnOk result (fault_of rsync (spec.slashed ca_repository.now) ≡ None) }
        ensures fault { IfErr result (λ e.
            e ≢ fault.OutOfMemory → fault_of rsync (spec.slashed ca_repository.now) ≡ Some e) }

        // A URI that its slash makes too long is not told as want of memory.
        ensures memory { IsErrOf result fault.OutOfMemory
            → length (spec.slashed ca_repository.now) ≤ 65535 }
    {
        let places = Places::new(alloc, ca_repository, rpki_manifest, rpki_notify)?;
        let octets = request_info(alloc, key, &places)?;
        let key = key.clone(alloc)?;
        Ok(UnsignedCsr {
            key,
            places,
            octets,
        })
    }

    /// The key for which a certificate is requested.
    pub fn public_key(&self) -> &PublicKey
        ensures { result.now ≡ self.now.key }
    {
        &self.key
    }

    /// The octets that are to be signed: CertificationRequestInfo in DER (RFC 2986, 4.1).
    pub fn as_slice(&self) -> &[u8]
        ensures { result.now ≡ spec.spelled_info self.now.key self.now.places }
    {
        self.octets.as_slice()
    }

    /// The request with this signature, which isn't looked at, in DER (RFC 2986, 4.2); want of memory too where both are longer than
    /// length octets can say.
    pub fn with_signature(
        self,
        alloc: Global,
        signature: Signature<RpkiSignatureAlgorithm>,
    ) -> Result<Captured, OutOfMemory>
        ensures octets { IfOk result (λ octets.
            octets ≡ spelled_data spelled_x509 (spec.signed_request_of self signature).signed) }
        ensures spelled { OnOk result
            (CanSpellSigned spelled_x509 (spec.signed_request_of self signature).signed) }

        // Whatever stands behind them, the octets are read as that request, where the signature's
        // algorithm has the identifier that is read in requests.
        ensures again { IfOk result (λ octets. signature.algorithm.identifier ≡ RsaEncryption
            → (rest : List ℕ) → BeginsAs
            (certification_request ca_attributes (whole_of x509_algorithm) Der) Der
            (octets ++ rest) (spec.signed_request_of self signature)) }
    {
        let UnsignedCsr {
            key,
            places,
            octets,
        } = self;
        // For the proof: each place is a lawful URI.
        are_lawful(&places);
        let signed = SignedData::new(octets, signature);
        let mut out = Writer::new(alloc);
        signed.encode_ref(&mut out)?;
        out.into_captured()
    }
}

/// The request (RFC 6487, 6) of an authority for the signer's RSA key `key`, in DER: with its objects at `ca_repository`, to which a
/// slash is added where its path is no directory, its manifest at `rpki_manifest`, and its changes notified at `rpki_notify`, if that
/// is there.
///
/// The signer gives the key, then the URI with its slash is tested, and then the signer signs; the first refusal decides. TooLong
/// where the key or the signature has more than 2^16 octets.
pub fn construct_rpki_ca<P: Scheme, S: Signer<P>>(
    alloc: Global,
    signer: &mut S,
    key: &S::KeyId,
    ca_repository: &Rsync,
    rpki_manifest: &Rsync,
    rpki_notify: Option<&Https>,
) -> Result<Captured, CsrError<S::Error>>
    ensures made { MatchResult result
        (spec.IsRequestMade P.checks key.now
        (record {
          ca_repository = spec.slashed ca_repository.now;
          rpki_manifest = rpki_manifest.now;
          rpki_notify = option_copied rpki_notify.entry;
        })
        (S.state signer.old) (S.state signer.new))
        (λ e. Stays (S.state signer.old) (S.state signer.new)
        × spec.ConstructFails key.now ca_repository.now
        (S.state signer.old) (S.state signer.new) e) }

    // The signer gives the key, then the URI is tested, and then the signer signs; the first refusal
    // decides.
    ensures first_refusal { IfErr result (spec.IsFirstRequestRefusal P.checks key.now
        ca_repository.now (S.state signer.old) (S.state signer.new)) }

    // No request is made of an unlawful URI.
    ensures lawful { OnOk result (fault_of rsync (spec.slashed ca_repository.now) ≡ None) }
{
    let public_key = key_within_limit(alloc, key, signer)?;
    let unsigned = UnsignedCsr::new(
        alloc,
        &public_key,
        ca_repository,
        rpki_manifest,
        rpki_notify,
    )?;
    let signature = sign_within_limit(alloc, key, unsigned.as_slice(), signer)?;
    Ok(unsigned.with_signature(alloc, signature)?)
}
