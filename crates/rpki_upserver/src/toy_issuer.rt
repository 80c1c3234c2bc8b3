//! An issuer of the toy scheme.

ghost use Rattle.std.specs.Prelude.{◌≡◌, ◌≤◌, map, IfErr, IfOk, IsErrOf, MatchResult, OnErr, OnOk};
ghost use Rattle.sha1.specs.Sha1.{sha1};
ghost use Rattle.rpki_der.specs.declared.mode.Mode.TheVariants.{Der};
ghost use Rattle.rpki_der.specs.Takes.{BeginsAs, Decodes};
ghost use Rattle.rpki_base.specs.declared.algorithm.SigningAlgorithm.TheVariants.{RsaSha256};
ghost use Rattle.rpki_base.specs.RpkiSignatureAlgorithm.{spelled_x509};
ghost use Rattle.rpki_base.specs.SignedData.{CanSpellSigned, spelled_data};
ghost use Rattle.rpki_cert.specs.Cert.{certificate};
ghost use Rattle.rpki_idcert.specs.Making.{IsEndEntityMade, IsReadAgain};
ghost use Rattle.rpki_idcert.specs.Spelling.{spelled_tbs};
ghost use Rattle.rpki_signer.specs.Serials.{IsSerialDrawn};
ghost use Rattle.rpki_signer.specs.Signer.{AreDistinct, IsKeyOf, IsSignature};
ghost use Rattle.rpki_signer.specs.Toy.{ToyChecks};
ghost use Rattle.rpki_signer.specs.ToySigner.{state_of};
ghost use Rattle.rpki_upserver.specs.Issuer.{IsCertificateIssued, IsRevoked, IssuerFails};
ghost use Rattle.rpki_upserver.specs.ToyIssuer.{DrewNone, DrewSerial, GaveKey, GivesNoKey, IsSignedFor};
ghost use Rattle.rpki_upserver.specs.ToyIssuer.{IsToyCertificate, IsToyIssue, IsToyRevocation, MakesNone, SignedFields, SignsNone};
ghost use Rattle.rpki_upserver.specs.ToyIssuer.{after_fault, issuer_state, made_of, toy_issuer, with_gone, with_made};
ghost use Rattle.rpki_upserver.specs.declared.issuer.IssuerError.TheVariants as errors;

use crate::issuer::{Issuer, IssuerError};
use rpki_base::{KeyIdentifier, PublicKey, RpkiSignatureAlgorithm, Serial, Time, Validity};
use rpki_cert::{Cert, RpkiCaCsr};
use rpki_common::OutOfMemory;
use rpki_der::DecodeError;
use rpki_idcert::{IdCert, TbsIdCert, UnsignedIdCert};
use rpki_sets::ResourceSet;
use rpki_signer::{CallError, KeyError, Signer, SigningError, ToyScheme, ToySigner};
use rpki_updown::{KeyElement, ResourceClassName};
use std::alloc::Global;
use std::marker::Model;

/// A certificate that was issued.
pub struct ToyMade {
    /// In which class.
    pub class_name: ResourceClassName,
    /// For the key with which identifier.
    pub key: KeyIdentifier,
    /// For which resources.
    pub resource_set: ResourceSet,
    /// Until when.
    pub not_after: Time,
    /// The certificate.
    pub cert: Cert,
}

impl Drop for ToyMade {
    fn drop(self) {
        let ToyMade {
            class_name,
            key,
            resource_set,
            not_after,
            cert,
        } = self;
    }
}

/// An issuer whose certificates are signed by a toy signer, without security. They are end entity certificates of the BPKI, which have the
/// outer form of resource certificates, and say nothing of resources.
///
/// In a clause it is the record of its signer, the identifier of its key, from when its certificates are valid, and what it issued and
/// revoked and how often it failed, a count that stops at 2^64 - 1.
pub struct ToyIssuer {
    alloc: Global,
    signer: ToySigner,
    key: u64,
    from: Time,
    made: Vec<ToyMade>,
    gone: Vec<KeyElement>,
    faults: u64,
}

impl Drop for ToyIssuer {
    fn drop(self) {
        let ToyIssuer {
            alloc,
            signer,
            key,
            from,
            made,
            gone,
            faults,
        } = self;
    }
}

impl Model for ToyIssuer {
    ghost use Rattle.std.specs.Prelude.{map};
    ghost use Rattle.rpki_upserver.specs.ToyIssuer.{ToyIssuerState, made_of};

    ghost Value = { ToyIssuerState };

    ghost view = { λ i. record {
      signer = i.signer;
      key = i.key;
      from = i.from;
      issuer = record {
        made = map made_of i.made.items;
        gone = i.gone.items;
        faults = i.faults;
      };
    } };
}

impl ToyIssuer {
    /// An issuer that signs with the signer's key of this number, and whose certificates are valid from this moment. It has issued and
    /// revoked nothing. It takes no memory; later growth takes it from `alloc`.
    pub(crate) fn new(alloc: Global, signer: ToySigner, key: u64, from: Time) -> ToyIssuer
        ensures { result ≡ toy_issuer signer key from }
    {
        ToyIssuer {
            alloc,
            signer,
            key,
            from,
            made: Vec::new(alloc),
            gone: Vec::new(alloc),
            faults: 0,
        }
    }

    /// What it issued, in order.
    pub fn made(&self) -> &[ToyMade]
        ensures { map made_of result.now ≡ self.now.issuer.made }
    {
        &self.made
    }

    /// The keys whose certificates it revoked, each with its class, in order.
    pub fn gone(&self) -> &[KeyElement]
        ensures { result.now ≡ self.now.issuer.gone }
    {
        &self.gone
    }

    /// How often it failed.
    pub fn faults(&self) -> u64
        ensures { result ≡ self.now.issuer.faults }
    {
        self.faults
    }

    // Counts a fault.
    fn fail(&mut self) -> IssuerError
        ensures answer { result ≡ errors.Failed }
        ensures counted { self.new ≡ after_fault self.old }
        ensures later { self.old.issuer.faults ≤ self.new.issuer.faults }
    {
        self.faults = self.faults.saturating_add(1);
        IssuerError::Failed
    }

    // Adds what was issued.
    fn add_made(&mut self, made: ToyMade) -> Result<(), OutOfMemory>
        ensures ok { OnOk result (self.new ≡ record self.old {
          issuer = with_made (made_of made) self.old.issuer;
        }) }
        ensures err { OnErr result (self.new ≡ self.old) }
    {
        self.made.push(made)?;
        Ok(())
    }

    // Adds what was revoked.
    fn add_gone(&mut self, gone: KeyElement) -> Result<(), OutOfMemory>
        ensures ok { OnOk result (self.new ≡ record self.old {
          issuer = with_gone gone self.old.issuer;
        }) }
        ensures err { OnErr result (self.new ≡ self.old) }
    {
        self.gone.push(gone)?;
        Ok(())
    }
}

// The calls of the signer, by what they answer exactly.
impl ToyIssuer {
    // A serial number that the signer draws. It takes no memory.
    fn draw(&mut self) -> Result<Serial, IssuerError>
        ensures ok { IfOk result (DrewSerial self.old self.new) }
        ensures err { IfErr result (λ e. (e ≡ errors.Failed) × DrewNone self.old self.new) }
        ensures later { OnErr result (self.old.issuer.faults ≤ self.new.issuer.faults) }
        ensures drawn { IfOk result (IsSerialDrawn (state_of self.old.signer)
            (state_of self.new.signer)) }
    {
        let mut octets = [0u8; 20];
        match Signer::<ToyScheme>::rand(&mut self.signer, &mut octets) {
            Ok(()) => {
                octets[0] &= 0x7F;
                Ok(Serial::from(octets))
            }
            Err(CallError::Signer(_)) => Err(self.fail()),
            Err(CallError::OutOfMemory) => unreachable!(),
        }
    }

    // The signer's key.
    fn ask(&mut self, alloc: Global) -> Result<PublicKey, IssuerError>
        ensures ok { IfOk result (GaveKey self.old self.new) }
        ensures err { IfErr result (GivesNoKey self.old self.new) }
        ensures later { OnErr result (self.old.issuer.faults ≤ self.new.issuer.faults) }
        ensures given { IfOk result (IsKeyOf self.old.key (state_of self.old.signer)
            (state_of self.new.signer)) }
        ensures distinct { OnOk result (AreDistinct (state_of self.new.signer).keyring) }
    {
        match Signer::<ToyScheme>::get_key_info(&mut self.signer, alloc, &self.key) {
            Ok(key) => Ok(key),
            Err(KeyError::OutOfMemory) => Err(IssuerError::OutOfMemory),
            Err(KeyError::KeyNotFound) => Err(self.fail()),
            Err(KeyError::Signer(_)) => Err(self.fail()),
        }
    }

    // The certificate with these fields, signed under the signer's key.
    fn sign(&mut self, alloc: Global, fields: UnsignedIdCert) -> Result<IdCert, IssuerError>
        ensures ok { IfOk result (SignedFields fields self.old self.new) }
        ensures err { IfErr result (SignsNone self.old self.new) }
        ensures later { OnErr result (self.old.issuer.faults ≤ self.new.issuer.faults) }
        ensures signed { IfOk result (λ made. IsSignature ToyChecks RsaSha256 self.old.key
            (spelled_tbs fields) (state_of self.old.signer) (state_of self.new.signer)
            made.signed.signature.value) }
    {
        let algorithm = RpkiSignatureAlgorithm::default();
        let octets = fields.as_slice();
        match Signer::<ToyScheme>::sign(&mut self.signer, alloc, &self.key, algorithm, octets) {
            Ok(signature) => Ok(fields.with_signature(signature)),
            Err(SigningError::OutOfMemory) => Err(IssuerError::OutOfMemory),
            Err(SigningError::KeyNotFound) => Err(self.fail()),
            Err(SigningError::IncompatibleKey) => Err(self.fail()),
            Err(SigningError::Signer(_)) => Err(self.fail()),
        }
    }
}

// What is made by these calls.
impl ToyIssuer {
    // The certificate of a key until this time, by the calls with which `IdCert::new_ee` makes it.
    fn signed_for(
        &mut self,
        alloc: Global,
        key: &PublicKey,
        not_after: Time,
    ) -> Result<IdCert, IssuerError>
        ensures ok { IfOk result (IsSignedFor key.now not_after self.old self.new) }
        ensures err { IfErr result (MakesNone self.old self.new) }
        ensures later { OnErr result (self.old.issuer.faults ≤ self.new.issuer.faults) }
        ensures made { IfOk result (IsEndEntityMade ToyChecks key.now self.old.key
            (record { not_before = self.old.from; not_after = not_after })
            (state_of self.old.signer) (state_of self.new.signer)) }
        ensures again { IfOk result (IsReadAgain Der) }
    {
        // For the proof: both ends of the validity are in the years 0 to 9999, by their type.
        let _from = self.from.seconds();
        let _until = not_after.seconds();
        let validity = Validity::new(self.from, not_after);
        let serial = self.draw()?;
        let issuing = self.ask(alloc)?;
        let fields = TbsIdCert::new(alloc, serial, validity, key, &issuing)?;
        let unsigned = UnsignedIdCert::new(alloc, fields)?;
        self.sign(alloc, unsigned)
    }

    // The signed certificate for the key of a request, until this time.
    fn certificate(
        &mut self,
        alloc: Global,
        csr: &RpkiCaCsr,
        not_after: Time,
    ) -> Result<Cert, IssuerError>
        ensures ok { IfOk result (IsToyCertificate csr.now not_after self.old self.new) }
        ensures err { IfErr result (MakesNone self.old self.new) }
        ensures later { OnErr result (self.old.issuer.faults ≤ self.new.issuer.faults) }
    {
        let made = self.signed_for(alloc, csr.public_key(), not_after)?;
        Ok(made_certificate(alloc, &made)?)
    }
}

// The entry of a certificate.
fn entry(
    alloc: Global,
    class_name: &ResourceClassName,
    csr: &RpkiCaCsr,
    set: &ResourceSet,
    not_after: Time,
    cert: &Cert,
) -> Result<ToyMade, OutOfMemory>
    ensures { IfOk result (λ made. made_of made ≡ record {
      class_name = class_name.now;
      key = sha1 csr.now.tbs.key.bits;
      resource_set = set.now;
      not_after = not_after;
      slice = cert.now.slice;
    }) }
{
    Ok(ToyMade {
        class_name: class_name.clone(alloc)?,
        key: csr.public_key().key_identifier(),
        resource_set: set.clone(alloc)?,
        not_after,
        cert: cert.clone(alloc)?,
    })
}

/// The resource certificate that the octets of an identity certificate are read as, of which it has the outer form (RFC 5280, 4.1;
/// RFC 6487, 4). Malformed exactly where they are none.
pub(crate) fn resource_certificate(alloc: Global, cert: &IdCert) -> Result<Cert, DecodeError>
    ensures decoded { Decodes (certificate Der) (λ c. c) Der
        (spelled_data spelled_x509 cert.now.signed) result }
    ensures spelled { OnOk result (CanSpellSigned spelled_x509 cert.now.signed) }

    // Of a certificate whose octets are read again memory alone may be wanting.
    ensures again { IsReadAgain Der cert.now → ¬ (IsErrOf result DecodeError.Malformed) }
{
    let octets = cert.to_bytes(alloc)?;
    Cert::decode(alloc, octets.as_slice())
}

/// What [`resource_certificate`] gives of a certificate that was made, whose octets are read again.
pub(crate) fn made_certificate(alloc: Global, cert: &IdCert) -> Result<Cert, OutOfMemory>
    requires { IsReadAgain Der cert.now }
    ensures decoded { IfOk result (BeginsAs (certificate Der) Der
        (spelled_data spelled_x509 cert.now.signed)) }
    ensures key { IfOk result (λ c. c.key ≡ cert.now.tbs.key) }
{
    match resource_certificate(alloc, cert) {
        Ok(cert) => Ok(cert),
        Err(DecodeError::OutOfMemory) => Err(OutOfMemory),
        Err(DecodeError::Malformed) => unreachable!(),
    }
}

impl Issuer for ToyIssuer {
    ghost use Rattle.rpki_upserver.specs.ToyIssuer.{issuer_state};

    ghost state = { issuer_state };

    fn issue(
        &mut self,
        alloc: Global,
        class_name: &ResourceClassName,
        csr: &RpkiCaCsr,
        set: &ResourceSet,
        not_after: Time,
    ) -> Result<Cert, IssuerError>
        // What each issuer promises.
        ensures issued { MatchResult result
            (IsCertificateIssued class_name.now csr.now set.now not_after (issuer_state self.old)
            (issuer_state self.new))
            (IssuerFails (issuer_state self.old) (issuer_state self.new)) }

        // Which answer, and what the issuer is then.
        ensures exact { IsToyIssue class_name.now csr.now set.now not_after self.old self.new
            result }
    {
        let cert = self.certificate(alloc, csr, not_after)?;
        let made = entry(alloc, class_name, csr, set, not_after, &cert)?;
        self.add_made(made)?;
        Ok(cert)
    }

    fn revoke(
        &mut self,
        class_name: &ResourceClassName,
        key: KeyIdentifier,
    ) -> Result<(), IssuerError>
        // What each issuer promises.
        ensures revoked { MatchResult result
            (λ _. IsRevoked class_name.now key (issuer_state self.old) (issuer_state self.new))
            (IssuerFails (issuer_state self.old) (issuer_state self.new)) }

        // Which answer, and what the issuer is then.
        ensures exact { IsToyRevocation class_name.now key self.old self.new result }
    {
        let alloc = self.alloc;
        self.ask(alloc)?;
        let gone = KeyElement::new(class_name.clone(alloc)?, key);
        self.add_gone(gone)?;
        Ok(())
    }
}
