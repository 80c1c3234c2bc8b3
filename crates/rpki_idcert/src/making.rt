//! Making identity certificates.

ghost use Rattle.std.specs.Prelude.{◌≡◌, ◌<◌, ◌≤ℤ◌, ℤ, IfErr, IfOk, IsOk, MatchResult};
ghost use Rattle.rpki_der.specs.declared.mode.Mode.{Mode};
ghost use Rattle.rpki_base.specs.declared.algorithm.SigningAlgorithm.TheVariants.{RsaSha256};
ghost use Rattle.rpki_base.specs.Civil.{IsMoment};
ghost use Rattle.rpki_signer.specs.Limits.{Keeps, MakeFails, RefusesSignature, StopsInTurn};
ghost use Rattle.rpki_signer.specs.Signer.{AreDistinct, Stays};
ghost use Rattle.rpki_idcert.specs.Checks.{IsTaBelieved};
ghost use Rattle.rpki_idcert.specs.Making.{IsSignedAs, IsIssuedTo, IsAnchorMade, IsEndEntityMade, IsReadAgain, StopsAtEndEntity};
ghost use Rattle.rpki_idcert.specs.Spelling.{spelled_tbs};

use crate::id_cert::IdCert;
use crate::tbs::TbsIdCert;
use bytes::Bytes;
use rpki_base::{
    PublicKey, RpkiSignatureAlgorithm, Scheme, Serial, Signature, SignedData, Validity,
};
use rpki_der::{OutOfMemory, Writer};
use rpki_signer::{MakeError, Signer, key_within_limit, random_serial, sign_within_limit};
use std::alloc::Global;
use std::marker::Model;

/// A certificate that is to be signed: its fields, and the octets that the signature covers. In a clause it is the fields.
pub struct UnsignedIdCert {
    tbs: TbsIdCert,
    octets: Bytes,
}

impl Drop for UnsignedIdCert {
    fn drop(self) {
        let UnsignedIdCert { tbs, octets } = self;
    }
}

impl Model for UnsignedIdCert {
    ghost use Rattle.std.specs.Prelude.{◌≡◌};
    ghost use Rattle.rpki_idcert.specs.Spelling.{spelled_tbs};
    ghost use Rattle.rpki_idcert.specs.TbsIdCert.{TbsFields};

    ghost Value = { TbsFields };

    ghost view = { λ u. u.tbs };

    ghost invariant = { λ u. u.octets ≡ spelled_tbs u.tbs };
}

impl UnsignedIdCert {
    /// A certificate with these fields, which are spelled as [`TbsIdCert::encode_ref`] spells them; want of memory too where they are too
    /// long for length octets.
    pub fn new(alloc: Global, tbs: TbsIdCert) -> Result<UnsignedIdCert, OutOfMemory>
        ensures fields { IfOk result (λ u. u ≡ tbs) }
    {
        let mut out = Writer::new(alloc);
        tbs.encode_ref(&mut out)?;
        let octets = out.into_captured()?.into_bytes();
        Ok(UnsignedIdCert { tbs, octets })
    }

    /// The fields.
    pub fn tbs(&self) -> &TbsIdCert
        ensures { result.now ≡ self.now }
    {
        &self.tbs
    }

    /// The octets that are to be signed.
    pub fn as_slice(&self) -> &[u8]
        ensures { result.now ≡ spelled_tbs self.now }
    {
        self.octets.as_slice()
    }

    /// The certificate with this signature, which isn't looked at. It takes no memory.
    pub fn with_signature(self, signature: Signature<RpkiSignatureAlgorithm>) -> IdCert
        ensures { result ≡ record {
          signed = record { slice = spelled_tbs self; signature = signature };
          tbs = self;
        } }
    {
        let UnsignedIdCert { tbs, octets } = self;
        let signed = SignedData::new(octets, signature);
        IdCert::from_parts(signed, tbs)
    }
}

// For the proof: both ends of a validity are in the years 0 to 9999, by their type.
fn are_moments(validity: Validity)
    ensures { IsMoment validity.not_before × IsMoment validity.not_after }
{
    let _ = validity.not_before().seconds();
    let _ = validity.not_after().seconds();
}

// The certificate with these fields, signed.
fn issue<P: Scheme, S: Signer<P>>(
    alloc: Global,
    tbs: TbsIdCert,
    issuing_key_id: &S::KeyId,
    signer: &mut S,
) -> Result<IdCert, MakeError<S::Error>>
    ensures signed { MatchResult result
        (IsSignedAs P.checks tbs issuing_key_id.now
        (S.state signer.old) (S.state signer.new))
        (RefusesSignature P.checks issuing_key_id.now
        (S.state signer.old) (S.state signer.new)) }
    ensures distinct { IsOk result → AreDistinct (S.state signer.new).keyring }
{
    let unsigned = UnsignedIdCert::new(alloc, tbs)?;
    let signature = sign_within_limit(alloc, issuing_key_id, unsigned.as_slice(), signer)?;
    Ok(unsigned.with_signature(signature))
}

// The certificate with this serial number for the key.
fn issue_to<P: Scheme, S: Signer<P>>(
    alloc: Global,
    serial: Serial,
    key: &PublicKey,
    validity: Validity,
    issuing_key_id: &S::KeyId,
    signer: &mut S,
) -> Result<IdCert, MakeError<S::Error>>
    ensures issued { MatchResult result
        (IsIssuedTo P.checks key.now serial issuing_key_id.now validity
        (S.state signer.old) (S.state signer.new))
        (λ e. Stays (S.state signer.old) (S.state signer.new)
        × MakeFails RsaSha256 issuing_key_id.now (S.state signer.old) (S.state signer.new) e) }
    ensures first_refusal { IfErr result (StopsInTurn P.checks issuing_key_id.now
        (S.state signer.old) (S.state signer.new)) }
{
    let issuing_key = key_within_limit(alloc, issuing_key_id, signer)?;
    let tbs = TbsIdCert::new(alloc, serial, validity, key, &issuing_key)?;
    issue(alloc, tbs, issuing_key_id, signer)
}

/// # Making
impl IdCert {
    /// A trust anchor's certificate: that of the signer's RSA key `issuing_key_id`, signed under this key itself, with serial number 1,
    /// cA true and this validity.
    ///
    /// The signer gives the key and then signs; its first refusal decides. TooLong where the key or the signature has more than
    /// 2^16 octets.
    pub fn new_ta<P: Scheme, S: Signer<P>>(
        alloc: Global,
        validity: Validity,
        issuing_key_id: &S::KeyId,
        signer: &mut S,
    ) -> Result<IdCert, MakeError<S::Error>>
        ensures made { MatchResult result
            (IsAnchorMade P.checks issuing_key_id.now validity
            (S.state signer.old) (S.state signer.new))
            (λ e. Stays (S.state signer.old) (S.state signer.new)
            × MakeFails RsaSha256 issuing_key_id.now (S.state signer.old) (S.state signer.new) e) }

        // The signer gives the key and then signs, and its first refusal decides: where the signature is
        // refused, the key has at most 2^16 octets.
        ensures first_refusal { IfErr result (StopsInTurn P.checks issuing_key_id.now
            (S.state signer.old) (S.state signer.new)) }

        // The certificate is believed at each second of its validity.
        ensures believed { IfOk result (λ c. (when : ℤ) → validity.not_before ≤ℤ when
            → when ≤ℤ validity.not_after → IsTaBelieved P.checks c when) }

        // What is written of the certificate is read again, in both modes.
        ensures again { IfOk result (λ c. (mode : Mode) → IsReadAgain mode c) }
    {
        // For the proof: both ends of the validity are in the years 0 to 9999.
        are_moments(validity);
        let key = key_within_limit(alloc, issuing_key_id, signer)?;
        let tbs = TbsIdCert::new(alloc, Serial::from(1), validity, &key, &key)?;
        issue(alloc, tbs, issuing_key_id, signer)
    }

    /// A certificate of `ee_key`, signed under the signer's RSA key `issuing_key_id`, with a serial number that the signer draws and this
    /// validity. It is an end entity's unless `ee_key` is the issuing key, which isn't refused: then it is an authority's, as
    /// [`TbsIdCert::new`] says.
    ///
    /// The signer draws, gives the issuing key and then signs; its first refusal decides. TooLong where the issuing key or the
    /// signature has more than 2^16 octets; the length of `ee_key` isn't looked at.
    pub fn new_ee<P: Scheme, S: Signer<P>>(
        alloc: Global,
        ee_key: &PublicKey,
        validity: Validity,
        issuing_key_id: &S::KeyId,
        signer: &mut S,
    ) -> Result<IdCert, MakeError<S::Error>>
        ensures made { MatchResult result
            (IsEndEntityMade P.checks ee_key.now issuing_key_id.now validity
            (S.state signer.old) (S.state signer.new))
            (λ e. Keeps (S.state signer.old) (S.state signer.new)
            × ((S.state signer.new).drawn ≡ (S.state signer.old).drawn)
            × MakeFails RsaSha256 issuing_key_id.now (S.state signer.old) (S.state signer.new) e) }

        // The signer draws, gives the issuing key and then signs, and its first refusal decides.
        ensures first_refusal { IfErr result (StopsAtEndEntity P.checks issuing_key_id.now
            (S.state signer.old) (S.state signer.new)) }

        // What is written of the certificate is read again, in both modes.
        ensures again { IfOk result (λ c. (mode : Mode) → IsReadAgain mode c) }
    {
        // For the proof: both ends of the validity are in the years 0 to 9999.
        are_moments(validity);
        let serial = random_serial(signer)?;
        issue_to(alloc, serial, ee_key, validity, issuing_key_id, signer)
    }
}
