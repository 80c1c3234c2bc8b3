//! Signed data.

ghost use Rattle.std.specs.Prelude.{◌≡◌, ◌≢◌, ◌↔◌, ◌<◌, ◌++◌, [], ℕ, List, Some, true, IsOk, IfOk, OnOk, OnErr};
ghost use Rattle.rpki_der.specs.declared.mode.Mode.{Mode};
ghost use Rattle.rpki_der.specs.Value.{Value, Begins};
ghost use Rattle.rpki_der.specs.Takes.{Takes};
ghost use Rattle.rpki_der.specs.Ticks.{TakesCounted, TakesRestCounted};
ghost use Rattle.rpki_der.specs.Whole.{HoldsOne};
ghost use Rattle.rpki_base.specs.Signature.{SignatureParts};
ghost use Rattle.rpki_base.specs.SignedData.{SignedParts, algorithm_in, signature_in, signed_data, spelled_data, CanSpellSigned};

use crate::bits::{write_bits, write_constructed};
use crate::errors::SignatureVerificationError;
use crate::public_key::PublicKey;
use crate::scheme::{Scheme, Verifier};
use crate::signature::{Signature, SignatureAlgorithm};
use bytes::Bytes;
use rpki_common::OutOfMemory;
use rpki_der::{Cursor, DecodeError, Mode, Steps, Tag, Writer, take_bits_counted};
use std::alloc::Global;
use std::marker::{Brand, Model};
use std::sync::ledger::{Blank, Ledger};

/// A signed value, as the exact octets that are signed, and its signature (RFC 5280, 4.1.1 and 5.1.1).
///
/// In a clause it is these two.
#[derive(PartialEq)]
pub struct SignedData<Alg: SignatureAlgorithm> {
    slice: Bytes,
    signature: Signature<Alg>,
}

impl<Alg: SignatureAlgorithm> Drop for SignedData<Alg> {
    fn drop(self) {
        let SignedData { slice, signature } = self;
    }
}

impl<Alg: SignatureAlgorithm> Model for SignedData<Alg> {
    ghost use Rattle.rpki_base.specs.SignedData.{SignedParts};

    ghost Value = { SignedParts Alg };

    ghost view = { λ d. record { slice = d.slice; signature = d.signature } };

    ghost inverse = { λ d. record { slice = d.slice; signature = d.signature } };
}

/// # Data access
impl<Alg: SignatureAlgorithm> SignedData<Alg> {
    /// The octets of a value, its header among them, and a signature. It takes no memory, and looks at neither.
    pub fn new(slice: Bytes, signature: Signature<Alg>) -> SignedData<Alg>
        ensures { result ≡ record { slice = slice; signature = signature } }
    {
        SignedData { slice, signature }
    }

    /// The exact octets of the signed value, its header among them.
    pub fn slice(&self) -> &Bytes
        ensures { result.now ≡ self.now.slice }
    {
        &self.slice
    }

    /// The signature.
    pub fn signature(&self) -> &Signature<Alg>
        ensures { result.now ≡ self.now.signature }
    {
        &self.signature
    }
}

impl<Alg: SignatureAlgorithm> SignedData<Alg> {
    /// Equal signed data that share their octets with these.
    pub fn clone(&self, alloc: Global) -> Result<SignedData<Alg>, OutOfMemory>
        ensures { IfOk result (λ d. d ≡ self.now) }
    {
        let slice = self.slice.clone()?;
        let signature = self.signature.clone(alloc)?;
        Ok(SignedData { slice, signature })
    }
}

/// # Decoding
impl<Alg: SignatureAlgorithm> SignedData<Alg> {
    /// The signed data that the octets hold, as `take_from` reads them, with nothing behind them; Malformed exactly where they hold none.
    pub fn take(alloc: Global, mode: Mode, octets: &[u8]) -> Result<SignedData<Alg>, DecodeError>
        ensures { HoldsOne (signed_data Alg.reads mode) (λ d. d) mode octets.now result }
    {
        let mut cursor = Cursor::new(alloc, mode, octets);
        let signed = SignedData::<Alg>::take_from(alloc, &mut cursor)?;
        if !cursor.end() {
            return Err(DecodeError::Malformed);
        }
        Ok(signed)
    }

    /// The signed data that stand next (RFC 5280, 4.1.1): a SEQUENCE of a value of any kind, an algorithm identifier as `x509_take_from`
    /// reads it, and a BIT STRING, whose count of unused bits is dropped. Whether the signature holds isn't looked at.
    pub fn take_from(alloc: Global, cursor: &mut Cursor<'_>) -> Result<SignedData<Alg>, DecodeError>
        ensures { Takes (signed_data Alg.reads cursor.old.mode) (λ d. d)
            cursor.old cursor.new result }
    {
        take_from_within::<Alg, Brand>(alloc, cursor, Blank::new(1))
    }

    /// The signed data that stand next, as `take_from` reads them. It ticks once for each header and each end mark that it reads.
    pub fn take_from_counted<L: Ledger>(
        alloc: Global,
        cursor: &mut Cursor<'_>,
        steps: &mut Steps<L>,
    ) -> Result<SignedData<Alg>, DecodeError>
        ensures { TakesCounted 1 (signed_data Alg.reads cursor.old.mode) (λ d. d)
            cursor.old cursor.new steps.old steps.new result }
    {
        cursor.enter_counted(Tag::SEQUENCE, steps)?;
        let octets = cursor.capture_counted(steps)?;
        let slice = Bytes::copy_from_slice(alloc, octets)?;
        let signature = leave_signature::<Alg, L>(alloc, cursor, steps)?;
        Ok(SignedData { slice, signature })
    }
}

/// `==` holds exactly between signed data whose octets that were signed, algorithms and octets of the signature are the same.
pub fn equal_data_are_the_same<Alg: SignatureAlgorithm>()
    ensures same { (a b : SignedParts Alg) → ⟦<SignedData<Alg> as PartialEq>⟧.eq a b ≡ true
        → a ≡ b }
    ensures equal { (a b : SignedParts Alg) → a ≡ b
        → ⟦<SignedData<Alg> as PartialEq>⟧.eq a b ≡ true }
    ensures signature { (a b : SignatureParts Alg)
        → (⟦<Signature<Alg> as PartialEq>⟧.eq a b ≡ true) ↔ (a ≡ b) }
{}

/// # Encoding
impl<Alg: SignatureAlgorithm> SignedData<Alg> {
    /// Appends the signed data: the octets that were signed as they are, the algorithm, and the signature with no unused bits,
    /// in a SEQUENCE in DER. After a refusal nothing is appended; data that are longer than length octets can say are refused as
    /// want of memory.
    pub fn encode_ref(&self, out: &mut Writer) -> Result<(), OutOfMemory>
        ensures ok { OnOk result (out.new ≡ out.old ++ spelled_data Alg.spelled self.now) }
        ensures spelled { OnOk result (CanSpellSigned Alg.spelled self.now) }
        ensures err { OnErr result (out.new ≡ out.old) }
    {
        let mut inner = out.inner();
        inner.raw(self.slice.as_slice())?;
        self.signature.algorithm().x509_encode(&mut inner)?;
        write_bits(self.signature.value().as_slice(), &mut inner)?;
        write_constructed(Tag::SEQUENCE, &inner, out)
    }
}

/// What `encode_ref` writes is taken again as the same signed data, in each mode in which the signed octets are one value, where
/// the algorithm is a named one.
pub fn written_data_are_taken<Alg: SignatureAlgorithm>()
    ensures { (mode : Mode) (d : SignedParts Alg) (signed : Value) (rest : List ℕ) →
        CanSpellSigned Alg.spelled d → Begins mode d.slice signed [] →
        Alg.is_named d.signature.algorithm →
        (v : Value) × Begins mode (spelled_data Alg.spelled d ++ rest) v rest ×
        (signed_data Alg.reads mode v ≡ Some d) }
{}

/// # Validation
impl<Alg: SignatureAlgorithm> SignedData<Alg> {
    /// Refused exactly where the signature is none of the signed value under the key. It takes no memory.
    pub fn verify_signature<P: Scheme, V: Verifier<P>>(
        &self,
        verifier: &V,
        key: &PublicKey,
    ) -> Result<(), SignatureVerificationError>
        ensures { IsOk result ↔ P.checks (Alg.kind self.now.signature.algorithm) key.now
            self.now.slice self.now.signature.value }
    {
        let kind = self.signature.algorithm().signing_algorithm();
        if verifier.verify(
            kind,
            key,
            self.slice.as_slice(),
            self.signature.value().as_slice(),
        ) {
            Ok(())
        } else {
            Err(SignatureVerificationError)
        }
    }
}

fn take_from_within<Alg: SignatureAlgorithm, L: Ledger>(
    alloc: Global,
    cursor: &mut Cursor<'_>,
    blank: Blank,
) -> Result<SignedData<Alg>, DecodeError>
    requires name { blank.name ≡ L.name }
    requires parts { blank.parts ≡ L.parts }
    requires some { 0 < blank.parts }
    ensures { Takes (signed_data Alg.reads cursor.old.mode) (λ d. d) cursor.old cursor.new result }
{
    let mut steps = Steps::<L>::new(blank);
    SignedData::<Alg>::take_from_counted(alloc, cursor, &mut steps)
}

/// The signature of the signed value that stands in front: an algorithm identifier and a BIT STRING, behind which the SEQUENCE round
/// them ends; the cursor, which has to be inside of that, goes out of it. It ticks once for each header and each end mark that it
/// reads.
pub fn leave_signature<Alg: SignatureAlgorithm, L: Ledger>(
    alloc: Global,
    cursor: &mut Cursor<'_>,
    steps: &mut Steps<L>,
) -> Result<Signature<Alg>, DecodeError>
    requires { cursor.old.levels ≢ [] }
    ensures { TakesRestCounted 1 0 (signature_in Alg.reads cursor.old.mode) (λ s. s)
        cursor.old cursor.new steps.old steps.new result }
{
    let algorithm = take_algorithm::<Alg, L>(cursor, steps)?;
    let (_, bits) = take_bits_counted(cursor, steps)?;
    let value = Bytes::copy_from_slice(alloc, bits)?;
    cursor.leave_counted(steps)?;
    Ok(Signature::new(algorithm, value))
}

/// The algorithm identifier that stands next, as `x509_take_from` reads it. It ticks once for each header and each end mark in
/// it.
pub fn take_algorithm<Alg: SignatureAlgorithm, L: Ledger>(
    cursor: &mut Cursor<'_>,
    steps: &mut Steps<L>,
) -> Result<Alg, DecodeError>
    ensures { TakesCounted 1 (algorithm_in Alg.reads cursor.old.mode) (λ a. a)
        cursor.old cursor.new steps.old steps.new result }
{
    let mode = cursor.mode();
    let octets = cursor.capture_counted(steps)?;
    match Alg::x509_take_from(mode, octets) {
        Some(algorithm) => Ok(algorithm),
        None => Err(DecodeError::Malformed),
    }
}
