//! Signatures, and the algorithms that make them.

ghost use Rattle.std.specs.Prelude.{◌≡◌, ◌++◌, IfOk, OnOk, OnErr};

use crate::algorithm::SigningAlgorithm;
use bytes::Bytes;
use rpki_common::OutOfMemory;
use rpki_der::{Mode, Writer};
use std::alloc::Global;
use std::marker::Model;

/// A signature algorithm, as certificates, CRLs and requests name it (RFC 5280, 4.1.1.2).
pub trait SignatureAlgorithm: Copy + PartialEq {
    ghost use Rattle.std.specs.Prelude.{◌≡◌, ℕ, List, Option, Some, true};
    ghost use Rattle.rpki_base.specs.declared.algorithm.SigningAlgorithm.{SigningAlgorithm};
    ghost use Rattle.rpki_der.specs.declared.mode.Mode.{Mode};
    ghost use Rattle.rpki_der.specs.Value.{Value, Begins};

    /// The kind of the signatures that it makes.
    ghost kind: { Self → SigningAlgorithm };

    /// What octets are read as: the value that they mean, if they are one algorithm identifier of this type.
    ghost reads: { Mode → List ℕ → Option Self };

    /// The values for which the law `again` holds.
    ghost is_named: { Self → Type 0 };

    /// The octets that are written of a value.
    ghost spelled: { Self → List ℕ };

    /// The kind of the signatures that it makes.
    fn signing_algorithm(&self) -> SigningAlgorithm
        ensures { result ≡ kind self.now };

    /// The algorithm that the octets are the identifier of, with nothing behind it; None exactly where they are none. It
    /// takes no memory.
    fn x509_take_from(mode: Mode, octets: &[u8]) -> Option<Self>
        ensures { result ≡ reads mode octets.now };

    /// Appends the algorithm identifier in DER. After a refusal nothing is appended.
    fn x509_encode(&self, out: &mut Writer) -> Result<(), OutOfMemory>
        ensures ok { OnOk result (out.new ≡ out.old ++ spelled self.now) }
        ensures err { OnErr result (out.new ≡ out.old) };

    /// What is read is named.
    ghost named: { (mode : Mode) (octets : List ℕ) (a : Self) → reads mode octets ≡ Some a
        → is_named a };

    /// What is written of a named value is taken again as the same value, in both modes.
    ghost again: { (mode : Mode) (a : Self) → is_named a → reads mode (spelled a) ≡ Some a };

    /// What is written of a value is one value of X.690, whatever stands behind it.
    ghost one_value: { (mode : Mode) (a : Self) (rest : List ℕ)
        → (v : Value) × Begins mode (spelled a ++ rest) v rest };

    /// Equal values are the same.
    ghost same: { (a b : Self) → Self.eq a b ≡ true → a ≡ b };

    /// Each value equals itself.
    ghost equal: { (a : Self) → Self.eq a a ≡ true };
}

/// A signature: its octets, and the algorithm that made them.
///
/// In a clause it is these two.
#[derive(PartialEq)]
pub struct Signature<Alg: SignatureAlgorithm> {
    algorithm: Alg,
    value: Bytes,
}

impl<Alg: SignatureAlgorithm> Drop for Signature<Alg> {
    fn drop(self) {
        let Signature { algorithm, value } = self;
    }
}

impl<Alg: SignatureAlgorithm> Model for Signature<Alg> {
    ghost use Rattle.rpki_base.specs.Signature.{SignatureParts};

    ghost Value = { SignatureParts Alg };

    ghost view = { λ s. record { algorithm = s.algorithm; value = s.value } };

    ghost inverse = { λ s. record { algorithm = s.algorithm; value = s.value } };
}

impl<Alg: SignatureAlgorithm> Signature<Alg> {
    /// A signature of these octets. It takes no memory.
    pub fn new(algorithm: Alg, value: Bytes) -> Signature<Alg>
        ensures { result ≡ record { algorithm = algorithm; value = value } }
    {
        Signature { algorithm, value }
    }

    /// The algorithm that made it.
    pub fn algorithm(&self) -> Alg
        ensures { result ≡ self.now.algorithm }
    {
        self.algorithm
    }

    /// Its octets, without the count of unused bits that stands in front of them in a BIT STRING.
    pub fn value(&self) -> &Bytes
        ensures { result.now ≡ self.now.value }
    {
        &self.value
    }

    /// An equal signature that shares its octets with this one.
    pub fn clone(&self, _alloc: Global) -> Result<Signature<Alg>, OutOfMemory>
        ensures { IfOk result (λ s. s ≡ self.now) }
    {
        let value = self.value.clone()?;
        Ok(Signature {
            algorithm: self.algorithm,
            value,
        })
    }
}
