//! The signature algorithm of the RPKI.

ghost use Rattle.std.specs.Prelude.{◌≡◌, ◌++◌, ℕ, List, Some, true, OnOk, OnErr};
ghost use Rattle.rpki_der.specs.declared.mode.Mode.{Mode};
ghost use Rattle.rpki_der.specs.Value.{Value, Begins};
ghost use Rattle.rpki_der.specs.Whole.{whole_of};
ghost use Rattle.rpki_base.specs.declared.rpki_algorithm.RsaIdentifier.TheVariants as identifier_is;
ghost use Rattle.rpki_base.specs.RpkiSignatureAlgorithm.{RpkiAlgorithm, x509_meaning, cms_meaning, cms_algorithm, spelled_cms};

use crate::algorithm::SigningAlgorithm;
use crate::algorithm_identifier::take_identifier;
use crate::object_identifiers::{
    RSA_ALGORITHM, RSA_ALGORITHM_ALONE, RSA_ENCRYPTION, SHA256_RSA_ALGORITHM,
    SHA256_RSA_ALGORITHM_ALONE, SHA256_WITH_RSA,
};
use crate::signature::SignatureAlgorithm;
use rpki_common::OutOfMemory;
use rpki_der::{Mode, Writer};
use std::marker::Model;

/// The object identifier by which a signer's information names RSA signatures.
#[derive(Clone, Copy, Debug, PartialEq, Eq)]
pub enum RsaIdentifier {
    /// rsaEncryption, 1.2.840.113549.1.1.1.
    RsaEncryption,
    /// sha256WithRSAEncryption, 1.2.840.113549.1.1.11.
    Sha256WithRsaEncryption,
}

/// RSA over SHA-256 (RFC 7935, 2). It keeps how it was spelled: by which object identifier a signer's information named it,
/// and whether NULL stood behind.
///
/// In a clause it is these two.
#[derive(Clone, Copy, Debug, PartialEq, Eq)]
pub struct RpkiSignatureAlgorithm {
    identifier: RsaIdentifier,
    null: bool,
}

impl Model for RpkiSignatureAlgorithm {
    ghost use Rattle.rpki_base.specs.RpkiSignatureAlgorithm.{RpkiAlgorithm};

    ghost Value = { RpkiAlgorithm };

    ghost view = { λ a. record { identifier = a.identifier; null = a.null } };

    ghost inverse = { λ a. record { identifier = a.identifier; null = a.null } };
}

// What the object identifier and NULL mean in a certificate.
fn x509_meaning(name: &[u8], null: bool) -> Option<RpkiSignatureAlgorithm>
    ensures { result ≡ x509_meaning (name.now, null) }
{
    if name == SHA256_WITH_RSA.as_slice() {
        Some(RpkiSignatureAlgorithm {
            identifier: RsaIdentifier::RsaEncryption,
            null,
        })
    } else {
        None
    }
}

// What they mean in a signer's information.
fn cms_meaning(name: &[u8], null: bool) -> Option<RpkiSignatureAlgorithm>
    ensures { result ≡ cms_meaning (name.now, null) }
{
    let identifier = if name == RSA_ENCRYPTION.as_slice() {
        RsaIdentifier::RsaEncryption
    } else if name == SHA256_WITH_RSA.as_slice() {
        RsaIdentifier::Sha256WithRsaEncryption
    } else {
        return None;
    };
    Some(RpkiSignatureAlgorithm { identifier, null })
}

impl RpkiSignatureAlgorithm {
    /// The algorithm with rsaEncryption and NULL.
    pub fn default() -> RpkiSignatureAlgorithm
        ensures { result ≡ record { identifier = identifier_is.RsaEncryption; null = true } }
    {
        RpkiSignatureAlgorithm {
            identifier: RsaIdentifier::RsaEncryption,
            null: true,
        }
    }

    /// The algorithm that the octets are the identifier of in a signer's information, with nothing behind it: rsaEncryption or
    /// sha256WithRSAEncryption, with NULL or without parameters; None exactly where they are none. It takes no memory.
    pub fn cms_take_from(mode: Mode, octets: &[u8]) -> Option<RpkiSignatureAlgorithm>
        ensures { result ≡ whole_of cms_algorithm mode octets.now }
    {
        let (name, null) = take_identifier(mode, octets)?;
        cms_meaning(name, null)
    }

    /// Appends the algorithm identifier of a signer's information in DER: the object identifier that is kept, and NULL where it
    /// is kept. After a refusal nothing is appended.
    pub fn cms_encode(&self, out: &mut Writer) -> Result<(), OutOfMemory>
        ensures ok { OnOk result (out.new ≡ out.old ++ spelled_cms self.now) }
        ensures err { OnErr result (out.new ≡ out.old) }
    {
        match (self.identifier, self.null) {
            (RsaIdentifier::RsaEncryption, true) => out.raw(&RSA_ALGORITHM),
            (RsaIdentifier::RsaEncryption, false) => out.raw(&RSA_ALGORITHM_ALONE),
            (RsaIdentifier::Sha256WithRsaEncryption, true) => out.raw(&SHA256_RSA_ALGORITHM),
            (RsaIdentifier::Sha256WithRsaEncryption, false) => {
                out.raw(&SHA256_RSA_ALGORITHM_ALONE)
            }
        }
    }
}

/// What `cms_encode` writes is taken again as the same algorithm, in both modes, and is one value.
pub fn written_algorithm_is_taken()
    ensures again { (mode : Mode) (a : RpkiAlgorithm)
        → whole_of cms_algorithm mode (spelled_cms a) ≡ Some a }
    ensures one_value { (mode : Mode) (a : RpkiAlgorithm) (rest : List ℕ)
        → (v : Value) × Begins mode (spelled_cms a ++ rest) v rest }
{}

impl SignatureAlgorithm for RpkiSignatureAlgorithm {
    ghost use Rattle.std.specs.Prelude.{◌≡◌};
    ghost use Rattle.std.proofs.Common.{rules};
    ghost use Rattle.rpki_der.specs.Whole.{whole_of};
    ghost use Rattle.rpki_base.specs.declared.algorithm.SigningAlgorithm.TheVariants.{RsaSha256};
    ghost use Rattle.rpki_base.specs.declared.rpki_algorithm.RsaIdentifier.TheVariants.{RsaEncryption};
    ghost use Rattle.rpki_base.specs.RpkiSignatureAlgorithm.{x509_algorithm, spelled_x509};
    ghost use Rattle.rpki_base.specs.AlgorithmLaws.{x509_named, x509_again, x509_value};

    ghost kind = { λ _. RsaSha256 };

    ghost reads = { whole_of x509_algorithm };

    ghost is_named = { λ a. a.identifier ≡ RsaEncryption };

    ghost spelled = { spelled_x509 };

    ghost named = { x509_named };

    ghost again = { x509_again };

    ghost one_value = { x509_value };

    ghost same = { Prim.search rules };

    ghost equal = { Prim.search rules };

    fn signing_algorithm(&self) -> SigningAlgorithm {
        SigningAlgorithm::RsaSha256
    }

    fn x509_take_from(mode: Mode, octets: &[u8]) -> Option<RpkiSignatureAlgorithm> {
        let (name, null) = take_identifier(mode, octets)?;
        x509_meaning(name, null)
    }

    fn x509_encode(&self, out: &mut Writer) -> Result<(), OutOfMemory> {
        if self.null {
            out.raw(&SHA256_RSA_ALGORITHM)
        } else {
            out.raw(&SHA256_RSA_ALGORITHM_ALONE)
        }
    }
}
