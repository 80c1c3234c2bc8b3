//! The signature algorithm of BGPsec.

ghost use Rattle.std.specs.Prelude.{◌≡◌};
ghost use Rattle.rpki_base.specs.BgpsecSignatureAlgorithm.{router_meaning};

use crate::algorithm::SigningAlgorithm;
use crate::algorithm_identifier::take_identifier;
use crate::object_identifiers::{ECDSA_ALGORITHM, ECDSA_WITH_SHA256};
use crate::signature::SignatureAlgorithm;
use rpki_common::OutOfMemory;
use rpki_der::{Mode, Writer};
use std::marker::Model;

/// ECDSA on the curve prime256v1 over SHA-256 (RFC 8208, 2).
///
/// In a clause it is the one value of the unit type.
#[derive(Clone, Copy, Debug, PartialEq, Eq)]
pub struct BgpsecSignatureAlgorithm;

impl Model for BgpsecSignatureAlgorithm {
    ghost Value = { Unit {0} };

    ghost view = { λ _. tt };

    ghost inverse = { λ _. record {} };
}

// What the object identifier and NULL mean.
fn router_meaning(name: &[u8], null: bool) -> Option<BgpsecSignatureAlgorithm>
    ensures { result ≡ router_meaning (name.now, null) }
{
    if null {
        None
    } else if name == ECDSA_WITH_SHA256.as_slice() {
        Some(BgpsecSignatureAlgorithm)
    } else {
        None
    }
}

impl SignatureAlgorithm for BgpsecSignatureAlgorithm {
    ghost use Rattle.std.specs.Prelude.{⊤, refl};
    ghost use Rattle.rpki_der.specs.Whole.{whole_of};
    ghost use Rattle.rpki_base.specs.declared.algorithm.SigningAlgorithm.TheVariants.{EcdsaP256Sha256};
    ghost use Rattle.rpki_base.specs.BgpsecSignatureAlgorithm.{router_algorithm, spelled_router};
    ghost use Rattle.rpki_base.specs.AlgorithmLaws.{router_again, router_value};

    ghost kind = { λ _. EcdsaP256Sha256 };

    ghost reads = { whole_of router_algorithm };

    ghost is_named = { λ _. ⊤ };

    ghost spelled = { λ _. spelled_router };

    ghost named = { λ mode octets a e. tt };

    ghost again = { λ mode a n. router_again mode a };

    ghost one_value = { λ mode a rest. router_value mode rest };

    ghost same = { λ a b e. refl };

    ghost equal = { λ a. refl };

    fn signing_algorithm(&self) -> SigningAlgorithm {
        SigningAlgorithm::EcdsaP256Sha256
    }

    fn x509_take_from(mode: Mode, octets: &[u8]) -> Option<BgpsecSignatureAlgorithm> {
        let (name, null) = take_identifier(mode, octets)?;
        router_meaning(name, null)
    }

    fn x509_encode(&self, out: &mut Writer) -> Result<(), OutOfMemory> {
        out.raw(&ECDSA_ALGORITHM)
    }
}
