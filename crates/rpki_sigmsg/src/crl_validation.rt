//! Whether the CRLs of a signed message may be believed.

ghost use Rattle.std.specs.Prelude.{◌≡◌, ◌↔◌, ◌∷◌, [], Bool, Decides, Ok, OnOk, int_le};
ghost use Rattle.std.specs.List.{list_all};
ghost use Rattle.rpki_base.specs.PublicKey.{names_issuer};
ghost use Rattle.rpki_base.specs.Checks.{first_failure, failing, IsSigned};
ghost use Rattle.rpki_sigmsg.specs.CrlChecks as spec;

use crate::crl::SignedMessageCrl;
use rpki_base::{
    PublicKey, RpkiSignatureAlgorithm, Scheme, Time, ValidationError, ValidationKind, Verifier,
    names_issuer, require,
};
use std::array;

// Whether both have the same object identifier, and NULL is there in both or in neither.
fn same_algorithm(a: RpkiSignatureAlgorithm, b: RpkiSignatureAlgorithm) -> bool
    ensures { result ≡ spec.same_algorithm a b }
{
    a == b
}

/// # Validation
impl SignedMessageCrl {
    // Whether both places name the same algorithm.
    fn names_one_algorithm(&self) -> bool
        ensures { result ≡ spec.same_algorithm self.now.tbs.algorithm
            self.now.signed.signature.algorithm }
    {
        same_algorithm(
            self.tbs().algorithm(),
            self.signed_data().signature().algorithm(),
        )
    }

    // Whether the signature holds under a key.
    fn is_signed<P: Scheme, V: Verifier<P>>(&self, verifier: &V, key: &PublicKey) -> bool
        ensures { Decides result (IsSigned P.checks self.now key.now) }
    {
        self.signed_data().verify_signature(verifier, key).is_ok()
    }

    /// Whether the key issued the CRL and it holds at the moment; if not, the first of these checks that fails, all of them
    /// verifications: (9) the algorithm inside what is signed is that of the signature, NULL included, (10) the signature
    /// holds under the issuer's key, (11) thisUpdate isn't after the moment, (12) nextUpdate isn't before it, (13) the
    /// authority key identifier, if it is there, is that of the issuer's key. The numbers are those of a whole message's
    /// checks. It takes no memory.
    pub fn validate<P: Scheme, V: Verifier<P>>(
        &self,
        verifier: &V,
        issuer_key: &PublicKey,
        when: Time,
    ) -> Result<(), ValidationError>
        // Ok exactly where the signature and all the other checks hold.
        ensures believed { (result ≡ Ok tt) ↔
            spec.IsListBelieved P.checks self.now issuer_key.now when }

        // The first check that fails decides, whatever the scheme answers.
        ensures first_failing { (q : Bool) → Decides q (IsSigned P.checks self.now issuer_key.now) →
            result ≡ failing spec.crl_kind
            (first_failure 9 (spec.crl_checks (self.now ∷ []) issuer_key.now when q)) }
    {
        match crls_failure(array::from_ref(self), verifier, issuer_key, when) {
            Ok(()) => Ok(()),
            Err(check) => Err(ValidationError {
                kind: ValidationKind::Verification,
                check,
            }),
        }
    }
}

// Whether the signature of each CRL holds under the key.
fn are_signed<P: Scheme, V: Verifier<P>>(
    crls: &[SignedMessageCrl],
    verifier: &V,
    key: &PublicKey,
) -> bool
    ensures { Decides result (spec.AreCrlsSigned P.checks crls.now key.now) }
{
    for crl in crls {
        if !crl.is_signed(verifier, key) {
            return false;
        }
    }
    true
}

// Whether each CRL names the same algorithm in both places.
fn name_one_algorithm(crls: &[SignedMessageCrl]) -> bool
    ensures { result ≡ list_all
        (λ c. spec.same_algorithm c.tbs.algorithm c.signed.signature.algorithm) crls.now }
{
    crls.iter().all(|crl| crl.names_one_algorithm())
}

// Whether no thisUpdate is after the moment.
fn have_begun(crls: &[SignedMessageCrl], when: Time) -> bool
    ensures { result ≡ list_all (λ c. int_le c.tbs.this_update when) crls.now }
{
    crls.iter().all(|crl| crl.tbs().this_update() <= when)
}

// Whether no nextUpdate is before the moment.
fn have_not_ended(crls: &[SignedMessageCrl], when: Time) -> bool
    ensures { result ≡ list_all (λ c. int_le when c.tbs.next_update) crls.now }
{
    crls.iter().all(|crl| when <= crl.tbs().next_update())
}

// Whether each authority key identifier that is there is that of the key.
fn name_issuer(crls: &[SignedMessageCrl], key: &PublicKey) -> bool
    ensures { result ≡ list_all (λ c. names_issuer c.tbs.authority_key_id key.now) crls.now }
{
    crls.iter()
        .all(|crl| names_issuer(crl.tbs().authority_key_id(), key))
}

/// The number, from 9, of the first of the five checks that doesn't hold of each of the CRLs. It takes no memory.
pub(crate) fn crls_failure<P: Scheme, V: Verifier<P>>(
    crls: &[SignedMessageCrl],
    verifier: &V,
    issuer_key: &PublicKey,
    when: Time,
) -> Result<(), u8>
    ensures first_failing { (q : Bool) →
        Decides q (spec.AreCrlsSigned P.checks crls.now issuer_key.now) →
        result ≡ first_failure 9 (spec.crl_checks crls.now issuer_key.now when q) }
    ensures signed { OnOk result (spec.AreCrlsSigned P.checks crls.now issuer_key.now) }
{
    require(9, name_one_algorithm(crls))?;
    require(10, are_signed(crls, verifier, issuer_key))?;
    require(11, have_begun(crls, when))?;
    require(12, have_not_ended(crls, when))?;
    require(13, name_issuer(crls, issuer_key))
}

/// The five checks, each of all CRLs, in their order, whether or not one before it fails. It takes no memory.
pub(crate) fn crls_checks<P: Scheme, V: Verifier<P>>(
    crls: &[SignedMessageCrl],
    verifier: &V,
    issuer_key: &PublicKey,
    when: Time,
) -> [bool; 5]
    ensures { spec.AreCrlChecks P.checks crls.now issuer_key.now when result }
{
    [
        name_one_algorithm(crls),
        are_signed(crls, verifier, issuer_key),
        have_begun(crls, when),
        have_not_ended(crls, when),
        name_issuer(crls, issuer_key),
    ]
}
