//! Whether an identity certificate may be believed.

ghost use Rattle.std.specs.Prelude.{◌≡◌, ◌↔◌, ◌≤◌, Bool, true, false, not, ◌||◌, Decides, Ok, IsOk, OnOk};
ghost use Rattle.rpki_base.specs.Checks.{first_failure, failing, IsSigned};
ghost use Rattle.rpki_base.specs.PublicKey.{names_issuer};
ghost use Rattle.rpki_idcert.specs.Checks as spec;

use crate::id_cert::IdCert;
use crate::tbs::TbsIdCert;
use rpki_base::{
    PublicKey, Scheme, SignatureVerificationError, Time, ValidationError, ValidationKind, Verifier,
    names_issuer, require,
};

fn ee_kind(check: u8) -> ValidationKind
    ensures { result ≡ spec.ee_kind check }
{
    match check {
        1 => ValidationKind::Inspection,
        _ => ValidationKind::Verification,
    }
}

fn ta_kind(check: u8) -> ValidationKind
    ensures { result ≡ spec.ta_kind check }
{
    if check <= 3 {
        ValidationKind::Inspection
    } else {
        ValidationKind::Verification
    }
}

impl TbsIdCert {
    fn has_own_identifier(&self) -> bool
        ensures { result ≡ spec.has_own_identifier self.now }
    {
        self.subject_key_identifier().as_slice() == self.public_key().key_identifier().as_slice()
    }

    fn is_within(&self, when: Time) -> bool
        ensures { result ≡ spec.is_within self.now.validity when }
    {
        let validity = self.validity();
        validity.not_before() <= when && when <= validity.not_after()
    }

    fn names_issuer(&self, issuer_key: &PublicKey) -> bool
        ensures { result ≡ names_issuer self.now.authority_key_id issuer_key.now }
    {
        names_issuer(self.authority_key_id(), issuer_key)
    }

    fn is_ca(&self) -> bool
        ensures { result ≡ spec.is_true self.now.basic_ca }
    {
        match self.basic_ca() {
            Some(ca) => ca,
            None => false,
        }
    }

    /// Whether the authority key identifier is there and is the subject's: the certificate names itself as its issuer. Then a trust
    /// anchor's certificate is asked for its own signature ([`IdCert::validate_ta_at`]). It takes no memory.
    pub fn names_itself(&self) -> bool
        ensures { result ≡ spec.names_itself self.now }
    {
        match self.authority_key_id() {
            Some(identifier) => identifier.as_slice() == self.subject_key_identifier().as_slice(),
            None => false,
        }
    }
}

/// # Validation
impl IdCert {
    // Whether the signature holds under a key.
    fn is_signed<P: Scheme, V: Verifier<P>>(&self, verifier: &V, key: &PublicKey) -> bool
        ensures { Decides result (IsSigned P.checks self.now key.now) }
    {
        self.verify_signature(verifier, key).is_ok()
    }

    /// Refused exactly where the signature, of the kind sha256WithRSAEncryption, is none of the octets that are signed under the
    /// issuer's key. The issuer's name and the moment aren't asked. It takes no memory.
    pub fn verify_signature<P: Scheme, V: Verifier<P>>(
        &self,
        verifier: &V,
        issuer_key: &PublicKey,
    ) -> Result<(), SignatureVerificationError>
        ensures { IsOk result ↔ IsSigned P.checks self.now issuer_key.now }
    {
        self.signed_data().verify_signature(verifier, issuer_key)
    }

    /// The five checks of `validate_ee_at` in their order, each of them whether or not one before it fails. It takes no memory.
    pub fn ee_checks_at<P: Scheme, V: Verifier<P>>(
        &self,
        verifier: &V,
        issuer_key: &PublicKey,
        when: Time,
    ) -> [bool; 5]
        ensures { spec.AreEeChecks P.checks self.now issuer_key.now when result }
    {
        [
            self.tbs().has_own_identifier(),
            self.tbs().is_within(when),
            self.tbs().names_issuer(issuer_key),
            !self.tbs().is_ca(),
            self.is_signed(verifier, issuer_key),
        ]
    }

    /// The five checks of `validate_ee_at` as a part of a longer list, in which the first of them has the number `first`, at most
    /// 200: Err with the number of the first of them that fails. It takes no memory.
    pub fn ee_failure<P: Scheme, V: Verifier<P>>(
        &self,
        verifier: &V,
        issuer_key: &PublicKey,
        when: Time,
        first: u8,
    ) -> Result<(), u8>
        requires { first ≤ 200 }
        ensures first_failing { (q : Bool) → Decides q (IsSigned P.checks self.now issuer_key.now) →
            result ≡ first_failure first (spec.ee_checks self.now issuer_key.now when q) }
        ensures signed { OnOk result (IsSigned P.checks self.now issuer_key.now) }
    {
        require(first, self.tbs().has_own_identifier())?;
        require(first + 1, self.tbs().is_within(when))?;
        require(first + 2, self.tbs().names_issuer(issuer_key))?;
        require(first + 3, !self.tbs().is_ca())?;
        require(first + 4, self.is_signed(verifier, issuer_key))
    }

    /// Whether this is an end entity's certificate that the key issued for the moment; if not, the first of these checks that
    /// fails: (1) the subject's key identifier is that of its key, (2) the moment lies in the validity, both ends in, (3) the
    /// authority key identifier, if it is there, is that of the issuer's key, (4) cA isn't true, (5) the signature holds under
    /// the issuer's key. The first is an inspection, the others are verifications. It takes no memory.
    pub fn validate_ee_at<P: Scheme, V: Verifier<P>>(
        &self,
        verifier: &V,
        issuer_key: &PublicKey,
        when: Time,
    ) -> Result<(), ValidationError>
        // Ok exactly where the signature and all the other checks hold.
        ensures believed { (result ≡ Ok tt) ↔
            spec.IsEeBelieved P.checks self.now issuer_key.now when }

        // The first check that fails decides, whatever the scheme answers.
        ensures first_failing { (q : Bool) → Decides q (IsSigned P.checks self.now issuer_key.now) →
            result ≡ failing spec.ee_kind
            (first_failure 1 (spec.ee_checks self.now issuer_key.now when q)) }
    {
        match self.ee_failure(verifier, issuer_key, when, 1) {
            Ok(()) => Ok(()),
            Err(check) => Err(ValidationError {
                kind: ee_kind(check),
                check,
            }),
        }
    }

    // Whether the signature holds under its own key, where the certificate names itself as its issuer.
    fn is_own<P: Scheme, V: Verifier<P>>(&self, verifier: &V) -> bool
        ensures answer { (q : Bool) → Decides q (IsSigned P.checks self.now self.now.tbs.key) →
            result ≡ (not (spec.names_itself self.now.tbs) || q) }
        ensures signed { result ≡ true → spec.names_itself self.now.tbs ≡ true →
            IsSigned P.checks self.now self.now.tbs.key }
        ensures unasked { spec.names_itself self.now.tbs ≡ false → result ≡ true }
    {
        if self.tbs().names_itself() {
            self.is_signed(verifier, self.tbs().public_key())
        } else {
            true
        }
    }

    fn ta_failure<P: Scheme, V: Verifier<P>>(&self, verifier: &V, when: Time) -> Result<(), u8>
        ensures first_failing { (q : Bool) →
            Decides q (IsSigned P.checks self.now self.now.tbs.key) →
            result ≡ first_failure 1 (spec.ta_checks self.now when q) }
        ensures signed { OnOk result
            (spec.names_itself self.now.tbs ≡ true → IsSigned P.checks self.now self.now.tbs.key) }
        ensures unasked { spec.names_itself self.now.tbs ≡ false →
            result ≡ first_failure 1 (spec.ta_checks self.now when true) }
    {
        require(1, self.tbs().has_own_identifier())?;
        require(2, self.tbs().basic_ca().is_some())?;
        require(3, self.tbs().is_ca())?;
        require(4, self.tbs().is_within(when))?;
        require(5, self.is_own(verifier))
    }

    /// Whether this is a trust anchor's certificate at the moment; if not, the first of these checks that fails: (1) the subject's
    /// key identifier is that of its key, (2) cA is there, (3) cA is true, (4) the moment lies in the validity, both ends in,
    /// (5) where the authority key identifier is there and is the subject's, the signature holds under the certificate's own
    /// key. The first three are inspections, the others are verifications. It takes no memory.
    pub fn validate_ta_at<P: Scheme, V: Verifier<P>>(
        &self,
        verifier: &V,
        when: Time,
    ) -> Result<(), ValidationError>
        // Ok exactly where the signature, if it is asked, and all the other checks hold.
        ensures believed { (result ≡ Ok tt) ↔ spec.IsTaBelieved P.checks self.now when }

        // The first check that fails decides, whatever the scheme answers.
        ensures first_failing { (q : Bool) →
            Decides q (IsSigned P.checks self.now self.now.tbs.key) →
            result ≡ failing spec.ta_kind (first_failure 1 (spec.ta_checks self.now when q)) }

        // Where the certificate doesn't name itself as its issuer, no signature is asked.
        ensures unasked { spec.names_itself self.now.tbs ≡ false →
            result ≡ failing spec.ta_kind (first_failure 1 (spec.ta_checks self.now when true)) }
    {
        match self.ta_failure(verifier, when) {
            Ok(()) => Ok(()),
            Err(check) => Err(ValidationError {
                kind: ta_kind(check),
                check,
            }),
        }
    }
}
