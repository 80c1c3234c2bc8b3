//! Whether a signed message may be believed.

ghost use Rattle.std.specs.Prelude.{◌≡◌, ◌↔◌, ◌⊎◌, ◌<◌, ◌≤◌, ◌∷◌, [], ℕ, Bool, ℤ, Decides, true, All, List, Result, Ok, Err, OnOk, bytes_eq, length};
ghost use Rattle.rpki_common.specs.Limits.{most_keys};
ghost use Rattle.rpki_base.specs.PublicKey.{KeyFields};
ghost use Rattle.rpki_base.specs.declared.validation.ValidationError.{ValidationError as FailedCheck};
ghost use Rattle.rpki_base.specs.Checks.{first_failure, failing, FirstFalse, IsSigned};
ghost use Rattle.rpki_sigmsg.specs.CrlChecks.{AreCrlsSigned};
ghost use Rattle.rpki_sigmsg.specs.Message.{MessageFields};
ghost use Rattle.rpki_sigmsg.specs.Checks as spec;

use crate::crl_validation::{crls_checks, crls_failure};
use crate::message::SignedMessage;
use rpki_base::{PublicKey, Scheme, SigningAlgorithm, Time, Verifier};
use rpki_idcert::{ValidationError, ValidationKind, require};

fn kind_of(check: u8) -> ValidationKind
    ensures { result ≡ spec.kind_of check }
{
    match check {
        1 | 4 => ValidationKind::Inspection,
        _ => ValidationKind::Verification,
    }
}

/// # Validation
impl SignedMessage {
    // Whether the certificate is that of the key by which the signer is named.
    fn names_certificate(&self) -> bool
        ensures { result ≡ bytes_eq self.now.signer self.now.certificate.tbs.subject_key_id }
    {
        let subject = self.ee_cert().tbs().subject_key_identifier();
        self.signer_identifier().as_slice() == subject.as_slice()
    }

    // Whether the attributes are signed under the certificate's key.
    fn are_attributes_signed<P: Scheme, V: Verifier<P>>(&self, verifier: &V) -> bool
        ensures { Decides result (spec.AreAttributesSigned P.checks self.now) }
    {
        verifier.verify(
            SigningAlgorithm::RsaSha256,
            self.ee_cert().tbs().public_key(),
            self.covered.as_slice(),
            self.signature.value().as_slice(),
        )
    }

    // Checks 1 to 3.
    fn own_failure<P: Scheme, V: Verifier<P>>(&self, verifier: &V) -> Result<(), u8>
        ensures first_failing { (q : Bool) →
            Decides q (spec.AreAttributesSigned P.checks self.now) →
            result ≡ first_failure 1 (spec.message_checks self.now q) }
        ensures signed { OnOk result (spec.AreAttributesSigned P.checks self.now) }
    {
        require(1, self.names_certificate())?;
        require(2, self.digest_holds())?;
        require(3, self.are_attributes_signed(verifier))
    }

    // Whether no CRL lists the certificate.
    fn is_not_revoked(&self) -> bool
        ensures { result ≡ spec.is_not_revoked self.now }
    {
        let serial = self.ee_cert().tbs().serial_number();
        self.crls()
            .iter()
            .all(|crl| !crl.tbs().revoked_certs().contains(serial))
    }

    // Checks 4 to 14.
    fn key_failure<P: Scheme, V: Verifier<P>>(
        &self,
        verifier: &V,
        issuer_key: &PublicKey,
        when: Time,
    ) -> Result<(), u8>
        ensures first_failing { (q8 q10 : Bool) →
            Decides q8 (IsSigned P.checks self.now.certificate issuer_key.now) →
            Decides q10 (AreCrlsSigned P.checks self.now.crls issuer_key.now) →
            result ≡ first_failure 4 (spec.key_checks self.now issuer_key.now when q8 q10) }
        ensures certificate { OnOk result
            (IsSigned P.checks self.now.certificate issuer_key.now) }
        ensures crls { OnOk result (AreCrlsSigned P.checks self.now.crls issuer_key.now) }
    {
        self.ee_cert().ee_failure(verifier, issuer_key, when, 4)?;
        crls_failure(self.crls(), verifier, issuer_key, when)?;
        require(14, self.is_not_revoked())
    }

    fn failure<P: Scheme, V: Verifier<P>>(
        &self,
        verifier: &V,
        issuer_key: &PublicKey,
        when: Time,
    ) -> Result<(), u8>
        ensures first_failing { (q : spec.Asked P.checks self.now issuer_key.now) →
            result ≡ first_failure 1 (spec.checks self.now issuer_key.now when q.q3 q.q8 q.q10) }
        ensures signed { OnOk result (spec.AreSigned P.checks self.now issuer_key.now) }
    {
        self.own_failure(verifier)?;
        self.key_failure(verifier, issuer_key, when)
    }

    /// Whether the key issued the certificate for the moment and the certificate's key signed the message; if not, the first of these
    /// checks that fails. It takes no memory.
    ///
    /// - 1: the signer is named by the certificate's subject key identifier.
    /// - 2: the content's SHA-256 is the signed digest.
    /// - 3: the attributes are signed under the certificate's key.
    /// - 4: the subject key identifier is that of the certificate's key.
    /// - 5: the moment lies in the certificate's validity, both ends in.
    /// - 6: the certificate's authority key identifier, if it is there, is that of the issuer's key.
    /// - 7: cA isn't true.
    /// - 8: the certificate is signed under the issuer's key.
    /// - 9: each CRL names one algorithm in both places, NULL included.
    /// - 10: each CRL is signed under the issuer's key.
    /// - 11: no thisUpdate is after the moment.
    /// - 12: no nextUpdate is before it.
    /// - 13: the authority key identifier of each CRL, if it is there, is that of the issuer's key.
    /// - 14: no CRL lists the certificate.
    ///
    /// Checks 1 and 4 are inspections, the others are verifications.
    pub fn validate_at<P: Scheme, V: Verifier<P>>(
        &self,
        verifier: &V,
        issuer_key: &PublicKey,
        when: Time,
    ) -> Result<(), ValidationError>
        // Ok exactly where the signatures and all the other checks hold.
        ensures believed { (result ≡ Ok tt) ↔
            spec.IsBelieved P.checks self.now issuer_key.now when }

        // The first check that fails decides, whatever the scheme answers.
        ensures first_failing { (q : spec.Asked P.checks self.now issuer_key.now) →
            result ≡ failing spec.kind_of
            (first_failure 1 (spec.checks self.now issuer_key.now when q.q3 q.q8 q.q10)) }
    {
        match self.failure(verifier, issuer_key, when) {
            Ok(()) => Ok(()),
            Err(check) => Err(ValidationError {
                kind: kind_of(check),
                check,
            }),
        }
    }
}

/// # All checks
impl SignedMessage {
    /// The fourteen checks of [`SignedMessage::validate_at`] in their order, each of them whether or not one before it fails; those of
    /// CRLs are of all CRLs. It takes no memory.
    pub fn checks_at<P: Scheme, V: Verifier<P>>(
        &self,
        verifier: &V,
        issuer_key: &PublicKey,
        when: Time,
    ) -> [bool; 14]
        // All fourteen are true exactly where the message is believed.
        ensures believed { All (λ b. b ≡ true) result ↔
            spec.IsBelieved P.checks self.now issuer_key.now when }

        // They are the fourteen checks, where 3, 8 and 10 say which signatures hold under the scheme.
        ensures answered { spec.AreChecks P.checks self.now issuer_key.now when result }

        // They are the fourteen checks by any answers to the three questions that are right.
        ensures checks { (q : spec.Asked P.checks self.now issuer_key.now) →
            result ≡ spec.checks self.now issuer_key.now when q.q3 q.q8 q.q10 }
    {
        let entity = self.ee_cert();
        let [q4, q5, q6, q7, q8] = entity.ee_checks_at(verifier, issuer_key, when);
        let crls = self.crls();
        let [q9, q10, q11, q12, q13] = crls_checks(crls, verifier, issuer_key, when);
        [
            self.names_certificate(),
            self.digest_holds(),
            self.are_attributes_signed(verifier),
            q4,
            q5,
            q6,
            q7,
            q8,
            q9,
            q10,
            q11,
            q12,
            q13,
            self.is_not_revoked(),
        ]
    }
}

/// # Validation under a list of keys
impl SignedMessage {
    // The place of the first key under which no check fails; else the greatest of the first checks that fail under each. Checks 1 to 3
    // are made once; of the others some ask for no key either.
    fn any_failure<P: Scheme, V: Verifier<P>>(
        &self,
        verifier: &V,
        keys: &[PublicKey],
        when: Time,
    ) -> Result<usize, u8>
        requires { 1 ≤ length keys.now }
        ensures ok { (place : ℕ) → result ≡ Ok place →
            spec.IsFirstBelieved P.checks self.now keys.now when place }
        ensures err { (check : ℕ) → result ≡ Err check →
            spec.IsUnbelieved P.checks self.now keys.now when }
        ensures first_failing { (outcomes : List (Result (Unit {0}) ℕ)) →
            spec.AreOutcomes P.checks self.now keys.now when outcomes →
            result ≡ spec.ranked outcomes }
    {
        self.own_failure(verifier)?;
        let mut greatest = 0;
        for (place, key) in keys.iter().enumerate() {
            match self.key_failure(verifier, key, when) {
                Ok(()) => return Ok(place),
                Err(check) => greatest = greatest.max(check),
            }
        }
        Err(greatest)
    }

    /// The place, from 0, of the first of these keys under which all checks of [`SignedMessage::validate_at`] hold; there have to be one to
    /// eight of them. If they hold under none, the greatest of the first checks that fail, one under each key. It takes no memory.
    pub fn validate_any_at<P: Scheme, V: Verifier<P>>(
        &self,
        verifier: &V,
        keys: &[PublicKey],
        when: Time,
    ) -> Result<usize, ValidationError>
        requires some { 1 ≤ length keys.now }
        requires few { length keys.now ≤ most_keys }

        // Ok exactly where the signatures and all the other checks hold under the key at this place, and under none before it.
        ensures believed { (place : ℕ) → (result ≡ Ok place) ↔
            spec.IsFirstBelieved P.checks self.now keys.now when place }

        // An error only where they hold under no key.
        ensures none { (error : FailedCheck) → result ≡ Err error →
            spec.IsUnbelieved P.checks self.now keys.now when }

        // The greatest of the first checks that fail decides, whatever the scheme answers.
        ensures first_failing { (outcomes : List (Result (Unit {0}) ℕ)) →
            spec.AreOutcomes P.checks self.now keys.now when outcomes →
            result ≡ failing spec.kind_of (spec.ranked outcomes) }
    {
        match self.any_failure(verifier, keys, when) {
            Ok(place) => Ok(place),
            Err(check) => Err(ValidationError {
                kind: kind_of(check),
                check,
            }),
        }
    }
}

/// What `validate_at` answers, `checks_at` tells: all fourteen checks are true exactly where it answers Ok, and the first false one
/// stands at the place that it names.
pub fn first_false_is_named<P: Scheme>()
    ensures passes { (m : MessageFields) (issuer : KeyFields) (when : ℤ) (list : List Bool)
        (answer : Result (Unit {0}) FailedCheck) →
        spec.AreChecks P.checks m issuer when list →
        spec.IsValidation P.checks m issuer when answer →
        (answer ≡ Ok tt) ↔ All (λ b. b ≡ true) list }
    ensures fails { (m : MessageFields) (issuer : KeyFields) (when : ℤ) (list : List Bool)
        (answer : Result (Unit {0}) FailedCheck) (failed : FailedCheck) →
        spec.AreChecks P.checks m issuer when list →
        spec.IsValidation P.checks m issuer when answer →
        answer ≡ Err failed →
        FirstFalse 1 failed.check list × (failed.kind ≡ spec.kind_of failed.check) }
{}

/// What `validate_any_at` answers under one key is what `validate_at` answers, without the place.
pub fn one_key_is_validated<P: Scheme>()
    ensures { (m : MessageFields) (issuer : KeyFields) (when : ℤ)
        (answer : Result ℕ FailedCheck) →
        spec.IsAnyValidation P.checks m (issuer ∷ []) when answer →
        spec.IsValidation P.checks m issuer when (spec.without_place answer) }
{}

/// What is believed under a key of a list is believed under a key of each list that holds these keys, in any order.
pub fn more_keys_believe<P: Scheme>()
    ensures { (m : MessageFields) (keys more : List KeyFields) (when : ℤ) →
        spec.AreAmong keys more → spec.IsBelievedUnder P.checks m keys when →
        spec.IsBelievedUnder P.checks m more when }
{}

/// What `validate_at` answers depends on the scheme by its three questions alone: two schemes that answer them alike have the same
/// answer.
pub fn three_questions_decide<P: Scheme, Q: Scheme>()
    ensures { (m : MessageFields) (issuer : KeyFields) (when : ℤ)
        (answer : Result (Unit {0}) FailedCheck) →
        spec.SameAnswers P.checks Q.checks m issuer →
        spec.IsValidation P.checks m issuer when answer →
        spec.IsValidation Q.checks m issuer when answer }
{}

/// The moments at which a message passes under a key, whatever a scheme answers, are none, or all from the latest of notBefore and
/// each thisUpdate to the earliest of notAfter and each nextUpdate, both ends in.
pub fn moments_are_one_span()
    ensures { (m : MessageFields) (issuer : KeyFields) (q3 q8 q10 : Bool) →
        ((when : ℤ) → spec.Passes m issuer q3 q8 q10 when → ⊥) ⊎
        ((when : ℤ) → spec.Passes m issuer q3 q8 q10 when ↔ spec.IsInSpan m when) }
{}

/// The moments at which a message is believed under a list of keys are none, or all from the latest of notBefore and each thisUpdate
/// to the earliest of notAfter and each nextUpdate, both ends in: one such moment makes all of these such ones, and no other.
pub fn believed_moments_are_one_span<P: Scheme>()
    ensures { (m : MessageFields) (keys : List KeyFields) (one when : ℤ) →
        spec.IsBelievedUnder P.checks m keys one →
        spec.IsBelievedUnder P.checks m keys when ↔ spec.IsInSpan m when }
{}

/// What `validate_any_at` answers depends on the scheme by its questions under each key alone: two schemes that answer them alike have
/// the same answer.
pub fn questions_of_each_key_decide<P: Scheme, Q: Scheme>()
    ensures { (m : MessageFields) (keys : List KeyFields) (when : ℤ)
        (answer : Result ℕ FailedCheck) →
        spec.SameAnswersUnder P.checks Q.checks m keys →
        spec.IsAnyValidation P.checks m keys when answer →
        spec.IsAnyValidation Q.checks m keys when answer }
{}
