//! What holds of everything that is written: it is read again.

ghost use Rattle.std.specs.Prelude.{◌≡◌, ◌↔◌, true, ℕ, List, ◌++◌, length, Some, ℤ};
ghost use Rattle.std.specs.Ordering.{int_cmp};
ghost use Rattle.rpki_der.specs.declared.mode.Mode.{Mode};
ghost use Rattle.rpki_der.specs.Value.{Begins};
ghost use Rattle.rpki_base.specs.Civil.{IsMoment, civil_at};
ghost use Rattle.rpki_base.specs.Rfc3339.{rfc3339_time};
ghost use Rattle.rpki_base.specs.Time.{time};
ghost use Rattle.rpki_base.specs.TimeText.{time_value, der_time, rfc3339_text};
ghost use Rattle.rpki_base.specs.Serial.{serial, serial_value, der_serial};
ghost use Rattle.rpki_base.specs.Validity.{ValidityFields};
ghost use Rattle.rpki_base.specs.PublicKey.{KeyFields};
ghost use Rattle.rpki_base.specs.RpkiSignatureAlgorithm.{RpkiAlgorithm};
ghost use Rattle.rpki_base.specs.declared.algorithm.PublicKeyFormat.{PublicKeyFormat};
ghost use Rattle.rpki_base.specs.declared.algorithm.SigningAlgorithm.{SigningAlgorithm};
ghost use Rattle.rpki_base.specs.declared.errors.SignatureVerificationError.{SignatureVerificationError};
ghost use Rattle.rpki_base.specs.declared.errors.ToyFault.{ToyFault};
ghost use Rattle.rpki_base.specs.declared.errors.VerificationError.{VerificationError};
ghost use Rattle.rpki_base.specs.declared.rpki_algorithm.RsaIdentifier.{RsaIdentifier};
ghost use Rattle.rpki_base.specs.declared.validation.ValidationError.{ValidationError};
ghost use Rattle.rpki_base.specs.declared.validation.ValidationKind.{ValidationKind};

use crate::algorithm::{PublicKeyFormat, SigningAlgorithm};
use crate::bgpsec_algorithm::BgpsecSignatureAlgorithm;
use crate::errors::{SignatureVerificationError, ToyFault, VerificationError};
use crate::key_identifier::KeyIdentifier;
use crate::name::Name;
use crate::public_key::PublicKey;
use crate::rpki_algorithm::{RpkiSignatureAlgorithm, RsaIdentifier};
use crate::serial::Serial;
use crate::time::Time;
use crate::validation::{ValidationError, ValidationKind};
use crate::validity::Validity;

/// What `Serial::encode` writes is read as the same serial number, in both modes.
pub fn serial_is_read_again()
    ensures value { (octets : List ℕ) → length octets ≡ 20
        → serial (serial_value octets) ≡ Some octets }
    ensures begins { (mode : Mode) (octets rest : List ℕ) → length octets ≡ 20
        → Begins mode (der_serial octets ++ rest) (serial_value octets) rest }
{}

/// What `Time::to_der_varied` writes is read as the same time, in both modes.
pub fn time_is_read_again()
    ensures value { (seconds : ℤ) → IsMoment seconds → time (time_value seconds) ≡ Some seconds }
    ensures begins { (mode : Mode) (seconds : ℤ) (rest : List ℕ)
        → Begins mode (der_time seconds ++ rest) (time_value seconds) rest }
{}

/// What `Time::to_rfc3339` prints is read by `Time::from_rfc3339` as the same time.
pub fn printed_time_is_read_again()
    ensures { (seconds : ℤ) → IsMoment seconds
        → rfc3339_time (rfc3339_text (civil_at seconds)) ≡ Some seconds }
{}

/// Times are ordered by their seconds.
pub fn times_are_ordered_by_seconds()
    ensures { (a b : ℤ) → ⟦<Time as Ord>⟧.cmp a b ≡ int_cmp a b }
{}

/// `==` holds exactly between values that are the same.
pub fn equal_values_are_the_same()
    ensures time { (a b : ℤ) → (⟦<Time as PartialEq>⟧.eq a b ≡ true) ↔ (a ≡ b) }
    ensures validity { (a b : ValidityFields)
        → (⟦<Validity as PartialEq>⟧.eq a b ≡ true) ↔ (a ≡ b) }
    ensures serial { (a b : List ℕ) → (⟦<Serial as PartialEq>⟧.eq a b ≡ true) ↔ (a ≡ b) }
    ensures identifier { (a b : List ℕ) → (⟦<KeyIdentifier as PartialEq>⟧.eq a b ≡ true) ↔ (a ≡ b) }
    ensures name { (a b : List ℕ) → (⟦<Name as PartialEq>⟧.eq a b ≡ true) ↔ (a ≡ b) }
    ensures format { (a b : PublicKeyFormat)
        → (⟦<PublicKeyFormat as PartialEq>⟧.eq a b ≡ true) ↔ (a ≡ b) }
    ensures key { (a b : KeyFields) → (⟦<PublicKey as PartialEq>⟧.eq a b ≡ true) ↔ (a ≡ b) }
    ensures kind { (a b : SigningAlgorithm)
        → (⟦<SigningAlgorithm as PartialEq>⟧.eq a b ≡ true) ↔ (a ≡ b) }
    ensures rpki_algorithm { (a b : RpkiAlgorithm) →
        (⟦<RpkiSignatureAlgorithm as PartialEq>⟧.eq a b ≡ true) ↔ (a ≡ b) }
    ensures bgpsec_algorithm { (a b : Unit {0})
        → (⟦<BgpsecSignatureAlgorithm as PartialEq>⟧.eq a b ≡ true) ↔ (a ≡ b) }
    ensures rsa_identifier { (a b : RsaIdentifier)
        → (⟦<RsaIdentifier as PartialEq>⟧.eq a b ≡ true) ↔ (a ≡ b) }
    ensures error { (a b : ValidationError)
        → (⟦<ValidationError as PartialEq>⟧.eq a b ≡ true) ↔ (a ≡ b) }
    ensures error_kind { (a b : ValidationKind)
        → (⟦<ValidationKind as PartialEq>⟧.eq a b ≡ true) ↔ (a ≡ b) }
    ensures verification { (a b : VerificationError)
        → (⟦<VerificationError as PartialEq>⟧.eq a b ≡ true) ↔ (a ≡ b) }
    ensures signature_verification { (a b : SignatureVerificationError)
        → (⟦<SignatureVerificationError as PartialEq>⟧.eq a b ≡ true) ↔ (a ≡ b) }
    ensures toy_fault { (a b : ToyFault) → (⟦<ToyFault as PartialEq>⟧.eq a b ≡ true) ↔ (a ≡ b) }
{}
