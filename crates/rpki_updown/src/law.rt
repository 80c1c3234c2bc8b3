//! Laws about parts of messages.

ghost use Rattle.std.specs.Prelude.{◌≡◌, ◌↔◌, ℕ, List, map, Some, true};
ghost use Rattle.rpki_sets.specs.Resources.{Resources};
ghost use Rattle.rpki_updown.specs.Entitlements.{IssuedFields, SigningFields, ClassFields, IssuanceFields, issued_with, signing_with, class_with, issuance_with};
ghost use Rattle.rpki_updown.specs.KeyElement.{KeyElementFields};
ghost use Rattle.rpki_updown.specs.NotPerformedResponse.{NotPerformedFields};
ghost use Rattle.rpki_updown.specs.PayloadType.{payload_type_of_text, payload_type_text};
ghost use Rattle.rpki_updown.specs.RequestResourceLimit.{LimitFields, IsContained, limited_set};
ghost use Rattle.rpki_updown.specs.declared.payload_type.PayloadType.{PayloadType as Kind};
ghost use Rattle.rpki_updown.specs.declared.payload_type.PayloadTypeError.{PayloadTypeError as KindError};

use crate::issuance_response::IssuanceResponse;
use crate::issued_cert::IssuedCert;
use crate::key_element::KeyElement;
use crate::not_performed_response::NotPerformedResponse;
use crate::payload_type::{PayloadType, PayloadTypeError};
use crate::request_resource_limit::RequestResourceLimit;
use crate::resource_class_entitlements::ResourceClassEntitlements;
use crate::resource_class_list_response::ResourceClassListResponse;
use crate::resource_class_name::ResourceClassName;
use crate::revocation_request::RevocationRequest;
use crate::revocation_response::RevocationResponse;
use crate::signing_cert::SigningCert;
use rpki_cert::equal_certs_have_the_same_octets;

/// The printed text of each kind of message is read as that kind.
pub fn printed_payload_type_is_read()
    ensures { (t : Kind) → payload_type_of_text (payload_type_text t) ≡ Some t }
{}

/// What a limit leaves of a set has all that the limit states, and the limit leaves the same of it again.
pub fn limited_set_is_kept()
    ensures contained { (limit : LimitFields) (set : Resources) → IsContained limit set
        → IsContained limit (limited_set limit set) }
    ensures same { (limit : LimitFields) (set : Resources)
        → limited_set limit (limited_set limit set) ≡ limited_set limit set }
{}

/// `==` of what holds no certificate holds exactly between values that are the same.
pub fn equal_values_are_the_same()
    ensures class_name { (a b : List ℕ)
        → (⟦<ResourceClassName as PartialEq>⟧.eq a b ≡ true) ↔ (a ≡ b) }
    ensures payload_type { (a b : Kind) → (⟦<PayloadType as PartialEq>⟧.eq a b ≡ true) ↔ (a ≡ b) }
    ensures payload_type_error { (a b : KindError)
        → (⟦<PayloadTypeError as PartialEq>⟧.eq a b ≡ true) ↔ (a ≡ b) }
    ensures key_element { (a b : KeyElementFields)
        → (⟦<KeyElement as PartialEq>⟧.eq a b ≡ true) ↔ (a ≡ b) }
    ensures request { (a b : KeyElementFields)
        → (⟦<RevocationRequest as PartialEq>⟧.eq a b ≡ true) ↔ (a ≡ b) }
    ensures response { (a b : KeyElementFields)
        → (⟦<RevocationResponse as PartialEq>⟧.eq a b ≡ true) ↔ (a ≡ b) }
    ensures not_performed { (a b : NotPerformedFields)
        → (⟦<NotPerformedResponse as PartialEq>⟧.eq a b ≡ true) ↔ (a ≡ b) }
    ensures limit { (a b : LimitFields)
        → (⟦<RequestResourceLimit as PartialEq>⟧.eq a b ≡ true) ↔ (a ≡ b) }
{}

/// `==` of what holds certificates means that all parts are the same, the certificates by their octets.
pub fn equal_certificates_have_the_same_octets()
    ensures issued { (a b : IssuedFields) → (⟦<IssuedCert as PartialEq>⟧.eq a b ≡ true)
        ↔ (issued_with (λ c. c.slice) a ≡ issued_with (λ c. c.slice) b) }
    ensures signing { (a b : SigningFields) → (⟦<SigningCert as PartialEq>⟧.eq a b ≡ true)
        ↔ (signing_with (λ c. c.slice) a ≡ signing_with (λ c. c.slice) b) }
{
    equal_certs_have_the_same_octets();
}

/// `==` of what is issued, and of classes, means that all parts are the same, the certificates by their octets.
pub fn equal_classes_have_the_same_octets()
    ensures issuance { (a b : IssuanceFields) → (⟦<IssuanceResponse as PartialEq>⟧.eq a b ≡ true)
        ↔ (issuance_with (λ c. c.slice) a ≡ issuance_with (λ c. c.slice) b) }
    ensures class_of { (a b : ClassFields)
        → (⟦<ResourceClassEntitlements as PartialEq>⟧.eq a b ≡ true)
        ↔ (class_with (λ c. c.slice) a ≡ class_with (λ c. c.slice) b) }
{
    equal_certs_have_the_same_octets();
}

/// `==` of lists of classes means that all parts are the same, the certificates by their octets.
pub fn equal_class_lists_have_the_same_octets()
    ensures { (a b : List ClassFields)
        → (⟦<ResourceClassListResponse as PartialEq>⟧.eq a b ≡ true)
        ↔ (map (class_with (λ c. c.slice)) a ≡ map (class_with (λ c. c.slice)) b) }
{
    equal_classes_have_the_same_octets();
}
