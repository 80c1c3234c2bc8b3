//! Laws about messages and their octets.

ghost use Rattle.std.specs.Prelude.{◌≡◌, ◌↔◌, ℕ, List, Some, true};
ghost use Rattle.rpki_setup.specs.ChildRequest.{ChildRequestFields, child_request_in, child_request_text, IsWritableChildRequest};
ghost use Rattle.rpki_setup.specs.ParentResponse.{ParentResponseFields, parent_response_in, parent_response_text, IsWritableParentResponse};
ghost use Rattle.rpki_setup.specs.PublisherRequest.{PublisherRequestFields, publisher_request_in, publisher_request_text, IsWritablePublisherRequest};
ghost use Rattle.rpki_xmltext.specs.Reading.{ReadsAs};
ghost use Rattle.rpki_setup.specs.RepoInfo.{RepoInfoFields};
ghost use Rattle.rpki_setup.specs.RepositoryResponse.{RepositoryResponseFields, repository_response_in, repository_response_text, IsWritableRepositoryResponse};
ghost use Rattle.rpki_setup.specs.ServiceUri.{service_uri_of_text, service_text};
ghost use Rattle.rpki_setup.specs.declared.service_uri.ServiceUri.{ServiceUri as Service};

use crate::child_request::ChildRequest;
use crate::parent_response::ParentResponse;
use crate::publisher_request::PublisherRequest;
use crate::repo_info::RepoInfo;
use crate::repository_response::RepositoryResponse;
use crate::service_uri::ServiceUri;

/// What is written of a writable message is read as that message.
pub fn written_is_read()
    ensures child_request { (m : ChildRequestFields) → IsWritableChildRequest m
        → ReadsAs child_request_in (child_request_text m) m }
    ensures parent_response { (m : ParentResponseFields) → IsWritableParentResponse m
        → ReadsAs parent_response_in (parent_response_text m) m }
    ensures publisher_request { (m : PublisherRequestFields) → IsWritablePublisherRequest m
        → ReadsAs publisher_request_in (publisher_request_text m) m }
    ensures repository_response { (m : RepositoryResponseFields) → IsWritableRepositoryResponse m
        → ReadsAs repository_response_in (repository_response_text m) m }
{}

/// Every message that is read is writable.
pub fn read_is_writable()
    ensures child_request { (octets : List ℕ) (m : ChildRequestFields)
        → ReadsAs child_request_in octets m → IsWritableChildRequest m }
    ensures parent_response { (octets : List ℕ) (m : ParentResponseFields)
        → ReadsAs parent_response_in octets m → IsWritableParentResponse m }
    ensures publisher_request { (octets : List ℕ) (m : PublisherRequestFields)
        → ReadsAs publisher_request_in octets m → IsWritablePublisherRequest m }
    ensures repository_response { (octets : List ℕ) (m : RepositoryResponseFields)
        → ReadsAs repository_response_in octets m → IsWritableRepositoryResponse m }
{}

/// Octets are at most one message of each kind.
pub fn at_most_one()
    ensures child_request { (octets : List ℕ) (m n : ChildRequestFields)
        → ReadsAs child_request_in octets m → ReadsAs child_request_in octets n → m ≡ n }
    ensures parent_response { (octets : List ℕ) (m n : ParentResponseFields)
        → ReadsAs parent_response_in octets m → ReadsAs parent_response_in octets n → m ≡ n }
    ensures publisher_request { (octets : List ℕ) (m n : PublisherRequestFields)
        → ReadsAs publisher_request_in octets m → ReadsAs publisher_request_in octets n → m ≡ n }
    ensures repository_response { (octets : List ℕ) (m n : RepositoryResponseFields)
        → ReadsAs repository_response_in octets m → ReadsAs repository_response_in octets n
        → m ≡ n }
{}

/// The text of a service URI that was read is read as that service URI again.
pub fn printed_service_uri_is_read()
    ensures { (text : List ℕ) (s : Service) → service_uri_of_text text ≡ Some s
        → service_uri_of_text (service_text s) ≡ Some s }
{}

/// `==` holds exactly between values that are the same.
pub fn equal_values_are_the_same()
    ensures service_uri { (a b : Service) → (⟦<ServiceUri as PartialEq>⟧.eq a b ≡ true) ↔ (a ≡ b) }
    ensures repo_info { (a b : RepoInfoFields)
        → (⟦<RepoInfo as PartialEq>⟧.eq a b ≡ true) ↔ (a ≡ b) }
    ensures child_request { (a b : ChildRequestFields)
        → (⟦<ChildRequest as PartialEq>⟧.eq a b ≡ true) ↔ (a ≡ b) }
    ensures parent_response { (a b : ParentResponseFields)
        → (⟦<ParentResponse as PartialEq>⟧.eq a b ≡ true) ↔ (a ≡ b) }
    ensures publisher_request { (a b : PublisherRequestFields)
        → (⟦<PublisherRequest as PartialEq>⟧.eq a b ≡ true) ↔ (a ≡ b) }
    ensures repository_response { (a b : RepositoryResponseFields)
        → (⟦<RepositoryResponse as PartialEq>⟧.eq a b ≡ true) ↔ (a ≡ b) }
{}
