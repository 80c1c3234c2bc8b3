//! Setup messages (RFC 8183): what a parent and a child, and a repository and a publisher, hand each other before they talk.
//!
//! - [`ChildRequest`], [`ParentResponse`], [`PublisherRequest`], [`RepositoryResponse`]: the four messages. Each is parsed from a
//!   source or from octets, printed and written as XML, and its certificate is validated as a trust anchor's at a moment.
//! - [`ServiceUri`] is where a service is reached, [`RepoInfo`] where the objects of a repository are found; the handles of the
//!   parties are those of `rpki_text`.
//! - [`validate_idcert_at`]: the same validation, of base64 octets from elsewhere.
//! - [`written_is_read`], [`read_is_writable`], [`at_most_one`]: what is written is read again, what was read can be written, and
//!   octets are at most one message of a kind; [`printed_service_uri_is_read`], [`equal_values_are_the_same`].
//!
//! Which elements are which messages stands in specs/, a file for each message: the element that it is written as, and the
//! message that an element is read as.
#![tactic(auto)]

mod child_request;
mod error;
mod law;
mod parent_response;
mod publisher_request;
mod reading;
mod repo_info;
mod repository_response;
mod service_uri;
mod transfer;
mod validation;
mod writing;

pub use child_request::ChildRequest;
pub use error::{Error, equal_errors_are_the_same};
pub use law::{
    at_most_one, equal_values_are_the_same, printed_service_uri_is_read, read_is_writable,
    written_is_read,
};
pub use parent_response::ParentResponse;
pub use publisher_request::PublisherRequest;
pub use repo_info::RepoInfo;
pub use repository_response::RepositoryResponse;
pub use rpki_common::{OutOfMemory, Text};
pub use rpki_text::{
    CaHandle, Child, ChildHandle, Handle, InvalidHandle, MyHandle, Myself, Parent, ParentHandle,
    Publisher, PublisherHandle, Recipient, RecipientHandle, Repository, RepositoryHandle, Sender,
    SenderHandle,
};
pub use service_uri::ServiceUri;
pub use validation::validate_idcert_at;
