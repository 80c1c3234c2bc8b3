//! The leaves that all messages share, and where octets come from and go to.
//!
//! Texts, each read exactly by its rule. URIs and handles are printed as they stand, a hash in lower
//! case, base64 text without white space, a key identifier without padding:
//!
//! - [`uri::Rsync`] and [`uri::Https`]: the two kinds of URIs that messages hold.
//! - [`Hash`]: a SHA-256 digest, as 64 hexadecimal digits.
//! - [`Base64`]: octets that travel as base64 text. [`read_key_identifier`] and
//!   [`key_identifier_text`] are for the key identifiers in messages, which have an alphabet of
//!   their own.
//! - [`Handle`]: the name of a party. A marker says which one, so that the handle of a child is
//!   never taken for that of a parent.
//! - [`read_value`], [`read_string`] and [`write_string`], [`read_octets`] and [`write_octets`]:
//!   JSON texts, those that are one string, and those whose string is base64 text.
//!
//! Where octets come from and go to, in pieces, and each failure of the outside is counted:
//!
//! - [`Source`] and [`Sink`]: what is read from and written to. Each has a count of its faults that
//!   never falls, so a contract can say that a call answers a fault only where the outside failed.
//! - [`read_all`] and [`write_all`]: a source read to its end within a limit, and octets written
//!   whole.
//! - [`MemorySource`] and [`MemorySink`]: ones in memory that give and take pieces and fail at
//!   listed calls, so that a caller can be tried at each failure.
//! - [`StdSource`] and [`StdSink`]: ones over what `std` reads and writes, as a file or standard
//!   input.
//!
//! Nothing here knows what a message means.
#![tactic(auto)]

mod base64_text;
mod digests;
mod handles;
mod json;
mod key_identifiers;
mod law;
mod memory_sink;
mod memory_source;
mod reading;
mod standard;
mod traits;
pub mod uri;
mod writing;

pub use base64_text::{Base64, Base64Error, read_octets, write_octets};
pub use digests::{Hash, printed_hash_is_read};
pub use handles::{
    CaHandle, Child, ChildHandle, Handle, InvalidHandle, MyHandle, Myself, Parent, ParentHandle,
    Publisher, PublisherHandle, Recipient, RecipientHandle, Repository, RepositoryHandle, Sender,
    SenderHandle, equal_markers_are_the_same,
};
pub use json::{JsonError, read_string, read_value, write_string};
pub use key_identifiers::{key_identifier_text, read_key_identifier};
pub use law::equal_errors_are_the_same;
pub use memory_sink::MemorySink;
pub use memory_source::MemorySource;
pub use reading::{ReadAllError, read_all};
pub use standard::{StdSink, StdSource};
pub use traits::{Failed, Sink, Source};
pub use writing::write_all;
