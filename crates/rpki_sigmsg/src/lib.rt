//! Signed messages: XML inside signed CMS data (RFC 5652), as RFC 6492 and RFC 8181 profile it.
//!
//! - [`SignedMessage`] is a message: it is decoded in DER or BER, and keeps what its signatures cover.
//! - [`SignedMessageRef`] is a view of one, with the places of its parts in the octets from which it was read.
//! - [`SignedMessageCrl`] is a CRL that comes with it, and says which certificates are revoked.
//!
//! What a message is stands in specs/Message.antt, with specs/Attributes.antt, specs/Signer.antt and specs/Crl.antt, as
//! grammars over the values of X.690.
#![tactic(auto)]

mod algorithm;
mod attributes;
mod content;
mod create_error;
mod creating;
mod crl;
mod crl_extensions;
mod crl_validation;
mod law;
mod message;
mod object_identifiers;
mod octets;
mod parts;
mod reference;
mod revoked;
mod signer;
mod spelling;
mod tbs_crl;
mod unsigned;
mod validation;
mod window;

pub use create_error::{CreateError, equal_create_errors_are_the_same};
pub use creating::content_is_within_limit;
pub use crl::SignedMessageCrl;
pub use law::{
    parts_stand_in_turn, rewritten_messages_are_read, strict_messages_are_loose,
    views_are_of_messages,
};
pub use message::SignedMessage;
pub use object_identifiers::message_identifiers_have_texts;
pub use reference::SignedMessageRef;
pub use revoked::{CrlEntry, RevokedCertificates, equal_entries_are_the_same};
pub use rpki_der::{DecodeError, OutOfMemory};
pub use tbs_crl::SignedMessageTbsCrl;
pub use unsigned::{UnsignedContent, UnsignedCrl, UnsignedMessage};
pub use validation::{
    believed_moments_are_one_span, first_false_is_named, moments_are_one_span, more_keys_believe,
    one_key_is_validated, questions_of_each_key_decide, three_questions_decide,
};
pub use window::Window;
