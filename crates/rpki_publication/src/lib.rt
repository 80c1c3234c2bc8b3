//! Messages of the publication protocol (RFC 8181).
//!
//! - [`Message`] is a message, a [`Query`] or a [`Reply`]: it is decoded from XML and written as XML.
//! - [`PublishDelta`] is what a query changes, by [`Publish`], [`Update`] and [`Withdraw`]; [`ListReply`] what a reply lists, and
//!   [`ErrorReply`] the errors that it reports, each a [`ReportError`] with a [`ReportErrorCode`].
//! - [`PublicationCms`] is a signed message with the message that it holds: it is decoded in BER, and validated under an
//!   issuer's key at a moment.
//!
//! What a message is stands in specs/, a table of elements for each type: the element that it is written as, and what each element
//! is read as.
#![tactic(auto)]

mod attributes;
mod cms;
mod details;
mod empty_values;
mod error;
mod error_reply;
mod hash_tag;
mod law;
mod list_element;
mod list_reply;
mod message;
mod publish;
mod publish_delta;
mod publish_delta_element;
mod query;
mod query_pdu;
mod reading;
mod reply;
mod report_error;
mod report_error_code;
mod update;
mod withdraw;
mod writing;

pub use cms::PublicationCms;
pub use error::{Error, equal_errors_are_the_same};
pub use error_reply::ErrorReply;
pub use law::{
    added_changes_are_lists, at_most_one, content_type_is, equal_lists_are_the_same,
    equal_messages_are_the_same, equal_reply_elements_are_the_same, equal_reports_are_the_same,
    equal_values_are_the_same, normal_form_is_normal, printed_code_is_read, read_is_writable,
    read_texts_are_short, small_deltas_are_short, written_is_read,
};
pub use list_element::ListElement;
pub use list_reply::ListReply;
pub use message::{CONTENT_TYPE, Message};
pub use publish::Publish;
pub use publish_delta::PublishDelta;
pub use publish_delta_element::PublishDeltaElement;
pub use query::Query;
pub use query_pdu::{QueryPdu, QueryPduType};
pub use reply::{Reply, ReplyPdu, ReplyPduType};
pub use report_error::ReportError;
pub use report_error_code::ReportErrorCode;
pub use rpki_common::{OutOfMemory, Sequence, Text};
pub use update::Update;
pub use withdraw::Withdraw;
