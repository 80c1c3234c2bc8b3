//! What the messages of RFC 6492, RFC 8181 and RFC 8183 share: they are read from documents of XML and written as such.
//!
//! - [`write_octets`]: a message's octets, written to a sink where they are at most [`MOST_OCTETS`]. [`Cause`] is why a message is not
//!   read or written; each crate of messages says which of its errors has which cause.
//! - [`base64_of`], [`handle_of`], [`uri_of`], [`tag_in`]: what texts in an element are read as, where [`XmlError::Malformed`] comes
//!   exactly for a text that is none.
//! - [`write_attribute`], [`write_optional`], [`write_text`], [`write_inside`], [`write_base64`], [`write_end`]: the parts of elements are
//!   printed in their one spelling, in pieces and without memory.
//! - [`is_plain`], [`is_plain_or_absent`], [`is_trimmed_or_absent`]: whether texts can be written so that they are read again.
//! - [`lent`], [`shared`], [`handed_out`], [`taken_in`], [`cloned`]: texts that may be absent.
//!
//! A table of messages is a partial function from elements to what they mean, and what octets are read as by it stands in
//! specs/Reading.antt; what calls answer, for any messages and any type of errors, in specs/Answers.antt.
//!
//! [`XmlError::Malformed`]: rpki_xml::XmlError::Malformed
#![tactic(auto)]

mod cause;
mod optional_text;
mod printing;
mod texts;
mod transfer;
mod writable;

pub use cause::{Cause, equal_causes_are_the_same};
pub use optional_text::{cloned, handed_out, lent, shared, taken_in};
pub use printing::{
    write_attribute, write_base64, write_end, write_inside, write_optional, write_text,
};
pub use texts::{base64_of, handle_of, tag_in, uri_of};
pub use transfer::{MOST_OCTETS, write_octets};
pub use writable::{is_plain, is_plain_or_absent, is_trimmed_or_absent};
