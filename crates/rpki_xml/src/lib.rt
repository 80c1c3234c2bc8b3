//! XML in the narrow profile of the messages: documents are read, elements are written.
//!
//! - [`read_document`]: the one element of a document, or [`XmlError::Malformed`] exactly where octets are no document.
//! - [`Element`], and [`ElementRef`] for an element inside it: name, namespace, attributes, children and text.
//! - What the tables of messages ask of an element, each by the word that their definitions use (specs/Tables.antt): attributes
//!   by [`ElementRef::required`], `optional`, `optional_by`, `given_or_absent` and `only`; children by [`Children::the_one`],
//!   `at_most_one` and `no_more`, or one after the other; and any other test by [`require`]. None takes memory: each answers what
//!   is there, or [`Mismatch`], which `?` makes an [`XmlError`].
//! - [`ElementWriter`]: writes an element call by call, in the one spelling.
//! - [`at_most_one`], [`documents_are_lettered`], [`texts_are_trimmed`]: laws about documents; [`runs_are_repetitions`],
//!   [`spelled_attributes_are_read`]: about what is read; [`spelled_is_read`], [`calls_spell`], [`calls_follow`],
//!   [`optional_attributes_follow`], [`done_is_spelled`]: about what is written; [`equal_errors_are_the_same`].
//!
//! A document is defined as a grammar: specs/Lexing.antt says which octets a piece is, specs/Content.antt which pieces are
//! an element. No call recurses on the depth of a document. Time grows as n log n in the length of the document, which the
//! code shows and no clause says.
#![tactic(auto)]

mod distinct;
mod document;
mod element;
mod error;
mod kept;
mod law;
mod lexing;
mod lookup;
mod stack;
mod tag;
mod writer;

pub use document::{Element, read_document};
pub use element::{Attribute, Attributes, Children, ElementRef};
pub use error::{Mismatch, XmlError};
pub use law::{
    at_most_one, calls_follow, calls_spell, documents_are_lettered, done_is_spelled,
    equal_errors_are_the_same, optional_attributes_follow, runs_are_repetitions,
    spelled_attributes_are_read, spelled_is_read, texts_are_trimmed,
};
pub use lexing::are_octets;
pub use lookup::require;
pub use stack::is_trimmed;
pub use writer::ElementWriter;
