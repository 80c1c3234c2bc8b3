//! BER and DER values (X.690).
//!
//! - [`Cursor`] reads values from octets, one after the other and level by level; each call has a form that counts the headers
//!   which it reads. The calls that take a cursor read leaves, counted.
//! - [`read_tree`] reads one value with all that is in it, as a [`Tree`].
//! - [`OctetString`], [`Oid`] and [`BitString`] are leaves that are kept.
//! - [`Writer`] writes values in DER.
//! - What holds of every spelling is said by functions that do nothing, as [`strict_is_loose`].
#![tactic(auto)]

mod arcs;
mod bits;
mod boolean;
mod cursor;
mod error;
mod flat;
mod header;
mod held;
mod index;
mod integer;
mod item;
mod law;
mod leaf;
mod levels;
mod mode;
mod null;
mod number;
mod octets;
mod oid;
mod part;
mod rest;
mod steps;
mod tag;
mod tree;
mod walk;
mod writer;

pub use bits::{take_bits, take_bits_counted};
pub use boolean::{take_boolean_counted, take_opt_boolean_counted};
pub use cursor::Cursor;
pub use error::DecodeError;
pub use flat::{Leaf, take_whole_pair, take_whole_primitive};
pub use held::take_rest_counted;
pub use index::read_tree;
pub use integer::take_integer_if_counted;
pub use item::Item;
pub use law::{
    alone_is, at_most_one_value, equal_values_are_the_same, levels_are_read_in_turn,
    strict_is_loose, value_at_is, whole_is_its_parts, whole_is_the_value, written_in_turn,
    written_is_read,
};
pub use leaf::{BitString, OctetString, Oid};
pub use mode::Mode;
pub use null::take_opt_null_counted;
pub use number::{take_integer_counted, take_u64_counted};
pub use octets::{take_octets, take_octets_counted};
pub use oid::{lawful_oid_contents, take_oid, take_oid_counted, take_oid_if_counted};
pub use rest::pass_rest_counted;
pub use rpki_common::OutOfMemory;
pub use steps::Steps;
pub use tag::Tag;
pub use tree::{Children, Node, Tree};
pub use writer::{Captured, Writer};
