//! Sets of AS numbers and of IP addresses, read from texts and printed.
//!
//! - [`AsBlocks`], [`Ipv4Blocks`] and [`Ipv6Blocks`] are one type, [`Blocks`], at three kinds of [`Numbers`]. In a clause
//!   such a set is the list of its maximal runs in ascending order; each set has one such list, so `≡` says that the
//!   numbers are the same ([`equal_sets_have_equal_runs`]).
//! - A text means the union of its items, whatever way it is spelled. What a set prints is the one text that is made of
//!   its maximal runs, and is read as the same set ([`Blocks::text_is_read_back`], [`printed_set_is_read`]). Its octets and
//!   its length are known ([`printed_sets_are_plain`], [`printed_sets_are_short`]).
//! - Reading takes time in proportion to n log n of the number of items, `contains` and `==` to the number of runs; the code shows
//!   it, and no clause says it.
//! - [`ResourceSet`] holds one set of each kind.
#![tactic(auto)]

mod as_numbers;
mod blocks;
mod error;
mod includes;
mod ipv4;
mod ipv6;
mod item;
mod laws;
mod numbers;
mod prefix;
mod reading;
mod resource_set;
mod run;
mod texts;
mod union;
mod writing;

pub use as_numbers::{AsBlocks, AsNumbers};
pub use blocks::Blocks;
pub use error::{BlocksError, equal_errors_are_the_same};
pub use ipv4::{Ipv4Addresses, Ipv4Blocks};
pub use ipv6::{Ipv6Addresses, Ipv6Blocks};
pub use laws::{
    equal_sets_have_equal_runs, ipv4_number_is, ipv6_number_is, prefix_length_is,
    printed_set_is_read, printed_sets_are_plain, printed_sets_are_short, read_sets_are_sets,
    union_has_the_numbers,
};
pub use numbers::Numbers;
pub use resource_set::ResourceSet;
pub use rpki_common::OutOfMemory;
pub use run::Run;
