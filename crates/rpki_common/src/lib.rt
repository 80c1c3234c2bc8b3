//! What every crate of this tree answers, and what every contract says of answers.
//!
//! - [`OutOfMemory`]: the one answer that no clause explains. A call that takes memory may give it at any time.
//! - [`Text`] and [`Sequence`]: fields of public values. In a clause such a field is its content, a list of octets or of
//!   items, so that `≡` between two values says that they have the same content.
//! - The words `Rose` and `HasCause` (specs/Causes.antt): when a call may answer that something outside failed.
//! - The words for lists of items of which each says what it is (specs/Items.antt): exactly one, at most one, the last,
//!   no others.
//!
//! Every crate stands on this one, so it stays small and changes rarely.
#![tactic(auto)]

mod memory;
mod sequence;
mod text;

pub use memory::OutOfMemory;
pub use sequence::Sequence;
pub use text::Text;
