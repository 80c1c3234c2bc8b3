//! A parent's core: it answers the messages of one child (RFC 6492).
//!
//! - [`Parent`] keeps the resource classes of a child. [`Parent::answer`] answers a signed message in which the child lists its classes,
//!   asks for a certificate or asks to revoke one, by a signed message that says what was done, or why nothing was.
//! - [`Class`] is a resource class: the child's resources in it, and the certificates that were issued and are not revoked.
//! - [`Issuer`] is who issues and revokes. Its clauses say what each call adds to what it issued and revoked. [`ToyIssuer`] is one whose
//!   certificates are signed in the toy scheme, without security.
//! - [`no_certificate_is_beyond_its_class`], [`revoked_keys_are_not_certified_again`], [`what_is_told_was_issued_and_not_revoked`],
//!   [`internal_errors_have_causes`]: what holds of every parent, whatever its child asks.
//! - [`serve`] is what the program `rpkiup` does, and [`program_issuer`] the issuer with which it begins.
//!
//! What is answered stands row by row in specs/Response.antt, what is sent in specs/Answering.antt, and what the program writes in
//! specs/Serving.antt.
#![tactic(auto)]

mod beginning;
mod certified;
mod class;
mod decision;
mod issuer;
mod kept;
mod law;
mod lawful;
mod limits;
mod parent;
mod preparing;
mod serving;
mod signing;
mod table;
mod toy_issuer;
mod writable;

pub use beginning::program_issuer;
pub use class::Class;
pub use issuer::{Issuer, IssuerError};
pub use law::{
    a_class_holds_one_certificate_a_key, internal_errors_have_causes,
    no_certificate_is_beyond_its_class, revoked_keys_are_not_certified_again, runs_end_for_cause,
    what_is_told_was_issued_and_not_revoked, zero_answers_all,
};
pub use parent::{AnswerError, Parent};
pub use serving::serve;
pub use toy_issuer::{ToyIssuer, ToyMade};
