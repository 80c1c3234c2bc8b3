//! Signers, and a signature scheme without any security, a toy for tests and demonstrations.
//!
//! - [`Signer`] holds keys and signs under them; [`random_serial`], [`key_within_limit`] and its like ask one.
//! - [`ToyScheme`] says which signatures hold: the SHA-256 of the key's bits and the message. [`ToyVerifier`] answers that, and
//!   [`ToySigner`] signs so.
//! - Under [`AnyScheme`] each signature holds; [`AnyVerifier`] answers that, and [`LongSigner`] gives signatures of any length.
#![tactic(auto)]

mod any;
mod errors;
mod limits;
mod long_signer;
mod serials;
mod signer;
mod toy;
mod toy_signer;

pub use any::{AnyScheme, AnyVerifier};
pub use errors::{CallError, KeyError, MakeError, SigningError, equal_errors_are_the_same};
pub use limits::{is_within_limit, key_within_limit, sign_once_within_limit, sign_within_limit};
pub use long_signer::LongSigner;
pub use serials::random_serial;
pub use signer::Signer;
pub use toy::{ToyScheme, ToyVerifier};
pub use toy_signer::{ToyKey, ToySigner, equal_toy_keys_are_the_same};
