//! Refusals that say nothing but that they are one.

ghost use Rattle.std.specs.Prelude.{Some, codes};

use std::fmt;

/// The moment lies outside of the validity.
#[derive(Clone, Copy, Debug, PartialEq, Eq)]
pub struct VerificationError;

/// The signature is none of the message under the key.
#[derive(Clone, Copy, Debug, PartialEq, Eq)]
pub struct SignatureVerificationError;

/// A signer of the toy scheme was told to fail, or has no number left. It prints as `toy fault`.
#[derive(Clone, Copy, Debug, PartialEq, Eq)]
pub struct ToyFault;

impl fmt::Display for ToyFault {
    ghost output = { λ f. Some (codes "toy fault") };

    fn fmt<W: fmt::Write>(&self, f: &mut fmt::Formatter<W>) -> fmt::Result {
        f.write_str("toy fault")
    }
}
