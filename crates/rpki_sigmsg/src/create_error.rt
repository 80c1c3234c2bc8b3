//! Why no message was created.

ghost use Rattle.std.specs.Prelude.{◌≡◌, ◌↔◌, true};
ghost use Rattle.rpki_sigmsg.specs.Errors.{create_text, create_error_of};
ghost use Rattle.rpki_sigmsg.specs.declared.create_error.CreateError.{CreateError};
ghost use Rattle.rpki_sigmsg.specs.declared.create_error.CreateError.TheVariants as create;

use rpki_common::OutOfMemory;
use rpki_signer::{MakeError, SigningError};
use std::fmt;
use std::fmt::Display;

/// Why no message was created.
#[derive(Debug, PartialEq, Eq, Drop)]
pub enum CreateError<E> {
    /// The 300 seconds before or after the moment leave the years 1970 to 9999.
    Moment,
    /// The content has more than 2^31 octets; or the signer gave a key or a signature of more than 2^16, and its count of these
    /// rose.
    TooLong,
    /// The key that the signer gave for one use is the issuing key, and its count of these rose.
    KeyReused,
    /// The signer refused. What is inside is never `OutOfMemory`.
    Signing(SigningError<E>),
    /// Memory ran out.
    OutOfMemory,
}

/// `==` holds exactly between errors that are the same, where it does so between what the signer says.
pub fn equal_create_errors_are_the_same<E: PartialEq>()
    ensures { ((x y : E) → (E.eq x y ≡ true) ↔ (x ≡ y)) → (a b : CreateError E)
        → (⟦<CreateError<E> as PartialEq>⟧.eq a b ≡ true) ↔ (a ≡ b) }
{}

impl<E> From<OutOfMemory> for CreateError<E> {
    ghost from_gives = { λ _ e. e ≡ create.OutOfMemory };

    fn from(_: OutOfMemory) -> CreateError<E> {
        CreateError::OutOfMemory
    }
}

impl<E> From<MakeError<E>> for CreateError<E> {
    ghost from_gives = { λ error e. e ≡ create_error_of error };

    fn from(error: MakeError<E>) -> CreateError<E> {
        match error {
            MakeError::TooLong => CreateError::TooLong,
            MakeError::Signing(error) => CreateError::Signing(error),
            MakeError::OutOfMemory => CreateError::OutOfMemory,
        }
    }
}

impl<E: Display> Display for CreateError<E> {
    ghost output = { λ error. create_text E.output error };

    fn fmt<W: fmt::Write>(&self, f: &mut fmt::Formatter<W>) -> fmt::Result {
        match self {
            CreateError::Moment => f.write_str("the moment has no window"),
            CreateError::TooLong => f.write_str("content, key or signature too long"),
            CreateError::KeyReused => f.write_str("the one-off key is the issuing key"),
            CreateError::Signing(error) => write!(f, "{error}"),
            CreateError::OutOfMemory => f.write_str("out of memory"),
        }
    }
}
