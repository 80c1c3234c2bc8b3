//! Why a signer, or a call that asks one, answers nothing.

ghost use Rattle.std.specs.Prelude.{◌≡◌, ◌↔◌, true};
ghost use Rattle.rpki_signer.specs.Errors.{call_text, key_text, signing_text, make_text};
ghost use Rattle.rpki_signer.specs.Errors.{key_error_of, signing_error_of, signing_error_of_key, make_error_of};
ghost use Rattle.rpki_signer.specs.declared.errors.CallError.{CallError};
ghost use Rattle.rpki_signer.specs.declared.errors.KeyError.{KeyError};
ghost use Rattle.rpki_signer.specs.declared.errors.SigningError.{SigningError};
ghost use Rattle.rpki_signer.specs.declared.errors.MakeError.{MakeError};
ghost use Rattle.rpki_signer.specs.declared.errors.CallError.TheVariants as call;
ghost use Rattle.rpki_signer.specs.declared.errors.KeyError.TheVariants as key;
ghost use Rattle.rpki_signer.specs.declared.errors.SigningError.TheVariants as signing;
ghost use Rattle.rpki_signer.specs.declared.errors.MakeError.TheVariants as make;

use rpki_common::OutOfMemory;
use std::fmt;
use std::fmt::Display;

/// Why a call that asks for no key failed. What the signer says prints as its own text.
#[derive(Debug, PartialEq, Eq, Drop)]
pub enum CallError<E> {
    /// The signer failed, and its count of faults rose.
    Signer(E),
    /// Memory ran out.
    OutOfMemory,
}

/// Why a call that asks for a key failed.
#[derive(Debug, PartialEq, Eq, Drop)]
pub enum KeyError<E> {
    /// The signer holds no key with this identifier.
    KeyNotFound,
    /// The signer failed, and its count of faults rose.
    Signer(E),
    /// Memory ran out.
    OutOfMemory,
}

/// Why nothing was signed under a key.
#[derive(Debug, PartialEq, Eq, Drop)]
pub enum SigningError<E> {
    /// The signer holds no key with this identifier.
    KeyNotFound,
    /// The key has another format than the algorithm needs.
    IncompatibleKey,
    /// The signer failed, and its count of faults rose.
    Signer(E),
    /// Memory ran out.
    OutOfMemory,
}

/// Why nothing was made that a signer signs.
#[derive(Debug, PartialEq, Eq, Drop)]
pub enum MakeError<E> {
    /// The signer gave a key or a signature of more than 2^16 octets, and its count of these rose.
    TooLong,
    /// The signer refused. What is inside is never `OutOfMemory`.
    Signing(SigningError<E>),
    /// Memory ran out.
    OutOfMemory,
}

/// `==` holds exactly between errors that are the same, where it does so between what the signer says.
pub fn equal_errors_are_the_same<E: PartialEq>()
    ensures call { ((x y : E) → (E.eq x y ≡ true) ↔ (x ≡ y)) → (a b : CallError E)
        → (⟦<CallError<E> as PartialEq>⟧.eq a b ≡ true) ↔ (a ≡ b) }
    ensures key { ((x y : E) → (E.eq x y ≡ true) ↔ (x ≡ y)) → (a b : KeyError E)
        → (⟦<KeyError<E> as PartialEq>⟧.eq a b ≡ true) ↔ (a ≡ b) }
    ensures signing { ((x y : E) → (E.eq x y ≡ true) ↔ (x ≡ y)) → (a b : SigningError E)
        → (⟦<SigningError<E> as PartialEq>⟧.eq a b ≡ true) ↔ (a ≡ b) }
    ensures make { ((x y : E) → (E.eq x y ≡ true) ↔ (x ≡ y)) → (a b : MakeError E)
        → (⟦<MakeError<E> as PartialEq>⟧.eq a b ≡ true) ↔ (a ≡ b) }
{}

impl<E> From<OutOfMemory> for CallError<E> {
    ghost from_gives = { λ _ e. e ≡ call.OutOfMemory };

    fn from(_: OutOfMemory) -> CallError<E> {
        CallError::OutOfMemory
    }
}

impl<E> From<OutOfMemory> for KeyError<E> {
    ghost from_gives = { λ _ e. e ≡ key.OutOfMemory };

    fn from(_: OutOfMemory) -> KeyError<E> {
        KeyError::OutOfMemory
    }
}

impl<E> From<OutOfMemory> for SigningError<E> {
    ghost from_gives = { λ _ e. e ≡ signing.OutOfMemory };

    fn from(_: OutOfMemory) -> SigningError<E> {
        SigningError::OutOfMemory
    }
}

impl<E> From<OutOfMemory> for MakeError<E> {
    ghost from_gives = { λ _ e. e ≡ make.OutOfMemory };

    fn from(_: OutOfMemory) -> MakeError<E> {
        MakeError::OutOfMemory
    }
}

impl<E> From<CallError<E>> for KeyError<E> {
    ghost from_gives = { λ error e. e ≡ key_error_of error };

    fn from(error: CallError<E>) -> KeyError<E> {
        match error {
            CallError::Signer(error) => KeyError::Signer(error),
            CallError::OutOfMemory => KeyError::OutOfMemory,
        }
    }
}

impl<E> From<CallError<E>> for SigningError<E> {
    ghost from_gives = { λ error e. e ≡ signing_error_of error };

    fn from(error: CallError<E>) -> SigningError<E> {
        match error {
            CallError::Signer(error) => SigningError::Signer(error),
            CallError::OutOfMemory => SigningError::OutOfMemory,
        }
    }
}

impl<E> From<KeyError<E>> for SigningError<E> {
    ghost from_gives = { λ error e. e ≡ signing_error_of_key error };

    fn from(error: KeyError<E>) -> SigningError<E> {
        match error {
            KeyError::KeyNotFound => Self::KeyNotFound,
            KeyError::Signer(error) => Self::Signer(error),
            KeyError::OutOfMemory => Self::OutOfMemory,
        }
    }
}

impl<E> From<SigningError<E>> for MakeError<E> {
    ghost from_gives = { λ error e. e ≡ make_error_of error };

    fn from(error: SigningError<E>) -> MakeError<E> {
        match error {
            SigningError::OutOfMemory => MakeError::OutOfMemory,
            SigningError::KeyNotFound => MakeError::Signing(SigningError::KeyNotFound),
            SigningError::IncompatibleKey => MakeError::Signing(SigningError::IncompatibleKey),
            SigningError::Signer(error) => MakeError::Signing(SigningError::Signer(error)),
        }
    }
}

impl<E: Drop> From<CallError<E>> for MakeError<E> {
    ghost from_gives = { λ error e. e ≡ make_error_of (signing_error_of error) };

    fn from(error: CallError<E>) -> MakeError<E> {
        MakeError::from(SigningError::from(error))
    }
}

impl<E: Drop> From<KeyError<E>> for MakeError<E> {
    ghost from_gives = { λ error e. e ≡ make_error_of (signing_error_of_key error) };

    fn from(error: KeyError<E>) -> MakeError<E> {
        MakeError::from(SigningError::from(error))
    }
}

impl<E: Display> Display for CallError<E> {
    ghost output = { λ error. call_text E.output error };

    fn fmt<W: fmt::Write>(&self, f: &mut fmt::Formatter<W>) -> fmt::Result {
        match self {
            CallError::Signer(error) => write!(f, "{error}"),
            CallError::OutOfMemory => f.write_str("out of memory"),
        }
    }
}

impl<E: Display> Display for KeyError<E> {
    ghost output = { λ error. key_text E.output error };

    fn fmt<W: fmt::Write>(&self, f: &mut fmt::Formatter<W>) -> fmt::Result {
        match self {
            KeyError::KeyNotFound => f.write_str("key not found"),
            KeyError::Signer(error) => write!(f, "{error}"),
            KeyError::OutOfMemory => f.write_str("out of memory"),
        }
    }
}

impl<E: Display> Display for SigningError<E> {
    ghost output = { λ error. signing_text E.output error };

    fn fmt<W: fmt::Write>(&self, f: &mut fmt::Formatter<W>) -> fmt::Result {
        match self {
            SigningError::KeyNotFound => f.write_str("key not found"),
            SigningError::IncompatibleKey => f.write_str("key not compatible with algorithm"),
            SigningError::Signer(error) => write!(f, "{error}"),
            SigningError::OutOfMemory => f.write_str("out of memory"),
        }
    }
}

impl<E: Display> Display for MakeError<E> {
    ghost output = { λ error. make_text E.output error };

    fn fmt<W: fmt::Write>(&self, f: &mut fmt::Formatter<W>) -> fmt::Result {
        match self {
            MakeError::TooLong => f.write_str("key or signature too long"),
            MakeError::Signing(error) => write!(f, "{error}"),
            MakeError::OutOfMemory => f.write_str("out of memory"),
        }
    }
}
