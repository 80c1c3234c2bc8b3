//! Why a message was not read or written.

ghost use Rattle.std.specs.Prelude.{◌≡◌, ◌↔◌, true};
ghost use Rattle.rpki_xmltext.specs.declared.cause.Cause.{Cause};

/// Why a message was not read or written.
#[derive(Clone, Copy, Debug, PartialEq, Eq)]
pub enum Cause {
    /// The octets are not the message that was asked for.
    Malformed,
    /// The source failed.
    Read,
    /// The sink failed.
    Write,
    /// The text has more than 2^31 octets.
    TooLong,
    /// Memory ran out.
    OutOfMemory,
}

/// `==` holds exactly between causes that are the same.
pub fn equal_causes_are_the_same()
    ensures { (a b : Cause) → (⟦<Cause as PartialEq>⟧.eq a b ≡ true) ↔ (a ≡ b) }
{}
