//! What is answered where something is refused.

ghost use Rattle.std.specs.Prelude.{◌≡◌, ◌≤◌, ◌++◌, ◌∷◌, [], Some, length};
ghost use Rattle.rpki_external.specs.KeysRefusal.{keys_name_of, keys_status_of};
ghost use Rattle.rpki_external.specs.declared.keys_refusal.KeysRefusal.TheVariants as variant;

use arrayvec::ArrayString;
use itoa::Buffer;
use rpki_base::Time;
use rpki_ca::Refusal;
use rpki_common::OutOfMemory;
use std::fmt;

/// Why the program doesn't do what it was asked for. Each has an exit status, and prints as its name, which is the line that is written.
#[derive(Clone, Copy, Debug, PartialEq, Eq)]
pub enum KeysRefusal {
    /// A refusal that other programs have too, under their status and name.
    General(Refusal),
    /// The answers are to other questions.
    OtherQuestions,
    /// The signature of a certificate request doesn't hold under its own key.
    Signature,
    /// A last time was handed in, and the message doesn't say when it was signed.
    NoTime,
    /// The message was signed at `seen`, which isn't later than the last time that was handed in.
    Replayed {
        /// The last time.
        last: Time,
        /// The message's.
        seen: Time,
    },
}

impl KeysRefusal {
    /// The exit status, from 2 to 12, or 14 or 15.
    pub fn status(&self) -> u8
        ensures { result ≡ keys_status_of self.now }
    {
        match self {
            KeysRefusal::General(refusal) => refusal.status(),
            KeysRefusal::Signature => 6,
            KeysRefusal::OtherQuestions => 14,
            KeysRefusal::NoTime => 15,
            KeysRefusal::Replayed { .. } => 15,
        }
    }

    /// The line that is written, with its line feed. It takes no memory.
    pub fn line(&self) -> ArrayString<64>
        ensures { result.bytes ≡ keys_name_of self.now ++ 10 ∷ [] }
    {
        match self {
            KeysRefusal::General(refusal) => refusal.line(),
            KeysRefusal::Signature => word_line("Signature"),
            KeysRefusal::OtherQuestions => word_line("OtherQuestions"),
            KeysRefusal::NoTime => word_line("NoTime"),
            KeysRefusal::Replayed { last, seen } => replayed_line(*last, *seen),
        }
    }
}

// A word and a line feed.
fn word_line(word: &str) -> ArrayString<64>
    requires { length word.now ≤ 14 }
    ensures { result.bytes ≡ word.now ++ 10 ∷ [] }
{
    let mut line = ArrayString::new();
    line.push_str(word);
    line.push_str("\n");
    line
}

// The line of a message that isn't signed later than the last one.
fn replayed_line(last: Time, seen: Time) -> ArrayString<64>
    ensures { result.bytes ≡ keys_name_of (variant.Replayed last seen) ++ 10 ∷ [] }
{
    let mut line = ArrayString::new();
    line.push_str("Replayed ");
    line.push_str(Buffer::new().format(last.seconds()));
    line.push_str(" ");
    line.push_str(Buffer::new().format(seen.seconds()));
    line.push_str("\n");
    line
}

impl fmt::Display for KeysRefusal {
    ghost output = { λ r. Some (keys_name_of r) };

    fn fmt<W: fmt::Write>(&self, f: &mut fmt::Formatter<W>) -> fmt::Result {
        match self {
            KeysRefusal::General(refusal) => refusal.fmt(f),
            KeysRefusal::Signature => f.write_str("Signature"),
            KeysRefusal::OtherQuestions => f.write_str("OtherQuestions"),
            KeysRefusal::NoTime => f.write_str("NoTime"),
            KeysRefusal::Replayed { last, seen } => {
                write!(f, "Replayed {} {}", last.seconds(), seen.seconds())
            }
        }
    }
}

impl From<OutOfMemory> for KeysRefusal {
    ghost use Rattle.rpki_ca.specs.declared.refusals.Refusal.TheVariants as refusals;

    ghost from_gives = { λ _ e. e ≡ variant.General refusals.OutOfMemory };

    fn from(_: OutOfMemory) -> KeysRefusal {
        KeysRefusal::General(Refusal::OutOfMemory)
    }
}

impl From<Refusal> for KeysRefusal {
    ghost from_gives = { λ refusal e. e ≡ variant.General refusal };

    fn from(refusal: Refusal) -> KeysRefusal {
        KeysRefusal::General(refusal)
    }
}
