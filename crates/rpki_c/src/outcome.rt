//! What is told of a call, beside the octets of its result.

ghost use Rattle.std.specs.Prelude.{◌≡◌, ◌≤◌, length};
ghost use Rattle.rpki_c.specs.HandingOver as spec;

use rpki_base::Time;
use rpki_ca::Refusal;
use rpki_external::{KeysRefusal, Receipt};

/// The status of a result.
pub const OK: i32 = 0;

/// The status where the buffer is too small for the result.
pub const NO_ROOM: i32 = 16;

/// The status where the query names an object of which nothing is known.
pub const UNKNOWN_OBJECT: i32 = 17;

/// Why a call gives no result.
#[derive(Clone, Copy, Debug)]
pub enum CallRefusal {
    /// A refusal that the programs have too, under their status and name.
    General(KeysRefusal),
    /// A query names an object of which nothing is known.
    UnknownObject,
}

/// How a call ended. Each call sets every field.
#[repr(C)]
#[derive(Clone, Copy, Debug)]
pub struct Outcome {
    /// What the call returned: 0 where there is a result, else why there is none, as the programs have it; or 16 or 17.
    pub status: i32,
    /// With `Validation`, the number of the check that fails, from 1 to 14; else 0.
    pub check: i32,
    /// How many octets the result has: with status 0 those at the front of the buffer, with 16 those that are needed; else 0.
    pub written: usize,
    /// Of a receipt, the place of the key that issued the message's certificate, from 0; else 0.
    pub place: usize,
    /// Whether there is a signing time: 1, or 0.
    pub has_signing_time: i32,
    /// Of a receipt and with `Replayed`, when the message says that it was signed, in seconds since 1970; else 0.
    pub signing_time: i64,
    /// With `Replayed`, the last time that was handed in, in seconds since 1970; else 0.
    pub last_time: i64,
    /// The name of the status as the programs write it, and zeros behind it.
    pub name: [u8; 64],
}

impl Outcome {
    // A status and its name, and nothing else.
    fn bare(status: u8, name: &[u8]) -> Outcome
        requires { length name.now ≤ 64 }
        ensures { result ≡ spec.bare status name.now }
    {
        let mut padded = [0u8; 64];
        padded[..name.len()].copy_from_slice(name);
        Outcome {
            status: status as i32,
            check: 0,
            written: 0,
            place: 0,
            has_signing_time: 0,
            signing_time: 0,
            last_time: 0,
            name: padded,
        }
    }

    // The same with a moment, if there is one.
    fn signed_at(self, time: Option<Time>) -> Outcome
        ensures { result ≡ spec.signed_at time self }
    {
        match time {
            Some(time) => Outcome {
                has_signing_time: 1,
                signing_time: time.seconds(),
                ..self
            },
            None => self,
        }
    }

    /// There is a result of so many octets.
    pub(crate) fn done(count: usize) -> Outcome
        ensures { result ≡ spec.done count }
    {
        Outcome {
            written: count,
            ..Outcome::bare(0, b"Ok")
        }
    }

    /// There is a receipt, whose text has so many octets.
    pub(crate) fn received(count: usize, receipt: &Receipt) -> Outcome
        ensures { result ≡ spec.received count receipt.now }
    {
        let placed = Outcome {
            place: receipt.place,
            ..Outcome::done(count)
        };
        placed.signed_at(receipt.signing_time)
    }

    /// There is a result of so many octets, for which there is no room.
    pub(crate) fn lacking(count: usize) -> Outcome
        ensures { result ≡ spec.lacking count }
    {
        Outcome {
            written: count,
            ..Outcome::bare(16, b"NoRoom")
        }
    }

    // The same with the number of a check.
    fn with_check(self, check: u8) -> Outcome
        ensures { result ≡ spec.with_check check self }
    {
        Outcome {
            check: check as i32,
            ..self
        }
    }

    // The same with the last time that was handed in, and the message's.
    fn with_times(self, last: Time, seen: Time) -> Outcome
        ensures { result ≡ spec.with_times last seen self }
    {
        let after = Outcome {
            last_time: last.seconds(),
            ..self
        };
        after.signed_at(Some(seen))
    }

    /// There is none, for this cause.
    pub(crate) fn refused(refusal: KeysRefusal) -> Outcome
        ensures { result ≡ spec.refused refusal }
    {
        let line = refusal.line();
        let bare = Outcome::bare(refusal.status(), without_end(line.as_str().as_bytes()));
        match &refusal {
            KeysRefusal::General(Refusal::Validation(check)) => bare.with_check(*check),
            KeysRefusal::Replayed { last, seen } => bare.with_times(*last, *seen),
            _ => bare,
        }
    }

    /// There is none, for this cause, which other calls don't have.
    pub(crate) fn refused_call(refusal: CallRefusal) -> Outcome
        ensures { result ≡ spec.refused_call refusal }
    {
        match refusal {
            CallRefusal::General(refusal) => Outcome::refused(refusal),
            CallRefusal::UnknownObject => Outcome::bare(17, b"UnknownObject"),
        }
    }
}

impl From<KeysRefusal> for CallRefusal {
    ghost use Rattle.rpki_c.specs.declared.outcome.CallRefusal.TheVariants as calls;

    ghost from_gives = { λ refusal e. e ≡ calls.General refusal };

    fn from(refusal: KeysRefusal) -> CallRefusal {
        CallRefusal::General(refusal)
    }
}

// A line without its last octet, which is its line feed.
fn without_end(line: &[u8]) -> &[u8]
    ensures { result.now ≡ spec.without_end line.now }
{
    match line {
        [name @ .., _] => name,
        _ => line,
    }
}
