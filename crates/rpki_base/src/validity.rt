//! Validities.

ghost use Rattle.std.specs.Prelude.{◌≡◌, ◌↔◌, ◌<◌, ◌≤ℤ◌, IsOk};
ghost use Rattle.rpki_der.specs.Takes.{Takes};
ghost use Rattle.rpki_der.specs.Ticks.{TakesCounted};
ghost use Rattle.rpki_der.specs.Whole.{whole_of};
ghost use Rattle.rpki_base.specs.Validity.{validity};

use crate::errors::VerificationError;
use crate::time::{Time, time_of};
use rpki_der::{Cursor, DecodeError, Mode, Steps, Tag, take_whole_pair};
use std::marker::{Brand, Model};
use std::sync::ledger::{Blank, Ledger};

/// The time from one second to another, both included (RFC 5280, 4.1.2.5).
///
/// In a clause it is the two, as seconds since 1970. Nothing says that the second is not before the first.
#[derive(Clone, Copy, Debug, PartialEq, Eq)]
pub struct Validity {
    not_before: Time,
    not_after: Time,
}

impl Model for Validity {
    ghost use Rattle.rpki_base.specs.Validity.{ValidityFields};

    ghost Value = { ValidityFields };

    ghost view = { λ v. record { not_before = v.not_before; not_after = v.not_after } };

    ghost inverse = { λ f. record { not_before = f.not_before; not_after = f.not_after } };
}

impl Validity {
    /// The validity from the first second `not_before` to the last second `not_after`, both included. Nothing is looked at: the last may
    /// be before the first.
    pub fn new(not_before: Time, not_after: Time) -> Validity
        ensures { result ≡ record { not_before = not_before; not_after = not_after } }
    {
        Validity {
            not_before,
            not_after,
        }
    }

    /// The first second.
    pub fn not_before(&self) -> Time
        ensures { result ≡ self.now.not_before }
    {
        self.not_before
    }

    /// The last second.
    pub fn not_after(&self) -> Time
        ensures { result ≡ self.now.not_after }
    {
        self.not_after
    }

    /// Refused exactly where the moment is before the first second or after the last.
    pub fn verify_at(&self, when: Time) -> Result<(), VerificationError>
        ensures { IsOk result ↔ ((self.now.not_before ≤ℤ when) × (when ≤ℤ self.now.not_after)) }
    {
        if when < self.not_before || self.not_after < when {
            return Err(VerificationError);
        }
        Ok(())
    }

    /// The validity that the octets are, as `take_from` reads it, with nothing behind it; None where they are none.
    pub fn take(mode: Mode, octets: &[u8]) -> Option<Validity>
        ensures { result ≡ whole_of validity mode octets.now }
    {
        let (first, second) = take_whole_pair(mode, octets)?;
        let second = second?;
        let not_before = time_of(&first)?;
        let not_after = time_of(&second)?;
        Some(Validity::new(not_before, not_after))
    }

    /// The validity that stands next, as `take_from` reads it. It ticks each time it looks at a header, and for each end mark.
    pub fn take_from_counted<L: Ledger>(
        cursor: &mut Cursor<'_>,
        steps: &mut Steps<L>,
    ) -> Result<Validity, DecodeError>
        ensures { TakesCounted 1 validity (λ x. x)
            cursor.old cursor.new steps.old steps.new result }
    {
        cursor.enter_counted(Tag::SEQUENCE, steps)?;
        let not_before = Time::take_from_counted(cursor, steps)?;
        let not_after = Time::take_from_counted(cursor, steps)?;
        cursor.leave_counted(steps)?;
        Ok(Validity::new(not_before, not_after))
    }

    fn take_from_within<L: Ledger>(
        cursor: &mut Cursor<'_>,
        blank: Blank,
    ) -> Result<Validity, DecodeError>
        requires name { blank.name ≡ L.name }
        requires parts { blank.parts ≡ L.parts }
        requires some { 0 < blank.parts }
        ensures { Takes validity (λ x. x) cursor.old cursor.new result }
    {
        let mut steps = Steps::<L>::new(blank);
        Validity::take_from_counted(cursor, &mut steps)
    }

    /// The validity that stands next (RFC 5280, 4.1.2.5): a SEQUENCE of two times, each in a form that `Time::take_from` reads. The last
    /// may be before the first.
    pub fn take_from(cursor: &mut Cursor<'_>) -> Result<Validity, DecodeError>
        ensures { Takes validity (λ x. x) cursor.old cursor.new result }
    {
        Validity::take_from_within::<Brand>(cursor, Blank::new(1))
    }
}
