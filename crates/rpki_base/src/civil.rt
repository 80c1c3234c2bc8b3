//! Dates with a time of day, and the seconds since 1970 at which they are.

ghost use Rattle.std.specs.Prelude.{◌≡◌, ◌+◌, ◌*◌, ◌<◌, ◌^◌, pos, ◌+ℤ◌, ◌*ℤ◌, ◌≤ℤ◌};
ghost use Rattle.jiff_core.specs.Date.{epoch_day};
ghost use Rattle.rpki_base.specs.Civil.{IsMoment};

use jiff_core::civil::Date;

/// A date with a time of day.
#[derive(Clone, Copy, Debug, PartialEq, Eq)]
pub(crate) struct Civil {
    pub(crate) year: u16,
    pub(crate) month: u8,
    pub(crate) day: u8,
    pub(crate) hour: u8,
    pub(crate) minute: u8,
    pub(crate) second: u8,
}

// Seconds from the first date that the library has, -9999-01-01, to 1970.
const BEFORE_EPOCH: i64 = 4_371_587 * 86400;

// Seconds since 1970 of this date, and the second of its day.
fn seconds_at(date: Date, second: u32) -> i64
    requires { second < 2 ^ 20 }
    ensures { result ≡ epoch_day date *ℤ pos 86400 +ℤ pos second }
{
    let total = u64::from(date.days_since_min()) * 86400 + u64::from(second);
    total as i64 - BEFORE_EPOCH
}

impl Civil {
    ghost use Rattle.std.specs.Prelude.{◌↔◌, IsTrue, IsSome, IfSome};
    ghost use Rattle.rpki_base.specs.Civil.{is_date, is_clock, moment, civil_at};
    ghost use Rattle.jiff_core.specs.Calendar.{days_from_civil};
    ghost use Rattle.rpki_base.specs.TimeText.{FitsDigits};

    // The date, where the calendar has it.
    fn date(self) -> Option<Date>
        ensures exists { IsSome result ↔ IsTrue (is_date self) }
        ensures value { IfSome result (λ d. epoch_day d
            ≡ days_from_civil (pos self.year) self.month self.day) }
        ensures year { IfSome result (λ d. pos 0 ≤ℤ d.year) }
    {
        if self.year > 9999 || self.month > 12 || self.day > 31 {
            return None;
        }
        Date::new(self.year as i16, self.month as i8, self.day as i8).ok()
    }

    // Whether the clock shows this time of day.
    fn has_clock(self) -> bool
        ensures { result ≡ is_clock self }
    {
        self.hour <= 23 && self.minute <= 59 && self.second <= 59
    }

    // The second of the day.
    fn second_of_day(self) -> u32
        ensures { result ≡ self.hour * 3600 + self.minute * 60 + self.second }
    {
        u32::from(self.hour) * 3600 + u32::from(self.minute) * 60 + u32::from(self.second)
    }

    /// The seconds since 1970, where there is this date and this time of day.
    pub(crate) fn moment(self) -> Option<i64>
        ensures value { result ≡ moment self }
        ensures range { IfSome result IsMoment }
    {
        if !self.has_clock() {
            return None;
        }
        let date = self.date()?;
        Some(seconds_at(date, self.second_of_day()))
    }

    /// The date and the time of day at so many seconds since 1970.
    pub(crate) fn at(seconds: i64) -> Civil
        requires { IsMoment seconds }
        ensures value { result ≡ civil_at seconds }
        ensures digits { FitsDigits result }
    {
        let (date, second) = day_at(seconds);
        Civil {
            year: date.year as u16,
            month: date.month,
            day: date.day,
            hour: (second / 3600) as u8,
            minute: (second / 60 % 60) as u8,
            second: (second % 60) as u8,
        }
    }
}

// The date and the second of the day at so many seconds since 1970.
fn day_at(seconds: i64) -> (Date, u32)
    requires { IsMoment seconds }
    ensures whole { epoch_day result.0 *ℤ pos 86400 +ℤ pos result.1 ≡ seconds }
    ensures second { result.1 < 86400 }
    ensures year { pos 0 ≤ℤ result.0.year }
{
    let total = (seconds + BEFORE_EPOCH) as u64;
    let date = Date::from_days_since_min((total / 86400) as u32);
    (date, (total % 86400) as u32)
}
