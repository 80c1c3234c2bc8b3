//! Times.

ghost use Rattle.std.specs.Prelude.{◌≡◌, ◌↔◌, ◌<◌, ◌≤◌, ◌++◌, IsSome, IfSome, IfOk, OnOk, OnErr, string_bytes};
ghost use Rattle.rpki_der.specs.Takes.{Takes};
ghost use Rattle.rpki_der.specs.Whole.{whole_of};
ghost use Rattle.rpki_der.specs.Ticks.{TakesCounted};
ghost use Rattle.rpki_base.specs.Civil.{IsMoment, civil_at};
ghost use Rattle.rpki_base.specs.Time as spec;
ghost use Rattle.rpki_base.specs.TimeText.{der_time, rfc3339_text};
ghost use Rattle.rpki_base.specs.Rfc3339.{rfc3339_time};

use crate::civil::Civil;
use crate::digits::{ended, four_digits, past, two_digits};
use crate::rfc3339::rfc3339_time;
use crate::time_text::{generalized_text, is_utc_year, rfc3339_text};
use rpki_der::{
    Cursor, DecodeError, Leaf, Mode, OutOfMemory, Steps, Tag, Writer, take_whole_primitive,
};
use std::alloc::Global;
use std::marker::{Brand, Model};
use std::sync::ledger::{Blank, Ledger};

/// A time in whole seconds (RFC 5280, 4.1.2.5), in the years 0 to 9999.
///
/// In a clause it is the seconds since 1970-01-01T00:00:00Z, leap seconds not counted.
#[derive(Clone, Copy, Debug, PartialEq, Eq, PartialOrd, Ord, Hash)]
pub struct Time {
    seconds: i64,
}

impl Model for Time {
    ghost use Rattle.std.specs.Prelude.{ℤ};
    ghost use Rattle.rpki_base.specs.Civil.{IsMoment};

    ghost Value = { ℤ };

    ghost view = { λ t. t.seconds };

    ghost invariant = { λ t. IsMoment t.seconds };

    ghost inverse = { λ s. record { seconds = s } };
}

impl Time {
    /// The time at so many seconds since 1970; None exactly outside of the years 0 to 9999, which begin at -62167219200 and
    /// end with 253402300799.
    pub fn new(seconds: i64) -> Option<Time>
        ensures some { IsSome result ↔ IsMoment seconds }
        ensures value { IfSome result (λ t. t ≡ seconds) }
    {
        if seconds < -62_167_219_200 || seconds > 253_402_300_799 {
            return None;
        }
        Some(Time { seconds })
    }

    /// The seconds since 1970.
    pub fn seconds(&self) -> i64
        ensures value { result ≡ self.now }
        ensures range { IsMoment result }
    {
        self.seconds
    }

    /// The time that a text says in the form of RFC 3339 (5.6): `YYYY-MM-DDTHH:MM:SS` of a date that exists and a clock to
    /// 23:59:59, then `.` and digits, which are cut off, or none, and then `Z`, `+HH:MM` or `-HH:MM` to 23:59. None where
    /// the text has another form, or where the time is outside of the years 0 to 9999.
    pub fn from_rfc3339(text: &str) -> Option<Time>
        ensures { result ≡ rfc3339_time text.now }
    {
        rfc3339_time(text.as_bytes())
    }

    /// The time as `YYYY-MM-DDTHH:MM:SSZ`.
    pub fn to_rfc3339(&self, alloc: Global) -> Result<String, OutOfMemory>
        ensures { IfOk result (λ s. string_bytes s ≡ rfc3339_text (civil_at self.now)) }
    {
        let civil = Civil::at(self.seconds());
        let digits = rfc3339_text(&civil);
        let Ok(text) = str::from_utf8(&digits) else {
            unreachable!()
        };
        Ok(String::from_str(alloc, text)?)
    }

    /// Appends the time as a UTCTime from 1950 to 2049 and as a GeneralizedTime otherwise (RFC 5280, 4.1.2.5). After a
    /// refusal nothing is appended.
    pub fn to_der_varied(&self, out: &mut Writer) -> Result<(), OutOfMemory>
        ensures ok { OnOk result (out.new ≡ out.old ++ der_time self.now) }
        ensures err { OnErr result (out.new ≡ out.old) }
    {
        let civil = Civil::at(self.seconds());
        let text = generalized_text(&civil);
        if is_utc_year(civil.year) {
            out.primitive(Tag::UTC_TIME, &text[2..])
        } else {
            out.primitive(Tag::GENERALIZED_TIME, &text)
        }
    }

    /// The time that the octets are, in the form that `take_from` reads, with nothing behind it; None where they are none.
    pub fn take(mode: Mode, octets: &[u8]) -> Option<Time>
        ensures { result ≡ whole_of spec.time mode octets.now }
    {
        match take_whole_primitive(mode, octets, Tag::UTC_TIME) {
            Some(text) => utc_time(text),
            None => {
                let text = take_whole_primitive(mode, octets, Tag::GENERALIZED_TIME)?;
                generalized_time(text)
            }
        }
    }

    /// The time that stands next, as `take_from` reads it. It ticks each time it looks at a header.
    pub fn take_from_counted<L: Ledger>(
        cursor: &mut Cursor<'_>,
        steps: &mut Steps<L>,
    ) -> Result<Time, DecodeError>
        ensures { TakesCounted 1 spec.time (λ x. x)
            cursor.old cursor.new steps.old steps.new result }
    {
        match cursor.take_primitive_counted(Tag::UTC_TIME, steps) {
            Ok(text) => match utc_time(text) {
                Some(time) => Ok(time),
                None => Err(DecodeError::Malformed),
            },
            Err(DecodeError::OutOfMemory) => Err(DecodeError::OutOfMemory),
            Err(DecodeError::Malformed) => {
                let text = cursor.take_primitive_counted(Tag::GENERALIZED_TIME, steps)?;
                match generalized_time(text) {
                    Some(time) => Ok(time),
                    None => Err(DecodeError::Malformed),
                }
            }
        }
    }

    fn take_from_within<L: Ledger>(
        cursor: &mut Cursor<'_>,
        blank: Blank,
    ) -> Result<Time, DecodeError>
        requires name { blank.name ≡ L.name }
        requires parts { blank.parts ≡ L.parts }
        requires some { 0 < blank.parts }
        ensures { Takes spec.time (λ x. x) cursor.old cursor.new result }
    {
        let mut steps = Steps::<L>::new(blank);
        Time::take_from_counted(cursor, &mut steps)
    }

    /// The time that stands next (RFC 5280, 4.1.2.5): a UTCTime `YYMMDDHHMMSSZ` or a GeneralizedTime `YYYYMMDDHHMMSSZ`,
    /// primitive in both modes, of a date that exists and a clock from 00:00:00 to 23:59:59.
    pub fn take_from(cursor: &mut Cursor<'_>) -> Result<Time, DecodeError>
        ensures { Takes spec.time (λ x. x) cursor.old cursor.new result }
    {
        Time::take_from_within::<Brand>(cursor, Blank::new(1))
    }
}

// The time that MMDDHHMMSSZ is in a year.
fn in_year(year: u16, text: &[u8]) -> Option<Time>
    ensures { result ≡ spec.in_year year text.now }
{
    let (month, behind) = two_digits(text)?;
    let (day, behind) = two_digits(behind)?;
    let (hour, behind) = two_digits(behind)?;
    let (minute, behind) = two_digits(behind)?;
    let (second, behind) = two_digits(behind)?;
    let behind = past(b'Z', behind)?;
    ended(behind)?;
    let civil = Civil {
        year,
        month,
        day,
        hour,
        minute,
        second,
    };
    let seconds = civil.moment()?;
    Some(Time { seconds })
}

// The time that the contents of a UTCTime are.
fn utc_time(text: &[u8]) -> Option<Time>
    ensures { result ≡ spec.utc_time text.now }
{
    let (year, behind) = two_digits(text)?;
    let century = if year < 50 { 2000 } else { 1900 };
    in_year(century + u16::from(year), behind)
}

// The time that the contents of a GeneralizedTime are.
fn generalized_time(text: &[u8]) -> Option<Time>
    ensures { result ≡ spec.generalized_time text.now }
{
    let (year, behind) = four_digits(text)?;
    in_year(year, behind)
}

// The time that a primitive value is.
pub(crate) fn time_of(leaf: &Leaf<'_>) -> Option<Time>
    ensures { result ≡ spec.leaf_time leaf.now }
{
    if leaf.tag.as_slice() == Tag::UTC_TIME.as_slice() {
        utc_time(leaf.content)
    } else if leaf.tag.as_slice() == Tag::GENERALIZED_TIME.as_slice() {
        generalized_time(leaf.content)
    } else {
        None
    }
}
