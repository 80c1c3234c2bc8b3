//! Times in the form of RFC 3339.

ghost use Rattle.std.specs.Prelude.{◌≡◌, ◌<◌, IfSome, ℤ, pos};
ghost use Rattle.std.specs.Option.{option_copied, option_map};
ghost use Rattle.jiff_core.specs.Calendar.{IsWithin};
ghost use Rattle.rpki_base.specs.Rfc3339 as spec;

use crate::civil::Civil;
use crate::digits::{ended, four_digits, past, two_digits};
use crate::time::Time;

// The text behind its leading digits.
fn past_digits(text: &[u8]) -> &[u8]
    ensures { result.now ≡ spec.past_digits text.now }
{
    for (i, character) in text.iter().enumerate() {
        if !character.is_ascii_digit() {
            return &text[i..];
        }
    }
    &[]
}

// The text behind one digit or more.
fn past_some_digits(text: &[u8]) -> Option<&[u8]>
    ensures { option_copied result ≡ spec.past_some_digits text.now }
{
    match text {
        [first, behind @ ..] if first.is_ascii_digit() => Some(past_digits(behind)),
        _ => None,
    }
}

// The text behind a fraction, if there is one.
fn past_fraction(text: &[u8]) -> Option<&[u8]>
    ensures { option_copied result ≡ spec.past_fraction text.now }
{
    match text {
        [b'.', behind @ ..] => past_some_digits(behind),
        _ => Some(text),
    }
}

// The seconds of HH:MM, to 23:59, with nothing behind it.
fn offset_seconds(text: &[u8]) -> Option<u32>
    ensures value { result ≡ spec.offset_seconds text.now }
{
    let (hour, behind) = two_digits(text)?;
    let behind = past(b':', behind)?;
    let (minute, behind) = two_digits(behind)?;
    ended(behind)?;
    if hour <= 23 && minute <= 59 {
        Some(u32::from(hour) * 3600 + u32::from(minute) * 60)
    } else {
        None
    }
}

// This number of seconds, ahead.
fn ahead(seconds: Option<u32>) -> Option<i64>
    ensures value { result ≡ option_map pos seconds }
    ensures small { IfSome result (IsWithin 4294967296) }
{
    match seconds {
        Some(seconds) => Some(i64::from(seconds)),
        None => None,
    }
}

// This number of seconds, behind.
fn behind(seconds: Option<u32>) -> Option<i64>
    ensures value { result ≡ option_map spec.minus seconds }
    ensures small { IfSome result (IsWithin 4294967296) }
{
    match seconds {
        Some(seconds) => Some(-i64::from(seconds)),
        None => None,
    }
}

// How many seconds the local time is ahead of UTC.
fn offset(text: &[u8]) -> Option<i64>
    ensures value { result ≡ spec.offset text.now }
    ensures small { IfSome result (IsWithin 4294967296) }
{
    match text {
        [b'Z', rest @ ..] => {
            ended(rest)?;
            Some(0)
        }
        [b'+', rest @ ..] => ahead(offset_seconds(rest)),
        [b'-', rest @ ..] => behind(offset_seconds(rest)),
        _ => None,
    }
}

// The time that is in the years 0 to 9999, of a local time so many seconds ahead of UTC.
fn in_range(seconds: i64) -> Option<Time>
    ensures { result ≡ spec.in_range seconds }
{
    Time::new(seconds)
}

/// The time that the octets of the text say.
pub(crate) fn rfc3339_time(text: &[u8]) -> Option<Time>
    ensures { result ≡ spec.rfc3339_time text.now }
{
    let (year, rest) = four_digits(text)?;
    let rest = past(b'-', rest)?;
    let (month, rest) = two_digits(rest)?;
    let rest = past(b'-', rest)?;
    let (day, rest) = two_digits(rest)?;
    let rest = past(b'T', rest)?;
    let (hour, rest) = two_digits(rest)?;
    let rest = past(b':', rest)?;
    let (minute, rest) = two_digits(rest)?;
    let rest = past(b':', rest)?;
    let (second, rest) = two_digits(rest)?;
    let zone = past_fraction(rest)?;
    let ahead = offset(zone)?;
    let civil = Civil {
        year,
        month,
        day,
        hour,
        minute,
        second,
    };
    let local = civil.moment()?;
    in_range(local - ahead)
}
