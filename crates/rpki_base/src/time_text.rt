//! How dates with a time of day are written.

ghost use Rattle.std.specs.Prelude.{◌≡◌, ◌+◌, ◌/◌, ◌%◌, ◌<◌};
ghost use Rattle.rpki_base.specs.TimeText as spec;

use crate::civil::Civil;

// The first digit of a number below 100.
fn tens(number: u8) -> u8
    requires { number < 100 }
    ensures { result ≡ 48 + number / 10 }
{
    b'0' + number / 10
}

// The last digit of a number.
fn ones(number: u8) -> u8
    ensures { result ≡ 48 + number % 10 }
{
    b'0' + number % 10
}

/// Whether UTCTime spells the year.
pub(crate) fn is_utc_year(year: u16) -> bool
    ensures { result ≡ spec.is_utc_year year }
{
    1950 <= year && year <= 2049
}

/// YYYYMMDDHHMMSSZ.
pub(crate) fn generalized_text(civil: &Civil) -> [u8; 15]
    requires { spec.FitsDigits civil.now }
    ensures { result ≡ spec.generalized_text civil.now }
{
    let century = (civil.year / 100) as u8;
    let year = (civil.year % 100) as u8;
    [
        tens(century),
        ones(century),
        tens(year),
        ones(year),
        tens(civil.month),
        ones(civil.month),
        tens(civil.day),
        ones(civil.day),
        tens(civil.hour),
        ones(civil.hour),
        tens(civil.minute),
        ones(civil.minute),
        tens(civil.second),
        ones(civil.second),
        b'Z',
    ]
}

/// YYYY-MM-DDTHH:MM:SSZ.
pub(crate) fn rfc3339_text(civil: &Civil) -> [u8; 20]
    requires { spec.FitsDigits civil.now }
    ensures { result ≡ spec.rfc3339_text civil.now }
{
    let [
        y1,
        y2,
        y3,
        y4,
        mo1,
        mo2,
        d1,
        d2,
        h1,
        h2,
        mi1,
        mi2,
        s1,
        s2,
        z,
    ] = generalized_text(civil);
    [
        y1, y2, y3, y4, b'-', mo1, mo2, b'-', d1, d2, b'T', h1, h2, b':', mi1, mi2, b':', s1, s2, z,
    ]
}
