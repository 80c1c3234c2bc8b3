//! Numbers in decimal digits at the beginning of a text.

ghost use Rattle.std.specs.Prelude.{◌≡◌, ◌≤◌, IfSome};
ghost use Rattle.std.specs.Option.{option_map, option_copied};
ghost use Rattle.rpki_base.specs.Digits as spec;

// The number of two decimal digits at the beginning of the text, and the text behind them.
pub(crate) fn two_digits(text: &[u8]) -> Option<(u8, &[u8])>
    ensures value { option_map (λ x. (x.0, x.1.now)) result ≡ spec.two_digits text.now }
    ensures small { IfSome result (λ x. x.0 ≤ 99) }
{
    match text {
        [high, low, behind @ ..] if high.is_ascii_digit() && low.is_ascii_digit() => {
            Some((10 * (*high - b'0') + (*low - b'0'), behind))
        }
        _ => None,
    }
}

// The number of four decimal digits at the beginning of the text, and the text behind them.
pub(crate) fn four_digits(text: &[u8]) -> Option<(u16, &[u8])>
    ensures value { option_map (λ x. (x.0, x.1.now)) result ≡ spec.four_digits text.now }
    ensures small { IfSome result (λ x. x.0 ≤ 9999) }
{
    let (high, behind) = two_digits(text)?;
    let (low, behind) = two_digits(behind)?;
    Some((100 * u16::from(high) + u16::from(low), behind))
}

// The text behind this character, if the text begins with it.
pub(crate) fn past(character: u8, text: &[u8]) -> Option<&[u8]>
    ensures { option_copied result ≡ spec.past character text.now }
{
    match text {
        [first, behind @ ..] if *first == character => Some(behind),
        _ => None,
    }
}

// Whether nothing is left of the text.
pub(crate) fn ended(text: &[u8]) -> Option<()>
    ensures { result ≡ spec.ended text.now }
{
    if text.is_empty() { Some(()) } else { None }
}
