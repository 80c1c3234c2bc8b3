//! Texts cut into parts, and numbers in decimal digits.

ghost use Rattle.std.specs.Prelude.{◌≡◌, ◌<◌, ◌≤◌, ◌^◌, Some, None, IfSome, IfNone, reverse, length, position, ◌==◌};
ghost use Rattle.rpki_sets.specs.Texts.{trimmed as trimmed_of, skip_spaces as skip_spaces_of, cut as cut_of, decimal_below as decimal_below_of};

/// The text from its first octet on that is no space.
fn skip_spaces(text: &[u8]) -> &[u8]
    ensures { result.now ≡ skip_spaces_of text.now }
{
    let mut rest = text;
    'front: while let Some((octet, more)) = rest.split_first() {
        if *octet != b' ' {
            return rest;
        }
        rest = more;
    }
    rest
}

/// The text up to its last octet that is no space.
fn drop_spaces(text: &[u8]) -> &[u8]
    ensures { result.now ≡ reverse (skip_spaces_of (reverse text.now)) }
{
    let mut rest = text;
    'back: while let Some((octet, more)) = rest.split_last() {
        if *octet != b' ' {
            return rest;
        }
        rest = more;
    }
    rest
}

/// The text without the spaces at its start and at its end.
pub fn trimmed(text: &[u8]) -> &[u8]
    ensures { result.now ≡ trimmed_of text.now }
{
    drop_spaces(skip_spaces(text))
}

/// The place of the first `mark`.
fn place_of(text: &[u8], mark: u8) -> Option<usize>
    ensures place { result ≡ position (λ octet. octet == mark) text.now }
    ensures within { IfSome result (λ place. place < length text.now) }
{
    text.iter().position(|octet| *octet == mark)
}

/// What stands before the first `mark`, and what stands behind it. None where there is no mark.
pub fn cut(text: &[u8], mark: u8) -> Option<(&[u8], &[u8])>
    ensures some { IfSome result (λ parts. cut_of mark text.now ≡ Some (parts.0.now, parts.1.now)) }
    ensures none { IfNone result (cut_of mark text.now ≡ None) }
{
    match place_of(text, mark) {
        Some(place) => Some((&text[..place], &text[place + 1..])),
        None => None,
    }
}

/// The number below `limit` that the decimal digits of `text` write, at least one. None where `text` has another octet
/// or writes no such number.
pub fn decimal_below(limit: u64, text: &[u8]) -> Option<u64>
    requires positive { 0 < limit }
    requires small { limit ≤ 2 ^ 32 }
    ensures number { result ≡ decimal_below_of limit text.now }
    ensures below { IfSome result (λ number. number < limit) }
{
    if text.is_empty() {
        return None;
    }
    let mut number = 0u64;
    'digits: for octet in text {
        if !octet.is_ascii_digit() {
            return None;
        }
        number = number * 10 + u64::from(*octet - b'0');
        if number >= limit {
            return None;
        }
    }
    Some(number)
}
