//! Identifier octets and length octets.

ghost use Rattle.std.specs.Prelude.{◌≡◌, ◌+◌, ◌≤◌, ◌++◌, length, IfSome, IfNone};
ghost use Rattle.rpki_der.specs.Identifier.{IsIdentifier, is_constructed};
ghost use Rattle.rpki_der.specs.Lengths.{number};
ghost use Rattle.rpki_der.specs.HeaderAt.{is_overlong, long_length, length_at};
ghost use Rattle.rpki_der.specs.Header.{IdentifierFirst, NoIdentifier, HeaderFirst, NoHeader};

use crate::mode::Mode;
use crate::tag::{has_bit_6, identifier_len};

/// How long the contents are.
#[derive(Clone, Copy, Debug, PartialEq, Eq)]
pub enum Length {
    Definite(usize),
    Indefinite,
}

fn big_endian(octets: &[u8]) -> usize
    requires { length octets.now ≤ 4 }
    ensures { result ≡ number octets.now }
{
    match octets {
        [] => 0,
        [a] => usize::from(*a),
        [a, b] => usize::from(*a) * 0x100 + usize::from(*b),
        [a, b, c] => (usize::from(*a) * 0x100 + usize::from(*b)) * 0x100 + usize::from(*c),
        [a, b, c, d] => ((usize::from(*a) * 0x100 + usize::from(*b)) * 0x100 + usize::from(*c))
            * 0x100
            + usize::from(*d),
        _ => unreachable!(),
    }
}

fn overlong(mode: Mode, octets: &[u8]) -> bool
    requires { length octets.now ≤ 4 }
    ensures { result ≡ is_overlong mode octets.now }
{
    match mode {
        Mode::Ber => false,
        Mode::Der => match octets {
            [] => true,
            [first, ..] => *first == 0 || big_endian(octets) < 0x80,
        },
    }
}

fn long_len(mode: Mode, count: usize, more: &[u8]) -> Option<(Length, usize)>
    requires { count ≤ 4 }
    ensures size { result ≡ long_length mode count more.now }
    ensures within { IfSome result (λ r. r.1 ≤ length more.now + 1) }
{
    if more.len() < count {
        return None;
    }
    let number = &more[..count];
    if overlong(mode, number) {
        return None;
    }
    Some((Length::Definite(big_endian(number)), count + 1))
}

// The length at the beginning, and how many octets it has.
fn length_of(mode: Mode, octets: &[u8]) -> Option<(Length, usize)>
    ensures size { result ≡ length_at mode octets.now }
    ensures within { IfSome result (λ r. r.1 ≤ length octets.now) }
{
    let (first, more) = octets.split_first()?;
    let first = usize::from(*first);
    if first < 0x80 {
        return Some((Length::Definite(first), 1));
    }
    if first == 0x80 {
        return match mode {
            Mode::Ber => Some((Length::Indefinite, 1)),
            Mode::Der => None,
        };
    }
    if first > 0x84 {
        return None;
    }
    long_len(mode, first - 0x80, more)
}

/// The identifier at the beginning, and what stands behind it.
#[tactic(auto, using(crate::proofs::Heads::no_identifier))]
pub(crate) fn take_identifier<'a>(octets: &'a [u8]) -> Option<(&'a [u8], &'a [u8])>
    ensures found { IfSome result (λ r. IdentifierFirst octets.now r.0.now r.1.now) }
    ensures none { IfNone result (NoIdentifier octets.now) }
{
    let size = identifier_len(octets)?;
    Some(octets.split_at(size))
}

/// The octets in front of a value's contents, and what stands behind them.
#[derive(Clone, Copy)]
pub(crate) struct Header<'a> {
    pub(crate) identifier: &'a [u8],
    pub(crate) constructed: bool,
    pub(crate) length: Length,
    pub(crate) rest: &'a [u8],
}

/// The header that begins with this identifier, behind which these octets stand.
#[tactic(auto, using(crate::proofs::Heads::no_length))]
pub(crate) fn take_header<'a>(
    mode: Mode,
    identifier: &'a [u8],
    behind: &'a [u8],
) -> Option<Header<'a>>
    requires identifier { IsIdentifier identifier.now }
    ensures found { IfSome result (λ h. HeaderFirst mode (identifier.now ++ behind.now)
        h.identifier.now h.length h.rest.now) }
    ensures form { IfSome result (λ h. h.constructed ≡ is_constructed h.identifier.now) }
    ensures none { IfNone result (NoHeader mode (identifier.now ++ behind.now)) }
{
    let (length, count) = length_of(mode, behind)?;
    let (_lengths, rest) = behind.split_at(count);
    let constructed = has_bit_6(identifier);
    Some(Header {
        identifier,
        constructed,
        length,
        rest,
    })
}
