//! The text of object identifiers.

ghost use Rattle.std.specs.Prelude.{◌≡◌, ◌<◌, ◌≤◌, ◌∷◌, [], length, nat_lt, position, IfSome, IfNone};
ghost use Rattle.rpki_der.specs.Arcs as text;

use crate::leaf::Oid;
use std::fmt;

// The place of the first octet with bit 8 clear.
fn end_place(octets: &[u8]) -> Option<usize>
    ensures { result ≡ position (λ a. nat_lt a 128) octets.now }
{
    octets.iter().position(|a| *a < 0x80)
}

// The octets of the first subidentifier, and those behind it.
fn split_subidentifier(octets: &[u8]) -> Option<(&[u8], &[u8])>
    ensures found { IfSome result (λ r. text.subidentifier_parts octets.now ≡ r.0.now
        ∷ text.subidentifier_parts r.1.now) }
    ensures smaller { IfSome result (λ r. length r.1.now < length octets.now) }
    ensures none { IfNone result (text.subidentifier_parts octets.now ≡ []) }
{
    let place = end_place(octets)?;
    Some(octets.split_at(place + 1))
}

// The number that the low seven bits of the octets spell.
fn base_128(octets: &[u8]) -> u64
    requires { length octets.now ≤ 9 }
    ensures { result ≡ text.base_128 octets.now }
{
    let mut number: u64 = 0;
    for octet in octets {
        number = number * 0x80 + u64::from(*octet % 0x80);
    }
    number
}

// A subidentifier that prints as one arc.
#[derive(Clone, Copy)]
struct Arc<'a> {
    octets: &'a [u8],
}

impl<'a> fmt::Display for Arc<'a> {
    ghost use Rattle.std.specs.Prelude.{Some};
    ghost use Rattle.rpki_der.specs.Arcs.{arc_text};

    ghost output = { λ a. Some (arc_text a.octets.now) };

    fn fmt<W: fmt::Write>(&self, f: &mut fmt::Formatter<W>) -> fmt::Result {
        if self.octets.len() > 9 {
            return write!(f, "?");
        }
        let number = base_128(self.octets);
        write!(f, "{number}")
    }
}

// A subidentifier that prints as two arcs.
#[derive(Clone, Copy)]
struct FirstArcs<'a> {
    octets: &'a [u8],
}

impl<'a> fmt::Display for FirstArcs<'a> {
    ghost use Rattle.std.specs.Prelude.{Some};
    ghost use Rattle.rpki_der.specs.Arcs.{first_text};

    ghost output = { λ a. Some (first_text a.octets.now) };

    fn fmt<W: fmt::Write>(&self, f: &mut fmt::Formatter<W>) -> fmt::Result {
        if self.octets.len() > 9 {
            return write!(f, "?");
        }
        let number = base_128(self.octets);
        if number < 40 {
            write!(f, "0.{number}")
        } else if number < 80 {
            let second = number - 40;
            write!(f, "1.{second}")
        } else {
            let second = number - 80;
            write!(f, "2.{second}")
        }
    }
}

impl fmt::Display for Oid {
    ghost use Rattle.std.specs.Prelude.{Some};
    ghost use Rattle.rpki_der.specs.Arcs.{oid_text};

    ghost output = { λ o. Some (oid_text o) };

    fn fmt<W: fmt::Write>(&self, f: &mut fmt::Formatter<W>) -> fmt::Result {
        let Some((octets, behind)) = split_subidentifier(self.as_slice()) else {
            return Ok(());
        };
        let first = FirstArcs { octets };
        write!(f, "{first}")?;
        let mut rest = behind;
        'arcs: while let Some((octets, behind)) = split_subidentifier(rest) {
            let arc = Arc { octets };
            write!(f, ".{arc}")?;
            rest = behind;
        }
        Ok(())
    }
}
