//! Tags, and the identifier octets that spell them.

ghost use Rattle.std.specs.Prelude.{◌≡◌, [], ◌∷◌, ◌+◌, ◌≤◌, ◌↔◌, length, take, IsSome, IfSome, IsTrue};
ghost use Rattle.rpki_der.specs.Identifier.{IsIdentifier, IsTag, is_constructed, without_bit_6, tag_of, has_tag};
ghost use Rattle.rpki_der.specs.HeaderAt.{further_size, identifier_size};
ghost use Rattle.rpki_der.specs.Writing.{with_bit_6};
ghost use Rattle.rpki_der.specs.Tags.{boolean_tag, integer_tag, bit_string_tag, octet_string_tag, null_tag, oid_tag, sequence, set, utc_time_tag, generalized_time_tag, context};

use std::marker::Model;

/// What kind of value it is: the octets of an identifier with bit 6 of the first cleared (X.690, 8.1.2).
///
/// In a clause it is the list of these octets.
#[derive(Clone, Copy, Debug, PartialEq, Eq)]
pub struct Tag {
    // The octets behind the first `len` are zero.
    octets: [u8; 4],
    len: usize,
}

impl Model for Tag {
    ghost use Rattle.std.specs.Prelude.{ℕ, List, ◌≡◌, ◌≤◌, ◌-◌, ◌++◌, take, drop, length, replicate};
    ghost use Rattle.rpki_der.specs.Identifier.{IsTag};
    ghost use Rattle.rpki_der.specs.Padding.{padded_again};

    ghost Value = { List ℕ };

    ghost view = { λ t. take t.len t.octets };

    ghost invariant = { λ t. (t.len ≤ 4) × (length t.octets ≡ 4)
        × (drop t.len t.octets ≡ replicate (4 - t.len) 0) × IsTag (take t.len t.octets) };

    ghost inverse = { λ l. record { octets = l ++ replicate (4 - length l) 0; len = length l } };

    ghost inverse_ok = { λ a h. padded_again a.octets a.len h.0 h.1 h.2 };
}

impl Tag {
    /// BOOLEAN, spelled 01.
    pub const BOOLEAN: Tag = Tag {
        octets: [0x01, 0, 0, 0],
        len: 1,
    };

    /// INTEGER, spelled 02.
    pub const INTEGER: Tag = Tag {
        octets: [0x02, 0, 0, 0],
        len: 1,
    };

    /// BIT STRING, spelled 03.
    pub const BIT_STRING: Tag = Tag {
        octets: [0x03, 0, 0, 0],
        len: 1,
    };

    /// OCTET STRING, spelled 04 where it is primitive and 24 where it is constructed.
    pub const OCTET_STRING: Tag = Tag {
        octets: [0x04, 0, 0, 0],
        len: 1,
    };

    /// NULL, spelled 05.
    pub const NULL: Tag = Tag {
        octets: [0x05, 0, 0, 0],
        len: 1,
    };

    /// OBJECT IDENTIFIER, spelled 06.
    pub const OID: Tag = Tag {
        octets: [0x06, 0, 0, 0],
        len: 1,
    };

    /// SEQUENCE, spelled 30.
    pub const SEQUENCE: Tag = Tag {
        octets: [0x10, 0, 0, 0],
        len: 1,
    };

    /// SET, spelled 31.
    pub const SET: Tag = Tag {
        octets: [0x11, 0, 0, 0],
        len: 1,
    };

    /// UTCTime, spelled 17.
    pub const UTC_TIME: Tag = Tag {
        octets: [0x17, 0, 0, 0],
        len: 1,
    };

    /// GeneralizedTime, spelled 18.
    pub const GENERALIZED_TIME: Tag = Tag {
        octets: [0x18, 0, 0, 0],
        len: 1,
    };

    /// Context-specific tag 0, spelled 80 where it is primitive and A0 where it is constructed.
    pub const CTX_0: Tag = Tag {
        octets: [0x80, 0, 0, 0],
        len: 1,
    };

    /// Context-specific tag 1, spelled 81 or A1.
    pub const CTX_1: Tag = Tag {
        octets: [0x81, 0, 0, 0],
        len: 1,
    };

    /// Context-specific tag 3, spelled 83 or A3.
    pub const CTX_3: Tag = Tag {
        octets: [0x83, 0, 0, 0],
        len: 1,
    };

    /// The tags that have names, in the order of their declaration. Each is that of the standard (X.680, 8.4; X.690, 8.1.2).
    pub fn named() -> [Tag; 13]
        ensures { result ≡
            boolean_tag ∷ integer_tag ∷ bit_string_tag ∷ octet_string_tag ∷ null_tag ∷ oid_tag ∷
            sequence ∷ set ∷ utc_time_tag ∷ generalized_time_tag ∷
            context 0 ∷ context 1 ∷ context 3 ∷ [] }
    {
        [
            Tag::BOOLEAN,
            Tag::INTEGER,
            Tag::BIT_STRING,
            Tag::OCTET_STRING,
            Tag::NULL,
            Tag::OID,
            Tag::SEQUENCE,
            Tag::SET,
            Tag::UTC_TIME,
            Tag::GENERALIZED_TIME,
            Tag::CTX_0,
            Tag::CTX_1,
            Tag::CTX_3,
        ]
    }

    /// The tag of the one identifier that the octets are, of either form; None exactly where they are none.
    ///
    /// An identifier has one to four octets here; the standard has no such limit. Where the five low bits of the first are all ones,
    /// further octets follow up to the first with bit 8 clear. 00 and 20 are no identifier.
    pub fn new(octets: &[u8]) -> Option<Tag>
        ensures some { IsSome result ↔ IsIdentifier octets.now }
        ensures value { IfSome result (λ t. t ≡ tag_of octets.now) }
    {
        if identifier_len(octets)? != octets.len() {
            return None;
        }
        Some(Tag::of(octets))
    }

    /// The tag of an identifier.
    pub(crate) fn of(identifier: &[u8]) -> Tag
        requires { IsIdentifier identifier.now }
        ensures { result ≡ tag_of identifier.now }
    {
        let (octets, len) = match identifier {
            [a] => ([clear_bit_6(*a), 0, 0, 0], 1),
            [a, b] => ([clear_bit_6(*a), *b, 0, 0], 2),
            [a, b, c] => ([clear_bit_6(*a), *b, *c, 0], 3),
            [a, b, c, d] => ([clear_bit_6(*a), *b, *c, *d], 4),
            _ => unreachable!(),
        };
        Tag { octets, len }
    }

    /// The octets of the identifier with bit 6 of the first cleared.
    pub fn as_slice(&self) -> &[u8]
        ensures { result.now ≡ self.now }
    {
        &self.octets[..self.len]
    }

    /// The octets of the identifier with bit 6 of the first set, and how many they are.
    pub(crate) fn constructed_octets(&self) -> ([u8; 4], usize)
        ensures octets { take result.1 result.0 ≡ with_bit_6 self.now }
        ensures within { result.1 ≤ 4 }
    {
        let [first, second, third, fourth] = self.octets;
        ([first + 0x20, second, third, fourth], self.len)
    }
}

// The octet with bit 6, 0x20, cleared: `octet & !0x20` in arithmetic, as the definition `without_bit_6` says it.
fn clear_bit_6(octet: u8) -> u8
    ensures { result ≡ without_bit_6 octet }
{
    octet - 0x20 * (octet / 0x20 % 2)
}

// How many octets there are up to the first with bit 8 clear, which is one of the first three.
fn further_len(octets: &[u8]) -> Option<usize>
    ensures len { result ≡ further_size 3 octets.now }
    ensures within { IfSome result (λ k. k ≤ length octets.now) }
{
    match octets {
        [a, ..] if *a < 0x80 => Some(1),
        [_, a, ..] if *a < 0x80 => Some(2),
        [_, _, a, ..] if *a < 0x80 => Some(3),
        _ => None,
    }
}

/// How many octets the identifier at the beginning has; None exactly where none begins the octets.
pub(crate) fn identifier_len(octets: &[u8]) -> Option<usize>
    ensures len { result ≡ identifier_size octets.now }
    ensures within { IfSome result (λ k. k ≤ length octets.now) }
{
    let (first, more) = octets.split_first()?;
    if *first % 32 == 31 {
        Some(1 + further_len(more)?)
    } else if *first == 0 || *first == 0x20 {
        None
    } else {
        Some(1)
    }
}

/// Whether the identifier is of the constructed form, which bit 6 tells.
pub(crate) fn has_bit_6(identifier: &[u8]) -> bool
    ensures { result ≡ is_constructed identifier.now }
{
    match identifier {
        [] => false,
        [first, ..] => *first / 0x20 % 2 == 1,
    }
}

/// Whether the identifier, of either form, has this tag.
pub(crate) fn tag_is(identifier: &[u8], tag: Tag) -> bool
    ensures { result ≡ has_tag tag identifier.now }
{
    match (identifier, tag.as_slice()) {
        ([first, further @ ..], [tag_first, tag_further @ ..]) => {
            clear_bit_6(*first) == *tag_first && further == tag_further
        }
        _ => false,
    }
}
