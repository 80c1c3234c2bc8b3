//! Digests.

ghost use Rattle.std.specs.Prelude.{◌≡◌, ◌↔◌, ℕ, List, length, nat_eq, Ok, Some, IsSome, IfSome, IsTrue};
ghost use Rattle.std.specs.Hash as fed;
ghost use Rattle.std.specs.Cmp.Lexicographic.{pointwise, nat_list_eq_equiv};
ghost use Rattle.std.specs.Cmp.{partial_equiv_from_equiv};
ghost use Rattle.std.specs.Cmp.Rules.{hashing};
ghost use Rattle.std.proofs.Common.{rules};
ghost use Rattle.std.specs.List.{AllPass};
ghost use Rattle.hex.specs.Hex.{decode_of, encode_lower, is_hex_digit, IsBytes};
ghost use Rattle.sha2.specs.Sha256.{sha256};
ghost use Rattle.rpki_text.specs.Hash.{digest_of_text};

use hex::FromHex;
use sha2::{Digest, Sha256};
use std::fmt;
use std::hash::Hasher;
use std::marker::Model;

/// The SHA-256 digest of an object. In a clause it is the list of its 32 octets.
#[derive(Clone, Copy, Debug)]
pub struct Hash {
    octets: [u8; 32],
}

impl Model for Hash {
    ghost use Rattle.std.specs.Prelude.{ℕ, List};

    ghost Value = { List ℕ };

    ghost view = { λ h. h.octets };

    ghost inverse = { λ d. record { octets = d } };
}

impl Hash {
    /// The SHA-256 digest of `octets`. It takes no memory.
    pub fn from_data(octets: &[u8]) -> Hash
        ensures { result ≡ sha256 octets.now }
    {
        Hash {
            octets: Sha256::digest(octets),
        }
    }

    /// The digest whose 64 hexadecimal digits, in either case, are `text`, and `None` for any other
    /// text. It takes no memory.
    pub fn from_str(text: &str) -> Option<Hash>
        ensures digest { result ≡ digest_of_text text.now }
        ensures found { IsSome result ↔ ((length text.now ≡ 64) × AllPass is_hex_digit text.now) }
        ensures value { IfSome result (λ h. decode_of text.now ≡ Ok h) }
    {
        match <[u8; 32] as FromHex>::from_hex(text) {
            Ok(octets) => Some(Hash { octets }),
            Err(_) => None,
        }
    }

    /// The 32 octets.
    pub fn as_slice(&self) -> &[u8]
        ensures octets { result.now ≡ self.now }
        ensures size { length result.now ≡ 32 }
        ensures bytes { IsBytes result.now }
    {
        // For the proof: they are octets.
        are_bytes(&self.octets);
        &self.octets
    }
}

/// What is printed of a digest, which has 32 octets, is read as that digest.
pub fn printed_hash_is_read()
    ensures { (digest : List ℕ) → length digest ≡ 32 → IsBytes digest
        → digest_of_text (encode_lower digest) ≡ Some digest }
{}

// Octets of a program are below 256.
fn are_bytes(octets: &[u8])
    ensures { IsBytes octets.now }
{}

impl PartialEq for Hash {
    ghost eq = { pointwise nat_eq };

    ghost laws = { partial_equiv_from_equiv nat_list_eq_equiv };

    fn eq(&self, other: &Hash) -> bool
        ensures value { result ≡ pointwise nat_eq self.now other.now }
        ensures same { IsTrue result ↔ (self.now ≡ other.now) }
    {
        self.as_slice() == other.as_slice()
    }
}

impl Eq for Hash {
    ghost laws = { nat_list_eq_equiv };
}

impl std::hash::Hash for Hash {
    ghost hash_input = { fed.slice fed.u8 };

    ghost respects_eq = { Prim.search (hashing, rules) };

    fn hash<H: Hasher>(&self, state: &mut H) {
        self.as_slice().hash(state);
    }
}

/// 64 hexadecimal digits in lower case. Printing takes no memory.
impl fmt::Display for Hash {
    ghost use Rattle.std.specs.Prelude.{Some};
    ghost use Rattle.hex.specs.Hex.{encode_lower};

    ghost output = { λ h. Some (encode_lower h) };

    fn fmt<W: fmt::Write>(&self, f: &mut fmt::Formatter<W>) -> fmt::Result {
        let mut text = [0u8; 64];
        let Ok(()) = hex::encode_to_slice(self.octets.as_slice(), &mut text) else {
            unreachable!()
        };
        let Ok(text) = str::from_utf8(&text) else {
            unreachable!()
        };
        f.write_str(text)
    }
}
