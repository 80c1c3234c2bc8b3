//! What holds of sets and texts.

ghost use Rattle.std.specs.Prelude.{◌≡◌, ◌≢◌, ◌≤◌, ◌<◌, ◌*◌, ◌^◌, ℕ, List, Some, length, true};
ghost use Rattle.std.specs.List.{list_all};
ghost use Rattle.std.specs.Int.{w32, w128, from_be_bytes};
ghost use Rattle.std.specs.Net.Addr.{octets_of};
ghost use Rattle.std.specs.Net.Grammar.{IsDotted, IsColonHex};
ghost use Rattle.rpki_sets.specs.declared.run.Run.{Run};
ghost use Rattle.rpki_sets.specs.Runs.{SameNumbers, AllOrdered, IsMaximal, IsSet, union};
ghost use Rattle.rpki_sets.specs.Prefixes.{prefix, prefix_length};
ghost use Rattle.rpki_sets.specs.Kinds.{is_set_octet};
ghost use Rattle.rpki_sets.specs.AsNumbers.{as_blocks, as_text};
ghost use Rattle.rpki_sets.specs.Ipv4Addresses.{ipv4_number, ipv4_blocks, ipv4_blocks_text};
ghost use Rattle.rpki_sets.specs.Ipv6Addresses.{ipv6_number, ipv6_blocks, ipv6_blocks_text};

/// Each set has one list of maximal runs: where the numbers are the same, so are the lists.
pub fn equal_sets_have_equal_runs()
    ensures { (width : ℕ) (a b : List Run) → IsSet width a → IsSet width b → SameNumbers a b
        → a ≡ b }
{}

/// A union has the numbers of its runs, as maximal runs.
pub fn union_has_the_numbers()
    ensures maximal { (runs : List Run) → AllOrdered runs → IsMaximal (union runs) }
    ensures same { (runs : List Run) → AllOrdered runs → SameNumbers (union runs) runs }
{}

/// A length is found exactly where the run is the prefix of this length.
pub fn prefix_length_is()
    ensures found { (width len : ℕ) (run : Run) → len ≤ width → prefix width run.first len ≡ run
        → prefix_length width run ≡ Some len }
    ensures only { (width len : ℕ) (run : Run) → prefix_length width run ≡ Some len
        → (len ≤ width) × (prefix width run.first len ≡ run) }
{}

/// A text is read as an IPv4 address exactly where it is four decimal numbers below 256 without leading zeros, with dots
/// between them.
pub fn ipv4_number_is()
    ensures reads { (text octets : List ℕ) → IsDotted text octets
        → ipv4_number text ≡ Some (from_be_bytes w32 octets) }
    ensures only { (text : List ℕ) (n : ℕ) → ipv4_number text ≡ Some n
        → (octets : List ℕ) × IsDotted text octets × (n ≡ from_be_bytes w32 octets) }
{}

/// A text is read as an IPv6 address exactly where it is all eight groups, or some with `::` (RFC 4291, 2.2).
pub fn ipv6_number_is()
    ensures reads { (text groups : List ℕ) → IsColonHex text groups
        → ipv6_number text ≡ Some (from_be_bytes w128 (octets_of groups)) }
    ensures only { (text : List ℕ) (n : ℕ) → ipv6_number text ≡ Some n
        → (groups : List ℕ) × IsColonHex text groups × (n ≡ from_be_bytes w128 (octets_of groups)) }
{}

/// The text that is printed of a set is read as the same set.
pub fn printed_set_is_read()
    ensures as_numbers { (runs : List Run) → IsSet 32 runs → as_blocks (as_text runs) ≡ Some runs }
    ensures ipv4 { (runs : List Run) → IsSet 32 runs
        → ipv4_blocks (ipv4_blocks_text runs) ≡ Some runs }
    ensures ipv6 { (runs : List Run) → IsSet 128 runs
        → ipv6_blocks (ipv6_blocks_text runs) ≡ Some runs }
{}

/// What a text is read as is a set.
pub fn read_sets_are_sets()
    ensures as_numbers { (text : List ℕ) (runs : List Run) → as_blocks text ≡ Some runs
        → IsSet 32 runs }
    ensures ipv4 { (text : List ℕ) (runs : List Run) → ipv4_blocks text ≡ Some runs
        → IsSet 32 runs }
    ensures ipv6 { (text : List ℕ) (runs : List Run) → ipv6_blocks text ≡ Some runs
        → IsSet 128 runs }
{}

/// What is printed of a set consists of digits, the letters `a` to `f`, and `,`, `-`, `.`, `/` and `:`. No such octet has to
/// be written as anything else in XML.
pub fn printed_sets_are_plain()
    ensures as_numbers { (runs : List Run) → IsSet 32 runs
        → list_all is_set_octet (as_text runs) ≡ true }
    ensures ipv4 { (runs : List Run) → IsSet 32 runs
        → list_all is_set_octet (ipv4_blocks_text runs) ≡ true }
    ensures ipv6 { (runs : List Run) → IsSet 128 runs
        → list_all is_set_octet (ipv6_blocks_text runs) ≡ true }
    ensures visible { (octet : ℕ) → is_set_octet octet ≡ true → (33 ≤ octet) × (octet ≤ 126) }
    ensures itself { (octet : ℕ) → is_set_octet octet ≡ true
        → (octet ≢ 34) × (octet ≢ 38) × (octet ≢ 39) × (octet ≢ 60) × (octet ≢ 62) }
{}

/// A set that was read of a text is printed in at most 40 octets for each octet of the text.
pub fn printed_sets_are_short()
    ensures as_numbers { (text : List ℕ) (runs : List Run) → as_blocks text ≡ Some runs
        → length (as_text runs) ≤ 40 * length text }
    ensures ipv4 { (text : List ℕ) (runs : List Run) → ipv4_blocks text ≡ Some runs
        → length (ipv4_blocks_text runs) ≤ 40 * length text }
    ensures ipv6 { (text : List ℕ) (runs : List Run) → ipv6_blocks text ≡ Some runs
        → length (ipv6_blocks_text runs) ≤ 40 * length text }
{}
