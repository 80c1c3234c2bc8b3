//! Encoding rules.

/// The rules that octets have to keep (X.690).
#[derive(Clone, Copy, Debug, PartialEq, Eq)]
pub enum Mode {
    /// The basic rules: a length may be spelled with more octets than it needs, behind its first at most four, or be indefinite; an
    /// octet string may have segments; and each octet but 00 is TRUE.
    Ber,
    /// The distinguished rules: each length is definite and in the fewest octets, an octet string is primitive, and TRUE is FF.
    Der,
}
