//! Lists of checks, of which the first that fails is named.

ghost use Rattle.std.specs.Prelude.{◌≡◌, ◌∷◌, ◌++◌, [], ℕ, List, Bool, true, All, Ok, Err, Some, codes};
ghost use Rattle.std.specs.Fmt.{decimal};
ghost use Rattle.rpki_base.specs.Checks as spec;

use std::fmt;

/// The kind of a check, a label that each list assigns to its numbers.
#[derive(Clone, Copy, Debug, PartialEq, Eq)]
pub enum ValidationKind {
    /// The label of the checks that their list calls inspections.
    Inspection,
    /// The label of the checks that their list calls verifications.
    Verification,
}

/// The first check of a call's list that fails, by its number in the list, and its kind. It prints as `check n failed`.
#[derive(Clone, Copy, Debug, PartialEq, Eq)]
pub struct ValidationError {
    /// Its kind.
    pub kind: ValidationKind,
    /// Its number.
    pub check: u8,
}

impl fmt::Display for ValidationError {
    ghost output = { λ e. Some (codes "check " ++ (decimal e.check ++ codes " failed")) };

    fn fmt<W: fmt::Write>(&self, f: &mut fmt::Formatter<W>) -> fmt::Result {
        write!(f, "check {} failed", self.check)
    }
}

/// One check of a list: Ok where it holds, else Err with `number`, its number in the list.
pub fn require(number: u8, holds: bool) -> Result<(), u8>
    ensures { result ≡ spec.first_failure number (holds ∷ []) }
{
    if holds { Ok(()) } else { Err(number) }
}

/// A list of checks passes exactly where all its values are true, and fails at the first false one.
pub fn first_false_decides()
    ensures passes { (n : ℕ) (list : List Bool) →
        All (λ b. b ≡ true) list → spec.first_failure n list ≡ Ok tt }
    ensures fails { (n k : ℕ) (list : List Bool) →
        spec.first_failure n list ≡ Err k → spec.FirstFalse n k list }
    ensures first { (n k : ℕ) (list : List Bool) →
        spec.FirstFalse n k list → spec.first_failure n list ≡ Err k }
{}
