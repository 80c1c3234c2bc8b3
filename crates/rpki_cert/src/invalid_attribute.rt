//! An attribute that a request can't have.

ghost use Rattle.std.specs.Prelude.{◌≡◌, ◌↔◌, ◌++◌, ℕ, List, true, IfOk, Some, codes};
ghost use Rattle.rpki_der.specs.Arcs.{oid_text};

use rpki_der::{Oid, OutOfMemory};
use std::alloc::Global;
use std::fmt;
use std::marker::Model;

/// A request has an attribute that it can't have. No call answers it: such a request is malformed.
///
/// In a clause it is the contents octets of the attribute's object identifier.
#[derive(Drop, PartialEq, Eq)]
pub struct InvalidAttribute {
    oid: Oid,
}

impl Model for InvalidAttribute {
    ghost use Rattle.std.specs.Prelude.{ℕ, List};

    ghost Value = { List ℕ };

    ghost view = { λ a. a.oid };

    ghost inverse = { λ l. record { oid = l } };
}

/// `==` holds exactly between attributes with one identifier.
pub fn equal_invalid_attributes_are_the_same()
    ensures { (a b : List ℕ) → (⟦<InvalidAttribute as PartialEq>⟧.eq a b ≡ true) ↔ (a ≡ b) }
{}

impl InvalidAttribute {
    /// The attribute with this identifier.
    pub fn new(oid: Oid) -> InvalidAttribute
        ensures { result ≡ oid }
    {
        InvalidAttribute { oid }
    }

    /// An equal one.
    pub fn clone(&self, alloc: Global) -> Result<InvalidAttribute, OutOfMemory>
        ensures { IfOk result (λ a. a ≡ self.now) }
    {
        let oid = self.oid.clone(alloc)?;
        Ok(InvalidAttribute { oid })
    }
}

impl fmt::Display for InvalidAttribute {
    ghost output = { λ a. Some (codes "invalid attribute " ++ oid_text a) };

    fn fmt<W: fmt::Write>(&self, f: &mut fmt::Formatter<W>) -> fmt::Result {
        let oid = &self.oid;
        write!(f, "invalid attribute {oid}")
    }
}
