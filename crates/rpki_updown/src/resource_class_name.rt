//! Names of resource classes.

ghost use Rattle.std.specs.Prelude.{◌≡◌, ◌↔◌, Some, None, IfOk, IsErrOf, IsTrue, nat_eq, refl, codes, string_bytes};
ghost use Rattle.std.specs.Fmt.{decimal};
ghost use Rattle.std.specs.Hash as fed;
ghost use Rattle.std.specs.Ordering.{nat_cmp};
ghost use Rattle.std.specs.Cmp.{partial_equiv_from_equiv};
ghost use Rattle.std.specs.Cmp.Lexicographic.{pointwise, slice_cmp, nat_list_eq_equiv, nat_list_cmp_total, texts_ties, texts_po};
ghost use Rattle.std.specs.Cmp.Rules.{hashing};
ghost use Rattle.std.proofs.Common.{rules};
ghost use Rattle.serde_json.specs.Data.{string};
ghost use Rattle.serde_json.specs.Written.{compact_text};
ghost use Rattle.rpki_text.specs.Json.{string_of_json};

use rpki_common::{OutOfMemory, Text};
use rpki_text::{JsonError, read_string, write_string};
use std::alloc::Global;
use std::cmp::Ordering;
use std::fmt;
use std::hash::{Hash, Hasher};
use std::marker::Model;

/// The name by which a parent calls a resource class (RFC 6492, 3.3.2): any text. In a clause it is the list of its octets.
#[derive(Debug)]
pub struct ResourceClassName {
    name: Text,
}

impl Drop for ResourceClassName {
    fn drop(self) {
        let ResourceClassName { name } = self;
    }
}

/// The name by which a class is called at the parent.
pub type ParentResourceClassName = crate::resource_class_name::ResourceClassName;

impl Model for ResourceClassName {
    ghost use Rattle.std.specs.Prelude.{ℕ, List};

    ghost Value = { List ℕ };

    ghost view = { λ c. c.name };

    ghost inverse = { λ l. record { name = l } };
}

impl ResourceClassName {
    /// The name `0`.
    pub fn default_name(alloc: Global) -> Result<ResourceClassName, OutOfMemory>
        ensures { IfOk result (λ c. c ≡ codes "0") }
    {
        ResourceClassName::from_str(alloc, "0")
    }

    /// A number's decimal digits.
    pub fn from_u32(alloc: Global, number: u32) -> Result<ResourceClassName, OutOfMemory>
        ensures { IfOk result (λ c. c ≡ decimal number) }
    {
        let digits = number.to_string(alloc)?;
        ResourceClassName::from_str(alloc, digits.as_str())
    }

    /// The name that a text is. Every text is one.
    pub fn from_str(alloc: Global, text: &str) -> Result<ResourceClassName, OutOfMemory>
        ensures { IfOk result (λ c. c ≡ text.now) }
    {
        Ok(ResourceClassName {
            name: Text::from_str(alloc, text)?,
        })
    }

    /// The name that the one string of a JSON text is. Malformed exactly where the text is no JSON or no string.
    pub fn from_json(alloc: Global, text: &str) -> Result<ResourceClassName, JsonError>
        ensures name { IfOk result (λ c. string_of_json text.now ≡ Some c) }
        ensures malformed { IsErrOf result JsonError.Malformed → string_of_json text.now ≡ None }
    {
        let name = read_string(alloc, text)?;
        Ok(ResourceClassName::from_str(alloc, name.as_str())?)
    }

    /// The name as a JSON text, which is one string, and is read as this name.
    pub fn to_json(&self, alloc: Global) -> Result<String, OutOfMemory>
        ensures text { IfOk result (λ s. string_bytes s ≡ compact_text (string self.now)) }
        ensures again { IfOk result (λ s. string_of_json (string_bytes s) ≡ Some self.now) }
    {
        write_string(alloc, self.as_str())
    }

    /// The text, lent.
    pub fn as_str(&self) -> &str
        ensures { result.now ≡ self.now }
    {
        self.name.as_str()
    }

    /// An equal name that shares its text with this one.
    pub fn clone(&self, alloc: Global) -> Result<ResourceClassName, OutOfMemory>
        ensures { IfOk result (λ c. c ≡ self.now) }
    {
        Ok(ResourceClassName {
            name: self.name.clone(alloc)?,
        })
    }
}

impl PartialEq for ResourceClassName {
    ghost eq = { pointwise nat_eq };

    ghost laws = { partial_equiv_from_equiv nat_list_eq_equiv };

    fn eq(&self, other: &Self) -> bool
        ensures value { result ≡ pointwise nat_eq self.now other.now }
        ensures same { IsTrue result ↔ (self.now ≡ other.now) }
    {
        self.as_str() == other.as_str()
    }
}

impl Eq for ResourceClassName {
    ghost laws = { nat_list_eq_equiv };
}

impl PartialOrd for ResourceClassName {
    ghost partial_cmp = { λ a b. Some (slice_cmp nat_cmp a b) };

    ghost laws = { texts_po };

    fn partial_cmp(&self, other: &Self) -> Option<Ordering> {
        Some(self.cmp(other))
    }
}

impl Ord for ResourceClassName {
    ghost cmp = { slice_cmp nat_cmp };

    ghost total = { nat_list_cmp_total };

    ghost matches_partial_cmp = { λ a b. refl };

    ghost matches_eq = { texts_ties };

    fn cmp(&self, other: &Self) -> Ordering {
        self.as_str().cmp(other.as_str())
    }
}

impl Hash for ResourceClassName {
    ghost hash_input = { fed.str };

    ghost respects_eq = { Prim.search (hashing, rules) };

    fn hash<H: Hasher>(&self, state: &mut H) {
        self.as_str().hash(state);
    }
}

impl fmt::Display for ResourceClassName {
    ghost output = { λ c. Some c };

    fn fmt<W: fmt::Write>(&self, f: &mut fmt::Formatter<W>) -> fmt::Result {
        f.write_str(self.as_str())
    }
}
