//! The most that a certificate is asked for.

ghost use Rattle.std.specs.Prelude.{◌≡◌, ◌↔◌, [], Some, None, IfOk, IfErr, IfSome, OnOk, IsTrue, codes};
ghost use Rattle.std.specs.Bool.{OnTrue, OnFalse};
ghost use Rattle.std.specs.Cmp.{partial_equiv_from_equiv};
ghost use Rattle.std.specs.Fmt.{WritesOnOk};
ghost use Rattle.std.specs.Option.{option_map};
ghost use Rattle.rpki_sets.specs.Kinds.{printed};
ghost use Rattle.rpki_sets.specs.Runs.{IsSet};
ghost use Rattle.rpki_updown.specs.Answers.{RefusesLimit};
ghost use Rattle.rpki_updown.specs.RequestResourceLimit.{no_limit, HasStated, IsContained, limited, limited_set, are_same, are_same-equiv, limit_text};
ghost use Rattle.rpki_updown.specs.Writing.{shown_part};

use crate::error::Error;
use rpki_common::OutOfMemory;
use rpki_sets::{AsBlocks, Blocks, Ipv4Blocks, Ipv6Blocks, Numbers, ResourceSet};
use std::alloc::Global;
use std::fmt;
use std::marker::Model;

/// The AS numbers and addresses that a certificate is asked for, of each kind for which they are stated (RFC 6492, 3.4.1). A kind for which
/// none are stated is not limited; the empty set may be stated. In a clause it is the record of the three.
#[derive(Debug)]
pub struct RequestResourceLimit {
    asn: Option<AsBlocks>,
    ipv4: Option<Ipv4Blocks>,
    ipv6: Option<Ipv6Blocks>,
}

// By hand, so that whoever lets one go calls this, and its parts are not spelled out there.
impl Drop for RequestResourceLimit {
    fn drop(self) {
        let RequestResourceLimit { asn, ipv4, ipv6 } = self;
    }
}

impl Model for RequestResourceLimit {
    ghost use Rattle.rpki_updown.specs.RequestResourceLimit.{LimitFields};

    ghost Value = { LimitFields };

    ghost view = { λ l. record { asn = l.asn; ipv4 = l.ipv4; ipv6 = l.ipv6 } };
}

impl RequestResourceLimit {
    /// No limit. It takes no memory.
    pub fn new() -> RequestResourceLimit
        ensures { result ≡ no_limit }
    {
        RequestResourceLimit {
            asn: None,
            ipv4: None,
            ipv6: None,
        }
    }

    // What is stated of the three kinds.
    pub(crate) fn from_parts(
        asn: Option<AsBlocks>,
        ipv4: Option<Ipv4Blocks>,
        ipv6: Option<Ipv6Blocks>,
    ) -> RequestResourceLimit
        ensures { result ≡ record { asn = asn; ipv4 = ipv4; ipv6 = ipv6 } }
    {
        RequestResourceLimit { asn, ipv4, ipv6 }
    }

    /// Whether nothing is limited.
    pub fn is_empty(&self) -> bool
        ensures { IsTrue result ↔ (self.now ≡ no_limit) }
    {
        self.ipv6.is_none() && self.ipv4.is_none() && self.asn.is_none()
    }

    /// Limits the AS numbers to these.
    pub fn with_asn(&mut self, asn: AsBlocks)
        ensures { self.new ≡ record self.old { asn = Some asn } }
    {
        self.asn = Some(asn);
    }

    /// Limits the IPv4 addresses to these.
    pub fn with_ipv4(&mut self, ipv4: Ipv4Blocks)
        ensures { self.new ≡ record self.old { ipv4 = Some ipv4 } }
    {
        self.ipv4 = Some(ipv4);
    }

    /// Limits the IPv6 addresses to these.
    pub fn with_ipv6(&mut self, ipv6: Ipv6Blocks)
        ensures { self.new ≡ record self.old { ipv6 = Some ipv6 } }
    {
        self.ipv6 = Some(ipv6);
    }

    /// The stated AS numbers.
    pub fn asn(&self) -> Option<&AsBlocks>
        ensures { option_map (λ b. b.now) result ≡ self.now.asn }
    {
        self.asn.as_ref()
    }

    /// The stated IPv4 addresses.
    pub fn ipv4(&self) -> Option<&Ipv4Blocks>
        ensures { option_map (λ b. b.now) result ≡ self.now.ipv4 }
    {
        self.ipv4.as_ref()
    }

    /// The stated IPv6 addresses.
    pub fn ipv6(&self) -> Option<&Ipv6Blocks>
        ensures { option_map (λ b. b.now) result ≡ self.now.ipv6 }
    {
        self.ipv6.as_ref()
    }

    /// What is to be certified where a client holds `set` and asks for this much: of each kind what is stated, else all that the set has.
    /// Limit, with equal copies of set and limit, exactly where something is stated that the set does not have.
    pub fn apply_to(&self, alloc: Global, set: &ResourceSet) -> Result<ResourceSet, Error>
        ensures set { IfOk result (λ s. s ≡ limited_set self.now set.now) }
        ensures contained { OnOk result (IsContained self.now set.now) }
        ensures refused { IfErr result (RefusesLimit self.now set.now) }
    {
        if !self.is_contained(set) {
            return Err(Error::Limit(set.clone(alloc)?, self.clone(alloc)?));
        }
        let asn = limited(alloc, &self.asn, set.asn())?;
        let ipv4 = limited(alloc, &self.ipv4, set.ipv4())?;
        let ipv6 = limited(alloc, &self.ipv6, set.ipv6())?;
        Ok(ResourceSet::new(asn, ipv4, ipv6))
    }

    // Whether the set has all that is stated.
    fn is_contained(&self, set: &ResourceSet) -> bool
        ensures { IsTrue result ↔ IsContained self.now set.now }
    {
        has_stated(&self.asn, set.asn())
            && has_stated(&self.ipv4, set.ipv4())
            && has_stated(&self.ipv6, set.ipv6())
    }

    /// What is stated of each kind is a set of its numbers.
    pub fn stated_sets_are_sets(&self)
        ensures asn { IfSome self.now.asn (IsSet 32) }
        ensures ipv4 { IfSome self.now.ipv4 (IsSet 32) }
        ensures ipv6 { IfSome self.now.ipv6 (IsSet 128) }
    {
        is_set_if_stated(&self.asn);
        is_set_if_stated(&self.ipv4);
        is_set_if_stated(&self.ipv6);
    }

    /// An equal limit.
    pub fn clone(&self, alloc: Global) -> Result<RequestResourceLimit, OutOfMemory>
        ensures { IfOk result (λ l. l ≡ self.now) }
    {
        Ok(RequestResourceLimit {
            asn: copied(alloc, &self.asn)?,
            ipv4: copied(alloc, &self.ipv4)?,
            ipv6: copied(alloc, &self.ipv6)?,
        })
    }
}

// Whether a set has what is stated of its kind.
fn has_stated<N: Numbers>(stated: &Option<Blocks<N>>, held: &Blocks<N>) -> bool
    ensures { IsTrue result ↔ HasStated stated.now held.now }
{
    match stated {
        None => true,
        Some(stated) => held.contains(stated),
    }
}

// What is stated, else what is held.
fn limited<N: Numbers>(
    alloc: Global,
    stated: &Option<Blocks<N>>,
    held: &Blocks<N>,
) -> Result<Blocks<N>, OutOfMemory>
    ensures { IfOk result (λ b. b ≡ limited stated.now held.now) }
{
    match stated {
        None => held.clone(alloc),
        Some(stated) => stated.clone(alloc),
    }
}

// What is stated is a set.
fn is_set_if_stated<N: Numbers>(stated: &Option<Blocks<N>>)
    ensures { IfSome stated.now (IsSet N.kind.width) }
{
    if let Some(blocks) = stated {
        // For the proof: a set says that it is one.
        let _runs = blocks.runs();
    }
}

// An equal set, where one is stated.
fn copied<N: Numbers>(
    alloc: Global,
    stated: &Option<Blocks<N>>,
) -> Result<Option<Blocks<N>>, OutOfMemory>
    ensures { IfOk result (λ b. b ≡ stated.now) }
{
    match stated {
        None => Ok(None),
        Some(stated) => Ok(Some(stated.clone(alloc)?)),
    }
}

impl Default for RequestResourceLimit {
    ghost is_default = { λ l. l ≡ no_limit };

    fn default() -> Self {
        RequestResourceLimit::new()
    }
}

impl PartialEq for RequestResourceLimit {
    ghost eq = { are_same };

    ghost laws = { partial_equiv_from_equiv are_same-equiv };

    fn eq(&self, other: &Self) -> bool
        ensures value { result ≡ are_same self.now other.now }
        ensures same { IsTrue result ↔ (self.now ≡ other.now) }
    {
        self.asn == other.asn && self.ipv4 == other.ipv4 && self.ipv6 == other.ipv6
    }
}

impl Eq for RequestResourceLimit {
    ghost laws = { are_same-equiv };
}

// What stands before a part: nothing before the first one.
fn separator(is_first: bool) -> &'static str
    ensures first { OnTrue is_first (result.now ≡ []) }
    ensures later { OnFalse is_first (result.now ≡ codes " ") }
{
    if is_first { "" } else { " " }
}

// A part that is stated, behind a separator.
fn show_part<N: Numbers, W: fmt::Write>(
    f: &mut fmt::Formatter<W>,
    separator: &str,
    name: &str,
    stated: &Option<Blocks<N>>,
) -> fmt::Result
    ensures { WritesOnOk W.write_str_gives f.old result
        (shown_part separator.now name.now (printed N.kind) stated.now) f.new }
{
    match stated {
        None => Ok(()),
        Some(stated) => write!(f, "{separator}{name}{stated}"),
    }
}

impl fmt::Display for RequestResourceLimit {
    ghost output = { λ l. Some (limit_text l) };

    fn fmt<W: fmt::Write>(&self, f: &mut fmt::Formatter<W>) -> fmt::Result {
        if self.is_empty() {
            return f.write_str("none");
        }
        show_part(f, "", "asn: ", &self.asn)?;
        show_part(f, separator(self.asn.is_none()), "ipv4: ", &self.ipv4)?;
        let is_first = self.asn.is_none() && self.ipv4.is_none();
        show_part(f, separator(is_first), "ipv6: ", &self.ipv6)
    }
}
