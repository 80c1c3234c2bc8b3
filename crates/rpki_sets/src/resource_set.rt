//! AS numbers and addresses together.

ghost use Rattle.std.specs.Prelude.{◌≡◌, ◌↔◌, [], Some, IfOk, IsTrue};
ghost use Rattle.std.specs.Cmp.{partial_equiv_from_equiv};
ghost use Rattle.rpki_sets.specs.Resources.{are_same, are_same-equiv, resources_text};

use crate::as_numbers::AsBlocks;
use crate::ipv4::Ipv4Blocks;
use crate::ipv6::Ipv6Blocks;
use rpki_common::OutOfMemory;
use std::alloc::Global;
use std::fmt;
use std::marker::Model;

/// A set of AS numbers, one of IPv4 addresses and one of IPv6 addresses. In a clause it is the record of the three.
#[derive(Debug)]
pub struct ResourceSet {
    asn: AsBlocks,
    ipv4: Ipv4Blocks,
    ipv6: Ipv6Blocks,
}

impl Drop for ResourceSet {
    fn drop(self) {
        let ResourceSet { asn, ipv4, ipv6 } = self;
    }
}

impl Model for ResourceSet {
    ghost use Rattle.rpki_sets.specs.Resources.{Resources};

    ghost Value = { Resources };

    ghost view = { λ s. record { asn = s.asn; ipv4 = s.ipv4; ipv6 = s.ipv6 } };
}

impl ResourceSet {
    /// The set of these three.
    pub fn new(asn: AsBlocks, ipv4: Ipv4Blocks, ipv6: Ipv6Blocks) -> ResourceSet
        ensures { result ≡ record { asn = asn; ipv4 = ipv4; ipv6 = ipv6 } }
    {
        ResourceSet { asn, ipv4, ipv6 }
    }

    /// Three empty sets. It takes no memory.
    pub fn default(alloc: Global) -> ResourceSet
        ensures { result ≡ record { asn = []; ipv4 = []; ipv6 = [] } }
    {
        ResourceSet {
            asn: AsBlocks::empty(alloc),
            ipv4: Ipv4Blocks::empty(alloc),
            ipv6: Ipv6Blocks::empty(alloc),
        }
    }

    /// The AS numbers.
    pub fn asn(&self) -> &AsBlocks
        ensures { result.now ≡ self.now.asn }
    {
        &self.asn
    }

    /// The IPv4 addresses.
    pub fn ipv4(&self) -> &Ipv4Blocks
        ensures { result.now ≡ self.now.ipv4 }
    {
        &self.ipv4
    }

    /// The IPv6 addresses.
    pub fn ipv6(&self) -> &Ipv6Blocks
        ensures { result.now ≡ self.now.ipv6 }
    {
        &self.ipv6
    }

    /// Puts `asn` in the place of the AS numbers.
    pub fn set_asn(&mut self, asn: AsBlocks)
        ensures { self.new ≡ record self.old { asn = asn } }
    {
        self.asn = asn;
    }

    /// Puts `ipv4` in the place of the IPv4 addresses.
    pub fn set_ipv4(&mut self, ipv4: Ipv4Blocks)
        ensures { self.new ≡ record self.old { ipv4 = ipv4 } }
    {
        self.ipv4 = ipv4;
    }

    /// Puts `ipv6` in the place of the IPv6 addresses.
    pub fn set_ipv6(&mut self, ipv6: Ipv6Blocks)
        ensures { self.new ≡ record self.old { ipv6 = ipv6 } }
    {
        self.ipv6 = ipv6;
    }

    /// Equal sets.
    pub fn clone(&self, alloc: Global) -> Result<ResourceSet, OutOfMemory>
        ensures { IfOk result (λ set. set ≡ self.now) }
    {
        Ok(ResourceSet {
            asn: self.asn.clone(alloc)?,
            ipv4: self.ipv4.clone(alloc)?,
            ipv6: self.ipv6.clone(alloc)?,
        })
    }
}

impl PartialEq for ResourceSet {
    ghost eq = { are_same };

    ghost laws = { partial_equiv_from_equiv are_same-equiv };

    fn eq(&self, other: &Self) -> bool
        ensures value { result ≡ are_same self.now other.now }
        ensures same { IsTrue result ↔ (self.now ≡ other.now) }
    {
        self.asn == other.asn && self.ipv4 == other.ipv4 && self.ipv6 == other.ipv6
    }
}

impl Eq for ResourceSet {
    ghost laws = { are_same-equiv };
}

impl fmt::Display for ResourceSet {
    ghost output = { λ s. Some (resources_text s) };

    fn fmt<W: fmt::Write>(&self, f: &mut fmt::Formatter<W>) -> fmt::Result {
        let asn = &self.asn;
        let ipv4 = &self.ipv4;
        let ipv6 = &self.ipv6;
        write!(f, "asn: '{asn}', ipv4: '{ipv4}', ipv6: '{ipv6}'")
    }
}
