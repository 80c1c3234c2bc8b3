//! IPv6 addresses.

use crate::blocks::Blocks;
use crate::numbers::Numbers;
use std::fmt;
use std::net::Ipv6Addr;

/// IPv6 addresses: eight groups of one to four hexadecimal digits with colons between them, of which `::` stands for one
/// zero group or more, and the last two may be written as an IPv4 address.
#[derive(Clone, Copy, Debug, PartialEq, Eq)]
pub struct Ipv6Addresses;

/// A set of IPv6 addresses.
///
/// Its text has items separated by `,`, each an address, two with `-` between, or an address, `/` and a length. It is
/// printed as its maximal runs in ascending order, each as a prefix where it is one, as `2001:db8::/32`; addresses in
/// lower case without leading zeros, the first of the longest runs of two zero groups or more as `::`, never dotted.
pub type Ipv6Blocks = Blocks<Ipv6Addresses>;

impl Numbers for Ipv6Addresses {
    ghost use Rattle.rpki_sets.specs.Ipv6Addresses.{ipv6_kind};

    ghost kind = { ipv6_kind };

    fn width() -> u32 {
        128
    }

    fn has_prefixes() -> bool {
        true
    }

    fn read(text: &[u8]) -> Option<u128> {
        match Ipv6Addr::parse_ascii(text) {
            Ok(address) => Some(address.to_bits()),
            Err(_) => None,
        }
    }

    #[tactic(auto, using(crate::proofs::Ipv6Writing::written_groups))]
    fn write<W: fmt::Write>(f: &mut fmt::Formatter<W>, number: u128) -> fmt::Result {
        let groups = Ipv6Addr::from_bits(number).hex_groups();
        write!(f, "{groups}")
    }

    fn law() {}
}
