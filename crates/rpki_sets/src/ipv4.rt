//! IPv4 addresses.

use crate::blocks::Blocks;
use crate::numbers::Numbers;
use std::fmt;
use std::net::Ipv4Addr;

/// IPv4 addresses: four decimal numbers from 0 to 255 without leading zeros, with dots between them.
#[derive(Clone, Copy, Debug, PartialEq, Eq)]
pub struct Ipv4Addresses;

/// A set of IPv4 addresses.
///
/// Its text has items separated by `,`, each an address, two with `-` between, or an address, `/` and a length. It is
/// printed as its maximal runs in ascending order, each as a prefix where it is one, as `10.0.0.0/8,192.0.2.1-192.0.2.2`.
pub type Ipv4Blocks = Blocks<Ipv4Addresses>;

impl Numbers for Ipv4Addresses {
    ghost use Rattle.rpki_sets.specs.Ipv4Addresses.{ipv4_kind};

    ghost kind = { ipv4_kind };

    fn width() -> u32 {
        32
    }

    fn has_prefixes() -> bool {
        true
    }

    fn read(text: &[u8]) -> Option<u128> {
        match Ipv4Addr::parse_ascii(text) {
            Ok(address) => Some(u128::from(address.to_bits())),
            Err(_) => None,
        }
    }

    fn write<W: fmt::Write>(f: &mut fmt::Formatter<W>, number: u128) -> fmt::Result {
        let address = Ipv4Addr::from_bits(number as u32);
        write!(f, "{address}")
    }

    fn law() {}
}
