//! Numbers of the three kinds of sets, printed by the kind.

use crate::calls::{Answer, given, refused};
use rpki_sets::{AsNumbers, Ipv4Addresses, Ipv6Addresses, Numbers};
use std::alloc::Global;
use std::{fmt, io};

/// An AS number.
#[derive(Clone, Copy)]
struct Asn {
    number: u32,
}

impl fmt::Display for Asn {
    fn fmt<W: fmt::Write>(&self, f: &mut fmt::Formatter<W>) -> fmt::Result {
        AsNumbers::write(f, u128::from(self.number))
    }
}

/// An IPv4 address.
#[derive(Clone, Copy)]
struct Ipv4 {
    number: u32,
}

impl fmt::Display for Ipv4 {
    fn fmt<W: fmt::Write>(&self, f: &mut fmt::Formatter<W>) -> fmt::Result {
        Ipv4Addresses::write(f, u128::from(self.number))
    }
}

/// An IPv6 address.
#[derive(Clone, Copy)]
struct Ipv6 {
    number: u128,
}

impl fmt::Display for Ipv6 {
    fn fmt<W: fmt::Write>(&self, f: &mut fmt::Formatter<W>) -> fmt::Result {
        Ipv6Addresses::write(f, self.number)
    }
}

// What a number of four octets prints.
fn of_four(alloc: Global, call: &str, octets: &[u8]) -> io::Result<Answer> {
    let Ok(octets) = <&[u8; 4]>::try_from(octets) else {
        return refused("None");
    };
    let number = u32::from_be_bytes(*octets);
    if call == "number_as" {
        let shown = Asn { number };
        given(alloc, format!(in alloc; "{shown}")?.as_bytes())
    } else {
        let shown = Ipv4 { number };
        given(alloc, format!(in alloc; "{shown}")?.as_bytes())
    }
}

// What a number of sixteen octets prints.
fn of_sixteen(alloc: Global, octets: &[u8]) -> io::Result<Answer> {
    let Ok(octets) = <&[u8; 16]>::try_from(octets) else {
        return refused("None");
    };
    let shown = Ipv6 {
        number: u128::from_be_bytes(*octets),
    };
    given(alloc, format!(in alloc; "{shown}")?.as_bytes())
}

/// What a call answers to the octets of a number, the most significant first.
pub fn answer_to(alloc: Global, call: &str, octets: &[u8]) -> io::Result<Answer> {
    match call {
        "number_as" | "number_ipv4" => of_four(alloc, call, octets),
        "number_ipv6" => of_sixteen(alloc, octets),
        _ => Ok(Answer::Unknown),
    }
}
