//! Runs one layer of the library over all of standard input, and says in a line what it answers: for measurements alone.
#![tactic(auto)]

mod layer;
mod walk;

use crate::layer::{Layer, Outcome};
use rpki_text::{StdSource, read_all};
use std::io::ErrorKind;
use std::rt::Env;
use std::{env, io};

const USAGE: &str = "layers document | tree | walk < INPUT";

/// The most octets that are read.
const LIMIT: u64 = 1 << 27;

// The layer that the only word names.
fn layer_of<R: Env + AllocGlobal>(rt: &R) -> Option<Layer> {
    let mut words = env::args(rt).ok()?.skip(1);
    let word = words.next()?;
    if words.next().is_some() {
        return None;
    }
    Layer::named(word.as_str())
}

fn main(rt: HostRuntime) -> io::Result<()> {
    let Some(layer) = layer_of(&rt) else {
        return println!(rt; "{USAGE}");
    };
    let mut input = StdSource::new(rt.stdin());
    let Ok(octets) = read_all(rt.alloc(), &mut input, LIMIT) else {
        return Err(io::Error::from(ErrorKind::InvalidData));
    };
    match layer.outcome(rt.alloc(), &octets) {
        Outcome::Read => println!(rt; "read"),
        Outcome::Octets(count) => println!(rt; "{count} octets"),
        Outcome::Values(count) => println!(rt; "{count} values"),
        Outcome::Malformed => println!(rt; "malformed"),
        Outcome::OutOfMemory => println!(rt; "out of memory"),
    }
}
