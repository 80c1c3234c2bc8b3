//! Cases in which memory may be refused at any growth: what was lent is then as before, and the answer is want of memory.
//!
//! A line of standard input is a case, `NAME CALL WORD..`. The program runs them in their order and writes that each came to its end.
//! Where memory was refused and all else is as it has to be, it ends with a status that isn't 0; else it says which case ended wrong.
//! tools/run/refused_growth.py runs it with each of its growths refused in turn.
#![tactic(auto)]

mod classes;
mod delta;
mod ended;
mod lent;
mod lists;
mod request;
mod runs;
mod signing;
mod writers;

use crate::ended::Ended;
use std::alloc::Global;
use std::io;
use std::io::ErrorKind;

// How the case of a line ends.
fn outcome(alloc: Global, line: &str) -> Result<(), Ended> {
    match line.split_whitespace().nth(1).unwrap_or("") {
        "run" => runs::ran(alloc, line),
        "delta" => delta::exchanged(alloc),
        "request" => request::exchanged(alloc),
        "classes" => classes::exchanged(alloc),
        "changes" => lists::changed(alloc),
        "objects" => lists::listed(alloc),
        "errors" => lists::reported(alloc),
        "values" => writers::values(alloc),
        "elements" => writers::elements(alloc),
        "words" => lent::words(alloc),
        "levels" => lent::levels(alloc),
        "segments" => lent::segments(alloc),
        _ => Err(Ended::Wrong),
    }
}

fn main(rt: HostRuntime) -> io::Result<()> {
    let text = io::read_to_string(rt.alloc(), rt.stdin())?;
    for line in text.as_str().lines() {
        let name = line.split_whitespace().next().unwrap_or("");
        match outcome(rt.alloc(), line) {
            Ok(()) => println!(rt; "{name} came to its end")?,
            Err(Ended::OutOfMemory) => return Err(io::Error::from(ErrorKind::OutOfMemory)),
            Err(Ended::Wrong) => println!(rt; "{name} ended wrong")?,
        }
    }
    Ok(())
}
