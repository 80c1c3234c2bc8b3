//! All cases, one after the other.

use crate::octets::invalid;
use std::alloc::Global;
use std::rt::Files;
use std::{fs, io};

/// What is done with a line.
pub trait Cases {
    /// Whether the line's case is answered as expected.
    fn holds(&self, alloc: Global, line: &str) -> io::Result<bool>;
}

fn name_of(line: &str) -> &str {
    match line.split_whitespace().next() {
        Some(name) => name,
        None => "",
    }
}

/// Runs the cases of the file `cases.txt`, prints the name of each that isn't answered as expected, and then how many there are.
pub fn run<R: Files + Print + AllocGlobal, C: Cases>(rt: &R, cases: &C) -> io::Result<()> {
    let text = fs::read_to_string(rt, "cases.txt")?;
    let mut count = 0usize;
    let mut differ = 0usize;
    for line in text.as_str().lines() {
        count = count.saturating_add(1);
        if !cases.holds(rt.alloc(), line)? {
            println!(rt; "case {} differs", name_of(line))?;
            differ = differ.saturating_add(1);
        }
    }
    println!(rt; "{count} cases, {differ} differ")
}
