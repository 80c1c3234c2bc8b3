//! A source in memory.

ghost use Rattle.std.specs.Prelude.{◌≡◌, ◌↔◌, ◌≤◌, ◌<◌, ◌++◌, min, drop, take, length, Contains, IfOk, OnOk, OnErr, IsErr, Some};
ghost use Rattle.std.specs.Io.{ReadsAtMost};
ghost use Rattle.std.specs.Io.KnownBytes.{Consumes, IsAtEnd};
ghost use Rattle.rpki_common.specs.Causes.{HasCause};
ghost use Rattle.rpki_text.specs.MemorySource.{source_of, after_giving, after_failing};

use crate::traits::{Failed, Source};
use rpki_common::OutOfMemory;
use std::alloc::Global;
use std::marker::Model;

/// A source in memory, which gives its octets in pieces and fails at listed calls.
///
/// In a clause it is a record of the octets still to come (`rest`), the most that a call gives
/// (`piece`), how many calls of `read` there were (`calls`), the numbers of the calls that fail,
/// counted from 0 (`failing`), and how many failed (`faults`). Both counts stop at 2^64 - 1.
pub struct MemorySource {
    octets: Vec<u8>,
    at: usize,
    piece: usize,
    calls: u64,
    failing: Vec<u64>,
    faults: u64,
}

impl Drop for MemorySource {
    fn drop(self) {
        let MemorySource {
            octets,
            at,
            piece,
            calls,
            failing,
            faults,
        } = self;
    }
}

impl Model for MemorySource {
    ghost use Rattle.std.specs.Prelude.{◌≤◌, drop, length};
    ghost use Rattle.rpki_text.specs.MemorySource.{SourceState};

    ghost Value = { SourceState };

    ghost view = { λ s. record {
      rest = drop s.at s.octets.items;
      piece = s.piece;
      calls = s.calls;
      failing = s.failing.items;
      faults = s.faults;
    } };

    ghost invariant = { λ s. (s.at ≤ length s.octets.items) × (1 ≤ s.piece) };
}

impl MemorySource {
    /// A source of `octets`, which gives at most `piece` of them a call, and fails at each call whose
    /// number, counted from 0, stands in `failing`. `piece` has to be 1 at least.
    pub fn new(
        alloc: Global,
        octets: &[u8],
        piece: usize,
        failing: &[u64],
    ) -> Result<MemorySource, OutOfMemory>
        requires { 1 ≤ piece }
        ensures { IfOk result (λ s. s ≡ source_of octets.now piece failing.now) }
    {
        Ok(MemorySource {
            octets: octets.to_vec(alloc)?,
            at: 0,
            piece,
            calls: 0,
            failing: failing.to_vec(alloc)?,
            faults: 0,
        })
    }

    /// How many calls failed.
    pub fn faults(&self) -> u64
        ensures { result ≡ self.now.faults }
    {
        self.faults
    }
}

/// Copies `from` over the front of `into`.
fn copy_front(into: &mut [u8], from: &[u8])
    requires { length from.now ≤ length into.old }
    ensures front { take (length from.now) into.new ≡ from.now }
    ensures whole { into.new ≡ from.now ++ drop (length from.now) into.old }
{
    into[..from.len()].copy_from_slice(from);
}

impl Source for MemorySource {
    ghost rest = { λ s. Some s.rest };

    ghost faults = { λ s. s.faults };

    fn read(&mut self, into: &mut [u8]) -> Result<usize, Failed>
        // What each source promises.
        ensures bound { ReadsAtMost result into.new }
        ensures next { IfOk result (λ k.
            Consumes (Some self.old.rest) (Some self.new.rest) (take k into.new)) }
        ensures end { IfOk result (λ k.
            k ≡ 0 → 0 < length into.new → IsAtEnd (Some self.new.rest)) }
        ensures failed { OnErr result (Some self.new.rest ≡ Some self.old.rest) }
        ensures cause { HasCause self.old.faults self.new.faults result }
        ensures kept { OnOk result (self.new.faults ≡ self.old.faults) }

        // Which answer, and what the source and `into` are then.
        ensures fails { IsErr result ↔ Contains self.old.failing self.old.calls }
        ensures count { IfOk result (λ k.
            k ≡ min self.old.piece (min (length into.new) (length self.old.rest))) }
        ensures given { IfOk result (λ k. into.new ≡ take k self.old.rest ++ drop k into.old) }
        ensures ok { IfOk result (λ k. self.new ≡ after_giving k self.old) }
        ensures err { OnErr result (self.new ≡ after_failing self.old) }
        ensures untouched { OnErr result (into.new ≡ into.old) }
    {
        let fails = self.failing.contains(&self.calls);
        self.calls = self.calls.saturating_add(1);
        if fails {
            self.faults = self.faults.saturating_add(1);
            return Err(Failed);
        }
        let left = self.octets.len() - self.at;
        let count = self.piece.min(into.len().min(left));
        copy_front(into, &self.octets[self.at..self.at + count]);
        self.at += count;
        Ok(count)
    }
}
