//! A sink in memory.

ghost use Rattle.std.specs.Prelude.{◌≡◌, ◌↔◌, ◌≤◌, ◌<◌, ◌-◌, ◌++◌, ◌⊎◌, [], min, take, length, Contains, IfOk, OnOk, OnErr, IsErr, Some};
ghost use Rattle.std.specs.Io.{WritesAtMost};
ghost use Rattle.std.specs.Io.KnownBytes.{Appends};
ghost use Rattle.rpki_common.specs.Causes.{HasCause};
ghost use Rattle.rpki_text.specs.MemorySink.{empty_sink, after_taking, after_failing};

use crate::traits::{Failed, Sink};
use rpki_common::OutOfMemory;
use std::alloc::Global;
use std::marker::Model;

/// A sink in memory, which takes octets in pieces, has a room, and fails at listed calls and where
/// no room is left.
///
/// In a clause it is a record of the octets written so far (`written`), the room that is left
/// (`room`), the most that a call takes (`piece`), how many calls of `write` there were (`calls`),
/// the numbers of the calls that fail, counted from 0 (`failing`), and how many failed (`faults`).
/// Both counts stop at 2^64 - 1.
pub struct MemorySink {
    octets: Vec<u8>,
    room: usize,
    piece: usize,
    calls: u64,
    failing: Vec<u64>,
    faults: u64,
}

impl Drop for MemorySink {
    fn drop(self) {
        let MemorySink {
            octets,
            room,
            piece,
            calls,
            failing,
            faults,
        } = self;
    }
}

impl Model for MemorySink {
    ghost use Rattle.std.specs.Prelude.{◌≤◌, ◌+◌, length, vec_capacity};
    ghost use Rattle.rpki_text.specs.MemorySink.{SinkState};

    ghost Value = { SinkState };

    ghost view = { λ s. record {
      written = s.octets.items;
      room = s.room;
      piece = s.piece;
      calls = s.calls;
      failing = s.failing.items;
      faults = s.faults;
    } };

    ghost invariant = { λ s. (length s.octets.items + s.room ≤ vec_capacity s.octets)
        × (1 ≤ s.piece) };
}

impl MemorySink {
    /// An empty sink with room for `room` octets, which takes at most `piece` of them a call, 1 at
    /// least, and fails at each call whose number, counted from 0, stands in `failing`. `piece` has to
    /// be 1 at least. All its memory is taken here: `write` takes none.
    pub fn new(
        alloc: Global,
        room: usize,
        piece: usize,
        failing: &[u64],
    ) -> Result<MemorySink, OutOfMemory>
        requires { 1 ≤ piece }
        ensures { IfOk result (λ s. s ≡ empty_sink room piece failing.now) }
    {
        let octets = Vec::with_capacity(alloc, room)?;
        Ok(MemorySink {
            octets,
            room,
            piece,
            calls: 0,
            failing: failing.to_vec(alloc)?,
            faults: 0,
        })
    }

    /// The octets written so far.
    pub fn written(&self) -> &[u8]
        ensures { result.now ≡ self.now.written }
    {
        &self.octets
    }

    /// How many calls failed.
    pub fn faults(&self) -> u64
        ensures { result ≡ self.now.faults }
    {
        self.faults
    }
}

impl Sink for MemorySink {
    ghost written = { λ s. Some s.written };

    ghost faults = { λ s. s.faults };

    fn write(&mut self, from: &[u8]) -> Result<usize, Failed>
        // What each sink promises.
        ensures bound { WritesAtMost result from.now }
        ensures some { IfOk result (λ k. 0 < length from.now → 0 < k) }
        ensures next { IfOk result (λ k.
            Appends (Some self.old.written) (Some self.new.written) (take k from.now)) }
        ensures failed { OnErr result (Some self.new.written ≡ Some self.old.written) }
        ensures cause { HasCause self.old.faults self.new.faults result }
        ensures kept { OnOk result (self.new.faults ≡ self.old.faults) }

        // Which answer, and what the sink is then.
        ensures fails { IsErr result
            ↔ (Contains self.old.failing self.old.calls ⊎ (self.old.room ≡ 0)) }
        ensures count { IfOk result (λ k.
            k ≡ min self.old.piece (min (length from.now) self.old.room)) }
        ensures ok { IfOk result (λ k. self.new ≡ after_taking (take k from.now) self.old) }
        ensures err { OnErr result (self.new ≡ after_failing self.old) }
    {
        let fails = self.failing.contains(&self.calls);
        self.calls = self.calls.saturating_add(1);
        if fails || self.room == 0 {
            self.faults = self.faults.saturating_add(1);
            return Err(Failed);
        }
        let count = self.piece.min(from.len().min(self.room));
        let Ok(()) = self.octets.extend_from_slice(&from[..count]) else {
            unreachable!()
        };
        self.room -= count;
        Ok(count)
    }
}
