//! A source and a sink over what `std` reads and writes.

ghost use Rattle.std.specs.Prelude.{◌≡◌, ◌⊎◌, ◌<◌, length, Ok, IfOk, OnOk, OnErr, IsErr, None};
ghost use Rattle.std.specs.Io.{ReadsAtMost, WritesAtMost};
ghost use Rattle.std.specs.Io.KnownBytes.{ReadConsumes, WriteAppends};
ghost use Rattle.rpki_common.specs.Causes.{HasCause};
ghost use Rattle.rpki_text.specs.Counts.{count_after};

use crate::traits::{Failed, Sink, Source};
use std::io;
use std::io::{Read, Write};
use std::marker::Model;

// What a source answers where its reader answers this, and how many calls failed then.
fn counted_read(answer: io::Result<usize>, faults: &mut u64) -> Result<usize, Failed>
    ensures given { IfOk answer (λ count. result ≡ Ok count) }
    ensures failed { OnErr answer (IsErr result) }
    ensures cause { HasCause faults.old faults.new result }
    ensures same { OnOk result (faults.new ≡ faults.old) }
    ensures counted { OnErr result (faults.new ≡ count_after faults.old) }
{
    match answer {
        Ok(count) => Ok(count),
        Err(_) => {
            *faults = faults.saturating_add(1);
            Err(Failed)
        }
    }
}

// What a sink answers where its writer answers this for so many octets, and how many calls failed
// then.
fn counted_write(
    answer: io::Result<usize>,
    offered: usize,
    faults: &mut u64,
) -> Result<usize, Failed>
    ensures given { IfOk answer (λ count. (0 < count) ⊎ (offered ≡ 0) → result ≡ Ok count) }
    ensures nothing { IfOk answer (λ count. count ≡ 0 → 0 < offered → IsErr result) }
    ensures failed { OnErr answer (IsErr result) }
    ensures cause { HasCause faults.old faults.new result }
    ensures same { OnOk result (faults.new ≡ faults.old) }
    ensures counted { OnErr result (faults.new ≡ count_after faults.old) }
{
    match answer {
        Ok(count) if count > 0 || offered == 0 => Ok(count),
        _ => {
            *faults = faults.saturating_add(1);
            Err(Failed)
        }
    }
}

/// A source over a reader of `std`. It doesn't tell the octets still to come.
///
/// In a clause it is a record of the reader (`reader`) and of how many calls failed (`faults`), a
/// count that stops at 2^64 - 1.
#[derive(Drop)]
pub struct StdSource<R> {
    reader: R,
    faults: u64,
}

impl<R> Model for StdSource<R> {
    ghost use Rattle.rpki_text.specs.StdSource.{SourceOver};

    ghost Value = { SourceOver R };

    ghost view = { λ s. record { reader = s.reader; faults = s.faults } };
}

impl<R> StdSource<R> {
    /// A source of what `reader` gives.
    pub fn new(reader: R) -> Self
        ensures { result ≡ record { reader = reader; faults = 0 } }
    {
        StdSource { reader, faults: 0 }
    }

    /// How many calls failed.
    pub fn faults(&self) -> u64
        ensures { result ≡ self.now.faults }
    {
        self.faults
    }
}

impl<R: Read> Source for StdSource<R> {
    ghost rest = { λ _. None };

    ghost faults = { λ s. s.faults };

    /// Reads from the reader once. Each of its errors is a fault.
    fn read(&mut self, into: &mut [u8]) -> Result<usize, Failed>
        // What each source promises, beside what it would tell.
        ensures bound { ReadsAtMost result into.new }
        ensures cause { HasCause self.old.faults self.new.faults result }
        ensures kept { OnOk result (self.new.faults ≡ self.old.faults) }

        // The call is one of the reader's, and counts its fault.
        ensures passed { ReadConsumes (R.remaining self.old.reader)
            (R.remaining self.new.reader) result into.new }
        ensures err { OnErr result (self.new.faults ≡ count_after self.old.faults) }
    {
        counted_read(self.reader.read(into), &mut self.faults)
    }
}

/// A sink over a writer of `std`. It doesn't tell the octets written.
///
/// In a clause it is a record of the writer (`writer`) and of how many calls failed (`faults`), a
/// count that stops at 2^64 - 1.
#[derive(Drop)]
pub struct StdSink<W> {
    writer: W,
    faults: u64,
}

impl<W> Model for StdSink<W> {
    ghost use Rattle.rpki_text.specs.StdSink.{SinkOver};

    ghost Value = { SinkOver W };

    ghost view = { λ s. record { writer = s.writer; faults = s.faults } };
}

impl<W> StdSink<W> {
    /// A sink into `writer`. It never flushes the writer.
    pub fn new(writer: W) -> Self
        ensures { result ≡ record { writer = writer; faults = 0 } }
    {
        StdSink { writer, faults: 0 }
    }

    /// How many calls failed.
    pub fn faults(&self) -> u64
        ensures { result ≡ self.now.faults }
    {
        self.faults
    }
}

impl<W: Write> Sink for StdSink<W> {
    ghost written = { λ _. None };

    ghost faults = { λ s. s.faults };

    /// Writes to the writer once. Each of its errors is a fault, and so is a writer that takes
    /// nothing of a `from` that isn't empty.
    fn write(&mut self, from: &[u8]) -> Result<usize, Failed>
        // What each sink promises, beside what it would tell.
        ensures bound { WritesAtMost result from.now }
        ensures some { IfOk result (λ k. 0 < length from.now → 0 < k) }
        ensures cause { HasCause self.old.faults self.new.faults result }
        ensures kept { OnOk result (self.new.faults ≡ self.old.faults) }

        // The call is one of the writer's, and counts its fault.
        ensures passed { WriteAppends (W.contents self.old.writer)
            (W.contents self.new.writer) result from.now }
        ensures err { OnErr result (self.new.faults ≡ count_after self.old.faults) }
    {
        counted_write(self.writer.write(from), from.len(), &mut self.faults)
    }
}
