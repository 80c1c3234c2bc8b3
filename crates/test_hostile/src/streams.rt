//! Sources and sinks of which a call fails.

use crate::runs::{Command, ROOM, command_of, number_of, out_of_memory, status_of};
use rpki_text::{MemorySink, MemorySource};
use std::alloc::Global;
use std::io;
use test_stored::invalid;

// How many calls there are, how many octets each gives or takes, and the command.
#[derive(Drop)]
struct Asked {
    count: u64,
    piece: usize,
    command: Command,
}

fn asked_of(alloc: Global, line: &str) -> io::Result<Asked> {
    let count = number_of(line, 2)?;
    let Ok(piece) = usize::try_from(number_of(line, 3)?) else {
        return Err(invalid());
    };
    let command = command_of(alloc, line, 4)?;
    Ok(Asked {
        count,
        piece: piece.max(1),
        command,
    })
}

// Whether a run answers as it has to, where this call of the source is to fail: it does, or there are no so many calls.
fn is_read(alloc: Global, asked: &Asked, call: u64) -> io::Result<bool> {
    let command = &asked.command;
    let piece = asked.piece.max(1);
    let mut source = MemorySource::new(alloc, &command.input, piece, &[call]).map_err(
        out_of_memory,
    )?;
    let mut sink = MemorySink::new(alloc, ROOM, ROOM, &[]).map_err(out_of_memory)?;
    let status = status_of(alloc, &command.words, &mut source, &mut sink)?;
    if call < asked.count {
        return Ok(
            status == 10 && source.faults() == 1 && sink.written() == b"ReadFault\n".as_slice(),
        );
    }
    Ok(status == 0 && source.faults() == 0 && sink.written() == command.line.as_slice())
}

/// Whether the command of a line answers as it has to whichever call of its source fails.
pub fn reads_hold(alloc: Global, line: &str) -> io::Result<bool> {
    let asked = asked_of(alloc, line)?;
    for call in 0..=asked.count {
        if !is_read(alloc, &asked, call)? {
            return Ok(false);
        }
    }
    Ok(true)
}

// The beginning of the line that this many calls of the sink write.
fn written_by<'a>(asked: &'a Asked, calls: u64) -> Option<&'a [u8]> {
    let calls = usize::try_from(calls).ok()?;
    asked.command.line.get(..asked.piece.checked_mul(calls)?)
}

// Whether a run answers as it has to, where this call of the sink is to fail: it does, or there are no so many calls.
fn is_written(alloc: Global, asked: &Asked, call: u64) -> io::Result<bool> {
    let command = &asked.command;
    let piece = asked.piece.max(1);
    let mut source = MemorySource::new(alloc, &command.input, 1000, &[]).map_err(out_of_memory)?;
    let mut sink = MemorySink::new(alloc, ROOM, piece, &[call]).map_err(out_of_memory)?;
    let status = status_of(alloc, &command.words, &mut source, &mut sink)?;
    if call < asked.count {
        return Ok(
            status == 11 && sink.faults() == 1 && Some(sink.written()) == written_by(asked, call),
        );
    }
    Ok(status == 0 && sink.faults() == 0 && sink.written() == command.line.as_slice())
}

/// Whether the command of a line answers as it has to whichever call of its sink fails.
pub fn writes_hold(alloc: Global, line: &str) -> io::Result<bool> {
    let asked = asked_of(alloc, line)?;
    for call in 0..=asked.count {
        if !is_written(alloc, &asked, call)? {
            return Ok(false);
        }
    }
    Ok(true)
}
