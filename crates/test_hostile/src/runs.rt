//! Commands, as lines have them.

use crate::signers::signer_of;
use rpki_ca::{Status, Words};
use rpki_common::OutOfMemory;
use rpki_signer::ToyVerifier;
use rpki_text::{MemorySink, MemorySource};
use std::alloc::Global;
use std::io;
use std::io::ErrorKind;
use test_stored::{invalid, octets_of};

/// How much a sink takes.
pub const ROOM: usize = 1 << 20;

/// A command, its input, and what it writes.
#[derive(Drop)]
pub struct Command {
    pub input: Vec<u8>,
    pub line: Vec<u8>,
    pub words: Words,
}

/// Want of memory, as the case programs tell it.
pub fn out_of_memory(_: OutOfMemory) -> io::Error {
    io::Error::from(ErrorKind::OutOfMemory)
}

fn octets(alloc: Global, field: Option<&str>) -> io::Result<Vec<u8>> {
    match field {
        Some(field) => octets_of(alloc, field),
        None => Err(invalid()),
    }
}

/// The command that the fields of a line behind this many are.
pub fn command_of(alloc: Global, line: &str, behind: usize) -> io::Result<Command> {
    let mut fields = line.split_whitespace().skip(behind);
    let input = octets(alloc, fields.next())?;
    let line = octets(alloc, fields.next())?;
    let mut words = Words::new(alloc);
    for word in fields {
        words.push(word).map_err(out_of_memory)?;
    }
    Ok(Command { input, line, words })
}

/// The number that this field of a line is.
pub fn number_of(line: &str, place: usize) -> io::Result<u64> {
    let field = line.split_whitespace().nth(place).unwrap_or("");
    match field.parse::<u64>() {
        Ok(number) => Ok(number),
        Err(_) => Err(invalid()),
    }
}

/// The status of a command with the signer's key 0, and no status where a call of the signer failed.
pub fn status_of(
    alloc: Global,
    words: &Words,
    source: &mut MemorySource,
    sink: &mut MemorySink,
) -> io::Result<u64> {
    let mut signer = signer_of(alloc, &[])?;
    let Status(status) = rpki_ca::run(
        alloc,
        words,
        source,
        sink,
        &ToyVerifier::new(),
        &mut signer,
        &0,
    );
    if signer.faults() != 0 || signer.reused() != 0 {
        return Err(invalid());
    }
    Ok(u64::from(status))
}

/// Whether the command of a line is answered as it says.
pub fn holds(alloc: Global, line: &str) -> io::Result<bool> {
    let expected = number_of(line, 2)?;
    let command = command_of(alloc, line, 3)?;
    let mut source = MemorySource::new(alloc, &command.input, 1 << 16, &[]).map_err(out_of_memory)?;
    let mut sink = MemorySink::new(alloc, ROOM, ROOM, &[]).map_err(out_of_memory)?;
    let status = status_of(alloc, &command.words, &mut source, &mut sink)?;
    Ok(status == expected && sink.written() == command.line.as_slice())
}
