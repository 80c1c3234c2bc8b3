//! Commands in memory.

use crate::ended::Ended;
use crate::signing::{KEY, signer_of};
use rpki_ca::{Status, Words, run};
use rpki_signer::{ToySigner, ToyVerifier};
use rpki_text::{MemorySink, MemorySource};
use std::alloc::Global;
use test_stored::octets_of;

// Input, the line that is to be written, and the words.
#[derive(Drop)]
struct Asked {
    input: Vec<u8>,
    line: Vec<u8>,
    words: Words,
}

// The octets of a word; a word that spells none is told as want of memory too, and ends the gate's run.
fn octets(alloc: Global, word: Option<&str>) -> Result<Vec<u8>, Ended> {
    let Some(word) = word else {
        return Err(Ended::Wrong);
    };
    match octets_of(alloc, word) {
        Ok(octets) => Ok(octets),
        Err(_) => Err(Ended::OutOfMemory),
    }
}

fn asked_of(alloc: Global, line: &str) -> Result<Asked, Ended> {
    let mut fields = line.split_whitespace().skip(2);
    let input = octets(alloc, fields.next())?;
    let line = octets(alloc, fields.next())?;
    let mut words = Words::new(alloc);
    for word in fields {
        words.push(word)?;
    }
    Ok(Asked { input, line, words })
}

// The status, where nothing was counted.
fn status_of(
    alloc: Global,
    words: &Words,
    source: &mut MemorySource,
    sink: &mut MemorySink,
    signer: &mut ToySigner,
) -> Option<u8> {
    let Status(status) = run(
        alloc,
        words,
        source,
        sink,
        &ToyVerifier::new(),
        signer,
        &KEY,
    );
    let is_uncounted = source.faults() == 0
        && sink.faults() == 0
        && signer.faults() == 0
        && signer.reused() == 0;
    if is_uncounted { Some(status) } else { None }
}

fn answered(
    alloc: Global,
    words: &Words,
    source: &mut MemorySource,
    sink: &mut MemorySink,
) -> Result<Option<u8>, Ended> {
    let mut signer = signer_of(alloc)?;
    Ok(status_of(alloc, words, source, sink, &mut signer))
}

// How a run ends that wrote this, and has to write that line.
fn ended(status: Option<u8>, written: &[u8], line: &[u8]) -> Result<(), Ended> {
    if status == Some(0) && written == line {
        return Ok(());
    }
    if status == Some(12) && written == b"OutOfMemory\n".as_slice() {
        return Err(Ended::OutOfMemory);
    }
    Err(Ended::Wrong)
}

fn ran_from(alloc: Global, asked: &Asked, source: &mut MemorySource) -> Result<(), Ended> {
    let mut sink = MemorySink::new(alloc, 1 << 16, 1000, &[])?;
    let status = answered(alloc, &asked.words, source, &mut sink)?;
    ended(status, sink.written(), &asked.line)
}

/// Runs the command of the line `NAME run INPUT LINE WORD..`, which has to write LINE, or the line of want of memory.
pub fn ran(alloc: Global, line: &str) -> Result<(), Ended> {
    let asked = asked_of(alloc, line)?;
    let mut source = MemorySource::new(alloc, &asked.input, 1000, &[])?;
    ran_from(alloc, &asked, &mut source)
}
