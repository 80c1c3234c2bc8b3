//! Runs over streams of which some calls fail.

use crate::signers::{signer_of, status_of};
use crate::words::words_of;
use crate::{out_of_memory, text_of};
use rpki_base::PublicKeyFormat;
use rpki_ca::Words;
use rpki_common::OutOfMemory;
use rpki_text::{MemorySink, MemorySource};
use std::alloc::Global;
use std::io;
use test_stored::{invalid, octets_of};

/// `PIECE` or `PIECE/CALL`: how many octets a call gives or takes, and the call that fails.
pub fn calls_of(alloc: Global, field: &str) -> io::Result<(usize, Vec<u64>)> {
    let (piece, call) = field.split_once('/').unwrap_or((field, ""));
    let Ok(piece) = piece.parse::<usize>() else {
        return Err(invalid());
    };
    let mut failing = Vec::new(alloc);
    if let Ok(call) = call.parse::<u64>() {
        failing.push(call)?;
    }
    Ok((piece, failing))
}

fn source_of(alloc: Global, calls: &str, input: &str) -> io::Result<MemorySource> {
    let (piece, failing) = calls_of(alloc, calls)?;
    let input = octets_of(alloc, text_of(input))?;
    MemorySource::new(alloc, &input, piece.max(1), &failing).map_err(out_of_memory)
}

fn sink_of(alloc: Global, calls: &str, room: &str) -> io::Result<MemorySink> {
    let (piece, failing) = calls_of(alloc, calls)?;
    let Ok(room) = room.parse::<usize>() else {
        return Err(invalid());
    };
    MemorySink::new(alloc, room, piece.max(1), &failing).map_err(out_of_memory)
}

// The status, what is written in hexadecimal, and how many calls of the source and of the sink failed.
fn ran(
    alloc: Global,
    words: &Words,
    source: &mut MemorySource,
    sink: &mut MemorySink,
) -> io::Result<String> {
    let (mut signer, key) = signer_of(alloc, PublicKeyFormat::Rsa, &[])?;
    let status = status_of(alloc, words, source, sink, &mut signer, key);
    let Ok(written) = hex::encode(alloc, sink.written()) else {
        return Err(out_of_memory(OutOfMemory));
    };
    Ok(format!(in alloc;
        "{status}/{}/{}/{}",
        written.as_str(),
        source.faults(),
        sink.faults()
    )?)
}

/// What a run says of the line `NAME faults ANSWER READ WRITE ROOM INPUT WORD..`.
pub fn answer_to(alloc: Global, line: &str) -> io::Result<String> {
    let mut fields = line.split_whitespace().skip(3);
    let (Some(read), Some(write), Some(room), Some(input)) = (
        fields.next(),
        fields.next(),
        fields.next(),
        fields.next(),
    ) else {
        return Err(invalid());
    };
    let words = words_of(alloc, line, 7)?;
    let mut source = source_of(alloc, read, input)?;
    let mut sink = sink_of(alloc, write, room)?;
    ran(alloc, &words, &mut source, &mut sink)
}
