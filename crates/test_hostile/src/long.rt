//! Signatures of any length.

use crate::runs::{Command, ROOM, command_of, number_of, out_of_memory};
use rpki_base::PublicKeyFormat;
use rpki_ca::Status;
use rpki_signer::{AnyVerifier, LongSigner, Signer};
use rpki_text::{MemorySink, MemorySource};
use std::alloc::Global;
use std::io;
use test_stored::invalid;

// A signer of seed 1 with the key 0, whose signatures have so many octets.
fn signer_of(alloc: Global, octets: u64) -> io::Result<LongSigner> {
    let Ok(octets) = usize::try_from(octets) else {
        return Err(invalid());
    };
    let mut signer = LongSigner::new(alloc, 1, octets).map_err(out_of_memory)?;
    match signer.create_key(alloc, PublicKeyFormat::Rsa) {
        Ok(_) => Ok(signer),
        Err(_) => Err(invalid()),
    }
}

// The status with this issuing key, and whether the command's line is written.
fn ran(
    alloc: Global,
    command: &Command,
    signer: &mut LongSigner,
    key: u64,
) -> io::Result<(u64, bool)> {
    let mut source = MemorySource::new(alloc, &command.input, 1000, &[]).map_err(out_of_memory)?;
    let mut sink = MemorySink::new(alloc, ROOM, ROOM, &[]).map_err(out_of_memory)?;
    let verifier = AnyVerifier::new();
    let words = &command.words;
    let Status(status) = rpki_ca::run(
        alloc,
        words,
        &mut source,
        &mut sink,
        &verifier,
        signer,
        &key,
    );
    Ok((u64::from(status), sink.written() == command.line.as_slice()))
}

/// Whether the command of a line is answered as it says.
pub fn holds(alloc: Global, line: &str) -> io::Result<bool> {
    let expected = number_of(line, 2)?;
    let mut signer = signer_of(alloc, number_of(line, 3)?)?;
    let overlong = number_of(line, 4)?;
    let key = number_of(line, 5)?;
    let command = command_of(alloc, line, 6)?;
    let (status, is_written) = ran(alloc, &command, &mut signer, key)?;
    Ok(status == expected && is_written && signer.overlong() == overlong)
}
