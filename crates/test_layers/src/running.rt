use rpki_ca::*;
use rpki_signer::{ToySigner, ToyVerifier};
use rpki_text::{MemorySink, MemorySource};
use std::alloc::Global;
use std::test::Fail;

// Whether `content` answers so many digits by this status and this line.
fn answers(alloc: Global, len: usize, status: u8, line: &[u8]) -> Result<bool, Fail> {
    let mut words = Words::new(alloc);
    words.push("content")?;
    let octets = vec![in alloc; b'0'; len]?;
    let mut source = MemorySource::new(alloc, &octets, 1 << 20, &[])?;
    let mut sink = MemorySink::new(alloc, 1000, 1000, &[])?;
    let mut signer = ToySigner::new(alloc, 1, &[])?;
    let verifier = ToyVerifier::new();
    let answer = run(
        alloc,
        &words,
        &mut source,
        &mut sink,
        &verifier,
        &mut signer,
        &0,
    );
    Ok(answer == Status(status) && sink.written() == line)
}

// The stored cases of test_run run as Rattle's own compiler builds them too, which takes too long here.
#[test]
fn reading_stops_behind_the_limit(rt: HostRuntime) -> Result<(), Fail> {
    let alloc = rt.alloc();
    assert!(rt; answers(alloc, 1 << 26, 4, b"CmsDecode\n")?);
    assert!(rt; answers(alloc, (1 << 26) + 1, 9, b"TooLong\n")?);
    Ok(())
}
