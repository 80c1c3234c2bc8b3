use rpki_text::*;
use std::io;
use std::test::Fail;

#[test]
fn a_listed_call_fails_and_what_was_read_before_is_gone(rt: HostRuntime) -> Result<(), Fail> {
    let alloc = rt.alloc();
    let mut source = MemorySource::new(alloc, b"manifest".as_slice(), 4, [1u64].as_slice())?;
    assert_eq!(rt;
        read_all(alloc, &mut source, 100).err(),
        Some(ReadAllError::Read)
    );
    assert_eq!(rt; source.faults(), 1);
    assert_eq!(rt;
        read_all(alloc, &mut source, 100)?.as_slice(),
        b"fest".as_slice()
    );
    Ok(())
}

#[test]
fn a_source_that_fails_once_is_not_asked_again(rt: HostRuntime) -> Result<(), Fail> {
    let alloc = rt.alloc();
    let mut source = MemorySource::new(alloc, b"manifest".as_slice(), 8, [0u64].as_slice())?;
    assert_eq!(rt;
        read_all(alloc, &mut source, 8).err(),
        Some(ReadAllError::Read)
    );
    assert_eq!(rt; source.faults(), 1);
    Ok(())
}

// Whether the sink has got these octets, and so many of its calls failed.
fn has_got(sink: &MemorySink, octets: &[u8], faults: u64) -> bool {
    sink.written() == octets && sink.faults() == faults
}

#[test]
fn a_failing_sink_keeps_what_it_took(rt: HostRuntime) -> Result<(), Fail> {
    let alloc = rt.alloc();
    let mut sink = MemorySink::new(alloc, 20, 5, [1u64].as_slice())?;
    assert_eq!(rt;
        write_all(&mut sink, b"hello world".as_slice()),
        Err(Failed)
    );
    assert!(rt; has_got(&sink, b"hello".as_slice(), 1));
    assert_eq!(rt; write_all(&mut sink, b" world".as_slice()), Ok(()));
    assert_eq!(rt; sink.written(), b"hello world".as_slice());
    Ok(())
}

/// A device that answers an error at each call.
#[derive(Drop)]
struct Broken;

impl io::Read for Broken {
    fn read(&mut self, _: &mut [u8]) -> io::Result<usize> {
        Err(io::Error::from(io::ErrorKind::BrokenPipe))
    }
}

impl io::Write for Broken {
    fn write(&mut self, _: &[u8]) -> io::Result<usize> {
        Err(io::Error::from(io::ErrorKind::BrokenPipe))
    }

    fn flush(&mut self) -> io::Result<()> {
        Ok(())
    }
}

/// A device that takes nothing.
#[derive(Drop)]
struct Stuck;

impl io::Write for Stuck {
    fn write(&mut self, _: &[u8]) -> io::Result<usize> {
        Ok(0)
    }

    fn flush(&mut self) -> io::Result<()> {
        Ok(())
    }
}

#[test]
fn a_reader_of_std_is_read_whole(rt: HostRuntime) -> Result<(), Fail> {
    let alloc = rt.alloc();
    let mut source = StdSource::new(b"manifest".as_slice());
    assert_eq!(rt;
        read_all(alloc, &mut source, 8)?.as_slice(),
        b"manifest".as_slice()
    );
    assert_eq!(rt; source.faults(), 0);
    Ok(())
}

#[test]
fn an_error_of_a_reader_is_counted(rt: HostRuntime) -> Result<(), Fail> {
    let mut source = StdSource::new(Broken);
    assert_eq!(rt;
        read_all(rt.alloc(), &mut source, 8).err(),
        Some(ReadAllError::Read)
    );
    assert_eq!(rt; source.faults(), 1);
    Ok(())
}

#[test]
fn a_writer_of_std_gets_all_octets(rt: HostRuntime) -> Result<(), Fail> {
    let mut written = Vec::new(rt.alloc());
    let mut sink = StdSink::new(&mut written);
    assert_eq!(rt; write_all(&mut sink, b"hello".as_slice()), Ok(()));
    assert_eq!(rt; sink.faults(), 0);
    assert_eq!(rt; written.as_slice(), b"hello".as_slice());
    Ok(())
}

#[test]
fn an_error_of_a_writer_is_counted(rt: HostRuntime) -> Result<(), Fail> {
    let mut sink = StdSink::new(Broken);
    assert_eq!(rt; write_all(&mut sink, b"hello".as_slice()), Err(Failed));
    assert_eq!(rt; sink.faults(), 1);
    Ok(())
}

#[test]
fn a_writer_that_takes_nothing_is_a_fault(rt: HostRuntime) -> Result<(), Fail> {
    let mut sink = StdSink::new(Stuck);
    assert_eq!(rt; sink.write(b"".as_slice()), Ok(0));
    assert_eq!(rt; sink.faults(), 0);
    assert_eq!(rt; write_all(&mut sink, b"hello".as_slice()), Err(Failed));
    assert_eq!(rt; sink.faults(), 1);
    Ok(())
}
