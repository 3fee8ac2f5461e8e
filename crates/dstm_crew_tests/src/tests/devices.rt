ghost use Rattle.std.specs.Prelude.{◌≡◌, IfOk, IfSome, OnOk};
ghost use Rattle.std.specs.Io.KnownBytes.{Appends};

use dstm_io::{
    MemorySink, MemorySource, ReadError, Sink, Source, StdSink, StdSource, WriteFault, read_all,
    write_all,
};
use std::alloc::{AllocError, Global};
use std::io;
use std::io::{ErrorKind, Read, Write};
use std::test::Fail;

const TEXT: [u8; 3] = *b"abc";

// Copies a source to a sink. Its clause says what generic callers learn from the bounds alone.
fn copy<S: Source, K: Sink>(alloc: Global, source: &mut S, sink: &mut K) -> Result<(), Fail>
    ensures { OnOk result (IfSome (S.left source.old) (Appends (K.taken sink.old) (K.taken sink.new))) }
{
    let bytes = read_all(alloc, source, 100)?;
    write_all(sink, &bytes)?;
    Ok(())
}

// What is read of these bytes, where these calls fail.
fn read_of(
    alloc: Global,
    bytes: &[u8],
    fails: &[u64],
    limit: u32,
) -> Result<Result<Vec<u8>, ReadError>, AllocError> {
    let mut source = MemorySource::make(alloc, bytes, fails)?;
    Ok(read_all(alloc, &mut source, limit as usize))
}

fn length_of(answer: &Result<Vec<u8>, ReadError>) -> Result<usize, ReadError> {
    match answer {
        Ok(bytes) => Ok(bytes.len()),
        Err(why) => Err(*why),
    }
}

#[test]
fn reads_up_to_the_limit(rt: HostRuntime) -> Result<(), Fail> {
    for (limit, fails, want) in [
        (3, None, Ok(3)),
        (4, None, Ok(3)),
        (2, None, Err(ReadError::TooLong)),
        (0, None, Err(ReadError::TooLong)),
        (3, Some(0), Err(ReadError::Fault)),
        (3, Some(1), Err(ReadError::Fault)),
        (3, Some(2), Ok(3)),
    ] {
        let answer = read_of(rt.alloc(), &TEXT, fails.as_slice(), limit)?;
        assert!(rt; length_of(&answer) == want);
    }
    Ok(())
}

#[test]
fn reads_long_inputs_and_on_after_a_fault(rt: HostRuntime) -> Result<(), Fail> {
    let bytes = vec![in rt.alloc(); 7u8; 20_000]?;
    let mut source = MemorySource::make(rt.alloc(), &bytes, &[1])?;
    let first = read_all(rt.alloc(), &mut source, 20_000);
    assert!(rt; first == Err(ReadError::Fault));
    let rest = read_all(rt.alloc(), &mut source, 20_000)?;
    assert!(rt; rest.as_slice() == &bytes[8_192..]);
    Ok(())
}

#[test]
fn reads_long_inputs_up_to_the_limit(rt: HostRuntime) -> Result<(), Fail> {
    let bytes = vec![in rt.alloc(); 7u8; 20_000]?;
    let long = read_of(rt.alloc(), &bytes, &[], 19_999)?;
    assert!(rt; long == Err(ReadError::TooLong));
    let all = read_of(rt.alloc(), &bytes, &[], 20_000)??;
    assert!(rt; all.as_slice() == bytes.as_slice());
    Ok(())
}

#[test]
fn writes_as_far_as_there_is_room(rt: HostRuntime) -> Result<(), Fail> {
    for room in 0..5usize {
        let mut sink = MemorySink::make(rt.alloc(), &[])?;
        sink.reserve(room)?;
        sink.reserve(1.min(room))?;
        let answer = write_all(&mut sink, &TEXT);
        assert!(rt; answer.is_ok() == (room >= 3));
        assert!(rt; sink.taken() == &TEXT[..room.min(3)]);
    }
    Ok(())
}

#[test]
fn writes_that_fail(rt: HostRuntime) -> Result<(), Fail> {
    let mut sink = MemorySink::make(rt.alloc(), &[2, 0])?;
    sink.reserve(9)?;
    for want in [Err(WriteFault), Ok(()), Err(WriteFault)] {
        assert!(rt; write_all(&mut sink, &TEXT) == want);
    }
    assert!(rt; sink.taken() == TEXT.as_slice());
    Ok(())
}

// A reader whose second call fails.
#[derive(Drop)]
struct Failing {
    calls: u8,
}

impl Read for Failing {
    fn read(&mut self, buf: &mut [u8]) -> io::Result<usize> {
        if self.calls > 0 {
            return Err(io::Error::from(ErrorKind::Other));
        }
        self.calls = 1;
        Ok(buf.len().min(1))
    }
}

// A reader and writer whose first calls are interrupted.
#[derive(Drop)]
struct Interrupted {
    times: u32,
}

impl Interrupted {
    fn answer(&mut self, count: usize) -> io::Result<usize>
        ensures { IfOk result (λ taken. taken ≡ count) }
    {
        if self.times > 0 {
            self.times -= 1;
            return Err(io::Error::from(ErrorKind::Interrupted));
        }
        Ok(count)
    }
}

impl Read for Interrupted {
    fn read(&mut self, buf: &mut [u8]) -> io::Result<usize> {
        self.answer(buf.len().min(1))
    }
}

impl Write for Interrupted {
    fn write(&mut self, buf: &[u8]) -> io::Result<usize> {
        self.answer(buf.len())
    }

    fn flush(&mut self) -> io::Result<()> {
        Ok(())
    }
}

#[test]
fn interrupted_calls_are_made_again(rt: HostRuntime) {
    let mut one = [0u8; 1];
    for (times, fails) in [(0, false), (64, false), (65, true)] {
        let mut source = StdSource::make(Interrupted { times });
        assert!(rt; source.read(&mut one).is_err() == fails);
        let mut sink = StdSink::make(Interrupted { times });
        assert!(rt; sink.write(&one).is_err() == fails);
    }
}

#[test]
fn readers_of_the_system(rt: HostRuntime) -> Result<(), Fail> {
    let mut source = StdSource::make(TEXT.as_slice());
    let mut sink = MemorySink::make(rt.alloc(), &[])?;
    sink.reserve(3)?;
    copy(rt.alloc(), &mut source, &mut sink)?;
    assert!(rt; sink.taken() == TEXT.as_slice());
    Ok(())
}

#[test]
fn writers_of_the_system(rt: HostRuntime) -> Result<(), Fail> {
    let mut written = Vec::new(rt.alloc());
    let mut source = MemorySource::make(rt.alloc(), &TEXT, &[])?;
    copy(rt.alloc(), &mut source, &mut StdSink::make(&mut written))?;
    assert!(rt; written.as_slice() == TEXT.as_slice());
    Ok(())
}

#[test]
fn readers_and_writers_that_fail(rt: HostRuntime) {
    let mut source = StdSource::make(Failing { calls: 0 });
    assert!(rt; read_all(rt.alloc(), &mut source, 9) == Err(ReadError::Fault));
    let mut short = [0u8; 2];
    let mut sink = StdSink::make(short.as_mut_slice());
    assert!(rt; write_all(&mut sink, &TEXT) == Err(WriteFault));
}
