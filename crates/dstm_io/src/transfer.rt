ghost use Rattle.std.specs.Prelude.{◌≡◌, ◌≢◌, ◌+◌, ◌-◌, ◌≤◌, ◌<◌, ◌^◌, min, length, take, drop, vec_len, IfOk, OnOk, OnErr, IsErrOf};
ghost use Rattle.std.specs.Io.KnownBytes.{Appends, Consumes, IsAtEnd, Keeps};
ghost use Rattle.dstm_io.specs.Count.{Rises};
ghost use Rattle.dstm_io.specs.Source.{Takes, TakesAtMost, TakesAll};
ghost use Rattle.dstm_io.specs.Sink.{AppendsPart};
ghost use Rattle.dstm_io.specs.declared.transfer.ReadError.TheVariants.{Fault, Memory};

use crate::sink::Sink;
use crate::source::{Failed, Source};
use std::alloc::{AllocError, Global};

/// Why a source was not read to its end.
#[derive(Clone, Copy, Debug, PartialEq, Eq)]
pub enum ReadError {
    /// The source met a fault.
    Fault,
    /// More bytes were left than the limit allows.
    TooLong,
    /// There was no memory for the bytes.
    Memory(AllocError),
}

impl From<Failed> for ReadError {
    ghost from_gives = { λ _ error. error ≡ Fault };

    fn from(_: Failed) -> ReadError {
        ReadError::Fault
    }
}

impl From<AllocError> for ReadError {
    ghost from_gives = { λ want error. error ≡ Memory want };

    fn from(want: AllocError) -> ReadError {
        ReadError::Memory(want)
    }
}

/// A sink met a fault before it took all the bytes.
#[derive(Clone, Copy, Debug, PartialEq, Eq)]
pub struct WriteFault;

// How many bytes the first read of a source may take.
const FIRST_READ: usize = 8 * 1024;

/// Reads a source to its end. At most `limit + 1` bytes are taken, the last one only to see that there are
/// too many.
pub fn read_all<S: Source>(
    alloc: Global,
    source: &mut S,
    limit: usize,
) -> Result<Vec<u8>, ReadError>
    requires { limit < 2 ^ 32 }
    ensures all { IfOk result (λ bytes. TakesAll (S.left source.old) (S.left source.new) bytes.items) }
    ensures short { IfOk result (λ bytes. vec_len bytes ≤ limit) }

    // TooLong comes exactly where one byte more than the limit was taken.
    ensures too_long { IsErrOf result ReadError.TooLong
        → Takes (S.left source.old) (S.left source.new) (limit + 1) }
    ensures within_limit { result ≢ Err ReadError.TooLong
        → TakesAtMost (S.left source.old) (S.left source.new) limit }

    ensures fault { IsErrOf result ReadError.Fault → Rises (S.faults source.old) (S.faults source.new) }
    ensures no_fault { result ≢ Err ReadError.Fault → S.faults source.new ≡ S.faults source.old }
{
    let mut bytes = Vec::new(alloc);
    let mut filled = 0;
    while filled <= limit {
        make_room(&mut bytes, filled, limit)?;
        let count = read_behind(source, &mut bytes, filled)?;
        if count == 0 {
            bytes.truncate(filled);
            return Ok(bytes);
        }
        filled += count;
    }
    Err(ReadError::TooLong)
}

/// Lengthens the buffer where it is full up to `filled`: to twice its length, as far as the limit allows.
fn make_room(buffer: &mut Vec<u8>, filled: usize, limit: usize) -> Result<(), AllocError>
    requires filled { filled ≤ vec_len buffer.old }
    requires short { vec_len buffer.old ≤ limit + 1 }
    requires within { filled ≤ limit }
    requires limit { limit < 2 ^ 32 }
    ensures front { take filled buffer.new.items ≡ take filled buffer.old.items }
    ensures room { OnOk result (filled < vec_len buffer.new) }
    ensures short { OnOk result (vec_len buffer.new ≤ limit + 1) }
{
    if filled < buffer.len() {
        return Ok(());
    }
    let longer = (2 * filled).max(FIRST_READ).min(limit + 1);
    buffer.resize(longer, 0)
}

/// Reads once into the buffer behind its first `filled` bytes.
fn read_behind<S: Source>(source: &mut S, buffer: &mut [u8], filled: usize) -> Result<usize, Failed>
    requires { filled < length buffer.old }
    ensures front { take filled buffer.new ≡ take filled buffer.old }
    ensures within { IfOk result (λ count. filled + count ≤ length buffer.new) }
    ensures taken { IfOk result (λ count. Consumes (S.left source.old) (S.left source.new)
        (take count (drop filled buffer.new))) }
    ensures end { result ≡ Ok 0 → IsAtEnd (S.left source.old) }
    ensures no_fault { OnOk result (S.faults source.new ≡ S.faults source.old) }
    ensures fault { OnErr result (Rises (S.faults source.old) (S.faults source.new)) }
    ensures kept { OnErr result (Keeps (S.left source.old) (S.left source.new)) }
{
    source.read(&mut buffer[filled..])
}

/// Writes all the bytes, in as many pieces as the sink takes.
pub fn write_all<K: Sink>(sink: &mut K, bytes: &[u8]) -> Result<(), WriteFault>
    ensures all { OnOk result (Appends (K.taken sink.old) (K.taken sink.new) bytes.now) }
    ensures no_fault { OnOk result (K.faults sink.new ≡ K.faults sink.old) }
    ensures fault { OnErr result (Rises (K.faults sink.old) (K.faults sink.new)) }
    ensures part { OnErr result (AppendsPart (K.taken sink.old) (K.taken sink.new) bytes.now) }
{
    let mut written = 0;
    while written < bytes.len() {
        match sink.write(&bytes[written..]) {
            Ok(count) => written += count,
            Err(Failed) => return Err(WriteFault),
        }
    }
    Ok(())
}
