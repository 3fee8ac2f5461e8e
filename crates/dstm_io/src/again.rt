// Calls that were interrupted, made again.
ghost use Rattle.std.specs.Prelude.{◌≡◌, ◌≤◌, length, IfOk};
ghost use Rattle.std.specs.Io.KnownBytes.{ReadConsumes, WriteAppends};

use std::io;
use std::io::{ErrorKind, Read, Write};

/// A call that was interrupted is made again, at most so often.
pub const MAX_REPEATS: u32 = 64;

// Makes a call, and again where it was interrupted.
macro_rules! again {
    ($call:expr) => {{
        for _ in 0..MAX_REPEATS {
            match $call {
                Err(error) if error.kind() == ErrorKind::Interrupted => {}
                answer => return answer,
            }
        }
        $call
    }};
}

// Reads, and again where the call was interrupted.
pub fn read_again<R: Read>(reader: &mut R, buf: &mut [u8]) -> io::Result<usize>
    ensures within { IfOk result (λ count. count ≤ length buf.new) }
    ensures reader { ReadConsumes (R.remaining reader.old) (R.remaining reader.new) result buf.new }
{
    again!(reader.read(buf))
}

// Writes, and again where the call was interrupted.
pub fn write_again<W: Write>(writer: &mut W, buf: &[u8]) -> io::Result<usize>
    ensures within { IfOk result (λ count. count ≤ length buf.now) }
    ensures writer { WriteAppends (W.contents writer.old) (W.contents writer.new) result buf.now }
{
    again!(writer.write(buf))
}
