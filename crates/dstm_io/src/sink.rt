ghost use Rattle.std.specs.Prelude.{◌≡◌, ℕ, ◌≤◌, ◌<◌, ◌↔◌, min, List, [], length, take, Option, Some, None, IfOk, OnOk, OnErr, IsErr};
ghost use Rattle.std.specs.Io.KnownBytes.{Appends, Keeps, WriteAppends};
ghost use Rattle.dstm_io.specs.Count.{Rises};
ghost use Rattle.dstm_io.specs.StdSink.{writer_of, fault_count};
ghost use Rattle.dstm_io.specs.MemorySink.{IsNewSink, with_room, FailsAt, state_after_write, state_after_failed_write};

use crate::again::write_again;
use crate::schedule::Schedule;
use crate::source::Failed;
use std::alloc::{AllocError, Global};
use std::io::Write;
use std::marker::Model;

/// Where bytes go.
pub trait Sink {
    /// The bytes taken, where the sink tells them.
    ghost taken: { Self → Option (List ℕ) };

    /// How many faults it has met. The count stays at 2^64 - 1 once it is there.
    ghost faults: { Self → ℕ };

    /// Takes bytes from the front of `buf` and answers how many: at least one, unless `buf` is empty.
    fn write(&mut self, buf: &[u8]) -> Result<usize, Failed>
        ensures within { IfOk result (λ count. count ≤ length buf.now) }
        ensures added { IfOk result (λ count.
            Appends (taken self.old) (taken self.new) (take count buf.now)) }
        ensures progress { result ≡ Ok 0 → buf.now ≡ [] }
        ensures no_fault { OnOk result (faults self.new ≡ faults self.old) }

        // A failed write counted a fault and added nothing.
        ensures fault { OnErr result (Rises (faults self.old) (faults self.new)) }
        ensures kept { OnErr result (Keeps (taken self.old) (taken self.new)) };
}

/// A sink in memory, which can be told to fail at some of its calls. It fails too where bytes come and
/// its reserved room is used up; it has none until the first [`MemorySink::reserve`].
#[derive(Debug, Drop)]
pub struct MemorySink {
    bytes: Vec<u8>,
    room: usize,
    schedule: Schedule,
}

impl Model for MemorySink {
    ghost use Rattle.std.specs.Prelude.{◌+◌, ◌≤◌, vec_len, vec_capacity};
    ghost use Rattle.dstm_io.specs.MemorySink.{SinkState};

    ghost Value = { SinkState };

    ghost view = { λ s. record {
      taken = s.bytes.items;
      room = s.room;
      fail_at = s.schedule.fail_at.items;
      calls = s.schedule.calls;
      faults = s.schedule.faults;
    } };

    ghost invariant = { λ s. vec_len s.bytes + s.room ≤ vec_capacity s.bytes };
}

impl MemorySink {
    /// A sink that has taken nothing. `fail_at` holds the numbers of the writes that are to fail, counted
    /// from 0.
    pub fn make(alloc: Global, fail_at: &[u64]) -> Result<MemorySink, AllocError>
        ensures { IfOk result (IsNewSink fail_at.now) }
    {
        Ok(MemorySink {
            bytes: Vec::new(alloc),
            room: 0,
            schedule: Schedule::make(alloc, fail_at)?,
        })
    }

    /// Makes room for `bytes` more bytes. Where there was room for more it stays.
    pub fn reserve(&mut self, bytes: usize) -> Result<(), AllocError>
        ensures ok { OnOk result (self.new ≡ with_room self.old bytes) }
        ensures err { OnErr result (self.new ≡ self.old) }
    {
        if self.room < bytes {
            self.bytes.reserve(bytes)?;
            self.room = bytes;
        }
        Ok(())
    }

    /// The bytes taken so far.
    pub fn taken(&self) -> &[u8]
        ensures { result.now ≡ self.now.taken }
    {
        &self.bytes
    }
}

impl Sink for MemorySink {
    ghost taken = { λ sink. Some sink.taken };

    ghost faults = { λ sink. sink.faults };

    /// Takes as many bytes as there is room for.
    fn write(&mut self, buf: &[u8]) -> Result<usize, Failed>
        ensures within { IfOk result (λ count. count ≤ length buf.now) }
        ensures added { IfOk result (λ count.
            Appends (Some self.old.taken) (Some self.new.taken) (take count buf.now)) }
        ensures progress { result ≡ Ok 0 → buf.now ≡ [] }
        ensures no_fault { OnOk result (self.new.faults ≡ self.old.faults) }
        ensures fault { OnErr result (Rises self.old.faults self.new.faults) }
        ensures kept { OnErr result (Keeps (Some self.old.taken) (Some self.new.taken)) }

        // The sink determines the answer and what it leaves.
        ensures fails { IsErr result ↔ FailsAt self.old buf.now }
        ensures count { IfOk result (λ count. count ≡ min (length buf.now) self.old.room) }
        ensures after { IfOk result (λ count. self.new ≡ state_after_write self.old buf.now count) }
        ensures after_fault { OnErr result (self.new ≡ state_after_failed_write self.old) }
    {
        let must_fail = self.schedule.next_call_fails();
        if must_fail || self.room == 0 && !buf.is_empty() {
            self.schedule.count_fault();
            return Err(Failed);
        }
        let count = buf.len().min(self.room);
        match self.bytes.extend_from_slice(&buf[..count]) {
            Ok(()) => {
                self.room -= count;
                Ok(count)
            }
            Err(_) => unreachable!(),
        }
    }
}

/// A sink over a writer, such as standard output. It tells nothing of its bytes. Each error of the writer
/// is a fault, and so is a call that takes nothing of a piece that is not empty; a call that was interrupted is
/// made again, 64 times at most.
#[derive(Debug, Drop)]
pub struct StdSink<W> {
    writer: W,
    faults: u64,
}

impl<W: Write + Drop> StdSink<W> {
    pub fn make(writer: W) -> StdSink<W>
        ensures writer { writer_of result ≡ writer }
        ensures faults { fault_count result ≡ 0 }
    {
        StdSink { writer, faults: 0 }
    }
}

impl<W: Write + Drop> Sink for StdSink<W> {
    ghost taken = { λ _. None };

    ghost faults = { fault_count };

    fn write(&mut self, buf: &[u8]) -> Result<usize, Failed>
        ensures within { IfOk result (λ count. count ≤ length buf.now) }
        ensures progress { result ≡ Ok 0 → buf.now ≡ [] }
        ensures no_fault { OnOk result (fault_count self.new ≡ fault_count self.old) }
        ensures fault { OnErr result (Rises (fault_count self.old) (fault_count self.new)) }

        // It passes on what its writer takes.
        ensures writer { WriteAppends (W.contents (writer_of self.old)) (W.contents (writer_of self.new))
            result buf.now }
    {
        match write_again(&mut self.writer, buf) {
            Ok(count) if count > 0 || buf.is_empty() => Ok(count),
            _ => {
                self.faults = self.faults.saturating_add(1);
                Err(Failed)
            }
        }
    }
}
