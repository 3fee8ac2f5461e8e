ghost use Rattle.std.specs.Prelude.{◌≡◌, ℕ, ◌≤◌, ◌<◌, ◌↔◌, min, List, length, take, drop, Option, Some, None, Contains, IfOk, OnOk, OnErr, IsErr};
ghost use Rattle.std.specs.Io.KnownBytes.{Consumes, Keeps, IsAtEnd, ReadConsumes};
ghost use Rattle.dstm_io.specs.Count.{Rises};
ghost use Rattle.dstm_io.specs.StdSource.{reader_of, fault_count};
ghost use Rattle.dstm_io.specs.MemorySource.{IsNewSource, state_after_read, state_after_failed_read};

use crate::again::read_again;
use crate::schedule::Schedule;
use std::alloc::{AllocError, Global};
use std::io::Read;
use std::marker::Model;

/// A call of a source or a sink met a fault, which it counted.
#[derive(Clone, Copy, Debug, PartialEq, Eq)]
pub struct Failed;

/// Where bytes come from.
pub trait Source {
    /// The bytes that are left, where the source tells them.
    ghost left: { Self → Option (List ℕ) };

    /// How many faults it has met. The count stays at 2^64 - 1 once it is there.
    ghost faults: { Self → ℕ };

    /// Takes the next bytes into the front of `buf` and answers how many: none only where none is left or
    /// `buf` is empty. Behind them `buf` may hold anything.
    fn read(&mut self, buf: &mut [u8]) -> Result<usize, Failed>
        ensures within { IfOk result (λ count. count ≤ length buf.new) }
        ensures taken { IfOk result (λ count.
            Consumes (left self.old) (left self.new) (take count buf.new)) }
        ensures end { result ≡ Ok 0 → 0 < length buf.new → IsAtEnd (left self.old) }
        ensures no_fault { OnOk result (faults self.new ≡ faults self.old) }

        // A failed read counted a fault and lost no byte.
        ensures fault { OnErr result (Rises (faults self.old) (faults self.new)) }
        ensures kept { OnErr result (Keeps (left self.old) (left self.new)) };
}

/// A source in memory, which can be told to fail at some of its calls.
#[derive(Debug, Drop)]
pub struct MemorySource {
    bytes: Vec<u8>,
    position: usize,
    schedule: Schedule,
}

impl Model for MemorySource {
    ghost use Rattle.std.specs.Prelude.{◌≤◌, drop, vec_len};
    ghost use Rattle.dstm_io.specs.MemorySource.{SourceState};

    ghost Value = { SourceState };

    ghost view = { λ s. record {
      left = drop s.position s.bytes.items;
      fail_at = s.schedule.fail_at.items;
      calls = s.schedule.calls;
      faults = s.schedule.faults;
    } };

    ghost invariant = { λ s. s.position ≤ vec_len s.bytes };
}

impl MemorySource {
    /// A source of these bytes. `fail_at` holds the numbers of the reads that are to fail, counted from 0.
    pub fn make(alloc: Global, bytes: &[u8], fail_at: &[u64]) -> Result<MemorySource, AllocError>
        ensures { IfOk result (IsNewSource bytes.now fail_at.now) }
    {
        Ok(MemorySource {
            bytes: Vec::from_slice(alloc, bytes)?,
            position: 0,
            schedule: Schedule::make(alloc, fail_at)?,
        })
    }
}

impl Source for MemorySource {
    ghost left = { λ source. Some source.left };

    ghost faults = { λ source. source.faults };

    /// Gives as many bytes as are left and fit.
    fn read(&mut self, buf: &mut [u8]) -> Result<usize, Failed>
        ensures within { IfOk result (λ count. count ≤ length buf.new) }
        ensures taken { IfOk result (λ count.
            Consumes (Some self.old.left) (Some self.new.left) (take count buf.new)) }
        ensures end { result ≡ Ok 0 → 0 < length buf.new → IsAtEnd (Some self.old.left) }
        ensures no_fault { OnOk result (self.new.faults ≡ self.old.faults) }
        ensures fault { OnErr result (Rises self.old.faults self.new.faults) }
        ensures kept { OnErr result (Keeps (Some self.old.left) (Some self.new.left)) }

        // The source determines the answer and what it leaves.
        ensures fails { IsErr result ↔ Contains self.old.fail_at self.old.calls }
        ensures count { IfOk result (λ count. count ≡ min (length self.old.left) (length buf.old)) }
        ensures after { IfOk result (λ count. self.new ≡ state_after_read self.old count) }
        ensures after_fault { OnErr result (self.new ≡ state_after_failed_read self.old) }
    {
        if self.schedule.next_call_fails() {
            self.schedule.count_fault();
            return Err(Failed);
        }
        let left = &self.bytes[self.position..];
        let count = left.len().min(buf.len());
        buf[..count].copy_from_slice(&left[..count]);
        self.position += count;
        Ok(count)
    }
}

/// A source over a reader, such as standard input. It tells nothing of its bytes; each error of the
/// reader is a fault, but a call that was interrupted is made again, 64 times at most.
#[derive(Debug, Drop)]
pub struct StdSource<R> {
    reader: R,
    faults: u64,
}

impl<R: Read + Drop> StdSource<R> {
    pub fn make(reader: R) -> StdSource<R>
        ensures reader { reader_of result ≡ reader }
        ensures faults { fault_count result ≡ 0 }
    {
        StdSource { reader, faults: 0 }
    }
}

impl<R: Read + Drop> Source for StdSource<R> {
    ghost left = { λ _. None };

    ghost faults = { fault_count };

    fn read(&mut self, buf: &mut [u8]) -> Result<usize, Failed>
        ensures within { IfOk result (λ count. count ≤ length buf.new) }
        ensures no_fault { OnOk result (fault_count self.new ≡ fault_count self.old) }
        ensures fault { OnErr result (Rises (fault_count self.old) (fault_count self.new)) }

        // It passes on what its reader gives.
        ensures reader { ReadConsumes (R.remaining (reader_of self.old)) (R.remaining (reader_of self.new))
            result buf.new }
    {
        match read_again(&mut self.reader, buf) {
            Ok(count) => Ok(count),
            Err(_) => {
                self.faults = self.faults.saturating_add(1);
                Err(Failed)
            }
        }
    }
}
