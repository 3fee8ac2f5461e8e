ghost use Rattle.std.specs.Prelude.{◌≡◌, ◌↔◌, IsTrue, Contains, IsPermutation, IfOk};
ghost use Rattle.std.specs.List.Sorted.{IsNonDecreasing};
ghost use Rattle.dstm_io.specs.Count.{next_count};

use std::alloc::{AllocError, Global};

/// Which calls of a source or a sink in memory are to fail, and how many were made and failed so far.
#[derive(Debug, Drop)]
pub(crate) struct Schedule {
    pub(crate) fail_at: Vec<u64>,
    pub(crate) calls: u64,
    pub(crate) faults: u64,
    ghost rising: { IsNonDecreasing fail_at.items },
}

impl Schedule {
    pub(crate) fn make(alloc: Global, fail_at: &[u64]) -> Result<Schedule, AllocError>
        ensures fail_at { IfOk result (λ schedule. IsPermutation fail_at.now schedule.fail_at.items) }
        ensures calls { IfOk result (λ schedule. schedule.calls ≡ 0) }
        ensures faults { IfOk result (λ schedule. schedule.faults ≡ 0) }
    {
        let mut fail_at = Vec::from_slice(alloc, fail_at)?;
        fail_at.sort_unstable();
        Ok(Schedule {
            fail_at,
            calls: 0,
            faults: 0,
        })
    }

    /// Counts a call, and says whether it is to fail.
    pub(crate) fn next_call_fails(&mut self) -> bool
        ensures named { IsTrue result ↔ Contains self.old.fail_at.items self.old.calls }
        ensures counts { self.new.calls ≡ next_count self.old.calls }
        ensures fail_at { self.new.fail_at ≡ self.old.fail_at }
        ensures faults { self.new.faults ≡ self.old.faults }
    {
        let call = self.calls;
        self.calls = call.saturating_add(1);
        self.fail_at.binary_search(&call).is_ok()
    }

    pub(crate) fn count_fault(&mut self)
        ensures counts { self.new.faults ≡ next_count self.old.faults }
        ensures fail_at { self.new.fail_at ≡ self.old.fail_at }
        ensures calls { self.new.calls ≡ self.old.calls }
    {
        self.faults = self.faults.saturating_add(1);
    }
}
