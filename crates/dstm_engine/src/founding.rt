// All callers of a table at once.
ghost use Rattle.std.specs.Prelude.{◌≡◌, ◌+◌, ◌<◌, ◌≤◌, All, IfOk, OnErr, length};
ghost use Rattle.dstm_core.specs.Traces.{IsPastOf};
ghost use Rattle.dstm_engine.specs.Companies.{AreNew, AreOut, IsNew, IsOfTable, IsRetiredIn, IsSeenIn};
ghost use Rattle.dstm_engine.specs.Tables.{Retires};

use crate::caller::Caller;
use crate::error::EnrolError;
use crate::stm::{Founder, Stm};
use dstm_model::Law;
use std::alloc::{AllocError, Global};

impl<L: Law> Founder<L> {
    /// So many new callers, with the numbers from 0 on as their seeds. On want of memory none of them is out.
    pub fn callers(
        &mut self,
        alloc: Global,
        stm: &Stm<L>,
        count: u32,
    ) -> Result<Vec<Caller<L>>, AllocError>
        requires table { self.old.home ≡ stm.now }
        requires room { self.old.made + count ≤ self.old.home.terms.shape.callers }
        ensures table { self.new.home ≡ stm.now }
        ensures guests { self.new.guests ≡ self.old.guests }
        ensures callers { IfOk result (λ callers. AreNew L.holds stm.now callers.items) }
        ensures count { IfOk result (λ callers. length callers.items ≡ count) }
        ensures out { IfOk result (λ _. AreOut count self.old self.new) }
        ensures none { OnErr result (self.new.view.out ≡ self.old.view.out) }
        ensures made { OnErr result ((self.old.made ≤ self.new.made) × (self.new.made ≤ self.old.made + count)) }
    {
        let mut callers = Vec::with_capacity(alloc, count as usize)?;
        for seed in 0..count {
            match self.give_out(alloc, stm, seed) {
                Ok(caller) => callers.push_reserved(caller),
                Err(error) => {
                    self.retire_all(stm, callers);
                    return Err(error);
                }
            }
        }
        Ok(callers)
    }

    /// Retires callers, the last one first. Each quits an attempt that it had dropped before its end, and does no more. All
    /// that they have seen, and so what they have committed, stands in the founder's log.
    pub fn retire_all(&mut self, stm: &Stm<L>, callers: Vec<Caller<L>>)
        requires table { self.old.home ≡ stm.now }
        requires callers { All (IsOfTable stm.now) callers.items }
        requires out { length callers.items ≤ self.old.view.out }
        ensures table { self.new.home ≡ stm.now }
        ensures guests { self.new.guests ≡ self.old.guests }
        ensures made { self.new.made ≡ self.old.made }
        ensures out { self.new.view.out + length callers.items ≡ self.old.view.out }
        ensures past { IsPastOf self.old.view.log self.new.view.log }
        ensures seen { All (IsSeenIn self.new.view.log) callers.items }
        ensures retired { All (IsRetiredIn L.holds self.new.view.log) callers.items }
    {
        let mut callers = callers;
        while let Some(caller) = callers.pop() {
            self.take_back(stm, caller);
        }
    }

    // A new caller, where one is left to be made.
    fn give_out(&mut self, alloc: Global, stm: &Stm<L>, seed: u32) -> Result<Caller<L>, AllocError>
        requires table { self.old.home ≡ stm.now }
        requires room { self.old.made < self.old.home.terms.shape.callers }
        ensures caller { IfOk result (IsNew L.holds stm.now seed) }
        ensures out { IfOk result (λ _. AreOut 1 self.old self.new) }
        ensures same { OnErr result (self.new ≡ self.old) }
    {
        match self.caller(alloc, stm, u64::from(seed)) {
            Ok(caller) => Ok(caller),
            Err(EnrolError::Memory(error)) => Err(error),
            Err(EnrolError::Full) => unreachable!(),
        }
    }

    // Retires a caller.
    fn take_back(&mut self, stm: &Stm<L>, caller: Caller<L>)
        requires table { self.old.home ≡ stm.now }
        requires caller { IsOfTable stm.now caller }
        requires some { 0 < self.old.view.out }
        ensures table { self.new.home ≡ stm.now }
        ensures guests { self.new.guests ≡ self.old.guests }
        ensures out { self.old.view.out ≡ self.new.view.out + 1 }
        ensures retired { Retires L.holds self.old self.new caller }
    {
        self.retire(stm, caller);
    }
}
