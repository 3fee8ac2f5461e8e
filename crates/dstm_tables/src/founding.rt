ghost use Rattle.std.specs.Prelude.{◌≡◌, ◌↔◌, ◌<◌, ◌≤◌, IfErr, IfOk, IsOk, length};
ghost use Rattle.dstm_core.specs.Words.{IsValid};
ghost use Rattle.dstm_engine.specs.Tables.{IsFull};
ghost use Rattle.dstm_model.specs.Map.{state_after};
ghost use Rattle.dstm_tables.specs.Callers.{IsOver, home_of};
ghost use Rattle.dstm_tables.specs.Founders.{Enrols, GivesOut, Retires, TakesBack, founded, guests_of, history_by, home_there, made_of, out_of, seen_by};
ghost use Rattle.dstm_tables.specs.Tables.{IsByDstm, IsByTl2, callers_there, law_there, objects_there, start_there};
ghost use Rattle.dstm_tables.specs.Tells.{IsRun, values_of};

use crate::tables::{Caller, Round, Table};
use dstm_core::Shape;
use dstm_engine::{EnrolError, Stm, Zeros};
use dstm_model::{Law, Val};
use dstm_tl2_engine::{TlEnrol, TlFounder, TlStm};
use std::alloc::{AllocError, Global};

/// The founder of a table gives out its callers, and takes them back.
#[derive(Drop)]
pub enum Founder<L: Law> {
    Dstm(dstm_engine::Founder<L>),
    Tl2(TlFounder<L>),
}

/// A new table of DSTM, whose objects have these values, and its founder.
pub fn make_dstm<L: Law>(
    alloc: Global,
    zeros: &mut Zeros,
    values: Vec<Val>,
    shape: Shape,
    law: L,
) -> Result<(Table<L>, Founder<L>), AllocError>
    requires valid { IsValid shape }
    requires values { length values.items ≡ shape.objects }
    requires lawful { L.holds law values.items }
    ensures shape { IfOk result (λ t. IsByDstm shape t.0) }
    ensures law { IfOk result (λ t. law_there t.0 ≡ law) }
    ensures start { IfOk result (λ t. start_there t.0 ≡ values.items) }
    ensures founder { IfOk result (λ t. t.1 ≡ founded t.0) }
{
    let (stm, founder) = Stm::make_with(alloc, zeros, values, shape, law)?;
    Ok((Table::Dstm(stm), Founder::Dstm(founder)))
}

/// A new table of TL2, whose objects have these values, and its founder. It takes no zeros: each of its words has a value at
/// once.
pub fn make_tl2<L: Law>(
    alloc: Global,
    values: Vec<Val>,
    callers: u32,
    attempts: u64,
    law: L,
) -> Result<(Table<L>, Founder<L>), AllocError>
    requires objects { length values.items ≤ 1048576 }
    requires callers { (1 ≤ callers) × (callers ≤ 64) }
    requires attempts { (1 ≤ attempts) × (attempts ≤ 18014398509481984) }
    requires lawful { L.holds law values.items }
    ensures numbers { IfOk result (λ t. IsByTl2 callers attempts t.0) }
    ensures law { IfOk result (λ t. law_there t.0 ≡ law) }
    ensures start { IfOk result (λ t. start_there t.0 ≡ values.items) }
    ensures founder { IfOk result (λ t. t.1 ≡ founded t.0) }
{
    let (stm, founder) = TlStm::make_long(alloc, values, callers, attempts, law)?;
    Ok((Table::Tl2(stm), Founder::Tl2(founder)))
}

impl<L: Law> Founder<L> {
    /// A new caller. Under DSTM its waits take the random words that `seed` gives.
    pub fn caller(
        &mut self,
        alloc: Global,
        table: &Table<L>,
        seed: u64,
    ) -> Result<Caller<L>, EnrolError>
        requires table { home_there self.old ≡ table.now }
        ensures caller { IfOk result (λ k. Enrols L.holds self.old self.new seed k) }
        ensures full { IfErr result (λ e. IsFull e ↔ (made_of self.old ≡ callers_there table.now)) }
        ensures room { IfOk result (λ k. made_of self.old < callers_there table.now) }
        ensures same { IfErr result (λ e. self.new ≡ self.old) }
        ensures table { home_there self.new ≡ table.now }
        ensures home { IfOk result (λ k. home_of k ≡ table.now) }
        ensures gives { IfOk result (GivesOut L.holds table.now self.old self.new seed) }
    {
        match self {
            Founder::Dstm(founder) => match table {
                Table::Dstm(stm) => Ok(Caller::Dstm(founder.caller(alloc, stm, seed)?)),
                Table::Tl2(_) => unreachable!(),
            },
            Founder::Tl2(founder) => match table {
                Table::Tl2(stm) => match founder.caller(alloc, stm) {
                    Ok(caller) => Ok(Caller::Tl2(caller)),
                    Err(TlEnrol::Memory(error)) => Err(EnrolError::Memory(error)),
                    Err(TlEnrol::Full) => Err(EnrolError::Full),
                },
                Table::Dstm(_) => unreachable!(),
            },
        }
    }

    /// The same, where one is left to be made.
    pub fn next_caller(
        &mut self,
        alloc: Global,
        table: &Table<L>,
        seed: u64,
    ) -> Result<Caller<L>, AllocError>
        requires table { home_there self.old ≡ table.now }
        requires room { made_of self.old < callers_there table.now }
        ensures { IfOk result (GivesOut L.holds table.now self.old self.new seed) }
    {
        match self.caller(alloc, table, seed) {
            Ok(caller) => Ok(caller),
            Err(EnrolError::Memory(error)) => Err(error),
            Err(EnrolError::Full) => unreachable!(),
        }
    }

    /// Ends the attempt of a caller if it was dropped before its end, and takes in what the caller has seen.
    pub fn retire(&mut self, table: &Table<L>, caller: Caller<L>)
        requires table { home_there self.old ≡ table.now }
        requires caller { home_of caller ≡ table.now }
        ensures retired { Retires L.holds self.old self.new caller }
        ensures table { home_there self.new ≡ table.now }
        ensures back { IsOver caller → TakesBack self.old self.new caller }
    {
        match self {
            Founder::Dstm(founder) => match table {
                Table::Dstm(stm) => match caller {
                    Caller::Dstm(caller) => founder.retire(stm, caller),
                    Caller::Tl2(_) => unreachable!(),
                },
                Table::Tl2(_) => unreachable!(),
            },
            Founder::Tl2(founder) => match table {
                Table::Tl2(stm) => match caller {
                    Caller::Tl2(caller) => founder.retire(stm, caller),
                    Caller::Dstm(_) => unreachable!(),
                },
                Table::Dstm(_) => unreachable!(),
            },
        }
    }

    /// How many callers were made and not retired.
    pub fn out(&self) -> u32
        ensures { result ≡ out_of self.now }
    {
        match self {
            Founder::Dstm(founder) => founder.out(),
            Founder::Tl2(founder) => founder.out(),
        }
    }
}

impl<L: Law> Table<L> {
    /// The values of its objects, and what is kept of it. A table that had guests keeps no record; see `close_plain`. It
    /// takes no memory, and never fails.
    pub fn close(
        self,
        alloc: Global,
        founder: Founder<L>,
    ) -> Result<(Vec<Val>, Round<L>), AllocError>
        requires founder { home_there founder ≡ self }
        requires out { out_of founder ≡ 0 }
        requires guests { guests_of founder ≡ 0 }
        ensures done { IsOk result }
        ensures round { IfOk result (λ t. t.1 ≡ seen_by founder) }
        ensures run { IfOk result (λ t. IsRun L.holds t.1) }
        ensures values { IfOk result (λ t. t.0.items ≡ values_of t.1) }
        ensures lawful { IfOk result (λ t. L.holds (law_there self) t.0.items) }
    {
        match self {
            Table::Dstm(stm) => match founder {
                Founder::Dstm(founder) => match stm.close(alloc, founder) {
                    Ok((values, record)) => Ok((values, Round::Dstm(record))),
                    Err(_) => unreachable!(),
                },
                Founder::Tl2(_) => unreachable!(),
            },
            Table::Tl2(stm) => match founder {
                Founder::Tl2(founder) => match stm.close(alloc, founder) {
                    Ok((values, record)) => Ok((values, Round::Tl2(record))),
                    Err(_) => unreachable!(),
                },
                Founder::Dstm(_) => unreachable!(),
            },
        }
    }

    /// The values of its objects as they stand. On want of memory it is given up.
    pub fn close_plain(self, alloc: Global, founder: Founder<L>) -> Result<Vec<Val>, AllocError>
        requires founder { home_there founder ≡ self }
        requires out { out_of founder ≡ 0 }
        ensures values { IfOk result (λ values. values.items ≡ state_after (start_there self) (history_by founder)) }
        ensures size { IfOk result (λ values. length values.items ≡ objects_there self) }
        ensures lawful { IfOk result (λ values. L.holds (law_there self) values.items) }
    {
        match self {
            Table::Dstm(stm) => match founder {
                Founder::Dstm(founder) => stm.close_plain(alloc, founder),
                Founder::Tl2(_) => unreachable!(),
            },
            Table::Tl2(stm) => match founder {
                Founder::Tl2(founder) => Ok(stm.close(alloc, founder)?.0),
                Founder::Dstm(_) => unreachable!(),
            },
        }
    }
}
