ghost use Rattle.std.specs.Prelude.{◌≡◌, ◌≢◌, ◌<◌, ◌≤◌, List, [], None, true, false, IfErr, IfOk, IfSome, Ok, OnOk};
ghost use Rattle.dstm_model.specs.declared.value.Val.{Val};
ghost use Rattle.dstm_tables.specs.Callers.{begun, done, draws, home_of};
ghost use Rattle.dstm_attempts.specs.Attempts.{AddsNothing, Begins, BeginsNone, CommitsUpTo, Finds, Flags, IsAbandoned, IsClosed, IsLost, IsNotOpened, IsOpened, IsQuit, IsSpent, IsStill, Keeps, LeavesLawful, LooksChanged, LooksOnce, LooksSame, LooksSpent, MayBegin, Opens, Puts, Refuses, StoodTogether, TakesEffect, TakesUnder, attempts_of, clock, is_under_way, objects_of, renewed};
ghost use Rattle.dstm_attempts.specs.Waiting.{FindsChange, HasNoRoom, IsSpentLettingGo, LetsGo, RenewsNothing};
ghost use Rattle.dstm_attempts.specs.declared.error.Look.TheVariants as look;

use crate::calls::Calls;
use crate::dstm::{abandon, let_go};
use crate::error::{Look, NotOpened, Spent};
use dstm_model::{Law, Val};
use dstm_tables::{Caller, Table};
use std::alloc::{AllocError, Global};

/// What makes the attempts of a caller, one after the other, call by call.
#[derive(Drop)]
pub struct Attempts<L: Law> {
    caller: Caller<L>,
    // An attempt is under way: no call on it answered that it is over, and it has not committed.
    going: bool,
    // Room for what an attempt holds that lets go.
    values: Vec<(u32, Val)>,
    // The number of the newest one that has committed.
    newest: Option<u64>,
    ghost under_way: { Flags going caller },
    ghost up_to: { CommitsUpTo newest caller },
}

impl<L: Law> Attempts<L> {
    /// The attempts of a caller that has none under way, and has committed none.
    pub fn of(alloc: Global, caller: Caller<L>) -> Attempts<L>
        requires closed { IsClosed caller }
        requires none { done caller ≡ [] }
        ensures { result.caller ≡ caller }
    {
        Attempts {
            caller,
            going: false,
            values: Vec::new(alloc),
            newest: None,
        }
    }

    /// The caller.
    pub fn into_caller(self) -> Caller<L>
        ensures { result ≡ self.caller }
    {
        self.caller
    }

    /// The greatest number under which an attempt of the caller has taken effect.
    pub fn newest(&self) -> Option<u64>
        ensures up_to { CommitsUpTo result self.now.caller }
    {
        self.newest
    }

    /// How many numbers the caller has drawn: one for each commit that came so far, whether it has taken effect or not.
    pub fn draws(&self) -> u64
        ensures { result ≡ draws self.now.caller }
    {
        match &self.caller {
            Caller::Dstm(caller) => caller.draws(),
            Caller::Tl2(caller) => caller.draws(),
        }
    }

    /// An attempt is under way. By TL2 it is not told where the caller has none left.
    pub fn is_under_way(&self) -> bool
        ensures is { result ≡ true → is_under_way self.now.caller ≡ true }
        ensures is_not { result ≡ false → IsClosed self.now.caller }
    {
        self.going
    }

    /// How many objects the table has.
    pub fn objects(&self, table: &Table<L>) -> u32
        requires table { home_of self.now.caller ≡ table.now }
        ensures { result ≡ objects_of self.now.caller }
    {
        match &self.caller {
            Caller::Dstm(_) => match table {
                Table::Dstm(stm) => stm.shape().objects,
                Table::Tl2(_) => unreachable!(),
            },
            Caller::Tl2(_) => match table {
                Table::Tl2(stm) => stm.objects(),
                Table::Dstm(_) => unreachable!(),
            },
        }
    }

    /// How many attempts the caller may begin.
    pub fn attempts(&self, table: &Table<L>) -> u64
        requires table { home_of self.now.caller ≡ table.now }
        ensures { result ≡ attempts_of self.now.caller }
    {
        match &self.caller {
            Caller::Dstm(_) => match table {
                Table::Dstm(stm) => u64::from(stm.shape().attempts),
                Table::Tl2(_) => unreachable!(),
            },
            Caller::Tl2(_) => match table {
                Table::Tl2(stm) => stm.attempts(),
                Table::Dstm(_) => unreachable!(),
            },
        }
    }

    /// By TL2 how many numbers had been drawn as the last attempt began; by DSTM zero.
    pub fn clock(&self) -> u64
        ensures { result ≡ clock self.now.caller }
    {
        match &self.caller {
            Caller::Dstm(_) => 0,
            Caller::Tl2(caller) => caller.sample(),
        }
    }

    /// Makes the next attempt the first of a new transaction.
    pub fn renew(&mut self)
        ensures caller { self.new.caller ≡ renewed self.old.caller }
        ensures going { self.new.going ≡ self.old.going }
    {
        match &mut self.caller {
            Caller::Dstm(caller) => caller.next_transaction(),
            Caller::Tl2(_) => {}
        }
    }

    /// Begins an attempt.
    #[inline(always)]
    pub fn begin(&mut self, table: &Table<L>) -> Result<(), Spent>
        requires table { home_of self.old.caller ≡ table.now }
        ensures begins { OnOk result (Begins L.holds self.old.caller self.new.caller) }
        ensures unbegun { IfErr result (λ _. BeginsNone L.holds self.old.caller self.new.caller) }
        ensures spent { IfErr result (λ _. IsSpent self.new.caller) }
        ensures none { IfErr result (λ _. begun self.new.caller ≡ begun self.old.caller) }
        ensures quit { IfErr result (λ _. IsQuit self.new.caller) }
        ensures nothing { AddsNothing self.old.caller self.new.caller }
    {
        match &mut self.caller {
            Caller::Dstm(caller) => match table {
                Table::Dstm(stm) => Calls::begin(caller, &mut self.going, stm),
                Table::Tl2(_) => unreachable!(),
            },
            Caller::Tl2(caller) => match table {
                Table::Tl2(stm) => Calls::begin(caller, &mut self.going, stm),
                Table::Dstm(_) => unreachable!(),
            },
        }
    }

    /// Opens an object for reading, and answers its value.
    pub fn read(&mut self, table: &Table<L>, object: u32) -> Result<Val, NotOpened>
        requires table { home_of self.old.caller ≡ table.now }
        ensures keeps { Keeps self.old.caller self.new.caller }
        ensures stops { IfErr result (IsNotOpened L.holds false object self.old.caller self.new.caller) }
        ensures refuses { Refuses self.old.caller object result }
        ensures finds { IfOk result (Finds L.holds self.old.caller self.new.caller object) }
        ensures may { OnOk result ((map : List Val) × MayBegin L.holds self.new.caller map) }
        ensures once { OnOk result (Opens L.holds false object self.old.caller self.new.caller) }
        ensures together { OnOk result (StoodTogether L.holds self.new.caller) }
    {
        match &mut self.caller {
            Caller::Dstm(caller) => match table {
                Table::Dstm(stm) => Calls::read(caller, &mut self.going, stm, object),
                Table::Tl2(_) => unreachable!(),
            },
            Caller::Tl2(caller) => match table {
                Table::Tl2(stm) => Calls::read(caller, &mut self.going, stm, object),
                Table::Dstm(_) => unreachable!(),
            },
        }
    }

    /// Opens an object for reading and writing, and answers its value.
    #[inline(always)]
    pub fn write(&mut self, table: &Table<L>, object: u32) -> Result<Val, NotOpened>
        requires table { home_of self.old.caller ≡ table.now }
        ensures keeps { Keeps self.old.caller self.new.caller }
        ensures stops { IfErr result (IsNotOpened L.holds true object self.old.caller self.new.caller) }
        ensures refuses { Refuses self.old.caller object result }
        ensures finds { IfOk result (Finds L.holds self.old.caller self.new.caller object) }
        ensures may { OnOk result ((map : List Val) × MayBegin L.holds self.new.caller map) }
        ensures once { OnOk result (Opens L.holds true object self.old.caller self.new.caller) }
        ensures together { OnOk result (StoodTogether L.holds self.new.caller) }
        ensures going { OnOk result (self.new.going ≡ true) }
        ensures exists { OnOk result (object < objects_of self.new.caller) }
        ensures opened { OnOk result (IsOpened self.new.caller object) }
    {
        match &mut self.caller {
            Caller::Dstm(caller) => match table {
                Table::Dstm(stm) => Calls::write(caller, &mut self.going, stm, object),
                Table::Tl2(_) => unreachable!(),
            },
            Caller::Tl2(caller) => match table {
                Table::Tl2(stm) => Calls::write(caller, &mut self.going, stm, object),
                Table::Dstm(_) => unreachable!(),
            },
        }
    }

    /// Sets the value of an object that is open for writing.
    pub fn set(&mut self, table: &Table<L>, object: u32, value: Val)
        requires table { home_of self.old.caller ≡ table.now }
        requires going { self.old.going ≡ true }
        requires exists { object < objects_of self.old.caller }
        requires opened { IsOpened self.old.caller object }
        ensures keeps { Keeps self.old.caller self.new.caller }
        ensures puts { Puts L.holds self.old.caller self.new.caller object value }
        ensures still { IsStill self.old.caller self.new.caller }
        ensures going { self.new.going ≡ true }
        ensures opened { IsOpened self.new.caller object }
    {
        match &mut self.caller {
            Caller::Dstm(caller) => match table {
                Table::Dstm(stm) => Calls::set(caller, stm, object, value),
                Table::Tl2(_) => unreachable!(),
            },
            Caller::Tl2(caller) => match table {
                Table::Tl2(stm) => Calls::set(caller, stm, object, value),
                Table::Dstm(_) => unreachable!(),
            },
        }
    }

    /// Commits the attempt, and tells whether it has taken effect.
    #[inline(always)]
    pub fn commit(&mut self, table: &Table<L>) -> bool
        requires table { home_of self.old.caller ≡ table.now }
        requires lawful { LeavesLawful L.holds self.old.caller }
        ensures takes { result ≡ true → TakesEffect L.holds self.old.caller self.new.caller }
        ensures keeps { result ≡ false → Keeps self.old.caller self.new.caller }
        ensures lost { result ≡ false → IsLost L.holds self.old.caller self.new.caller }
        ensures home { home_of self.new.caller ≡ home_of self.old.caller }
    {
        self.commit_under(table).is_some()
    }

    /// The same, and answers the number under which it has taken effect.
    #[inline(always)]
    #[tactic(auto, using(crate::proofs::Numbers::up_to_same, crate::proofs::Numbers::up_to_taken))]
    pub fn commit_under(&mut self, table: &Table<L>) -> Option<u64>
        requires table { home_of self.old.caller ≡ table.now }
        requires lawful { LeavesLawful L.holds self.old.caller }
        ensures takes { IfSome result (TakesUnder L.holds self.old.caller self.new.caller) }
        ensures keeps { result ≡ None → Keeps self.old.caller self.new.caller }
        ensures lost { result ≡ None → IsLost L.holds self.old.caller self.new.caller }
        ensures home { home_of self.new.caller ≡ home_of self.old.caller }
    {
        let number = commit(&mut self.caller, &mut self.going, table)?;
        self.newest = Some(number);
        Some(number)
    }

    /// Leaves the attempt. By TL2 there is nothing to do for it.
    pub fn abandon(&mut self, table: &Table<L>)
        requires table { home_of self.old.caller ≡ table.now }
        ensures leaves { IsAbandoned L.holds self.old.caller self.new.caller }
        ensures keeps { Keeps self.old.caller self.new.caller }
        ensures quit { IsQuit self.new.caller }
    {
        match &mut self.caller {
            Caller::Dstm(caller) => match table {
                Table::Dstm(stm) => abandon(caller, &mut self.going, stm),
                Table::Tl2(_) => unreachable!(),
            },
            Caller::Tl2(_) => {}
        }
    }

    /// Lets go of what the attempt has set, before it is looked whether something has changed. By DSTM another attempt of its
    /// transaction is begun, which opens for reading what this one holds: where it does not find the same values, something has
    /// changed, and it is left. By TL2 an attempt holds nothing that others meet, and nothing is done.
    pub fn let_go(&mut self, table: &Table<L>) -> Result<Look, AllocError>
        requires table { home_of self.old.caller ≡ table.now }
        ensures same { result ≡ Ok look.Same → LetsGo L.holds self.old.caller self.new.caller }
        ensures changed { result ≡ Ok look.Changed → FindsChange L.holds self.old.caller self.new.caller }
        ensures spent { result ≡ Ok look.Spent → IsSpentLettingGo self.old.caller self.new.caller }
        ensures unbegun { result ≡ Ok look.Spent → BeginsNone L.holds self.old.caller self.new.caller }
        ensures memory { IfErr result (λ _. HasNoRoom self.old.caller self.new.caller) }
        ensures begun { begun self.old.caller ≤ begun self.new.caller }
        ensures nothing { AddsNothing self.old.caller self.new.caller }
        ensures renews { RenewsNothing self.old.caller self.new.caller }
    {
        match &mut self.caller {
            Caller::Dstm(caller) => match table {
                Table::Dstm(stm) => let_go(caller, &mut self.going, stm, &mut self.values),
                Table::Tl2(_) => unreachable!(),
            },
            Caller::Tl2(_) => Ok(Look::Same),
        }
    }

    /// One look whether something has changed. By DSTM it looks at what the attempt has read, and leaves it where that has
    /// changed. By TL2 it begins an attempt, and something has changed where `since` is not its clock.
    pub fn look(&mut self, table: &Table<L>, since: u64) -> Look
        requires table { home_of self.old.caller ≡ table.now }
        ensures same { result ≡ look.Same → LooksSame since self.old.caller self.new.caller }
        ensures changed { result ≡ look.Changed → LooksChanged L.holds since self.old.caller self.new.caller }
        ensures spent { result ≡ look.Spent → LooksSpent self.old.caller self.new.caller }
        ensures once { result ≢ look.Spent → LooksOnce L.holds self.old.caller self.new.caller }
        ensures unbegun { result ≡ look.Spent → BeginsNone L.holds self.old.caller self.new.caller }
        ensures live { result ≡ look.Same → is_under_way self.new.caller ≡ true }
        ensures nothing { AddsNothing self.old.caller self.new.caller }
    {
        match &mut self.caller {
            Caller::Dstm(caller) => match table {
                Table::Dstm(stm) => Calls::look(caller, &mut self.going, stm, since),
                Table::Tl2(_) => unreachable!(),
            },
            Caller::Tl2(caller) => match table {
                Table::Tl2(stm) => Calls::look(caller, &mut self.going, stm, since),
                Table::Dstm(_) => unreachable!(),
            },
        }
    }
}

// Commits the attempt of a caller. A flag tells whether one is under way.
#[inline(always)]
fn commit<L: Law>(caller: &mut Caller<L>, going: &mut bool, table: &Table<L>) -> Option<u64>
    requires table { home_of caller.old ≡ table.now }
    requires flags { Flags going.old caller.old }
    requires lawful { LeavesLawful L.holds caller.old }
    ensures takes { IfSome result (TakesUnder L.holds caller.old caller.new) }
    ensures keeps { result ≡ None → Keeps caller.old caller.new }
    ensures lost { result ≡ None → IsLost L.holds caller.old caller.new }
    ensures home { home_of caller.new ≡ home_of caller.old }
    ensures flags { Flags going.new caller.new }
{
    match caller {
        Caller::Dstm(caller) => match table {
            Table::Dstm(stm) => Calls::commit(caller, going, stm),
            Table::Tl2(_) => unreachable!(),
        },
        Caller::Tl2(caller) => match table {
            Table::Tl2(stm) => Calls::commit(caller, going, stm),
            Table::Dstm(_) => unreachable!(),
        },
    }
}
