ghost use Rattle.std.specs.Prelude.{◌≡◌, ◌+◌, ◌≤◌, ℕ, List, OnOk, IfErr, false};
ghost use Rattle.dstm_engine.specs.Attempts.{Admits, looks, sights};
ghost use Rattle.dstm_engine.specs.Bodies.{Known};
ghost use Rattle.dstm_engine.specs.Callers.{live_held, live_opened, shape_of, written};
ghost use Rattle.dstm_engine.specs.Makes.{let_go};
ghost use Rattle.dstm_mem.specs.Memory.{HoldsAtMost, with_set};
ghost use Rattle.dstm_mem.specs.Operations.{IsFresh, Leads};
ghost use Rattle.dstm_model.specs.declared.value.Val.{Val};

use crate::tx::Tx;
use dstm_mem::{Body, LooseBody, Mem, Release};
use dstm_model::{Law, Val};
use dstm_order::Again;
use std::marker::{Brand, PhantomData};

/// How many sights an attempt has had, and how often it has looked at an object, before a body runs on it.
pub trait Counted {
    ghost use Rattle.std.specs.Prelude.{ℕ};

    ghost sights: { ℕ };

    ghost looks: { ℕ };
}

// What stands for it, before a call picks it.
impl Counted for Brand {
    ghost sights = { 0 };

    ghost looks = { 0 };
}

/// Of an attempt that has only begun.
pub struct Begun;

impl Counted for Begun {
    ghost sights = { 0 };

    ghost looks = { 0 };
}

/// Whether a body keeps its reads.
pub trait TellsLetGo {
    ghost use Rattle.std.specs.Prelude.{ℕ};

    /// What is told of how many reads a caller has let go.
    ghost told: { ℕ → ℕ };
}

/// It keeps them.
pub struct Kept;

impl TellsLetGo for Kept {
    ghost told = { λ let_go. let_go };
}

/// It may let them go.
pub struct LetGo;

impl TellsLetGo for LetGo {
    ghost told = { λ _. 0 };
}

/// An attempt on which a body may open objects and set them, and not make sure again that what it has read stands: since it
/// was counted the attempt has had at most one sight for each look at an object. Where the body keeps its reads, how many
/// its caller has let go tells the memory too: so it lets none go.
#[derive(Drop)]
pub struct Opener<'b, 'a, L: Law, C: Counted, K: TellsLetGo> {
    pub tx: &'b mut Tx<'a, L>,
    pub of: PhantomData<(C, K)>,
    ghost few: { sights tx.now.caller.now + C.looks ≤ looks tx.now.caller.now + C.sights },
}

impl<'b, 'a, L: Law, C: Counted, K: TellsLetGo> Mem for Opener<'b, 'a, L, C, K> {
    ghost use Rattle.std.specs.Prelude.{ℕ};
    ghost use Rattle.dstm_engine.specs.Attempts.{Admits};
    ghost use Rattle.dstm_engine.specs.Callers.{is_live, live_held, live_opened, shape_of, written};
    ghost use Rattle.dstm_engine.specs.Makes.{let_go};
    ghost use Rattle.dstm_engine.specs.Places.{live_agrees};
    ghost use Rattle.dstm_engine.specs.Transactions.{TxPlace, tx_place};

    type Err = Again;

    ghost Place = { (TxPlace L × ℕ) × ℕ };

    ghost place = { λ o.
        ((tx_place o.tx.now.caller.ghost_name o.tx.now.stm.now o.tx.now.caller.now, K.told (let_go o.tx.now.caller.now)), o.tx.ghost_name) };

    ghost all_write = { λ p. p.0.0.home.terms.shape.all_write };

    ghost objects = { λ o. (shape_of o.tx.now.caller.now).objects };

    ghost held = { λ o. live_held o.tx.now.caller.now };

    ghost written = { λ o. written o.tx.now.caller.now };

    ghost is_opened = { λ o. live_opened o.tx.now.caller.now };

    ghost is_live = { λ o. is_live o.tx.now.caller.now };

    ghost error = { λ o. o.tx.now.caller.now.left };

    ghost Admits = { λ o. Admits L.holds o.tx.now.caller.now };

    #[inline(always)]
    fn open_read(&mut self, o: u32) -> Result<Val, Again> {
        Tx::open_read(self.tx, o)
    }

    #[inline(always)]
    fn open_write(&mut self, o: u32) -> Result<Val, Again> {
        Tx::open_write(self.tx, o)
    }

    fn set(&mut self, o: u32, v: Val) {
        Tx::set(self.tx, o, v);
    }

    ghost admitted_length = { λ o map admits. admits.length };

    ghost admitted_agrees = { λ o map admits. live_agrees o.tx.now.caller.now map admits.agrees };
}

impl<'b, 'a, L: Law, C: Counted> Release for Opener<'b, 'a, L, C, LetGo> {
    ghost use Rattle.std.proofs.Common.{ap};
    ghost use Rattle.dstm_engine.specs.Places.{IsBegunMap, admits_exactly, began_stays};

    ghost Began = { λ o. IsBegunMap L.holds o.tx.now.caller.now };

    fn is_read(&self, o: u32) -> bool {
        Tx::is_read(self.tx, o)
    }

    fn release(&mut self, o: u32) {
        Tx::release(self.tx, o);
    }

    ghost admits_exactly = { λ o map live. admits_exactly L.holds o.tx.now.caller.now map live };

    ghost began_stays = { λ s t map same. began_stays L.holds s.tx.now.caller.now t.tx.now.caller.now map
        s.tx.now.caller.ghost_name t.tx.now.caller.ghost_name s.tx.now.stm.now t.tx.now.stm.now (ap (λ p. p.0.0) same) };
}

impl<'a, L: Law> Tx<'a, L> {
    /// Runs a body that keeps its reads once, on an attempt on which nothing was read, set or opened. It makes sure that
    /// its reads stand no more often than it looks at an object.
    pub fn run<B: Body<L>>(&mut self, body: &mut B) -> Result<(), Again>
        requires fresh { IsFresh ⟦<Tx<'a, L> as Mem>⟧ self.old }
        requires lawful { (map : List Val) → Admits L.holds self.old.caller.now map → L.holds (B.law body.old) map }

        ensures lawful { OnOk result ((map : List Val) → Admits L.holds self.new.caller.now map →
            L.holds (B.law body.new) (with_set map (written self.new.caller.now))) }
        ensures right { OnOk result ((map : List Val) → Admits L.holds self.new.caller.now map →
            B.right body.new map (with_set map (written self.new.caller.now))) }
        ensures leaves { OnOk result
            (B.leaves body.new (live_held self.new.caller.now) (live_opened self.new.caller.now)) }
        ensures law { B.law body.new ≡ B.law body.old }
        ensures task { B.task body.new ≡ B.task body.old }
        ensures outcome { IfErr result (λ _. B.outcome body.new ≡ B.outcome body.old) }
        ensures leads { Leads ⟦<Tx<'a, L> as Mem>⟧ self.old self.new result }
        ensures kept { let_go self.new.caller.now ≡ let_go self.old.caller.now }
        ensures few { sights self.new.caller.now + looks self.old.caller.now
            ≤ looks self.new.caller.now + sights self.old.caller.now }
    {
        run_by::<L, B, Kept, Brand>(self, body)
    }

    /// The same with a body that lets reads go. Where reads stay reads, it keeps no more of them than it says at most.
    pub fn run_loose<B: LooseBody<L>>(&mut self, body: &mut B) -> Result<(), Again>
        requires fresh { IsFresh ⟦<Tx<'a, L> as Mem>⟧ self.old }
        requires lawful { (map : List Val) → Admits L.holds self.old.caller.now map → L.holds (B.law body.old) map }

        ensures lawful { OnOk result ((map : List Val) → Admits L.holds self.new.caller.now map →
            L.holds (B.law body.new) (with_set map (written self.new.caller.now))) }
        ensures right { OnOk result ((map : List Val) → Admits L.holds self.new.caller.now map →
            B.right body.new map (with_set map (written self.new.caller.now))) }
        ensures leaves { OnOk result
            (B.leaves body.new (live_held self.new.caller.now) (live_opened self.new.caller.now)) }
        ensures most { OnOk result ((shape_of self.old.caller.now).all_write ≡ false →
            (most : ℕ) → B.keeps_at_most body.new most → HoldsAtMost most (live_held self.new.caller.now)) }
        ensures law { B.law body.new ≡ B.law body.old }
        ensures task { B.task body.new ≡ B.task body.old }
        ensures outcome { IfErr result (λ _. B.outcome body.new ≡ B.outcome body.old) }
        ensures leads { Leads ⟦<Tx<'a, L> as Mem>⟧ self.old self.new result }
        ensures few { sights self.new.caller.now + looks self.old.caller.now
            ≤ looks self.new.caller.now + sights self.old.caller.now }
    {
        run_by::<L, B, LetGo, Brand>(self, body)
    }
}

/// How a body of either trait runs on an attempt, and what is known of it.
pub(crate) trait Runs<L: Law, B>: TellsLetGo + Sized {
    type Task;

    type Outcome;

    ghost known: { Known L B Self.Task Self.Outcome };

    /// Runs the body once, on an attempt on which nothing was read, set or opened.
    fn run<'b, 'a, C: Counted>(
        body: &mut B,
        on: &mut Opener<'b, 'a, L, C, Self>,
    ) -> Result<(), Again>
        requires fresh { IsFresh ⟦<Opener<'b, 'a, L, C, Self> as Mem>⟧ on.old }
        requires lawful { (map : List Val) → Admits L.holds on.old.tx.now.caller.now map → L.holds (known.law body.old) map }

        ensures lawful { OnOk result ((map : List Val) → Admits L.holds on.new.tx.now.caller.now map →
            L.holds (known.law body.new) (with_set map (written on.new.tx.now.caller.now))) }
        ensures right { OnOk result ((map : List Val) → Admits L.holds on.new.tx.now.caller.now map →
            known.right body.new map (with_set map (written on.new.tx.now.caller.now))) }
        ensures leaves { OnOk result
            (known.leaves body.new (live_held on.new.tx.now.caller.now) (live_opened on.new.tx.now.caller.now)) }
        ensures few { OnOk result ((shape_of on.old.tx.now.caller.now).all_write ≡ false →
            (most : ℕ) → known.keeps_at_most body.new most → HoldsAtMost most (live_held on.new.tx.now.caller.now)) }
        ensures law { known.law body.new ≡ known.law body.old }
        ensures task { known.task body.new ≡ known.task body.old }
        ensures outcome { IfErr result (λ _. known.outcome body.new ≡ known.outcome body.old) }
        ensures leads { Leads ⟦<Opener<'b, 'a, L, C, Self> as Mem>⟧ on.old on.new result };
}

// One that keeps its reads. It says of no number that it keeps at most so many.
impl<L: Law, B: Body<L>> Runs<L, B> for Kept {
    type Task = B::Task;

    type Outcome = B::Outcome;

    ghost known = { record {
      law = B.law;
      task = B.task;
      outcome = B.outcome;
      right = B.right;
      leaves = B.leaves;
      keeps_at_most = λ _ _. ⊥;
    } };

    fn run<'b, 'a, C: Counted>(
        body: &mut B,
        on: &mut Opener<'b, 'a, L, C, Kept>,
    ) -> Result<(), Again> {
        body.run(on)
    }
}

// One that may let them go.
impl<L: Law, B: LooseBody<L>> Runs<L, B> for LetGo {
    type Task = B::Task;

    type Outcome = B::Outcome;

    ghost known = { record {
      law = B.law;
      task = B.task;
      outcome = B.outcome;
      right = B.right;
      leaves = B.leaves;
      keeps_at_most = B.keeps_at_most;
    } };

    fn run<'b, 'a, C: Counted>(
        body: &mut B,
        on: &mut Opener<'b, 'a, L, C, LetGo>,
    ) -> Result<(), Again> {
        body.run(on)
    }
}

// The same, of an attempt that was counted: it has had no sight since.
pub(crate) fn run_by<'a, L: Law, B, K: Runs<L, B>, C: Counted>(
    tx: &mut Tx<'a, L>,
    body: &mut B,
) -> Result<(), Again>
    requires fresh { IsFresh ⟦<Tx<'a, L> as Mem>⟧ tx.old }
    requires lawful { (map : List Val) → Admits L.holds tx.old.caller.now map → L.holds (K.known.law body.old) map }
    requires few { sights tx.old.caller.now + C.looks ≤ looks tx.old.caller.now + C.sights }
    requires begun { sights tx.old.caller.now ≤ C.sights }

    ensures lawful { OnOk result ((map : List Val) → Admits L.holds tx.new.caller.now map →
        L.holds (K.known.law body.new) (with_set map (written tx.new.caller.now))) }
    ensures right { OnOk result ((map : List Val) → Admits L.holds tx.new.caller.now map →
        K.known.right body.new map (with_set map (written tx.new.caller.now))) }
    ensures leaves { OnOk result
        (K.known.leaves body.new (live_held tx.new.caller.now) (live_opened tx.new.caller.now)) }
    ensures most { OnOk result ((shape_of tx.old.caller.now).all_write ≡ false →
        (most : ℕ) → K.known.keeps_at_most body.new most → HoldsAtMost most (live_held tx.new.caller.now)) }
    ensures law { K.known.law body.new ≡ K.known.law body.old }
    ensures task { K.known.task body.new ≡ K.known.task body.old }
    ensures outcome { IfErr result (λ _. K.known.outcome body.new ≡ K.known.outcome body.old) }
    ensures leads { Leads ⟦<Tx<'a, L> as Mem>⟧ tx.old tx.new result }
    ensures kept { K.told (let_go tx.new.caller.now) ≡ K.told (let_go tx.old.caller.now) }
    ensures few { sights tx.new.caller.now + C.looks ≤ looks tx.new.caller.now + C.sights }
{
    let mut opener = Opener {
        tx: &mut *tx,
        of: PhantomData::<(C, K)>,
    };
    K::run(body, &mut opener)
}
