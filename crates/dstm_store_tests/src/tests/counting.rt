ghost use Rattle.std.specs.Prelude.{◌≡◌, ◌<◌, List, length, IfOk};
ghost use Rattle.dstm_model.specs.declared.value.Val.{Val};
ghost use Rattle.dstm_model.specs.Layout.{IsValid};
ghost use Rattle.dstm_model.specs.Objects.{objects_of};
ghost use Rattle.dstm_mem.specs.Memory.{with_set};
ghost use Rattle.dstm_mem.specs.Operations.{IsFresh, IsReady};
ghost use Rattle.dstm_store.specs.Whole.{StandsFor};

use dstm_mem::{Body, FlatMem, Mem, Never, Release};
use dstm_model::{Law, Layout, Val};
use dstm_store::opening;
use std::alloc::{AllocError, Global};

/// How many calls open an object, for reading and for writing.
#[derive(Clone, Copy)]
pub(crate) struct Opens {
    pub(crate) reads: u32,
    pub(crate) writes: u32,
}

pub(crate) const NO_OPENS: Opens = Opens {
    reads: 0,
    writes: 0,
};

/// A memory that counts the calls that open an object, and the objects that are reads which were opened so: they were not
/// let go, and not opened for writing.
#[derive(Drop)]
pub(crate) struct Counting {
    pub(crate) mem: FlatMem,
    pub(crate) opens: Opens,
    kept: u32,
}

/// How many calls open an object, and how many objects are reads that are kept.
#[derive(Clone, Copy)]
pub(crate) struct Counts {
    pub(crate) opens: u32,
    pub(crate) kept: u32,
}

impl Counting {
    /// A memory of these values, which counted nothing so far.
    pub(crate) fn of(alloc: Global, values: Vec<Val>) -> Result<Counting, AllocError>
        ensures fresh { IfOk result (IsFresh ⟦<Counting as Mem>⟧) }
        ensures objects { IfOk result (λ mem. ⟦<Counting as Mem>⟧.objects mem ≡ length values.items) }
        ensures admits { IfOk result (λ mem. (map : List Val) →
            ⟦<Counting as Mem>⟧.Admits mem map → map ≡ values.items) }
    {
        let mem = FlatMem::make(alloc, values)?;
        Ok(Counting {
            mem,
            opens: NO_OPENS,
            kept: 0,
        })
    }

    /// What was counted, and the values with what is set.
    pub(crate) fn end(self) -> (Counts, Vec<Val>)
        ensures { (map : List Val) → ⟦<Counting as Mem>⟧.Admits self map →
            result.1.items ≡ with_set map (⟦<Counting as Mem>⟧.written self) }
    {
        let Counting { mem, opens, kept } = self;
        let opens = opens.reads.saturating_add(opens.writes);
        (Counts { opens, kept }, mem.values())
    }
}

/// A memory of the opening values.
pub(crate) fn opened(alloc: Global, layout: &Layout) -> Result<Counting, AllocError>
    requires { IsValid layout.now }
    ensures { IfOk result (IsReady ⟦<Counting as Mem>⟧ (objects_of layout.now) (StandsFor layout.now)) }
{
    let values = opening(alloc, layout)?;
    let mem = Counting::of(alloc, values)?;
    Ok(mem)
}

/// Runs a body on lawful values: what was counted, and the values that it leaves.
pub(crate) fn run_body<L: Law, B: Body<L>>(
    alloc: Global,
    values: Vec<Val>,
    body: &mut B,
) -> Result<(Counts, Vec<Val>), AllocError>
    requires { L.holds (B.law body.old) values.items }
    ensures law { B.law body.new ≡ B.law body.old }
    ensures task { B.task body.new ≡ B.task body.old }
    ensures lawful { IfOk result (λ done. L.holds (B.law body.new) done.1.items) }
    ensures right { IfOk result (λ done. B.right body.new values.items done.1.items) }
{
    let mut mem = Counting::of(alloc, values)?;
    match body.run(&mut mem) {
        Ok(()) => Ok(mem.end()),
        Err(never) => match never {},
    }
}

impl Mem for Counting {
    ghost use Rattle.std.specs.Prelude.{List, length};
    ghost use Rattle.std.proofs.Common.{ap, subst, sym};
    ghost use Rattle.dstm_model.specs.declared.value.Val.{Val};
    ghost use Rattle.dstm_mem.specs.Memory.{AgreesWith};
    ghost use Rattle.dstm_mem.specs.Flat.{held_in, held_in-agrees};

    type Err = Never;

    ghost Place = { List Val };

    ghost place = { λ m. ⟦<FlatMem as Mem>⟧.place m.mem };

    ghost all_write = { ⟦<FlatMem as Mem>⟧.all_write };

    ghost objects = { λ m. ⟦<FlatMem as Mem>⟧.objects m.mem };

    ghost held = { λ m. ⟦<FlatMem as Mem>⟧.held m.mem };

    ghost written = { λ m. ⟦<FlatMem as Mem>⟧.written m.mem };

    ghost is_opened = { λ m. ⟦<FlatMem as Mem>⟧.is_opened m.mem };

    ghost is_live = { λ m. ⟦<FlatMem as Mem>⟧.is_live m.mem };

    ghost error = { λ m. ⟦<FlatMem as Mem>⟧.error m.mem };

    ghost Admits = { λ m. ⟦<FlatMem as Mem>⟧.Admits m.mem };

    fn open_read(&mut self, o: u32) -> Result<Val, Never> {
        self.opens.reads = self.opens.reads.saturating_add(1);
        if !self.mem.is_read(o) {
            self.kept = self.kept.saturating_add(1);
        }
        self.mem.open_read(o)
    }

    fn open_write(&mut self, o: u32) -> Result<Val, Never> {
        self.opens.writes = self.opens.writes.saturating_add(1);
        if self.mem.is_read(o) {
            self.kept = self.kept.saturating_sub(1);
        }
        self.mem.open_write(o)
    }

    fn set(&mut self, o: u32, v: Val) {
        self.mem.set(o, v);
    }

    ghost admitted_length = { λ m map e. ap length e };

    ghost admitted_agrees = { λ m map e. subst (λ x. AgreesWith x (held_in m.mem.values.items m.mem.notes.items))
        (sym e) (held_in-agrees m.mem.values.items m.mem.notes.items) };
}

impl Release for Counting {
    ghost use Rattle.dstm_mem.specs.Flat.{flat_admits};
    ghost use Rattle.std.proofs.Common.{◌≡◌, ◌∙◌};

    ghost Began = { λ m map. map ≡ m.mem.values.items };

    fn is_read(&self, o: u32) -> bool {
        self.mem.is_read(o)
    }

    fn release(&mut self, o: u32) {
        self.kept = self.kept.saturating_sub(1);
        self.mem.release(o);
    }

    ghost admits_exactly = { λ m map live. flat_admits m.mem.values.items m.mem.notes.items map };

    ghost began_stays = { λ m n map same began. began ∙ same };
}
