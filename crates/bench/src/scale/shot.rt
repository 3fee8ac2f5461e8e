// A transaction as a body of the engines.
ghost use Rattle.std.specs.Prelude.{List, IfOk, OnOk};
ghost use Rattle.dstm_model.specs.declared.value.Val.{Val};
ghost use Rattle.dstm_mem.specs.Memory.{with_set};
ghost use Rattle.dstm_mem.specs.Operations.{IsFresh, Leads};
ghost use Rattle.dstm_store.specs.Whole.{IsLawful};
ghost use Rattle.bench.specs.declared.scale.load.TheConstants.{LAYOUT};

use super::load::{Batch, LAYOUT, Load};
use dstm_mem::{Body, FlatMem, Mem};
use dstm_model::Val;
use dstm_store::{StoreLaw, opening, run_op};
use std::alloc::{AllocError, Global};

/// A transaction of a load.
#[derive(Debug, Drop)]
pub struct Shot {
    pub batch: Batch,
}

impl Body<StoreLaw> for Shot {
    ghost use Rattle.bench.specs.declared.scale.load.TheConstants.{LAYOUT};

    type Task = ();

    type Outcome = ();

    ghost law = { λ _. record { layout = LAYOUT } };

    ghost task = { λ _. tt };

    ghost outcome = { λ _. tt };

    ghost right = { λ _ _ _. Unit {0} };

    ghost leaves = { λ _ _ _. Unit {0} };

    fn run<M: Mem>(&mut self, mem: &mut M) -> Result<(), M::Err> {
        run_ops(mem, &self.batch)
    }
}

// Runs the operations, one after the other.
fn run_ops<M: Mem>(mem: &mut M, batch: &Batch) -> Result<(), M::Err>
    requires fresh { IsFresh M.Mem mem.old }
    requires lawful { (map : List Val) → M.Admits mem.old map → IsLawful LAYOUT map }
    ensures lawful { OnOk result ((map : List Val) → M.Admits mem.new map →
        IsLawful LAYOUT (with_set map (M.written mem.new))) }
    ensures leads { Leads M.Mem mem.old mem.new result }
{
    for place in 0..batch.count() {
        let _reply = run_op(mem, &LAYOUT, &batch.op(place))?;
    }
    Ok(())
}

/// The values of a store whose tree has been filled.
pub fn filled(alloc: Global) -> Result<Vec<Val>, AllocError>
    ensures { IfOk result (λ values. IsLawful LAYOUT values.items) }
{
    let values = opening(alloc, &LAYOUT)?;
    let mut mem = FlatMem::make(alloc, values)?;
    let batch = Batch {
        load: Load::Fill,
        thread: 0,
        number: 0,
    };
    match run_ops(&mut mem, &batch) {
        Ok(()) => Ok(mem.values()),
        Err(never) => match never {},
    }
}
