ghost use Rattle.std.specs.Prelude.{◌≡◌};
ghost use Rattle.dstm_workload.specs.Workload.{IsValidWorkload};
ghost use Rattle.dstm_tables.specs.Callers.{let_go};
ghost use Rattle.dstm_records.specs.Records.{KeepsReads};
ghost use Rattle.dstm_crew.specs.Workers.{IsReady, HasRun};

use crate::done::Done;
use crate::gate::Gate;
use crate::style::style_for;
use crate::trying::try_job;
use dstm_jobs::{Caller, Table};
use dstm_options::Options;
use dstm_workload::Workload;

/// A worker in a parallel round.
#[derive(Drop)]
pub struct Worker {
    pub number: u32,
    pub caller: Caller,
    /// Where its jobs stand that are left, in file order.
    pub places: Vec<usize>,
    /// What was done of them, from the first on. There is room for all.
    pub done: Done,
    /// Workers stand in a row. This keeps what one writes off the lines of memory of the next one.
    pub apart: [u64; 16],
}

impl Worker {
    /// Runs its jobs in file order, each until it is done, until it has none, its caller is spent, or a job stays
    /// blocked. If there is a gate, it passes it once before the first attempt at each job.
    pub fn run<G: Gate>(
        &mut self,
        table: &Table,
        workload: &Workload,
        options: &Options,
        gate: Option<&G>,
    )
        requires valid { IsValidWorkload workload.now }
        requires ready { IsReady workload.now table.now self.old }
        ensures run { HasRun workload.now options.now self.old self.new }
        ensures keeps { KeepsReads options.now workload.now.version →
            let_go self.new.caller ≡ let_go self.old.caller }
    {
        let style = style_for(options, workload.version);
        let jobs = workload.jobs.as_slice();
        for at in 0..self.places.len() {
            let job = &jobs[self.places[at]];
            if let Some(gate) = gate {
                gate.pass(self.number, job.line);
            }
            let layout = &workload.layout;
            match try_job(style, &mut self.caller, table, layout, job, &mut self.done) {
                Ok(()) => (),
                Err(_) => return,
            }
        }
    }
}
