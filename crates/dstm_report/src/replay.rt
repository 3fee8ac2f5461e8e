ghost use Rattle.std.specs.Prelude.{◌≡◌, ℕ, ◌<◌, [], ◌∷◌, ◌++◌, All, Some, IsTrue};
ghost use Rattle.std.specs.Prelude.{◌↔◌, IfOk, IfSome, MatchBool};
ghost use Rattle.dstm_model.specs.Job.{apply_job};
ghost use Rattle.dstm_model.specs.Layout.{FitsLayout};
ghost use Rattle.dstm_workload.specs.Workload.{IsValidWorkload};
ghost use Rattle.dstm_report.specs.Lawful.{last_row, after_job, AreBlocked, IsBefore, IsGoodRow, AnswersWhere};
ghost use Rattle.dstm_report.specs.Replaying.{HasFollowed};

use crate::report::Row;
use crate::turns::Turns;
use dstm_model::{PlainStore, Reply};
use dstm_workload::{Job, Workload};
use std::alloc::{AllocError, Global};

/// Follows the rows of a report, each of which has to be the first job left of its worker.
#[derive(Drop)]
pub struct Replay<'a> {
    /// The store that the rows so far leave.
    pub store: PlainStore,
    /// The jobs that the rows so far leave.
    pub turns: Turns<'a>,
}

impl<'a> Replay<'a> {
    pub fn new(alloc: Global, workload: &'a Workload) -> Result<Replay<'a>, AllocError>
        requires { IsValidWorkload workload.now }
        ensures { IfOk result (HasFollowed workload.now []) }
    {
        let turns = Turns::new(alloc, workload.jobs.as_slice(), workload.workers)?;
        Ok(Replay {
            store: PlainStore::opening(alloc, &workload.layout)?,
            turns,
        })
    }

    /// Follows a row, and tells whether it stands rightly behind the rows before it.
    pub fn follow(
        &mut self,
        workload: &Workload,
        before: &[Row],
        row: &Row,
    ) -> Result<bool, AllocError>
        requires valid { IsValidWorkload workload.now }
        requires followed { HasFollowed workload.now before.now self.old }
        ensures { IfOk result (λ good. MatchBool good
            (HasFollowed workload.now (before.now ++ row.now ∷ []) self.new)
            (¬ (IsGoodRow workload.now before.now row.now))) }
    {
        let Some(job) = self.turns.first(row.worker) else {
            return Ok(false);
        };
        if job.line != row.line || !is_behind(before, row) {
            return Ok(false);
        }
        if !self.answers(workload.workers, job, row.replies.as_slice())? {
            return Ok(false);
        }
        self.turns.pass(row.worker);
        Ok(true)
    }

    // Applies a worker's first job left, and tells whether these are its replies. It is given up with
    // `never` only where the first job left of every worker is blocked.
    fn answers(&mut self, workers: u32, job: &Job, replies: &[Reply]) -> Result<bool, AllocError>
        requires job { All (FitsLayout self.old.store.layout) job.now.ops }
        requires left { All (λ j. All (FitsLayout self.old.store.layout) j.ops) self.old.turns.left }
        requires small { All (λ j. j.worker < workers) self.old.turns.left }
        ensures answer { IfOk result (λ good. IsTrue good ↔ AnswersWhere
            (AreBlocked self.old.turns.left self.old.store) (apply_job job.now.ops self.old.store) replies.now) }
        ensures store { IfOk result (λ _. self.new.store ≡ after_job (Some job.now) self.old.store) }
        ensures layout { self.new.store.layout ≡ self.old.store.layout }
        ensures turns { self.new.turns ≡ self.old.turns }
    {
        match self.store.apply_job(&job.ops)? {
            Some(own) => Ok(same_replies(replies, own.as_slice())),
            None => Ok(same_replies(replies, &[Reply::Never]) && self.is_stuck(workers)),
        }
    }

    // Whether the first job left of every worker is blocked.
    fn is_stuck(&self, workers: u32) -> bool
        requires left { All (λ job. All (FitsLayout self.now.store.layout) job.ops) self.now.turns.left }
        requires small { All (λ job. job.worker < workers) self.now.turns.left }
        ensures { IsTrue result ↔ AreBlocked self.now.turns.left self.now.store }
    {
        for worker in 0..workers {
            if let Some(job) = self.turns.first(worker) {
                if !self.store.is_blocked(&job.ops) {
                    return false;
                }
            }
        }
        true
    }
}

// Whether the last of the rows before has a smaller pair of round and number.
fn is_behind(before: &[Row], row: &Row) -> bool
    ensures { IsTrue result ↔ IfSome (last_row before.now) (λ previous. IsBefore previous row.now) }
{
    match before.last() {
        None => true,
        Some(previous) => is_before(previous, row),
    }
}

fn is_before(previous: &Row, row: &Row) -> bool
    ensures { IsTrue result ↔ IsBefore previous.now row.now }
{
    previous.round < row.round || (previous.round == row.round && previous.number < row.number)
}

fn same_replies(left: &[Reply], right: &[Reply]) -> bool
    ensures { IsTrue result ↔ (left.now ≡ right.now) }
{
    left == right
}
