ghost use Rattle.std.specs.Prelude.{◌≡◌, ◌<◌, length, map, slice_index_or, All, IfOk, IsSome, option_copied};
ghost use Rattle.dstm_report.specs.Lawful.{first_job};
ghost use Rattle.dstm_report.specs.Turns.{job_at, job_of, jobs_of, without_first, AreLinked};

use dstm_workload::Job;
use std::alloc::{AllocError, Global};
use std::marker::Model;

/// Whose turn it is, where each worker runs its jobs in their order. Contracts see all jobs, and those that are left.
#[derive(Drop)]
pub struct Turns<'a> {
    jobs: &'a [Job],
    // The place of each worker's first job left, or the number of jobs.
    next: Vec<usize>,
    // The place of the job behind each job of the same worker, or the number of jobs.
    following: Vec<usize>,
}

impl<'a> Model for Turns<'a> {
    ghost use Rattle.dstm_report.specs.Turns.{ArePlaces, Turning, left_from};

    ghost Value = { Turning };

    ghost view = { λ t. record { jobs = t.jobs.now; left = left_from 0 t.next.items t.jobs.now } };

    ghost invariant = { λ t. ArePlaces t.jobs.now t.next.items t.following.items };
}

impl<'a> Turns<'a> {
    /// Before the first turn all jobs are left. The workers are those below `workers`.
    pub fn new(alloc: Global, jobs: &'a [Job], workers: u32) -> Result<Turns<'a>, AllocError>
        requires { All (λ job. job.worker < workers) jobs.now }
        ensures { IfOk result (λ turns. turns ≡ record { jobs = jobs.now; left = jobs.now }) }
    {
        let (next, following) = links(alloc, jobs, workers)?;
        Ok(Turns {
            jobs,
            next,
            following,
        })
    }

    /// The first job left of a worker.
    pub fn first(&self, worker: u32) -> Option<&'a Job>
        ensures { option_copied result ≡ first_job worker self.now.left }
    {
        job_of(self.jobs, &self.next, worker)
    }

    /// Ends the turn of a worker: its first job is left no more.
    pub fn pass(&mut self, worker: u32)
        requires { IsSome (first_job worker self.old.left) }
        ensures { self.new ≡ record self.old { left = without_first worker self.old.left } }
    {
        let worker = worker as usize;
        let place = self.next[worker];
        self.next[worker] = self.following[place];
    }

    /// Where the jobs left of a worker stand among all jobs, in their order.
    pub fn places(&self, alloc: Global, worker: u32) -> Result<Vec<usize>, AllocError>
        ensures jobs { IfOk result (λ places.
            map (job_at self.now.jobs) places.items ≡ jobs_of worker self.now.left) }
        ensures within { IfOk result (λ places. All (λ place. place < length self.now.jobs) places.items) }
    {
        let mut places = Vec::new(alloc);
        let mut place = place_of(&self.next, worker, self.jobs.len());
        while place < self.jobs.len() {
            places.push(place)?;
            place = self.following[place];
        }
        Ok(places)
    }
}

// The worker's place, or the end for one that has none.
fn place_of(next: &[usize], worker: u32, end: usize) -> usize
    ensures { result ≡ slice_index_or next.now worker end }
{
    match next.get(worker as usize) {
        Some(place) => *place,
        None => end,
    }
}

// The job at the worker's place.
fn job_of<'a>(jobs: &'a [Job], next: &[usize], worker: u32) -> Option<&'a Job>
    ensures { option_copied result ≡ job_of jobs.now next.now worker }
{
    let place = *next.get(worker as usize)?;
    jobs.get(place)
}

// The first job of each worker, and of each job the next one of its worker.
fn links(alloc: Global, jobs: &[Job], workers: u32) -> Result<(Vec<usize>, Vec<usize>), AllocError>
    requires { All (λ job. job.worker < workers) jobs.now }
    ensures { IfOk result (λ made. AreLinked jobs.now workers 0 made.0.items made.1.items) }
{
    let mut first = vec![in alloc; jobs.len(); workers as usize]?;
    let mut following = vec![in alloc; jobs.len(); jobs.len()]?;
    for place in (0..jobs.len()).rev() {
        let worker = jobs[place].worker as usize;
        following[place] = first[worker];
        first[worker] = place;
    }
    Ok((first, following))
}
