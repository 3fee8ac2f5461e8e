ghost use Rattle.std.specs.Prelude.{◌≡◌, ◌<◌, [], All, IfOk};
ghost use Rattle.dstm_model.specs.Layout.{IsValid};
ghost use Rattle.dstm_store.specs.Whole.{IsLawful};
ghost use Rattle.dstm_jobs.specs.Tables.{AtRest};
ghost use Rattle.dstm_tables.specs.Callers.{begun, done, home_of, law_of, round_of};
ghost use Rattle.dstm_tables.specs.Founders.{guests_of, home_there, out_of};
ghost use Rattle.dstm_tables.specs.Tables.{law_there};
ghost use Rattle.dstm_tables.specs.Tells.{callers_of};
ghost use Rattle.dstm_workload.specs.Workload.{IsValidWorkload};

use dstm_core::{Manager, Shape};
use dstm_crew::{Done, OpenGate, Worker};
use dstm_jobs::{
    Caller, Finished, Founder, OnlyTried, Style, Table, Zeros, give_up, make, try_alone,
};
use dstm_model::{Layout, Reply, Val};
use dstm_options::{Engine, Options};
use dstm_store::{StoreLaw, opening, read_state};
use dstm_workload::{Workload, read_workload};
use std::alloc::{AllocError, Global};
use std::test::Fail;

// A table on the opening values, and its only caller.
fn open_table(
    alloc: Global,
    engine: Engine,
    layout: &Layout,
) -> Result<(Table, Founder, Caller), Fail>
    requires { IsValid layout.now }
    ensures founder { IfOk result (λ t. home_there t.1 ≡ t.0) }
    ensures out { IfOk result (λ t. out_of t.1 ≡ 1) }
    ensures guests { IfOk result (λ t. guests_of t.1 ≡ 0) }
    ensures home { IfOk result (λ t. home_of t.2 ≡ t.0) }
    ensures law { IfOk result (λ t. (law_of t.2).layout ≡ layout.now) }
    ensures only { IfOk result (λ t. callers_of (round_of t.2) ≡ 1) }
    ensures rest { IfOk result (λ t. AtRest t.2) }
    ensures begun { IfOk result (λ t. begun t.2 ≡ 0) }
    ensures done { IfOk result (λ t. done t.2 ≡ []) }
{
    let start = opening(alloc, layout)?;
    if start.len() > 1_000 {
        return Err(Fail::new("too large"));
    }
    let shape = Shape {
        objects: start.len() as u32,
        callers: 1,
        attempts: 16,
        locators: 2_000,
        manager: Manager::Polka,
        all_write: false,
    };
    let law = StoreLaw { layout: *layout };
    let (table, mut founder) = make(alloc, engine, &mut Zeros::new(alloc), start, shape, law)?;
    let caller = founder.next_caller(alloc, &table, 7)?;
    Ok((table, founder, caller))
}

// All places of so many jobs.
fn places_of(alloc: Global, count: usize) -> Result<Vec<usize>, AllocError>
    ensures { IfOk result (λ places. All (λ place. place < count) places.items) }
{
    let mut places = Vec::new(alloc);
    for place in 0..count {
        places.push(place)?;
    }
    Ok(places)
}

// Runs the jobs of a workload by one worker, on a table of its own: what was done, and the balances that this left.
fn run_worker(
    alloc: Global,
    engine: Engine,
    workload: &Workload,
    release: bool,
) -> Result<(Done, Vec<u64>), Fail>
    requires { IsValidWorkload workload.now }
{
    let options = Options {
        manager: Manager::Polka,
        seed: 7,
        all_write: false,
        release,
        engine,
    };
    let places = places_of(alloc, workload.jobs.as_slice().len())?;
    let done = Done::with_room(alloc, places.len())?;
    let (table, mut founder, caller) = open_table(alloc, engine, &workload.layout)?;
    let mut worker = Worker {
        number: 0,
        caller,
        places,
        done,
        apart: [0; 16],
    };
    worker.run(&table, workload, &options, Some(&OpenGate));
    let Worker { caller, done, .. } = worker;
    founder.retire(&table, caller);
    let bank = bank_of_table(alloc, &workload.layout, table, founder)?;
    Ok((done, bank))
}

// The balances that a table leaves.
fn bank_of_table(
    alloc: Global,
    layout: &Layout,
    table: Table,
    founder: Founder,
) -> Result<Vec<u64>, AllocError>
    requires valid { IsValid layout.now }
    requires founder { home_there founder ≡ table }
    requires out { out_of founder ≡ 0 }
    requires guests { guests_of founder ≡ 0 }
    requires law { (law_there table).layout ≡ layout.now }
{
    let (values, _round) = table.close(alloc, founder)?;
    bank_of(alloc, layout, &values)
}

fn bank_of(alloc: Global, layout: &Layout, values: &[Val]) -> Result<Vec<u64>, AllocError>
    requires valid { IsValid layout.now }
    requires lawful { IsLawful layout.now values.now }
{
    let state = read_state(alloc, layout, values)?;
    Vec::from_slice(alloc, state.bank.as_slice())
}

// Tells whether the one at a place was done under this number, with these replies.
fn has(done: &Done, place: usize, number: u64, replies: &[Reply]) -> bool {
    place < done.len() && done.number(place) == Some(number) && done.replies(place) == replies
}

// Jobs are done in file order, each under the next number.
#[test]
fn a_worker_runs_its_jobs(rt: HostRuntime) -> Result<(), Fail> {
    let text =
        b"dstm 1\nbank 2 100\nlist 4\ntx 0 transfer 0 1 30 ; total\ntx 0 insert list 7 ; member list 7\n";
    let workload = read_workload(rt.alloc(), text)?;
    for (engine, release) in [
        (Engine::Dstm, false),
        (Engine::Dstm, true),
        (Engine::Tl2, false),
        (Engine::Tl2, true),
    ] {
        let (done, bank) = run_worker(rt.alloc(), engine, &workload, release)?;
        assert!(rt; done.len() == 2);
        assert!(rt; has(&done, 0, 0, &[Reply::Moved, Reply::Number(200)]));
        assert!(rt; has(&done, 1, 1, &[Reply::Yes, Reply::Yes]));
        assert!(rt; bank.as_slice() == [70, 130].as_slice());
    }
    Ok(())
}

// A worker runs the first open branch, and leaves at a job that stays blocked.
#[test]
fn a_worker_runs_branches(rt: HostRuntime) -> Result<(), Fail> {
    let text =
        b"dstm 3\nbank 2 100\ntx 0 await balance 0 150 ; total orelse transfer 1 0 60\ntx 0 await balance 1 50\n\
        tx 0 total\n";
    let workload = read_workload(rt.alloc(), text)?;
    for engine in [Engine::Dstm, Engine::Tl2] {
        let (done, bank) = run_worker(rt.alloc(), engine, &workload, false)?;
        assert!(rt; done.len() == 1);
        assert!(rt; has(&done, 0, 0, &[Reply::Moved]));
        assert!(rt; bank.as_slice() == [160, 40].as_slice());
    }
    Ok(())
}

// The only caller of a table stands at a blocked job, gives it up, and does the next one.
#[test]
fn an_only_caller_gives_up_a_blocked_job(rt: HostRuntime) -> Result<(), Fail> {
    let alloc = rt.alloc();
    let text = b"dstm 3\nbank 1 5\ntx 0 await balance 0 6\ntx 0 balance 0\n";
    let workload = read_workload(alloc, text)?;
    for engine in [Engine::Dstm, Engine::Tl2] {
        let (number, finished) = give_up_first(alloc, engine, &workload)?;
        assert!(rt; (number, finished.number) == (0, 1));
        assert!(rt; finished.replies.as_slice() == [Reply::Number(5)].as_slice());
    }
    Ok(())
}

// Stands at the first job of two, gives it up and does the second: the number that the first one took, and what was done.
fn give_up_one(
    caller: &mut Caller,
    table: &Table,
    workload: &Workload,
) -> Result<(u64, Finished), Fail>
    requires valid { IsValidWorkload workload.now }
    requires table { home_of caller.old ≡ table.now }
    requires only { callers_of (round_of caller.old) ≡ 1 }
    requires law { (law_of caller.old).layout ≡ workload.now.layout }
    requires rest { AtRest caller.old }
{
    let layout = &workload.layout;
    let style = Style::of(workload.version, false);
    let [first, second] = workload.jobs.as_slice() else {
        return Err(Fail::new("two jobs"));
    };
    let OnlyTried::Blocked = try_alone(style, caller, table, layout, first) else {
        return Err(Fail::new("not blocked"));
    };
    let Some(number) = give_up(caller, table) else {
        return Err(Fail::new("spent"));
    };
    match try_alone(style, caller, table, layout, second) {
        OnlyTried::Done(finished) => Ok((number, finished)),
        _ => Err(Fail::new("not done")),
    }
}

// Does so on a table of its own.
fn give_up_first(
    alloc: Global,
    engine: Engine,
    workload: &Workload,
) -> Result<(u64, Finished), Fail>
    requires { IsValidWorkload workload.now }
{
    let (table, _founder, mut caller) = open_table(alloc, engine, &workload.layout)?;
    give_up_one(&mut caller, &table, workload)
}
