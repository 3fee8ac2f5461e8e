ghost use Rattle.std.specs.Prelude.{◌≡◌, All, IfOk};
ghost use Rattle.dstm_model.specs.Layout.{IsValid, FitsLayout};
ghost use Rattle.dstm_model.specs.Store.{IsPlain};
ghost use Rattle.dstm_model.specs.Objects.{objects_of};
ghost use Rattle.dstm_mem.specs.Operations.{IsReady};
ghost use Rattle.dstm_store.specs.Whole.{StandsFor, IsLawful};
ghost use Rattle.dstm_store.specs.Job.{DoesAll};

use crate::tests::counting::{Counting, NO_OPENS, Opens, opened, run_body};
use crate::tests::operations::{BANK, NOTHING, OF_EACH, can_run, pay, pick, plain_of, same_state};
use dstm_mem::Mem;
use dstm_model::{Item, Layout, Op, Ops, PlainStore, Replies, Reply, State, Val, Which};
use dstm_store::{JobBody, StoreLaw, opening, read_state, run_op, stands_for_one};
use std::alloc::{AllocError, Global};
use std::test::Fail;

// ---- a store on a memory of one thread

/// The answer to an operation, and what it opens; None for one that may not be run.
pub(crate) fn count(mem: &mut Counting, layout: &Layout, op: &Op) -> Option<(Reply, Opens)>
    requires valid { IsValid layout.now }
    requires ready { IsReady ⟦<Counting as Mem>⟧ (objects_of layout.now) (StandsFor layout.now) mem.old }
    ensures { IsReady ⟦<Counting as Mem>⟧ (objects_of layout.now) (StandsFor layout.now) mem.new }
{
    if !can_run(layout, op) {
        return None;
    }
    mem.opens = NO_OPENS;
    match run_op(mem, layout, op) {
        Ok(reply) => Some((reply, mem.opens)),
        Err(never) => match never {},
    }
}

// Runs operations one after the other, and adds their answers: what the store holds then.
fn run_each(
    alloc: Global,
    layout: &Layout,
    ops: &[Op],
    replies: &mut Vec<Reply>,
) -> Result<State, AllocError>
    requires { IsValid layout.now }
{
    let mut mem = opened(alloc, layout)?;
    let told = answer_each(&mut mem, layout, ops, replies);
    let (_, values) = mem.end();
    told?;
    read_state(alloc, layout, &values)
}

fn answer_each(
    mem: &mut Counting,
    layout: &Layout,
    ops: &[Op],
    replies: &mut Vec<Reply>,
) -> Result<(), AllocError>
    requires valid { IsValid layout.now }
    requires ready { IsReady ⟦<Counting as Mem>⟧ (objects_of layout.now) (StandsFor layout.now) mem.old }
    ensures { IsReady ⟦<Counting as Mem>⟧ (objects_of layout.now) (StandsFor layout.now) mem.new }
{
    for op in ops {
        let reply = match count(mem, layout, op) {
            Some((reply, _)) => reply,
            None => Reply::Never,
        };
        replies.push(reply)?;
    }
    Ok(())
}

// Tells whether these are the low parts of a layout's opening values.
fn opens_with(alloc: Global, layout: &Layout, lows: &[u64]) -> Result<bool, AllocError>
    requires { IsValid layout.now }
{
    let values = opening(alloc, layout)?;
    Ok(have_lows(&values, lows))
}

fn have_lows(values: &[Val], lows: &[u64]) -> bool {
    for (i, value) in values.iter().enumerate() {
        if lows.get(i) != Some(&value.low) {
            return false;
        }
    }
    values.len() == lows.len()
}

// Behind the balances a list or a tree begins with its head, or its root; its nodes are free, each naming the next one.
#[test]
fn every_node_is_free_at_the_opening(rt: HostRuntime) -> Result<(), Fail> {
    let alloc = rt.alloc();
    let both = Layout { list: 2, ..BANK };
    let list = Layout { list: 3, ..NOTHING };
    let tree = Layout { tree: 8, ..NOTHING };
    assert!(rt; opens_with(alloc, &BANK, &[100, 100])?);
    assert!(rt; opens_with(alloc, &both, &[100, 100, 0, 1, 2, 0])?);
    assert!(rt; opens_with(alloc, &list, &[0, 1, 2, 3, 0])?);
    assert!(rt; opens_with(alloc, &tree, &[0, 1, 2, 3, 4, 5, 6, 7, 8, 0])?);
    Ok(())
}

pub(crate) fn val(low: u64, high: u64) -> Val {
    Val { low, high }
}

fn item(key: u64) -> Item {
    Item { key, value: 0 }
}

// ---- beside the plain store

// Runs operations one after the other on the plain store, and adds its answers: what it holds then.
fn run_plain(
    alloc: Global,
    layout: &Layout,
    ops: &[Op],
    replies: &mut Vec<Reply>,
) -> Result<State, AllocError>
    requires { IsValid layout.now }
{
    let mut store = PlainStore::opening(alloc, layout)?;
    apply_each(&mut store, layout, ops, replies)?;
    store.state(alloc)
}

fn apply_each(
    store: &mut PlainStore,
    layout: &Layout,
    ops: &[Op],
    replies: &mut Vec<Reply>,
) -> Result<(), AllocError>
    requires { store.old.layout ≡ layout.now }
{
    for op in ops {
        let reply = if can_run(layout, op) {
            store.apply(op)?
        } else {
            Reply::Never
        };
        replies.push(reply)?;
    }
    Ok(())
}

#[test]
fn operations_answer_as_the_plain_store_does(rt: HostRuntime) -> Result<(), Fail> {
    let mut ops = Vec::new(rt.alloc());
    let mut seed: u32 = 1;
    for _step in 0..400 {
        seed = seed.wrapping_mul(1_103_515_245).wrapping_add(12_345);
        ops.push(pick(seed))?;
    }
    let mut replies = Vec::new(rt.alloc());
    let state = run_each(rt.alloc(), &OF_EACH, &ops, &mut replies)?;
    let mut wanted = Vec::new(rt.alloc());
    let holds = run_plain(rt.alloc(), &OF_EACH, &ops, &mut wanted)?;
    assert!(rt; replies.as_slice() == wanted.as_slice());
    assert!(rt; same_state(&state, &holds));
    Ok(())
}

// ---- jobs

#[test]
fn the_law_can_be_cited(_rt: HostRuntime) {
    stands_for_one();
}

// Runs a job on lawful values, and answers its replies and the values that it leaves.
fn run_job(
    alloc: Global,
    layout: &Layout,
    values: Vec<Val>,
    ops: &Ops,
) -> Result<(Replies, Vec<Val>), AllocError>
    requires valid { IsValid layout.now }
    requires fits { All (FitsLayout layout.now) ops.now }
    requires plain { All IsPlain ops.now }
    requires lawful { IsLawful layout.now values.items }
    ensures lawful { IfOk result (λ done. IsLawful layout.now done.1.items) }
    ensures right { IfOk result (λ done.
        DoesAll (record { layout = layout.now; ops = ops.now }) values.items done.1.items done.0) }
{
    let mut body = JobBody::make(layout, ops);
    let (_, after) = run_body::<StoreLaw, JobBody<'_>>(alloc, values, &mut body)?;
    Ok((body.replies(), after))
}

// Runs a job, and adds its answers: the values that it leaves.
fn run_next(
    alloc: Global,
    layout: &Layout,
    values: Vec<Val>,
    job: &[Op],
    replies: &mut Vec<Reply>,
) -> Result<Vec<Val>, AllocError>
    requires valid { IsValid layout.now }
    requires lawful { IsLawful layout.now values.items }
    ensures { IfOk result (λ after. IsLawful layout.now after.items) }
{
    let (answered, after) = run_job(alloc, layout, values, &plain_of(layout, job))?;
    replies.extend_from_slice(answered.as_slice())?;
    Ok(after)
}

// Runs jobs one after the other, and adds their answers: what the store holds then.
fn run_jobs(
    alloc: Global,
    layout: &Layout,
    jobs: &[&[Op]],
    replies: &mut Vec<Reply>,
) -> Result<State, AllocError>
    requires { IsValid layout.now }
{
    let mut values = opening(alloc, layout)?;
    for job in jobs {
        values = run_next(alloc, layout, values, job, replies)?;
    }
    read_state(alloc, layout, &values)
}

#[test]
fn a_job_of_all_keys(rt: HostRuntime) -> Result<(), Fail> {
    let layout = Layout { tree: 7, ..NOTHING };
    let which = Which::Tree;
    let inserts = [
        Op::Insert { which, key: 1 },
        Op::Insert { which, key: 2 },
        Op::Insert { which, key: 3 },
        Op::Insert { which, key: 4 },
        Op::Insert { which, key: 5 },
        Op::Insert { which, key: 6 },
        Op::Insert { which, key: 7 },
    ];
    let removes = [Op::Remove { which, key: 4 }];
    let jobs = [inserts.as_slice(), removes.as_slice()];
    let mut replies = Vec::new(rt.alloc());
    let state = run_jobs(rt.alloc(), &layout, &jobs, &mut replies)?;
    assert!(rt; replies.as_slice() == [Reply::Yes; 8].as_slice());
    let left = [item(1), item(2), item(3), item(5), item(6), item(7)];
    assert!(rt; state.tree.as_slice() == left.as_slice());
    Ok(())
}

// ---- how many objects an operation opens

/// An operation, its answer, and, where that is told, how many objects it opens for reading and for writing.
pub(crate) type Row = (Op, Reply, Option<(u32, u32)>);

/// The first row that says something else of its operation, of these run one after the other on the opening values, and
/// the values that they leave.
pub(crate) fn play(
    alloc: Global,
    layout: &Layout,
    rows: &[Row],
) -> Result<(Option<usize>, Vec<Val>), AllocError>
    requires { IsValid layout.now }
{
    let mut mem = opened(alloc, layout)?;
    let other = first_other(&mut mem, layout, rows);
    let (_, values) = mem.end();
    Ok((other, values))
}

fn first_other(mem: &mut Counting, layout: &Layout, rows: &[Row]) -> Option<usize>
    requires valid { IsValid layout.now }
    requires ready { IsReady ⟦<Counting as Mem>⟧ (objects_of layout.now) (StandsFor layout.now) mem.old }
{
    for (i, row) in rows.iter().enumerate() {
        let (op, reply, told) = *row;
        let Some((answer, opens)) = count(mem, layout, &op) else {
            return Some(i);
        };
        let opens = (opens.reads, opens.writes);
        if answer != reply || told.unwrap_or(opens) != opens {
            return Some(i);
        }
    }
    None
}

#[test]
fn what_the_bank_opens(rt: HostRuntime) -> Result<(), Fail> {
    let layout = Layout {
        accounts: 5,
        opening: 50,
        ..NOTHING
    };
    let rows = [
        (pay(0, 1, 20), Reply::Moved, Some((0, 2))),
        (pay(0, 1, 31), Reply::Poor, Some((0, 1))),
        (pay(2, 2, 50), Reply::Moved, Some((1, 0))),
        (pay(2, 2, 51), Reply::Poor, Some((1, 0))),
        (Op::Balance { account: 1 }, Reply::Number(70), Some((1, 0))),
        (Op::Total, Reply::Number(250), Some((5, 0))),
    ];
    let (other, _) = play(rt.alloc(), &layout, &rows)?;
    assert!(rt; other == None);
    Ok(())
}

// A walk reads the head and each node up to the first that does not have a lesser key. What is added or taken
// out sets three objects, and what is added reads the head of the free chain first.
#[test]
fn what_the_list_opens(rt: HostRuntime) -> Result<(), Fail> {
    let layout = Layout { list: 4, ..NOTHING };
    let which = Which::List;
    let rows = [
        (Op::Member { which, key: 20 }, Reply::No, Some((1, 0))),
        (Op::Insert { which, key: 10 }, Reply::Yes, Some((2, 3))),
        (Op::Insert { which, key: 20 }, Reply::Yes, Some((3, 3))),
        (Op::Insert { which, key: 40 }, Reply::Yes, Some((4, 3))),
        (Op::Insert { which, key: 30 }, Reply::Yes, Some((5, 3))),
        (Op::Insert { which, key: 30 }, Reply::No, Some((4, 0))),
        (Op::Insert { which, key: 25 }, Reply::Full, Some((5, 0))),
        (Op::Member { which, key: 20 }, Reply::Yes, Some((3, 0))),
        (Op::Member { which, key: 50 }, Reply::No, Some((5, 0))),
        (Op::Remove { which, key: 5 }, Reply::No, Some((2, 0))),
        (Op::Remove { which, key: 20 }, Reply::Yes, Some((3, 3))),
        (Op::Member { which, key: 40 }, Reply::Yes, Some((4, 0))),
    ];
    let (other, _) = play(rt.alloc(), &layout, &rows)?;
    assert!(rt; other == None);
    Ok(())
}

// Tells whether each of these operations opens at most so many objects for reading, and for writing.
fn opens_at_most(mem: &mut Counting, layout: &Layout, ops: &[Op], reads: u32, writes: u32) -> bool
    requires valid { IsValid layout.now }
    requires ready { IsReady ⟦<Counting as Mem>⟧ (objects_of layout.now) (StandsFor layout.now) mem.old }
    ensures { IsReady ⟦<Counting as Mem>⟧ (objects_of layout.now) (StandsFor layout.now) mem.new }
{
    for op in ops {
        match count(mem, layout, op) {
            Some((_, opens)) if opens.reads <= reads && opens.writes <= writes => {}
            _ => return false,
        }
    }
    true
}

#[derive(Clone, Copy)]
enum Kind {
    Insert,
    Put,
    Member,
    Get,
    Remove,
}

// This operation on each key of a tree of 1,023 nodes, in an order that leaps.
fn on_all_keys(alloc: Global, kind: Kind, leap: u8) -> Result<Vec<Op>, AllocError> {
    let which = Which::Tree;
    let mut ops = Vec::new(alloc);
    for step in 0..1_023 {
        let key = step * u32::from(leap) % 1_023;
        ops.push(match kind {
            Kind::Insert => Op::Insert { which, key },
            Kind::Put => Op::Put { key, value: 7 },
            Kind::Member => Op::Member { which, key },
            Kind::Get => Op::Get { key },
            Kind::Remove => Op::Remove { which, key },
        })?;
    }
    Ok(ops)
}

// Operations on all keys, in an order that leaps so, and how many objects each opens at most for reading and for writing.
type Sweep = (Kind, u8, u32, u32);

// Tells whether these open no more, one after the other.
fn all_open_at_most(
    alloc: Global,
    mem: &mut Counting,
    layout: &Layout,
    sweeps: &[Sweep],
) -> Result<bool, AllocError>
    requires valid { IsValid layout.now }
    requires ready { IsReady ⟦<Counting as Mem>⟧ (objects_of layout.now) (StandsFor layout.now) mem.old }
{
    for sweep in sweeps {
        let (kind, leap, reads, writes) = *sweep;
        let ops = on_all_keys(alloc, kind, leap)?;
        if !opens_at_most(mem, layout, &ops, reads, writes) {
            return Ok(false);
        }
    }
    Ok(true)
}

// The height of a tree of 1,023 nodes is at most 20: a search reads as many nodes, and the object that names the
// root. What is added reads the head of the free chain and a free node besides, and sets at most one object a
// level and five more.
#[test]
fn few_objects_of_a_large_tree_are_opened(rt: HostRuntime) -> Result<(), Fail> {
    let layout = Layout {
        tree: 1_023,
        ..NOTHING
    };
    let mut mem = opened(rt.alloc(), &layout)?;
    let sweeps = [
        (Kind::Insert, 37, 23, 25),
        (Kind::Insert, 2, 21, 0),
        (Kind::Member, 5, 21, 0),
        (Kind::Get, 7, 21, 0),
        (Kind::Put, 10, 21, 1),
        (Kind::Remove, 101, 28, 12),
        (Kind::Remove, 4, 1, 0),
    ];
    assert!(rt; all_open_at_most(rt.alloc(), &mut mem, &layout, &sweeps)?);
    Ok(())
}

#[test]
fn a_full_tree_is_only_read(rt: HostRuntime) -> Result<(), Fail> {
    let layout = Layout { tree: 1, ..NOTHING };
    let which = Which::Tree;
    let rows = [
        (Op::Insert { which, key: 3 }, Reply::Yes, Some((3, 3))),
        (Op::Insert { which, key: 4 }, Reply::Full, Some((3, 0))),
        (Op::Put { key: 5, value: 6 }, Reply::Full, Some((3, 0))),
        (Op::Put { key: 3, value: 6 }, Reply::No, Some((2, 1))),
        (Op::Insert { which, key: 3 }, Reply::No, Some((2, 0))),
    ];
    let (other, _) = play(rt.alloc(), &layout, &rows)?;
    assert!(rt; other == None);
    Ok(())
}
