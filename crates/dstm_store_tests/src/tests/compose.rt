ghost use Rattle.std.specs.Prelude.{◌≡◌, IfOk};
ghost use Rattle.dstm_model.specs.Layout.{IsValid};
ghost use Rattle.dstm_store.specs.Whole.{IsLawful};

use crate::tests::counting::{Counting, Counts, run_body};
use crate::tests::operations::{
    BANK, NOTHING, OF_EACH, answers, ops_of, pay, pick, plain_of, same_state,
};
use dstm_compose::{CompBody, Outcome};
use dstm_mem::LooseBody;
use dstm_model::{Cond, Layout, Op, PlainStore, Replies, Reply, State, Val, Which};
use dstm_store::{LooseJobBody, StoreLaw, opening, read_state};
use std::alloc::{AllocError, Global};
use std::test::Fail;

// ---- jobs

// How a job is run: with its branches, or its operations one after the other, letting reads go.
#[derive(Clone, Copy)]
enum Style {
    Branches,
    Releasing,
}

// The replies of a job where it is not blocked, what was counted, and the values that it leaves.
type Ran = (Option<Replies>, Counts, Vec<Val>);

// Runs a job.
fn run_job(
    alloc: Global,
    layout: &Layout,
    values: Vec<Val>,
    style: Style,
    list: &[Op],
) -> Result<Ran, AllocError>
    requires valid { IsValid layout.now }
    requires lawful { IsLawful layout.now values.items }
    ensures { IfOk result (λ done. IsLawful layout.now done.2.items) }
{
    match style {
        Style::Branches => run_branches(alloc, layout, values, list),
        Style::Releasing => run_releasing(alloc, layout, values, list),
    }
}

fn run_branches(
    alloc: Global,
    layout: &Layout,
    values: Vec<Val>,
    list: &[Op],
) -> Result<Ran, AllocError>
    requires valid { IsValid layout.now }
    requires lawful { IsLawful layout.now values.items }
    ensures { IfOk result (λ done. IsLawful layout.now done.2.items) }
{
    let mut body = CompBody::make(layout, &ops_of(layout, list));
    let (counts, after) = run_body::<StoreLaw, CompBody>(alloc, values, &mut body)?;
    Ok((replies_of(body.outcome()), counts, after))
}

fn run_releasing(
    alloc: Global,
    layout: &Layout,
    values: Vec<Val>,
    list: &[Op],
) -> Result<Ran, AllocError>
    requires valid { IsValid layout.now }
    requires lawful { IsLawful layout.now values.items }
    ensures { IfOk result (λ done. IsLawful layout.now done.2.items) }
{
    let mut body = LooseJobBody::make(layout, &plain_of(layout, list));
    let (counts, after) = run_loose(alloc, values, &mut body)?;
    Ok((Some(body.replies()), counts, after))
}

fn run_loose(
    alloc: Global,
    values: Vec<Val>,
    body: &mut LooseJobBody,
) -> Result<(Counts, Vec<Val>), AllocError>
    requires { IsLawful body.old.task.layout values.items }
    ensures layout { body.new.task.layout ≡ body.old.task.layout }
    ensures lawful { IfOk result (λ done. IsLawful body.new.task.layout done.1.items) }
{
    let mut mem = Counting::of(alloc, values)?;
    match body.run(&mut mem) {
        Ok(()) => Ok(mem.end()),
        Err(never) => match never {},
    }
}

fn replies_of(outcome: Outcome) -> Option<Replies> {
    match outcome {
        Outcome::Ran(replies) => Some(replies),
        Outcome::Blocked => None,
    }
}

// ---- beside the plain store

// A condition on one of the accounts, or on one of the keys.
fn pick_cond(seed: u32) -> Cond {
    let key = seed / 256 % 10;
    match seed / 65_536 % 3 {
        0 => Cond::Balance {
            account: key % 3,
            least: u64::from(seed % 120),
        },
        1 => Cond::Key {
            which: Which::List,
            key,
        },
        _ => Cond::Key {
            which: Which::Tree,
            key,
        },
    }
}

fn next_of(seed: u32) -> u32 {
    seed.wrapping_mul(1_103_515_245).wrapping_add(12_345)
}

// A condition, or every fourth time an operation.
fn first_of(seed: u32, op: u32, cond: u32) -> Op {
    if seed / 65_536 % 4 == 0 {
        pick(op)
    } else {
        Op::Await(pick_cond(cond))
    }
}

// Every second time a separator, or an operation.
fn last_of(seed: u32, op: u32) -> Op {
    if seed / 65_536 % 2 == 0 {
        Op::OrElse
    } else {
        pick(op)
    }
}

// One to three branches, each with a condition but for every fourth.
fn pick_job(seed: u32) -> [Op; 8] {
    let one = next_of(seed);
    let two = next_of(one);
    let three = next_of(two);
    let four = next_of(three);
    [
        first_of(seed, four, one),
        pick(two),
        Op::OrElse,
        first_of(three, one, two),
        pick(three),
        last_of(one, seed),
        pick(four),
        pick(next_of(four)),
    ]
}

// The values that a job leaves, whether it has the replies that the plain store gives, and whether it is blocked there.
fn run_as(
    alloc: Global,
    layout: &Layout,
    values: Vec<Val>,
    style: Style,
    job: &[Op],
    store: &mut PlainStore,
) -> Result<(Vec<Val>, bool, bool), AllocError>
    requires valid { IsValid layout.now }
    requires lawful { IsLawful layout.now values.items }
    requires layout { store.old.layout ≡ layout.now }
    ensures lawful { IfOk result (λ done. IsLawful layout.now done.0.items) }
    ensures layout { store.new.layout ≡ layout.now }
{
    let wanted = apply_as(layout, style, job, store)?;
    let (replies, _counts, after) = run_job(alloc, layout, values, style, job)?;
    Ok((after, are_alike(&replies, &wanted), wanted.is_none()))
}

// What the plain store answers to a job.
fn apply_as(
    layout: &Layout,
    style: Style,
    job: &[Op],
    store: &mut PlainStore,
) -> Result<Option<Replies>, AllocError>
    requires { store.old.layout ≡ layout.now }
    ensures { store.new.layout ≡ layout.now }
{
    match style {
        Style::Branches => store.apply_job(&ops_of(layout, job)),
        Style::Releasing => store.apply_job(&plain_of(layout, job)),
    }
}

fn are_alike(replies: &Option<Replies>, wanted: &Option<Replies>) -> bool {
    match wanted {
        Some(wanted) => answers(replies, Some(wanted.as_slice())),
        None => replies.is_none(),
    }
}

// Tells whether values hold what the plain store does.
fn holds(
    alloc: Global,
    layout: &Layout,
    values: &[Val],
    store: &PlainStore,
) -> Result<bool, AllocError>
    requires valid { IsValid layout.now }
    requires lawful { IsLawful layout.now values.now }
{
    let state = read_state(alloc, layout, values)?;
    is_state_of(alloc, &state, store)
}

fn is_state_of(alloc: Global, state: &State, store: &PlainStore) -> Result<bool, AllocError> {
    let held = store.state(alloc)?;
    Ok(same_state(state, &held))
}

// How many of these jobs end as the plain store says, and leave what it leaves: each with its branches, and then its
// operations one after the other, letting reads go. How many of them were blocked.
fn run_beside(alloc: Global, layout: &Layout, jobs: u32) -> Result<(u32, u32), AllocError>
    requires { IsValid layout.now }
{
    let mut values = opening(alloc, layout)?;
    let mut store = PlainStore::opening(alloc, layout)?;
    let mut seed: u32 = 1;
    let mut same: u32 = 0;
    let mut blocked: u32 = 0;
    for _job in 0..jobs {
        seed = next_of(seed);
        let job = pick_job(seed);
        let (after, is_chosen, is_blocked) = run_as(
            alloc,
            layout,
            values,
            Style::Branches,
            &job,
            &mut store,
        )?;
        let (left, is_all, _) = run_as(alloc, layout, after, Style::Releasing, &job, &mut store)?;
        let is_held = holds(alloc, layout, &left, &store)?;
        blocked = blocked.saturating_add(u32::from(is_blocked));
        same = same.saturating_add(u32::from(is_chosen && is_all && is_held));
        values = left;
    }
    Ok((same, blocked))
}

#[test]
fn jobs_with_branches_end_as_on_the_plain_store(rt: HostRuntime) -> Result<(), Fail> {
    let (same, blocked) = run_beside(rt.alloc(), &OF_EACH, 2_000)?;
    assert!(rt; same == 2_000);
    assert!(rt; blocked > 100);
    Ok(())
}

// ---- worked rows

// A job, its replies where it is not blocked, and, where that is told, how many calls open an object and how many reads are
// kept.
type Row<'a> = (&'a [Op], Option<&'a [Reply]>, Option<(u32, u32)>);

// Runs jobs one after the other: the first row that says something else of its job, and what the store holds then.
fn run_rows(
    alloc: Global,
    layout: &Layout,
    style: Style,
    rows: &[Row<'_>],
) -> Result<(Option<usize>, State), AllocError>
    requires { IsValid layout.now }
{
    let mut values = opening(alloc, layout)?;
    let mut other = None;
    for (i, row) in rows.iter().enumerate() {
        let (job, wanted, told) = *row;
        let (replies, counts, after) = run_job(alloc, layout, values, style, job)?;
        values = after;
        let counted = (counts.opens, counts.kept);
        let is_so = answers(&replies, wanted) && told.unwrap_or(counted) == counted;
        if other.is_none() && !is_so {
            other = Some(i);
        }
    }
    Ok((other, read_state(alloc, layout, &values)?))
}

fn await_balance(account: u32, least: u64) -> Op {
    Op::Await(Cond::Balance { account, least })
}

#[test]
fn the_first_open_branch_is_run(rt: HostRuntime) -> Result<(), Fail> {
    let both = [
        await_balance(0, 150),
        pay(0, 1, 1),
        Op::OrElse,
        await_balance(1, 101),
        Op::Total,
    ];
    let second = [
        await_balance(0, 150),
        pay(0, 1, 1),
        Op::OrElse,
        pay(1, 0, 60),
    ];
    let first = [await_balance(0, 150), Op::Total, Op::OrElse, pay(0, 1, 5)];
    let rows: [Row<'_>; 3] = [
        // Both conditions are looked at, and no more.
        (&both, None, Some((2, 2))),
        // The second branch is open: one look, and two accounts to pay from and to, which are no reads.
        (&second, Some(&[Reply::Moved]), Some((3, 0))),
        // The first of two open branches is run.
        (
            &first,
            Some(&[Reply::Yes, Reply::Number(200)]),
            Some((3, 2)),
        ),
    ];
    let (other, state) = run_rows(rt.alloc(), &BANK, Style::Branches, &rows)?;
    assert!(rt; other == None);
    assert!(rt; state.bank.as_slice() == [160, 40].as_slice());
    Ok(())
}

#[test]
fn a_walk_hand_over_hand_keeps_few_reads(rt: HostRuntime) -> Result<(), Fail> {
    let layout = Layout { list: 8, ..NOTHING };
    let which = Which::List;
    let keys = [
        Op::Insert { which, key: 10 },
        Op::Insert { which, key: 20 },
        Op::Insert { which, key: 30 },
        Op::Insert { which, key: 40 },
        Op::Insert { which, key: 50 },
    ];
    let last = [Op::Member { which, key: 50 }];
    let two = [Op::Member { which, key: 50 }, Op::Member { which, key: 15 }];
    let rows: [Row<'_>; 4] = [
        (&keys, Some(&[Reply::Yes; 5]), None),
        // The head and the five nodes, each once; the nodes of 40 and 50 stay.
        (&last, Some(&[Reply::Yes]), Some((6, 2))),
        // Then the head and the nodes of 10 and 20 stay, too.
        (&two, Some(&[Reply::Yes, Reply::No]), Some((9, 5))),
        (&[Op::Insert { which, key: 5 }], Some(&[Reply::Yes]), None),
    ];
    let (other, state) = run_rows(rt.alloc(), &layout, Style::Releasing, &rows[..1])?;
    assert!(rt; other == None);
    assert!(rt; state.list.as_slice() == [10, 20, 30, 40, 50].as_slice());
    let (other, state) = run_rows(rt.alloc(), &layout, Style::Releasing, &rows)?;
    assert!(rt; other == None);
    assert!(rt; state.list.as_slice() == [5, 10, 20, 30, 40, 50].as_slice());
    Ok(())
}

#[test]
fn an_edit_hand_over_hand_keeps_few_reads(rt: HostRuntime) -> Result<(), Fail> {
    let layout = Layout { list: 6, ..NOTHING };
    let which = Which::List;
    let keys = [
        Op::Insert { which, key: 10 },
        Op::Insert { which, key: 20 },
        Op::Insert { which, key: 30 },
        Op::Insert { which, key: 40 },
        Op::Insert { which, key: 50 },
    ];
    let insert_45 = [Op::Insert { which, key: 45 }];
    let insert_15 = [Op::Insert { which, key: 15 }];
    let insert_50 = [Op::Insert { which, key: 50 }];
    let remove_50 = [Op::Remove { which, key: 50 }];
    let remove_20 = [Op::Remove { which, key: 20 }];
    let remove_12 = [Op::Remove { which, key: 12 }];
    let rows: [Row<'_>; 8] = [
        (&keys, Some(&[Reply::Yes; 5]), None),
        // The head, the five nodes and the head of the free chain are read; three objects are opened for writing, and
        // the node of 50 is the one read that stays.
        (&insert_45, Some(&[Reply::Yes]), Some((10, 1))),
        // No node is free. The head, the nodes of 10 and 20, and the head of the free chain stay.
        (&insert_15, Some(&[Reply::Full]), Some((4, 4))),
        // The key is there: the nodes of 45 and 50 stay.
        (&insert_50, Some(&[Reply::No]), Some((7, 2))),
        // The head and the six nodes are read; the last two are opened for writing, and no read stays.
        (&remove_50, Some(&[Reply::Yes]), Some((10, 0))),
        // At the second node the head is a read still.
        (&remove_20, Some(&[Reply::Yes]), Some((6, 1))),
        // Before the second node that is left the head and that node are.
        (&insert_15, Some(&[Reply::Yes]), Some((7, 2))),
        // The head and the nodes of 10 and 15 are.
        (&remove_12, Some(&[Reply::No]), Some((3, 3))),
    ];
    let (other, state) = run_rows(rt.alloc(), &layout, Style::Releasing, &rows)?;
    assert!(rt; other == None);
    assert!(rt; state.list.as_slice() == [10, 15, 30, 40, 45].as_slice());
    Ok(())
}
