ghost use Rattle.std.specs.Prelude.{◌≡◌, ◌<◌};

use crate::tests::operations::{BANK, answers, ops_of, pay};
use dstm_model::{Cond, Item, Items, Layout, Numbers, Op, Ops, PlainStore, Replies, Reply, Which};
use std::alloc::AllocError;
use std::test::Fail;

#[test]
fn lists_keep_their_order(rt: HostRuntime) {
    let mut ops = Ops::new();
    ops.push(Op::Total);
    ops.push(Op::Get { key: 7 });
    assert!(rt; ops.as_slice() == [Op::Total, Op::Get { key: 7 }].as_slice());
    assert!(rt; Ops::default().as_slice().len() == 0);
    let mut replies = Replies::new();
    replies.push(Reply::Number(9));
    assert!(rt; replies.as_slice() == [Reply::Number(9)].as_slice());
}

#[test]
fn items_and_numbers_keep_their_order(rt: HostRuntime) -> Result<(), Fail> {
    let item = Item { key: 3, value: 4 };
    let items = Items::from_vec(vec![in rt.alloc(); item]?);
    assert!(rt; items.as_slice() == [item].as_slice());
    let numbers = Numbers::from_vec(vec![in rt.alloc(); 5, 6]?);
    assert!(rt; numbers.as_slice() == [5, 6].as_slice());
    Ok(())
}

// Applies a job, and tells whether it has these replies, or is blocked as it should be.
fn is_so(
    store: &mut PlainStore,
    layout: &Layout,
    job: &[Op],
    wanted: Option<&[Reply]>,
) -> Result<bool, AllocError>
    requires layout { store.old.layout ≡ layout.now }
    ensures layout { store.new.layout ≡ layout.now }
{
    let replies = store.apply_job(&ops_of(layout, job))?;
    Ok(answers(&replies, wanted))
}

// A job that is blocked, and one that takes its second branch and then its first: whether each is as it should be.
fn take_branches(store: &mut PlainStore, layout: &Layout) -> Result<[bool; 3], AllocError>
    requires layout { store.old.layout ≡ layout.now }
{
    let first = Op::Await(Cond::Balance {
        account: 0,
        least: 150,
    });
    let moves = [
        first,
        Op::Total,
        Op::OrElse,
        pay(1, 0, 60),
        Op::OrElse,
        Op::Balance { account: 1 },
    ];
    let is_blocked = is_so(store, layout, &[first, Op::Total], None)?;
    let is_moved = is_so(store, layout, &moves, Some(&[Reply::Moved]))?;
    let is_told = is_so(
        store,
        layout,
        &moves,
        Some(&[Reply::Yes, Reply::Number(200)]),
    )?;
    Ok([is_blocked, is_moved, is_told])
}

#[test]
fn jobs_take_their_first_open_branch(rt: HostRuntime) -> Result<(), Fail> {
    let mut store = PlainStore::opening(rt.alloc(), &BANK)?;
    assert!(rt; take_branches(&mut store, &BANK)? == [true; 3]);
    let state = store.state(rt.alloc())?;
    assert!(rt; state.bank.as_slice() == [160, 40].as_slice());
    Ok(())
}

// Adds the key 5 to the list.
fn add_five(store: &mut PlainStore, layout: &Layout) -> Result<(), AllocError>
    requires list { 0 < store.old.layout.list }
    requires layout { store.old.layout ≡ layout.now }
    ensures layout { store.new.layout ≡ layout.now }
{
    let which = Which::List;
    store.apply(&Op::Insert { which, key: 5 })?;
    Ok(())
}

// Tells whether the store would leave this job blocked.
fn is_blocked(store: &PlainStore, layout: &Layout, job: &[Op]) -> bool
    requires { store.now.layout ≡ layout.now }
{
    store.is_blocked(&ops_of(layout, job))
}

// A job is run, looked at, and run again once its key is there: whether it is blocked, and has run then.
fn wait_for_five(store: &mut PlainStore, layout: &Layout) -> Result<[bool; 3], AllocError>
    requires list { 0 < store.old.layout.list }
    requires layout { store.old.layout ≡ layout.now }
{
    let which = Which::List;
    let waits = [Op::Await(Cond::Key { which, key: 5 })];
    let is_unanswered = is_so(store, layout, &waits, None)?;
    let is_waiting = is_blocked(store, layout, &waits);
    add_five(store, layout)?;
    let is_run = is_so(store, layout, &waits, Some(&[Reply::Yes]))?;
    Ok([is_unanswered, is_waiting, is_run])
}

#[test]
fn a_job_waits_for_a_key(rt: HostRuntime) -> Result<(), Fail> {
    let layout = Layout { list: 1, ..BANK };
    let mut store = PlainStore::opening(rt.alloc(), &layout)?;
    assert!(rt; wait_for_five(&mut store, &layout)? == [true; 3]);
    Ok(())
}
