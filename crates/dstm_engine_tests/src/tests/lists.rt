// A key is looked up on a list, and another caller inserts a lesser one before the look-up commits.
ghost use Rattle.std.specs.Prelude.{◌≡◌, ◌<◌, All, IfOk};
ghost use Rattle.dstm_model.specs.Layout.{IsValid, FitsLayout, FitsKey};
ghost use Rattle.dstm_model.specs.Store.{IsPlain};
ghost use Rattle.dstm_model.specs.declared.op.Which.TheVariants as which;
ghost use Rattle.dstm_engine.specs.Callers.{law_of};

use crate::tests::calls::{Answer, Pair, pair_of, small};
use dstm_core::{Manager, Shape};
use dstm_engine::{Caller, Ended, Founder, Spent, Stm, attempt};
use dstm_mem::{Body, LooseBody};
use dstm_model::{Layout, Op, Ops, Replies, Reply, Which};
use dstm_order::Again;
use dstm_store::{JobBody, LooseJobBody, StoreLaw, opening};
use std::alloc::Global;
use std::test::Fail;

fn job_of(layout: &Layout, op: Op) -> Ops
    requires fits { FitsLayout layout.now op }
    requires plain { IsPlain op }
    ensures fits { All (FitsLayout layout.now) result }
    ensures plain { All IsPlain result }
{
    let mut ops = Ops::new();
    ops.push(op);
    ops
}

fn member_of_list(layout: &Layout, key: u32) -> Ops
    requires fits { FitsKey layout.now which.List key }
    ensures fits { All (FitsLayout layout.now) result }
    ensures plain { All IsPlain result }
{
    let which = Which::List;
    job_of(layout, Op::Member { which, key })
}

// Inserts a key, and answers the number that was drawn.
fn insert(caller: &mut Caller<StoreLaw>, stm: &Stm<StoreLaw>, layout: &Layout, key: u32) -> Answer
    requires table { caller.old.home ≡ stm.now }
    requires law { (law_of caller.old).layout ≡ layout.now }
    requires valid { IsValid layout.now }
    requires fits { FitsKey layout.now which.List key }
    ensures table { caller.new.home ≡ stm.now }
{
    let which = Which::List;
    let ops = job_of(layout, Op::Insert { which, key });
    match attempt(caller, stm, &mut JobBody::make(layout, &ops)) {
        Ok(done) => Some(Ok(done.number)),
        Err(Ended::Again(again)) => Some(Err(again)),
        Err(Ended::Spent) => None,
    }
}

// What the first caller finds and is told that looks 50 up, and commits once the other one has inserted 5.
fn look_up(
    one: &mut Caller<StoreLaw>,
    two: &mut Caller<StoreLaw>,
    stm: &Stm<StoreLaw>,
    layout: &Layout,
) -> Option<(Replies, Answer, Answer)>
    requires tables { (one.old.home ≡ stm.now) × (two.old.home ≡ stm.now) }
    requires law { stm.now.terms.law.value.layout ≡ layout.now }
    requires valid { IsValid layout.now }
    requires list { 0 < layout.now.list }
{
    let ops = member_of_list(layout, 50);
    let mut body = JobBody::make(layout, &ops);
    let mut tx = match one.begin(stm) {
        Ok(tx) => tx,
        Err(Spent) => return None,
    };
    match body.run(&mut tx) {
        Ok(()) => {
            let inserted = insert(two, stm, layout, 5);
            let committed = Some(tx.commit());
            Some((body.replies(), inserted, committed))
        }
        Err(_) => None,
    }
}

// The same, hand over hand.
fn look_up_hand_over_hand(
    one: &mut Caller<StoreLaw>,
    two: &mut Caller<StoreLaw>,
    stm: &Stm<StoreLaw>,
    layout: &Layout,
) -> Option<(Replies, Answer, Answer)>
    requires tables { (one.old.home ≡ stm.now) × (two.old.home ≡ stm.now) }
    requires law { stm.now.terms.law.value.layout ≡ layout.now }
    requires valid { IsValid layout.now }
    requires list { 0 < layout.now.list }
{
    let ops = member_of_list(layout, 50);
    let mut body = LooseJobBody::make(layout, &ops);
    let mut tx = match one.begin(stm) {
        Ok(tx) => tx,
        Err(Spent) => return None,
    };
    match body.run(&mut tx) {
        Ok(()) => {
            let inserted = insert(two, stm, layout, 5);
            let committed = Some(tx.commit());
            Some((body.replies(), inserted, committed))
        }
        Err(_) => None,
    }
}

// Inserts five keys, one after the other.
fn insert_five(caller: &mut Caller<StoreLaw>, stm: &Stm<StoreLaw>, layout: &Layout) -> [Answer; 5]
    requires table { caller.old.home ≡ stm.now }
    requires law { stm.now.terms.law.value.layout ≡ layout.now }
    requires valid { IsValid layout.now }
    requires list { 0 < layout.now.list }
    ensures table { caller.new.home ≡ stm.now }
{
    [
        insert(caller, stm, layout, 10),
        insert(caller, stm, layout, 20),
        insert(caller, stm, layout, 30),
        insert(caller, stm, layout, 40),
        insert(caller, stm, layout, 50),
    ]
}

// Makes an empty table and its founder.
fn table_of(alloc: Global, layout: &Layout) -> Result<(Stm<StoreLaw>, Founder<StoreLaw>), Fail>
    requires valid { IsValid layout.now }
    ensures founder { IfOk result (λ t. t.1.home ≡ t.0) }
    ensures law { IfOk result (λ t. t.0.terms.law.value.layout ≡ layout.now) }
{
    let start = opening(alloc, layout)?;
    if start.len() > 32 {
        return Err(Fail::new("too large"));
    }
    let shape = Shape {
        objects: start.len() as u32,
        attempts: 8,
        locators: 32,
        ..small(2, Manager::Polite)
    };
    let law = StoreLaw { layout: *layout };
    Ok(Stm::make(alloc, start, shape, law)?)
}

// Makes an empty table and two callers.
fn two_callers(alloc: Global, layout: &Layout) -> Result<Pair<StoreLaw>, Fail>
    requires valid { IsValid layout.now }
    requires list { 0 < layout.now.list }
    ensures tables { IfOk result (λ t. (t.one.home ≡ t.stm) × (t.two.home ≡ t.stm)) }
    ensures law { IfOk result (λ t. t.stm.terms.law.value.layout ≡ layout.now) }
{
    let (stm, founder) = table_of(alloc, layout)?;
    pair_of(alloc, stm, founder)
}

// Room for eight keys.
const LAYOUT: Layout = Layout {
    accounts: 0,
    opening: 0,
    list: 8,
    tree: 0,
};

// The numbers under which five keys are inserted on a table of its own, and what is found and told then.
type Met = ([Answer; 5], Option<(Replies, Answer, Answer)>);

fn meet(alloc: Global, hand_over_hand: bool) -> Result<Met, Fail> {
    let mut table = two_callers(alloc, &LAYOUT)?;
    let inserted = insert_five(&mut table.two, &table.stm, &LAYOUT);
    let found = if hand_over_hand {
        look_up_hand_over_hand(&mut table.one, &mut table.two, &table.stm, &LAYOUT)
    } else {
        look_up(&mut table.one, &mut table.two, &table.stm, &LAYOUT)
    };
    Ok((inserted, found))
}

// The plain walk has read the head of the list, and is overtaken there; hand over hand the head was let go.
#[test]
fn a_look_up_hand_over_hand_is_not_overtaken(rt: HostRuntime) -> Result<(), Fail> {
    let numbers = [
        Some(Ok(0)),
        Some(Ok(1)),
        Some(Ok(2)),
        Some(Ok(3)),
        Some(Ok(4)),
    ];
    for (hand_over_hand, wanted) in [(false, Err(Again::Stale(0))), (true, Ok(6))] {
        let (before, met) = meet(rt.alloc(), hand_over_hand)?;
        assert!(rt; before == numbers);
        let Some((found, inserted, committed)) = met else {
            return Err(Fail::new("left"));
        };
        assert!(rt; found.as_slice() == [Reply::Yes].as_slice());
        assert!(rt; (inserted, committed) == (Some(Ok(5)), Some(wanted)));
    }
    Ok(())
}
