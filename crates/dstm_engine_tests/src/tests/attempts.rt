// Steps of an attempt of either engine, by contracts that say no more than the tests need.
ghost use Rattle.std.specs.Prelude.{◌≡◌, ◌<◌, ◌≤◌, None, IsTrue, true};
ghost use Rattle.dstm_engine_tests.specs.Attempts.{GoesOn, IsSound};

use dstm_mem::Mem;
use dstm_model::Val;

// The number of a commit. None where there was none.
pub type Answer<E> = Option<Result<u64, E>>;

// What a step has found. None where the attempt was over before it.
pub type Found<E> = Option<Result<Val, E>>;

// What an attempt was answered at each of its steps, and as it committed.
pub type Done<E> = ([Found<E>; 4], Answer<E>);

/// An attempt that tells whether a call on it has answered an error.
pub trait Attempt: Mem {
    fn is_live(&self) -> bool
        requires sound { Self.error self.now ≡ None → IsTrue (Self.is_live self.now) }
        ensures { result ≡ true → IsTrue (Self.is_live self.now) };
}

// What an attempt does with an object: it opens it for reading, opens it for writing and leaves its value, or sets it.
#[derive(Clone, Copy)]
pub enum Step {
    Nothing,
    Read(u32),
    Open(u32),
    Set(u32, Val),
}

// How an attempt ends.
#[derive(Clone, Copy)]
pub enum End {
    Commit,
    Abandon,
    Drop,
}

pub fn low(low: u64) -> Val {
    Val { low, high: 0 }
}

// Opens an object for reading.
fn read<M: Attempt>(tx: &mut M, o: u32) -> Found<M::Err>
    requires exists { o < M.Mem.objects tx.old }
    requires sound { IsSound M.Mem tx.old }
    ensures { GoesOn M.Mem tx.old tx.new }
{
    if !tx.is_live() {
        return None;
    }
    Some(tx.open_read(o))
}

// Opens an object for reading and writing, and sets its value if one is given. Answers the old one.
fn write<M: Attempt>(tx: &mut M, o: u32, value: Option<Val>) -> Found<M::Err>
    requires exists { o < M.Mem.objects tx.old }
    requires sound { IsSound M.Mem tx.old }
    ensures { GoesOn M.Mem tx.old tx.new }
{
    if !tx.is_live() {
        return None;
    }
    match tx.open_write(o) {
        Ok(old) => {
            if let Some(value) = value {
                tx.set(o, value);
            }
            Some(Ok(old))
        }
        Err(again) => Some(Err(again)),
    }
}

// Makes a step on one of so many objects.
pub fn make_step<M: Attempt>(tx: &mut M, objects: u32, step: Step) -> Found<M::Err>
    requires exist { objects ≤ M.Mem.objects tx.old }
    requires sound { IsSound M.Mem tx.old }
    ensures { GoesOn M.Mem tx.old tx.new }
{
    match step {
        Step::Read(o) if o < objects => read(tx, o),
        Step::Open(o) if o < objects => write(tx, o, None),
        Step::Set(o, value) if o < objects => write(tx, o, Some(value)),
        _ => None,
    }
}

// Makes these steps.
pub fn play<M: Attempt>(tx: &mut M, objects: u32, steps: [Step; 4]) -> [Found<M::Err>; 4]
    requires exist { objects ≤ M.Mem.objects tx.old }
    requires sound { IsSound M.Mem tx.old }
    ensures { GoesOn M.Mem tx.old tx.new }
{
    let [first, second, third, fourth] = steps;
    [
        make_step(tx, objects, first),
        make_step(tx, objects, second),
        make_step(tx, objects, third),
        make_step(tx, objects, fourth),
    ]
}

// Makes steps of two attempts in turn: one of the first, one of the other one, and so again.
pub fn alternate<M: Attempt>(
    a: &mut M,
    b: &mut M,
    objects: u32,
    steps: [Step; 4],
) -> [Found<M::Err>; 4]
    requires exist { (objects ≤ M.Mem.objects a.old) × (objects ≤ M.Mem.objects b.old) }
    requires sound { IsSound M.Mem a.old × IsSound M.Mem b.old }
    ensures { GoesOn M.Mem a.old a.new × GoesOn M.Mem b.old b.new }
{
    let [first, second, third, fourth] = steps;
    [
        make_step(a, objects, first),
        make_step(b, objects, second),
        make_step(a, objects, third),
        make_step(b, objects, fourth),
    ]
}
