// Maps that four threads change, and the same calls made one after the other on the map of std.
use crate::tests::maps::{Answer, Call, InOrder, Maps, call_all, expected, has_items, maps_of};
use crate::tests::plain::{Change, Part, add, atomically, cell_of, memory_by, run_each};
use crate::tests::queues::draw;
use dstm_cells::{Cell, Failed, GaveUp, Manager, Me, Memory, Stop, Tx};
use std::alloc::Global;
use std::collections::BTreeMap;
use std::test::Fail;
use std::thread::Threads;

const KEYS: u32 = 1_000;

const THREADS: u32 = 4;

const CALLS_OF_EACH: u32 = 500;

// A call, its number among all, and how both maps have answered it.
#[derive(Clone, Copy)]
struct Drawn {
    number: u64,
    call: Call,
    answer: Option<Answer>,
}

fn call_of(drawn: u64) -> Call {
    let key = drawn / 8 % u64::from(KEYS);
    match drawn % 8 {
        0..=2 => Call::Put(key, drawn),
        3 | 4 => Call::Remove(key),
        5 => Call::Get(key),
        6 => Call::Above(key),
        _ => Call::First,
    }
}

// Makes a call and draws its number, in one transaction.
#[derive(Drop)]
struct Ask {
    maps: Maps,
    next: Cell<u64>,
    call: Call,
}

impl Change for Ask {
    type Answer = Drawn;

    fn make(&self, tx: &mut Tx<'_>) -> Result<Drawn, Stop> {
        let answer = call_all(tx, self.maps, self.call)?;
        let number = add(tx, self.next, 1)?;
        Ok(Drawn {
            number,
            call: self.call,
            answer,
        })
    }
}

// A thread's calls, which it draws.
#[derive(Drop)]
struct AskOften {
    maps: Maps,
    next: Cell<u64>,
    alloc: Global,
}

impl Part for AskOften {
    type Answer = Vec<Drawn>;

    fn play(&self, me: &mut Me<'_>, thread: usize) -> Result<Vec<Drawn>, GaveUp> {
        let maps = self.maps;
        let next = self.next;
        let mut seed = thread as u64;
        let mut made = Vec::new(self.alloc);
        for _ in 0..CALLS_OF_EACH {
            let call = call_of(draw(&mut seed));
            let drawn = atomically(me, &Ask { maps, next, call })?;
            if made.push(drawn).is_err() {
                return Err(GaveUp::Memory);
            }
        }
        Ok(made)
    }
}

impl Part for InOrder {
    type Answer = Vec<(u64, u64)>;

    fn play(&self, me: &mut Me<'_>, _number: usize) -> Result<Vec<(u64, u64)>, GaveUp> {
        atomically(me, self)
    }
}

// The calls of all threads, in the order of their numbers.
fn in_order(alloc: Global, made: &[Vec<Drawn>]) -> Result<Vec<Option<Drawn>>, GaveUp> {
    let Ok(mut order) = vec![in alloc; None; (THREADS * CALLS_OF_EACH) as usize] else {
        return Err(GaveUp::Memory);
    };
    for calls in made {
        for drawn in calls {
            if let Some(place) = order.get_mut(drawn.number as usize) {
                *place = Some(*drawn);
            }
        }
    }
    Ok(order)
}

// Makes these calls on a map of std, and tells whether it answers all of them so.
fn answers_alike(plain: &mut BTreeMap<u64, u64>, calls: &[Option<Drawn>]) -> Result<bool, GaveUp> {
    for drawn in calls {
        let Some(drawn) = drawn else {
            return Ok(false);
        };
        if drawn.answer != Some(expected(plain, drawn.call, KEYS)?) {
            return Ok(false);
        }
    }
    Ok(true)
}

// Whether a map of std answers these calls alike, made in their order, and has what one thread has found then.
fn is_what_std_leaves(
    alloc: Global,
    made: &[Vec<Drawn>],
    found: &[Vec<(u64, u64)>],
) -> Result<bool, GaveUp> {
    let mut plain = BTreeMap::new(alloc);
    let calls = in_order(alloc, made)?;
    let [items] = found else {
        return Ok(false);
    };
    Ok(answers_alike(&mut plain, &calls)? && has_items(&plain, items))
}

// Whether four threads leave what their calls leave in turn.
fn is_in_turn<R: Threads + Sync>(
    rt: &R,
    alloc: Global,
    memory: &mut Memory,
) -> Result<bool, Failed> {
    let maps = maps_of(memory, KEYS)?;
    let next = cell_of(memory, 0u64)?;
    let made = run_each(rt, memory, THREADS, &AskOften { maps, next, alloc })?;
    let map = maps.ordered;
    let found = run_each(rt, memory, 1, &InOrder { map, alloc })?;
    Ok(matches!(is_what_std_leaves(alloc, &made, &found), Ok(true)))
}

#[test]
fn four_threads_leave_what_their_calls_leave_in_turn(rt: HostRuntime) -> Result<(), Fail> {
    let alloc = rt.alloc();
    assert!(rt; is_in_turn(&rt, alloc, &mut memory_by(alloc, None))?);
    let by = Some(Manager::Polka);
    assert!(rt; is_in_turn(&rt, alloc, &mut memory_by(alloc, by))?);
    Ok(())
}
