// A queue beside the one of std, and on threads.
use crate::tests::plain::{Change, Part, Trial, add, atomically, cell_of, held, is_so, tries};
use dstm_cells::{Cell, Failed, GaveUp, Manager, Me, Memory, Stop, Tx};
use dstm_structures::Queue;
use std::alloc::Global;
use std::collections::VecDeque;
use std::test::Fail;
use std::thread::Threads;

// The next number of a row that looks random.
pub fn draw(seed: &mut u64) -> u64 {
    *seed = seed
        .wrapping_mul(6_364_136_223_846_793_005)
        .wrapping_add(1_442_695_040_888_963_407);
    *seed / 8_589_934_592
}

#[derive(Clone, Copy)]
enum Call {
    Push(u64),
    Front,
    Pop,
    Len,
}

#[derive(Drop, PartialEq)]
enum Answer {
    Pushed(bool),
    Item(Option<u64>),
    Count(usize),
}

// A call on a queue.
#[derive(Drop)]
struct Calls {
    queue: Queue<u64>,
    call: Call,
}

impl Change for Calls {
    type Answer = Answer;

    fn make(&self, tx: &mut Tx<'_>) -> Result<Answer, Stop> {
        match self.call {
            Call::Push(item) => Ok(Answer::Pushed(self.queue.try_push(tx, item)?)),
            Call::Front => Ok(Answer::Item(self.queue.front(tx)?)),
            Call::Pop => Ok(Answer::Item(self.queue.try_pop(tx)?)),
            Call::Len => Ok(Answer::Count(self.queue.len(tx)? as usize)),
        }
    }
}

// What a deque answers that is to have room for five.
fn expected(plain: &mut VecDeque<u64>, call: Call) -> Result<Answer, GaveUp> {
    match call {
        Call::Push(_) if plain.len() == 5 => Ok(Answer::Pushed(false)),
        Call::Push(item) => match plain.push_back(item) {
            Ok(()) => Ok(Answer::Pushed(true)),
            Err(_) => Err(GaveUp::Memory),
        },
        Call::Front => Ok(Answer::Item(plain.front().copied())),
        Call::Pop => Ok(Answer::Item(plain.pop_front())),
        Call::Len => Ok(Answer::Count(plain.len())),
    }
}

// Whether both answer a call alike.
fn is_alike(
    me: &mut Me<'_>,
    queue: Queue<u64>,
    plain: &mut VecDeque<u64>,
    call: Call,
) -> Result<bool, GaveUp> {
    let told = atomically(me, &Calls { queue, call })?;
    Ok(told == expected(plain, call)?)
}

// A queue of five places, and how often it is taken through fifty operations.
#[derive(Drop)]
struct BesideDeque {
    queue: Queue<u64>,
    alloc: Global,
    rounds: u32,
}

impl BesideDeque {
    // Fifty operations on the empty queue, beside a deque, and five that empty it; each behind a look at the front, and before one
    // at the length.
    fn once(&self, me: &mut Me<'_>, seed: &mut u64) -> Result<bool, GaveUp> {
        let mut plain: VecDeque<u64> = VecDeque::new(self.alloc);
        let mut alike = true;
        for number in 0..55u32 {
            let drawn = draw(seed);
            let call = if number < 50 && drawn % 9 < 5 {
                Call::Push(drawn)
            } else {
                Call::Pop
            };
            for call in [Call::Front, call, Call::Len] {
                alike &= is_alike(me, self.queue, &mut plain, call)?;
            }
        }
        Ok(alike)
    }
}

impl Part for BesideDeque {
    type Answer = bool;

    fn play(&self, me: &mut Me<'_>, _number: usize) -> Result<bool, GaveUp> {
        let mut seed = 1;
        let mut alike = true;
        for _ in 0..self.rounds {
            alike &= self.once(me, &mut seed)?;
        }
        Ok(alike)
    }
}

// Whether a queue does what a deque does, in so many rounds.
pub fn is_a_deque<R: Threads + Sync>(
    rt: &R,
    alloc: Global,
    memory: &mut Memory,
    rounds: u32,
) -> Result<bool, Failed> {
    let queue = Queue::new(memory, 5)?;
    let part = BesideDeque {
        queue,
        alloc,
        rounds,
    };
    is_so(rt, memory, &part)
}

// Two queues one behind the other, and the sum of what has come through both. Two threads push, one moves what it finds on into
// the other queue, and one adds it up.
#[derive(Clone, Copy, Drop)]
struct Pipe {
    queue: Queue<u64>,
    other: Queue<u64>,
    sum: Cell<u64>,
}

// What a thread does for one item.
#[derive(Drop)]
struct Turn {
    pipe: Pipe,
    number: usize,
    item: u64,
}

impl Change for Turn {
    type Answer = ();

    fn make(&self, tx: &mut Tx<'_>) -> Result<(), Stop> {
        match self.number {
            0 | 1 if self.item <= 300 => self.pipe.queue.push(tx, self.item),
            2 => move_on(tx, self.pipe),
            3 => add_up(tx, self.pipe),
            _ => Ok(()),
        }
    }
}

fn move_on(tx: &mut Tx<'_>, pipe: Pipe) -> Result<(), Stop> {
    let found = pipe.queue.pop(tx)?;
    pipe.other.push(tx, found)
}

fn add_up(tx: &mut Tx<'_>, pipe: Pipe) -> Result<(), Stop> {
    let found = pipe.other.pop(tx)?;
    let _before = add(tx, pipe.sum, found)?;
    Ok(())
}

impl Part for Pipe {
    type Answer = ();

    fn play(&self, me: &mut Me<'_>, number: usize) -> Result<(), GaveUp> {
        for item in 1..=600u64 {
            atomically(
                me,
                &Turn {
                    pipe: *self,
                    number,
                    item,
                },
            )?;
        }
        Ok(())
    }
}

impl Trial for Pipe {
    fn of(memory: &mut Memory) -> Result<Pipe, Failed> {
        Ok(Pipe {
            queue: Queue::new(memory, 5)?,
            other: Queue::new(memory, 3)?,
            sum: cell_of(memory, 0u64)?,
        })
    }

    fn is_left(&self, memory: &Memory) -> Result<bool, Failed> {
        Ok(self.other.capacity() == 3 && held(memory, self.sum)? == 90_300)
    }
}

#[test]
fn a_queue_on_threads_loses_nothing(rt: HostRuntime) -> Result<(), Fail> {
    tries::<Pipe, HostRuntime>(&rt, rt.alloc(), Manager::Karma, 4)
}

// Nothing can be pushed.
#[derive(Drop)]
struct Refuses {
    queue: Queue<u64>,
}

impl Part for Refuses {
    type Answer = bool;

    fn play(&self, me: &mut Me<'_>, _number: usize) -> Result<bool, GaveUp> {
        let queue = self.queue;
        let call = Call::Push(1);
        Ok(atomically(me, &Calls { queue, call })? == Answer::Pushed(false))
    }
}

#[test]
fn a_queue_has_as_many_places_as_fit(rt: HostRuntime) -> Result<(), Fail> {
    let mut memory = Memory::new(rt.alloc());
    let queue: Queue<u64> = Queue::new(&mut memory, 0)?;
    assert!(rt; is_so(&rt, &mut memory, &Refuses { queue })?);
    let many: Result<Queue<u64>, Failed> = Queue::new(&mut memory, 524_287);
    assert!(rt; matches!(many, Err(Failed::Full)));
    Ok(())
}
