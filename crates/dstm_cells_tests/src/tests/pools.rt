// A pool of cells beside a row of std, and on threads.
use crate::tests::plain::{Change, Part, Trial, add, atomically, cell_of, get, held, is_so, tries};
use crate::tests::queues::draw;
use dstm_cells::{Cell, Failed, GaveUp, Manager, Me, Memory, Stop, Tx, retry};
use dstm_structures::Pool;
use std::test::Fail;
use std::thread::Threads;

// A cell is taken, from a place on, with this value.
#[derive(Drop)]
struct Take {
    pool: Pool<u64>,
    from: u32,
    value: u64,
}

impl Change for Take {
    type Answer = Option<Cell<u64>>;

    fn make(&self, tx: &mut Tx<'_>) -> Result<Option<Cell<u64>>, Stop> {
        self.pool.take(tx, self.from, self.value)
    }
}

// A cell is given back: what it held, and whether it was taken.
#[derive(Drop)]
struct Give {
    pool: Pool<u64>,
    cell: Cell<u64>,
}

impl Change for Give {
    type Answer = (u64, bool);

    fn make(&self, tx: &mut Tx<'_>) -> Result<(u64, bool), Stop> {
        let value = get(tx, self.cell)?;
        let was = self.pool.give(tx, self.cell)?;
        Ok((value, was))
    }
}

// A place of a pool: by which name its cell was told last, and what it holds, if it is taken.
#[derive(Clone, Copy)]
struct Place {
    cell: Cell<u64>,
    holds: Option<u64>,
}

// The first place from this one on, in a circle of five, whose cell is not taken.
fn free_from(places: &[Place], from: u32) -> Option<usize> {
    for passed in 0..5usize {
        let at = (from as usize % 5 + passed) % 5;
        match places.get(at) {
            Some(place) if place.holds.is_none() => return Some(at),
            _ => {}
        }
    }
    None
}

// A pool of five cells, one that is none of them, and how often it is taken through fifty calls.
#[derive(Drop)]
struct BesideRow {
    pool: Pool<u64>,
    other: Cell<u64>,
    rounds: u32,
}

impl BesideRow {
    // Whether a cell is taken where the first place is free, if one is.
    fn takes(&self, me: &mut Me<'_>, places: &mut [Place], drawn: u64) -> Result<bool, GaveUp> {
        let pool = self.pool;
        let from = (drawn % 1_000) as u32;
        let value = drawn;
        let told = atomically(me, &Take { pool, from, value })?;
        let Some(at) = free_from(places, from) else {
            return Ok(told.is_none());
        };
        match (told, places.get_mut(at)) {
            (Some(cell), Some(place)) => {
                let holds = Some(value);
                *place = Place { cell, holds };
                Ok(true)
            }
            _ => Ok(false),
        }
    }

    // Whether the cell of a place is given back where it is taken, and holds what it is to hold.
    fn gives(&self, me: &mut Me<'_>, places: &mut [Place], at: u64) -> Result<bool, GaveUp> {
        let pool = self.pool;
        let Some(place) = places.get_mut((at % 5) as usize) else {
            return Ok(false);
        };
        let cell = place.cell;
        let (value, was) = atomically(me, &Give { pool, cell })?;
        let alike = match place.holds {
            Some(holds) => was && value == holds,
            None => !was,
        };
        place.holds = None;
        Ok(alike)
    }

    // Fifty calls on the pool, beside a row of places, and five that give all back.
    fn once(&self, me: &mut Me<'_>, seed: &mut u64) -> Result<bool, GaveUp> {
        let place = Place {
            cell: self.other,
            holds: None,
        };
        let mut places = [place; 5];
        let mut alike = true;
        for _ in 0..50u32 {
            let drawn = draw(seed);
            alike &= if drawn % 9 < 5 {
                self.takes(me, &mut places, drawn / 9)?
            } else {
                self.gives(me, &mut places, drawn / 9)?
            };
        }
        for at in 0..5u64 {
            alike &= self.gives(me, &mut places, at)?;
        }
        Ok(alike)
    }
}

impl Part for BesideRow {
    type Answer = bool;

    fn play(&self, me: &mut Me<'_>, _number: usize) -> Result<bool, GaveUp> {
        let mut seed = 1;
        let mut alike = true;
        for _ in 0..self.rounds {
            alike &= self.once(me, &mut seed)?;
        }
        Ok(alike)
    }
}

// Whether a pool does what a row of places does, in so many rounds.
pub fn is_a_row<R: Threads + Sync>(
    rt: &R,
    memory: &mut Memory,
    rounds: u32,
) -> Result<bool, Failed> {
    let other = cell_of(memory, 7u64)?;
    let pool = Pool::new(memory, 5)?;
    let part = BesideRow {
        pool,
        other,
        rounds,
    };
    Ok(pool.capacity() == 5 && is_so(rt, memory, &part)?)
}

// Three cells for four threads, each of which takes one three hundred times, and adds up what it holds as it gives it back.
#[derive(Clone, Copy, Drop)]
struct Shelf {
    pool: Pool<u64>,
    sum: Cell<u64>,
}

// A cell is taken, once one is there.
#[derive(Drop)]
struct Fetch {
    shelf: Shelf,
    from: u32,
    value: u64,
}

impl Change for Fetch {
    type Answer = Cell<u64>;

    fn make(&self, tx: &mut Tx<'_>) -> Result<Cell<u64>, Stop> {
        match self.shelf.pool.take(tx, self.from, self.value)? {
            Some(cell) => Ok(cell),
            None => retry(),
        }
    }
}

// It is given back.
#[derive(Drop)]
struct Return {
    shelf: Shelf,
    cell: Cell<u64>,
}

impl Change for Return {
    type Answer = bool;

    fn make(&self, tx: &mut Tx<'_>) -> Result<bool, Stop> {
        let value = get(tx, self.cell)?;
        let _before = add(tx, self.shelf.sum, value)?;
        self.shelf.pool.give(tx, self.cell)
    }
}

impl Part for Shelf {
    type Answer = ();

    fn play(&self, me: &mut Me<'_>, number: usize) -> Result<(), GaveUp> {
        let shelf = *self;
        for value in 1..=300u64 {
            let from = (number % 4) as u32;
            let cell = atomically(me, &Fetch { shelf, from, value })?;
            let _was = atomically(me, &Return { shelf, cell })?;
        }
        Ok(())
    }
}

impl Trial for Shelf {
    fn of(memory: &mut Memory) -> Result<Shelf, Failed> {
        Ok(Shelf {
            pool: Pool::new(memory, 3)?,
            sum: cell_of(memory, 0u64)?,
        })
    }

    fn is_left(&self, memory: &Memory) -> Result<bool, Failed> {
        Ok(held(memory, self.sum)? == 180_600)
    }
}

#[test]
fn a_pool_on_threads_gives_each_cell_to_one(rt: HostRuntime) -> Result<(), Fail> {
    tries::<Shelf, HostRuntime>(&rt, rt.alloc(), Manager::Karma, 4)
}

#[test]
fn a_pool_has_from_one_cell_on(rt: HostRuntime) -> Result<(), Fail> {
    let mut memory = Memory::new(rt.alloc());
    let none: Result<Pool<u64>, Failed> = Pool::new(&mut memory, 0);
    let many: Result<Pool<u64>, Failed> = Pool::new(&mut memory, 262_145);
    assert!(rt; matches!(none, Err(Failed::Full)));
    assert!(rt; matches!(many, Err(Failed::Full)));
    Ok(())
}
