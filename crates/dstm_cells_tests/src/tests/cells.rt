// Each call once, by both engines, and what no clause says.
use crate::tests::plain::{
    Adding, Change, Choice, Part, Setting, Trial, atomically, cell_of, choose, get, held,
    memory_by, run, run_each, set, tries,
};
use dstm_cells::{
    Cell, Engine, Failed, GaveUp, Manager, Me, Memory, Stop, Tx, Word, ensure, retry,
};
use std::alloc::Global;
use std::test::Fail;
use std::thread::Threads;

fn comes_back<T: Word + PartialEq>(value: T) -> bool {
    T::of_val(value.to_val()) == value
}

#[test]
fn what_is_put_is_found(rt: HostRuntime) {
    assert!(rt; comes_back(u64::MAX));
    assert!(rt; comes_back(u32::MAX));
    assert!(rt; comes_back(usize::MAX));
    assert!(rt; comes_back(i64::MIN));
    assert!(rt; comes_back(-1i64));
    assert!(rt; comes_back(()));
    assert!(rt; comes_back((1u64, u64::MAX)));
    assert!(rt; comes_back((7u32, u32::MAX)));
    assert!(rt; comes_back(true));
    assert!(rt; comes_back(false));
    assert!(rt; comes_back(Some(0u64)));
    assert!(rt; comes_back(None::<u64>));
}

// Two numbers, the name of one of them, and perhaps that of another. The one that is named is set, and the other one named.
#[derive(Drop)]
struct Names {
    first: Cell<u64>,
    second: Cell<u64>,
    name: Cell<Cell<u64>>,
    next: Cell<Option<Cell<u64>>>,
}

impl Change for Names {
    type Answer = ();

    fn make(&self, tx: &mut Tx<'_>) -> Result<(), Stop> {
        let named = get(tx, self.name)?;
        set(tx, named, 4)?;
        set(tx, self.name, self.second)?;
        set(tx, self.next, Some(named))
    }
}

impl Part for Names {
    type Answer = ();

    fn play(&self, me: &mut Me<'_>, _number: usize) -> Result<(), GaveUp> {
        atomically(me, self)
    }
}

// Two cells that hold 3.
fn two_cells(memory: &mut Memory) -> Result<Option<(Cell<u64>, Cell<u64>)>, Failed> {
    let cells = memory.cells(3u64, 2)?;
    match cells.as_slice() {
        [first, second] => Ok(Some((*first, *second))),
        _ => Ok(None),
    }
}

impl Trial for Names {
    fn of(memory: &mut Memory) -> Result<Names, Failed> {
        let Some((first, second)) = two_cells(memory)? else {
            return Err(Failed::Full);
        };
        Ok(Names {
            first,
            second,
            name: cell_of(memory, first)?,
            next: cell_of(memory, None::<Cell<u64>>)?,
        })
    }

    fn is_left(&self, memory: &Memory) -> Result<bool, Failed> {
        let named = held(memory, self.name)?;
        let Some(next) = held(memory, self.next)? else {
            return Ok(false);
        };
        Ok(held(memory, self.first)? == 4 && held(memory, named)? == 3 && held(memory, next)? == 4)
    }
}

#[test]
fn cells_name_cells(rt: HostRuntime) -> Result<(), Fail> {
    tries::<Names, HostRuntime>(&rt, rt.alloc(), Manager::Polka, 1)
}

#[test]
fn a_cell_of_another_memory_is_foreign(rt: HostRuntime) -> Result<(), Fail> {
    let mut memory = Memory::new(rt.alloc());
    let _first = cell_of(&mut memory, 3u64)?;
    let second = cell_of(&mut memory, 3u64)?;
    let mut other = Memory::new(rt.alloc());
    let _one = cell_of(&mut other, 0u64)?;
    assert!(rt; held(&other, second) == Err(Failed::Foreign));
    Ok(())
}

#[test]
fn a_cell_is_set_between_runs(rt: HostRuntime) -> Result<(), Fail> {
    let mut memory = Memory::new(rt.alloc());
    let cell = cell_of(&mut memory, 3u64)?;
    assert!(rt; memory.set(cell, 4) == Ok(3));
    assert!(rt; held(&memory, cell) == Ok(4));
    let mut other = Memory::new(rt.alloc());
    assert!(rt; other.set(cell, 5) == Err(Failed::Foreign));
    Ok(())
}

// It adds one, but where it finds five or more it is left with what it has found.
#[derive(Drop)]
struct Limited {
    count: Cell<u64>,
}

impl Part for Limited {
    type Answer = Result<u64, u64>;

    fn play(&self, me: &mut Me<'_>, _number: usize) -> Result<Result<u64, u64>, GaveUp> {
        let count = self.count;
        me.attempt(|tx| {
            let found = tx.update(count, |n| n.wrapping_add(1))?;
            Ok(if found < 5 { Ok(found) } else { Err(found) })
        })
    }
}

#[test]
fn a_transaction_is_left_with_a_value(rt: HostRuntime) -> Result<(), Fail> {
    let alloc = rt.alloc();
    for manager in [None, Some(Manager::Greedy)] {
        let mut memory = memory_by(alloc, manager);
        let count = cell_of(&mut memory, 3u64)?;
        let told = run_each(&rt, &mut memory, 4, &Limited { count })?;
        assert!(rt; told.iter().filter(|answer| answer.is_ok()).count() == 2);
        assert!(rt; told.iter().filter(|answer| **answer == Err(5)).count() == 2);
        assert!(rt; held(&memory, count) == Ok(5));
    }
    Ok(())
}

// One is halved, the second of a pair that takes another's place is added, and what is found then is the first of a pair.
#[derive(Drop)]
struct Halved {
    one: Cell<u64>,
    two: Cell<(u64, u64)>,
}

impl Change for Halved {
    type Answer = u64;

    fn make(&self, tx: &mut Tx<'_>) -> Result<u64, Stop> {
        let had = tx.update(self.one, |n| n / 2)?;
        let pair = tx.replace(self.two, (3, 4))?;
        set(tx, self.one, had.wrapping_add(pair.1))?;
        get(tx, self.one)
    }
}

impl Part for Halved {
    type Answer = ();

    fn play(&self, me: &mut Me<'_>, _number: usize) -> Result<(), GaveUp> {
        let found = atomically(me, self)?;
        let cell = self.two;
        atomically(
            me,
            &Setting {
                cell,
                value: (found, 0),
            },
        )
    }
}

impl Trial for Halved {
    fn of(memory: &mut Memory) -> Result<Halved, Failed> {
        Ok(Halved {
            one: cell_of(memory, 5u64)?,
            two: cell_of(memory, (1u64, 2u64))?,
        })
    }

    fn is_left(&self, memory: &Memory) -> Result<bool, Failed> {
        Ok(held(memory, self.one)? == 7 && held(memory, self.two)? == (7, 0))
    }
}

#[test]
fn a_transaction_reads_and_changes_cells(rt: HostRuntime) -> Result<(), Fail> {
    tries::<Halved, HostRuntime>(&rt, rt.alloc(), Manager::Karma, 1)
}

// The second cell is set; an alternative sets both and retries; and what the other one finds in both is written down.
#[derive(Drop)]
struct Undone {
    one: Cell<u64>,
    two: Cell<u64>,
    seen: Cell<(u64, u64)>,
}

impl Choice for Undone {
    type Answer = (u64, u64);

    fn first(&self, tx: &mut Tx<'_>) -> Result<(u64, u64), Stop> {
        set(tx, self.one, 10)?;
        set(tx, self.two, 200)?;
        set(tx, self.one, 100)?;
        tx.retry()
    }

    fn second(&self, tx: &mut Tx<'_>) -> Result<(u64, u64), Stop> {
        let one = get(tx, self.one)?;
        let two = get(tx, self.two)?;
        Ok((one, two))
    }
}

impl Change for Undone {
    type Answer = ();

    fn make(&self, tx: &mut Tx<'_>) -> Result<(), Stop> {
        set(tx, self.two, 20)?;
        let found = choose(tx, self)?;
        set(tx, self.seen, found)
    }
}

impl Part for Undone {
    type Answer = ();

    fn play(&self, me: &mut Me<'_>, _number: usize) -> Result<(), GaveUp> {
        atomically(me, self)
    }
}

impl Trial for Undone {
    fn of(memory: &mut Memory) -> Result<Undone, Failed> {
        Ok(Undone {
            one: cell_of(memory, 1u64)?,
            two: cell_of(memory, 2u64)?,
            seen: cell_of(memory, (0u64, 0u64))?,
        })
    }

    fn is_left(&self, memory: &Memory) -> Result<bool, Failed> {
        let seen = held(memory, self.seen)?;
        Ok(seen == (1, 20) && held(memory, self.one)? == 1 && held(memory, self.two)? == 20)
    }
}

#[test]
fn what_an_alternative_has_set_is_undone(rt: HostRuntime) -> Result<(), Fail> {
    tries::<Undone, HostRuntime>(&rt, rt.alloc(), Manager::Polka, 1)
}

// The first alternative sets the cell to 2, and the second one to 3.
#[derive(Drop)]
struct Either {
    cell: Cell<u64>,
}

impl Choice for Either {
    type Answer = ();

    fn first(&self, tx: &mut Tx<'_>) -> Result<(), Stop> {
        set(tx, self.cell, 2)
    }

    fn second(&self, tx: &mut Tx<'_>) -> Result<(), Stop> {
        set(tx, self.cell, 3)
    }
}

impl Change for Either {
    type Answer = ();

    fn make(&self, tx: &mut Tx<'_>) -> Result<(), Stop> {
        choose(tx, self)
    }
}

impl Part for Either {
    type Answer = ();

    fn play(&self, me: &mut Me<'_>, _number: usize) -> Result<(), GaveUp> {
        atomically(me, self)
    }
}

impl Trial for Either {
    fn of(memory: &mut Memory) -> Result<Either, Failed> {
        let cell = cell_of(memory, 1u64)?;
        Ok(Either { cell })
    }

    fn is_left(&self, memory: &Memory) -> Result<bool, Failed> {
        Ok(held(memory, self.cell)? == 2)
    }
}

#[test]
fn the_first_alternative_is_taken_where_it_does_not_retry(rt: HostRuntime) -> Result<(), Fail> {
    tries::<Either, HostRuntime>(&rt, rt.alloc(), Manager::Polka, 1)
}

// The second thread opens, and the first one passes then.
#[derive(Drop)]
struct Waits {
    open: Cell<bool>,
    passed: Cell<u64>,
}

impl Change for Waits {
    type Answer = ();

    fn make(&self, tx: &mut Tx<'_>) -> Result<(), Stop> {
        ensure(get(tx, self.open)?)?;
        set(tx, self.passed, 1)
    }
}

impl Part for Waits {
    type Answer = ();

    fn play(&self, me: &mut Me<'_>, number: usize) -> Result<(), GaveUp> {
        if number == 1 {
            let cell = self.open;
            return atomically(me, &Setting { cell, value: true });
        }
        atomically(me, self)
    }
}

impl Trial for Waits {
    fn of(memory: &mut Memory) -> Result<Waits, Failed> {
        Ok(Waits {
            open: cell_of(memory, false)?,
            passed: cell_of(memory, 0u64)?,
        })
    }

    fn is_left(&self, memory: &Memory) -> Result<bool, Failed> {
        Ok(held(memory, self.passed)? == 1)
    }
}

#[test]
fn a_transaction_waits_for_what_it_has_read(rt: HostRuntime) -> Result<(), Fail> {
    tries::<Waits, HostRuntime>(&rt, rt.alloc(), Manager::Greedy, 2)
}

// Both alternatives retry, and it is looked eight times for what may change that.
#[derive(Drop)]
struct Idle;

impl Choice for Idle {
    type Answer = ();

    fn first(&self, tx: &mut Tx<'_>) -> Result<(), Stop> {
        tx.ensure(false)
    }

    fn second(&self, _tx: &mut Tx<'_>) -> Result<(), Stop> {
        retry()
    }
}

impl Change for Idle {
    type Answer = ();

    fn make(&self, tx: &mut Tx<'_>) -> Result<(), Stop> {
        choose(tx, self)
    }
}

impl Part for Idle {
    type Answer = ();

    fn play(&self, me: &mut Me<'_>, _number: usize) -> Result<(), GaveUp> {
        me.set_looks(8);
        atomically(me, self)
    }
}

// It sets a cell.
#[derive(Drop)]
struct Sets {
    cell: Cell<u64>,
}

impl Part for Sets {
    type Answer = ();

    fn play(&self, me: &mut Me<'_>, _number: usize) -> Result<(), GaveUp> {
        let cell = self.cell;
        atomically(me, &Setting { cell, value: 1 })
    }
}

// The second cell of a memory.
fn foreign_cell(alloc: Global) -> Result<Cell<u64>, Failed> {
    let mut larger = Memory::new(alloc);
    let _first = cell_of(&mut larger, 0u64)?;
    cell_of(&mut larger, 0u64)
}

// Whether runs fail by what they do, and by the number of threads.
fn tells_why<R: Threads + Sync>(
    rt: &R,
    memory: &mut Memory,
    cell: Cell<u64>,
) -> Result<bool, Failed> {
    let _cell = cell_of(memory, 0u64)?;
    Ok(
        run(rt, memory, 1, &Idle) == Err(Failed::GaveUp(GaveUp::Idle))
            && run(rt, memory, 1, &Sets { cell }) == Err(Failed::GaveUp(GaveUp::Foreign))
            && run(rt, memory, 0, &Idle) == Err(Failed::Threads)
            && run(rt, memory, 64, &Idle) == Err(Failed::Threads),
    )
}

#[test]
fn a_run_tells_why_it_failed(rt: HostRuntime) -> Result<(), Fail> {
    let cell = foreign_cell(rt.alloc())?;
    assert!(rt; tells_why(&rt, &mut memory_by(rt.alloc(), None), cell)?);
    let by = Some(Manager::Polka);
    assert!(rt; tells_why(&rt, &mut memory_by(rt.alloc(), by), cell)?);
    Ok(())
}

// It adds one 65,537 times.
#[derive(Drop)]
struct Often {
    cell: Cell<u64>,
}

impl Part for Often {
    type Answer = ();

    fn play(&self, me: &mut Me<'_>, _number: usize) -> Result<(), GaveUp> {
        let cell = self.cell;
        for _ in 0..65_537 {
            let _had = atomically(me, &Adding { cell, more: 1 })?;
        }
        Ok(())
    }
}

// Whether such a run ends so, and leaves this.
fn ends_so<R: Threads + Sync>(
    rt: &R,
    memory: &mut Memory,
    ended: Result<(), Failed>,
    left: u64,
) -> Result<bool, Failed> {
    let cell = cell_of(memory, 0u64)?;
    Ok(run(rt, memory, 1, &Often { cell }) == ended && held(memory, cell)? == left)
}

// By DSTM the attempts of a thread are used up; by TL2 they are not.
#[test]
fn a_thread_adds_one_65537_times(rt: HostRuntime) -> Result<(), Fail> {
    assert!(rt; ends_so(&rt, &mut memory_by(rt.alloc(), None), Ok(()), 65_537)?);
    let spent = Err(Failed::GaveUp(GaveUp::Spent));
    let by = Some(Manager::Polka);
    assert!(rt; ends_so(&rt, &mut memory_by(rt.alloc(), by), spent, 65_536)?);
    Ok(())
}

// Founds a table, and takes the only part of it back: whether none is out then.
fn takes_a_part_back(memory: &Memory) -> Result<bool, Failed> {
    let (table, mut founder) = memory.found(1)?;
    let me = memory.part(&table, &mut founder, 0)?;
    memory.retire(&table, &mut founder, me);
    Ok(founder.out() == 0)
}

fn found_and_close(memory: &mut Memory) -> Result<(), Failed> {
    let (table, founder) = memory.found(1)?;
    memory.close(table, founder)
}

// Whether both leave what a cell holds.
fn are_taken_back(memory: &mut Memory) -> Result<bool, Failed> {
    let cell = cell_of(memory, 7u64)?;
    let back = takes_a_part_back(memory)?;
    found_and_close(memory)?;
    Ok(back && held(memory, cell)? == 7)
}

#[test]
fn a_part_is_taken_back_and_a_table_closed(rt: HostRuntime) -> Result<(), Fail> {
    assert!(rt; are_taken_back(&mut memory_by(rt.alloc(), None))?);
    let by = Some(Manager::Polka);
    assert!(rt; are_taken_back(&mut memory_by(rt.alloc(), by))?);
    Ok(())
}

#[test]
fn an_engine_is_told(rt: HostRuntime) {
    assert!(rt; Engine::Dstm(Manager::Karma) == Engine::Dstm(Manager::Karma));
    assert!(rt; Engine::Tl2 != Engine::Dstm(Manager::Karma));
}
