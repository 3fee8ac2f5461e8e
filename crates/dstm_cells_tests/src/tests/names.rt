// Structures by the numbers of their cells: what was put into one that a memory has made is found in the one of its numbers.
use crate::tests::plain::{Change, Part, atomically, is_so};
use dstm_cells::{Failed, GaveUp, Me, Memory, Stop, Tx};
use dstm_structures::{HashMap, OrderedMap, OrderedSet, Pool, Queue};
use std::test::Fail;

// A structure of each kind.
#[derive(Clone, Copy)]
struct Each {
    map: HashMap<u64>,
    ordered: OrderedMap<u64>,
    set: OrderedSet,
    queue: Queue<u64>,
    pool: Pool<u64>,
}

impl Each {
    // Five of them in the first 36 cells of a memory.
    fn made(memory: &mut Memory) -> Result<Each, Failed> {
        Ok(Each {
            map: HashMap::new(memory, 3)?,
            ordered: OrderedMap::new(memory, 3)?,
            set: OrderedSet::new(memory, 3)?,
            queue: Queue::new(memory, 3)?,
            pool: Pool::new(memory, 3)?,
        })
    }

    // Those that have the first 36 cells of a memory.
    fn named() -> Option<Each> {
        Some(Each {
            map: HashMap::at(0, 3)?,
            ordered: OrderedMap::at(6, 3)?,
            set: OrderedSet::at(16, 3)?,
            queue: Queue::at(26, 3)?,
            pool: Pool::at(30, 3)?,
        })
    }
}

// What is put into each of these is found in each of those.
#[derive(Drop)]
struct Finds {
    made: Each,
    named: Each,
}

impl Change for Finds {
    type Answer = bool;

    fn make(&self, tx: &mut Tx<'_>) -> Result<bool, Stop> {
        let (made, named) = (self.made, self.named);
        let _new = made.map.put(tx, 7, 70)?;
        let _new = made.ordered.put(tx, 8, 80)?;
        let _new = made.set.insert(tx, 9)?;
        let _pushed = made.queue.try_push(tx, 100)?;
        let taken = made.pool.take(tx, 0, 110)?;
        let maps = named.map.get(tx, 7)? == Some(70) && named.ordered.first(tx)? == Some((8, 80));
        let others = named.set.first(tx)? == Some(9) && named.queue.front(tx)? == Some(100);
        match taken {
            Some(cell) => Ok(maps && others && named.pool.give(tx, cell)?),
            None => Ok(false),
        }
    }
}

impl Part for Finds {
    type Answer = bool;

    fn play(&self, me: &mut Me<'_>, _number: usize) -> Result<bool, GaveUp> {
        atomically(me, self)
    }
}

// Whether none of the last cells is one of these, of which each has at least two.
fn ends_before_the_last() -> bool {
    HashMap::<u64>::at(524_287, 1).is_none()
        && OrderedMap::<u64>::at(524_285, 1).is_none()
        && OrderedSet::at(524_285, 1).is_none()
        && Queue::<u64>::at(524_287, 1).is_none()
        && Pool::<u64>::at(524_287, 1).is_none()
}

#[test]
fn structures_are_found_by_their_numbers(rt: HostRuntime) -> Result<(), Fail> {
    let mut memory = Memory::new(rt.alloc());
    let made = Each::made(&mut memory)?;
    let named = Each::named();
    assert!(rt; named.is_some());
    if let Some(named) = named {
        assert!(rt; is_so(&rt, &mut memory, &Finds { made, named })?);
    }
    assert!(rt; ends_before_the_last());
    Ok(())
}
