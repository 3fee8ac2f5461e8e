// A queue of eight places in the cells of a memory.
use dstm_cells::{Cell, Failed, Memory, Stop, Tx};
use std::thread::Threads;

// The places.
const ROOM: u32 = 8;

/// Each of two producers passes the numbers from 1 to this one to two consumers, which add them up.
pub fn pass_all<R: Threads + Sync>(rt: &R, memory: &mut Memory, most: u32) -> Result<u64, Failed> {
    let queue = Queue::new(memory)?;
    let sum = memory.cell(0u64)?;
    memory.run(rt, 4, |me, number| {
        for item in 1..=u64::from(most) {
            if number < 2 {
                me.atomically(|tx| queue.push(tx, item))?;
            } else {
                me.atomically(|tx| {
                    let found = queue.pop(tx)?;
                    tx.update(sum, |all| all.wrapping_add(found))
                })?;
            }
        }
        Ok(())
    })?;
    memory.get(sum)
}

// A queue of numbers. `ends` holds the place of the first one and how many there are.
#[derive(Clone, Copy)]
struct Queue {
    ends: Cell<(u32, u32)>,
    places: [Cell<u64>; 8],
}

impl Queue {
    // An empty queue.
    fn new(memory: &mut Memory) -> Result<Queue, Failed> {
        let ends = memory.cell((0, 0))?;
        let mut places = [memory.cell(0)?; 8];
        for place in &mut places {
            *place = memory.cell(0)?;
        }
        Ok(Queue { ends, places })
    }

    // Puts a number at the end, once there is room.
    fn push(&self, tx: &mut Tx<'_>, item: u64) -> Result<(), Stop> {
        let (first, count) = tx.get(self.ends)?;
        tx.ensure(count < ROOM)?;
        tx.set(self.place(first, count), item)?;
        tx.set(self.ends, (first, count.wrapping_add(1)))
    }

    // Takes the first number, once there is one.
    fn pop(&self, tx: &mut Tx<'_>) -> Result<u64, Stop> {
        let (first, count) = tx.get(self.ends)?;
        tx.ensure(count > 0)?;
        let item = tx.get(self.place(first, 0))?;
        tx.set(
            self.ends,
            (first.wrapping_add(1) % ROOM, count.wrapping_sub(1)),
        )?;
        Ok(item)
    }

    // The place so many behind the first one.
    fn place(&self, first: u32, behind: u32) -> Cell<u64> {
        self.places[(first.wrapping_add(behind) % ROOM) as usize]
    }
}
