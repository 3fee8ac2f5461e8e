// What long transactions look at, and short ones change.
ghost use Rattle.std.specs.Prelude.{◌<◌};

use crate::draws::draw;
use dstm_cells::{Cell, GaveUp, Me, Memory, Stop, Tx};
use dstm_structures::HashMap;
use std::alloc::Global;

/// What long transactions look at, and short ones change.
#[derive(Drop)]
pub struct Ground {
    // A short transaction adds one to one of these, and to one of its thread.
    cells: Vec<Cell<u64>>,
    own: Vec<Cell<u64>>,
    // Or it puts one of so many keys into this map.
    map: Option<HashMap<u64>>,
    count: u32,
}

impl Ground {
    /// So many cells, or a map with room for twice as many keys, if it is one of these.
    pub fn make(memory: &mut Memory, what: &str, count: u32) -> anyhow::Result<Option<Ground>> {
        let (cells, map) = match what {
            "cells" => (memory.cells(1u64, count)?, None),
            "map" => {
                let map = HashMap::new(memory, count.saturating_mul(2))?;
                (memory.cells(1u64, 0)?, Some(map))
            }
            _ => return Ok(None),
        };
        let own = memory.cells(0u64, 4)?;
        Ok(Some(Ground {
            cells,
            own,
            map,
            count,
        }))
    }

    /// Puts all keys into the map, where it is one.
    pub fn fill(&self, me: &mut Me<'_>) -> Result<(), GaveUp> {
        let Some(map) = self.map else {
            return Ok(());
        };
        for number in 0..self.count {
            me.atomically(|tx| put(tx, map, u64::from(number), 0))?;
        }
        Ok(())
    }

    /// A long transaction: it looks at all cells, or lists the map.
    pub fn look(&self, tx: &mut Tx<'_>, alloc: Global) -> Result<u64, Stop> {
        if let Some(map) = self.map {
            let items = map.to_vec(tx, alloc)?;
            return Ok(items.len() as u64);
        }
        let mut sum: u64 = 0;
        for cell in &self.cells {
            sum = sum.wrapping_add(tx.get(*cell)?);
        }
        Ok(sum)
    }

    /// Makes a short transaction of the thread with this number.
    pub fn change(&self, me: &mut Me<'_>, number: usize, seed: &mut u64) -> Result<(), GaveUp> {
        let drawn = if self.count > 0 {
            draw(seed, self.count)
        } else {
            0
        };
        if let Some(map) = self.map {
            let value = *seed;
            return me.atomically(|tx| put(tx, map, u64::from(drawn), value));
        }
        let one = pick(&self.cells, drawn as usize)?;
        let own = pick(&self.own, number)?;
        me.atomically(|tx| {
            tx.update(one, |n| n.wrapping_add(1))?;
            tx.update(own, |n| n.wrapping_add(1))
        })?;
        Ok(())
    }
}

fn put(tx: &mut Tx<'_>, map: HashMap<u64>, key: u64, value: u64) -> Result<(), Stop> {
    let _placed = map.put(tx, key, value)?;
    Ok(())
}

fn pick(cells: &[Cell<u64>], place: usize) -> Result<Cell<u64>, GaveUp> {
    match cells.get(place) {
        Some(cell) => Ok(*cell),
        None => Err(GaveUp::Foreign),
    }
}
