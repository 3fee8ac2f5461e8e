// Orders of fifty articles pass through a queue of sixteen places: two desks put them in, and two packers fill them from the
// stock. An order is taken from the queue, from the stock and to what is sold in one transaction.
use dstm_cells::{Failed, Memory};
use dstm_structures::{HashMap, Queue};
use std::thread::Threads;

/// The articles, of each of which there are a thousand pieces.
const ARTICLES: u64 = 50;

/// How many orders each desk takes.
const ORDERS: u64 = 2_000;

/// All orders are taken and packed. This answers how many pieces are packed, and how many are left.
pub fn pack_all<R: Threads + Sync>(rt: &R, memory: &mut Memory) -> Result<(u64, u64), Failed> {
    let orders: Queue<(u64, u64)> = Queue::new(memory, 16)?;
    let stock: HashMap<u64> = HashMap::new(memory, 64)?;
    let sold: HashMap<u64> = HashMap::new(memory, 64)?;
    let packed = memory.cell(0u64)?;
    let left = memory.cell(0u64)?;
    memory.run(rt, 1, |me, _| {
        for article in 0..ARTICLES {
            me.atomically(|tx| stock.put(tx, article, 1_000))?;
        }
        Ok(())
    })?;
    memory.run(rt, 4, |me, number| {
        for order in 0..ORDERS {
            if number < 2 {
                let wanted = (order % ARTICLES, order % 5 + 1);
                me.atomically(|tx| orders.push(tx, wanted))?;
            } else {
                me.atomically(|tx| {
                    let (article, pieces) = orders.pop(tx)?;
                    let there = stock.get(tx, article)?.unwrap_or(0);
                    stock.put(tx, article, there.wrapping_sub(pieces))?;
                    let gone = sold.get(tx, article)?.unwrap_or(0);
                    sold.put(tx, article, gone.wrapping_add(pieces))
                })?;
            }
        }
        Ok(())
    })?;
    memory.run(rt, 1, |me, _| {
        for article in 0..ARTICLES {
            me.atomically(|tx| {
                let gone = sold.get(tx, article)?.unwrap_or(0);
                tx.update(packed, |all| all.wrapping_add(gone))?;
                let there = stock.get(tx, article)?.unwrap_or(0);
                tx.update(left, |all| all.wrapping_add(there))
            })?;
        }
        Ok(())
    })?;
    Ok((memory.get(packed)?, memory.get(left)?))
}
