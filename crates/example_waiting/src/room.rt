// A room that four threads warm, and a type of its own that a cell holds.
use dstm_cells::{Failed, Memory, Word};
use dstm_model::Val;
use std::thread::Threads;

/// How warm it is.
#[derive(Clone, Copy, Debug, PartialEq, Eq)]
pub struct Celsius {
    degrees: u64,
}

impl Word for Celsius {
    ghost found = { λ val. record { degrees = val.low } };

    fn to_val(self) -> Val {
        Val {
            low: self.degrees,
            high: 0,
        }
    }

    fn of_val(val: Val) -> Celsius {
        Celsius { degrees: val.low }
    }
}

/// Four threads warm a room, each five hundred times, and each notes the warmest that it has seen. This answers the
/// warmest of all.
pub fn warm<R: Threads + Sync>(rt: &R, memory: &mut Memory) -> Result<u64, Failed> {
    let room = memory.cell(Celsius { degrees: 20 })?;
    let warmest = memory.cells(0u64, 4)?;
    memory.run(rt, 4, |me, number| {
        let Some(mine) = warmest.get(number) else {
            return Ok(());
        };
        for _ in 0..500 {
            me.atomically(|tx| {
                let found = tx.get(room)?;
                let degrees = found.degrees.wrapping_add(1);
                tx.set(room, Celsius { degrees })?;
                tx.set(*mine, degrees)
            })?;
        }
        Ok(())
    })?;
    let mut most = 0;
    for cell in &warmest {
        most = memory.get(*cell)?.max(most);
    }
    Ok(most)
}
