// A clerk opens letters as they come, and makes tea where none has come for two milliseconds.
use dstm_cells::{Cell, Failed, GaveUp, Memory, Naps, Stop, Tx, ensure};
use std::thread::{Threads, sleep};
use std::time::{Clock, Duration};

// So many letters come, three milliseconds one after the other.
const LETTERS: u64 = 5;

// So often the clerk waits for a letter at most.
const MOST_WAITS: u32 = 10_000;

/// All letters come and are opened. This answers how many are opened, and how often there was tea.
pub fn open_all<R: Clock + Threads + Sync>(
    rt: &R,
    memory: &mut Memory,
) -> Result<(u64, u64), Failed> {
    let tray = memory.cell(0u64)?;
    let opened = memory.cell(0u64)?;
    let teas = memory.cell(0u64)?;
    memory.run(rt, 2, |me, number| {
        if number == 0 {
            for _ in 0..LETTERS {
                sleep(rt, Duration::from_millis(3));
                me.atomically(|tx| add_one(tx, tray))?;
            }
            return Ok(());
        }
        let mut naps = Naps::new(rt).with_patience(Duration::from_millis(2));
        for _ in 0..MOST_WAITS {
            match me.atomically_by(&mut naps, |tx| open(tx, tray, opened)) {
                Ok(LETTERS) => return Ok(()),
                Ok(_) => {}
                Err(GaveUp::Idle) => me.atomically(|tx| add_one(tx, teas))?,
                Err(why) => return Err(why),
            }
        }
        Err(GaveUp::Idle)
    })?;
    Ok((memory.get(opened)?, memory.get(teas)?))
}

// Opens a letter, once there is one, and answers how many are open then.
fn open(tx: &mut Tx<'_>, tray: Cell<u64>, opened: Cell<u64>) -> Result<u64, Stop> {
    let letters = tx.get(tray)?;
    ensure(letters > 0)?;
    tx.set(tray, letters - 1)?;
    add_one(tx, opened)?;
    tx.get(opened)
}

fn add_one(tx: &mut Tx<'_>, count: Cell<u64>) -> Result<(), Stop> {
    let _before = tx.update(count, |n| n.wrapping_add(1))?;
    Ok(())
}
