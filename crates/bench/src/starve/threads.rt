// What each thread does, and what it made.
use crate::spans::since;
use crate::starve::ground::Ground;
use crate::starve::signs::Signs;
use dstm_cells::{GaveUp, Me};
use std::alloc::Global;
use std::thread::sleep;
use std::time::{Clock, Duration, Instant};

// No thread makes so many short transactions.
const MOST: u64 = 1_000_000_000_000;

/// The long transactions of a thread.
#[derive(Clone, Copy)]
pub struct Long {
    /// Where a list of keys stands.
    pub alloc: Global,
    /// Whether each is a view.
    pub views: bool,
    /// How many there are.
    pub scans: u32,
}

/// What threads have made.
#[derive(Clone, Copy)]
pub struct Share {
    /// How many transactions took effect.
    pub made: u64,
    /// How many attempts they took, where these are counted.
    pub attempts: u64,
    /// How long each was at it, together.
    pub nanos: u64,
    /// How many threads had used up their attempts.
    pub spent: u64,
}

impl Share {
    /// What nobody has made.
    pub fn none() -> Share {
        Share {
            made: 0,
            attempts: 0,
            nanos: 0,
            spent: 0,
        }
    }

    /// What both have made together.
    pub fn and(self, other: Share) -> Share {
        Share {
            made: self.made.wrapping_add(other.made),
            attempts: self.attempts.wrapping_add(other.attempts),
            nanos: self.nanos.wrapping_add(other.nanos),
            spent: self.spent.wrapping_add(other.spent),
        }
    }
}

/// Makes the long transactions, and ends the other threads behind the last one.
pub fn look_all<C: Clock>(
    clock: &C,
    begun: Instant,
    me: &mut Me<'_>,
    ground: &Ground,
    signs: &Signs,
    long: Long,
) -> Result<Share, GaveUp> {
    let mut share = Share::none();
    let first = since(clock, begun);
    for _ in 0..long.scans {
        let mut tries: u64 = 0;
        let looked = look(me, ground, long, &mut tries);
        share.attempts = share.attempts.wrapping_add(tries);
        match looked {
            Ok(()) => share.made = share.made.wrapping_add(1),
            Err(_) => {
                share.spent = 1;
                break;
            }
        }
    }
    share.nanos = since(clock, begun).saturating_sub(first);
    signs.end();
    Ok(share)
}

// Makes a long transaction, and counts its attempts.
fn look(me: &mut Me<'_>, ground: &Ground, long: Long, tries: &mut u64) -> Result<(), GaveUp> {
    let alloc = long.alloc;
    let _seen = if long.views {
        me.view(|tx| {
            *tries = tries.wrapping_add(1);
            ground.look(tx, alloc)
        })?
    } else {
        me.atomically(|tx| {
            *tries = tries.wrapping_add(1);
            ground.look(tx, alloc)
        })?
    };
    Ok(())
}

/// Makes short transactions until the threads are to end.
pub fn change_all<C: Clock>(
    clock: &C,
    begun: Instant,
    me: &mut Me<'_>,
    ground: &Ground,
    signs: &Signs,
    number: usize,
) -> Result<Share, GaveUp> {
    let mut share = Share::none();
    let mut seed = number as u64;
    let first = since(clock, begun);
    signs.begin();
    for _ in 0..MOST {
        if signs.is_over() {
            break;
        }
        match ground.change(me, number, &mut seed) {
            Ok(()) => share.made = share.made.wrapping_add(1),
            Err(GaveUp::Spent) => {
                share.spent = 1;
                break;
            }
            Err(why) => return Err(why),
        }
    }
    share.nanos = since(clock, begun).saturating_sub(first);
    Ok(share)
}

/// Makes nothing for so long, and ends the other threads behind that.
pub fn rest<C: Clock>(clock: &C, signs: &Signs, nanos: Duration) -> Result<Share, GaveUp> {
    sleep(clock, nanos);
    signs.end();
    Ok(Share::none())
}
