// What a thread does while it waits.
ghost use Rattle.std.specs.Prelude.{◌≡◌, Bool, true, false};

use std::thread::{sleep, yield_now};
use std::time::{Clock, Duration};

// One that yields gives way twice as often for each attempt that was lost, and at most 64 times.
const MOST_DOUBLINGS: u32 = 6;

// One that sleeps yields so often before that, in each transaction.
const FIRST_YIELDS: u32 = 8;

// So many attempts are lost before it sleeps behind one.
const FIRST_LOST: u32 = 3;

// How many microseconds it sleeps at first, and then twice as long each time.
const FIRST_NAP: u32 = 50;

// And at most.
const MOST_NAP: u32 = 1_000;

/// What a thread does between two looks of a wait, behind an attempt that was lost, and while it lets another thread go
/// first. Nothing is promised of how long that takes, but that each call returns; and nothing follows from a rest but the
/// next look.
pub trait Rest {
    /// It may end a wait before the looks of its thread are used up.
    ghost tires: { Bool };

    /// A transaction begins.
    fn reset(&mut self);

    /// Rests before a look.
    fn rest(&mut self);

    /// Whether the wait is to end behind this look, if that has told nothing.
    fn is_tired(&self) -> bool
        ensures { tires ≡ false → result ≡ false };

    /// Rests while another thread is to go first, and answers for how many yields that counts.
    fn let_first(&mut self) -> u32;

    /// Rests behind so many attempts that were lost in a row.
    fn back_off(&mut self, lost: u32);
}

/// Gives way at each look, and keeps a processor as far as no other program wants it.
#[derive(Clone, Copy, Debug)]
pub struct Yields;

impl Rest for Yields {
    ghost tires = { false };

    #[inline(always)]
    fn reset(&mut self) {}

    #[inline(always)]
    fn rest(&mut self) {
        yield_now();
    }

    #[inline(always)]
    fn is_tired(&self) -> bool {
        false
    }

    fn let_first(&mut self) -> u32 {
        yield_now();
        1
    }

    fn back_off(&mut self, lost: u32) {
        give_way(1 << lost.min(MOST_DOUBLINGS));
    }
}

/// Gives way 8 times, and then sleeps by a clock: 50 microseconds at first, twice as long each time, and a millisecond at
/// most. Where it was told a patience, and a transaction has waited for so long, whatever has ended its waits, it rests no
/// more, and the next look that tells nothing ends the transaction.
#[derive(Drop)]
pub struct Naps<'a, C: Clock> {
    clock: &'a C,
    patience: Option<Duration>,
    // What the clock told before the first look of the transaction.
    began: Option<Duration>,
    // How often it has given way in this transaction.
    yields: u32,
    // How many microseconds it sleeps next.
    nap: u32,
}

impl<'a, C: Clock> Naps<'a, C> {
    /// It waits as long as its thread has looks: with 1,048,576 of them, some 18 minutes.
    pub fn new(clock: &'a C) -> Naps<'a, C> {
        Naps {
            clock,
            patience: None,
            began: None,
            yields: 0,
            nap: FIRST_NAP,
        }
    }

    /// No transaction waits for longer, but for the last look.
    pub fn with_patience(self, patience: Duration) -> Naps<'a, C> {
        Naps {
            patience: Some(patience),
            ..self
        }
    }

    // What the clock tells. For one that cannot be read no time passes.
    fn now(&self) -> Duration {
        self.clock.monotonic().unwrap_or(Duration::ZERO)
    }

    // Yields or sleeps, and answers for how many yields that counts: for one, or one for each microsecond.
    fn doze(&mut self) -> u32 {
        if self.yields < FIRST_YIELDS {
            self.yields += 1;
            yield_now();
            return 1;
        }
        let nap = self.nap;
        self.sleep(nap);
        self.nap = nap.saturating_mul(2).min(MOST_NAP);
        nap
    }

    fn sleep(&self, micros: u32) {
        sleep(self.clock, Duration::from_micros(u64::from(micros)));
    }
}

impl<'a, C: Clock> Rest for Naps<'a, C> {
    ghost tires = { true };

    fn reset(&mut self) {
        self.began = None;
        self.yields = 0;
        self.nap = FIRST_NAP;
    }

    fn rest(&mut self) {
        if self.patience.is_some() && self.began.is_none() {
            self.began = Some(self.now());
        }
        if !self.is_tired() {
            let _worth = self.doze();
        }
    }

    fn is_tired(&self) -> bool {
        match (self.patience, self.began) {
            (Some(patience), Some(began)) => self.now().saturating_sub(began) >= patience,
            _ => false,
        }
    }

    fn let_first(&mut self) -> u32 {
        self.doze()
    }

    fn back_off(&mut self, lost: u32) {
        if lost <= FIRST_LOST {
            give_way(1 << lost);
            return;
        }
        let doublings = (lost - FIRST_LOST - 1).min(MOST_DOUBLINGS);
        self.sleep((FIRST_NAP << doublings).min(MOST_NAP));
    }
}

// Lets other threads run, so many times.
fn give_way(yields: u32) {
    for _yield in 0..yields {
        yield_now();
    }
}
