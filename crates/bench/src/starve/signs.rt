// By what threads that are timed together begin and end.
use std::sync::atomic::{AtomicBool, AtomicU32, Ordering};
use std::thread::yield_now;

// A thread that waits for others looks so often at most: where they could not be made they run behind it.
const LOOKS: u32 = 1_000_000;

/// How many threads have begun, and whether they are to end.
#[derive(Drop)]
pub struct Signs {
    begun: AtomicU32,
    over: AtomicBool,
}

impl Signs {
    /// None has begun.
    pub fn new() -> Signs {
        Signs {
            begun: AtomicU32::new(0),
            over: AtomicBool::new(false),
        }
    }

    /// One more has begun.
    pub fn begin(&self) {
        let _before = self.begun.fetch_add(1, Ordering::SeqCst);
    }

    /// Waits until so many have begun.
    pub fn await_all(&self, count: u32) {
        for _ in 0..LOOKS {
            if self.begun.load(Ordering::SeqCst) >= count {
                return;
            }
            yield_now();
        }
    }

    /// All are to end.
    pub fn end(&self) {
        self.over.store(true, Ordering::SeqCst);
    }

    /// Whether they are to end.
    pub fn is_over(&self) -> bool {
        self.over.load(Ordering::SeqCst)
    }
}
