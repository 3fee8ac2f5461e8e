// The time that the threads of a run take together.
use std::time::{Clock, Instant};

/// The nanoseconds since this instant.
pub fn since<C: Clock>(clock: &C, begun: Instant) -> u64 {
    match Instant::now(clock) {
        Ok(now) => u64::try_from(now.duration_since(begun).as_nanos()).unwrap_or(u64::MAX),
        Err(_) => 0,
    }
}

/// From the start of the first thread to the end of the last one, by when each began and ended.
pub fn whole(spans: &[(u64, u64)]) -> f64 {
    let mut first = u64::MAX;
    let mut last: u64 = 0;
    for (began, ended) in spans {
        first = first.min(*began);
        last = last.max(*ended);
    }
    f64::from(u32::try_from(last.saturating_sub(first)).unwrap_or(u32::MAX))
}
