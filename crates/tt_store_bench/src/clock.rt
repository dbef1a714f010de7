//! How long things take.
use crate::error::BenchError;
use std::rt::Clock;
use std::time::Instant;

/// The nanoseconds that have passed since a time.
pub(crate) fn nanoseconds_since(rt: &impl Clock, start: &Instant) -> Result<u64, BenchError> {
    let passed = start.elapsed(rt)?;
    Ok(u64::try_from(passed.as_nanos()).unwrap_or(u64::MAX))
}

/// The rate per second of a count of events in a time. It is 0 for less than a microsecond.
pub(crate) fn per_second(count: u64, nanoseconds: u64) -> u64 {
    let microseconds = nanoseconds / 1000;
    let millions = count.saturating_mul(1_000_000);
    millions.checked_div(microseconds).unwrap_or(0)
}
