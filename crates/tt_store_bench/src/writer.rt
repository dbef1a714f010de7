//! The writer: a thread that writes without pause until its time is over.
use crate::accounts::pay;
use crate::clock::{nanoseconds_since, per_second};
use crate::error::BenchError;
use crate::plan::Plan;
use crate::results::Figures;
use std::alloc::Global;
use std::rt::Clock;
use std::sync::Wait;
use std::time::Instant;
use tt_store::{Naming, NoGate, Store, Worker};

/// The distance between the ids of two consecutive writes: a prime, so that ids are scattered.
const STRIDE: u32 = 15_485_863;

/// The largest number of writes; a store takes no more than a million.
const MOST: u32 = 900_000;

/// Writes for as long as the plan says.
pub(crate) fn writes_of<L: Naming, R: Wait + Clock>(
    rt: &R,
    alloc: Global,
    store: &Store<L, NoGate, &R>,
    worker: &mut Worker<L>,
    plan: Plan,
) -> Result<Figures, BenchError> {
    let start = Instant::now(rt)?;
    let mut each = Vec::new(alloc);
    let mut id = 0u32;
    for _ in 0..MOST {
        id = id.wrapping_add(STRIDE);
        let account = id.checked_rem(plan.rows).unwrap_or(0);
        each.push(write_one(rt, alloc, store, worker, account)?)?;
        if nanoseconds_since(rt, &start)? >= plan.nanoseconds() {
            break;
        }
    }
    let rate = per_second(each.len() as u64, nanoseconds_since(rt, &start)?);
    Ok(Figures::Writes {
        rate,
        median: median(each),
    })
}

/// Makes one write, and returns its time in nanoseconds.
fn write_one<L: Naming, R: Wait + Clock>(
    rt: &R,
    alloc: Global,
    store: &Store<L, NoGate, &R>,
    worker: &mut Worker<L>,
    account: u32,
) -> Result<u64, BenchError> {
    let action = pay(alloc, account)?;
    let start = Instant::now(rt)?;
    store.write(rt, worker, action)?;
    nanoseconds_since(rt, &start)
}

fn median(mut each: Vec<u64>) -> u64 {
    each.sort_unstable();
    each.get(each.len() / 2).copied().unwrap_or(0)
}
