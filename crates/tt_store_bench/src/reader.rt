//! A reader: a thread that reads one account after another until its time is over.
use crate::accounts::select;
use crate::clock::{nanoseconds_since, per_second};
use crate::error::BenchError;
use crate::plan::Plan;
use crate::results::Figures;
use std::alloc::Global;
use std::rt::Clock;
use std::time::Instant;
use tt_store::{Answer, Naming, Worker};
use tt_values::{Reply, Select};

/// The number of statements of a reader. It reads the clock after each pass over them.
const STATEMENTS: u32 = 4096;

/// The distance between the ids of two consecutive statements: a prime, so that ids are scattered.
const STRIDE: u32 = 7919;

/// Reads for as long as the plan says.
pub(crate) fn reads_of<L: Naming>(
    rt: &impl Clock,
    alloc: Global,
    worker: &mut Worker<L>,
    plan: Plan,
) -> Result<Figures, BenchError> {
    let statements = statements(alloc, worker.number(), plan.rows)?;
    let start = Instant::now(rt)?;
    let mut reads = 0u64;
    let mut time = 0;
    for _ in 0..u64::MAX {
        for statement in &statements {
            time = read_one(worker, statement, time)?;
        }
        reads = reads.saturating_add(u64::from(STATEMENTS));
        if nanoseconds_since(rt, &start)? >= plan.nanoseconds() {
            break;
        }
    }
    Ok(Figures::Reads(per_second(reads, nanoseconds_since(rt, &start)?)))
}

/// Selects of rows with scattered ids.
fn statements(alloc: Global, reader: u32, rows: u32) -> Result<Vec<Select>, BenchError> {
    let mut statements = Vec::new(alloc);
    let mut id = reader;
    for _ in 0..STATEMENTS {
        id = id.wrapping_add(STRIDE);
        statements.push(select(alloc, id.checked_rem(rows).unwrap_or(0))?)?;
    }
    Ok(statements)
}

/// Reads a row, and returns the time that it is of.
fn read_one<L: Naming>(
    worker: &mut Worker<L>,
    statement: &Select,
    time: u64,
) -> Result<u64, BenchError> {
    let Answer { time: seen, reply } = worker.read(statement)?;
    if seen < time {
        return Err(BenchError::Back);
    }
    if is_one_row(&reply) {
        Ok(seen)
    } else {
        Err(BenchError::Read)
    }
}

fn is_one_row(reply: &Reply) -> bool {
    match reply {
        Reply::Rows(rows) => rows.len() == 1,
        _ => false,
    }
}
