//! The measurement: the store, its workers in threads of their own, and what they have counted.
ghost use Rattle.std.specs.Prelude.{◌≡◌};
ghost use Rattle.std.specs.Arc.{arc_value};
ghost use Rattle.tt_db.specs.Limits.{usual_limits};
ghost use Rattle.tt_store.specs.Published.{RuleIsMembership};

use crate::accounts::open_account;
use crate::error::BenchError;
use crate::plan::Plan;
use crate::reader::reads_of;
use crate::results::{Figures, Results};
use crate::writer::writes_of;
use std::alloc::{AllocError, Global};
use std::rt::Clock;
use std::sync::{Arc, Wait};
use std::thread::{Threads, map_vec};
use tt_db::Limits;
use tt_store::{Naming, NoGate, Opened, Store, Worker};
use tt_values::Catalog;

/// Opens a store, fills its table, and measures it.
pub(crate) fn measure<L: Naming + Send + Sync, R: Threads + Wait + Clock + Sync>(
    rt: &R,
    alloc: Global,
    opened: Opened,
    catalog: Arc<Catalog>,
    plan: Plan,
) -> Result<Results, BenchError>
    requires book { opened.front.book ≡ L.book }
    requires tables { arc_value catalog ≡ L.tables }
    requires limits { usual_limits ≡ L.limits }
    requires tied { RuleIsMembership L.holds L.book L.tables L.limits }
    requires name { opened.blank.name ≡ L.name }
    requires parts { opened.blank.parts ≡ L.parts }
{
    let limits = Limits::usual();
    let (store, mut workers) = opened.named::<L, NoGate, &R>(rt, alloc, catalog, limits, NoGate)?;
    fill(rt, alloc, &store, workers.last_mut(), plan.rows)?;
    let figures = in_threads(rt, alloc, &store, &plan, workers)?;
    drop(store);
    results_of(alloc, figures)
}

/// Opens the accounts 0 to `rows` - 1.
fn fill<L: Naming, R: Wait>(
    rt: &R,
    alloc: Global,
    store: &Store<L, NoGate, &R>,
    writer: Option<&mut Worker<L>>,
    rows: u32,
) -> Result<(), BenchError> {
    let Some(writer) = writer else {
        return Err(BenchError::Open);
    };
    for id in 0..rows {
        store.write(rt, writer, open_account(alloc, id)?)?;
    }
    Ok(())
}

/// Lets all workers work at the same time, each in a thread.
fn in_threads<L: Naming + Send + Sync, R: Threads + Wait + Clock + Sync>(
    rt: &R,
    alloc: Global,
    store: &Store<L, NoGate, &R>,
    plan: &Plan,
    workers: Vec<Worker<L>>,
) -> Result<Vec<Result<Figures, BenchError>>, AllocError> {
    map_vec(
        rt,
        workers,
        &|worker| figures_of(rt, alloc, store, plan, worker),
    )
}

/// What a worker counts: the one whose number is above that of all readers writes.
fn figures_of<L: Naming, R: Wait + Clock>(
    rt: &R,
    alloc: Global,
    store: &Store<L, NoGate, &R>,
    plan: &Plan,
    mut worker: Worker<L>,
) -> Result<Figures, BenchError> {
    if worker.number() > plan.readers {
        writes_of(rt, alloc, store, &mut worker, *plan)
    } else {
        reads_of(rt, alloc, &mut worker, *plan)
    }
}

/// The results from the figures of all workers.
fn results_of(
    alloc: Global,
    figures: Vec<Result<Figures, BenchError>>,
) -> Result<Results, BenchError> {
    let mut results = Results {
        reads: Vec::new(alloc),
        writes: 0,
        median: 0,
    };
    for figures in figures {
        match figures? {
            Figures::Reads(reads) => results.reads.push(reads)?,
            Figures::Writes { rate, median } => {
                results.writes = rate;
                results.median = median;
            }
        }
    }
    Ok(results)
}
