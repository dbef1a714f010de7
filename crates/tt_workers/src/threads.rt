//! The calls of all workers, each in a thread of its own.
ghost use Rattle.std.specs.Prelude.{◌≡◌, ◌+◌, ◌<◌, ◌≤◌, ◌^◌, [], length, map, vec_len, vec_capacity, Some, Ok, IfOk, IfErr, All};
ghost use Rattle.tt_workload.specs.Room.{AreAccepted};
ghost use Rattle.tt_workers.specs.Faults.{IsStoreFault, first_fault};
ghost use Rattle.tt_workers.specs.Calls.{Works, EachEnds, EachFails, AllWork};

use crate::run_context::RunContext;
use crate::work::{WorkerRun, work};
use std::alloc::AllocError;
use std::sync::Wait;
use std::thread::{Threads, map_vec};
use tt_document::Call;
use tt_store::{Gate, Naming, Worker};
use tt_workload::RunFault;

/// Lets each worker make its calls among these in a thread of its own. They are numbered from
/// `first` on. All threads are joined.
pub(crate) fn work_in_threads<
    L: Naming + Send + Sync,
    G: Gate + Copy + Drop + Send + Sync,
    R: Threads + Wait + Sync,
>(
    context: &RunContext<'_, '_, L, G, R>,
    workers: Vec<Worker<L>>,
    calls: &[Call],
    first: u64,
) -> Result<Vec<WorkerRun<L>>, RunFault>
    requires accepted { AreAccepted L.tables calls.now }
    requires few { first + length calls.now < 2 ^ 64 }
    ensures worked { IfOk result (λ runs. AllWork L.limits first calls.now workers.items
        (map (λ run. run.worker) runs.items) (map (λ run. run.answers.items) runs.items)) }
    ensures fault { IfErr result IsStoreFault }
{
    let room = Vec::with_capacity(context.alloc, workers.len())?;
    let results = in_threads(context, workers, calls, first)?;
    let runs = collect_runs(room, results)?;
    Ok(runs)
}

/// The result of each worker's thread.
fn in_threads<
    L: Naming + Send + Sync,
    G: Gate + Copy + Drop + Send + Sync,
    R: Threads + Wait + Sync,
>(
    context: &RunContext<'_, '_, L, G, R>,
    workers: Vec<Worker<L>>,
    calls: &[Call],
    first: u64,
) -> Result<Vec<Result<WorkerRun<L>, RunFault>>, AllocError>
    requires accepted { AreAccepted L.tables calls.now }
    requires few { first + length calls.now < 2 ^ 64 }
    ensures count { IfOk result (λ results. vec_len results ≡ vec_len workers) }
    ensures worked { IfOk result (λ results. EachEnds (λ old run.
        Works L.limits first calls.now old run.worker run.answers.items)
        workers.items results.items) }
    ensures faults { IfOk result (λ results. EachFails (vec_len workers) results.items) }
{
    let results = map_vec(
        context.rt,
        workers,
        &|worker| work(context, worker, calls, first),
    )?;
    Ok(results)
}

/// Collects the runs into an empty list that has room for them, or returns the first fault.
fn collect_runs<L: Naming>(
    runs: Vec<WorkerRun<L>>,
    results: Vec<Result<WorkerRun<L>, RunFault>>,
) -> Result<Vec<WorkerRun<L>>, RunFault>
    requires empty { runs.items ≡ [] }
    requires room { vec_len results ≤ vec_capacity runs }
    requires faults { All (λ r. IfErr r IsStoreFault) results.items }
    ensures runs { IfOk result (λ all. map Ok all.items ≡ results.items) }
    ensures first { IfErr result (λ e. first_fault results.items ≡ Some e) }
    ensures fault { IfErr result IsStoreFault }
{
    let mut runs = runs;
    for result in results {
        match result {
            Ok(run) => runs.push_reserved(run),
            Err(fault) => return Err(fault),
        }
    }
    Ok(runs)
}
