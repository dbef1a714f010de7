//! The repair of a document, beside calls of workers.
ghost use Rattle.std.specs.Prelude.{◌≡◌, ◌+◌, ◌<◌, ◌^◌, length, map, IfOk, IfErr};
ghost use Rattle.tt_repair.specs.Repairing.{HasRepaired};
ghost use Rattle.tt_workload.specs.Options.{AreWithin};
ghost use Rattle.tt_workload.specs.Room.{AreAccepted};
ghost use Rattle.tt_workers.specs.Faults.{IsStoreFault};
ghost use Rattle.tt_workers.specs.Calls.{AllWork};

use crate::faults::fault_of_call;
use crate::run_context::RunContext;
use crate::threads::work_in_threads;
use crate::work::WorkerRun;
use std::sync::Wait;
use std::thread::{Threads, join};
use tt_db::Edit;
use tt_document::Call;
use tt_repair::{Repaired, repair};
use tt_store::{Gate, Naming, Worker};
use tt_values::Items;
use tt_workload::{Options, RunFault};

/// What the administrator has to do: a repair with these edits.
#[derive(Drop)]
pub(crate) struct RepairTask<L: Naming> {
    pub(crate) administrator: Worker<L>,
    pub(crate) edits: Items<Edit>,
}

/// The run of the administrator: the worker, and the repair that it has made.
#[derive(Drop)]
pub(crate) struct AdministratorRun<L: Naming> {
    pub(crate) worker: Worker<L>,
    pub(crate) repaired: Repaired,
}

/// Makes a repair in a thread, beside the workers, each of which makes its calls among these in a
/// thread of its own. All threads are joined.
pub(crate) fn repair_beside<
    L: Naming + Send + Sync,
    G: Gate + Copy + Drop + Send + Sync,
    R: Threads + Wait + Sync,
>(
    context: &RunContext<'_, '_, L, G, R>,
    task: RepairTask<L>,
    workers: Vec<Worker<L>>,
    meanwhile: &[Call],
    first: u64,
) -> Result<(AdministratorRun<L>, Vec<WorkerRun<L>>), RunFault>
    requires options { AreWithin context.now.options }
    requires accepted { AreAccepted L.tables meanwhile.now }
    requires few { first + length meanwhile.now < 2 ^ 64 }
    ensures repaired { IfOk result (λ r. HasRepaired L.tables L.limits task.edits
        task.administrator r.0.worker r.0.repaired) }
    ensures worked { IfOk result (λ r. AllWork L.limits first meanwhile.now workers.items
        (map (λ run. run.worker) r.1.items) (map (λ run. run.answers.items) r.1.items)) }
    ensures fault { IfErr result IsStoreFault }
{
    let (runs, administrator_run) = join(
        context.rt,
        || -> Result<Vec<WorkerRun<L>>, RunFault>
            requires accepted { AreAccepted L.tables meanwhile.now }
            requires few { first + length meanwhile.now < 2 ^ 64 }
        { work_in_threads(context, workers, meanwhile, first) },
        || administer(context, task),
    );
    let runs = runs?;
    let administrator_run = administrator_run?;
    Ok((administrator_run, runs))
}

/// Lets the administrator make the repair.
fn administer<L: Naming, G: Gate + Drop, R: Wait>(
    context: &RunContext<'_, '_, L, G, R>,
    task: RepairTask<L>,
) -> Result<AdministratorRun<L>, RunFault>
    requires options { AreWithin context.now.options }
    ensures repaired { IfOk result (λ r. HasRepaired L.tables L.limits task.edits
        task.administrator r.worker r.repaired) }
    ensures fault { IfErr result IsStoreFault }
{
    let RepairTask {
        administrator,
        edits,
    } = task;
    let mut worker = administrator;
    let Options { batch, rounds, .. } = context.options;
    match repair(context.rt, context.store, &mut worker, edits, batch, rounds) {
        Ok(repaired) => Ok(AdministratorRun { worker, repaired }),
        Err(fault) => Err(fault_of_call(context.alloc, fault.cause)),
    }
}
