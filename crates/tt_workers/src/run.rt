//! A whole run in threads.
ghost use Rattle.std.specs.Prelude.{◌≡◌, ◌+◌, ◌<◌, ◌≤◌, ◌^◌, [], length, map, Some, IfOk, IfErr};
ghost use Rattle.std.specs.Arc.{arc_value};
ghost use Rattle.tt_db.specs.Limits.{usual_limits};
ghost use Rattle.tt_store.specs.Published.{RuleIsMembership};
ghost use Rattle.tt_document.specs.Document.{IsValidDocument};
ghost use Rattle.tt_workload.specs.Options.{AreWithin};
ghost use Rattle.tt_workload.specs.Room.{AreAccepted};
ghost use Rattle.tt_store.specs.Opening.{new_workers};
ghost use Rattle.tt_store.specs.Workers.{Looks};
ghost use Rattle.tt_store.specs.Calls.{numbers_from};
ghost use Rattle.tt_records.specs.Changes.{changes_of};
ghost use Rattle.tt_db.specs.Database.{state_of};
ghost use Rattle.tt_workers.specs.Faults.{IsStoreFault};
ghost use Rattle.tt_workers.specs.Merging.{AreOf};
ghost use Rattle.tt_workers.specs.Running.{MadeCalls, MadeRepairIf, MadeAll};
ghost use Rattle.tt_workers.specs.Report.{IsReportOf};

use crate::administrator::{AdministratorRun, RepairTask, repair_beside};
use crate::closing::close;
use crate::faults::{fault_of_call, fault_of_open};
use crate::merging::{Records, merge, split};
use crate::report::Report;
use crate::run_context::RunContext;
use crate::threads::work_in_threads;
use std::alloc::Global;
use std::marker::Brand;
use std::sync::{Arc, Wait};
use std::thread::Threads;
use tt_db::{Db, Limits};
use tt_document::{Call, Document, Plan};
use tt_repair::{Repaired, changes};
use tt_store::{Gate, Naming, Opened, Store, Worker};
use tt_values::{Catalog, Shared};
use tt_workload::{Options, RunFault, edits_of_slots};

/// What a run has to do: a document, with these options and this gate.
#[derive(Drop)]
struct RunTask<'a, G: Gate + Drop> {
    document: &'a Document,
    options: Options,
    gate: G,
}

/// Runs a document in threads, on a store of its own: each worker makes its calls in a thread of
/// its own. If the document has a repair, an administrator, numbered after the last worker, makes
/// it: its beginning, its steps and its switch, and nothing else. Each call of a worker passes the
/// gate at `Point::Answered` when it has returned. All threads are joined, also where the store
/// refuses a call; then there is no report.
pub fn run_workers<R: Threads + Wait + Sync, G: Gate + Copy + Drop + Send + Sync>(
    rt: &R,
    alloc: Global,
    document: &Document,
    options: &Options,
    gate: G,
) -> Result<Report, RunFault>
    requires valid { IsValidDocument document.now }
    requires options { AreWithin options.now }
    ensures report { IfOk result (IsReportOf document.now) }
    ensures fault { IfErr result IsStoreFault }
{
    let catalog = document.catalog.clone()?;
    let opened = Opened::new(document.workers + 1);
    let task = RunTask {
        document,
        options: *options,
        gate,
    };
    run_named::<Brand, R, G>(rt, alloc, opened, catalog.into_arc(), &task)
}

/// Runs a document on the store of this name.
fn run_named<
    L: Naming + Send + Sync,
    R: Threads + Wait + Sync,
    G: Gate + Copy + Drop + Send + Sync,
>(
    rt: &R,
    alloc: Global,
    opened: Opened,
    catalog: Arc<Catalog>,
    task: &RunTask<'_, G>,
) -> Result<Report, RunFault>
    requires book { opened.front.book ≡ L.book }
    requires tables { arc_value catalog ≡ L.tables }
    requires limits { usual_limits ≡ L.limits }
    requires tied { RuleIsMembership L.holds L.book L.tables L.limits }
    requires name { opened.blank.name ≡ L.name }
    requires parts { opened.blank.parts ≡ L.parts }
    requires workers { opened.workers ≡ task.now.document.now.workers + 1 }
    requires same_tables { arc_value catalog ≡ task.now.document.now.catalog }
    requires valid { IsValidDocument task.now.document.now }
    requires options { AreWithin task.now.options }
    ensures report { IfOk result (IsReportOf task.now.document.now) }
    ensures fault { IfErr result IsStoreFault }
{
    match opened.named::<L, G, &R>(rt, alloc, catalog, Limits::usual(), task.gate) {
        Ok((store, workers)) => run_on(rt, alloc, store, workers, task),
        Err(error) => Err(fault_of_open(alloc, error)),
    }
}

/// Runs a document on a new store.
fn run_on<
    'r,
    L: Naming + Send + Sync,
    R: Threads + Wait + Sync,
    G: Gate + Copy + Drop + Send + Sync,
>(
    rt: &'r R,
    alloc: Global,
    store: Store<L, G, &'r R>,
    workers: Vec<Worker<L>>,
    task: &RunTask<'_, G>,
) -> Result<Report, RunFault>
    requires new { workers.items ≡ new_workers (task.now.document.now.workers + 1) }
    requires parts { task.now.document.now.workers + 1 ≡ L.parts }
    requires tables { task.now.document.now.catalog ≡ L.tables }
    requires limits { usual_limits ≡ L.limits }
    requires valid { IsValidDocument task.now.document.now }
    requires options { AreWithin task.now.options }
    ensures report { IfOk result (IsReportOf task.now.document.now) }
    ensures fault { IfErr result IsStoreFault }
{
    let mut records = Records::new(alloc);
    let context = RunContext {
        rt,
        alloc,
        store: &store,
        gate: task.gate,
        options: task.options,
    };
    let (workers, repaired) = make_all(&context, workers, task.document, &mut records)?;
    let db = close(rt, alloc, store, workers)?;
    report_of(alloc, records, repaired, db)
}

/// Makes the calls of a document, and its repair if it has one. Returns the workers, the
/// administrator last.
fn make_all<L: Naming + Send + Sync, R: Threads + Wait + Sync, G: Gate + Copy + Drop + Send + Sync>(
    context: &RunContext<'_, '_, L, G, R>,
    workers: Vec<Worker<L>>,
    document: &Document,
    records: &mut Records,
) -> Result<(Vec<Worker<L>>, Option<Repaired>), RunFault>
    requires some { length workers.items ≡ document.now.workers + 1 }
    requires tables { document.now.catalog ≡ L.tables }
    requires valid { IsValidDocument document.now }
    requires options { AreWithin context.now.options }
    requires none { records.old.records.items ≡ [] }
    ensures made { IfOk result (λ r. MadeAll L.tables L.limits document.now
        workers.items records.old r.0.items records.new r.1) }
    ensures fault { IfErr result IsStoreFault }
{
    let mut workers = workers;
    let Some(administrator) = workers.pop() else {
        unreachable!()
    };
    let calls = document.calls.as_slice();
    let mut workers = make_calls(context, workers, calls, records)?;
    match &document.repair {
        Some(plan) => make_repair(context, administrator, workers, plan, records),
        None => {
            workers.push(administrator)?;
            Ok((workers, None))
        }
    }
}

/// Lets the workers make the calls of a document, and pushes the records.
fn make_calls<
    L: Naming + Send + Sync,
    R: Threads + Wait + Sync,
    G: Gate + Copy + Drop + Send + Sync,
>(
    context: &RunContext<'_, '_, L, G, R>,
    workers: Vec<Worker<L>>,
    calls: &[Call],
    records: &mut Records,
) -> Result<Vec<Worker<L>>, RunFault>
    requires accepted { AreAccepted L.tables calls.now }
    requires few { length calls.now ≤ 100000 }
    requires of { AreOf (length workers.items) calls.now }
    ensures made { IfOk result (λ news. MadeCalls L.limits 1 calls.now
        workers.items news.items records.old records.new) }
    ensures fault { IfErr result IsStoreFault }
{
    let runs = work_in_threads(context, workers, calls, 1)?;
    let (workers, queues) = split(context.alloc, runs)?;
    merge(records, calls, queues)?;
    Ok(workers)
}

/// Lets the administrator make the repair of a document beside the workers' calls of `meanwhile`,
/// and pushes the records of these. Returns the workers, the administrator last.
fn make_repair<
    L: Naming + Send + Sync,
    R: Threads + Wait + Sync,
    G: Gate + Copy + Drop + Send + Sync,
>(
    context: &RunContext<'_, '_, L, G, R>,
    administrator: Worker<L>,
    workers: Vec<Worker<L>>,
    plan: &Plan,
    records: &mut Records,
) -> Result<(Vec<Worker<L>>, Option<Repaired>), RunFault>
    requires accepted { AreAccepted L.tables plan.now.meanwhile }
    requires few { length plan.now.meanwhile ≤ 100000 }
    requires few_records { length records.old.records.items ≤ 100000 }
    requires of { AreOf (length workers.items) plan.now.meanwhile }
    requires options { AreWithin context.now.options }
    ensures made { IfOk result (λ r. MadeRepairIf L.tables L.limits (Some plan.now)
        administrator workers.items records.old r.0.items records.new r.1) }
    ensures fault { IfErr result IsStoreFault }
{
    let alloc = context.alloc;
    let administrator = refresh(context, administrator)?;
    let edits = edits_of_slots(alloc, &records.records, plan.edits.as_slice())?;
    let meanwhile = plan.meanwhile.as_slice();
    let first = records.records.len() as u64 + 1;
    let task = RepairTask {
        administrator,
        edits,
    };
    let (administrator_run, runs) = repair_beside(context, task, workers, meanwhile, first)?;
    let (mut workers, queues) = split(alloc, runs)?;
    merge(records, meanwhile, queues)?;
    let AdministratorRun { worker, repaired } = administrator_run;
    workers.push(worker)?;
    Ok((workers, Some(repaired)))
}

/// Brings the administrator up to date: it has then seen all that was published.
fn refresh<L: Naming, G: Gate + Drop, R: Wait>(
    context: &RunContext<'_, '_, L, G, R>,
    administrator: Worker<L>,
) -> Result<Worker<L>, RunFault>
    ensures looks { IfOk result (Looks administrator) }
    ensures fault { IfErr result IsStoreFault }
{
    let mut worker = administrator;
    match context.store.refresh(context.rt, &mut worker) {
        Ok(_) => Ok(worker),
        Err(error) => Err(fault_of_call(context.alloc, error)),
    }
}

/// The report of these records and this database.
fn report_of(
    alloc: Global,
    records: Records,
    repaired: Option<Repaired>,
    db: Shared<Db>,
) -> Result<Report, RunFault>
    requires by_call { map (λ r. r.call) records.records.items
        ≡ numbers_from 1 (length records.records.items) }
    ensures records { IfOk result (λ report. report.records.items ≡ records.records.items) }
    ensures fronts { IfOk result (λ report. report.fronts.items ≡ records.fronts.items) }
    ensures repaired { IfOk result (λ report. report.repaired ≡ repaired) }
    ensures db { IfOk result (λ report. report.db ≡ db) }
    ensures changes { IfOk result (λ report. report.changes.items
        ≡ changes_of db.catalog (state_of db) records.records.items) }
    ensures fault { IfErr result (λ e. e ≡ RunFault.Memory) }
{
    let Records { records, fronts } = records;
    let changes = changes(alloc, db.get(), &records)?;
    Ok(Report {
        records,
        fronts,
        repaired,
        changes,
        db,
    })
}
