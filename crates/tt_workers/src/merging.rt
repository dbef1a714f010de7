//! The answers of all workers, by rising call.
ghost use Rattle.std.specs.Prelude.{◌≡◌, ◌-◌, ◌≤◌, ◌++◌, [], length, map, slice_get, IfOk, OnOk};
ghost use Rattle.std.specs.Option.{option_to_list};
ghost use Rattle.tt_workers.specs.Merging.{AreOf, first_of, without_first, merged_answers};

use crate::answered_call::AnsweredCall;
use crate::work::WorkerRun;
use std::alloc::{AllocError, Global};
use std::collections::VecDeque;
use tt_document::Call;
use tt_repair::Record;
use tt_store::{Naming, Worker};

/// The records of calls, by rising call, and the lengths of the fronts at which they are right.
#[derive(Drop)]
pub(crate) struct Records {
    pub(crate) records: Vec<Record>,
    pub(crate) fronts: Vec<u64>,
}

impl Records {
    /// No records.
    pub(crate) fn new(alloc: Global) -> Records
        ensures records { result.records.items ≡ [] }
        ensures fronts { result.fronts.items ≡ [] }
    {
        Records {
            records: Vec::new(alloc),
            fronts: Vec::new(alloc),
        }
    }
}

/// The workers of runs, and their answers.
pub(crate) fn split<L: Naming>(
    alloc: Global,
    runs: Vec<WorkerRun<L>>,
) -> Result<(Vec<Worker<L>>, Vec<VecDeque<AnsweredCall>>), AllocError>
    ensures workers { IfOk result (λ r. r.0.items ≡ map (λ run. run.worker) runs.items) }
    ensures answers { IfOk result (λ r. map (λ queue. queue.items) r.1.items
        ≡ map (λ run. run.answers.items) runs.items) }
{
    let mut workers = Vec::with_capacity(alloc, runs.len() + 1)?;
    let mut queues = Vec::with_capacity(alloc, runs.len())?;
    for WorkerRun { worker, answers } in runs {
        workers.push_reserved(worker);
        queues.push_reserved(answers);
    }
    Ok((workers, queues))
}

/// Pushes the answers of workers to these calls, in the order of the calls.
pub(crate) fn merge(
    records: &mut Records,
    calls: &[Call],
    queues: Vec<VecDeque<AnsweredCall>>,
) -> Result<(), AllocError>
    requires of { AreOf (length queues.items) calls.now }
    ensures records { OnOk result (records.new.records.items ≡ records.old.records.items
        ++ map (λ a. a.answer)
        (merged_answers calls.now (map (λ queue. queue.items) queues.items))) }
    ensures fronts { OnOk result (records.new.fronts.items ≡ records.old.fronts.items
        ++ map (λ a. a.front)
        (merged_answers calls.now (map (λ queue. queue.items) queues.items))) }
{
    let mut queues = queues;
    for call in calls {
        let next = next_of(&mut queues, call.worker);
        match keep(records, next) {
            Ok(()) => {}
            Err(error) => return Err(error),
        }
    }
    Ok(())
}

/// Pushes an answer, if there is one.
fn keep(records: &mut Records, next: Option<AnsweredCall>) -> Result<(), AllocError>
    ensures records { OnOk result (records.new.records.items
        ≡ records.old.records.items ++ map (λ a. a.answer) (option_to_list next)) }
    ensures fronts { OnOk result (records.new.fronts.items
        ≡ records.old.fronts.items ++ map (λ a. a.front) (option_to_list next)) }
{
    if let Some(AnsweredCall { answer, front }) = next {
        records.records.push(answer)?;
        records.fronts.push(front)?;
    }
    Ok(())
}

/// Takes the first answer from the queue of a worker.
fn next_of(queues: &mut Vec<VecDeque<AnsweredCall>>, worker: u32) -> Option<AnsweredCall>
    requires some { 1 ≤ worker }
    requires within { worker ≤ length queues.old.items }
    ensures first { option_to_list result
        ≡ first_of (slice_get (map (λ queue. queue.items) queues.old.items) (worker - 1)) }
    ensures rest { map (λ queue. queue.items) queues.new.items
        ≡ without_first (map (λ queue. queue.items) queues.old.items) worker }
{
    queues[worker as usize - 1].pop_front()
}
