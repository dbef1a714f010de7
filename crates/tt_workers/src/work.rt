//! The calls of one worker, one after another.
ghost use Rattle.std.specs.Prelude.{◌≡◌, ◌+◌, ◌<◌, ◌≤◌, ◌^◌, length, None, OnOk, IfOk, IfErr};
ghost use Rattle.tt_document.specs.Document.{ask_fault};
ghost use Rattle.tt_workload.specs.Room.{AreAccepted};
ghost use Rattle.tt_workers.specs.Faults.{IsStoreFault};
ghost use Rattle.tt_workers.specs.Calls.{MakesIfOwn, Works};

use crate::answered_call::AnsweredCall;
use crate::answering::make_call;
use crate::run_context::RunContext;
use std::collections::VecDeque;
use std::sync::Wait;
use tt_document::Call;
use tt_store::{Gate, Naming, Point, Worker};
use tt_workload::RunFault;

/// The run of one worker: the worker, and its answers in the order of its calls.
#[derive(Drop)]
pub(crate) struct WorkerRun<L: Naming> {
    pub(crate) worker: Worker<L>,
    pub(crate) answers: VecDeque<AnsweredCall>,
}

/// Makes those of these calls that are the worker's, in order. They are numbered from `first` on.
pub(crate) fn work<L: Naming, G: Gate + Copy + Drop, R: Wait>(
    context: &RunContext<'_, '_, L, G, R>,
    worker: Worker<L>,
    calls: &[Call],
    first: u64,
) -> Result<WorkerRun<L>, RunFault>
    requires accepted { AreAccepted L.tables calls.now }
    requires few { first + length calls.now < 2 ^ 64 }
    ensures worked { IfOk result (λ run. Works L.limits first calls.now
        worker run.worker run.answers.items) }
    ensures fault { IfErr result IsStoreFault }
{
    let answers = VecDeque::new(context.alloc);
    let mut run = WorkerRun { worker, answers };
    let mut number = first;
    for call in calls {
        match make_own(context, &mut run, number, call) {
            Ok(()) => number += 1,
            Err(fault) => return Err(fault),
        }
    }
    Ok(run)
}

/// Makes a call if it is the worker's, keeps its answer, and passes the gate.
fn make_own<L: Naming, G: Gate + Copy + Drop, R: Wait>(
    context: &RunContext<'_, '_, L, G, R>,
    run: &mut WorkerRun<L>,
    number: u64,
    call: &Call,
) -> Result<(), RunFault>
    requires accepted { ask_fault L.tables call.now.ask ≡ None }
    ensures made { OnOk result (MakesIfOwn L.limits number call.now
        run.old.worker run.new.worker run.old.answers.items run.new.answers.items) }
    ensures fault { IfErr result IsStoreFault }
{
    if call.worker != run.worker.number() {
        return Ok(());
    }
    let answered = make_call(context, &mut run.worker, number, call)?;
    context.gate.at(call.worker, Point::Answered);
    run.answers.push_back(answered)?;
    Ok(())
}
