//! One call of a worker, on a store.
ghost use Rattle.std.specs.Prelude.{◌≡◌, ◌+◌, length, None, Some, IfOk, IfErr};
ghost use Rattle.tt_values.specs.Check.{select_fault};
ghost use Rattle.tt_db.specs.State.{after};
ghost use Rattle.tt_db.specs.Database.{right_answer, right_answer_at, right_preview_of, now_in, state_of};
ghost use Rattle.tt_generations.specs.TwoGenerations.{done_of};
ghost use Rattle.tt_document.specs.Document.{ask_fault};
ghost use Rattle.tt_store.specs.Workers.{Looks, AnswersRightly, database_at};
ghost use Rattle.tt_workload.specs.Records.{read_in, preview_in};
ghost use Rattle.tt_workers.specs.Faults.{IsStoreFault};
ghost use Rattle.tt_workers.specs.Calls.{IsMade, Makes, what_of_read, what_of_preview};

use crate::answered_call::AnsweredCall;
use crate::faults::{fault_of_call, fault_of_read};
use crate::run_context::RunContext;
use std::alloc::Global;
use std::sync::Wait;
use tt_db::ReadError;
use tt_document::{Ask, Call};
use tt_repair::{Record, What};
use tt_store::{Answer, Gate, Naming, Worker, Written};
use tt_values::{Action, Select};
use tt_workload::RunFault;

/// What is recorded of a call, and the length of the front at which this is right.
#[derive(Drop)]
pub(crate) struct Made {
    pub(crate) what: What,
    pub(crate) front: u64,
}

/// Makes a call of the worker that bears its number.
#[tactic(auto, using(crate::proofs::CallLemmas::makes_call))]
pub(crate) fn make_call<L: Naming, G: Gate + Drop, R: Wait>(
    context: &RunContext<'_, '_, L, G, R>,
    worker: &mut Worker<L>,
    number: u64,
    call: &Call,
) -> Result<AnsweredCall, RunFault>
    requires own { call.now.worker ≡ worker.old.number }
    requires accepted { ask_fault L.tables call.now.ask ≡ None }
    ensures made { IfOk result (λ a. Makes L.limits number call.now worker.old worker.new a) }
    ensures fault { IfErr result IsStoreFault }
{
    let Made { what, front } = make(context, worker, &call.ask)?;
    Ok(AnsweredCall {
        answer: Record {
            call: number,
            worker: call.worker,
            what,
        },
        front,
    })
}

/// Makes what a call asks for.
fn make<L: Naming, G: Gate + Drop, R: Wait>(
    context: &RunContext<'_, '_, L, G, R>,
    worker: &mut Worker<L>,
    ask: &Ask,
) -> Result<Made, RunFault>
    requires accepted { ask_fault L.tables ask.now ≡ None }
    ensures made { IfOk result (λ m. IsMade L.limits ask.now
        worker.old worker.new m.what m.front) }
    ensures fault { IfErr result IsStoreFault }
{
    match ask {
        Ask::Write(action) => write(context, worker, action),
        Ask::Read { select, at } => read(context.alloc, worker, select, *at),
        Ask::Preview(select) => preview(context.alloc, worker, select),
    }
}

/// Carries out an action.
#[tactic(auto, using(crate::proofs::CallLemmas::made_action))]
fn write<L: Naming, G: Gate + Drop, R: Wait>(
    context: &RunContext<'_, '_, L, G, R>,
    worker: &mut Worker<L>,
    action: &Action,
) -> Result<Made, RunFault>
    ensures made { IfOk result (λ m. IsMade L.limits (Ask.Write action.now)
        worker.old worker.new m.what m.front) }
    ensures fault { IfErr result IsStoreFault }
{
    let action = action.clone()?;
    match context.store.write(context.rt, worker, action) {
        Ok(
            Written {
                place,
                slot,
                replies,
            },
        ) => Ok(Made {
            what: What::Write { slot, replies },
            front: place - 1,
        }),
        Err(error) => Err(fault_of_call(context.alloc, error)),
    }
}

/// Makes a select: at a time, or now where none is given.
#[tactic(auto, using(crate::proofs::CallLemmas::made_read))]
fn read<L: Naming>(
    alloc: Global,
    worker: &mut Worker<L>,
    select: &Select,
    at: Option<u64>,
) -> Result<Made, RunFault>
    requires accepted { select_fault L.tables select.now ≡ None }
    ensures made { IfOk result (λ m. IsMade L.limits (Ask.Read select.now at)
        worker.old worker.new m.what m.front) }
    ensures fault { IfErr result IsStoreFault }
{
    let what = match at {
        None => read_now(alloc, worker, select)?,
        Some(time) => read_at(alloc, worker, select, time)?,
    };
    Ok(Made {
        what,
        front: worker.seen(),
    })
}

/// Reads rows as they are now.
#[tactic(auto, using(crate::proofs::CallLemmas::right_read))]
fn read_now<L: Naming>(
    alloc: Global,
    worker: &mut Worker<L>,
    select: &Select,
) -> Result<What, RunFault>
    requires accepted { select_fault L.tables select.now ≡ None }
    ensures looks { Looks worker.old worker.new }
    ensures answer { IfOk result (λ what. what
        ≡ read_in (after L.limits worker.new.seen) select.now None) }
    ensures fault { IfErr result IsStoreFault }
{
    let copy = select.clone()?;
    let answer = worker.read(select);
    what_of_read(alloc, copy, answer)
}

/// Reads rows as they were at a time, which may still be to come.
#[tactic(auto, using(crate::proofs::CallLemmas::right_read_at))]
fn read_at<L: Naming>(
    alloc: Global,
    worker: &mut Worker<L>,
    select: &Select,
    time: u64,
) -> Result<What, RunFault>
    requires accepted { select_fault L.tables select.now ≡ None }
    ensures looks { Looks worker.old worker.new }
    ensures answer { IfOk result (λ what. what
        ≡ read_in (after L.limits worker.new.seen) select.now (Some time)) }
    ensures fault { IfErr result IsStoreFault }
{
    let copy = select.clone()?;
    let answer = worker.read_at(select, time);
    what_of_read(alloc, copy, answer)
}

/// Reads rows as they are in the next generation, which may not be there.
fn preview<L: Naming>(
    alloc: Global,
    worker: &mut Worker<L>,
    select: &Select,
) -> Result<Made, RunFault>
    requires accepted { select_fault L.tables select.now ≡ None }
    ensures made { IfOk result (λ m. IsMade L.limits (Ask.Preview select.now)
        worker.old worker.new m.what m.front) }
    ensures fault { IfErr result IsStoreFault }
{
    let answer = worker.preview(select);
    let what = what_of_preview(alloc, answer)?;
    Ok(Made {
        what,
        front: worker.seen(),
    })
}

/// What is recorded of a read: rows, or the refusal of a time that is still to come.
fn what_of_read(
    alloc: Global,
    select: Select,
    answer: Result<Answer, ReadError>,
) -> Result<What, RunFault>
    ensures answer { IfOk result (λ what. what_of_read select answer ≡ Some what) }
    ensures none { IfErr result (λ e. what_of_read select answer ≡ None) }
    ensures fault { IfErr result IsStoreFault }
{
    match answer {
        Ok(Answer { time, reply }) => Ok(What::Read {
            select,
            time,
            reply,
        }),
        Err(ReadError::Later { now }) => Ok(What::Later { now }),
        Err(error) => Err(fault_of_read(alloc, error)),
    }
}

/// What is recorded of a preview: rows, or the refusal where no repair is under way.
fn what_of_preview(alloc: Global, answer: Result<Answer, ReadError>) -> Result<What, RunFault>
    ensures answer { IfOk result (λ what. what_of_preview answer ≡ Some what) }
    ensures none { IfErr result (λ e. what_of_preview answer ≡ None) }
    ensures fault { IfErr result IsStoreFault }
{
    match answer {
        Ok(Answer { time, reply }) => Ok(What::Preview { done: time, reply }),
        Err(ReadError::NotRepairing) => Ok(What::NotRepairing),
        Err(error) => Err(fault_of_read(alloc, error)),
    }
}
