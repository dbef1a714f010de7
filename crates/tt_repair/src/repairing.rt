//! A repair as one call.
ghost use Rattle.std.specs.Prelude.{◌≡◌, ◌≤◌, IfOk, IfErr};
ghost use Rattle.tt_db.specs.State.{after, slots_left};
ghost use Rattle.tt_repair.specs.Growth.{MadeSteps, MadeAllSteps, StoppedStepping, StoppedEarly, step_events};
ghost use Rattle.tt_repair.specs.Repairing.{HasRepaired, HasFailed, is_still_open};

use crate::repair_fault::{Phase, RepairFault};
use crate::repaired::Repaired;
use std::sync::Wait;
use tt_db::{DbError, Edit};
use tt_store::{Finished, Gate, Naming, Store, StoreError, Worker};
use tt_values::Items;

/// Makes a repair with these edits of slots: it begins the repair, makes steps for the slots that
/// are there by then, at most `batch` in one publish, goes at most `rounds` rounds over the slots
/// that were written meanwhile, and switches to the next generation. It never aborts a repair that
/// it has begun: where a call is refused, the repair may stay open.
#[tactic(auto, using(crate::proofs::RepairLemmas::failed_at_begin, crate::proofs::RepairLemmas::failed_in_steps, crate::proofs::RepairLemmas::failed_in_catch_up, crate::proofs::RepairLemmas::failed_in_finish, crate::proofs::RepairLemmas::has_repaired))]
pub fn repair<L: Naming, G: Gate + Drop, R: Wait + Drop>(
    rt: &impl Wait,
    store: &Store<L, G, R>,
    worker: &mut Worker<L>,
    edits: Items<Edit>,
    batch: u32,
    rounds: u32,
) -> Result<Repaired, RepairFault>
    requires batch { (1 ≤ batch) × (batch ≤ 10000) }
    requires rounds { rounds ≤ 1000 }
    ensures repaired { IfOk result (λ r.
        HasRepaired L.tables L.limits edits worker.old worker.new r) }
    ensures failed { IfErr result (λ fault.
        HasFailed L.tables L.limits edits batch worker.old worker.new fault) }
{
    match store.begin(rt, worker, edits) {
        Ok(_) => {}
        Err(cause) => return Err(fault_in(Phase::Begin, cause)),
    }
    match make_steps(rt, store, worker, batch) {
        Ok(()) => {}
        Err(cause) => return Err(fault_in(Phase::Steps, cause)),
    }
    match catch_up(rt, store, worker, batch, rounds) {
        Ok(()) => {}
        Err(cause) => return Err(fault_in(Phase::CatchUp, cause)),
    }
    match store.finish(rt, worker) {
        Ok(finished) => Ok(repaired(finished)),
        Err(cause) => Err(fault_in(Phase::Finish, cause)),
    }
}

/// Makes as many publishes of steps as the slots need that are left at the start.
#[tactic(auto, using(crate::proofs::GrowthLemmas::no_publishes))]
fn make_steps<L: Naming, G: Gate + Drop, R: Wait + Drop>(
    rt: &impl Wait,
    store: &Store<L, G, R>,
    worker: &mut Worker<L>,
    batch: u32,
) -> Result<(), StoreError>
    requires { 1 ≤ batch }
    ensures made { IfOk result (λ done. MadeAllSteps L.limits worker.old worker.new) }
    ensures stopped { IfErr result (λ cause. StoppedEarly L.tables L.limits
        (step_events batch) worker.old worker.new cause) }
{
    let publishes = slots_left(worker).div_ceil(u64::from(batch));
    for _ in 0..publishes {
        match store.step(rt, worker, batch) {
            Ok(_) => {}
            Err(cause) => return Err(cause),
        }
    }
    Ok(())
}

/// Makes the steps that are left, in at most `rounds` rounds, since others write meanwhile.
#[tactic(auto, using(crate::proofs::GrowthLemmas::made_none, crate::proofs::GrowthLemmas::made_then_all))]
fn catch_up<L: Naming, G: Gate + Drop, R: Wait + Drop>(
    rt: &impl Wait,
    store: &Store<L, G, R>,
    worker: &mut Worker<L>,
    batch: u32,
    rounds: u32,
) -> Result<(), StoreError>
    requires { 1 ≤ batch }
    ensures made { IfOk result (λ done. MadeSteps L.limits worker.old worker.new) }
    ensures stopped { IfErr result (λ cause. StoppedStepping L.tables L.limits
        (step_events batch) worker.old worker.new cause) }
{
    for _ in 0..rounds {
        if slots_left(worker) == 0 {
            break;
        }
        match make_steps(rt, store, worker, batch) {
            Ok(()) => {}
            Err(cause) => return Err(cause),
        }
    }
    Ok(())
}

/// How many slots the repair has left, in the last state that the worker has seen.
#[tactic(auto, using(crate::proofs::RepairLemmas::left_by_progress, crate::proofs::RepairLemmas::none_left_without_progress))]
fn slots_left<L: Naming>(worker: &Worker<L>) -> u64
    ensures { result ≡ slots_left (after L.limits worker.now.seen) }
{
    match worker.progress() {
        Some(progress) => progress.left,
        None => 0,
    }
}

/// What a repair returns, by what its last call has returned.
fn repaired(finished: Finished) -> Repaired
    ensures generation { result.generation ≡ finished.generation }
    ensures place { result.place ≡ finished.place }
    ensures slots { result.slots ≡ finished.slots }
    ensures rerun { result.rerun ≡ finished.rerun }
{
    Repaired {
        generation: finished.generation,
        place: finished.place,
        slots: finished.slots,
        rerun: finished.rerun,
    }
}

/// The fault where a call of this phase is refused.
fn fault_in(phase: Phase, cause: StoreError) -> RepairFault
    ensures { result
        ≡ record { phase = phase; still_open = is_still_open phase cause; cause = cause } }
{
    let still_open = match (phase, cause) {
        (Phase::Begin, _) => false,
        (_, StoreError::Db(DbError::NotRepairing)) => false,
        _ => true,
    };
    RepairFault {
        phase,
        still_open,
        cause,
    }
}
