//! A repair as one call.
use super::looks::{Looks, looks_as_before};
use super::{Scenario, Scene, delete_bob, has, has_five_slots, plays, same};
use std::alloc::Global;
use std::process::Abort;
use std::sync::Wait;
use std::test::*;
use tt_db::{Entry, Event, Progress};
use tt_repair::{Phase, RepairFault, Repaired, repair};
use tt_shared_tests::mark;
use tt_store::{Finished, Naming, NoGate, Store, StoreError, Worker};

#[test]
fn a_repair_is_made_at_once(rt: HostRuntime) {
    plays(&rt, rt.alloc(), Scenario::RepairsAtOnce);
}

/// A repair is made, or ended some other way after want of memory.
pub(super) fn repairs_at_once<L: Naming, T: Wait + Abort>(scene: Scene<'_, L, T>) {
    let Scene {
        rt,
        alloc,
        store,
        mut first,
        second: _,
    } = scene;
    has_five_slots(rt, alloc, &store, &mut first);
    let before = Looks::of(rt, alloc, &mut first);
    let edits = delete_bob(rt, alloc);
    mark(alloc);
    let repaired = repair(rt, &store, &mut first, edits, 2, 0);
    mark(alloc);
    match repaired {
        Ok(repaired) => same(rt, &repaired, &repaired_at(12)),
        Err(fault) => ends(rt, alloc, &store, &mut first, &before, fault),
    }
    has(rt, alloc, &mut first, &[(1, "ann", 6), (2, "ann", 7)]);
    has_each_place(rt, &first);
}

/// The worker made all entries of the history, and knows the place of each.
fn has_each_place<L: Naming>(rt: &impl Abort, worker: &Worker<L>) {
    let made = worker.made();
    same(rt, &worker.seen(), &made);
    for place in 1..=made {
        same(rt, &worker.place(place), &Some(place));
    }
    same(rt, &worker.place(made.saturating_add(1)), &None);
}

/// What a repair returns whose switch has this place.
fn repaired_at(place: u64) -> Repaired {
    Repaired {
        generation: 1,
        place,
        slots: 5,
        rerun: 2,
    }
}

/// Ends a repair that found no memory: finishes it where the last call did, gives it up and makes
/// it anew where a step did, and otherwise makes it anew. It goes no rounds, so it has nothing to
/// catch up with.
fn ends<L: Naming, T: Wait + Abort>(
    rt: &T,
    alloc: Global,
    store: &Store<L, NoGate, &T>,
    worker: &mut Worker<L>,
    before: &Looks,
    fault: RepairFault,
) {
    same(rt, &fault.cause, &StoreError::Memory);
    same(rt, &fault.still_open, &(fault.phase != Phase::Begin));
    match fault.phase {
        Phase::Begin => looks_as_before(rt, alloc, store, worker, before),
        Phase::Steps => is_given_up(rt, alloc, store, worker),
        Phase::CatchUp => panic!(rt; "nothing to catch up with"),
        Phase::Finish => return is_finished(rt, alloc, store, worker),
    }
    let repaired = repair(rt, store, worker, delete_bob(rt, alloc), 2, 0);
    same(rt, &repaired, &Ok(repaired_at(worker.seen())));
}

/// The worker made all entries of the history: five writes, the beginning of the repair, and this
/// many steps.
fn has_made<L: Naming, T: Wait + Abort>(
    rt: &T,
    alloc: Global,
    store: &Store<L, NoGate, &T>,
    worker: &mut Worker<L>,
    steps: u64,
) {
    let made = worker.made();
    same(rt, &Some(made), &steps.checked_add(6));
    same(rt, &store.refresh(rt, worker), &Ok(made));
    has_each_place(rt, worker);
    is_entry(rt, worker, 6, Event::Begin(delete_bob(rt, alloc)));
    for place in 7..=made {
        is_entry(rt, worker, place, Event::Step);
    }
    let want = Progress {
        done: steps,
        left: 5u64.saturating_sub(steps),
        rerun: steps.saturating_sub(3),
    };
    same(rt, &worker.progress(), &Some(want));
}

/// The entry at a place is this event of worker 1.
fn is_entry<L: Naming>(rt: &impl Abort, worker: &Worker<L>, place: u64, event: Event) {
    let want = Entry { worker: 1, event };
    same(rt, &worker.seen_entry(place), &Some(&want));
}

/// Finishes a repair that has made its five steps.
fn is_finished<L: Naming, T: Wait + Abort>(
    rt: &T,
    alloc: Global,
    store: &Store<L, NoGate, &T>,
    worker: &mut Worker<L>,
) {
    has_made(rt, alloc, store, worker, 5);
    let want = Finished {
        generation: 1,
        place: 12,
        slots: 5,
        rerun: 2,
    };
    same(rt, &store.finish(rt, worker), &Ok(want));
}

/// Gives up a repair that has made some of its steps, two in each publish.
fn is_given_up<L: Naming, T: Wait + Abort>(
    rt: &T,
    alloc: Global,
    store: &Store<L, NoGate, &T>,
    worker: &mut Worker<L>,
) {
    let made = worker.made();
    assert!(rt; made == 6 || made == 8 || made == 10);
    has_made(rt, alloc, store, worker, made.saturating_sub(6));
    let aborted = store.abort(rt, worker);
    same(rt, &aborted.ok(), &made.checked_add(1));
}
