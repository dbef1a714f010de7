//! The calls of a repair on a store.
use super::looks::{Looks, looks_as_before};
use super::{Scenario, Scene, delete_bob, has, has_begun, has_five_slots, plays, same};
use std::alloc::Global;
use std::process::Abort;
use std::sync::Wait;
use std::test::*;
use tt_db::Progress;
use tt_shared_tests::mark;
use tt_store::{Finished, Naming, NoGate, Store, StoreError, Worker};

#[test]
fn a_repair_is_finished(rt: HostRuntime) {
    plays(&rt, rt.alloc(), Scenario::Finishes);
}

/// A repair is begun, makes two steps, and is finished.
pub(super) fn finishes<L: Naming, T: Wait + Abort>(scene: Scene<'_, L, T>) {
    let Scene {
        rt,
        alloc,
        store,
        mut first,
        second: _,
    } = scene;
    has_five_slots(rt, alloc, &store, &mut first);
    begins(rt, alloc, &store, &mut first);
    steps(rt, alloc, &store, &mut first);
    has(rt, alloc, &mut first, &[(3, "bob", 8)]);
    finishes_at_last(rt, alloc, &store, &mut first);
    has(rt, alloc, &mut first, &[(1, "ann", 6), (2, "ann", 7)]);
}

/// Begins a repair of the fourth slot. Without memory there is none, and the call is made again.
fn begins<L: Naming, T: Wait + Abort>(
    rt: &T,
    alloc: Global,
    store: &Store<L, NoGate, &T>,
    worker: &mut Worker<L>,
) {
    let edits = delete_bob(rt, alloc);
    let again = edits.clone().expect(rt, "an owner");
    let before = Looks::of(rt, alloc, worker);
    mark(alloc);
    let begun = store.begin(rt, worker, edits);
    mark(alloc);
    let begun = match begun {
        Ok(place) => Ok(place),
        Err(error) => {
            same(rt, &error, &StoreError::Memory);
            same(rt, &(worker.made(), worker.progress()), &(5, None));
            looks_as_before(rt, alloc, store, worker, &before);
            store.begin(rt, worker, again)
        }
    };
    same(rt, &begun, &Ok(6));
}

/// Makes two steps. Without memory none is made, and the call is made again.
fn steps<L: Naming, T: Wait + Abort>(
    rt: &T,
    alloc: Global,
    store: &Store<L, NoGate, &T>,
    worker: &mut Worker<L>,
) {
    let before = Looks::of(rt, alloc, worker);
    mark(alloc);
    let stepped = store.step(rt, worker, 2);
    mark(alloc);
    let stepped = match stepped {
        Ok(progress) => Ok(progress),
        Err(error) => {
            same(rt, &error, &StoreError::Memory);
            same(rt, &worker.made(), &6);
            looks_as_before(rt, alloc, store, worker, &before);
            store.step(rt, worker, 2)
        }
    };
    let want = Progress {
        done: 2,
        left: 3,
        rerun: 0,
    };
    same(rt, &stepped, &Ok(want));
}

/// Finishes the repair. Without memory no step is made, and the call is made again.
fn finishes_at_last<L: Naming, T: Wait + Abort>(
    rt: &T,
    alloc: Global,
    store: &Store<L, NoGate, &T>,
    worker: &mut Worker<L>,
) {
    let before = Looks::of(rt, alloc, worker);
    mark(alloc);
    let finished = store.finish(rt, worker);
    mark(alloc);
    let finished = match finished {
        Ok(finished) => Ok(finished),
        Err(error) => {
            same(rt, &error, &StoreError::Memory);
            same(rt, &worker.made(), &8);
            looks_as_before(rt, alloc, store, worker, &before);
            store.finish(rt, worker)
        }
    };
    let want = Finished {
        generation: 1,
        place: 12,
        slots: 5,
        rerun: 2,
    };
    same(rt, &finished, &Ok(want));
}

#[test]
fn a_repair_is_given_up(rt: HostRuntime) {
    plays(&rt, rt.alloc(), Scenario::GivesUp);
}

/// A repair is given up, and the other worker sees that.
pub(super) fn gives_up<L: Naming, T: Wait + Abort>(scene: Scene<'_, L, T>) {
    let Scene {
        rt,
        alloc,
        store,
        mut first,
        mut second,
    } = scene;
    has_begun(rt, alloc, &store, &mut first);
    aborts(rt, alloc, &store, &mut first);
    refreshes(rt, alloc, &store, &mut second);
    has(rt, alloc, &mut second, &[(3, "bob", 8)]);
}

/// Gives up the repair. Without memory it stays, and the call is made again.
fn aborts<L: Naming, T: Wait + Abort>(
    rt: &T,
    alloc: Global,
    store: &Store<L, NoGate, &T>,
    worker: &mut Worker<L>,
) {
    let before = Looks::of(rt, alloc, worker);
    mark(alloc);
    let aborted = store.abort(rt, worker);
    mark(alloc);
    let aborted = match aborted {
        Ok(place) => Ok(place),
        Err(error) => {
            same(rt, &error, &StoreError::Memory);
            assert!(rt; worker.made() == 6 && worker.progress().is_some());
            looks_as_before(rt, alloc, store, worker, &before);
            store.abort(rt, worker)
        }
    };
    same(rt, &aborted, &Ok(7));
}

/// Sees the seven entries. Without memory the worker has seen none of them, and the call is made
/// again.
fn refreshes<L: Naming, T: Wait + Abort>(
    rt: &T,
    alloc: Global,
    store: &Store<L, NoGate, &T>,
    worker: &mut Worker<L>,
) {
    mark(alloc);
    let seen = store.refresh(rt, worker);
    mark(alloc);
    let seen = match seen {
        Ok(seen) => Ok(seen),
        Err(error) => {
            same(rt, &error, &StoreError::Memory);
            same(rt, &(worker.made(), worker.seen()), &(0, 0));
            store.refresh(rt, worker)
        }
    };
    same(rt, &(seen, worker.made()), &(Ok(7), 0));
}
