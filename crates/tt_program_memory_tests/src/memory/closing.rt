//! The end of a store.
use super::looks::{Looks, looks_as_before};
use super::{Scenario, Scene, has_five_slots, last_of, plays, same};
use std::alloc::Global;
use std::process::Abort;
use std::sync::Wait;
use std::test::*;
use tt_shared_tests::mark;
use tt_store::{CloseFault, Closed, Naming, NoGate, Store, Worker};

#[test]
fn a_store_is_closed(rt: HostRuntime) {
    plays(&rt, rt.alloc(), Scenario::Closes);
}

/// A store of five slots is closed.
pub(super) fn closes<L: Naming, T: Wait + Abort>(scene: Scene<'_, L, T>) {
    let Scene {
        rt,
        alloc,
        store,
        mut first,
        second,
    } = scene;
    has_five_slots(rt, alloc, &store, &mut first);
    let before = Looks::of(rt, alloc, &mut first);
    let workers = vec![in alloc; first, second].expect(rt, "memory");
    let closed = closed(rt, alloc, store, workers, &before);
    same(rt, &closed.db.get().events(), &5);
    assert!(rt; has_places(&closed.places));
}

/// Closes a store. Without memory the store and its workers are handed back, and close it again.
fn closed<L: Naming, T: Wait + Abort>(
    rt: &T,
    alloc: Global,
    store: Store<L, NoGate, &T>,
    workers: Vec<Worker<L>>,
    before: &Looks,
) -> Closed {
    mark(alloc);
    let closed = store.close(rt, workers);
    mark(alloc);
    match closed {
        Ok(closed) => closed,
        Err(CloseFault::Memory { store, workers }) => {
            closed_again(rt, alloc, store, workers, before)
        }
        Err(_) => panic!(rt; "not closed"),
    }
}

/// Closes a store that was handed back with its workers, of which the first looks as before. They
/// are handed in in another order.
fn closed_again<L: Naming, T: Wait + Abort>(
    rt: &T,
    alloc: Global,
    store: Store<L, NoGate, &T>,
    workers: Vec<Worker<L>>,
    before: &Looks,
) -> Closed {
    let mut workers = workers;
    let second = last_of(rt, &mut workers);
    let mut first = last_of(rt, &mut workers);
    looks_as_before(rt, alloc, &store, &mut first, before);
    same(rt, &(second.number(), second.made()), &(2, 0));
    let workers = vec![in alloc; second, first].expect(rt, "memory");
    match store.close(rt, workers) {
        Ok(closed) => closed,
        Err(_) => panic!(rt; "not closed"),
    }
}

/// Whether worker 1 made the five entries, and worker 2 none.
fn has_places(places: &[Vec<u64>]) -> bool {
    match places {
        [first, second] => first.as_slice() == [1, 2, 3, 4, 5].as_slice() && second.is_empty(),
        _ => false,
    }
}
