use super::{Scenario, Scene, closes, inserts, last_of, plays};
use std::alloc::Global;
use std::process::Abort;
use std::sync::Wait;
use std::test::*;
use tt_store::{CloseFault, Naming, NoGate, Store, Worker};

#[test]
fn a_store_is_closed_in_any_order(rt: HostRuntime) {
    plays(&rt, rt.alloc(), 2, Scenario::ClosesBackwards);
}

/// The workers are handed in by falling number.
pub(super) fn closes_backwards<L: Naming, T: Wait + Abort>(scene: Scene<'_, L, T>) {
    let Scene {
        rt,
        alloc,
        store,
        mut workers,
    } = scene;
    let second = last_of(rt, &mut workers);
    let mut first = last_of(rt, &mut workers);
    inserts(rt, alloc, &store, &mut first, (1, "ann", 10), (1, 1));
    closes(rt, alloc, store, [second, first], &[1], &[]);
}

#[test]
fn a_store_with_a_worker_missing_is_handed_back(rt: HostRuntime) {
    plays(&rt, rt.alloc(), 2, Scenario::ClosesLater);
}

/// A worker is missing at first. The other one goes on with the store that is handed back.
pub(super) fn closes_later<L: Naming, T: Wait + Abort>(scene: Scene<'_, L, T>) {
    let Scene {
        rt,
        alloc,
        store,
        mut workers,
    } = scene;
    let second = last_of(rt, &mut workers);
    let (store, mut workers) = handed_back(rt, store, workers);
    let mut first = last_of(rt, &mut workers);
    inserts(rt, alloc, &store, &mut first, (1, "ann", 10), (1, 1));
    closes(rt, alloc, store, [first, second], &[1], &[]);
}

/// The store and its workers, of which one is missing.
fn handed_back<'a, L: Naming, T: Wait + Abort>(
    rt: &T,
    store: Store<L, NoGate, &'a T>,
    workers: Vec<Worker<L>>,
) -> (Store<L, NoGate, &'a T>, Vec<Worker<L>>) {
    match store.close(rt, workers) {
        Err(CloseFault::Missing { store, workers }) => (store, workers),
        _ => panic!(rt; "no worker is missing"),
    }
}
