//! Writes by a worker of a store.
use super::looks::{Looks, looks_as_before};
use super::{Scenario, Scene, five_actions, has, plays, same};
use std::alloc::Global;
use std::process::Abort;
use std::sync::Wait;
use std::test::*;
use tt_shared_tests::mark;
use tt_store::{Naming, NoGate, Store, StoreError, Worker};
use tt_values::Action;

#[test]
fn writes_are_made(rt: HostRuntime) {
    plays(&rt, rt.alloc(), Scenario::Writes);
}

/// Five actions are written, each once.
pub(super) fn writes_five<L: Naming, T: Wait + Abort>(scene: Scene<'_, L, T>) {
    let Scene {
        rt,
        alloc,
        store,
        mut first,
        second: _,
    } = scene;
    for action in five_actions(rt, alloc) {
        writes(rt, alloc, &store, &mut first, action);
    }
    same(rt, &(first.made(), first.seen()), &(5, 5));
    has(rt, alloc, &mut first, &[(3, "bob", 8)]);
}

/// An action is written into the next slot. If the call finds no memory, it has added nothing, and
/// is made again.
fn writes<L: Naming, T: Wait + Abort>(
    rt: &T,
    alloc: Global,
    store: &Store<L, NoGate, &T>,
    worker: &mut Worker<L>,
    action: Action,
) {
    let again = action.clone().expect(rt, "an owner");
    let before = Looks::of(rt, alloc, worker);
    let made = worker.made();
    mark(alloc);
    let written = store.write(rt, worker, action);
    mark(alloc);
    let written = match written {
        Ok(written) => written,
        Err(error) => {
            same(rt, &error, &StoreError::Memory);
            same(rt, &(worker.made(), worker.seen()), &(made, made));
            looks_as_before(rt, alloc, store, worker, &before);
            store.write(rt, worker, again).expect(rt, "a second call")
        }
    };
    same(
        rt,
        &(written.place, written.slot),
        &(worker.made(), worker.seen()),
    );
    same(rt, &made.checked_add(1), &Some(written.place));
}
