use super::{
    Account, Scenario, Scene, add_to_all, all, begins_after_five_slots, delete_bob, has, last_of,
    plays, rows, same,
};
use std::alloc::Global;
use std::process::Abort;
use std::sync::Wait;
use std::test::*;
use tt_db::{Edit, ReadError};
use tt_store::{Naming, NoGate, Store, Worker};
use tt_values::Items;

#[test]
fn a_repair_is_given_up_after_any_step(rt: HostRuntime) {
    let alloc = rt.alloc();
    for steps in 0..=5 {
        plays(&rt, alloc, 1, Scenario::GivesUp { steps });
    }
}

/// A repair is given up after some of its five steps, and a second repair is begun.
pub(super) fn gives_up<L: Naming, T: Wait + Abort>(scene: Scene<'_, L, T>, steps: u32) {
    let Scene {
        rt,
        alloc,
        store,
        mut workers,
    } = scene;
    let mut worker = last_of(rt, &mut workers);
    begins_after_five_slots(rt, alloc, &store, &mut worker);
    gives_up_after(rt, &store, &mut worker, steps);
    has(rt, alloc, &mut worker, &[(3, "bob", 8)]);
    has_no_next_generation(rt, alloc, &mut worker);
    begins_another(rt, alloc, &store, &mut worker, steps);
}

/// Makes this number of steps, and gives the repair up.
fn gives_up_after<L: Naming, T: Wait + Abort>(
    rt: &T,
    store: &Store<L, NoGate, &T>,
    worker: &mut Worker<L>,
    steps: u32,
) {
    let done = u64::from(steps);
    let progress = store.step(rt, worker, steps).expect(rt, "steps");
    let left = 5u64.saturating_sub(done);
    same(rt, &(progress.done, progress.left), &(done, left));
    same(rt, &store.abort(rt, worker), &Ok(done.saturating_add(7)));
    same(rt, &worker.progress(), &None);
}

/// Asserts that there is generation 0, and none behind it.
fn has_no_next_generation<L: Naming>(rt: &impl Abort, alloc: Global, worker: &mut Worker<L>) {
    let all = all(rt, alloc);
    same(
        rt,
        &worker.preview(&all).err(),
        &Some(ReadError::NotRepairing),
    );
    let missing = ReadError::NoGeneration {
        oldest: 0,
        newest: 0,
    };
    same(rt, &worker.read_in(1, &all, 0).err(), &Some(missing));
}

/// Begins a repair after the one that was given up after this number of steps.
fn begins_another<L: Naming, T: Wait + Abort>(
    rt: &T,
    alloc: Global,
    store: &Store<L, NoGate, &T>,
    worker: &mut Worker<L>,
    steps: u32,
) {
    let begun = store.begin(rt, worker, delete_bob(rt, alloc));
    same(rt, &begun, &Ok(u64::from(steps).saturating_add(8)));
}

/// The accounts after each of the five slots, from time 0 on, as they are before a repair.
const OPENED: [&'static [Account]; 6] = [
    &[],
    &[(1, "ann", 5)],
    &[(1, "ann", 5), (2, "ann", 6)],
    &[(1, "ann", 5), (2, "ann", 6), (3, "bob", 7)],
    &[(3, "bob", 7)],
    &[(3, "bob", 8)],
];

/// The same after the first repair, and after a sixth slot.
const REPAIRED: [&'static [Account]; 7] = [
    &[],
    &[(1, "ann", 5)],
    &[(1, "ann", 5), (2, "ann", 6)],
    &[(1, "ann", 5), (2, "ann", 6), (3, "bob", 7)],
    &[(1, "ann", 5), (2, "ann", 6)],
    &[(1, "ann", 6), (2, "ann", 7)],
    &[(1, "ann", 8), (2, "ann", 9)],
];

#[test]
fn past_times_stay_where_a_repair_is_given_up(rt: HostRuntime) {
    let alloc = rt.alloc();
    for steps in 0..=6 {
        plays(&rt, alloc, 2, Scenario::GivesUpTheSecond { steps });
    }
}

/// Worker 1 finishes a repair, and gives a second one up after some of its six steps. Both workers
/// read the past as before.
pub(super) fn gives_up_the_second<L: Naming, T: Wait + Abort>(scene: Scene<'_, L, T>, steps: u32) {
    let Scene {
        rt,
        alloc,
        store,
        mut workers,
    } = scene;
    let mut second = last_of(rt, &mut workers);
    let mut first = last_of(rt, &mut workers);
    begins_after_five_slots(rt, alloc, &store, &mut first);
    store.finish(rt, &mut first).expect(rt, "a switch");
    begins_the_second(rt, alloc, &store, &mut first);
    store.step(rt, &mut first, steps).expect(rt, "steps");
    has_both_pasts(rt, alloc, &mut first);
    store.abort(rt, &mut first).expect(rt, "an end");
    has_both_pasts(rt, alloc, &mut first);
    same(rt, &store.refresh(rt, &mut second), &Ok(first.seen()));
    has_both_pasts(rt, alloc, &mut second);
}

/// Begins a repair that cancels an insert and replaces a delete, during which a slot is written.
fn begins_the_second<L: Naming, T: Wait + Abort>(
    rt: &T,
    alloc: Global,
    store: &Store<L, NoGate, &T>,
    worker: &mut Worker<L>,
) {
    let by = add_to_all(rt, alloc, 100);
    let edits = Items::of(alloc, [Edit::Cancel(1), Edit::Replace(4, by)]);
    let edits = edits.expect(rt, "memory");
    store.begin(rt, worker, edits).expect(rt, "a repair");
    let gift = add_to_all(rt, alloc, 2);
    store.write(rt, worker, gift).expect(rt, "a write");
}

/// Asserts what both generations show at each of their times.
fn has_both_pasts<L: Naming>(rt: &impl Abort, alloc: Global, worker: &mut Worker<L>) {
    let all = all(rt, alloc);
    for (time, accounts) in REPAIRED.iter().enumerate() {
        let want = (time, rows(rt, alloc, accounts));
        let answer = worker.read_at(&all, time as u64).expect(rt, "a read");
        same(rt, &(time, answer.reply), &want);
        let answer = worker.read_in(1, &all, time as u64).expect(rt, "a read");
        same(rt, &(time, answer.reply), &want);
    }
    for (time, accounts) in OPENED.iter().enumerate() {
        let want = (time, rows(rt, alloc, accounts));
        let answer = worker.read_in(0, &all, time as u64).expect(rt, "a read");
        same(rt, &(time, answer.reply), &want);
    }
}
