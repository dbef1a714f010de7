use super::{
    Scenario, Scene, all, begins_after_five_slots, closed, closes, delete_bob, has, inserts,
    last_of, plays, rows, same, tries,
};
use std::alloc::Global;
use std::process::Abort;
use std::sync::Wait;
use std::test::*;
use tt_db::{DbError, Edit, Limits, Progress, ReadError};
use tt_store::{Finished, Naming, NoGate, Store, StoreError, Worker};
use tt_values::Items;

#[test]
fn a_repair_is_made_in_steps(rt: HostRuntime) {
    plays(&rt, rt.alloc(), 1, Scenario::RepairsInSteps);
}

/// A repair is made in steps, previewed and finished.
pub(super) fn repairs_in_steps<L: Naming, T: Wait + Abort>(scene: Scene<'_, L, T>) {
    let Scene {
        rt,
        alloc,
        store,
        mut workers,
    } = scene;
    let mut worker = last_of(rt, &mut workers);
    is_idle(rt, &store, &mut worker);
    begins_after_five_slots(rt, alloc, &store, &mut worker);
    steps(rt, &store, &mut worker);
    has(rt, alloc, &mut worker, &[(3, "bob", 8)]);
    previews(rt, alloc, &mut worker);
    finishes(rt, &store, &mut worker);
    same(rt, &(worker.seen(), worker.made()), &(12, 12));
    reads_the_closed_generation(rt, alloc, &mut worker);
}

/// Asserts that no repair is under way.
fn is_idle<L: Naming, T: Wait + Abort>(
    rt: &T,
    store: &Store<L, NoGate, &T>,
    worker: &mut Worker<L>,
) {
    let refused = StoreError::Db(DbError::NotRepairing);
    same(rt, &store.step(rt, worker, 0), &Err(refused));
    same(rt, &store.finish(rt, worker), &Err(refused));
}

/// Makes no step of five, and then four of them.
fn steps<L: Naming, T: Wait + Abort>(rt: &T, store: &Store<L, NoGate, &T>, worker: &mut Worker<L>) {
    let before = Progress {
        done: 0,
        left: 5,
        rerun: 0,
    };
    same(rt, &store.step(rt, worker, 0), &Ok(before));
    same(rt, &worker.progress(), &Some(before));
    same(rt, &worker.seen(), &6);
    let progress = Progress {
        done: 4,
        left: 1,
        rerun: 1,
    };
    same(rt, &store.step(rt, worker, 4), &Ok(progress));
    same(rt, &worker.seen(), &10);
}

/// Asserts what the next generation shows after four slots.
fn previews<L: Naming>(rt: &impl Abort, alloc: Global, worker: &mut Worker<L>) {
    let next = worker.preview(&all(rt, alloc)).expect(rt, "a preview");
    same(rt, &next.time, &4);
    let accounts = [(1, "ann", 5), (2, "ann", 6)];
    same(rt, &next.reply, &rows(rt, alloc, &accounts));
}

/// Makes the step that is left, and the switch.
fn finishes<L: Naming, T: Wait + Abort>(
    rt: &T,
    store: &Store<L, NoGate, &T>,
    worker: &mut Worker<L>,
) {
    let finished = Finished {
        generation: 1,
        place: 12,
        slots: 5,
        rerun: 2,
    };
    same(rt, &store.finish(rt, worker), &Ok(finished));
}

/// Asserts what is shown of the generation before the repair, and that there is no third one.
fn reads_the_closed_generation<L: Naming>(rt: &impl Abort, alloc: Global, worker: &mut Worker<L>) {
    let all = all(rt, alloc);
    let old = worker.read_in(0, &all, 5).expect(rt, "a read");
    same(rt, &old.reply, &rows(rt, alloc, &[(3, "bob", 8)]));
    let later = worker.read_in(0, &all, 6);
    same(rt, &later.err(), &Some(ReadError::Later { now: 5 }));
    let missing = ReadError::NoGeneration {
        oldest: 0,
        newest: 1,
    };
    same(rt, &worker.read_in(2, &all, 5).err(), &Some(missing));
}

#[test]
fn a_repair_is_finished_by_another_worker(rt: HostRuntime) {
    plays(&rt, rt.alloc(), 2, Scenario::FinishesForAnother);
}

/// Worker 2 finishes the repair that worker 1 began.
pub(super) fn finishes_for_another<L: Naming, T: Wait + Abort>(scene: Scene<'_, L, T>) {
    let Scene {
        rt,
        alloc,
        store,
        mut workers,
    } = scene;
    let mut second = last_of(rt, &mut workers);
    let mut first = last_of(rt, &mut workers);
    begins_after_five_slots(rt, alloc, &store, &mut first);
    is_refused_another(rt, alloc, &store, &mut second);
    steps(rt, &store, &mut second);
    has(rt, alloc, &mut second, &[(3, "bob", 8)]);
    previews(rt, alloc, &mut second);
    finishes(rt, &store, &mut second);
    let before = &[1, 2, 3, 4, 5, 6];
    let behind = &[7, 8, 9, 10, 11, 12];
    closes(rt, alloc, store, [first, second], before, behind);
}

/// Asserts that a worker is told of the repair of another one, and can't begin one beside it.
fn is_refused_another<L: Naming, T: Wait + Abort>(
    rt: &T,
    alloc: Global,
    store: &Store<L, NoGate, &T>,
    worker: &mut Worker<L>,
) {
    same(rt, &store.refresh(rt, worker), &Ok(6));
    let refused = StoreError::Db(DbError::Repairing);
    same(
        rt,
        &store.begin(rt, worker, delete_bob(rt, alloc)),
        &Err(refused),
    );
    same(rt, &(worker.seen(), worker.made()), &(6, 0));
}

#[test]
fn a_full_history_stops_a_repair(rt: HostRuntime) {
    let limits = Limits {
        events: 4,
        ..Limits::usual()
    };
    let tried = tries(&rt, rt.alloc(), 1, limits, Scenario::FillsHistory);
    same(&rt, &tried, &Ok(()));
}

/// There is room for four entries.
pub(super) fn fills_history<L: Naming, T: Wait + Abort>(scene: Scene<'_, L, T>) {
    let Scene {
        rt,
        alloc,
        store,
        mut workers,
    } = scene;
    let mut worker = last_of(rt, &mut workers);
    inserts(rt, alloc, &store, &mut worker, (1, "ann", 10), (1, 1));
    inserts(rt, alloc, &store, &mut worker, (2, "bob", 20), (2, 2));
    begins(rt, alloc, &store, &mut worker);
    is_full_after_a_step(rt, &store, &mut worker);
    let workers = vec![in alloc; worker].expect(rt, "memory");
    same(rt, &closed(rt, store, workers).db.get().events(), &4);
}

/// Begins a repair that cancels the first slot.
fn begins<L: Naming, T: Wait + Abort>(
    rt: &T,
    alloc: Global,
    store: &Store<L, NoGate, &T>,
    worker: &mut Worker<L>,
) {
    let edits = Items::of(alloc, [Edit::Cancel(1)]).expect(rt, "memory");
    same(rt, &store.begin(rt, worker, edits), &Ok(3));
}

/// Asserts that there is room for one step of two, and then for none.
fn is_full_after_a_step<L: Naming, T: Wait + Abort>(
    rt: &T,
    store: &Store<L, NoGate, &T>,
    worker: &mut Worker<L>,
) {
    let full = StoreError::Db(DbError::Full { limit: 4 });
    same(rt, &store.step(rt, worker, 2), &Err(full));
    let progress = store.step(rt, worker, 1).expect(rt, "a step");
    same(rt, &(progress.done, progress.left), &(1, 1));
    same(rt, &store.finish(rt, worker), &Err(full));
    same(rt, &worker.seen(), &4);
}
