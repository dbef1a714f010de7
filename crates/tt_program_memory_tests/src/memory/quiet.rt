//! Calls of a worker that take no memory: what it tells of itself, and which reads it refuses.
use super::{Scenario, Scene, all, has_begun, plays, same};
use std::process::Abort;
use std::sync::Wait;
use std::test::*;
use tt_db::{Progress, ReadError};
use tt_shared_tests::quiet;
use tt_store::{Naming, Worker};
use tt_values::{CheckError, Select};

#[test]
fn a_worker_tells_of_itself(rt: HostRuntime) {
    plays(&rt, rt.alloc(), Scenario::Tells);
}

/// A worker has begun a repair of five slots.
pub(super) fn tells<L: Naming, T: Wait + Abort>(scene: Scene<'_, L, T>) {
    let Scene {
        rt,
        alloc,
        store,
        mut first,
        second,
    } = scene;
    has_begun(rt, alloc, &store, &mut first);
    let faulty = Select::all(alloc, 1).expect(rt, "memory");
    let all = all(rt, alloc);
    quiet(alloc);
    tells_entries(rt, &first, &second);
    tells_progress(rt, &first);
    refuses(rt, &mut first, &faulty);
    refuses_times(rt, &mut first, &all);
    quiet(alloc);
}

/// Worker 1 has made six entries, and worker 2 none.
fn tells_entries<L: Naming>(rt: &impl Abort, first: &Worker<L>, second: &Worker<L>) {
    same(rt, &(first.number(), second.number()), &(1, 2));
    same(rt, &(first.seen(), first.made()), &(6, 6));
    same(rt, &(second.made(), second.place(1)), &(0, None));
    same(
        rt,
        &(first.place(0), first.place(6), first.place(7)),
        &(None, Some(6), None),
    );
    assert!(rt; first.seen_entry(0).is_none() && first.seen_entry(6).is_some());
    assert!(rt; first.seen_entry(7).is_none());
}

/// The repair has done none of five slots.
fn tells_progress<L: Naming>(rt: &impl Abort, worker: &Worker<L>) {
    let want = Progress {
        done: 0,
        left: 5,
        rerun: 0,
    };
    same(rt, &worker.progress(), &Some(want));
}

/// A select with a fault is refused by each read.
fn refuses<L: Naming>(rt: &impl Abort, worker: &mut Worker<L>, select: &Select) {
    let error = Some(ReadError::Statement(CheckError::NoTable));
    same(rt, &worker.read(select).err(), &error);
    same(rt, &worker.read_at(select, 1).err(), &error);
    same(rt, &worker.read_in(0, select, 1).err(), &error);
    same(rt, &worker.preview(select).err(), &error);
}

/// Times and generations that aren't there.
fn refuses_times<L: Naming>(rt: &impl Abort, worker: &mut Worker<L>, select: &Select) {
    let later = ReadError::Later { now: 5 };
    same(rt, &worker.read_at(select, 6).err(), &Some(later));
    let missing = ReadError::NoGeneration {
        oldest: 0,
        newest: 0,
    };
    same(rt, &worker.read_in(1, select, 0).err(), &Some(missing));
}
