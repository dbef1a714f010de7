//! Reads by a worker of a store.
use super::{Account, Scenario, Scene, all, has_begun, plays, rows, same};
use std::alloc::Global;
use std::process::Abort;
use std::sync::Wait;
use std::test::*;
use tt_db::ReadError;
use tt_shared_tests::mark;
use tt_store::{Answer, Naming, Worker};

#[test]
fn reads_are_answered(rt: HostRuntime) {
    plays(&rt, rt.alloc(), Scenario::Reads);
}

/// Reads while a repair has done four of five slots, and once it is finished.
pub(super) fn reads<L: Naming, T: Wait + Abort>(scene: Scene<'_, L, T>) {
    let Scene {
        rt,
        alloc,
        store,
        mut first,
        mut second,
    } = scene;
    has_begun(rt, alloc, &store, &mut first);
    store.step(rt, &mut first, 4).expect(rt, "steps");
    reads_now(rt, alloc, &mut second);
    reads_then(rt, alloc, &mut second);
    reads_in(rt, alloc, &mut second, (0, 1), &[(1, "ann", 5)]);
    previews(rt, alloc, &mut second);
    store.finish(rt, &mut first).expect(rt, "a switch");
    reads_in_both(rt, alloc, &mut second);
}

/// Reads in the closed generation and in the current one, at their last times and before.
fn reads_in_both<L: Naming>(rt: &impl Abort, alloc: Global, worker: &mut Worker<L>) {
    reads_in(rt, alloc, worker, (0, 5), &[(3, "bob", 8)]);
    reads_in(rt, alloc, worker, (0, 4), &[(3, "bob", 7)]);
    let both = [(1, "ann", 6), (2, "ann", 7)];
    reads_in(rt, alloc, worker, (1, 5), &both);
    let both = [(1, "ann", 5), (2, "ann", 6)];
    reads_in(rt, alloc, worker, (1, 4), &both);
}

/// The answer to a read that was made twice has these rows; only the first one may lack memory.
fn answers(
    rt: &impl Abort,
    alloc: Global,
    first: Result<Answer, ReadError>,
    again: Result<Answer, ReadError>,
    time: u64,
    accounts: &[Account],
) {
    let want = Answer {
        time,
        reply: rows(rt, alloc, accounts),
    };
    match first {
        Ok(answer) => same(rt, &answer, &want),
        Err(error) => same(rt, &error, &ReadError::Memory),
    }
    same(rt, &again, &Ok(want));
}

fn reads_now<L: Naming>(rt: &impl Abort, alloc: Global, worker: &mut Worker<L>) {
    let all = all(rt, alloc);
    mark(alloc);
    let first = worker.read(&all);
    mark(alloc);
    let again = worker.read(&all);
    answers(rt, alloc, first, again, 5, &[(3, "bob", 8)]);
}

fn reads_then<L: Naming>(rt: &impl Abort, alloc: Global, worker: &mut Worker<L>) {
    let all = all(rt, alloc);
    mark(alloc);
    let first = worker.read_at(&all, 2);
    mark(alloc);
    let again = worker.read_at(&all, 2);
    answers(rt, alloc, first, again, 2, &[(1, "ann", 5), (2, "ann", 6)]);
}

/// Reads these accounts in a generation at a time.
fn reads_in<L: Naming>(
    rt: &impl Abort,
    alloc: Global,
    worker: &mut Worker<L>,
    (generation, time): (u64, u64),
    accounts: &[Account],
) {
    let all = all(rt, alloc);
    mark(alloc);
    let first = worker.read_in(generation, &all, time);
    mark(alloc);
    let again = worker.read_in(generation, &all, time);
    answers(rt, alloc, first, again, time, accounts);
}

fn previews<L: Naming>(rt: &impl Abort, alloc: Global, worker: &mut Worker<L>) {
    let all = all(rt, alloc);
    mark(alloc);
    let first = worker.preview(&all);
    mark(alloc);
    let again = worker.preview(&all);
    answers(rt, alloc, first, again, 4, &[(1, "ann", 5), (2, "ann", 6)]);
}
