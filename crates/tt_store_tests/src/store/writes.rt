use super::{Scenario, Scene, all, closes, has, insert, inserts, last_of, plays, rows, same};
use std::alloc::Global;
use std::process::Abort;
use std::sync::Wait;
use std::test::*;
use std::thread::{Threads, join};
use tt_db::{Entry, Event, ReadError};
use tt_store::{Naming, NoGate, Store, Worker};

#[test]
fn a_worker_sees_what_another_one_wrote(rt: HostRuntime) {
    plays(&rt, rt.alloc(), 2, Scenario::ReadsBeside);
}

/// Worker 2 reads what worker 1 wrote.
pub(super) fn reads_beside<L: Naming, T: Wait + Abort>(scene: Scene<'_, L, T>) {
    let Scene {
        rt,
        alloc,
        store,
        mut workers,
    } = scene;
    let mut second = last_of(rt, &mut workers);
    let mut first = last_of(rt, &mut workers);
    inserts(rt, alloc, &store, &mut first, (1, "ann", 10), (1, 1));
    shows_the_account(rt, alloc, &mut first);
    reads_either(rt, alloc, &mut second);
    same(rt, &store.refresh(rt, &mut second), &Ok(1));
    shows_the_account(rt, alloc, &mut second);
    reads_at_other_times(rt, alloc, &mut second);
    made_nothing(rt, alloc, &second);
    made_the_first(rt, &first);
    closes(rt, alloc, store, [first, second], &[1], &[]);
}

/// Asserts that the account is read, at time 1.
fn shows_the_account<L: Naming>(rt: &impl Abort, alloc: Global, worker: &mut Worker<L>) {
    let answer = worker.read(&all(rt, alloc)).expect(rt, "a read");
    same(rt, &answer.time, &1);
    same(rt, &answer.reply, &rows(rt, alloc, &[(1, "ann", 10)]));
}

/// Asserts that a worker that wasn't told of the account reads it, or nothing at time 0.
fn reads_either<L: Naming>(rt: &impl Abort, alloc: Global, worker: &mut Worker<L>) {
    let answer = worker.read(&all(rt, alloc)).expect(rt, "a read");
    let account = [(1, "ann", 10)];
    let before = answer.time == 0 && answer.reply == rows(rt, alloc, &[]);
    let after = answer.time == 1 && answer.reply == rows(rt, alloc, &account);
    assert!(rt; before || after);
}

/// Asserts what there was at time 0, and that there is no time 2.
fn reads_at_other_times<L: Naming>(rt: &impl Abort, alloc: Global, worker: &mut Worker<L>) {
    let all = all(rt, alloc);
    let before = worker.read_at(&all, 0).expect(rt, "a read");
    same(rt, &before.time, &0);
    same(rt, &before.reply, &rows(rt, alloc, &[]));
    let later = worker.read_at(&all, 2);
    same(rt, &later.err(), &Some(ReadError::Later { now: 1 }));
}

/// Asserts that a worker has seen the insert of worker 1, and has made nothing.
fn made_nothing<L: Naming>(rt: &impl Abort, alloc: Global, worker: &Worker<L>) {
    same(rt, &(worker.seen(), worker.made()), &(1, 0));
    let want = Entry {
        worker: 1,
        event: Event::Write(insert(rt, alloc, (1, "ann", 10))),
    };
    let entry = worker.seen_entry(1).expect(rt, "an entry");
    same(rt, entry, &want);
    assert!(rt; worker.seen_entry(2).is_none());
}

/// Asserts that a worker has made the only entry that it has seen.
fn made_the_first<L: Naming>(rt: &impl Abort, worker: &Worker<L>) {
    same(rt, &(worker.seen(), worker.made()), &(1, 1));
    same(rt, &(worker.place(0), worker.place(1)), &(None, Some(1)));
    same(rt, &worker.place(2), &None);
}

#[test]
fn a_refresh_alone_shows_what_another_one_wrote(rt: HostRuntime) {
    plays(&rt, rt.alloc(), 2, Scenario::RefreshesIdle);
}

/// Worker 2 neither reads nor writes, and has seen what worker 1 wrote once it is refreshed.
pub(super) fn refreshes_idle<L: Naming, T: Wait + Abort>(scene: Scene<'_, L, T>) {
    let Scene {
        rt,
        alloc,
        store,
        mut workers,
    } = scene;
    let mut second = last_of(rt, &mut workers);
    let mut first = last_of(rt, &mut workers);
    inserts(rt, alloc, &store, &mut first, (1, "ann", 10), (1, 1));
    same(rt, &second.seen(), &0);
    same(rt, &store.refresh(rt, &mut second), &Ok(1));
    made_nothing(rt, alloc, &second);
    inserts(rt, alloc, &store, &mut first, (2, "bob", 20), (2, 2));
    same(rt, &second.seen(), &1);
    same(rt, &store.refresh(rt, &mut second), &Ok(2));
    same(rt, &(second.seen(), second.made()), &(2, 0));
    has(rt, alloc, &mut second, &[(1, "ann", 10), (2, "bob", 20)]);
    closes(rt, alloc, store, [first, second], &[1, 2], &[]);
}

#[test]
fn a_worker_that_is_behind_writes(rt: HostRuntime) {
    plays(&rt, rt.alloc(), 2, Scenario::WritesBehind);
}

/// Both workers write, each behind what the other one wrote.
pub(super) fn writes_behind<L: Naming, T: Wait + Abort>(scene: Scene<'_, L, T>) {
    let Scene {
        rt,
        alloc,
        store,
        mut workers,
    } = scene;
    let mut second = last_of(rt, &mut workers);
    let mut first = last_of(rt, &mut workers);
    inserts(rt, alloc, &store, &mut first, (1, "ann", 10), (1, 1));
    inserts(rt, alloc, &store, &mut second, (2, "bob", 20), (2, 2));
    has(rt, alloc, &mut first, &[(1, "ann", 10), (2, "bob", 20)]);
    made_one(rt, &first, 1);
    made_one(rt, &second, 2);
    same(rt, &store.refresh(rt, &mut first), &Ok(2));
}

/// Asserts that a worker has seen two entries, and has made the one at this place.
fn made_one<L: Naming>(rt: &impl Abort, worker: &Worker<L>, place: u64) {
    same(rt, &(worker.seen(), worker.made()), &(2, 1));
    same(
        rt,
        &(worker.place(1), worker.place(2)),
        &(Some(place), None),
    );
    let entry = worker.seen_entry(place).expect(rt, "an entry");
    same(rt, &entry.worker, &worker.number());
}

#[test]
fn two_threads_write(rt: HostRuntime) {
    plays(&rt, rt.alloc(), 2, Scenario::WritesInThreads);
}

/// Two workers write 500 accounts each, in threads.
pub(super) fn writes_in_threads<L: Naming + Send + Sync, T: Threads + Wait + Abort + Sync>(
    scene: Scene<'_, L, T>,
) {
    let Scene {
        rt,
        alloc,
        store,
        mut workers,
    } = scene;
    let second = last_of(rt, &mut workers);
    let first = last_of(rt, &mut workers);
    let (mut one, two) = in_threads(rt, alloc, &store, first, second);
    same(rt, &(one.made(), two.made()), &(500, 500));
    same(rt, &store.refresh(rt, &mut one), &Ok(1000));
}

/// Lets two workers write 500 accounts each, in threads.
fn in_threads<L: Naming + Send + Sync, T: Threads + Wait + Abort + Sync>(
    rt: &T,
    alloc: Global,
    store: &Store<L, NoGate, &T>,
    first: Worker<L>,
    second: Worker<L>,
) -> (Worker<L>, Worker<L>) {
    join(
        rt,
        || writes_500(rt, alloc, store, first, 0),
        || writes_500(rt, alloc, store, second, 1000),
    )
}

/// Inserts 500 accounts, with the ids from this one on.
fn writes_500<L: Naming, T: Wait + Abort>(
    rt: &T,
    alloc: Global,
    store: &Store<L, NoGate, &T>,
    mut worker: Worker<L>,
    from: u32,
) -> Worker<L> {
    for number in 0..500u32 {
        let id = i64::from(from.saturating_add(number));
        let write = insert(rt, alloc, (id, "ann", 1));
        store.write(rt, &mut worker, write).expect(rt, "a write");
    }
    worker
}
