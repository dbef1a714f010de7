//! A repair by a store's one worker, and which replies it has changed.
ghost use Rattle.std.specs.Prelude.{◌≡◌};
ghost use Rattle.std.specs.Arc.{arc_value};
ghost use Rattle.tt_db.specs.Limits.{usual_limits};
ghost use Rattle.tt_store.specs.Published.{RuleIsMembership};

use super::{all, bank, delete_bob, one, row, rows, same, writes_five_slots};
use std::alloc::Global;
use std::marker::Brand;
use std::process::Abort;
use std::sync::{Arc, Wait};
use std::test::*;
use tt_db::{Db, FirstChanges, Limits, ReadError, RowChange};
use tt_repair::{After, Changed, Record, Repaired, What, changes, repair};
use tt_store::{Naming, NoGate, Opened, Store, Worker};
use tt_values::{Catalog, Items, Reply, Shared};

#[test]
fn a_repair_changes_replies(rt: HostRuntime) {
    let alloc = rt.alloc();
    let catalog = bank(&rt, alloc);
    repairs::<Brand, _>(&rt, alloc, Opened::new(1), catalog);
}

fn repairs<L: Naming, T: Wait + Abort>(rt: &T, alloc: Global, opened: Opened, catalog: Arc<Catalog>)
    requires book { opened.front.book ≡ L.book }
    requires tables { arc_value catalog ≡ L.tables }
    requires limits { usual_limits ≡ L.limits }
    requires tied { RuleIsMembership L.holds L.book L.tables L.limits }
    requires name { opened.blank.name ≡ L.name }
    requires parts { opened.blank.parts ≡ L.parts }
{
    let opened = opened.named::<L, NoGate, &T>(rt, alloc, catalog, Limits::usual(), NoGate);
    let (store, mut workers) = opened.expect(rt, "a store");
    let mut worker = workers.pop().expect(rt, "a worker");
    writes_five_slots(rt, alloc, &store, &mut worker);
    tries_slot_four(rt, alloc, &worker);
    repairs_slot_four(rt, alloc, &store, &mut worker);
    three_differed(rt, alloc, &worker);
    workers.push(worker).expect(rt, "memory");
    let db = closed(rt, store, workers);
    tells_changes(rt, alloc, db.get());
}

/// Asserts what a repair of the five slots would come to, and that nothing of it is kept.
fn tries_slot_four<L: Naming>(rt: &impl Abort, alloc: Global, worker: &Worker<L>) {
    let trial = worker.tried(delete_bob(rt, alloc)).expect(rt, "a trial");
    let progress = trial.repair().expect(rt, "a repair");
    assert_eq!(rt; (progress.done, progress.rerun), (5, 2));
    let differences = trial.diff(0).expect(rt, "differences");
    assert_eq!(rt; differences.as_slice().len(), 3);
    same(rt, &worker.diff(0), &Err(ReadError::NotRepairing));
    same(
        rt,
        &worker.diff_page(0, None, 1),
        &Err(ReadError::NotRepairing),
    );
}

/// Asserts which rows differed at the switch of the repair: two that came, and the last, which went.
fn three_differed<L: Naming>(rt: &impl Abort, alloc: Global, worker: &Worker<L>) {
    let differences = worker.diff_in(0, 0).expect(rt, "differences");
    assert_eq!(rt; differences.as_slice().len(), 3);
    let last = RowChange {
        key: 3,
        before: Some(row(rt, alloc, (3, "bob", 8))),
        after: None,
    };
    let page = worker.diff_page_in(0, 0, Some(2), 1).expect(rt, "a page");
    let changes = Items::of(alloc, [last]).expect(rt, "memory");
    same(
        rt,
        &page,
        &FirstChanges {
            changes,
            more: false,
        },
    );
}

/// Asserts what a repair of the five slots returns.
fn repairs_slot_four<L: Naming, T: Wait + Abort>(
    rt: &T,
    alloc: Global,
    store: &Store<L, NoGate, &T>,
    worker: &mut Worker<L>,
) {
    let repaired = repair(rt, store, worker, delete_bob(rt, alloc), 2, 0);
    let want = Repaired {
        generation: 1,
        place: 12,
        slots: 5,
        rerun: 2,
    };
    same(rt, &repaired, &Ok(want));
}

/// The database of a store that is closed.
fn closed<L: Naming, T: Wait + Abort>(
    rt: &T,
    store: Store<L, NoGate, &T>,
    workers: Vec<Worker<L>>,
) -> Shared<Db> {
    match store.close(rt, workers) {
        Ok(closed) => closed.db,
        Err(_) => panic!(rt; "not closed"),
    }
}

/// Asserts that the replies of slots 4 and 5 have changed, and nothing else.
fn tells_changes(rt: &impl Abort, alloc: Global, db: &Db) {
    let records = [
        deleted_two(rt, alloc),
        updated_one(rt, alloc),
        read_three(rt, alloc),
    ];
    let changes = changes(alloc, db, &records).expect(rt, "memory");
    let want = [
        changed(rt, alloc, 4, (Reply::Deleted(2), Reply::Deleted(1))),
        changed(rt, alloc, 5, (Reply::Updated(1), Reply::Updated(2))),
    ];
    assert!(rt; changes.as_slice() == want.as_slice());
}

/// Call 4 deleted the accounts of ann.
pub(super) fn deleted_two(rt: &impl Abort, alloc: Global) -> Record {
    Record {
        call: 4,
        worker: 1,
        what: What::Write {
            slot: 4,
            replies: one(rt, alloc, Reply::Deleted(2)),
        },
    }
}

/// Call 5 updated the account of bob.
pub(super) fn updated_one(rt: &impl Abort, alloc: Global) -> Record {
    Record {
        call: 5,
        worker: 1,
        what: What::Write {
            slot: 5,
            replies: one(rt, alloc, Reply::Updated(1)),
        },
    }
}

/// Call 6 read all accounts as they were before the delete.
pub(super) fn read_three(rt: &impl Abort, alloc: Global) -> Record {
    let accounts = [(1, "ann", 5), (2, "ann", 6), (3, "bob", 7)];
    Record {
        call: 6,
        worker: 1,
        what: What::Read {
            select: all(rt, alloc),
            time: 3,
            reply: rows(rt, alloc, &accounts),
        },
    }
}

/// A call whose only reply has changed.
pub(super) fn changed(
    rt: &impl Abort,
    alloc: Global,
    call: u64,
    (before, after): (Reply, Reply),
) -> Changed {
    Changed {
        call,
        before: one(rt, alloc, before),
        after: After::Replies(one(rt, alloc, after)),
    }
}
