//! Which replies a repair will have changed, while it is under way.
use super::alone::{changed, deleted_two, read_three, updated_one};
use super::{add_to_all, bank, delete, delete_bob, insert, same};
use std::alloc::Global;
use std::process::Abort;
use std::test::*;
use tt_db::{Db, Entry, Event, Limits, ReadError};
use tt_records::{Record, changes, changes_next};
use tt_values::Reply;

/// Applies an event that isn't refused.
fn apply(rt: &impl Abort, db: &mut Db, event: Event) {
    assert!(rt; db.advance(Entry { worker: 1, event }).is_ok());
}

/// A database of the five slots.
fn five_slots(rt: &impl Abort, alloc: Global) -> Db {
    let mut db = Db::new(alloc, bank(rt, alloc), Limits::usual());
    let writes = [
        insert(rt, alloc, (1, "ann", 5)),
        insert(rt, alloc, (2, "ann", 6)),
        insert(rt, alloc, (3, "bob", 7)),
        delete(rt, alloc, "ann"),
        add_to_all(rt, alloc, 1),
    ];
    for write in writes {
        apply(rt, &mut db, Event::Write(write));
    }
    db
}

/// How many replies the repair under way will have changed, as far as it is.
fn count(rt: &impl Abort, alloc: Global, db: &Db, records: &[Record]) -> usize {
    changes_next(alloc, db, records).expect(rt, "a list").len()
}

/// Asserts what a repair of slot 4 will have changed, step by step, and has changed in the end.
fn tells_next(rt: &impl Abort, alloc: Global, db: &mut Db, records: &[Record]) {
    apply(rt, db, Event::Begin(delete_bob(rt, alloc)));
    for want in [0, 0, 0, 0, 1] {
        same(rt, &count(rt, alloc, db, records), &want);
        apply(rt, db, Event::Step);
    }
    let next = changes_next(alloc, db, records).expect(rt, "a list");
    let want = [
        changed(rt, alloc, 4, (Reply::Deleted(2), Reply::Deleted(1))),
        changed(rt, alloc, 5, (Reply::Updated(1), Reply::Updated(2))),
    ];
    assert!(rt; next.as_slice() == want.as_slice());
    apply(rt, db, Event::Switch);
    let now = changes(alloc, db, records).expect(rt, "memory");
    assert!(rt; now.as_slice() == want.as_slice());
}

#[test]
fn changes_are_told_before_the_switch(rt: HostRuntime) {
    let alloc = rt.alloc();
    let mut db = five_slots(&rt, alloc);
    let records = [
        deleted_two(&rt, alloc),
        updated_one(&rt, alloc),
        read_three(&rt, alloc),
    ];
    let idle = changes_next(alloc, &db, &records).err();
    same(&rt, &idle, &Some(ReadError::NotRepairing));
    tells_next(&rt, alloc, &mut db, &records);
}
