use super::{ACCT, ANN, BOB, action, done, entry, had, has, insert, new_db, replies, same};
use std::alloc::Global;
use std::process::Abort;
use tt_db::{Db, Limits, Outcome, Slot};
use tt_values::Reply;

/// Asserts the counts of a database that accepted `ANN`.
fn has_one_slot(rt: &impl Abort, db: &Db) {
    assert!(rt; Limits::usual().fits());
    same(rt, &db.catalog().len(), &1);
    same(rt, &db.catalog().find("acct"), &Some(ACCT));
    same(rt, &db.now(), &1);
    same(rt, &db.generation(), &0);
    same(rt, &db.events(), &1);
}

/// Asserts that the entry of `ANN` can be copied.
fn has_an_exact_entry(rt: &impl Abort, alloc: Global, db: &Db) {
    let first = db.entry(1).expect(rt, "an entry");
    let copy = first.clone().expect(rt, "memory");
    same(rt, &copy, &entry(rt, alloc, 1, ANN));
}

/// Asserts that the slot of `ANN` can be copied.
fn has_an_exact_slot(rt: &impl Abort, alloc: Global, db: &Db) {
    let slot = db.slot(1).expect(rt, "a slot");
    let copy = slot.clone().expect(rt, "memory");
    let want = Slot {
        action: Some(action(rt, alloc, [insert(rt, alloc, ACCT, ANN)])),
        replies: Some(replies(rt, alloc, [Reply::Inserted])),
    };
    same(rt, &copy, &want);
}

/// Applies an entry in place, which inserts `BOB` by the second slot.
fn takes_a_second_entry(rt: &impl Abort, alloc: Global, db: &mut Db) {
    let answer = db.advance(entry(rt, alloc, 2, BOB));
    let want = Outcome::Written {
        slot: 2,
        replies: replies(rt, alloc, [Reply::Inserted]),
    };
    same(rt, &answer, &Ok(want));
}

#[test]
fn each_call_has_enough_memory(rt: HostRuntime) {
    let alloc = rt.alloc();
    let empty = new_db(&rt, alloc);
    same(&rt, &empty.now(), &0);
    has(&rt, alloc, &empty, &[]);
    let ann = entry(&rt, alloc, 1, ANN);
    let (mut db, answer) = empty.advanced(ann).expect(&rt, "memory");
    assert!(rt; answer.is_ok());
    has_one_slot(&rt, &db);
    has_an_exact_entry(&rt, alloc, &db);
    has_an_exact_slot(&rt, alloc, &db);
    takes_a_second_entry(&rt, alloc, &mut db);
    has(&rt, alloc, &db, &[ANN, BOB]);
    had(&rt, alloc, &db, 1, &[ANN]);
    done(db);
}
