//! Which replies a repair has changed, and which it will have changed.
use super::{all, bank, delete_bob, five_actions, items, rows, same};
use std::alloc::{AllocError, Global};
use std::process::Abort;
use tt_db::{Db, Entry, Event, Limits, ReadError};
use tt_repair::{After, Changed, Record, What, changes, changes_next};
use tt_shared_tests::{Tally, mark};
use tt_values::Reply;

#[test]
fn changed_replies(rt: HostRuntime) {
    let alloc = rt.alloc();
    let _tally = Tally::new(alloc);
    let db = repaired(&rt, alloc);
    let records = [
        deleted_two(&rt, alloc),
        read_three(&rt, alloc),
        read_one(&rt, alloc),
    ];
    mark(alloc);
    let list = changes(alloc, &db, &records);
    mark(alloc);
    let list = match list {
        Ok(list) => list,
        Err(AllocError) => changes(alloc, &db, &records).expect(&rt, "a second call"),
    };
    assert!(rt; list.as_slice() == changes_by_slot_4(&rt, alloc).as_slice());
}

/// Once the repair has done four of the five slots, the change of the fifth isn't listed.
#[test]
fn replies_that_will_be_others(rt: HostRuntime) {
    let alloc = rt.alloc();
    let _tally = Tally::new(alloc);
    let db = repairing(&rt, alloc, 4);
    let records = [
        deleted_two(&rt, alloc),
        updated_one(&rt, alloc),
        read_three(&rt, alloc),
        read_one(&rt, alloc),
    ];
    mark(alloc);
    let list = changes_next(alloc, &db, &records);
    mark(alloc);
    let list = match list {
        Ok(list) => list,
        Err(error) => {
            same(&rt, &error, &ReadError::Memory);
            changes_next(alloc, &db, &records).expect(&rt, "a second call")
        }
    };
    assert!(rt; list.as_slice() == changes_by_slot_4(&rt, alloc).as_slice());
}

/// What is changed by the fourth slot as edited: its own reply, and the rows of a read behind it.
fn changes_by_slot_4(rt: &impl Abort, alloc: Global) -> [Changed; 2] {
    let one = rows(rt, alloc, &[(3, "bob", 7)]);
    let two = rows(rt, alloc, &[(1, "ann", 5), (2, "ann", 6)]);
    [
        changed(rt, alloc, 4, Reply::Deleted(2), Reply::Deleted(1)),
        changed(rt, alloc, 7, one, two),
    ]
}

/// A database after an event.
fn after(rt: &impl Abort, db: Db, event: Event) -> Db {
    let applied = db.apply(Entry { worker: 1, event });
    let (next, _) = applied.expect(rt, "an outcome");
    next
}

/// Five slots, and a repair of the fourth with this many steps.
fn repairing(rt: &impl Abort, alloc: Global, steps: u64) -> Db {
    let mut db = Db::new(alloc, bank(rt, alloc), Limits::usual());
    for action in five_actions(rt, alloc) {
        db = after(rt, db, Event::Write(action));
    }
    db = after(rt, db, Event::Begin(delete_bob(rt, alloc)));
    for _ in 0..steps {
        db = after(rt, db, Event::Step);
    }
    db
}

/// Five slots, of which the fourth was repaired.
fn repaired(rt: &impl Abort, alloc: Global) -> Db {
    after(rt, repairing(rt, alloc, 5), Event::Switch)
}

/// Call 4 deleted the accounts of ann.
fn deleted_two(rt: &impl Abort, alloc: Global) -> Record {
    written(rt, alloc, 4, Reply::Deleted(2))
}

/// Call 5 updated the account of bob.
fn updated_one(rt: &impl Abort, alloc: Global) -> Record {
    written(rt, alloc, 5, Reply::Updated(1))
}

/// A call wrote the slot of its number.
fn written(rt: &impl Abort, alloc: Global, slot: u64, reply: Reply) -> Record {
    Record {
        call: slot,
        worker: 1,
        what: What::Write {
            slot,
            replies: items(rt, alloc, [reply]),
        },
    }
}

/// Call 6 read all accounts as they were before the delete.
fn read_three(rt: &impl Abort, alloc: Global) -> Record {
    let reply = rows(rt, alloc, &[(1, "ann", 5), (2, "ann", 6), (3, "bob", 7)]);
    read(rt, alloc, 6, 3, reply)
}

/// Call 7 read all accounts as they were behind it.
fn read_one(rt: &impl Abort, alloc: Global) -> Record {
    let reply = rows(rt, alloc, &[(3, "bob", 7)]);
    read(rt, alloc, 7, 4, reply)
}

/// A call read all accounts at a time.
fn read(rt: &impl Abort, alloc: Global, call: u64, time: u64, reply: Reply) -> Record {
    Record {
        call,
        worker: 1,
        what: What::Read {
            select: all(rt, alloc),
            time,
            reply,
        },
    }
}

/// A call whose only reply has changed.
fn changed(rt: &impl Abort, alloc: Global, call: u64, before: Reply, after: Reply) -> Changed {
    Changed {
        call,
        before: items(rt, alloc, [before]),
        after: After::Replies(items(rt, alloc, [after])),
    }
}
