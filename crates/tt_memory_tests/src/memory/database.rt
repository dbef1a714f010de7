//! Each event of a repair, and each read, where one growth is refused.
use super::looks::{Looks, looks_as_before};
use super::{add_to_all, delete, everything, insert, items, new_db, same};
use std::alloc::{AllocError, Global};
use std::process::Abort;
use tt_db::{Db, DbError, Edit, Entry, Event, Outcome, ReadError};
use tt_shared_tests::{Tally, mark};
use tt_values::{Action, Items, Reply, Write};

pub(super) fn entry(event: Event) -> Entry {
    Entry { worker: 1, event }
}

/// The database after an event, whose outcome is that one. If the call finds no memory, the old
/// database is as before, and the call is made again.
fn apply(rt: &impl Abort, alloc: Global, db: &Db, event: Event, want: &Outcome) -> Db {
    let again = event.clone().expect(rt, "memory");
    let before = Looks::of(rt, alloc, db);
    mark(alloc);
    let answer = db.apply(entry(event));
    mark(alloc);
    looks_as_before(rt, alloc, db, &before);
    let (next, outcome) = match answer {
        Ok(applied) => applied,
        Err(error) => {
            same(rt, &error, &DbError::Memory);
            db.apply(entry(again)).expect(rt, "a second call")
        }
    };
    same(rt, &outcome, want);
    next
}

/// All rows now.
fn all(rt: &impl Abort, alloc: Global, db: &Db) -> Reply {
    db.select(&everything(rt, alloc)).expect(rt, "a reply")
}

pub(super) fn write(rt: &impl Abort, alloc: Global, write: Write) -> Event {
    Event::Write(Action::of(items(rt, alloc, [write])))
}

pub(super) fn written(rt: &impl Abort, alloc: Global, slot: u64, reply: Reply) -> Outcome {
    Outcome::Written {
        slot,
        replies: items(rt, alloc, [reply]),
    }
}

/// The edit that replaces the delete of slot 4.
pub(super) fn delete_bob(rt: &impl Abort, alloc: Global) -> Items<Edit> {
    let action = Action::of(items(rt, alloc, [delete(rt, alloc, "bob")]));
    items(rt, alloc, [Edit::Replace(4, action)])
}

/// Three inserts, a delete of two rows, and an update of the row that is left.
pub(super) fn five_slots(rt: &impl Abort, alloc: Global) -> Db {
    let mut db = new_db(rt, alloc);
    for (slot, row) in [(1, (1, "ann", 5)), (2, (2, "ann", 6)), (3, (3, "bob", 7))] {
        let (id, owner, balance) = row;
        let insert = write(rt, alloc, insert(rt, alloc, id, owner, balance));
        let want = written(rt, alloc, slot, Reply::Inserted);
        db = apply(rt, alloc, &db, insert, &want);
    }
    let deleted = written(rt, alloc, 4, Reply::Deleted(2));
    let db = apply(
        rt,
        alloc,
        &db,
        write(rt, alloc, delete(rt, alloc, "ann")),
        &deleted,
    );
    let updated = written(rt, alloc, 5, Reply::Updated(1));
    apply(
        rt,
        alloc,
        &db,
        write(rt, alloc, add_to_all(rt, alloc, 1)),
        &updated,
    )
}

/// The five slots, and the repair of the fourth with this many steps.
pub(super) fn repairing(rt: &impl Abort, alloc: Global, steps: u64) -> Db {
    let begin = Event::Begin(delete_bob(rt, alloc));
    let mut db = apply(rt, alloc, &five_slots(rt, alloc), begin, &Outcome::Begun);
    for slot in 1..=steps {
        let want = Outcome::Stepped {
            slot,
            rerun: slot >= 4,
        };
        db = apply(rt, alloc, &db, Event::Step, &want);
    }
    db
}

/// The reply has these rows.
fn has_rows(rt: &impl Abort, alloc: Global, reply: &Reply, accounts: &[Account]) {
    let mut rows = Vec::new(alloc);
    for (id, owner, balance) in accounts {
        let row = super::row(rt, alloc, *id, *owner, *balance);
        rows.push(row).expect(rt, "memory");
    }
    let rows = Items::new(alloc, rows).expect(rt, "memory");
    same(rt, reply, &Reply::Rows(rows));
}

/// An account: its id, its owner and its balance.
type Account = (i64, &'static str, i64);

#[test]
fn events_of_a_repair(rt: HostRuntime) {
    let alloc = rt.alloc();
    let _tally = Tally::new(alloc);
    let db = repairing(&rt, alloc, 5);
    let want = Outcome::Switched {
        generation: 1,
        slots: 5,
        rerun: 2,
    };
    let db = apply(&rt, alloc, &db, Event::Switch, &want);
    same(&rt, &db.events(), &12);
    has_rows(
        &rt,
        alloc,
        &all(&rt, alloc, &db),
        &[(1, "ann", 6), (2, "ann", 7)],
    );
}

#[test]
fn a_repair_is_given_up(rt: HostRuntime) {
    let alloc = rt.alloc();
    let _tally = Tally::new(alloc);
    let db = repairing(&rt, alloc, 4);
    let db = apply(&rt, alloc, &db, Event::Abort, &Outcome::Aborted);
    same(&rt, &db.events(), &11);
    has_rows(&rt, alloc, &all(&rt, alloc, &db), &[(3, "bob", 8)]);
}

/// A write beside a repair, as `advanced` makes it: without memory it loses the database.
fn advances(rt: &impl Abort, alloc: Global, db: Db) {
    let event = write(rt, alloc, insert(rt, alloc, 4, "dan", 1));
    mark(alloc);
    let answer = db.advanced(entry(event));
    mark(alloc);
    let Ok((next, outcome)) = answer else {
        return;
    };
    same(rt, &outcome, &Ok(written(rt, alloc, 6, Reply::Inserted)));
    has_rows(
        rt,
        alloc,
        &all(rt, alloc, &next),
        &[(3, "bob", 8), (4, "dan", 1)],
    );
}

#[test]
fn a_write_in_place(rt: HostRuntime) {
    let alloc = rt.alloc();
    let _tally = Tally::new(alloc);
    advances(&rt, alloc, repairing(&rt, alloc, 4));
}

/// What a read returns, made again where it finds no memory.
fn reads(
    rt: &impl Abort,
    first: Result<Reply, ReadError>,
    again: Result<Reply, ReadError>,
) -> Reply {
    match first {
        Ok(reply) => {
            same(rt, &again, &Ok(reply));
        }
        Err(error) => same(rt, &error, &ReadError::Memory),
    }
    again.expect(rt, "a second call")
}

#[test]
fn reads_of_a_repair(rt: HostRuntime) {
    let alloc = rt.alloc();
    let _tally = Tally::new(alloc);
    let db = repairing(&rt, alloc, 4);
    let select = everything(&rt, alloc);
    mark(alloc);
    let now = db.select(&select);
    let then = db.select_at(&select, 3);
    let next = db.preview(&select);
    let next_then = db.preview_at(&select, 1);
    mark(alloc);
    let now = reads(&rt, now, db.select(&select));
    has_rows(&rt, alloc, &now, &[(3, "bob", 8)]);
    let then = reads(&rt, then, db.select_at(&select, 3));
    has_rows(
        &rt,
        alloc,
        &then,
        &[(1, "ann", 5), (2, "ann", 6), (3, "bob", 7)],
    );
    let next = reads(&rt, next, db.preview(&select));
    has_rows(&rt, alloc, &next, &[(1, "ann", 5), (2, "ann", 6)]);
    let next_then = reads(&rt, next_then, db.preview_at(&select, 1));
    has_rows(&rt, alloc, &next_then, &[(1, "ann", 5)]);
}

#[test]
fn reads_of_a_closed_generation(rt: HostRuntime) {
    let alloc = rt.alloc();
    let _tally = Tally::new(alloc);
    let want = Outcome::Switched {
        generation: 1,
        slots: 5,
        rerun: 2,
    };
    let db = apply(&rt, alloc, &repairing(&rt, alloc, 5), Event::Switch, &want);
    let select = everything(&rt, alloc);
    mark(alloc);
    let closed = db.select_in(0, &select, 5);
    mark(alloc);
    let closed = reads(&rt, closed, db.select_in(0, &select, 5));
    has_rows(&rt, alloc, &closed, &[(3, "bob", 8)]);
}
