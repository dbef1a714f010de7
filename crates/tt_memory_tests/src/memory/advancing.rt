//! Events that are applied in place, where one growth is refused.
use super::database::{delete_bob, entry, write, written};
use super::looks::{Looks, looks_as_before};
use super::{account_columns, accounts, add_to_all, delete, insert, items, same};
use std::alloc::{AllocError, Global};
use std::process::Abort;
use tt_db::{Db, DbError, Edit, Event, Limits, Outcome};
use tt_shared_tests::{Tally, mark};
use tt_values::{Reply, Write};

/// How many events there are after the first repair.
const EVENTS: u64 = 12;

/// A database that keeps two closed generations.
fn empty(rt: &impl Abort, alloc: Global) -> Db {
    let limits = Limits {
        keep: 2,
        ..Limits::usual()
    };
    assert!(rt; limits.fits());
    Db::new(alloc, accounts(rt, alloc), limits)
}

/// Applies an event with ample memory.
fn goes_on(rt: &impl Abort, db: &mut Db, event: Event) {
    assert!(rt; db.advance(entry(event)).is_ok());
}

/// Three inserts, a delete of two rows, and an update of the row that is left.
fn five_writes(rt: &impl Abort, alloc: Global) -> [Write; 5] {
    [
        insert(rt, alloc, 1, "ann", 5),
        insert(rt, alloc, 2, "ann", 6),
        insert(rt, alloc, 3, "bob", 7),
        delete(rt, alloc, "ann"),
        add_to_all(rt, alloc, 1),
    ]
}

/// Five slots, of which a first repair has replaced the fourth: 12 entries.
fn repaired(rt: &impl Abort, alloc: Global) -> Db {
    let mut db = empty(rt, alloc);
    for action in five_writes(rt, alloc) {
        goes_on(rt, &mut db, write(rt, alloc, action));
    }
    goes_on(rt, &mut db, Event::Begin(delete_bob(rt, alloc)));
    for _ in 0..5 {
        goes_on(rt, &mut db, Event::Step);
    }
    goes_on(rt, &mut db, Event::Switch);
    db
}

/// The events after the first repair: a write, a repair that is given up after a step, and one that
/// is finished.
fn event(rt: &impl Abort, alloc: Global, number: u64) -> Event {
    match number {
        0 => write(rt, alloc, insert(rt, alloc, 4, "dan", 1)),
        1 | 4 => Event::Begin(items(rt, alloc, [Edit::Cancel(1)])),
        3 => Event::Abort,
        11 => Event::Switch,
        _ => Event::Step,
    }
}

/// Their outcomes. Of the six slots the cancelled one and the update of all rows are due.
fn outcome(rt: &impl Abort, alloc: Global, number: u64) -> Outcome {
    match number {
        0 => written(rt, alloc, 6, Reply::Inserted),
        1 | 4 => Outcome::Begun,
        2 => Outcome::Stepped {
            slot: 1,
            rerun: true,
        },
        3 => Outcome::Aborted,
        11 => Outcome::Switched {
            generation: 2,
            slots: 6,
            rerun: 2,
        },
        _ => Outcome::Stepped {
            slot: number.saturating_sub(4),
            rerun: number == 5 || number == 9,
        },
    }
}

/// The database before the event of this number, which nobody else owns.
pub(super) fn before(rt: &impl Abort, alloc: Global, number: u64) -> Db {
    let mut db = repaired(rt, alloc);
    for earlier in 0..number {
        goes_on(rt, &mut db, event(rt, alloc, earlier));
    }
    db
}

/// Applies the event of this number in place.
fn advances(rt: &impl Abort, alloc: Global, db: Db, number: u64) {
    let mut db = db;
    let event = entry(event(rt, alloc, number));
    mark(alloc);
    let answer = db.advance(event);
    mark(alloc);
    match answer {
        Ok(got) => {
            same(rt, &got, &outcome(rt, alloc, number));
            let next = before(rt, alloc, number.saturating_add(1));
            looks_as_before(rt, alloc, &db, &Looks::of(rt, alloc, &next));
        }
        Err(error) => {
            same(rt, &error, &DbError::Memory);
            is_emptied(rt, alloc, db);
        }
    }
}

/// Nothing is left of a database but its catalog and its limits, and it goes on as a new one does.
fn is_emptied(rt: &impl Abort, alloc: Global, db: Db) {
    let (mut db, mut new) = (db, empty(rt, alloc));
    looks_as_before(rt, alloc, &db, &Looks::of(rt, alloc, &new));
    let columns = account_columns(rt, alloc);
    same(rt, &db.catalog().find("acct"), &Some(0));
    same(rt, &db.catalog().table(0), &Some(&columns));
    begins_anew(rt, alloc, &mut db);
    begins_anew(rt, alloc, &mut new);
    looks_as_before(rt, alloc, &db, &Looks::of(rt, alloc, &new));
}

/// A write, and a repair without edits, which closes a generation.
fn begins_anew(rt: &impl Abort, alloc: Global, db: &mut Db) {
    goes_on(rt, db, write(rt, alloc, insert(rt, alloc, 1, "ann", 5)));
    goes_on(rt, db, Event::Begin(items(rt, alloc, [])));
    goes_on(rt, db, Event::Step);
    goes_on(rt, db, Event::Switch);
}

/// Each kind of event is applied in place, or leaves an empty database.
#[test]
fn events_in_place(rt: HostRuntime) {
    let alloc = rt.alloc();
    let _tally = Tally::new(alloc);
    for number in 0..EVENTS {
        advances(&rt, alloc, before(&rt, alloc, number), number);
    }
}

/// Another owner of a database, though the first call may find no memory.
fn checkpoint(rt: &impl Abort, alloc: Global, db: &Db) -> Db {
    mark(alloc);
    let kept = db.share();
    mark(alloc);
    match kept {
        Ok(kept) => kept,
        Err(AllocError) => db.share().expect(rt, "a second call"),
    }
}

/// A checkpoint looks as before, whatever becomes of the database that it was made of.
#[test]
fn a_checkpoint_stays(rt: HostRuntime) {
    let alloc = rt.alloc();
    let _tally = Tally::new(alloc);
    for number in 0..EVENTS {
        let db = before(&rt, alloc, number);
        let looks = Looks::of(&rt, alloc, &db);
        let kept = checkpoint(&rt, alloc, &db);
        advances(&rt, alloc, db, number);
        looks_as_before(&rt, alloc, &kept, &looks);
    }
}
