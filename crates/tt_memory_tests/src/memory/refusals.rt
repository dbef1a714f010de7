//! Calls of a database that take no memory: what it tells of itself, and what it refuses.
use super::database::{delete_bob, entry, five_slots, repairing, write};
use super::{accounts, everything, insert, items, same};
use std::alloc::{AllocError, Global};
use std::process::Abort;
use tt_db::{Db, DbError, Edit, Event, Limits, Progress, ReadError};
use tt_shared_tests::{Tally, quiet};
use tt_values::{CheckError, RowId, Select, Write};

/// A database tells why it would refuse an event, and refuses it, without memory, beside it and in
/// place.
fn refuses(rt: &impl Abort, alloc: Global, db: Db, event: Event, error: DbError) -> Db {
    let again = event.clone().expect(rt, "an owner");
    quiet(alloc);
    let refusal = db.refusal(&event);
    let refused = db.apply(entry(event));
    let answer = db.advanced(entry(again));
    quiet(alloc);
    same(rt, &refusal, &Some(error));
    same(rt, &refused.err(), &Some(error));
    match answer {
        Ok((db, outcome)) => {
            same(rt, &outcome.err(), &Some(error));
            db
        }
        Err(AllocError) => panic!(rt; "no memory for a refusal"),
    }
}

/// An event with a statement on a table that isn't there.
fn faulty(rt: &impl Abort, alloc: Global) -> Event {
    let delete = Write::delete(alloc, 1, []).expect(rt, "memory");
    write(rt, alloc, delete)
}

/// Edits that cancel these slots.
fn cancels(rt: &impl Abort, alloc: Global, slots: [u64; 2]) -> Event {
    let [first, second] = slots;
    Event::Begin(items(rt, alloc, [Edit::Cancel(first), Edit::Cancel(second)]))
}

#[test]
fn events_that_are_refused(rt: HostRuntime) {
    let alloc = rt.alloc();
    let _tally = Tally::new(alloc);
    let no_table = DbError::Statement(CheckError::NoTable);
    let db = refuses(
        &rt,
        alloc,
        five_slots(&rt, alloc),
        faulty(&rt, alloc),
        no_table,
    );
    let db = refuses(&rt, alloc, db, Event::Step, DbError::NotRepairing);
    let db = refuses(&rt, alloc, db, Event::Switch, DbError::NotRepairing);
    let db = refuses(&rt, alloc, db, Event::Abort, DbError::NotRepairing);
    let missing = cancels(&rt, alloc, [1, 9]);
    let db = refuses(&rt, alloc, db, missing, DbError::NoSlot { t: 9 });
    let twice = cancels(&rt, alloc, [2, 2]);
    let db = refuses(&rt, alloc, db, twice, DbError::EditTwice { t: 2 });
    same(&rt, &db.events(), &5);
}

#[test]
fn events_that_a_repair_refuses(rt: HostRuntime) {
    let alloc = rt.alloc();
    let _tally = Tally::new(alloc);
    let begin = Event::Begin(delete_bob(&rt, alloc));
    let db = repairing(&rt, alloc, 4);
    let db = refuses(&rt, alloc, db, begin, DbError::Repairing);
    let left = DbError::NotCaughtUp { left: 1 };
    let db = refuses(&rt, alloc, db, Event::Switch, left);
    same(&rt, &db.events(), &10);
    let db = repairing(&rt, alloc, 5);
    let db = refuses(&rt, alloc, db, Event::Step, DbError::NothingLeft);
    same(&rt, &db.events(), &11);
}

/// A database with room for no slot.
fn full(rt: &impl Abort, alloc: Global) -> Db {
    let limits = Limits {
        slots: 0,
        ..Limits::usual()
    };
    assert!(rt; limits.fits());
    let catalog = accounts(rt, alloc);
    quiet(alloc);
    let db = Db::new(alloc, catalog, limits);
    quiet(alloc);
    db
}

#[test]
fn a_full_database(rt: HostRuntime) {
    let alloc = rt.alloc();
    let _tally = Tally::new(alloc);
    let insert = write(&rt, alloc, insert(&rt, alloc, 1, "ann", 5));
    let error = DbError::Full { limit: 0 };
    let db = refuses(&rt, alloc, full(&rt, alloc), insert, error);
    same(&rt, &(db.now(), db.events()), &(0, 0));
}

/// What a database tells of itself: five slots, and a repair with one slot left.
fn tells(rt: &impl Abort, db: &Db) {
    same(
        rt,
        &(db.now(), db.events(), db.generation(), db.oldest()),
        &(5, 10, 0, 0),
    );
    same(rt, &(db.last_time(0), db.last_time(1)), &(Some(5), None));
    same(rt, &db.catalog().len(), &1);
    let progress = Progress {
        done: 4,
        left: 1,
        rerun: 1,
    };
    same(rt, &db.repair(), &Some(progress));
    assert!(rt; db.entry(0).is_none() && db.entry(10).is_some() && db.entry(11).is_none());
    same(rt, &(db.place_of(5), db.place_of(6)), &(Some(5), None));
    assert!(rt; db.slot(0).is_none() && db.slot(5).is_some() && db.slot(6).is_none());
    assert!(rt; db.next_slot(0).is_none() && db.next_slot(4).is_some());
    assert!(rt; db.next_slot(5).is_none());
    assert!(rt; db.versions(0).is_some() && db.versions(1).is_none());
}

/// What it tells of its repair, its limits and its rows.
fn tells_more(rt: &impl Abort, db: &Db) {
    same(rt, &(db.slots_done(), db.slots_left()), &(4, 1));
    assert!(rt; db.is_repairing());
    same(rt, &db.limits(), &Limits::usual());
    let of_ann = RowId { table: 0, key: 1 };
    assert!(rt; db.row_at(of_ann, 0).is_none() && db.row_at(of_ann, 1).is_some());
    let of_nobody = RowId { table: 1, key: 1 };
    assert!(rt; db.row_at(of_nobody, 1).is_none());
    same(rt, &db.refusal(&Event::Step), &None);
    same(rt, &db.refusal(&Event::Abort), &None);
}

/// Selects with a fault, which are refused by each read.
fn refuses_select(rt: &impl Abort, db: &Db, select: &Select) {
    let error = Some(ReadError::Statement(CheckError::NoTable));
    same(rt, &db.select(select).err(), &error);
    same(rt, &db.select_at(select, 3).err(), &error);
    same(rt, &db.select_in(0, select, 3).err(), &error);
    same(rt, &db.preview(select).err(), &error);
    same(rt, &db.preview_at(select, 3).err(), &error);
    same(rt, &db.page_in(0, select, 3, None, 1).err(), &error);
    same(rt, &db.preview_page(select, None, 1).err(), &error);
}

/// Times and generations that aren't there.
fn refuses_time(rt: &impl Abort, db: &Db, select: &Select) {
    let later = Some(ReadError::Later { now: 5 });
    same(rt, &db.select_at(select, 6).err(), &later);
    same(rt, &db.select_in(0, select, 6).err(), &later);
    same(rt, &db.page_in(0, select, 6, None, 1).err(), &later);
    let later = Some(ReadError::Later { now: 4 });
    same(rt, &db.preview_at(select, 5).err(), &later);
    let missing = ReadError::NoGeneration {
        oldest: 0,
        newest: 0,
    };
    same(rt, &db.select_in(1, select, 0).err(), &Some(missing));
    same(rt, &db.page_in(1, select, 0, None, 1).err(), &Some(missing));
}

#[test]
fn reads_that_are_refused(rt: HostRuntime) {
    let alloc = rt.alloc();
    let _tally = Tally::new(alloc);
    let db = repairing(&rt, alloc, 4);
    let alone = five_slots(&rt, alloc);
    let all = everything(&rt, alloc);
    let faulty = Select::all(alloc, 1).expect(&rt, "memory");
    quiet(alloc);
    tells(&rt, &db);
    tells_more(&rt, &db);
    refuses_select(&rt, &db, &faulty);
    refuses_time(&rt, &db, &all);
    let idle = Some(ReadError::NotRepairing);
    same(&rt, &alone.preview(&all).err(), &idle);
    same(&rt, &alone.preview_page(&all, None, 1).err(), &idle);
    quiet(alloc);
}
