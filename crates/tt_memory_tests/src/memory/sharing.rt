//! How many growths one more row of a large table meets.
use super::looks::{Looks, looks_as_before};
use super::{insert, items, new_db, same};
use std::alloc::Global;
use std::process::Abort;
use tt_db::{Db, DbError, Entry, Event};
use tt_shared_tests::{Tally, mark};
use tt_values::{Action, Write};

/// The number of rows.
const ROWS: i64 = 5_000;

fn entry(rt: &impl Abort, alloc: Global, write: Write) -> Entry {
    Entry {
        worker: 1,
        event: Event::Write(Action::of(items(rt, alloc, [write]))),
    }
}

/// A database of many rows, inserted by rising key.
fn large(rt: &impl Abort, alloc: Global) -> Db {
    let mut db = new_db(rt, alloc);
    for key in 0..ROWS {
        let entry = entry(rt, alloc, insert(rt, alloc, key, "ann", 5));
        let (next, outcome) = db.advanced(entry).expect(rt, "memory");
        assert!(rt; outcome.is_ok());
        db = next;
    }
    db
}

/// `tests/hostile.py` expects fewer growths here than there are rows.
#[test]
fn one_more_row_of_a_large_table(rt: HostRuntime) {
    let alloc = rt.alloc();
    let _tally = Tally::new(alloc);
    let db = large(&rt, alloc);
    let row = insert(&rt, alloc, ROWS, "bob", 6);
    let again = row.copy().expect(&rt, "memory");
    let (first, second) = (entry(&rt, alloc, row), entry(&rt, alloc, again));
    let before = Looks::of(&rt, alloc, &db);
    mark(alloc);
    let next = db.apply(first);
    mark(alloc);
    looks_as_before(&rt, alloc, &db, &before);
    let (next, _) = match next {
        Ok(applied) => applied,
        Err(error) => {
            same(&rt, &error, &DbError::Memory);
            db.apply(second).expect(&rt, "a second call")
        }
    };
    same(&rt, &next.now(), &(ROWS as u64 + 1));
}
