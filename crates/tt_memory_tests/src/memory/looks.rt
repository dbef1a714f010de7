//! What can be seen of a database at little cost.
use super::{everything, same};
use std::alloc::Global;
use std::process::Abort;
use tt_db::{Db, Entry, FirstRows, Limits, Progress, ReadError, Slot};
use tt_values::{Reply, Row, RowId, Select};

/// What a database tells of itself, and what it answers.
#[derive(Debug, PartialEq, Drop)]
pub(super) struct Looks {
    status: Status,
    ends: Ends,
    /// The rows of the keys 1 and 3.
    rows: [Option<Row>; 2],
    /// All rows now, at time 1, and at the end of the oldest generation.
    current: [Result<Reply, ReadError>; 3],
    /// All rows of the next generation, as far as it is and at time 1.
    next: [Result<Reply, ReadError>; 2],
    /// The second row now, and the first one of the next generation.
    pages: [Result<FirstRows, ReadError>; 2],
}

/// The counts of a database, and what doesn't change.
#[derive(Clone, Copy, Debug, PartialEq)]
struct Status {
    now: u64,
    generation: u64,
    oldest: u64,
    events: u64,
    repair: Option<Progress>,
    limits: Limits,
    tables: usize,
}

/// The last ones of the entries, of the slots, and of the slots that a repair has done.
#[derive(Debug, PartialEq, Drop)]
struct Ends {
    entry: Option<Entry>,
    slot: Option<Slot>,
    next_slot: Option<Slot>,
}

impl Looks {
    pub(super) fn of(rt: &impl Abort, alloc: Global, db: &Db) -> Looks {
        let all = everything(rt, alloc);
        Looks {
            status: Status::of(db),
            ends: Ends::of(rt, db),
            rows: [row_now(rt, db, 1), row_now(rt, db, 3)],
            current: current(rt, db, &all),
            next: [db.preview(&all), db.preview_at(&all, 1)],
            pages: pages(db, &all),
        }
    }
}

fn current(rt: &impl Abort, db: &Db, all: &Select) -> [Result<Reply, ReadError>; 3] {
    let oldest = db.oldest();
    let last = db.last_time(oldest).expect(rt, "a generation");
    [
        db.select(all),
        db.select_at(all, 1),
        db.select_in(oldest, all, last),
    ]
}

fn pages(db: &Db, all: &Select) -> [Result<FirstRows, ReadError>; 2] {
    [
        db.page_in(db.generation(), all, db.now(), Some(1), 1),
        db.preview_page(all, None, 1),
    ]
}

impl Status {
    fn of(db: &Db) -> Status {
        Status {
            now: db.now(),
            generation: db.generation(),
            oldest: db.oldest(),
            events: db.events(),
            repair: db.repair(),
            limits: db.limits(),
            tables: db.catalog().len(),
        }
    }
}

impl Ends {
    fn of(rt: &impl Abort, db: &Db) -> Ends {
        Ends {
            entry: copy_of(rt, db.entry(db.events())),
            slot: copy_of(rt, db.slot(db.now())),
            next_slot: copy_of(rt, db.next_slot(db.slots_done())),
        }
    }
}

/// A copy of what is lent, if something is.
fn copy_of<T: Clone>(rt: &impl Abort, lent: Option<&T>) -> Option<T> {
    match lent {
        Some(value) => Some(value.clone().expect(rt, "memory")),
        None => None,
    }
}

/// The row of a key now.
fn row_now(rt: &impl Abort, db: &Db, key: i64) -> Option<Row> {
    copy_of(rt, db.row_at(RowId { table: 0, key }, db.now()))
}

/// Asserts that a database looks as it did.
pub(super) fn looks_as_before(rt: &impl Abort, alloc: Global, db: &Db, before: &Looks) {
    same(rt, &Looks::of(rt, alloc, db), before);
}
