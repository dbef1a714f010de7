//! Rows that differ between the generations of a database, where one growth is refused.
use super::advancing::before;
use super::{row, same};
use std::alloc::Global;
use std::fmt::Debug;
use std::process::Abort;
use tt_db::{Db, FirstChanges, ReadError, RowChange};
use tt_shared_tests::{Tally, mark};
use tt_values::Items;

/// What a call told that was made twice; only the first call may lack memory.
fn told<T: PartialEq + Debug + Drop>(
    rt: &impl Abort,
    first: Result<T, ReadError>,
    again: Result<T, ReadError>,
) -> T {
    let again = again.expect(rt, "memory");
    match first {
        Ok(first) => same(rt, &first, &again),
        Err(error) => same(rt, &error, &ReadError::Memory),
    }
    again
}

/// The account of ann with this id and balance is gone.
fn gone(rt: &impl Abort, alloc: Global, id: i64, balance: i64) -> RowChange {
    RowChange {
        key: id,
        before: Some(row(rt, alloc, id, "ann", balance)),
        after: None,
    }
}

/// The account of ann with this id and balance is there again.
fn come(rt: &impl Abort, alloc: Global, id: i64, balance: i64) -> RowChange {
    RowChange {
        key: id,
        before: None,
        after: Some(row(rt, alloc, id, "ann", balance)),
    }
}

/// Asserts that the only row that differs is that of the cancelled insert.
fn one_differs(rt: &impl Abort, alloc: Global, db: &Db) {
    mark(alloc);
    let (all, page) = (db.diff(0), db.diff_page(0, None, 1));
    mark(alloc);
    let all = told(rt, all, db.diff(0));
    let page = told(rt, page, db.diff_page(0, None, 1));
    let want = Items::of(alloc, [gone(rt, alloc, 1, 6)]).expect(rt, "memory");
    same(rt, &all, &want);
    same(
        rt,
        &page,
        &FirstChanges {
            changes: want,
            more: false,
        },
    );
}

/// Asserts the second of the three rows that differed at the first switch.
fn second_differed(rt: &impl Abort, alloc: Global, db: &Db) {
    mark(alloc);
    let (all, page) = (db.diff_in(0, 0), db.diff_page_in(0, 0, Some(1), 1));
    mark(alloc);
    let all = told(rt, all, db.diff_in(0, 0));
    let page = told(rt, page, db.diff_page_in(0, 0, Some(1), 1));
    assert_eq!(rt; all.as_slice().len(), 3);
    let changes = Items::of(alloc, [come(rt, alloc, 2, 7)]).expect(rt, "memory");
    same(
        rt,
        &page,
        &FirstChanges {
            changes,
            more: true,
        },
    );
}

/// The rows that differ by a repair that has done all slots, and by one that closed a generation.
#[test]
fn rows_that_differ(rt: HostRuntime) {
    let alloc = rt.alloc();
    let _tally = Tally::new(alloc);
    let db = before(&rt, alloc, 11);
    one_differs(&rt, alloc, &db);
    second_differed(&rt, alloc, &db);
}
