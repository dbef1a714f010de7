//! Pages of the rows of a database, where one growth is refused.
use super::advancing::before;
use super::{everything, owned_by, row, same};
use std::alloc::Global;
use std::process::Abort;
use tt_db::{Db, FirstRows, ReadError};
use tt_shared_tests::{Tally, mark};
use tt_values::{Items, Select};

/// An account: its id, its owner and its balance.
type Account = (i64, &'static str, i64);

/// A page of one account.
fn page_of(rt: &impl Abort, alloc: Global, account: Account, more: bool) -> FirstRows {
    let (id, owner, balance) = account;
    let row = row(rt, alloc, id, owner, balance);
    let rows = Items::of(alloc, [row]).expect(rt, "memory");
    FirstRows { rows, more }
}

/// A page that was asked for twice is that one; only the first call may lack memory.
fn is_page(
    rt: &impl Abort,
    first: Result<FirstRows, ReadError>,
    again: Result<FirstRows, ReadError>,
    want: FirstRows,
) {
    match first {
        Ok(page) => same(rt, &page, &want),
        Err(error) => same(rt, &error, &ReadError::Memory),
    }
    same(rt, &again, &Ok(want));
}

/// Asserts a page of one account, behind a key, of a generation at a time.
fn has_page(
    rt: &impl Abort,
    alloc: Global,
    db: &Db,
    (generation, time): (u64, u64),
    after: Option<i64>,
    account: Account,
) {
    let all = everything(rt, alloc);
    mark(alloc);
    let first = db.page_in(generation, &all, time, after, 1);
    mark(alloc);
    let again = db.page_in(generation, &all, time, after, 1);
    is_page(rt, first, again, page_of(rt, alloc, account, true));
}

/// Asserts the last page of ann's accounts.
fn has_last_page(rt: &impl Abort, alloc: Global, db: &Db) {
    let owned = owned_by(rt, alloc, "ann");
    let of_ann = Select::matching(alloc, 0, [owned]).expect(rt, "memory");
    mark(alloc);
    let first = db.page_in(1, &of_ann, 6, Some(1), 9);
    mark(alloc);
    let again = db.page_in(1, &of_ann, 6, Some(1), 9);
    is_page(rt, first, again, page_of(rt, alloc, (2, "ann", 7), false));
}

/// Pages of the current generation, now and earlier, and of a closed one.
#[test]
fn pages_of_selects(rt: HostRuntime) {
    let alloc = rt.alloc();
    let _tally = Tally::new(alloc);
    let db = before(&rt, alloc, 1);
    has_page(&rt, alloc, &db, (1, 6), Some(1), (2, "ann", 7));
    has_page(&rt, alloc, &db, (1, 3), Some(1), (2, "ann", 6));
    has_page(&rt, alloc, &db, (0, 2), None, (1, "ann", 5));
    has_last_page(&rt, alloc, &db);
}

/// Pages of the next generation, in which the first of six slots is cancelled.
#[test]
fn pages_of_previews(rt: HostRuntime) {
    let alloc = rt.alloc();
    let _tally = Tally::new(alloc);
    let db = before(&rt, alloc, 11);
    let all = everything(&rt, alloc);
    mark(alloc);
    let first = db.preview_page(&all, None, 1);
    let last = db.preview_page(&all, Some(2), 1);
    mark(alloc);
    let (first_again, last_again) = (
        db.preview_page(&all, None, 1),
        db.preview_page(&all, Some(2), 1),
    );
    let want = page_of(&rt, alloc, (2, "ann", 7), true);
    is_page(&rt, first, first_again, want);
    let want = page_of(&rt, alloc, (4, "dan", 1), false);
    is_page(&rt, last, last_again, want);
}
