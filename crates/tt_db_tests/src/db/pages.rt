//! Pages of the rows that selects and previews have.
use super::repairs::{begin_and_step, delete_bob, write_five_slots};
use super::{
    ACCT, Account, any_account, done, id_is, new_db, open, owner_is, rows, same, select_all,
};
use std::alloc::Global;
use std::process::Abort;
use tt_db::{Db, FirstRows, ReadError};
use tt_values::{Equal, Items, Reply, Select};

/// 400 accounts, written one by one: each fourth one is ann's, and balances go from 0 to 2.
fn many_accounts(rt: &impl Abort, alloc: Global) -> Db {
    let mut db = new_db(rt, alloc);
    for id in 1..401 {
        let owner = if id % 4 == 0 { "ann" } else { "bob" };
        open(rt, alloc, &mut db, (id, owner, id % 3));
    }
    db
}

/// A select of the accounts that meet a condition.
fn accounts_with(equals: Items<Equal>) -> Select {
    Select {
        table: ACCT,
        equals,
    }
}

/// The condition that an account has this balance.
fn balance_is(rt: &impl Abort, alloc: Global, balance: i64) -> Items<Equal> {
    Items::of(alloc, [Equal::int(2, balance)]).expect(rt, "memory")
}

/// Asserts that a page has these accounts, in this order, and whether more follow.
fn has_page(rt: &impl Abort, alloc: Global, page: FirstRows, accounts: &[Account], more: bool) {
    let want = (rows(rt, alloc, accounts), more);
    same(rt, &(Reply::Rows(page.rows), page.more), &want);
}

/// Asserts what a page of the accounts had at time 350, from a key on.
fn had_page(
    rt: &impl Abort,
    alloc: Global,
    db: &Db,
    equals: Items<Equal>,
    page: (i64, usize),
    accounts: &[Account],
    more: bool,
) {
    let (after, most) = page;
    let page = db.page_in(0, &accounts_with(equals), 350, Some(after), most);
    has_page(rt, alloc, page.expect(rt, "a page"), accounts, more);
}

/// Asserts pages of the accounts by their balance, which no index lists.
fn had_pages_by_balance(rt: &impl Abort, alloc: Global, db: &Db) {
    let ones = balance_is(rt, alloc, 1);
    let first = [
        (103, "bob", 1),
        (106, "bob", 1),
        (109, "bob", 1),
        (112, "ann", 1),
    ];
    had_page(rt, alloc, db, ones, (100, 4), &first, true);
    let last = [(343, "bob", 1), (346, "bob", 1), (349, "bob", 1)];
    let ones = balance_is(rt, alloc, 1);
    had_page(rt, alloc, db, ones, (340, 3), &last, false);
    let ones = balance_is(rt, alloc, 1);
    had_page(rt, alloc, db, ones, (343, 1), &[(346, "bob", 1)], true);
}

/// Asserts pages of the accounts by their owner, which an index lists.
fn had_pages_by_owner(rt: &impl Abort, alloc: Global, db: &Db) {
    let ann = owner_is(rt, alloc, "ann");
    had_page(
        rt,
        alloc,
        db,
        ann,
        (101, 2),
        &[(104, "ann", 2), (108, "ann", 0)],
        true,
    );
    let ann = owner_is(rt, alloc, "ann");
    had_page(
        rt,
        alloc,
        db,
        ann,
        (340, 2),
        &[(344, "ann", 2), (348, "ann", 0)],
        false,
    );
    let bob = owner_is(rt, alloc, "bob");
    had_page(
        rt,
        alloc,
        db,
        bob,
        (347, 9),
        &[(349, "bob", 1), (350, "bob", 2)],
        false,
    );
}

/// Asserts pages of the one account with a key.
fn had_pages_by_key(rt: &impl Abort, alloc: Global, db: &Db) {
    let one = [(200, "ann", 2)];
    had_page(rt, alloc, db, id_is(rt, alloc, 200), (199, 1), &one, false);
    had_page(rt, alloc, db, id_is(rt, alloc, 200), (199, 0), &[], true);
    had_page(rt, alloc, db, id_is(rt, alloc, 200), (200, 1), &[], false);
    had_page(rt, alloc, db, id_is(rt, alloc, 351), (200, 1), &[], false);
}

#[test]
fn a_page_has_the_first_rows_after_a_key(rt: HostRuntime) {
    let alloc = rt.alloc();
    let db = many_accounts(&rt, alloc);
    had_pages_by_balance(&rt, alloc, &db);
    had_pages_by_owner(&rt, alloc, &db);
    had_pages_by_key(&rt, alloc, &db);
    had_page(
        &rt,
        alloc,
        &db,
        any_account(&rt, alloc),
        (i64::MAX, 0),
        &[],
        false,
    );
    let all = select_all(&rt, alloc, ACCT);
    let first = db.page_in(0, &all, 400, None, 1).expect(&rt, "a page");
    has_page(&rt, alloc, first, &[(1, "bob", 1)], true);
    let later = db.page_in(0, &all, 401, None, 1);
    same(&rt, &later.err(), &Some(ReadError::Later { now: 400 }));
    done(db);
}

#[test]
fn a_preview_has_pages(rt: HostRuntime) {
    let alloc = rt.alloc();
    let mut db = new_db(&rt, alloc);
    write_five_slots(&rt, alloc, &mut db);
    let all = select_all(&rt, alloc, ACCT);
    let idle = db.preview_page(&all, None, 1);
    same(&rt, &idle.err(), &Some(ReadError::NotRepairing));
    let edit = delete_bob(&rt, alloc);
    begin_and_step(&rt, alloc, &mut db, [edit], 5);
    let first = db.preview_page(&all, None, 1).expect(&rt, "a page");
    has_page(&rt, alloc, first, &[(1, "ann", 6)], true);
    let last = db.preview_page(&all, Some(1), 1).expect(&rt, "a page");
    has_page(&rt, alloc, last, &[(2, "ann", 7)], false);
    done(db);
}
