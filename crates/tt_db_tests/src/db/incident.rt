//! The incident of `docs/REPAIR.md`: an account was taken over, and the repair cancels that.
use super::repairs::{begin, is_cancelled, replied, switched};
use super::{
    ACCT, Account, action, add, add_to_balance, answer_to, done, had, has, id_is, insert, made,
    new_db, owner_is, previews, same, set_balance, set_owner, update, write,
};
use std::alloc::Global;
use std::process::Abort;
use tt_db::{Db, DbError, Edit, Event, Outcome, Progress};
use tt_values::{Reply, Write};

const BOB_45: Account = (2, "bob", 45);

/// The five slots before the repair.
fn taken_over(rt: &impl Abort, alloc: Global) -> Db {
    let mut db = new_db(rt, alloc);
    let ann = insert(rt, alloc, ACCT, (1, "ann", 100));
    let bob = insert(rt, alloc, ACCT, (2, "bob", 40));
    let inserted = [Reply::Inserted, Reply::Inserted];
    write(rt, alloc, &mut db, [ann, bob], inserted);
    let updates = [
        update(rt, alloc, set_owner(rt, alloc, "eve"), id_is(rt, alloc, 1)),
        update(rt, alloc, add(5), owner_is(rt, alloc, "bob")),
        update(rt, alloc, set_balance(0), owner_is(rt, alloc, "eve")),
    ];
    for update in updates {
        write(rt, alloc, &mut db, [update], [Reply::Updated(1)]);
    }
    let wages = update(rt, alloc, add(30), owner_is(rt, alloc, "ann"));
    write(rt, alloc, &mut db, [wages], [Reply::Updated(0)]);
    db
}

/// The payment that is made during the repair.
fn payment(rt: &impl Abort, alloc: Global) -> [Write; 2] {
    [
        add_to_balance(rt, alloc, 1, 10),
        add_to_balance(rt, alloc, 2, -10),
    ]
}

/// Does a step, and asserts what it returns, how far the repair is, and what the preview shows.
fn steps(
    rt: &impl Abort,
    alloc: Global,
    db: &mut Db,
    rerun: bool,
    progress: (u64, u64, u64),
    preview: &[Account],
) {
    let (done, left, reruns) = progress;
    let outcome = made(rt, db, Event::Step);
    same(rt, &outcome, &Outcome::Stepped { slot: done, rerun });
    let progress = Progress {
        done,
        left,
        rerun: reruns,
    };
    same(rt, &db.repair(), &Some(progress));
    previews(rt, alloc, db, preview);
}

/// Asserts whether the rows of the accounts 1 and 2 are split.
fn are_split(rt: &impl Abort, db: &Db, first: bool, second: bool) {
    let table = db.versions(ACCT).expect(rt, "a table");
    same(rt, &table.is_split(1), &first);
    same(rt, &table.is_split(2), &second);
}

#[test]
fn the_account_is_given_back(rt: HostRuntime) {
    let alloc = rt.alloc();
    let mut db = taken_over(&rt, alloc);
    made(&rt, &mut db, begin(&rt, alloc, [Edit::Cancel(2)]));
    previews(&rt, alloc, &db, &[]);
    let opened = [(1, "ann", 100), (2, "bob", 40)];
    steps(&rt, alloc, &mut db, false, (1, 4, 0), &opened);
    steps(&rt, alloc, &mut db, true, (2, 3, 1), &opened);
    let interest = [(1, "ann", 100), BOB_45];
    steps(&rt, alloc, &mut db, false, (3, 2, 1), &interest);
    has(&rt, alloc, &db, &[(1, "eve", 0), BOB_45]);
    let updated = [Reply::Updated(1), Reply::Updated(1)];
    write(&rt, alloc, &mut db, payment(&rt, alloc), updated);
    let early = answer_to(&mut db, Event::Switch);
    same(&rt, &early, &Err(DbError::NotCaughtUp { left: 3 }));
    steps(&rt, alloc, &mut db, true, (4, 2, 2), &interest);
    steps(
        &rt,
        alloc,
        &mut db,
        true,
        (5, 1, 3),
        &[(1, "ann", 130), BOB_45],
    );
    are_split(&rt, &db, true, false);
    let repaired = [(1, "ann", 140), (2, "bob", 35)];
    steps(&rt, alloc, &mut db, true, (6, 0, 4), &repaired);
    are_split(&rt, &db, true, true);
    has(&rt, alloc, &db, &[(1, "eve", 10), (2, "bob", 35)]);
    same(&rt, &made(&rt, &mut db, Event::Switch), &switched(1, 6, 4));
    are_split(&rt, &db, false, false);
    are_repaired(&rt, alloc, &db);
    done(db);
}

/// Asserts what is there after the repair.
fn are_repaired(rt: &impl Abort, alloc: Global, db: &Db) {
    let opened = [(1, "ann", 100), (2, "bob", 40)];
    let interest = [(1, "ann", 100), BOB_45];
    had(rt, alloc, db, 1, &opened);
    had(rt, alloc, db, 2, &opened);
    had(rt, alloc, db, 3, &interest);
    had(rt, alloc, db, 4, &interest);
    had(rt, alloc, db, 5, &[(1, "ann", 130), BOB_45]);
    has(rt, alloc, db, &[(1, "ann", 140), (2, "bob", 35)]);
    is_cancelled(rt, db, 2);
    replied(rt, alloc, db, 3, [Reply::Updated(1)]);
    replied(rt, alloc, db, 4, [Reply::Updated(0)]);
    replied(rt, alloc, db, 5, [Reply::Updated(1)]);
    replied(rt, alloc, db, 6, [Reply::Updated(1), Reply::Updated(1)]);
}
