//! Repairs from begin to switch: the rows, the replies and the counts that they lead to.
use super::{
    ACCT, ANN, Account, SAME_KEY, action, add, any_account, delete, done, had, has, id_is, insert,
    made, new_db, open, owner_is, replies, same, set_balance, set_owner, update, write,
};
use std::alloc::Global;
use std::process::Abort;
use tt_db::{Db, Edit, Event, Outcome};
use tt_values::{Items, Reply};
use tt_versions::Table;

/// The begin of a repair with these edits.
pub(super) fn begin<const N: usize>(rt: &impl Abort, alloc: Global, edits: [Edit; N]) -> Event {
    Event::Begin(Items::of(alloc, edits).expect(rt, "memory"))
}

/// Begins a repair, and does this number of steps.
pub(super) fn begin_and_step<const N: usize>(
    rt: &impl Abort,
    alloc: Global,
    db: &mut Db,
    edits: [Edit; N],
    steps: u64,
) {
    let begun = made(rt, db, begin(rt, alloc, edits));
    same(rt, &begun, &Outcome::Begun);
    for _ in 0..steps {
        made(rt, db, Event::Step);
    }
}

/// Does the steps that are left, and switches.
pub(super) fn finish(rt: &impl Abort, db: &mut Db) -> Outcome {
    let left = db.repair().expect(rt, "a repair").left;
    for _ in 0..left {
        made(rt, db, Event::Step);
    }
    made(rt, db, Event::Switch)
}

/// A whole repair: begin, steps and switch.
pub(super) fn repair<const N: usize>(
    rt: &impl Abort,
    alloc: Global,
    db: &mut Db,
    edits: [Edit; N],
) -> Outcome {
    begin_and_step(rt, alloc, db, edits, 0);
    finish(rt, db)
}

pub(super) fn switched(generation: u64, slots: u64, rerun: u64) -> Outcome {
    Outcome::Switched {
        generation,
        slots,
        rerun,
    }
}

/// Asserts that these are the replies of a slot.
pub(super) fn replied<const N: usize>(
    rt: &impl Abort,
    alloc: Global,
    db: &Db,
    number: u64,
    wants: [Reply; N],
) {
    let slot = db.slot(number).expect(rt, "a slot");
    let want = Some(replies(rt, alloc, wants));
    assert_eq!(rt; slot.replies, want, "of slot {number}");
    assert!(rt; slot.action.is_some(), "slot {number}");
}

/// Asserts that a slot is cancelled.
pub(super) fn is_cancelled(rt: &impl Abort, db: &Db, number: u64) {
    let slot = db.slot(number).expect(rt, "a slot");
    assert!(rt;
        slot.action.is_none() && slot.replies.is_none(),
        "slot {number}"
    );
}

/// Five slots: the accounts of `FIVE_SLOTS_HAD`.
pub(super) fn five_slots(rt: &impl Abort, alloc: Global) -> Db {
    let mut db = new_db(rt, alloc);
    write_five_slots(rt, alloc, &mut db);
    db
}

/// Writes the five slots in a database without slots.
pub(super) fn write_five_slots(rt: &impl Abort, alloc: Global, db: &mut Db) {
    for account in [(1, "ann", 5), (2, "ann", 6), (3, "bob", 7)] {
        open(rt, alloc, db, account);
    }
    let delete = delete(owner_is(rt, alloc, "ann"));
    write(rt, alloc, db, [delete], [Reply::Deleted(2)]);
    let update = update(rt, alloc, add(1), any_account(rt, alloc));
    write(rt, alloc, db, [update], [Reply::Updated(1)]);
}

/// The accounts of the five slots at each time, from 0 on.
pub(super) const FIVE_SLOTS_HAD: [&'static [Account]; 6] = [
    &[],
    &[(1, "ann", 5)],
    &[(1, "ann", 5), (2, "ann", 6)],
    &[(1, "ann", 5), (2, "ann", 6), (3, "bob", 7)],
    &[(3, "bob", 7)],
    &[(3, "bob", 8)],
];

/// The edit of the five slots: slot 4 deletes the accounts of bob.
pub(super) fn delete_bob(rt: &impl Abort, alloc: Global) -> Edit {
    let delete = delete(owner_is(rt, alloc, "bob"));
    Edit::Replace(4, action(rt, alloc, [delete]))
}

#[test]
fn a_new_database_can_be_repaired(rt: HostRuntime) {
    let alloc = rt.alloc();
    let mut db = new_db(&rt, alloc);
    has(&rt, alloc, &db, &[]);
    same(&rt, &db.now(), &0);
    same(&rt, &repair(&rt, alloc, &mut db, []), &switched(1, 0, 0));
    same(&rt, &db.generation(), &1);
    has(&rt, alloc, &db, &[]);
    done(db);
}

#[test]
fn a_duplicate_whose_key_gets_free_is_inserted(rt: HostRuntime) {
    let alloc = rt.alloc();
    let mut db = new_db(&rt, alloc);
    open(&rt, alloc, &mut db, ANN);
    let duplicate = insert(&rt, alloc, ACCT, SAME_KEY);
    write(&rt, alloc, &mut db, [duplicate], [Reply::Duplicate]);
    same(
        &rt,
        &repair(&rt, alloc, &mut db, [Edit::Cancel(1)]),
        &switched(1, 2, 2),
    );
    has(&rt, alloc, &db, &[SAME_KEY]);
    is_cancelled(&rt, &db, 1);
    replied(&rt, alloc, &db, 2, [Reply::Inserted]);
    done(db);
}

#[test]
fn a_row_that_another_owner_had_is_followed(rt: HostRuntime) {
    let alloc = rt.alloc();
    let mut db = new_db(&rt, alloc);
    open(&rt, alloc, &mut db, ANN);
    let moved = update(
        &rt,
        alloc,
        set_owner(&rt, alloc, "eve"),
        id_is(&rt, alloc, 1),
    );
    write(&rt, alloc, &mut db, [moved], [Reply::Updated(1)]);
    let of_eve = update(&rt, alloc, set_balance(0), owner_is(&rt, alloc, "eve"));
    write(&rt, alloc, &mut db, [of_eve], [Reply::Updated(1)]);
    let of_ann = update(&rt, alloc, add(7), owner_is(&rt, alloc, "ann"));
    write(&rt, alloc, &mut db, [of_ann], [Reply::Updated(0)]);
    has(&rt, alloc, &db, &[(1, "eve", 0)]);
    same(
        &rt,
        &repair(&rt, alloc, &mut db, [Edit::Cancel(2)]),
        &switched(1, 4, 3),
    );
    has(&rt, alloc, &db, &[(1, "ann", 17)]);
    replied(&rt, alloc, &db, 3, [Reply::Updated(0)]);
    replied(&rt, alloc, &db, 4, [Reply::Updated(1)]);
    done(db);
}

#[test]
fn a_delete_is_replaced(rt: HostRuntime) {
    let alloc = rt.alloc();
    let mut db = five_slots(&rt, alloc);
    has(&rt, alloc, &db, &[(3, "bob", 8)]);
    let edit = delete_bob(&rt, alloc);
    same(
        &rt,
        &repair(&rt, alloc, &mut db, [edit]),
        &switched(1, 5, 2),
    );
    has(&rt, alloc, &db, &[(1, "ann", 6), (2, "ann", 7)]);
    replied(&rt, alloc, &db, 4, [Reply::Deleted(1)]);
    replied(&rt, alloc, &db, 5, [Reply::Updated(2)]);
    done(db);
}

/// The account of ann, a hundred accounts of bob, and a hundred updates of these.
fn many_slots(rt: &impl Abort, alloc: Global) -> Db {
    let mut db = new_db(rt, alloc);
    open(rt, alloc, &mut db, (1, "ann", 1));
    for id in 2..102 {
        open(rt, alloc, &mut db, (id, "bob", 0));
    }
    for _ in 0..100 {
        let update = update(rt, alloc, add(1), owner_is(rt, alloc, "bob"));
        write(rt, alloc, &mut db, [update], [Reply::Updated(100)]);
    }
    db
}

/// Asserts that the account of ann is the only one that is split.
fn only_ann_is_split(rt: &impl Abort, accounts: &Table) {
    for id in 1..103 {
        assert_eq!(rt; accounts.is_split(id), id == 1, "account {id}");
    }
}

#[test]
fn slots_that_nothing_affects_are_passed_over(rt: HostRuntime) {
    let alloc = rt.alloc();
    let mut db = many_slots(&rt, alloc);
    begin_and_step(&rt, alloc, &mut db, [Edit::Cancel(1)], 201);
    only_ann_is_split(&rt, db.versions(ACCT).expect(&rt, "a table"));
    same(
        &rt,
        &made(&rt, &mut db, Event::Switch),
        &switched(1, 201, 1),
    );
    let mut wants = Vec::new(alloc);
    for id in 2..102 {
        wants.push((id, "bob", 100)).expect(&rt, "memory");
    }
    has(&rt, alloc, &db, wants.as_slice());
    done(db);
}

#[test]
fn times_before_the_edit_stay(rt: HostRuntime) {
    let alloc = rt.alloc();
    let mut db = new_db(&rt, alloc);
    open(&rt, alloc, &mut db, ANN);
    let delete = delete(id_is(&rt, alloc, 1));
    write(&rt, alloc, &mut db, [delete], [Reply::Deleted(1)]);
    open(&rt, alloc, &mut db, (1, "bob", 5));
    same(
        &rt,
        &repair(&rt, alloc, &mut db, [Edit::Cancel(3)]),
        &switched(1, 3, 1),
    );
    had(&rt, alloc, &db, 1, &[ANN]);
    had(&rt, alloc, &db, 2, &[]);
    had(&rt, alloc, &db, 3, &[]);
    done(db);
}
