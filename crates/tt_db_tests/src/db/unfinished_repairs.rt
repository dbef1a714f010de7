//! Reads and writes while a repair is under way, and repairs that are given up.
use super::repairs::{
    FIVE_SLOTS_HAD, begin, begin_and_step, delete_bob, finish, five_slots, switched,
};
use super::{
    ACCT, ANN, Account, action, add_to_balance, delete, done, had, has, id_is, made, new_db, open,
    owner_is, previews, replies, rows, same, select_all, set_balance, set_owner, update, write,
};
use std::alloc::Global;
use std::process::Abort;
use tt_db::{Db, Edit, Event, Outcome, Progress, ReadError};
use tt_values::Reply;

#[test]
fn the_current_generation_stays_until_the_switch(rt: HostRuntime) {
    let alloc = rt.alloc();
    let mut db = five_slots(&rt, alloc);
    let edit = delete_bob(&rt, alloc);
    begin_and_step(&rt, alloc, &mut db, [edit], 4);
    let progress = Progress {
        done: 4,
        left: 1,
        rerun: 1,
    };
    same(&rt, &db.repair(), &Some(progress));
    has(&rt, alloc, &db, &[(3, "bob", 8)]);
    open(&rt, alloc, &mut db, (4, "dan", 1));
    previews(&rt, alloc, &db, &[(1, "ann", 5), (2, "ann", 6)]);
    has(&rt, alloc, &db, &[(3, "bob", 8), (4, "dan", 1)]);
    same(&rt, &finish(&rt, &mut db), &switched(1, 6, 2));
    has(
        &rt,
        alloc,
        &db,
        &[(1, "ann", 6), (2, "ann", 7), (4, "dan", 1)],
    );
    done(db);
}

/// The accounts of the next generation of the five slots at each time up to slot 4.
const FOUR_SLOTS_HAVE: [&'static [Account]; 5] = [
    &[],
    &[(1, "ann", 5)],
    &[(1, "ann", 5), (2, "ann", 6)],
    &[(1, "ann", 5), (2, "ann", 6), (3, "bob", 7)],
    &[(1, "ann", 5), (2, "ann", 6)],
];

#[test]
fn the_next_generation_is_read_at_each_time_that_is_done(rt: HostRuntime) {
    let alloc = rt.alloc();
    let mut db = five_slots(&rt, alloc);
    let edit = delete_bob(&rt, alloc);
    begin_and_step(&rt, alloc, &mut db, [edit], 4);
    let all = select_all(&rt, alloc, ACCT);
    for (time, accounts) in FOUR_SLOTS_HAVE.iter().enumerate() {
        let reply = db.preview_at(&all, time as u64).expect(&rt, "a reply");
        same(&rt, &reply, &rows(&rt, alloc, accounts));
    }
    let later = Some(ReadError::Later { now: 4 });
    same(&rt, &db.preview_at(&all, 5).err(), &later);
    finish(&rt, &mut db);
    let idle = Some(ReadError::NotRepairing);
    same(&rt, &db.preview_at(&all, 9).err(), &idle);
    done(db);
}

#[test]
fn slots_that_are_done_are_as_edited(rt: HostRuntime) {
    let alloc = rt.alloc();
    let mut db = five_slots(&rt, alloc);
    let edit = delete_bob(&rt, alloc);
    begin_and_step(&rt, alloc, &mut db, [Edit::Cancel(2), edit], 4);
    let cancelled = db.next_slot(2).expect(&rt, "a slot");
    assert!(rt; cancelled.action.is_none() && cancelled.replies.is_none());
    let edited = db.next_slot(4).expect(&rt, "a slot");
    let delete = delete(owner_is(&rt, alloc, "bob"));
    same(&rt, &edited.action, &Some(action(&rt, alloc, [delete])));
    let want = Some(replies(&rt, alloc, [Reply::Deleted(1)]));
    same(&rt, &edited.replies, &want);
    assert!(rt; db.next_slot(0).is_none() && db.next_slot(5).is_none());
    finish(&rt, &mut db);
    assert!(rt; db.next_slot(4).is_none() && db.slot(4).is_some());
    done(db);
}

/// A repair that cancels the balance 0 of `ANN`, after two steps, with a write behind them.
fn written_during_a_repair(rt: &impl Abort, alloc: Global) -> Db {
    let mut db = new_db(rt, alloc);
    open(rt, alloc, &mut db, ANN);
    let emptied = update(rt, alloc, set_balance(0), id_is(rt, alloc, 1));
    write(rt, alloc, &mut db, [emptied], [Reply::Updated(1)]);
    begin_and_step(rt, alloc, &mut db, [Edit::Cancel(2)], 2);
    let further = add_to_balance(rt, alloc, 1, 1);
    write(rt, alloc, &mut db, [further], [Reply::Updated(1)]);
    db
}

#[test]
fn a_write_during_a_repair_is_caught_up_with(rt: HostRuntime) {
    let alloc = rt.alloc();
    let mut db = written_during_a_repair(&rt, alloc);
    has(&rt, alloc, &db, &[(1, "ann", 1)]);
    previews(&rt, alloc, &db, &[ANN]);
    same(&rt, &finish(&rt, &mut db), &switched(1, 3, 2));
    has(&rt, alloc, &db, &[(1, "ann", 11)]);
    done(db);
}

#[test]
fn two_writes_during_a_repair_are_caught_up_with(rt: HostRuntime) {
    let alloc = rt.alloc();
    let mut db = written_during_a_repair(&rt, alloc);
    let moved = update(
        &rt,
        alloc,
        set_owner(&rt, alloc, "eve"),
        id_is(&rt, alloc, 1),
    );
    write(&rt, alloc, &mut db, [moved], [Reply::Updated(1)]);
    has(&rt, alloc, &db, &[(1, "eve", 1)]);
    same(&rt, &finish(&rt, &mut db), &switched(1, 4, 3));
    has(&rt, alloc, &db, &[(1, "eve", 11)]);
    had(&rt, alloc, &db, 3, &[(1, "ann", 11)]);
    done(db);
}

/// Asserts that the accounts of the five slots are there, and no repair.
fn is_as_before(rt: &impl Abort, alloc: Global, db: &Db) {
    for (time, accounts) in FIVE_SLOTS_HAD.iter().enumerate() {
        had(rt, alloc, db, time as u64, accounts);
    }
    same(rt, &db.now(), &5);
    same(rt, &db.generation(), &0);
    same(rt, &db.repair(), &None);
    let preview = db.preview(&select_all(rt, alloc, ACCT));
    same(rt, &preview.err(), &Some(ReadError::NotRepairing));
}

#[test]
fn a_repair_can_be_given_up_at_each_step(rt: HostRuntime) {
    let alloc = rt.alloc();
    for steps in 0..6 {
        let mut db = five_slots(&rt, alloc);
        let edit = delete_bob(&rt, alloc);
        begin_and_step(&rt, alloc, &mut db, [edit], steps);
        same(&rt, &made(&rt, &mut db, Event::Abort), &Outcome::Aborted);
        is_as_before(&rt, alloc, &db);
        let again = begin(&rt, alloc, [delete_bob(&rt, alloc)]);
        same(&rt, &made(&rt, &mut db, again), &Outcome::Begun);
        assert_eq!(rt; finish(&rt, &mut db), switched(1, 5, 2), "after {steps}");
        has(&rt, alloc, &db, &[(1, "ann", 6), (2, "ann", 7)]);
        done(db);
    }
}
