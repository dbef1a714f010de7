//! Reads of generations that a switch has closed, and how many of them are kept.
use super::repairs::{
    FIVE_SLOTS_HAD, begin_and_step, delete_bob, repair, switched, write_five_slots,
};
use super::{
    ACCT, Account, LOAN, any_account, bank, done, made, new_db, open, rows, same, select_all,
    set_balance, update, write,
};
use std::alloc::Global;
use std::process::Abort;
use tt_db::{Db, Event, Limits, MAX_EDITS, MAX_EVENTS, MAX_KEEP, MAX_SLOTS, ReadError};
use tt_values::{CheckError, Reply};

/// The accounts of the five slots once the delete is repaired.
const REPAIRED: [Account; 2] = [(1, "ann", 6), (2, "ann", 7)];

/// A new database with the table `acct`, and with this limit of closed generations.
fn keeping(rt: &impl Abort, alloc: Global, keep: u32) -> Db {
    let limits = Limits {
        slots: MAX_SLOTS,
        events: MAX_EVENTS,
        edits: MAX_EDITS,
        keep,
    };
    assert!(rt; limits.fits());
    Db::new(alloc, bank(rt, alloc, &["acct"]), limits)
}

/// Writes the five slots, and repairs the delete: generation 1.
fn write_and_repair(rt: &impl Abort, alloc: Global, db: &mut Db) {
    write_five_slots(rt, alloc, db);
    let edit = delete_bob(rt, alloc);
    same(rt, &repair(rt, alloc, db, [edit]), &switched(1, 5, 2));
}

/// Asserts that these were the accounts of a generation at a time, in this order.
fn had_in(
    rt: &impl Abort,
    alloc: Global,
    db: &Db,
    generation: u64,
    time: u64,
    accounts: &[Account],
) {
    let reply = db
        .select_in(generation, &select_all(rt, alloc, ACCT), time)
        .expect(rt, "a reply");
    let want = rows(rt, alloc, accounts);
    same(rt, &(generation, time, reply), &(generation, time, want));
}

/// Asserts that a read in a generation at a time is refused.
fn refuses(rt: &impl Abort, alloc: Global, db: &Db, generation: u64, time: u64, error: ReadError) {
    let answer = db.select_in(generation, &select_all(rt, alloc, ACCT), time);
    let want = (generation, time, Some(error));
    same(rt, &(generation, time, answer.err()), &want);
}

#[test]
fn a_closed_generation_stays_readable(rt: HostRuntime) {
    let alloc = rt.alloc();
    let mut db = new_db(&rt, alloc);
    write_and_repair(&rt, alloc, &mut db);
    same(&rt, &db.oldest(), &0);
    for (time, accounts) in FIVE_SLOTS_HAD.iter().enumerate() {
        had_in(&rt, alloc, &db, 0, time as u64, accounts);
    }
    had_in(&rt, alloc, &db, 1, 5, &REPAIRED);
    refuses(&rt, alloc, &db, 0, 6, ReadError::Later { now: 5 });
    refuses(&rt, alloc, &db, 0, u64::MAX, ReadError::Later { now: 5 });
    let missing = ReadError::NoGeneration {
        oldest: 0,
        newest: 1,
    };
    refuses(&rt, alloc, &db, 2, 9, missing);
    refuses(&rt, alloc, &db, u64::MAX, 0, missing);
    let bad = db.select_in(2, &select_all(&rt, alloc, LOAN), 9);
    same(
        &rt,
        &bad.err(),
        &Some(ReadError::Statement(CheckError::NoTable)),
    );
    done(db);
}

#[test]
fn none_is_kept(rt: HostRuntime) {
    let alloc = rt.alloc();
    let mut db = keeping(&rt, alloc, 0);
    same(&rt, &db.oldest(), &0);
    write_and_repair(&rt, alloc, &mut db);
    same(&rt, &db.oldest(), &1);
    let missing = ReadError::NoGeneration {
        oldest: 1,
        newest: 1,
    };
    refuses(&rt, alloc, &db, 0, 5, missing);
    had_in(&rt, alloc, &db, 1, 5, &REPAIRED);
    done(db);
}

#[test]
fn one_is_kept(rt: HostRuntime) {
    let alloc = rt.alloc();
    let mut db = keeping(&rt, alloc, 1);
    write_and_repair(&rt, alloc, &mut db);
    same(&rt, &db.oldest(), &0);
    had_in(&rt, alloc, &db, 0, 5, &[(3, "bob", 8)]);
    same(&rt, &repair(&rt, alloc, &mut db, []), &switched(2, 5, 0));
    same(&rt, &db.oldest(), &1);
    let missing = ReadError::NoGeneration {
        oldest: 1,
        newest: 2,
    };
    refuses(&rt, alloc, &db, 0, 5, missing);
    had_in(&rt, alloc, &db, 1, 5, &REPAIRED);
    had_in(&rt, alloc, &db, 2, 5, &REPAIRED);
    done(db);
}

#[test]
fn a_write_leaves_closed_generations(rt: HostRuntime) {
    let alloc = rt.alloc();
    let mut db = new_db(&rt, alloc);
    write_and_repair(&rt, alloc, &mut db);
    let emptied = update(&rt, alloc, set_balance(0), any_account(&rt, alloc));
    write(&rt, alloc, &mut db, [emptied], [Reply::Updated(2)]);
    had_in(&rt, alloc, &db, 0, 5, &[(3, "bob", 8)]);
    refuses(&rt, alloc, &db, 0, 6, ReadError::Later { now: 5 });
    had_in(&rt, alloc, &db, 1, 5, &REPAIRED);
    had_in(&rt, alloc, &db, 1, 6, &[(1, "ann", 0), (2, "ann", 0)]);
    refuses(&rt, alloc, &db, 1, 7, ReadError::Later { now: 6 });
    done(db);
}

#[test]
fn an_abort_closes_no_generation(rt: HostRuntime) {
    let alloc = rt.alloc();
    let mut db = new_db(&rt, alloc);
    write_five_slots(&rt, alloc, &mut db);
    for steps in 0..6 {
        let edit = delete_bob(&rt, alloc);
        begin_and_step(&rt, alloc, &mut db, [edit], steps);
        made(&rt, &mut db, Event::Abort);
        same(&rt, &db.oldest(), &0);
        had_in(&rt, alloc, &db, 0, 5, &[(3, "bob", 8)]);
        let missing = ReadError::NoGeneration {
            oldest: 0,
            newest: 0,
        };
        refuses(&rt, alloc, &db, 1, 5, missing);
    }
    done(db);
}

/// Opens an account and repairs nothing, 17 times. So each generation has one account more than
/// the one before it.
fn switch_often(rt: &impl Abort, alloc: Global, db: &mut Db) {
    for generation in 1..18 {
        open(rt, alloc, db, (generation as i64, "ann", 10));
        let outcome = repair(rt, alloc, db, []);
        same(rt, &outcome, &switched(generation, generation, 0));
    }
}

#[test]
fn seventeen_switches_keep_sixteen_generations(rt: HostRuntime) {
    let alloc = rt.alloc();
    let mut db = keeping(&rt, alloc, MAX_KEEP);
    switch_often(&rt, alloc, &mut db);
    same(&rt, &db.generation(), &17);
    same(&rt, &db.oldest(), &1);
    let missing = ReadError::NoGeneration {
        oldest: 1,
        newest: 17,
    };
    refuses(&rt, alloc, &db, 0, 0, missing);
    refuses(&rt, alloc, &db, 18, 0, missing);
    let mut accounts = Vec::from_array(alloc, [(1, "ann", 10)]).expect(&rt, "memory");
    for generation in 1..17 {
        let account = (generation as i64 + 1, "ann", 10);
        accounts.push(account).expect(&rt, "memory");
        let now = generation + 1;
        had_in(&rt, alloc, &db, generation, now, accounts.as_slice());
        let later = ReadError::Later { now };
        refuses(&rt, alloc, &db, generation, now + 1, later);
    }
    had_in(&rt, alloc, &db, 17, 17, accounts.as_slice());
    done(db);
}
