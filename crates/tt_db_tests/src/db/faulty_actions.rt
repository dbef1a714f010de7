//! Actions with a faulty write, or with more writes than an action may have: why they are refused,
//! and that no other reason comes before.
use super::repair_refusals::{limited_db, refused};
use super::repairs::{begin, begin_and_step};
use super::{
    ACCT, ANN, LOAN, action, any_account, done, has, insert, made, new_db, open, same, small_db,
    update,
};
use std::alloc::Global;
use std::process::Abort;
use tt_db::{Db, DbError, Edit, Event, Limits, MAX_EVENTS, MAX_KEEP, MAX_SLOTS, Outcome};
use tt_values::{Action, Change, CheckError, Items, Reply, Value, Write};

/// An insert, and an update that sets the key of every account.
fn insert_and_set_key(rt: &impl Abort, alloc: Global) -> Action {
    let set_key = Change::Set {
        column: 0,
        value: Value::Int(2),
    };
    let writes = [
        insert(rt, alloc, ACCT, (1, "ann", 1)),
        update(rt, alloc, set_key, any_account(rt, alloc)),
    ];
    action(rt, alloc, writes)
}

/// An action of this many inserts, the first one into this table and the others into `acct`.
fn inserts(rt: &impl Abort, alloc: Global, table: u16, count: u32) -> Action {
    let mut writes = Vec::new(alloc);
    for id in 0..count {
        let table = if id == 0 { table } else { ACCT };
        let insert = insert(rt, alloc, table, (i64::from(id), "ann", 1));
        writes.push(insert).expect(rt, "memory");
    }
    Action::of(Items::new(alloc, writes).expect(rt, "memory"))
}

/// The replies to this many inserts.
fn inserted(rt: &impl Abort, alloc: Global, count: u32) -> Items<Reply> {
    let mut replies = Vec::new(alloc);
    for _ in 0..count {
        replies.push(Reply::Inserted).expect(rt, "memory");
    }
    Items::new(alloc, replies).expect(rt, "memory")
}

/// An edit of slot 9 by an action of this many inserts.
fn edit(rt: &impl Abort, alloc: Global, table: u16, count: u32) -> Edit {
    Edit::Replace(9, inserts(rt, alloc, table, count))
}

/// Asserts that an event is refused for the fault of an action.
fn refused_for(rt: &impl Abort, db: &mut Db, event: Event, fault: CheckError) {
    refused(rt, db, event, DbError::Statement(fault));
}

/// An action with a faulty second write, and one of 17 writes, take no slot and write nothing.
#[test]
fn a_faulty_action_leaves_nothing(rt: HostRuntime) {
    let alloc = rt.alloc();
    let mut db = new_db(&rt, alloc);
    let event = Event::Write(insert_and_set_key(&rt, alloc));
    refused_for(&rt, &mut db, event, CheckError::SetsKey);
    let event = Event::Write(inserts(&rt, alloc, ACCT, 17));
    refused_for(&rt, &mut db, event, CheckError::TooManyWrites);
    same(&rt, &db.now(), &0);
    has(&rt, alloc, &db, &[]);
    done(db);
}

/// An action of 16 writes is accepted: it takes one slot.
#[test]
fn sixteen_writes_are_accepted(rt: HostRuntime) {
    let alloc = rt.alloc();
    let mut db = new_db(&rt, alloc);
    let event = Event::Write(inserts(&rt, alloc, ACCT, 16));
    let want = Outcome::Written {
        slot: 1,
        replies: inserted(&rt, alloc, 16),
    };
    same(&rt, &made(&rt, &mut db, event), &want);
    same(&rt, &db.now(), &1);
    done(db);
}

/// That an action has 17 writes is told before the fault of one of them, and either before that the
/// database is full.
#[test]
fn a_faulty_action_is_refused_before_a_full_database(rt: HostRuntime) {
    let alloc = rt.alloc();
    let mut db = small_db(&rt, alloc, 0, MAX_EVENTS);
    let event = Event::Write(inserts(&rt, alloc, LOAN, 17));
    refused_for(&rt, &mut db, event, CheckError::TooManyWrites);
    let event = Event::Write(inserts(&rt, alloc, LOAN, 16));
    refused_for(&rt, &mut db, event, CheckError::NoTable);
    let event = Event::Write(inserts(&rt, alloc, ACCT, 16));
    refused(&rt, &mut db, event, DbError::Full { limit: 0 });
    done(db);
}

/// The first faulty action among the edits of a begin is told before all else that is wrong with
/// the begin: here a repair is under way, no slot 9 is there, the slot is edited twice, there are
/// more edits than may be, and the history is full.
#[test]
fn a_faulty_edit_is_refused_before_all_else(rt: HostRuntime) {
    let alloc = rt.alloc();
    let limits = Limits {
        slots: MAX_SLOTS,
        events: 2,
        edits: 0,
        keep: MAX_KEEP,
    };
    let mut db = limited_db(&rt, alloc, limits);
    open(&rt, alloc, &mut db, ANN);
    begin_and_step(&rt, alloc, &mut db, [], 0);
    let good = edit(&rt, alloc, ACCT, 16);
    let many = edit(&rt, alloc, ACCT, 17);
    let bad = edit(&rt, alloc, LOAN, 1);
    let event = begin(&rt, alloc, [good, many, bad]);
    refused_for(&rt, &mut db, event, CheckError::TooManyWrites);
    let many = edit(&rt, alloc, ACCT, 17);
    let bad = edit(&rt, alloc, LOAN, 1);
    let event = begin(&rt, alloc, [bad, many]);
    refused_for(&rt, &mut db, event, CheckError::NoTable);
    let good = edit(&rt, alloc, ACCT, 16);
    let again = edit(&rt, alloc, ACCT, 1);
    let event = begin(&rt, alloc, [good, again]);
    refused(&rt, &mut db, event, DbError::Repairing);
    done(db);
}
