//! Why events of a repair are refused, in the order of the reasons, and limits in a repair.
use super::repairs::{begin, begin_and_step, five_slots, switched};
use super::{ANN, answer_to, bank, done, has, made, new_db, open, previews, same};
use std::alloc::Global;
use std::process::Abort;
use tt_db::{
    Db, DbError, Edit, Event, Limits, MAX_EDITS, MAX_EVENTS, MAX_KEEP, MAX_SLOTS, Outcome,
};

/// Asserts that an event is refused, and changes nothing of the counts.
pub(super) fn refused(rt: &impl Abort, db: &mut Db, event: Event, want: DbError) {
    let events = db.events();
    let repair = db.repair();
    same(rt, &answer_to(db, event), &Err(want));
    same(rt, &db.events(), &events);
    same(rt, &db.repair(), &repair);
}

/// A new database with the table `acct` and these limits.
pub(super) fn limited_db(rt: &impl Abort, alloc: Global, limits: Limits) -> Db {
    assert!(rt; limits.fits());
    Db::new(alloc, bank(rt, alloc, &["acct"]), limits)
}

#[test]
fn an_edit_of_no_slot_and_a_second_edit_are_refused(rt: HostRuntime) {
    let alloc = rt.alloc();
    let mut db = five_slots(&rt, alloc);
    let event = begin(&rt, alloc, [Edit::Cancel(0)]);
    refused(&rt, &mut db, event, DbError::NoSlot { t: 0 });
    let event = begin(&rt, alloc, [Edit::Cancel(9)]);
    refused(&rt, &mut db, event, DbError::NoSlot { t: 9 });
    let event = begin(&rt, alloc, [Edit::Cancel(3), Edit::Cancel(3)]);
    refused(&rt, &mut db, event, DbError::EditTwice { t: 3 });
    let event = begin(
        &rt,
        alloc,
        [Edit::Cancel(3), Edit::Cancel(3), Edit::Cancel(9)],
    );
    refused(&rt, &mut db, event, DbError::NoSlot { t: 9 });
    same(&rt, &db.repair(), &None);
    has(&rt, alloc, &db, &[(3, "bob", 8)]);
    done(db);
}

#[test]
fn events_of_a_repair_need_one(rt: HostRuntime) {
    let alloc = rt.alloc();
    let mut db = new_db(&rt, alloc);
    open(&rt, alloc, &mut db, ANN);
    for event in [Event::Step, Event::Switch, Event::Abort] {
        refused(&rt, &mut db, event, DbError::NotRepairing);
    }
    done(db);
}

#[test]
fn a_repair_goes_in_order(rt: HostRuntime) {
    let alloc = rt.alloc();
    let mut db = new_db(&rt, alloc);
    open(&rt, alloc, &mut db, ANN);
    let event = begin(&rt, alloc, []);
    same(&rt, &made(&rt, &mut db, event), &Outcome::Begun);
    let event = begin(&rt, alloc, []);
    refused(&rt, &mut db, event, DbError::Repairing);
    refused(
        &rt,
        &mut db,
        Event::Switch,
        DbError::NotCaughtUp { left: 1 },
    );
    let stepped = Outcome::Stepped {
        slot: 1,
        rerun: false,
    };
    same(&rt, &made(&rt, &mut db, Event::Step), &stepped);
    refused(&rt, &mut db, Event::Step, DbError::NothingLeft);
    same(&rt, &made(&rt, &mut db, Event::Switch), &switched(1, 1, 0));
    refused(&rt, &mut db, Event::Abort, DbError::NotRepairing);
    done(db);
}

#[test]
fn a_repair_has_so_many_edits_at_most(rt: HostRuntime) {
    let alloc = rt.alloc();
    let limits = Limits {
        slots: MAX_SLOTS,
        events: MAX_EVENTS,
        edits: 0,
        keep: MAX_KEEP,
    };
    let mut db = limited_db(&rt, alloc, limits);
    open(&rt, alloc, &mut db, ANN);
    same(&rt, &db.now(), &1);
    let event = begin(&rt, alloc, [Edit::Cancel(1)]);
    refused(&rt, &mut db, event, DbError::TooManyEdits);
    let event = begin(&rt, alloc, []);
    same(&rt, &made(&rt, &mut db, event), &Outcome::Begun);
    done(db);
}

#[test]
fn a_full_history_takes_no_switch_and_no_abort(rt: HostRuntime) {
    let alloc = rt.alloc();
    let limits = Limits {
        slots: MAX_SLOTS,
        events: 3,
        edits: MAX_EDITS,
        keep: MAX_KEEP,
    };
    let mut db = limited_db(&rt, alloc, limits);
    open(&rt, alloc, &mut db, ANN);
    begin_and_step(&rt, alloc, &mut db, [], 1);
    refused(&rt, &mut db, Event::Switch, DbError::Full { limit: 3 });
    refused(&rt, &mut db, Event::Abort, DbError::Full { limit: 3 });
    previews(&rt, alloc, &db, &[ANN]);
    has(&rt, alloc, &db, &[ANN]);
    done(db);
}
