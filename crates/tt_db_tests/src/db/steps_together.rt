//! Steps of a repair that are made together.
use super::repair_refusals::limited_db;
use super::repairs::{begin, five_slots, write_five_slots};
use super::{done, made, same};
use std::alloc::Global;
use std::process::Abort;
use tt_db::{Db, DbError, Edit, Event, Limits, MAX_EDITS, MAX_KEEP, MAX_SLOTS, StepsMade};

/// Begins a repair that cancels the second slot: some of the five slots are due, and some aren't.
fn begin_without_second(rt: &impl Abort, alloc: Global, db: &mut Db) {
    let event = begin(rt, alloc, [Edit::Cancel(2)]);
    made(rt, db, event);
}

/// Makes steps together, and says how many they were and why there were no more.
fn together(rt: &impl Abort, db: &mut Db, most: u64) -> (u64, Option<DbError>) {
    let StepsMade {
        count,
        last: _,
        refusal,
    } = db.advance_steps(1, most).expect(rt, "memory");
    (count, refusal)
}

/// Asserts that steps together leave what as many leave one after another.
fn leave_the_same(rt: &impl Abort, db: &Db, count: u64) {
    let mut stepped = db.share().expect(rt, "memory");
    let mut last = None;
    for _ in 0..count {
        last = Some(made(rt, &mut stepped, Event::Step));
    }
    let mut db = db.share().expect(rt, "memory");
    let want = StepsMade {
        count,
        last,
        refusal: None,
    };
    same(rt, &db.advance_steps(1, count).expect(rt, "memory"), &want);
    same(rt, &db.repair(), &stepped.repair());
    same(rt, &db.events(), &stepped.events());
    let place = db.events();
    same(rt, &db.entry(place), &stepped.entry(place));
    done(db);
    done(stepped);
}

#[test]
fn steps_together_are_steps_one_after_another(rt: HostRuntime) {
    let alloc = rt.alloc();
    let mut db = five_slots(&rt, alloc);
    begin_without_second(&rt, alloc, &mut db);
    for count in 0..6 {
        leave_the_same(&rt, &db, count);
    }
    done(db);
}

#[test]
fn steps_together_end_where_no_slot_is_left(rt: HostRuntime) {
    let alloc = rt.alloc();
    let mut db = five_slots(&rt, alloc);
    same(&rt, &together(&rt, &mut db, 0), &(0, None));
    let idle = (0, Some(DbError::NotRepairing));
    same(&rt, &together(&rt, &mut db, 9), &idle);
    begin_without_second(&rt, alloc, &mut db);
    let all = (5, Some(DbError::NothingLeft));
    same(&rt, &together(&rt, &mut db, 9), &all);
    let none = (0, Some(DbError::NothingLeft));
    same(&rt, &together(&rt, &mut db, 9), &none);
    done(db);
}

#[test]
fn steps_together_end_at_the_limit_of_entries(rt: HostRuntime) {
    let alloc = rt.alloc();
    let limits = Limits {
        slots: MAX_SLOTS,
        events: 8,
        edits: MAX_EDITS,
        keep: MAX_KEEP,
    };
    let mut db = limited_db(&rt, alloc, limits);
    write_five_slots(&rt, alloc, &mut db);
    begin_without_second(&rt, alloc, &mut db);
    let full = (2, Some(DbError::Full { limit: 8 }));
    same(&rt, &together(&rt, &mut db, 4), &full);
    let none = (0, Some(DbError::Full { limit: 8 }));
    same(&rt, &together(&rt, &mut db, 4), &none);
    done(db);
}
