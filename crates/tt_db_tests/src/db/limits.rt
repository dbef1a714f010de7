use super::{ANN, Account, BOB, after, done, entry, has, same, small_db};
use std::alloc::Global;
use std::process::Abort;
use tt_db::{Db, DbError, Limits, MAX_EVENTS};
use tt_values::Reply;

/// A small database with inserts of different keys.
struct Filling {
    slots: u64,
    events: u64,
    /// The accounts that it accepts, in this order, from slot 1 on.
    accounts: &'static [Account],
    /// The limit that the next insert meets.
    limit: u64,
}

const FILLINGS: [Filling; 3] = [
    Filling {
        slots: 2,
        events: MAX_EVENTS,
        accounts: &[ANN, BOB],
        limit: 2,
    },
    Filling {
        slots: 0,
        events: MAX_EVENTS,
        accounts: &[],
        limit: 0,
    },
    Filling {
        slots: 2,
        events: 1,
        accounts: &[ANN],
        limit: 1,
    },
];

/// The database with its accounts, each at the next slot.
fn full_db(rt: &impl Abort, alloc: Global, filling: &Filling) -> Db {
    let mut db = small_db(rt, alloc, filling.slots, filling.events);
    for account in filling.accounts {
        let entry = entry(rt, alloc, 1, *account);
        let next = after(rt, alloc, &db, entry, Reply::Inserted);
        done(db);
        db = next;
    }
    db
}

/// Asserts that a further insert meets this limit.
fn refuses(rt: &impl Abort, alloc: Global, db: &Db, limit: u64) {
    let next = entry(rt, alloc, 1, (3, "cat", 30));
    match db.apply(next) {
        Ok((next, _)) => {
            done(next);
            panic!(rt; "an insert past the limit {limit}");
        }
        Err(error) => same(rt, &error, &DbError::Full { limit }),
    }
}

#[test]
fn a_full_database_refuses(rt: HostRuntime) {
    let alloc = rt.alloc();
    for filling in &FILLINGS {
        let limit = filling.limit;
        let db = full_db(&rt, alloc, filling);
        refuses(&rt, alloc, &db, limit);
        let next = entry(&rt, alloc, 1, (3, "cat", 30));
        let (db, answer) = db.advanced(next).expect(&rt, "memory");
        same(&rt, &answer.err(), &Some(DbError::Full { limit }));
        has(&rt, alloc, &db, filling.accounts);
        done(db);
    }
}

#[test]
fn limits_fit_up_to_the_largest(rt: HostRuntime) {
    let usual = Limits::usual();
    same(&rt, &usual.slots, &1_000_000);
    same(&rt, &usual.events, &4_000_000);
    same(&rt, &usual.edits, &10_000);
    same(&rt, &usual.keep, &4);
    for (slots, events, edits, keep, fits) in [
        (1_000_000, 4_000_000, 10_000, 4, true),
        (1_000_000, 4_000_000, 10_000, 16, true),
        (0, 0, 0, 0, true),
        (1_000_001, 4_000_000, 10_000, 16, false),
        (1_000_000, 4_000_001, 10_000, 16, false),
        (1_000_000, 4_000_000, 10_001, 16, false),
        (1_000_000, 4_000_000, 10_000, 17, false),
        (u64::MAX, u64::MAX, u32::MAX, u32::MAX, false),
    ] {
        let limits = Limits {
            slots,
            events,
            edits,
            keep,
        };
        assert_eq!(rt; limits.fits(), fits, "of {limits:?}");
    }
}
