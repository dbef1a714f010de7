use super::{
    ACCT, ANN, Account, BOB, LOAN, SAME_KEY, action, add_to_balance, bad_entry, done, entry, has,
    insert, replies, same, small_db,
};
use std::alloc::Global;
use std::process::Abort;
use tt_db::{Db, DbError, Entry, Event, MAX_EVENTS, Outcome};
use tt_values::{CheckError, Reply};

const CAT: Account = (3, "cat", 30);

/// An action of three writes: an insert, one of its key, and an update of its row.
fn three_writes(rt: &impl Abort, alloc: Global) -> Entry {
    let writes = [
        insert(rt, alloc, ACCT, ANN),
        insert(rt, alloc, ACCT, SAME_KEY),
        add_to_balance(rt, alloc, 1, 5),
    ];
    Entry {
        worker: 1,
        event: Event::Write(action(rt, alloc, writes)),
    }
}

/// An action whose second write has a fault.
fn good_and_bad(rt: &impl Abort, alloc: Global) -> Entry {
    let writes = [insert(rt, alloc, ACCT, CAT), insert(rt, alloc, LOAN, CAT)];
    Entry {
        worker: 1,
        event: Event::Write(action(rt, alloc, writes)),
    }
}

/// The account of `ANN` after the three writes.
const ANN_15: Account = (1, "ann", 15);

/// An action of three writes, an insert into a table that isn't there, one of a key that is there,
/// an action whose second write has a fault, and two further inserts.
fn mixed_entries(rt: &impl Abort, alloc: Global) -> Vec<Entry> {
    let entries = [
        three_writes(rt, alloc),
        bad_entry(rt, alloc),
        entry(rt, alloc, 3, SAME_KEY),
        good_and_bad(rt, alloc),
        entry(rt, alloc, 4, BOB),
        entry(rt, alloc, 5, CAT),
    ];
    Vec::from_array(alloc, entries).expect(rt, "memory")
}

fn written(rt: &impl Abort, alloc: Global, slot: u64, reply: Reply) -> Result<Outcome, DbError> {
    let replies = replies(rt, alloc, [reply]);
    Ok(Outcome::Written { slot, replies })
}

/// What those entries lead to where the limit is three slots.
fn mixed_answers(rt: &impl Abort, alloc: Global) -> Vec<Result<Outcome, DbError>> {
    let three = [Reply::Inserted, Reply::Duplicate, Reply::Updated(1)];
    let answers = [
        Ok(Outcome::Written {
            slot: 1,
            replies: replies(rt, alloc, three),
        }),
        Err(DbError::Statement(CheckError::NoTable)),
        written(rt, alloc, 2, Reply::Duplicate),
        Err(DbError::Statement(CheckError::NoTable)),
        written(rt, alloc, 3, Reply::Inserted),
        Err(DbError::Full { limit: 3 }),
    ];
    Vec::from_array(alloc, answers).expect(rt, "memory")
}

/// Applies those entries.
fn answers_each(rt: &impl Abort, alloc: Global, db: &mut Db) {
    let mut answers = Vec::new(alloc);
    for entry in mixed_entries(rt, alloc) {
        answers.push(db.advance(entry)).expect(rt, "memory");
    }
    same(
        rt,
        &answers.as_slice(),
        &mixed_answers(rt, alloc).as_slice(),
    );
}

/// Asserts that the history has the three entries that were accepted.
fn has_what_was_accepted(rt: &impl Abort, db: &Db) {
    same(rt, &(db.now(), db.events()), &(3, 3));
    for (place, worker) in [(1, 1), (2, 3), (3, 4)] {
        let entry = db.entry(place).expect(rt, "an entry");
        same(rt, &(place, entry.worker), &(place, worker));
    }
    assert!(rt; db.entry(4).is_none());
}

#[test]
fn a_run_answers_each_entry(rt: HostRuntime) {
    let alloc = rt.alloc();
    let mut db = small_db(&rt, alloc, 3, MAX_EVENTS);
    answers_each(&rt, alloc, &mut db);
    has_what_was_accepted(&rt, &db);
    has(&rt, alloc, &db, &[ANN_15, BOB]);
    done(db);
}
