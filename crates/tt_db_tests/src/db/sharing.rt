use super::{ACCT, after, entry, new_db, same, select_all};
use std::alloc::Global;
use std::process::Abort;
use tt_db::Db;
use tt_values::Reply;

const STATES: u64 = 5_000;

/// How many rows the table has.
fn count(rt: &impl Abort, alloc: Global, db: &Db) -> usize {
    let reply = db
        .select(&select_all(rt, alloc, ACCT))
        .expect(rt, "a reply");
    match &reply {
        Reply::Rows(rows) => rows.len(),
        _ => usize::MAX,
    }
}

/// All states of a run of inserts, the first one without rows.
fn all_states(rt: &impl Abort, alloc: Global) -> Vec<Db> {
    let mut states = Vec::new(alloc);
    let mut last = new_db(rt, alloc);
    for key in 0..STATES as i64 {
        let next = after(
            rt,
            alloc,
            &last,
            entry(rt, alloc, 1, (key, "ann", 10)),
            Reply::Inserted,
        );
        states.push(last).expect(rt, "memory");
        last = next;
    }
    states.push(last).expect(rt, "memory");
    states
}

/// `./test` runs this once more with little memory: states that share nothing need gigabytes.
#[test]
fn many_states_share_what_they_have_in_common(rt: HostRuntime) {
    let alloc = rt.alloc();
    let states = all_states(&rt, alloc);
    for (time, db) in states.iter().enumerate() {
        same(&rt, &db.now(), &(time as u64));
        if time % 1_000 == 7 {
            same(&rt, &count(&rt, alloc, db), &time);
        }
    }
}
