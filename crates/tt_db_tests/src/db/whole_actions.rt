//! Whole actions: each is carried out wholly, or writes nothing and is answered up to the write
//! that has no effect, also where a repair changes which of the two it is.
use super::repairs::{repair, replied, switched};
use super::{
    ACCT, ANN, Account, BOB, SAME_KEY, action, add_to_balance, any_account, delete, done, had, has,
    insert, made, new_db, open, replies, same,
};
use std::alloc::Global;
use std::process::Abort;
use tt_db::{Db, Edit, Event, Outcome};
use tt_values::{Action, Items, Reply, Write};

/// The accounts after 5 went from `ANN` to `BOB`.
const ANN_5: Account = (1, "ann", 5);

const BOB_25: Account = (2, "bob", 25);

/// Applies a whole action of these writes, with these replies.
fn write_wholly<const N: usize, const M: usize>(
    rt: &impl Abort,
    alloc: Global,
    db: &mut Db,
    writes: [Write; N],
    wants: [Reply; M],
) {
    let slot = db.now().saturating_add(1);
    let replies = replies(rt, alloc, wants);
    let writes = Items::of(alloc, writes).expect(rt, "memory");
    let outcome = made(rt, db, Event::Write(Action::whole(writes)));
    same(rt, &outcome, &Outcome::Written { slot, replies });
}

/// The two writes by which 5 go from `ANN` to `BOB`.
fn transfer(rt: &impl Abort, alloc: Global) -> [Write; 2] {
    [
        add_to_balance(rt, alloc, 1, -5),
        add_to_balance(rt, alloc, 2, 5),
    ]
}

/// A whole action each of whose writes has an effect.
#[test]
fn a_whole_action_is_carried_out(rt: HostRuntime) {
    let alloc = rt.alloc();
    let mut db = new_db(&rt, alloc);
    open(&rt, alloc, &mut db, ANN);
    open(&rt, alloc, &mut db, BOB);
    let wants = [Reply::Updated(1), Reply::Updated(1)];
    write_wholly(&rt, alloc, &mut db, transfer(&rt, alloc), wants);
    had(&rt, alloc, &db, 2, &[ANN, BOB]);
    has(&rt, alloc, &db, &[ANN_5, BOB_25]);
    done(db);
}

/// The second of three writes has no effect: the first one is undone, and the third one isn't
/// carried out. The action takes a slot all the same.
#[test]
fn an_undone_action_writes_nothing(rt: HostRuntime) {
    let alloc = rt.alloc();
    let mut db = new_db(&rt, alloc);
    open(&rt, alloc, &mut db, ANN);
    let writes = [
        insert(&rt, alloc, ACCT, BOB),
        insert(&rt, alloc, ACCT, SAME_KEY),
        delete(any_account(&rt, alloc)),
    ];
    let wants = [Reply::Inserted, Reply::Duplicate];
    write_wholly(&rt, alloc, &mut db, writes, wants);
    same(&rt, &db.now(), &2);
    replied(&rt, alloc, &db, 2, [Reply::Inserted, Reply::Duplicate]);
    has(&rt, alloc, &db, &[ANN]);
    done(db);
}

/// A transfer to an account that isn't there, until the first slot is edited to open it.
#[test]
fn a_repair_carries_out_an_undone_action(rt: HostRuntime) {
    let alloc = rt.alloc();
    let mut db = new_db(&rt, alloc);
    open(&rt, alloc, &mut db, ANN);
    let wants = [Reply::Updated(1), Reply::Updated(0)];
    write_wholly(&rt, alloc, &mut db, transfer(&rt, alloc), wants);
    has(&rt, alloc, &db, &[ANN]);
    let both = [insert(&rt, alloc, ACCT, ANN), insert(&rt, alloc, ACCT, BOB)];
    let edit = Edit::Replace(1, action(&rt, alloc, both));
    let outcome = repair(&rt, alloc, &mut db, [edit]);
    same(&rt, &outcome, &switched(1, 2, 2));
    replied(&rt, alloc, &db, 2, [Reply::Updated(1), Reply::Updated(1)]);
    has(&rt, alloc, &db, &[ANN_5, BOB_25]);
    done(db);
}

/// A transfer to an account whose opening is cancelled.
#[test]
fn a_repair_undoes_a_whole_action(rt: HostRuntime) {
    let alloc = rt.alloc();
    let mut db = new_db(&rt, alloc);
    open(&rt, alloc, &mut db, ANN);
    open(&rt, alloc, &mut db, BOB);
    let wants = [Reply::Updated(1), Reply::Updated(1)];
    write_wholly(&rt, alloc, &mut db, transfer(&rt, alloc), wants);
    let outcome = repair(&rt, alloc, &mut db, [Edit::Cancel(2)]);
    same(&rt, &outcome, &switched(1, 3, 2));
    replied(&rt, alloc, &db, 3, [Reply::Updated(1), Reply::Updated(0)]);
    has(&rt, alloc, &db, &[ANN]);
    done(db);
}
