//! Repairs of generations that came out of repairs.
use super::repairs::{is_cancelled, repair, replied, switched};
use super::{
    ACCT, ANN, Account, BOB, action, add_to_balance, done, had, has, insert, new_db, open, same,
    write,
};
use std::alloc::Global;
use std::process::Abort;
use tt_db::{Db, Edit};
use tt_values::Reply;

/// Three slots: an insert of `ANN`, an update of its balance by 5, and an insert of `BOB`.
fn three_slots(rt: &impl Abort, alloc: Global) -> Db {
    let mut db = new_db(rt, alloc);
    open(rt, alloc, &mut db, ANN);
    let update = add_to_balance(rt, alloc, 1, 5);
    write(rt, alloc, &mut db, [update], [Reply::Updated(1)]);
    open(rt, alloc, &mut db, BOB);
    db
}

/// An edit that puts an update of the balance of `ANN` into slot 2.
fn update_by(rt: &impl Abort, alloc: Global, by: i64) -> Edit {
    Edit::Replace(2, action(rt, alloc, [add_to_balance(rt, alloc, 1, by)]))
}

/// An edit that puts an insert into a slot.
fn insert_at(rt: &impl Abort, alloc: Global, slot: u64, account: Account) -> Edit {
    Edit::Replace(slot, action(rt, alloc, [insert(rt, alloc, ACCT, account)]))
}

#[test]
fn a_cancelled_slot_is_cancelled_again(rt: HostRuntime) {
    let alloc = rt.alloc();
    let mut db = three_slots(&rt, alloc);
    for generation in 1..4 {
        let outcome = repair(&rt, alloc, &mut db, [Edit::Cancel(2)]);
        same(&rt, &outcome, &switched(generation, 3, 1));
        is_cancelled(&rt, &db, 2);
        has(&rt, alloc, &db, &[ANN, BOB]);
    }
    done(db);
}

#[test]
fn a_cancelled_slot_is_replaced(rt: HostRuntime) {
    let alloc = rt.alloc();
    let mut db = three_slots(&rt, alloc);
    same(
        &rt,
        &repair(&rt, alloc, &mut db, [Edit::Cancel(2)]),
        &switched(1, 3, 1),
    );
    let edit = update_by(&rt, alloc, 7);
    same(
        &rt,
        &repair(&rt, alloc, &mut db, [edit]),
        &switched(2, 3, 1),
    );
    replied(&rt, alloc, &db, 2, [Reply::Updated(1)]);
    had(&rt, alloc, &db, 2, &[(1, "ann", 17)]);
    has(&rt, alloc, &db, &[(1, "ann", 17), BOB]);
    done(db);
}

#[test]
fn the_first_slot_is_edited_in_three_generations(rt: HostRuntime) {
    let alloc = rt.alloc();
    let mut db = three_slots(&rt, alloc);
    same(
        &rt,
        &repair(&rt, alloc, &mut db, [Edit::Cancel(1)]),
        &switched(1, 3, 2),
    );
    replied(&rt, alloc, &db, 2, [Reply::Updated(0)]);
    has(&rt, alloc, &db, &[BOB]);
    let edit = insert_at(&rt, alloc, 1, (2, "eve", 1));
    same(
        &rt,
        &repair(&rt, alloc, &mut db, [edit]),
        &switched(2, 3, 2),
    );
    replied(&rt, alloc, &db, 3, [Reply::Duplicate]);
    has(&rt, alloc, &db, &[(2, "eve", 1)]);
    let edit = insert_at(&rt, alloc, 1, (1, "ann", 1));
    same(
        &rt,
        &repair(&rt, alloc, &mut db, [edit]),
        &switched(3, 3, 3),
    );
    replied(&rt, alloc, &db, 2, [Reply::Updated(1)]);
    replied(&rt, alloc, &db, 3, [Reply::Inserted]);
    has(&rt, alloc, &db, &[(1, "ann", 6), BOB]);
    done(db);
}
