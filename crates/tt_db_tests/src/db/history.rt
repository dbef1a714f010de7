use super::repairs::{begin_and_step, delete_bob, finish, five_slots};
use super::{
    ACCT, ANN, BOB, SAME_KEY, action, after, done, entry, has, insert, new_db, open, replies, same,
};
use tt_db::Slot;
use tt_values::Reply;

#[test]
fn the_old_database_stays(rt: HostRuntime) {
    let alloc = rt.alloc();
    let empty = new_db(&rt, alloc);
    let old = after(
        &rt,
        alloc,
        &empty,
        entry(&rt, alloc, 1, ANN),
        Reply::Inserted,
    );
    done(empty);
    let new = after(&rt, alloc, &old, entry(&rt, alloc, 1, BOB), Reply::Inserted);
    same(&rt, &old.now(), &1);
    same(&rt, &old.events(), &1);
    assert!(rt; old.slot(2).is_none() && old.entry(2).is_none());
    has(&rt, alloc, &old, &[ANN]);
    has(&rt, alloc, &new, &[ANN, BOB]);
    done(old);
    done(new);
}

#[test]
fn the_old_database_can_go_another_way(rt: HostRuntime) {
    let alloc = rt.alloc();
    let old = new_db(&rt, alloc);
    let new = after(&rt, alloc, &old, entry(&rt, alloc, 1, ANN), Reply::Inserted);
    let other = after(
        &rt,
        alloc,
        &old,
        entry(&rt, alloc, 1, SAME_KEY),
        Reply::Inserted,
    );
    has(&rt, alloc, &new, &[ANN]);
    has(&rt, alloc, &other, &[SAME_KEY]);
    done(old);
    done(new);
    done(other);
}

#[test]
fn a_duplicate_has_a_slot_and_an_entry(rt: HostRuntime) {
    let alloc = rt.alloc();
    let empty = new_db(&rt, alloc);
    let old = after(
        &rt,
        alloc,
        &empty,
        entry(&rt, alloc, 3, ANN),
        Reply::Inserted,
    );
    done(empty);
    let again = entry(&rt, alloc, 4, SAME_KEY);
    let db = after(&rt, alloc, &old, again, Reply::Duplicate);
    done(old);
    let second = Slot {
        action: Some(action(&rt, alloc, [insert(&rt, alloc, ACCT, SAME_KEY)])),
        replies: Some(replies(&rt, alloc, [Reply::Duplicate])),
    };
    same(&rt, &db.slot(2), &Some(&second));
    same(&rt, &db.entry(2), &Some(&entry(&rt, alloc, 4, SAME_KEY)));
    for number in [0, 3, u64::MAX] {
        assert!(rt; db.slot(number).is_none(), "slot {number}");
        assert!(rt; db.entry(number).is_none(), "entry {number}");
    }
    done(db);
}

#[test]
fn each_slot_has_the_place_of_its_entry(rt: HostRuntime) {
    let alloc = rt.alloc();
    let mut db = five_slots(&rt, alloc);
    let edit = delete_bob(&rt, alloc);
    // The entries from 6 on: the begin, four steps, slot 6, two steps, the switch, and slot 7.
    begin_and_step(&rt, alloc, &mut db, [edit], 4);
    open(&rt, alloc, &mut db, (4, "dan", 1));
    finish(&rt, &mut db);
    open(&rt, alloc, &mut db, (5, "eve", 1));
    let places = [
        None,
        Some(1),
        Some(2),
        Some(3),
        Some(4),
        Some(5),
        Some(11),
        Some(15),
        None,
    ];
    for (slot, place) in places.iter().enumerate() {
        assert_eq!(rt; db.place_of(slot as u64), *place, "of slot {slot}");
    }
    same(&rt, &db.place_of(u64::MAX), &None);
    done(db);
}
