ghost use Rattle.std.specs.Prelude.{◌≡◌, length};

use super::Plain::{self, Number, Words};
use super::{
    ANN, NO_EQUALITIES, PlainPartition, delete, delete_by, done, insert, nothing_dirty,
    partition_reads, row, value,
};
use crate::same::same;
use std::alloc::Global;
use std::process::Abort;
use tt_parts::{Dirty, Reads};

/// The row (1, "eve", 10) of `acct`.
const EVE: &[Plain] = &[Number(1), Words("eve"), Number(10)];

/// The row (1, "bob", 10) of `acct`.
const BOB: &[Plain] = &[Number(1), Words("bob"), Number(10)];

/// Partitions that a statement reads, and whether it is clear.
type Clear = &'static [(&'static [PlainPartition], bool)];

fn check_clear(rt: &impl Abort, alloc: Global, dirty: &Dirty, cases: Clear) {
    for (plains, want) in cases {
        let reads = partition_reads(rt, alloc, plains);
        assert_eq!(rt; dirty.clear_of(&reads), *want, "{plains:?}");
    }
}

const BY_ANN_AND_EVE: Clear = &[
    (&[(0, 1, Words("ann"))], false),
    (&[(0, 1, Words("eve"))], false),
    (&[(0, 1, Words("bob"))], true),
    (&[(0, 0, Number(1))], false),
    (&[(0, 0, Number(2)), (0, 1, Words("ann"))], true),
    (&[(0, 1, Words("ann")), (0, 1, Words("eve"))], false),
    (&[(1, 1, Words("ann"))], true),
];

#[test]
fn a_row_gets_dirty_with_its_partitions(rt: HostRuntime) {
    let alloc = rt.alloc();
    let nothing = nothing_dirty(&rt, alloc);
    let (ann, eve) = (row(&rt, alloc, ANN), row(&rt, alloc, EVE));
    let dirty = nothing.with_row(0, 1, 4, Some(&ann), Some(&eve));
    let dirty = dirty.expect(&rt, "memory");
    assert!(rt; dirty.has_row(0, 1) && !dirty.has_row(0, 2) && !dirty.has_row(1, 1));
    check_clear(&rt, alloc, &dirty, BY_ANN_AND_EVE);
    assert!(rt; !dirty.clear_of(&Reads::All { table: 0 }));
    assert!(rt; dirty.clear_of(&Reads::All { table: 1 }));
    assert!(rt; !nothing.has_row(0, 1) && nothing.clear_of(&Reads::All { table: 0 }));
    done(nothing);
    done(dirty);
}

const BY_THREE_KEYS: Clear = &[
    (&[(0, 0, Number(i64::MIN))], false),
    (&[(0, 0, Number(i64::MAX))], false),
    (&[(0, 0, Number(0))], false),
    (&[(0, 0, Number(-1))], true),
    (&[(0, 1, Words("ann"))], false),
    (&[(0, 1, Words("eve"))], false),
];

#[test]
fn a_row_may_have_one_content_or_none(rt: HostRuntime) {
    let alloc = rt.alloc();
    let lowest = row(&rt, alloc, &[Number(i64::MIN), Words("ann"), Number(0)]);
    let highest = row(&rt, alloc, &[Number(i64::MAX), Words("eve"), Number(0)]);
    let mut dirty = nothing_dirty(&rt, alloc);
    let added = dirty.add_row(0, i64::MIN, 1, Some(&lowest), None);
    added.expect(&rt, "memory");
    let added = dirty.add_row(0, i64::MAX, 2, None, Some(&highest));
    added.expect(&rt, "memory");
    dirty.add_row(0, 0, 3, None, None).expect(&rt, "memory");
    assert!(rt; dirty.has_row(0, i64::MIN) && dirty.has_row(0, i64::MAX) && dirty.has_row(0, 0));
    assert!(rt; !dirty.has_row(0, -1));
    check_clear(&rt, alloc, &dirty, BY_THREE_KEYS);
    done(dirty);
}

/// The numbers of partitions.
type Since = &'static [(PlainPartition, Option<u64>)];

fn check_since(rt: &impl Abort, alloc: Global, dirty: &Dirty, cases: Since) {
    for ((table, column, plain), want) in cases {
        let value = value(rt, alloc, *plain);
        let since = dirty.partition_since(*table, *column, &value);
        assert_eq!(rt; since, *want, "{plain:?}");
    }
}

const FROM_ANN_TO_EVE_TO_BOB: Since = &[
    ((0, 0, Number(1)), Some(4)),
    ((0, 1, Words("ann")), Some(4)),
    ((0, 1, Words("eve")), Some(4)),
    ((0, 1, Words("bob")), Some(7)),
    ((0, 1, Words("dan")), None),
    ((1, 1, Words("ann")), None),
];

#[test]
fn a_member_keeps_its_first_number(rt: HostRuntime) {
    let alloc = rt.alloc();
    let mut dirty = ann_to_eve(&rt, alloc);
    let (eve, bob) = (row(&rt, alloc, EVE), row(&rt, alloc, BOB));
    let added = dirty.add_row(0, 1, 7, Some(&eve), Some(&bob));
    added.expect(&rt, "memory");
    let added = dirty.add_row(0, 2, 9, None, None);
    added.expect(&rt, "memory");
    check_since(&rt, alloc, &dirty, FROM_ANN_TO_EVE_TO_BOB);
    assert_eq!(rt; dirty.row_since(0, 1), Some(4));
    assert_eq!(rt; dirty.row_since(0, 2), Some(9));
    assert!(rt; dirty.row_since(0, 3).is_none() && dirty.row_since(1, 1).is_none());
    assert_eq!(rt; dirty.table_since(0), Some(4));
    assert!(rt; dirty.table_since(1).is_none());
    done(dirty);
}

const A_IS_DIRTY: Clear = &[
    (&[(0, 1, Words("a"))], false),
    (&[(0, 1, Words("\0a"))], true),
];

const BOTH_ARE_DIRTY: Clear = &[
    (&[(0, 1, Words("a"))], false),
    (&[(0, 1, Words("\0a"))], false),
    (&[(0, 1, Words("\0\0a"))], true),
];

/// A zero byte in front doesn't change the digest of a text.
#[test]
fn values_with_one_digest_are_told_apart(rt: HostRuntime) {
    let alloc = rt.alloc();
    let first = row(&rt, alloc, &[Number(1), Words("a"), Number(0)]);
    let second = row(&rt, alloc, &[Number(2), Words("\0a"), Number(0)]);
    let mut dirty = nothing_dirty(&rt, alloc);
    let added = dirty.add_row(0, 1, 1, Some(&first), None);
    added.expect(&rt, "memory");
    let before = dirty.share().expect(&rt, "memory");
    let added = dirty.add_row(0, 2, 2, None, Some(&second));
    added.expect(&rt, "memory");
    check_clear(&rt, alloc, &before, A_IS_DIRTY);
    check_clear(&rt, alloc, &dirty, BOTH_ARE_DIRTY);
    assert!(rt; dirty.has_row(0, 2) && !before.has_row(0, 2));
    done(before);
    done(dirty);
}

/// The equalities of a delete on accounts, and whether it is clear.
const DELETES: &[(&[(u16, Plain)], bool)] = &[
    (&[], false),
    (&[(2, Number(10))], false),
    (&[(9, Number(10))], false),
    (&[(1, Words("ann"))], false),
    (&[(1, Words("bob"))], true),
    (&[(0, Number(1)), (1, Words("eve"))], false),
    (&[(2, Number(10)), (0, Number(2)), (1, Words("eve"))], true),
];

/// Account 1 went from Ann to Eve.
fn ann_to_eve(rt: &impl Abort, alloc: Global) -> Dirty
    ensures { length result.catalog ≡ 2 }
{
    let (ann, eve) = (row(rt, alloc, ANN), row(rt, alloc, EVE));
    let mut dirty = nothing_dirty(rt, alloc);
    let added = dirty.add_row(0, 1, 4, Some(&ann), Some(&eve));
    added.expect(rt, "memory");
    dirty
}

#[test]
fn a_delete_is_clear_by_what_it_reads(rt: HostRuntime) {
    let alloc = rt.alloc();
    let dirty = ann_to_eve(&rt, alloc);
    for (pairs, want) in DELETES {
        let delete = delete(&rt, alloc, 0, pairs);
        assert_eq!(rt; dirty.is_clear(&delete), *want, "{pairs:?}");
    }
    let of_parcels = delete(&rt, alloc, 1, &[]);
    assert!(rt; dirty.is_clear(&of_parcels));
    done(dirty);
}

#[test]
fn a_delete_is_clear_by_equalities_alone(rt: HostRuntime) {
    let alloc = rt.alloc();
    let dirty = ann_to_eve(&rt, alloc);
    for how in NO_EQUALITIES {
        for table in [0, 1] {
            let pairs = [(0, Number(2)), (1, Words("bob"))];
            let delete = delete_by(&rt, alloc, table, how, &pairs);
            assert_eq!(rt; dirty.is_clear(&delete), table == 1, "{how:?}");
        }
    }
    done(dirty);
}

#[test]
fn an_insert_is_clear_by_its_key(rt: HostRuntime) {
    let alloc = rt.alloc();
    let dirty = ann_to_eve(&rt, alloc);
    let first = insert(&rt, alloc, 1);
    let second = insert(&rt, alloc, 2);
    assert!(rt; dirty.is_clear(&second) && !dirty.is_clear(&first));
    done(dirty);
}
