use super::Plain::{self, Number, Words};
use super::{
    ANN, NO_EQUALITIES, PlainPartition, acct, delete, delete_by, insert, parcel, partition,
    partition_reads, partitions, row, tables,
};
use crate::same::same;
use tt_parts::{Reads, parts_of, reads_of};
use tt_values::{Equal, Write};

/// A table, a row of it, and the partitions that the row lies in.
type RowCase = (u16, &'static [Plain], &'static [PlainPartition]);

const ROWS: &[RowCase] = &[
    (0, ANN, &[(0, 0, Number(1)), (0, 1, Words("ann"))]),
    (
        1,
        &[Number(i64::MAX), Words("ulm"), Words("left"), Number(-7)],
        &[
            (1, 0, Number(i64::MAX)),
            (1, 1, Words("ulm")),
            (1, 3, Number(-7)),
        ],
    ),
];

#[test]
fn a_row_lies_in_one_partition_for_each_partition_column(rt: HostRuntime) {
    let alloc = rt.alloc();
    let catalog = tables(&rt, alloc);
    for (table, plains, want) in ROWS {
        let def = catalog.table(*table).expect(&rt, "a table");
        let row = row(&rt, alloc, plains);
        let parts = parts_of(alloc, *table, def, &row).expect(&rt, "memory");
        assert_eq!(rt; parts, partitions(&rt, alloc, want), "{plains:?}");
    }
}

/// The equalities of a write on parcels, and the partitions that it reads.
type WriteCase = (&'static [(u16, Plain)], &'static [PlainPartition]);

const OF_PARCELS: &[WriteCase] = &[
    (&[(0, Number(i64::MIN))], &[(4, 0, Number(i64::MIN))]),
    (
        &[(3, Number(9)), (2, Words("left")), (1, Words("ulm"))],
        &[(4, 3, Number(9)), (4, 1, Words("ulm"))],
    ),
    (
        &[(1, Words("ulm")), (1, Words("bonn")), (1, Words("ulm"))],
        &[
            (4, 1, Words("ulm")),
            (4, 1, Words("bonn")),
            (4, 1, Words("ulm")),
        ],
    ),
];

#[test]
fn a_write_reads_its_partitions(rt: HostRuntime) {
    let alloc = rt.alloc();
    let def = parcel(&rt, alloc);
    for (pairs, want) in OF_PARCELS {
        let delete = delete(&rt, alloc, 4, pairs);
        let reads = reads_of(alloc, &def, &delete).expect(&rt, "memory");
        assert_eq!(rt; reads, partition_reads(&rt, alloc, want), "{pairs:?}");
    }
}

#[test]
fn a_write_without_partitions_reads_its_table(rt: HostRuntime) {
    let alloc = rt.alloc();
    let def = parcel(&rt, alloc);
    for pairs in [&[][..], &[(2, Words("left"))]] {
        let delete = delete(&rt, alloc, 4, pairs);
        let reads = reads_of(alloc, &def, &delete).expect(&rt, "memory");
        assert_eq!(rt; reads, Reads::All { table: 4 }, "{pairs:?}");
    }
}

#[test]
fn a_write_without_equalities_reads_its_table(rt: HostRuntime) {
    let alloc = rt.alloc();
    let def = parcel(&rt, alloc);
    for how in NO_EQUALITIES {
        let delete = delete_by(&rt, alloc, 4, how, &[(0, Number(7)), (1, Words("ulm"))]);
        let reads = reads_of(alloc, &def, &delete).expect(&rt, "memory");
        assert_eq!(rt; reads, Reads::All { table: 4 }, "{how:?}");
    }
}

#[test]
fn of_several_conditions_equalities_are_read(rt: HostRuntime) {
    let alloc = rt.alloc();
    let def = parcel(&rt, alloc);
    let want = partition_reads(&rt, alloc, &[(4, 1, Words("ulm"))]);
    for how in NO_EQUALITIES {
        let ulm = Equal::text(alloc, 1, "ulm").expect(&rt, "memory");
        let conditions = [Equal::int(0, 7).with(how), ulm, Equal::int(3, 9).with(how)];
        let delete = Write::delete(alloc, 4, conditions).expect(&rt, "memory");
        let reads = reads_of(alloc, &def, &delete).expect(&rt, "memory");
        assert_eq!(rt; reads, want, "{how:?}");
    }
}

#[test]
fn an_insert_reads_its_key(rt: HostRuntime) {
    let alloc = rt.alloc();
    let insert = insert(&rt, alloc, i64::MAX);
    let reads = reads_of(alloc, &acct(&rt, alloc), &insert).expect(&rt, "memory");
    let key = partition_reads(&rt, alloc, &[(0, 0, Number(i64::MAX))]);
    same(&rt, &reads, &key);
}
