//! Tables of versions, where one growth is refused.
use super::{owned_by, row, same};
use std::alloc::{AllocError, Global};
use std::process::Abort;
use tt_shared_tests::{Tally, mark, quiet};
use tt_values::{Comparison, Equal, Few, Row, Value};
use tt_versions::{Side, Table};

/// The row of ann with this balance.
fn ann(rt: &impl Abort, alloc: Global, balance: i64) -> Option<Row> {
    Some(row(rt, alloc, 1, "ann", balance))
}

fn balance(row: Option<&Row>) -> i64 {
    let Some(row) = row else {
        return 0;
    };
    match row.values.get(2) {
        Some(Value::Int(balance)) => *balance,
        _ => -1,
    }
}

/// Ann's balances at the times 1 to 3, on the current side and on the next one; 0 for no row.
fn shows(rt: &impl Abort, table: &Table, current: [i64; 3], next: [i64; 3]) {
    for (side, wanted) in [(Side::Current, current), (Side::Next, next)] {
        for (index, want) in wanted.iter().enumerate() {
            let shown = table.at(1, index as u64 + 1, side);
            same(rt, &balance(shown), want);
        }
    }
}

/// The balance of the first of some rows; 0 for none.
fn first_balance(rows: &[(i64, &Row)]) -> i64 {
    match rows.first() {
        Some((_, row)) => balance(Some(*row)),
        None => 0,
    }
}

/// Asserts that a table still shows and lists these balances of ann, and no other row.
fn looks_as_before(
    rt: &impl Abort,
    table: &Table,
    current: [i64; 3],
    next: [i64; 3],
    is_split: bool,
) {
    shows(rt, table, current, next);
    same(rt, &table.is_split(1), &is_split);
    for (side, [_, before, now]) in [(Side::Current, current), (Side::Next, next)] {
        let rows = table.rows_at(3, side).expect(rt, "memory");
        same(rt, &(first_balance(&rows), rows.len() > 1), &(now, false));
        let (page, more) = table
            .page_matching(&[], 3, side, None, 1)
            .expect(rt, "memory");
        same(rt, &(first_balance(&page), more), &(now, false));
        let (earlier, later) = table.around(1, 3, side);
        same(rt, &(balance(earlier), balance(later)), &(before, now));
    }
}

/// A row that was written twice, if the calls find memory, or are made again.
fn written_twice(rt: &impl Abort, alloc: Global) -> Table {
    let empty = Table::new(alloc);
    let five = ann(rt, alloc, 5);
    mark(alloc);
    let one = empty.written(1, five, 1);
    mark(alloc);
    looks_as_before(rt, &empty, [0, 0, 0], [0, 0, 0], false);
    let one = match one {
        Ok(table) => table,
        Err(AllocError) => empty
            .written(1, ann(rt, alloc, 5), 1)
            .expect(rt, "a second call"),
    };
    let six = ann(rt, alloc, 6);
    mark(alloc);
    let two = one.written(1, six, 3);
    mark(alloc);
    looks_as_before(rt, &one, [5, 5, 5], [5, 5, 5], false);
    match two {
        Ok(table) => table,
        Err(AllocError) => one
            .written(1, ann(rt, alloc, 6), 3)
            .expect(rt, "a second call"),
    }
}

/// That row, rolled back to before time 2 on the next side.
fn rolled_back(rt: &impl Abort, alloc: Global) -> Table {
    let old = written_twice(rt, alloc);
    mark(alloc);
    let split = old.split_back(1, 2);
    mark(alloc);
    looks_as_before(rt, &old, [5, 5, 6], [5, 5, 6], false);
    match split {
        Ok(table) => table,
        Err(AllocError) => old.split_back(1, 2).expect(rt, "a second call"),
    }
}

/// The same, written on the next side at time 2.
fn written_apart(rt: &impl Abort, alloc: Global) -> Table {
    let old = rolled_back(rt, alloc);
    shows(rt, &old, [5, 5, 6], [5, 5, 5]);
    assert!(rt; old.is_split(1));
    let seven = ann(rt, alloc, 7);
    mark(alloc);
    let next = old.next_written(1, seven, 2);
    mark(alloc);
    looks_as_before(rt, &old, [5, 5, 6], [5, 5, 5], true);
    match next {
        Ok(table) => table,
        Err(AllocError) => old
            .next_written(1, ann(rt, alloc, 7), 2)
            .expect(rt, "a second call"),
    }
}

#[test]
fn a_table_is_switched(rt: HostRuntime) {
    let alloc = rt.alloc();
    let _tally = Tally::new(alloc);
    let old = written_apart(&rt, alloc);
    mark(alloc);
    let switched = old.switched();
    mark(alloc);
    looks_as_before(&rt, &old, [5, 5, 6], [5, 7, 7], true);
    let switched = match switched {
        Ok(table) => table,
        Err(AllocError) => old.switched().expect(&rt, "a second call"),
    };
    shows(&rt, &switched, [5, 7, 7], [5, 7, 7]);
    assert!(rt; !switched.is_split(1));
}

#[test]
fn a_table_is_aborted(rt: HostRuntime) {
    let alloc = rt.alloc();
    let _tally = Tally::new(alloc);
    let old = written_apart(&rt, alloc);
    mark(alloc);
    let aborted = old.aborted();
    mark(alloc);
    looks_as_before(&rt, &old, [5, 5, 6], [5, 7, 7], true);
    let aborted = match aborted {
        Ok(table) => table,
        Err(AllocError) => old.aborted().expect(&rt, "a second call"),
    };
    shows(&rt, &aborted, [5, 5, 6], [5, 5, 6]);
    assert!(rt; !aborted.is_split(1));
}

#[test]
fn the_rows_of_a_table(rt: HostRuntime) {
    let alloc = rt.alloc();
    let _tally = Tally::new(alloc);
    let table = written_apart(&rt, alloc);
    quiet(alloc);
    shows(&rt, &table, [5, 5, 6], [5, 7, 7]);
    is_around(&rt, &table);
    quiet(alloc);
    mark(alloc);
    let rows = table.rows_at(3, Side::Next);
    mark(alloc);
    let count = match rows {
        Ok(rows) => rows.len(),
        Err(AllocError) => table
            .rows_at(3, Side::Next)
            .expect(&rt, "a second call")
            .len(),
    };
    same(&rt, &count, &1);
}

/// Ann's balances at time 3 and just before, on the current side, and rows that aren't there.
fn is_around(rt: &impl Abort, table: &Table) {
    let (before, after) = table.around(1, 3, Side::Current);
    same(rt, &(balance(before), balance(after)), &(5, 6));
    let (before, after) = table.around(2, 3, Side::Next);
    assert!(rt; before.is_none() && after.is_none() && table.at(2, 3, Side::Next).is_none());
    assert!(rt; table.is_split(1) && !table.is_split(2));
}

/// A table that can be searched by owners, though the first call may find no memory.
fn searchable(rt: &impl Abort, alloc: Global) -> Table {
    mark(alloc);
    let table = Table::with_columns(alloc, &[1]);
    mark(alloc);
    match table {
        Ok(table) => table,
        Err(AllocError) => Table::with_columns(alloc, &[1]).expect(rt, "a second call"),
    }
}

/// The same with the rows of ann and of bob, made in place.
fn with_two_rows(rt: &impl Abort, alloc: Global) -> Table {
    let mut table = searchable(rt, alloc);
    let kept = table.share().expect(rt, "memory");
    let bob = Some(row(rt, alloc, 2, "bob", 6));
    let mut rows = Few::new(alloc);
    rows.push((1, ann(rt, alloc, 5))).expect(rt, "memory");
    rows.push((2, bob)).expect(rt, "memory");
    mark(alloc);
    let written = table.write_all(rows, 1);
    mark(alloc);
    match written {
        Ok(()) => with_no_further_rows(rt, alloc, table),
        Err(AllocError) => {
            let table = kept.written(1, ann(rt, alloc, 5), 1);
            let bob = Some(row(rt, alloc, 2, "bob", 6));
            let table = table.expect(rt, "a second call").written(2, bob, 1);
            table.expect(rt, "a second call")
        }
    }
}

/// The same, once no further rows are written on the next side.
fn with_no_further_rows(rt: &impl Abort, alloc: Global, table: Table) -> Table {
    let mut table = table;
    table
        .write_all_next(Few::new(alloc), 1)
        .expect(rt, "no memory is needed");
    table
}

/// How many rows match, though the first call may find no memory.
fn count_of(rt: &impl Abort, alloc: Global, table: &Table, equals: &[Equal]) -> usize {
    mark(alloc);
    let rows = table.rows_matching(equals, 1, Side::Current);
    mark(alloc);
    match rows {
        Ok(rows) => rows.len(),
        Err(AllocError) => table
            .rows_matching(equals, 1, Side::Current)
            .expect(rt, "a second call")
            .len(),
    }
}

#[test]
fn the_rows_that_match(rt: HostRuntime) {
    let alloc = rt.alloc();
    let _tally = Tally::new(alloc);
    let table = with_two_rows(&rt, alloc);
    let of_bob = [owned_by(&rt, alloc, "bob")];
    same(&rt, &count_of(&rt, alloc, &table, &of_bob), &1);
}

/// Five rows that can be searched by owners: the third one is bob's, the others are ann's.
fn five_rows(rt: &impl Abort, alloc: Global) -> Table {
    let mut table = Table::with_columns(alloc, &[1]).expect(rt, "memory");
    for (key, owner) in [(1, "ann"), (2, "ann"), (3, "bob"), (4, "ann"), (5, "ann")] {
        let row = Some(row(rt, alloc, key, owner, 5));
        table = table.written(key, row, 1).expect(rt, "memory");
    }
    table
}

/// The conditions that the key lies above 1, and isn't above this one.
fn within(last: i64) -> [Equal; 2] {
    [
        Equal::int(0, 1).with(Comparison::Above),
        Equal::int(0, last).with(Comparison::AtMost),
    ]
}

/// Rows that are found by comparisons: within a range of keys, and among all.
#[test]
fn the_rows_that_compare(rt: HostRuntime) {
    let alloc = rt.alloc();
    let _tally = Tally::new(alloc);
    let table = five_rows(&rt, alloc);
    let not_ann = [owned_by(&rt, alloc, "ann").with(Comparison::IsNot)];
    same(&rt, &count_of(&rt, alloc, &table, &within(4)), &3);
    same(&rt, &count_of(&rt, alloc, &table, &not_ann), &1);
}

/// Asserts which keys a page behind key 1 has, and whether more follow, though the first call may
/// find no memory.
fn has_page(
    rt: &impl Abort,
    alloc: Global,
    table: &Table,
    equals: &[Equal],
    most: usize,
    want: (&[i64], bool),
) {
    mark(alloc);
    let page = table.page_matching(equals, 1, Side::Current, Some(1), most);
    mark(alloc);
    let (rows, more) = match page {
        Ok(page) => page,
        Err(AllocError) => {
            let page = table.page_matching(equals, 1, Side::Current, Some(1), most);
            page.expect(rt, "a second call")
        }
    };
    let mut keys = Vec::new(alloc);
    for (key, _) in &rows {
        keys.push(*key).expect(rt, "memory");
    }
    same(rt, &(keys.as_slice(), more), &want);
}

/// Pages of all rows, of the rows of an owner, with and without the index, and of one row.
#[test]
fn pages_of_the_rows_that_match(rt: HostRuntime) {
    let alloc = rt.alloc();
    let _tally = Tally::new(alloc);
    let table = five_rows(&rt, alloc);
    let of_ann = [owned_by(&rt, alloc, "ann")];
    let of_bob = [owned_by(&rt, alloc, "bob")];
    has_page(&rt, alloc, &table, &[], 2, (&[2, 3], true));
    has_page(&rt, alloc, &table, &of_ann, 3, (&[2, 4, 5], false));
    has_page(&rt, alloc, &table, &of_bob, 1, (&[3], false));
    has_page(&rt, alloc, &table, &[Equal::int(0, 3)], 1, (&[3], false));
    has_page(&rt, alloc, &table, &within(4), 2, (&[2, 3], true));
}
