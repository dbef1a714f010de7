use crate::same::same;
use std::alloc::Global;
use std::process::Abort;
use tt_values::{Comparison, Equal, Few, Row, Value};
use tt_versions::{Side, Table};

const A: i64 = 1;

const B: i64 = 2;

const C: i64 = 3;

const NONE: i64 = 0;

/// A row with that key, and with a tag that differs from version to version.
fn row(rt: &impl Abort, alloc: Global, key: i64, tag: i64) -> Option<Row> {
    let row = Row::of(alloc, [Value::Int(key), Value::Int(tag)]);
    Some(row.expect(rt, "memory"))
}

fn tag(row: Option<&Row>) -> i64 {
    let Some(row) = row else {
        return NONE;
    };
    let value = row.values.get(1);
    match value {
        Some(value) => match value {
            Value::Int(tag) => *tag,
            Value::Text(_) => -1,
        },
        None => -1,
    }
}

/// The side has key 1 with that tag, or not at all, at the time, and no other key.
fn expect_at(rt: &impl Abort, table: &Table, side: Side, time: u64, want: i64) {
    same(rt, &tag(table.at(1, time, side)), &want);
    let rows = table.rows_at(time, side).expect(rt, "memory");
    assert!(rt; rows.is_empty() == (want == NONE));
    for (key, row) in &rows {
        same(rt, &(*key, tag(Some(*row))), &(1, want));
    }
}

/// The side has key 1 with these tags, or not at all, at the times 1 to 5.
fn expect_side(rt: &impl Abort, table: &Table, side: Side, wanted: [i64; 5]) {
    for (index, want) in wanted.iter().enumerate() {
        expect_at(rt, table, side, index as u64 + 1, *want);
    }
}

fn expect_sides(rt: &impl Abort, table: &Table, current: [i64; 5], next: [i64; 5]) {
    expect_side(rt, table, Side::Current, current);
    expect_side(rt, table, Side::Next, next);
}

/// Key 1 has tag a from time 1 and tag b from time 3.
fn a_then_b(rt: &impl Abort, alloc: Global) -> Table {
    let table = Table::new(alloc)
        .written(1, row(rt, alloc, 1, A), 1)
        .expect(rt, "memory");
    table
        .written(1, row(rt, alloc, 1, B), 3)
        .expect(rt, "memory")
}

/// Then key 1 was rolled back to before time 2, and each side was written on.
fn two_sides(rt: &impl Abort, alloc: Global) -> Table {
    let split = a_then_b(rt, alloc).split_back(1, 2).expect(rt, "memory");
    assert!(rt; split.is_split(1));
    let next = split
        .next_written(1, row(rt, alloc, 1, C), 4)
        .expect(rt, "memory");
    next.written(1, None, 5).expect(rt, "memory")
}

#[test]
fn each_side_is_written_on_its_own(rt: HostRuntime) {
    let split = two_sides(&rt, rt.alloc());
    expect_sides(&rt, &split, [A, A, B, B, NONE], [A, A, A, C, C]);
}

#[test]
fn a_rollback_leaves_the_current_side(rt: HostRuntime) {
    let table = a_then_b(&rt, rt.alloc());
    assert!(rt; !table.is_split(1));
    let split = table.split_back(1, 2).expect(&rt, "memory");
    assert!(rt; split.is_split(1) && !table.is_split(1));
    expect_sides(&rt, &split, [A, A, B, B, B], [A, A, A, A, A]);
}

#[test]
fn a_switch_keeps_the_next_side(rt: HostRuntime) {
    let split = two_sides(&rt, rt.alloc());
    let table = split.switched().expect(&rt, "memory");
    assert!(rt; split.is_split(1) && !table.is_split(1));
    expect_sides(&rt, &table, [A, A, A, C, C], [A, A, A, C, C]);
}

#[test]
fn an_abort_keeps_the_current_side(rt: HostRuntime) {
    let split = two_sides(&rt, rt.alloc());
    let table = split.aborted().expect(&rt, "memory");
    assert!(rt; split.is_split(1) && !table.is_split(1));
    expect_sides(&rt, &table, [A, A, B, B, NONE], [A, A, B, B, NONE]);
}

#[test]
fn a_row_that_was_deleted_stays_deleted(rt: HostRuntime) {
    let alloc = rt.alloc();
    let mut table = Table::new(alloc);
    for (version, time) in [
        (row(&rt, alloc, 1, A), 1),
        (None, 2),
        (row(&rt, alloc, 1, B), 3),
    ] {
        table = table.written(1, version, time).expect(&rt, "memory");
    }
    let split = table.split_back(1, 3).expect(&rt, "memory");
    let next = [A, NONE, NONE, NONE, NONE];
    expect_sides(&rt, &split, [A, NONE, B, B, B], next);
}

#[test]
fn a_split_row_without_versions_stays_apart(rt: HostRuntime) {
    let alloc = rt.alloc();
    let split = Table::new(alloc).split_back(1, 1).expect(&rt, "memory");
    assert!(rt; split.is_split(1));
    let table = split
        .written(1, row(&rt, alloc, 1, A), 2)
        .expect(&rt, "memory");
    expect_sides(&rt, &table, [NONE, A, A, A, A], [NONE; 5]);
}

/// Key 1 is split as in `two_sides`, and then each key has a row that is written at time 4.
fn written_together(rt: &impl Abort, alloc: Global) -> Table {
    let mut rows = Few::new(alloc);
    rows.push((1, row(rt, alloc, 1, C))).expect(rt, "memory");
    rows.push((2, row(rt, alloc, 2, A))).expect(rt, "memory");
    let mut table = a_then_b(rt, alloc).split_back(1, 2).expect(rt, "memory");
    table.write_all(rows, 4).expect(rt, "memory");
    table
}

#[test]
fn rows_of_one_time_are_written_together(rt: HostRuntime) {
    let table = written_together(&rt, rt.alloc());
    for (key, side, before, after) in [
        (1, Side::Current, B, C),
        (1, Side::Next, A, A),
        (2, Side::Current, NONE, A),
        (2, Side::Next, NONE, A),
    ] {
        same(&rt, &tag(table.at(key, 3, side)), &before);
        same(&rt, &tag(table.at(key, 4, side)), &after);
    }
}

/// A value of a column, a time, and how many current rows have that value then.
type ColumnCase = (u16, i64, u64, usize);

const BY_COLUMN: [ColumnCase; 7] = [
    (0, 1, 3, 1),
    (0, 3, 3, 0),
    (1, A, 2, 2),
    (1, A, 3, 1),
    (1, B, 3, 1),
    (1, C, 3, 0),
    (7, A, 3, 0),
];

/// One row to be written, with that key and tag.
fn one_row(rt: &impl Abort, alloc: Global, key: i64, tag: i64) -> Few<(i64, Option<Row>)> {
    let mut rows = Few::new(alloc);
    rows.push((key, row(rt, alloc, key, tag)))
        .expect(rt, "memory");
    rows
}

/// Key 1 has tag a from time 1 and tag b from time 3, and key 2 has tag a from time 2. The tags are
/// indexed.
fn indexed(rt: &impl Abort, alloc: Global) -> Table {
    let mut table = Table::with_columns(alloc, &[1]).expect(rt, "memory");
    for (key, tag, time) in [(1, A, 1), (2, A, 2), (1, B, 3)] {
        let rows = one_row(rt, alloc, key, tag);
        table.write_all(rows, time).expect(rt, "memory");
    }
    table
}

fn expect_matching(rt: &impl Abort, table: &Table, case: ColumnCase) {
    let (column, value, time, wanted) = case;
    let equals = [Equal::int(column, value)];
    let rows = table.rows_matching(&equals, time, Side::Current);
    assert_eq!(rt; rows.expect(rt, "memory").len(), wanted, "{case:?}");
}

#[test]
fn rows_are_found_by_key_by_value_and_among_all(rt: HostRuntime) {
    let table = indexed(&rt, rt.alloc());
    for case in BY_COLUMN {
        expect_matching(&rt, &table, case);
    }
    let all = table
        .rows_matching(&[], 3, Side::Next)
        .expect(&rt, "memory");
    same(&rt, &all.len(), &2);
}

/// Keys 0 to 29 have tag a at time 1 and b from time 2; every third one is split, with c from
/// time 2.
fn many_rows(rt: &impl Abort, alloc: Global) -> Table {
    let mut table = Table::new(alloc);
    for key in 0..30 {
        for (tag, time) in [(A, 1), (B, 2)] {
            let rows = one_row(rt, alloc, key, tag);
            table.write_all(rows, time).expect(rt, "memory");
        }
        if key % 3 == 0 {
            table.split_row_back(key, 2).expect(rt, "memory");
            assert!(rt; table.is_split(key));
            table = table
                .next_written(key, row(rt, alloc, key, C), 2)
                .expect(rt, "memory");
        }
    }
    table
}

/// The row of a key: it isn't split, and has tag c if it is a third one, else tag b.
fn expect_third(rt: &impl Abort, table: &Table, key: i64, row: &Row) {
    assert!(rt; !table.is_split(key));
    let want = if key % 3 == 0 { C } else { B };
    same(rt, &tag(Some(row)), &want);
}

/// Both sides have keys 0 to 29 at time 2, every third one with tag c and the others with tag b.
fn expect_many(rt: &impl Abort, table: &Table) {
    for side in [Side::Current, Side::Next] {
        let rows = table.rows_at(2, side).expect(rt, "memory");
        same(rt, &rows.len(), &30);
        let mut wanted = 0;
        for (key, row) in &rows {
            assert!(rt; *key == wanted && wanted < 30);
            expect_third(rt, table, *key, *row);
            wanted += 1;
        }
    }
}

#[test]
fn many_rows_are_switched(rt: HostRuntime) {
    let mut table = many_rows(&rt, rt.alloc());
    table.switch().expect(&rt, "memory");
    expect_many(&rt, &table);
}

#[test]
fn rows_that_differ_are_told(rt: HostRuntime) {
    let table = many_rows(&rt, rt.alloc());
    let before = table.differences(1, None, 3).expect(&rt, "memory");
    assert!(rt; before.is_empty());
    let differences = table.differences(2, Some(0), 3).expect(&rt, "memory");
    same(&rt, &differences.len(), &3);
    for (difference, key) in differences.iter().zip([3, 6, 9]) {
        let tags = (tag(difference.current), tag(difference.next));
        same(&rt, &(difference.key, tags), &(key, (B, C)));
    }
    let again = table.differences(2, Some(0), 3).expect(&rt, "memory");
    same(&rt, &again, &differences);
}

/// Keys with both bounds, by rising key, and their tags.
const TAGGED: [(i64, i64); 8] = [
    (i64::MIN, A),
    (-9_223_372_036_854_775_807, B),
    (-2, C),
    (-1, A),
    (0, B),
    (1, C),
    (9_223_372_036_854_775_806, A),
    (i64::MAX, B),
];

const BOUNDS: [i64; 7] = [
    i64::MIN,
    -9_223_372_036_854_775_807,
    -3,
    0,
    2,
    9_223_372_036_854_775_806,
    i64::MAX,
];

const ALL_COMPARISONS: [Comparison; 6] = [
    Comparison::Is,
    Comparison::IsNot,
    Comparison::Below,
    Comparison::AtMost,
    Comparison::Above,
    Comparison::AtLeast,
];

/// The keys with their tags, which are indexed. Keys below 0 are split, and have tag a on the next
/// side; all rows are written at time 2.
fn tagged(rt: &impl Abort, alloc: Global) -> Table {
    let mut table = Table::with_columns(alloc, &[1]).expect(rt, "memory");
    for (key, tag) in TAGGED {
        if key < 0 {
            table.split_row_back(key, 1).expect(rt, "memory");
            let next = row(rt, alloc, key, A);
            table = table.next_written(key, next, 2).expect(rt, "memory");
        }
        let rows = one_row(rt, alloc, key, tag);
        table.write_all(rows, 2).expect(rt, "memory");
    }
    table
}

/// Whether a number of a row compares so with another one.
fn compares(how: Comparison, number: i64, other: i64) -> bool {
    match how {
        Comparison::Is => number == other,
        Comparison::IsNot => number != other,
        Comparison::Below => number < other,
        Comparison::AtMost => number <= other,
        Comparison::Above => number > other,
        Comparison::AtLeast => number >= other,
    }
}

/// A comparison of a column with a number.
type Compared = (u16, Comparison, i64);

fn is_met(case: Compared, key: i64, tag: i64) -> bool {
    let (column, how, bound) = case;
    compares(how, if column == 0 { key } else { tag }, bound)
}

/// The rows that meet both comparisons are those that are left of all rows.
fn expect_compared(rt: &impl Abort, table: &Table, side: Side, cases: (Compared, Compared)) {
    let (first, second) = cases;
    let equals = [
        Equal::int(first.0, first.2).with(first.1),
        Equal::int(second.0, second.2).with(second.1),
    ];
    let rows = table.rows_matching(&equals, 2, side).expect(rt, "memory");
    let mut place: usize = 0;
    for (key, row) in &table.rows_at(2, side).expect(rt, "memory") {
        let tag = tag(Some(*row));
        if is_met(first, *key, tag) && is_met(second, *key, tag) {
            let found = rows.get(place);
            assert_eq!(rt; found, Some(&(*key, *row)), "{cases:?} {side:?}");
            place = place.saturating_add(1);
        }
    }
    assert_eq!(rt; rows.len(), place, "{cases:?} {side:?}");
}

#[test]
fn rows_are_found_within_ranges_of_keys(rt: HostRuntime) {
    let table = tagged(&rt, rt.alloc());
    for how in ALL_COMPARISONS {
        for bound in BOUNDS {
            for other in ALL_COMPARISONS {
                for second in [(0, other, -1), (0, other, i64::MAX), (1, other, B)] {
                    let cases = ((0, how, bound), second);
                    expect_compared(&rt, &table, Side::Current, cases);
                    expect_compared(&rt, &table, Side::Next, cases);
                }
            }
        }
    }
}
