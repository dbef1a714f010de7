//! Since when what is dirty may affect a slot: the number of the first slot after which it may.
ghost use Rattle.std.specs.Prelude.{◌≡◌, filter};
ghost use Rattle.std.specs.List.{All};
ghost use Rattle.tt_values.specs.Check.{HasKey};
ghost use Rattle.tt_parts.specs.Partitions.{equates_partition, partition_of, equated_partitions};
ghost use Rattle.tt_parts.specs.Dirty.{columns_in, partition_since};
ghost use Rattle.tt_causes.specs.Numbers.{earlier, later, earliest, row_id_since, key_since, condition_since, named_since, read_since, unclear_since, slot_since};
ghost use Rattle.tt_generations.specs.SlotCauses.{latest_of};

use tt_parts::{Dirty, equates_partition, reads_partition};
use tt_values::{Column, Equal, RowId, Value, Write};

/// Since when what is dirty may affect a slot that touched these rows and has these writes: since
/// one of the rows is dirty, or one of the writes names a dirty row or isn't clear.
pub(crate) fn slot_since(dirty: &Dirty, rows: &[RowId], writes: &[Write]) -> Option<u64>
    requires { All HasKey writes.now }
    ensures { result
        ≡ slot_since dirty.now.catalog dirty.now.since rows.now writes.now }
{
    let named_or_unclear = earlier(first_named(dirty, writes), first_unclear(dirty, writes));
    earlier(first_touched(dirty, rows), named_or_unclear)
}

/// Since when one of the rows is dirty.
fn first_touched(dirty: &Dirty, rows: &[RowId]) -> Option<u64>
    ensures { result ≡ earliest (row_id_since dirty.now.since) rows.now }
{
    let mut since = None;
    for row in rows {
        since = earlier(since, dirty.row_since(row.table, row.key));
    }
    since
}

/// Since when one of the writes names a dirty row.
fn first_named(dirty: &Dirty, writes: &[Write]) -> Option<u64>
    requires { All HasKey writes.now }
    ensures { result ≡ earliest (named_since dirty.now.since) writes.now }
{
    let mut since = None;
    for write in writes {
        since = earlier(since, named_since(dirty, write));
    }
    since
}

/// Since when one of the writes isn't clear.
fn first_unclear(dirty: &Dirty, writes: &[Write]) -> Option<u64>
    requires { All HasKey writes.now }
    ensures { result
        ≡ earliest (unclear_since dirty.now.catalog dirty.now.since) writes.now }
{
    let mut since = None;
    for write in writes {
        since = earlier(since, unclear_since(dirty, write));
    }
    since
}

/// Since when a write inserts the key of a dirty row, or has an equality with it.
pub(crate) fn named_since(dirty: &Dirty, write: &Write) -> Option<u64>
    requires { HasKey write.now }
    ensures { result ≡ named_since dirty.now.since write.now }
{
    match write {
        Write::Insert { table, row } => dirty.row_since(*table, row.key()),
        Write::Update { table, equals, .. } => first_condition(dirty, *table, equals.as_slice()),
        Write::Delete { table, equals } => first_condition(dirty, *table, equals.as_slice()),
    }
}

/// Since when one of the conditions is an equality with the key of a dirty row.
fn first_condition(dirty: &Dirty, table: u16, equals: &[Equal]) -> Option<u64>
    ensures { result ≡ earliest (condition_since dirty.now.since table) equals.now }
{
    let mut since = None;
    for equal in equals {
        since = earlier(since, condition_since(dirty, table, equal));
    }
    since
}

/// Since when a condition is an equality on the first column, with the key of a dirty row.
pub(crate) fn condition_since(dirty: &Dirty, table: u16, equal: &Equal) -> Option<u64>
    ensures { result ≡ condition_since dirty.now.since table equal.now }
{
    if equal.equates() && equal.column == 0 {
        key_since(dirty, table, &equal.value)
    } else {
        None
    }
}

/// Since when a value is the key of a dirty row.
fn key_since(dirty: &Dirty, table: u16, value: &Value) -> Option<u64>
    ensures { result ≡ key_since dirty.now.since table value.now }
{
    match value {
        Value::Int(key) => dirty.row_since(table, *key),
        Value::Text(_) => None,
    }
}

/// Since when a write isn't clear.
pub(crate) fn unclear_since(dirty: &Dirty, write: &Write) -> Option<u64>
    requires { HasKey write.now }
    ensures { result ≡ unclear_since dirty.now.catalog dirty.now.since write.now }
{
    match write {
        Write::Insert { table, row } => { dirty.partition_since(*table, 0, &Value::Int(row.key())) }
        Write::Update { table, equals, .. } => read_since(dirty, *table, equals.as_slice()),
        Write::Delete { table, equals } => read_since(dirty, *table, equals.as_slice()),
    }
}

/// Since when a write with these conditions isn't clear: since all partitions that it reads are
/// dirty, or, if it reads a whole table, since a row of the table is.
fn read_since(dirty: &Dirty, table: u16, equals: &[Equal]) -> Option<u64>
    ensures { result ≡ read_since dirty.now.since table
        (equated_partitions table (columns_in dirty.now.catalog table) equals.now) }
{
    let columns = dirty.columns(table);
    if reads_partition(columns, equals) {
        last_partition(dirty, table, columns, equals)
    } else {
        dirty.table_since(table)
    }
}

/// Since when the partition of each equality on a partition column is dirty. 0 where there is none.
fn last_partition(dirty: &Dirty, table: u16, columns: &[Column], equals: &[Equal]) -> Option<u64>
    ensures { result ≡ latest_of (partition_since dirty.now.since)
        (equated_partitions table columns.now equals.now) }
{
    let mut since = Some(0);
    for equal in equals {
        if equates_partition(columns, equal) {
            let partition = dirty.partition_since(table, equal.column, &equal.value);
            since = later(since, partition);
        }
    }
    since
}

/// The lesser of two numbers, of which either may be missing.
fn earlier(one: Option<u64>, other: Option<u64>) -> Option<u64>
    ensures { result ≡ earlier one other }
{
    match (one, other) {
        (Some(one), Some(other)) => Some(one.min(other)),
        (Some(one), None) => Some(one),
        (None, other) => other,
    }
}

/// The greater of two numbers, if neither is missing.
fn later(one: Option<u64>, other: Option<u64>) -> Option<u64>
    ensures { result ≡ later one other }
{
    match (one, other) {
        (Some(one), Some(other)) => Some(one.max(other)),
        _ => None,
    }
}
