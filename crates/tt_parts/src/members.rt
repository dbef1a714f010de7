//! Partitions of rows and of equalities as members of the set of dirty partitions.
ghost use Rattle.std.specs.Prelude.{◌≡◌, ℕ, ◌≤◌, ◌^◌, ◌&&◌, not, [], ◌∷◌, Some, length, OnOk, IsTrue};
ghost use Rattle.std.specs.List.{list_any};
ghost use Rattle.std.specs.Option.{option_copied};
ghost use Rattle.tt_values.specs.Row.{first_int};
ghost use Rattle.tt_parts.specs.Partitions.{key_partition, part_at, parts_of, equates_partition, partition_of, is_partition_in};
ghost use Rattle.tt_parts.specs.Dirty.{has_other_partition, parts_if};
ghost use Rattle.tt_parts.specs.Sets.{partitions_found, AddsPartitions};

use crate::dirty_partitions::DirtyPartitions;
use crate::partition::Partition;
use crate::parts::is_partition_column;
use crate::statement_reads::equates_partition;
use std::alloc::AllocError;
use tt_values::{Column, Equal, Row, RowId, Same, TableDef, Value};

/// Whether one of the partitions isn't a member.
pub(crate) fn has_other_partition(members: &DirtyPartitions, partitions: &[Partition]) -> bool
    ensures { result ≡ has_other_partition (partitions_found members.now) partitions.now }
{
    partitions.iter().any(|partition| !members.has(partition))
}

/// Adds the partition of a key.
pub(crate) fn add_key(
    members: &mut DirtyPartitions,
    table: u16,
    key: i64,
    number: u64,
) -> Result<(), AllocError>
    ensures { OnOk result
        (AddsPartitions members.old (key_partition table key ∷ []) number members.new) }
{
    ensure_member(members, table, 0, &Value::Int(key), number)
}

/// Adds the partitions that a row lies in, if there is a row. That of its key is a member.
pub(crate) fn add_parts(
    members: &mut DirtyPartitions,
    id: RowId,
    def: &TableDef,
    row: Option<&Row>,
    number: u64,
) -> Result<(), AllocError>
    requires few { length def.now.columns ≤ 2 ^ 16 }
    requires key { IsTrue (is_partition_in (partitions_found members.old)
        (key_partition id.table id.key)) }
    ensures { OnOk result (AddsPartitions members.old
        (parts_if id.table def.now.columns (option_copied row.entry)) number members.new) }
{
    match row {
        Some(row) => add_parts_of(members, id, def.columns.as_slice(), row, number),
        None => Ok(()),
    }
}

/// Adds the partitions that a row lies in after a change, if there is a row. Those that it lay in
/// before are members, as that of its key is, so nothing is left to do where it lies in the same
/// ones.
pub(crate) fn add_changed_parts(
    members: &mut DirtyPartitions,
    id: RowId,
    def: &TableDef,
    before: Option<&Row>,
    after: Option<&Row>,
    number: u64,
) -> Result<(), AllocError>
    requires few { length def.now.columns ≤ 2 ^ 16 }
    requires key { IsTrue (is_partition_in (partitions_found members.old)
        (key_partition id.table id.key)) }
    requires before { AddsPartitions members.old
        (parts_if id.table def.now.columns (option_copied before)) number members.old }
    ensures { OnOk result (AddsPartitions members.old
        (parts_if id.table def.now.columns (option_copied after.entry)) number members.new) }
{
    if lies_in_same(def.columns.as_slice(), before, after) {
        return Ok(());
    }
    add_parts(members, id, def, after, number)
}

/// Whether a row lies in the same partitions before and after a change, if it's there both times.
fn lies_in_same(columns: &[Column], before: Option<&Row>, after: Option<&Row>) -> bool
    requires { length columns.now ≤ 2 ^ 16 }
    ensures { IsTrue result
        → ((table : ℕ) → parts_if table columns.now (option_copied before.entry)
        ≡ parts_if table columns.now (option_copied after.entry)) }
{
    let Some(before) = before else {
        return false;
    };
    let Some(after) = after else {
        return false;
    };
    have_same_parts(columns, before, after)
}

/// Whether both rows lie in the same partitions.
fn have_same_parts(columns: &[Column], before: &Row, after: &Row) -> bool
    requires { length columns.now ≤ 2 ^ 16 }
    ensures { IsTrue result → ((table : ℕ) → parts_of table columns.now before.now
        ≡ parts_of table columns.now after.now) }
{
    for i in 0..columns.len() {
        if !is_same_part(
            i as u16,
            &columns[i],
            before.values.get(i),
            after.values.get(i),
        ) {
            return false;
        }
    }
    true
}

/// Whether two values in a column, if there are any, are in the same partition, or in none.
fn is_same_part(
    position: u16,
    column: &Column,
    before: Option<&Value>,
    after: Option<&Value>,
) -> bool
    ensures { IsTrue result
        → ((table : ℕ) → part_at table position column.now (option_copied before.entry)
        ≡ part_at table position column.now (option_copied after.entry)) }
{
    let Some(before) = before else {
        return false;
    };
    let Some(after) = after else {
        return false;
    };
    !is_partition_column(position, column) || before.is_same(after)
}

/// Adds the partitions that a row lies in. That of its key is a member, so the first column is left
/// out where it holds the key.
fn add_parts_of(
    members: &mut DirtyPartitions,
    id: RowId,
    columns: &[Column],
    row: &Row,
    number: u64,
) -> Result<(), AllocError>
    requires few { length columns.now ≤ 2 ^ 16 }
    requires key { IsTrue (is_partition_in (partitions_found members.old)
        (key_partition id.table id.key)) }
    ensures { OnOk result (AddsPartitions members.old
        (parts_of id.table columns.now row.now) number members.new) }
{
    let first = if begins_with(row, id.key) { 1 } else { 0 };
    for i in first..columns.len() {
        add_part(
            members,
            id.table,
            i as u16,
            &columns[i],
            row.values.get(i),
            number,
        )?;
    }
    Ok(())
}

/// Whether the first value of a row is this key.
fn begins_with(row: &Row, key: i64) -> bool
    ensures { IsTrue result → first_int row.now.values ≡ Some key }
{
    match row.values.as_slice() {
        [Value::Int(first), ..] => *first == key,
        _ => false,
    }
}

/// Adds the partition of the value in a column, if there is a value and the column is a partition
/// column.
fn add_part(
    members: &mut DirtyPartitions,
    table: u16,
    position: u16,
    column: &Column,
    value: Option<&Value>,
    number: u64,
) -> Result<(), AllocError>
    ensures { OnOk result (AddsPartitions members.old
        (part_at table position column.now (option_copied value.entry)) number members.new) }
{
    let Some(value) = value else {
        return Ok(());
    };
    if is_partition_column(position, column) {
        ensure_last_member(members, table, position, value, number)?;
    }
    Ok(())
}

/// Makes the partition of a value in a column a member, and remembers it: the rows of a slot mostly
/// lie in one partition of a column, so the set is seldom searched.
#[tactic(auto, using(crate::proofs::SearchLemmas::adds_members))]
fn ensure_last_member(
    members: &mut DirtyPartitions,
    table: u16,
    column: u16,
    value: &Value,
    number: u64,
) -> Result<(), AllocError>
    ensures { OnOk result (AddsPartitions members.old
        (record { table = table; column = column; value = value.now } ∷ []) number members.new) }
{
    if members.is_last(table, column, value) {
        return Ok(());
    }
    ensure_member(members, table, column, value, number)?;
    members.remember(table, column, value)
}

/// Makes the partition of a value in a column a member. Takes no memory where it is one already.
#[tactic(auto, using(crate::proofs::SearchLemmas::adds_members))]
fn ensure_member(
    members: &mut DirtyPartitions,
    table: u16,
    column: u16,
    value: &Value,
    number: u64,
) -> Result<(), AllocError>
    ensures { OnOk result (AddsPartitions members.old
        (record { table = table; column = column; value = value.now } ∷ []) number members.new) }
{
    if members.has_value_in(table, column, value) {
        return Ok(());
    }
    let partition = Partition {
        table,
        column,
        value: value.copy()?,
    };
    members.add(partition, number)
}

/// Whether one of the conditions is an equality on a partition column.
pub fn reads_partition(columns: &[Column], equals: &[Equal]) -> bool
    ensures { result ≡ list_any (equates_partition columns.now) equals.now }
{
    equals.iter().any(|equal| equates_partition(columns, equal))
}

/// Whether the partition of one of the equalities among these isn't a member.
pub(crate) fn has_other_equated(
    members: &DirtyPartitions,
    table: u16,
    columns: &[Column],
    equals: &[Equal],
) -> bool
    ensures { result ≡ list_any (λ q. equates_partition columns.now q
        && not (is_partition_in (partitions_found members.now) (partition_of table q))) equals.now }
{
    equals.iter().any(|equal| {
        equates_partition(columns, equal)
            && !members.has_value_in(table, equal.column, &equal.value)
    })
}
