ghost use Rattle.std.specs.Prelude.{◌≡◌, ◌≤◌, ◌^◌, ◌++◌, length, IfOk, OnOk};
ghost use Rattle.std.specs.Option.{option_copied};
ghost use Rattle.tt_parts.specs.Partitions.{is_partition_column, part_at, parts_of};

use crate::partition::Partition;
use std::alloc::{AllocError, Global};
use tt_values::{Column, Few, Items, Row, TableDef, Value};

/// The partitions that a row of the table lies in: one for each partition column, in the order of
/// the columns. The first column, which holds the key, is a partition column.
pub fn parts_of(
    alloc: Global,
    table: u16,
    def: &TableDef,
    row: &Row,
) -> Result<Items<Partition>, AllocError>
    requires { length def.now.columns ≤ 2 ^ 16 }
    ensures { IfOk result (λ parts. parts ≡ parts_of table def.now.columns row.now) }
{
    let columns = def.columns.as_slice();
    let mut parts = Few::new(alloc);
    for i in 0..columns.len() {
        push_part(&mut parts, table, i as u16, &columns[i], row.values.get(i))?;
    }
    let parts = parts.into_items()?;
    Ok(parts)
}

/// Pushes the partition of the value in a column, if there is a value and the column is a partition
/// column.
fn push_part(
    parts: &mut Few<Partition>,
    table: u16,
    position: u16,
    column: &Column,
    value: Option<&Value>,
) -> Result<(), AllocError>
    ensures { OnOk result (parts.new ≡
        parts.old ++ part_at table position column.now (option_copied value.entry)) }
{
    let Some(value) = value else {
        return Ok(());
    };
    if is_partition_column(position, column) {
        parts.push(Partition {
            table,
            column: position,
            value: value.copy()?,
        })?;
    }
    Ok(())
}

/// Whether the column at a position is a partition column.
pub(crate) fn is_partition_column(position: u16, column: &Column) -> bool
    ensures { result ≡ is_partition_column position column.now }
{
    position == 0 || column.partition
}
