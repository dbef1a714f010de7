ghost use Rattle.std.specs.Prelude.{◌≡◌, IfOk};
ghost use Rattle.tt_values.specs.Check.{HasKey};
ghost use Rattle.tt_parts.specs.Partitions.{equates_partition, is_partition_position, equated_partitions, partitions_read, reads_or_all, reads_of};
ghost use Rattle.tt_parts.specs.Soundness.{CoversMatches};

use crate::partition::{Partition, Reads};
use crate::parts::is_partition_column;
use std::alloc::{AllocError, Global};
use tt_values::{Column, Equal, Few, TableDef, Value, Write};

/// What a write on the table reads: the partitions of its equalities on partition columns, for an
/// insert the partition of its key, or else the whole table. On a table that has a first column,
/// each row that the write matches lies in what it reads; an insert matches a row with its key.
#[tactic(auto, using(crate::proofs::SoundnessLemmas::is_sound))]
pub fn reads_of(alloc: Global, def: &TableDef, write: &Write) -> Result<Reads, AllocError>
    requires { HasKey write.now }
    ensures value { IfOk result (λ reads. reads ≡ reads_of def.now.columns write.now) }
    ensures sound { IfOk result (λ reads. CoversMatches def.now.columns write.now reads) }
{
    let partitions = partitions_read(alloc, def, write)?;
    let reads = reads_or_all(write.table(), partitions)?;
    Ok(reads)
}

/// The partitions of the equalities of a write, or of the key that it inserts.
fn partitions_read(
    alloc: Global,
    def: &TableDef,
    write: &Write,
) -> Result<Few<Partition>, AllocError>
    requires { HasKey write.now }
    ensures { IfOk result (λ ps. ps ≡ partitions_read def.now.columns write.now) }
{
    match write {
        Write::Insert { table, row } => {
            let key = Partition {
                table: *table,
                column: 0,
                value: Value::Int(row.key()),
            };
            let mut partitions = Few::new(alloc);
            partitions.push(key)?;
            Ok(partitions)
        }
        Write::Update { table, equals, .. } | Write::Delete { table, equals } => {
            equated_partitions(alloc, *table, def, equals.as_slice())
        }
    }
}

fn reads_or_all(table: u16, partitions: Few<Partition>) -> Result<Reads, AllocError>
    ensures { IfOk result (λ reads. reads ≡ reads_or_all table partitions) }
{
    if partitions.as_slice().is_empty() {
        Ok(Reads::All { table })
    } else {
        let partitions = partitions.into_items()?;
        Ok(Reads::Equated(partitions))
    }
}

/// The partitions of equalities on partition columns, in their order.
fn equated_partitions(
    alloc: Global,
    table: u16,
    def: &TableDef,
    equals: &[Equal],
) -> Result<Few<Partition>, AllocError>
    ensures { IfOk result
        (λ ps. ps ≡ equated_partitions table def.now.columns equals.now) }
{
    let columns = def.columns.as_slice();
    let mut partitions = Few::new(alloc);
    for equal in equals {
        if equates_partition(columns, equal) {
            partitions.push(Partition {
                table,
                column: equal.column,
                value: equal.value.copy()?,
            })?;
        }
    }
    Ok(partitions)
}

/// Whether a condition fixes the value of a partition column of the table with these columns: it is
/// an equality, and it is on such a column.
pub fn equates_partition(columns: &[Column], equal: &Equal) -> bool
    ensures { result ≡ equates_partition columns.now equal.now }
{
    equal.equates() && is_partition_position(columns, equal.column)
}

/// Whether there is a column at the position, and it is a partition column.
fn is_partition_position(columns: &[Column], position: u16) -> bool
    ensures { result ≡ is_partition_position columns.now position }
{
    match columns.get(usize::from(position)) {
        Some(column) => is_partition_column(position, column),
        None => false,
    }
}
