ghost use Rattle.std.specs.Prelude.{◌≡◌, [], ◌∷◌, ◌++◌, is_some, IfOk, OnOk, IsTrue};
ghost use Rattle.std.specs.Option.{option_copied};
ghost use Rattle.std.specs.Ordering.{int_cmp};
ghost use Rattle.std.specs.FinMap.Entries.{find};
ghost use Rattle.tt_values.specs.Digest.{digest_of};
ghost use Rattle.tt_parts.specs.Partitions.{is_same_partition};
ghost use Rattle.tt_parts.specs.Sets.{under, value_since, since_in_column, partition_since_in, partitions_found, with_value, AddsPartitions};

use crate::by_position::{change_at, value_at};
use crate::partition::Partition;
use crate::same_digest::{DirtyValue, SameDigest};
use std::alloc::{AllocError, Global};
use std::marker::Model;
use tt_pages::{Modify, PagedMap};
use tt_values::{Same, Value, digest};

/// Values by their digests.
type Values = PagedMap<SameDigest>;

/// The values of partitions, by column.
type Columns = PagedMap<Values>;

/// The set of dirty partitions, with their numbers. Contracts see the values of each table.
#[derive(Debug, Drop)]
pub(crate) struct DirtyPartitions {
    alloc: Global,
    /// The values of the partitions, by table.
    tables: PagedMap<Columns>,
    /// The member that was remembered last: the next row often lies in it too.
    last: Option<Partition>,
}

impl Model for DirtyPartitions {
    ghost use Rattle.std.specs.Prelude.{IfSome, IsTrue};
    ghost use Rattle.tt_parts.specs.Partitions.{is_partition_in};
    ghost use Rattle.tt_parts.specs.Sets.{ValuesByTable, partitions_found};

    ghost Value = { ValuesByTable };

    ghost view = { λ p. p.tables };

    ghost invariant = { λ p.
        IfSome p.last (λ last. IsTrue (is_partition_in (partitions_found p.tables) last)) };
}

impl DirtyPartitions {
    ghost use Rattle.tt_parts.specs.Partitions.{is_partition_in};

    pub(crate) fn new(alloc: Global) -> DirtyPartitions
        ensures { result ≡ [] }
    {
        DirtyPartitions {
            alloc,
            tables: PagedMap::new(alloc),
            last: None,
        }
    }

    /// Another owner of the same partitions.
    pub(crate) fn share(&self) -> Result<DirtyPartitions, AllocError>
        ensures { IfOk result (λ partitions. partitions ≡ self.now) }
    {
        let tables = self.tables.share()?;
        Ok(DirtyPartitions {
            alloc: self.alloc,
            tables,
            last: None,
        })
    }

    pub(crate) fn has(&self, partition: &Partition) -> bool
        ensures { result ≡ is_partition_in (partitions_found self.now) partition.now }
    {
        self.has_value_in(partition.table, partition.column, &partition.value)
    }

    /// Whether it has the partition of a value in a column of a table.
    #[tactic(auto, using(crate::proofs::SearchLemmas::partitions_found_are))]
    pub(crate) fn has_value_in(&self, table: u16, column: u16, value: &Value) -> bool
        ensures { result ≡ is_partition_in (partitions_found self.now)
            (record { table = table; column = column; value = value.now }) }
    {
        partition_since(&self.tables, table, column, value).is_some()
    }

    /// The number of the partition of a value in a column of a table.
    pub(crate) fn since(&self, table: u16, column: u16, value: &Value) -> Option<u64>
        ensures { result ≡ partition_since_in self.now
            (record { table = table; column = column; value = value.now }) }
    {
        partition_since(&self.tables, table, column, value)
    }

    /// Adds a partition with this number.
    pub(crate) fn add(&mut self, partition: Partition, number: u64) -> Result<(), AllocError>
        ensures { OnOk result (AddsPartitions self.old (partition ∷ []) number self.new) }
    {
        // Without memory it may not stay a member.
        let last = self.last.take();
        add_partition(self.alloc, &mut self.tables, partition, number)?;
        self.last = last;
        Ok(())
    }

    /// Remembers a member, which [`is_last`](DirtyPartitions::is_last) knows until the next one is.
    pub(crate) fn remember(
        &mut self,
        table: u16,
        column: u16,
        value: &Value,
    ) -> Result<(), AllocError>
        requires { IsTrue (is_partition_in (partitions_found self.old)
            (record { table = table; column = column; value = value.now })) }
        ensures { self.new ≡ self.old }
    {
        let value = value.copy()?;
        self.last = Some(Partition {
            table,
            column,
            value,
        });
        Ok(())
    }

    /// Whether this is the partition that was remembered last, and so a member. Searches nothing.
    pub(crate) fn is_last(&self, table: u16, column: u16, value: &Value) -> bool
        ensures { IsTrue result → IsTrue (is_partition_in (partitions_found self.now)
            (record { table = table; column = column; value = value.now })) }
    {
        match &self.last {
            Some(last) => is_of(last, table, column, value),
            None => false,
        }
    }
}

/// Whether a partition is that of a value in a column of a table.
fn is_of(partition: &Partition, table: u16, column: u16, value: &Value) -> bool
    ensures { result ≡ is_same_partition partition.now
        (record { table = table; column = column; value = value.now }) }
{
    partition.table == table && partition.column == column && partition.value.is_same(value)
}

fn partition_since(
    tables: &PagedMap<Columns>,
    table: u16,
    column: u16,
    value: &Value,
) -> Option<u64>
    ensures { result ≡ partition_since_in tables.now
        (record { table = table; column = column; value = value.now }) }
{
    match value_at(tables, table) {
        Some(columns) => since_in_column(columns, column, value),
        None => None,
    }
}

fn since_in_column(columns: &Columns, column: u16, value: &Value) -> Option<u64>
    ensures { result ≡ since_in_column columns.now column value.now }
{
    match value_at(columns, column) {
        Some(values) => value_since(values, value),
        None => None,
    }
}

fn value_since(values: &Values, value: &Value) -> Option<u64>
    ensures { result ≡ value_since values.now value.now }
{
    match same_digest(values, value) {
        Some(others) => others.since(value),
        None => None,
    }
}

/// Adds a partition. Where it is there already, it keeps the number that it has.
fn add_partition(
    alloc: Global,
    tables: &mut PagedMap<Columns>,
    partition: Partition,
    number: u64,
) -> Result<(), AllocError>
    ensures { OnOk result (AddsPartitions tables.old (partition ∷ []) number tables.new) }
{
    let Partition {
        table,
        column,
        value,
    } = partition;
    let value = DirtyValue {
        value,
        since: number,
    };
    let change = AddInColumn {
        alloc,
        column,
        value,
    };
    change_at(tables, table, PagedMap::new(alloc), change)?;
    Ok(())
}

/// A column gets the partition of one value more.
#[derive(Drop)]
struct AddInColumn {
    alloc: Global,
    column: u16,
    value: DirtyValue,
}

impl Modify<Columns> for AddInColumn {
    ghost use Rattle.tt_parts.specs.Sets.{with_value_in};

    ghost after = { λ change. with_value_in change.column change.value };

    fn apply(self, columns: &mut Columns) -> Result<(), AllocError> {
        let AddInColumn {
            alloc,
            column,
            value,
        } = self;
        let change = AddValue { alloc, value };
        change_at(columns, column, PagedMap::new(alloc), change)?;
        Ok(())
    }
}

/// Values by their digests get one more.
#[derive(Drop)]
struct AddValue {
    alloc: Global,
    value: DirtyValue,
}

impl Modify<Values> for AddValue {
    ghost use Rattle.tt_parts.specs.Sets.{with_value};

    ghost after = { λ change. with_value change.value };

    fn apply(self, values: &mut Values) -> Result<(), AllocError> {
        let AddValue { alloc, value } = self;
        add_value(alloc, values, value)
    }
}

fn add_value(alloc: Global, values: &mut Values, value: DirtyValue) -> Result<(), AllocError>
    ensures { OnOk result (values.new ≡ with_value value values.old) }
{
    let digest = digest(&value.value);
    let same_digest = same_digest_with(alloc, values, value)?;
    values.put(digest, same_digest)?;
    Ok(())
}

/// The values with the digest of this one, and this one.
fn same_digest_with(
    alloc: Global,
    values: &Values,
    value: DirtyValue,
) -> Result<SameDigest, AllocError>
    ensures { IfOk result
        (λ vs. vs ≡ under (digest_of value.value) values.now ++ value ∷ []) }
{
    match same_digest(values, &value.value) {
        Some(others) => others.with(alloc, value),
        None => SameDigest::of(alloc, value),
    }
}

/// The values with the digest of this one.
fn same_digest<'a>(values: &'a Values, value: &Value) -> Option<&'a SameDigest>
    ensures { option_copied result ≡ find int_cmp (digest_of value.now) values.now }
{
    values.get(digest(value))
}
