ghost use Rattle.std.specs.Prelude.{◌≡◌, ◌<◌, ◌≤◌, ◌^◌, [], ◌∷◌, length, is_some, IfOk, OnOk};
ghost use Rattle.std.specs.Option.{option_copied};
ghost use Rattle.tt_values.specs.Check.{HasKey};
ghost use Rattle.tt_values.specs.Effect.{table_of};
ghost use Rattle.tt_parts.specs.Partitions.{key_partition, equated_partitions, partitions_read};
ghost use Rattle.tt_parts.specs.Dirty.{columns_in, partitions_with_row, HaveKeyPartitions};
ghost use Rattle.tt_parts.specs.Sets.{rows_found, partitions_found, AddsRow, AddsPartitions};

use crate::dirty_partitions::DirtyPartitions;
use crate::dirty_rows::DirtyRows;
use crate::members::{
    add_changed_parts, add_key, add_parts, has_other_equated, has_other_partition, reads_partition,
};
use crate::partition::Reads;
use std::alloc::{AllocError, Global};
use std::marker::Model;
use std::sync::Arc;
use tt_values::{Catalog, Column, Equal, Row, RowId, Shared, TableDef, Value, Write};

/// A set of dirty rows and partitions, of the tables of one catalog. A member has the number with
/// which it got dirty first, and so does a table with a dirty row. Contracts speak only of the
/// members and their numbers. Sets that come from one another share pages.
#[derive(Debug)]
pub struct Dirty {
    catalog: Shared<Catalog>,
    rows: DirtyRows,
    partitions: DirtyPartitions,
}

// Written out, so that each place that lets one go calls one function.
impl Drop for Dirty {
    fn drop(self) {
        let Dirty {
            catalog: _,
            rows: _,
            partitions: _,
        } = self;
    }
}

impl Model for Dirty {
    ghost use Rattle.tt_parts.specs.Dirty.{DirtyTables, HaveKeyPartitions};
    ghost use Rattle.tt_parts.specs.Sets.{rows_found, partitions_found, dirty_found, since_found};

    ghost Value = { DirtyTables };

    ghost view = { λ d. record {
      catalog = d.catalog;
      dirty = dirty_found d.rows d.partitions;
      since = since_found d.rows d.partitions;
    } };

    ghost invariant = { λ d.
        HaveKeyPartitions (rows_found d.rows) (partitions_found d.partitions) };
}

impl Dirty {
    ghost use Rattle.tt_parts.specs.Dirty.{SameMembers, NumbersAgree, IsSinceWithRow, nothing_dirty, nothing_since, row_since, partition_since, table_since, has_row, has_row_of, has_partition, is_clear, is_clear_of, with_row_in};

    /// A set without members, for the tables of the catalog. Allocates nothing; this allocator is
    /// for `with_row` and `add_row`.
    pub fn new(alloc: Global, catalog: Arc<Catalog>) -> Dirty
        ensures catalog { result.catalog ≡ catalog.value }
        ensures nothing_dirty { SameMembers result.dirty nothing_dirty }
        ensures nothing_since { result.since ≡ nothing_since }
    {
        Dirty {
            catalog: Shared::from_arc(catalog),
            rows: DirtyRows::new(alloc),
            partitions: DirtyPartitions::new(alloc),
        }
    }

    /// Another owner of the same members. Copies no page.
    pub fn share(&self) -> Result<Dirty, AllocError>
        ensures { IfOk result (λ d. d ≡ self.now) }
    {
        let catalog = self.catalog.clone()?;
        let rows = self.rows.share()?;
        let partitions = self.partitions.share()?;
        Ok(Dirty {
            catalog,
            rows,
            partitions,
        })
    }

    /// Makes a row dirty in this set with a number, as [`with_row`](Dirty::with_row) does in a new
    /// one. Sets that share pages with this one stay as they are. Without memory nothing is promised
    /// of the members.
    pub fn add_row(
        &mut self,
        table: u16,
        key: i64,
        number: u64,
        before: Option<&Row>,
        after: Option<&Row>,
    ) -> Result<(), AllocError>
        requires { table < length self.old.catalog }
        ensures catalog { self.new.catalog ≡ self.old.catalog }
        ensures dirty { OnOk result (SameMembers self.new.dirty (with_row_in self.old table key
            (option_copied before.entry) (option_copied after.entry))) }
        ensures since { OnOk result (IsSinceWithRow self.old.since table
            (columns_in self.old.catalog table) key
            (option_copied before.entry) (option_copied after.entry) number self.new.since) }
        ensures agree { NumbersAgree self.new.dirty self.new.since }
    {
        let def = table_in(self.catalog.get(), table);
        let row = DirtyRow {
            id: RowId { table, key },
            number,
            before,
            after,
        };
        match add_row_to(&mut self.rows, &mut self.partitions, def, &row) {
            Ok(()) => Ok(()),
            Err(error) => {
                // A row must not stay without the partition of its key.
                self.rows.clear();
                Err(error)
            }
        }
    }

    /// The columns of the table at a position, and none where there is no table.
    pub fn columns(&self, table: u16) -> &[Column]
        ensures { result.now ≡ columns_in self.now.catalog table }
    {
        columns_in(self.catalog.get(), table)
    }

    /// Whether the row with the key is dirty. Allocates nothing.
    pub fn has_row(&self, table: u16, key: i64) -> bool
        ensures { result ≡ has_row self.now.dirty table key }
    {
        self.rows.has(RowId { table, key })
    }

    /// The number with which the row with the key got dirty first, none if it isn't dirty.
    /// Allocates nothing.
    pub fn row_since(&self, table: u16, key: i64) -> Option<u64>
        ensures since { result ≡ row_since self.now.since table key }
        ensures member { is_some result ≡ has_row self.now.dirty table key }
    {
        self.rows.since(RowId { table, key })
    }

    /// The number with which the partition of a value in a column of a table got dirty first, none
    /// if it isn't dirty. Allocates nothing.
    pub fn partition_since(&self, table: u16, column: u16, value: &Value) -> Option<u64>
        ensures since { result ≡ partition_since self.now.since
            (record { table = table; column = column; value = value.now }) }
        ensures member { is_some result ≡ has_partition self.now.dirty
            (record { table = table; column = column; value = value.now }) }
    {
        self.partitions.since(table, column, value)
    }

    /// The number with which the first row of a table got dirty, none if no row of it is dirty.
    /// Allocates nothing.
    pub fn table_since(&self, table: u16) -> Option<u64>
        ensures since { result ≡ table_since self.now.since table }
        ensures member { is_some result ≡ has_row_of self.now.dirty table }
    {
        self.rows.table_since(table)
    }

    /// Whether a statement that reads this is clear: one of its partitions isn't dirty, or, if it
    /// reads a whole table, no row of the table is. Allocates nothing.
    pub fn clear_of(&self, reads: &Reads) -> bool
        ensures { result ≡ is_clear_of self.now.dirty reads.now }
    {
        match reads {
            Reads::All { table } => !self.rows.has_table(*table),
            Reads::Equated(partitions) => {
                has_other_partition(&self.partitions, partitions.as_slice())
            }
        }
    }

    /// Whether a write is clear: one of the partitions that it reads isn't dirty, or, if it reads a
    /// whole table, no row of the table is. Allocates nothing.
    pub fn is_clear(&self, write: &Write) -> bool
        requires { HasKey write.now }
        ensures { result ≡ is_clear self.now.dirty (table_of write.now)
            (partitions_read (columns_in self.now.catalog (table_of write.now)) write.now) }
    {
        match write {
            Write::Insert { table, row } => {
                let key = Value::Int(row.key());
                !self.partitions.has_value_in(*table, 0, &key)
            }
            Write::Update { table, equals, .. } | Write::Delete { table, equals } => {
                self.is_clear_where(*table, equals.as_slice())
            }
        }
    }

    /// Whether a write with these conditions is clear.
    fn is_clear_where(&self, table: u16, equals: &[Equal]) -> bool
        ensures { result ≡ is_clear self.now.dirty table
            (equated_partitions table (columns_in self.now.catalog table) equals.now) }
    {
        let columns = columns_in(self.catalog.get(), table);
        if reads_partition(columns, equals) {
            has_other_equated(&self.partitions, table, columns, equals)
        } else {
            !self.rows.has_table(table)
        }
    }
}

/// A row that gets dirty with a number, and its contents before and after, where it has any.
#[derive(Clone, Copy)]
struct DirtyRow<'a> {
    id: RowId,
    number: u64,
    before: Option<&'a Row>,
    after: Option<&'a Row>,
}

/// Adds a row of this table, the partition of its key, and the partitions that it lies in by its
/// contents.
fn add_row_to(
    rows: &mut DirtyRows,
    partitions: &mut DirtyPartitions,
    def: &TableDef,
    row: &DirtyRow<'_>,
) -> Result<(), AllocError>
    requires few { length def.now.columns ≤ 2 ^ 16 }
    requires keys { HaveKeyPartitions (rows_found rows.old) (partitions_found partitions.old) }
    ensures rows { OnOk result
        (AddsRow rows.old row.now.id.table row.now.id.key row.now.number rows.new) }
    ensures partitions { OnOk result (AddsPartitions partitions.old
        (partitions_with_row row.now.id.table def.now.columns row.now.id.key
        (option_copied row.now.before) (option_copied row.now.after))
        row.now.number partitions.new) }
{
    add_row_and_key(rows, partitions, row.id, row.number)?;
    add_parts(partitions, row.id, def, row.before, row.number)?;
    add_changed_parts(partitions, row.id, def, row.before, row.after, row.number)?;
    Ok(())
}

/// Adds a row and the partition of its key, which is there already where the row is.
#[tactic(auto, using(crate::proofs::SearchLemmas::adds_members))]
fn add_row_and_key(
    rows: &mut DirtyRows,
    partitions: &mut DirtyPartitions,
    row: RowId,
    number: u64,
) -> Result<(), AllocError>
    requires { HaveKeyPartitions (rows_found rows.old) (partitions_found partitions.old) }
    ensures rows { OnOk result (AddsRow rows.old row.table row.key number rows.new) }
    ensures partitions { OnOk result (AddsPartitions partitions.old
        (key_partition row.table row.key ∷ []) number partitions.new) }
{
    if rows.has(row) {
        return Ok(());
    }
    add_key(partitions, row.table, row.key, number)?;
    rows.put(row, number)?;
    Ok(())
}

/// The table at a position.
fn table_in(catalog: &Catalog, table: u16) -> &TableDef
    requires { table < length catalog.now }
    ensures columns { columns_in catalog.now table ≡ result.now.columns }
    ensures few { length result.now.columns ≤ 2 ^ 16 }
{
    match catalog.table(table) {
        Some(def) => def,
        None => unreachable!(),
    }
}

/// The columns of the table at a position, and none where there is no table.
fn columns_in(catalog: &Catalog, table: u16) -> &[Column]
    ensures { result.now ≡ columns_in catalog.now table }
{
    match catalog.table(table) {
        Some(def) => def.columns.as_slice(),
        None => &[],
    }
}
