ghost use Rattle.std.specs.Prelude.{◌≡◌, [], IfOk, OnOk};
ghost use Rattle.tt_parts.specs.Sets.{rows_found, row_since_in, table_since_in, finds_row, finds_table, PutsRow};

use crate::by_position::{change_at, value_at};
use crate::dirty_keys::{DirtyKeys, PutKey};
use std::alloc::{AllocError, Global};
use std::marker::Model;
use tt_pages::PagedMap;
use tt_values::RowId;

/// The set of dirty rows, with their numbers. Contracts see the keys of each table.
#[derive(Debug, Drop)]
pub(crate) struct DirtyRows {
    alloc: Global,
    /// The keys of the rows, by table.
    tables: PagedMap<DirtyKeys>,
}

impl Model for DirtyRows {
    ghost use Rattle.tt_parts.specs.Sets.{KeysByTable};

    ghost Value = { KeysByTable };

    ghost view = { λ r. r.tables };
}

impl DirtyRows {
    ghost use Rattle.tt_parts.specs.Dirty.{is_row_in, is_table_in};

    pub(crate) fn new(alloc: Global) -> DirtyRows
        ensures { result ≡ [] }
    {
        DirtyRows {
            alloc,
            tables: PagedMap::new(alloc),
        }
    }

    /// Another owner of the same rows.
    pub(crate) fn share(&self) -> Result<DirtyRows, AllocError>
        ensures { IfOk result (λ rows. rows ≡ self.now) }
    {
        let tables = self.tables.share()?;
        Ok(DirtyRows {
            alloc: self.alloc,
            tables,
        })
    }

    /// Lets all rows go.
    pub(crate) fn clear(&mut self)
        ensures { self.new ≡ [] }
    {
        self.tables = PagedMap::new(self.alloc);
    }

    #[tactic(auto, using(crate::proofs::SearchLemmas::rows_found_are))]
    pub(crate) fn has(&self, row: RowId) -> bool
        ensures { result ≡ is_row_in (rows_found self.now) row.table row.key }
    {
        has_row(&self.tables, row.table, row.key)
    }

    /// Whether it has a row of the table.
    #[tactic(auto, using(crate::proofs::SearchLemmas::tables_found_are))]
    pub(crate) fn has_table(&self, table: u16) -> bool
        ensures { result ≡ is_table_in (rows_found self.now) table }
    {
        has_table(&self.tables, table)
    }

    /// The number of a row.
    pub(crate) fn since(&self, row: RowId) -> Option<u64>
        ensures { result ≡ row_since_in self.now row.table row.key }
    {
        row_since(&self.tables, row.table, row.key)
    }

    /// The number of the first row of a table.
    pub(crate) fn table_since(&self, table: u16) -> Option<u64>
        ensures { result ≡ table_since_in self.now table }
    {
        table_since(&self.tables, table)
    }

    /// Gives a row this number, whether it is there or not.
    pub(crate) fn put(&mut self, row: RowId, number: u64) -> Result<(), AllocError>
        ensures { OnOk result (PutsRow self.old row.table row.key number self.new) }
    {
        put_row(self.alloc, &mut self.tables, row.table, row.key, number)?;
        Ok(())
    }
}

fn has_row(tables: &PagedMap<DirtyKeys>, table: u16, key: i64) -> bool
    ensures { result ≡ finds_row tables.now table key }
{
    match value_at(tables, table) {
        Some(keys) => keys.has(key),
        None => false,
    }
}

fn has_table(tables: &PagedMap<DirtyKeys>, table: u16) -> bool
    ensures { result ≡ finds_table tables.now table }
{
    match value_at(tables, table) {
        Some(keys) => !keys.is_empty(),
        None => false,
    }
}

fn row_since(tables: &PagedMap<DirtyKeys>, table: u16, key: i64) -> Option<u64>
    ensures { result ≡ row_since_in tables.now table key }
{
    match value_at(tables, table) {
        Some(keys) => keys.since(key),
        None => None,
    }
}

fn table_since(tables: &PagedMap<DirtyKeys>, table: u16) -> Option<u64>
    ensures { result ≡ table_since_in tables.now table }
{
    match value_at(tables, table) {
        Some(keys) => keys.first_since(),
        None => None,
    }
}

fn put_row(
    alloc: Global,
    tables: &mut PagedMap<DirtyKeys>,
    table: u16,
    key: i64,
    number: u64,
) -> Result<(), AllocError>
    ensures { OnOk result (PutsRow tables.old table key number tables.new) }
{
    let change = PutKey { key, number };
    change_at(tables, table, DirtyKeys::new(alloc), change)?;
    Ok(())
}
