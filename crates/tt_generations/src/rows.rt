ghost use Rattle.std.specs.Prelude.{◌≡◌, ◌<◌, [], ◌∷◌, length, true, IfOk, OnOk};
ghost use Rattle.std.specs.List.{All};
ghost use Rattle.tt_versions.specs.Sides.{no_lineages, side_of, is_split, none_split};
ghost use Rattle.tt_generations.specs.Rows.{versions_at, KeepsOthers, ShowsSide};

use std::alloc::{AllocError, Global};
use std::marker::Model;
use tt_values::{Catalog, Column, Few, Row, RowId, TableDef};
use tt_versions::{Side, Table};

/// The rows of all tables with their versions on both sides.
pub(crate) struct Rows {
    alloc: Global,
    /// By position. A table past the end was never written.
    tables: Vec<Table>,
    /// Stands for each table past the end.
    empty: Table,
}

// Written out, so that each place that lets rows go calls one function.
impl Drop for Rows {
    fn drop(self) {
        let Rows {
            alloc: _,
            tables: _,
            empty: _,
        } = self;
    }
}

impl Model for Rows {
    ghost use Rattle.std.specs.Prelude.{◌≡◌};
    ghost use Rattle.tt_versions.specs.Sides.{no_lineages};
    ghost use Rattle.tt_generations.specs.Rows.{TablesByPosition};

    ghost Value = { TablesByPosition };

    ghost view = { λ r. r.tables.items };

    ghost invariant = { λ r. r.empty ≡ no_lineages };
}

impl Rows {
    ghost use Rattle.tt_generations.specs.Rows.{AddsEffect, WritesCurrent, KeepsSplitRows, SplitsRows, WritesNext, ShowsSide};

    /// No rows. Takes no memory.
    pub(crate) fn new(alloc: Global) -> Rows
        ensures { result ≡ [] }
    {
        Rows {
            alloc,
            tables: Vec::new(alloc),
            empty: Table::new(alloc),
        }
    }

    /// The table at a position.
    pub(crate) fn table(&self, table: u16) -> &Table
        ensures { result.now ≡ versions_at self.now table }
    {
        let position = usize::from(table);
        if position < self.tables.len() {
            &self.tables[position]
        } else {
            &self.empty
        }
    }

    /// Another owner of each table.
    pub(crate) fn share(&self) -> Result<Rows, AllocError>
        ensures { IfOk result (λ r. r ≡ self.now) }
    {
        let mut tables = Vec::with_capacity(self.alloc, self.tables.len())?;
        for table in &self.tables {
            tables.push(table.share()?)?;
        }
        Ok(Rows {
            alloc: self.alloc,
            tables,
            empty: Table::new(self.alloc),
        })
    }

    /// Gives these keys of a table those rows, or none, from the time on: on both sides, or only
    /// on the current one where a row is split. The catalog says by which columns the rows of a
    /// new table can be found. Without memory nothing is promised of the rows.
    pub(crate) fn write(
        &mut self,
        catalog: &Catalog,
        table: u16,
        effect: Few<(i64, Option<Row>)>,
        time: u64,
    ) -> Result<(), AllocError>
        ensures current { OnOk result (AddsEffect self.old self.new time table effect) }
        ensures written { OnOk result (WritesCurrent self.old self.new time table effect) }
        ensures split { OnOk result (KeepsSplitRows self.old self.new) }
    {
        let position = usize::from(table);
        add_tables(self.alloc, catalog, &mut self.tables, position)?;
        self.tables[position].write_all(effect, time)?;
        Ok(())
    }

    /// Splits each of these rows. A row that wasn't split is rolled back on its next side to before
    /// the time. Without memory nothing is promised of the rows.
    pub(crate) fn split_rows(
        &mut self,
        catalog: &Catalog,
        rows: &[RowId],
        time: u64,
    ) -> Result<(), AllocError>
        ensures { OnOk result (SplitsRows self.old self.new rows.now time) }
    {
        for row in rows {
            self.split_row(catalog, *row, time)?;
        }
        Ok(())
    }

    fn split_row(&mut self, catalog: &Catalog, row: RowId, time: u64) -> Result<(), AllocError>
        ensures { OnOk result (SplitsRows self.old self.new (row ∷ []) time) }
    {
        if self.table(row.table).is_split(row.key) {
            return Ok(());
        }
        let position = usize::from(row.table);
        add_tables(self.alloc, catalog, &mut self.tables, position)?;
        self.tables[position].split_row_back(row.key, time)?;
        Ok(())
    }

    /// Gives these keys of a table, whose rows are split, those rows, or none, from the time on,
    /// only on the next side. Without memory nothing is promised of the rows.
    pub(crate) fn write_next(
        &mut self,
        catalog: &Catalog,
        table: u16,
        effect: Few<(i64, Option<Row>)>,
        time: u64,
    ) -> Result<(), AllocError>
        requires { All (λ e. is_split (versions_at self.old table) e.0 ≡ true) effect }
        ensures { OnOk result (WritesNext self.old self.new time table effect) }
    {
        let position = usize::from(table);
        add_tables(self.alloc, catalog, &mut self.tables, position)?;
        self.tables[position].write_all_next(effect, time)?;
        Ok(())
    }

    /// Makes both sides of each table show what this one shows. Without memory nothing is promised
    /// of the rows.
    pub(crate) fn unsplit(&mut self, side: Side) -> Result<(), AllocError>
        ensures { OnOk result (ShowsSide side self.old self.new) }
    {
        unsplit_tables(&mut self.tables, side)?;
        Ok(())
    }
}

/// Makes both sides of each table show what this one shows.
fn unsplit_tables(tables: &mut Vec<Table>, side: Side) -> Result<(), AllocError>
    ensures { OnOk result (ShowsSide side tables.old.items tables.new.items) }
{
    for table in tables.iter_mut() {
        unsplit_table(table, side)?;
    }
    Ok(())
}

/// Makes both sides of a table show what this one shows.
fn unsplit_table(table: &mut Table, side: Side) -> Result<(), AllocError>
    ensures rows { OnOk result
        ((either : Side) → side_of table.new either ≡ side_of table.old side) }
    ensures whole { OnOk result (is_split table.new ≡ none_split) }
{
    match side {
        Side::Current => table.abort(),
        Side::Next => table.switch(),
    }
}

/// Adds empty tables, until there is one at the position.
#[tactic(auto, using(crate::proofs::RowsLemmas::adds_tables))]
fn add_tables(
    alloc: Global,
    catalog: &Catalog,
    tables: &mut Vec<Table>,
    position: usize,
) -> Result<(), AllocError>
    ensures room { OnOk result (position < length tables.new.items) }
    ensures same { versions_at tables.new.items ≡ versions_at tables.old.items }
{
    while tables.len() <= position {
        let table = empty_table(alloc, catalog, tables.len())?;
        tables.push(table)?;
    }
    Ok(())
}

/// A table without rows, whose rows can be found by the partition columns of the one at that
/// position of the catalog.
fn empty_table(alloc: Global, catalog: &Catalog, position: usize) -> Result<Table, AllocError>
    ensures { IfOk result (λ table. table ≡ no_lineages) }
{
    let columns = partition_columns(alloc, catalog, position)?;
    let table = Table::with_columns(alloc, &columns)?;
    Ok(table)
}

/// The positions of a table's partition columns but the first, which is the key.
fn partition_columns(
    alloc: Global,
    catalog: &Catalog,
    position: usize,
) -> Result<Vec<u16>, AllocError> {
    let mut positions = Vec::new(alloc);
    if let Some(table) = table_at(catalog, position) {
        add_partition_columns(&mut positions, table.columns.as_slice())?;
    }
    Ok(positions)
}

/// The table at a position of the catalog, if there is one.
fn table_at(catalog: &Catalog, position: usize) -> Option<&TableDef> {
    let position = u16::try_from(position).ok()?;
    catalog.table(position)
}

fn add_partition_columns(positions: &mut Vec<u16>, columns: &[Column]) -> Result<(), AllocError> {
    let mut place: u16 = 0;
    for column in columns {
        if column.partition && place > 0 {
            positions.push(place)?;
        }
        place = place.saturating_add(1);
    }
    Ok(())
}
