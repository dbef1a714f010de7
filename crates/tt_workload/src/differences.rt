//! The lines of the rows that differ between the generations.
ghost use Rattle.std.specs.Prelude.{◌≡◌, ◌++◌, map, OnOk, IfOk};
ghost use Rattle.std.specs.List.{flat_map};
ghost use Rattle.tt_generations.specs.RowChanges.{change_told};
ghost use Rattle.tt_workload.specs.DiffLines.{differences_by, row_or_none, sides_text, diff_text, diff_line, diff_lines, diff_lines_if};

use crate::causes::push_row_name;
use crate::json_report::push_json_diff;
use crate::options::Options;
use crate::told_repair::ToldRepair;
use std::alloc::{AllocError, Global};
use tt_db::{Db, ReadError, RowChange};
use tt_grammar::push_row;
use tt_values::{Catalog, Items, Row};

/// Pushes a line for each row that differs between the generations by a repair, at the last slot
/// that it has done, if these lines are asked for. Where there is no such repair, or its generation
/// isn't kept, there are none.
pub fn push_diff_if(
    alloc: Global,
    out: &mut Vec<u8>,
    db: &Db,
    repair: ToldRepair,
    options: &Options,
) -> Result<(), AllocError>
    ensures { OnOk result (out.new.items
        ≡ out.old.items ++ diff_lines_if options.now db.now repair) }
{
    if options.diff {
        push_diff(alloc, out, db, repair, options.json)?;
    }
    Ok(())
}

/// Pushes a line for each row that differs, by table, then key.
fn push_diff(
    alloc: Global,
    out: &mut Vec<u8>,
    db: &Db,
    repair: ToldRepair,
    json: bool,
) -> Result<(), AllocError>
    ensures { OnOk result (out.new.items ≡ out.old.items ++ diff_lines json db.now repair) }
{
    let catalog = db.catalog();
    for table in 0..catalog.len() as u16 {
        let changes = differences_by(alloc, db, repair, table)?;
        push_table_diff(out, catalog, table, changes.as_slice(), json)?;
    }
    Ok(())
}

/// The rows of a table that differ by a repair, by rising key: none where there is no such repair,
/// or its generation isn't kept.
fn differences_by(
    alloc: Global,
    db: &Db,
    repair: ToldRepair,
    table: u16,
) -> Result<Items<RowChange>, AllocError>
    ensures { IfOk result (λ changes.
        map change_told changes ≡ differences_by db.now repair table) }
{
    let told = match repair {
        ToldRepair::UnderWay => db.diff(table),
        ToldRepair::ThatClosed(generation) => db.diff_in(generation, table),
    };
    match told {
        Ok(changes) => Ok(changes),
        Err(ReadError::Memory) => Err(AllocError),
        Err(_) => Items::new(alloc, Vec::new(alloc)),
    }
}

/// Pushes a line for each of some rows of a table that differ.
fn push_table_diff(
    out: &mut Vec<u8>,
    catalog: &Catalog,
    table: u16,
    changes: &[RowChange],
    json: bool,
) -> Result<(), AllocError>
    ensures { OnOk result (out.new.items ≡ out.old.items
        ++ flat_map (λ c. diff_line json catalog.now table (change_told c)) changes.now) }
{
    for change in changes {
        push_row_diff(out, catalog, table, change, json)?;
    }
    Ok(())
}

/// Pushes the line of a row that differs.
fn push_row_diff(
    out: &mut Vec<u8>,
    catalog: &Catalog,
    table: u16,
    change: &RowChange,
    json: bool,
) -> Result<(), AllocError>
    ensures { OnOk result (out.new.items
        ≡ out.old.items ++ diff_line json catalog.now table (change_told change.now)) }
{
    if json {
        push_json_diff(out, catalog, table, change)
    } else {
        push_diff_text(out, catalog, table, change)
    }
}

/// Pushes the line of a row that differs as text.
fn push_diff_text(
    out: &mut Vec<u8>,
    catalog: &Catalog,
    table: u16,
    change: &RowChange,
) -> Result<(), AllocError>
    ensures { OnOk result (out.new.items
        ≡ out.old.items ++ diff_text catalog.now table (change_told change.now)) }
{
    out.extend_from_slice(b"diff ")?;
    push_row_name(out, catalog, table, change.key)?;
    push_sides(out, &change.before, &change.after)
}

/// Pushes the rest of a line: what a row is in both generations.
fn push_sides(
    out: &mut Vec<u8>,
    before: &Option<Row>,
    after: &Option<Row>,
) -> Result<(), AllocError>
    ensures { OnOk result (out.new.items ≡ out.old.items ++ sides_text before.now after.now) }
{
    out.push(b' ')?;
    push_row_or_none(out, before)?;
    out.extend_from_slice(b" -> ")?;
    push_row_or_none(out, after)?;
    out.push(b'\n')?;
    Ok(())
}

/// Pushes a row, or that there is none.
fn push_row_or_none(out: &mut Vec<u8>, row: &Option<Row>) -> Result<(), AllocError>
    ensures { OnOk result (out.new.items ≡ out.old.items ++ row_or_none row.now) }
{
    match row {
        Some(row) => push_row(out, row),
        None => out.extend_from_slice(b"none"),
    }
}
