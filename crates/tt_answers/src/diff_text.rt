//! Rows that differ between the generations, as they are printed.
ghost use Rattle.std.specs.Prelude.{◌≡◌, ◌++◌, map, codes, OnOk};
ghost use Rattle.std.specs.List.{flat_map};
ghost use Rattle.std.specs.Fmt.{signed_decimal};
ghost use Rattle.tt_grammar.specs.Quoting.{quoted};
ghost use Rattle.tt_grammar.specs.JsonText.{further_item, array_text};
ghost use Rattle.tt_grammar.specs.WriteText.{table_name};
ghost use Rattle.tt_answers.specs.DiffText.{row_or_null, diff_text};

use crate::answer::DiffEntry;
use crate::cause_text::push_row_named;
use std::alloc::AllocError;
use tt_generations::RowChange;
use tt_grammar::push_row;
use tt_values::{Catalog, Row, RowId};

/// Pushes rows that differ as an array.
pub(crate) fn push_diff(
    out: &mut Vec<u8>,
    catalog: &Catalog,
    rows: &[DiffEntry],
) -> Result<(), AllocError>
    ensures { OnOk result (out.new.items
        ≡ out.old.items ++ array_text (map (diff_text catalog.now) rows.now)) }
{
    let [first, further @ ..] = rows else {
        return out.extend_from_slice(b"[]");
    };
    out.push(b'[')?;
    push_entry(out, catalog, first)?;
    push_further_entries(out, catalog, further)?;
    out.push(b']')?;
    Ok(())
}

/// Pushes further rows that differ, each behind a comma.
fn push_further_entries(
    out: &mut Vec<u8>,
    catalog: &Catalog,
    rows: &[DiffEntry],
) -> Result<(), AllocError>
    ensures { OnOk result (out.new.items
        ≡ out.old.items ++ flat_map further_item (map (diff_text catalog.now) rows.now)) }
{
    for entry in rows {
        out.push(b',')?;
        push_entry(out, catalog, entry)?;
    }
    Ok(())
}

/// Pushes a row that differs, as it is before and after.
fn push_entry(out: &mut Vec<u8>, catalog: &Catalog, entry: &DiffEntry) -> Result<(), AllocError>
    ensures { OnOk result (out.new.items ≡ out.old.items ++ diff_text catalog.now entry.now) }
{
    push_row_change(out, catalog, entry.table, &entry.change)
}

/// Pushes a row of a table that differs, as it is before and after. The table goes by its position,
/// from 0.
pub fn push_row_change(
    out: &mut Vec<u8>,
    catalog: &Catalog,
    table: u16,
    change: &RowChange,
) -> Result<(), AllocError>
    ensures { OnOk result (out.new.items ≡ out.old.items
        ++ diff_text catalog.now (record { table = table; change = change.now })) }
{
    push_row_id(out, catalog, table, change)?;
    out.extend_from_slice(b",\"before\":")?;
    push_row_or_null(out, &change.before)?;
    out.extend_from_slice(b",\"after\":")?;
    push_row_or_null(out, &change.after)?;
    out.push(b'}')?;
    Ok(())
}

/// Pushes the table and the key of a row that differs.
fn push_row_id(
    out: &mut Vec<u8>,
    catalog: &Catalog,
    table: u16,
    change: &RowChange,
) -> Result<(), AllocError>
    ensures { OnOk result (out.new.items ≡ out.old.items
        ++ (codes "{\"table\":" ++ (quoted (table_name catalog.now table)
        ++ (codes ",\"key\":" ++ signed_decimal change.now.key)))) }
{
    let row = RowId {
        table,
        key: change.key,
    };
    push_row_named(out, b"{\"table\":", catalog, row)
}

/// Pushes a row, or null where there is none.
fn push_row_or_null(out: &mut Vec<u8>, row: &Option<Row>) -> Result<(), AllocError>
    ensures { OnOk result (out.new.items ≡ out.old.items ++ row_or_null row.now) }
{
    match row {
        Some(row) => push_row(out, row),
        None => out.extend_from_slice(b"null"),
    }
}
