//! Re-executed slots as they are printed, each with its cause.
ghost use Rattle.std.specs.Prelude.{◌≡◌, [], ◌++◌, map, codes, OnOk};
ghost use Rattle.std.specs.List.{flat_map};
ghost use Rattle.std.specs.Fmt.{decimal, signed_decimal};
ghost use Rattle.tt_grammar.specs.Quoting.{quoted};
ghost use Rattle.tt_grammar.specs.JsonText.{further_item, array_text, member_text};
ghost use Rattle.tt_grammar.specs.WriteText.{table_name, column_name};
ghost use Rattle.tt_answers.specs.CauseText.{cause_members, cause_text};

use crate::answer::{CauseEntry, SlotCause};
use crate::told_text::push_told_time;
use std::alloc::AllocError;
use tt_grammar::{column_name, push_int, push_named, push_value, table_name};
use tt_requests::{Numbering, ToldTime};
use tt_values::{Catalog, RowId, Value};

/// Pushes re-executed slots as an array.
pub(crate) fn push_causes(
    out: &mut Vec<u8>,
    catalog: &Catalog,
    numbering: Numbering,
    redone: &[CauseEntry],
) -> Result<(), AllocError>
    ensures { OnOk result (out.new.items
        ≡ out.old.items ++ array_text (map (cause_text catalog.now numbering) redone.now)) }
{
    let [first, further @ ..] = redone else {
        return out.extend_from_slice(b"[]");
    };
    out.push(b'[')?;
    push_cause_entry(out, catalog, numbering, first)?;
    push_further_entries(out, catalog, numbering, further)?;
    out.push(b']')?;
    Ok(())
}

/// Pushes further re-executed slots, each behind a comma.
fn push_further_entries(
    out: &mut Vec<u8>,
    catalog: &Catalog,
    numbering: Numbering,
    redone: &[CauseEntry],
) -> Result<(), AllocError>
    ensures { OnOk result (out.new.items ≡ out.old.items
        ++ flat_map further_item (map (cause_text catalog.now numbering) redone.now)) }
{
    for entry in redone {
        out.push(b',')?;
        push_cause_entry(out, catalog, numbering, entry)?;
    }
    Ok(())
}

/// Pushes a re-executed slot with its cause.
pub fn push_cause_entry(
    out: &mut Vec<u8>,
    catalog: &Catalog,
    numbering: Numbering,
    entry: &CauseEntry,
) -> Result<(), AllocError>
    ensures { OnOk result (out.new.items
        ≡ out.old.items ++ cause_text catalog.now numbering entry.now) }
{
    push_told_time(out, b"{\"slot\":", numbering.told_time(entry.slot))?;
    push_cause(out, catalog, numbering, &entry.cause)?;
    out.push(b'}')?;
    Ok(())
}

/// Pushes the members that tell a cause, each behind a comma.
fn push_cause(
    out: &mut Vec<u8>,
    catalog: &Catalog,
    numbering: Numbering,
    cause: &SlotCause,
) -> Result<(), AllocError>
    ensures { OnOk result (out.new.items ≡ out.old.items ++ flat_map further_item (map member_text
        (cause_members catalog.now numbering cause.now))) }
{
    match cause {
        SlotCause::Edited => out.extend_from_slice(b",\"because\":\"edited\""),
        SlotCause::Wrote { row, since } => {
            push_row_named(out, b",\"because\":\"wrote\",\"table\":", catalog, *row)?;
            push_since(out, numbering.told_time(*since))
        }
        SlotCause::Names { row, since } => {
            push_row_named(out, b",\"because\":\"names\",\"table\":", catalog, *row)?;
            push_since(out, numbering.told_time(*since))
        }
        SlotCause::Reads {
            table,
            column,
            value,
            since,
        } => push_reads(out, catalog, numbering, *table, *column, value, *since),
        SlotCause::Scans { table, since } => {
            push_table_name(out, b",\"because\":\"scans\",\"table\":", catalog, *table)?;
            push_since(out, numbering.told_time(*since))
        }
    }
}

/// Pushes a row by its table, behind its label, and its key.
pub(crate) fn push_row_named(
    out: &mut Vec<u8>,
    label: &[u8],
    catalog: &Catalog,
    row: RowId,
) -> Result<(), AllocError>
    ensures { OnOk result (out.new.items ≡ out.old.items
        ++ (label.now ++ (quoted (table_name catalog.now row.table)
        ++ (codes ",\"key\":" ++ signed_decimal row.key)))) }
{
    push_table_name(out, label, catalog, row.table)?;
    out.extend_from_slice(b",\"key\":")?;
    push_int(out, row.key)?;
    Ok(())
}

/// Pushes that a write reads the rows of a table that have this value in a column.
fn push_reads(
    out: &mut Vec<u8>,
    catalog: &Catalog,
    numbering: Numbering,
    table: u16,
    column: u16,
    value: &Value,
    since: u64,
) -> Result<(), AllocError>
    ensures { OnOk result (out.new.items ≡ out.old.items ++ flat_map further_item (map member_text
        (cause_members catalog.now numbering (SlotCause.Reads table column value.now since)))) }
{
    push_table_name(out, b",\"because\":\"reads\",\"table\":", catalog, table)?;
    push_column_name(out, b",\"column\":", catalog, table, column)?;
    out.extend_from_slice(b",\"value\":")?;
    push_value(out, value)?;
    push_since(out, numbering.told_time(since))?;
    Ok(())
}

/// Pushes the slot that something got dirty with.
fn push_since(out: &mut Vec<u8>, since: ToldTime) -> Result<(), AllocError>
    ensures { OnOk result (out.new.items ≡ out.old.items
        ++ (codes ",\"since\":" ++ (decimal since.number ++ []))) }
{
    push_told_time(out, b",\"since\":", since)
}

/// Pushes the name of a table in quotes behind its label.
fn push_table_name(
    out: &mut Vec<u8>,
    label: &[u8],
    catalog: &Catalog,
    table: u16,
) -> Result<(), AllocError>
    ensures { OnOk result (out.new.items
        ≡ out.old.items ++ (label.now ++ quoted (table_name catalog.now table))) }
{
    push_named(out, label, table_name(catalog, table).as_bytes())
}

/// Pushes the name of a column in quotes behind its label.
fn push_column_name(
    out: &mut Vec<u8>,
    label: &[u8],
    catalog: &Catalog,
    table: u16,
    column: u16,
) -> Result<(), AllocError>
    ensures { OnOk result (out.new.items
        ≡ out.old.items ++ (label.now ++ quoted (column_name catalog.now table column))) }
{
    push_named(out, label, column_name(catalog, table, column).as_bytes())
}
