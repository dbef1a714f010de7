//! The lines of the slots that a repair re-executed, each with its cause.
ghost use Rattle.std.specs.Prelude.{◌≡◌, ◌++◌, OnOk};
ghost use Rattle.std.specs.Option.{option_map};
ghost use Rattle.tt_generations.specs.SlotCauses.{cause_told};
ghost use Rattle.tt_generations.specs.TwoGenerations.{done_of};
ghost use Rattle.tt_db.specs.Database.{state_of};
ghost use Rattle.tt_workload.specs.CauseLines.{cause_by, slots_done, row_name, partition_name, since_text, cause_text, redone_text, redone_line, redone_lines, redone_lines_if};

use crate::json_report::push_json_redone;
use crate::options::Options;
use crate::told_repair::ToldRepair;
use std::alloc::AllocError;
use tt_db::{Cause, Db};
use tt_grammar::{column_name, push_int, push_labelled, push_value, table_name};
use tt_values::{Catalog, Value};

/// Pushes a line for each slot that a repair has re-executed, with its cause, if these lines are
/// asked for. Where there is no such repair, or its generation isn't kept, there are none.
pub fn push_redone_if(
    out: &mut Vec<u8>,
    db: &Db,
    repair: ToldRepair,
    options: &Options,
) -> Result<(), AllocError>
    ensures { OnOk result (out.new.items
        ≡ out.old.items ++ redone_lines_if options.now db.now repair) }
{
    if options.why {
        push_redone(out, db, repair, options.json)?;
    }
    Ok(())
}

/// Pushes a line for each slot that a repair has re-executed.
fn push_redone(out: &mut Vec<u8>, db: &Db, repair: ToldRepair, json: bool) -> Result<(), AllocError>
    ensures { OnOk result (out.new.items
        ≡ out.old.items ++ redone_lines json db.now repair) }
{
    let count = slots_done(db, repair);
    for earlier in 0..count {
        let slot = earlier + 1;
        let cause = cause_by(db, repair, slot);
        push_redone_slot(out, db.catalog(), slot, cause, json)?;
    }
    Ok(())
}

/// How many slots a repair has done: 0 where there is no such repair.
fn slots_done(db: &Db, repair: ToldRepair) -> u64
    ensures { result ≡ slots_done db.now repair }
{
    match repair {
        ToldRepair::UnderWay => done_under_way(db),
        ToldRepair::ThatClosed(generation) => db.last_time(generation).unwrap_or(0),
    }
}

/// How many slots the repair under way has done: 0 where none is under way.
fn done_under_way(db: &Db) -> u64
    ensures { result ≡ done_of (state_of db.now).phase }
{
    match db.repair() {
        Some(progress) => progress.done,
        None => 0,
    }
}

/// Why a repair re-executed the slot of a number; None where it didn't.
fn cause_by(db: &Db, repair: ToldRepair, slot: u64) -> Option<Cause<'_>>
    ensures { option_map cause_told result ≡ cause_by db.now repair slot }
{
    match repair {
        ToldRepair::UnderWay => db.cause(slot),
        ToldRepair::ThatClosed(generation) => db.cause_in(generation, slot),
    }
}

/// Pushes the line of a slot with its cause, if it was re-executed.
fn push_redone_slot(
    out: &mut Vec<u8>,
    catalog: &Catalog,
    slot: u64,
    cause: Option<Cause<'_>>,
    json: bool,
) -> Result<(), AllocError>
    ensures { OnOk result (out.new.items ≡ out.old.items
        ++ redone_line json catalog.now slot (option_map cause_told cause.entry)) }
{
    match cause {
        Some(cause) if json => push_json_redone(out, catalog, slot, cause),
        Some(cause) => push_redone_text(out, catalog, slot, cause),
        None => Ok(()),
    }
}

/// Pushes the line of a re-executed slot as text.
fn push_redone_text(
    out: &mut Vec<u8>,
    catalog: &Catalog,
    slot: u64,
    cause: Cause<'_>,
) -> Result<(), AllocError>
    ensures { OnOk result (out.new.items
        ≡ out.old.items ++ redone_text catalog.now slot (cause_told cause.entry)) }
{
    push_labelled(out, b"redone slot ", slot)?;
    push_cause(out, catalog, cause)?;
    Ok(())
}

/// Pushes the rest of a line: the cause.
fn push_cause(out: &mut Vec<u8>, catalog: &Catalog, cause: Cause<'_>) -> Result<(), AllocError>
    ensures { OnOk result (out.new.items
        ≡ out.old.items ++ cause_text catalog.now (cause_told cause.entry)) }
{
    match cause {
        Cause::Edited => out.extend_from_slice(b" edited\n"),
        Cause::Wrote { table, key, since } => {
            out.extend_from_slice(b" wrote ")?;
            push_row_name(out, catalog, table, key)?;
            push_since(out, since)
        }
        Cause::Names { table, key, since } => {
            out.extend_from_slice(b" names ")?;
            push_row_name(out, catalog, table, key)?;
            push_since(out, since)
        }
        Cause::Reads {
            table,
            column,
            value,
            since,
        } => {
            out.extend_from_slice(b" reads ")?;
            push_partition_name(out, catalog, table, column, value)?;
            push_since(out, since)
        }
        Cause::Scans { table, since } => {
            out.extend_from_slice(b" scans ")?;
            out.extend_from_slice(table_name(catalog, table).as_bytes())?;
            push_since(out, since)
        }
    }
}

/// Pushes the name of a row's table, and the key.
pub(crate) fn push_row_name(
    out: &mut Vec<u8>,
    catalog: &Catalog,
    table: u16,
    key: i64,
) -> Result<(), AllocError>
    ensures { OnOk result (out.new.items ≡ out.old.items
        ++ row_name catalog.now (record { table = table; key = key })) }
{
    out.extend_from_slice(table_name(catalog, table).as_bytes())?;
    out.push(b' ')?;
    push_int(out, key)
}

/// Pushes the names of a table and a column, and a value of that column.
fn push_partition_name(
    out: &mut Vec<u8>,
    catalog: &Catalog,
    table: u16,
    column: u16,
    value: &Value,
) -> Result<(), AllocError>
    ensures { OnOk result (out.new.items ≡ out.old.items ++ partition_name catalog.now
        (record { table = table; column = column; value = value.now })) }
{
    out.extend_from_slice(table_name(catalog, table).as_bytes())?;
    out.push(b' ')?;
    out.extend_from_slice(column_name(catalog, table, column).as_bytes())?;
    out.push(b' ')?;
    push_value(out, value)
}

/// Pushes the end of a line: the slot that something got dirty with.
fn push_since(out: &mut Vec<u8>, since: u64) -> Result<(), AllocError>
    ensures { OnOk result (out.new.items ≡ out.old.items ++ since_text since) }
{
    push_labelled(out, b" since ", since)?;
    out.push(b'\n')?;
    Ok(())
}
