//! Writes and actions as they are printed, as the grammar of documents writes them.
ghost use Rattle.std.specs.Prelude.{◌≡◌, ◌++◌, map, codes, All, OnOk};
ghost use Rattle.std.specs.List.{flat_map};
ghost use Rattle.tt_grammar.specs.Quoting.{quoted};
ghost use Rattle.tt_grammar.specs.JsonText.{further_item, array_text, member_text, members_text};
ghost use Rattle.tt_grammar.specs.ReadBack.{IsStorable, IsStorableChange, IsStorableEqual, IsStorableWrite, IsStorableAction};
ghost use Rattle.tt_grammar.specs.WriteText.{table_name, column_name, column_change_text, equal_text, write_text, writes_text, whole_members, named_action_members, action_members, action_members_or_null};

use crate::comparisons::before_value;
use crate::json_text::push_named;
use crate::printing::{push_int, push_row, push_value};
use crate::quoting::push_quoted;
use std::alloc::AllocError;
use tt_values::{Action, Catalog, Change, Equal, Row, Value, Write};

/// The name of the table at a position, or an empty one where there is no table.
pub fn table_name(catalog: &Catalog, table: u16) -> &str
    ensures { result.now ≡ table_name catalog.now table }
{
    match catalog.name(table) {
        Some(name) => name,
        None => "",
    }
}

/// The name of the column at a position of a table, or an empty one where there is no column.
pub fn column_name(catalog: &Catalog, table: u16, column: u16) -> &str
    ensures { result.now ≡ column_name catalog.now table column }
{
    let Some(def) = catalog.table(table) else {
        return "";
    };
    match def.columns.get(usize::from(column)) {
        Some(column) => column.name.as_str(),
        None => "",
    }
}

/// Pushes the name of a table in quotes behind its label.
fn push_table_name(
    out: &mut Vec<u8>,
    label: &[u8],
    catalog: &Catalog,
    table: u16,
) -> Result<(), AllocError>
    ensures { OnOk result (out.new.items
        ≡ out.old.items ++ (label.now ++ quoted (table_name catalog.now table))) }
{
    push_named(out, label, table_name(catalog, table).as_bytes())
}

/// Pushes the name of a column in quotes behind its label.
fn push_column_name(
    out: &mut Vec<u8>,
    label: &[u8],
    catalog: &Catalog,
    table: u16,
    column: u16,
) -> Result<(), AllocError>
    ensures { OnOk result (out.new.items
        ≡ out.old.items ++ (label.now ++ quoted (column_name catalog.now table column))) }
{
    push_named(out, label, column_name(catalog, table, column).as_bytes())
}

/// Pushes an action as members of an object: its writes by the name `do`, and behind them the
/// member `whole` where the action is whole.
pub fn push_action(out: &mut Vec<u8>, catalog: &Catalog, action: &Action) -> Result<(), AllocError>
    ensures text { OnOk result (out.new.items
        ≡ out.old.items ++ members_text (action_members catalog.now action.now)) }
    ensures storable { OnOk result (IsStorableAction action.now) }
{
    push_named_action(out, "do", "whole", catalog, action)
}

/// Pushes an action as [`push_action`] does, or a `do` that is null where there is none.
pub fn push_action_or_null(
    out: &mut Vec<u8>,
    catalog: &Catalog,
    action: &Option<Action>,
) -> Result<(), AllocError>
    ensures { OnOk result (out.new.items
        ≡ out.old.items ++ members_text (action_members_or_null catalog.now action.now)) }
{
    match action {
        Some(action) => push_action(out, catalog, action),
        None => out.extend_from_slice(b"\"do\":null"),
    }
}

/// Pushes an action as members of these names: its writes, and whether it is whole.
pub fn push_named_action(
    out: &mut Vec<u8>,
    name: &str,
    whole_name: &str,
    catalog: &Catalog,
    action: &Action,
) -> Result<(), AllocError>
    ensures text { OnOk result (out.new.items ≡ out.old.items
        ++ members_text (named_action_members name.now whole_name.now catalog.now action.now)) }
    ensures storable { OnOk result (IsStorableAction action.now) }
{
    push_name(out, name)?;
    push_writes(out, catalog, action.writes.as_slice())?;
    push_whole(out, whole_name, action.whole)?;
    Ok(())
}

/// Pushes, as a further member of this name, that an action is whole, where it is.
fn push_whole(out: &mut Vec<u8>, name: &str, whole: bool) -> Result<(), AllocError>
    ensures { OnOk result (out.new.items ≡ out.old.items
        ++ flat_map further_item (map member_text (whole_members name.now whole))) }
{
    if whole {
        out.push(b',')?;
        push_name(out, name)?;
        out.extend_from_slice(b"true")?;
    }
    Ok(())
}

/// Pushes the name of a member and a colon.
fn push_name(out: &mut Vec<u8>, name: &str) -> Result<(), AllocError>
    ensures { OnOk result (out.new.items ≡ out.old.items ++ (quoted name.now ++ codes ":")) }
{
    push_quoted(out, name.as_bytes())?;
    out.push(b':')?;
    Ok(())
}

/// Pushes writes as an array.
fn push_writes(out: &mut Vec<u8>, catalog: &Catalog, writes: &[Write]) -> Result<(), AllocError>
    ensures text { OnOk result (out.new.items
        ≡ out.old.items ++ writes_text catalog.now writes.now) }
    ensures storable { OnOk result (All IsStorableWrite writes.now) }
{
    let [first, further @ ..] = writes else {
        return out.extend_from_slice(b"[]");
    };
    out.push(b'[')?;
    push_write(out, catalog, first)?;
    push_further_writes(out, catalog, further)?;
    out.push(b']')?;
    Ok(())
}

/// Pushes further writes, each behind a comma.
fn push_further_writes(
    out: &mut Vec<u8>,
    catalog: &Catalog,
    writes: &[Write],
) -> Result<(), AllocError>
    ensures text { OnOk result (out.new.items
        ≡ out.old.items ++ flat_map further_item (map (write_text catalog.now) writes.now)) }
    ensures storable { OnOk result (All IsStorableWrite writes.now) }
{
    for write in writes {
        out.push(b',')?;
        push_write(out, catalog, write)?;
    }
    Ok(())
}

/// Pushes a write.
fn push_write(out: &mut Vec<u8>, catalog: &Catalog, write: &Write) -> Result<(), AllocError>
    ensures text { OnOk result (out.new.items
        ≡ out.old.items ++ write_text catalog.now write.now) }
    ensures storable { OnOk result (IsStorableWrite write.now) }
{
    match write {
        Write::Insert { table, row } => push_insert(out, catalog, *table, row),
        Write::Update {
            table,
            changes,
            equals,
        } => push_update(out, catalog, *table, changes.as_slice(), equals.as_slice()),
        Write::Delete { table, equals } => push_delete(out, catalog, *table, equals.as_slice()),
    }
}

/// Pushes an insert.
fn push_insert(
    out: &mut Vec<u8>,
    catalog: &Catalog,
    table: u16,
    row: &Row,
) -> Result<(), AllocError>
    ensures text { OnOk result (out.new.items
        ≡ out.old.items ++ write_text catalog.now (Write.Insert table row.now)) }
    ensures storable { OnOk result (All IsStorable row.now.values) }
{
    push_table_name(out, b"{\"insert\":", catalog, table)?;
    out.extend_from_slice(b",\"row\":")?;
    push_row(out, row)?;
    out.push(b'}')?;
    Ok(())
}

/// Pushes an update.
fn push_update(
    out: &mut Vec<u8>,
    catalog: &Catalog,
    table: u16,
    changes: &[Change],
    equals: &[Equal],
) -> Result<(), AllocError>
    ensures text { OnOk result (out.new.items ≡ out.old.items
        ++ write_text catalog.now (Write.Update table changes.now equals.now)) }
    ensures storable { OnOk result (IsStorableWrite (Write.Update table changes.now equals.now)) }
{
    push_table_name(out, b"{\"update\":", catalog, table)?;
    out.extend_from_slice(b",\"change\":")?;
    push_changes(out, catalog, table, changes)?;
    out.extend_from_slice(b",\"where\":")?;
    push_equals(out, catalog, table, equals)?;
    out.push(b'}')?;
    Ok(())
}

/// Pushes a delete.
fn push_delete(
    out: &mut Vec<u8>,
    catalog: &Catalog,
    table: u16,
    equals: &[Equal],
) -> Result<(), AllocError>
    ensures text { OnOk result (out.new.items
        ≡ out.old.items ++ write_text catalog.now (Write.Delete table equals.now)) }
    ensures storable { OnOk result (IsStorableWrite (Write.Delete table equals.now)) }
{
    push_table_name(out, b"{\"delete\":", catalog, table)?;
    out.extend_from_slice(b",\"where\":")?;
    push_equals(out, catalog, table, equals)?;
    out.push(b'}')?;
    Ok(())
}

/// Pushes the changes of an update as an array.
fn push_changes(
    out: &mut Vec<u8>,
    catalog: &Catalog,
    table: u16,
    changes: &[Change],
) -> Result<(), AllocError>
    ensures text { OnOk result (out.new.items
        ≡ out.old.items ++ array_text (map (column_change_text catalog.now table) changes.now)) }
    ensures storable { OnOk result (All IsStorableChange changes.now) }
{
    let [first, further @ ..] = changes else {
        return out.extend_from_slice(b"[]");
    };
    out.push(b'[')?;
    push_change(out, catalog, table, first)?;
    push_further_changes(out, catalog, table, further)?;
    out.push(b']')?;
    Ok(())
}

/// Pushes further changes, each behind a comma.
fn push_further_changes(
    out: &mut Vec<u8>,
    catalog: &Catalog,
    table: u16,
    changes: &[Change],
) -> Result<(), AllocError>
    ensures text { OnOk result (out.new.items ≡ out.old.items
        ++ flat_map further_item (map (column_change_text catalog.now table) changes.now)) }
    ensures storable { OnOk result (All IsStorableChange changes.now) }
{
    for change in changes {
        out.push(b',')?;
        push_change(out, catalog, table, change)?;
    }
    Ok(())
}

/// Pushes a change of a column.
fn push_change(
    out: &mut Vec<u8>,
    catalog: &Catalog,
    table: u16,
    change: &Change,
) -> Result<(), AllocError>
    ensures text { OnOk result (out.new.items
        ≡ out.old.items ++ column_change_text catalog.now table change.now) }
    ensures storable { OnOk result (IsStorableChange change.now) }
{
    match change {
        Change::Set { column, value } => push_set(out, catalog, table, *column, value),
        Change::Add { column, by } => push_add(out, catalog, table, *column, *by),
    }
}

/// Pushes a change that sets a column.
fn push_set(
    out: &mut Vec<u8>,
    catalog: &Catalog,
    table: u16,
    column: u16,
    value: &Value,
) -> Result<(), AllocError>
    ensures text { OnOk result (out.new.items
        ≡ out.old.items ++ column_change_text catalog.now table (Change.Set column value.now)) }
    ensures storable { OnOk result (IsStorable value.now) }
{
    push_column_name(out, b"[\"set\",", catalog, table, column)?;
    out.push(b',')?;
    push_value(out, value)?;
    out.push(b']')?;
    Ok(())
}

/// Pushes a change that adds to a column.
fn push_add(
    out: &mut Vec<u8>,
    catalog: &Catalog,
    table: u16,
    column: u16,
    by: i64,
) -> Result<(), AllocError>
    ensures { OnOk result (out.new.items
        ≡ out.old.items ++ column_change_text catalog.now table (Change.Add column by)) }
{
    push_column_name(out, b"[\"add\",", catalog, table, column)?;
    out.push(b',')?;
    push_int(out, by)?;
    out.push(b']')?;
    Ok(())
}

/// Pushes the conditions of a write as an array.
pub fn push_equals(
    out: &mut Vec<u8>,
    catalog: &Catalog,
    table: u16,
    equals: &[Equal],
) -> Result<(), AllocError>
    ensures text { OnOk result (out.new.items
        ≡ out.old.items ++ array_text (map (equal_text catalog.now table) equals.now)) }
    ensures storable { OnOk result (All IsStorableEqual equals.now) }
{
    let [first, further @ ..] = equals else {
        return out.extend_from_slice(b"[]");
    };
    out.push(b'[')?;
    push_equal(out, catalog, table, first)?;
    push_further_equals(out, catalog, table, further)?;
    out.push(b']')?;
    Ok(())
}

/// Pushes further conditions, each behind a comma.
fn push_further_equals(
    out: &mut Vec<u8>,
    catalog: &Catalog,
    table: u16,
    equals: &[Equal],
) -> Result<(), AllocError>
    ensures text { OnOk result (out.new.items ≡ out.old.items
        ++ flat_map further_item (map (equal_text catalog.now table) equals.now)) }
    ensures storable { OnOk result (All IsStorableEqual equals.now) }
{
    for equal in equals {
        out.push(b',')?;
        push_equal(out, catalog, table, equal)?;
    }
    Ok(())
}

/// Pushes a condition.
fn push_equal(
    out: &mut Vec<u8>,
    catalog: &Catalog,
    table: u16,
    equal: &Equal,
) -> Result<(), AllocError>
    ensures text { OnOk result (out.new.items
        ≡ out.old.items ++ equal_text catalog.now table equal.now) }
    ensures storable { OnOk result (IsStorableEqual equal.now) }
{
    push_column_name(out, b"[", catalog, table, equal.column)?;
    out.extend_from_slice(before_value(equal.how))?;
    push_value(out, &equal.value)?;
    out.push(b']')?;
    Ok(())
}
