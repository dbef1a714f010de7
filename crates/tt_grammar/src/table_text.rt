//! Tables as they are printed, as the grammar of documents writes them.
ghost use Rattle.std.specs.Prelude.{◌≡◌, [], ◌∷◌, ◌++◌, map, OnOk};
ghost use Rattle.std.specs.List.{flat_map};
ghost use Rattle.tt_grammar.specs.JsonText.{further_item, items_text, items_at, array_text};
ghost use Rattle.tt_grammar.specs.WriteText.{kind_name, column_text, table_text, tables_text};

use crate::json_text::{push_flag, push_named};
use std::alloc::AllocError;
use tt_values::{Catalog, Column, Kind, TableDef};

/// Pushes the tables of a catalog as an array.
pub fn push_tables(out: &mut Vec<u8>, catalog: &Catalog) -> Result<(), AllocError>
    ensures { OnOk result (out.new.items ≡ out.old.items ++ tables_text catalog.now) }
{
    out.push(b'[')?;
    push_table_items(out, catalog)?;
    out.push(b']')?;
    Ok(())
}

/// Pushes the tables of a catalog with commas between them.
fn push_table_items(out: &mut Vec<u8>, catalog: &Catalog) -> Result<(), AllocError>
    ensures { OnOk result (out.new.items
        ≡ out.old.items ++ items_text (map table_text catalog.now)) }
{
    for table in 0..catalog.len() as u16 {
        let Some(name) = catalog.name(table) else {
            unreachable!()
        };
        let Some(def) = catalog.table(table) else {
            unreachable!()
        };
        push_table_item(out, table == 0, name, def)?;
    }
    Ok(())
}

/// Pushes a table as an item of an array: its first one, or a further one.
fn push_table_item(
    out: &mut Vec<u8>,
    is_first: bool,
    name: &str,
    def: &TableDef,
) -> Result<(), AllocError>
    ensures { OnOk result (out.new.items
        ≡ out.old.items ++ items_at is_first (table_text (name.now, def.now) ∷ [])) }
{
    if !is_first {
        out.push(b',')?;
    }
    push_table(out, name, def)?;
    Ok(())
}

/// Pushes a table.
fn push_table(out: &mut Vec<u8>, name: &str, def: &TableDef) -> Result<(), AllocError>
    ensures { OnOk result (out.new.items ≡ out.old.items ++ table_text (name.now, def.now)) }
{
    push_named(out, b"{\"name\":", name.as_bytes())?;
    out.extend_from_slice(b",\"columns\":")?;
    push_columns(out, def.columns.as_slice())?;
    out.push(b'}')?;
    Ok(())
}

/// Pushes columns as an array.
fn push_columns(out: &mut Vec<u8>, columns: &[Column]) -> Result<(), AllocError>
    ensures { OnOk result (out.new.items
        ≡ out.old.items ++ array_text (map column_text columns.now)) }
{
    let [first, further @ ..] = columns else {
        return out.extend_from_slice(b"[]");
    };
    out.push(b'[')?;
    push_column(out, first)?;
    push_further_columns(out, further)?;
    out.push(b']')?;
    Ok(())
}

/// Pushes further columns, each behind a comma.
fn push_further_columns(out: &mut Vec<u8>, columns: &[Column]) -> Result<(), AllocError>
    ensures { OnOk result (out.new.items
        ≡ out.old.items ++ flat_map further_item (map column_text columns.now)) }
{
    for column in columns {
        out.push(b',')?;
        push_column(out, column)?;
    }
    Ok(())
}

/// Pushes a column.
fn push_column(out: &mut Vec<u8>, column: &Column) -> Result<(), AllocError>
    ensures { OnOk result (out.new.items ≡ out.old.items ++ column_text column.now) }
{
    push_named(out, b"{\"name\":", column.name.as_str().as_bytes())?;
    push_named(out, b",\"kind\":", kind_name(column.kind).as_bytes())?;
    out.extend_from_slice(b",\"partition\":")?;
    push_flag(out, column.partition)?;
    out.push(b'}')?;
    Ok(())
}

/// The name of a kind of column.
fn kind_name(kind: Kind) -> &'static str
    ensures { result.now ≡ kind_name kind }
{
    match kind {
        Kind::Int => "int",
        Kind::Text => "text",
    }
}
