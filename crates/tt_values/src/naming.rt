//! The tests of names and columns that a catalog runs on a new table.
ghost use Rattle.std.specs.Prelude.{◌≡◌, ◌&&◌};
ghost use Rattle.std.specs.List.{list_all, list_any};
ghost use Rattle.std.specs.Str.{bytes_eq};
ghost use Rattle.tt_values.specs.Tables.{is_name, is_name_byte, is_int, is_key_int, has_same_name};

use crate::MAX_NAME_BYTES;
use crate::table::{Column, TableDef};
use crate::text::Text;
use crate::value::Kind;

/// Whether a text is 1 to 64 ASCII letters, digits and underscores.
fn is_name(name: &str) -> bool
    ensures { result ≡ is_name name.now }
{
    let bytes = name.as_bytes();
    if bytes.is_empty() || bytes.len() > MAX_NAME_BYTES {
        return false;
    }
    has_name_bytes(bytes)
}

fn has_name_bytes(bytes: &[u8]) -> bool
    ensures { result ≡ list_all is_name_byte bytes.now }
{
    bytes.iter().all(|byte| is_name_byte(*byte))
}

fn is_name_byte(byte: u8) -> bool
    ensures { result ≡ is_name_byte byte }
{
    matches!(byte, b'a'..=b'z' | b'A'..=b'Z' | b'0'..=b'9' | b'_')
}

/// Whether the names of the table and all its columns are valid.
pub(crate) fn has_valid_names(name: &str, def: &TableDef) -> bool
    ensures { result ≡ (is_name name.now && list_all (λ c. is_name c.name) def.now.columns) }
{
    is_name(name) && has_valid_column_names(def.columns.as_slice())
}

fn has_valid_column_names(columns: &[Column]) -> bool
    ensures { result ≡ list_all (λ c. is_name c.name) columns.now }
{
    columns.iter().all(|column| is_name(column.name.as_str()))
}

/// Whether there is a first column, of kind Int, for the key.
pub(crate) fn is_key_int(columns: &[Column]) -> bool
    ensures { result ≡ is_key_int columns.now }
{
    match columns {
        [] => false,
        [first, ..] => is_int(first.kind),
    }
}

fn is_int(kind: Kind) -> bool
    ensures { result ≡ is_int kind }
{
    match kind {
        Kind::Int => true,
        Kind::Text => false,
    }
}

/// Whether two columns have the same name.
pub(crate) fn has_same_name(columns: &[Column]) -> bool
    ensures { result ≡ has_same_name columns.now }
{
    for i in 0..columns.len() {
        if has_name(&columns[i + 1..], &columns[i].name) {
            return true;
        }
    }
    false
}

fn has_name(columns: &[Column], name: &Text) -> bool
    ensures { result ≡ list_any (λ c. bytes_eq name.now c.name) columns.now }
{
    columns.iter().any(|column| *name == column.name)
}
