//! Whether what is dirty may affect a slot.
ghost use Rattle.std.specs.Prelude.{◌≡◌, ◌||◌, not};
ghost use Rattle.std.specs.List.{All, list_any};
ghost use Rattle.tt_values.specs.Check.{HasKey};
ghost use Rattle.tt_parts.specs.Dirty.{has_row};
ghost use Rattle.tt_repair_laws.specs.Due.{is_dirty_key, has_dirty_key, names_dirty_row, is_write_clear, may_read_dirty};

use tt_parts::Dirty;
use tt_values::{Equal, RowId, Value, Write};

/// Whether a slot that touched these rows and has these writes may be affected: it touched a dirty
/// row, or one of its writes names one or isn't clear.
pub(crate) fn is_affected(dirty: &Dirty, rows: &[RowId], writes: &[Write]) -> bool
    requires { All HasKey writes.now }
    ensures { result ≡ (list_any (λ r. has_row dirty.now.dirty r.table r.key) rows.now
        || may_read_dirty dirty.now.catalog dirty.now.dirty writes.now) }
{
    has_dirty_row(dirty, rows) || may_read_dirty(dirty, writes)
}

/// Whether one of the writes names a dirty row or isn't clear.
fn may_read_dirty(dirty: &Dirty, writes: &[Write]) -> bool
    requires { All HasKey writes.now }
    ensures { result ≡ may_read_dirty dirty.now.catalog dirty.now.dirty writes.now }
{
    name_dirty_row(dirty, writes) || are_unclear(dirty, writes)
}

/// Whether one of the rows is dirty.
fn has_dirty_row(dirty: &Dirty, rows: &[RowId]) -> bool
    ensures { result ≡ list_any (λ r. has_row dirty.now.dirty r.table r.key) rows.now }
{
    rows.iter().any(|row| dirty.has_row(row.table, row.key))
}

/// Whether one of the writes names a dirty row by its key.
fn name_dirty_row(dirty: &Dirty, writes: &[Write]) -> bool
    requires { All HasKey writes.now }
    ensures { result ≡ list_any (names_dirty_row dirty.now.dirty) writes.now }
{
    for write in writes {
        if names_dirty_row(dirty, write) {
            return true;
        }
    }
    false
}

/// Whether a write inserts the key of a dirty row, or equates it.
fn names_dirty_row(dirty: &Dirty, write: &Write) -> bool
    requires { HasKey write.now }
    ensures { result ≡ names_dirty_row dirty.now.dirty write.now }
{
    match write {
        Write::Insert { table, row } => dirty.has_row(*table, row.key()),
        Write::Update { table, equals, .. } => have_dirty_key(dirty, *table, equals.as_slice()),
        Write::Delete { table, equals } => have_dirty_key(dirty, *table, equals.as_slice()),
    }
}

/// Whether one of the conditions is an equality on the first column, with the key of a dirty row.
fn have_dirty_key(dirty: &Dirty, table: u16, equals: &[Equal]) -> bool
    ensures { result ≡ list_any (has_dirty_key dirty.now.dirty table) equals.now }
{
    equals.iter().any(|equal| {
        equal.equates() && equal.column == 0 && is_dirty_key(dirty, table, &equal.value)
    })
}

/// Whether a value is the key of a dirty row.
fn is_dirty_key(dirty: &Dirty, table: u16, value: &Value) -> bool
    ensures { result ≡ is_dirty_key dirty.now.dirty table value.now }
{
    match value {
        Value::Int(key) => dirty.has_row(table, *key),
        Value::Text(_) => false,
    }
}

/// Whether one of the writes isn't clear.
fn are_unclear(dirty: &Dirty, writes: &[Write]) -> bool
    requires { All HasKey writes.now }
    ensures { result
        ≡ list_any (λ w. not (is_write_clear dirty.now.catalog dirty.now.dirty w)) writes.now }
{
    for write in writes {
        if !dirty.is_clear(write) {
            return true;
        }
    }
    false
}
