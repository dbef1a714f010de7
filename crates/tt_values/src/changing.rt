ghost use Rattle.std.specs.Prelude.{◌≡◌, ◌==◌, IfOk};
ghost use Rattle.tt_values.specs.Change.{column_of, value_plus, value_after, changed_value, changed_values, changed};

use crate::items::Items;
use crate::row::Row;
use crate::statement::Change;
use crate::value::Value;
use std::alloc::{AllocError, Global};

/// A new row: the old one with these changes. Of several changes of one column the first counts,
/// and a change past the end of the row has no effect; `check` refuses updates with either.
pub fn changed(alloc: Global, row: &Row, changes: &[Change]) -> Result<Row, AllocError>
    ensures { IfOk result (λ r. r ≡ changed row.now changes.now) }
{
    let values = match row.values.as_slice() {
        [key] => Items::of(alloc, [changed_value(changes, 0, key)?])?,
        [key, second] => {
            let key = changed_value(changes, 0, key)?;
            let second = changed_value(changes, 1, second)?;
            Items::of(alloc, [key, second])?
        }
        [key, second, third] => {
            let key = changed_value(changes, 0, key)?;
            let second = changed_value(changes, 1, second)?;
            let third = changed_value(changes, 2, third)?;
            Items::of(alloc, [key, second, third])?
        }
        [key, second, third, fourth] => {
            let key = changed_value(changes, 0, key)?;
            let second = changed_value(changes, 1, second)?;
            let third = changed_value(changes, 2, third)?;
            let fourth = changed_value(changes, 3, fourth)?;
            Items::of(alloc, [key, second, third, fourth])?
        }
        values => Items::new(alloc, changed_values(alloc, values, changes)?)?,
    };
    Ok(Row { values })
}

/// The values of a row, after the changes.
fn changed_values(
    alloc: Global,
    values: &[Value],
    changes: &[Change],
) -> Result<Vec<Value>, AllocError>
    ensures { IfOk result (λ r. r.items ≡ changed_values changes.now 0 values.now) }
{
    let mut new_values = Vec::with_capacity(alloc, values.len())?;
    for i in 0..values.len() {
        new_values.push(changed_value(changes, i, &values[i])?)?;
    }
    Ok(new_values)
}

/// The value of a column after its change, or the old one if it has none.
fn changed_value(changes: &[Change], column: usize, value: &Value) -> Result<Value, AllocError>
    ensures { IfOk result (λ v. v ≡ changed_value changes.now column value.now) }
{
    for change in changes {
        if usize::from(column_of(change)) == column {
            return value_after(change, value);
        }
    }
    value.copy()
}

/// The position of the column that the change is about.
pub(crate) fn column_of(change: &Change) -> u16
    ensures { result ≡ column_of change.now }
{
    match change {
        Change::Set { column, .. } | Change::Add { column, .. } => *column,
    }
}

fn value_after(change: &Change, value: &Value) -> Result<Value, AllocError>
    ensures { IfOk result (λ v. v ≡ value_after change.now value.now) }
{
    match change {
        Change::Set { value, .. } => value.copy(),
        Change::Add { by, .. } => value_plus(value, *by),
    }
}

/// The saturating sum. A text stays as it is.
fn value_plus(value: &Value, by: i64) -> Result<Value, AllocError>
    ensures { IfOk result (λ v. v ≡ value_plus value.now by) }
{
    match value {
        Value::Int(int) => Ok(Value::Int(int.saturating_add(by))),
        Value::Text(_) => value.copy(),
    }
}
