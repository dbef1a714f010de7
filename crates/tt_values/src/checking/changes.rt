//! The tests of the changes of an update.
ghost use Rattle.std.specs.Prelude.{◌≡◌, ◌==◌, nat_le, length};
ghost use Rattle.std.specs.List.{list_any};
ghost use Rattle.std.specs.Option.{option_copied};
ghost use Rattle.tt_values.specs.Change.{column_of};
ghost use Rattle.tt_values.specs.Check.{changes_no_column, is_wrong_change, changes_wrong_kind, is_long_change, sets_long_text, changes_key, changes_twice};

use super::is_long_text;
use crate::changing::column_of;
use crate::items::item_at;
use crate::statement::Change;
use crate::table::Column;
use crate::value::Kind;

pub(super) fn changes_no_column(columns: &[Column], changes: &[Change]) -> bool
    ensures { result ≡ changes_no_column columns.now changes.now }
{
    changes
        .iter()
        .any(|change| columns.len() <= usize::from(column_of(change)))
}

pub(super) fn changes_wrong_kind(columns: &[Column], changes: &[Change]) -> bool
    ensures { result ≡ changes_wrong_kind columns.now changes.now }
{
    changes.iter().any(|change| is_wrong_change(
        item_at(columns, usize::from(column_of(change))),
        change,
    ))
}

fn is_wrong_change(column: Option<&Column>, change: &Change) -> bool
    ensures { result ≡ is_wrong_change (option_copied column.entry) change.now }
{
    let Some(column) = column else {
        return false;
    };
    match change {
        Change::Set { value, .. } => !value.is_of_kind(column.kind),
        Change::Add { .. } => match column.kind {
            Kind::Int => false,
            Kind::Text => true,
        },
    }
}

pub(super) fn sets_long_text(changes: &[Change]) -> bool
    ensures { result ≡ sets_long_text changes.now }
{
    changes.iter().any(|change| is_long_change(change))
}

fn is_long_change(change: &Change) -> bool
    ensures { result ≡ is_long_change change.now }
{
    match change {
        Change::Set { value, .. } => is_long_text(value),
        Change::Add { .. } => false,
    }
}

pub(super) fn changes_key(changes: &[Change]) -> bool
    ensures { result ≡ changes_key changes.now }
{
    changes.iter().any(|change| column_of(change) == 0)
}

/// Whether two changes are of the same column. Where all columns are in the table, this looks at
/// no more changes than the table has columns before it returns `true`.
pub(super) fn changes_twice(changes: &[Change]) -> bool
    ensures { result ≡ changes_twice changes.now }
{
    for i in 0..changes.len() {
        if has_change_of(&changes[i + 1..], column_of(&changes[i])) {
            return true;
        }
    }
    false
}

fn has_change_of(changes: &[Change], column: u16) -> bool
    ensures { result ≡ list_any (λ c. column == column_of c) changes.now }
{
    changes.iter().any(|change| column == column_of(change))
}
