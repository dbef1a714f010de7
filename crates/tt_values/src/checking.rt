ghost use Rattle.std.specs.Prelude.{◌≡◌, ◌==◌, not, length, None, OnOk};
ghost use Rattle.std.specs.List.{All, list_any, zip};
ghost use Rattle.std.specs.Option.{option_copied};
ghost use Rattle.tt_values.specs.Faults.{first_fault, ReportsFault};
ghost use Rattle.tt_values.specs.Value.{is_of_kind, is_long_text};
ghost use Rattle.tt_values.specs.Check.{row_tests, equals_tests, update_tests, write_fault, action_fault, select_fault, has_no_column, has_wrong_kind, has_long_text, has_too_many, is_wrong_kind, HasKey};

mod changes;

use crate::action::Action;
use crate::catalog::Catalog;
use crate::items::item_at;
use crate::statement::{Change, Equal, Select, Write};
use crate::table::Column;
use crate::value::Value;
use crate::{MAX_EQUALS, MAX_TEXT_BYTES, MAX_WRITES};
use changes::{changes_key, changes_no_column, changes_twice, changes_wrong_kind, sets_long_text};
use thiserror::Error;

/// The fault of a statement or of an action. A whole statement is searched for one kind of fault
/// before the next.
#[derive(Clone, Copy, Debug, PartialEq, Eq, Error)]
pub enum CheckError {
    /// The catalog has no such table.
    #[error("no such table")]
    NoTable,
    /// The table has no such column.
    #[error("no such column")]
    NoColumn,
    /// A value is of another kind than its column.
    #[error("value of the wrong kind")]
    WrongKind,
    /// The row has more or fewer values than the table has columns.
    #[error("row of the wrong width")]
    WrongWidth,
    /// A text has more than 1,024 bytes.
    #[error("text too long")]
    TextTooLong,
    /// A change is of the first column, which has the key.
    #[error("key set by an update")]
    SetsKey,
    /// Two changes are of the same column.
    #[error("column changed twice")]
    SameColumnTwice,
    /// The statement has more than 32 conditions.
    #[error("too many equalities")]
    TooManyEquals,
    /// The action has more than 16 writes.
    #[error("too many writes")]
    TooManyWrites,
}

/// Whether a write can run on the tables of a catalog. Allocates nothing.
pub fn check(catalog: &Catalog, write: &Write) -> Result<(), CheckError>
    ensures fault { ReportsFault result (write_fault catalog.now write.now) }
    ensures key { OnOk result (HasKey write.now) }
{
    match write {
        Write::Insert { table, row } => {
            let Some(def) = catalog.table(*table) else {
                return Err(CheckError::NoTable);
            };
            ok_unless(row_fault(def.columns.as_slice(), row.values.as_slice()))
        }
        Write::Update {
            table,
            changes,
            equals,
        } => {
            let Some(def) = catalog.table(*table) else {
                return Err(CheckError::NoTable);
            };
            ok_unless(update_fault(
                def.columns.as_slice(),
                changes.as_slice(),
                equals.as_slice(),
            ))
        }
        Write::Delete { table, equals } => {
            let Some(def) = catalog.table(*table) else {
                return Err(CheckError::NoTable);
            };
            ok_unless(equals_fault(def.columns.as_slice(), equals.as_slice()))
        }
    }
}

/// Whether an action can run on the tables of a catalog. All its writes are judged, also if it is
/// whole: they are counted first; then the first write that can't run decides. Allocates nothing.
pub fn check_action(catalog: &Catalog, action: &Action) -> Result<(), CheckError>
    ensures fault { ReportsFault result (action_fault catalog.now action.now.writes) }
    ensures keys { OnOk result (All HasKey action.now.writes) }
{
    let writes = action.writes.as_slice();
    if writes.len() > MAX_WRITES {
        return Err(CheckError::TooManyWrites);
    }
    for write in writes {
        check(catalog, write)?;
    }
    Ok(())
}

/// Whether a select can run on the tables of a catalog. Allocates nothing.
pub fn check_select(catalog: &Catalog, select: &Select) -> Result<(), CheckError>
    ensures { ReportsFault result (select_fault catalog.now select.now) }
{
    let Some(def) = catalog.table(select.table) else {
        return Err(CheckError::NoTable);
    };
    ok_unless(equals_fault(def.columns.as_slice(), select.equals.as_slice()))
}

fn ok_unless(fault: Option<CheckError>) -> Result<(), CheckError>
    ensures { ReportsFault result fault }
{
    match fault {
        Some(fault) => Err(fault),
        None => Ok(()),
    }
}

fn row_fault(columns: &[Column], values: &[Value]) -> Option<CheckError>
    ensures { result ≡ first_fault (row_tests columns.now values.now) }
{
    if has_wrong_kind_in_row(columns, values) {
        return Some(CheckError::WrongKind);
    }
    if values.len() != columns.len() {
        return Some(CheckError::WrongWidth);
    }
    if has_long_value(values) {
        return Some(CheckError::TextTooLong);
    }
    None
}

fn equals_fault(columns: &[Column], equals: &[Equal]) -> Option<CheckError>
    ensures { result ≡ first_fault (equals_tests columns.now equals.now) }
{
    if has_no_column(columns, equals) {
        return Some(CheckError::NoColumn);
    }
    if has_wrong_kind(columns, equals) {
        return Some(CheckError::WrongKind);
    }
    if has_long_text(equals) {
        return Some(CheckError::TextTooLong);
    }
    if has_too_many(equals) {
        return Some(CheckError::TooManyEquals);
    }
    None
}

fn update_fault(columns: &[Column], changes: &[Change], equals: &[Equal]) -> Option<CheckError>
    ensures { result ≡ first_fault (update_tests columns.now changes.now equals.now) }
{
    if changes_no_column(columns, changes) || has_no_column(columns, equals) {
        return Some(CheckError::NoColumn);
    }
    if changes_wrong_kind(columns, changes) || has_wrong_kind(columns, equals) {
        return Some(CheckError::WrongKind);
    }
    if sets_long_text(changes) || has_long_text(equals) {
        return Some(CheckError::TextTooLong);
    }
    if changes_key(changes) {
        return Some(CheckError::SetsKey);
    }
    if changes_twice(changes) {
        return Some(CheckError::SameColumnTwice);
    }
    if has_too_many(equals) {
        return Some(CheckError::TooManyEquals);
    }
    None
}

fn has_wrong_kind_in_row(columns: &[Column], values: &[Value]) -> bool
    ensures { result ≡
        list_any (λ p. not (is_of_kind p.0.kind p.1)) (zip columns.now values.now) }
{
    columns
        .iter()
        .zip(values)
        .any(|(column, value)| !value.is_of_kind(column.kind))
}

fn has_long_value(values: &[Value]) -> bool
    ensures { result ≡ list_any is_long_text values.now }
{
    values.iter().any(|value| is_long_text(value))
}

fn is_long_text(value: &Value) -> bool
    ensures { result ≡ is_long_text value.now }
{
    match value {
        Value::Int(_) => false,
        Value::Text(text) => text.len() > MAX_TEXT_BYTES,
    }
}

fn has_no_column(columns: &[Column], equals: &[Equal]) -> bool
    ensures { result ≡ has_no_column columns.now equals.now }
{
    equals
        .iter()
        .any(|equal| columns.len() <= usize::from(equal.column))
}

fn has_wrong_kind(columns: &[Column], equals: &[Equal]) -> bool
    ensures { result ≡ has_wrong_kind columns.now equals.now }
{
    equals.iter().any(|equal| is_wrong_kind(
        item_at(columns, usize::from(equal.column)),
        &equal.value,
    ))
}

fn is_wrong_kind(column: Option<&Column>, value: &Value) -> bool
    ensures { result ≡ is_wrong_kind (option_copied column.entry) value.now }
{
    match column {
        Some(column) => !value.is_of_kind(column.kind),
        None => false,
    }
}

fn has_long_text(equals: &[Equal]) -> bool
    ensures { result ≡ has_long_text equals.now }
{
    equals.iter().any(|equal| is_long_text(&equal.value))
}

fn has_too_many(equals: &[Equal]) -> bool
    ensures { result ≡ has_too_many equals.now }
{
    equals.len() > MAX_EQUALS
}
