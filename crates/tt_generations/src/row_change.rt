//! Rows that differ between the generations.
ghost use Rattle.std.specs.Prelude.{◌≡◌, map, IfOk};
ghost use Rattle.std.specs.Option.{option_copied};
ghost use Rattle.tt_generations.specs.RowChanges.{change_told, change_behind};

use std::alloc::{AllocError, Global};
use tt_values::{Items, Row};
use tt_versions::RowDifference;

/// A row that differs between the generations: what it is in the current one, and in the next one,
/// or None where it isn't there.
#[derive(Debug, PartialEq, Drop)]
pub struct RowChange {
    pub key: i64,
    pub before: Option<Row>,
    pub after: Option<Row>,
}

/// The first of some rows that differ, and whether more follow.
#[derive(Debug, PartialEq, Drop)]
pub struct FirstChanges {
    pub changes: Items<RowChange>,
    pub more: bool,
}

/// Copies of the rows that differ, in their order.
pub(crate) fn changes_of(
    alloc: Global,
    differences: &[RowDifference<'_>],
) -> Result<Vec<RowChange>, AllocError>
    ensures { IfOk result (λ changes.
        map change_told changes.items ≡ map change_behind differences.now) }
{
    let mut changes = Vec::with_capacity(alloc, differences.len())?;
    for difference in differences {
        let change = change_of(difference)?;
        changes.push(change)?;
    }
    Ok(changes)
}

/// A copy of a row that differs.
fn change_of(difference: &RowDifference<'_>) -> Result<RowChange, AllocError>
    ensures { IfOk result (λ change. change_told change ≡ change_behind difference.now) }
{
    let before = copy_of(difference.current)?;
    let after = copy_of(difference.next)?;
    Ok(RowChange {
        key: difference.key,
        before,
        after,
    })
}

/// A copy of a row, if there is one.
fn copy_of(row: Option<&Row>) -> Result<Option<Row>, AllocError>
    ensures { IfOk result (λ copy. copy ≡ option_copied row.entry) }
{
    match row {
        Some(row) => Ok(Some(row.copy()?)),
        None => Ok(None),
    }
}
