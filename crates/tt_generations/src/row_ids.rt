ghost use Rattle.std.specs.Prelude.{◌≡◌, IsTrue, IfOk};
ghost use Rattle.std.specs.List.{list_all, zip};
ghost use Rattle.tt_generations.specs.RowIds.{is_same_row};

use std::alloc::AllocError;
use std::marker::Model;
use tt_values::{Few, Items, RowId};

/// One row in no memory, or any number in memory that owners share.
#[derive(Drop)]
enum OneOrMany {
    One([RowId; 1]),
    Many(Items<RowId>),
}

/// An immutable list of rows, mostly of one. Its owners share several rows, and each has a copy of
/// a single one. Contracts see its rows.
#[derive(Drop)]
pub(crate) struct RowIds {
    rows: OneOrMany,
}

impl Model for RowIds {
    ghost use Rattle.std.specs.Prelude.{List};
    ghost use Rattle.tt_values.specs.declared.row_id.RowId.{RowId};
    ghost use Rattle.tt_generations.specs.RowIds.{row_ids_view};

    ghost Value = { List RowId };

    ghost view = { λ s. row_ids_view s.rows };
}

impl RowIds {
    pub(crate) fn of(rows: Few<RowId>) -> Result<RowIds, AllocError>
        ensures { IfOk result (λ ids. ids ≡ rows) }
    {
        let rows = match rows.into_one() {
            Ok(row) => OneOrMany::One([row]),
            Err(rows) => OneOrMany::Many(Items::new(*rows.allocator(), rows)?),
        };
        Ok(RowIds { rows })
    }

    pub(crate) fn as_slice(&self) -> &[RowId]
        ensures { result.now ≡ self.now }
    {
        match &self.rows {
            OneOrMany::One(row) => &row[..],
            OneOrMany::Many(rows) => rows.as_slice(),
        }
    }

    /// An equal list.
    #[inline(always)]
    pub(crate) fn copy(&self) -> Result<RowIds, AllocError>
        ensures { IfOk result (λ ids. ids ≡ self.now) }
    {
        let rows = match &self.rows {
            OneOrMany::One(row) => OneOrMany::One(*row),
            OneOrMany::Many(rows) => OneOrMany::Many(rows.clone()?),
        };
        Ok(RowIds { rows })
    }
}

/// Whether two lists of rows are the same.
pub(crate) fn are_same(first: &[RowId], second: &[RowId]) -> bool
    ensures { IsTrue result → first.now ≡ second.now }
{
    first.len() == second.len() && are_same_pairwise(first, second)
}

fn are_same_pairwise(first: &[RowId], second: &[RowId]) -> bool
    ensures { result ≡ list_all (λ p. is_same_row p.0 p.1) (zip first.now second.now) }
{
    first.iter().zip(second).all(|(one, other)| one.table == other.table && one.key == other.key)
}
