// The changes of a table that return a changed table and leave this one as it was. They are part of
// the public surface, and nothing in the libraries above calls them.
ghost use Rattle.std.specs.Prelude.{◌≡◌, [], ◌∷◌, false, IsTrue, IfOk, if◌then◌else◌};

use super::Table;
use std::alloc::{AllocError, Global};
use tt_values::{Few, Row};

impl Table {
    ghost use Rattle.tt_versions.specs.Sides.{current_of, next_of, is_split, written_from, rolled_back_from, none_split, with_key};
    ghost use Rattle.tt_versions.specs.RowsByWrites.{AddsRowWrite, DropsRowWrites};

    /// The key has that row, or none, from the time on: on both sides, or only on the current one
    /// where the row is split.
    pub fn written(&self, key: i64, row: Option<Row>, time: u64) -> Result<Table, AllocError>
        ensures current { IfOk result (λ t.
            current_of t ≡ written_from key row time (current_of self.now)) }
        ensures next { IfOk result (λ t. next_of t ≡ (if is_split self.now key
            then next_of self.now else written_from key row time (next_of self.now))) }
        ensures split { IfOk result (λ t. is_split t ≡ is_split self.now) }
        ensures current_adds { IfOk result (λ t.
            AddsRowWrite (current_of self.now) (current_of t) key row time) }
        ensures next_adds { IfOk result (λ t. is_split self.now key ≡ false
            → AddsRowWrite (next_of self.now) (next_of t) key row time) }
    {
        let rows = only_row(self.alloc, key, row)?;
        let mut table = self.share()?;
        table.write_all(rows, time)?;
        Ok(table)
    }

    /// The row is split, and its next side is rolled back: from the time on it is what it was just
    /// before. The current side stays.
    pub fn split_back(&self, key: i64, time: u64) -> Result<Table, AllocError>
        ensures current { IfOk result (λ t. current_of t ≡ current_of self.now) }
        ensures next { IfOk result
            (λ t. next_of t ≡ rolled_back_from key time (next_of self.now)) }
        ensures split { IfOk result (λ t. is_split t ≡ with_key key (is_split self.now)) }
        ensures next_drops { IfOk result (λ t.
            DropsRowWrites (next_of self.now) (next_of t) key time) }
    {
        let mut table = self.share()?;
        table.split_row_back(key, time)?;
        Ok(table)
    }

    /// The key has that row, or none, from the time on, only on the next side.
    pub fn next_written(&self, key: i64, row: Option<Row>, time: u64) -> Result<Table, AllocError>
        requires { IsTrue (is_split self.now key) }
        ensures current { IfOk result (λ t. current_of t ≡ current_of self.now) }
        ensures next { IfOk result
            (λ t. next_of t ≡ written_from key row time (next_of self.now)) }
        ensures split { IfOk result (λ t. is_split t ≡ is_split self.now) }
        ensures next_adds { IfOk result (λ t.
            AddsRowWrite (next_of self.now) (next_of t) key row time) }
    {
        let rows = only_row(self.alloc, key, row)?;
        let mut table = self.share()?;
        table.write_all_next(rows, time)?;
        Ok(table)
    }

    /// The next side becomes the current one, and no row is split. Takes time for the split rows
    /// alone.
    pub fn switched(&self) -> Result<Table, AllocError>
        ensures current { IfOk result (λ t. current_of t ≡ next_of self.now) }
        ensures next { IfOk result (λ t. next_of t ≡ next_of self.now) }
        ensures split { IfOk result (λ t. is_split t ≡ none_split) }
    {
        let mut table = self.share()?;
        table.switch()?;
        Ok(table)
    }

    /// The next side is given up for the current one, and no row is split. Takes time for the split
    /// rows alone.
    pub fn aborted(&self) -> Result<Table, AllocError>
        ensures current { IfOk result (λ t. current_of t ≡ current_of self.now) }
        ensures next { IfOk result (λ t. next_of t ≡ current_of self.now) }
        ensures split { IfOk result (λ t. is_split t ≡ none_split) }
    {
        let mut table = self.share()?;
        table.abort()?;
        Ok(table)
    }
}

fn only_row(
    alloc: Global,
    key: i64,
    row: Option<Row>,
) -> Result<Few<(i64, Option<Row>)>, AllocError>
    ensures { IfOk result (λ rows. rows ≡ (key, row) ∷ []) }
{
    let mut rows = Few::new(alloc);
    rows.push((key, row))?;
    Ok(rows)
}
