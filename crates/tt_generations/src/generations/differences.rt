//! The rows that differ between the generations.
ghost use Rattle.std.specs.Prelude.{◌≡◌, map, take, length, nat_lt, IfOk};
ghost use Rattle.tt_generations.specs.RowChanges.{change_told, differences_in, changes_after};

use super::Generations;
use crate::row_change::{FirstChanges, RowChange, changes_of};
use std::alloc::AllocError;
use tt_values::Items;

impl Generations {
    /// The rows of a table that differ between the generations at the last slot that the repair has
    /// done, by rising key. None where no repair is under way. Looks at split rows alone.
    pub fn differences(&self, table: u16) -> Result<Items<RowChange>, AllocError>
        ensures { IfOk result (λ changes. map change_told changes
            ≡ differences_in self.now.phase self.now.slots table) }
    {
        let changes = self.first_differences(table, None, usize::MAX)?;
        let changes = Items::new(self.state.alloc, changes)?;
        Ok(changes)
    }

    /// Of the rows that [`differences`](Generations::differences) tells, those with greater keys
    /// than `after`, if that is given: the first `most` of them, and whether more follow.
    pub fn differences_page(
        &self,
        table: u16,
        after: Option<i64>,
        most: u32,
    ) -> Result<FirstChanges, AllocError>
        ensures changes { IfOk result (λ first. map change_told first.changes ≡ take most
            (changes_after after (differences_in self.now.phase self.now.slots table))) }
        ensures more { IfOk result (λ first. first.more ≡ nat_lt most (length
            (changes_after after (differences_in self.now.phase self.now.slots table)))) }
    {
        let most = most as usize;
        let mut changes = self.first_differences(table, after, most + 1)?;
        let more = changes.len() > most;
        changes.truncate(most);
        let changes = Items::new(self.state.alloc, changes)?;
        Ok(FirstChanges { changes, more })
    }

    /// Of the rows that differ, the first `most` with greater keys than `after`, if that is given.
    fn first_differences(
        &self,
        table: u16,
        after: Option<i64>,
        most: usize,
    ) -> Result<Vec<RowChange>, AllocError>
        ensures { IfOk result (λ changes. map change_told changes.items ≡ take most
            (changes_after after (differences_in self.now.phase self.now.slots table))) }
    {
        if !self.is_repairing() {
            return Ok(Vec::new(self.state.alloc));
        }
        let found = self.table(table).differences(self.done(), after, most)?;
        let changes = changes_of(self.state.alloc, &found)?;
        Ok(changes)
    }
}
