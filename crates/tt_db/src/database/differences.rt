//! The rows that differ between two generations.
ghost use Rattle.std.specs.Prelude.{◌≡◌, ◌<◌, length, nat_lt, find, option_map, ◌==◌};
ghost use Rattle.std.specs.Option.{option_copied};
ghost use Rattle.tt_db.specs.ClosedGenerations.{before_switch};
ghost use Rattle.tt_db.specs.Database.{state_of};
ghost use Rattle.tt_db.specs.Differences.{no_generation_in, right_diff, right_diff_in, TellsDiff, TellsDiffPage};

use super::Db;
use crate::closed::closed_of;
use crate::errors::ReadError;
use std::alloc::AllocError;
use tt_generations::{FirstChanges, Generations, RowChange};
use tt_values::{CheckError, Items};

impl Db {
    /// The rows of a table that differ between the current generation and the next one, by rising
    /// key, at the last slot that the repair has done. Looks at the rows alone that the repair has
    /// made dirty. Refused, in this order, as `Statement(NoTable)`, `NotRepairing` and `Memory`.
    pub fn diff(&self, table: u16) -> Result<Items<RowChange>, ReadError>
        ensures { TellsDiff (right_diff self.now table) result }
    {
        if !self.has_table(table) {
            return Err(ReadError::Statement(CheckError::NoTable));
        }
        if !self.is_repairing() {
            return Err(ReadError::NotRepairing);
        }
        match self.parts.generations.differences(table) {
            Ok(changes) => Ok(changes),
            Err(AllocError) => Err(ReadError::Memory),
        }
    }

    /// As [`diff`](Db::diff), of the repair that closed a generation, at its last slot. Refused as
    /// `NoGeneration` in place of `NotRepairing`, where the generation isn't kept or is the current
    /// one.
    pub fn diff_in(&self, generation: u64, table: u16) -> Result<Items<RowChange>, ReadError>
        ensures { TellsDiff (right_diff_in self.now generation table) result }
    {
        if !self.has_table(table) {
            return Err(ReadError::Statement(CheckError::NoTable));
        }
        let Some(closed) = self.closed_generation(generation) else {
            return Err(self.no_generation());
        };
        match closed.differences(table) {
            Ok(changes) => Ok(changes),
            Err(AllocError) => Err(ReadError::Memory),
        }
    }

    /// Of the rows that [`diff`](Db::diff) returns, those with greater keys than `after`, if that
    /// is given: the first `most` of them, and whether more follow. Refuses what that refuses.
    pub fn diff_page(
        &self,
        table: u16,
        after: Option<i64>,
        most: u32,
    ) -> Result<FirstChanges, ReadError>
        ensures { TellsDiffPage after most (right_diff self.now table) result }
    {
        if !self.has_table(table) {
            return Err(ReadError::Statement(CheckError::NoTable));
        }
        if !self.is_repairing() {
            return Err(ReadError::NotRepairing);
        }
        match self.parts.generations.differences_page(table, after, most) {
            Ok(page) => Ok(page),
            Err(AllocError) => Err(ReadError::Memory),
        }
    }

    /// Of the rows that [`diff_in`](Db::diff_in) returns, those with greater keys than `after`, if
    /// that is given: the first `most` of them, and whether more follow. Refuses what that refuses.
    pub fn diff_page_in(
        &self,
        generation: u64,
        table: u16,
        after: Option<i64>,
        most: u32,
    ) -> Result<FirstChanges, ReadError>
        ensures { TellsDiffPage after most (right_diff_in self.now generation table) result }
    {
        if !self.has_table(table) {
            return Err(ReadError::Statement(CheckError::NoTable));
        }
        let Some(closed) = self.closed_generation(generation) else {
            return Err(self.no_generation());
        };
        match closed.differences_page(table, after, most) {
            Ok(page) => Ok(page),
            Err(AllocError) => Err(ReadError::Memory),
        }
    }

    /// Whether there is a table at the position.
    fn has_table(&self, table: u16) -> bool
        ensures { result ≡ nat_lt table (length self.now.catalog) }
    {
        usize::from(table) < self.catalog().len()
    }

    /// A closed generation that is kept, as the current one of two.
    fn closed_generation(&self, number: u64) -> Option<&Generations>
        ensures { option_copied result ≡ option_map (before_switch self.now.catalog)
            (find (λ c. c.number == number) (state_of self.now).closed) }
    {
        closed_of(&self.parts.closed, number)
    }

    /// The refusal of a generation that can't be read.
    fn no_generation(&self) -> ReadError
        ensures { result ≡ no_generation_in self.now }
    {
        ReadError::NoGeneration {
            oldest: self.oldest(),
            newest: self.parts.generation,
        }
    }
}
