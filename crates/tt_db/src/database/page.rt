//! One page of the rows of a select or a preview.
ghost use Rattle.std.specs.Prelude.{◌≡◌, IfOk};
ghost use Rattle.tt_db.specs.Database.{right_answer_in, right_preview_of, preview_for};
ghost use Rattle.tt_db.specs.Pages.{first_rows, rows_in, AnswersPage};
ghost use Rattle.tt_db.specs.RightAnswers.{HaveRisingKeys};

use super::Db;
use crate::errors::ReadError;
use std::alloc::AllocError;
use tt_generations::FirstRows;
use tt_values::{Select, check_select};

impl Db {
    /// Of the rows that [`select_in`](Db::select_in) returns, those with greater keys than `after`,
    /// if that is given: the first `most` of them, and whether more follow. Refuses what that
    /// refuses. Reads none of the rows before them, and none behind the first that follows.
    pub fn page_in(
        &self,
        generation: u64,
        select: &Select,
        time: u64,
        after: Option<i64>,
        most: usize,
    ) -> Result<FirstRows, ReadError>
        ensures right { AnswersPage after most
            (right_answer_in self.now generation select.now time) result }
        ensures keyed { IfOk result (λ page. HaveRisingKeys page.rows) }
    {
        if let Err(fault) = check_select(self.catalog(), select) {
            return Err(ReadError::Statement(fault));
        }
        let Some(generations) = self.generations_of(generation) else {
            return Err(ReadError::NoGeneration {
                oldest: self.oldest(),
                newest: self.parts.generation,
            });
        };
        let now = generations.len();
        if time > now {
            return Err(ReadError::Later { now });
        }
        match generations.page_at(select, time, after, most) {
            Ok(page) => Ok(page),
            Err(AllocError) => Err(ReadError::Memory),
        }
    }

    /// Of the rows that [`preview`](Db::preview) returns, those with greater keys than `after`, if
    /// that is given: the first `most` of them, and whether more follow. Refuses what that refuses.
    /// Reads none of the rows before them, and none behind the first that follows.
    pub fn preview_page(
        &self,
        select: &Select,
        after: Option<i64>,
        most: usize,
    ) -> Result<FirstRows, ReadError>
        ensures right { AnswersPage after most (right_preview_of self.now select.now) result }
        ensures keyed { IfOk result (λ page. HaveRisingKeys page.rows) }
    {
        if let Err(fault) = check_select(self.catalog(), select) {
            return Err(ReadError::Statement(fault));
        }
        if !self.parts.generations.is_repairing() {
            return Err(ReadError::NotRepairing);
        }
        match self.next_page(select, after, most) {
            Ok(page) => Ok(page),
            Err(AllocError) => Err(ReadError::Memory),
        }
    }

    /// A page of the rows of a select in the next generation, at the last slot that the repair has
    /// done.
    fn next_page(
        &self,
        select: &Select,
        after: Option<i64>,
        most: usize,
    ) -> Result<FirstRows, AllocError>
        ensures right { IfOk result (λ page.
            page ≡ first_rows after most (rows_in (preview_for self.now select.now))) }
        ensures keyed { IfOk result (λ page. HaveRisingKeys page.rows) }
    {
        let page = self.parts.generations.preview_page(select, after, most)?;
        Ok(page)
    }
}
