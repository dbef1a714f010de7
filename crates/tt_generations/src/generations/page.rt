//! One page of the rows that a select has.
ghost use Rattle.std.specs.Prelude.{◌≡◌, IfOk};
ghost use Rattle.tt_values.specs.RowWrites.{content_of};
ghost use Rattle.tt_generations.specs.TwoGenerations.{next_content_of, rows_on};
ghost use Rattle.tt_generations.specs.Pages.{page_of_select, IsPageOn};

use super::Generations;
use crate::effect::copies_of;
use crate::first_rows::FirstRows;
use std::alloc::AllocError;
use tt_values::{Items, Select};
use tt_versions::Side;

impl Generations {
    /// Of the rows that a select has at a time, in the current generation, those with greater keys
    /// than `after`, if that is given: the first `most` of them, and whether more follow.
    pub fn page_at(
        &self,
        select: &Select,
        time: u64,
        after: Option<i64>,
        most: usize,
    ) -> Result<FirstRows, AllocError>
        ensures { IfOk result (λ p.
            p ≡ page_of_select select.now after most (content_of self.now.slots time)) }
    {
        let page = self.page_on(select, time, Side::Current, after, most)?;
        Ok(page)
    }

    /// As [`page_at`](Generations::page_at), in the next generation, at the last slot that the
    /// repair has done. Where no repair is under way, that is the current one before its first
    /// slot.
    pub fn preview_page(
        &self,
        select: &Select,
        after: Option<i64>,
        most: usize,
    ) -> Result<FirstRows, AllocError>
        ensures { IfOk result (λ p.
            p ≡ page_of_select select.now after most (next_content_of self.now)) }
    {
        let page = self.page_on(select, self.done(), Side::Next, after, most)?;
        Ok(page)
    }

    /// A page of the rows that a select has on a side at a time.
    fn page_on(
        &self,
        select: &Select,
        time: u64,
        side: Side,
        after: Option<i64>,
        most: usize,
    ) -> Result<FirstRows, AllocError>
        ensures { IfOk result (λ p. IsPageOn p select.now after most
            (rows_on side self.now select.now.table) time) }
    {
        let table = self.table(select.table);
        let (found, more) = table.page_matching(select.equals.as_slice(), time, side, after, most)?;
        let rows = copies_of(self.state.alloc, &found)?;
        let rows = Items::new(self.state.alloc, rows)?;
        Ok(FirstRows { rows, more })
    }
}
