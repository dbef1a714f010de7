//! One page of the rows of a table that match.
ghost use Rattle.std.specs.Prelude.{◌≡◌, IfOk};
ghost use Rattle.tt_versions.specs.Sides.{side_of, rows_behind};
ghost use Rattle.tt_versions.specs.Keys.{all_of};
ghost use Rattle.tt_versions.specs.Index.{HaveKey, HaveKeysIn};
ghost use Rattle.tt_versions.specs.KeyRange.{HaveKeysWithin};
ghost use Rattle.tt_versions.specs.Pages.{ListsPage, ListsMatchingPage};

use super::Table;
use crate::key_range::KeyRange;
use crate::keys::Keys;
use crate::side::Side;
use crate::walk::is_after;
use std::alloc::AllocError;
use tt_values::{Equal, Row};

/// Which of the rows that match make up a page: see [`page_matching`](Table::page_matching).
#[derive(Drop)]
struct PageQuery<'a> {
    equals: &'a [Equal],
    time: u64,
    side: Side,
    after: Option<i64>,
    most: usize,
}

impl Table {
    ghost use Rattle.tt_versions.specs.Pages.{ListsPageOf};

    /// Of the rows that [`rows_matching`](Table::rows_matching) lists, those with greater keys than
    /// `after`, if that is given: the first `most` of them, and whether more follow. Reads none of
    /// the rows before them, and none behind the first that follows.
    pub fn page_matching(
        &self,
        equals: &[Equal],
        time: u64,
        side: Side,
        after: Option<i64>,
        most: usize,
    ) -> Result<(Vec<(i64, &Row)>, bool), AllocError>
        ensures lists { IfOk result (λ p. ListsPage (rows_behind p.0.items) p.1 after most
            equals.now (side_of self.now side) time) }
        ensures content { IfOk result (λ p. ListsMatchingPage (rows_behind p.0.items) p.1
            after most equals.now (side_of self.now side) time) }
    {
        let query = PageQuery {
            equals,
            time,
            side,
            after,
            most,
        };
        let page = self.search_page(&query)?;
        Ok(page)
    }

    fn search_page(&self, query: &PageQuery<'_>) -> Result<(Vec<(i64, &Row)>, bool), AllocError>
        ensures { IfOk result (λ p. ListsPageOf query.now self.now (rows_behind p.0.items) p.1) }
    {
        if let Some(key) = self.lineages.key_for(query.equals) {
            return self.page_with_key(key, query);
        }
        match self.lineages.keys_for(query.equals, query.time, query.side) {
            // Where most rows are listed, reading all in order is faster than looking them up.
            Some(keys) if keys.len() < self.lineages.len() / 2 => self.page_among(keys, query),
            _ => self.page_within(self.lineages.range_for(query.equals), query),
        }
    }

    /// The page, where each row that matches has this key.
    fn page_with_key(
        &self,
        key: i64,
        query: &PageQuery<'_>,
    ) -> Result<(Vec<(i64, &Row)>, bool), AllocError>
        requires { HaveKey self.now key query.now.equals.now }
        ensures { IfOk result (λ p. ListsPageOf query.now self.now (rows_behind p.0.items) p.1) }
    {
        let mut rows = Vec::new(self.alloc);
        if !is_after(query.after, key) {
            return Ok((rows, false));
        }
        let Some(row) = self.matching(key, query.equals, query.time, query.side) else {
            return Ok((rows, false));
        };
        if query.most == 0 {
            return Ok((rows, true));
        }
        rows.push((key, row))?;
        Ok((rows, false))
    }

    /// The page, where each row that matches has one of these keys.
    fn page_among(
        &self,
        keys: Keys<'_>,
        query: &PageQuery<'_>,
    ) -> Result<(Vec<(i64, &Row)>, bool), AllocError>
        requires { HaveKeysIn self.now query.now.side query.now.time
            (all_of keys) query.now.equals.now }
        ensures { IfOk result (λ p. ListsPageOf query.now self.now (rows_behind p.0.items) p.1) }
    {
        let mut rows = Vec::new(self.alloc);
        let mut left = keys.iter_after(query.after);
        while let Some(key) = left.next() {
            if let Some(row) = self.matching(key, query.equals, query.time, query.side) {
                if rows.len() == query.most {
                    return Ok((rows, true));
                }
                rows.push((key, row))?;
            }
        }
        Ok((rows, false))
    }

    /// The page, where each row that matches has a key in this range. Reads none of the other rows.
    fn page_within(
        &self,
        range: KeyRange,
        query: &PageQuery<'_>,
    ) -> Result<(Vec<(i64, &Row)>, bool), AllocError>
        requires { HaveKeysWithin self.now range query.now.equals.now }
        ensures { IfOk result (λ p. ListsPageOf query.now self.now (rows_behind p.0.items) p.1) }
    {
        let mut rows = Vec::new(self.alloc);
        let ahead = range.starting_after(query.after);
        for (key, lineage) in self.lineages.iter_after(ahead.after) {
            if !ahead.is_before(*key) {
                return Ok((rows, false));
            }
            if let Some(row) = lineage.matching(query.equals, query.time, query.side) {
                if rows.len() == query.most {
                    return Ok((rows, true));
                }
                rows.push((*key, row))?;
            }
        }
        Ok((rows, false))
    }
}
