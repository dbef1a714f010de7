ghost use Rattle.std.specs.Prelude.{◌≡◌, true, false, IfOk, OnOk};
ghost use Rattle.std.specs.List.{All};
ghost use Rattle.std.specs.Option.{option_copied, unwrap_or};

mod differences;
mod page;
mod persistent;

use crate::indexed_column::IndexedColumn;
use crate::key_range::KeyRange;
use crate::keys::Keys;
use crate::lineage::Lineage;
use crate::lineages::Lineages;
use crate::side::Side;
pub use differences::RowDifference;
use std::alloc::{AllocError, Global};
use std::marker::Model;
use tt_values::{Equal, Few, Row, matches};

/// A table of multi-version rows, with a current and a next side. Contracts see the lineages of its
/// rows by key, and speak of them by `side_of` and `is_split`.
///
/// Tables share what they have in common. A call on `&mut self` changes in place what no other
/// table shares, and copies the rest; a call on `&self` leaves this table as it is, and changes
/// another owner of the same rows. The only error is that there is no memory.
#[derive(Debug)]
pub struct Table {
    alloc: Global,
    lineages: Lineages,
}

// Written out, so that each place that lets one go calls one function.
impl Drop for Table {
    fn drop(self) {
        let Table {
            alloc: _,
            lineages: _,
        } = self;
    }
}

impl Model for Table {
    ghost use Rattle.tt_versions.specs.Sides.{LineagesByKey};

    ghost Value = { LineagesByKey };

    ghost view = { λ t. t.lineages };
}

impl Table {
    ghost use Rattle.tt_versions.specs.Lineage.{unwritten};
    ghost use Rattle.tt_versions.specs.Sides.{no_lineages, lineage_at, side_of, current_of, next_of, is_split, all_written_from, whole_among, rolled_back_from, just_before, no_rows, none_split, with_key, rows_behind, ListsRows};
    ghost use Rattle.tt_versions.specs.Matching.{if_matching, ListsMatches, ListsMatchingRows};
    ghost use Rattle.tt_versions.specs.Keys.{all_of};
    ghost use Rattle.tt_versions.specs.Index.{HaveKey, HaveKeysIn};
    ghost use Rattle.tt_versions.specs.KeyRange.{HaveKeysWithin};
    ghost use Rattle.tt_versions.specs.RowsByWrites.{AddsRowWritesOf, DropsRowWrites, ListsContent};

    /// A table without rows. Takes no memory; what the other calls take comes from this allocator.
    #[tactic(auto, using(crate::proofs::LawProofs::empty_table))]
    pub fn new(alloc: Global) -> Table
        ensures lineages { result ≡ no_lineages }
        ensures empty { (side : Side) → side_of result side ≡ no_rows }
        ensures split { is_split result ≡ none_split }
    {
        Table {
            alloc,
            lineages: Lineages::new(alloc, Vec::new(alloc)),
        }
    }

    /// A table without rows, whose rows can be found by their values in these columns. No other
    /// call's result depends on the columns.
    pub fn with_columns(alloc: Global, columns: &[u16]) -> Result<Table, AllocError>
        ensures { IfOk result (λ t. t ≡ no_lineages) }
    {
        let mut indexed = Vec::with_capacity(alloc, columns.len())?;
        for column in columns {
            indexed.push(IndexedColumn::new(alloc, *column))?;
        }
        Ok(Table {
            alloc,
            lineages: Lineages::new(alloc, indexed),
        })
    }

    /// The row with the key as of the time, on that side. Takes no memory.
    #[tactic(auto, using(crate::proofs::SidesLemmas::reads), unfolding(crate::specs::Sides::side_of))]
    pub fn at(&self, key: i64, time: u64, side: Side) -> Option<&Row>
        ensures { option_copied result ≡ side_of self.now side key time }
    {
        let lineage = self.lineage_of(key)?;
        lineage.at(time, side)
    }

    /// The row with the key just before the time and at it, on that side. Takes no memory.
    #[tactic(auto, using(crate::proofs::SidesLemmas::reads), unfolding(crate::specs::Sides::side_of))]
    pub fn around(&self, key: i64, time: u64, side: Side) -> (Option<&Row>, Option<&Row>)
        ensures before { option_copied result.0 ≡ just_before time (side_of self.now side key) }
        ensures at { option_copied result.1 ≡ side_of self.now side key time }
    {
        match self.lineage_of(key) {
            Some(lineage) => (lineage.before(time, side), lineage.at(time, side)),
            None => (None, None),
        }
    }

    /// Whether the row with the key has a next side of its own. Takes no memory.
    #[tactic(auto, using(crate::proofs::SidesLemmas::reads), unfolding(crate::specs::Sides::is_split))]
    pub fn is_split(&self, key: i64) -> bool
        ensures split { result ≡ is_split self.now key }
        ensures shared { result ≡ false → next_of self.now key ≡ current_of self.now key }
    {
        match self.lineage_of(key) {
            Some(lineage) => lineage.is_split(),
            None => false,
        }
    }

    /// The rows of that side as of the time, each with its key, by rising key.
    #[tactic(auto, using(crate::proofs::RowsAtLemmas::lists_rows))]
    pub fn rows_at(&self, time: u64, side: Side) -> Result<Vec<(i64, &Row)>, AllocError>
        ensures lists { IfOk result (λ rows.
            ListsRows (rows_behind rows.items) (side_of self.now side) time) }
        ensures content { IfOk result (λ rows.
            ListsContent (rows_behind rows.items) (side_of self.now side) time) }
    {
        let mut rows = Vec::new(self.alloc);
        for (key, lineage) in self.lineages.iter() {
            if let Some(row) = lineage.at(time, side) {
                rows.push((*key, row))?;
            }
        }
        Ok(rows)
    }

    /// The rows of that side as of the time that match all conditions, each with its key, by rising
    /// key. An equality on the first column, or on a column that the table was created with, spares
    /// it from reading the other rows. Where the first values are the keys, comparisons of them by
    /// order leave it a range of keys to read.
    pub fn rows_matching(
        &self,
        equals: &[Equal],
        time: u64,
        side: Side,
    ) -> Result<Vec<(i64, &Row)>, AllocError>
        ensures lists { IfOk result (λ rows.
            ListsMatches (rows_behind rows.items) equals.now (side_of self.now side) time) }
        ensures content { IfOk result (λ rows.
            ListsMatchingRows (rows_behind rows.items) equals.now (side_of self.now side) time) }
    {
        let rows = self.search(equals, time, side)?;
        Ok(rows)
    }

    fn search(
        &self,
        equals: &[Equal],
        time: u64,
        side: Side,
    ) -> Result<Vec<(i64, &Row)>, AllocError>
        ensures { IfOk result (λ rows.
            ListsMatches (rows_behind rows.items) equals.now (side_of self.now side) time) }
    {
        if let Some(key) = self.lineages.key_for(equals) {
            return self.row_with_key(key, equals, time, side);
        }
        match self.lineages.keys_for(equals, time, side) {
            // Where most rows are listed, reading all in order is faster than looking them up.
            Some(keys) if keys.len() < self.lineages.len() / 2 => {
                self.rows_among(keys, equals, time, side)
            }
            _ => self.rows_within(self.lineages.range_for(equals), equals, time, side),
        }
    }

    /// The row with the key, if it's there and matches.
    fn row_with_key(
        &self,
        key: i64,
        equals: &[Equal],
        time: u64,
        side: Side,
    ) -> Result<Vec<(i64, &Row)>, AllocError>
        requires { HaveKey self.now key equals.now }
        ensures { IfOk result (λ rows.
            ListsMatches (rows_behind rows.items) equals.now (side_of self.now side) time) }
    {
        let mut rows = Vec::new(self.alloc);
        if let Some(row) = self.matching(key, equals, time, side) {
            rows.push((key, row))?;
        }
        Ok(rows)
    }

    /// The rows that match, of those with these keys.
    fn rows_among(
        &self,
        keys: Keys<'_>,
        equals: &[Equal],
        time: u64,
        side: Side,
    ) -> Result<Vec<(i64, &Row)>, AllocError>
        requires { HaveKeysIn self.now side time (all_of keys) equals.now }
        ensures { IfOk result (λ rows.
            ListsMatches (rows_behind rows.items) equals.now (side_of self.now side) time) }
    {
        let mut rows = Vec::with_capacity(self.alloc, keys.len())?;
        let mut left = keys.iter_after(None);
        while let Some(key) = left.next() {
            if let Some(row) = self.matching(key, equals, time, side) {
                rows.push((key, row))?;
            }
        }
        Ok(rows)
    }

    /// The rows that match, of those with keys in this range. Reads no other rows.
    fn rows_within(
        &self,
        range: KeyRange,
        equals: &[Equal],
        time: u64,
        side: Side,
    ) -> Result<Vec<(i64, &Row)>, AllocError>
        requires { HaveKeysWithin self.now range equals.now }
        ensures { IfOk result (λ rows.
            ListsMatches (rows_behind rows.items) equals.now (side_of self.now side) time) }
    {
        let mut rows = Vec::new(self.alloc);
        for (key, lineage) in self.lineages.iter_after(range.after) {
            if !range.is_before(*key) {
                return Ok(rows);
            }
            if let Some(row) = lineage.matching(equals, time, side) {
                rows.push((*key, row))?;
            }
        }
        Ok(rows)
    }

    /// The row with the key, if it's there and matches.
    fn matching(&self, key: i64, equals: &[Equal], time: u64, side: Side) -> Option<&Row>
        ensures { option_copied result ≡ if_matching equals.now (side_of self.now side key time) }
    {
        let row = self.at(key, time, side)?;
        if matches(equals, row) {
            Some(row)
        } else {
            None
        }
    }

    /// Another owner of the same rows. Copies none of them.
    pub fn share(&self) -> Result<Table, AllocError>
        ensures { IfOk result (λ t. t ≡ self.now) }
    {
        let lineages = self.lineages.share()?;
        Ok(Table {
            alloc: self.alloc,
            lineages,
        })
    }

    /// Gives each of these keys its row, or none, from the time on, in place: as by one
    /// [`written`](Table::written) after another. Without memory nothing is promised of the rows.
    #[tactic(auto, using(crate::proofs::SidesLemmas::writes_all))]
    pub fn write_all(&mut self, rows: Few<(i64, Option<Row>)>, time: u64) -> Result<(), AllocError>
        ensures current { OnOk result
            (current_of self.new ≡ all_written_from rows time (current_of self.old)) }
        ensures next { OnOk result (next_of self.new
            ≡ all_written_from (whole_among (is_split self.old) rows) time (next_of self.old)) }
        ensures split { OnOk result (is_split self.new ≡ is_split self.old) }
        ensures current_adds { OnOk result
            (AddsRowWritesOf (current_of self.old) (current_of self.new) rows time) }
        ensures next_adds { OnOk result (AddsRowWritesOf (next_of self.old) (next_of self.new)
            (whole_among (is_split self.old) rows) time) }
    {
        self.lineages.write(Side::Current, rows, time)?;
        Ok(())
    }

    /// Splits a row, and rolls its next side back to before the time, in place: as
    /// [`split_back`](Table::split_back). Without memory nothing is promised of the rows.
    #[tactic(auto, using(crate::proofs::SidesLemmas::splits_back))]
    pub fn split_row_back(&mut self, key: i64, time: u64) -> Result<(), AllocError>
        ensures current { OnOk result (current_of self.new ≡ current_of self.old) }
        ensures next { OnOk result
            (next_of self.new ≡ rolled_back_from key time (next_of self.old)) }
        ensures split { OnOk result (is_split self.new ≡ with_key key (is_split self.old)) }
        ensures next_drops { OnOk result
            (DropsRowWrites (next_of self.old) (next_of self.new) key time) }
    {
        self.lineages.split_back(key, time)?;
        Ok(())
    }

    /// Gives each of these keys, whose rows are split, its row, or none, from the time on, only on
    /// the next side, in place: as by one [`next_written`](Table::next_written) after another.
    /// Without memory nothing is promised of the rows.
    #[tactic(auto, using(crate::proofs::SidesLemmas::writes_all_next))]
    pub fn write_all_next(
        &mut self,
        rows: Few<(i64, Option<Row>)>,
        time: u64,
    ) -> Result<(), AllocError>
        requires { All (λ e. is_split self.old e.0 ≡ true) rows }
        ensures current { OnOk result (current_of self.new ≡ current_of self.old) }
        ensures next { OnOk result
            (next_of self.new ≡ all_written_from rows time (next_of self.old)) }
        ensures split { OnOk result (is_split self.new ≡ is_split self.old) }
        ensures next_adds { OnOk result
            (AddsRowWritesOf (next_of self.old) (next_of self.new) rows time) }
    {
        self.lineages.write(Side::Next, rows, time)?;
        Ok(())
    }

    /// Makes the next side the current one, in place: as [`switched`](Table::switched). Without
    /// memory nothing is promised of the rows.
    pub fn switch(&mut self) -> Result<(), AllocError>
        ensures current { OnOk result (current_of self.new ≡ next_of self.old) }
        ensures next { OnOk result (next_of self.new ≡ next_of self.old) }
        ensures split { OnOk result (is_split self.new ≡ none_split) }
    {
        self.unsplit(Side::Next)
    }

    /// Gives up the next side for the current one, in place: as [`aborted`](Table::aborted).
    /// Without memory nothing is promised of the rows.
    pub fn abort(&mut self) -> Result<(), AllocError>
        ensures current { OnOk result (current_of self.new ≡ current_of self.old) }
        ensures next { OnOk result (next_of self.new ≡ current_of self.old) }
        ensures split { OnOk result (is_split self.new ≡ none_split) }
    {
        self.unsplit(Side::Current)
    }

    /// Both sides show what this one shows, and no row is split.
    #[tactic(auto, using(crate::proofs::UnsplitLemmas::unsplit_sides))]
    fn unsplit(&mut self, side: Side) -> Result<(), AllocError>
        ensures current { OnOk result (current_of self.new ≡ side_of self.old side) }
        ensures next { OnOk result (next_of self.new ≡ side_of self.old side) }
        ensures split { OnOk result (is_split self.new ≡ none_split) }
    {
        self.lineages.unsplit(side)?;
        Ok(())
    }

    /// The lineage of the row with the key, if it was ever written.
    fn lineage_of(&self, key: i64) -> Option<&Lineage>
        ensures { unwrap_or (option_copied result) unwritten ≡ lineage_at self.now key }
    {
        self.lineages.get(key)
    }
}
