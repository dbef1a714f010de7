ghost use Rattle.std.specs.Prelude.{◌≡◌, ◌≤◌, [], None, IsTrue, IfOk, IfSome, OnOk};
ghost use Rattle.std.specs.List.{All};
ghost use Rattle.std.specs.Option.{option_copied};
ghost use Rattle.std.specs.Ordering.{int_cmp};
ghost use Rattle.std.specs.FinMap.Entries.{find, put, is_sorted};
ghost use Rattle.tt_versions.specs.Versions.{last_row};
ghost use Rattle.tt_versions.specs.Lineage.{unwritten, with_write_on, split_back};
ghost use Rattle.tt_versions.specs.Keys.{all_of};
ghost use Rattle.tt_versions.specs.Index.{HasNoKeys, ListsCurrent, MovesUnsplit, StartsBy, IsIndexed, HaveKey, HaveKeysIn};
ghost use Rattle.tt_versions.specs.KeyRange.{HaveKeysWithin};
ghost use Rattle.tt_versions.specs.Pages.{those_after};
ghost use Rattle.tt_versions.specs.Sides.{lineage_at, is_split, with_writes, StaysSplit, HasSplitKeys, MarksKey, UnsplitsRow};

use crate::index::Index;
use crate::indexed_column::{IndexedColumn, KeySet};
use crate::key_range::KeyRange;
use crate::keys::Keys;
use crate::lineage::Lineage;
use crate::listed_write::ListedWrite;
use crate::reach::Reach;
use crate::row_change::RowChange;
use crate::row_write::RowWrite;
use crate::side::Side;
use crate::split_back::SplitBack;
use crate::unsplit::Unsplit;
use crate::walk::iter_after;
use std::alloc::{AllocError, Global};
use std::marker::Model;
use tt_pages::{MapIter, PagedMap};
use tt_values::{Equal, Few, Row};

/// A map from the keys of rows to their lineages, whose copies share their pages. Contracts see its
/// entries by rising key.
#[derive(Debug, Drop)]
pub(crate) struct Lineages {
    indexed: IndexedEntries,
}

/// The entries of a map of lineages, the keys of the split rows, and an index that lists all rows.
/// While a call changes the entries, the keys and the index need not fit them.
#[derive(Debug, Drop)]
struct IndexedEntries {
    alloc: Global,
    entries: PagedMap<Lineage>,
    split_keys: KeySet,
    index: Index,
    /// No version starts after this time.
    latest: u64,
}

impl Model for Lineages {
    ghost use Rattle.tt_versions.specs.Sides.{LineagesByKey};
    ghost use Rattle.tt_versions.specs.IndexedEntries.{IsConsistent};

    ghost Value = { LineagesByKey };

    ghost view = { λ m. m.indexed.entries };

    ghost invariant = { λ m. IsConsistent m.indexed };
}

impl Lineages {
    ghost use Rattle.tt_versions.specs.Sides.{UnsplitsRows};

    /// No lineages, which are to be found by their keys and by their values in these columns.
    pub(crate) fn new(alloc: Global, columns: Vec<IndexedColumn>) -> Lineages
        requires { All HasNoKeys columns.items }
        ensures { result ≡ [] }
    {
        Lineages {
            indexed: IndexedEntries {
                alloc,
                entries: PagedMap::new(alloc),
                split_keys: PagedMap::new(alloc),
                index: Index::new(alloc, columns),
                latest: 0,
            },
        }
    }

    pub(crate) fn get(&self, key: i64) -> Option<&Lineage>
        ensures { option_copied result ≡ find int_cmp key self.now }
    {
        self.indexed.entries.get(key)
    }

    pub(crate) fn len(&self) -> usize {
        self.indexed.entries.len()
    }

    /// The entries, by rising key.
    pub(crate) fn iter(&self) -> MapIter<'_, Lineage>
        ensures all { result ≡ self.now }
        ensures sorted { IsTrue (is_sorted int_cmp self.now) }
    {
        self.indexed.entries.iter()
    }

    /// The entries whose keys are greater than `after`, if that is given, by rising key.
    pub(crate) fn iter_after(&self, after: Option<i64>) -> MapIter<'_, Lineage>
        ensures all { result ≡ those_after after self.now }
        ensures sorted { IsTrue (is_sorted int_cmp self.now) }
    {
        iter_after(&self.indexed.entries, after)
    }

    /// The keys of the split rows.
    pub(crate) fn split_keys(&self) -> &KeySet
        ensures { HasSplitKeys result.now self.now }
    {
        &self.indexed.split_keys
    }

    /// Another owner of the same pages.
    pub(crate) fn share(&self) -> Result<Lineages, AllocError>
        ensures { IfOk result (λ m. m ≡ self.now) }
    {
        let entries = self.indexed.entries.share()?;
        let split_keys = self.indexed.split_keys.share()?;
        let index = self.indexed.index.share()?;
        Ok(Lineages {
            indexed: IndexedEntries {
                alloc: self.indexed.alloc,
                entries,
                split_keys,
                index,
                latest: self.indexed.latest,
            },
        })
    }

    /// The one key of all rows that match, if an equality says one.
    pub(crate) fn key_for(&self, equals: &[Equal]) -> Option<i64>
        ensures { IfSome result (λ key. HaveKey self.now key equals.now) }
    {
        self.indexed.index.key_for(equals)
    }

    /// A range with the keys of all rows that match.
    pub(crate) fn range_for(&self, equals: &[Equal]) -> KeyRange
        ensures { HaveKeysWithin self.now result equals.now }
    {
        self.indexed.index.range_for(equals)
    }

    /// The keys of all rows that match at a time on a side, and few others, if the index says them.
    pub(crate) fn keys_for(&self, equals: &[Equal], time: u64, side: Side) -> Option<Keys<'_>>
        ensures { IfSome result (λ keys.
            HaveKeysIn self.now side time (all_of keys) equals.now) }
    {
        self.indexed
            .index
            .keys_for(equals, self.indexed.reach(time, side))
    }

    /// Writes rows with these keys, or none, at the time on that side. On the next side they are
    /// split already. Without memory there are no lineages afterwards.
    pub(crate) fn write(
        &mut self,
        side: Side,
        rows: Few<(i64, Option<Row>)>,
        time: u64,
    ) -> Result<(), AllocError>
        requires { All (λ e. StaysSplit side (is_split self.old) e.0) rows }
        ensures { OnOk result (self.new ≡ with_writes side rows time self.old) }
    {
        match self.indexed.write(side, rows, time) {
            Ok(()) => Ok(()),
            Err(AllocError) => {
                self.indexed.clear();
                Err(AllocError)
            }
        }
    }

    /// Splits the row with the key, and rolls its next side back to before the time. Without memory
    /// there are no lineages afterwards.
    pub(crate) fn split_back(&mut self, key: i64, time: u64) -> Result<(), AllocError>
        ensures { OnOk result (self.new
            ≡ put int_cmp key (split_back time (lineage_at self.old key)) self.old) }
    {
        match self.indexed.split_back(key, time) {
            Ok(()) => Ok(()),
            Err(AllocError) => {
                self.indexed.clear();
                Err(AllocError)
            }
        }
    }

    /// Unsplits each lineage: both sides show what this one shows. Without memory there are no
    /// lineages afterwards.
    pub(crate) fn unsplit(&mut self, side: Side) -> Result<(), AllocError>
        ensures { OnOk result (UnsplitsRows side self.old self.new) }
    {
        match self.indexed.unsplit(side) {
            Ok(()) => Ok(()),
            Err(AllocError) => {
                self.indexed.clear();
                Err(AllocError)
            }
        }
    }
}

impl IndexedEntries {
    ghost use Rattle.tt_versions.specs.Sides.{UnsplitsRows};
    ghost use Rattle.tt_versions.specs.IndexedEntries.{IsConsistent};

    /// Writes rows, or none, on a side.
    fn write(
        &mut self,
        side: Side,
        rows: Few<(i64, Option<Row>)>,
        time: u64,
    ) -> Result<(), AllocError>
        requires stored { IsConsistent self.old }
        requires split { All (λ e. StaysSplit side (is_split self.old.entries) e.0) rows }
        ensures entries { OnOk result (self.new.entries
            ≡ with_writes side rows time self.old.entries) }
        ensures stored { OnOk result (IsConsistent self.new) }
    {
        match rows.into_one() {
            Ok((key, row)) => self.write_row(key, RowWrite { side, row, time }),
            Err(rows) => self.write_each(side, rows, time),
        }
    }

    /// Writes rows, or none, on a side, one after another.
    fn write_each(
        &mut self,
        side: Side,
        rows: Vec<(i64, Option<Row>)>,
        time: u64,
    ) -> Result<(), AllocError>
        requires stored { IsConsistent self.old }
        requires split { All (λ e. StaysSplit side (is_split self.old.entries) e.0) rows.items }
        ensures entries { OnOk result (self.new.entries
            ≡ with_writes side rows.items time self.old.entries) }
        ensures stored { OnOk result (IsConsistent self.new) }
    {
        for (key, row) in rows {
            self.write_row(key, RowWrite { side, row, time })?;
        }
        Ok(())
    }

    /// Which rows a search at a time on a side reads.
    fn reach(&self, time: u64, side: Side) -> Reach
        ensures { result ≡ Reach.Latest
            → (side ≡ Side.Current) × (self.now.latest ≤ time) }
    {
        if side == Side::Current && self.latest <= time {
            Reach::Latest
        } else {
            Reach::Any
        }
    }

    /// Writes a row, or none, on a side.
    fn write_row(&mut self, key: i64, write: RowWrite) -> Result<(), AllocError>
        requires stored { IsConsistent self.old }
        requires split { StaysSplit write.side (is_split self.old.entries) key }
        ensures entries { OnOk result (
            let before = lineage_at self.old.entries key in
            let lineage = with_write_on write.side write.row write.time before in
            self.new.entries ≡ put int_cmp key lineage self.old.entries) }
        ensures stored { OnOk result (IsConsistent self.new) }
    {
        self.latest = self.latest.max(write.time);
        let mut listed = ListedWrite {
            key,
            latest: self.latest,
            write,
        };
        if self.entries.change_with(key, &mut listed, &mut self.index)? {
            return Ok(());
        }
        self.write_first(key, listed.write)
    }

    /// Writes the first row with a key, or none, on a side.
    fn write_first(&mut self, key: i64, write: RowWrite) -> Result<(), AllocError>
        requires absent { find int_cmp key self.old.entries ≡ None }
        requires starts { write.time ≤ self.old.latest }
        requires stored { IsConsistent self.old }
        requires split { StaysSplit write.side (is_split self.old.entries) key }
        ensures entries { OnOk result (
            let lineage = with_write_on write.side write.row write.time unwritten in
            self.new.entries ≡ put int_cmp key lineage self.old.entries) }
        ensures stored { OnOk result (IsConsistent self.new) }
    {
        let mut lineage = Lineage::new(self.alloc);
        let row = write.row.as_ref();
        self.index.change_row(key, RowChange::First { row })?;
        lineage.write(write)?;
        self.entries.put(key, lineage)
    }

    /// Splits the row with the key, and rolls its next side back to before the time.
    fn split_back(&mut self, key: i64, time: u64) -> Result<(), AllocError>
        requires { IsConsistent self.old }
        ensures entries { OnOk result (
            let lineage = split_back time (lineage_at self.old.entries key) in
            self.new.entries ≡ put int_cmp key lineage self.old.entries) }
        ensures stored { OnOk result (IsConsistent self.new) }
    {
        mark(&mut self.split_keys, key)?;
        split_entry(self.alloc, &mut self.entries, key, time)?;
        Ok(())
    }

    /// Unsplits each row: both sides show what this one shows.
    fn unsplit(&mut self, side: Side) -> Result<(), AllocError>
        requires { IsConsistent self.old }
        ensures entries { OnOk result (UnsplitsRows side self.old.entries self.new.entries) }
        ensures stored { OnOk result (IsConsistent self.new) }
    {
        let (entries, index) = (&mut self.entries, &mut self.index);
        for (key, _) in self.split_keys.iter() {
            unsplit_at(entries, index, self.latest, *key, side)?;
        }
        self.split_keys = PagedMap::new(self.alloc);
        Ok(())
    }

    /// No entries, whatever there was.
    fn clear(&mut self)
        ensures { IsConsistent self.new }
    {
        self.entries = PagedMap::new(self.alloc);
        self.split_keys = PagedMap::new(self.alloc);
        self.index.clear();
    }
}

/// Puts the key of a split row into the set.
#[tactic(auto, using(crate::proofs::UnsplitLemmas::marks))]
fn mark(keys: &mut KeySet, key: i64) -> Result<(), AllocError>
    ensures { OnOk result (MarksKey key keys.old keys.new) }
{
    keys.put(key, ())
}

/// The lineage at the key is split, and its next side is rolled back to before the time.
fn split_entry(
    alloc: Global,
    entries: &mut PagedMap<Lineage>,
    key: i64,
    time: u64,
) -> Result<(), AllocError>
    ensures { OnOk result (entries.new
        ≡ put int_cmp key (split_back time (lineage_at entries.old key)) entries.old) }
{
    match entries.get(key) {
        Some(_) => entries.change(key, SplitBack { time }),
        None => {
            let mut lineage = Lineage::new(alloc);
            lineage.split_back(time)?;
            entries.put(key, lineage)
        }
    }
}

/// Both sides of a row show what this one shows. No version starts after `latest`.
fn unsplit_at(
    entries: &mut PagedMap<Lineage>,
    index: &mut Index,
    latest: u64,
    key: i64,
    side: Side,
) -> Result<(), AllocError>
    requires { IsIndexed index.old latest entries.old }
    ensures entries { OnOk result (UnsplitsRow side key entries.old entries.new) }
    ensures indexed { OnOk result (IsIndexed index.new latest entries.new) }
{
    let Some(lineage) = entries.get(key) else {
        return Ok(());
    };
    list_unsplit(index, lineage, latest, key, side)?;
    entries.change(key, Unsplit { side })
}

/// Lists the row that this side of a lineage shows as the current one. No version starts after
/// `latest`.
fn list_unsplit(
    index: &mut Index,
    lineage: &Lineage,
    latest: u64,
    key: i64,
    side: Side,
) -> Result<(), AllocError>
    requires current { All (ListsCurrent key (last_row lineage.now.current)) index.old.columns }
    requires starts { StartsBy latest lineage.now }
    ensures { OnOk result (MovesUnsplit side key lineage.now index.old index.new) }
{
    match side {
        Side::Current => Ok(()),
        Side::Next => {
            let old = lineage.at(latest, Side::Current);
            let new = lineage.at(latest, Side::Next);
            index.change_row(key, RowChange::Current { old, new })
        }
    }
}
