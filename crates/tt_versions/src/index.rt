ghost use Rattle.std.specs.Prelude.{◌≡◌, ◌⊎◌, IsTrue, IfOk, OnOk, IfSome, IfNone, Some, option_map};
ghost use Rattle.std.specs.List.{All};
ghost use Rattle.std.specs.Option.{option_copied};
ghost use Rattle.tt_values.specs.Row.{first_int};
ghost use Rattle.tt_values.specs.Matches.{holds};
ghost use Rattle.tt_versions.specs.RowChange.{current_after, other_after};
ghost use Rattle.tt_versions.specs.Keys.{size, all_of};
ghost use Rattle.tt_versions.specs.Index.{HasNoKeys, FitsChange, MovesInColumns, MovesRow, CoversEqual, CoversMatches, size_equated, IsAtMost, IsSmallest, SayNoSet, IsKeyOfMatches};
ghost use Rattle.tt_versions.specs.KeyRange.{IsRangeOfMatches, IsNarrowest};

use crate::indexed_column::{IndexedColumn, KeySet};
use crate::key_range::KeyRange;
use crate::keys::Keys;
use crate::reach::Reach;
use crate::row_change::RowChange;
use std::alloc::{AllocError, Global};
use std::marker::Model;
use tt_pages::PagedMap;
use tt_values::{Equal, Row, Value, digest};

/// Where the rows of a table are to be found, by their values: the current rows apart from all
/// others that the table ever had on either side, of which it forgets none.
#[derive(Debug, Drop)]
pub(crate) struct Index {
    alloc: Global,
    columns: Vec<IndexedColumn>,
    /// Whether the first value of each listed row is its key.
    is_keyed: bool,
    empty: KeySet,
}

impl Model for Index {
    ghost use Rattle.std.specs.Prelude.{◌≡◌, []};
    ghost use Rattle.tt_versions.specs.Index.{IndexState};

    ghost Value = { IndexState };

    ghost view = { λ i. record {
      columns = i.columns.items;
      is_keyed = i.is_keyed;
    } };

    ghost invariant = { λ i. i.empty ≡ [] };
}

impl Index {
    /// An index of rows by their values in these columns, and by their keys.
    pub(crate) fn new(alloc: Global, columns: Vec<IndexedColumn>) -> Index
        ensures { result.columns ≡ columns.items }
    {
        Index {
            alloc,
            columns,
            is_keyed: true,
            empty: PagedMap::new(alloc),
        }
    }

    /// Another owner of the same sets.
    pub(crate) fn share(&self) -> Result<Index, AllocError>
        ensures { IfOk result (λ i. i ≡ self.now) }
    {
        let mut columns = Vec::with_capacity(self.alloc, self.columns.len())?;
        for column in &self.columns {
            columns.push(column.share()?)?;
        }
        Ok(Index {
            alloc: self.alloc,
            columns,
            is_keyed: self.is_keyed,
            empty: PagedMap::new(self.alloc),
        })
    }

    /// No rows.
    pub(crate) fn clear(&mut self)
        ensures { All HasNoKeys self.new.columns }
    {
        clear_columns(self.alloc, &mut self.columns);
    }

    /// Lists the row with a key as it is after a change. Without memory nothing is promised of the
    /// index.
    pub(crate) fn change_row(&mut self, key: i64, change: RowChange<'_>) -> Result<(), AllocError>
        requires { All (FitsChange change key) self.old.columns }
        ensures { OnOk result (MovesRow key change.entry self.old self.new) }
    {
        change_columns(self.alloc, &mut self.columns, key, change)?;
        self.is_keyed = self.is_keyed && begins_with(change.row(), key);
        Ok(())
    }

    /// The one key that matching rows can have, if an equality says one.
    pub(crate) fn key_for(&self, equals: &[Equal]) -> Option<i64>
        ensures { IfSome result (λ key. IsKeyOfMatches self.now key equals.now) }
    {
        if !self.is_keyed {
            return None;
        }
        for equal in equals {
            if let Some(key) = equated_key(equal) {
                return Some(key);
            }
        }
        None
    }

    /// A range that has the key of each matching row: the one that comparisons of the keys leave.
    pub(crate) fn range_for(&self, equals: &[Equal]) -> KeyRange
        ensures has { IsRangeOfMatches self.now result equals.now }
        ensures narrowest { IsTrue self.now.is_keyed → IsNarrowest result equals.now }
    {
        if self.is_keyed {
            KeyRange::of(equals)
        } else {
            KeyRange::all()
        }
    }

    /// The fewest keys under one value that have the key of each matching row in reach, if an
    /// equality is on a column of the index.
    pub(crate) fn keys_for(&self, equals: &[Equal], reach: Reach) -> Option<Keys<'_>>
        ensures covers { IfSome result (λ keys.
            CoversMatches reach self.now (all_of keys) equals.now) }
        ensures smallest { IfSome result (λ keys.
            IsSmallest reach self.now (size keys) equals.now) }
        ensures none { IfNone result (SayNoSet reach self.now equals.now) }
    {
        let mut smallest: Option<Keys> = None;
        for equal in equals {
            smallest = smaller(smallest, self.keys_equated(equal, reach));
        }
        smallest
    }

    /// The keys of the rows in reach for which the condition holds, if it is an equality on a
    /// column of the index.
    fn keys_equated(&self, equal: &Equal, reach: Reach) -> Option<Keys<'_>>
        ensures covers { IfSome result (λ keys.
            CoversEqual reach self.now (all_of keys) equal.now) }
        ensures same { option_map size result ≡ size_equated reach self.now.columns equal.now }
    {
        if !equal.equates() {
            return None;
        }
        for column in &self.columns {
            if column.position == equal.column {
                return Some(column.keys_under(digest(&equal.value), reach, &self.empty));
            }
        }
        None
    }
}

/// The fewer keys of two, or the only ones. The first where both are as many.
fn smaller<'a>(first: Option<Keys<'a>>, second: Option<Keys<'a>>) -> Option<Keys<'a>>
    ensures either { (result ≡ first.entry) ⊎ (result ≡ second.entry) }
    ensures first { IsAtMost (option_map size result) (option_map size first.entry) }
    ensures second { IsAtMost (option_map size result) (option_map size second.entry) }
{
    let Some(keys) = first else {
        return second;
    };
    let Some(others) = second else {
        return first;
    };
    if keys.len() <= others.len() {
        Some(keys)
    } else {
        Some(others)
    }
}

/// No column has a key.
fn clear_columns(alloc: Global, columns: &mut Vec<IndexedColumn>)
    ensures { All HasNoKeys columns.new.items }
{
    for column in columns.iter_mut() {
        column.clear(alloc);
    }
}

/// Each column lists the row with a key as it is after a change.
fn change_columns(
    alloc: Global,
    columns: &mut Vec<IndexedColumn>,
    key: i64,
    change: RowChange<'_>,
) -> Result<(), AllocError>
    requires { All (FitsChange change key) columns.old.items }
    ensures { OnOk result (MovesInColumns key
        (current_after change.entry) (other_after change.entry)
        columns.old.items columns.new.items) }
{
    for column in columns.iter_mut() {
        column.change_row(alloc, key, change)?;
    }
    Ok(())
}

/// Whether the first value of a row is this key, if there is a row.
fn begins_with(row: Option<&Row>, key: i64) -> bool
    ensures { IsTrue result
        → IfSome (option_copied row.entry) (λ r. first_int r.values ≡ Some key) }
{
    let Some(row) = row else {
        return true;
    };
    match row.values.get(0) {
        Some(value) => match value {
            Value::Int(first) => *first == key,
            Value::Text(_) => false,
        },
        None => false,
    }
}

/// The key that a condition asks for: one that is an equality, on the first column.
fn equated_key(equal: &Equal) -> Option<i64>
    ensures { IfSome result (λ key. (row : Row)
        → IsTrue (holds equal.now row) → first_int row.values ≡ Some key) }
{
    if equal.column != 0 || !equal.equates() {
        return None;
    }
    match &equal.value {
        Value::Int(key) => Some(*key),
        Value::Text(_) => None,
    }
}
