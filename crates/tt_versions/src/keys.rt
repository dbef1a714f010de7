//! The keys that a search by a value reads.
ghost use Rattle.std.specs.Prelude.{◌≡◌, [], ◌∷◌, None, IfSome, IfNone, IsTrue};
ghost use Rattle.std.specs.Ordering.{int_cmp};
ghost use Rattle.std.specs.FinMap.Entries.{is_sorted};
ghost use Rattle.tt_versions.specs.Pages.{those_after};
ghost use Rattle.tt_versions.specs.Keys.{all_of, size, first_then};

use crate::indexed_column::KeySet;
use crate::walk::iter_after;
use std::marker::Model;
use tt_pages::MapIter;

/// The keys under one value of a column: those of rows that have it now, and, where they are read
/// too, those of rows that had it once or have it on the next side.
#[derive(Debug, Clone, Copy)]
pub(crate) struct Keys<'a> {
    pub(crate) current: &'a KeySet,
    pub(crate) past: &'a KeySet,
}

impl<'a> Keys<'a> {
    /// How many keys there are.
    pub(crate) fn len(self) -> usize
        ensures { result ≡ size self.entry }
    {
        self.current.len().saturating_add(self.past.len())
    }

    /// The keys greater than `after`, if that is given, by rising key.
    pub(crate) fn iter_after(self, after: Option<i64>) -> KeysIter<'a>
        ensures all { result ≡ those_after after (all_of self.entry) }
        ensures sorted { IsTrue (is_sorted int_cmp (all_of self.entry)) }
    {
        let mut current = iter_after(self.current, after);
        let mut past = iter_after(self.past, after);
        let first_current = next_key(&mut current);
        let first_past = next_key(&mut past);
        KeysIter {
            first_current,
            current,
            first_past,
            past,
        }
    }
}

/// The keys of two sets by rising key, each once. Contracts see those that it hasn't returned yet.
#[derive(Drop)]
pub(crate) struct KeysIter<'a> {
    first_current: Option<i64>,
    current: MapIter<'a, ()>,
    first_past: Option<i64>,
    past: MapIter<'a, ()>,
}

impl<'a> Model for KeysIter<'a> {
    ghost use Rattle.std.specs.Prelude.{◌≡◌, [], None};
    ghost use Rattle.tt_versions.specs.Index.{KeySet};
    ghost use Rattle.tt_versions.specs.Keys.{merged, first_then};

    ghost Value = { KeySet };

    ghost view = { λ k.
        merged (first_then k.first_current k.current) (first_then k.first_past k.past) };

    // A set without a next key has no keys left.
    ghost invariant = { λ k. (k.first_current ≡ None → k.current ≡ [])
        × (k.first_past ≡ None → k.past ≡ []) };
}

impl<'a> KeysIter<'a> {
    pub(crate) fn next(&mut self) -> Option<i64>
        ensures some { IfSome result (λ key. self.old ≡ (key, tt) ∷ self.new) }
        ensures none { IfNone result (self.old ≡ []) }
    {
        let Some(current) = self.first_current else {
            let Some(past) = self.first_past else {
                return None;
            };
            self.first_past = next_key(&mut self.past);
            return Some(past);
        };
        let Some(past) = self.first_past else {
            self.first_current = next_key(&mut self.current);
            return Some(current);
        };
        if past < current {
            self.first_past = next_key(&mut self.past);
            return Some(past);
        }
        self.first_current = next_key(&mut self.current);
        if current == past {
            self.first_past = next_key(&mut self.past);
        }
        Some(current)
    }
}

/// The next key of a set.
fn next_key(keys: &mut MapIter<'_, ()>) -> Option<i64>
    ensures first { first_then result keys.new ≡ keys.old }
    ensures end { result ≡ None → keys.new ≡ [] }
{
    match keys.next() {
        Some((key, _)) => Some(*key),
        None => None,
    }
}
