//! The rows of a table that differ between its sides.
ghost use Rattle.std.specs.Prelude.{◌≡◌, IfOk, IfSome, option_map, take};
ghost use Rattle.std.specs.Option.{option_copied};
ghost use Rattle.tt_versions.specs.Sides.{current_of, next_of};
ghost use Rattle.tt_versions.specs.Pages.{those_after};
ghost use Rattle.tt_versions.specs.Differences.{is_unchanged, difference_of};

use super::Table;
use crate::side::Side;
use crate::walk::iter_after;
use std::alloc::AllocError;
use tt_values::{Row, Same};

/// A row that differs between the sides of a table at a time: what each side has there, or none.
#[derive(Clone, Copy, Debug, PartialEq)]
pub struct RowDifference<'a> {
    pub key: i64,
    pub current: Option<&'a Row>,
    pub next: Option<&'a Row>,
}

impl Table {
    ghost use Rattle.tt_versions.specs.Differences.{DifferencesByKey, ListsDifferences, ListsFirstDifferences, rows_of_difference, differences_behind};

    /// The rows that differ between the current side and the next one at the time, by rising key:
    /// of those with greater keys than `after`, if that is given, the first `most`. Looks at no
    /// other rows than split ones.
    pub fn differences(
        &self,
        time: u64,
        after: Option<i64>,
        most: usize,
    ) -> Result<Vec<RowDifference<'_>>, AllocError>
        ensures lists { IfOk result (λ ds. ListsFirstDifferences (differences_behind ds.items)
            after most (current_of self.now) (next_of self.now) time) }
        ensures any { IfOk result (λ ds. (all : DifferencesByKey)
            → ListsDifferences all (current_of self.now) (next_of self.now) time
            → differences_behind ds.items ≡ take most (those_after after all)) }
    {
        let mut differences = Vec::new(self.alloc);
        for (key, _) in iter_after(self.lineages.split_keys(), after) {
            if differences.len() == most {
                return Ok(differences);
            }
            if let Some(difference) = self.difference_at(*key, time) {
                differences.push(difference)?;
            }
        }
        Ok(differences)
    }

    /// The row with the key, if it differs between the sides.
    #[tactic(auto, using(crate::proofs::SidesLemmas::reads), unfolding(crate::specs::Sides::side_of))]
    fn difference_at(&self, key: i64, time: u64) -> Option<RowDifference<'_>>
        ensures key { IfSome result (λ d. d.key ≡ key) }
        ensures rows { option_map rows_of_difference result
            ≡ difference_of (current_of self.now key time) (next_of self.now key time) }
    {
        let lineage = self.lineage_of(key)?;
        let current = lineage.at(time, Side::Current);
        let next = lineage.at(time, Side::Next);
        if is_unchanged(current, next) {
            return None;
        }
        Some(RowDifference { key, current, next })
    }
}

/// Whether a row is the same on both sides, or on neither.
fn is_unchanged(current: Option<&Row>, next: Option<&Row>) -> bool
    ensures { result ≡ is_unchanged (option_copied current.entry) (option_copied next.entry) }
{
    match (current, next) {
        (None, None) => true,
        (Some(current), Some(next)) => current.is_same(next),
        _ => false,
    }
}
