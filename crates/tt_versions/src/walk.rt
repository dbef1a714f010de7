//! Walks of a map from a key on.
ghost use Rattle.std.specs.Prelude.{◌≡◌, IsTrue};
ghost use Rattle.std.specs.Ordering.{int_cmp};
ghost use Rattle.std.specs.FinMap.Entries.{is_sorted};
ghost use Rattle.tt_versions.specs.Pages.{is_after, those_after};

use tt_pages::{MapIter, PagedMap};

/// Whether a key is greater than `after`, if that is given.
pub(crate) fn is_after(after: Option<i64>, key: i64) -> bool
    ensures { result ≡ is_after after key }
{
    match after {
        Some(low) => low < key,
        None => true,
    }
}

/// The entries whose keys are greater than `after`, if that is given, by rising key.
#[tactic(auto, using(crate::proofs::PageLemmas::walks))]
pub(crate) fn iter_after<V>(entries: &PagedMap<V>, after: Option<i64>) -> MapIter<'_, V>
    ensures all { result ≡ those_after after entries.now }
    ensures sorted { IsTrue (is_sorted int_cmp entries.now) }
{
    match after {
        Some(low) => entries.iter_after(low),
        None => entries.iter(),
    }
}
