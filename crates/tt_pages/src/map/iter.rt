ghost use Rattle.std.specs.Prelude.{◌≡◌, ◌∷◌, length, IsTrue};
ghost use Rattle.std.specs.Iterator.{at_most};
ghost use Rattle.std.specs.Map.Iter.{TakesFirst, deref_pair};
ghost use Rattle.std.specs.Ordering.{int_cmp};
ghost use Rattle.std.specs.FinMap.Entries.{is_sorted};
ghost use Rattle.tt_pages.specs.MapTree.{entries_of_root};
ghost use Rattle.tt_pages.specs.MapWalk.{entries_after, unread};

use super::tree::Tree;
use super::walking::{first_page, page_after};
use std::iter::FusedIterator;
use std::marker::Model;
use std::sync::Arc;

/// The entries of a map in ascending key order, each as `(&i64, &V)`. Contracts see the entries
/// that it hasn't answered yet.
#[derive(Drop)]
pub struct MapIter<'a, V> {
    root: &'a Option<Arc<Tree<V>>>,
    // The rest of the current page. It is empty only at the end.
    page: &'a [(i64, V)],
}

impl<'a, V> Model for MapIter<'a, V> {
    ghost use Rattle.std.specs.Prelude.{List, ℤ, IsTrue};
    ghost use Rattle.std.specs.Coded.{coded_list, coded×, coded_ℤ};
    ghost use Rattle.std.specs.Ordering.{int_cmp};
    ghost use Rattle.std.specs.FinMap.Entries.{is_sorted};

    ghost Value = { List (ℤ × V) };

    ghost coded = { coded_list (coded× coded_ℤ V.code) };

    ghost use Rattle.tt_pages.specs.MapTree.{entries_of_root};
    ghost use Rattle.tt_pages.specs.MapWalk.{unread};

    ghost view = { λ i. unread i.page.now (entries_of_root i.root.now) };

    ghost invariant = { λ i. IsTrue (is_sorted int_cmp (entries_of_root i.root.now)) };
}

impl<'a, V> MapIter<'a, V> {
    pub(super) fn new(root: &'a Option<Arc<Tree<V>>>) -> Self
        requires { IsTrue (is_sorted int_cmp (entries_of_root root.now)) }
        ensures { result ≡ entries_of_root root.now }
    {
        MapIter {
            root,
            page: first_page(root),
        }
    }

    // The entries with keys above this one.
    pub(super) fn after(root: &'a Option<Arc<Tree<V>>>, key: &i64) -> Self
        requires { IsTrue (is_sorted int_cmp (entries_of_root root.now)) }
        ensures { result ≡ entries_after key.now (entries_of_root root.now) }
    {
        MapIter {
            root,
            page: page_after(root, key),
        }
    }
}

impl<'a, V> Iterator for MapIter<'a, V> {
    type Item = (&'a i64, &'a V);

    ghost next_gives = { TakesFirst deref_pair };

    ghost remaining = { λ s. at_most (length s) };

    fn next(&mut self) -> Option<(&'a i64, &'a V)> {
        match self.page.split_first() {
            Some((entry, rest)) => {
                self.page = rest_or_next(self.root, entry, rest);
                Some((&entry.0, &entry.1))
            }
            None => None,
        }
    }
}

impl<'a, V> FusedIterator for MapIter<'a, V> {}

// What to read after this entry: the rest of its page or, if that is empty, the next page.
fn rest_or_next<'a, V>(
    root: &'a Option<Arc<Tree<V>>>,
    entry: &(i64, V),
    rest: &'a [(i64, V)],
) -> &'a [(i64, V)]
    requires { IsTrue (is_sorted int_cmp (entries_of_root root.now)) }
    ensures { unread (entry.now ∷ rest.now) (entries_of_root root.now)
        ≡ entry.now ∷ unread result.now (entries_of_root root.now) }
{
    if rest.is_empty() {
        page_after(root, &entry.0)
    } else {
        rest
    }
}
