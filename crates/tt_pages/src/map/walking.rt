// How a tree is read page by page, from key to key.
ghost use Rattle.std.specs.Prelude.{◌≡◌, IsTrue};
ghost use Rattle.std.specs.Ordering.{int_cmp};
ghost use Rattle.std.specs.FinMap.Entries.{is_sorted};
ghost use Rattle.tt_pages.specs.MapTree.{entries_of_root};
ghost use Rattle.tt_pages.specs.MapWalk.{entries_after, IsPageOf};

use super::branches::branch_for;
use super::tree::{Node, Tree};
use std::sync::Arc;

impl<V> Tree<V> {
    pub(super) fn first_page(&self) -> &[(i64, V)]
        ensures { IsPageOf self.now.entries result.now }
    {
        match &self.node {
            Node::Leaf(page) => page,
            Node::Fork(branches) => branches[0].tree().first_page(),
        }
    }

    // Of the entries with keys above this one, the first ones, up to the end of a page.
    pub(super) fn page_after(&self, key: &i64) -> &[(i64, V)]
        ensures { IsPageOf (entries_after key.now self.now.entries) result.now }
    {
        match &self.node {
            Node::Leaf(page) => rest_after(page, key),
            Node::Fork(branches) => {
                let at = branch_for(branches, key);
                let page = branches[at].tree().page_after(key);
                if page.is_empty() && at + 1 < branches.len() {
                    branches[at + 1].tree().first_page()
                } else {
                    page
                }
            }
        }
    }
}

// The entries of a page with keys above this one.
fn rest_after<'a, V>(page: &'a [(i64, V)], key: &i64) -> &'a [(i64, V)]
    requires { IsTrue (is_sorted int_cmp page.now) }
    ensures { result.now ≡ entries_after key.now page.now }
{
    let mut at = 0;
    while at < page.len() && !key.cmp(&page[at].0).is_lt() {
        at += 1;
    }
    &page[at..]
}

// The first page of a map.
pub(super) fn first_page<V>(root: &Option<Arc<Tree<V>>>) -> &[(i64, V)]
    ensures { IsPageOf (entries_of_root root.now) result.now }
{
    match root {
        Some(tree) => tree.first_page(),
        None => &[],
    }
}

// Of the entries of a map with keys above this one, the first ones, up to the end of a page.
pub(super) fn page_after<'a, V>(root: &'a Option<Arc<Tree<V>>>, key: &i64) -> &'a [(i64, V)]
    ensures { IsPageOf (entries_after key.now (entries_of_root root.now)) result.now }
{
    match root {
        Some(tree) => tree.page_after(key),
        None => &[],
    }
}
