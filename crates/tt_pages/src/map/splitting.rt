// How a full node is split in two.
ghost use Rattle.std.specs.Prelude.{◌≡◌, ◌+◌, ◌<◌, ◌≤◌, length, All, IfOk, IsTrue};
ghost use Rattle.std.specs.Ordering.{int_cmp};
ghost use Rattle.std.specs.FinMap.Entries.{is_sorted};
ghost use Rattle.tt_pages.specs.MapTree.{IsPage, IsBranch, AreBranches, branch_depth, branch_entries, page_value, fork_value, max_width};
ghost use Rattle.tt_pages.specs.MapBranches.{AreHalves, AreParts, IsCut};

use super::branches::{branch_for, share_branches};
use super::page::{MAX_WIDTH, MIN_WIDTH, copy_of, rank_in};
use super::tree::{Branch, Node, Tree};
use crate::kept::Kept;
use std::alloc::{AllocError, Global};

// The two branches that a full tree is split into.
#[derive(Drop)]
pub(super) struct Halves<V> {
    pub(super) low: Branch<V>,
    pub(super) high: Branch<V>,
}

impl<V: Kept + Drop> Tree<V> {
    // Two branches with the entries of this full tree, and room where the key belongs.
    pub(super) fn halves(&self, alloc: Global, key: &i64) -> Result<Halves<V>, AllocError>
        requires { max_width ≤ self.now.width }
        ensures halves { IfOk result (AreHalves self.now) }
        ensures sorted { IfOk result (λ _. IsTrue (is_sorted int_cmp self.now.entries)) }
    {
        match &self.node {
            Node::Leaf(page) => halves_of_page(alloc, page, key),
            Node::Fork(branches) => halves_of_fork(alloc, branches, key),
        }
    }
}

fn halves_of_page<V: Kept + Drop>(
    alloc: Global,
    page: &[(i64, V)],
    key: &i64,
) -> Result<Halves<V>, AllocError>
    requires page { IsPage page.now }
    requires full { max_width ≤ length page.now }
    ensures { IfOk result (AreHalves (page_value page.now)) }
{
    cut_page(alloc, page, split_place(page.len(), rank_in(page, key)))
}

fn halves_of_fork<V: Kept + Drop>(
    alloc: Global,
    branches: &[Branch<V>],
    key: &i64,
) -> Result<Halves<V>, AllocError>
    requires fork { AreBranches (branch_depth branches.now) branches.now }
    requires full { max_width ≤ length branches.now }
    ensures { IfOk result (AreHalves (fork_value branches.now)) }
{
    cut_fork(
        alloc,
        branches,
        split_place(branches.len(), branch_for(branches, key)),
    )
}

// Two pages with these entries, the first one with `at` of them.
pub(super) fn cut_page<V: Kept + Drop>(
    alloc: Global,
    entries: &[(i64, V)],
    at: usize,
) -> Result<Halves<V>, AllocError>
    requires cut { IsCut (length entries.now) at }
    requires sorted { IsTrue (is_sorted int_cmp entries.now) }
    ensures { IfOk result (AreParts (page_value entries.now) at) }
{
    let low = copy_of(alloc, &entries[..at])?;
    let high = copy_of(alloc, &entries[at..])?;
    Ok(Halves {
        low: Branch::of(alloc, Node::Leaf(low))?,
        high: Branch::of(alloc, Node::Leaf(high))?,
    })
}

// Two forks of these branches, the first one with `at` of them.
pub(super) fn cut_fork<V: Drop>(
    alloc: Global,
    branches: &[Branch<V>],
    at: usize,
) -> Result<Halves<V>, AllocError>
    requires cut { IsCut (length branches.now) at }
    requires each { All (IsBranch (branch_depth branches.now)) branches.now }
    requires sorted { IsTrue (is_sorted int_cmp (branch_entries branches.now)) }
    ensures { IfOk result (AreParts (fork_value branches.now) at) }
{
    let low = share_branches(alloc, &branches[..at])?;
    let high = share_branches(alloc, &branches[at..])?;
    Ok(Halves {
        low: Branch::of(alloc, Node::Fork(low))?,
        high: Branch::of(alloc, Node::Fork(high))?,
    })
}

// Where a full node is split for a key of this rank: near its end, if the key goes to the end, so
// that keys inserted in ascending order leave nodes that are nearly full, and near its beginning,
// if it goes there.
fn split_place(len: usize, rank: usize) -> usize
    requires { len ≡ max_width }
    ensures { IsCut len result }
{
    if rank >= len - 1 {
        len - MIN_WIDTH
    } else if rank == 0 {
        MIN_WIDTH
    } else {
        len / 2
    }
}
