// How a narrow node takes entries or branches from a neighbor, or becomes one with it.
ghost use Rattle.std.specs.Prelude.{◌≡◌, ◌+◌, ◌<◌, ◌≤◌, ◌++◌, length, IfOk, IsTrue};
ghost use Rattle.std.specs.Ordering.{int_cmp};
ghost use Rattle.std.specs.FinMap.Entries.{is_sorted};
ghost use Rattle.tt_pages.specs.MapTree.{IsPage, AreBranches, branch_entries, branch_depth, page_value, fork_value, min_width, max_width};
ghost use Rattle.tt_pages.specs.MapBranches.{AreJoined, IsCut};

use super::branches::{add_shared, share_branches};
use super::page::{MAX_WIDTH, add_copies, copy_of};
use super::splitting::{Halves, cut_fork, cut_page};
use super::tree::{Branch, Node, Tree};
use crate::kept::Kept;
use std::alloc::{AllocError, Global};

// What two neighbors become, at least one of which is narrow.
#[derive(Drop)]
pub(super) enum Joined<V> {
    One(Branch<V>),
    Two(Halves<V>),
}

impl<V: Kept + Drop> Tree<V> {
    // One branch with the entries of this tree and its right neighbor, or two that are wider than
    // the least.
    pub(super) fn join(&self, alloc: Global, right: &Tree<V>) -> Result<Joined<V>, AllocError>
        requires depth { self.now.depth ≡ right.now.depth }
        requires left_wide { min_width ≤ self.now.width }
        requires right_wide { min_width ≤ right.now.width }
        requires sorted { IsTrue (is_sorted int_cmp (self.now.entries ++ right.now.entries)) }
        ensures { IfOk result (AreJoined self.now right.now) }
    {
        match &self.node {
            Node::Leaf(low) => match &right.node {
                Node::Leaf(high) => join_pages(alloc, low, high),
                Node::Fork(_) => unreachable!(),
            },
            Node::Fork(low) => match &right.node {
                Node::Leaf(_) => unreachable!(),
                Node::Fork(high) => join_forks(alloc, low, high),
            },
        }
    }
}

fn join_pages<V: Kept + Drop>(
    alloc: Global,
    low: &[(i64, V)],
    high: &[(i64, V)],
) -> Result<Joined<V>, AllocError>
    requires low { IsPage low.now }
    requires high { IsPage high.now }
    requires low_wide { min_width ≤ length low.now }
    requires high_wide { min_width ≤ length high.now }
    requires sorted { IsTrue (is_sorted int_cmp (low.now ++ high.now)) }
    ensures { IfOk result (AreJoined (page_value low.now) (page_value high.now)) }
{
    let mut page = copy_of(alloc, low)?;
    add_copies(&mut page, high)?;
    if page.len() <= MAX_WIDTH {
        return Ok(Joined::One(Branch::of(alloc, Node::Leaf(page))?));
    }
    let halves = cut_page(alloc, &page, middle_of(page.len()))?;
    Ok(Joined::Two(halves))
}

fn join_forks<V: Kept + Drop>(
    alloc: Global,
    low: &[Branch<V>],
    high: &[Branch<V>],
) -> Result<Joined<V>, AllocError>
    requires low { AreBranches (branch_depth low.now) low.now }
    requires high { AreBranches (branch_depth low.now) high.now }
    requires low_wide { min_width ≤ length low.now }
    requires high_wide { min_width ≤ length high.now }
    requires sorted { IsTrue (is_sorted int_cmp
        (branch_entries low.now ++ branch_entries high.now)) }
    ensures { IfOk result (AreJoined (fork_value low.now) (fork_value high.now)) }
{
    let mut branches = share_branches(alloc, low)?;
    add_shared(&mut branches, high)?;
    if branches.len() <= MAX_WIDTH {
        return Ok(Joined::One(Branch::of(alloc, Node::Fork(branches))?));
    }
    let halves = cut_fork(alloc, &branches, middle_of(branches.len()))?;
    Ok(Joined::Two(halves))
}

fn middle_of(width: usize) -> usize
    requires some { max_width < width }
    requires fits { width ≤ max_width + max_width }
    ensures cut { IsCut width result }
    ensures low { min_width < result }
    ensures high { result + min_width < width }
{
    width / 2
}
