// How a key is removed from a tree: a narrow branch is joined with a neighbor on the way down,
// before anything else changes.
ghost use Rattle.std.specs.Prelude.{◌≡◌, ◌+◌, ◌^◌, ◌<◌, ◌≤◌, ◌⊎◌, suc, length, IfOk, OnOk, OnErr, IsSome};
ghost use Rattle.std.specs.List.{HoldsAt};
ghost use Rattle.std.specs.Arc.{arc_value};
ghost use Rattle.std.specs.Ordering.{int_cmp};
ghost use Rattle.std.specs.FinMap.Entries.{find};
ghost use Rattle.tt_pages.specs.MapEntries.{entries_without, first_key};
ghost use Rattle.tt_pages.specs.MapTree.{node_value, branch_entries, branch_depth, IsNode, AreBranches, min_width};
ghost use Rattle.tt_pages.specs.MapBranches.{IsBranchFor, IsJoin, AreEven};

use super::branches::branch_for;
use super::joining::Joined;
use super::page::{MIN_WIDTH, remove_in};
use super::splitting::Halves;
use super::tree::{Branch, Node, Tree, unshare};
use crate::kept::Kept;
use std::alloc::{AllocError, Global};
use std::sync::Arc;

impl<V: Kept + Drop> Tree<V> {
    // Removes a key of the tree.
    #[cycle(map_remove)]
    pub(super) fn remove(&mut self, alloc: Global, key: &i64) -> Result<(), AllocError>
        requires present { IsSome (find int_cmp key.now self.old.entries) }
        requires many { 1 < self.old.width }
        ensures depth { self.new.depth ≡ self.old.depth }
        ensures width { self.old.width ≤ suc self.new.width }
        ensures ok { OnOk result (self.new.entries ≡ entries_without key.now self.old.entries) }
        ensures err { OnErr result (self.new.entries ≡ self.old.entries) }
    {
        self.node.remove(alloc, key)
    }
}

impl<V: Kept + Drop> Node<V> {
    #[cycle(map_remove)]
    fn remove(&mut self, alloc: Global, key: &i64) -> Result<(), AllocError>
        requires node { IsNode self.old }
        requires present { IsSome (find int_cmp key.now (node_value self.old).entries) }
        requires many { 1 < (node_value self.old).width }
        ensures node { IsNode self.new }
        ensures depth { (node_value self.new).depth ≡ (node_value self.old).depth }
        ensures width { (node_value self.old).width ≤ suc (node_value self.new).width }
        ensures ok { OnOk result ((node_value self.new).entries
            ≡ entries_without key.now (node_value self.old).entries) }
        ensures err { OnErr result
            ((node_value self.new).entries ≡ (node_value self.old).entries) }
    {
        match self {
            Node::Leaf(page) => {
                remove_in(page, key);
                Ok(())
            }
            Node::Fork(branches) => remove_in_fork(alloc, branches, key),
        }
    }
}

#[cycle(map_remove)]
fn remove_in_fork<V: Kept + Drop>(
    alloc: Global,
    branches: &mut Vec<Branch<V>>,
    key: &i64,
) -> Result<(), AllocError>
    requires fork { AreBranches (branch_depth branches.old.items) branches.old.items }
    requires present { IsSome (find int_cmp key.now (branch_entries branches.old.items)) }
    requires many { 1 < length branches.old.items }
    ensures fork { AreBranches (branch_depth branches.old.items) branches.new.items }
    ensures width { length branches.old.items ≤ suc (length branches.new.items) }
    ensures ok { OnOk result (branch_entries branches.new.items
        ≡ entries_without key.now (branch_entries branches.old.items)) }
    ensures err { OnErr result
        (branch_entries branches.new.items ≡ branch_entries branches.old.items) }
{
    let at = widen_branch(alloc, branches, key)?;
    branches[at].remove(alloc, key)
}

impl<V: Kept + Drop> Branch<V> {
    #[cycle(map_remove)]
    fn remove(&mut self, alloc: Global, key: &i64) -> Result<(), AllocError>
        requires present { IsSome (find int_cmp key.now self.old.tree.entries) }
        requires many { 1 < self.old.tree.width }
        requires first { self.old.first ≡ first_key self.old.tree.entries }
        requires full { min_width ^ suc self.old.tree.depth ≤ length self.old.tree.entries }
        ensures first { self.new.first ≡ first_key self.new.tree.entries }
        ensures depth { self.new.tree.depth ≡ self.old.tree.depth }
        ensures width { self.old.tree.width ≤ suc self.new.tree.width }
        ensures full { min_width ≤ self.new.tree.width
            → min_width ^ suc self.new.tree.depth ≤ length self.new.tree.entries }
        ensures ok { OnOk result
            (self.new.tree.entries ≡ entries_without key.now self.old.tree.entries) }
        ensures err { OnErr result (self.new.tree.entries ≡ self.old.tree.entries) }
    {
        remove_shared(alloc, &mut self.tree, key)?;
        self.first = self.tree.first_key();
        Ok(())
    }
}

#[cycle(map_remove)]
pub(super) fn remove_shared<V: Kept + Drop>(
    alloc: Global,
    this: &mut Arc<Tree<V>>,
    key: &i64,
) -> Result<(), AllocError>
    requires present { IsSome (find int_cmp key.now (arc_value this.old).entries) }
    requires many { 1 < (arc_value this.old).width }
    ensures depth { (arc_value this.new).depth ≡ (arc_value this.old).depth }
    ensures width { (arc_value this.old).width ≤ suc (arc_value this.new).width }
    ensures ok { OnOk result
        ((arc_value this.new).entries ≡ entries_without key.now (arc_value this.old).entries) }
    ensures err { OnErr result ((arc_value this.new).entries ≡ (arc_value this.old).entries) }
{
    unshare(alloc, this)?;
    match Arc::get_mut(this) {
        Some(tree) => tree.remove(alloc, key),
        None => Err(AllocError),
    }
}

// The place of the branch that the key belongs to, which is joined with a neighbor first if it is
// narrow.
fn widen_branch<V: Kept + Drop>(
    alloc: Global,
    branches: &mut Vec<Branch<V>>,
    key: &i64,
) -> Result<usize, AllocError>
    requires fork { AreBranches (branch_depth branches.old.items) branches.old.items }
    requires many { 1 < length branches.old.items }
    ensures fork { AreBranches (branch_depth branches.old.items) branches.new.items }
    ensures same { branch_entries branches.new.items ≡ branch_entries branches.old.items }
    ensures width { length branches.old.items ≤ suc (length branches.new.items) }
    ensures within { IfOk result (λ at. at < length branches.new.items) }
    ensures is_for { IfOk result (IsBranchFor key.now branches.new.items) }
    ensures wide { IfOk result
        (HoldsAt (λ branch. min_width < branch.tree.width) branches.new.items) }
{
    let at = branch_for(branches, key);
    if branches[at].tree().width() > MIN_WIDTH {
        return Ok(at);
    }
    let left = at.saturating_sub(1);
    let joined = branches[left]
        .tree()
        .join(alloc, branches[left + 1].tree())?;
    Ok(match joined {
        Joined::One(branch) => {
            put_one(branches, left, branch, key);
            left
        }
        Joined::Two(halves) => put_two(branches, left, halves, key),
    })
}

// Puts one branch in place of the two that it comes from.
fn put_one<V: Drop>(branches: &mut Vec<Branch<V>>, left: usize, branch: Branch<V>, key: &i64)
    requires fork { AreBranches (branch_depth branches.old.items) branches.old.items }
    requires within { left + 1 < length branches.old.items }
    requires is_for { IsBranchFor key.now branches.old.items left
        ⊎ IsBranchFor key.now branches.old.items (left + 1) }
    requires join { HoldsAt (λ l. HoldsAt (λ r. IsJoin l.tree r.tree branch)
        branches.old.items (left + 1)) branches.old.items left }
    ensures fork { AreBranches (branch_depth branches.old.items) branches.new.items }
    ensures same { branch_entries branches.new.items ≡ branch_entries branches.old.items }
    ensures width { length branches.old.items ≡ suc (length branches.new.items) }
    ensures within { left < length branches.new.items }
    ensures is_for { IsBranchFor key.now branches.new.items left }
    ensures wide { HoldsAt (λ branch. min_width < branch.tree.width) branches.new.items left }
{
    branches[left] = branch;
    drop(branches.remove(left + 1));
}

// Puts two branches in place of those that they come from. Returns the place of the one that the
// key belongs to.
fn put_two<V: Drop>(
    branches: &mut Vec<Branch<V>>,
    left: usize,
    halves: Halves<V>,
    key: &i64,
) -> usize
    requires fork { AreBranches (branch_depth branches.old.items) branches.old.items }
    requires within { left + 1 < length branches.old.items }
    requires is_for { IsBranchFor key.now branches.old.items left
        ⊎ IsBranchFor key.now branches.old.items (left + 1) }
    requires even { HoldsAt (λ l. HoldsAt (λ r. AreEven l.tree r.tree halves)
        branches.old.items (left + 1)) branches.old.items left }
    ensures fork { AreBranches (branch_depth branches.old.items) branches.new.items }
    ensures same { branch_entries branches.new.items ≡ branch_entries branches.old.items }
    ensures width { length branches.old.items ≡ length branches.new.items }
    ensures within { result < length branches.new.items }
    ensures is_for { IsBranchFor key.now branches.new.items result }
    ensures wide { HoldsAt (λ branch. min_width < branch.tree.width) branches.new.items result }
{
    let Halves { low, high } = halves;
    let place = if high.is_above(key) { left } else { left + 1 };
    branches[left] = low;
    branches[left + 1] = high;
    place
}
