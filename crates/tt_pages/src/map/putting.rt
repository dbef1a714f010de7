// How an entry is put into a tree: a full node is split on the way down, before anything else
// changes.
ghost use Rattle.std.specs.Prelude.{◌≡◌, ◌+◌, ◌<◌, ◌≤◌, length, IfOk, OnOk, OnErr};
ghost use Rattle.std.specs.Option.{is_none};
ghost use Rattle.std.specs.List.{HoldsAt};
ghost use Rattle.std.specs.Arc.{arc_value};
ghost use Rattle.std.specs.Ordering.{int_cmp};
ghost use Rattle.std.specs.FinMap.Entries.{find, put};
ghost use Rattle.tt_pages.specs.MapEntries.{first_key};
ghost use Rattle.tt_pages.specs.MapTree.{node_value, branch_entries, branch_depth, IsNode, AreBranches, max_width};
ghost use Rattle.tt_pages.specs.MapBranches.{IsBranchFor, AreHalves};

use super::branches::branch_for;
use super::page::{MAX_WIDTH, put_in};
use super::splitting::Halves;
use super::tree::{Branch, Node, Tree, unshare};
use crate::kept::Kept;
use std::alloc::{AllocError, Global};
use std::sync::Arc;

impl<V: Kept + Drop> Tree<V> {
    // Sets the value at the key. Returns whether the key is new.
    #[cycle(map_put)]
    pub(super) fn put(&mut self, alloc: Global, key: &i64, value: V) -> Result<bool, AllocError>
        requires { self.old.width < max_width }
        ensures depth { self.new.depth ≡ self.old.depth }
        ensures width { self.old.width ≤ self.new.width }
        ensures ok { OnOk result (self.new.entries ≡ put int_cmp key.now value self.old.entries) }
        ensures is_new { IfOk result (λ is_new.
            is_new ≡ is_none (find int_cmp key.now self.old.entries)) }
        ensures err { OnErr result (self.new.entries ≡ self.old.entries) }
    {
        self.node.put(alloc, key, value)
    }
}

impl<V: Kept + Drop> Node<V> {
    #[cycle(map_put)]
    fn put(&mut self, alloc: Global, key: &i64, value: V) -> Result<bool, AllocError>
        requires node { IsNode self.old }
        requires room { (node_value self.old).width < max_width }
        ensures node { IsNode self.new }
        ensures depth { (node_value self.new).depth ≡ (node_value self.old).depth }
        ensures width { (node_value self.old).width ≤ (node_value self.new).width }
        ensures ok { OnOk result ((node_value self.new).entries
            ≡ put int_cmp key.now value (node_value self.old).entries) }
        ensures is_new { IfOk result (λ is_new.
            is_new ≡ is_none (find int_cmp key.now (node_value self.old).entries)) }
        ensures err { OnErr result
            ((node_value self.new).entries ≡ (node_value self.old).entries) }
    {
        match self {
            Node::Leaf(page) => put_in(page, key, value),
            Node::Fork(branches) => put_in_fork(alloc, branches, key, value),
        }
    }
}

#[cycle(map_put)]
fn put_in_fork<V: Kept + Drop>(
    alloc: Global,
    branches: &mut Vec<Branch<V>>,
    key: &i64,
    value: V,
) -> Result<bool, AllocError>
    requires fork { AreBranches (branch_depth branches.old.items) branches.old.items }
    requires room { length branches.old.items < max_width }
    ensures fork { AreBranches (branch_depth branches.old.items) branches.new.items }
    ensures width { length branches.old.items ≤ length branches.new.items }
    ensures ok { OnOk result (branch_entries branches.new.items
        ≡ put int_cmp key.now value (branch_entries branches.old.items)) }
    ensures is_new { IfOk result (λ is_new.
        is_new ≡ is_none (find int_cmp key.now (branch_entries branches.old.items))) }
    ensures err { OnErr result
        (branch_entries branches.new.items ≡ branch_entries branches.old.items) }
{
    let at = make_room(alloc, branches, key)?;
    branches[at].put(alloc, key, value)
}

impl<V: Kept + Drop> Branch<V> {
    #[cycle(map_put)]
    fn put(&mut self, alloc: Global, key: &i64, value: V) -> Result<bool, AllocError>
        requires room { self.old.tree.width < max_width }
        requires first { self.old.first ≡ first_key self.old.tree.entries }
        ensures first { self.new.first ≡ first_key self.new.tree.entries }
        ensures depth { self.new.tree.depth ≡ self.old.tree.depth }
        ensures width { self.old.tree.width ≤ self.new.tree.width }
        ensures ok { OnOk result
            (self.new.tree.entries ≡ put int_cmp key.now value self.old.tree.entries) }
        ensures is_new { IfOk result (λ is_new.
            is_new ≡ is_none (find int_cmp key.now self.old.tree.entries)) }
        ensures err { OnErr result (self.new.tree.entries ≡ self.old.tree.entries) }
    {
        let is_new = put_shared(alloc, &mut self.tree, key, value)?;
        self.first = self.tree.first_key();
        Ok(is_new)
    }
}

#[cycle(map_put)]
pub(super) fn put_shared<V: Kept + Drop>(
    alloc: Global,
    this: &mut Arc<Tree<V>>,
    key: &i64,
    value: V,
) -> Result<bool, AllocError>
    requires { (arc_value this.old).width < max_width }
    ensures depth { (arc_value this.new).depth ≡ (arc_value this.old).depth }
    ensures width { (arc_value this.old).width ≤ (arc_value this.new).width }
    ensures ok { OnOk result
        ((arc_value this.new).entries ≡ put int_cmp key.now value (arc_value this.old).entries) }
    ensures is_new { IfOk result (λ is_new.
        is_new ≡ is_none (find int_cmp key.now (arc_value this.old).entries)) }
    ensures err { OnErr result ((arc_value this.new).entries ≡ (arc_value this.old).entries) }
{
    unshare(alloc, this)?;
    match Arc::get_mut(this) {
        Some(tree) => tree.put(alloc, key, value),
        None => Err(AllocError),
    }
}

// The place of the branch that the key belongs to, which is split first if it is full.
fn make_room<V: Kept + Drop>(
    alloc: Global,
    branches: &mut Vec<Branch<V>>,
    key: &i64,
) -> Result<usize, AllocError>
    requires fork { AreBranches (branch_depth branches.old.items) branches.old.items }
    requires room { length branches.old.items < max_width }
    ensures fork { AreBranches (branch_depth branches.old.items) branches.new.items }
    ensures same { branch_entries branches.new.items ≡ branch_entries branches.old.items }
    ensures width { length branches.old.items ≤ length branches.new.items }
    ensures within { IfOk result (λ at. at < length branches.new.items) }
    ensures is_for { IfOk result (IsBranchFor key.now branches.new.items) }
    ensures wide { IfOk result
        (HoldsAt (λ branch. branch.tree.width < max_width) branches.new.items) }
{
    let at = branch_for(branches, key);
    if branches[at].tree().width() < MAX_WIDTH {
        return Ok(at);
    }
    let halves = branches[at].tree().halves(alloc, key)?;
    insert_halves(branches, at, halves, key)
}

// Puts two halves in place of the branch that they come from. Returns the place of the one that the
// key belongs to.
fn insert_halves<V: Drop>(
    branches: &mut Vec<Branch<V>>,
    at: usize,
    halves: Halves<V>,
    key: &i64,
) -> Result<usize, AllocError>
    requires fork { AreBranches (branch_depth branches.old.items) branches.old.items }
    requires room { length branches.old.items < max_width }
    requires within { at < length branches.old.items }
    requires is_for { IsBranchFor key.now branches.old.items at }
    requires halves { HoldsAt (λ branch. AreHalves branch.tree halves) branches.old.items at }
    ensures fork { AreBranches (branch_depth branches.old.items) branches.new.items }
    ensures same { branch_entries branches.new.items ≡ branch_entries branches.old.items }
    ensures width { length branches.old.items ≤ length branches.new.items }
    ensures within { IfOk result (λ at. at < length branches.new.items) }
    ensures is_for { IfOk result (IsBranchFor key.now branches.new.items) }
    ensures wide { IfOk result
        (HoldsAt (λ branch. branch.tree.width < max_width) branches.new.items) }
{
    let Halves { low, high } = halves;
    let place = if high.is_above(key) { at } else { at + 1 };
    branches.insert(at + 1, high)?;
    branches[at] = low;
    Ok(place)
}
