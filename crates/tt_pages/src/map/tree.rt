// The tree of a map. Its leaves are pages, which all stand at one depth. Maps can share each of its
// trees.
ghost use Rattle.std.specs.Prelude.{◌≡◌, ◌<◌, ◌≤◌, ◌^◌, suc, length, IfOk};
ghost use Rattle.std.specs.Arc.{arc_value};
ghost use Rattle.std.specs.Option.{option_copied};
ghost use Rattle.std.specs.Ordering.{int_cmp, is_lt};
ghost use Rattle.std.specs.FinMap.Entries.{find};
ghost use Rattle.tt_pages.specs.MapEntries.{first_key};
ghost use Rattle.tt_pages.specs.MapTree.{IsNode, IsBranch, node_value, min_width};

use super::branches::{branch_for, share_branches};
use super::page::{Page, copy_of, get_in};
use crate::kept::Kept;
use std::alloc::{AllocError, Global};
use std::marker::Model;
use std::sync::Arc;

#[cycle(map_tree)]
#[derive(Drop)]
pub(super) struct Tree<V> {
    pub(super) node: Node<V>,
}

#[cycle(map_tree)]
#[derive(Drop)]
pub(super) enum Node<V> {
    Leaf(Page<V>),
    Fork(Vec<Branch<V>>),
}

// A tree below a fork, and its first key.
#[cycle(map_tree)]
#[derive(Drop)]
pub(super) struct Branch<V> {
    pub(super) first: i64,
    pub(super) tree: Arc<Tree<V>>,
}

impl<V> Model for Tree<V> {
    ghost use Rattle.tt_pages.specs.MapValues.{TreeValue};

    ghost Value = { TreeValue V };

    ghost use Rattle.tt_pages.specs.MapTree.{IsNode, node_value};

    ghost view = { λ t. node_value t.node };

    ghost invariant = { λ t. IsNode t.node };

    ghost use Rattle.std.specs.Prelude.{◌*◌};

    ghost size = { λ t. 2 * t.depth };

    ghost use Rattle.tt_pages.specs.MapFalls.{deep_le-depth};

    ghost size_decreases = { λ t is. deep_le-depth t.node is };
}

impl<V> Model for Branch<V> {
    ghost use Rattle.tt_pages.specs.MapValues.{BranchValue};

    ghost Value = { BranchValue V };

    ghost use Rattle.std.specs.Arc.{arc_value};

    ghost view = { λ b. record { first = b.first; tree = arc_value b.tree } };

    ghost use Rattle.std.specs.Prelude.{◌*◌, suc};

    ghost size = { λ b. suc (2 * b.tree.depth) };
}

impl<V> Tree<V> {
    pub(super) fn width(&self) -> usize
        ensures { result ≡ self.now.width }
    {
        match &self.node {
            Node::Leaf(page) => page.len(),
            Node::Fork(branches) => branches.len(),
        }
    }

    pub(super) fn first_key(&self) -> i64
        ensures first { result ≡ first_key self.now.entries }
        ensures full { min_width ≤ self.now.width
            → min_width ^ suc self.now.depth ≤ length self.now.entries }
    {
        match &self.node {
            Node::Leaf(page) => page[0].0,
            Node::Fork(branches) => branches[0].first(),
        }
    }

    // How many forks stand above each page.
    pub(super) fn depth(&self) -> usize
        requires { length self.now.entries < 2 ^ 64 }
        ensures depth { result ≡ self.now.depth }
        ensures deep { min_width ^ result ≤ length self.now.entries }
    {
        match &self.node {
            Node::Leaf(_) => 0,
            Node::Fork(branches) => branches[0].tree().depth() + 1,
        }
    }

    pub(super) fn get(&self, key: &i64) -> Option<&V>
        ensures { option_copied result ≡ find int_cmp key.now self.now.entries }
    {
        match &self.node {
            Node::Leaf(page) => get_in(page, key),
            Node::Fork(branches) => branches[branch_for(branches, key)].tree().get(key),
        }
    }
}

impl<V> Branch<V> {
    fn first(&self) -> i64
        ensures { result ≡ self.now.first }
    {
        self.first
    }

    pub(super) fn tree(&self) -> &Tree<V>
        ensures { result.now ≡ self.now.tree }
    {
        &self.tree
    }

    // Whether each key of the branch is above this one.
    pub(super) fn is_above(&self, key: &i64) -> bool
        ensures { result ≡ is_lt (int_cmp key.now self.now.first) }
    {
        key.cmp(&self.first).is_lt()
    }
}

impl<V: Kept + Drop> Tree<V> {
    // A copy of the node. Below a fork it shares the trees.
    fn copy(&self, alloc: Global) -> Result<Tree<V>, AllocError>
        ensures { IfOk result (λ copy. copy ≡ self.now) }
    {
        let node = match &self.node {
            Node::Leaf(page) => Node::Leaf(copy_of(alloc, page)?),
            Node::Fork(branches) => Node::Fork(share_branches(alloc, branches)?),
        };
        Ok(Tree { node })
    }
}

// Makes this the only owner of its tree, which is copied if it has other owners.
pub(super) fn unshare<V: Kept + Drop>(
    alloc: Global,
    this: &mut Arc<Tree<V>>,
) -> Result<(), AllocError>
    ensures { arc_value this.new ≡ arc_value this.old }
{
    if is_shared(this) {
        return own_copy(alloc, this);
    }
    Ok(())
}

// Whether the tree has other owners.
#[inline(always)]
fn is_shared<V>(this: &Arc<Tree<V>>) -> bool {
    Arc::strong_count(this) != 1
}

// Puts a copy of its own in the place of a tree.
fn own_copy<V: Kept + Drop>(alloc: Global, this: &mut Arc<Tree<V>>) -> Result<(), AllocError>
    ensures { arc_value this.new ≡ arc_value this.old }
{
    let copy = this.copy(alloc)?;
    *this = Arc::new(alloc, copy)?;
    Ok(())
}

impl<V: Drop> Branch<V> {
    // A branch of this node.
    pub(super) fn of(alloc: Global, node: Node<V>) -> Result<Branch<V>, AllocError>
        requires node { IsNode node }
        requires wide { min_width ≤ (node_value node).width }
        ensures tree { IfOk result (λ branch. branch.tree ≡ node_value node) }
        ensures branch { IfOk result (IsBranch (node_value node).depth) }
    {
        let tree = Tree { node };
        Ok(Branch {
            first: tree.first_key(),
            tree: Arc::new(alloc, tree)?,
        })
    }

    // Another owner of the same tree.
    #[inline(always)]
    pub(super) fn share(&self) -> Result<Branch<V>, AllocError>
        ensures { IfOk result (λ copy. copy ≡ self.now) }
    {
        Ok(Branch {
            first: self.first,
            tree: Arc::try_clone(&self.tree)?,
        })
    }
}
