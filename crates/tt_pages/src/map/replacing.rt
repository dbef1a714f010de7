// How the value at a key of a tree is changed with a context, if there is a value. The keys stay,
// and so does the shape of the tree. Each function returns whether there is a value.
ghost use Rattle.std.specs.Prelude.{◌≡◌, length, is_some, IfOk, OnOk};
ghost use Rattle.std.specs.Arc.{arc_value};
ghost use Rattle.std.specs.Ordering.{int_cmp};
ghost use Rattle.std.specs.FinMap.Entries.{find};
ghost use Rattle.tt_pages.specs.MapEntries.{keys_of, ChangesAt, StaysWithout, FitsAt, MovesAt, KeptUnless};
ghost use Rattle.tt_pages.specs.MapTree.{node_value, branch_entries, branch_depth, IsNode, AreBranches};

use super::branches::branch_for;
use super::page::change_in;
use super::tree::{Branch, Node, Tree, unshare};
use crate::kept::Kept;
use crate::modify::ModifyWith;
use std::alloc::{AllocError, Global};
use std::sync::Arc;

impl<V: Kept + Drop> Tree<V> {
    // Changes the value at a key of the tree. After an error nothing is promised about the value
    // and the context.
    #[cycle(map_change)]
    fn change<C, M: ModifyWith<V, C>>(
        &mut self,
        alloc: Global,
        key: &i64,
        change: &mut M,
        context: &mut C,
    ) -> Result<bool, AllocError>
        requires { FitsAt key.now (M.fits change.old) self.old.entries context.old }
        ensures depth { self.new.depth ≡ self.old.depth }
        ensures width { self.new.width ≡ self.old.width }
        ensures keys { keys_of self.new.entries ≡ keys_of self.old.entries }
        ensures ok { OnOk result
            (ChangesAt key.now (M.after change.old) self.old.entries self.new.entries) }
        ensures stays { OnOk result (StaysWithout key.now self.old.entries self.new.entries) }
        ensures found { IfOk result
            (λ found. found ≡ is_some (find int_cmp key.now self.old.entries)) }
        ensures moves { OnOk result
            (MovesAt key.now (M.moves change.old) self.old.entries context.old context.new) }
        ensures kept { IfOk result
            (λ found. KeptUnless found change.old change.new context.old context.new) }
    {
        self.node.change(alloc, key, change, context)
    }

    #[cycle(map_change)]
    pub(super) fn change_shared<C, M: ModifyWith<V, C>>(
        alloc: Global,
        this: &mut Arc<Tree<V>>,
        key: &i64,
        change: &mut M,
        context: &mut C,
    ) -> Result<bool, AllocError>
        requires { FitsAt key.now (M.fits change.old) (arc_value this.old).entries context.old }
        ensures depth { (arc_value this.new).depth ≡ (arc_value this.old).depth }
        ensures width { (arc_value this.new).width ≡ (arc_value this.old).width }
        ensures keys { keys_of (arc_value this.new).entries
            ≡ keys_of (arc_value this.old).entries }
        ensures ok { OnOk result (ChangesAt key.now (M.after change.old)
            (arc_value this.old).entries (arc_value this.new).entries) }
        ensures stays { OnOk result
            (StaysWithout key.now (arc_value this.old).entries (arc_value this.new).entries) }
        ensures found { IfOk result
            (λ found. found ≡ is_some (find int_cmp key.now (arc_value this.old).entries)) }
        ensures moves { OnOk result
            (MovesAt key.now (M.moves change.old) (arc_value this.old).entries
            context.old context.new) }
        ensures kept { IfOk result
            (λ found. KeptUnless found change.old change.new context.old context.new) }
    {
        unshare(alloc, this)?;
        match Arc::get_mut(this) {
            Some(tree) => tree.change(alloc, key, change, context),
            None => Err(AllocError),
        }
    }
}

impl<V: Kept + Drop> Node<V> {
    #[cycle(map_change)]
    fn change<C, M: ModifyWith<V, C>>(
        &mut self,
        alloc: Global,
        key: &i64,
        change: &mut M,
        context: &mut C,
    ) -> Result<bool, AllocError>
        requires node { IsNode self.old }
        requires fits { FitsAt key.now (M.fits change.old) (node_value self.old).entries
            context.old }
        ensures node { IsNode self.new }
        ensures depth { (node_value self.new).depth ≡ (node_value self.old).depth }
        ensures width { (node_value self.new).width ≡ (node_value self.old).width }
        ensures keys { keys_of (node_value self.new).entries
            ≡ keys_of (node_value self.old).entries }
        ensures ok { OnOk result (ChangesAt key.now (M.after change.old)
            (node_value self.old).entries (node_value self.new).entries) }
        ensures stays { OnOk result
            (StaysWithout key.now (node_value self.old).entries (node_value self.new).entries) }
        ensures found { IfOk result
            (λ found. found ≡ is_some (find int_cmp key.now (node_value self.old).entries)) }
        ensures moves { OnOk result
            (MovesAt key.now (M.moves change.old) (node_value self.old).entries
            context.old context.new) }
        ensures kept { IfOk result
            (λ found. KeptUnless found change.old change.new context.old context.new) }
    {
        match self {
            Node::Leaf(page) => change_in(page, key, change, context),
            Node::Fork(branches) => Node::change_in_fork(alloc, branches, key, change, context),
        }
    }

    #[cycle(map_change)]
    fn change_in_fork<C, M: ModifyWith<V, C>>(
        alloc: Global,
        branches: &mut Vec<Branch<V>>,
        key: &i64,
        change: &mut M,
        context: &mut C,
    ) -> Result<bool, AllocError>
        requires fork { AreBranches (branch_depth branches.old.items) branches.old.items }
        requires fits { FitsAt key.now (M.fits change.old) (branch_entries branches.old.items)
            context.old }
        ensures fork { AreBranches (branch_depth branches.old.items) branches.new.items }
        ensures width { length branches.new.items ≡ length branches.old.items }
        ensures keys { keys_of (branch_entries branches.new.items)
            ≡ keys_of (branch_entries branches.old.items) }
        ensures ok { OnOk result (ChangesAt key.now (M.after change.old)
            (branch_entries branches.old.items) (branch_entries branches.new.items)) }
        ensures stays { OnOk result (StaysWithout key.now (branch_entries branches.old.items)
            (branch_entries branches.new.items)) }
        ensures found { IfOk result (λ found. found
            ≡ is_some (find int_cmp key.now (branch_entries branches.old.items))) }
        ensures moves { OnOk result
            (MovesAt key.now (M.moves change.old) (branch_entries branches.old.items)
            context.old context.new) }
        ensures kept { IfOk result
            (λ found. KeptUnless found change.old change.new context.old context.new) }
    {
        let at = branch_for(branches, key);
        branches[at].change(alloc, key, change, context)
    }
}

impl<V: Kept + Drop> Branch<V> {
    #[cycle(map_change)]
    fn change<C, M: ModifyWith<V, C>>(
        &mut self,
        alloc: Global,
        key: &i64,
        change: &mut M,
        context: &mut C,
    ) -> Result<bool, AllocError>
        requires { FitsAt key.now (M.fits change.old) self.old.tree.entries context.old }
        ensures first { self.new.first ≡ self.old.first }
        ensures depth { self.new.tree.depth ≡ self.old.tree.depth }
        ensures width { self.new.tree.width ≡ self.old.tree.width }
        ensures keys { keys_of self.new.tree.entries ≡ keys_of self.old.tree.entries }
        ensures ok { OnOk result
            (ChangesAt key.now (M.after change.old) self.old.tree.entries self.new.tree.entries) }
        ensures stays { OnOk result
            (StaysWithout key.now self.old.tree.entries self.new.tree.entries) }
        ensures found { IfOk result
            (λ found. found ≡ is_some (find int_cmp key.now self.old.tree.entries)) }
        ensures moves { OnOk result
            (MovesAt key.now (M.moves change.old) self.old.tree.entries context.old context.new) }
        ensures kept { IfOk result
            (λ found. KeptUnless found change.old change.new context.old context.new) }
    {
        Tree::change_shared(alloc, &mut self.tree, key, change, context)
    }
}
