ghost use Rattle.std.specs.Prelude.{◌≡◌, suc, ◌<◌, ◌≤◌, max, ◌++◌, length, take, slice_get, slice_set, Some, IfOk, OnOk, OnErr};
ghost use Rattle.tt_pages.specs.LogDepth.{least};
ghost use Rattle.tt_pages.specs.LogTree.{node_items, node_depth, branch_items, IsFilled};
ghost use Rattle.tt_pages.specs.LogSlice.{IsSlice};

use super::page::{Page, items_from};
use crate::kept::Kept;
use std::alloc::{AllocError, Global};
use std::marker::Model;
use std::sync::Arc;

/// A tree of pages, with at least one item.
#[cycle(log_tree)]
#[derive(Drop)]
pub(super) struct Tree<T> {
    len: usize,
    node: Node<T>,
}

#[cycle(log_tree)]
#[derive(Drop)]
enum Node<T> {
    Leaf(Arc<Page<T>>),
    Fork(Arc<(Tree<T>, Tree<T>)>),
}

impl<T> Model for Tree<T> {
    ghost use Rattle.std.specs.Prelude.{◌≡◌, List, ℕ, length};
    ghost use Rattle.std.specs.Coded.{coded_list, coded×, coded_ℕ};

    // The items, and the depth: the number of forks on the longest path to a page.
    ghost Value = { List T × ℕ };

    ghost coded = { coded× (coded_list T.code) coded_ℕ };

    ghost use Rattle.tt_pages.specs.LogTree.{node_items, node_depth, IsFilled};

    ghost view = { λ tree. (node_items tree.node, node_depth tree.node) };

    ghost invariant = { λ tree.
        (tree.len ≡ length (node_items tree.node)) × IsFilled tree.node };

    ghost size = { λ value. length value.0 };

    ghost use Rattle.std.proofs.Common.{arith, length-append};

    ghost size_decreases = { λ a h. Prim.grind (arith, length-append) };
}

impl<T: Drop> Tree<T> {
    pub(super) fn leaf(page: Arc<Page<T>>) -> Self
        requires { 0 < length page.value }
        ensures { result ≡ (page.value, 0) }
    {
        Tree {
            len: page.len(),
            node: Node::Leaf(page),
        }
    }

    fn fork(alloc: Global, left: Self, right: Self) -> Result<Self, AllocError>
        requires left { least (suc left.1) ≤ length left.0 }
        requires right { least right.1 ≤ length left.0 }
        ensures { IfOk result (λ tree. tree ≡ (left.0 ++ right.0, suc (max left.1 right.1))) }
    {
        let len = left.len().checked_add(right.len()).ok_or(AllocError)?;
        let node = Node::Fork(Arc::new(alloc, (left, right))?);
        Ok(Tree { len, node })
    }

    #[tactic(auto, using(crate::proofs::LogBalance::node_has_least))]
    pub(super) fn len(&self) -> usize
        ensures len { result ≡ length self.now.0 }
        ensures filled { 0 < result }
        ensures balanced { least self.now.1 ≤ result }
        ensures shallow { self.now.1 < 128 }
    {
        self.len
    }

    pub(super) fn get(&self, position: usize) -> &T
        requires { position < length self.now.0 }
        ensures { slice_get self.now.0 position ≡ Some result.now }
    {
        match &self.node {
            Node::Leaf(page) => &page.as_slice()[position],
            Node::Fork(branches) => {
                let left_len = branches.0.len;
                let (branch, rest) = if position < left_len {
                    (&branches.0, position)
                } else {
                    (&branches.1, position - left_len)
                };
                branch.get(rest)
            }
        }
    }

    /// The items from a position to the end of its page.
    #[tactic(auto, using(crate::proofs::LogRules::slice_left))]
    pub(super) fn page_from(&self, position: usize) -> &[T]
        requires { position < length self.now.0 }
        ensures { IsSlice self.now.0 position result.now }
    {
        match &self.node {
            Node::Leaf(page) => items_from(page.as_slice(), position),
            Node::Fork(branches) => {
                let left_len = branches.0.len;
                if position < left_len {
                    branches.0.page_from(position)
                } else {
                    branches.1.page_from(position - left_len)
                }
            }
        }
    }

    /// Another owner of the same nodes and pages.
    pub(super) fn share(&self) -> Result<Self, AllocError>
        ensures { IfOk result (λ tree. tree ≡ self.now) }
    {
        let node = share_node(&self.node)?;
        Ok(Tree {
            len: self.len,
            node,
        })
    }

    /// Adds a page at the end. Nodes that are shared are copied.
    #[cycle(appending)]
    pub(super) fn append(&mut self, alloc: Global, page: &Arc<Page<T>>) -> Result<(), AllocError>
        requires { 0 < length page.now.value }
        ensures ok { OnOk result (self.new.0 ≡ self.old.0 ++ page.now.value) }
        ensures depth { OnOk result (least self.new.1 ≤ length self.old.0) }
        ensures err { OnErr result (self.new ≡ self.old) }
    {
        let len = self.len.checked_add(page.len()).ok_or(AllocError)?;
        append_to_node(&mut self.node, alloc, self.len, page)?;
        self.len = len;
        Ok(())
    }
}

impl<T: Drop> Clone for Tree<T> {
    ghost use Rattle.std.specs.Prelude.{◌≡◌};

    ghost is_clone = { λ source copy. copy ≡ source };

    fn clone(&self) -> Result<Self, AllocError> {
        self.share()
    }
}

impl<T: Kept + Drop> Tree<T> {
    /// The first `count` items. Copies at most one page.
    #[tactic(auto, using(crate::proofs::LogRules::take_in_right, crate::proofs::LogBalance::least_monotone))]
    pub(super) fn front(&self, alloc: Global, count: usize) -> Result<Self, AllocError>
        requires some { 0 < count }
        requires in_range { count ≤ length self.now.0 }
        ensures items { IfOk result (λ tree. tree.0 ≡ take count self.now.0) }
        ensures depth { IfOk result (λ tree. tree.1 ≤ self.now.1) }
    {
        if count == self.len {
            return self.share();
        }
        match &self.node {
            Node::Leaf(page) => {
                let page = Page::copy_of(alloc, &page.as_slice()[..count])?;
                Ok(Tree::leaf(Arc::new(alloc, page)?))
            }
            Node::Fork(branches) => {
                let left_len = branches.0.len;
                if count <= left_len {
                    return branches.0.front(alloc, count);
                }
                let right = branches.1.front(alloc, count - left_len)?;
                Tree::fork(alloc, branches.0.share()?, right)
            }
        }
    }

    /// Replaces the item at a position. Nodes and pages that are shared are copied. Nothing is
    /// promised of what is left in `item`.
    #[cycle(replacing)]
    pub(super) fn replace(&mut self, position: usize, item: &mut T) -> Result<(), AllocError>
        requires { position < length self.old.0 }
        ensures ok { OnOk result (self.new.0 ≡ slice_set self.old.0 position item.old) }
        ensures depth { self.new.1 ≡ self.old.1 }
        ensures err { OnErr result (self.new ≡ self.old) }
    {
        replace_in_node(&mut self.node, position, item)
    }
}

/// Adds a page at the end of a node of `len` items: to the right branch while it is the shorter.
#[cycle(appending)]
fn append_to_node<T: Drop>(
    node: &mut Node<T>,
    alloc: Global,
    len: usize,
    page: &Arc<Page<T>>,
) -> Result<(), AllocError>
    requires page { 0 < length page.now.value }
    requires filled { IsFilled node.old }
    requires len { len ≡ length (node_items node.old) }
    ensures ok { OnOk result (node_items node.new ≡ node_items node.old ++ page.now.value) }
    ensures depth { OnOk result (least (node_depth node.new) ≤ len) }
    ensures err { OnErr result (node_items node.new ≡ node_items node.old) }
    ensures err_depth { OnErr result (node_depth node.new ≡ node_depth node.old) }
    ensures filled { IsFilled node.new }
{
    match node {
        Node::Fork(branches) if branches.1.len() < branches.0.len() => append_to_right(
            branches, alloc, page,
        ),
        _ => add_fork(node, alloc, len, page),
    }
}

#[cycle(appending)]
fn append_to_right<T: Drop>(
    branches: &mut Arc<(Tree<T>, Tree<T>)>,
    alloc: Global,
    page: &Arc<Page<T>>,
) -> Result<(), AllocError>
    requires page { 0 < length page.now.value }
    ensures left { branches.new.value.0 ≡ branches.old.value.0 }
    ensures ok { OnOk result (branches.new.value.1.0 ≡ branches.old.value.1.0 ++ page.now.value) }
    ensures depth { OnOk result (least branches.new.value.1.1 ≤ length branches.old.value.1.0) }
    ensures err { OnErr result (branches.new.value.1 ≡ branches.old.value.1) }
{
    Arc::make_mut(branches)?.1.append(alloc, page)
}

/// Makes a node of `len` items the left branch of a fork whose right branch is a page.
fn add_fork<T: Drop>(
    node: &mut Node<T>,
    alloc: Global,
    len: usize,
    page: &Arc<Page<T>>,
) -> Result<(), AllocError>
    requires page { 0 < length page.now.value }
    requires filled { IsFilled node.old }
    requires len { len ≡ length (node_items node.old) }
    requires full { least (suc (node_depth node.old)) ≤ len }
    ensures ok { OnOk result (node_items node.new ≡ node_items node.old ++ page.now.value) }
    ensures depth { OnOk result (least (node_depth node.new) ≤ len) }
    ensures err { OnErr result (node_items node.new ≡ node_items node.old) }
    ensures err_depth { OnErr result (node_depth node.new ≡ node_depth node.old) }
    ensures filled { IsFilled node.new }
{
    let left = Tree {
        len,
        node: share_node(node)?,
    };
    let right = Tree::leaf(page.clone()?);
    *node = Node::Fork(Arc::new(alloc, (left, right))?);
    Ok(())
}

#[cycle(replacing)]
fn replace_in_node<T: Kept + Drop>(
    node: &mut Node<T>,
    position: usize,
    item: &mut T,
) -> Result<(), AllocError>
    requires in_range { position < length (node_items node.old) }
    requires filled { IsFilled node.old }
    ensures ok { OnOk result
        (node_items node.new ≡ slice_set (node_items node.old) position item.old) }
    ensures err { OnErr result (node_items node.new ≡ node_items node.old) }
    ensures depth { node_depth node.new ≡ node_depth node.old }
    ensures filled { IsFilled node.new }
{
    match node {
        Node::Leaf(page) => replace_in_page(page, position, item),
        Node::Fork(branches) => replace_in_branches(branches, position, item),
    }
}

#[cycle(replacing)]
#[tactic(auto, using(crate::proofs::LogRules::set_in_left, crate::proofs::LogRules::set_in_right))]
fn replace_in_branches<T: Kept + Drop>(
    branches: &mut Arc<(Tree<T>, Tree<T>)>,
    position: usize,
    item: &mut T,
) -> Result<(), AllocError>
    requires { position < length (branch_items branches.old) }
    ensures ok { OnOk result (
        branch_items branches.new ≡ slice_set (branch_items branches.old) position item.old) }
    ensures err { OnErr result (branch_items branches.new ≡ branch_items branches.old) }
    ensures left { length branches.new.value.0.0 ≡ length branches.old.value.0.0 }
    ensures right { length branches.new.value.1.0 ≡ length branches.old.value.1.0 }
    ensures left_depth { branches.new.value.0.1 ≡ branches.old.value.0.1 }
    ensures right_depth { branches.new.value.1.1 ≡ branches.old.value.1.1 }
{
    let (left, right) = Arc::make_mut(branches)?;
    if position < left.len {
        left.replace(position, item)
    } else {
        right.replace(position - left.len, item)
    }
}

/// Replaces the item at a position of a page, which is copied if it is shared.
pub(super) fn replace_in_page<T: Kept + Drop>(
    page: &mut Arc<Page<T>>,
    position: usize,
    item: &mut T,
) -> Result<(), AllocError>
    requires { position < length page.old.value }
    ensures ok { OnOk result (page.new.value ≡ slice_set page.old.value position item.old) }
    ensures err { OnErr result (page.new.value ≡ page.old.value) }
{
    Arc::make_mut(page)?.swap(position, item);
    Ok(())
}

fn share_node<T: Drop>(node: &Node<T>) -> Result<Node<T>, AllocError>
    requires { IsFilled node.now }
    ensures items { IfOk result (λ shared. node_items shared ≡ node_items node.now) }
    ensures depth { IfOk result (λ shared. node_depth shared ≡ node_depth node.now) }
    ensures filled { IfOk result IsFilled }
{
    Ok(match node {
        Node::Leaf(page) => Node::Leaf(page.clone()?),
        Node::Fork(branches) => Node::Fork(branches.clone()?),
    })
}
