// The tree of a whole map, which grows and shrinks at its root.
ghost use Rattle.std.specs.Prelude.{◌≡◌, ◌+◌, ◌<◌, ◌≤◌, [], ◌∷◌, length, IfOk, IfSome, IfNone, OnOk, OnErr};
ghost use Rattle.std.specs.Arc.{arc_value};
ghost use Rattle.std.specs.Option.{is_none, is_some};
ghost use Rattle.std.specs.Ordering.{int_cmp};
ghost use Rattle.std.specs.FinMap.Entries.{find, put};
ghost use Rattle.tt_pages.specs.MapEntries.{entries_without, keys_of, ChangesAt, StaysWithout, FitsAt, MovesAt, KeptUnless};
ghost use Rattle.tt_pages.specs.MapTree.{entries_of_root as entries, max_width};

use super::page::{MAX_WIDTH, put_in};
use super::putting::put_shared;
use super::removal::remove_shared;
use super::splitting::Halves;
use super::tree::{Node, Tree};
use crate::kept::Kept;
use crate::modify::ModifyWith;
use std::alloc::{AllocError, Global};
use std::sync::Arc;

// Sets the value at the key. Returns whether the key is new.
pub(super) fn put_in_root<V: Kept + Drop>(
    alloc: Global,
    root: &mut Option<Arc<Tree<V>>>,
    key: &i64,
    value: V,
) -> Result<bool, AllocError>
    ensures ok { OnOk result (entries root.new ≡ put int_cmp key.now value (entries root.old)) }
    ensures is_new { IfOk result (λ is_new.
        is_new ≡ is_none (find int_cmp key.now (entries root.old))) }
    ensures err { OnErr result (entries root.new ≡ entries root.old) }
{
    match root {
        Some(tree) => {
            make_room_at_root(alloc, tree, key)?;
            put_shared(alloc, tree, key, value)
        }
        None => {
            *root = Some(lone_entry(alloc, key, value)?);
            Ok(true)
        }
    }
}

// Changes the value at the key and the context, if there is a value. Returns whether there is.
pub(super) fn change_in_root<V: Kept + Drop, C, M: ModifyWith<V, C>>(
    alloc: Global,
    root: &mut Option<Arc<Tree<V>>>,
    key: &i64,
    change: &mut M,
    context: &mut C,
) -> Result<bool, AllocError>
    requires { FitsAt key.now (M.fits change.old) (entries root.old) context.old }
    ensures keys { keys_of (entries root.new) ≡ keys_of (entries root.old) }
    ensures ok { OnOk result
        (ChangesAt key.now (M.after change.old) (entries root.old) (entries root.new)) }
    ensures stays { OnOk result (StaysWithout key.now (entries root.old) (entries root.new)) }
    ensures found { IfOk result
        (λ found. found ≡ is_some (find int_cmp key.now (entries root.old))) }
    ensures moves { OnOk result
        (MovesAt key.now (M.moves change.old) (entries root.old) context.old context.new) }
    ensures kept { IfOk result
        (λ found. KeptUnless found change.old change.new context.old context.new) }
{
    match root {
        Some(tree) => Tree::change_shared(alloc, tree, key, change, context),
        None => Ok(false),
    }
}

// Removes the key, if the map has it. Returns whether it did.
pub(super) fn remove_from_root<V: Kept + Drop>(
    alloc: Global,
    root: &mut Option<Arc<Tree<V>>>,
    len: usize,
    key: &i64,
) -> Result<bool, AllocError>
    requires { len ≡ length (entries root.old) }
    ensures ok { OnOk result (entries root.new ≡ entries_without key.now (entries root.old)) }
    ensures is_gone { IfOk result (λ is_gone.
        is_gone ≡ is_some (find int_cmp key.now (entries root.old))) }
    ensures err { OnErr result (entries root.new ≡ entries root.old) }
{
    let Some(tree) = root else {
        return Ok(false);
    };
    if tree.get(key).is_none() {
        return Ok(false);
    }
    if len == 1 {
        *root = None;
        return Ok(true);
    }
    lower_root(tree)?;
    remove_shared(alloc, tree, key)?;
    Ok(true)
}

// Splits the root if it is full.
fn make_room_at_root<V: Kept + Drop>(
    alloc: Global,
    this: &mut Arc<Tree<V>>,
    key: &i64,
) -> Result<(), AllocError>
    ensures same { (arc_value this.new).entries ≡ (arc_value this.old).entries }
    ensures room { OnOk result ((arc_value this.new).width < max_width) }
{
    if this.width() >= MAX_WIDTH {
        let tree = this.raised(alloc, key)?;
        *this = Arc::new(alloc, tree)?;
    }
    Ok(())
}

// Puts the only branch of the root in its place, if it has but one.
fn lower_root<V: Drop>(this: &mut Arc<Tree<V>>) -> Result<(), AllocError>
    requires { 1 < length (arc_value this.old).entries }
    ensures same { (arc_value this.new).entries ≡ (arc_value this.old).entries }
    ensures many { OnOk result (1 < (arc_value this.new).width) }
{
    if let Some(tree) = this.only_branch()? {
        *this = tree;
    }
    Ok(())
}

fn lone_entry<V: Drop>(alloc: Global, key: &i64, value: V) -> Result<Arc<Tree<V>>, AllocError>
    ensures { IfOk result (λ tree. (arc_value tree).entries ≡ (key.now, value) ∷ []) }
{
    let mut page = Vec::with_capacity(alloc, MAX_WIDTH)?;
    put_in(&mut page, key, value)?;
    let tree = Tree {
        node: Node::Leaf(page),
    };
    Ok(Arc::new(alloc, tree)?)
}

impl<V: Kept + Drop> Tree<V> {
    // A fork of the two halves of this full tree.
    fn raised(&self, alloc: Global, key: &i64) -> Result<Tree<V>, AllocError>
        requires { max_width ≤ self.now.width }
        ensures same { IfOk result (λ tree. tree.entries ≡ self.now.entries) }
        ensures room { IfOk result (λ tree. tree.width < max_width) }
    {
        let Halves { low, high } = self.halves(alloc, key)?;
        let mut branches = Vec::with_capacity(alloc, MAX_WIDTH)?;
        branches.push(low)?;
        branches.push(high)?;
        Ok(Tree {
            node: Node::Fork(branches),
        })
    }
}

impl<V: Drop> Tree<V> {
    // The tree of the only branch, if the node is a fork of one.
    fn only_branch(&self) -> Result<Option<Arc<Tree<V>>>, AllocError>
        requires { 1 < length self.now.entries }
        ensures same { IfOk result (λ only. IfSome only (λ tree.
            (arc_value tree).entries ≡ self.now.entries)) }
        ensures many { IfOk result (λ only. IfSome only (λ tree. 1 < (arc_value tree).width)) }
        ensures none { IfOk result (λ only. IfNone only (1 < self.now.width)) }
    {
        let Node::Fork(branches) = &self.node else {
            return Ok(None);
        };
        if branches.len() > 1 {
            return Ok(None);
        }
        let tree = Arc::try_clone(&branches[0].tree)?;
        Ok(Some(tree))
    }
}
