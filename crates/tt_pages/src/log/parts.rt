ghost use Rattle.std.specs.Prelude.{◌≡◌, ◌<◌, ◌≤◌, ◌+◌, [], ◌∷◌, ◌++◌, length, take, replicate, slice_set, Some, IfOk, OnOk, OnErr};
ghost use Rattle.tt_pages.specs.LogDepth.{page_size};
ghost use Rattle.tt_pages.specs.LogParts.{log_items, tree_items, tail_items};

use super::page::{PAGE_SIZE, Page};
use super::tree::{Tree, replace_in_page};
use crate::kept::Kept;
use std::alloc::{AllocError, Global};
use std::sync::Arc;

pub(super) fn len_of_tree<T: Drop>(tree: &Option<Tree<T>>) -> usize
    ensures { result ≡ length (tree_items tree.now) }
{
    match tree {
        Some(tree) => tree.len(),
        None => 0,
    }
}

pub(super) fn slice_of_tail<T: Drop>(tail: &Option<Arc<Page<T>>>) -> &[T]
    ensures items { result.now ≡ tail_items tail.now }
    ensures within { length result.now ≤ page_size }
{
    match tail {
        Some(page) => page.as_slice(),
        None => &[],
    }
}

pub(super) fn share_tree<T: Drop>(tree: &Option<Tree<T>>) -> Result<Option<Tree<T>>, AllocError>
    ensures { IfOk result (λ shared. tree_items shared ≡ tree_items tree.now) }
{
    match tree {
        Some(tree) => Ok(Some(tree.share()?)),
        None => Ok(None),
    }
}

pub(super) fn share_tail<T: Drop>(
    tail: &Option<Arc<Page<T>>>,
) -> Result<Option<Arc<Page<T>>>, AllocError>
    ensures { IfOk result (λ shared. tail_items shared ≡ tail_items tail.now) }
{
    match tail {
        Some(page) => Ok(Some(page.clone()?)),
        None => Ok(None),
    }
}

/// The first `count` items of a tree. Copies at most one page.
pub(super) fn front_of_tree<T: Kept + Drop>(
    tree: &Option<Tree<T>>,
    alloc: Global,
    count: usize,
) -> Result<Option<Tree<T>>, AllocError>
    requires { count ≤ length (tree_items tree.now) }
    ensures { IfOk result (λ front. tree_items front ≡ take count (tree_items tree.now)) }
{
    match tree {
        Some(tree) if count > 0 => Ok(Some(tree.front(alloc, count)?)),
        _ => Ok(None),
    }
}

/// If the tail is full, makes it the last page of the tree. The log's items stay the same.
pub(super) fn make_room<T: Drop>(
    tree: &mut Option<Tree<T>>,
    tail: &mut Option<Arc<Page<T>>>,
    alloc: Global,
) -> Result<(), AllocError>
    ensures same { log_items tree.new tail.new ≡ log_items tree.old tail.old }
    ensures room { OnOk result (length (tail_items tail.new) < page_size) }
{
    match tail {
        Some(page) if page.len() >= PAGE_SIZE => add_page(tree, alloc, page)?,
        _ => return Ok(()),
    }
    *tail = None;
    Ok(())
}

fn add_page<T: Drop>(
    tree: &mut Option<Tree<T>>,
    alloc: Global,
    page: &Arc<Page<T>>,
) -> Result<(), AllocError>
    requires { 0 < length page.now.value }
    ensures ok { OnOk result (tree_items tree.new ≡ tree_items tree.old ++ page.now.value) }
    ensures err { OnErr result (tree_items tree.new ≡ tree_items tree.old) }
{
    match tree {
        Some(tree) => tree.append(alloc, page),
        None => {
            *tree = Some(Tree::leaf(page.clone()?));
            Ok(())
        }
    }
}

/// Adds an item at the end of the tail, which is copied if it is shared. A new tail has room for
/// `room` items.
pub(super) fn push_to_tail<T: Kept + Drop>(
    tail: &mut Option<Arc<Page<T>>>,
    alloc: Global,
    room: usize,
    item: T,
) -> Result<(), AllocError>
    requires { length (tail_items tail.old) < page_size }
    ensures ok { OnOk result (tail_items tail.new ≡ tail_items tail.old ++ item ∷ []) }
    ensures err { OnErr result (tail_items tail.new ≡ tail_items tail.old) }
{
    match tail {
        Some(page) => push_to_page(page, item),
        None => {
            *tail = Some(Arc::new(alloc, Page::of_one(alloc, item, room)?)?);
            Ok(())
        }
    }
}

fn push_to_page<T: Kept + Drop>(page: &mut Arc<Page<T>>, item: T) -> Result<(), AllocError>
    requires { length page.old.value < page_size }
    ensures ok { OnOk result (page.new.value ≡ page.old.value ++ item ∷ []) }
    ensures err { OnErr result (page.new.value ≡ page.old.value) }
{
    Arc::make_mut(page)?.push(item)
}

/// Adds copies of an item to the tail, if there is one, while it has room, but at most `most`.
/// Returns how many. The tail is copied if it is shared.
pub(super) fn add_to_tail<T: Kept + Drop>(
    tail: &mut Option<Arc<Page<T>>>,
    item: &T,
    most: usize,
) -> Result<usize, AllocError>
    ensures few { IfOk result (λ count. count ≤ most) }
    ensures items { IfOk result (λ count.
        tail_items tail.new ≡ tail_items tail.old ++ replicate count item.now) }
    ensures within { length (tail_items tail.new) ≤ length (tail_items tail.old) + most }
{
    match tail {
        Some(page) => Arc::make_mut(page)?.push_copies(item, most),
        None => Ok(0),
    }
}

pub(super) fn replace_in_tree<T: Kept + Drop>(
    tree: &mut Option<Tree<T>>,
    position: usize,
    item: &mut T,
) -> Result<(), AllocError>
    requires { position < length (tree_items tree.old) }
    ensures ok { OnOk result
        (tree_items tree.new ≡ slice_set (tree_items tree.old) position item.old) }
    ensures err { OnErr result (tree_items tree.new ≡ tree_items tree.old) }
{
    match tree {
        Some(tree) => tree.replace(position, item),
        None => Ok(()),
    }
}

pub(super) fn replace_in_tail<T: Kept + Drop>(
    tail: &mut Option<Arc<Page<T>>>,
    position: usize,
    item: &mut T,
) -> Result<(), AllocError>
    requires { position < length (tail_items tail.old) }
    ensures ok { OnOk result
        (tail_items tail.new ≡ slice_set (tail_items tail.old) position item.old) }
    ensures err { OnErr result (tail_items tail.new ≡ tail_items tail.old) }
{
    match tail {
        Some(page) => replace_in_page(page, position, item),
        None => Ok(()),
    }
}
