ghost use Rattle.std.specs.Prelude.{◌≡◌, ◌<◌, ◌≤◌, ◌+◌, ◌-◌, min, [], ◌∷◌, ◌++◌, length, replicate, slice_set, IfOk, OnOk, OnErr};
ghost use Rattle.tt_pages.specs.LogDepth.{page_size};
ghost use Rattle.tt_pages.specs.LogSlice.{IsSlice};

use crate::kept::Kept;
use std::alloc::{AllocError, Global};
use std::marker::Model;
use std::mem;

/// The number of items in a full page.
pub(super) const PAGE_SIZE: usize = 16;

/// A short list of items, in one block of memory.
#[derive(Drop)]
pub(super) struct Page<T> {
    items: Vec<T>,
}

impl<T> Model for Page<T> {
    ghost use Rattle.std.specs.Prelude.{List, ◌≤◌, length};
    ghost use Rattle.std.specs.Coded.{coded_list};
    ghost use Rattle.tt_pages.specs.LogDepth.{page_size};

    ghost Value = { List T };

    ghost coded = { coded_list T.code };

    ghost view = { λ page. page.items.items };

    ghost invariant = { λ page. length page.items.items ≤ page_size };
}

impl<T: Drop> Page<T> {
    /// A page of one item, with room for `room` items.
    pub(super) fn of_one(alloc: Global, item: T, room: usize) -> Result<Self, AllocError>
        ensures { IfOk result (λ page. page ≡ item ∷ []) }
    {
        let mut items = Vec::with_capacity(alloc, room)?;
        items.push(item)?;
        Ok(Page { items })
    }

    pub(super) fn len(&self) -> usize
        ensures len { result ≡ length self.now }
        ensures within { result ≤ page_size }
    {
        self.items.len()
    }

    pub(super) fn as_slice(&self) -> &[T]
        ensures items { result.now ≡ self.now }
        ensures within { length result.now ≤ page_size }
    {
        self.items.as_slice()
    }

    pub(super) fn push(&mut self, item: T) -> Result<(), AllocError>
        requires { length self.old < page_size }
        ensures ok { OnOk result (self.new ≡ self.old ++ item ∷ []) }
        ensures err { OnErr result (self.new ≡ self.old) }
    {
        self.items.push(item)?;
        Ok(())
    }

    /// Puts an item in the place of another one, which is left in `item`.
    pub(super) fn swap(&mut self, position: usize, item: &mut T)
        requires { position < length self.old }
        ensures { self.new ≡ slice_set self.old position item.old }
    {
        mem::swap(&mut self.items[position], item);
    }
}

impl<T: Kept + Drop> Page<T> {
    /// A copy of the items, with room for one more.
    pub(super) fn copy_of(alloc: Global, source: &[T]) -> Result<Self, AllocError>
        requires { length source.now ≤ page_size }
        ensures { IfOk result (λ page. page ≡ source.now) }
    {
        let mut items = Vec::with_capacity(alloc, source.len().saturating_add(1))?;
        for item in source {
            items.push(item.kept()?)?;
        }
        Ok(Page { items })
    }

    /// Adds copies of an item while there is room, but at most `most`. Returns how many.
    #[tactic(auto, using(crate::proofs::LogRules::one_copy_more))]
    pub(super) fn push_copies(&mut self, item: &T, most: usize) -> Result<usize, AllocError>
        ensures count { IfOk result (λ count.
            count ≡ min most (page_size - length self.old)) }
        ensures items { IfOk result (λ count.
            self.new ≡ self.old ++ replicate count item.now) }
        ensures within { length self.new ≤ length self.old + most }
    {
        let count = most.min(PAGE_SIZE - self.items.len());
        for _ in 0..count {
            self.items.push(item.kept()?)?;
        }
        Ok(count)
    }
}

impl<T: Kept + Drop> Clone for Page<T> {
    ghost use Rattle.std.specs.Prelude.{◌≡◌};

    ghost is_clone = { λ source copy. copy ≡ source };

    fn clone(&self) -> Result<Self, AllocError> {
        Page::copy_of(*self.items.allocator(), self.as_slice())
    }
}

/// The items of a page from a position on.
pub(super) fn items_from<T>(items: &[T], position: usize) -> &[T]
    requires { position < length items.now }
    ensures { IsSlice items.now position result.now }
{
    &items[position..]
}
