ghost use Rattle.std.specs.Prelude.{◌≡◌, [], ◌∷◌, ◌++◌, IfOk, OnOk, MatchResult};

use crate::items::Items;
use std::alloc::{AllocError, Global};
use std::marker::Model;
use std::mem;

#[derive(Drop)]
enum NoneOneMany<T> {
    None,
    One([T; 1]),
    Many(Vec<T>),
}

/// A list that grows, mostly to one item, which takes no memory. Contracts see its items.
#[derive(Drop)]
pub struct Few<T> {
    alloc: Global,
    items: NoneOneMany<T>,
}

impl<T> Model for Few<T> {
    ghost use Rattle.std.specs.Prelude.{List};
    ghost use Rattle.std.specs.Coded.{coded_list};
    ghost use Rattle.tt_values.specs.Few.{few_view};

    ghost Value = { List T };

    ghost coded = { coded_list T.code };

    ghost view = { λ s. few_view s.items };
}

impl<T: Drop> Few<T> {
    /// No items. Allocates nothing.
    pub fn new(alloc: Global) -> Self
        ensures { result ≡ [] }
    {
        Few {
            alloc,
            items: NoneOneMany::None,
        }
    }

    /// Makes room for this many more items at once, except in a list of one item.
    pub fn reserve(&mut self, more: usize) -> Result<(), AllocError>
        ensures { OnOk result (self.new ≡ self.old) }
    {
        match &mut self.items {
            NoneOneMany::None => {
                if more > 1 {
                    self.items = NoneOneMany::Many(Vec::with_capacity(self.alloc, more)?);
                }
            }
            NoneOneMany::One(_) => {}
            NoneOneMany::Many(items) => items.reserve_exact(more)?,
        }
        Ok(())
    }

    /// Adds an item at the end. Without memory the items are lost.
    pub fn push(&mut self, item: T) -> Result<(), AllocError>
        ensures { OnOk result (self.new ≡ self.old ++ item ∷ []) }
    {
        if let NoneOneMany::Many(items) = &mut self.items {
            items.push(item)?;
            return Ok(());
        }
        let alloc = self.alloc;
        self.items = match mem::replace(&mut self.items, NoneOneMany::None) {
            NoneOneMany::None => NoneOneMany::One([item]),
            NoneOneMany::One(first) => NoneOneMany::Many(two(alloc, first, item)?),
            NoneOneMany::Many(mut items) => {
                items.push(item)?;
                NoneOneMany::Many(items)
            }
        };
        Ok(())
    }

    pub fn as_slice(&self) -> &[T]
        ensures { result.now ≡ self.now }
    {
        match &self.items {
            NoneOneMany::None => &[],
            NoneOneMany::One(item) => &item[..],
            NoneOneMany::Many(items) => items.as_slice(),
        }
    }

    /// The only item, or else all items. Allocates nothing.
    pub fn into_one(self) -> Result<T, Vec<T>>
        ensures { MatchResult result
            (λ item. self ≡ item ∷ []) (λ items. self ≡ items.items) }
    {
        let Few { alloc, items } = self;
        match items {
            NoneOneMany::None => Err(Vec::new(alloc)),
            NoneOneMany::One(item) => Ok(only(item)),
            NoneOneMany::Many(items) => Err(items),
        }
    }

    /// The list, which can be shared from now on.
    pub fn into_items(self) -> Result<Items<T>, AllocError>
        ensures { IfOk result (λ list. list ≡ self) }
    {
        let Few { alloc, items } = self;
        match items {
            NoneOneMany::None => Items::of(alloc, []),
            NoneOneMany::One(item) => Items::of(alloc, item),
            NoneOneMany::Many(items) => Items::new(alloc, items),
        }
    }
}

fn only<T>(items: [T; 1]) -> T
    ensures { items ≡ result ∷ [] }
{
    let [item] = items;
    item
}

/// Two items, with room for further ones.
fn two<T: Drop>(alloc: Global, first: [T; 1], second: T) -> Result<Vec<T>, AllocError>
    ensures { IfOk result (λ items. items.items ≡ first ++ second ∷ []) }
{
    let mut items = Vec::with_capacity(alloc, 4)?;
    items.push(only(first))?;
    items.push(second)?;
    Ok(items)
}
