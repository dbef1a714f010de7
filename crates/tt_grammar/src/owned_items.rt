ghost use Rattle.std.specs.Prelude.{◌≡◌, ◌==◌, ◌++◌, ◌∷◌, [], length, IfOk};

use std::alloc::{AllocError, Global};
use std::marker::Model;
use tt_values::Items;

/// A list with one owner. Contracts see its items, and not its capacity.
#[derive(Debug, Drop)]
pub struct OwnedItems<T> {
    items: Vec<T>,
}

impl<T> Model for OwnedItems<T> {
    ghost use Rattle.std.specs.Prelude.{List};
    ghost use Rattle.std.specs.Coded.{coded_list};

    ghost Value = { List T };

    ghost coded = { coded_list T.code };

    ghost view = { λ list. list.items.items };
}

impl<T: Drop> OwnedItems<T> {
    pub fn len(&self) -> usize
        ensures { result ≡ length self.now }
    {
        self.items.len()
    }

    pub fn is_empty(&self) -> bool
        ensures { result ≡ (length self.now == 0) }
    {
        self.items.is_empty()
    }

    pub fn as_slice(&self) -> &[T]
        ensures { result.now ≡ self.now }
    {
        self.items.as_slice()
    }

    /// Allocates nothing.
    pub fn into_vec(self) -> Vec<T>
        ensures { result.items ≡ self }
    {
        self.items
    }

    /// No items, with room for a number of them.
    pub fn with_room(alloc: Global, count: usize) -> Result<Self, AllocError>
        ensures { IfOk result (λ list. list ≡ []) }
    {
        let items = Vec::with_capacity(alloc, count)?;
        Ok(OwnedItems { items })
    }

    /// The list with one more item at its end.
    pub fn with_item(self, item: T) -> Result<Self, AllocError>
        ensures { IfOk result (λ longer. longer ≡ self ++ item ∷ []) }
    {
        let mut items = self.items;
        items.push(item)?;
        Ok(OwnedItems { items })
    }

    /// The same items, for several owners.
    pub fn into_items(self, alloc: Global) -> Result<Items<T>, AllocError>
        ensures { IfOk result (λ items. items ≡ self) }
    {
        let items = Items::new(alloc, self.items)?;
        Ok(items)
    }
}
