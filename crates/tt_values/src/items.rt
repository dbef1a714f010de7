ghost use Rattle.std.specs.Array.Iter.{IntoIterFitsInMemory};
ghost use Rattle.tt_values.specs.Items.{arrays_view};
ghost use Rattle.std.specs.Prelude.{◌≡◌, ◌==◌, ◌<◌, ◌≤◌, ◌^◌, [], ◌∷◌, length, slice_get, IfOk, IsTrue};
ghost use Rattle.std.specs.Option.{option_copied};

use crate::measured::{Measured, bytes_of};
use std::alloc::{AllocError, Global};
use std::array::IntoIter;
use std::fmt;
use std::fmt::{Debug, Formatter};
use std::marker::Model;
use std::sync::Arc;

/// An item of at least this size lies in a `Vec`, and so does an array of that size.
const LARGE_BYTES: usize = 0x1_0000_0000;

/// No items in no memory, up to four in one block, or any number in two.
#[derive(Drop)]
enum Arrays<T> {
    None,
    One(Arc<[T; 1]>),
    Two(Arc<[T; 2]>),
    Three(Arc<[T; 3]>),
    Four(Arc<[T; 4]>),
    Many(Arc<Vec<T>>),
}

/// An immutable list. Its owners share it: `clone` copies no items. Contracts see its items.
pub struct Items<T: Measured> {
    arrays: Arrays<T>,
}

impl<T: Measured> Model for Items<T> {
    ghost use Rattle.std.specs.Prelude.{List};
    ghost use Rattle.std.specs.Coded.{coded_list};
    ghost use Rattle.tt_values.specs.Items.{arrays_view, ArraysFit};

    ghost Value = { List T };

    ghost coded = { coded_list T.code };

    ghost view = { λ s. arrays_view s.arrays };

    ghost invariant = { λ s. ArraysFit T.bytes s.arrays };
}

// Written by hand, so that every place that drops a list calls one function.
impl<T: Drop> Drop for Items<T> {
    fn drop(self) {
        T::measured();
        let Items { arrays: _ } = self;
    }
}

impl<T: Drop> Items<T> {
    /// Moves the items to memory that owners can share; the result is their first owner.
    pub fn new(alloc: Global, items: Vec<T>) -> Result<Self, AllocError>
        ensures { IfOk result (λ list. list ≡ items.items) }
    {
        if is_small::<T>() {
            few_of_vec(alloc, items)
        } else {
            let items = Arc::new(alloc, items)?;
            Ok(Items {
                arrays: Arrays::Many(items),
            })
        }
    }

    /// A list of the items of an array, in order: `Items::of(alloc, [write])?` is a list of one
    /// write.
    pub fn of<const N: usize>(alloc: Global, items: [T; N]) -> Result<Self, AllocError>
        ensures { IfOk result (λ list. list ≡ items) }
    {
        if N <= 4 && is_small::<T>() && is_small::<IntoIter<T, N>>() {
            few(alloc, items)
        } else {
            Items::new(alloc, Vec::from_array(alloc, items)?)
        }
    }

    /// A list of one item, as [`of`](Items::of) makes it, also of a type whose size isn't known.
    pub fn of_one(alloc: Global, item: T) -> Result<Self, AllocError>
        ensures { IfOk result (λ list. list ≡ item ∷ []) }
    {
        if is_small::<T>() {
            one(alloc, item)
        } else {
            let mut items = Vec::new(alloc);
            items.push(item)?;
            Items::new(alloc, items)
        }
    }

    pub fn len(&self) -> usize
        ensures { result ≡ length self.now }
    {
        self.as_slice().len()
    }

    pub fn is_empty(&self) -> bool
        ensures { result ≡ (length self.now == 0) }
    {
        self.as_slice().is_empty()
    }

    pub fn as_slice(&self) -> &[T]
        ensures { result.now ≡ self.now }
    {
        T::measured();
        match &self.arrays {
            Arrays::None => &[],
            Arrays::One(items) => &items[..],
            Arrays::Two(items) => &items[..],
            Arrays::Three(items) => &items[..],
            Arrays::Four(items) => &items[..],
            Arrays::Many(items) => items.as_slice(),
        }
    }

    /// The item at a position, counted from 0.
    pub fn get(&self, position: usize) -> Option<&T>
        ensures { option_copied result ≡ slice_get self.now position }
    {
        item_at(self.as_slice(), position)
    }
}

impl<T: Debug + Drop> Debug for Items<T> {
    fn fmt<W: fmt::Write>(&self, f: &mut Formatter<W>) -> fmt::Result {
        let items = self.as_slice();
        f.debug_struct("Items").field("items", &items).finish()
    }
}

impl<T: PartialEq + Drop> PartialEq for Items<T> {
    ghost use Rattle.std.specs.Cmp.Lexicographic.{pointwise, lists_per};

    ghost eq = { pointwise T.eq };

    ghost laws = { lists_per T.laws };

    fn eq(&self, other: &Self) -> bool {
        self.as_slice() == other.as_slice()
    }
}

/// A clone shares the items.
impl<T: Drop> Clone for Items<T> {
    ghost use Rattle.std.specs.Prelude.{◌≡◌};

    ghost is_clone = { λ source copy. copy ≡ source };

    #[inline(always)]
    fn clone(&self) -> Result<Self, AllocError> {
        let arrays = match &self.arrays {
            Arrays::None => Arrays::None,
            Arrays::One(items) => Arrays::One(Arc::try_clone(items)?),
            Arrays::Two(items) => Arrays::Two(Arc::try_clone(items)?),
            Arrays::Three(items) => Arrays::Three(Arc::try_clone(items)?),
            Arrays::Four(items) => Arrays::Four(Arc::try_clone(items)?),
            Arrays::Many(items) => Arrays::Many(Arc::try_clone(items)?),
        };
        Ok(Items { arrays })
    }
}

/// A list of one item that isn't large, in one block.
fn one<T: Measured + Drop>(alloc: Global, item: T) -> Result<Items<T>, AllocError>
    requires { T.bytes < 2 ^ 32 }
    ensures { IfOk result (λ list. list ≡ item ∷ []) }
{
    T::measured();
    let arrays = Arrays::One(Arc::new(alloc, [item])?);
    Ok(Items { arrays })
}

/// A list of up to four items that aren't large, in one block.
fn few<T: Measured + Drop, const N: usize>(
    alloc: Global,
    items: [T; N],
) -> Result<Items<T>, AllocError>
    requires few { N ≤ 4 }
    requires small { T.bytes < 2 ^ 32 }
    requires small_iter { IntoIterFitsInMemory T.row N.row }
    ensures { IfOk result (λ list. list ≡ items) }
{
    let arrays = arrays_of(alloc, items)?;
    Ok(Items { arrays })
}

fn arrays_of<T: Drop, const N: usize>(alloc: Global, items: [T; N]) -> Result<Arrays<T>, AllocError>
    requires few { N ≤ 4 }
    requires small { IntoIterFitsInMemory T.row N.row }
    ensures { IfOk result (λ arrays. arrays_view arrays ≡ items) }
{
    let mut items = items.into_iter();
    let Some(first) = items.next() else {
        return Ok(Arrays::None);
    };
    let Some(second) = items.next() else {
        return Ok(Arrays::One(Arc::new(alloc, [first])?));
    };
    let Some(third) = items.next() else {
        return Ok(Arrays::Two(Arc::new(alloc, [first, second])?));
    };
    let Some(fourth) = items.next() else {
        return Ok(Arrays::Three(Arc::new(alloc, [first, second, third])?));
    };
    Ok(Arrays::Four(Arc::new(alloc, [first, second, third, fourth])?))
}

/// A list of items that aren't large: up to four in one block.
fn few_of_vec<T: Measured + Drop>(alloc: Global, items: Vec<T>) -> Result<Items<T>, AllocError>
    requires { T.bytes < 2 ^ 32 }
    ensures { IfOk result (λ list. list ≡ items.items) }
{
    T::measured();
    let arrays = match items.len() {
        0 => Arrays::None,
        1 => match <[T; 1]>::try_from(items) {
            Ok(items) => Arrays::One(Arc::new(alloc, items)?),
            Err(items) => Arrays::Many(Arc::new(alloc, items)?),
        },
        2 => match <[T; 2]>::try_from(items) {
            Ok(items) => Arrays::Two(Arc::new(alloc, items)?),
            Err(items) => Arrays::Many(Arc::new(alloc, items)?),
        },
        3 => match <[T; 3]>::try_from(items) {
            Ok(items) => Arrays::Three(Arc::new(alloc, items)?),
            Err(items) => Arrays::Many(Arc::new(alloc, items)?),
        },
        4 => match <[T; 4]>::try_from(items) {
            Ok(items) => Arrays::Four(Arc::new(alloc, items)?),
            Err(items) => Arrays::Many(Arc::new(alloc, items)?),
        },
        _ => Arrays::Many(Arc::new(alloc, items)?),
    };
    Ok(Items { arrays })
}

fn is_small<T: Measured>() -> bool
    ensures { IsTrue result → T.bytes < 2 ^ 32 }
{
    T::measured();
    bytes_of::<T>() < LARGE_BYTES
}

/// `items.get(position)`, with its contract as an equation.
pub(crate) fn item_at<T>(items: &[T], position: usize) -> Option<&T>
    ensures { option_copied result ≡ slice_get items.now position }
{
    items.get(position)
}
