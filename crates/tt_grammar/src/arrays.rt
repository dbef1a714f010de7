//! Reading of arrays, item by item from the front.
ghost use Rattle.std.specs.Prelude.{◌≡◌, length, Result};
ghost use Rattle.serde_json.specs.Data.{Data};
ghost use Rattle.tt_grammar.specs.declared.fault.DocFault.{DocFault};
ghost use Rattle.tt_grammar.specs.Fault.{Gives, with_path, item_path};
ghost use Rattle.tt_grammar.specs.Arrays.{fold_items, with_item, each, array_of};

use crate::decoder::{Decoder, array, item};
use crate::fault::DocFault;
use crate::owned_items::OwnedItems;
use std::alloc::Global;
use tt_json::JsonValue;
use tt_values::Items;

/// A state that is built from the items of an array, one item after another.
pub trait Fold {
    type State;

    /// The state after an item, or the item's first fault.
    ghost after: { Self → Self.State → Data → Result Self.State DocFault };

    fn step<V: JsonValue>(
        &self,
        alloc: Global,
        state: Self::State,
        item: &V,
    ) -> Result<Self::State, DocFault>
        ensures { Gives result (after self.now state (V.json item.now)) };
}

/// The state after all items, from the front.
pub fn fold_items<T: Fold, V: JsonValue>(
    alloc: Global,
    fold: &T,
    start: T::State,
    items: V::Items,
) -> Result<T::State, DocFault>
    ensures { Gives result (fold_items (T.after fold.now) 0 start (V.left items)) }
{
    let mut state = start;
    let mut items = items;
    for index in 0..V::count(&items) {
        let Some(item) = V::next_item(&mut items) else {
            break;
        };
        state = step_item(alloc, fold, state, index, &item)?;
    }
    Ok(state)
}

fn step_item<T: Fold, V: JsonValue>(
    alloc: Global,
    fold: &T,
    state: T::State,
    index: usize,
    item: &V,
) -> Result<T::State, DocFault>
    ensures { Gives result
        (with_path (item_path index) (T.after fold.now state (V.json item.now))) }
{
    match fold.step(alloc, state, item) {
        Ok(next) => Ok(next),
        Err(fault) => Err(fault.in_item(alloc, index)),
    }
}

/// Collects the meanings of the items in a list.
#[derive(Drop)]
struct Collector<'a, D> {
    decoder: &'a D,
}

impl<D: Decoder> Fold for Collector<'_, D>
where
    D::Output: Drop,
{
    type State = OwnedItems<D::Output>;

    ghost after = { λ c. with_item (D.meaning c.decoder.now) };

    fn step<V: JsonValue>(
        &self,
        alloc: Global,
        state: OwnedItems<D::Output>,
        item: &V,
    ) -> Result<OwnedItems<D::Output>, DocFault> {
        let meaning = self.decoder.decode(alloc, item)?;
        let items = state.with_item(meaning)?;
        Ok(items)
    }
}

/// An array of what a decoder decodes.
#[derive(Drop)]
pub struct ArrayDecoder<D> {
    /// Decodes each item.
    pub decoder: D,
}

impl<D: Decoder> Decoder for ArrayDecoder<D>
where
    D::Output: Drop,
{
    type Output = Items<D::Output>;

    ghost meaning = { λ a. array_of (D.meaning a.decoder) };

    fn decode<V: JsonValue>(&self, alloc: Global, value: &V) -> Result<Items<D::Output>, DocFault> {
        let items = array(alloc, value)?;
        decode_items::<_, V>(alloc, &self.decoder, items)
    }
}

/// The meaning of each item of an array, in order.
pub fn decode_items<D: Decoder, V: JsonValue>(
    alloc: Global,
    decoder: &D,
    items: V::Items,
) -> Result<Items<D::Output>, DocFault>
where
    D::Output: Drop,
    ensures { Gives result (each (D.meaning decoder.now) 0 (V.left items)) }
{
    if V::count(&items) == 1 {
        return decode_only::<_, V>(alloc, decoder, items);
    }
    let list = decode_owned::<_, V>(alloc, decoder, items)?;
    let items = list.into_items(alloc)?;
    Ok(items)
}

/// The meaning of the only item of an array, which goes into its list without a buffer.
fn decode_only<D: Decoder, V: JsonValue>(
    alloc: Global,
    decoder: &D,
    items: V::Items,
) -> Result<Items<D::Output>, DocFault>
where
    D::Output: Drop,
    requires { length (V.left items) ≡ 1 }
    ensures { Gives result (each (D.meaning decoder.now) 0 (V.left items)) }
{
    let mut items = items;
    let Some(only) = V::next_item(&mut items) else {
        unreachable!();
    };
    let meaning = item(alloc, 0, &only, decoder)?;
    let list = Items::of_one(alloc, meaning)?;
    Ok(list)
}

/// As [`decode_items`], in a list with one owner.
pub fn decode_owned<D: Decoder, V: JsonValue>(
    alloc: Global,
    decoder: &D,
    items: V::Items,
) -> Result<OwnedItems<D::Output>, DocFault>
where
    D::Output: Drop,
    ensures { Gives result (each (D.meaning decoder.now) 0 (V.left items)) }
{
    let start = OwnedItems::with_room(alloc, V::count(&items))?;
    fold_items::<_, V>(alloc, &Collector { decoder }, start, items)
}
