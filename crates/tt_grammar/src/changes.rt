//! Reading of the changes of an update.
ghost use Rattle.std.specs.Prelude.{◌≡◌, option_map};
ghost use Rattle.tt_grammar.specs.Fault.{GivesViewed};
ghost use Rattle.tt_grammar.specs.Changes.{three, triple, verb_named, verb, change_of, change};

use crate::conditions::{ColumnNameDecoder, ValueDecoder};
use crate::decoder::{Decoder, IntDecoder, OUT_OF_RANGE, WRONG_TYPE, array, item, text};
use crate::fault::DocFault;
use std::alloc::Global;
use tt_json::JsonValue;
use tt_values::{Catalog, Change};

/// What a change does to its column.
#[derive(Clone, Copy)]
pub(crate) enum Verb {
    Set,
    Add,
}

/// A change of a table: what it does, its column, and its operand.
#[derive(Drop)]
pub(crate) struct ChangeDecoder<'a> {
    pub(crate) catalog: &'a Catalog,
    pub(crate) table: u16,
}

impl Decoder for ChangeDecoder<'_> {
    type Output = Change;

    ghost meaning = { λ r. change r.catalog.now r.table };

    #[tactic(auto, unfolding(crate::specs::Changes::change))]
    fn decode<V: JsonValue>(&self, alloc: Global, value: &V) -> Result<Change, DocFault> {
        let (first, second, third) = triple(alloc, value)?;
        let verb = item(alloc, 0, &first, &VerbDecoder)?;
        let column = ColumnNameDecoder {
            catalog: self.catalog,
            table: self.table,
        };
        let column = item(alloc, 1, &second, &column)?;
        let change = item(alloc, 2, &third, &OperandDecoder { verb, column })?;
        Ok(change)
    }
}

/// The items of an array of three.
fn triple<V: JsonValue>(alloc: Global, value: &V) -> Result<(V, V, V), DocFault>
    ensures { GivesViewed (λ t. (V.json t.0, V.json t.1, V.json t.2)) result
        (triple (V.json value.now)) }
{
    let mut items = array(alloc, value)?;
    match three::<V>(&mut items) {
        Some(triple) => Ok(triple),
        None => Err(DocFault::here(alloc, WRONG_TYPE)),
    }
}

fn three<V: JsonValue>(items: &mut V::Items) -> Option<(V, V, V)>
    ensures { option_map (λ t. (V.json t.0, V.json t.1, V.json t.2)) result
        ≡ three (V.left items.old) }
{
    let first = V::next_item(items)?;
    let second = V::next_item(items)?;
    let third = V::next_item(items)?;
    match V::next_item(items) {
        Some(_) => None,
        None => Some((first, second, third)),
    }
}

#[derive(Drop)]
struct VerbDecoder;

impl Decoder for VerbDecoder {
    type Output = Verb;

    ghost meaning = { λ _. verb };

    fn decode<V: JsonValue>(&self, alloc: Global, value: &V) -> Result<Verb, DocFault> {
        let name = text(alloc, value)?;
        match verb_named(name) {
            Some(verb) => Ok(verb),
            None => Err(DocFault::here(alloc, OUT_OF_RANGE)),
        }
    }
}

fn verb_named(name: &str) -> Option<Verb>
    ensures { result ≡ verb_named name.now }
{
    match name {
        "set" => Some(Verb::Set),
        "add" => Some(Verb::Add),
        _ => None,
    }
}

/// A change with its last item, the operand.
#[derive(Drop)]
struct OperandDecoder {
    verb: Verb,
    column: u16,
}

impl Decoder for OperandDecoder {
    type Output = Change;

    ghost meaning = { λ r. change_of r.verb r.column };

    fn decode<V: JsonValue>(&self, alloc: Global, value: &V) -> Result<Change, DocFault> {
        let column = self.column;
        match self.verb {
            Verb::Set => {
                let value = ValueDecoder.decode(alloc, value)?;
                Ok(Change::Set { column, value })
            }
            Verb::Add => {
                let by = IntDecoder.decode(alloc, value)?;
                Ok(Change::Add { column, by })
            }
        }
    }
}
