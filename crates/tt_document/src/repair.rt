//! Reading of the repair of a document.
ghost use Rattle.std.specs.Prelude.{◌≡◌, ◌==◌};
ghost use Rattle.std.specs.List.{list_any};
ghost use Rattle.tt_repair_laws.specs.Edits.{slot_number};
ghost use Rattle.tt_grammar.specs.Fault.{Gives};
ghost use Rattle.tt_grammar.specs.Decoder.{count_within};
ghost use Rattle.tt_document.specs.Repair.{cancel, replace, edit_by_kind, is_action, is_action_call, judge_edit, with_edit, edits, repair};

use crate::calls::CallsDecoder;
use crate::document::{Ask, Call, Plan};
use std::alloc::Global;
use tt_grammar::decoding::{
    Decoder, Fold, OUT_OF_RANGE, ReplacementDecoder, Version, array, count, fold_items, has,
    member, no_members_but, object, optional,
};
use tt_grammar::{DocFault, MAX_EDITS, OwnedItems};
use tt_json::JsonValue;
use tt_repair_laws::Edit;
use tt_values::{Catalog, Items};

/// The repair of calls: its edits, and the calls that are made meanwhile.
#[derive(Drop)]
pub(crate) struct RepairDecoder<'a> {
    pub(crate) version: Version,
    pub(crate) catalog: &'a Catalog,
    pub(crate) workers: u32,
    pub(crate) calls: &'a [Call],
}

impl Decoder for RepairDecoder<'_> {
    type Output = Plan;

    ghost meaning = { λ r. repair r.version r.catalog.now r.workers r.calls.now };

    #[tactic(auto, unfolding(crate::specs::Repair::repair))]
    fn decode<V: JsonValue>(&self, alloc: Global, value: &V) -> Result<Plan, DocFault> {
        object(alloc, value)?;
        let decoder = EditsDecoder {
            version: self.version,
            catalog: self.catalog,
            calls: self.calls,
        };
        let edits = member(alloc, value, "edits", &decoder)?;
        let decoder = CallsDecoder {
            version: self.version,
            catalog: self.catalog,
            workers: self.workers,
        };
        let meanwhile = optional(alloc, value, "meanwhile", &decoder)?;
        no_members_but(alloc, value, &["edits", "meanwhile"])?;
        let meanwhile = match meanwhile {
            Some(calls) => calls,
            None => OwnedItems::with_room(alloc, 0)?,
        };
        Ok(Plan { edits, meanwhile })
    }
}

/// The edits of calls, at most [`MAX_EDITS`].
#[derive(Drop)]
struct EditsDecoder<'a> {
    version: Version,
    catalog: &'a Catalog,
    calls: &'a [Call],
}

impl Decoder for EditsDecoder<'_> {
    type Output = Items<Edit>;

    ghost meaning = { λ r. edits r.version r.catalog.now r.calls.now };

    fn decode<V: JsonValue>(&self, alloc: Global, value: &V) -> Result<Items<Edit>, DocFault> {
        let items = array(alloc, value)?;
        if V::count(&items) > MAX_EDITS {
            return Err(DocFault::here(alloc, OUT_OF_RANGE));
        }
        let fold = EditsFold {
            version: self.version,
            catalog: self.catalog,
            calls: self.calls,
        };
        let start = OwnedItems::with_room(alloc, V::count(&items))?;
        let edits = fold_items::<_, V>(alloc, &fold, start, items)?;
        let edits = edits.into_items(alloc)?;
        Ok(edits)
    }
}

/// Collects edits, each for a different call.
#[derive(Drop)]
struct EditsFold<'a> {
    version: Version,
    catalog: &'a Catalog,
    calls: &'a [Call],
}

impl Fold for EditsFold<'_> {
    type State = OwnedItems<Edit>;

    ghost after = { λ t. with_edit t.version t.catalog.now t.calls.now };

    #[tactic(auto, unfolding(crate::specs::Repair::with_edit))]
    fn step<V: JsonValue>(
        &self,
        alloc: Global,
        state: OwnedItems<Edit>,
        item: &V,
    ) -> Result<OwnedItems<Edit>, DocFault> {
        object(alloc, item)?;
        let edit = edit(alloc, self.version, self.catalog, self.calls.len(), item)?;
        judge_edit(alloc, self.calls, state.as_slice(), &edit)?;
        let edits = state.with_item(edit)?;
        Ok(edits)
    }
}

/// Refuses an edit unless it is for a call that asks for an action and that no earlier edit is for.
fn judge_edit(alloc: Global, calls: &[Call], earlier: &[Edit], edit: &Edit) -> Result<(), DocFault>
    ensures { Gives result (judge_edit calls.now earlier.now edit.now) }
{
    let number = edit.number();
    if !is_action_call(calls, number) {
        return Err(DocFault::here(alloc, "not a write"));
    }
    if is_edited(earlier, number) {
        return Err(DocFault::here(alloc, "edited twice"));
    }
    Ok(())
}

/// Whether the call of a number, counted from 1, asks for an action.
fn is_action_call(calls: &[Call], number: u64) -> bool
    ensures { result ≡ is_action_call calls.now number }
{
    let position = number.saturating_sub(1);
    match calls.get(position as usize) {
        Some(call) => is_action(&call.ask),
        None => false,
    }
}

fn is_action(ask: &Ask) -> bool
    ensures { result ≡ is_action ask.now }
{
    match ask {
        Ask::Write(_) => true,
        Ask::Read { .. } => false,
        Ask::Preview(_) => false,
    }
}

/// Whether one of the edits is for a call.
fn is_edited(edits: &[Edit], number: u64) -> bool
    ensures { result ≡ list_any (λ d. number == slot_number d) edits.now }
{
    edits.iter().any(|edit| number == edit.number())
}

/// The edit of an object, by the first of its kinds that's there.
fn edit<V: JsonValue>(
    alloc: Global,
    version: Version,
    catalog: &Catalog,
    calls: usize,
    value: &V,
) -> Result<Edit, DocFault>
    ensures { Gives result (edit_by_kind version catalog.now calls (V.json value.now)) }
{
    if has(value, "cancel") {
        let edit = cancel(alloc, calls, value)?;
        return Ok(edit);
    }
    if has(value, "replace") {
        let edit = replace(alloc, version, catalog, calls, value)?;
        return Ok(edit);
    }
    Err(DocFault::here(alloc, "missing one of cancel, replace"))
}

#[tactic(auto, unfolding(crate::specs::Repair::cancel))]
fn cancel<V: JsonValue>(alloc: Global, calls: usize, value: &V) -> Result<Edit, DocFault>
    ensures { Gives result (cancel calls (V.json value.now)) }
{
    let number = member(alloc, value, "cancel", &CallNumberDecoder { calls })?;
    no_members_but(alloc, value, &["cancel"])?;
    Ok(Edit::Cancel(number))
}

#[tactic(auto, unfolding(crate::specs::Repair::replace))]
fn replace<V: JsonValue>(
    alloc: Global,
    version: Version,
    catalog: &Catalog,
    calls: usize,
    value: &V,
) -> Result<Edit, DocFault>
    ensures { Gives result (replace version catalog.now calls (V.json value.now)) }
{
    let number = member(alloc, value, "replace", &CallNumberDecoder { calls })?;
    let action = member(alloc, value, "by", &ReplacementDecoder { version, catalog })?;
    no_members_but(alloc, value, &["by", "replace"])?;
    Ok(Edit::Replace(number, action))
}

/// The number of a call, from 1 to `calls`.
#[derive(Drop)]
struct CallNumberDecoder {
    calls: usize,
}

impl Decoder for CallNumberDecoder {
    type Output = u64;

    ghost meaning = { λ c. count_within 1 c.calls };

    fn decode<V: JsonValue>(&self, alloc: Global, value: &V) -> Result<u64, DocFault> {
        let number = count(alloc, value)?;
        if number < 1 || number > self.calls as u64 {
            return Err(DocFault::here(alloc, OUT_OF_RANGE));
        }
        Ok(number)
    }
}
