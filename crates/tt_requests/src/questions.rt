//! Reading of questions about slots and about calls.
ghost use Rattle.std.specs.Prelude.{◌≡◌};
ghost use Rattle.tt_grammar.specs.Fault.{Gives};
ghost use Rattle.tt_requests.specs.Questions.{within_span, span, row_named, stamp_range, slot_filter, slots, changes_at, changes_named, changes_asked, call_kind_named, call_kind, change_page, changes};

use crate::MAX_SPAN;
use crate::reads::MOST;
use crate::request::{CallKind, ChangePage, Command, SlotFilter, StampRange};
use crate::told::{ToldTime, ToldTimeDecoder};
use std::alloc::Global;
use tt_grammar::DocFault;
use tt_grammar::decoding::{
    AnyCountDecoder, CountDecoder, Decoder, FlagDecoder, IntDecoder, OUT_OF_RANGE,
    TableNameDecoder, item, member, no_members_but, optional, pair, text,
};
use tt_json::JsonValue;
use tt_values::{Catalog, RowId};

/// The number of a worker.
pub(crate) const WORKER: CountDecoder = CountDecoder {
    min: 1,
    max: u32::MAX,
};

/// The question about slots of an object.
#[tactic(auto, unfolding(crate::specs::Questions::slots))]
pub(crate) fn slots<V: JsonValue>(
    alloc: Global,
    catalog: &Catalog,
    value: &V,
) -> Result<Command, DocFault>
    ensures { Gives result (slots catalog.now (V.json value.now)) }
{
    let (from, to) = member(alloc, value, "slots", &SpanDecoder)?;
    let filter = slot_filter(alloc, catalog, value)?;
    no_members_but(
        alloc,
        value,
        &["if", "worker", "of", "row", "slots", "stamps"],
    )?;
    Ok(Command::Slots { from, to, filter })
}

/// Which slots an object asks for, beside the first and the last one.
#[tactic(auto, unfolding(crate::specs::Questions::slot_filter))]
fn slot_filter<V: JsonValue>(
    alloc: Global,
    catalog: &Catalog,
    value: &V,
) -> Result<SlotFilter, DocFault>
    ensures { Gives result (slot_filter catalog.now (V.json value.now)) }
{
    let worker = optional(alloc, value, "of", &WORKER)?;
    let row = optional(alloc, value, "row", &RowIdDecoder { catalog })?;
    let stamps = optional(alloc, value, "stamps", &StampRangeDecoder)?;
    Ok(SlotFilter {
        worker,
        row,
        stamps,
    })
}

/// The lowest and the highest stamp.
#[derive(Drop)]
struct StampRangeDecoder;

impl Decoder for StampRangeDecoder {
    type Output = StampRange;

    ghost meaning = { λ _. stamp_range };

    #[tactic(auto, unfolding(crate::specs::Questions::stamp_range))]
    fn decode<V: JsonValue>(&self, alloc: Global, value: &V) -> Result<StampRange, DocFault> {
        let (first, second) = pair(alloc, value)?;
        let low = item(alloc, 0, &first, &AnyCountDecoder)?;
        let high = item(alloc, 1, &second, &AnyCountDecoder)?;
        Ok(StampRange { low, high })
    }
}

/// The numbers of the first and the last slot.
#[derive(Drop)]
struct SpanDecoder;

impl Decoder for SpanDecoder {
    type Output = (ToldTime, ToldTime);

    ghost meaning = { λ _. span };

    #[tactic(auto, unfolding(crate::specs::Questions::span))]
    fn decode<V: JsonValue>(
        &self,
        alloc: Global,
        value: &V,
    ) -> Result<(ToldTime, ToldTime), DocFault> {
        let (first, second) = pair(alloc, value)?;
        let from = item(alloc, 0, &first, &ToldTimeDecoder)?;
        let to = item(alloc, 1, &second, &ToldTimeDecoder)?;
        within_span(alloc, from, to)
    }
}

fn within_span(
    alloc: Global,
    from: ToldTime,
    to: ToldTime,
) -> Result<(ToldTime, ToldTime), DocFault>
    ensures { Gives result (within_span from to) }
{
    if to.number.saturating_sub(from.number) > MAX_SPAN {
        return Err(DocFault::here(alloc, OUT_OF_RANGE));
    }
    Ok((from, to))
}

/// A row, by the name of its table and its key.
#[derive(Drop)]
pub(crate) struct RowIdDecoder<'a> {
    pub(crate) catalog: &'a Catalog,
}

impl Decoder for RowIdDecoder<'_> {
    type Output = RowId;

    ghost meaning = { λ r. row_named r.catalog.now };

    #[tactic(auto, unfolding(crate::specs::Questions::row_named))]
    fn decode<V: JsonValue>(&self, alloc: Global, value: &V) -> Result<RowId, DocFault> {
        let (first, second) = pair(alloc, value)?;
        let table = TableNameDecoder {
            catalog: self.catalog,
        };
        let table = item(alloc, 0, &first, &table)?;
        let key = item(alloc, 1, &second, &IntDecoder)?;
        Ok(RowId { table, key })
    }
}

/// The question about changed replies of an object.
#[tactic(auto, unfolding(crate::specs::Questions::changes))]
pub(crate) fn changes<V: JsonValue>(alloc: Global, value: &V) -> Result<Command, DocFault>
    ensures { Gives result (changes (V.json value.now)) }
{
    let moment = member(alloc, value, "changes", &ChangesDecoder)?;
    let page = change_page(alloc, value)?;
    no_members_but(
        alloc,
        value,
        &[
            "if", "worker", "after", "asked", "changes", "most", "of", "only",
        ],
    )?;
    Ok(moment.changes(page))
}

/// When calls would be answered again.
#[derive(Clone, Copy)]
enum Moment {
    Now,
    /// After the repair under way, as far as it is.
    Next,
}

impl Moment {
    /// The question about the changed replies of this moment.
    fn changes(self, page: ChangePage) -> Command
        ensures { result ≡ changes_at self page }
    {
        match self {
            Moment::Now => Command::Changes(page),
            Moment::Next => Command::NextChanges(page),
        }
    }
}

/// When the calls would be answered again whose changed replies are asked for.
#[derive(Drop)]
struct ChangesDecoder;

impl Decoder for ChangesDecoder {
    type Output = Moment;

    ghost meaning = { λ _. changes_asked };

    #[tactic(auto, unfolding(crate::specs::Questions::changes_asked))]
    fn decode<V: JsonValue>(&self, alloc: Global, value: &V) -> Result<Moment, DocFault> {
        let name = text(alloc, value)?;
        match changes_named(name) {
            Some(moment) => Ok(moment),
            None => Err(DocFault::here(alloc, OUT_OF_RANGE)),
        }
    }
}

fn changes_named(name: &str) -> Option<Moment>
    ensures { result ≡ changes_named name.now }
{
    match name {
        "now" => Some(Moment::Now),
        "next" => Some(Moment::Next),
        _ => None,
    }
}

/// The page of changed replies of an object.
#[tactic(auto, unfolding(crate::specs::Questions::change_page))]
fn change_page<V: JsonValue>(alloc: Global, value: &V) -> Result<ChangePage, DocFault>
    ensures { Gives result (change_page (V.json value.now)) }
{
    let worker = optional(alloc, value, "of", &WORKER)?;
    let only = optional(alloc, value, "only", &CallKindDecoder)?;
    let after = optional(alloc, value, "after", &AnyCountDecoder)?;
    let most = optional(alloc, value, "most", &MOST)?;
    let asked = optional(alloc, value, "asked", &FlagDecoder)?;
    Ok(ChangePage {
        worker,
        only,
        after,
        most,
        asked: asked.unwrap_or(false),
    })
}

/// A kind of call.
#[derive(Drop)]
struct CallKindDecoder;

impl Decoder for CallKindDecoder {
    type Output = CallKind;

    ghost meaning = { λ _. call_kind };

    #[tactic(auto, unfolding(crate::specs::Questions::call_kind))]
    fn decode<V: JsonValue>(&self, alloc: Global, value: &V) -> Result<CallKind, DocFault> {
        let name = text(alloc, value)?;
        match call_kind_named(name) {
            Some(kind) => Ok(kind),
            None => Err(DocFault::here(alloc, OUT_OF_RANGE)),
        }
    }
}

fn call_kind_named(name: &str) -> Option<CallKind>
    ensures { result ≡ call_kind_named name.now }
{
    match name {
        "writes" => Some(CallKind::Writes),
        "reads" => Some(CallKind::Reads),
        _ => None,
    }
}
