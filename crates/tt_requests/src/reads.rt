//! Reading of selects and previews, which may ask for one page of their rows, and of pages.
ghost use Rattle.tt_grammar.specs.Fault.{Gives};
ghost use Rattle.tt_requests.specs.Reads.{page, slot_page, diff_page, read, preview};

use crate::MAX_PAGE;
use crate::questions::RowIdDecoder;
use crate::request::{Command, DiffPage, Page, SlotPage};
use crate::told::{ToldGenerationDecoder, ToldTimeDecoder};
use std::alloc::Global;
use tt_grammar::DocFault;
use tt_grammar::decoding::{
    CountDecoder, IntDecoder, TableNameDecoder, Version, checked_select, conditions, member,
    no_members_but, optional,
};
use tt_json::JsonValue;
use tt_values::{Catalog, Select};

/// How much a page has at most.
pub(crate) const MOST: CountDecoder = CountDecoder {
    min: 1,
    max: MAX_PAGE,
};

/// The select of an object.
#[tactic(auto, unfolding(crate::specs::Reads::read))]
pub(crate) fn read<V: JsonValue>(
    alloc: Global,
    version: Version,
    catalog: &Catalog,
    value: &V,
) -> Result<Command, DocFault>
    ensures { Gives result (read version catalog.now (V.json value.now)) }
{
    let table = member(alloc, value, "select", &TableNameDecoder { catalog })?;
    let equals = conditions(alloc, version, catalog, table, value)?;
    let at = optional(alloc, value, "at", &ToldTimeDecoder)?;
    let generation = optional(alloc, value, "in", &ToldGenerationDecoder)?;
    let page = page(alloc, value)?;
    no_members_but(
        alloc,
        value,
        &[
            "if", "worker", "after", "at", "in", "most", "select", "where",
        ],
    )?;
    let select = checked_select(alloc, catalog, Select { table, equals })?;
    Ok(Command::Read {
        select,
        at,
        generation,
        page,
    })
}

/// The preview of an object.
#[tactic(auto, unfolding(crate::specs::Reads::preview))]
pub(crate) fn preview<V: JsonValue>(
    alloc: Global,
    version: Version,
    catalog: &Catalog,
    value: &V,
) -> Result<Command, DocFault>
    ensures { Gives result (preview version catalog.now (V.json value.now)) }
{
    let table = member(alloc, value, "preview", &TableNameDecoder { catalog })?;
    let equals = conditions(alloc, version, catalog, table, value)?;
    let page = page(alloc, value)?;
    no_members_but(
        alloc,
        value,
        &["if", "worker", "after", "most", "preview", "where"],
    )?;
    let select = checked_select(alloc, catalog, Select { table, equals })?;
    Ok(Command::Preview { select, page })
}

#[tactic(auto, unfolding(crate::specs::Reads::page))]
fn page<V: JsonValue>(alloc: Global, value: &V) -> Result<Page, DocFault>
    ensures { Gives result (page (V.json value.now)) }
{
    let after = optional(alloc, value, "after", &IntDecoder)?;
    let most = optional(alloc, value, "most", &MOST)?;
    Ok(Page { after, most })
}

/// The page of re-executed slots of an object.
#[tactic(auto, unfolding(crate::specs::Reads::slot_page))]
pub(crate) fn slot_page<V: JsonValue>(alloc: Global, value: &V) -> Result<SlotPage, DocFault>
    ensures { Gives result (slot_page (V.json value.now)) }
{
    let after = optional(alloc, value, "after", &ToldTimeDecoder)?;
    let most = optional(alloc, value, "most", &MOST)?;
    Ok(SlotPage { after, most })
}

/// The page of rows that differ of an object.
#[tactic(auto, unfolding(crate::specs::Reads::diff_page))]
pub(crate) fn diff_page<V: JsonValue>(
    alloc: Global,
    catalog: &Catalog,
    value: &V,
) -> Result<DiffPage, DocFault>
    ensures { Gives result (diff_page catalog.now (V.json value.now)) }
{
    let after = optional(alloc, value, "after", &RowIdDecoder { catalog })?;
    let most = optional(alloc, value, "most", &MOST)?;
    Ok(DiffPage { after, most })
}
