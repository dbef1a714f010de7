//! Reading of the selects and previews of a document.
ghost use Rattle.tt_grammar.specs.Fault.{Gives};
ghost use Rattle.tt_document.specs.Reads.{select, preview};

use crate::document::Ask;
use std::alloc::Global;
use tt_grammar::DocFault;
use tt_grammar::decoding::{
    AnyCountDecoder, TableNameDecoder, Version, checked_select, conditions, member, no_members_but,
    optional,
};
use tt_json::JsonValue;
use tt_values::{Catalog, Select};

/// The select of an object.
#[tactic(auto, unfolding(crate::specs::Reads::select))]
pub(crate) fn select<V: JsonValue>(
    alloc: Global,
    version: Version,
    catalog: &Catalog,
    value: &V,
) -> Result<Ask, DocFault>
    ensures { Gives result (select version catalog.now (V.json value.now)) }
{
    let table = member(alloc, value, "select", &TableNameDecoder { catalog })?;
    let equals = conditions(alloc, version, catalog, table, value)?;
    let at = optional(alloc, value, "at", &AnyCountDecoder)?;
    no_members_but(alloc, value, &["at", "select", "where", "worker"])?;
    let select = checked_select(alloc, catalog, Select { table, equals })?;
    Ok(Ask::Read { select, at })
}

/// The preview of an object.
#[tactic(auto, unfolding(crate::specs::Reads::preview))]
pub(crate) fn preview<V: JsonValue>(
    alloc: Global,
    version: Version,
    catalog: &Catalog,
    value: &V,
) -> Result<Ask, DocFault>
    ensures { Gives result (preview version catalog.now (V.json value.now)) }
{
    let table = member(alloc, value, "preview", &TableNameDecoder { catalog })?;
    let equals = conditions(alloc, version, catalog, table, value)?;
    no_members_but(alloc, value, &["preview", "where", "worker"])?;
    let select = checked_select(alloc, catalog, Select { table, equals })?;
    Ok(Ask::Preview(select))
}
