//! Reading of a whole document.
ghost use Rattle.tt_grammar.specs.Fault.{Gives};
ghost use Rattle.tt_document.specs.Reading.{members_of_document};

use crate::MAX_WORKERS;
use crate::calls::CallsDecoder;
use crate::document::Document;
use crate::repair::RepairDecoder;
use std::alloc::Global;
use tt_grammar::DocFault;
use tt_grammar::decoding::{
    CountDecoder, TablesDecoder, VersionDecoder, member, no_members_but, object, optional,
};
use tt_json::JsonValue;
use tt_values::Shared;

/// The document of an object. Paths begin at the object.
#[tactic(auto, unfolding(crate::specs::Reading::members_of_document))]
pub(crate) fn from_members<V: JsonValue>(alloc: Global, value: &V) -> Result<Document, DocFault>
    ensures { Gives result (members_of_document (V.json value.now)) }
{
    object(alloc, value)?;
    let version = member(alloc, value, "version", &VersionDecoder)?;
    let catalog = member(alloc, value, "tables", &TablesDecoder)?;
    let workers = CountDecoder {
        min: 1,
        max: MAX_WORKERS,
    };
    let workers = member(alloc, value, "workers", &workers)?;
    let decoder = CallsDecoder {
        version,
        catalog: &catalog,
        workers,
    };
    let calls = member(alloc, value, "calls", &decoder)?;
    let decoder = RepairDecoder {
        version,
        catalog: &catalog,
        workers,
        calls: calls.as_slice(),
    };
    let repair = optional(alloc, value, "repair", &decoder)?;
    no_members_but(
        alloc,
        value,
        &["calls", "repair", "tables", "version", "workers"],
    )?;
    let catalog = Shared::new(alloc, catalog)?;
    Ok(Document {
        catalog,
        workers,
        calls,
        repair,
    })
}
