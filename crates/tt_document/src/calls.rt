//! Reading of the calls of a document.
ghost use Rattle.std.specs.Prelude.{◌≡◌, None};
ghost use Rattle.tt_grammar.specs.Fault.{Gives};
ghost use Rattle.tt_document.specs.Calls.{no_kind, ask_by, ask, call, calls};

use crate::MAX_CALLS;
use crate::document::{Ask, Call};
use crate::reads::{preview, select};
use std::alloc::Global;
use tt_grammar::decoding::{
    Context, CountDecoder, Decoder, OUT_OF_RANGE, Version, action, action_of_one, array,
    decode_owned, has, has_action, member, object, write,
};
use tt_grammar::{DocFault, OwnedItems};
use tt_json::JsonValue;
use tt_values::Catalog;

/// The calls of workers on a catalog, at most [`MAX_CALLS`].
#[derive(Drop)]
pub(crate) struct CallsDecoder<'a> {
    pub(crate) version: Version,
    pub(crate) catalog: &'a Catalog,
    pub(crate) workers: u32,
}

impl Decoder for CallsDecoder<'_> {
    type Output = OwnedItems<Call>;

    ghost meaning = { λ r. calls r.version r.catalog.now r.workers };

    fn decode<V: JsonValue>(&self, alloc: Global, value: &V) -> Result<OwnedItems<Call>, DocFault> {
        let items = array(alloc, value)?;
        if V::count(&items) > MAX_CALLS {
            return Err(DocFault::here(alloc, OUT_OF_RANGE));
        }
        let decoder = CallDecoder {
            version: self.version,
            catalog: self.catalog,
            workers: self.workers,
        };
        decode_owned::<_, V>(alloc, &decoder, items)
    }
}

#[derive(Drop)]
struct CallDecoder<'a> {
    version: Version,
    catalog: &'a Catalog,
    workers: u32,
}

impl Decoder for CallDecoder<'_> {
    type Output = Call;

    ghost meaning = { λ r. call r.version r.catalog.now r.workers };

    #[tactic(auto, unfolding(crate::specs::Calls::call))]
    fn decode<V: JsonValue>(&self, alloc: Global, value: &V) -> Result<Call, DocFault> {
        object(alloc, value)?;
        let workers = CountDecoder {
            min: 1,
            max: self.workers,
        };
        let worker = member(alloc, value, "worker", &workers)?;
        let ask = ask(alloc, self.version, self.catalog, value)?;
        Ok(Call { worker, ask })
    }
}

/// What a call asks for, by the first kind that's there.
#[tactic(auto, unfolding(crate::specs::Calls::ask))]
fn ask<V: JsonValue>(
    alloc: Global,
    version: Version,
    catalog: &Catalog,
    value: &V,
) -> Result<Ask, DocFault>
    ensures { Gives result (ask version catalog.now (V.json value.now)) }
{
    match write(alloc, version, catalog, Context::Call, value)? {
        Some(write) => {
            let action = action_of_one(alloc, write)?;
            Ok(Ask::Write(action))
        }
        None => ask_without_write(alloc, version, catalog, value),
    }
}

fn ask_without_write<V: JsonValue>(
    alloc: Global,
    version: Version,
    catalog: &Catalog,
    value: &V,
) -> Result<Ask, DocFault>
    ensures { Gives result (ask_by version catalog.now (V.json value.now) None) }
{
    if has(value, "select") {
        let read = select(alloc, version, catalog, value)?;
        return Ok(read);
    }
    if has(value, "preview") {
        let preview = preview(alloc, version, catalog, value)?;
        return Ok(preview);
    }
    if has_action(version, value) {
        let action = action(alloc, version, catalog, Context::Call, value)?;
        return Ok(Ask::Write(action));
    }
    Err(DocFault::here(alloc, no_kind(version)))
}

fn no_kind(version: Version) -> &'static str
    ensures { result.now ≡ no_kind version }
{
    match version {
        Version::One => "missing one of insert, update, delete, select, preview",
        Version::Two | Version::Three =>
            "missing one of insert, update, delete, select, preview, do",
    }
}
