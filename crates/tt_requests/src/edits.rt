//! Reading of the edits that a repair begins with.
ghost use Rattle.tt_grammar.specs.Fault.{Gives};
ghost use Rattle.tt_requests.specs.Edits.{cancel, replace, edit, edits};

use std::alloc::Global;
use tt_grammar::decoding::{
    AnyCountDecoder, Decoder, OUT_OF_RANGE, ReplacementDecoder, Version, array, decode_items, has,
    member, no_members_but, object,
};
use tt_grammar::{DocFault, MAX_EDITS};
use tt_json::JsonValue;
use tt_repair_laws::Edit;
use tt_values::{Catalog, Items};

const NO_KIND: &str = "missing one of cancel, replace";

/// The edits of slots, at most [`MAX_EDITS`].
#[derive(Drop)]
pub(crate) struct EditsDecoder<'a> {
    pub(crate) version: Version,
    pub(crate) catalog: &'a Catalog,
}

impl Decoder for EditsDecoder<'_> {
    type Output = Items<Edit>;

    ghost meaning = { λ r. edits r.version r.catalog.now };

    fn decode<V: JsonValue>(&self, alloc: Global, value: &V) -> Result<Items<Edit>, DocFault> {
        let items = array(alloc, value)?;
        if V::count(&items) > MAX_EDITS {
            return Err(DocFault::here(alloc, OUT_OF_RANGE));
        }
        let decoder = EditDecoder {
            version: self.version,
            catalog: self.catalog,
        };
        decode_items::<_, V>(alloc, &decoder, items)
    }
}

/// An edit, by the first of its kinds that's there.
#[derive(Drop)]
struct EditDecoder<'a> {
    version: Version,
    catalog: &'a Catalog,
}

impl Decoder for EditDecoder<'_> {
    type Output = Edit;

    ghost meaning = { λ r. edit r.version r.catalog.now };

    #[tactic(auto, unfolding(crate::specs::Edits::edit))]
    fn decode<V: JsonValue>(&self, alloc: Global, value: &V) -> Result<Edit, DocFault> {
        object(alloc, value)?;
        if has(value, "cancel") {
            let edit = cancel(alloc, value)?;
            return Ok(edit);
        }
        if has(value, "replace") {
            let edit = replace(alloc, self.version, self.catalog, value)?;
            return Ok(edit);
        }
        Err(DocFault::here(alloc, NO_KIND))
    }
}

#[tactic(auto, unfolding(crate::specs::Edits::cancel))]
fn cancel<V: JsonValue>(alloc: Global, value: &V) -> Result<Edit, DocFault>
    ensures { Gives result (cancel (V.json value.now)) }
{
    let slot = member(alloc, value, "cancel", &AnyCountDecoder)?;
    no_members_but(alloc, value, &["cancel"])?;
    Ok(Edit::Cancel(slot))
}

#[tactic(auto, unfolding(crate::specs::Edits::replace))]
fn replace<V: JsonValue>(
    alloc: Global,
    version: Version,
    catalog: &Catalog,
    value: &V,
) -> Result<Edit, DocFault>
    ensures { Gives result (replace version catalog.now (V.json value.now)) }
{
    let slot = member(alloc, value, "replace", &AnyCountDecoder)?;
    let action = member(alloc, value, "by", &ReplacementDecoder { version, catalog })?;
    no_members_but(alloc, value, &["by", "replace"])?;
    Ok(Edit::Replace(slot, action))
}
