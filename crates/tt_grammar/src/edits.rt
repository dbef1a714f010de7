//! Reading of the actions that edits replace others by.
ghost use Rattle.std.specs.Prelude.{◌≡◌, None};
ghost use Rattle.tt_grammar.specs.Fault.{Gives};
ghost use Rattle.tt_grammar.specs.Edits.{no_kind_of_write, replacement_by, replacement};

use crate::actions::{action, action_of_one, has_action, write};
use crate::decoder::{Decoder, object};
use crate::fault::DocFault;
use crate::statements::Context;
use crate::version::Version;
use std::alloc::Global;
use tt_json::JsonValue;
use tt_values::{Action, Catalog};

/// The action that replaces the one of a call, or of a slot.
#[derive(Drop)]
pub struct ReplacementDecoder<'a> {
    /// Which kinds of write and of condition there are.
    pub version: Version,
    /// The tables.
    pub catalog: &'a Catalog,
}

impl Decoder for ReplacementDecoder<'_> {
    type Output = Action;

    ghost meaning = { λ r. replacement r.version r.catalog.now };

    #[tactic(auto, unfolding(crate::specs::Edits::replacement))]
    fn decode<V: JsonValue>(&self, alloc: Global, value: &V) -> Result<Action, DocFault> {
        object(alloc, value)?;
        match write(alloc, self.version, self.catalog, Context::Nested, value)? {
            Some(write) => {
                let action = action_of_one(alloc, write)?;
                Ok(action)
            }
            None => replacement_without_write(alloc, self.version, self.catalog, value),
        }
    }
}

fn replacement_without_write<V: JsonValue>(
    alloc: Global,
    version: Version,
    catalog: &Catalog,
    value: &V,
) -> Result<Action, DocFault>
    ensures { Gives result (replacement_by version catalog.now (V.json value.now) None) }
{
    if has_action(version, value) {
        let action = action(alloc, version, catalog, Context::Nested, value)?;
        return Ok(action);
    }
    Err(DocFault::here(alloc, no_kind_of_write(version)))
}

fn no_kind_of_write(version: Version) -> &'static str
    ensures { result.now ≡ no_kind_of_write version }
{
    match version {
        Version::One => "missing one of insert, update, delete",
        Version::Two | Version::Three => "missing one of insert, update, delete, do",
    }
}
