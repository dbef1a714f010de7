//! Reading of actions.
ghost use Rattle.std.specs.Prelude.{◌≡◌, [], ◌∷◌, IfOk, codes};
ghost use Rattle.tt_grammar.specs.Fault.{Gives};
ghost use Rattle.tt_grammar.specs.Statements.{no_members_at};
ghost use Rattle.tt_grammar.specs.Actions.{write, item_of_action, action_of_one, writes, is_whole, members_of_action, action, has_action};

use crate::arrays::decode_items;
use crate::decoder::{Decoder, FlagDecoder, OUT_OF_RANGE, array, has, member, object, optional};
use crate::fault::DocFault;
use crate::members::no_members_but;
use crate::statements::{Context, delete, insert, stamp, update};
use crate::version::Version;
use std::alloc::{AllocError, Global};
use tt_json::JsonValue;
use tt_values::{Action, Catalog, Items, MAX_WRITES, Write};

const NO_KIND: &str = "missing one of insert, update, delete";

/// The write of an object, by the first of its kinds that's there, or none.
#[tactic(auto, unfolding(crate::specs::Actions::write))]
pub fn write<V: JsonValue>(
    alloc: Global,
    version: Version,
    catalog: &Catalog,
    context: Context,
    value: &V,
) -> Result<Option<Write>, DocFault>
    ensures { Gives result (write version catalog.now context (V.json value.now)) }
{
    if has(value, "insert") {
        let write = insert(alloc, catalog, context, value)?;
        return Ok(Some(write));
    }
    if has(value, "update") {
        let write = update(alloc, version, catalog, context, value)?;
        return Ok(Some(write));
    }
    if has(value, "delete") {
        let write = delete(alloc, version, catalog, context, value)?;
        return Ok(Some(write));
    }
    Ok(None)
}

/// An action of one write, which isn't whole.
pub fn action_of_one(alloc: Global, write: Write) -> Result<Action, AllocError>
    ensures { IfOk result (λ action. action ≡ action_of_one write) }
{
    let writes = Items::of(alloc, [write])?;
    Ok(Action::of(writes))
}

/// The action of an object, from its member `do` and, in version 3, its member `whole`. Another
/// member than these and those of its context is a fault.
#[tactic(auto, unfolding(crate::specs::Actions::action))]
pub fn action<V: JsonValue>(
    alloc: Global,
    version: Version,
    catalog: &Catalog,
    context: Context,
    value: &V,
) -> Result<Action, DocFault>
    ensures { Gives result (action version catalog.now context (V.json value.now)) }
{
    let writes = member(alloc, value, "do", &WritesDecoder { version, catalog })?;
    let whole = is_whole(alloc, version, value)?;
    no_members_but_those_of_action(alloc, version, context, value)?;
    Ok(Action { writes, whole })
}

/// Whether an action is carried out wholly or not at all, by the member `whole` of its object,
/// which may be left out. Before version 3 no action is.
fn is_whole<V: JsonValue>(alloc: Global, version: Version, object: &V) -> Result<bool, DocFault>
    ensures { Gives result (is_whole version (V.json object.now)) }
{
    match version {
        Version::One | Version::Two => Ok(false),
        Version::Three => {
            let whole = optional(alloc, object, "whole", &FlagDecoder)?;
            Ok(whole.unwrap_or(false))
        }
    }
}

fn no_members_but_those_of_action<V: JsonValue>(
    alloc: Global,
    version: Version,
    context: Context,
    value: &V,
) -> Result<(), DocFault>
    ensures { Gives result
        (no_members_at context (members_of_action version) (V.json value.now)) }
{
    match version {
        Version::One | Version::Two => no_members_but_do(alloc, context, value),
        Version::Three => no_members_but_do_and_whole(alloc, context, value),
    }
}

fn no_members_but_do<V: JsonValue>(
    alloc: Global,
    context: Context,
    value: &V,
) -> Result<(), DocFault>
    ensures { Gives result (no_members_at context (codes "do" ∷ []) (V.json value.now)) }
{
    match context {
        Context::Call => no_members_but(alloc, value, &["worker", "do"]),
        Context::Request => no_members_but(alloc, value, &["if", "worker", "do"]),
        Context::WriteRequest => {
            let _ = stamp(alloc, value)?;
            no_members_but(alloc, value, &["if", "worker", "stamp", "do"])
        }
        Context::Nested => no_members_but(alloc, value, &["do"]),
    }
}

fn no_members_but_do_and_whole<V: JsonValue>(
    alloc: Global,
    context: Context,
    value: &V,
) -> Result<(), DocFault>
    ensures { Gives result
        (no_members_at context (codes "do" ∷ codes "whole" ∷ []) (V.json value.now)) }
{
    match context {
        Context::Call => no_members_but(alloc, value, &["worker", "do", "whole"]),
        Context::Request => no_members_but(alloc, value, &["if", "worker", "do", "whole"]),
        Context::WriteRequest => {
            let _ = stamp(alloc, value)?;
            no_members_but(alloc, value, &["if", "worker", "stamp", "do", "whole"])
        }
        Context::Nested => no_members_but(alloc, value, &["do", "whole"]),
    }
}

/// Whether an object has the kind `do`, which version 1 doesn't know.
pub fn has_action<V: JsonValue>(version: Version, object: &V) -> bool
    ensures { result ≡ has_action version (V.json object.now) }
{
    match version {
        Version::One => false,
        Version::Two | Version::Three => has(object, "do"),
    }
}

/// The writes of an action, at most [`MAX_WRITES`].
#[derive(Drop)]
struct WritesDecoder<'a> {
    version: Version,
    catalog: &'a Catalog,
}

impl Decoder for WritesDecoder<'_> {
    type Output = Items<Write>;

    ghost meaning = { λ r. writes r.version r.catalog.now };

    fn decode<V: JsonValue>(&self, alloc: Global, value: &V) -> Result<Items<Write>, DocFault> {
        let items = array(alloc, value)?;
        if V::count(&items) > MAX_WRITES {
            return Err(DocFault::here(alloc, OUT_OF_RANGE));
        }
        let decoder = WriteDecoder {
            version: self.version,
            catalog: self.catalog,
        };
        decode_items::<_, V>(alloc, &decoder, items)
    }
}

/// A write that is an item of an action.
#[derive(Drop)]
struct WriteDecoder<'a> {
    version: Version,
    catalog: &'a Catalog,
}

impl Decoder for WriteDecoder<'_> {
    type Output = Write;

    ghost meaning = { λ r. item_of_action r.version r.catalog.now };

    #[tactic(auto, unfolding(crate::specs::Actions::item_of_action))]
    fn decode<V: JsonValue>(&self, alloc: Global, value: &V) -> Result<Write, DocFault> {
        object(alloc, value)?;
        match write(alloc, self.version, self.catalog, Context::Nested, value)? {
            Some(write) => Ok(write),
            None => Err(DocFault::here(alloc, NO_KIND)),
        }
    }
}
