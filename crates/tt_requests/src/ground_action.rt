//! The actions of the ground of a log that was made anew.
ghost use Rattle.std.specs.Prelude.{Ok};
ghost use Rattle.tt_grammar.specs.Fault.{Gives};
ghost use Rattle.tt_requests.specs.LineValue.{value_of_line};
ghost use Rattle.tt_requests.specs.GroundAction.{members_of_ground_action, ground_action_of};

use crate::line_value::parse_line;
use std::alloc::Global;
use tt_grammar::DocFault;
use tt_grammar::decoding::{Context, Version, action, no_members_but, object};
use tt_json::{JsonValue, Scratch, root};
use tt_values::{Action, Catalog};

/// The action of a slot of the ground that a line spells, for a database with these tables, or its
/// first fault: that the line is too long; or else that it isn't JSON; or else that an object names
/// a member twice; or else the one of its JSON value, which has the member `do` alone. It is read
/// as of the newest version. Memory can run out before the fault is met. What `scratch` held
/// doesn't matter. It grows to the longest line.
pub fn ground_action_from_line(
    alloc: Global,
    catalog: &Catalog,
    line: &[u8],
    scratch: &mut Scratch,
) -> Result<Action, DocFault>
    ensures { Gives result (ground_action_of catalog.now (value_of_line line.now)) }
{
    match parse_line(alloc, line, scratch) {
        Ok(tape) => from_json(alloc, catalog, &root(&tape)),
        Err(fault) => Err(fault.in_document(alloc)),
    }
}

fn from_json<V: JsonValue>(alloc: Global, catalog: &Catalog, value: &V) -> Result<Action, DocFault>
    ensures { Gives result (ground_action_of catalog.now (Ok (V.json value.now))) }
{
    match from_members(alloc, catalog, value) {
        Ok(action) => Ok(action),
        Err(fault) => Err(fault.in_document(alloc)),
    }
}

/// The action of an object. Paths begin at the object.
fn from_members<V: JsonValue>(
    alloc: Global,
    catalog: &Catalog,
    value: &V,
) -> Result<Action, DocFault>
    ensures { Gives result (members_of_ground_action catalog.now (V.json value.now)) }
{
    object(alloc, value)?;
    let action = action(alloc, Version::newest(), catalog, Context::Nested, value)?;
    no_members_but(alloc, value, &["do"])?;
    Ok(action)
}
