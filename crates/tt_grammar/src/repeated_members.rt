//! Members that an object names twice.
ghost use Rattle.std.specs.Prelude.{◌≡◌, ◌++◌, [], codes, string_bytes, IfOk};
ghost use Rattle.json.specs.Value.{value_view, items_view, members_view};
ghost use Rattle.tt_grammar.specs.Fault.{Gives, IsFault};
ghost use Rattle.tt_grammar.specs.Quoting.{quoted};
ghost use Rattle.tt_grammar.specs.RepeatedMembers.{named_twice, repeated_in_items, repeated_in_members, unless_fault, names_once};

use crate::fault::DocFault;
use crate::quoting::quoted_text;
use json::Value;
use std::alloc::{AllocError, Global};
use std::collections::BTreeSet;

/// Refuses a value in which an object names a member twice. Paths begin at the value.
#[cycle(names_once)]
pub(crate) fn names_once(alloc: Global, value: &Value<'_>) -> Result<(), DocFault>
    ensures { Gives result (names_once (value_view value.now)) }
{
    match value {
        Value::Array(items) => items_name_once(alloc, items.as_slice()),
        Value::Object(members) => members_name_once(alloc, members.as_slice()),
        _ => Ok(()),
    }
}

#[cycle(names_once)]
fn items_name_once(alloc: Global, items: &[Value<'_>]) -> Result<(), DocFault>
    ensures { Gives result (unless_fault (repeated_in_items 0 (items_view items.now))) }
{
    for (index, item) in items.iter().enumerate() {
        if let Err(fault) = names_once(alloc, item) {
            return Err(fault.in_item(alloc, index));
        }
    }
    Ok(())
}

#[cycle(names_once)]
fn members_name_once(alloc: Global, members: &[(&str, Value<'_>)]) -> Result<(), DocFault>
    ensures { Gives result (unless_fault (repeated_in_members [] (members_view members.now))) }
{
    let mut names = BTreeSet::new(alloc);
    for member in members {
        let name = member.0;
        if !names.insert(name)? {
            return Err(named_twice(alloc, name));
        }
        if let Err(fault) = names_once(alloc, &member.1) {
            return Err(fault.in_member(alloc, name));
        }
    }
    Ok(())
}

fn named_twice(alloc: Global, name: &str) -> DocFault
    ensures { IsFault result (named_twice name.now) }
{
    DocFault::because(alloc, member_named_twice(alloc, name))
}

fn member_named_twice(alloc: Global, name: &str) -> Result<String, AllocError>
    ensures { IfOk result
        (λ s. string_bytes s ≡ codes "member " ++ (quoted name.now ++ codes " named twice")) }
{
    let name = quoted_text(alloc, name)?;
    format!(in alloc; "member {name} named twice")
}
