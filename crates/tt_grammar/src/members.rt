//! The members of an object that the grammar doesn't know.
ghost use Rattle.std.specs.Prelude.{◌≡◌, ◌++◌, codes, string_bytes, IfOk};
ghost use Rattle.std.specs.List.{list_any};
ghost use Rattle.std.specs.Option.{option_copied};
ghost use Rattle.std.specs.Str.{bytes_eq};
ghost use Rattle.tt_grammar.specs.Fault.{Gives};
ghost use Rattle.tt_grammar.specs.Quoting.{quoted};
ghost use Rattle.tt_grammar.specs.Members.{no_members_but, refuse_member};

use crate::fault::DocFault;
use crate::quoting::quoted_text;
use std::alloc::{AllocError, Global};
use tt_json::JsonValue;

/// Refuses an object that has a member of another name than these.
pub fn no_members_but<V: JsonValue>(
    alloc: Global,
    object: &V,
    known: &[&str],
) -> Result<(), DocFault>
    ensures { Gives result
        (no_members_but (λ name. list_any (λ k. bytes_eq name k.now) known.now)
        (V.json object.now)) }
{
    no_unknown_member(alloc, object.least_unknown(known))
}

/// Refuses an object for its least unknown member, where it has one.
pub(crate) fn no_unknown_member(alloc: Global, unknown: Option<&str>) -> Result<(), DocFault>
    ensures { Gives result (refuse_member (option_copied unknown.entry)) }
{
    match unknown {
        Some(name) => Err(DocFault::because(alloc, unknown_member(alloc, name))),
        None => Ok(()),
    }
}

fn unknown_member(alloc: Global, name: &str) -> Result<String, AllocError>
    ensures { IfOk result (λ s. string_bytes s ≡ codes "unknown member " ++ quoted name.now) }
{
    let name = quoted_text(alloc, name)?;
    format!(in alloc; "unknown member {name}")
}
