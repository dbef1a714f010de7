//! Reading of a text's JSON.
ghost use Rattle.std.specs.Prelude.{IfOk, IfErr, IfSome, IsSomeAnd};
ghost use Rattle.json.specs.Json.{document};
ghost use Rattle.json.specs.Strict.{HasUniqueKeys};
ghost use Rattle.tt_json.specs.Tape.{IsValue, value_at};
ghost use Rattle.tt_grammar.specs.Fault.{FailsWith, GivesViewed};
ghost use Rattle.tt_grammar.specs.RepeatedMembers.{names_once};
ghost use Rattle.tt_grammar.specs.TextValue.{value_of_text};

use crate::fault::DocFault;
use crate::repeated_members::names_once;
use json::{Tape, Value};
use std::alloc::Global;
use tt_json::{Error, Scratch, parse, parse_strict};

/// Why a text is refused that isn't JSON.
pub const NOT_JSON: &str = "not JSON";

/// Why a text is refused that is longer than documents and lines may be.
pub const TOO_LONG: &str = "longer than 16777216 bytes";

/// Reads the JSON of a text onto a tape, whose value [`root`](tt_json::root) gives. The first fault
/// of a text is that it isn't JSON, or else that an object names a member twice; paths begin at the
/// value. `scratch` holds the texts that were written with escapes. Memory can run out before the
/// fault is met, as it does for a text of 4 GiB.
pub fn parse_text<'a>(
    alloc: Global,
    text: &'a str,
    scratch: &'a mut Scratch,
) -> Result<Tape<'a>, DocFault>
    ensures value { IfOk result (λ tape. IsValue tape) }
    ensures gives { GivesViewed value_at result (value_of_text text.now) }
{
    match parse_strict(text, scratch, Vec::new(alloc)) {
        Ok(tape) => Ok(tape),
        Err(Error::Invalid) => Err(DocFault::here(alloc, NOT_JSON)),
        Err(Error::DuplicateKey) => Err(fault_of_repeating(alloc, text)),
        Err(Error::TooLong | Error::OutOfMemory) => Err(DocFault::Memory),
    }
}

/// The fault of a text in which an object names a member twice. The text may still be no JSON,
/// where it nests too deep or has a number that is too large.
fn fault_of_repeating(alloc: Global, text: &str) -> DocFault
    requires { IsSomeAnd (document text.now) (λ j. ¬ HasUniqueKeys j) }
    ensures { FailsWith result (value_of_text text.now) }
{
    let mut scratch = Scratch::new(alloc);
    match parse(text, &mut scratch, Vec::new(alloc)) {
        Ok(_) => repeated_member(alloc, text),
        Err(Error::Invalid) => DocFault::here(alloc, NOT_JSON),
        Err(_) => DocFault::Memory,
    }
}

/// The fault of the first name in a text that its object has already.
fn repeated_member(alloc: Global, text: &str) -> DocFault
    requires { IsSomeAnd (document text.now) (λ j. ¬ HasUniqueKeys j) }
    ensures { IfSome (document text.now) (λ j. FailsWith result (names_once j)) }
{
    let mut scratch = Scratch::new(alloc);
    let Ok(value) = Value::parse(alloc, text, &mut scratch) else {
        return DocFault::Memory;
    };
    match names_once(alloc, &value) {
        Ok(()) => unreachable!(),
        Err(fault) => fault,
    }
}
