//! Reading of a line's JSON.
ghost use Rattle.std.specs.Prelude.{IfOk};
ghost use Rattle.tt_json.specs.Tape.{IsValue, value_at};
ghost use Rattle.tt_grammar.specs.Fault.{GivesViewed};
ghost use Rattle.tt_requests.specs.LineValue.{value_of_line};

use crate::lines::is_too_long;
use json::Tape;
use std::alloc::Global;
use tt_grammar::decoding::{NOT_JSON, TOO_LONG};
use tt_grammar::{DocFault, parse_text};
use tt_json::Scratch;

/// Reads the JSON of a line onto a tape. Its length is judged first. `scratch` holds the texts that
/// were written with escapes.
#[tactic(auto, using(crate::proofs::LineLemmas::line_cases))]
pub(crate) fn parse_line<'a>(
    alloc: Global,
    line: &'a [u8],
    scratch: &'a mut Scratch,
) -> Result<Tape<'a>, DocFault>
    ensures value { IfOk result (λ tape. IsValue tape) }
    ensures gives { GivesViewed value_at result (value_of_line line.now) }
{
    if is_too_long(line) {
        return Err(DocFault::here(alloc, TOO_LONG));
    }
    match str::from_utf8(line) {
        Ok(text) => parse_text(alloc, text, scratch),
        Err(_) => Err(DocFault::here(alloc, NOT_JSON)),
    }
}
