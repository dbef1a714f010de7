//! The opening of a log that was made anew.
ghost use Rattle.std.specs.Prelude.{Ok};
ghost use Rattle.tt_grammar.specs.Fault.{Gives};
ghost use Rattle.tt_requests.specs.LogOpening.{remembered_number, ground_numbering, members_of_log_opening, log_opening_of};

use crate::MAX_GROUND_SLOTS;
use crate::line_value::parse_line;
use crate::numbering::{NUMBER_LIMIT, Numbering};
use crate::opening::{Opening, declaration};
use crate::told::{ToldGeneration, ToldTime};
use std::alloc::Global;
use tt_grammar::DocFault;
use tt_grammar::decoding::{
    CountDecoder, Decoder, OUT_OF_RANGE, count, member, no_members_but, object,
};
use tt_json::{JsonValue, Scratch, root};

const GROUND_SLOTS: CountDecoder = CountDecoder {
    min: 0,
    max: MAX_GROUND_SLOTS,
};

/// What a log begins with that was made anew.
#[derive(Debug, Drop)]
pub struct LogOpening {
    pub opening: Opening,
    /// What was forgotten, and how many slots behind this line are the ground, at most
    /// [`MAX_GROUND_SLOTS`].
    pub numbering: Numbering,
}

impl LogOpening {
    ghost use Rattle.std.specs.Prelude.{IfOk};
    ghost use Rattle.tt_requests.specs.LineValue.{value_of_line};
    ghost use Rattle.tt_requests.specs.LogOpening.{IsLogOpening};

    /// The opening of a log that a line spells, or its first fault: that the line is too long; or
    /// else that it isn't JSON; or else that an object names a member twice; or else the one of its
    /// JSON value. Memory can run out before the fault is met.
    pub fn from_line(alloc: Global, line: &[u8]) -> Result<LogOpening, DocFault>
        ensures gives { Gives result (log_opening_of (value_of_line line.now)) }
        ensures bounds { IfOk result IsLogOpening }
    {
        from_text(alloc, line)
    }
}

ghost use Rattle.tt_requests.specs.LineValue.{value_of_line};

fn from_text(alloc: Global, line: &[u8]) -> Result<LogOpening, DocFault>
    ensures { Gives result (log_opening_of (value_of_line line.now)) }
{
    let mut scratch = Scratch::new(alloc);
    match parse_line(alloc, line, &mut scratch) {
        Ok(tape) => from_json(alloc, &root(&tape)),
        Err(fault) => Err(fault.in_document(alloc)),
    }
}

fn from_json<V: JsonValue>(alloc: Global, value: &V) -> Result<LogOpening, DocFault>
    ensures { Gives result (log_opening_of (Ok (V.json value.now))) }
{
    match from_members(alloc, value) {
        Ok(opening) => Ok(opening),
        Err(fault) => Err(fault.in_document(alloc)),
    }
}

/// The opening of an object. Paths begin at the object.
#[tactic(auto, unfolding(crate::specs::LogOpening::members_of_log_opening))]
fn from_members<V: JsonValue>(alloc: Global, value: &V) -> Result<LogOpening, DocFault>
    ensures { Gives result (members_of_log_opening (V.json value.now)) }
{
    let opening = declaration(alloc, value)?;
    let numbering = member(alloc, value, "ground", &NumberingDecoder)?;
    no_members_but(
        alloc,
        value,
        &["ground", "keep", "records", "tables", "version"],
    )?;
    Ok(LogOpening { opening, numbering })
}

/// What was forgotten, and how many slots are the ground.
#[derive(Drop)]
struct NumberingDecoder;

impl Decoder for NumberingDecoder {
    type Output = Numbering;

    ghost meaning = { λ _. ground_numbering };

    #[tactic(auto, unfolding(crate::specs::LogOpening::ground_numbering))]
    fn decode<V: JsonValue>(&self, alloc: Global, value: &V) -> Result<Numbering, DocFault> {
        object(alloc, value)?;
        let time = member(alloc, value, "time", &RememberedDecoder)?;
        let generation = member(alloc, value, "generation", &RememberedDecoder)?;
        let slots = member(alloc, value, "slots", &GROUND_SLOTS)?;
        no_members_but(alloc, value, &["generation", "slots", "time"])?;
        if time < u64::from(slots) {
            return Err(DocFault::here(alloc, OUT_OF_RANGE));
        }
        Ok(Numbering::behind(
            ToldTime { number: time },
            u64::from(slots),
            ToldGeneration { number: generation },
        ))
    }
}

/// A number below [`NUMBER_LIMIT`].
#[derive(Drop)]
struct RememberedDecoder;

impl Decoder for RememberedDecoder {
    type Output = u64;

    ghost meaning = { λ _. remembered_number };

    fn decode<V: JsonValue>(&self, alloc: Global, value: &V) -> Result<u64, DocFault> {
        let number = count(alloc, value)?;
        if number >= NUMBER_LIMIT {
            return Err(DocFault::here(alloc, OUT_OF_RANGE));
        }
        Ok(number)
    }
}
