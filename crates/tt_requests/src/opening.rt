//! The opening of a session.
ghost use Rattle.std.specs.Prelude.{Ok};
ghost use Rattle.tt_grammar.specs.Fault.{Gives};
ghost use Rattle.tt_requests.specs.Opening.{declaration, members_of_opening, opening_of};

use crate::line_value::parse_line;
use crate::{MAX_KEEP, MAX_RECORDS};
use std::alloc::Global;
use tt_grammar::decoding::{CountDecoder, TablesDecoder, member, no_members_but, object, optional};
use tt_grammar::{DocFault, NEWEST_SESSION_VERSION, OLDEST_SESSION_VERSION};
use tt_json::{JsonValue, Scratch, root};
use tt_values::{Catalog, Shared};

const VERSION: CountDecoder = CountDecoder {
    min: OLDEST_SESSION_VERSION,
    max: NEWEST_SESSION_VERSION,
};

const KEEP: CountDecoder = CountDecoder {
    min: 0,
    max: MAX_KEEP,
};

const USUAL_KEEP: u32 = 4;

const RECORDS: CountDecoder = CountDecoder {
    min: 0,
    max: MAX_RECORDS,
};

const USUAL_RECORDS: u32 = 100_000;

/// What an opening asks for. The version that it names says what its client was written for, and
/// isn't kept.
#[derive(Debug, Drop)]
pub struct Opening {
    pub catalog: Shared<Catalog>,
    /// How many closed generations are kept, at most [`MAX_KEEP`].
    pub keep: u32,
    /// How many records of calls are kept, at most [`MAX_RECORDS`].
    pub records: u32,
}

impl Opening {
    ghost use Rattle.tt_requests.specs.LineValue.{value_of_line};

    /// The opening that a line spells, or its first fault: that the line is too long; or else that
    /// it isn't JSON; or else that an object names a member twice; or else the one of its JSON
    /// value. Memory can run out before the fault is met.
    pub fn from_line(alloc: Global, line: &[u8]) -> Result<Opening, DocFault>
        ensures { Gives result (opening_of (value_of_line line.now)) }
    {
        let mut scratch = Scratch::new(alloc);
        match parse_line(alloc, line, &mut scratch) {
            Ok(tape) => from_json(alloc, &root(&tape)),
            Err(fault) => Err(fault.in_document(alloc)),
        }
    }
}

fn from_json<V: JsonValue>(alloc: Global, value: &V) -> Result<Opening, DocFault>
    ensures { Gives result (opening_of (Ok (V.json value.now))) }
{
    match from_members(alloc, value) {
        Ok(opening) => Ok(opening),
        Err(fault) => Err(fault.in_document(alloc)),
    }
}

/// The opening of an object. Paths begin at the object.
#[tactic(auto, unfolding(crate::specs::Opening::members_of_opening))]
fn from_members<V: JsonValue>(alloc: Global, value: &V) -> Result<Opening, DocFault>
    ensures { Gives result (members_of_opening (V.json value.now)) }
{
    let opening = declaration(alloc, value)?;
    no_members_but(alloc, value, &["keep", "records", "tables", "version"])?;
    Ok(opening)
}

/// What an object declares that may have further members. Paths begin at the object.
#[tactic(auto, unfolding(crate::specs::Opening::declaration))]
pub(crate) fn declaration<V: JsonValue>(alloc: Global, value: &V) -> Result<Opening, DocFault>
    ensures { Gives result (declaration (V.json value.now)) }
{
    object(alloc, value)?;
    member(alloc, value, "version", &VERSION)?;
    let catalog = member(alloc, value, "tables", &TablesDecoder)?;
    let keep = optional(alloc, value, "keep", &KEEP)?;
    let records = optional(alloc, value, "records", &RECORDS)?;
    let catalog = Shared::new(alloc, catalog)?;
    Ok(Opening {
        catalog,
        keep: keep.unwrap_or(USUAL_KEEP),
        records: records.unwrap_or(USUAL_RECORDS),
    })
}
