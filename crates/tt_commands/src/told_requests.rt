//! What requests ask for, by the numbers that a session tells.
ghost use Rattle.std.specs.Prelude.{◌≡◌, ◌≢◌, option_map, IfErr};
ghost use Rattle.tt_requests.specs.Numbers.{own_time};
ghost use Rattle.tt_commands.specs.Answers.{Becomes};
ghost use Rattle.tt_commands.specs.Session.{with_database};
ghost use Rattle.tt_commands.specs.Commands.{slots};
ghost use Rattle.tt_commands.specs.ToldRequests.{no_generation, forgotten_in, asks_for_forgotten, read_at, read_as_told, first_slot, missing_if_idle, begin_as_told};

use crate::failure::Failure;
use crate::open_session::OpenSession;
use crate::reading::{number_of, read};
use crate::repairing::begin;
use crate::response::Response;
use crate::slot_entries::slots_between;
use tt_answers::Refusal;
use tt_db::{Edit, ReadError};
use tt_requests::{
    Numbering, Page, SlotFilter, ToldEdits, ToldGeneration, ToldTime, missing_slot, own_edits,
};
use tt_values::Select;

/// A generation can't be read.
pub(crate) fn no_generation(session: &OpenSession) -> Refusal
    ensures { result ≡ no_generation session.now }
{
    let db = session.db();
    Refusal::Read(ReadError::NoGeneration {
        oldest: db.oldest(),
        newest: db.generation(),
    })
}

/// A time before the horizon isn't there any more, in a generation that can be read.
fn forgotten_in(session: &OpenSession, number: u64) -> Refusal
    ensures { result ≡ forgotten_in session.now number }
{
    match session.db().last_time(number) {
        Some(_) => Refusal::Forgotten,
        None => no_generation(session),
    }
}

/// Whether a time is given that lies before the horizon.
fn asks_for_forgotten(numbering: Numbering, at: Option<ToldTime>) -> bool
    ensures { result ≡ asks_for_forgotten numbering at }
{
    match at {
        Some(at) => numbering.is_forgotten_time(at),
        None => false,
    }
}

/// The time of the database, if one is given.
fn own_time(numbering: Numbering, at: Option<ToldTime>) -> Option<u64>
    ensures { result ≡ option_map (own_time numbering) at }
{
    match at {
        Some(at) => Some(numbering.own_time(at)),
        None => None,
    }
}

/// A select of a generation of the database, if one is given, at a time as it is told, if one is
/// given.
fn read_at(
    session: &OpenSession,
    worker: u32,
    select: Select,
    generation: Option<u64>,
    at: Option<ToldTime>,
    page: Page,
) -> Result<Response, Failure>
    ensures { Becomes session.now result (read_at session.now worker select generation at page) }
{
    let numbering = session.numbering();
    if asks_for_forgotten(numbering, at) {
        let number = number_of(session.db(), generation);
        return Err(Failure::Refused(forgotten_in(session, number)));
    }
    read(
        session,
        worker,
        select,
        generation,
        own_time(numbering, at),
        page,
    )
}

/// A select of a generation and at a time as they are told, each of which may be left out.
pub(crate) fn read_as_told(
    session: &OpenSession,
    worker: u32,
    select: Select,
    generation: Option<ToldGeneration>,
    at: Option<ToldTime>,
    page: Page,
) -> Result<Response, Failure>
    ensures { Becomes session.now result
        (read_as_told session.now worker select generation at page) }
{
    let Some(generation) = generation else {
        return read_at(session, worker, select, None, at, page);
    };
    match session.numbering().own_generation(generation) {
        Some(number) => read_at(session, worker, select, Some(number), at, page),
        None => Err(Failure::Refused(no_generation(session))),
    }
}

/// The first slot from one on that isn't forgotten, by the numbers of the database.
fn first_slot(numbering: Numbering, from: ToldTime) -> u64
    ensures { result ≡ first_slot numbering from }
{
    if numbering.is_behind_horizon(from) {
        numbering.own_time(from)
    } else {
        numbering.ground_slots() + 1
    }
}

/// What is told of the slots from one to another behind the horizon, and the current time.
pub(crate) fn slots(
    session: &OpenSession,
    from: ToldTime,
    to: ToldTime,
    filter: SlotFilter,
) -> Result<Response, Failure>
    ensures { Becomes session.now result (slots session.now from to filter) }
{
    let numbering = session.numbering();
    let first = first_slot(numbering, from);
    slots_between(session, first, numbering.own_time(to), filter)
}

/// The slot that isn't there, if no repair is under way, which is refused before that.
pub(crate) fn missing_if_idle(session: &OpenSession, edits: &[Edit]) -> Option<ToldTime>
    ensures { result ≡ missing_if_idle session.now edits.now }
{
    let db = session.db();
    if db.is_repairing() {
        return None;
    }
    missing_slot(session.numbering(), db.now(), edits)
}

/// A repair begins with edits whose slots are told. Without memory nothing is promised of the
/// database.
pub(crate) fn begin_as_told(
    session: &mut OpenSession,
    worker: u32,
    told: &ToldEdits,
) -> Result<Response, Failure>
    ensures becomes { Becomes session.new result (begin_as_told session.old worker told.now) }
    ensures stays { IfErr result (λ f. f ≢ Failure.Memory → session.new ≡ session.old) }
    ensures rest { session.new ≡ with_database session.old session.new.database }
{
    let edits = told.edits.as_slice();
    if let Some(slot) = missing_if_idle(session, edits) {
        return Err(Failure::Refused(Refusal::NoSlot { slot }));
    }
    let edits = own_edits(session.alloc(), session.numbering(), edits)?;
    begin(session, worker, edits)
}
