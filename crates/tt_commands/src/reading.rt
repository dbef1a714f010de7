//! Selects and previews.
ghost use Rattle.std.specs.Prelude.{◌≡◌, None, IfOk, unwrap_or};
ghost use Rattle.tt_db.specs.Database.{state_of};
ghost use Rattle.tt_commands.specs.Answers.{Becomes};
ghost use Rattle.tt_commands.specs.Reading.{last_time_in, asks_for_all, latest_if, read, preview};
ghost use Rattle.tt_commands.specs.Readings.{answer_to};
ghost use Rattle.tt_commands.specs.Pages.{page_after, first_page, page_of_reply};

use crate::failure::Failure;
use crate::open_session::OpenSession;
use crate::pages::{first_page, page_after};
use crate::response::Response;
use crate::session_change::SessionChange;
use std::alloc::AllocError;
use tt_answers::Answer;
use tt_db::Db;
use tt_records::{Record, What};
use tt_requests::Page;
use tt_values::{Reply, Select};

/// A select that a worker asks for.
#[derive(Drop)]
pub(crate) struct Reading {
    worker: u32,
    select: Select,
    /// The generation, if the request names one.
    generation: Option<u64>,
    /// The number of the generation that is read.
    number: u64,
    /// The time in that generation.
    time: u64,
}

/// The last time of a generation, and 0 of one that can't be read.
pub(crate) fn last_time_in(db: &Db, number: u64) -> u64
    ensures { result ≡ last_time_in (state_of db.now) number }
{
    match db.last_time(number) {
        Some(time) => time,
        None => 0,
    }
}

/// The generation that is asked for: the current one, if none is.
pub(crate) fn number_of(db: &Db, generation: Option<u64>) -> u64
    ensures { result ≡ unwrap_or generation (state_of db.now).generation }
{
    match generation {
        Some(number) => number,
        None => db.generation(),
    }
}

/// The time that is asked for: the last one of the generation, if none is.
fn time_of(db: &Db, number: u64, at: Option<u64>) -> u64
    ensures { result ≡ unwrap_or at (last_time_in (state_of db.now) number) }
{
    match at {
        Some(time) => time,
        None => last_time_in(db, number),
    }
}

/// What is told and recorded of a select that is answered.
fn selected(
    session: &OpenSession,
    reading: Reading,
    after: Option<i64>,
    reply: Reply,
) -> Result<Response, AllocError>
    ensures answer { IfOk result (λ response. response.answer
        ≡ Answer.Selected reading.time (page_of_reply (page_after after) reply)) }
    ensures change { IfOk result (λ response. response.change
        ≡ SessionChange.Latest (latest_if (asks_for_all reading.generation (page_after after))
        session.now reading.worker (What.Read reading.select reading.time reply)) None) }
{
    let Reading {
        worker,
        select,
        generation,
        number: _,
        time,
    } = reading;
    let page = page_after(session.alloc(), after, &reply)?;
    let answer = Answer::Selected { time, page };
    if generation.is_some() || after.is_some() {
        return Ok(Response::unrecorded(answer));
    }
    let latest = Record {
        call: session.calls(),
        worker,
        what: What::Read {
            select,
            time,
            reply,
        },
    };
    Ok(Response {
        answer,
        change: SessionChange::Latest {
            record: Some(latest),
            stamped: None,
        },
    })
}

/// The rows of a select: those with greater keys than `after`, if that is given.
fn read_all(
    session: &OpenSession,
    reading: Reading,
    after: Option<i64>,
) -> Result<Response, Failure>
    ensures { Becomes session.now result (answer_to session.now reading (page_after after)) }
{
    let db = session.db();
    match db.select_in(reading.number, &reading.select, reading.time) {
        Ok(reply) => {
            let response = selected(session, reading, after, reply)?;
            Ok(response)
        }
        Err(error) => Err(Failure::from(error)),
    }
}

/// The first rows of a select. They aren't recorded.
fn read_first(
    session: &OpenSession,
    reading: &Reading,
    after: Option<i64>,
    most: u32,
) -> Result<Response, Failure>
    ensures { Becomes session.now result
        (answer_to session.now reading.now (first_page after most)) }
{
    let db = session.db();
    let time = reading.time;
    match db.page_in(reading.number, &reading.select, time, after, most as usize) {
        Ok(first) => {
            let page = first_page(first);
            Ok(Response::unrecorded(Answer::Selected { time, page }))
        }
        Err(error) => Err(Failure::from(error)),
    }
}

/// A page of a select.
fn read_page(session: &OpenSession, reading: Reading, page: Page) -> Result<Response, Failure>
    ensures { Becomes session.now result (answer_to session.now reading page) }
{
    match page.most {
        Some(most) => read_first(session, &reading, page.after, most),
        None => read_all(session, reading, page.after),
    }
}

/// A select of a generation, which is the current one if none is given, at a time, which is the
/// generation's last one if none is given.
pub(crate) fn read(
    session: &OpenSession,
    worker: u32,
    select: Select,
    generation: Option<u64>,
    at: Option<u64>,
    page: Page,
) -> Result<Response, Failure>
    ensures { Becomes session.now result (read session.now worker select generation at page) }
{
    let number = number_of(session.db(), generation);
    let time = time_of(session.db(), number, at);
    let reading = Reading {
        worker,
        select,
        generation,
        number,
        time,
    };
    read_page(session, reading, page)
}

/// The rows of a select of the next generation: those with greater keys than `after`, if that is
/// given.
fn preview_all(
    session: &OpenSession,
    select: &Select,
    after: Option<i64>,
) -> Result<Response, Failure>
    ensures { Becomes session.now result (preview session.now select.now (page_after after)) }
{
    let db = session.db();
    match db.preview(select) {
        Ok(reply) => {
            let page = page_after(session.alloc(), after, &reply)?;
            let done = db.slots_done();
            Ok(Response::unrecorded(Answer::Previewed { done, page }))
        }
        Err(error) => Err(Failure::from(error)),
    }
}

/// The first rows of a select of the next generation.
fn preview_first(
    session: &OpenSession,
    select: &Select,
    after: Option<i64>,
    most: u32,
) -> Result<Response, Failure>
    ensures { Becomes session.now result (preview session.now select.now (first_page after most)) }
{
    let db = session.db();
    match db.preview_page(select, after, most as usize) {
        Ok(first) => {
            let page = first_page(first);
            let done = db.slots_done();
            Ok(Response::unrecorded(Answer::Previewed { done, page }))
        }
        Err(error) => Err(Failure::from(error)),
    }
}

/// A select of the next generation, at the last slot that the repair has done.
pub(crate) fn preview(
    session: &OpenSession,
    select: &Select,
    page: Page,
) -> Result<Response, Failure>
    ensures { Becomes session.now result (preview session.now select.now page) }
{
    match page.most {
        Some(most) => preview_first(session, select, page.after, most),
        None => preview_all(session, select, page.after),
    }
}
