//! How a session forgets what lies before a time.
ghost use Rattle.std.specs.Prelude.{◌≡◌, None, IfOk, IfErr};
ghost use Rattle.tt_commands.specs.Answers.{Becomes};
ghost use Rattle.tt_commands.specs.Failures.{FailsWith};
ghost use Rattle.tt_commands.specs.Forgetting.{forgetting_of, forget_refusal, forgets_nothing, forget};
ghost use Rattle.tt_commands.specs.ForgetRequests.{AnswersForget, outcome_of_forget};

use crate::commands::moved_to;
use crate::failure::Failure;
use crate::open_session::OpenSession;
use crate::repairing::status_of;
use crate::response::Response;
use crate::session_change::{BoxedForgetting, Forgetting, SessionChange};
use std::alloc::AllocError;
use tt_answers::{Answer, Refusal};
use tt_db::{DbError, ReadError};
use tt_horizon::{Forgotten, forgotten};
use tt_requests::{ForgetRequest, NUMBER_LIMIT, Numbering, ToldTime};

/// Why a session doesn't forget what lies before a time, memory aside.
fn forget_refusal(session: &OpenSession, time: ToldTime) -> Option<Refusal>
    ensures { result ≡ forget_refusal session.now time }
{
    let db = session.db();
    let numbering = session.numbering();
    let now = db.now();
    if db.is_repairing() {
        return Some(Refusal::Event(DbError::Repairing));
    }
    if numbering.told_time(now).number < time.number {
        return Some(Refusal::Read(ReadError::Later { now }));
    }
    if numbering.is_forgotten_time(time) {
        return Some(Refusal::Forgotten);
    }
    let generation = numbering.told_generation(db.generation());
    if NUMBER_LIMIT <= time.number || NUMBER_LIMIT <= generation.number {
        return Some(Refusal::Event(DbError::Full {
            limit: NUMBER_LIMIT,
        }));
    }
    None
}

/// Whether nothing is left to forget: the horizon stays, and so does the number of entries.
fn forgets_nothing(session: &OpenSession, forgetting: &Forgetting) -> bool
    ensures { result ≡ forgets_nothing session.now forgetting.now }
{
    let horizon = session.numbering().horizon().number;
    forgetting.db.events() == session.db().events()
        && forgetting.numbering.horizon().number == horizon
}

/// The database that has forgotten what lies before a time, where that isn't refused.
fn forgetting(session: &OpenSession, time: ToldTime) -> Result<Forgetting, AllocError>
    requires { forget_refusal session.now time ≡ None }
    ensures { IfOk result (λ f. f ≡ forgetting_of session.now time) }
{
    let numbering = session.numbering();
    let generation = numbering.told_generation(session.db().generation());
    let own = numbering.own_time(time);
    let Ok(Forgotten { db, ground_slots }) = forgotten(session.alloc(), session.db(), own) else {
        // It isn't refused, so there is no memory.
        return Err(AllocError);
    };
    Ok(Forgetting {
        db,
        time: own,
        ground_slots,
        numbering: Numbering::behind(time, ground_slots, generation),
        stamps: session.stamps_behind(own)?,
    })
}

/// What lies before a time is forgotten, and the session tells how it stands. Returns the answer,
/// and how the session goes on if there was something to forget.
pub(crate) fn forget_or_stay(
    session: &OpenSession,
    time: ToldTime,
) -> Result<(Answer, Option<BoxedForgetting>), Failure>
    ensures ok { IfOk result (λ r. AnswersForget session.now (forget session.now time) r.0 r.1) }
    ensures err { IfErr result (λ failure. FailsWith failure (forget session.now time)) }
{
    if let Some(refusal) = forget_refusal(session, time) {
        return Err(Failure::Refused(refusal));
    }
    let forgetting = forgetting(session, time)?;
    if forgets_nothing(session, &forgetting) {
        return Ok((Answer::Standing(status_of(session.db())), None));
    }
    let answer = Answer::Standing(status_of(&forgetting.db));
    let forgetting = BoxedForgetting::new(session.alloc(), forgetting)?;
    Ok((answer, Some(forgetting)))
}

/// What lies before a time is forgotten, and the session tells how it stands.
pub(crate) fn forget(session: &OpenSession, time: ToldTime) -> Result<Response, Failure>
    ensures { Becomes session.now result (forget session.now time) }
{
    let (answer, forgetting) = forget_or_stay(session, time)?;
    match forgetting {
        Some(forgetting) => Ok(Response {
            answer,
            change: SessionChange::Forgetting(forgetting),
        }),
        None => Ok(Response::unrecorded(answer)),
    }
}

/// Carries out a request to forget, unless it expects another time.
pub fn outcome_of_forget(
    session: &OpenSession,
    request: ForgetRequest,
) -> Result<(Answer, Option<BoxedForgetting>), Failure>
    ensures ok { IfOk result (λ r.
        AnswersForget session.now (outcome_of_forget session.now request) r.0 r.1) }
    ensures err { IfErr result (λ failure.
        FailsWith failure (outcome_of_forget session.now request)) }
{
    match moved_to(session.numbering(), session.db().now(), request.expected) {
        Some(now) => Err(Failure::Refused(Refusal::Moved { now })),
        None => forget_or_stay(session, request.time),
    }
}
