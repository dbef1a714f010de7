//! How a repair goes on: its beginning, its steps, and its two ends.
ghost use Rattle.std.specs.Prelude.{◌≡◌, ◌≢◌, false, true, None, IfOk, IfErr, OnOk};
ghost use Rattle.tt_generations.specs.TwoGenerations.{is_repairing};
ghost use Rattle.tt_db.specs.Database.{state_of, repair_of, repair_worker_of};
ghost use Rattle.tt_commands.specs.Answers.{Becomes};
ghost use Rattle.tt_commands.specs.Session.{with_database};
ghost use Rattle.tt_commands.specs.Repairing.{progress_now, repair_status, status_of, other_worker, begin, step, finish, abort};

use crate::failure::Failure;
use crate::open_session::OpenSession;
use crate::response::Response;
use crate::session_change::SessionChange;
use tt_answers::{Answer, RepairStatus, Status};
use tt_db::{Db, DbError, Edit, Event, Progress, SwitchOutcome};
use tt_values::Items;

/// How far the repair of a database is: nothing is done where none is under way.
pub(crate) fn progress_now(db: &Db) -> Progress
    ensures { result ≡ progress_now db.now }
{
    match db.repair() {
        Some(progress) => progress,
        None => Progress {
            done: 0,
            left: 0,
            rerun: 0,
        },
    }
}

/// How far the repair is, or that none is under way.
pub(crate) fn repair_under_way(db: &Db) -> Result<Progress, DbError>
    ensures value { IfOk result (λ progress. progress ≡ progress_now db.now) }
    ensures repairing { OnOk result (is_repairing (state_of db.now).phase ≡ true) }
    ensures refused { IfErr result (λ e.
        (e ≡ DbError.NotRepairing) × (is_repairing (state_of db.now).phase ≡ false)) }
{
    db.repair().ok_or(DbError::NotRepairing)
}

/// The worker that began the repair under way, where a request is for the repair of another.
pub(crate) fn other_worker(db: &Db, told: Option<u32>) -> Option<u32>
    ensures { result ≡ other_worker told (repair_worker_of db.now) }
{
    let told = told?;
    let beginner = db.repair_worker()?;
    if told == beginner {
        None
    } else {
        Some(beginner)
    }
}

/// How the repair stands, if one is under way.
fn repair_status(db: &Db) -> Option<RepairStatus>
    ensures { result ≡ repair_status (repair_of db.now) (repair_worker_of db.now) }
{
    let progress = db.repair()?;
    let worker = db.repair_worker()?;
    Some(RepairStatus { progress, worker })
}

/// How a database stands.
pub fn status_of(db: &Db) -> Status
    ensures { result ≡ status_of db.now }
{
    Status {
        time: db.now(),
        generation: db.generation(),
        oldest: db.oldest(),
        entries: db.events(),
        repair: repair_status(db),
    }
}

/// How far the repair of a session is, as its answer.
fn progress_response(session: &OpenSession) -> Response
    ensures { result ≡ record {
      answer = Answer.Repairing (progress_now session.now.database);
      change = SessionChange.Latest None None;
    } }
{
    Response::unrecorded(Answer::Repairing(progress_now(session.db())))
}

/// A repair begins, and does the slots of the ground. Without memory nothing is promised of the
/// database.
pub(crate) fn begin(
    session: &mut OpenSession,
    worker: u32,
    edits: Items<Edit>,
) -> Result<Response, Failure>
    ensures becomes { Becomes session.new result (begin session.old worker edits) }
    ensures stays { IfErr result (λ f. f ≢ Failure.Memory → session.new ≡ session.old) }
    ensures rest { session.new ≡ with_database session.old session.new.database }
{
    let ground_slots = session.numbering().ground_slots();
    session.advance(worker, Event::Begin(edits))?;
    let count = ground_slots.min(session.db().slots_left());
    session.make_steps(worker, count)?;
    Ok(progress_response(session))
}

/// The repair does slots: at most this many, and no more than are left.
pub(crate) fn step(session: &mut OpenSession, worker: u32, most: u32) -> Result<Response, Failure>
    ensures becomes { Becomes session.new result (step session.old worker most) }
    ensures stays { IfErr result (λ f. f ≢ Failure.Memory → session.new ≡ session.old) }
    ensures rest { session.new ≡ with_database session.old session.new.database }
{
    let progress = repair_under_way(session.db())?;
    session.make_steps(worker, u64::from(most).min(progress.left))?;
    Ok(progress_response(session))
}

/// The repair does all slots that are left, and the next generation becomes the current one.
pub(crate) fn finish(session: &mut OpenSession, worker: u32) -> Result<Response, Failure>
    ensures becomes { Becomes session.new result (finish session.old worker) }
    ensures stays { IfErr result (λ f. f ≢ Failure.Memory → session.new ≡ session.old) }
    ensures rest { session.new ≡ with_database session.old session.new.database }
{
    let progress = repair_under_way(session.db())?;
    session.make_steps(worker, progress.left)?;
    let SwitchOutcome {
        generation,
        slots,
        rerun,
    } = session.switch(worker)?;
    Ok(Response::unrecorded(Answer::Finished {
        generation,
        slots,
        rerun,
    }))
}

/// The repair is given up.
pub(crate) fn abort(session: &mut OpenSession, worker: u32) -> Result<Response, Failure>
    ensures becomes { Becomes session.new result (abort session.old worker) }
    ensures stays { IfErr result (λ f. f ≢ Failure.Memory → session.new ≡ session.old) }
    ensures rest { session.new ≡ with_database session.old session.new.database }
{
    let _ = repair_under_way(session.db())?;
    session.carry_out(worker, Event::Abort)?;
    Ok(Response::unrecorded(Answer::Standing(status_of(session.db()))))
}
