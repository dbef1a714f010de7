//! What an open session answers to a request.
ghost use Rattle.std.specs.Prelude.{◌≡◌, ◌≢◌, true, IfErr};
ghost use Rattle.tt_commands.specs.Answers.{Becomes};
ghost use Rattle.tt_commands.specs.Session.{with_database};
ghost use Rattle.tt_commands.specs.Commands.{status, declared_tables, carried_out, moved_to, outcome_of_request};
ghost use Rattle.tt_requests.specs.Asked.{is_read_only};

use crate::cause_entries::why;
use crate::change_entries::{changes, next_changes};
use crate::diff_entries::diff;
use crate::failure::Failure;
use crate::forgetting::forget;
use crate::open_session::OpenSession;
use crate::reading::preview;
use crate::repairing::{abort, finish, other_worker, status_of, step};
use crate::response::Response;
use crate::told_requests::{begin_as_told, read_as_told, slots};
use crate::trial::would;
use crate::writing::write;
use tt_answers::{Answer, Refusal};
use tt_requests::{Command, Numbering, Request, ToldTime};

/// How the database stands.
fn status(session: &OpenSession) -> Result<Response, Failure>
    ensures { Becomes session.now result (status session.now) }
{
    let status = status_of(session.db());
    Ok(Response::unrecorded(Answer::Standing(status)))
}

/// The tables, and how much is kept.
fn declared_tables(session: &OpenSession) -> Result<Response, Failure>
    ensures { Becomes session.now result (declared_tables session.now) }
{
    Ok(Response::unrecorded(Answer::Declared {
        keep: session.db().limits().keep,
        records: session.terms().most_records,
    }))
}

/// Carries out a command of a worker, whoever began the repair. Without memory the session is as
/// before if the command is read-only; else nothing is promised of its database.
fn carried_out(
    session: &mut OpenSession,
    worker: u32,
    command: Command,
) -> Result<Response, Failure>
    ensures becomes { Becomes session.new result (carried_out session.old worker command) }
    ensures stays { IfErr result (λ f. f ≢ Failure.Memory → session.new ≡ session.old) }
    ensures rest { session.new ≡ with_database session.old session.new.database }
    ensures reads { is_read_only command ≡ true → session.new ≡ session.old }
{
    match command {
        Command::Write { action, stamp } => write(session, worker, action, stamp),
        Command::Read {
            select,
            at,
            generation,
            page,
        } => read_as_told(session, worker, select, generation, at, page),
        Command::Preview { select, page } => preview(session, &select, page),
        Command::Begin(edits) => begin_as_told(session, worker, &edits),
        Command::Step { most, .. } => step(session, worker, most),
        Command::Finish { .. } => finish(session, worker),
        Command::Abort { .. } => abort(session, worker),
        Command::Status => status(session),
        Command::Slots { from, to, filter } => slots(session, from, to, filter),
        Command::Changes(page) => changes(session, page),
        Command::NextChanges(page) => next_changes(session, page),
        Command::Tables => declared_tables(session),
        Command::Why { generation, page } => why(session, generation, page),
        Command::Diff { generation, page } => diff(session, generation, page),
        Command::Would(edits) => would(session, &edits),
        Command::Forget(time) => forget(session, time),
    }
}

/// The current time, if a request expects another one.
pub(crate) fn moved_to(numbering: Numbering, now: u64, expected: Option<ToldTime>) -> Option<u64>
    ensures { result ≡ moved_to numbering now expected }
{
    match expected {
        Some(expected) if expected.number != numbering.told_time(now).number => Some(now),
        _ => None,
    }
}

/// Carries out a request, unless it expects another time, or is for the repair of another worker.
/// Without memory the session is as before if the request is read-only; else nothing is promised of
/// its database.
pub fn outcome_of_request(session: &mut OpenSession, request: Request) -> Result<Response, Failure>
    ensures becomes { Becomes session.new result (outcome_of_request session.old request) }
    ensures stays { IfErr result (λ f. f ≢ Failure.Memory → session.new ≡ session.old) }
    ensures rest { session.new ≡ with_database session.old session.new.database }
    ensures reads { is_read_only request.command ≡ true → session.new ≡ session.old }
{
    if let Some(now) = moved_to(session.numbering(), session.db().now(), request.expected) {
        return Err(Failure::Refused(Refusal::Moved { now }));
    }
    match other_worker(session.db(), request.command.repair_worker_told()) {
        Some(worker) => Err(Failure::Refused(Refusal::RepairOfAnother { worker })),
        None => carried_out(session, request.worker, request.command),
    }
}
