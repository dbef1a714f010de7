//! What a repair would come to.
ghost use Rattle.std.specs.Prelude.{◌≡◌, None, true, IfOk, IfErr, OnOk};
ghost use Rattle.tt_generations.specs.TwoGenerations.{is_repairing};
ghost use Rattle.tt_db.specs.Database.{state_of};
ghost use Rattle.tt_db.specs.Trials.{tried_database};
ghost use Rattle.tt_commands.specs.Answers.{Becomes};
ghost use Rattle.tt_commands.specs.Failures.{IsRefusal};
ghost use Rattle.tt_commands.specs.Room.{refusal_in_session};
ghost use Rattle.tt_commands.specs.Trials.{trial_of, trial, would};

use crate::asked_repair::AskedRepair;
use crate::cause_entries::{FirstCauses, first_causes, slot_before};
use crate::change_entries::{FirstChanges, Moment, first_changes};
use crate::diff_entries::{FirstDifferences, first_differences};
use crate::failure::Failure;
use crate::open_session::OpenSession;
use crate::repairing::progress_now;
use crate::response::Response;
use crate::room::{beginning_leaves_no_room, refusal_without_room};
use crate::told_requests::missing_if_idle;
use std::alloc::AllocError;
use tt_answers::{Answer, Refusal};
use tt_db::{Db, DbError, Edit, Event};
use tt_requests::{ChangePage, DiffPage, ToldEdits, own_edits};
use tt_values::Items;

/// The database after a repair with these edits, beside the one of the session, or why the session
/// refuses its beginning.
fn tried(session: &OpenSession, edits: Items<Edit>) -> Result<Db, DbError>
    ensures state { IfOk result (λ db. db ≡ tried_database session.now.database edits) }
    ensures accepted { OnOk result
        (refusal_in_session session.now.database (Event.Begin edits) ≡ None) }
    ensures refused { IfErr result (λ e.
        IsRefusal e (refusal_in_session session.now.database (Event.Begin edits))) }
    ensures repairing { IfOk result (λ db. is_repairing (state_of db).phase ≡ true) }
{
    let db = session.db();
    if beginning_leaves_no_room(db) {
        return Err(refusal_without_room(db, &Event::Begin(edits)));
    }
    db.tried(edits)
}

/// What is told of a database whose repair has done all slots.
fn trial_of(session: &OpenSession, db: &Db) -> Result<Answer, AllocError>
    requires { is_repairing (state_of db.now).phase ≡ true }
    ensures { IfOk result (λ answer.
        answer ≡ trial_of session.now.numbering session.now.records db.now) }
{
    let alloc = session.alloc();
    let before = slot_before(session.numbering(), None);
    let FirstCauses { entries, .. } = first_causes(alloc, db, AskedRepair::UnderWay, before, None)?;
    let redone = Items::new(alloc, entries)?;
    let every = ChangePage::every();
    let FirstChanges { entries, .. } = first_changes(
        alloc,
        db,
        Moment::Next,
        every,
        session.records(),
    )?;
    let changed = Items::new(alloc, entries)?;
    let all = DiffPage {
        after: None,
        most: None,
    };
    let FirstDifferences { entries, .. } = first_differences(
        alloc,
        db,
        AskedRepair::UnderWay,
        all,
    )?;
    let diff = Items::new(alloc, entries)?;
    Ok(Answer::Trial {
        slots: db.now(),
        rerun: progress_now(db).rerun,
        redone,
        changed,
        diff,
    })
}

/// What a repair with these edits would come to. The session stays as it is.
fn trial(session: &OpenSession, edits: Items<Edit>) -> Result<Response, Failure>
    ensures { Becomes session.now result (trial session.now edits) }
{
    let db = tried(session, edits)?;
    let answer = trial_of(session, &db)?;
    Ok(Response::unrecorded(answer))
}

/// What a repair with edits whose slots are told would come to. The session stays as it is.
pub(crate) fn would(session: &OpenSession, told: &ToldEdits) -> Result<Response, Failure>
    ensures { Becomes session.now result (would session.now told.now) }
{
    let edits = told.edits.as_slice();
    if let Some(slot) = missing_if_idle(session, edits) {
        return Err(Failure::Refused(Refusal::NoSlot { slot }));
    }
    let edits = own_edits(session.alloc(), session.numbering(), edits)?;
    trial(session, edits)
}
