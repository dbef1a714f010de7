//! Which of the recorded calls are answered differently now, or will be after the repair.
ghost use Rattle.std.specs.Prelude.{◌≡◌, true, IfOk};
ghost use Rattle.tt_db.specs.Database.{state_of};
ghost use Rattle.tt_commands.specs.Session.{state_in};
ghost use Rattle.tt_commands.specs.Answers.{Becomes};
ghost use Rattle.tt_commands.specs.Moments.{is_reached, change_at, entries_at, changes_answer_at};
ghost use Rattle.tt_commands.specs.CauseEntries.{first_entries, more_follow};
ghost use Rattle.tt_commands.specs.ChangeEntries.{is_of_kind, is_behind, is_wanted, asked_for_by, told_change, wanted_entry, changes, next_changes};

use crate::cause_entries::is_full;
use crate::failure::Failure;
use crate::open_session::OpenSession;
use crate::records::Records;
use crate::repairing::repair_under_way;
use crate::response::Response;
use crate::slot_entries::{asked_action, is_asked_for};
use std::alloc::{AllocError, Global};
use tt_answers::{Answer, AskedFor, ChangeEntry, Place};
use tt_db::Db;
use tt_records::{Changed, Record, SlotsInOrder, What, change_of, next_change_of};
use tt_requests::{CallKind, ChangePage};
use tt_values::Items;

/// When calls would be answered again.
#[derive(Clone, Copy)]
pub(crate) enum Moment {
    Now,
    /// After the repair under way, as far as it is.
    Next,
}

/// The change of a record, if it has one.
fn change_at(
    alloc: Global,
    slots: &mut SlotsInOrder<'_>,
    moment: Moment,
    earlier: &Record,
) -> Result<Option<Changed>, AllocError>
    requires { is_reached moment (state_of slots.old).phase ≡ true }
    ensures change { IfOk result (λ change.
        change ≡ change_at moment slots.old.catalog (state_of slots.old) earlier.now) }
    ensures database { slots.new ≡ slots.old }
{
    match moment {
        Moment::Now => change_of(alloc, slots, earlier),
        Moment::Next => next_change_of(alloc, slots.db(), earlier),
    }
}

/// Whether a call is of the kind that is asked for, if one is.
fn is_of_kind(only: Option<CallKind>, what: &What) -> bool
    ensures { result ≡ is_of_kind only what.now }
{
    match (only, what) {
        (None, _) => true,
        (Some(CallKind::Writes), What::Write { .. }) => true,
        (Some(CallKind::Reads), What::Read { .. }) => true,
        _ => false,
    }
}

/// Whether a call is behind the one that is asked for, if one is.
fn is_behind(after: Option<u64>, call: u64) -> bool
    ensures { result ≡ is_behind after call }
{
    match after {
        None => true,
        Some(after) => after < call,
    }
}

/// Whether a page asks for the changed reply of a record.
fn is_wanted(page: ChangePage, earlier: &Record) -> bool
    ensures { result ≡ is_wanted page earlier.now }
{
    is_asked_for(page.worker, earlier.worker)
        && is_of_kind(page.only, &earlier.what)
        && is_behind(page.after, earlier.call)
}

/// What a call asked for, if that is known.
fn asked_for_by(db: &Db, what: &What) -> Result<Option<AskedFor>, AllocError>
    ensures { IfOk result (λ asked. asked ≡ asked_for_by db.now what.now) }
{
    match what {
        What::Write { slot, .. } => match asked_action(db, *slot) {
            Some(action) => Ok(Some(AskedFor::Action(action.copy()?))),
            None => Ok(None),
        },
        What::Read { select, .. } => Ok(Some(AskedFor::Select(select.copy()?))),
        What::Preview { .. } | What::Later { .. } | What::NotRepairing => Ok(None),
    }
}

/// The change of a record at its place, with who asked for what where that is told.
fn told_change(
    db: &Db,
    is_told: bool,
    earlier: &Record,
    change: Changed,
    place: Place,
) -> Result<ChangeEntry, AllocError>
    ensures { IfOk result (λ entry.
        entry ≡ told_change db.now is_told earlier.now change place) }
{
    let asked = if is_told {
        asked_for_by(db, &earlier.what)?
    } else {
        None
    };
    Ok(ChangeEntry {
        worker: is_told.then_some(earlier.worker),
        place,
        change,
        asked,
    })
}

/// What a page tells of a record, if it has a change and the page asks for it.
fn wanted_entry(
    alloc: Global,
    slots: &mut SlotsInOrder<'_>,
    moment: Moment,
    page: ChangePage,
    earlier: &Record,
) -> Result<Option<ChangeEntry>, AllocError>
    requires { is_reached moment (state_of slots.old).phase ≡ true }
    ensures entry { IfOk result (λ entry. entry ≡ wanted_entry slots.old page
        (change_at moment slots.old.catalog (state_of slots.old)) earlier.now) }
    ensures database { slots.new ≡ slots.old }
{
    if !is_wanted(page, earlier) {
        return Ok(None);
    }
    let Some(change) = change_at(alloc, slots, moment, earlier)? else {
        return Ok(None);
    };
    let Some(place) = Place::of(&earlier.what) else {
        return Ok(None);
    };
    let entry = told_change(slots.db(), page.asked, earlier, change, place)?;
    Ok(Some(entry))
}

/// The changed replies of a page.
#[derive(Drop)]
pub(crate) struct FirstChanges {
    pub(crate) entries: Vec<ChangeEntry>,
    /// Whether more follow.
    pub(crate) more: bool,
}

/// The changed replies that a page asks for. Takes memory for them alone.
pub(crate) fn first_changes(
    alloc: Global,
    db: &Db,
    moment: Moment,
    page: ChangePage,
    records: &Records,
) -> Result<FirstChanges, AllocError>
    requires { is_reached moment (state_of db.now).phase ≡ true }
    ensures entries { IfOk result (λ first. first.entries.items
        ≡ first_entries page.most (entries_at moment db.now page records.now)) }
    ensures more { IfOk result (λ first. first.more
        ≡ more_follow page.most (entries_at moment db.now page records.now)) }
{
    let mut slots = SlotsInOrder::new(db);
    let mut entries = Vec::new(alloc);
    for index in 0..records.len() {
        let Some(earlier) = records.get(index) else {
            unreachable!()
        };
        if let Some(entry) = wanted_entry(alloc, &mut slots, moment, page, earlier)? {
            if is_full(page.most, entries.len()) {
                return Ok(FirstChanges {
                    entries,
                    more: true,
                });
            }
            entries.push(entry)?;
        }
    }
    Ok(FirstChanges {
        entries,
        more: false,
    })
}

/// The changed replies that a page asks for, as an answer.
fn changes_answer(
    session: &OpenSession,
    moment: Moment,
    page: ChangePage,
) -> Result<Answer, AllocError>
    requires { is_reached moment (state_in session.now).phase ≡ true }
    ensures { IfOk result (λ answer.
        answer ≡ (changes_answer_at moment session.now page).answer) }
{
    let alloc = session.alloc();
    let records = session.records();
    let FirstChanges { entries, more } = first_changes(alloc, session.db(), moment, page, records)?;
    let from = records.first_call(session.calls());
    let changes = Items::new(alloc, entries)?;
    let more = page.most.is_some().then_some(more);
    Ok(Answer::Changes {
        from,
        changes,
        more,
    })
}

/// The calls that are answered differently now.
pub(crate) fn changes(session: &OpenSession, page: ChangePage) -> Result<Response, Failure>
    ensures { Becomes session.now result (changes session.now page) }
{
    let answer = changes_answer(session, Moment::Now, page)?;
    Ok(Response::unrecorded(answer))
}

/// The calls that are answered differently in the next generation, as far as the repair is.
pub(crate) fn next_changes(session: &OpenSession, page: ChangePage) -> Result<Response, Failure>
    ensures { Becomes session.now result (next_changes session.now page) }
{
    let _ = repair_under_way(session.db())?;
    let answer = changes_answer(session, Moment::Next, page)?;
    Ok(Response::unrecorded(answer))
}
