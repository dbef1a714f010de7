//! What is told of slots: who asked for what, and what became of it in the current generation.
ghost use Rattle.std.specs.Prelude.{◌≡◌, IfOk};
ghost use Rattle.std.specs.Option.{option_copied};
ghost use Rattle.tt_commands.specs.Answers.{Becomes};
ghost use Rattle.tt_commands.specs.Commands.{slots_between};
ghost use Rattle.tt_commands.specs.SlotEntries.{action_of, asked_action, if_replaced, entry_of_slot, is_asked_for, is_unchanged, changes_row, is_stamped_within, passes, asked_entry, slot_entries};

use crate::failure::Failure;
use crate::open_session::OpenSession;
use crate::response::Response;
use std::alloc::AllocError;
use tt_answers::{Answer, SlotEntry};
use tt_db::{Db, Entry, Event};
use tt_requests::{SlotFilter, StampRange};
use tt_values::{Action, Items, Row, RowId, Same};

/// An action that was asked for, where its slot has another one now, or none.
fn if_replaced(asked: &Action, action: &Option<Action>) -> Result<Option<Action>, AllocError>
    ensures { IfOk result (λ replaced. replaced ≡ if_replaced asked.now action.now) }
{
    match action {
        Some(action) if asked.is_same(action) => Ok(None),
        _ => Ok(Some(asked.copy()?)),
    }
}

/// The action that an entry asks for, if it does.
fn action_of(entry: &Entry) -> Option<&Action>
    ensures { option_copied result ≡ action_of entry.now.event }
{
    match &entry.event {
        Event::Write(action) => Some(action),
        Event::Begin(_) => None,
        Event::Step => None,
        Event::Switch => None,
        Event::Abort => None,
    }
}

/// The action that took the slot of a number, as it was asked for, if the slot is there.
pub(crate) fn asked_action(db: &Db, number: u64) -> Option<&Action>
    ensures { option_copied result ≡ asked_action db.now number }
{
    let Some(place) = db.place_of(number) else {
        return None;
    };
    let Some(entry) = db.entry(place) else {
        return None;
    };
    action_of(entry)
}

/// The slot of a number and of a stamp, if it is there.
fn entry_of_slot(db: &Db, number: u64, stamp: Option<u64>) -> Result<Option<SlotEntry>, AllocError>
    ensures { IfOk result (λ entry. entry ≡ entry_of_slot db.now number stamp) }
{
    let Some(slot) = db.slot(number) else {
        return Ok(None);
    };
    let Some(place) = db.place_of(number) else {
        return Ok(None);
    };
    let Some(entry) = db.entry(place) else {
        return Ok(None);
    };
    let Some(action) = action_of(entry) else {
        return Ok(None);
    };
    let asked = if_replaced(action, &slot.action)?;
    let slot = slot.clone()?;
    Ok(Some(SlotEntry {
        number,
        worker: entry.worker,
        stamp,
        slot,
        asked,
    }))
}

/// Whether a worker is the one that is asked for, if one is.
pub(crate) fn is_asked_for(wanted: Option<u32>, worker: u32) -> bool
    ensures { result ≡ is_asked_for wanted worker }
{
    match wanted {
        None => true,
        Some(wanted) => wanted == worker,
    }
}

/// Whether a row is as it was.
fn is_unchanged(before: Option<&Row>, after: Option<&Row>) -> bool
    ensures { result ≡ is_unchanged (option_copied before.entry) (option_copied after.entry) }
{
    match (before, after) {
        (None, None) => true,
        (Some(before), Some(after)) => before.is_same(after),
        _ => false,
    }
}

/// Whether a slot changed the row that is asked for, if one is.
fn changes_row(db: &Db, row: Option<RowId>, number: u64) -> bool
    ensures { result ≡ changes_row db.now row number }
{
    let Some(row) = row else {
        return true;
    };
    let before = db.row_at(row, number.saturating_sub(1));
    let after = db.row_at(row, number);
    !is_unchanged(before, after)
}

/// Whether a stamp, if there is one, lies within the range that is asked for, if one is.
fn is_stamped_within(range: Option<StampRange>, stamp: Option<u64>) -> bool
    ensures { result ≡ is_stamped_within range stamp }
{
    match (range, stamp) {
        (None, _) => true,
        (Some(_), None) => false,
        (Some(range), Some(stamp)) => range.low <= stamp && stamp <= range.high,
    }
}

/// Whether a slot is asked for.
fn passes(db: &Db, filter: SlotFilter, entry: &SlotEntry) -> bool
    ensures { result ≡ passes db.now filter entry.now }
{
    is_asked_for(filter.worker, entry.worker)
        && is_stamped_within(filter.stamps, entry.stamp)
        && changes_row(db, filter.row, entry.number)
}

/// What is told of the slot of a number, if it is there and asked for.
fn asked_entry(
    session: &OpenSession,
    filter: SlotFilter,
    number: u64,
) -> Result<Option<SlotEntry>, AllocError>
    ensures { IfOk result (λ entry. entry ≡ asked_entry session.now filter number) }
{
    let db = session.db();
    match entry_of_slot(db, number, session.stamp_of(number))? {
        Some(entry) if passes(db, filter, &entry) => Ok(Some(entry)),
        _ => Ok(None),
    }
}

/// The slots from one number to another that are asked for.
fn slot_entries(
    session: &OpenSession,
    from: u64,
    to: u64,
    filter: SlotFilter,
) -> Result<Items<SlotEntry>, AllocError>
    ensures { IfOk result (λ list. list ≡ slot_entries session.now from to filter) }
{
    let alloc = session.alloc();
    let mut entries = Vec::new(alloc);
    let last = to.min(session.db().now());
    let Some(past) = last.checked_add(1) else {
        // No database has 2^64 slots.
        return Err(AllocError);
    };
    for number in from..past {
        if let Some(entry) = asked_entry(session, filter, number)? {
            entries.push(entry)?;
        }
    }
    Items::new(alloc, entries)
}

/// What is told of the slots from one to another, by the numbers of the database, and the current
/// time.
pub(crate) fn slots_between(
    session: &OpenSession,
    from: u64,
    to: u64,
    filter: SlotFilter,
) -> Result<Response, Failure>
    ensures { Becomes session.now result (slots_between session.now from to filter) }
{
    let time = session.db().now();
    let slots = slot_entries(session, from, to, filter)?;
    Ok(Response::unrecorded(Answer::Slots { time, slots }))
}
