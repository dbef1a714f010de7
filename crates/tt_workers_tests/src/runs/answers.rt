//! What is right for a call at a front of the history, but for rows and replies.
use super::history::At;
use tt_db::{Entry, Event};
use tt_document::{Ask, Call};
use tt_repair::What;
use tt_values::Action;

/// Whether an answer fits its call and what the history has come to. A write has made the next
/// entry and its slot; a select tells the time that was asked for, or that it is still to come; a
/// preview tells how many slots the repair has done, or that there is none.
pub(super) fn fits(at: At, next: Option<&Entry>, call: &Call, what: &What) -> bool {
    match (&call.ask, what) {
        (Ask::Write(action), What::Write { slot, .. }) => {
            is_made(next, call.worker, action) && at.now.checked_add(1) == Some(*slot)
        }
        (
            Ask::Read { select, at: asked },
            What::Read {
                select: told,
                time,
                ..
            },
        ) => told == select && *time == asked.unwrap_or(at.now) && *time <= at.now,
        (
            Ask::Read {
                at: Some(asked),
                ..
            },
            What::Later { now },
        ) => *now == at.now && *asked > at.now,
        (Ask::Preview(_), What::Preview { done, .. }) => at.done == Some(*done),
        (Ask::Preview(_), What::NotRepairing) => at.done.is_none(),
        _ => false,
    }
}

/// Whether an entry is of this worker and this action.
fn is_made(entry: Option<&Entry>, worker: u32, action: &Action) -> bool {
    match entry {
        Some(entry) => entry.worker == worker && is_of_action(&entry.event, action),
        None => false,
    }
}

fn is_of_action(event: &Event, action: &Action) -> bool {
    match event {
        Event::Write(made) => made == action,
        _ => false,
    }
}

/// The time of the rows or replies that an answer has.
pub(super) fn time_of(what: &What) -> Option<u64> {
    match what {
        What::Write { slot, .. } => Some(*slot),
        What::Read { time, .. } => Some(*time),
        What::Preview { done, .. } => Some(*done),
        What::Later { .. } | What::NotRepairing => None,
    }
}
