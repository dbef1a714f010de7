//! Room for the end of a repair.
ghost use Rattle.std.specs.Prelude.{◌≡◌, ◌-◌, true, Some, List, length};
ghost use Rattle.tt_db.specs.State.{next_state};
ghost use Rattle.tt_db.specs.Database.{state_of};
ghost use Rattle.tt_commands.specs.Room.{has_no_room_to_end, refusal_in_session};

use tt_db::{Db, DbError, Edit, Event};
use tt_values::Action;

/// Whether an event would leave no room for the end of a repair. Takes no memory.
pub(crate) fn leaves_no_room(db: &Db, event: &Event) -> bool
    ensures { result ≡ has_no_room_to_end
        db.now.limits (next_state db.now.limits (state_of db.now) event.now) }
{
    // At the end of the repair a step of each slot that is left, and the switch, have to fit in
    // behind the entry of the event.
    match event {
        Event::Write(_) => action_leaves_no_room(db),
        Event::Begin(_) => beginning_leaves_no_room(db),
        Event::Step => {
            db.is_repairing() && room_behind_entry(db) <= db.slots_left().saturating_sub(1)
        }
        Event::Switch => false,
        Event::Abort => false,
    }
}

/// Whether each action would leave no room for the end of a repair. Takes no memory.
pub(crate) fn action_leaves_no_room(db: &Db) -> bool
    ensures { (action : Action) → result ≡ has_no_room_to_end
        db.now.limits (next_state db.now.limits (state_of db.now) (Event.Write action)) }
{
    db.is_repairing() && room_behind_entry(db).saturating_sub(1) <= db.slots_left()
}

/// Whether each beginning of a repair would leave no room for its end. Takes no memory.
pub(crate) fn beginning_leaves_no_room(db: &Db) -> bool
    ensures { (edits : List Edit) → result ≡ has_no_room_to_end
        db.now.limits (next_state db.now.limits (state_of db.now) (Event.Begin edits)) }
{
    room_behind_entry(db) <= db.now()
}

/// How many entries more the history may have behind the next one.
fn room_behind_entry(db: &Db) -> u64
    ensures { result ≡ db.now.limits.events - length db.now.history - 1 }
{
    db.limits()
        .events
        .saturating_sub(db.events())
        .saturating_sub(1)
}

/// Why a session refuses an event that would leave no room for the end of a repair: for the
/// database's own reason, if it has one.
pub(crate) fn refusal_without_room(db: &Db, event: &Event) -> DbError
    requires { has_no_room_to_end
        db.now.limits (next_state db.now.limits (state_of db.now) event.now) ≡ true }
    ensures { refusal_in_session db.now event.now ≡ Some result }
{
    match db.refusal(event) {
        Some(refusal) => refusal,
        None => DbError::Full {
            limit: db.limits().events,
        },
    }
}
