//! Actions of a ground.
ghost use Rattle.std.specs.Prelude.{◌≡◌, true, OnOk};
ghost use Rattle.std.specs.List.{list_all};
ghost use Rattle.tt_db.specs.Database.{with_entry};
ghost use Rattle.tt_horizon.specs.Forgetting.{entry_of, ground_worker};
ghost use Rattle.tt_horizon.specs.GroundEntries.{is_insert, is_inserted, is_empty, inserts_alone, has_inserted, is_of_ground};

use std::alloc::AllocError;
use tt_db::{Db, Entry, Event, Outcome};
use tt_values::{Action, Reply, Write};

/// The worker whose actions the ground is.
pub const GROUND_WORKER: u32 = 0;

/// Carries out the next action of a ground: it inserts rows that aren't there yet, and does nothing
/// else. Without memory nothing is promised of the database.
pub(crate) fn lay(db: &mut Db, action: Action) -> Result<(), AllocError>
    ensures db { OnOk result (db.new ≡ with_entry db.old (entry_of ground_worker action)) }
    ensures ground { OnOk result (is_of_ground db.old action ≡ true) }
{
    if !inserts_alone(&action) {
        return Err(AllocError);
    }
    let entry = Entry {
        worker: GROUND_WORKER,
        event: Event::Write(action),
    };
    match db.advance(entry) {
        Ok(outcome) => {
            if has_inserted(&outcome) {
                Ok(())
            } else {
                Err(AllocError)
            }
        }
        Err(_) => Err(AllocError),
    }
}

/// Whether an action has inserts alone, at least one, and isn't whole.
pub fn inserts_alone(action: &Action) -> bool
    ensures { result ≡ inserts_alone action.now }
{
    let writes = action.writes.as_slice();
    !action.whole && !is_empty(writes) && are_inserts(writes)
}

fn is_empty(writes: &[Write]) -> bool
    ensures { result ≡ is_empty writes.now }
{
    writes.is_empty()
}

fn are_inserts(writes: &[Write]) -> bool
    ensures { result ≡ list_all is_insert writes.now }
{
    writes.iter().all(is_insert)
}

fn is_insert(write: &Write) -> bool
    ensures { result ≡ is_insert write.now }
{
    match write {
        Write::Insert { .. } => true,
        _ => false,
    }
}

/// Whether an action was carried out, and each write of it was answered `inserted`.
pub fn has_inserted(outcome: &Outcome) -> bool
    ensures { result ≡ has_inserted outcome.now }
{
    match outcome {
        Outcome::Written { replies, .. } => are_inserted(replies.as_slice()),
        _ => false,
    }
}

fn are_inserted(replies: &[Reply]) -> bool
    ensures { result ≡ list_all is_inserted replies.now }
{
    replies.iter().all(is_inserted)
}

fn is_inserted(reply: &Reply) -> bool
    ensures { result ≡ is_inserted reply.now }
{
    match reply {
        Reply::Inserted => true,
        _ => false,
    }
}
