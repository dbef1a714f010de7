//! The slots of a database behind a time, carried out again in another database.
ghost use Rattle.std.specs.Prelude.{◌≡◌, ◌≤◌, IfOk, OnOk};
ghost use Rattle.tt_db.specs.Database.{now_in, nth_item};
ghost use Rattle.tt_horizon.specs.Forgetting.{workers_of, entries_behind};
ghost use Rattle.tt_horizon.specs.Laying.{with_entries, action_at};

use crate::actions::carry_out;
use std::alloc::{AllocError, Global};
use tt_db::Db;
use tt_values::{Action, Items};

/// Carries out the slots of a database behind a time in another one, in order: each as its worker,
/// with its action in the current generation, or with none. The two share the actions.
pub(crate) fn carry_out_behind(
    alloc: Global,
    next: &mut Db,
    db: &Db,
    time: u64,
) -> Result<(), AllocError>
    requires { time ≤ now_in db.now }
    ensures { OnOk result (next.new ≡ with_entries next.old (entries_behind db.now time)) }
{
    for before in time..db.now() {
        let number = before + 1;
        if let Some(worker) = worker_of(db, number) {
            let action = action_of(alloc, db, number)?;
            carry_out(next, worker, action)?;
        }
    }
    Ok(())
}

/// The worker of the entry that made a slot; None where there is no such slot.
fn worker_of(db: &Db, number: u64) -> Option<u32>
    ensures { result ≡ nth_item (workers_of db.now.history) number }
{
    let place = db.place_of(number)?;
    let entry = db.entry(place)?;
    Some(entry.worker)
}

/// The action of a slot in the current generation; that of no writes, which isn't whole, where it
/// is cancelled.
fn action_of(alloc: Global, db: &Db, number: u64) -> Result<Action, AllocError>
    ensures { IfOk result (λ action. action ≡ action_at db.now number) }
{
    if let Some(slot) = db.slot(number) {
        if let Some(action) = &slot.action {
            return action.clone();
        }
    }
    let none = Items::new(alloc, Vec::new(alloc))?;
    Ok(Action::of(none))
}
