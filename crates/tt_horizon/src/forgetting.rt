//! A database that has forgotten what lies before a time, made beside the one that hasn't.
ghost use Rattle.std.specs.Prelude.{◌≡◌, ◌≤◌, false, None, IfOk, IfErr, OnOk};
ghost use Rattle.tt_generations.specs.TwoGenerations.{is_repairing};
ghost use Rattle.tt_db.specs.Database.{state_of, now_in};
ghost use Rattle.tt_horizon.specs.Forgetting.{forget_refusal, refusal_of_error};
ghost use Rattle.tt_horizon.specs.GroundEntries.{HasGround};
ghost use Rattle.tt_horizon.specs.Laws.{Forgets};

use crate::forgotten_database::Forgotten;
use crate::ground::database_of_rows;
use crate::slots_behind::carry_out_behind;
use std::alloc::{AllocError, Global};
use thiserror::Error;
use tt_db::Db;

/// Why a database doesn't forget. The first that applies, in this order, is returned.
#[derive(Clone, Copy, Debug, PartialEq, Eq, Error)]
pub enum ForgetError {
    /// A repair is under way.
    #[error("a repair is under way")]
    Repairing,
    /// The time is later than `now`, the current time.
    #[error("later than {now}")]
    Later { now: u64 },
    /// Out of memory.
    #[error("out of memory")]
    Memory,
}

/// The database that has forgotten what lies before a time, made beside this one, which stays as it
/// is. It begins with the ground: actions of worker 0 that insert the rows which the current
/// generation has at that time, by table and then by key, 16 in each action but for the last one.
/// Behind it stand the slots since then in their order, each by its worker and with its action in
/// the current generation, or with no writes where it is cancelled.
///
/// Takes an insert for each row of that time and a write for each slot behind it, and the memory of
/// the new database beside this one. The two share the values of the rows and the actions.
pub fn forgotten(alloc: Global, db: &Db, time: u64) -> Result<Forgotten, ForgetError>
    ensures refused { IfErr result (λ e. forget_refusal db.now time ≡ refusal_of_error e) }
    ensures accepted { OnOk result (forget_refusal db.now time ≡ None) }
    ensures forgets { IfOk result (λ f. Forgets db.now f.db time f.ground_slots) }
    ensures ground { IfOk result (λ f. HasGround f.db f.ground_slots) }
{
    if db.is_repairing() {
        return Err(ForgetError::Repairing);
    }
    let now = db.now();
    if now < time {
        return Err(ForgetError::Later { now });
    }
    match forgotten_at(alloc, db, time) {
        Ok(forgotten) => Ok(forgotten),
        Err(AllocError) => Err(ForgetError::Memory),
    }
}

/// The database that has forgotten what lies before a time up to now, while no repair is under way.
fn forgotten_at(alloc: Global, db: &Db, time: u64) -> Result<Forgotten, AllocError>
    requires idle { is_repairing (state_of db.now).phase ≡ false }
    requires within { time ≤ now_in db.now }
    ensures forgets { IfOk result (λ f. Forgets db.now f.db time f.ground_slots) }
    ensures ground { IfOk result (λ f. HasGround f.db f.ground_slots) }
{
    // For the proof: the history is legal, the limits fit and the catalog is sound.
    let _ = db.events();
    let _ = db.limits();
    let _ = db.catalog().len();
    let mut next = database_of_rows(alloc, db, time)?;
    let ground_slots = next.now();
    carry_out_behind(alloc, &mut next, db, time)?;
    Ok(Forgotten {
        db: next,
        ground_slots,
    })
}
