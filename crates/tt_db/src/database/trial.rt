//! What a repair would come to.
ghost use Rattle.std.specs.Prelude.{◌≡◌, None, OnOk, IfOk, IfErr};
ghost use Rattle.tt_generations.specs.TwoGenerations.{Repairing};
ghost use Rattle.tt_db.specs.Errors.{refusal_of_error};
ghost use Rattle.tt_db.specs.Database.{state_of, now_in, HasSlots, current_slots};
ghost use Rattle.tt_db.specs.Trials.{tried_database, tried_refusal};

use super::Db;
use crate::errors::DbError;
use crate::event::{Entry, Event};
use std::alloc::AllocError;
use tt_generations::Edit;
use tt_values::Items;

impl Db {
    /// This database after a repair with these edits has begun and has done all slots, beside this
    /// one, which stays as it is and shares with it what they have in common. The entries of the
    /// repair are those of worker 0.
    ///
    /// Refused as [`apply`](Db::apply) refuses the beginning of the repair, or else the first of
    /// its steps for which the history has no room.
    pub fn tried(&self, edits: Items<Edit>) -> Result<Db, DbError>
        ensures state { IfOk result (λ trial. trial ≡ tried_database self.now edits) }
        ensures accepted { OnOk result (tried_refusal self.now edits ≡ None) }
        ensures refused { IfErr result (λ e.
            tried_refusal self.now edits ≡ refusal_of_error e) }
        ensures done { IfOk result (λ trial.
            (state_of trial).phase ≡ Repairing edits (now_in self.now)) }
        ensures current { IfOk result (λ trial. HasSlots trial (current_slots self.now)) }
    {
        if let Some(refusal) = self.trial_refusal(edits.as_slice()) {
            return Err(refusal);
        }
        match self.trial(edits) {
            Ok(trial) => Ok(trial),
            Err(AllocError) => Err(DbError::Memory),
        }
    }

    /// Why a repair with these edits can't be tried, memory aside.
    fn trial_refusal(&self, edits: &[Edit]) -> Option<DbError>
        ensures { result ≡ tried_refusal self.now edits.now }
    {
        if let Some(refusal) = self.begin_refusal(edits) {
            return Some(refusal);
        }
        let room = self.parts.limits.events - self.events();
        if room <= self.now() {
            return Some(DbError::Full {
                limit: self.parts.limits.events,
            });
        }
        None
    }

    /// The database after the beginning and all steps of a repair, none of which is refused.
    fn trial(&self, edits: Items<Edit>) -> Result<Db, AllocError>
        requires { tried_refusal self.now edits ≡ None }
        ensures { IfOk result (λ trial. trial ≡ tried_database self.now edits) }
    {
        let entry = Entry {
            worker: 0,
            event: Event::Begin(edits),
        };
        let (mut trial, _) = self.apply_shared(entry)?;
        let _ = trial.advance_steps(0, trial.slots_left())?;
        Ok(trial)
    }
}
