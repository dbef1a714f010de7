//! Steps of a repair that are made together.
ghost use Rattle.std.specs.Prelude.{◌≡◌, ◌+◌, ◌≤◌, ◌++◌, [], replicate, IfOk, OnOk, OnErr};
ghost use Rattle.tt_generations.specs.Runs.{after_steps, is_last_due};
ghost use Rattle.tt_generations.specs.TwoGenerations.{left_of, done_of};
ghost use Rattle.tt_db.specs.State.{slots_left};
ghost use Rattle.tt_db.specs.Database.{state_of, HasSlots, current_slots};
ghost use Rattle.tt_db.specs.Steps.{step_by, with_steps_by, steps_made, last_step, last_outcome, refusal_behind};

use super::{Db, Parts};
use crate::event::Event;
use crate::outcome::{Outcome, StepsMade};
use std::alloc::AllocError;

impl Db {
    /// Makes up to `most` steps of a worker together, in place: as [`advance`](Db::advance) makes
    /// them one after another, up to the first that is refused. Slots that aren't due cost little.
    ///
    /// Without memory nothing is left of the database but its catalog and its limits.
    pub fn advance_steps(&mut self, worker: u32, most: u64) -> Result<StepsMade, AllocError>
        ensures state { IfOk result (λ made.
            self.new ≡ with_steps_by worker self.old made.count) }
        ensures count { IfOk result (λ made. made.count ≡ steps_made worker self.old most) }
        ensures last { IfOk result (λ made.
            made.last ≡ last_outcome worker self.old made.count) }
        ensures refusal { IfOk result (λ made.
            made.refusal ≡ refusal_behind most made.count self.new) }
        ensures memory { OnErr result (self.new.history ≡ []) }
        ensures catalog { self.new.catalog ≡ self.old.catalog }
        ensures limits { self.new.limits ≡ self.old.limits }
        ensures current { OnOk result (HasSlots self.new (current_slots self.old)) }
    {
        let count = self.steps_to_make(worker, most);
        let last = self.make_steps(worker, count)?;
        let refusal = if count == most {
            None
        } else {
            self.refusal(&Event::Step)
        };
        Ok(StepsMade {
            count,
            last,
            refusal,
        })
    }

    /// How many steps of a worker aren't refused, of the next `most`: as many as slots are left,
    /// and as the limit of entries allows.
    fn steps_to_make(&self, worker: u32, most: u64) -> u64
        ensures made { result ≡ steps_made worker self.now most }
        ensures left { result ≤ slots_left (state_of self.now) }
        ensures room { (state_of self.now).events + result ≤ self.now.limits.events }
    {
        let room = self.parts.limits.events - self.events();
        most.min(self.slots_left()).min(room)
    }

    /// Makes `count` steps, none of which is refused, and returns the outcome of the last. Without
    /// memory there is no entry afterwards.
    fn make_steps(&mut self, worker: u32, count: u64) -> Result<Option<Outcome>, AllocError>
        requires left { count ≤ slots_left (state_of self.old) }
        requires room { (state_of self.old).events + count ≤ self.old.limits.events }
        ensures state { OnOk result (self.new ≡ with_steps_by worker self.old count) }
        ensures last { IfOk result (λ last. last ≡ last_outcome worker self.old count) }
        ensures memory { OnErr result (self.new.history ≡ []) }
        ensures catalog { self.new.catalog ≡ self.old.catalog }
        ensures limits { self.new.limits ≡ self.old.limits }
    {
        match self.parts.make_steps(worker, count) {
            Ok(rerun) => Ok(self.last_step(count, rerun)),
            Err(AllocError) => {
                self.parts.clear();
                Err(AllocError)
            }
        }
    }

    /// The outcome of the last of `count` steps that were made, which re-executed its slot or not.
    fn last_step(&self, count: u64, rerun: bool) -> Option<Outcome>
        ensures { result ≡ last_step count (done_of (state_of self.now).phase) rerun }
    {
        if count == 0 {
            return None;
        }
        Some(Outcome::Stepped {
            slot: self.slots_done(),
            rerun,
        })
    }
}

impl Parts {
    /// Makes `count` steps, and adds their entries to the history. Returns whether the slot of the
    /// last was re-executed.
    fn make_steps(&mut self, worker: u32, count: u64) -> Result<bool, AllocError>
        requires { count ≤ left_of self.old.generations.phase self.old.generations.slots }
        ensures history { OnOk result
            (self.new.history ≡ self.old.history ++ replicate count (step_by worker)) }
        ensures generations { OnOk result
            (self.new.generations ≡ after_steps count self.old.generations) }
        ensures rerun { IfOk result (λ rerun. rerun ≡ is_last_due count self.old.generations) }
        ensures catalog { self.new.generations.catalog ≡ self.old.generations.catalog }
        ensures others { self.new ≡ record self.old {
          history = self.new.history;
          generations = self.new.generations;
        } }
    {
        let rerun = self.generations.steps(count)?;
        self.history.push_steps(self.alloc, worker, count)?;
        Ok(rerun)
    }
}
