//! Events that a session carries out.
ghost use Rattle.std.specs.Prelude.{◌≡◌, ◌≢◌, ◌+◌, ◌≤◌, Some, None, Ok, if◌then◌else◌, IfOk, IfErr, OnOk};
ghost use Rattle.tt_db.specs.State.{slots_left};
ghost use Rattle.tt_db.specs.Database.{state_of, outcome_for};
ghost use Rattle.tt_commands.specs.Failures.{IsRefusal};
ghost use Rattle.tt_commands.specs.Room.{refusal_in_session, CanEnd};
ghost use Rattle.tt_commands.specs.Session.{with_database};
ghost use Rattle.tt_commands.specs.Repairing.{with_event, with_steps};
ghost use Rattle.tt_commands.specs.Grounds.{with_ground};

use super::OpenSession;
use crate::room::{action_leaves_no_room, leaves_no_room, refusal_without_room};
use std::alloc::AllocError;
use tt_db::{DbError, Entry, Event, Outcome, SwitchOutcome, WriteOutcome};
use tt_horizon::{GROUND_WORKER, has_inserted, inserts_alone};
use tt_values::Action;

impl OpenSession {
    /// Carries out an event of a worker in place, or stays and returns why a session refuses it.
    /// Without memory nothing is promised of the database.
    pub(crate) fn advance(&mut self, worker: u32, event: Event) -> Result<Outcome, DbError>
        ensures state { OnOk result (self.new
            ≡ with_database self.old (with_event self.old.database worker event)) }
        ensures outcome { IfOk result (λ o. o ≡ outcome_for self.old.database event) }
        ensures accepted { OnOk result (refusal_in_session self.old.database event ≡ None) }
        ensures refused { IfErr result (λ e.
            IsRefusal e (refusal_in_session self.old.database event)) }
        ensures stays { IfErr result (λ e. e ≢ DbError.Memory → self.new ≡ self.old) }
        ensures rest { self.new ≡ with_database self.old self.new.database }
    {
        if leaves_no_room(&self.db, &event) {
            return Err(refusal_without_room(&self.db, &event));
        }
        match self.db.advance(Entry { worker, event }) {
            Ok(outcome) => Ok(outcome),
            Err(error) => Err(error),
        }
    }

    /// Carries out an action of a worker as [`advance`](OpenSession::advance) does, or stays and
    /// returns why a session refuses it. Without memory nothing is promised of the database.
    pub(crate) fn write(&mut self, worker: u32, action: Action) -> Result<WriteOutcome, DbError>
        ensures state { OnOk result (self.new ≡ with_database
            self.old (with_event self.old.database worker (Event.Write action))) }
        ensures outcome { IfOk result (λ o. Outcome.Written o.slot o.replies
            ≡ outcome_for self.old.database (Event.Write action)) }
        ensures accepted { OnOk result
            (refusal_in_session self.old.database (Event.Write action) ≡ None) }
        ensures refused { IfErr result (λ e.
            IsRefusal e (refusal_in_session self.old.database (Event.Write action))) }
        ensures stays { IfErr result (λ e. e ≢ DbError.Memory → self.new ≡ self.old) }
        ensures rest { self.new ≡ with_database self.old self.new.database }
    {
        if action_leaves_no_room(&self.db) {
            return Err(refusal_without_room(&self.db, &Event::Write(action)));
        }
        match self.db.write(worker, action) {
            Ok(outcome) => Ok(outcome),
            Err(error) => Err(error),
        }
    }

    /// Switches to the next generation, which isn't refused. Without memory nothing is promised of
    /// the database.
    pub(crate) fn switch(&mut self, worker: u32) -> Result<SwitchOutcome, AllocError>
        requires { refusal_in_session self.old.database Event.Switch ≡ None }
        ensures state { OnOk result (self.new ≡ with_database
            self.old (with_event self.old.database worker Event.Switch)) }
        ensures outcome { IfOk result (λ o. Outcome.Switched o.generation o.slots o.rerun
            ≡ outcome_for self.old.database Event.Switch) }
        ensures rest { self.new ≡ with_database self.old self.new.database }
    {
        // It takes no room: behind it no repair is under way.
        match self.db.switch(worker) {
            Ok(outcome) => Ok(outcome),
            // It isn't refused, so there is no memory.
            Err(_) => Err(AllocError),
        }
    }

    /// Carries out an action as the next one of the ground. Returns whether it is one of a ground;
    /// where it isn't, or without memory, nothing is promised of the database.
    pub fn lay(&mut self, action: Action) -> Result<bool, AllocError>
        ensures laid { IfOk result (λ is_laid. with_ground self.old (Ok action)
            ≡ (if is_laid then Some self.new else None)) }
        ensures rest { self.new ≡ with_database self.old self.new.database }
    {
        if !inserts_alone(&action) {
            return Ok(false);
        }
        match self.advance(GROUND_WORKER, Event::Write(action)) {
            Ok(outcome) => Ok(has_inserted(&outcome)),
            Err(DbError::Memory) => Err(AllocError),
            Err(_) => Ok(false),
        }
    }

    /// Carries out an event that isn't refused. Without memory nothing is promised of the database.
    pub(crate) fn carry_out(&mut self, worker: u32, event: Event) -> Result<Outcome, AllocError>
        requires { refusal_in_session self.old.database event ≡ None }
        ensures state { OnOk result (self.new
            ≡ with_database self.old (with_event self.old.database worker event)) }
        ensures outcome { IfOk result (λ o. o ≡ outcome_for self.old.database event) }
        ensures rest { self.new ≡ with_database self.old self.new.database }
    {
        match self.advance(worker, event) {
            Ok(outcome) => Ok(outcome),
            // It isn't refused, so there is no memory.
            Err(_) => Err(AllocError),
        }
    }

    /// Makes `count` steps of a repair together, none of which is refused. Without memory nothing
    /// is promised of the database.
    pub(crate) fn make_steps(&mut self, worker: u32, count: u64) -> Result<(), AllocError>
        requires can_end { CanEnd self.old.database }
        requires left { count ≤ slots_left (state_of self.old.database) }
        ensures state { OnOk result (self.new
            ≡ with_database self.old (with_steps self.old.database worker count)) }
        ensures rest { self.new ≡ with_database self.old self.new.database }
        ensures can_end { OnOk result (CanEnd self.new.database) }
        ensures left { OnOk result (slots_left (state_of self.new.database) + count
            ≡ slots_left (state_of self.old.database)) }
    {
        // None of them is refused, so that as many are made.
        let _ = self.db.advance_steps(worker, count)?;
        Ok(())
    }
}
