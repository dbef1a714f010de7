//! Events of one kind, each by a call of its own.
ghost use Rattle.std.specs.Prelude.{◌≡◌, ◌≢◌, [], None, OnOk, IfOk, IfErr};
ghost use Rattle.tt_db.specs.Errors.{refusal_of_error};
ghost use Rattle.tt_db.specs.Database.{with_entry, refusal_of, outcome_for, MissesNoSlot, ShowsCurrent};

use super::Db;
use crate::errors::DbError;
use crate::event::{Entry, Event};
use crate::outcome::{Outcome, StepOutcome, SwitchOutcome, WriteOutcome};
use tt_generations::Edit;
use tt_values::{Action, Items};

impl Db {
    /// Carries out an action of a worker in place, as [`advance`](Db::advance) does.
    pub fn write(&mut self, worker: u32, action: Action) -> Result<WriteOutcome, DbError>
        ensures state { OnOk result (self.new
            ≡ with_entry self.old (record { worker = worker; event = Event.Write action })) }
        ensures outcome { IfOk result (λ o. Outcome.Written o.slot o.replies
            ≡ outcome_for self.old (Event.Write action)) }
        ensures accepted { OnOk result (refusal_of self.old (Event.Write action) ≡ None) }
        ensures refused { IfErr result (λ e.
            refusal_of self.old (Event.Write action) ≡ refusal_of_error e) }
        ensures unchanged { IfErr result (λ e. e ≢ DbError.Memory → self.new ≡ self.old) }
        ensures memory { IfErr result (λ e. e ≡ DbError.Memory → self.new.history ≡ []) }
        ensures catalog { self.new.catalog ≡ self.old.catalog }
        ensures limits { self.new.limits ≡ self.old.limits }
        ensures current { OnOk result (ShowsCurrent self.old (Event.Write action) self.new) }
    {
        let entry = Entry {
            worker,
            event: Event::Write(action),
        };
        match self.advance(entry)? {
            Outcome::Written { slot, replies } => Ok(WriteOutcome { slot, replies }),
            _ => unreachable!(),
        }
    }

    /// Begins a repair of a worker in place, as [`advance`](Db::advance) does.
    pub fn begin(&mut self, worker: u32, edits: Items<Edit>) -> Result<(), DbError>
        ensures state { OnOk result (self.new
            ≡ with_entry self.old (record { worker = worker; event = Event.Begin edits })) }
        ensures accepted { OnOk result (refusal_of self.old (Event.Begin edits) ≡ None) }
        ensures refused { IfErr result (λ e.
            refusal_of self.old (Event.Begin edits) ≡ refusal_of_error e) }
        ensures unchanged { IfErr result (λ e. e ≢ DbError.Memory → self.new ≡ self.old) }
        ensures memory { IfErr result (λ e. e ≡ DbError.Memory → self.new.history ≡ []) }
        ensures catalog { self.new.catalog ≡ self.old.catalog }
        ensures limits { self.new.limits ≡ self.old.limits }
        ensures current { OnOk result (ShowsCurrent self.old (Event.Begin edits) self.new) }
    {
        let entry = Entry {
            worker,
            event: Event::Begin(edits),
        };
        let _ = self.advance(entry)?;
        Ok(())
    }

    /// Makes one step of the repair in place, as [`advance`](Db::advance) does.
    pub fn step(&mut self, worker: u32) -> Result<StepOutcome, DbError>
        ensures state { OnOk result (self.new
            ≡ with_entry self.old (record { worker = worker; event = Event.Step })) }
        ensures outcome { IfOk result (λ o. Outcome.Stepped o.slot o.rerun
            ≡ outcome_for self.old Event.Step) }
        ensures accepted { OnOk result (refusal_of self.old Event.Step ≡ None) }
        ensures refused { IfErr result (λ e.
            refusal_of self.old Event.Step ≡ refusal_of_error e) }
        ensures unchanged { IfErr result (λ e. e ≢ DbError.Memory → self.new ≡ self.old) }
        ensures memory { IfErr result (λ e. e ≡ DbError.Memory → self.new.history ≡ []) }
        ensures catalog { self.new.catalog ≡ self.old.catalog }
        ensures limits { self.new.limits ≡ self.old.limits }
        ensures repaired { OnOk result (MissesNoSlot self.old Event.Step) }
        ensures current { OnOk result (ShowsCurrent self.old Event.Step self.new) }
    {
        let entry = Entry {
            worker,
            event: Event::Step,
        };
        match self.advance(entry)? {
            Outcome::Stepped { slot, rerun } => Ok(StepOutcome { slot, rerun }),
            _ => unreachable!(),
        }
    }

    /// Switches to the next generation in place, as [`advance`](Db::advance) does.
    pub fn switch(&mut self, worker: u32) -> Result<SwitchOutcome, DbError>
        ensures state { OnOk result (self.new
            ≡ with_entry self.old (record { worker = worker; event = Event.Switch })) }
        ensures outcome { IfOk result (λ o. Outcome.Switched o.generation o.slots o.rerun
            ≡ outcome_for self.old Event.Switch) }
        ensures accepted { OnOk result (refusal_of self.old Event.Switch ≡ None) }
        ensures refused { IfErr result (λ e.
            refusal_of self.old Event.Switch ≡ refusal_of_error e) }
        ensures unchanged { IfErr result (λ e. e ≢ DbError.Memory → self.new ≡ self.old) }
        ensures memory { IfErr result (λ e. e ≡ DbError.Memory → self.new.history ≡ []) }
        ensures catalog { self.new.catalog ≡ self.old.catalog }
        ensures limits { self.new.limits ≡ self.old.limits }
        ensures current { OnOk result (ShowsCurrent self.old Event.Switch self.new) }
    {
        let entry = Entry {
            worker,
            event: Event::Switch,
        };
        match self.advance(entry)? {
            Outcome::Switched {
                generation,
                slots,
                rerun,
            } => Ok(SwitchOutcome {
                generation,
                slots,
                rerun,
            }),
            _ => unreachable!(),
        }
    }

    /// Gives the repair up in place, as [`advance`](Db::advance) does.
    pub fn abort(&mut self, worker: u32) -> Result<(), DbError>
        ensures state { OnOk result (self.new
            ≡ with_entry self.old (record { worker = worker; event = Event.Abort })) }
        ensures accepted { OnOk result (refusal_of self.old Event.Abort ≡ None) }
        ensures refused { IfErr result (λ e.
            refusal_of self.old Event.Abort ≡ refusal_of_error e) }
        ensures unchanged { IfErr result (λ e. e ≢ DbError.Memory → self.new ≡ self.old) }
        ensures memory { IfErr result (λ e. e ≡ DbError.Memory → self.new.history ≡ []) }
        ensures catalog { self.new.catalog ≡ self.old.catalog }
        ensures limits { self.new.limits ≡ self.old.limits }
        ensures current { OnOk result (ShowsCurrent self.old Event.Abort self.new) }
    {
        let entry = Entry {
            worker,
            event: Event::Abort,
        };
        let _ = self.advance(entry)?;
        Ok(())
    }
}
