ghost use Rattle.std.specs.Prelude.{◌≡◌, ◌≢◌, ◌<◌, ◌≤◌, ◌↔◌, IsSome, IsOk, IfSome, [], ◌∷◌, ◌++◌, length, None, Some, OnOk, OnErr, IfOk, IfErr};
ghost use Rattle.std.specs.Option.{option_copied, option_map};
ghost use Rattle.tt_versions.specs.Sides.{current_of, next_of, is_split};
ghost use Rattle.tt_generations.specs.SlotsAfter.{AreSlotsAfter};
ghost use Rattle.tt_generations.specs.TwoGenerations.{no_slots, done_of, is_repairing, IsWithin};
ghost use Rattle.tt_db.specs.Limits.{Fits, max_limits};
ghost use Rattle.tt_db.specs.Errors.{refusal_of_error};
ghost use Rattle.tt_db.specs.State.{IsLegal, full_at, slots_in, slots_left};
ghost use Rattle.tt_db.specs.Database.{state_of, now_in, oldest_in, with_entry, refusal_of, outcome_for, generations_at, right_answer, right_answer_at, right_answer_in, right_preview_of, right_preview_at_of, answer_for, preview_for, preview_at_for, slot_of, next_slot_of, repair_of, repair_worker_of, current_rows_of, ShowsNextRows, dirty_rows_in, row_in, MissesNoSlot, ShowsCurrent, nth_item, place_of};
ghost use Rattle.tt_db.specs.RightAnswers.{Answers, RowsHaveRisingKeys};
ghost use Rattle.tt_db.specs.Transition.{Allows, IsTransition, closed_after};

mod causes;
mod differences;
mod kinds;
mod page;
mod steps;
mod trial;

use crate::closed::{ClosedGeneration, closed_of, oldest_of, with_closed};
use crate::errors::{DbError, ReadError};
use crate::event::{Entry, Event};
use crate::history::History;
use crate::limits::Limits;
use crate::outcome::Outcome;
use crate::refusals::{edits_fault, missing_slot, slot_edited_twice};
use crate::transition::carry_out;
use std::alloc::{AllocError, Global};
use std::marker::Model;
use std::sync::Arc;
use tt_generations::{Edit, Generations, Progress, Slot, Slots};
use tt_pages::PagedLog;
use tt_values::{Action, Catalog, Reply, Row, RowId, Select, Shared, check_action, check_select};
use tt_versions::{Side, Table};

/// A database: a catalog, limits, and the history of the accepted events.
pub struct Db {
    parts: Parts,
}

/// The parts of a database. While an event changes them they need not fit each other.
#[derive(Drop)]
struct Parts {
    alloc: Global,
    limits: Limits,
    history: History,
    generations: Generations,
    generation: u64,
    /// The closed generations that are kept, the oldest first.
    closed: PagedLog<ClosedGeneration>,
}

// Written out, so that each place that lets a database go calls one function.
impl Drop for Db {
    fn drop(self) {
        let Db { parts: _ } = self;
    }
}

impl Model for Db {
    ghost use Rattle.tt_db.specs.Database.{Database, IsConsistent};

    ghost Value = { Database };

    ghost view = { λ d. record {
      catalog = d.parts.generations.catalog;
      limits = d.parts.limits;
      history = d.parts.history;
    } };

    ghost invariant = { λ d. let p = d.parts in
        IsConsistent p.limits p.history p.generations p.generation p.closed };
}

impl Db {
    /// A database without rows. Takes no memory; what later calls take comes from this allocator.
    pub fn new(alloc: Global, catalog: Arc<Catalog>, limits: Limits) -> Db
        requires { Fits limits }
        ensures { result ≡ record { catalog = catalog.value; limits = limits; history = [] } }
    {
        let catalog = Shared::from_arc(catalog);
        // For the proof: each catalog is sound.
        let _ = catalog.get().len();
        Db {
            parts: Parts {
                alloc,
                limits,
                history: History::new(alloc),
                generations: Generations::new(alloc, catalog),
                generation: 0,
                closed: PagedLog::new(alloc),
            },
        }
    }

    /// A database without rows, with the catalog and the limits of this one. Copies nothing.
    pub fn emptied(&self) -> Result<Db, AllocError>
        ensures { IfOk result (λ db. db ≡ record self.now { history = [] }) }
    {
        let generations = self.parts.generations.emptied()?;
        Ok(Db {
            parts: Parts {
                alloc: self.parts.alloc,
                limits: self.parts.limits,
                history: History::new(self.parts.alloc),
                generations,
                generation: 0,
                closed: PagedLog::new(self.parts.alloc),
            },
        })
    }

    /// The catalog that the database was created with.
    pub fn catalog(&self) -> &Catalog
        ensures { result.now ≡ self.now.catalog }
    {
        self.parts.generations.catalog()
    }

    /// The limits that the database was created with.
    pub fn limits(&self) -> Limits
        ensures value { result ≡ self.now.limits }
        ensures fits { Fits result }
    {
        self.parts.limits
    }

    /// The current time: the number of slots.
    pub fn now(&self) -> u64
        ensures { result ≡ now_in self.now }
    {
        self.parts.generations.len()
    }

    /// The number of the current generation: 0 at first, and one more after each switch.
    pub fn generation(&self) -> u64
        ensures { result ≡ (state_of self.now).generation }
    {
        self.parts.generation
    }

    /// The number of the oldest generation that can be read: of the oldest closed one that is kept,
    /// or of the current one where none is. Takes no memory.
    pub fn oldest(&self) -> u64
        ensures { result ≡ oldest_in self.now }
    {
        oldest_of(&self.parts.closed, self.parts.generation)
    }

    /// The last time of a generation that can be read; None for any other. Takes no memory.
    pub fn last_time(&self, generation: u64) -> Option<u64>
        ensures { result ≡ option_map length (slots_in (state_of self.now) generation) }
    {
        let generations = self.generations_of(generation)?;
        Some(generations.len())
    }

    /// How many entries the history has.
    pub fn events(&self) -> u64
        ensures count { result ≡ length self.now.history }
        ensures legal { IsLegal self.now.catalog self.now.limits self.now.history }
    {
        self.parts.history.len() as u64
    }

    /// The entry at a place of the history, counted from 1.
    pub fn entry(&self, place: u64) -> Option<&Entry>
        ensures { option_copied result ≡ nth_item self.now.history place }
    {
        let position = place.checked_sub(1)?;
        self.parts.history.get(position as usize)
    }

    /// The place in the history, counted from 1, of the entry that made a slot; None where there is
    /// no such slot. It stays over repairs. Takes no memory, and time logarithmic in the number of
    /// entries that aren't writes.
    pub fn place_of(&self, slot: u64) -> Option<u64>
        ensures { result ≡ place_of self.now slot }
    {
        self.parts.history.place_of_write(slot)
    }

    /// The slot of a number, counted from 1, in the current generation.
    pub fn slot(&self, number: u64) -> Option<&Slot>
        ensures { option_copied result ≡ slot_of self.now number }
    {
        self.parts.generations.slot(number)
    }

    /// The slots behind the first `count`, in their order, in the current generation: none where
    /// there are no more. Takes no memory.
    pub fn slots_after(&self, count: u64) -> Slots<'_>
        ensures { AreSlotsAfter count (state_of self.now).slots result }
    {
        self.parts.generations.slots_after(count)
    }

    /// Of the slots that the repair has done, the one of a number, counted from 1, as the next
    /// generation has it: its action as edited, and its replies there. None for any other number,
    /// and where no repair is under way. Takes no memory.
    pub fn next_slot(&self, number: u64) -> Option<&Slot>
        ensures { option_copied result ≡ next_slot_of self.now number }
    {
        self.parts.generations.next_slot(number)
    }

    /// How far the repair is; None where none is under way. Takes no memory.
    pub fn repair(&self) -> Option<Progress>
        ensures { result ≡ repair_of self.now }
    {
        self.parts.generations.progress()
    }

    /// The worker that began the repair under way; None where none is under way. Takes no memory.
    pub fn repair_worker(&self) -> Option<u32>
        ensures { result ≡ repair_worker_of self.now }
    {
        if self.parts.generations.is_repairing() {
            Some(self.parts.history.last_beginner())
        } else {
            None
        }
    }

    /// How many slots the repair has done; 0 where none is under way. Takes no memory.
    pub fn slots_done(&self) -> u64
        ensures { result ≡ done_of (state_of self.now).phase }
    {
        self.parts.generations.done()
    }

    /// How many slots the repair has left to do; 0 where none is under way. Takes no memory.
    pub fn slots_left(&self) -> u64
        ensures left { result ≡ slots_left (state_of self.now) }
        ensures within { IsWithin (state_of self.now).phase (state_of self.now).slots }
    {
        self.parts.generations.left()
    }

    /// Whether a repair is under way. Takes no memory.
    pub fn is_repairing(&self) -> bool
        ensures { result ≡ is_repairing (state_of self.now).phase }
    {
        self.parts.generations.is_repairing()
    }

    /// Applies an event: returns the next database and the outcome, or why the event is refused.
    /// This database stays as it is, and shares with the next one what they have in common.
    ///
    /// The slot of a step that isn't due is the same in both generations, with the same effect and
    /// the same replies. Beginning a repair, its steps and giving it up change no current answer.
    /// After the switch the current answers are those of the slots as edited, with each action that
    /// was carried out during the repair.
    pub fn apply(&self, entry: Entry) -> Result<(Db, Outcome), DbError>
        ensures state { IfOk result (λ r. r.0 ≡ with_entry self.now entry) }
        ensures outcome { IfOk result (λ r. r.1 ≡ outcome_for self.now entry.event) }
        ensures accepted { OnOk result (refusal_of self.now entry.event ≡ None) }
        ensures refused { IfErr result (λ e.
            refusal_of self.now entry.event ≡ refusal_of_error e) }
        ensures repaired { OnOk result (MissesNoSlot self.now entry.event) }
        ensures current { IfOk result (λ r. ShowsCurrent self.now entry.event r.0) }
    {
        if let Some(refusal) = self.refusal(&entry.event) {
            return Err(refusal);
        }
        match self.apply_shared(entry) {
            Ok(next) => Ok(next),
            Err(AllocError) => Err(DbError::Memory),
        }
    }

    /// Applies an event to a database whose earlier state isn't needed any more: returns the next
    /// database and the outcome, or this database and why the event is refused. What no other
    /// database shares is changed in place. Without memory for an event that isn't refused nothing
    /// is left: use [`apply`](Db::apply) where the database has to survive that.
    pub fn advanced(self, entry: Entry) -> Result<(Db, Result<Outcome, DbError>), AllocError>
        ensures state { IfOk result (λ r. OnOk r.1 (r.0 ≡ with_entry self entry)) }
        ensures outcome { IfOk result (λ r. IfOk r.1 (λ o. o ≡ outcome_for self entry.event)) }
        ensures accepted { IfOk result (λ r. OnOk r.1 (refusal_of self entry.event ≡ None)) }
        ensures refused { IfOk result (λ r. IfErr r.1 (λ e.
            refusal_of self entry.event ≡ Some e)) }
        ensures unchanged { IfOk result (λ r. OnErr r.1 (r.0 ≡ self)) }
        ensures memory { OnErr result (refusal_of self entry.event ≡ None) }
    {
        let mut db = self;
        if let Some(refusal) = db.refusal(&entry.event) {
            return Ok((db, Err(refusal)));
        }
        let outcome = db.apply_event(entry)?;
        Ok((db, Ok(outcome)))
    }

    /// Applies an event in place: becomes the next database and returns the outcome, or stays and
    /// returns why the event is refused. What no other database shares is changed where it lies.
    /// What [`apply`](Db::apply) says of repairs holds here too.
    ///
    /// Without memory for an event that isn't refused nothing is left of the database but its
    /// catalog and its limits: where it has to survive that, [`share`](Db::share) it first.
    pub fn advance(&mut self, entry: Entry) -> Result<Outcome, DbError>
        ensures state { OnOk result (self.new ≡ with_entry self.old entry) }
        ensures outcome { IfOk result (λ o. o ≡ outcome_for self.old entry.event) }
        ensures accepted { OnOk result (refusal_of self.old entry.event ≡ None) }
        ensures refused { IfErr result (λ e.
            refusal_of self.old entry.event ≡ refusal_of_error e) }
        ensures unchanged { IfErr result (λ e. e ≢ DbError.Memory → self.new ≡ self.old) }
        ensures memory { IfErr result (λ e. e ≡ DbError.Memory → self.new.history ≡ []) }
        ensures catalog { self.new.catalog ≡ self.old.catalog }
        ensures limits { self.new.limits ≡ self.old.limits }
        ensures repaired { OnOk result (MissesNoSlot self.old entry.event) }
        ensures current { OnOk result (ShowsCurrent self.old entry.event self.new) }
    {
        if let Some(refusal) = self.refusal(&entry.event) {
            return Err(refusal);
        }
        match self.apply_event(entry) {
            Ok(outcome) => Ok(outcome),
            Err(AllocError) => Err(DbError::Memory),
        }
    }

    /// Another owner of this database: a checkpoint, which stays as it is whatever becomes of this
    /// one. Copies no entry and no row.
    pub fn share(&self) -> Result<Db, AllocError>
        ensures { IfOk result (λ db. db ≡ self.now) }
    {
        let history = self.parts.history.share()?;
        let generations = self.parts.generations.share()?;
        let closed = self.parts.closed.share()?;
        Ok(Db {
            parts: Parts {
                alloc: self.parts.alloc,
                limits: self.parts.limits,
                history,
                generations,
                generation: self.parts.generation,
                closed,
            },
        })
    }

    /// Why an event would be refused, memory aside. Takes no memory.
    pub fn refusal(&self, event: &Event) -> Option<DbError>
        ensures { result ≡ refusal_of self.now event.now }
    {
        match event {
            Event::Write(action) => self.action_refusal(action),
            Event::Begin(edits) => self.begin_refusal(edits.as_slice()),
            Event::Step => self.step_refusal(),
            Event::Switch => self.switch_refusal(),
            Event::Abort => self.abort_refusal(),
        }
    }

    /// Why an action is refused.
    fn action_refusal(&self, action: &Action) -> Option<DbError>
        ensures { result ≡ refusal_of self.now (Event.Write action.now) }
    {
        if let Err(fault) = check_action(self.catalog(), action) {
            return Some(DbError::Statement(fault));
        }
        if self.now() == self.parts.limits.slots {
            return Some(DbError::Full {
                limit: self.parts.limits.slots,
            });
        }
        self.full_refusal()
    }

    /// Why a repair with these edits is refused.
    fn begin_refusal(&self, edits: &[Edit]) -> Option<DbError>
        ensures { result ≡ refusal_of self.now (Event.Begin edits.now) }
    {
        if let Some(fault) = edits_fault(self.catalog(), edits) {
            return Some(DbError::Statement(fault));
        }
        if self.parts.generations.is_repairing() {
            return Some(DbError::Repairing);
        }
        if let Some(t) = missing_slot(self.now(), edits) {
            return Some(DbError::NoSlot { t });
        }
        if let Some(t) = slot_edited_twice(edits) {
            return Some(DbError::EditTwice { t });
        }
        if edits.len() > self.parts.limits.edits as usize {
            return Some(DbError::TooManyEdits);
        }
        self.full_refusal()
    }

    /// Why a step of the repair is refused.
    fn step_refusal(&self) -> Option<DbError>
        ensures { result ≡ refusal_of self.now Event.Step }
    {
        if !self.parts.generations.is_repairing() {
            return Some(DbError::NotRepairing);
        }
        if self.parts.generations.left() == 0 {
            return Some(DbError::NothingLeft);
        }
        self.full_refusal()
    }

    /// Why a switch is refused.
    fn switch_refusal(&self) -> Option<DbError>
        ensures { result ≡ refusal_of self.now Event.Switch }
    {
        if !self.parts.generations.is_repairing() {
            return Some(DbError::NotRepairing);
        }
        let left = self.parts.generations.left();
        if left > 0 {
            return Some(DbError::NotCaughtUp { left });
        }
        self.full_refusal()
    }

    /// Why the repair can't be given up.
    fn abort_refusal(&self) -> Option<DbError>
        ensures { result ≡ refusal_of self.now Event.Abort }
    {
        if !self.parts.generations.is_repairing() {
            return Some(DbError::NotRepairing);
        }
        self.full_refusal()
    }

    /// Full, where the history has as many entries as the limit allows.
    fn full_refusal(&self) -> Option<DbError>
        ensures { result ≡ full_at (state_of self.now).events self.now.limits.events }
    {
        if self.events() == self.parts.limits.events {
            return Some(DbError::Full {
                limit: self.parts.limits.events,
            });
        }
        None
    }

    /// The next database after an event that isn't refused, beside this one.
    fn apply_shared(&self, entry: Entry) -> Result<(Db, Outcome), AllocError>
        requires { refusal_of self.now entry.event ≡ None }
        ensures state { IfOk result (λ r. r.0 ≡ with_entry self.now entry) }
        ensures outcome { IfOk result (λ r. r.1 ≡ outcome_for self.now entry.event) }
    {
        let mut next = self.share()?;
        let outcome = next.apply_event(entry)?;
        Ok((next, outcome))
    }

    /// Becomes the database after an event that isn't refused, and returns the outcome. Without
    /// memory there is no entry afterwards.
    fn apply_event(&mut self, entry: Entry) -> Result<Outcome, AllocError>
        requires { refusal_of self.old entry.event ≡ None }
        ensures state { OnOk result (self.new ≡ with_entry self.old entry) }
        ensures outcome { IfOk result (λ o. o ≡ outcome_for self.old entry.event) }
        ensures memory { OnErr result (self.new.history ≡ []) }
        ensures catalog { self.new.catalog ≡ self.old.catalog }
        ensures limits { self.new.limits ≡ self.old.limits }
    {
        match self.parts.carry_out(entry) {
            Ok(outcome) => Ok(outcome),
            Err(AllocError) => {
                self.parts.clear();
                Err(AllocError)
            }
        }
    }

    /// The rows that match now, by rising key.
    pub fn select(&self, select: &Select) -> Result<Reply, ReadError>
        ensures right { Answers (right_answer self.now select.now) result }
        ensures keyed { IfOk result (λ reply. RowsHaveRisingKeys reply) }
    {
        if let Err(fault) = check_select(self.catalog(), select) {
            return Err(ReadError::Statement(fault));
        }
        match self.answer_at(select, self.now()) {
            Ok(reply) => Ok(reply),
            Err(AllocError) => Err(ReadError::Memory),
        }
    }

    /// The rows that match at a time, by rising key: a point-in-time read. Each time up to now can
    /// be read; 0 is the time before the first write.
    pub fn select_at(&self, select: &Select, time: u64) -> Result<Reply, ReadError>
        ensures right { Answers (right_answer_at self.now select.now time) result }
        ensures keyed { IfOk result (λ reply. RowsHaveRisingKeys reply) }
    {
        if let Err(fault) = check_select(self.catalog(), select) {
            return Err(ReadError::Statement(fault));
        }
        let now = self.now();
        if now < time {
            return Err(ReadError::Later { now });
        }
        match self.answer_at(select, time) {
            Ok(reply) => Ok(reply),
            Err(AllocError) => Err(ReadError::Memory),
        }
    }

    /// The rows that match at a time in a generation, by rising key: in the current one as
    /// [`select_at`](Db::select_at), or in a closed one that is kept, as it was at the switch.
    pub fn select_in(&self, generation: u64, select: &Select, time: u64) -> Result<Reply, ReadError>
        ensures right { Answers (right_answer_in self.now generation select.now time) result }
        ensures keyed { IfOk result (λ reply. RowsHaveRisingKeys reply) }
    {
        if let Err(fault) = check_select(self.catalog(), select) {
            return Err(ReadError::Statement(fault));
        }
        let Some(generations) = self.generations_of(generation) else {
            return Err(ReadError::NoGeneration {
                oldest: self.oldest(),
                newest: self.parts.generation,
            });
        };
        let now = generations.len();
        if time > now {
            return Err(ReadError::Later { now });
        }
        match generations.answer_at(select, time) {
            Ok(reply) => Ok(reply),
            Err(AllocError) => Err(ReadError::Memory),
        }
    }

    /// A generation that can be read, as the current one of two.
    fn generations_of(&self, number: u64) -> Option<&Generations>
        ensures slots { option_map (λ g. g.slots) (option_copied result)
            ≡ slots_in (state_of self.now) number }
        ensures generations { option_copied result ≡ generations_at self.now number }
    {
        if number == self.parts.generation {
            Some(&self.parts.generations)
        } else {
            closed_of(&self.parts.closed, number)
        }
    }

    /// The rows that match in the next generation, by rising key, at the last slot that the repair
    /// has done.
    pub fn preview(&self, select: &Select) -> Result<Reply, ReadError>
        ensures right { Answers (right_preview_of self.now select.now) result }
        ensures keyed { IfOk result (λ reply. RowsHaveRisingKeys reply) }
    {
        if let Err(fault) = check_select(self.catalog(), select) {
            return Err(ReadError::Statement(fault));
        }
        if !self.parts.generations.is_repairing() {
            return Err(ReadError::NotRepairing);
        }
        match self.next_answer(select) {
            Ok(reply) => Ok(reply),
            Err(AllocError) => Err(ReadError::Memory),
        }
    }

    /// The rows that match in the next generation at a time, by rising key. Each time up to the
    /// last slot that the repair has done can be read; at this one it returns what
    /// [`preview`](Db::preview) does.
    pub fn preview_at(&self, select: &Select, time: u64) -> Result<Reply, ReadError>
        ensures right { Answers (right_preview_at_of self.now select.now time) result }
        ensures keyed { IfOk result (λ reply. RowsHaveRisingKeys reply) }
    {
        if let Err(fault) = check_select(self.catalog(), select) {
            return Err(ReadError::Statement(fault));
        }
        let progress = self.repair().ok_or(ReadError::NotRepairing)?;
        if time > progress.done {
            return Err(ReadError::Later { now: progress.done });
        }
        match self.next_answer_at(select, time) {
            Ok(reply) => Ok(reply),
            Err(AllocError) => Err(ReadError::Memory),
        }
    }

    /// The reply to a select at a time.
    fn answer_at(&self, select: &Select, time: u64) -> Result<Reply, AllocError>
        ensures right { IfOk result (λ reply. reply ≡ answer_for self.now select.now time) }
        ensures keyed { IfOk result (λ reply. RowsHaveRisingKeys reply) }
    {
        let reply = self.parts.generations.answer_at(select, time)?;
        Ok(reply)
    }

    /// The reply to a select in the next generation, at the last slot that the repair has done.
    fn next_answer(&self, select: &Select) -> Result<Reply, AllocError>
        ensures right { IfOk result (λ reply. reply ≡ preview_for self.now select.now) }
        ensures keyed { IfOk result (λ reply. RowsHaveRisingKeys reply) }
    {
        let reply = self.parts.generations.preview(select)?;
        Ok(reply)
    }

    /// The reply to a select in the next generation, at a time up to the last slot that the repair
    /// has done.
    fn next_answer_at(&self, select: &Select, time: u64) -> Result<Reply, AllocError>
        requires { time ≤ done_of (state_of self.now).phase }
        ensures right { IfOk result (λ reply. reply
            ≡ preview_at_for self.now select.now time) }
        ensures keyed { IfOk result (λ reply. RowsHaveRisingKeys reply) }
    {
        let reply = self.parts.generations.preview_at(select, time)?;
        Ok(reply)
    }

    /// The row with an identity in the current generation at a time; None where it isn't there, or
    /// where its table isn't declared. Takes no memory.
    pub fn row_at(&self, row: RowId, time: u64) -> Option<&Row>
        ensures { option_copied result ≡ row_in self.now row time }
    {
        let table = self.versions(row.table)?;
        table.at(row.key, time, Side::Current)
    }

    /// The versions of the rows of a table; None past the last table. The current side shows the
    /// current generation, and the next side, up to the last slot that a repair has done, the next
    /// one. The split rows are the dirty ones: none while no repair is under way. Takes no memory.
    pub fn versions(&self, table: u16) -> Option<&Table>
        ensures there { IsSome result ↔ (table < length self.now.catalog) }
        ensures current { IfSome result
            (λ t. current_of t.now ≡ current_rows_of self.now table) }
        ensures next { IfSome result (λ t. ShowsNextRows self.now table (next_of t.now)) }
        ensures split { IfSome result (λ t. is_split t.now ≡ dirty_rows_in self.now table) }
    {
        if usize::from(table) < self.catalog().len() {
            Some(self.parts.generations.table(table))
        } else {
            None
        }
    }
}

impl Parts {
    /// Carries out an event that isn't refused, adds its entry to the history, and returns the
    /// outcome.
    fn carry_out(&mut self, entry: Entry) -> Result<Outcome, AllocError>
        requires allowed { Allows self.old.generations entry.event }
        requires small { self.old.generation < max_limits.events }
        ensures limits { self.new.limits ≡ self.old.limits }
        ensures history { OnOk result (self.new.history ≡ self.old.history ++ entry ∷ []) }
        ensures transition { IfOk result (IsTransition self.old.generations self.old.generation
            entry.event self.new.generations self.new.generation) }
        ensures closed { OnOk result (self.new.closed ≡ closed_after self.old.limits.keep
            self.old.closed self.old.generation self.old.generations entry.event) }
        ensures catalog { self.new.generations.catalog ≡ self.old.generations.catalog }
    {
        self.close_by(&entry.event)?;
        let outcome = carry_out(&mut self.generations, &mut self.generation, &entry.event)?;
        self.history.push(self.alloc, entry)?;
        Ok(outcome)
    }

    /// Leaves nothing but the catalog and the limits. Takes no memory.
    fn clear(&mut self)
        ensures { self.new ≡ record self.old {
          history = [];
          generations = no_slots self.old.generations.catalog;
          generation = 0;
          closed = [];
        } }
    {
        self.history = History::new(self.alloc);
        self.generations.clear();
        self.generation = 0;
        self.closed = PagedLog::new(self.alloc);
    }

    /// Closes the current generation where the event is a switch.
    fn close_by(&mut self, event: &Event) -> Result<(), AllocError>
        ensures closed { OnOk result (self.new.closed ≡ closed_after self.old.limits.keep
            self.old.closed self.old.generation self.old.generations event.now) }
        ensures others { self.new ≡ record self.old { closed = self.new.closed } }
    {
        match event {
            Event::Switch => {
                self.closed = with_closed(
                    self.alloc,
                    self.limits.keep,
                    &self.closed,
                    self.generation,
                    &self.generations,
                )?;
                Ok(())
            }
            _ => Ok(()),
        }
    }
}
