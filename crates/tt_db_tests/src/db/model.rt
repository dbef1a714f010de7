//! A model of the database: plain lists, which are walked from the front. Each generation is
//! carried out slot by slot from nothing, the next one too, whether its slots are due or not. The
//! model shares no code with the database but the types of statements and events, and has memory
//! for everything.
use std::alloc::Global;
use std::process::Abort;
use tt_db::{Edit, Event, Outcome, Progress, Slot};
use tt_shared_tests::{Dirty, Effect, Rows};
use tt_values::{Action, Catalog, Items, Reply, Select, Shared, Write};

/// A slot that was carried out.
#[derive(Drop)]
struct SlotRun {
    /// None where it is cancelled.
    action: Option<Action>,
    effect: Effect,
    /// All rows after it.
    rows: Rows,
}

/// The slots of a generation, on no rows at first.
#[derive(Drop)]
struct Generation {
    start: Rows,
    slots: Vec<SlotRun>,
}

/// A repair that is under way: its edits, the slots of the next generation that are done, what is
/// dirty, and how many slots were due.
#[derive(Drop)]
struct Repair {
    edits: Items<Edit>,
    next: Generation,
    dirty: Dirty,
    rerun: u64,
}

/// A database as plain lists.
#[derive(Drop)]
pub(super) struct Model {
    catalog: Shared<Catalog>,
    generation: u64,
    current: Generation,
    repair: Option<Repair>,
}

fn copy_of(rt: &impl Abort, action: &Option<Action>) -> Option<Action> {
    match action {
        Some(action) => Some(action.clone().expect(rt, "memory")),
        None => None,
    }
}

/// The edit of a slot, if there is one.
pub(super) fn edit_of(edits: &[Edit], number: u64) -> Option<&Edit> {
    for edit in edits {
        if edit.number() == number {
            return Some(edit);
        }
    }
    None
}

impl SlotRun {
    /// A slot of this action, on the rows that the slots before it left.
    fn of(rt: &impl Abort, alloc: Global, before: &Rows, action: &Option<Action>) -> SlotRun {
        let mut rows = before.copy(alloc).expect(rt, "memory");
        let effect = match action {
            Some(action) => rows.carry_out(alloc, action),
            None => Effect::none(alloc),
        };
        SlotRun {
            action: copy_of(rt, action),
            effect: effect.expect(rt, "memory"),
            rows,
        }
    }

    /// Its writes; none where it is cancelled.
    fn writes(&self) -> &[Write] {
        match &self.action {
            Some(action) => action.writes.as_slice(),
            None => &[],
        }
    }

    fn replies(&self, rt: &impl Abort) -> Items<Reply> {
        self.effect.replies.clone().expect(rt, "memory")
    }
}

impl Generation {
    fn new(alloc: Global) -> Generation {
        Generation {
            start: Rows::new(alloc),
            slots: Vec::new(alloc),
        }
    }

    fn len(&self) -> u64 {
        self.slots.len() as u64
    }

    fn slot(&self, number: u64) -> Option<&SlotRun> {
        self.slots.get(number.checked_sub(1)? as usize)
    }

    /// All rows at a time.
    fn rows_at(&self, time: u64) -> &Rows {
        match self.slot(time) {
            Some(slot) => &slot.rows,
            None => &self.start,
        }
    }

    /// Carries out one more slot.
    fn push(&mut self, rt: &impl Abort, alloc: Global, action: &Option<Action>) {
        let slot = SlotRun::of(rt, alloc, self.rows_at(self.len()), action);
        self.slots.push(slot).expect(rt, "memory");
    }

    /// The rows that match at a time.
    fn select_at(&self, rt: &impl Abort, alloc: Global, select: &Select, time: u64) -> Reply {
        let reply = self.rows_at(time).select(alloc, select);
        reply.expect(rt, "memory")
    }
}

impl Repair {
    /// Does the next slot, and says whether it was due.
    fn step(
        &mut self,
        rt: &impl Abort,
        alloc: Global,
        catalog: &Catalog,
        current: &Generation,
    ) -> bool {
        let number = self.next.len().saturating_add(1);
        let slot = current.slot(number).expect(rt, "a slot");
        let edit = edit_of(self.edits.as_slice(), number);
        let action = match edit {
            Some(Edit::Cancel(_)) => None,
            Some(Edit::Replace(_, action)) => Some(action.clone().expect(rt, "memory")),
            None => copy_of(rt, &slot.action),
        };
        let is_due = edit.is_some() || self.dirty.affects(catalog, slot.writes(), &slot.effect);
        self.next.push(rt, alloc, &action);
        if is_due {
            self.rerun = self.rerun.saturating_add(1);
            self.dirty_by(rt, catalog, slot, number);
        }
        is_due
    }

    /// Adds to what is dirty what a slot did that was due, and what it does now.
    fn dirty_by(&mut self, rt: &impl Abort, catalog: &Catalog, old: &SlotRun, number: u64) {
        let new = self.next.slot(number).expect(rt, "a slot");
        let before = self.next.rows_at(number.saturating_sub(1));
        let effects = (&old.effect, &new.effect);
        let added = self.dirty.add(catalog, effects, (before, &new.rows));
        added.expect(rt, "memory");
    }
}

impl Model {
    pub(super) fn new(alloc: Global, catalog: Shared<Catalog>) -> Model {
        Model {
            catalog,
            generation: 0,
            current: Generation::new(alloc),
            repair: None,
        }
    }

    /// The time of the last slot.
    pub(super) fn now(&self) -> u64 {
        self.current.len()
    }

    pub(super) fn generation(&self) -> u64 {
        self.generation
    }

    /// Does what an event asks for. Returns its outcome, or None where it is refused. Statements
    /// and edits have no faults.
    pub(super) fn answer(
        &mut self,
        rt: &impl Abort,
        alloc: Global,
        event: &Event,
    ) -> Option<Outcome> {
        match event {
            Event::Write(action) => self.write(rt, alloc, action),
            Event::Begin(edits) => self.begin(rt, alloc, edits),
            Event::Step => self.step(rt, alloc),
            Event::Switch => self.switch(),
            Event::Abort => {
                self.repair.take()?;
                Some(Outcome::Aborted)
            }
        }
    }

    fn write(&mut self, rt: &impl Abort, alloc: Global, action: &Action) -> Option<Outcome> {
        let action = Some(action.clone().expect(rt, "memory"));
        self.current.push(rt, alloc, &action);
        let slot = self.now();
        let run = self.current.slot(slot)?;
        Some(Outcome::Written {
            slot,
            replies: run.replies(rt),
        })
    }

    fn begin(&mut self, rt: &impl Abort, alloc: Global, edits: &Items<Edit>) -> Option<Outcome> {
        if self.repair.is_some() {
            return None;
        }
        self.repair = Some(Repair {
            edits: edits.clone().expect(rt, "memory"),
            next: Generation::new(alloc),
            dirty: Dirty::new(alloc),
            rerun: 0,
        });
        Some(Outcome::Begun)
    }

    fn step(&mut self, rt: &impl Abort, alloc: Global) -> Option<Outcome> {
        let progress = self.progress()?;
        if progress.left == 0 {
            return None;
        }
        let repair = self.repair.as_mut()?;
        let rerun = repair.step(rt, alloc, self.catalog.get(), &self.current);
        Some(Outcome::Stepped {
            slot: progress.done.saturating_add(1),
            rerun,
        })
    }

    fn switch(&mut self) -> Option<Outcome> {
        let progress = self.progress()?;
        if progress.left > 0 {
            return None;
        }
        let Repair {
            edits: _,
            next,
            dirty: _,
            rerun,
        } = self.repair.take()?;
        self.current = next;
        self.generation = self.generation.saturating_add(1);
        Some(Outcome::Switched {
            generation: self.generation,
            slots: self.now(),
            rerun,
        })
    }

    /// How far the repair is that is under way.
    pub(super) fn progress(&self) -> Option<Progress> {
        let repair = self.repair.as_ref()?;
        Some(Progress {
            done: repair.next.len(),
            left: self.now().saturating_sub(repair.next.len()),
            rerun: repair.rerun,
        })
    }

    /// Whether a row is dirty in the repair that is under way.
    pub(super) fn is_dirty(&self, table: u16, key: i64) -> bool {
        match &self.repair {
            Some(repair) => repair.dirty.has_row((table, key)),
            None => false,
        }
    }

    /// The rows that match at a time of the current generation.
    pub(super) fn select_at(
        &self,
        rt: &impl Abort,
        alloc: Global,
        select: &Select,
        time: u64,
    ) -> Reply {
        self.current.select_at(rt, alloc, select, time)
    }

    /// The rows that match at a time of the next generation, if a repair is under way.
    pub(super) fn preview_at(
        &self,
        rt: &impl Abort,
        alloc: Global,
        select: &Select,
        time: u64,
    ) -> Option<Reply> {
        let repair = self.repair.as_ref()?;
        Some(repair.next.select_at(rt, alloc, select, time))
    }

    /// A slot of the current generation.
    pub(super) fn slot(&self, rt: &impl Abort, number: u64) -> Option<Slot> {
        let slot = self.current.slot(number)?;
        let replies = match &slot.action {
            Some(_) => Some(slot.replies(rt)),
            None => None,
        };
        Some(Slot {
            action: copy_of(rt, &slot.action),
            replies,
        })
    }
}
