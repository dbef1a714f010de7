ghost use Rattle.std.specs.Prelude.{◌≡◌, ◌<◌, ◌≤◌, ◌+◌, ◌++◌, [], ◌∷◌, length, None, Some, IfOk, OnOk, OnErr, IsTrue, IsFalse};
ghost use Rattle.std.specs.List.{All};
ghost use Rattle.std.specs.Option.{option_copied};
ghost use Rattle.tt_values.specs.Tables.{IsCatalog};
ghost use Rattle.tt_values.specs.Check.{action_fault};
ghost use Rattle.tt_values.specs.Effect.{answer_of};
ghost use Rattle.tt_values.specs.Action.{replies_of};
ghost use Rattle.tt_values.specs.RowWrites.{content_of};
ghost use Rattle.tt_versions.specs.Sides.{current_of, next_of, is_split};
ghost use Rattle.tt_repair_laws.specs.Edits.{HasNoFault};
ghost use Rattle.tt_repair_laws.specs.NextSide.{current_side};
ghost use Rattle.tt_generations.specs.Limits.{max_slots};
ghost use Rattle.tt_generations.specs.KeptSlots.{slot_at, last_content, actions_of};
ghost use Rattle.tt_generations.specs.SlotsAfter.{AreSlotsAfter};
ghost use Rattle.tt_generations.specs.Repair.{repair_with_slot, next_slots};
ghost use Rattle.tt_generations.specs.TwoGenerations.{no_slots, with_action, with_repair, after_step, after_switch, after_abort, is_repairing, done_of, left_of, reexecuted_of, is_next_due, is_due_in, phase_after_step, next_content_of, next_content_at, next_slot_at, rows_on, AnswersOn, IsWithin, progress_of, next_side_of, dirty_rows_of, NamesSlot, Phase};
ghost use Rattle.tt_generations.specs.Runs.{after_steps, undue_run, is_last_due};
ghost use Rattle.tt_generations.specs.Generations.{phase_of, generations_of, AreGenerations};

mod causes;
mod differences;
mod page;

use crate::action_run::ActionRun;
use crate::boxed_repair::BoxedRepair;
use crate::effect::copies_of;
use crate::progress::Progress;
use crate::repair::Repair;
use crate::rows::Rows;
use crate::slot::{KeptSlot, Slot};
use crate::slots::Slots;
use std::alloc::{AllocError, Global};
use std::marker::Model;
use tt_pages::PagedLog;
use tt_repair_laws::Edit;
use tt_values::{Action, Catalog, Items, Reply, Select, Shared};
use tt_versions::{Side, Table};

/// The slots of the current generation with the rows that they leave, and a repair that builds the
/// next one beside it, while one is under way.
pub struct Generations {
    state: State,
}

// Written out, so that each place that lets generations go calls one function.
impl Drop for Generations {
    fn drop(self) {
        let Generations { state: _ } = self;
    }
}

/// Slots that a repair has done together.
#[derive(Clone, Copy)]
struct Run {
    /// How many.
    count: u64,
    /// Whether the last of them was due.
    is_last_due: bool,
}

/// What generations consist of. While it is changed, its parts needn't fit together.
struct State {
    alloc: Global,
    catalog: Shared<Catalog>,
    slots: PagedLog<KeptSlot>,
    rows: Rows,
    repair: Option<BoxedRepair>,
}

// Written out, so that each place that lets one go calls one function.
impl Drop for State {
    fn drop(self) {
        let State {
            alloc: _,
            catalog: _,
            slots: _,
            rows: _,
            repair: _,
        } = self;
    }
}

impl Model for Generations {
    ghost use Rattle.tt_generations.specs.TwoGenerations.{TwoGenerations};
    ghost use Rattle.tt_generations.specs.KeptSlots.{actions_of};
    ghost use Rattle.tt_generations.specs.Generations.{phase_of, AreGenerations};

    ghost Value = { TwoGenerations };

    ghost view = { λ g. record {
      catalog = g.state.catalog;
      slots = actions_of g.state.slots;
      phase = phase_of g.state.repair;
    } };

    ghost invariant = { λ g.
        AreGenerations g.state.catalog g.state.slots g.state.rows g.state.repair };
}

impl Generations {
    /// No slots. Takes no memory.
    pub fn new(alloc: Global, catalog: Shared<Catalog>) -> Generations
        ensures { result ≡ no_slots catalog }
    {
        // For the proof: each catalog is sound.
        let _ = catalog.get().len();
        let state = State {
            alloc,
            catalog,
            slots: PagedLog::new(alloc),
            rows: Rows::new(alloc),
            repair: None,
        };
        Generations { state }
    }

    /// No slots, with the catalog of these, which is shared.
    pub fn emptied(&self) -> Result<Generations, AllocError>
        ensures { IfOk result (λ g. g ≡ no_slots self.now.catalog) }
    {
        let catalog = self.state.catalog.clone()?;
        Ok(Generations::new(self.state.alloc, catalog))
    }

    /// The catalog of the tables.
    pub fn catalog(&self) -> &Catalog
        ensures { result.now ≡ self.now.catalog }
    {
        self.state.catalog.get()
    }

    /// How many slots there are.
    pub fn len(&self) -> u64
        ensures { result ≡ length self.now.slots }
    {
        self.state.slots.len() as u64
    }

    /// The slot of a number, counted from 1, in the current generation.
    pub fn slot(&self, number: u64) -> Option<&Slot>
        ensures { option_copied result ≡ slot_at self.now.slots number }
    {
        let position = number.checked_sub(1)?;
        let kept = self.state.slots.get(position as usize)?;
        Some(&kept.slot)
    }

    /// The slots behind the first `count`, in their order, in the current generation: none where
    /// there are no more. Takes no memory.
    pub fn slots_after(&self, count: u64) -> Slots<'_>
        ensures { AreSlotsAfter count self.now.slots result }
    {
        Slots::of(self.state.slots.iter_from(count as usize))
    }

    /// Of the slots that the repair has done, the one of a number, counted from 1, as the next
    /// generation has it: edited, and with its replies there. None where no repair is under way.
    pub fn next_slot(&self, number: u64) -> Option<&Slot>
        ensures { option_copied result
            ≡ next_slot_at self.now.phase self.now.slots number }
    {
        let repair = self.state.repair.as_ref()?;
        if number > repair.done {
            return None;
        }
        let position = number.checked_sub(1)?;
        let kept = repair.slots.get(position as usize)?;
        Some(&kept.slot)
    }

    /// How far the repair is, if one is under way.
    pub fn progress(&self) -> Option<Progress>
        ensures { result ≡ progress_of self.now }
    {
        let repair = self.state.repair.as_ref()?;
        Some(Progress {
            done: repair.done,
            left: self.len() - repair.done,
            rerun: repair.reexecuted.len() as u64,
        })
    }

    /// Whether a repair is under way.
    pub fn is_repairing(&self) -> bool
        ensures { result ≡ is_repairing self.now.phase }
    {
        match &self.state.repair {
            Some(_) => true,
            None => false,
        }
    }

    /// How many slots the repair has done. 0 where none is under way.
    pub fn done(&self) -> u64
        ensures done { result ≡ done_of self.now.phase }
        ensures within { IsWithin self.now.phase self.now.slots }
    {
        match &self.state.repair {
            Some(repair) => repair.done,
            None => 0,
        }
    }

    /// How many slots the repair has left to do. 0 where none is under way.
    pub fn left(&self) -> u64
        ensures { result ≡ left_of self.now.phase self.now.slots }
    {
        match &self.state.repair {
            Some(repair) => self.len() - repair.done,
            None => 0,
        }
    }

    /// How many of the slots done were re-executed. 0 where no repair is under way.
    pub fn reexecuted(&self) -> u64
        ensures { result ≡ reexecuted_of self.now.catalog self.now.phase self.now.slots }
    {
        match &self.state.repair {
            Some(repair) => repair.reexecuted.len() as u64,
            None => 0,
        }
    }

    /// The versions of a table on both sides.
    pub fn table(&self, table: u16) -> &Table
        ensures current { current_of result.now ≡ current_side self.now.slots table }
        ensures next { next_of result.now
            ≡ next_side_of self.now.catalog self.now.phase self.now.slots table }
        ensures split { is_split result.now
            ≡ dirty_rows_of self.now.catalog self.now.phase self.now.slots table }
    {
        self.state.rows.table(table)
    }

    /// The reply to a select at a time, in the current generation.
    pub fn answer_at(&self, select: &Select, time: u64) -> Result<Reply, AllocError>
        ensures { IfOk result
            (λ r. r ≡ answer_of select.now (content_of self.now.slots time)) }
    {
        let reply = self.answer_on(select, time, Side::Current)?;
        Ok(reply)
    }

    /// The reply to a select in the next generation, at the last slot that the repair has done.
    /// Where no repair is under way, that is the current one before its first slot.
    pub fn preview(&self, select: &Select) -> Result<Reply, AllocError>
        ensures { IfOk result (λ r. r ≡ answer_of select.now (next_content_of self.now)) }
    {
        let reply = self.answer_on(select, self.done(), Side::Next)?;
        Ok(reply)
    }

    /// The reply to a select in the next generation, at a time up to the last slot that the repair
    /// has done. Where no repair is under way, that is the current one before its first slot.
    pub fn preview_at(&self, select: &Select, time: u64) -> Result<Reply, AllocError>
        requires { time ≤ done_of self.now.phase }
        ensures { IfOk result (λ r. r
            ≡ answer_of select.now (next_content_at self.now.phase self.now.slots time)) }
    {
        // For the proof: the repair has done no more slots than there are.
        let _ = self.done();
        let reply = self.answer_on(select, time, Side::Next)?;
        Ok(reply)
    }

    /// The reply to a select on a side at a time.
    fn answer_on(&self, select: &Select, time: u64, side: Side) -> Result<Reply, AllocError>
        ensures { IfOk result (λ r.
            AnswersOn r select.now (rows_on side self.now select.now.table) time) }
    {
        let table = self.table(select.table);
        let matching = table.rows_matching(select.equals.as_slice(), time, side)?;
        let rows = copies_of(self.state.alloc, &matching)?;
        let rows = Items::new(self.state.alloc, rows)?;
        Ok(Reply::Rows(rows))
    }

    /// Another owner of the same slots and rows. Copies none of them.
    pub fn share(&self) -> Result<Generations, AllocError>
        ensures { IfOk result (λ g. g ≡ self.now) }
    {
        let state = self.state.share()?;
        Ok(Generations { state })
    }

    /// Adds a slot for this action, and returns the replies to its writes, of a whole action up to
    /// the first without an effect. Without memory there are no slots afterwards.
    pub fn write(&mut self, action: Action) -> Result<Items<Reply>, AllocError>
        requires accepted { action_fault self.old.catalog action.writes ≡ None }
        requires room { length self.old.slots < max_slots }
        ensures state { OnOk result (self.new ≡ with_action self.old action) }
        ensures replies { IfOk result
            (λ r. r ≡ replies_of action (last_content self.old.slots)) }
        ensures memory { OnErr result (self.new ≡ no_slots self.old.catalog) }
    {
        match self.state.add_action(action) {
            Ok(replies) => Ok(replies),
            Err(error) => Err(self.state.clear_after(error)),
        }
    }

    /// Begins a repair with these edits, where none is under way. It has done no slot yet. Without
    /// memory there are no slots afterwards.
    pub fn begin(&mut self, edits: Items<Edit>) -> Result<(), AllocError>
        requires idle { self.old.phase ≡ Phase.Idle }
        requires named { All (NamesSlot self.old.slots) edits }
        requires accepted { All (HasNoFault self.old.catalog) edits }
        ensures state { OnOk result (self.new ≡ with_repair self.old edits) }
        ensures memory { OnErr result (self.new ≡ no_slots self.old.catalog) }
    {
        match self.state.begin(edits) {
            Ok(()) => Ok(()),
            Err(error) => Err(self.state.clear_after(error)),
        }
    }

    /// Does one slot of the repair: it is re-executed where it is due. Returns whether it was.
    /// Without memory there are no slots afterwards.
    pub fn step(&mut self) -> Result<bool, AllocError>
        requires { 0 < left_of self.old.phase self.old.slots }
        ensures state { OnOk result (self.new ≡ after_step self.old) }
        ensures due { IfOk result (λ due. due ≡ is_next_due self.old) }
        ensures memory { OnErr result (self.new ≡ no_slots self.old.catalog) }
    {
        match self.state.step() {
            Ok(is_due) => Ok(is_due),
            Err(error) => Err(self.state.clear_after(error)),
        }
    }

    /// Does the next slots that aren't due, up to `most` of them: stops before the first that is, or
    /// where none is left. Returns how many it passed over. Takes no memory.
    pub fn pass_over(&mut self, most: u64) -> u64
        ensures count { result ≡ undue_run most self.old }
        ensures few { result ≤ most }
        ensures state { self.new ≡ after_steps result self.old }
    {
        self.state.pass_over(most)
    }

    /// Does this many slots of the repair, one after another: each is re-executed where it is due.
    /// Returns whether the last one was. Without memory there are no slots afterwards.
    pub fn steps(&mut self, count: u64) -> Result<bool, AllocError>
        requires { count ≤ left_of self.old.phase self.old.slots }
        ensures state { OnOk result (self.new ≡ after_steps count self.old) }
        ensures due { IfOk result (λ due. due ≡ is_last_due count self.old) }
        ensures memory { OnErr result (self.new ≡ no_slots self.old.catalog) }
    {
        let mut left = count;
        let mut is_due = false;
        while left > 0 {
            let run = self.run(left)?;
            left -= run.count;
            is_due = run.is_last_due;
        }
        Ok(is_due)
    }

    /// Does the next slots that aren't due, and the one behind them, but at most `most`. Without
    /// memory there are no slots afterwards.
    fn run(&mut self, most: u64) -> Result<Run, AllocError>
        requires some { 0 < most }
        requires left { most ≤ left_of self.old.phase self.old.slots }
        ensures some { IfOk result (λ run. 0 < run.count) }
        ensures few { IfOk result (λ run. run.count ≤ most) }
        ensures state { IfOk result (λ run. self.new ≡ after_steps run.count self.old) }
        ensures due { IfOk result (λ run. run.is_last_due ≡ is_last_due run.count self.old) }
        ensures memory { OnErr result (self.new ≡ no_slots self.old.catalog) }
    {
        let passed = self.pass_over(most);
        if passed == most {
            return Ok(Run {
                count: passed,
                is_last_due: false,
            });
        }
        self.step_due()?;
        Ok(Run {
            count: passed + 1,
            is_last_due: true,
        })
    }

    /// Does one slot of the repair, which is due, without asking whether it is. Without memory
    /// there are no slots afterwards.
    fn step_due(&mut self) -> Result<(), AllocError>
        requires left { 0 < left_of self.old.phase self.old.slots }
        requires due { IsTrue (is_next_due self.old) }
        ensures state { OnOk result (self.new ≡ after_step self.old) }
        ensures memory { OnErr result (self.new ≡ no_slots self.old.catalog) }
    {
        match self.state.step_due() {
            Ok(()) => Ok(()),
            Err(error) => Err(self.state.clear_after(error)),
        }
    }

    /// The next generation becomes the current one. Takes time for the split rows alone. Without
    /// memory there are no slots afterwards.
    pub fn switch(&mut self) -> Result<(), AllocError>
        requires { left_of self.old.phase self.old.slots ≡ 0 }
        ensures state { OnOk result (self.new ≡ after_switch self.old) }
        ensures memory { OnErr result (self.new ≡ no_slots self.old.catalog) }
    {
        match self.state.rows.unsplit(Side::Next) {
            Ok(()) => {
                self.state.take_next_slots();
                Ok(())
            }
            Err(error) => Err(self.state.clear_after(error)),
        }
    }

    /// The next generation is given up, and the current one stays. Takes time for the split rows
    /// alone. Without memory there are no slots afterwards.
    pub fn abort(&mut self) -> Result<(), AllocError>
        ensures state { OnOk result (self.new ≡ after_abort self.old) }
        ensures memory { OnErr result (self.new ≡ no_slots self.old.catalog) }
    {
        match self.state.rows.unsplit(Side::Current) {
            Ok(()) => {
                self.state.repair = None;
                Ok(())
            }
            Err(error) => Err(self.state.clear_after(error)),
        }
    }

    /// Drops all slots, and the repair if one is under way. Takes no memory.
    pub fn clear(&mut self)
        ensures { self.new ≡ no_slots self.old.catalog }
    {
        self.state.clear();
    }
}

impl State {
    /// Another owner of the same slots and rows.
    fn share(&self) -> Result<State, AllocError>
        ensures { IfOk result (λ state. state ≡ self.now) }
    {
        let catalog = self.catalog.clone()?;
        let slots = self.slots.share()?;
        let rows = self.rows.share()?;
        let repair = shared_repair(self.alloc, &self.repair)?;
        Ok(State {
            alloc: self.alloc,
            catalog,
            slots,
            rows,
            repair,
        })
    }

    /// Drops the slots, the rows and the repair. Takes no memory.
    fn clear(&mut self)
        requires { IsCatalog self.old.catalog }
        ensures parts { AreGenerations
            self.new.catalog self.new.slots self.new.rows self.new.repair }
        ensures nothing { self.new ≡ record self.old { slots = []; rows = []; repair = None } }
    {
        self.slots = PagedLog::new(self.alloc);
        self.rows = Rows::new(self.alloc);
        self.repair = None;
    }

    /// Drops what a change that found no memory has left, whose parts needn't fit together. Returns
    /// the error.
    fn clear_after(&mut self, error: AllocError) -> AllocError
        requires { IsCatalog self.old.catalog }
        ensures parts { AreGenerations
            self.new.catalog self.new.slots self.new.rows self.new.repair }
        ensures nothing { self.new ≡ record self.old { slots = []; rows = []; repair = None } }
    {
        self.clear();
        error
    }

    /// The slots of the next generation become those of the current one, and there is no repair.
    fn take_next_slots(&mut self)
        ensures { self.new ≡ record self.old {
          slots = next_slots self.old.repair self.old.slots;
          repair = None;
        } }
    {
        if let Some(repair) = self.repair.take() {
            self.slots = repair.into_inner().into_slots();
        }
    }

    /// Begins a repair with these edits.
    fn begin(&mut self, edits: Items<Edit>) -> Result<(), AllocError>
        requires parts { AreGenerations
            self.old.catalog self.old.slots self.old.rows self.old.repair }
        requires idle { phase_of self.old.repair ≡ Phase.Idle }
        requires named { All (NamesSlot (actions_of self.old.slots)) edits }
        requires accepted { All (HasNoFault self.old.catalog) edits }
        ensures parts { OnOk result
            (AreGenerations self.new.catalog self.new.slots self.new.rows self.new.repair) }
        ensures catalog { self.new.catalog ≡ self.old.catalog }
        ensures slots { OnOk result (self.new.slots ≡ self.old.slots) }
        ensures phase { OnOk result (phase_of self.new.repair ≡ Phase.Repairing edits 0) }
    {
        let repair = Repair::new(self.alloc, &self.catalog, edits, &self.slots)?;
        self.repair = Some(BoxedRepair::new(self.alloc, repair)?);
        Ok(())
    }

    /// Adds a slot of this action, and returns the replies to its writes.
    fn add_action(&mut self, action: Action) -> Result<Items<Reply>, AllocError>
        requires parts { AreGenerations
            self.old.catalog self.old.slots self.old.rows self.old.repair }
        requires accepted { action_fault self.old.catalog action.writes ≡ None }
        requires room { length self.old.slots < max_slots }
        ensures parts { OnOk result
            (AreGenerations self.new.catalog self.new.slots self.new.rows self.new.repair) }
        ensures catalog { self.new.catalog ≡ self.old.catalog }
        ensures slots { OnOk result
            (actions_of self.new.slots ≡ actions_of self.old.slots ++ Some action ∷ []) }
        ensures phase { OnOk result (phase_of self.new.repair ≡ phase_of self.old.repair) }
        ensures replies { IfOk result
            (λ r. r ≡ replies_of action (last_content (actions_of self.old.slots))) }
    {
        let time = self.slots.len() as u64 + 1;
        let catalog = self.catalog.get();
        let run = ActionRun::of_action(self.alloc, catalog, &mut self.rows, &action, time)?;
        let (kept, replies) = run.into_slot(action)?;
        add_to_repair(&mut self.repair, &kept)?;
        self.slots.push(kept)?;
        Ok(replies)
    }

    /// Does one slot of the repair. Returns whether it was due.
    fn step(&mut self) -> Result<bool, AllocError>
        requires parts { AreGenerations
            self.old.catalog self.old.slots self.old.rows self.old.repair }
        requires left { 0 < left_of (phase_of self.old.repair) (actions_of self.old.slots) }
        ensures parts { OnOk result
            (AreGenerations self.new.catalog self.new.slots self.new.rows self.new.repair) }
        ensures catalog { self.new.catalog ≡ self.old.catalog }
        ensures slots { OnOk result (self.new.slots ≡ self.old.slots) }
        ensures phase { OnOk result
            (phase_of self.new.repair ≡ phase_after_step (phase_of self.old.repair)) }
        ensures due { IfOk result (λ due. due
            ≡ is_due_in self.old.catalog (phase_of self.old.repair) (actions_of self.old.slots)) }
    {
        let Some(repair) = &mut self.repair else {
            unreachable!();
        };
        let Some(kept) = self.slots.get(repair.done as usize) else {
            unreachable!();
        };
        let is_due = repair.step(self.alloc, self.catalog.get(), &mut self.rows, kept)?;
        Ok(is_due)
    }

    /// Does one slot of the repair, which is due.
    fn step_due(&mut self) -> Result<(), AllocError>
        requires parts { AreGenerations
            self.old.catalog self.old.slots self.old.rows self.old.repair }
        requires left { 0 < left_of (phase_of self.old.repair) (actions_of self.old.slots) }
        requires due { IsTrue (is_due_in
            self.old.catalog (phase_of self.old.repair) (actions_of self.old.slots)) }
        ensures parts { OnOk result
            (AreGenerations self.new.catalog self.new.slots self.new.rows self.new.repair) }
        ensures catalog { self.new.catalog ≡ self.old.catalog }
        ensures slots { OnOk result (self.new.slots ≡ self.old.slots) }
        ensures phase { OnOk result
            (phase_of self.new.repair ≡ phase_after_step (phase_of self.old.repair)) }
    {
        let Some(repair) = &mut self.repair else {
            unreachable!();
        };
        let Some(kept) = self.slots.get(repair.done as usize) else {
            unreachable!();
        };
        repair.reexecute(self.alloc, self.catalog.get(), &mut self.rows, kept)?;
        Ok(())
    }

    /// Does the next slots of the repair that aren't due, up to `most` of them. Returns how many.
    fn pass_over(&mut self, most: u64) -> u64
        requires { AreGenerations self.old.catalog self.old.slots self.old.rows self.old.repair }
        ensures parts { AreGenerations
            self.new.catalog self.new.slots self.new.rows self.new.repair }
        ensures count { result ≡ undue_run most
            (generations_of self.old.catalog self.old.slots self.old.repair) }
        ensures state { generations_of self.new.catalog self.new.slots self.new.repair
            ≡ after_steps result
            (generations_of self.old.catalog self.old.slots self.old.repair) }
    {
        let Some(repair) = &mut self.repair else {
            return 0;
        };
        let slots = self.slots.iter_from(repair.done as usize);
        repair.pass_over(slots, most)
    }
}

/// Another owner of a repair, if there is one.
fn shared_repair(
    alloc: Global,
    repair: &Option<BoxedRepair>,
) -> Result<Option<BoxedRepair>, AllocError>
    ensures { IfOk result (λ r. r ≡ repair.now) }
{
    match repair {
        Some(repair) => {
            let repair = repair.share(alloc)?;
            Ok(Some(repair))
        }
        None => Ok(None),
    }
}

/// Adds a slot to the repair, if there is one.
fn add_to_repair(repair: &mut Option<BoxedRepair>, kept: &KeptSlot) -> Result<(), AllocError>
    ensures { OnOk result (repair.new ≡ repair_with_slot kept.now repair.old) }
{
    match repair {
        Some(repair) => repair.add_slot(kept),
        None => Ok(()),
    }
}
