//! A repair under way: its edits, how far it is, what is dirty, and the slots of the next
//! generation.
ghost use Rattle.std.specs.Prelude.{◌≡◌, ◌<◌, ◌≤◌, ◌+◌, [], ◌∷◌, ◌++◌, length, option_map, slice_set, not, IsTrue, IsFalse, IfOk, OnOk};
ghost use Rattle.std.specs.List.{All};
ghost use Rattle.std.specs.Option.{option_copied};
ghost use Rattle.tt_parts.specs.Dirty.{SameMembers, NumbersAgree, nothing_dirty, nothing_since};
ghost use Rattle.tt_repair_laws.specs.Edits.{slot_number};
ghost use Rattle.tt_causes.specs.Numbers.{GotDirtyAt};
ghost use Rattle.tt_generations.specs.Limits.{max_slots};
ghost use Rattle.tt_generations.specs.KeptSlots.{IsAccepted};
ghost use Rattle.tt_generations.specs.EditsByNumber.{HasEdits};
ghost use Rattle.tt_generations.specs.Reexecution.{ShowsFewBefore};
ghost use Rattle.tt_generations.specs.SlotCauses.{cause_told};
ghost use Rattle.tt_generations.specs.Repair.{HasKeysIfAny, kept_cause, is_kept_affected, is_kept_due, undue_front, next_replacement, replaced_by, next_action, as_action, MayRepeat, with_rows_shown, HasDoneDueSlot, ReexecutesSlot, DoesSlot};

use crate::affected::is_affected;
use crate::cause::Cause;
use crate::causes::cause_of_affected;
use crate::edits::{Replacement, replacements_of};
use crate::reexecution::Reexecution;
use crate::row_ids::are_same;
use crate::rows::Rows;
use crate::slot::KeptSlot;
use std::alloc::{AllocError, Global};
use tt_pages::{Kept, LogIter, PagedLog, PagedMap};
use tt_parts::Dirty;
use tt_repair_laws::Edit;
use tt_values::{Action, Catalog, Items, RowId, Shared, Write};
use tt_versions::Side;

/// A repair under way.
pub(crate) struct Repair {
    pub(crate) edits: Items<Edit>,
    /// By the numbers of their slots.
    pub(crate) replacements: PagedMap<Replacement>,
    /// How many slots are done.
    pub(crate) done: u64,
    /// The numbers of those of them that were due, counted from 1, rising.
    pub(crate) reexecuted: PagedLog<u64>,
    pub(crate) dirty: Dirty,
    /// The slots done as the next generation has them, and then the others of the current one.
    pub(crate) slots: PagedLog<KeptSlot>,
}

// Written out, so that each place that lets one go calls one function.
impl Drop for Repair {
    fn drop(self) {
        let Repair {
            edits: _,
            replacements: _,
            done: _,
            reexecuted: _,
            dirty: _,
            slots: _,
        } = self;
    }
}

impl Repair {
    /// A repair that has done nothing yet.
    pub(crate) fn new(
        alloc: Global,
        catalog: &Shared<Catalog>,
        edits: Items<Edit>,
        slots: &PagedLog<KeptSlot>,
    ) -> Result<Repair, AllocError>
        requires { All (λ e. slot_number e ≤ max_slots) edits }
        ensures edits { IfOk result (λ r. r.edits ≡ edits) }
        ensures replacements { IfOk result (λ r. HasEdits r.replacements edits) }
        ensures done { IfOk result (λ r. r.done ≡ 0) }
        ensures reexecuted { IfOk result (λ r. r.reexecuted ≡ []) }
        ensures catalog { IfOk result (λ r. r.dirty.catalog ≡ catalog.now) }
        ensures dirty { IfOk result (λ r. SameMembers r.dirty.dirty nothing_dirty) }
        ensures since { IfOk result (λ r. r.dirty.since ≡ nothing_since) }
        ensures slots { IfOk result (λ r. r.slots ≡ slots.now) }
    {
        let replacements = replacements_of(alloc, edits.as_slice())?;
        let catalog = catalog.clone()?;
        let slots = slots.share()?;
        Ok(Repair {
            edits,
            replacements,
            done: 0,
            reexecuted: PagedLog::new(alloc),
            dirty: Dirty::new(alloc, catalog.into_arc()),
            slots,
        })
    }

    /// Another owner of the same repair.
    pub(crate) fn share(&self) -> Result<Repair, AllocError>
        ensures { IfOk result (λ r. r ≡ self.now) }
    {
        let edits = self.edits.clone()?;
        let replacements = self.replacements.share()?;
        let reexecuted = self.reexecuted.share()?;
        let dirty = self.dirty.share()?;
        let slots = self.slots.share()?;
        Ok(Repair {
            edits,
            replacements,
            done: self.done,
            reexecuted,
            dirty,
            slots,
        })
    }

    /// The slots done as the next generation has them, and then the others of the current one.
    pub(crate) fn into_slots(self) -> PagedLog<KeptSlot>
        ensures { result ≡ self.slots }
    {
        let Repair {
            edits: _,
            replacements: _,
            done: _,
            reexecuted: _,
            dirty: _,
            slots,
        } = self;
        slots
    }

    /// Adds a slot, which is added to the current generation too.
    pub(crate) fn add_slot(&mut self, kept: &KeptSlot) -> Result<(), AllocError>
        ensures { OnOk result
            (self.new ≡ record self.old { slots = self.old.slots ++ kept.now ∷ [] }) }
    {
        let kept = kept.kept()?;
        self.slots.push(kept)?;
        Ok(())
    }

    /// Whether the next slot, which is this one in the current generation, is due.
    pub(crate) fn is_due(&self, kept: &KeptSlot) -> bool
        requires room { self.now.done < max_slots }
        requires keyed { HasKeysIfAny kept.now.slot.action }
        ensures { result ≡ is_kept_due self.now kept.now }
    {
        self.next_replacement().is_some() || self.is_affected(kept)
    }

    /// Whether what is dirty may affect a slot.
    fn is_affected(&self, kept: &KeptSlot) -> bool
        requires { HasKeysIfAny kept.now.slot.action }
        ensures { result ≡ is_kept_affected self.now.dirty kept.now.rows kept.now.slot.action }
    {
        match &kept.slot.action {
            Some(action) => {
                is_affected(&self.dirty, kept.rows.as_slice(), action.writes.as_slice())
            }
            None => false,
        }
    }

    /// The replacement of the next slot, if it has an edit.
    fn next_replacement(&self) -> Option<&Replacement>
        requires { self.now.done < max_slots }
        ensures { option_copied result ≡ next_replacement self.now }
    {
        let number = self.done + 1;
        self.replacements.get(number as i64)
    }

    /// The action of the next slot, which is this one in the current generation, as the repair has
    /// it: none where it is cancelled.
    fn next_action(&self, kept: &KeptSlot) -> Result<Option<Action>, AllocError>
        requires { self.now.done < max_slots }
        ensures { IfOk result (λ action. action ≡ next_action self.now kept.now) }
    {
        replaced_action(self.next_replacement(), kept)
    }

    /// Why the repair re-executed the slot of a number, counted from 1, which is this one in the
    /// current generation. None where it didn't.
    pub(crate) fn cause<'a>(&self, number: u64, kept: &'a KeptSlot) -> Option<Cause<'a>>
        requires counted { 0 < number }
        requires room { number ≤ max_slots }
        requires keyed { HasKeysIfAny kept.now.slot.action }
        ensures { option_map cause_told result ≡ kept_cause self.now number kept.entry.now }
    {
        if self.replacements.get(number as i64).is_some() {
            return Some(Cause::Edited);
        }
        let (rows, writes) = (kept.rows.as_slice(), writes_of(&kept.slot.action));
        cause_of_affected(&self.dirty, rows, writes, number - 1)
    }

    /// Does the next slot, which is this one in the current generation, if it isn't due. Returns
    /// whether it is so.
    fn pass(&mut self, kept: &KeptSlot) -> bool
        requires room { self.old.done < max_slots }
        requires keyed { HasKeysIfAny kept.now.slot.action }
        ensures undue { result ≡ not (is_kept_due self.old kept.now) }
        ensures done { IsTrue result → self.new ≡ record self.old { done = self.old.done + 1 } }
        ensures stays { IsFalse result → self.new ≡ self.old }
    {
        if self.is_due(kept) {
            return false;
        }
        self.done += 1;
        true
    }

    /// Does the next slots, of which these are the ones in the current generation: up to the first
    /// that is due, but at most `most`. Returns how many.
    pub(crate) fn pass_over(&mut self, slots: LogIter<'_, KeptSlot>, most: u64) -> u64
        requires room { self.old.done + length slots ≤ max_slots }
        requires keyed { All (λ k. HasKeysIfAny k.slot.action) slots }
        ensures count { result ≡ undue_front most self.old slots.entry }
        ensures done { self.new ≡ record self.old { done = self.old.done + result } }
    {
        let mut slots = slots;
        for passed in 0..most {
            let Some(kept) = slots.next() else {
                return passed;
            };
            if !self.pass(kept) {
                return passed;
            }
        }
        most
    }

    /// Does the next slot, which is this one in the current generation. Returns whether it was
    /// due. Without memory nothing is promised of the repair and the rows.
    pub(crate) fn step(
        &mut self,
        alloc: Global,
        catalog: &Catalog,
        rows: &mut Rows,
        kept: &KeptSlot,
    ) -> Result<bool, AllocError>
        requires room { self.old.done < max_slots }
        requires there { self.old.done < length self.old.slots }
        requires catalog { self.old.dirty.catalog ≡ catalog.now }
        requires numbers { NumbersAgree self.old.dirty.dirty self.old.dirty.since }
        requires keyed { HasKeysIfAny kept.now.slot.action }
        requires touched { All (λ r. r.table < length catalog.now) kept.now.rows }
        requires accepted { IsAccepted catalog.now (next_action self.old kept.now) }
        requires few { ShowsFewBefore rows.old (self.old.done + 1) kept.now.rows }
        ensures due { IfOk result (λ due. due ≡ is_kept_due self.old kept.now) }
        ensures step { IfOk result (λ due.
            DoesSlot self.old kept.now rows.old due self.new rows.new) }
    {
        let replacement = self.next_replacement();
        let is_due = replacement.is_some() || self.is_affected(kept);
        if !is_due {
            self.done += 1;
            return Ok(false);
        }
        let action = replaced_action(replacement, kept)?;
        self.reexecute_as(action, alloc, catalog, rows, kept)?;
        Ok(true)
    }

    /// Re-executes the next slot, which is this one in the current generation. Without memory
    /// nothing is promised of the repair and the rows.
    pub(crate) fn reexecute(
        &mut self,
        alloc: Global,
        catalog: &Catalog,
        rows: &mut Rows,
        kept: &KeptSlot,
    ) -> Result<(), AllocError>
        requires room { self.old.done < max_slots }
        requires there { self.old.done < length self.old.slots }
        requires catalog { self.old.dirty.catalog ≡ catalog.now }
        requires numbers { NumbersAgree self.old.dirty.dirty self.old.dirty.since }
        requires touched { All (λ r. r.table < length catalog.now) kept.now.rows }
        requires accepted { IsAccepted catalog.now (next_action self.old kept.now) }
        requires few { ShowsFewBefore rows.old (self.old.done + 1) kept.now.rows }
        ensures done { OnOk result (HasDoneDueSlot self.old self.new) }
        ensures rows { OnOk result
            (ReexecutesSlot self.old kept.now rows.old self.new rows.new) }
    {
        let action = self.next_action(kept)?;
        self.reexecute_as(action, alloc, catalog, rows, kept)
    }

    /// As [`Repair::reexecute`], with the action that the repair gives the slot.
    fn reexecute_as(
        &mut self,
        action: Option<Action>,
        alloc: Global,
        catalog: &Catalog,
        rows: &mut Rows,
        kept: &KeptSlot,
    ) -> Result<(), AllocError>
        requires room { self.old.done < max_slots }
        requires there { self.old.done < length self.old.slots }
        requires catalog { self.old.dirty.catalog ≡ catalog.now }
        requires numbers { NumbersAgree self.old.dirty.dirty self.old.dirty.since }
        requires action { action ≡ next_action self.old kept.now }
        requires touched { All (λ r. r.table < length catalog.now) kept.now.rows }
        requires accepted { IsAccepted catalog.now (next_action self.old kept.now) }
        requires few { ShowsFewBefore rows.old (self.old.done + 1) kept.now.rows }
        ensures done { OnOk result (HasDoneDueSlot self.old self.new) }
        ensures rows { OnOk result
            (ReexecutesSlot self.old kept.now rows.old self.new rows.new) }
    {
        // For the proof: each catalog is sound.
        let _ = catalog.len();
        let time = self.done + 1;
        let (writes, whole) = (writes_of(&action), is_whole(&action));
        let touched = kept.rows.as_slice();
        let run = Reexecution::of_slot(alloc, catalog, rows, touched, writes, whole, time)?;
        add_rows_shown(&mut self.dirty, rows, &run.reexecuted, time)?;
        let slot = run.into_slot(action)?;
        self.put_slot(slot)?;
        Ok(())
    }

    /// Puts the next slot as it was re-executed.
    fn put_slot(&mut self, kept: KeptSlot) -> Result<(), AllocError>
        requires room { self.old.done < max_slots }
        requires there { self.old.done < length self.old.slots }
        ensures { OnOk result (self.new ≡ record self.old {
          done = self.old.done + 1;
          reexecuted = self.old.reexecuted ++ (self.old.done + 1) ∷ [];
          slots = slice_set self.old.slots self.old.done kept;
        }) }
    {
        self.slots.replace(self.done as usize, kept)?;
        self.done += 1;
        self.reexecuted.push(self.done)?;
        Ok(())
    }
}

/// A copy of the action of a slot, unless it is replaced.
fn replaced_action(
    replacement: Option<&Replacement>,
    kept: &KeptSlot,
) -> Result<Option<Action>, AllocError>
    ensures { IfOk result
        (λ a. a ≡ replaced_by (option_copied replacement.entry) kept.now.slot.action) }
{
    match replacement {
        Some(replacement) => copy_of(&replacement.action),
        None => copy_of(&kept.slot.action),
    }
}

/// A copy of an action, if there is one.
fn copy_of(action: &Option<Action>) -> Result<Option<Action>, AllocError>
    ensures { IfOk result (λ copy. copy ≡ action.now) }
{
    match action {
        Some(action) => {
            let action = action.clone()?;
            Ok(Some(action))
        }
        None => Ok(None),
    }
}

/// The writes of a slot. A cancelled one has none.
fn writes_of(action: &Option<Action>) -> &[Write]
    ensures { result.now ≡ (as_action action.now).writes }
{
    match action {
        Some(action) => action.writes.as_slice(),
        None => &[],
    }
}

/// Whether a slot has a whole action.
fn is_whole(action: &Option<Action>) -> bool
    ensures { result ≡ (as_action action.now).whole }
{
    match action {
        Some(action) => action.whole,
        None => false,
    }
}

/// Makes the rows dirty that were re-executed at a time, by what the tables show on the next side
/// just before it and at it. The time is the number that they get dirty with.
fn add_rows_shown(
    dirty: &mut Dirty,
    rows: &Rows,
    reexecuted: &[RowId],
    time: u64,
) -> Result<(), AllocError>
    requires room { 0 < time }
    requires tables { All (λ r. r.table < length dirty.old.catalog) reexecuted.now }
    requires numbers { NumbersAgree dirty.old.dirty dirty.old.since }
    ensures catalog { OnOk result (dirty.new.catalog ≡ dirty.old.catalog) }
    ensures dirty { OnOk result
        (SameMembers dirty.new.dirty (with_rows_shown dirty.old rows.now reexecuted.now time)) }
    ensures since { OnOk result
        (GotDirtyAt dirty.old.since time dirty.new.dirty dirty.new.since) }
{
    add_each_row_shown(dirty, rows, without_repeat(reexecuted), time)?;
    Ok(())
}

/// The first half of the rows, where the second half repeats it, else all of them. The writes of a
/// slot mostly match the rows that it touched before.
fn without_repeat(rows: &[RowId]) -> &[RowId]
    ensures { MayRepeat result.now rows.now }
{
    let (first, second) = rows.split_at(rows.len() / 2);
    if are_same(first, second) { first } else { rows }
}

/// Makes each of the rows dirty, one after another.
fn add_each_row_shown(
    dirty: &mut Dirty,
    rows: &Rows,
    reexecuted: &[RowId],
    time: u64,
) -> Result<(), AllocError>
    requires room { 0 < time }
    requires tables { All (λ r. r.table < length dirty.old.catalog) reexecuted.now }
    requires numbers { NumbersAgree dirty.old.dirty dirty.old.since }
    ensures catalog { OnOk result (dirty.new.catalog ≡ dirty.old.catalog) }
    ensures dirty { OnOk result
        (SameMembers dirty.new.dirty (with_rows_shown dirty.old rows.now reexecuted.now time)) }
    ensures since { OnOk result
        (GotDirtyAt dirty.old.since time dirty.new.dirty dirty.new.since) }
{
    for row in reexecuted {
        let table = rows.table(row.table);
        let (before, after) = table.around(row.key, time, Side::Next);
        dirty.add_row(row.table, row.key, time, before, after)?;
    }
    Ok(())
}
