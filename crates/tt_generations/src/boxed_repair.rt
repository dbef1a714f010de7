ghost use Rattle.std.specs.Prelude.{◌≡◌, ◌<◌, ◌≤◌, ◌+◌, ◌∷◌, [], ◌++◌, length, IfOk, OnOk};
ghost use Rattle.std.specs.List.{All};
ghost use Rattle.tt_parts.specs.Dirty.{NumbersAgree};
ghost use Rattle.tt_generations.specs.Limits.{max_slots};
ghost use Rattle.tt_generations.specs.KeptSlots.{IsAccepted};
ghost use Rattle.tt_generations.specs.Reexecution.{ShowsFewBefore};
ghost use Rattle.tt_generations.specs.Repair.{HasKeysIfAny, is_kept_due, undue_front, next_action, HasDoneDueSlot, ReexecutesSlot, DoesSlot};

use crate::repair::Repair;
use crate::rows::Rows;
use crate::slot::KeptSlot;
use std::alloc::{AllocError, Global};
use std::marker::Model;
use std::ops::Deref;
use tt_pages::LogIter;
use tt_values::Catalog;

/// A repair in a block of its own: without one, generations are small to move. Contracts see the
/// repair.
pub(crate) struct BoxedRepair {
    repair: Box<Repair>,
}

// Written out, so that each place that lets one go calls one function.
impl Drop for BoxedRepair {
    fn drop(self) {
        let BoxedRepair { repair: _ } = self;
    }
}

impl Model for BoxedRepair {
    ghost use Rattle.tt_generations.specs.declared.repair.Repair.{Repair as UnboxedRepair};

    ghost Value = { UnboxedRepair };

    ghost view = { λ b. b.repair.value };
}

impl BoxedRepair {
    pub(crate) fn new(alloc: Global, repair: Repair) -> Result<BoxedRepair, AllocError>
        ensures { IfOk result (λ b. b ≡ repair) }
    {
        let repair = Box::new(alloc, repair)?;
        Ok(BoxedRepair { repair })
    }

    /// Another owner of the same repair.
    pub(crate) fn share(&self, alloc: Global) -> Result<BoxedRepair, AllocError>
        ensures { IfOk result (λ b. b ≡ self.now) }
    {
        BoxedRepair::new(alloc, self.repair.share()?)
    }

    pub(crate) fn into_inner(self) -> Repair
        ensures { result ≡ self }
    {
        let BoxedRepair { repair } = self;
        Box::into_inner(repair)
    }

    /// As [`Repair::add_slot`].
    pub(crate) fn add_slot(&mut self, kept: &KeptSlot) -> Result<(), AllocError>
        ensures { OnOk result
            (self.new ≡ record self.old { slots = self.old.slots ++ kept.now ∷ [] }) }
    {
        self.repair.add_slot(kept)
    }

    /// As [`Repair::pass_over`].
    pub(crate) fn pass_over(&mut self, slots: LogIter<'_, KeptSlot>, most: u64) -> u64
        requires room { self.old.done + length slots ≤ max_slots }
        requires keyed { All (λ k. HasKeysIfAny k.slot.action) slots }
        ensures count { result ≡ undue_front most self.old slots.entry }
        ensures done { self.new ≡ record self.old { done = self.old.done + result } }
    {
        self.repair.pass_over(slots, most)
    }

    /// As [`Repair::step`].
    pub(crate) fn step(
        &mut self,
        alloc: Global,
        catalog: &Catalog,
        rows: &mut Rows,
        kept: &KeptSlot,
    ) -> Result<bool, AllocError>
        requires room { self.old.done < max_slots }
        requires there { self.old.done < length self.old.slots }
        requires catalog { self.old.dirty.catalog ≡ catalog.now }
        requires numbers { NumbersAgree self.old.dirty.dirty self.old.dirty.since }
        requires keyed { HasKeysIfAny kept.now.slot.action }
        requires touched { All (λ r. r.table < length catalog.now) kept.now.rows }
        requires accepted { IsAccepted catalog.now (next_action self.old kept.now) }
        requires few { ShowsFewBefore rows.old (self.old.done + 1) kept.now.rows }
        ensures due { IfOk result (λ due. due ≡ is_kept_due self.old kept.now) }
        ensures step { IfOk result (λ due.
            DoesSlot self.old kept.now rows.old due self.new rows.new) }
    {
        self.repair.step(alloc, catalog, rows, kept)
    }

    /// As [`Repair::reexecute`].
    pub(crate) fn reexecute(
        &mut self,
        alloc: Global,
        catalog: &Catalog,
        rows: &mut Rows,
        kept: &KeptSlot,
    ) -> Result<(), AllocError>
        requires room { self.old.done < max_slots }
        requires there { self.old.done < length self.old.slots }
        requires catalog { self.old.dirty.catalog ≡ catalog.now }
        requires numbers { NumbersAgree self.old.dirty.dirty self.old.dirty.since }
        requires touched { All (λ r. r.table < length catalog.now) kept.now.rows }
        requires accepted { IsAccepted catalog.now (next_action self.old kept.now) }
        requires few { ShowsFewBefore rows.old (self.old.done + 1) kept.now.rows }
        ensures done { OnOk result (HasDoneDueSlot self.old self.new) }
        ensures rows { OnOk result
            (ReexecutesSlot self.old kept.now rows.old self.new rows.new) }
    {
        self.repair.reexecute(alloc, catalog, rows, kept)
    }
}

impl Deref for BoxedRepair {
    type Target = Repair;

    ghost deref_gives = { λ b repair. repair ≡ b };

    fn deref(&self) -> &Repair
        ensures { result.now ≡ self.now }
    {
        &self.repair
    }
}
