//! How an action is carried out on the current side, write by write.
ghost use Rattle.std.specs.Prelude.{◌≡◌, ◌≤◌, ◌+◌, ◌&&◌, nat_lt, [], ◌∷◌, length, Some, IfOk, OnOk};
ghost use Rattle.std.specs.List.{All};
ghost use Rattle.tt_values.specs.Check.{HasKey};
ghost use Rattle.tt_values.specs.Limits.{max_writes};
ghost use Rattle.tt_values.specs.Action.{action_of, whole_of};
ghost use Rattle.tt_generations.specs.Rows.{HasFewRows, AddsOneRowAtMost, KeepsSplitRows};
ghost use Rattle.tt_generations.specs.ActionRun.{run_on, CarriesOut, TellsEffect, TriesWrites, CarriesOutAction, most_rows};

use crate::effect::{add_rows, effect_of, reply_to};
use crate::rows::Rows;
use crate::slot::KeptSlot;
use std::alloc::{AllocError, Global};
use tt_values::{Action, Catalog, Few, Items, Reply, RowId, Write};
use tt_versions::Side;

/// An action under way: the replies to its writes so far, and the rows that they touched.
#[derive(Drop)]
pub(crate) struct ActionRun {
    pub(crate) replies: Few<Reply>,
    pub(crate) rows_touched: Few<RowId>,
}

impl ActionRun {
    /// Carries out an action on rows, at a time. Without memory nothing is promised of the rows.
    pub(crate) fn of_action(
        alloc: Global,
        catalog: &Catalog,
        rows: &mut Rows,
        action: &Action,
        time: u64,
    ) -> Result<ActionRun, AllocError>
        requires keyed { All HasKey action.now.writes }
        requires short { length action.now.writes ≤ max_writes }
        requires few { HasFewRows rows.old Side.Current time most_rows }
        ensures current { IfOk result
            (λ run. CarriesOutAction time action.now rows.old (run_on rows.new run)) }
        ensures split { OnOk result (KeepsSplitRows rows.old rows.new) }
    {
        let writes = action.writes.as_slice();
        if may_give_up(action.whole, writes) {
            ActionRun::of_whole(alloc, catalog, rows, writes, time)
        } else {
            ActionRun::of_writes(alloc, catalog, rows, writes, time)
        }
    }

    /// Carries out writes, all of them.
    fn of_writes(
        alloc: Global,
        catalog: &Catalog,
        rows: &mut Rows,
        writes: &[Write],
        time: u64,
    ) -> Result<ActionRun, AllocError>
        requires keyed { All HasKey writes.now }
        requires short { length writes.now ≤ max_writes }
        requires few { HasFewRows rows.old Side.Current time most_rows }
        ensures current { IfOk result
            (λ run. CarriesOutAction time (action_of writes.now) rows.old (run_on rows.new run)) }
        ensures split { OnOk result (KeepsSplitRows rows.old rows.new) }
    {
        let mut run = ActionRun::new(alloc, writes.len())?;
        for write in writes {
            run.carry_out(alloc, catalog, rows, write, time)?;
        }
        Ok(run)
    }

    /// Carries out the writes of a whole action: where one of them has no effect, the rows are
    /// those before the action.
    fn of_whole(
        alloc: Global,
        catalog: &Catalog,
        rows: &mut Rows,
        writes: &[Write],
        time: u64,
    ) -> Result<ActionRun, AllocError>
        requires keyed { All HasKey writes.now }
        requires short { length writes.now ≤ max_writes }
        requires few { HasFewRows rows.old Side.Current time most_rows }
        ensures current { IfOk result
            (λ run. CarriesOutAction time (whole_of writes.now) rows.old (run_on rows.new run)) }
        ensures split { OnOk result (KeepsSplitRows rows.old rows.new) }
    {
        let before = rows.share()?;
        let mut run = ActionRun::new(alloc, writes.len())?;
        if !run.try_writes(alloc, catalog, rows, writes, time)? {
            *rows = before;
        }
        Ok(run)
    }

    /// An action, before the first of its writes.
    fn new(alloc: Global, writes: usize) -> Result<ActionRun, AllocError>
        ensures replies { IfOk result (λ run. run.replies ≡ []) }
        ensures rows_touched { IfOk result (λ run. run.rows_touched ≡ []) }
    {
        let mut replies = Few::new(alloc);
        replies.reserve(writes)?;
        Ok(ActionRun {
            replies,
            rows_touched: Few::new(alloc),
        })
    }

    /// Carries out further writes up to the first without an effect. Returns whether each has one.
    fn try_writes(
        &mut self,
        alloc: Global,
        catalog: &Catalog,
        rows: &mut Rows,
        writes: &[Write],
        time: u64,
    ) -> Result<bool, AllocError>
        requires keyed { All HasKey writes.now }
        requires short { length writes.now ≤ max_writes }
        requires few { HasFewRows rows.old Side.Current time most_rows }
        ensures tried { IfOk result (λ all.
            TriesWrites time writes.now (run_on rows.old self.old) (run_on rows.new self.new) all) }
        ensures split { OnOk result (KeepsSplitRows rows.old rows.new) }
    {
        for write in writes {
            if !self.carry_out(alloc, catalog, rows, write, time)? {
                return Ok(false);
            }
        }
        Ok(true)
    }

    /// Carries out one more write. Returns whether it has an effect.
    fn carry_out(
        &mut self,
        alloc: Global,
        catalog: &Catalog,
        rows: &mut Rows,
        write: &Write,
        time: u64,
    ) -> Result<bool, AllocError>
        requires keyed { HasKey write.now }
        requires few { HasFewRows rows.old Side.Current time (most_rows + max_writes) }
        ensures effect { IfOk result (λ has_one. TellsEffect time write.now rows.old has_one) }
        ensures current { OnOk result (CarriesOut time (write.now ∷ [])
            (run_on rows.old self.old) (run_on rows.new self.new)) }
        ensures few { OnOk result (AddsOneRowAtMost time rows.old rows.new) }
        ensures split { OnOk result (KeepsSplitRows rows.old rows.new) }
    {
        let table = write.table();
        let effect = effect_of(alloc, rows.table(table), write, time, Side::Current)?;
        self.replies.push(reply_to(write, effect.as_slice()))?;
        add_rows(&mut self.rows_touched, table, effect.as_slice())?;
        let has_effect = !effect.as_slice().is_empty();
        rows.write(catalog, table, effect, time)?;
        Ok(has_effect)
    }

    /// The slot of this action, once all its writes are carried out, and their replies.
    pub(crate) fn into_slot(self, action: Action) -> Result<(KeptSlot, Items<Reply>), AllocError>
        ensures action { IfOk result (λ r. r.0.slot.action ≡ Some action) }
        ensures kept_replies { IfOk result (λ r. r.0.slot.replies ≡ Some self.replies) }
        ensures rows_touched { IfOk result (λ r. r.0.rows ≡ self.rows_touched) }
        ensures replies { IfOk result (λ r. r.1 ≡ self.replies) }
    {
        let replies = self.replies.into_items()?;
        let kept = KeptSlot::new(Some(action), &replies, self.rows_touched)?;
        Ok((kept, replies))
    }
}

/// Whether an action may have to give up what its first writes wrote: it is whole, and has several
/// writes. A single one writes nothing where it has no effect.
pub(crate) fn may_give_up(whole: bool, writes: &[Write]) -> bool
    ensures { result ≡ (whole && nat_lt 1 (length writes.now)) }
{
    whole && writes.len() > 1
}
