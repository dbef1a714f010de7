//! How a slot is re-executed on the next side.
ghost use Rattle.std.specs.Prelude.{◌≡◌, ◌≤◌, ◌+◌, [], ◌∷◌, length, IfOk, OnOk};
ghost use Rattle.std.specs.List.{All};
ghost use Rattle.tt_values.specs.Check.{HasKey};
ghost use Rattle.tt_values.specs.Limits.{max_writes};
ghost use Rattle.tt_values.specs.Action.{action_of, whole_of};
ghost use Rattle.tt_generations.specs.Rows.{HasFewRows, AreSplit, SplitsRows};
ghost use Rattle.tt_generations.specs.ActionRun.{most_rows};
ghost use Rattle.tt_generations.specs.Effect.{matched_rows};
ghost use Rattle.tt_generations.specs.Replies.{replies_if};
ghost use Rattle.tt_generations.specs.Reexecution.{reexecution_on, ReexecutesWrites, TellsNextEffect, TriesNextWrites, ReexecutesAction, Reexecutes, ShowsFewBefore, IsUnderWayWithFew, SplitsForRun};

use crate::action_run::may_give_up;
use crate::effect::{add_rows, effect_of, matched_rows, reply_to};
use crate::row_ids::are_same;
use crate::rows::Rows;
use crate::slot::KeptSlot;
use std::alloc::{AllocError, Global};
use tt_values::{Action, Catalog, Few, Reply, Row, RowId, Write};
use tt_versions::Side;

/// A slot under re-execution: the replies to its writes so far, the rows that these touched, and
/// those that were re-executed.
#[derive(Drop)]
pub(crate) struct Reexecution {
    pub(crate) replies: Few<Reply>,
    pub(crate) rows_touched: Few<RowId>,
    pub(crate) reexecuted: Vec<RowId>,
}

impl Reexecution {
    /// Re-executes a slot that touched these rows, now with these writes, as a whole action or not.
    /// The rows are rolled back to before the slot's time, and so are those that the writes match.
    /// Without memory nothing is promised of the rows.
    pub(crate) fn of_slot(
        alloc: Global,
        catalog: &Catalog,
        rows: &mut Rows,
        touched: &[RowId],
        writes: &[Write],
        whole: bool,
        time: u64,
    ) -> Result<Reexecution, AllocError>
        requires keyed { All HasKey writes.now }
        requires short { length writes.now ≤ max_writes }
        requires few { ShowsFewBefore rows.old time touched.now }
        ensures { IfOk result (λ run.
            Reexecutes time touched.now (record { writes = writes.now; whole = whole })
            rows.old (reexecution_on rows.new run)) }
    {
        let mut run = Reexecution::new(alloc, writes.len())?;
        run.split_rows(catalog, rows, touched, time)?;
        if may_give_up(whole, writes) {
            run.carry_out_whole(alloc, catalog, rows, writes, time)?;
        } else {
            run.carry_out_all(alloc, catalog, rows, writes, time)?;
        }
        Ok(run)
    }

    /// A slot, before its rows are rolled back.
    fn new(alloc: Global, writes: usize) -> Result<Reexecution, AllocError>
        ensures replies { IfOk result (λ run. run.replies ≡ []) }
        ensures rows_touched { IfOk result (λ run. run.rows_touched ≡ []) }
        ensures reexecuted { IfOk result (λ run. run.reexecuted.items ≡ []) }
    {
        let mut replies = Few::new(alloc);
        replies.reserve(writes)?;
        Ok(Reexecution {
            replies,
            rows_touched: Few::new(alloc),
            reexecuted: Vec::new(alloc),
        })
    }

    /// Carries out writes, all of them.
    fn carry_out_all(
        &mut self,
        alloc: Global,
        catalog: &Catalog,
        rows: &mut Rows,
        writes: &[Write],
        time: u64,
    ) -> Result<(), AllocError>
        requires keyed { All HasKey writes.now }
        requires short { length writes.now ≤ max_writes }
        requires few { IsUnderWayWithFew time (reexecution_on rows.old self.old) most_rows }
        ensures { OnOk result (ReexecutesAction time (action_of writes.now)
            (reexecution_on rows.old self.old) (reexecution_on rows.new self.new)) }
    {
        for write in writes {
            self.carry_out(alloc, catalog, rows, write, time)?;
        }
        Ok(())
    }

    /// Carries out the writes of a whole action: where one of them has no effect, the rows are
    /// those before it, but those that the writes match are rolled back all the same.
    fn carry_out_whole(
        &mut self,
        alloc: Global,
        catalog: &Catalog,
        rows: &mut Rows,
        writes: &[Write],
        time: u64,
    ) -> Result<(), AllocError>
        requires keyed { All HasKey writes.now }
        requires short { length writes.now ≤ max_writes }
        requires few { IsUnderWayWithFew time (reexecution_on rows.old self.old) most_rows }
        ensures { OnOk result (ReexecutesAction time (whole_of writes.now)
            (reexecution_on rows.old self.old) (reexecution_on rows.new self.new)) }
    {
        let before = rows.share()?;
        if !self.try_writes(alloc, catalog, rows, writes, time)? {
            self.go_back(catalog, rows, before, time)?;
        }
        Ok(())
    }

    /// Carries out writes up to the first without an effect. Returns whether each has one.
    fn try_writes(
        &mut self,
        alloc: Global,
        catalog: &Catalog,
        rows: &mut Rows,
        writes: &[Write],
        time: u64,
    ) -> Result<bool, AllocError>
        requires keyed { All HasKey writes.now }
        requires short { length writes.now ≤ max_writes }
        requires few { IsUnderWayWithFew time (reexecution_on rows.old self.old) most_rows }
        ensures { IfOk result (λ all. TriesNextWrites time writes.now
            (reexecution_on rows.old self.old) (reexecution_on rows.new self.new) all) }
    {
        for write in writes {
            if !self.carry_out(alloc, catalog, rows, write, time)? {
                return Ok(false);
            }
        }
        Ok(true)
    }

    /// The rows are these again, with all rows rolled back that were re-executed.
    fn go_back(
        &self,
        catalog: &Catalog,
        rows: &mut Rows,
        before: Rows,
        time: u64,
    ) -> Result<(), AllocError>
        ensures { OnOk result (SplitsRows before rows.new self.now.reexecuted.items time) }
    {
        *rows = before;
        rows.split_rows(catalog, &self.reexecuted, time)?;
        Ok(())
    }

    /// Carries out one more write. Returns whether it has an effect.
    fn carry_out(
        &mut self,
        alloc: Global,
        catalog: &Catalog,
        rows: &mut Rows,
        write: &Write,
        time: u64,
    ) -> Result<bool, AllocError>
        requires keyed { HasKey write.now }
        requires few { HasFewRows rows.old Side.Next time (most_rows + max_writes) }
        requires split { AreSplit rows.old self.old.reexecuted.items }
        ensures effect { IfOk result (λ has_one.
            TellsNextEffect time write.now (reexecution_on rows.old self.old) has_one) }
        ensures writes { OnOk result (ReexecutesWrites time (write.now ∷ [])
            (reexecution_on rows.old self.old) (reexecution_on rows.new self.new)) }
    {
        let table = write.table();
        let effect = effect_of(alloc, rows.table(table), write, time, Side::Next)?;
        self.split_matched(alloc, catalog, rows, write, effect.as_slice(), time)?;
        self.replies.push(reply_to(write, effect.as_slice()))?;
        add_rows(&mut self.rows_touched, table, effect.as_slice())?;
        let has_effect = !effect.as_slice().is_empty();
        rows.write_next(catalog, table, effect, time)?;
        Ok(has_effect)
    }

    /// Rolls back the rows that a write with that effect matches.
    fn split_matched(
        &mut self,
        alloc: Global,
        catalog: &Catalog,
        rows: &mut Rows,
        write: &Write,
        effect: &[(i64, Option<Row>)],
        time: u64,
    ) -> Result<(), AllocError>
        requires keyed { HasKey write.now }
        requires split { AreSplit rows.old self.old.reexecuted.items }
        ensures { OnOk result (SplitsForRun
            (reexecution_on rows.old self.old) (reexecution_on rows.new self.new)
            (matched_rows write.now effect.now) time) }
    {
        let matched = matched_rows(alloc, write, effect)?;
        self.split_rows(catalog, rows, matched.as_slice(), time)?;
        Ok(())
    }

    /// Rolls back further rows. A slot of one write mostly matches the rows that it touched before,
    /// which are split already.
    fn split_rows(
        &mut self,
        catalog: &Catalog,
        rows: &mut Rows,
        further: &[RowId],
        time: u64,
    ) -> Result<(), AllocError>
        requires { AreSplit rows.old self.old.reexecuted.items }
        ensures { OnOk result (SplitsForRun
            (reexecution_on rows.old self.old) (reexecution_on rows.new self.new)
            further.now time) }
    {
        let are_split = are_same(further, &self.reexecuted);
        self.reexecuted.extend_from_slice(further)?;
        if !are_split {
            rows.split_rows(catalog, further, time)?;
        }
        Ok(())
    }

    /// The slot, now with this action, once all its writes are carried out.
    pub(crate) fn into_slot(self, action: Option<Action>) -> Result<KeptSlot, AllocError>
        ensures action { IfOk result (λ kept. kept.slot.action ≡ action) }
        ensures replies { IfOk result
            (λ kept. kept.slot.replies ≡ replies_if action self.replies) }
        ensures rows_touched { IfOk result (λ kept. kept.rows ≡ self.rows_touched) }
    {
        let replies = self.replies.into_items()?;
        let kept = KeptSlot::new(action, &replies, self.rows_touched)?;
        Ok(kept)
    }
}
