ghost use Rattle.std.specs.Prelude.{◌≡◌, IfOk};
ghost use Rattle.tt_generations.specs.Replies.{replies_if};

use crate::row_ids::RowIds;
use std::alloc::AllocError;
use tt_pages::Kept;
use tt_values::{Action, Few, Items, Reply, RowId};

/// A slot: an action, and a reply to each of its writes that were carried out. Both are None where
/// the slot was cancelled.
#[derive(Debug, PartialEq, Drop)]
pub struct Slot {
    pub action: Option<Action>,
    pub replies: Option<Items<Reply>>,
}

impl Clone for Slot {
    ghost use Rattle.std.specs.Prelude.{◌≡◌};

    ghost is_clone = { λ source copy. copy ≡ source };

    #[inline(always)]
    fn clone(&self) -> Result<Self, AllocError> {
        let action = match &self.action {
            Some(action) => Some(action.clone()?),
            None => None,
        };
        let replies = match &self.replies {
            Some(replies) => Some(replies.clone()?),
            None => None,
        };
        Ok(Slot { action, replies })
    }
}

/// A slot with the rows that it touched, in the order of its writes. A row that was written twice
/// is there twice, and those of a whole action that wrote nothing are there too. A repair asks for
/// them, and needn't carry the slot out again to know them.
#[derive(Drop)]
pub(crate) struct KeptSlot {
    pub(crate) slot: Slot,
    pub(crate) rows: RowIds,
}

impl KeptSlot {
    /// A slot of this action, with the replies to its writes and the rows that they touched. A
    /// cancelled slot has no replies.
    pub(crate) fn new(
        action: Option<Action>,
        replies: &Items<Reply>,
        rows: Few<RowId>,
    ) -> Result<KeptSlot, AllocError>
        ensures action { IfOk result (λ kept. kept.slot.action ≡ action) }
        ensures replies { IfOk result
            (λ kept. kept.slot.replies ≡ replies_if action replies.now) }
        ensures rows { IfOk result (λ kept. kept.rows ≡ rows) }
    {
        let replies = match &action {
            Some(_) => Some(replies.clone()?),
            None => None,
        };
        let rows = RowIds::of(rows)?;
        Ok(KeptSlot {
            slot: Slot { action, replies },
            rows,
        })
    }
}

impl Kept for KeptSlot {
    #[inline(always)]
    fn kept(&self) -> Result<Self, AllocError> {
        let slot = self.slot.clone()?;
        let rows = self.rows.copy()?;
        Ok(KeptSlot { slot, rows })
    }
}
