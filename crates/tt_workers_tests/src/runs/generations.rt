//! The slots of a history carried out from nothing, one after another, both as they were written
//! and as edited, and the slots that the repair has to re-execute.
use super::history::History;
use std::alloc::Global;
use std::process::Abort;
use tt_db::Edit;
use tt_repair::{After, Changed, What};
use tt_shared_tests::{Dirty, Effect, Rows};
use tt_values::{Action, Catalog, Items, Reply, Select};

/// Both generations after as many slots.
#[derive(Drop)]
pub(super) struct Generations {
    /// The rows of the slots as they were written, and the replies of the last of them.
    old: Rows,
    old_replies: Items<Reply>,
    /// The rows of the slots as edited, and the replies of the last of them, unless it is cancelled.
    new: Rows,
    new_replies: Option<Items<Reply>>,
    dirty: Dirty,
    /// How many slots were re-executed.
    pub(super) rerun: u64,
}

/// The action of a slot as edited; none where it is cancelled.
fn edited<'a>(action: &'a Action, edit: Option<&'a Edit>) -> Option<&'a Action> {
    match edit {
        Some(Edit::Cancel(_)) => None,
        Some(Edit::Replace(_, by)) => Some(by),
        None => Some(action),
    }
}

impl Generations {
    /// Both generations before the first slot.
    pub(super) fn new(rt: &impl Abort, alloc: Global) -> Generations {
        Generations {
            old: Rows::new(alloc),
            old_replies: Items::of(alloc, []).expect(rt, "memory"),
            new: Rows::new(alloc),
            new_replies: None,
            dirty: Dirty::new(alloc),
            rerun: 0,
        }
    }

    /// Carries out a slot in both, and says whether the repair re-executes it.
    pub(super) fn carry_out(
        &mut self,
        rt: &impl Abort,
        alloc: Global,
        catalog: &Catalog,
        history: &History<'_>,
        slot: u64,
    ) -> bool {
        let position = slot.saturating_sub(1) as usize;
        let action = *history.actions.get(position).expect(rt, "an action");
        let edit = history.edit(slot);
        let old = self.old.carry_out(alloc, action).expect(rt, "memory");
        let is_repaired = slot <= history.switch.slots;
        let is_due = is_repaired
            && (edit.is_some() || self.dirty.affects(catalog, action.writes.as_slice(), &old));
        let action = edited(action, edit);
        let before = if is_due {
            self.new.copy(alloc).expect(rt, "memory")
        } else {
            Rows::new(alloc)
        };
        let new = match action {
            Some(action) => self.new.carry_out(alloc, action),
            None => Effect::none(alloc),
        };
        let new = new.expect(rt, "memory");
        if is_due {
            self.rerun = self.rerun.saturating_add(1);
            let added = self.dirty.add(catalog, (&old, &new), (&before, &self.new));
            added.expect(rt, "memory");
        }
        self.old_replies = replies_of(old);
        self.new_replies = match action {
            Some(_) => Some(replies_of(new)),
            None => None,
        };
        is_due
    }

    /// Whether an answer has the rows or the replies of this time, in the generation that was
    /// current when it was given; a preview has those of the edited slots.
    pub(super) fn has_told(&self, is_switched: bool, select: Option<&Select>, what: &What) -> bool {
        let rows = if is_switched { &self.new } else { &self.old };
        match (what, select) {
            (What::Write { replies, .. }, _) => { self.are_told(is_switched, replies.as_slice()) }
            (What::Read { reply, .. }, Some(select)) => rows.are(select, reply),
            (What::Preview { reply, .. }, Some(select)) => self.new.are(select, reply),
            _ => false,
        }
    }

    fn are_told(&self, is_switched: bool, replies: &[Reply]) -> bool {
        if is_switched {
            self.are_new(replies)
        } else {
            self.old_replies.as_slice() == replies
        }
    }

    /// Whether the last slot as edited has these replies.
    fn are_new(&self, replies: &[Reply]) -> bool {
        match &self.new_replies {
            Some(new) => new.as_slice() == replies,
            None => false,
        }
    }

    /// Whether this is the change of an answer of this time: none where the edited slots lead to
    /// the same rows or replies.
    pub(super) fn has_change(&self, what: &What, change: Option<&Changed>) -> bool {
        match what {
            What::Write { replies, .. } => self.has_change_of_write(replies, change),
            What::Read { select, reply, .. } => self.has_change_of_read(select, reply, change),
            _ => change.is_none(),
        }
    }

    fn has_change_of_write(&self, replies: &Items<Reply>, change: Option<&Changed>) -> bool {
        match change {
            Some(change) => {
                change.before == *replies
                    && !self.are_new(replies.as_slice())
                    && self.are_after(&change.after)
            }
            None => self.are_new(replies.as_slice()),
        }
    }

    /// Whether this stands in the place of the replies of the last slot.
    fn are_after(&self, after: &After) -> bool {
        match after {
            After::Cancelled => self.new_replies.is_none(),
            After::Replies(told) => self.are_new(told.as_slice()),
        }
    }

    fn has_change_of_read(&self, select: &Select, reply: &Reply, change: Option<&Changed>) -> bool {
        let Some(change) = change else {
            return self.new.are(select, reply);
        };
        let is_before = match change.before.as_slice() {
            [before] => before == reply,
            _ => false,
        };
        is_before && !self.new.are(select, reply) && self.is_after(select, &change.after)
    }

    /// Whether this stands in the place of the rows of a select.
    fn is_after(&self, select: &Select, after: &After) -> bool {
        match after {
            After::Replies(told) => match told.as_slice() {
                [reply] => self.new.are(select, reply),
                _ => false,
            },
            After::Cancelled => false,
        }
    }

    /// Whether these are the rows of the edited slots.
    pub(super) fn is_current(&self, select: &Select, reply: &Reply) -> bool {
        self.new.are(select, reply)
    }
}

fn replies_of(effect: Effect) -> Items<Reply> {
    let Effect {
        replies,
        touched: _,
        matched: _,
    } = effect;
    replies
}
