//! Laws of the definitions in this crate's contracts and in those of the crates above. Each law is
//! the contract of a function with an empty body.
ghost use Rattle.tt_values.specs.Laws.{ShowsLastRowWrite, RowsRise, SlotsFollow, LaterSlotsChangeNothing, PastStays, LastContentStays, NextContent, OneKeyChanges, RowsStayByRisingKey, RowWriteChangesOneRow, LastRowWriteCounts, EarlierSlotsStay, AddedSlotIsNext, AddedSlotLeavesPast, AcceptedInsertsHaveKeys, AcceptedUpdatesKeepKeys, CatalogsGrow};
ghost use Rattle.tt_values.specs.ActionLaws.{WritesLeaveTheirLastContent, ActionLeavesItsLastContent, ActionOfOneWrite, FewWritesAreWhole, EffectiveWritesAreWhole, IdleWritesChangeNothing, UndoneActionsChangeNothing, AllWritesAreTried, UndoneActionsStop, WritesWriteEachRowOnce, ActionWritesEachRowOnce, WrittenRowsAreTouched, WritesFollow, ActionsFollow, UndoneActionsStayUndone, AcceptedActionsHaveKeys};
ghost use Rattle.tt_values.specs.Same.{SameRepliesAreEqual, SameWritesAreEqual, SameActionsAreEqual};

/// At each time, table and key the content has the row of the last row write so far, or no row if
/// there is no row write or the last one is a delete.
pub fn shows_last_row_write()
    ensures { ShowsLastRowWrite }
{}

/// The rows of a table are in strictly ascending order of their keys.
pub fn rows_rise()
    ensures { RowsRise }
{}

/// A further slot adds its row writes on the content before it, at the next time.
pub fn slots_follow()
    ensures { SlotsFollow }
{}

/// The row writes of the first slots don't depend on later slots.
pub fn later_slots_change_nothing()
    ensures { LaterSlotsChangeNothing }
{}

/// Further slots don't change the content at an earlier time.
pub fn past_stays()
    ensures { PastStays }
{}

/// After the last slot the content stays the same.
pub fn last_content_stays()
    ensures { LastContentStays }
{}

/// The content after a slot is the one before it with the slot's row writes.
pub fn next_content()
    ensures { NextContent }
{}

/// Setting or removing the row of one key changes that key and no other.
pub fn one_key_changes()
    ensures { OneKeyChanges }
{}

/// Setting or removing a row leaves the rows in order.
pub fn rows_stay_by_rising_key()
    ensures { RowsStayByRisingKey }
{}

/// A row write changes one key of one table.
pub fn row_write_changes_one_row()
    ensures { RowWriteChangesOneRow }
{}

/// After several row writes, a key has the row of the last one for it, or its old row if there is
/// none.
pub fn last_row_write_counts()
    ensures { LastRowWriteCounts }
{}

/// A longer list of slots begins with the same slots.
pub fn earlier_slots_stay()
    ensures { EarlierSlotsStay }
{}

/// A slot that is added to a list is the one after all others.
pub fn added_slot_is_next()
    ensures { AddedSlotIsNext }
{}

/// A slot that is added doesn't change the contents up to now.
pub fn added_slot_leaves_past()
    ensures { AddedSlotLeavesPast }
{}

/// An insert without a fault has a row with a key.
pub fn accepted_inserts_have_keys()
    ensures { AcceptedInsertsHaveKeys }
{}

/// An update without a fault leaves the key of every row as it is.
pub fn accepted_updates_keep_keys()
    ensures { AcceptedUpdatesKeepKeys }
{}

/// The row writes of some writes leave the content after these, one after another.
pub fn writes_leave_their_last_content()
    ensures { WritesLeaveTheirLastContent }
{}

/// The row writes of an action leave the content after it.
pub fn action_leaves_its_last_content()
    ensures { ActionLeavesItsLastContent }
{}

/// An action of one write, whole or not, makes the row writes of that write, and has its reply.
pub fn action_of_one_write()
    ensures { ActionOfOneWrite }
{}

/// Of an action of at most one write it doesn't matter whether it is whole.
pub fn few_writes_are_whole()
    ensures { FewWritesAreWhole }
{}

/// Of an action of which each write has an effect it doesn't matter whether it is whole.
pub fn effective_writes_are_whole()
    ensures { EffectiveWritesAreWhole }
{}

/// A write without an effect writes no rows, and leaves the content as it was.
pub fn idle_writes_change_nothing()
    ensures { IdleWritesChangeNothing }
{}

/// An undone action, a whole one of which a write has no effect, leaves the content as it was, and
/// has no effect.
pub fn undone_actions_change_nothing()
    ensures { UndoneActionsChangeNothing }
{}

/// Of an action that isn't undone all writes are carried out.
pub fn all_writes_are_tried()
    ensures { AllWritesAreTried }
{}

/// Of an undone action the writes are carried out up to the first without an effect: each before it
/// has one.
pub fn undone_actions_stop()
    ensures { UndoneActionsStop }
{}

/// The effect of some writes has the rows that they write, and no others, each once: by table, then
/// by key.
pub fn writes_write_each_row_once()
    ensures { WritesWriteEachRowOnce }
{}

/// The effect of an action has the rows that it touches, or none if it is undone, each once: by
/// table, then by key.
pub fn action_writes_each_row_once()
    ensures { ActionWritesEachRowOnce }
{}

/// An action touches each row that it writes.
pub fn written_rows_are_touched()
    ensures { WrittenRowsAreTouched }
{}

/// The last of some writes are carried out on the content that those before them left.
pub fn writes_follow()
    ensures { WritesFollow }
{}

/// The writes at the end of an action are carried out on the content that those before them left,
/// unless these undo it.
pub fn actions_follow()
    ensures { ActionsFollow }
{}

/// An action is undone as soon as its first writes are, and the others aren't carried out.
pub fn undone_actions_stay_undone()
    ensures { UndoneActionsStayUndone }
{}

/// Each insert of an action without a fault has a row with a key.
pub fn accepted_actions_have_keys()
    ensures { AcceptedActionsHaveKeys }
{}

/// Two lists of replies are the same, item by item, exactly where they are equal.
pub fn same_replies_are_equal()
    ensures { SameRepliesAreEqual }
{}

/// Two lists of writes are the same, item by item, exactly where they are equal.
pub fn same_writes_are_equal()
    ensures { SameWritesAreEqual }
{}

/// Two actions are the same exactly where they are equal.
pub fn same_actions_are_equal()
    ensures { SameActionsAreEqual }
{}

/// A catalog stays one as a table without a fault is added.
pub fn catalogs_grow()
    ensures { CatalogsGrow }
{}
