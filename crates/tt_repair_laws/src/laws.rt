//! Laws of repairs, for the proofs of the crates above. Each is the contract of a function with an
//! empty body.
ghost use Rattle.tt_repair_laws.specs.Laws.{ActionsAreAffectedByTheirWrites, NoAffectedSlotIsMissed, CleanRowsAgree, DirtyRowsLieInDirtyPartitions, LaterSlotsChangeNoRepair, EditedSlotsAreAsMany, EditedSlotIsNext, UneditedSlotsStay, LaterSlotsStay};
ghost use Rattle.tt_repair_laws.specs.Steps.{DueDependsOnMembers, DirtyRowsDependOnMembers, DirtyRowsGrow, NothingIsDirtyAtFirst, UndueSlotsDirtyNothing, DueSlotsDirtyReexecutedRows, NoSlotIsReexecutedAtFirst, DueSlotsAreReexecuted, UndueSlotsAreNotReexecuted, UnwrittenRowsStay, UntouchedRowsStay, WrittenRowsAreTouched, WrittenRowsAreMatched, UpdatesAndDeletesWriteWhatTheyMatch, ContentAfterIsKept};
ghost use Rattle.tt_repair_laws.specs.NextSide.{LastRowsStay, LastEditedRowsStay, DirtyRowsAreAsEdited, CleanRowsAreAsCurrent, NextSideBeginsAsCurrent, NextSideShowsEditedSlots, UndueSlotsLeaveNextSide, DueSlotsChangeReexecutedRows, LaterSlotsLeaveDirtyRows, NextSideEndsAsEditedSlots};

/// An action is affected exactly where its first write is, or the others are on the content that
/// this write leaves. Where the first write of a whole action has no effect, all that counts of the
/// others is whether one of them names a dirty row or isn't clear.
pub fn actions_are_affected_by_their_writes()
    ensures { ActionsAreAffectedByTheirWrites }
{}

/// A slot that isn't due is the same among the edited slots, with the same row writes and the same
/// replies, and writes and touches the same rows in the same order.
pub fn no_affected_slot_is_missed()
    ensures { NoAffectedSlotIsMissed }
{}

/// A row that isn't dirty after the first n slots is the same at each time up to n, by the slots
/// and by the edited slots.
pub fn clean_rows_agree()
    ensures { CleanRowsAgree }
{}

/// The partitions in which a dirty row lies after the first n edited slots are dirty.
pub fn dirty_rows_lie_in_dirty_partitions()
    ensures { DirtyRowsLieInDirtyPartitions }
{}

/// Slots that are added during a repair change nothing of the repair so far.
pub fn later_slots_change_no_repair()
    ensures { LaterSlotsChangeNoRepair }
{}

/// There are as many edited slots as slots.
pub fn edited_slots_are_as_many()
    ensures { EditedSlotsAreAsMany }
{}

/// An edited slot is the slot with its edit.
pub fn edited_slot_is_next()
    ensures { EditedSlotIsNext }
{}

/// A slot without an edit stays the same.
pub fn unedited_slots_stay()
    ensures { UneditedSlotsStay }
{}

/// Slots that are added, and have no edit, stay the same, behind the edited slots.
pub fn later_slots_stay()
    ensures { LaterSlotsStay }
{}

/// Whether a slot is due depends only on the members of the dirty set.
pub fn due_depends_on_members()
    ensures { DueDependsOnMembers }
{}

/// Sets with the same members have the same members after the same rows get dirty in both.
pub fn dirty_rows_depend_on_members()
    ensures { DirtyRowsDependOnMembers }
{}

/// After rows get dirty, these rows are dirty and those that were before, and no others.
pub fn dirty_rows_grow()
    ensures { DirtyRowsGrow }
{}

/// At first nothing is dirty.
pub fn nothing_is_dirty_at_first()
    ensures { NothingIsDirtyAtFirst }
{}

/// Nothing gets dirty with a slot that isn't due.
pub fn undue_slots_dirty_nothing()
    ensures { UndueSlotsDirtyNothing }
{}

/// With a slot that is due the re-executed rows get dirty, one after another.
pub fn due_slots_dirty_the_reexecuted_rows()
    ensures { DueSlotsDirtyReexecutedRows }
{}

/// At first no slot is re-executed.
pub fn no_slot_is_reexecuted_at_first()
    ensures { NoSlotIsReexecutedAtFirst }
{}

/// A slot that is due adds one to the slots that are re-executed.
pub fn due_slots_are_reexecuted()
    ensures { DueSlotsAreReexecuted }
{}

/// A slot that isn't due adds none.
pub fn undue_slots_are_not_reexecuted()
    ensures { UndueSlotsAreNotReexecuted }
{}

/// A slot leaves each row as it is that it doesn't write.
pub fn unwritten_rows_stay()
    ensures { UnwrittenRowsStay }
{}

/// A slot leaves each row as it is that it doesn't touch.
pub fn untouched_rows_stay()
    ensures { UntouchedRowsStay }
{}

/// A slot touches each row that it writes, and its writes match each row that it touches.
pub fn written_rows_are_touched()
    ensures { WrittenRowsAreTouched }
{}

/// A write matches each row that it writes.
pub fn written_rows_are_matched()
    ensures { WrittenRowsAreMatched }
{}

/// An update and a delete write the rows that they match, and no others.
pub fn updates_and_deletes_write_what_they_match()
    ensures { UpdatesAndDeletesWriteWhatTheyMatch }
{}

/// The content after the first n slots is that of all slots at time n.
pub fn content_after_is_kept()
    ensures { ContentAfterIsKept }
{}

/// After the last of the first n slots each row stays the same.
pub fn last_rows_stay()
    ensures { LastRowsStay }
{}

/// After the last of the first n edited slots each row stays the same.
pub fn last_edited_rows_stay()
    ensures { LastEditedRowsStay }
{}

/// A dirty row is on the next side as the first n edited slots leave it.
pub fn dirty_rows_are_as_edited()
    ensures { DirtyRowsAreAsEdited }
{}

/// A row that isn't dirty is on the next side as on the current side.
pub fn clean_rows_are_as_current()
    ensures { CleanRowsAreAsCurrent }
{}

/// At first the next side of each table is the current side.
pub fn next_side_begins_as_the_current_one()
    ensures { NextSideBeginsAsCurrent }
{}

/// After n slots the next side shows the first n edited slots, at each time up to n.
pub fn next_side_shows_the_edited_slots()
    ensures { NextSideShowsEditedSlots }
{}

/// A slot that isn't due leaves the next side as it is.
pub fn undue_slots_leave_the_next_side()
    ensures { UndueSlotsLeaveNextSide }
{}

/// A slot that is due changes only the re-executed rows of the next side: from its time on, each is
/// as the edited slots leave it.
pub fn due_slots_change_the_reexecuted_rows()
    ensures { DueSlotsChangeReexecutedRows }
{}

/// A slot that is added during a repair leaves the dirty rows of the next side as they are; any
/// other row is as on the current side.
pub fn later_slots_leave_dirty_rows()
    ensures { LaterSlotsLeaveDirtyRows }
{}

/// After all slots the next side shows the edited slots, at each time.
pub fn next_side_ends_as_the_edited_slots()
    ensures { NextSideEndsAsEditedSlots }
{}
