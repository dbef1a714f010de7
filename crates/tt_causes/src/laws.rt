//! Laws of causes and of differences, for the proofs of the crates above. Each is the contract of a
//! function with an empty body.
ghost use Rattle.tt_causes.specs.Numbers.{NumbersTellWhatIsDirty, NoNumbersAtFirst, NumbersStayUndue, NumbersGrow, LaterSlotsChangeNoNumber};
ghost use Rattle.tt_causes.specs.Laws.{WhatIsDirtyStaysDirty, DueSlotsHaveCause, CausesAreAsMany, CausesNameWhatGotDirty, CausesLeadToAnEdit, LaterSlotsChangeNoCause, CausesAreFoundByNumbers, DifferentRowsAreDirty, DifferencesLeadToEditedContent, DifferencesLeadToSwitch};

/// What is dirty after some slots of a repair stays dirty.
pub fn what_is_dirty_stays_dirty()
    ensures { WhatIsDirtyStaysDirty }
{}

/// A slot has a cause exactly where it is due.
pub fn due_slots_have_a_cause()
    ensures { DueSlotsHaveCause }
{}

/// There are as many slots with a cause as are re-executed.
pub fn causes_are_as_many()
    ensures { CausesAreAsMany }
{}

/// What a cause names got dirty with the slot since which it holds. That slot is due, and stands
/// before the slot whose cause it is.
pub fn causes_name_what_got_dirty()
    ensures { CausesNameWhatGotDirty }
{}

/// Each slot that is re-executed is so by a chain of causes that ends at an edit.
pub fn causes_lead_to_an_edit()
    ensures { CausesLeadToAnEdit }
{}

/// Slots that are added during a repair change no cause.
pub fn later_slots_change_no_cause()
    ensures { LaterSlotsChangeNoCause }
{}

/// The cause of a slot that a repair has done is found by the numbers of the slots with which rows,
/// partitions and tables got dirty.
pub fn causes_are_found_by_numbers()
    ensures { CausesAreFoundByNumbers }
{}

/// A row that differs is dirty.
pub fn different_rows_are_dirty()
    ensures { DifferentRowsAreDirty }
{}

/// With what differs after n slots, a table is as the first n edited slots leave it.
pub fn differences_lead_to_the_edited_content()
    ensures { DifferencesLeadToEditedContent }
{}

/// With what differs after all slots, a table is as it is right after the switch.
pub fn differences_lead_to_the_switch()
    ensures { DifferencesLeadToSwitch }
{}

/// Numbers are told exactly of what is dirty.
pub fn numbers_tell_what_is_dirty()
    ensures { NumbersTellWhatIsDirty }
{}

/// At first there are no numbers.
pub fn no_numbers_at_first()
    ensures { NoNumbersAtFirst }
{}

/// Numbers stay with a slot that isn't due.
pub fn numbers_stay_undue()
    ensures { NumbersStayUndue }
{}

/// What gets dirty with a slot has its number.
pub fn numbers_grow()
    ensures { NumbersGrow }
{}

/// Numbers stay with slots that are added during a repair.
pub fn later_slots_change_no_number()
    ensures { LaterSlotsChangeNoNumber }
{}
