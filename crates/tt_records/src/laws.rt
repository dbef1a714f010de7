//! Laws of the definitions that the contracts of this crate speak by. Each is the contract of a
//! function with an empty body.
ghost use Rattle.tt_records.specs.Laws.{NextChangesEndAsChanges};

/// Once the repair under way has done all slots, `changes_next` lists what `changes` lists right
/// after the switch.
#[tactic(auto, using(crate::proofs::NextLemmas::next_changes_end_as_changes))]
pub fn next_changes_end_as_changes()
    ensures { NextChangesEndAsChanges }
{}
