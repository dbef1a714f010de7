//! Laws of the definitions that the contracts of this crate speak by. Each is the contract of a
//! function with an empty body.
ghost use Rattle.tt_workload.specs.Laws.{ChangedCallsStand, CallsToChangeStand};

/// Each changed reply of the first calls is that of a call that took a slot, or was answered at a
/// time. So a report as JSON has as many lines of changed replies as one that is text.
#[tactic(auto, using(crate::proofs::StandingLemmas::changed_calls_stand))]
pub fn changed_calls_stand()
    ensures { ChangedCallsStand }
{}

/// And so is each reply that the repair under way would change.
#[tactic(auto, using(crate::proofs::StandingLemmas::calls_to_change_stand))]
pub fn calls_to_change_stand()
    ensures { CallsToChangeStand }
{}
