//! Laws of the definitions that the contracts of this crate speak by. Each is the contract of a
//! function with an empty body.
ghost use Rattle.tt_commands.specs.Invariants.{RequestsKeepSessionsSound, RepairsCanEnd};
ghost use Rattle.tt_commands.specs.Laws.{OtherErrorsAnswerNoLine, NextChangesEndAsChanges};

/// A repair that is under way can be finished, with none of its steps refused, and can be given up:
/// where the history is legal (`Db::events` tells so) and has room for the end of the repair (as
/// [`OpenSession::db`](crate::OpenSession::db) tells of each session).
#[tactic(auto, using(crate::proofs::LawLemmas::repairs_can_end))]
pub fn repairs_can_end()
    ensures { RepairsCanEnd }
{}

/// Whatever an open session is asked and carries out, it is sound afterwards: its history is legal,
/// there is room for the end of a repair that is under way, and no more records are kept than may
/// be.
pub fn requests_keep_sessions_sound()
    ensures { RequestsKeepSessionsSound }
{}

/// No request is answered with the database's error for a statement with a fault, for too many
/// edits, for a step where nothing is left, or for a switch where slots are left.
#[tactic(auto, using(crate::proofs::RefusalLemmas::other_errors_answer_no_line))]
pub fn other_errors_answer_no_line()
    ensures { OtherErrorsAnswerNoLine }
{}

/// Once the repair under way has done all slots, `next` tells the changes that `now` tells right
/// after the switch.
pub fn next_changes_end_as_changes()
    ensures { NextChangesEndAsChanges }
{}
