//! Laws of the definitions that the contracts of this crate speak by. Each is the contract of a
//! function with an empty body.
ghost use Rattle.tt_requests.specs.Judged.{RequestsAreJudged};
ghost use Rattle.tt_requests.specs.NewestVersion.{RequestsReadTheSame};
ghost use Rattle.tt_requests.specs.SessionLine.{RequestsAreNoOpenings};
ghost use Rattle.tt_requests.specs.NumberLaws.{NumbersAreToldExactly};

/// A request that is read, as of any version, has been judged by the tables that it is read with:
/// its select, its action and the actions that are to replace others have no fault, and it begins a
/// repair with at most [`MAX_EDITS`](tt_grammar::MAX_EDITS) edits.
pub fn requests_are_judged()
    ensures { RequestsAreJudged }
{}

/// A request that has no fault in a version of the grammar is read the same in the newest one. So
/// what a client sends that was written for an older version means the same there, and so does a
/// log of such requests.
pub fn requests_read_the_same()
    ensures { RequestsReadTheSame }
{}

/// No request that has no fault is an opening. So a line that is one can be told by its version in a
/// session that is open.
#[tactic(auto, using(crate::proofs::SessionLineLemmas::requests_are_no_openings))]
pub fn requests_are_no_openings()
    ensures { RequestsAreNoOpenings }
{}

/// The numbers of a database up to [`NUMBER_LIMIT`](crate::NUMBER_LIMIT) are told exactly, and what
/// they are told as is looked up as the same.
pub fn numbers_are_told_exactly()
    ensures { NumbersAreToldExactly }
{}
