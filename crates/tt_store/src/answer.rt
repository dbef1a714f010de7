ghost use Rattle.std.specs.Prelude.{◌≡◌, Some, IsSome};
ghost use Rattle.tt_store.specs.Store.{IsOfAction, IsOfSwitch};

use tt_db::{Outcome, Progress};
use tt_values::{Items, Reply};

/// The answer to a read, and the time that it is of: for `read` the current time, for `read_at` and
/// `read_in` the time asked for, for `preview` the number of slots done.
#[derive(Clone, Debug, PartialEq, Drop)]
pub struct Answer {
    pub time: u64,
    pub reply: Reply,
}

/// An action that was carried out: the place of its entry in the history, its slot, and the replies
/// to its writes. Places and slots count from 1.
#[derive(Clone, Debug, PartialEq, Drop)]
pub struct Written {
    pub place: u64,
    pub slot: u64,
    pub replies: Items<Reply>,
}

/// A repair that was finished: the generation that is now current, the place of its switch in the
/// history, how many slots it has, and how many of them were re-executed.
#[derive(Clone, Copy, Debug, PartialEq, Eq)]
pub struct Finished {
    pub generation: u64,
    pub place: u64,
    pub slots: u64,
    pub rerun: u64,
}

/// An action that was carried out, by the place of its entry and its outcome.
pub(crate) fn written_of(place: u64, outcome: Option<Outcome>) -> Written
    requires { IsOfAction outcome }
    ensures outcome { outcome ≡ Some (Outcome.Written result.slot result.replies) }
    ensures place { result.place ≡ place }
{
    match outcome {
        Some(Outcome::Written { slot, replies }) => Written {
            place,
            slot,
            replies,
        },
        _ => unreachable!(),
    }
}

/// A repair that was finished, by the place of its switch and the outcome of that.
pub(crate) fn finished_of(place: u64, outcome: Option<Outcome>) -> Finished
    requires { IsOfSwitch outcome }
    ensures outcome { outcome
        ≡ Some (Outcome.Switched result.generation result.slots result.rerun) }
    ensures place { result.place ≡ place }
{
    match outcome {
        Some(
            Outcome::Switched {
                generation,
                slots,
                rerun,
            },
        ) => Finished {
            generation,
            place,
            slots,
            rerun,
        },
        _ => unreachable!(),
    }
}

/// How far a repair is that is under way.
pub(crate) fn progress_of(progress: Option<Progress>) -> Progress
    requires { IsSome progress }
    ensures { progress ≡ Some result }
{
    progress.unwrap()
}
