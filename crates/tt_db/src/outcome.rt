use crate::errors::DbError;
use tt_values::{Items, Reply};

/// The outcome of an accepted event.
#[derive(Clone, Debug, PartialEq, Drop)]
pub enum Outcome {
    /// An action took the slot of this number, counted from 1, and these are the replies to its
    /// writes, of a whole action up to the first without an effect.
    Written {
        slot: u64,
        replies: Items<Reply>,
    },
    /// A repair has begun.
    Begun,
    /// The repair has done the slot of this number: `rerun` says whether it was re-executed.
    Stepped {
        slot: u64,
        rerun: bool,
    },
    /// The next generation has become the current one: its number, how many slots it has, and how
    /// many of them the repair re-executed.
    Switched {
        generation: u64,
        slots: u64,
        rerun: u64,
    },
    /// The repair was given up.
    Aborted,
}

/// The outcome of an action that was carried out.
#[derive(Clone, Debug, PartialEq, Drop)]
pub struct WriteOutcome {
    /// The number of its slot, counted from 1.
    pub slot: u64,
    /// The replies to its writes, of a whole action up to the first without an effect.
    pub replies: Items<Reply>,
}

/// The outcome of one step of a repair.
#[derive(Clone, Copy, Debug, PartialEq, Eq)]
pub struct StepOutcome {
    /// The number of the slot that the repair has done.
    pub slot: u64,
    /// Whether the slot was re-executed.
    pub rerun: bool,
}

/// The outcome of a switch.
#[derive(Clone, Copy, Debug, PartialEq, Eq)]
pub struct SwitchOutcome {
    /// The number of the generation that has become the current one.
    pub generation: u64,
    /// How many slots it has.
    pub slots: u64,
    /// How many of them the repair re-executed.
    pub rerun: u64,
}

/// Steps of a repair that were made together.
#[derive(Debug, PartialEq, Drop)]
pub struct StepsMade {
    /// How many.
    pub count: u64,
    /// The outcome of the last of them.
    pub last: Option<Outcome>,
    /// Where more were asked for, why the next one is refused.
    pub refusal: Option<DbError>,
}
