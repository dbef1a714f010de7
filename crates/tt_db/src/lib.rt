//! A database in one thread, with repair. Its history is always legal: every outcome, reply and
//! refusal is the one that a sequential table of two generations gives at that point of the
//! history.
#![tactic(auto)]

mod closed;
mod database;
mod errors;
mod event;
mod history;
pub mod laws;
mod limits;
mod outcome;
mod refusals;
mod transition;

pub use database::Db;
pub use errors::{DbError, ReadError};
pub use event::{Entry, Event};
pub use limits::Limits;
pub use outcome::{Outcome, StepOutcome, StepsMade, SwitchOutcome, WriteOutcome};
pub use tt_generations::{
    Cause, Edit, FirstChanges, FirstRows, MAX_SLOTS, Progress, RowChange, Slot, Slots,
};

/// The largest limit of entries.
pub const MAX_EVENTS: u64 = 4_000_000;

/// The largest limit of edits in one repair.
pub const MAX_EDITS: u32 = 10_000;

/// The largest limit of closed generations that are kept.
pub const MAX_KEEP: u32 = 16;
