//! The tables of two generations: the slots of the current one with the rows that they leave, and
//! beside them, while a repair is under way, those that the next one is to have.
#![tactic(auto)]

mod action_run;
mod affected;
mod boxed_repair;
mod cause;
mod causes;
mod edits;
mod effect;
mod first_rows;
mod generations;
mod progress;
mod reexecution;
mod repair;
mod row_change;
mod row_ids;
mod rows;
mod search;
mod since;
mod slot;
mod slots;

pub use cause::Cause;
pub use first_rows::FirstRows;
pub use generations::Generations;
pub use progress::Progress;
pub use row_change::{FirstChanges, RowChange};
pub use slot::Slot;
pub use slots::Slots;
pub use tt_repair_laws::Edit;

/// The largest number of slots.
pub const MAX_SLOTS: u64 = 1_000_000;
