//! A repair as one call. What finds the replies that it has changed is `tt_records`, which is
//! exported here too.
#![tactic(auto)]

mod repair_fault;
mod repaired;
mod repairing;

pub use repair_fault::{Phase, RepairFault};
pub use repaired::Repaired;
pub use repairing::repair;
pub use tt_records::{After, Changed, Record, What, changes, changes_next};
