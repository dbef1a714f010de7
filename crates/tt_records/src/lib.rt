//! Which replies a repair has changed: the records of calls as they were answered, and what the
//! same calls would be answered now, or after a repair that is under way.
#![tactic(auto)]

mod changed;
mod comparison;
pub mod laws;
mod next;
mod record;
mod slots_in_order;

pub use changed::{After, Changed};
pub use comparison::{change_of, changes};
pub use next::{changes_next, next_change_of};
pub use record::{Record, What};
pub use slots_in_order::SlotsInOrder;
