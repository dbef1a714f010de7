//! A database that forgets what lies before a time. The rows of that time become the ground that
//! the rest stands on: from it on the database answers as before, and it has room again.
#![tactic(auto)]

mod actions;
mod forgetting;
mod forgotten_database;
mod ground;
pub mod laws;
mod laying;
mod slots_behind;

pub use forgetting::{ForgetError, forgotten};
pub use forgotten_database::Forgotten;
pub use laying::{GROUND_WORKER, has_inserted, inserts_alone};
